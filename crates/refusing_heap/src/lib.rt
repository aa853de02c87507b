//! Allocators for tests: `Refusing` refuses one growth, and `Measured` counts the bytes in use.
#![tactic(auto)]

pub mod measured;
pub mod refusing;

pub use measured::{Measured, Usage};
pub use refusing::Refusing;
