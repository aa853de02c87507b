//! Whether a committee represents its voters: justified representation and its stronger forms.
#![tactic(auto)]

mod checking;
pub mod laws;
pub mod property;
mod refutation;

pub use checking::find_violation;
pub use property::{Property, Violation};
