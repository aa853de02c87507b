//! The winners of the sequential rules, kept as families: all committees between two sets, by the number of members of
//! each class of clones.
//!
//! `levels` makes the families, `families` is a tally over them, and `winners` lists their committees by the walk of
//! `tie_walk`. Where families would take too much memory, `question` searches for winners instead.
#![tactic(auto)]

mod families;
pub mod laws;
mod levels;
mod near;
mod question;
mod winners;

pub use families::{Families, FamilyMemory};
pub use winners::FamilyWinners;
