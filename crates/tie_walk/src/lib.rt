//! Winning committees: what gives a committee its value, all committees with the highest value, and the plain form of
//! the sequential rules.
//!
//! `tally` has the trait for values and bounds; `approval`, `satisfaction`, `thiele` and `minimax` implement it for a
//! profile. Once `best` has found the highest value, `winners` lists the winning committees of any tally by the walk in
//! `walk`. `sequential` stands apart.
#![tactic(auto)]

pub mod approval;
mod best;
pub mod laws;
pub mod minimax;
pub mod satisfaction;
pub mod sequential;
pub mod tally;
pub mod thiele;
mod walk;
pub mod winners;

pub use approval::ApprovalTally;
pub use minimax::MinimaxTally;
pub use satisfaction::SavTally;
pub use sequential::{SeqRule, SeqWinners};
pub use tally::Tally;
pub use thiele::ThieleTally;
pub use winners::Winners;
