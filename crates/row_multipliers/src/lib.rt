//! Bounds on the committees that complete a set, with a multiplier for each row of an election.
//!
//! `node` is what a search knows of a set: who is free to join it, and how many do. `multipliers` moves the multipliers
//! of a bound until the bound ends the node, or narrows it. `payoff` learns where a bound pays.
#![tactic(auto)]

pub mod multipliers;
pub mod node;
pub mod payoff;

pub use node::Node;
pub use payoff::Payoff;
