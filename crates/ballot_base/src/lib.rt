//! Sets of candidates, profiles of approval ballots, and committees in lexicographic order.
#![tactic(auto)]

pub mod cand_set;
pub mod clones;
pub mod hashing;
pub mod increments;
pub mod laws;
pub mod limits;
pub mod multiples;
pub mod profile;
mod rows;
pub mod subsets;
pub mod worths;

pub use cand_set::CandSet;
pub use clones::Clones;
pub use hashing::BallotHashing;
pub use increments::{Increments, ThieleRule};
pub use limits::{MOST_CANDIDATES, MOST_MEMBERS, MOST_VOTERS, PLACES};
pub use multiples::common_multiple;
pub use profile::{AddFault, FinishFault, Profile, ProfileBuilder};
pub use rows::Ballots;
pub use subsets::KSets;
pub use worths::Worths;
