//! Apportionment: how many seats each party gets for its votes, by six methods, with every tied allocation.
#![tactic(auto)]

mod award;
mod claims;
pub mod laws;
pub mod limits;
pub mod method;
mod party;
pub mod shares;

pub use limits::{MOST_PARTIES, MOST_SEATS, MOST_VOTES};
pub use method::{Method, ShareFault};
pub use shares::{Allocation, Shares, share_fault};
