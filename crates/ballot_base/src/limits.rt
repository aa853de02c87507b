//! The limits of an election.

/// The maximum number of candidates, who are numbered from 1.
pub const MOST_CANDIDATES: u8 = 64;

/// The size of a table with a place for each number from 0 to `MOST_CANDIDATES`.
pub const PLACES: usize = MOST_CANDIDATES as usize + 1;

/// The maximum size of a committee that is elected or checked.
pub const MOST_MEMBERS: u8 = 40;

/// The maximum number of voters: 2^32.
pub const MOST_VOTERS: u64 = 4_294_967_296;
