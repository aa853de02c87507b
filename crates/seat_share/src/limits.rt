//! The limits of an apportionment.

/// The maximum number of parties.
pub const MOST_PARTIES: usize = 64;

/// The maximum number of seats.
pub const MOST_SEATS: u16 = 10_000;

/// The maximum number of votes, of all parties together: 2^32.
pub const MOST_VOTES: u64 = 4_294_967_296;
