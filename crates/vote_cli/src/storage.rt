//! Where ballots are kept, and how they are found there.

use ballot_base::BallotHashing;

/// Where ballots are kept: the memory that they take, and the parameters of the hash that finds equal ballots.
#[derive(Clone, Copy)]
pub struct Storage<A> {
    /// The allocator.
    pub alloc: A,
    /// The parameters of the hash.
    pub hashing: BallotHashing,
}
