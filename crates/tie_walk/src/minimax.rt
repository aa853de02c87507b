//! Minimax approval voting in its plain form. `minimax_search` uses its `value` and `bound`; only tests walk over it.
//!
//! The bound of a prefix comes from the distances on the candidates decided so far, which only grow.
ghost use Rattle.std.specs.Prelude.{◌≡◌};
ghost use Rattle.ballot_base.specs.Ballots.{Election};
ghost use Rattle.tie_walk.specs.Ceilings.{closeness_upto};
ghost use Rattle.tie_walk.specs.Values.{closeness};

use crate::tally::Tally;
use ballot_base::{CandSet, Profile};
use std::alloc::{Allocator, Global};
use std::marker::Model;

/// The values under minimax approval voting: the number of candidates minus the maximum distance from a voter's ballot.
/// Contracts see the election.
#[derive(Drop)]
pub struct MinimaxTally<'a, A: Allocator + Copy = Global> {
    profile: &'a Profile<A>,
}

impl<'a, A: Allocator + Copy> Model for MinimaxTally<'a, A> {
    ghost Value = { Election };

    ghost view = { λ t. t.profile.now };
}

impl<'a, A: Allocator + Copy> MinimaxTally<'a, A> {
    /// The values of sets of the profile's candidates. Allocates nothing.
    pub fn new(profile: &'a Profile<A>) -> MinimaxTally<'a, A>
        ensures { result ≡ profile.now }
    {
        MinimaxTally { profile }
    }
}

impl<'a, A: Allocator + Copy> Tally for MinimaxTally<'a, A> {
    ghost candidates = { λ tally. tally.m };

    ghost value_of = { λ tally set. closeness tally.m tally.rows set };

    ghost bound_of = { λ tally c set left. closeness_upto tally.m tally.rows c set };

    fn m(&self) -> u8 {
        self.profile.m()
    }

    fn value(&self, set: CandSet) -> u128 {
        self.bound(self.profile.m(), set, 0)
    }

    fn bound(&self, c: u8, set: CandSet, _left: u8) -> u128 {
        let mut greatest = 0;
        for (ballot, _voters) in self.profile.ballots() {
            greatest = greatest.max(ballot.upto(c).distance(set));
        }
        u128::from(self.profile.m() - greatest)
    }
}
