//! The values of satisfaction approval voting. The bound of a prefix is the value of some committee below it, as under
//! approval voting (`laws::tight_bounds`).
ghost use Rattle.std.specs.Prelude.{◌≡◌, ℕ};
ghost use Rattle.ballot_base.specs.Ballots.{Election};
ghost use Rattle.tie_walk.specs.Ceilings.{IsTight, ceiling};
ghost use Rattle.tie_walk.specs.Values.{satisfaction_value};
ghost use Rattle.tie_walk.specs.Steps.Tables.{parts, IsSatisfaction};

use crate::tally::{Tally, greatest_sum};
use ballot_base::{CandSet, PLACES, Profile, Worths, common_multiple};
use std::alloc::{Allocator, Global};
use std::marker::Model;

/// The values under satisfaction approval voting, times the least common multiple of 1 to m. Contracts see the
/// election.
#[derive(Drop)]
pub struct SavTally<'a, A: Allocator + Copy = Global> {
    profile: &'a Profile<A>,
    // What each candidate adds to a committee.
    scores: Worths,
}

impl<'a, A: Allocator + Copy> Model for SavTally<'a, A> {
    ghost Value = { Election };

    ghost view = { λ t. t.profile.now };

    ghost invariant = { λ t. IsSatisfaction t.profile.now t.scores };
}

impl<'a, A: Allocator + Copy> SavTally<'a, A> {
    /// The values of sets of the profile's candidates. No bound is too high: each is the value of some committee.
    /// Allocates nothing.
    pub fn new(profile: &'a Profile<A>) -> SavTally<'a, A>
        ensures tally { result ≡ profile.now }
        ensures tight { let tallies = ⟦<SavTally<'a, A> as Tally>⟧ in (k : ℕ)
            → IsTight (tallies.value_of result) (tallies.bound_of result) (tallies.candidates result) k }
    {
        let shares = parts(common_multiple(profile.m()));
        let mut scores = Worths::none();
        for (ballot, voters) in profile.ballots() {
            let share = shares[usize::from(ballot.len())];
            scores.add(ballot, u128::from(voters) * share);
        }
        SavTally { profile, scores }
    }
}

impl<'a, A: Allocator + Copy> Tally for SavTally<'a, A> {
    ghost candidates = { λ tally. tally.m };

    ghost value_of = { λ tally set. satisfaction_value tally.m tally.rows set };

    ghost bound_of = { λ tally c set left. ceiling (satisfaction_value tally.m tally.rows) tally.m c set left };

    fn m(&self) -> u8 {
        self.profile.m()
    }

    fn value(&self, set: CandSet) -> u128 {
        self.scores.excess(set, 0)
    }

    fn bound(&self, c: u8, set: CandSet, left: u8) -> u128 {
        self.value(set) + greatest_sum(&self.scores, c, self.profile.m(), left)
    }
}

/// `whole / n` at n; 0 at 0.
fn parts(whole: u128) -> [u128; PLACES]
    ensures { result ≡ parts whole }
{
    let mut parts = [0; PLACES];
    for n in 1..PLACES {
        parts[n] = whole / n as u128;
    }
    parts
}
