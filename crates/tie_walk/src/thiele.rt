//! The values of Thiele's rules: one pass over the rows, with a table that is made once. The bound of a prefix is the
//! value of its set plus the highest gains at it, since gains only fall as a committee grows.
ghost use Rattle.std.specs.Prelude.{◌≡◌, ℕ, ◌^◌, ◌≤◌, true, slice_index};
ghost use Rattle.ballot_base.specs.Limits.{most_members, most_thiele_value};
ghost use Rattle.ballot_base.specs.CandSet.{has_member};
ghost use Rattle.ballot_base.specs.Increments.{increments};
ghost use Rattle.tie_walk.specs.Ceilings.{IsTight, ceiling};
ghost use Rattle.tie_walk.specs.Sequences.{gain};
ghost use Rattle.tie_walk.specs.Values.{Thiele, tally_value, thiele_of};
ghost use Rattle.tie_walk.specs.Steps.Tables.{IsThiele};

use crate::sequential::Step;
use crate::tally::{Tally, greatest_sum};
use ballot_base::{
    CandSet, Increments, MOST_CANDIDATES, MOST_MEMBERS, PLACES, Profile, ThieleRule, Worths,
};
use std::alloc::{Allocator, Global};
use std::marker::Model;

/// The values under a Thiele rule, times the common denominator of its increments. Contracts see the election, the
/// rule and the size of a committee.
#[derive(Drop)]
pub struct ThieleTally<'a, A: Allocator + Copy = Global> {
    profile: &'a Profile<A>,
    m: u8,
    rule: ThieleRule,
    k: u8,
    // What the x-th member adds, at x - 1.
    weights: [u128; MOST_MEMBERS as usize],
    // What the first x members add, at x.
    sums: [u128; PLACES],
}

impl<'a, A: Allocator + Copy> Model for ThieleTally<'a, A> {
    ghost Value = { Thiele };

    ghost view = { λ t. thiele_of t.profile.now t.rule t.k };

    ghost invariant = { λ t. IsThiele t.profile.now t.m t.rule t.k t.weights t.sums };
}

impl<'a, A: Allocator + Copy> ThieleTally<'a, A> {
    /// The values for committees of size k, 1 to `MOST_MEMBERS`. A larger set has a value too: the members past the
    /// k-th whom a voter approves add nothing. Under approval voting no bound is too high. Allocates nothing.
    pub fn new(profile: &'a Profile<A>, rule: ThieleRule, k: u8) -> ThieleTally<'a, A>
        requires some { 1 ≤ k }
        requires size { k ≤ most_members }
        ensures tally { result ≡ thiele_of profile.now rule k }
        ensures tight { let tallies = ⟦<ThieleTally<'a, A> as Tally>⟧ in result.rule ≡ ThieleRule.Av
            → IsTight (tallies.value_of result) (tallies.bound_of result) (tallies.candidates result) result.k }
    {
        let weights = Increments::of(rule, k).w;
        let mut sums = [0; PLACES];
        for x in 0..usize::from(MOST_CANDIDATES) {
            let more = if x < weights.len() { weights[x] } else { 0 };
            sums[x + 1] = sums[x] + more;
        }
        ThieleTally {
            profile,
            m: profile.m(),
            rule,
            k,
            weights,
            sums,
        }
    }

    /// The profile of this tally.
    pub fn profile(&self) -> &'a Profile<A>
        ensures { result.now ≡ self.now.election }
    {
        self.profile
    }

    /// The rule of this tally.
    pub fn rule(&self) -> ThieleRule
        ensures { result ≡ self.now.rule }
    {
        self.rule
    }

    /// What `set` gains by each candidate of `others`, at the candidate's number.
    pub fn gains(&self, set: CandSet, others: CandSet) -> Worths
        ensures gains { (n : ℕ) → has_member others n ≡ true → slice_index result n
            ≡ gain (increments self.now.rule self.now.k) self.now.election.rows set n }
        ensures small { (n : ℕ) → slice_index result n ≤ most_thiele_value }
    {
        let mut gains = Worths::none();
        for (ballot, voters) in self.profile.ballots() {
            let hits = ballot.common(set).len();
            let given = u128::from(voters) * Step::Grow.weight(&self.weights, hits);
            if given > 0 {
                gains.add(ballot.common(others), given);
            }
        }
        gains
    }
}

impl<'a, A: Allocator + Copy> Tally for ThieleTally<'a, A> {
    ghost candidates = { λ tally. tally.election.m };

    ghost value_of = { λ tally set. tally_value tally set };

    ghost bound_of = { λ tally c set left. ceiling (tally_value tally) tally.election.m c set left };

    fn m(&self) -> u8 {
        self.m
    }

    fn value(&self, set: CandSet) -> u128 {
        let mut value = 0;
        for (ballot, voters) in self.profile.ballots() {
            let hits = ballot.common(set).len();
            value += u128::from(voters) * self.sums[usize::from(hits)];
        }
        value
    }

    fn bound(&self, c: u8, set: CandSet, left: u8) -> u128 {
        if left == 0 {
            return self.value(set);
        }
        let gains = self.gains(set, CandSet::after(c, self.m));
        self.value(set) + greatest_sum(&gains, c, self.m, left)
    }
}
