//! The values of approval voting, by the number of approvals of each candidate. One pass over the rows finds them. From
//! then on, the value or the bound of a committee of at most k members takes no pass: each member adds its approvals,
//! whoever else is in the committee. So bounds are exact (`laws::tight_bounds`).
ghost use Rattle.std.specs.Prelude.{◌≡◌, ◌≤◌};
ghost use Rattle.ballot_base.specs.Limits.{most_members};
ghost use Rattle.ballot_base.specs.declared.increments.ThieleRule.TheVariants.{Av};
ghost use Rattle.tie_walk.specs.Ceilings.{IsTight, ceiling};
ghost use Rattle.tie_walk.specs.Values.{Thiele, tally_value, thiele_of};
ghost use Rattle.tie_walk.specs.Steps.Tables.{IsApproval};

use crate::tally::{Tally, greatest_sum};
use crate::thiele::ThieleTally;
use ballot_base::{CandSet, Profile, ThieleRule, Worths};
use std::alloc::{Allocator, Global};
use std::marker::Model;

/// The values under approval voting. Contracts see the election, the rule and the size of a committee, as they do of a
/// `ThieleTally`.
#[derive(Drop)]
pub struct ApprovalTally<'a, A: Allocator + Copy = Global> {
    profile: &'a Profile<A>,
    k: u8,
    // How many voters approve each candidate.
    approvals: Worths,
}

impl<'a, A: Allocator + Copy> Model for ApprovalTally<'a, A> {
    ghost Value = { Thiele };

    ghost view = { λ t. thiele_of t.profile.now Av t.k };

    ghost invariant = { λ t. IsApproval t.profile.now t.k t.approvals };
}

impl<'a, A: Allocator + Copy> ApprovalTally<'a, A> {
    /// The values for committees of size k, 1 to `MOST_MEMBERS`. A larger set has a value too: the members past the
    /// k-th whom a voter approves add nothing. No bound is too high: each is the value of some committee. Allocates
    /// nothing.
    pub fn new(profile: &'a Profile<A>, k: u8) -> ApprovalTally<'a, A>
        requires some { 1 ≤ k }
        requires size { k ≤ most_members }
        ensures tally { result ≡ thiele_of profile.now ThieleRule.Av k }
        ensures tight { let tallies = ⟦<ApprovalTally<'a, A> as Tally>⟧ in
            IsTight (tallies.value_of result) (tallies.bound_of result) (tallies.candidates result) result.k }
    {
        let tally = ThieleTally::new(profile, ThieleRule::Av, k);
        let approvals = tally.gains(CandSet::empty(), CandSet::all(profile.m()));
        ApprovalTally {
            profile,
            k,
            approvals,
        }
    }

    /// The same values and bounds, each by a pass over the rows.
    fn by_rows(&self) -> ThieleTally<'a, A>
        ensures { result ≡ self.now }
    {
        ThieleTally::new(self.profile, ThieleRule::Av, self.k)
    }
}

impl<'a, A: Allocator + Copy> Tally for ApprovalTally<'a, A> {
    ghost candidates = { λ tally. tally.election.m };

    ghost value_of = { λ tally set. tally_value tally set };

    ghost bound_of = { λ tally c set left. ceiling (tally_value tally) tally.election.m c set left };

    fn m(&self) -> u8 {
        self.profile.m()
    }

    /// Takes a pass over the rows only if the set has more than k members.
    fn value(&self, set: CandSet) -> u128 {
        if self.k < set.len() {
            return self.by_rows().value(set);
        }
        self.approvals.excess(set, 0)
    }

    /// Takes passes over the rows only if the committee has more than k members.
    fn bound(&self, c: u8, set: CandSet, left: u8) -> u128 {
        if self.k < set.len() + left {
            return self.by_rows().bound(c, set, left);
        }
        self.value(set) + greatest_sum(&self.approvals, c, self.profile.m(), left)
    }
}
