//! The values of sets and what they gain, and a good committee to begin with.
//!
//! The committee grows by the highest gains, and exchanges of members make it better. Any committee works, so it is
//! only proved that its members are candidates of the election.
ghost use Rattle.std.specs.Prelude.{◌≡◌, ℕ, ◌≤◌, true, slice_index};
ghost use Rattle.std.proofs.Props.{props};
ghost use Rattle.ballot_base.specs.CandSet.{has_member};
ghost use Rattle.ballot_base.specs.Increments.{increments};
ghost use Rattle.ballot_base.specs.Limits.{most_candidates};
ghost use Rattle.ballot_base.specs.Lists.{IsIncreasing};
ghost use Rattle.ballot_base.specs.Steps.Lists.{IsIncreasing-prop};
ghost use Rattle.tie_walk.specs.Sequences.{gain};
ghost use Rattle.thiele_search.specs.Steps.Aided.{IsCounted, IsValued};

use crate::columns::Columns;
use ballot_base::{CandSet, ThieleRule, Worths};
use std::alloc::Allocator;
use tie_walk::{Tally, ThieleTally};

/// The maximum number of passes over the members of a committee. Any limit works, and few passes are needed.
const MOST_PASSES: u8 = 64;

/// The values and gains of sets, for committees of `k`. Columns, if they are kept, save passes over the rows.
#[derive(Drop)]
pub(crate) struct Counts<'a, A: Allocator + Copy> {
    pub(crate) tally: ThieleTally<'a, A>,
    pub(crate) k: u8,
    pub(crate) columns: Option<Columns<A>>,
    ghost sound: { IsCounted tally k columns } by { Prim.hlevel (props, IsIncreasing-prop) },
}

impl<A: Allocator + Copy> Counts<'_, A> {
    /// The value of a set.
    pub(crate) fn value(&self, set: CandSet) -> u128
        requires { IsIncreasing 1 self.now.tally.election.m set }
        ensures { IsValued self.now.tally set result }
    {
        match &self.columns {
            // Under `cc` it is the number of voters who approve a member. Counted row by row, long lists of ties took
            // up to twice the instructions.
            Some(columns) if self.tally.rule() == ThieleRule::Cc => columns.covered(set) as u128,
            _ => self.tally.value(set),
        }
    }

    /// The value of all candidates together. No committee has a higher one.
    pub(crate) fn most(&self) -> u128 {
        self.value(CandSet::all(self.tally.m()))
    }

    /// What a set gains by each of the free candidates.
    pub(crate) fn gains(&self, set: CandSet, free: CandSet) -> Worths
        ensures { (n : ℕ) → has_member free n ≡ true → slice_index result n
            ≡ gain (increments self.now.tally.rule self.now.tally.k) self.now.tally.election.rows set n }
    {
        match &self.columns {
            Some(columns) => columns.gains_of(set, free),
            None => self.tally.gains(set, free),
        }
    }

    /// A committee of `k` that grows by one candidate with the highest gain after another, and is made better by
    /// exchanges.
    pub(crate) fn grown(&self) -> CandSet
        ensures { IsIncreasing 1 self.now.tally.election.m result }
    {
        let all = CandSet::all(self.tally.m());
        let mut committee = CandSet::empty();
        for _joined in 0..self.k {
            let others = all.minus(committee);
            let gains = self.gains(committee, others);
            let Some(next) = gains.best_of(others) else {
                break;
            };
            committee = committee.with(next);
        }
        self.exchanged(committee)
    }

    /// Exchanges members of a committee until no exchange makes it better.
    pub(crate) fn exchanged(&self, committee: CandSet) -> CandSet
        ensures { IsIncreasing 1 self.now.tally.election.m result }
    {
        let mut best = CandSet::all(self.tally.m()).common(committee);
        for _pass in 0..MOST_PASSES {
            let before = best;
            for member in before.members() {
                best = self.replaced(best, member);
            }
            if best == before {
                break;
            }
        }
        best
    }

    /// The committee with the candidate of the highest gain in a member's place, if that raises its value.
    fn replaced(&self, committee: CandSet, member: u8) -> CandSet
        requires candidates { IsIncreasing 1 self.now.tally.election.m committee }
        requires member { member ≤ most_candidates }
        ensures { IsIncreasing 1 self.now.tally.election.m result }
    {
        let rest = committee.without(member);
        let others = CandSet::all(self.tally.m()).minus(rest);
        let gains = self.gains(rest, others);
        match gains.best_of(others) {
            Some(next) if gains.of(next) > gains.of(member) => rest.with(next),
            _ => committee,
        }
    }
}
