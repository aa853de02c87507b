//! The winning committees of a tally, one by one.
//!
//! `new` first finds the highest value (module `best`). Then a second walk yields each committee that has this value,
//! beginning right after the start if there is one. `entered` and `ceilings` count the steps of the second walk; only
//! tests read them. The prefixes that it enters are the live ones of `specs/Ceilings.antt`, and at most m more on the
//! way to a start.
//!
//! If bounds are exact at the highest value (`IsExactAtBest`), one `next` asks for at most four bounds for each
//! candidate. These are at most two on the way down to a committee, and one on the way up (`proofs/WaitLemmas.antt`). A
//! tally whose bounds are each the value of some committee (`IsTight`) is exact, whatever is best
//! (`laws::tight_bounds`).
ghost use Rattle.std.specs.Prelude.{◌≡◌, ◌+◌, ◌≤◌};
ghost use Rattle.std.specs.Iterator.{item_count};
ghost use Rattle.ballot_base.specs.Lists.{later_than};
ghost use Rattle.tie_walk.specs.Ceilings.{live_count};
ghost use Rattle.tie_walk.specs.Steps.Walks.{IsWinning, committees_from, those_reaching};
ghost use Rattle.tie_walk.specs.Winners.{Winning, IsStart, IsNextWinner, best_value, winners};

use crate::best::greatest_value;
use crate::tally::Tally;
use crate::walk::Walk;
use ballot_base::CandSet;
use std::marker::Model;

/// Iterates over the winning committees of size k of the candidates 1 to m, in lexicographic order. A committee wins if
/// no other has a higher value (Lackner and Skowron, Multi-Winner Voting with Approval Preferences). Contracts see the
/// tally, m and k, the highest value, and the list of the winners still to come.
#[derive(Drop)]
pub struct Winners<'a, T: Tally> {
    walk: Walk<'a, T>,
    after: Option<CandSet>,
}

impl<'a, T: Tally> Model for Winners<'a, T> {
    ghost Value = { Winning T };

    ghost view = { λ w. record {
      tally = w.walk.tally.now;
      m = w.walk.m;
      k = w.walk.k;
      after = w.after;
      best = w.walk.best;
      left = those_reaching (T.value_of w.walk.tally.now) w.walk.best (committees_from w.walk.m w.walk.k w.walk.place);
      entered = w.walk.entered;
      ceilings = w.walk.ceilings;
    } };

    ghost invariant = { λ w. IsWinning T.candidates T.bound_of w.after w.walk };
}

impl<'a, T: Tally> Winners<'a, T> {
    /// Lists the winners that are later than `after`, or all winners if `after` is `None`. `after` is any committee of
    /// size k of the tally's m candidates; it need not win. The highest value is that of all committees, found by a
    /// walk over them. The walk to the winners goes straight to the start. Allocates nothing.
    pub fn new(tally: &'a T, m: u8, k: u8, after: Option<CandSet>) -> Winners<'a, T>
        requires candidates { m ≡ T.candidates tally.now }
        requires some { 1 ≤ k }
        requires fits { k ≤ m }
        requires start { IsStart m k after }
        ensures tally { result.tally ≡ tally.now }
        ensures m { result.m ≡ m }
        ensures k { result.k ≡ k }
        ensures after { result.after ≡ after }
        ensures best { result.best ≡ best_value (T.value_of tally.now) m k }
        ensures left { result.left ≡ later_than after (winners (T.value_of tally.now) m k) }
    {
        let best = greatest_value(tally, k);
        let walk = Walk::begin(tally, k, best, &after);
        Winners { walk, after }
    }

    /// The highest value of a committee.
    pub fn best(&self) -> u128
        ensures { result ≡ self.now.best }
    {
        self.walk.best()
    }

    /// The number of prefixes that the walk to the winners has entered so far. A prefix is a decision on the first
    /// candidates; the empty one is included. It counts if the walk goes down to it. Ways back up and the walk that
    /// found the highest value do not count. At most m more than the live ones are entered: those on the way down to a
    /// start.
    pub fn entered(&self) -> u128
        ensures count { result ≡ self.now.entered }
        ensures most { result ≤ live_count (T.bound_of self.now.tally) self.now.m self.now.k self.now.best
            self.now.after + self.now.m }
    {
        self.walk.entered()
    }

    /// The number of bounds that the walk to the winners has asked for so far. It asks for one at each prefix at which
    /// it has to know whether the bound reaches the highest value. These are its calls of `Tally::bound`. The walk that
    /// found the highest value does not count. No prefix is entered without a bound.
    pub fn ceilings(&self) -> u128
        ensures count { result ≡ self.now.ceilings }
        ensures entered { self.now.entered ≤ result }
    {
        self.walk.ceilings()
    }
}

impl<'a, T: Tally> Iterator for Winners<'a, T> {
    type Item = CandSet;

    // The first of the winners left, or `None` if none is left, and what the counts are then.
    ghost next_gives = { IsNextWinner T T.value_of T.bound_of };

    ghost remaining = { item_count (λ (w : Winning T). w.left) };

    fn next(&mut self) -> Option<CandSet> {
        self.walk.next()
    }
}
