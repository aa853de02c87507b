//! The highest value of a committee, by the same walk that lists the winners.
//!
//! The search begins with the value of a good committee: the candidates who raise the value most, added one by one. It
//! goes on to a committee with a value above the highest so far, until there is none, or no bound leaves room for one.
ghost use Rattle.std.specs.Prelude.{◌≡◌, ◌+◌, ◌<◌, ◌≤◌, length};
ghost use Rattle.ballot_base.specs.Lists.{IsIncreasing};
ghost use Rattle.tie_walk.specs.Winners.{best_value};

use crate::tally::Tally;
use crate::walk::Walk;
use ballot_base::CandSet;

/// The highest value of a committee of size k.
pub(crate) fn greatest_value<T: Tally>(tally: &T, k: u8) -> u128
    requires some { 1 ≤ k }
    requires fits { k ≤ T.candidates tally.now }
    ensures { result ≡ best_value (T.value_of tally.now) (T.candidates tally.now) k }
{
    let mut best = tally.value(good_committee(tally, k));
    let bound = tally.bound(0, CandSet::empty(), k);
    let mut walk = Walk::begin(tally, k, best, &None);
    while best < bound {
        walk.raise(best + 1);
        let Some(committee) = walk.next() else { break };
        best = tally.value(committee);
    }
    best
}

/// A committee of size k: the candidates who raise the value most, added one after another.
fn good_committee<T: Tally>(tally: &T, k: u8) -> CandSet
    requires fits { k ≤ T.candidates tally.now }
    ensures candidates { IsIncreasing 1 (T.candidates tally.now) result }
    ensures size { length result ≡ k }
{
    let mut set = CandSet::empty();
    for _size in 0..k {
        set = with_best(tally, set);
    }
    set
}

/// The set with one more candidate, the one who raises its value most.
fn with_best<T: Tally>(tally: &T, set: CandSet) -> CandSet
    requires members { IsIncreasing 1 (T.candidates tally.now) set }
    requires room { length set < T.candidates tally.now }
    ensures candidates { IsIncreasing 1 (T.candidates tally.now) result }
    ensures size { length result ≡ length set + 1 }
{
    let mut best = 0;
    let mut grown = set;
    for n in CandSet::all(tally.m()).minus(set).members() {
        let more = set.with(n);
        let value = tally.value(more);
        if value >= best {
            best = value;
            grown = more;
        }
    }
    grown
}
