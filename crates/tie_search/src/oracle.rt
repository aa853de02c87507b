//! The highest value of a committee, and which branches a committee with this value completes.
//!
//! A search may list all committees with the highest value; then the list answers each question. Otherwise searches for
//! more than the best known value are made until one finds nothing, and questions are answered by further searches.
//!
//! Before such a search, two committees are tried: the one found last, after exchanges of clones, and the first one
//! that completes the branch. They are tested by their members and value, so any committees may be tried. If most
//! committees tie, as they can under `cc`, the second one is the next winner. Without it, long lists took up to twice
//! as long.
ghost use Rattle.std.specs.Prelude.{◌≡◌, ◌+◌, ◌≤◌, true, length, Some};
ghost use Rattle.ballot_base.specs.Limits.{most_candidates};
ghost use Rattle.ballot_base.specs.Lists.{IsIncreasing};
ghost use Rattle.tie_walk.specs.Winners.{best_value};
ghost use Rattle.tie_search.specs.Tied.{AreBest};
ghost use Rattle.tie_search.specs.Steps.Branches.{IsAnswerIn, IsBestIn, IsBranchIn, IsGuessIn, IsOracle};

use crate::branch::{completes, exchanged, first_committee, suited};
use crate::found::Tied;
use crate::searchable::Searchable;
use ballot_base::CandSet;
use row_multipliers::Node;

/// Answers which committee of `k` with the highest value completes a branch. It knows that value and some committees.
#[derive(Drop)]
pub(crate) struct Oracle<S: Searchable> {
    pub(crate) search: S,
    // The number of candidates.
    pub(crate) m: u8,
    pub(crate) k: u8,
    pub(crate) value: u128,
    pub(crate) tied: Tied,
}

impl<S: Searchable> Oracle<S> {
    /// Asks for a committee with the highest value that completes the branch; `found` is any with this value. A search
    /// is made, and `asked` counts it, only if nothing cheaper decides.
    pub(crate) fn ask(&self, branch: &Node, found: CandSet, asked: &mut u128) -> Option<CandSet>
        requires knows { IsOracle S.value_of S.class_of S.candidates self.now }
        requires branch { IsBranchIn S.candidates self.now branch.now }
        requires found { IsBestIn S.value_of S.candidates self.now found }
        ensures answer { IsAnswerIn S.value_of S.candidates self.now branch.now result }
        ensures rises { asked.old ≤ asked.new }
        ensures asked { asked.new ≤ asked.old + 1 }
    {
        if branch.free.len() < branch.left {
            return None;
        }
        if completes(branch, found) {
            return Some(found);
        }
        let like = self.like(branch, found)?;
        if completes(branch, like) {
            return Some(like);
        }
        if branch.left == 0 {
            return (self.search.value(branch.set) >= self.value).then_some(branch.set);
        }
        let made = exchanged(branch, self.search.clones(), like);
        if self.wins(branch, made) {
            return Some(made);
        }
        let first = first_committee(branch);
        if self.wins(branch, first) {
            return Some(first);
        }
        // No other step searches.
        *asked = asked.saturating_add(1);
        self.search.find(branch, self.value)
    }

    /// Whether a set is a committee with the highest value that completes the branch.
    fn wins(&self, branch: &Node, set: CandSet) -> bool
        requires knows { IsOracle S.value_of S.class_of S.candidates self.now }
        requires branch { IsBranchIn S.candidates self.now branch.now }
        ensures { result ≡ true → IsAnswerIn S.value_of S.candidates self.now branch.now (Some set) }
    {
        if set.len() != self.k || !completes(branch, set) {
            return false;
        }
        self.search.value(set) >= self.value
    }

    /// A committee with the highest value that may complete the branch: a listed one if all are listed, and otherwise
    /// `found`. Returns `None` only if no committee with the highest value completes the branch.
    fn like(&self, branch: &Node, found: CandSet) -> Option<CandSet>
        requires knows { IsOracle S.value_of S.class_of S.candidates self.now }
        requires branch { IsBranchIn S.candidates self.now branch.now }
        requires found { IsBestIn S.value_of S.candidates self.now found }
        ensures { IsGuessIn S.value_of S.candidates self.now branch.now result }
    {
        match &self.tied {
            Tied::Listed(winners) => suited(branch, self.search.clones(), winners),
            Tied::Known(_) => Some(found),
        }
    }
}

/// Some committees of `k` with the highest value, found by search. It takes no memory.
pub(crate) fn best_committees<S: Searchable>(search: &S, k: u8) -> Tied
    requires some { 1 ≤ k }
    requires fits { k ≤ S.candidates search.now }
    requires most { k ≤ most_candidates }
    ensures { AreBest (S.value_of search.now) (S.class_of search.now) (S.candidates search.now) k result }
{
    match search.tied(k) {
        Some(tied) => tied,
        None => Tied::Known(best_committee(search, k)),
    }
}

fn best_committee<S: Searchable>(search: &S, k: u8) -> CandSet
    requires some { 1 ≤ k }
    requires most { k ≤ most_candidates }
    requires fits { k ≤ S.candidates search.now }
    ensures candidates { IsIncreasing 1 (S.candidates search.now) result }
    ensures size { length result ≡ k }
    ensures best { S.value_of search.now result ≡ best_value (S.value_of search.now) (S.candidates search.now) k }
{
    let all = Node {
        set: CandSet::empty(),
        free: CandSet::all(search.m()),
        left: k,
    };
    let most = search.bound(0, CandSet::empty(), k);
    // The committee that the search suggests; failing that, the first.
    let mut best = search.good_committee(k).unwrap_or(CandSet::all(k));
    let mut value = search.value(best);
    while value < most {
        let Some(better) = search.find(&all, value + 1) else {
            return best;
        };
        best = better;
        value = search.value(best);
    }
    best
}
