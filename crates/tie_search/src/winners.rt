//! The winners by search, one by one.
//!
//! `new` finds the highest value (module `oracle`). `next` asks for each winner (module `asking`), so no walk goes over
//! committees that do not win. `entered` and `questions` count the steps; only tests read them.
ghost use Rattle.std.specs.Prelude.{◌≡◌, ◌≤◌};
ghost use Rattle.std.specs.Iterator.{item_count};
ghost use Rattle.ballot_base.specs.Lists.{later_than};
ghost use Rattle.tie_walk.specs.Winners.{IsStart, best_value, winners};
ghost use Rattle.tie_search.specs.Asked.{Asked, IsNextAsked, beginnings, most_questions};
ghost use Rattle.tie_search.specs.Steps.Branches.{IsListing, left_by};

use crate::asking::Asking;
use crate::branch_list::BranchList;
use crate::oracle::{Oracle, best_committees};
use crate::searchable::Searchable;
use ballot_base::CandSet;
use std::marker::Model;

/// The winning committees of `k` in lexicographic order: those whose value no other exceeds. Each is found by asking
/// the search for it. Contracts see the search, `k`, and the list of the winners still to come.
/// (Lackner and Skowron, Multi-Winner Voting with Approval Preferences)
#[derive(Drop)]
pub struct SearchWinners<S: Searchable> {
    oracle: Oracle<S>,
    asking: Asking,
    list: BranchList,
    after: Option<CandSet>,
}

impl<S: Searchable> Model for SearchWinners<S> {
    ghost Value = { Asked S };

    ghost view = { λ w. record {
      search = w.oracle.search;
      k = w.oracle.k;
      after = w.after;
      left = left_by (S.value_of w.oracle.search) (S.candidates w.oracle.search) w.oracle.k w.asking.branches.items;
      entered = w.asking.entered;
      questions = w.asking.asked;
    } };

    ghost invariant = { λ w. IsListing S.value_of S.class_of S.candidates w.oracle w.after w.asking w.list };
}

impl<S: Searchable> SearchWinners<S> {
    /// The winners later than `after`, or all winners if it is `None`. `after` is a committee of `k`, and need not win.
    /// A winner has the highest value of all committees of `k`. `k` is at least 1 and at most the number of candidates.
    /// Neither this nor `next` takes memory.
    pub fn new(search: S, k: u8, after: Option<CandSet>) -> SearchWinners<S>
        requires some { 1 ≤ k }
        requires fits { k ≤ S.candidates search }
        requires start { IsStart (S.candidates search) k after }
        ensures search { result.search ≡ search }
        ensures k { result.k ≡ k }
        ensures after { result.after ≡ after }
        ensures left { result.left ≡ later_than after (winners (S.value_of search) (S.candidates search) k) }
        ensures entered { result.entered ≡ 0 }
        ensures questions { result.questions ≡ 0 }
    {
        let m = search.m();
        let tied = best_committees(&search, k);
        let found = tied.first();
        SearchWinners {
            asking: Asking::begin(&after, m, k, found),
            list: BranchList::nothing(k),
            oracle: Oracle {
                value: search.value(found),
                search,
                m,
                k,
                tied,
            },
            after,
        }
    }

    /// The highest value of a committee of `k`.
    pub fn best(&self) -> u128
        ensures { result ≡ best_value (S.value_of self.now.search) (S.candidates self.now.search) self.now.k }
    {
        self.oracle.value
    }

    /// The number of sets that were entered so far on the ways down to winners. A set counts when a candidate joins it.
    /// Each begins a winner later than the start. Without a start, all such sets were entered after the last winner.
    pub fn entered(&self) -> u128
        ensures count { result ≡ self.now.entered }
        ensures most { result ≤ beginnings (S.candidates self.now.search) self.now.k (later_than self.now.after
            (winners (S.value_of self.now.search) (S.candidates self.now.search) self.now.k)) }
    {
        self.asking.entered()
    }

    /// The number of questions that were asked so far for the winners: the calls of `Searchable::find`, except those
    /// that found the highest value. There are at most m + k for each winner and k more, for m candidates. Calls of
    /// `Searchable::completions` do not count: there is at most one before each set is asked about.
    pub fn questions(&self) -> u128
        ensures count { result ≡ self.now.questions }
        ensures most { result ≤ most_questions (S.candidates self.now.search) self.now.k (later_than self.now.after
            (winners (S.value_of self.now.search) (S.candidates self.now.search) self.now.k)) }
    {
        self.asking.asked()
    }
}

impl<S: Searchable + Drop> Iterator for SearchWinners<S> {
    type Item = CandSet;

    // Gives the first of the winners left, or None if none is left.
    ghost next_gives = { IsNextAsked S S.value_of S.candidates };

    ghost remaining = { item_count (λ (a : Asked S). a.left) };

    fn next(&mut self) -> Option<CandSet> {
        self.asking.next(&self.oracle, &mut self.list)
    }
}
