//! A list of the winners that complete a branch.
//!
//! A list answers all questions below its branch; otherwise most of them take a search each. Making a list takes about
//! the work of some questions. So larger branches are listed as long as lists are found, and smaller ones if not.
ghost use Rattle.std.specs.Prelude.{◌≡◌, ◌+◌, ◌≤◌, [], length};
ghost use Rattle.tie_search.specs.Steps.Branches.{AreListedIn, IsAnswerIn, IsBestIn, IsBranchIn, IsGuessIn, IsOracle};

use crate::branch::{completes, is_within, suited};
use crate::found::{Committees, Tied};
use crate::oracle::Oracle;
use crate::searchable::Searchable;
use arrayvec::ArrayVec;
use ballot_base::CandSet;
use row_multipliers::Node;

/// Branches are listed once there were more questions than this. A few winners come sooner without lists: 20 of them,
/// of 10 among 64 candidates, took a quarter longer. Any number works.
const FEW_QUESTIONS: u16 = 512;

/// A branch with this many seats left may then always be listed. Any number works.
const FEW_SEATS: u8 = 4;

/// The maximum number of lists in a row until larger branches are listed. When it was 1, lists were given up as often
/// as found, and 1,000 winners of 30 among 64 candidates took a third longer. Any number works.
const MOST_DUE: u8 = 16;

/// The winners that complete a branch, up to exchanges of clones.
#[derive(Drop)]
pub(crate) struct BranchList {
    pub(crate) within: Node,
    pub(crate) winners: Committees,
    // A branch with more seats left is not listed.
    most_left: u8,
    // The number of lists to be found in a row until larger branches are listed, and of those that were found.
    due: u8,
    found: u8,
    // The number of questions so far.
    questions: u16,
}

impl BranchList {
    /// Nothing is listed yet: no committee of `k` completes the branch.
    pub(crate) fn nothing(k: u8) -> BranchList
        ensures set { result.within.set ≡ [] }
        ensures free { result.within.free ≡ [] }
        ensures left { result.within.left ≡ k }
        ensures none { length result.winners.items ≡ 0 }
    {
        BranchList {
            within: Node {
                set: CandSet::empty(),
                free: CandSet::empty(),
                left: k,
            },
            winners: ArrayVec::new(),
            most_left: FEW_SEATS,
            due: 1,
            found: 0,
            questions: 0,
        }
    }

    /// Like `Oracle::ask`, but the list answers if it can. The branch may be listed first.
    pub(crate) fn ask<S: Searchable>(
        &mut self,
        oracle: &Oracle<S>,
        branch: &Node,
        found: CandSet,
        asked: &mut u128,
    ) -> Option<CandSet>
        requires knows { IsOracle S.value_of S.class_of S.candidates oracle.now }
        requires branch { IsBranchIn S.candidates oracle.now branch.now }
        requires found { IsBestIn S.value_of S.candidates oracle.now found }
        requires listed { AreListedIn S.value_of S.class_of S.candidates oracle.now self.old }
        ensures listed { AreListedIn S.value_of S.class_of S.candidates oracle.now self.new }
        ensures answer { IsAnswerIn S.value_of S.candidates oracle.now branch.now result }
        ensures rises { asked.old ≤ asked.new }
        ensures asked { asked.new ≤ asked.old + 1 }
    {
        if self.is_due(oracle, branch) {
            self.fill(oracle, branch);
        }
        let like = self.like(oracle, branch, found)?;
        oracle.ask(branch, like, asked)
    }

    /// Counts a question. Returns whether the branch is to be listed first: any answer works.
    fn is_due<S: Searchable>(&mut self, oracle: &Oracle<S>, branch: &Node) -> bool
        requires listed { AreListedIn S.value_of S.class_of S.candidates oracle.now self.old }
        ensures listed { AreListedIn S.value_of S.class_of S.candidates oracle.now self.new }
    {
        self.questions = self.questions.saturating_add(1);
        let are_many = self.questions > FEW_QUESTIONS;
        let left = branch.left;
        let is_small = 1 < left && left <= self.most_left && left < branch.free.len();
        is_small
            && are_many
            && matches!(oracle.tied, Tied::Known(_))
            && !is_within(branch, &self.within)
    }

    /// Lists the winners that complete the branch, if the search does. Otherwise the list stays.
    fn fill<S: Searchable>(&mut self, oracle: &Oracle<S>, branch: &Node)
        requires knows { IsOracle S.value_of S.class_of S.candidates oracle.now }
        requires branch { IsBranchIn S.candidates oracle.now branch.now }
        requires listed { AreListedIn S.value_of S.class_of S.candidates oracle.now self.old }
        ensures listed { AreListedIn S.value_of S.class_of S.candidates oracle.now self.new }
    {
        match oracle.search.completions(branch, oracle.value) {
            Some(winners) => {
                self.within = *branch;
                self.winners = winners;
                self.note_found(oracle.k);
            }
            None => self.note_given_up(),
        }
    }

    /// Lets larger branches be listed, up to `k` seats, if enough lists were found in a row.
    fn note_found(&mut self, k: u8)
        ensures within { self.new.within ≡ self.old.within }
        ensures winners { self.new.winners ≡ self.old.winners }
    {
        self.found = self.found.saturating_add(1);
        if self.found >= self.due {
            self.most_left = self.most_left.saturating_add(1).min(k);
            self.found = 0;
        }
    }

    /// Lets only smaller branches be listed, for longer than before.
    fn note_given_up(&mut self)
        ensures within { self.new.within ≡ self.old.within }
        ensures winners { self.new.winners ≡ self.old.winners }
    {
        self.most_left = self.most_left.saturating_sub(1).max(FEW_SEATS);
        self.due = self.due.saturating_mul(2).min(MOST_DUE);
        self.found = 0;
    }

    /// A committee with the highest value that may complete the branch: a listed one if the branch is within the
    /// list's, and otherwise `found`. Returns `None` only if no committee with the highest value completes the branch.
    fn like<S: Searchable>(
        &self,
        oracle: &Oracle<S>,
        branch: &Node,
        found: CandSet,
    ) -> Option<CandSet>
        requires branch { IsBranchIn S.candidates oracle.now branch.now }
        requires found { IsBestIn S.value_of S.candidates oracle.now found }
        requires listed { AreListedIn S.value_of S.class_of S.candidates oracle.now self.now }
        ensures { IsGuessIn S.value_of S.candidates oracle.now branch.now result }
    {
        if completes(branch, found) || !is_within(branch, &self.within) {
            return Some(found);
        }
        suited(branch, oracle.search.clones(), &self.winners)
    }
}
