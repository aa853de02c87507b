//! Winners that are found by asking for them.
//!
//! A stack holds the branches that the winners still to come complete. The first of these winners completes the last
//! branch, unless no winner does. One question decides that. If there is one, the way goes down to the first: the next
//! free candidate joins if a winner has it, and otherwise leaves with its clones. When a candidate joins, the branch
//! without it stays on the stack.
//!
//! The clones can leave as well: in a winner with one of them, the candidate could take its place
//! (`proofs/BranchLemmas.antt`).
ghost use Rattle.std.specs.Prelude.{◌≡◌, ◌+◌, ◌≤◌, ◌∷◌, [], None, MatchOption, ⊤, length, option_to_list};
ghost use Rattle.ballot_base.specs.Limits.{most_candidates};
ghost use Rattle.ballot_base.specs.Lists.{IsIncreasing};
ghost use Rattle.tie_search.specs.Steps.Branches.{AreAskedIn, IsAskingIn, IsOnTheWayIn, IsStepFrom, IsStepIn};
ghost use Rattle.tie_search.specs.Steps.Branches.{AreListedIn, IsOracle, first_branches};

use crate::branch_list::BranchList;
use crate::oracle::Oracle;
use crate::searchable::Searchable;
use arrayvec::ArrayVec;
use ballot_base::{CandSet, PLACES};
use row_multipliers::Node;

/// The committees with the highest value that are still to come.
#[derive(Drop)]
pub(crate) struct Asking {
    branches: ArrayVec<Node, PLACES>,
    // The committee with the highest value that was found last.
    found: CandSet,
    // The number of sets that were entered.
    entered: u128,
    // The number of searches for a winner.
    asked: u128,
}

impl Asking {
    /// The winners later than the start, or all winners if there is no start. `found` is one of the winners. Nothing
    /// was asked yet.
    pub(crate) fn begin(after: &Option<CandSet>, m: u8, k: u8, found: CandSet) -> Asking
        requires most { m ≤ most_candidates }
        requires start { MatchOption after.now ⊤ (IsIncreasing 1 m) }
        ensures branches { result.branches.items ≡ first_branches m k after.now }
        ensures found { result.found ≡ found }
        ensures entered { result.entered ≡ 0 }
        ensures asked { result.asked ≡ 0 }
    {
        Asking {
            branches: first_branches(after, m, k),
            found,
            entered: 0,
            asked: 0,
        }
    }

    /// The number of sets that were entered.
    pub(crate) fn entered(&self) -> u128
        ensures { result ≡ self.now.entered }
    {
        self.entered
    }

    /// The number of searches for a winner.
    pub(crate) fn asked(&self) -> u128
        ensures { result ≡ self.now.asked }
    {
        self.asked
    }

    /// The first of the winners still to come, or `None` if none is left.
    pub(crate) fn next<S: Searchable>(
        &mut self,
        oracle: &Oracle<S>,
        list: &mut BranchList,
    ) -> Option<CandSet>
        requires knows { IsOracle S.value_of S.class_of S.candidates oracle.now }
        requires listed { AreListedIn S.value_of S.class_of S.candidates oracle.now list.old }
        requires asking { IsAskingIn S.value_of S.candidates oracle.now self.old }
        ensures listed { AreListedIn S.value_of S.class_of S.candidates oracle.now list.new }
        ensures asking { IsAskingIn S.value_of S.candidates oracle.now self.new }
        ensures step { IsStepIn S.value_of S.candidates oracle.now self.old (option_to_list result) self.new }
        ensures end { result ≡ None → self.new.branches.items ≡ [] }
        ensures asked { AreAskedIn S.candidates oracle.now self.old (option_to_list result) self.new }
    {
        while let Some(branch) = self.branches.pop() {
            if let Some(winner) = list.ask(oracle, &branch, self.found, &mut self.asked) {
                self.found = winner;
                return Some(self.first_of(oracle, list, branch));
            }
        }
        None
    }

    /// The first winner that completes a branch. The winner that was found last must complete it.
    fn first_of<S: Searchable>(
        &mut self,
        oracle: &Oracle<S>,
        list: &mut BranchList,
        mut branch: Node,
    ) -> CandSet
        requires knows { IsOracle S.value_of S.class_of S.candidates oracle.now }
        requires listed { AreListedIn S.value_of S.class_of S.candidates oracle.now list.old }
        requires way { IsOnTheWayIn S.value_of S.candidates oracle.now self.old branch }
        ensures listed { AreListedIn S.value_of S.class_of S.candidates oracle.now list.new }
        ensures asking { IsAskingIn S.value_of S.candidates oracle.now self.new }
        ensures step { IsStepFrom S.value_of S.candidates oracle.now self.old branch (result ∷ []) self.new }
        ensures rises { self.old.asked ≤ self.new.asked }
        ensures asked { self.new.asked ≤ self.old.asked + length branch.free }
    {
        while branch.left > 0 {
            let Some(parts) = branch.free.split_first() else {
                return branch.set;
            };
            let (next, others) = parts;
            branch.free = others;
            let with = Node {
                set: branch.set.with(next),
                free: others,
                left: branch.left - 1,
            };
            if let Some(winner) = list.ask(oracle, &with, self.found, &mut self.asked) {
                self.found = winner;
                self.branches.push(branch);
                // No other step counts sets.
                self.entered += 1;
                branch = with;
            } else {
                branch.free = others.minus(oracle.search.clones().class(next));
            }
        }
        branch.set
    }
}

/// The branches that exactly the committees of `k` later than the start complete, or all of them if there is no start.
fn first_branches(after: &Option<CandSet>, m: u8, k: u8) -> ArrayVec<Node, PLACES>
    requires most { m ≤ most_candidates }
    requires start { MatchOption after.now ⊤ (IsIncreasing 1 m) }
    ensures { result.items ≡ first_branches m k after.now }
{
    let mut branches = ArrayVec::new();
    let mut set = CandSet::empty();
    let Some(start) = after else {
        branches.push(Node {
            set,
            free: CandSet::all(m),
            left: k,
        });
        return branches;
    };
    for member in start.members() {
        branches.push(Node {
            set,
            free: CandSet::after(member, m),
            left: k.saturating_sub(set.len()),
        });
        set = set.with(member);
    }
    branches
}
