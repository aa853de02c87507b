//! Branches: nodes whose free candidates come after the members of the set.
//!
//! A committee completes a branch if it consists of the set and some of the free candidates.
ghost use Rattle.std.specs.Prelude.{◌≡◌, ◌<◌, ℕ, List, [], false, true, MatchOption, length, slice_index_or};
ghost use Rattle.tie_search.specs.Tied.{IsAmong};
ghost use Rattle.tie_search.specs.Steps.Branches.{IsUnsuited, completes};

use ballot_base::{CandSet, Clones};
use row_multipliers::Node;

/// Whether the committee consists of the set and some of the free candidates.
pub(crate) fn completes(branch: &Node, committee: CandSet) -> bool
    ensures { result ≡ completes branch.now committee }
{
    committee.includes(branch.set) && branch.set.union(branch.free).includes(committee)
}

/// Whether each committee that completes a branch completes another one too. Only `true` is certain.
pub(crate) fn is_within(branch: &Node, other: &Node) -> bool
    ensures { result ≡ true → (committee : List ℕ) → completes branch.now committee ≡ true
        → completes other.now committee ≡ true }
{
    let all = other.set.union(other.free);
    branch.set.includes(other.set) && all.includes(branch.set.union(branch.free))
}

/// Whether the committee may become one that completes the branch if clones take the place of members. Only `false`
/// is certain.
pub(crate) fn suits(branch: &Node, clones: &Clones, committee: CandSet) -> bool
    ensures { result ≡ false → IsUnsuited branch.now clones.now committee }
{
    // Clones must take the place of members outside the branch, and of members of the set that the committee lacks.
    let outside = committee.minus(branch.set.union(branch.free));
    let missing = branch.set.minus(committee);
    for member in outside.union(missing).members() {
        let class = clones.class(member);
        let seats = class.common(committee).len();
        let taken = class.common(branch.set).len();
        if seats < taken || seats - taken > class.common(branch.free).len() {
            return false;
        }
    }
    true
}

/// A committee of a list that may become one that completes the branch, if clones take the place of members.
pub(crate) fn suited(branch: &Node, clones: &Clones, committees: &[CandSet]) -> Option<CandSet>
    ensures { MatchOption result ((i : ℕ) → i < length committees.now
        → IsUnsuited branch.now clones.now (slice_index_or committees.now i [])) (IsAmong committees.now) }
{
    for i in 0..committees.len() {
        let committee = committees[i];
        if suits(branch, clones, committee) {
            return Some(committee);
        }
    }
    None
}

/// The first committee that completes the branch and comes from `committee` by exchanges of clones. Returns
/// `committee` itself if there are too few clones. The caller tests it, so any set would do.
pub(crate) fn exchanged(branch: &Node, clones: &Clones, committee: CandSet) -> CandSet {
    let mut made = branch.set;
    let mut settled = CandSet::empty();
    for member in committee.union(branch.set).members() {
        if settled.has(member) {
            continue;
        }
        let class = clones.class(member);
        let seats = committee.common(class).len();
        let taken = branch.set.common(class).len();
        let open = class.common(branch.free);
        if seats < taken || open.len() < seats - taken {
            return committee;
        }
        made = made.union(first_of(open, seats - taken));
        settled = settled.union(class);
    }
    made
}

/// The first committee that completes the branch. The caller tests it, so any set would do.
pub(crate) fn first_committee(branch: &Node) -> CandSet {
    branch.set.union(first_of(branch.free, branch.left))
}

/// The first `count` members of the set, or all of them if there are fewer.
fn first_of(set: CandSet, count: u8) -> CandSet {
    let mut others = set;
    for _taken in 0..count {
        if let Some((_first, rest)) = others.split_first() {
            others = rest;
        }
    }
    set.minus(others)
}
