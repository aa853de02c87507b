//! Who is near whom, of the candidates who tie for the next choice: a table that one pass over the ballots fills.
ghost use Rattle.std.specs.Prelude.{◌≡◌, ◌≤◌, ◌-◌, ◌<◌, ℕ, [], true, length, slice_index_or, MatchOption, if◌then◌else◌};
ghost use Rattle.ballot_base.specs.CandSet.{has_member, common_members, either_members};
ghost use Rattle.ballot_base.specs.Limits.{most_candidates};
ghost use Rattle.ballot_base.specs.Lists.{IsIncreasing};
ghost use Rattle.sequential_winners.specs.Steps.Near.{near_of, first_least, AreFar, AreMany};

use ballot_base::{CandSet, PLACES};
use std::marker::Model;

/// For each candidate, others who are near it. Contracts see a list that holds them at the candidate's number.
#[derive(Drop)]
pub(crate) struct Nearness {
    each: [CandSet; PLACES],
}

impl Model for Nearness {
    ghost use Rattle.std.specs.Prelude.{◌≡◌, ℕ, ◌+◌, List, length};
    ghost use Rattle.ballot_base.specs.Limits.{most_candidates};

    ghost Value = { List (List ℕ) };

    ghost view = { λ near. near.each };

    ghost invariant = { λ near. length near.each ≡ most_candidates + 1 };
}

impl Nearness {
    /// Nobody is near another candidate.
    pub(crate) fn none() -> Nearness
        ensures { (n : ℕ) → slice_index_or result n [] ≡ [] }
    {
        Nearness {
            each: [CandSet::empty(); PLACES],
        }
    }

    /// From now on each member of a group is near the others.
    pub(crate) fn join(&mut self, group: CandSet)
        ensures { (n : ℕ) → slice_index_or self.new n [] ≡ (if has_member group n
            then either_members (slice_index_or self.old n []) group else slice_index_or self.old n []) }
    {
        for c in group.members() {
            self.each[usize::from(c)] = self.each[usize::from(c)].union(group);
        }
    }

    /// A candidate, and those near it.
    pub(crate) fn of(&self, candidate: u8) -> CandSet
        requires low { 1 ≤ candidate }
        requires high { candidate ≤ most_candidates }
        ensures { result ≡ near_of self.now candidate }
    {
        self.each[usize::from(candidate)].with(candidate)
    }

    /// The centre: the first of the candidates with the fewest of `among` near them.
    pub(crate) fn centre(&self, candidates: CandSet, among: CandSet) -> Option<u8>
        ensures { MatchOption result (candidates ≡ []) (λ centre. (has_member candidates centre ≡ true)
            × (centre ≡ first_least (λ c. length (common_members (near_of self.now c) among)) candidates)) }
    {
        let (first, _others) = candidates.split_first()?;
        let mut centre = first;
        for c in candidates.members() {
            let few = self.of(c).common(among).len();
            let fewest = self.of(centre).common(among).len();
            if few < fewest {
                centre = c;
            }
        }
        Some(centre)
    }

    /// Candidates who are not near one another: of `among` the first, the first of those who are not near it, and so
    /// on, at most `most`.
    pub(crate) fn apart(&self, among: CandSet, most: u8) -> CandSet
        requires { IsIncreasing 1 most_candidates among }
        ensures rises { IsIncreasing 1 most_candidates result }
        ensures among { (n : ℕ) → has_member result n ≡ true → has_member among n ≡ true }
        ensures far { AreFar self.now result }
    {
        let mut apart = CandSet::empty();
        let mut rest = among;
        for _turn in 0..most {
            let Some((next, _others)) = rest.split_first() else {
                break;
            };
            apart = apart.with(next);
            rest = rest.minus(self.of(next));
        }
        apart
    }

    /// Whether each of the candidates has so few near it that some are left if all near `others` of them are gone.
    pub(crate) fn are_many(&self, candidates: CandSet, others: u8) -> bool
        ensures { result ≡ true → (0 < length candidates) × AreMany self.now candidates others }
    {
        let others = u16::from(others);
        for c in candidates.members() {
            let near = u16::from(self.of(c).len());
            if others * near >= u16::from(candidates.len()) {
                return false;
            }
        }
        !candidates.is_empty()
    }
}
