//! Whether some sequence of choices makes a committee of a kind, by a search from set to set.
//!
//! Where a level has too many sets to be stored, each question about the winners is answered by a search of its own. It
//! goes depth first from a set to what follows it in `levels`. A set is given up if nothing that is asked for lies
//! between it and the set after all choices that can be made: these two are the ends of a family. Where many candidates
//! tie, one look at them may settle the question, or leave one choice (`Question::branches`). Sets that lead to nothing
//! are remembered, as far as there is room, so that they are not gone through twice. What is remembered and the order
//! of choices only decide how soon a search ends.
ghost use Rattle.std.specs.Prelude.{◌≡◌, ◌≤◌, ◌-◌, ◌<◌, ◌++◌, ℕ, List, None, fold, [], ◌∷◌, Contains, true, false, ⊤, MatchOption, length};
ghost use Rattle.ballot_base.specs.CandSet.{has_member, without_member};
ghost use Rattle.ballot_base.specs.Lists.{IsIncreasing};
ghost use Rattle.ballot_base.specs.Limits.{most_candidates};
ghost use Rattle.ballot_base.specs.Steps.Lists.{IsIncreasing-prop};
ghost use Rattle.tie_walk.specs.Steps.Choices.{step_of, choices_of, change, best_worth};
ghost use Rattle.sequential_winners.specs.Families.{sequential_of};
ghost use Rattle.sequential_winners.specs.Steps.Families.{may_be_in};
ghost use Rattle.sequential_winners.specs.Steps.Levels.{chosen, end_by, ties_by};
ghost use Rattle.sequential_winners.specs.Steps.Questions.{family_of, finish, IsLive, IsDead, AreBranches, AreDead};

use crate::families::Families;
use crate::levels::{Ahead, Levels};
use ballot_base::CandSet;
use std::alloc::Allocator;
use std::cell::Cell;
use tie_walk::sequential::{Choices, FoundSets, Step};

/// The most sets that are remembered. They take 4.7 MB.
pub(crate) const MOST_DEAD: usize = 1 << 18;

/// A question: does some sequence of choices make a committee of `k` that consists of `set` and of candidates after
/// `c`?
#[derive(Drop)]
pub(crate) struct Question<'q, 'a, A: Allocator + Copy> {
    pub(crate) families: &'q Families<'a, A>,
    pub(crate) levels: &'q Levels<'a, A>,
    pub(crate) k: u8,
    pub(crate) c: u8,
    pub(crate) set: CandSet,
    /// Where the last search that found something has ended. Its choices are tried before others.
    pub(crate) last: &'q Cell<CandSet>,
    ghost families_are: { families.now ≡ sequential_of levels.now.choices.profile.now levels.now.choices.rule k },
    ghost fits: { k ≤ levels.now.choices.profile.now.m },
    ghost within: { c ≤ levels.now.choices.profile.now.m },
    ghost candidates: { IsIncreasing 1 c set } by { IsIncreasing-prop 1 c set },
    ghost size: { length set ≤ k },
}

impl<A: Allocator + Copy + Drop> Question<'_, '_, A> {
    /// Whether the choices still to be made lead from a set to a committee that is asked for. They do not from the sets
    /// in `dead`.
    pub(crate) fn leads(&self, dead: &mut Option<FoundSets<A>>, from: CandSet) -> bool
        requires from { IsIncreasing 1 self.now.levels.now.choices.profile.now.m from }
        requires few { chosen (step_of self.now.levels.now.choices.rule) self.now.levels.now.choices.profile.now.m from
            ≤ choices_of self.now.levels.now.choices.rule self.now.levels.now.choices.profile.now.m self.now.k }
        requires dead { MatchOption dead.old ⊤ (λ sets. AreDead self.now.levels.now.choices.rule
            self.now.levels.now.choices.profile.now self.now.k self.now.c self.now.set sets.keys) }
        ensures dead { MatchOption dead.new ⊤ (λ sets. AreDead self.now.levels.now.choices.rule
            self.now.levels.now.choices.profile.now self.now.k self.now.c self.now.set sets.keys) }
        ensures live { result ≡ true → IsLive self.now.levels.now.choices.rule
            self.now.levels.now.choices.profile.now self.now.k self.now.c self.now.set from }
        ensures none { result ≡ false → IsDead self.now.levels.now.choices.rule
            self.now.levels.now.choices.profile.now self.now.k self.now.c self.now.set from }
    {
        let Choices { profile, rule, .. } = &self.levels.choices;
        let total = rule.choices(profile.m(), self.k);
        let finish = self.finish();
        if !self.has_between(from, finish) {
            return false;
        }
        if from.len() == self.k {
            self.last.set(from);
            return true;
        }
        if is_dead(dead, from) {
            return false;
        }
        let begin = match self.levels.ahead(from, total) {
            Ahead::Within(end) => return self.leads(dead, end),
            Ahead::Beyond(end) => return self.has_between(from, end),
            Ahead::Choices(best, ties) => self.branches(from, best, ties),
        };
        let Some(begin) = begin else {
            return true;
        };
        let mut left = begin;
        while let Some(next) = self.first_choice(left) {
            let after = self.after(from, next);
            if self.leads(dead, after) {
                return true;
            }
            left = left.without(next);
        }
        // What one choice leads to is soon found again.
        if begin.len() > 1 {
            bury(dead, from);
        }
        false
    }

    /// The candidates of whom one is chosen next if the choices lead to a committee that is asked for; `None` if they
    /// are sure to lead to one. Two facts about the tied candidates save a search if more of them tie than choices are
    /// left. Those who are apart are chosen in any order (`Nearness::apart`). And many ties last
    /// (`Nearness::are_many`): then nobody else is chosen. The centre is the tied candidate with the fewest near it of
    /// those after whose choice a committee that is asked for can still be made: the others lead to nothing.
    // Not inlined: it would take stack at each set of a search.
    #[inline(never)]
    fn branches(&self, from: CandSet, best: u128, ties: CandSet) -> Option<CandSet>
        requires from { IsIncreasing 1 self.now.levels.now.choices.profile.now.m from }
        requires more { chosen (step_of self.now.levels.now.choices.rule) self.now.levels.now.choices.profile.now.m from
            < choices_of self.now.levels.now.choices.rule self.now.levels.now.choices.profile.now.m self.now.k }
        requires end { end_by self.now.levels.now.choices.rule self.now.levels.now.choices.profile.now from ≡ None }
        requires best { best ≡ best_worth self.now.levels.now.choices.rule
            self.now.levels.now.choices.profile.now from }
        requires ties { ties ≡ ties_by self.now.levels.now.choices.rule self.now.levels.now.choices.profile.now from }
        ensures live { result ≡ None → IsLive self.now.levels.now.choices.rule
            self.now.levels.now.choices.profile.now self.now.k self.now.c self.now.set from }
        ensures branches { MatchOption result ⊤ (AreBranches self.now.levels.now.choices.rule
            self.now.levels.now.choices.profile.now self.now.k self.now.c self.now.set from) }
    {
        let Choices { profile, rule, .. } = &self.levels.choices;
        let total = rule.choices(profile.m(), self.k);
        let left = total.saturating_sub(rule.choices(profile.m(), from.len()));
        if best == 0 || ties.len() < 2 {
            return Some(ties);
        }
        let near = self.levels.nearness(from, ties);
        let allowed = ties.common(self.allowed());
        if left <= ties.len() {
            let apart = near.apart(allowed, left);
            if self.has_between(from, self.after_all(from, apart)) {
                return None;
            }
            if near.are_many(ties, left.saturating_sub(1)) {
                if !self.has_between(from, self.after_all(from, ties)) {
                    return Some(CandSet::empty());
                }
                if let Some(needed) = self.needed(from, ties) {
                    return Some(CandSet::empty().with(needed));
                }
            }
        }
        let Some(centre) = near.centre(ties, allowed) else {
            return Some(ties);
        };
        let near = near.of(centre);
        if self.levels.give_less(from, ties.minus(near), left, best) {
            Some(near)
        } else {
            Some(ties)
        }
    }

    /// One of the tied candidates, if no committee that is asked for is made without it by choices among them.
    fn needed(&self, from: CandSet, ties: CandSet) -> Option<u8>
        requires from { IsIncreasing 1 self.now.levels.now.choices.profile.now.m from }
        requires ties { ties ≡ ties_by self.now.levels.now.choices.rule self.now.levels.now.choices.profile.now from }
        ensures { MatchOption result ⊤ (λ next. (has_member ties next ≡ true) × (may_be_in
            self.now.levels.now.choices.profile.now.m self.now.levels.now.choices.profile.now.rows
            self.now.c self.now.set (self.now.k - length self.now.set)
            (family_of (step_of self.now.levels.now.choices.rule) from
            (fold (change (step_of self.now.levels.now.choices.rule)) from (without_member ties next))) ≡ false)) }
    {
        let Choices { profile, rule, .. } = &self.levels.choices;
        let needed = match rule.step() {
            Step::Grow => ties.common(self.set),
            Step::Shrink => ties.minus(self.set.union(CandSet::after(self.c, profile.m()))),
        };
        let (next, _) = needed.split_first()?;
        if !ties.has(next) || self.has_between(from, self.after_all(from, ties.without(next))) {
            return None;
        }
        Some(next)
    }

    /// The candidates after whose choice a committee that is asked for can still be made.
    fn allowed(&self) -> CandSet {
        let Choices { profile, rule, .. } = &self.levels.choices;
        let after = CandSet::after(self.c, profile.m());
        match rule.step() {
            Step::Grow => self.set.union(after),
            Step::Shrink => CandSet::all(profile.m()).minus(self.set),
        }
    }

    /// The set after the choice of each of these candidates.
    fn after_all(&self, from: CandSet, choices: CandSet) -> CandSet
        ensures { result ≡ fold (change (step_of self.now.levels.now.choices.rule)) from choices }
    {
        match self.levels.choices.rule.step() {
            Step::Grow => from.union(choices),
            Step::Shrink => from.minus(choices),
        }
    }

    /// The set after all choices that can be made.
    fn finish(&self) -> CandSet
        ensures { result ≡ finish (step_of self.now.levels.now.choices.rule) self.now.levels.now.choices.profile.now.m }
    {
        let Choices { profile, rule, .. } = &self.levels.choices;
        match rule.step() {
            Step::Grow => CandSet::all(profile.m()),
            Step::Shrink => CandSet::empty(),
        }
    }

    /// The set after the choice of a candidate.
    fn after(&self, from: CandSet, next: u8) -> CandSet
        requires low { 1 ≤ next }
        requires high { next ≤ most_candidates }
        ensures { result ≡ change (step_of self.now.levels.now.choices.rule) from next }
    {
        match self.levels.choices.rule.step() {
            Step::Grow => from.with(next),
            Step::Shrink => from.without(next),
        }
    }

    /// Whether a committee that is asked for lies between a set and another that choices make of it.
    fn has_between(&self, from: CandSet, end: CandSet) -> bool
        requires from { IsIncreasing 1 self.now.levels.now.choices.profile.now.m from }
        requires end { IsIncreasing 1 self.now.levels.now.choices.profile.now.m end }
        ensures { result ≡ may_be_in self.now.levels.now.choices.profile.now.m
            self.now.levels.now.choices.profile.now.rows
            self.now.c self.now.set (self.now.k - length self.now.set)
            (family_of (step_of self.now.levels.now.choices.rule) from end) }
    {
        let family = match self.levels.choices.rule.step() {
            Step::Grow => (from, end),
            Step::Shrink => (end, from),
        };
        self.families.may_be_in(family, self.c, self.set)
    }

    /// The choice that is tried first: one that the question needs, or else one that led to what was found last. Any
    /// order gives the same answer.
    fn first_choice(&self, choices: CandSet) -> Option<u8>
        ensures { MatchOption result (choices ≡ []) (λ next. has_member choices next ≡ true) }
    {
        let Choices { profile, rule, .. } = &self.levels.choices;
        let last = self.last.get();
        let (needed, before) = match rule.step() {
            Step::Grow => (choices.common(self.set), choices.common(last)),
            Step::Shrink => {
                let allowed = self.set.union(CandSet::after(self.c, profile.m()));
                (choices.minus(allowed), choices.minus(last))
            }
        };
        let needed_before = needed.common(before);
        for first in [needed_before, needed, before] {
            if let Some((next, _)) = first.split_first()
                && choices.has(next)
            {
                return Some(next);
            }
        }
        let (next, _) = choices.split_first()?;
        Some(next)
    }
}

/// Whether a set is among those that are remembered.
fn is_dead<A: Allocator + Copy>(dead: &Option<FoundSets<A>>, set: CandSet) -> bool
    ensures { MatchOption dead.now (result ≡ false) (λ sets. result ≡ true → Contains sets.keys set) }
{
    match dead {
        Some(sets) => sets.contains(&set),
        None => false,
    }
}

/// Remembers a set. If there is no room, the others are forgotten.
fn bury<A: Allocator + Copy>(dead: &mut Option<FoundSets<A>>, set: CandSet)
    ensures { MatchOption dead.new ⊤ (λ sets. (other : List ℕ) → Contains sets.keys other
        → MatchOption dead.old ⊥ (λ old. Contains (old.keys ++ set ∷ []) other)) }
{
    let Some(sets) = dead else {
        return;
    };
    if sets.len() >= MOST_DEAD {
        sets.clear();
    }
    // There is room, so this takes no memory.
    match sets.insert(set) {
        Ok(_) => {}
        Err(_) => sets.clear(),
    }
}

/// Forgets all sets. To clear a table takes as long as its room is large, so an empty one is left.
pub(crate) fn forget<A: Allocator + Copy>(sets: &mut FoundSets<A>)
    ensures { sets.new.keys ≡ [] }
{
    if !sets.is_empty() {
        sets.clear();
    }
}
