//! The families that the choices of a sequential rule make, level by level. Four facts keep the levels short.
//!
//! - **Clones tie.** Whether a set is reached, what it gains and what it loses depend only on its number of members of
//!   each class of clones (`proofs/RowLemmas.antt`, `TiedClones.antt`). So of tied clones only the first is followed.
//!   Candidates without supporters are one class.
//! - **Gains only fall.** If no candidate adds to a set, no candidate adds to a larger one. Then all candidates tie at
//!   each step, and each committee above the set is reached.
//! - **Ties may be independent.** If no voter approves two of the tied candidates, each of them still ties after others
//!   were chosen, and no other candidate does, not even a clone (`proofs/SpanLemmas.antt`). They are chosen in any
//!   order.
//! - **Ties may be near or far.** Who is chosen among tied candidates takes out of the tie exactly those with whom it
//!   shares a voter whose next hit still adds something; the others keep their gain. So each choice uses up voters
//!   whose next hits add up to the best gain. The voters of the candidates far from the first tied one may not suffice
//!   for all choices still to be made. Then the first one or somebody near it, with such a voter in common, is chosen
//!   before the best gain falls, and may be chosen at once (`proofs/PhaseLemmas.antt`). So only these are followed.
//!
//! In the second and third case all choices lead to one set, the `end`: all candidates, or the set with all tied ones.
//! Only the end is followed, once as many choices were made. If it lies beyond the committee's size, the set stays for
//! good, and stands for all sets between the two. `proofs/LevelLemmas.antt` shows, by induction over levels, that the
//! choices still to be made lead from the sets of a level to exactly the committees that some sequence of choices
//! makes.
ghost use Rattle.std.specs.Prelude.{◌≡◌, ℕ, ◌<◌, ◌≤◌, ◌*◌, ◌++◌, ◌∷◌, [], None, IfOk, OnOk, nat_lt};
ghost use Rattle.ballot_base.specs.Clones.{AreClones};
ghost use Rattle.ballot_base.specs.Limits.{most_candidates};
ghost use Rattle.ballot_base.specs.Lists.{IsIncreasing};
ghost use Rattle.tie_walk.specs.Steps.Choices.{best_worth, tied_by, HasSetsOf};
ghost use Rattle.sequential_winners.specs.Clones.{without_clones};
ghost use Rattle.sequential_winners.specs.Steps.Levels.{ties_by, next_hit_by, given_by, beginners_by, AreNear, end_by, followers_by, AreReached};
ghost use Rattle.sequential_winners.specs.Steps.Questions.{LeadsAhead};

use crate::near::Nearness;
use crate::question::forget;
use ballot_base::{CandSet, Clones, PLACES, Profile};
use std::alloc::{AllocError, Allocator};
use std::collections::HashSet;
use tie_walk::SeqRule;
use tie_walk::sequential::{Choices, FoundSets, Step, put_in_order};

/// Where the choices from a set lead.
pub(crate) enum Ahead {
    /// To this end, which as many choices reach as are made in all, or fewer.
    Within(CandSet),
    /// Towards this end, which lies beyond all choices.
    Beyond(CandSet),
    /// To a choice among others: the best worth, and the candidates who tie for it, of clones only the first.
    Choices(u128, CandSet),
}

/// A sequential rule on a profile, followed level by level: level `n` has the sets that `n` choices make, the ends that
/// wait for their own level, and the sets that stay for good.
#[derive(Drop)]
pub(crate) struct Levels<'a, A: Allocator + Copy> {
    pub(crate) choices: Choices<'a, A>,
    pub(crate) clones: Clones,
    ghost classes: { AreClones choices.profile.now.m choices.profile.now.rows clones },
}

impl<'a, A: Allocator + Copy> Levels<'a, A> {
    /// The levels of a rule on a profile. Allocates nothing.
    pub(crate) fn new(profile: &'a Profile<A>, rule: SeqRule) -> Levels<'a, A>
        ensures profile { result.choices.profile.now ≡ profile.now }
        ensures rule { result.choices.rule ≡ rule }
    {
        Levels {
            choices: Choices::new(profile, rule),
            clones: Clones::of(profile),
        }
    }
}

impl<A: Allocator + Copy + Drop> Levels<'_, A> {
    /// The candidates without clones.
    pub(crate) fn alone(&self) -> CandSet
        ensures { result ≡ without_clones self.now.choices.profile.now.m self.now.choices.profile.now.rows }
    {
        let mut alone = CandSet::empty();
        for c in 1..self.choices.profile.m() + 1 {
            if self.clones.class(c).len() == 1 {
                alone = alone.with(c);
            }
        }
        alone
    }

    /// The tied candidates, but of clones only the first: all of them who may be chosen tie.
    fn firsts(&self, set: CandSet, tied: CandSet) -> CandSet
        requires { tied ≡ tied_by self.now.choices.rule self.now.choices.profile.now set }
        ensures { result ≡ ties_by self.now.choices.rule self.now.choices.profile.now set }
    {
        let mut firsts = tied;
        for c in tied.members() {
            if !self.clones.class(c).common(tied).upto(c - 1).is_empty() {
                firsts = firsts.without(c);
            }
        }
        firsts
    }

    /// The best worth, the tied candidates (of clones only the first), and the set that all choices lead to if they may
    /// be made in any order. If nobody adds anything, the tied candidates are all who may be chosen.
    pub(crate) fn ties_and_end(&self, set: CandSet) -> (u128, CandSet, Option<CandSet>)
        ensures best { result.0 ≡ best_worth self.now.choices.rule self.now.choices.profile.now set }
        ensures ties { result.2 ≡ None → result.1 ≡ ties_by self.now.choices.rule self.now.choices.profile.now set }
        ensures end { result.2 ≡ end_by self.now.choices.rule self.now.choices.profile.now set }
    {
        let profile = self.choices.profile;
        let step = self.choices.rule.step();
        let (best, tied) = self.choices.tied(set);
        if matches!(step, Step::Grow) && best == 0 {
            return (best, tied, Some(CandSet::all(profile.m())));
        }
        let ties = self.firsts(set, tied);
        if best > 0
            && ties.len() >= 2
            && profile
                .ballots()
                .all(|(ballot, _voters)| ballot.common(ties).len() <= 1)
        {
            let end = match step {
                Step::Grow => set.union(ties),
                Step::Shrink => set.minus(ties),
            };
            return (best, ties, Some(end));
        }
        (best, ties, None)
    }

    /// What a voter's next hit adds to the set, or what the last one takes from it.
    fn next_hit(&self, ballot: CandSet, set: CandSet) -> u128
        ensures { result ≡ next_hit_by self.now.choices.rule self.now.choices.profile.now set ballot }
    {
        let Choices { profile, rule, .. } = &self.choices;
        let weights = &self.choices.weights[..usize::from(profile.m())];
        rule.step().weight(weights, ballot.common(set).len())
    }

    /// What those voters give together who approve one of the candidates: what their next hits add to the set, or what
    /// the last ones take from it.
    fn given(&self, set: CandSet, candidates: CandSet) -> u128
        ensures { result ≡ given_by self.now.choices.rule self.now.choices.profile.now set candidates }
    {
        let mut given = 0;
        for (ballot, voters) in self.choices.profile.ballots() {
            if !ballot.common(candidates).is_empty() {
                given += u128::from(voters) * self.next_hit(ballot, set);
            }
        }
        given
    }

    /// Who of the tied candidates are near each: those who share a voter with it whose next hit adds something.
    pub(crate) fn nearness(&self, set: CandSet, ties: CandSet) -> Nearness
        requires { IsIncreasing 1 most_candidates ties }
        ensures { AreNear self.now.choices.rule self.now.choices.profile.now set ties result }
    {
        let mut near = Nearness::none();
        for (ballot, _voters) in self.choices.profile.ballots() {
            let group = ballot.common(ties);
            if group.len() > 1 && self.next_hit(ballot, set) > 0 {
                near.join(group);
            }
        }
        near
    }

    /// Whether the voters of some candidates give less than `left` times the best worth.
    pub(crate) fn give_less(&self, set: CandSet, candidates: CandSet, left: u8, best: u128) -> bool
        requires some { 0 < best }
        ensures { result ≡ nat_lt
            (given_by self.now.choices.rule self.now.choices.profile.now set candidates) (left * best) }
    {
        self.given(set, candidates) / best < u128::from(left)
    }

    /// The candidates who are followed from a set, where `left` choices are still to be made. If the voters of those
    /// far from the centre give less than `left` times the best worth, the centre or somebody near it is chosen before
    /// the best worth changes. So only these are followed.
    pub(crate) fn beginners(&self, set: CandSet, best: u128, ties: CandSet, left: u8) -> CandSet
        requires best { best ≡ best_worth self.now.choices.rule self.now.choices.profile.now set }
        requires ties { ties ≡ ties_by self.now.choices.rule self.now.choices.profile.now set }
        requires valid { IsIncreasing 1 most_candidates ties }
        ensures { result ≡ beginners_by self.now.choices.rule self.now.choices.profile.now left set }
    {
        if best == 0 || ties.len() < 2 {
            return ties;
        }
        let near = self.nearness(set, ties);
        let Some(centre) = near.centre(ties, ties) else {
            return ties;
        };
        let near = near.of(centre);
        if self.give_less(set, ties.minus(near), left, best) {
            near
        } else {
            ties
        }
    }

    /// Where the choices from a set lead, of `total` in all.
    // Not inlined: the worths of candidates take more than 1 KB of stack, which would lie at each level of a search.
    #[inline(never)]
    pub(crate) fn ahead(&self, set: CandSet, total: u8) -> Ahead
        requires { IsIncreasing 1 self.now.choices.profile.now.m set }
        ensures { LeadsAhead self.now.choices.rule self.now.choices.profile.now total set result }
    {
        let Choices { profile, rule, .. } = &self.choices;
        let (best, ties, end) = self.ties_and_end(set);
        match end {
            Some(end) => {
                if rule.choices(profile.m(), end.len()) > total {
                    return Ahead::Beyond(end);
                }
                Ahead::Within(end)
            }
            None => Ahead::Choices(best, ties),
        }
    }

    /// Adds what follows a set: its end; or the set itself, if its end lies beyond all `total` choices; or the sets
    /// that one choice makes.
    fn follow(&self, found: &mut FoundSets<A>, set: CandSet, total: u8) -> Result<(), AllocError>
        requires { IsIncreasing 1 self.now.choices.profile.now.m set }
        ensures { OnOk result (HasSetsOf (found.old.keys
            ++ followers_by self.now.choices.rule self.now.choices.profile.now total set) found.new.keys) }
    {
        let Choices { profile, rule, .. } = &self.choices;
        let (best, ties, end) = self.ties_and_end(set);
        match end {
            Some(end) if rule.choices(profile.m(), end.len()) <= total => {
                found.insert(end)?;
            }
            Some(_) => {
                found.insert(set)?;
            }
            None => {
                let left = total.saturating_sub(rule.choices(profile.m(), set.len()));
                let begin = self.beginners(set, best, ties, left);
                rule.step().insert_each(found, set, begin)?;
            }
        }
        Ok(())
    }

    /// Puts the level after a level, of those for `total` choices, in its place. Returns whether it did: the level of
    /// all choices stays, and so does one that more than `most` sets follow.
    fn advance(&self, level: &mut Level<A>, total: u8, most: usize) -> Result<bool, AllocError>
        requires total { total ≤ self.now.choices.profile.now.m }
        requires level { AreReached self.now.choices.rule self.now.choices.profile.now total level.old.size
            level.old.sets.items }
        ensures { OnOk result (AreReached self.now.choices.rule self.now.choices.profile.now total level.new.size
            level.new.sets.items) }
    {
        let Choices { profile, rule, .. } = &self.choices;
        let Level { size, sets, found } = level;
        if *size >= total {
            return Ok(false);
        }
        let m = profile.m();
        forget(found);
        for set in sets.iter() {
            if rule.choices(m, set.len()) == *size {
                self.follow(found, *set, total)?;
            } else {
                found.insert(*set)?;
            }
            if found.len() > most {
                return Ok(false);
            }
        }
        put_in_order(sets, found)?;
        *size += 1;
        Ok(true)
    }

    /// Goes on to the level of all `total` choices, or to the last one before a level of more than `most` sets.
    pub(crate) fn go_on(
        &self,
        level: &mut Level<A>,
        total: u8,
        most: usize,
    ) -> Result<(), AllocError>
        requires total { total ≤ self.now.choices.profile.now.m }
        requires level { AreReached self.now.choices.rule self.now.choices.profile.now total level.old.size
            level.old.sets.items }
        ensures { OnOk result (AreReached self.now.choices.rule self.now.choices.profile.now total level.new.size
            level.new.sets.items) }
    {
        for _choice in 0..total {
            if !self.advance(level, total, most)? {
                break;
            }
        }
        Ok(())
    }

    /// Whether so many candidates tie at the start that each of `total` choices is made among them: all choices but one
    /// leave some of them in the tie.
    pub(crate) fn has_lasting_ties(&self, total: u8) -> bool {
        let start = self.choices.rule.step().start(self.choices.profile.m());
        let (_best, ties, end) = self.ties_and_end(start);
        end.is_none()
            && total <= ties.len()
            && self
                .nearness(start, ties)
                .are_many(ties, total.saturating_sub(1))
    }
}

/// The sets of a level, and room for those of the next one.
#[derive(Drop)]
pub(crate) struct Level<A: Allocator + Copy> {
    /// The number of choices that lead to its sets. Sets that wait have more, and sets that stay for good may have
    /// fewer.
    pub(crate) size: u8,
    /// In lexicographic order.
    pub(crate) sets: Vec<CandSet, A>,
    found: FoundSets<A>,
}

impl<A: Allocator + Copy + Drop> Level<A> {
    /// The level before all choices, of `start` alone.
    pub(crate) fn first(alloc: A, start: CandSet) -> Result<Level<A>, AllocError>
        ensures { IfOk result (λ level. (level.size ≡ 0) × (level.sets.items ≡ start ∷ [])) }
    {
        Ok(Level {
            size: 0,
            sets: vec![in alloc; start]?,
            found: HashSet::new(alloc),
        })
    }

    /// Takes room for levels of `most` sets.
    pub(crate) fn reserve(&mut self, most: usize) -> Result<(), AllocError>
        ensures size { self.new.size ≡ self.old.size }
        ensures sets { self.new.sets.items ≡ self.old.sets.items }
    {
        forget(&mut self.found);
        // What follows a set may come on top.
        self.found.reserve(most.saturating_add(PLACES))?;
        self.sets
            .reserve_exact(most.saturating_sub(self.sets.len()))
    }
}
