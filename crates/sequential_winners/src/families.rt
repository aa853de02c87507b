//! The families of the winners of a sequential rule, and a tally over them.
//!
//! The bound says whether some family has a committee that consists of the set and of `left` candidates after c.
//! Candidates that the set lacks of the least set are added one after another, and have to fit. Those for which the
//! most set has room have to fill the committee (`proofs/CompletionLemmas.antt`). This is exact (`laws::exact_bounds`):
//! `Winners` over the families enters only prefixes with a winner below. It lists the union of the families in order,
//! each committee once.
//!
//! If there are too many families to be stored, the bound asks a search the same question (module `question`).
ghost use Rattle.std.specs.Prelude.{◌≡◌, ◌<◌, ◌≤◌, ◌-◌, ⊤, IfOk, OnOk, MatchOption, length, if◌then◌else◌};
ghost use Rattle.ballot_base.specs.Lists.{IsIncreasing};
ghost use Rattle.tie_walk.specs.Sequences.{sequential_winners};
ghost use Rattle.sequential_winners.specs.Clones.{clone_count, has_as_many};
ghost use Rattle.sequential_winners.specs.Families.{sequential_of, is_winner, some_winner};
ghost use Rattle.sequential_winners.specs.Steps.Families.{may_be_in, IsBlock, AreBlocks, IsBlockAnswer};
ghost use Rattle.sequential_winners.specs.Steps.Levels.{AreFamilies, AreReached};
ghost use Rattle.tie_walk.specs.Steps.Choices.{choices_of};
ghost use Rattle.sequential_winners.specs.Steps.Tables.{completed};

use crate::levels::{Level, Levels};
use crate::question::{MOST_DEAD, Question, forget};
use ballot_base::{CandSet, MOST_CANDIDATES, Profile};
use std::alloc::{AllocError, Allocator, Global};
use std::cell::Cell;
use std::collections::HashSet;
use std::marker::Model;
use tie_walk::sequential::{Choices, FoundSets, Step};
use tie_walk::{SeqRule, Tally};

/// The most sets that a level may have. It and the one before take 35 MB then.
const MOST_SETS: usize = 1 << 20;

/// The most sets of the levels that are found before memory for more is taken. If the ties of the start last through
/// all choices, no more are found: then each question takes few steps, and levels would take up to millions of sets.
const FEW_SETS: usize = 1 << 12;

/// The most sets of a level, times different ballots, before memory for more is taken. It is taken before the first
/// write, so that the first lines do not wait for large levels. Any number works.
const FEW_VISITS: usize = 1 << 20;

/// How many families in a row a block has.
const BLOCK: usize = 64;

/// Room for the other set of each family, and for the blocks.
#[derive(Drop)]
struct Room<A: Allocator + Copy> {
    ends: Vec<CandSet, A>,
    blocks: Vec<Block, A>,
}

/// What `BLOCK` families in a row have: all their least sets, and some of their most sets.
#[derive(Clone, Copy)]
struct Block {
    in_all: CandSet,
    in_some: CandSet,
}

/// All memory for the winners of a sequential rule, and the levels up to the first that has many sets. Contracts see
/// the election, the rule and `k`.
#[derive(Drop)]
pub struct FamilyMemory<'a, A: Allocator + Copy = Global> {
    levels: Levels<'a, A>,
    k: u8,
    // The last level, with room for those to come, or `None` if a search answers each question.
    level: Option<Level<A>>,
    room: Room<A>,
    // Room for the sets that lead to nothing, if levels may have too many sets.
    dead: Option<FoundSets<A>>,
}

impl<'a, A: Allocator + Copy> Model for FamilyMemory<'a, A> {
    ghost use Rattle.std.specs.Prelude.{⊤, MatchOption};
    ghost use Rattle.tie_walk.specs.Steps.Choices.{choices_of};
    ghost use Rattle.sequential_winners.specs.Families.{Sequential, sequential_of};
    ghost use Rattle.sequential_winners.specs.Steps.Families.{KeepsElection};
    ghost use Rattle.sequential_winners.specs.Steps.Levels.{AreReached};

    ghost Value = { Sequential };

    ghost view = { λ f. sequential_of f.levels.choices.profile.now f.levels.choices.rule f.k };

    ghost invariant = { λ f. KeepsElection f.levels.choices.profile.now f.k
        × MatchOption f.level ⊤ (λ l. AreReached f.levels.choices.rule f.levels.choices.profile.now
        (choices_of f.levels.choices.rule f.levels.choices.profile.now.m f.k) l.size l.sets.items) };
}

impl<'a, A: Allocator + Copy + Drop> FamilyMemory<'a, A> {
    /// Memory for the winning committees of size `k`. It is less than 64 MB, and little if few candidates tie. A failed
    /// allocation leaves nothing.
    pub fn new(
        alloc: A,
        profile: &'a Profile<A>,
        rule: SeqRule,
        k: u8,
    ) -> Result<FamilyMemory<'a, A>, AllocError>
        requires some { 1 ≤ k }
        requires fits { k ≤ profile.now.m }
        ensures { IfOk result (λ memory. memory ≡ sequential_of profile.now rule k) }
    {
        let levels = Levels::new(profile, rule);
        let total = rule.choices(profile.m(), k);
        let mut level = Level::first(alloc, rule.step().start(profile.m()))?;
        let ties_last = levels.has_lasting_ties(total);
        let most = if ties_last {
            FEW_SETS
        } else {
            FEW_SETS.min(FEW_VISITS / profile.rows().max(1))
        };
        levels.go_on(&mut level, total, most)?;
        if level.size == total {
            let room = Room::of(alloc, level.sets.len())?;
            return Ok(FamilyMemory {
                levels,
                k,
                level: Some(level),
                room,
                dead: None,
            });
        }
        if ties_last {
            return FamilyMemory::for_searches(alloc, profile, rule, k);
        }
        level.reserve(MOST_SETS)?;
        let room = Room::of(alloc, MOST_SETS)?;
        let dead = HashSet::with_capacity(alloc, MOST_DEAD)?;
        Ok(FamilyMemory {
            levels,
            k,
            level: Some(level),
            room,
            dead: Some(dead),
        })
    }

    /// Like `new`, but with memory for searches only: no families will be stored, whether or not there are few.
    pub fn for_searches(
        alloc: A,
        profile: &'a Profile<A>,
        rule: SeqRule,
        k: u8,
    ) -> Result<FamilyMemory<'a, A>, AllocError>
        requires some { 1 ≤ k }
        requires fits { k ≤ profile.now.m }
        ensures { IfOk result (λ memory. memory ≡ sequential_of profile.now rule k) }
    {
        let dead = HashSet::with_capacity(alloc, MOST_DEAD)?;
        profile.m();
        Ok(FamilyMemory {
            levels: Levels::new(profile, rule),
            k,
            level: None,
            room: Room {
                ends: Vec::new(alloc),
                blocks: Vec::new(alloc),
            },
            dead: Some(dead),
        })
    }
}

impl<A: Allocator + Copy> Room<A> {
    /// Room for this many families.
    fn of(alloc: A, families: usize) -> Result<Room<A>, AllocError> {
        let mut ends = Vec::new(alloc);
        ends.reserve_exact(families)?;
        let mut blocks = Vec::new(alloc);
        blocks.reserve_exact(families / BLOCK + 1)?;
        Ok(Room { ends, blocks })
    }
}

/// The committees of size `k` that some sequence of choices of a sequential rule makes, as families. A family is a pair
/// of sets. It has the committees of size `k` with at least as many members of each class of clones as its first set,
/// and at most as many as its second. A committee has the value 1 if some family has it, and otherwise 0. Families that
/// would take too much memory are not stored: each question about them is answered by a search. Contracts see the
/// election, the rule and `k`.
#[derive(Drop)]
pub struct Families<'a, A: Allocator + Copy = Global> {
    levels: Levels<'a, A>,
    pub(crate) k: u8,
    /// The candidates without clones.
    alone: CandSet,
    /// `None` if they would take too much memory. Then a search answers each question.
    stored: Option<Stored<A>>,
    /// The sets that led to nothing in the last search, `None` if families are stored.
    dead: Cell<Option<FoundSets<A>>>,
    /// Where the last search that found something has ended.
    last: Cell<CandSet>,
}

/// The least set and the most set of each family.
#[derive(Drop)]
struct Stored<A: Allocator + Copy> {
    leasts: Vec<CandSet, A>,
    mosts: Vec<CandSet, A>,
    /// One for each `BLOCK` families in a row.
    blocks: Vec<Block, A>,
}

impl<'a, A: Allocator + Copy> Model for Families<'a, A> {
    ghost use Rattle.std.specs.Prelude.{◌≡◌, ⊤, MatchOption};
    ghost use Rattle.sequential_winners.specs.Clones.{without_clones};
    ghost use Rattle.sequential_winners.specs.Families.{Sequential, sequential_of};
    ghost use Rattle.sequential_winners.specs.Steps.Families.{KeepsElection, AreBlocks};
    ghost use Rattle.sequential_winners.specs.Steps.Levels.{AreFamilies};

    ghost Value = { Sequential };

    ghost view = { λ f. sequential_of f.levels.choices.profile.now f.levels.choices.rule f.k };

    ghost invariant = { λ f. KeepsElection f.levels.choices.profile.now f.k
        × MatchOption f.stored ⊤ (λ s. AreFamilies f.levels.choices.rule f.levels.choices.profile.now f.k
        s.leasts.items s.mosts.items × AreBlocks s.leasts.items s.mosts.items s.blocks.items)
        × (f.alone ≡ without_clones f.levels.choices.profile.now.m f.levels.choices.profile.now.rows) };
}

impl<'a, A: Allocator + Copy + Drop> Families<'a, A> {
    /// The families of the winning committees, in this memory. Neither this nor a question takes more.
    pub fn new(memory: FamilyMemory<'a, A>) -> Families<'a, A>
        ensures { result ≡ memory.entry }
    {
        let FamilyMemory {
            levels,
            k,
            level,
            room,
            dead,
        } = memory;
        let alone = levels.alone();
        let stored = match level {
            Some(level) => Stored::of(&levels, k, level, room).unwrap_or(None),
            None => None,
        };
        Families {
            levels,
            k,
            alone,
            stored,
            dead: Cell::new(dead),
            last: Cell::new(CandSet::empty()),
        }
    }
}

impl<A: Allocator + Copy + Drop> Stored<A> {
    /// The families of `k`, from a level on, or `None` if a level on the way has more than `MOST_SETS` sets.
    fn of(
        levels: &Levels<'_, A>,
        k: u8,
        mut level: Level<A>,
        room: Room<A>,
    ) -> Result<Option<Stored<A>>, AllocError>
        requires fits { k ≤ levels.now.choices.profile.now.m }
        requires level { AreReached levels.now.choices.rule levels.now.choices.profile.now
            (choices_of levels.now.choices.rule levels.now.choices.profile.now.m k) level.size level.sets.items }
        ensures { IfOk result (λ stored. MatchOption stored ⊤ (λ s. AreFamilies levels.now.choices.rule
            levels.now.choices.profile.now k s.leasts.items s.mosts.items
            × AreBlocks s.leasts.items s.mosts.items s.blocks.items)) }
    {
        let Room {
            mut ends,
            mut blocks,
        } = room;
        let Choices { profile, rule, .. } = &levels.choices;
        let total = rule.choices(profile.m(), k);
        levels.go_on(&mut level, total, MOST_SETS)?;
        if level.size != total {
            return Ok(None);
        }
        let sets = level.sets;
        ends.clear();
        for set in &sets {
            let end = if set.len() == k {
                None
            } else {
                levels.ties_and_end(*set).2
            };
            ends.push(end.unwrap_or(*set))?;
        }
        let (leasts, mosts) = match rule.step() {
            Step::Grow => (sets, ends),
            Step::Shrink => (ends, sets),
        };
        put_blocks(&leasts, &mosts, &mut blocks)?;
        Ok(Some(Stored {
            leasts,
            mosts,
            blocks,
        }))
    }
}

/// Puts the blocks of families in the place of others.
fn put_blocks<A: Allocator + Copy>(
    leasts: &[CandSet],
    mosts: &[CandSet],
    blocks: &mut Vec<Block, A>,
) -> Result<(), AllocError>
    requires { length mosts.now ≡ length leasts.now }
    ensures { OnOk result (AreBlocks leasts.now mosts.now blocks.new.items) }
{
    blocks.clear();
    for block in 0..leasts.len() / BLOCK + 1 {
        blocks.push(block_from(leasts, mosts, block * BLOCK))?;
    }
    Ok(())
}

/// The block of the families from a place on.
fn block_from(leasts: &[CandSet], mosts: &[CandSet], start: usize) -> Block
    requires { length mosts.now ≡ length leasts.now }
    ensures { IsBlock leasts.now mosts.now start result }
{
    let mut in_all = CandSet::all(MOST_CANDIDATES);
    let mut in_some = CandSet::empty();
    for i in start..start.saturating_add(BLOCK).min(leasts.len()) {
        in_all = in_all.common(leasts[i]);
        in_some = in_some.union(mosts[i]);
    }
    Block { in_all, in_some }
}

impl<'a, A: Allocator + Copy> Families<'a, A> {
    /// The winners in order, if the families are single committees: no candidate has a clone, and every least set has
    /// size `k`.
    pub(crate) fn in_order(&self) -> Option<&[CandSet]>
        ensures { MatchOption result ⊤ (λ sets.
            sets.now ≡ sequential_winners self.now.rule self.now.election self.now.k) }
    {
        let (clones, k) = (&self.levels.clones, self.k);
        let Some(stored) = &self.stored else {
            return None;
        };
        let leasts = &stored.leasts;
        let are_apart = (1..self.m() + 1).all(|c| clones.class(c).len() == 1);
        if !are_apart || !leasts.iter().all(|set| set.len() == k) {
            return None;
        }
        Some(leasts)
    }

    /// Whether some family has a committee that consists of `set` and of `left` candidates after `c`.
    fn completes(&self, c: u8, set: CandSet, left: u8) -> bool
        requires within { c ≤ self.now.election.m }
        requires set { IsIncreasing 1 c set }
        requires fits { left ≤ self.now.election.m - c }
        ensures { result ≡ some_winner self.now c set left }
    {
        if self.k != set.len() + left {
            return false;
        }
        match &self.stored {
            Some(stored) => self.is_in_some(stored, c, set),
            None => self.is_reached(c, set),
        }
    }

    /// Whether one of the stored families has a committee that consists of `set` and of candidates after `c`.
    fn is_in_some(&self, stored: &Stored<A>, c: u8, set: CandSet) -> bool
        requires families { AreFamilies self.now.rule self.now.election self.now.k stored.now.leasts.items
            stored.now.mosts.items }
        requires blocks { AreBlocks stored.now.leasts.items stored.now.mosts.items stored.now.blocks.items }
        requires fits { self.now.k ≤ self.now.election.m }
        requires within { c ≤ self.now.election.m }
        requires set { IsIncreasing 1 c set }
        requires size { length set ≤ self.now.k }
        ensures { result ≡ some_winner self.now c set (self.now.k - length set) }
    {
        for block in 0..stored.blocks.len() {
            if self.is_in_block(stored, block, c, set) {
                return true;
            }
        }
        false
    }

    /// Whether a family of a block has such a committee. Most blocks are passed over at once, by a candidate without
    /// clones: `set` has it and no most set does, or all least sets have it and `set` has passed over it.
    fn is_in_block(&self, stored: &Stored<A>, block: usize, c: u8, set: CandSet) -> bool
        requires families { AreFamilies self.now.rule self.now.election self.now.k stored.now.leasts.items
            stored.now.mosts.items }
        requires blocks { AreBlocks stored.now.leasts.items stored.now.mosts.items stored.now.blocks.items }
        requires fits { self.now.k ≤ self.now.election.m }
        requires within { c ≤ self.now.election.m }
        requires set { IsIncreasing 1 c set }
        requires size { length set ≤ self.now.k }
        requires inside { block < length stored.now.blocks.items }
        ensures { IsBlockAnswer self.now c set stored.now.leasts.items stored.now.mosts.items block result }
    {
        let Block { in_all, in_some } = stored.blocks[block];
        if !in_some.includes(set.common(self.alone))
            || !set.includes(in_all.common(self.alone).upto(c))
        {
            return false;
        }
        let start = block.saturating_mul(BLOCK);
        for i in start..start.saturating_add(BLOCK).min(stored.leasts.len()) {
            if self.may_be_in((stored.leasts[i], stored.mosts[i]), c, set) {
                return true;
            }
        }
        false
    }

    /// Whether some sequence of choices makes a committee that consists of `set` and of candidates after `c`.
    fn is_reached(&self, c: u8, set: CandSet) -> bool
        requires within { c ≤ self.now.election.m }
        requires set { IsIncreasing 1 c set }
        requires size { length set ≤ self.now.k }
        ensures { result ≡ some_winner self.now c set (self.now.k - length set) }
    {
        let mut dead = self.dead.take();
        if let Some(sets) = &mut dead {
            forget(sets);
        }
        let question = Question {
            families: self,
            levels: &self.levels,
            k: self.k,
            c,
            set,
            last: &self.last,
        };
        let Choices { profile, rule, .. } = &self.levels.choices;
        let start = rule.step().start(profile.m());
        let is_reached = question.leads(&mut dead, start);
        self.dead.set(dead);
        is_reached
    }

    /// Whether a family has a committee that consists of `set` and of candidates after `c`. Two conditions must hold.
    /// The candidates that `set` needs to have as many of each class as the least set have to fit in. The candidates
    /// for which the most set has room have to fill the committee. Most families fail at once, by a candidate without
    /// clones: `set` has it and the most set does not, or the least set has it and `set` has passed over it.
    // Not inlined: it would take stack at each set of a search.
    #[inline(never)]
    pub(crate) fn may_be_in(&self, family: (CandSet, CandSet), c: u8, set: CandSet) -> bool
        requires least_set { IsIncreasing 1 self.now.election.m family.0 }
        requires most_set { IsIncreasing 1 self.now.election.m family.1 }
        requires within { c ≤ self.now.election.m }
        requires set { IsIncreasing 1 c set }
        requires size { length set ≤ self.now.k }
        ensures { result ≡ may_be_in self.now.election.m self.now.election.rows c set (self.now.k - length set) family }
    {
        let (least, most) = family;
        if !most.includes(set.common(self.alone))
            || !set.includes(least.common(self.alone).upto(c))
        {
            return false;
        }
        let all = self.completed(c, set, least);
        all.len() <= self.k
            && self.has_as_many(all, least)
            && self.has_as_many(most, all)
            && self.k <= self.completed(c, set, most).len()
    }

    /// The set and, for each class of clones of which it has fewer members than the other set, as many of the class's
    /// candidates after `c` as it lacks. Those without clones join at once.
    fn completed(&self, c: u8, set: CandSet, other: CandSet) -> CandSet
        requires within { c ≤ self.now.election.m }
        requires set { IsIncreasing 1 c set }
        requires other { IsIncreasing 1 self.now.election.m other }
        ensures candidates { IsIncreasing 1 self.now.election.m result }
        ensures made { result ≡ completed c self.now.election.m self.now.election.rows set other }
    {
        let after = CandSet::after(c, self.m());
        let mut all = set.union(other.common(after).common(self.alone));
        for x in after.minus(self.alone).members() {
            if self.count(all, x) < self.count(other, x) {
                all = all.with(x);
            }
        }
        all
    }

    /// Whether a set has at least as many of each class of clones as another one.
    fn has_as_many(&self, set: CandSet, other: CandSet) -> bool
        requires set { IsIncreasing 1 self.now.election.m set }
        requires other { IsIncreasing 1 self.now.election.m other }
        ensures { result ≡ has_as_many self.now.election.m self.now.election.rows set other }
    {
        if !set.includes(other.common(self.alone)) {
            return false;
        }
        for c in CandSet::all(self.m()).minus(self.alone).members() {
            if self.count(set, c) < self.count(other, c) {
                return false;
            }
        }
        true
    }

    /// How many clones of `c` a set has.
    fn count(&self, set: CandSet, c: u8) -> u8
        requires set { IsIncreasing 1 self.now.election.m set }
        requires low { 1 ≤ c }
        requires high { c ≤ self.now.election.m }
        ensures { result ≡ clone_count self.now.election.rows set c }
    {
        set.common(self.levels.clones.class(c)).len()
    }
}

impl<'a, A: Allocator + Copy> Tally for Families<'a, A> {
    ghost candidates = { λ families. families.election.m };

    ghost value_of = { λ families set. if is_winner families set then 1 else 0 };

    ghost bound_of = { λ families c set left. if some_winner families c set left then 1 else 0 };

    fn m(&self) -> u8 {
        self.levels.choices.profile.m()
    }

    fn value(&self, set: CandSet) -> u128 {
        u128::from(self.completes(self.m(), set, 0))
    }

    fn bound(&self, c: u8, set: CandSet, left: u8) -> u128 {
        u128::from(self.completes(c, set, left))
    }
}
