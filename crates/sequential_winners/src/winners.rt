//! The winners of a sequential rule, one by one.
ghost use Rattle.std.specs.Prelude.{◌≡◌, ℕ, List};
ghost use Rattle.std.specs.Iterator.{YieldsFirst, item_count};
ghost use Rattle.ballot_base.specs.Lists.{later_than};
ghost use Rattle.tie_walk.specs.Sequences.{sequential_winners};
ghost use Rattle.tie_walk.specs.Winners.{IsStart};

use crate::families::Families;
use ballot_base::CandSet;
use std::alloc::{Allocator, Global};
use std::marker::Model;
use tie_walk::sequential::first_later;
use tie_walk::{Tally, Winners};

/// Iterates over the committees of size k that some sequence of choices makes, in lexicographic order. If candidates
/// tie, any of them may be chosen (Lackner and Skowron, Multi-Winner Voting with Approval Preferences, sequential and
/// reverse sequential Thiele methods). Contracts see the list of those still to come.
#[derive(Drop)]
pub struct FamilyWinners<'a, A: Allocator + Copy = Global> {
    // The winners, if they are stored in order, and the place of the next one.
    sorted: &'a [CandSet],
    place: usize,
    // Otherwise a walk over the families.
    walk: Option<Winners<'a, Families<'a, A>>>,
}

impl<'a, A: Allocator + Copy> Model for FamilyWinners<'a, A> {
    ghost use Rattle.std.specs.Prelude.{ℕ, List, drop};
    ghost use Rattle.sequential_winners.specs.Steps.Families.{still_to_come};

    ghost Value = { List (List ℕ) };

    ghost view = { λ w. still_to_come (drop w.place w.sorted.now) w.walk };
}

impl<'a, A: Allocator + Copy> FamilyWinners<'a, A> {
    /// The winners of these families that are later than `after`, or all winners if `after` is `None`. `after` is any
    /// committee of size k; it need not win. Neither this nor `next` takes memory.
    pub fn new(families: &'a Families<'a, A>, after: Option<CandSet>) -> FamilyWinners<'a, A>
        requires { IsStart families.now.election.m families.now.k after }
        ensures { result ≡ later_than after
            (sequential_winners families.now.rule families.now.election families.now.k) }
    {
        if let Some(sets) = families.in_order() {
            return FamilyWinners {
                sorted: sets,
                place: first_later(sets, after),
                walk: None,
            };
        }
        FamilyWinners {
            sorted: &[],
            place: 0,
            walk: Some(Winners::new(families, families.m(), families.k, after)),
        }
    }
}

impl<'a, A: Allocator + Copy> Iterator for FamilyWinners<'a, A> {
    type Item = CandSet;

    ghost next_gives = { YieldsFirst (λ (sets : List (List ℕ)). sets) };

    ghost remaining = { item_count (λ (sets : List (List ℕ)). sets) };

    fn next(&mut self) -> Option<CandSet> {
        if let Some(walk) = &mut self.walk {
            return walk.next();
        }
        let set = *self.sorted.get(self.place)?;
        self.place += 1;
        Some(set)
    }
}
