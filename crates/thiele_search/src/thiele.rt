//! Thiele's rules as values that can be searched.
ghost use Rattle.std.specs.Prelude.{◌≡◌, ◌≤◌, IfOk};
ghost use Rattle.ballot_base.specs.Clones.{clones_among};
ghost use Rattle.ballot_base.specs.Limits.{most_members};
ghost use Rattle.tie_walk.specs.Values.{tally_value, thiele_of, Thiele};
ghost use Rattle.tie_walk.specs.Ceilings.{ceiling};
ghost use Rattle.thiele_search.specs.Steps.Aided.{IsAided};

use crate::columns::Columns;
use crate::costs;
use crate::counts::Counts;
use crate::dominance::Dominance;
use crate::search::Aids;
use crate::symmetry::Symmetries;
use crate::trials::Uses;
use ballot_base::{CandSet, Clones, Profile, ThieleRule};
use row_multipliers::multipliers::Multipliers;
use row_multipliers::{Node, Payoff};
use std::alloc::{AllocError, Allocator, Global};
use std::marker::Model;
use thiele_bounds::{HitSums, Priced, TripleMemory};
use tie_search::{Searchable, Tied, WithClones, descent};
use tie_walk::{Tally, ThieleTally};

/// Most questions are answered after fewer sets. Then the bounds of the root, which take as long, are not asked for.
const FEW_SETS: u64 = 64;

/// All memory for a search among the committees of `k` under a Thiele rule, and the columns in it. Contracts see the
/// election, the rule and `k`.
#[derive(Drop)]
pub struct SearchMemory<'a, A: Allocator + Copy = Global> {
    counts: Counts<'a, A>,
    multipliers: Multipliers<A>,
    triples: TripleMemory<A>,
}

impl<'a, A: Allocator + Copy> Model for SearchMemory<'a, A> {
    ghost Value = { Thiele };

    ghost view = { λ t. t.counts.tally };
}

impl<'a, A: Allocator + Copy + Drop> SearchMemory<'a, A> {
    /// Takes 24 bytes for each different ballot, and at most 915,720 more: 383,240 of them for triples of 64
    /// candidates, and 14,168 for those of 20. `k` is at least 1, and at most 40 and the number of candidates. A failed
    /// allocation leaves nothing.
    pub fn new(
        alloc: A,
        profile: &'a Profile<A>,
        rule: ThieleRule,
        k: u8,
    ) -> Result<SearchMemory<'a, A>, AllocError>
        requires some { 1 ≤ k }
        requires size { k ≤ most_members }
        requires fits { k ≤ profile.now.m }
        ensures { IfOk result (λ memory. memory ≡ thiele_of profile.now rule k) }
    {
        Ok(SearchMemory {
            counts: Counts {
                tally: ThieleTally::new(profile, rule, k),
                k,
                columns: Columns::of(alloc, profile, rule, k)?,
            },
            multipliers: Multipliers::of(alloc, profile.rows(), 0)?,
            triples: TripleMemory::of(alloc, profile.m())?,
        })
    }
}

/// A search among the committees of `k` under a Thiele rule. A value is the score times the common denominator of the
/// rule's increments. Contracts see the election, the rule and `k`.
#[derive(Drop)]
pub struct ThieleSearch<'a, A: Allocator + Copy = Global> {
    pub(crate) counts: Counts<'a, A>,
    pub(crate) aids: Aids<A>,
    // A committee to begin with.
    good: CandSet,
    // Where pairs pay, over all questions so far.
    pub(crate) pairs: Payoff,
    // Where it pays to move multipliers, over all questions so far.
    pub(crate) moves: Payoff,
    // Where the last bound pays, over all questions so far: that of triples, and under `cc` that of a lean search.
    pub(crate) last: Payoff,
    // Permutations of the candidates that keep the election.
    pub(crate) symmetries: Symmetries,
}

impl<'a, A: Allocator + Copy> Model for ThieleSearch<'a, A> {
    ghost Value = { Thiele };

    ghost view = { λ t. t.counts.tally };

    ghost invariant = { λ t. IsAided t.counts.tally t.aids };
}

impl<'a, A: Allocator + Copy + Drop> ThieleSearch<'a, A> {
    /// Prepares a search in this memory: makes prices, and looks for a good committee. Neither this nor a search takes
    /// more memory.
    pub fn new(memory: SearchMemory<'a, A>) -> ThieleSearch<'a, A>
        ensures { result ≡ memory.entry }
    {
        let multipliers = memory.multipliers;
        let counts = &memory.counts;
        let (profile, rule, k) = (counts.tally.profile(), counts.tally.rule(), counts.k);
        let mut good = counts.grown();
        // No committee is worth more than all candidates together, so prices may have nothing to show.
        let priced = if counts.value(good) == counts.most() {
            None
        } else {
            Priced::of(multipliers, &counts.tally, k, good)
        };
        if let Some(priced) = &priced {
            // The candidates with the highest prices may become a better committee.
            let other = counts.exchanged(priced.dearest);
            if other.len() == k && counts.value(other) > counts.value(good) {
                good = other;
            }
        }
        ThieleSearch {
            aids: Aids {
                clones: Clones::of(profile),
                dominance: Dominance::of(profile, rule, k),
                priced,
                sums: HitSums::for_pairs(rule, k, profile.voters()),
                table: memory.triples,
                uses: Uses::none(),
            },
            counts: memory.counts,
            good,
            pairs: costs::counted_pairs(profile.m()),
            moves: costs::moved(profile.rows(), rule),
            last: costs::last_bound(profile.rows(), profile.m(), rule),
            symmetries: Symmetries::none(),
        }
    }
}

impl<'a, A: Allocator + Copy> Tally for ThieleSearch<'a, A> {
    ghost candidates = { λ tally. tally.election.m };

    ghost value_of = { λ tally set. tally_value tally set };

    ghost bound_of = { λ tally c set left. ceiling (tally_value tally) tally.election.m c set left };

    fn m(&self) -> u8 {
        self.counts.tally.m()
    }

    fn value(&self, set: CandSet) -> u128 {
        self.counts.value(set)
    }

    fn bound(&self, c: u8, set: CandSet, left: u8) -> u128 {
        self.counts.tally.bound(c, set, left)
    }
}

impl<'a, A: Allocator + Copy> WithClones for ThieleSearch<'a, A> {
    ghost class_of = { λ tally c. clones_among tally.election.m tally.election.rows c };

    fn clones(&self) -> &Clones {
        &self.aids.clones
    }
}

impl<'a, A: Allocator + Copy> Searchable for ThieleSearch<'a, A> {
    fn good_committee(&self, k: u8) -> Option<CandSet> {
        let committee = CandSet::all(self.counts.tally.m()).common(self.good);
        (committee.len() == k).then_some(committee)
    }

    fn find(&self, node: &Node, least: u128) -> Option<CandSet> {
        // One winner after another is asked for, and most of these searches end after a few sets. So flat prices and
        // pairs at their roots come only where they help: in elections of grids, graphs and designs.
        if self.aids.uses.roots.are_due() {
            if let Ok(found) = descent::find_within(self, *node, least, FEW_SETS) {
                return found;
            }
            if self.falls_short(node, least) {
                return None;
            }
        }
        self.pairs.begin();
        self.moves.begin();
        descent::find(self, *node, least)
    }

    fn tied(&self, k: u8) -> Option<Tied> {
        let least = match self.good_committee(k) {
            Some(committee) => self.value(committee),
            None => 0,
        };
        let all = Node {
            set: CandSet::empty(),
            free: CandSet::all(self.m()),
            left: k,
        };
        if self.is_best(least) {
            // If it is known under `cc` that the good committee is the best, hundreds may tie with it. Then winners
            // come sooner one by one: with 64 popular candidates and 20 seats, the first came after 0.01 s and not up
            // to 5 s.
            if self.counts.tally.rule() == ThieleRule::Cc {
                return None;
            }
        } else if self.falls_short(&all, least.saturating_add(1)) {
            // If more tie than a list can have, the search for a list goes on for those of a higher value. Multipliers
            // that were moved do not show that there are none, so it might not end.
            return None;
        }
        // All winners took two to three times as long when each was searched for.
        descent::list_tied(self, all, least)
    }
}

impl<'a, A: Allocator + Copy> ThieleSearch<'a, A> {
    /// Whether the good committee, which has this value, is known to be the best. Any answer works.
    fn is_best(&self, value: u128) -> bool {
        value == self.counts.most() || matches!(&self.aids.priced, Some(priced) if priced.show_best)
    }
}
