//! Minimax approval voting as values that can be searched.
ghost use Rattle.std.specs.Prelude.{◌≡◌, IfOk, MatchOption, ⊤};
ghost use Rattle.row_multipliers.specs.Completions.{IsNode, IsReaching};
ghost use Rattle.ballot_base.specs.Clones.{clones_among, AreClones};
ghost use Rattle.tie_walk.specs.Ceilings.{closeness_upto};
ghost use Rattle.tie_walk.specs.Values.{closeness};
ghost use Rattle.ballot_base.specs.Ballots.{Election, IsElection};

use crate::good::near_committee;
use crate::lists::Lists;
use crate::rows::WeighedRows;
use crate::walk::Walk;
use crate::weights::Shares;
use ballot_base::{CandSet, Clones, Profile};
use row_multipliers::{Node, Payoff};
use std::alloc::{AllocError, Allocator, Global};
use std::cell::Cell;
use std::marker::Model;
use tie_search::descent::GivenUp;
use tie_search::{Committees, Searchable, Tied, WithClones, descent};
use tie_walk::{MinimaxTally, Tally};

/// A search among the committees of a profile under minimax approval voting. A committee's value is the number of
/// candidates less its maximum distance to a ballot. Contracts see the election.
#[derive(Drop)]
pub struct MinimaxSearch<'a, A: Allocator + Copy = Global> {
    pub(crate) profile: &'a Profile<A>,
    clones: Clones,
    pub(crate) shares: Shares,
    pub(crate) rows: WeighedRows<A>,
    // Where it pays to move weights, over all questions so far.
    pub(crate) moves: Payoff,
    // The committee that was found last.
    found: Cell<CandSet>,
    pub(crate) lists: Lists,
}

impl<'a, A: Allocator + Copy> Model for MinimaxSearch<'a, A> {
    ghost Value = { Election };

    ghost view = { λ t. t.profile.now };

    ghost invariant = { λ t. IsElection t.profile.now × AreClones t.profile.now.m t.profile.now.rows t.clones };
}

/// The work of a round that moves weights, in visits to a set. A round goes over all rows twice, and a visit often ends
/// at one of the first. With 1, 20 random candidates and 10 seats took 37 % more instructions. Any number works.
pub(crate) const ROUND: u64 = 2;

/// About how many rounds move the weights of a node.
const FIRST_ROUNDS: u64 = 6;

/// One in this number of all visits may be lost on moved weights. Most nodes end by them, so it may be as many as there
/// are. With one in four, 26 elections took an eighth more instructions. Any number works.
const LOST_SHARE: u64 = 1;

/// The number of sets of a short search. If a search lasts longer, a walk often finds sooner what is looked for. With
/// 10,000, one of five elections with 64 random candidates and 10 seats took 1.9 times as long. Any number works.
const SHORT_SEARCH: u64 = 1000;

impl<'a, A: Allocator + Copy + Drop> MinimaxSearch<'a, A> {
    /// Prepares a search among the committees of a profile's candidates. It takes 16 bytes for each different ballot,
    /// and a search takes no more. A failed allocation leaves nothing.
    pub fn new(alloc: A, profile: &'a Profile<A>) -> Result<MinimaxSearch<'a, A>, AllocError>
        ensures { IfOk result (λ search. search ≡ profile.now) }
    {
        Ok(MinimaxSearch {
            profile,
            clones: Clones::of(profile),
            shares: Shares::equal(),
            rows: WeighedRows::of(alloc, profile.rows())?,
            moves: Payoff::new(LOST_SHARE, FIRST_ROUNDS * ROUND),
            found: Cell::new(CandSet::empty()),
            lists: Lists::new(),
        })
    }
}

impl<A: Allocator + Copy> MinimaxSearch<'_, A> {
    /// A committee that a walk has reached, from which no ballot is farther than `most`. If the node's set is empty, a
    /// second walk begins with the committee that was found last. Without it, one election with ten parties took eight
    /// times as long, and one with five parties over forty times. The caller tests the committee, so any set would do.
    fn walked(&self, node: &Node, most: u8) -> Option<CandSet> {
        let members = Walk::from(self.profile, node, CandSet::empty()).reaching(most);
        if members.is_some() || !node.set.is_empty() {
            return members;
        }
        Walk::from(self.profile, node, self.found.get()).reaching(most)
    }

    /// A completion of a node that a walk has reached, whose value is at least `least`. There may be others.
    fn reached(&self, node: &Node, least: u128) -> Option<CandSet>
        requires is_node { IsNode self.now.m node.now.set node.now.free }
        ensures { MatchOption result ⊤ (IsReaching (closeness self.now.m self.now.rows) self.now.m node.now.set
            node.now.free node.now.left least) }
    {
        let m = self.m();
        if least > u128::from(m) {
            return None;
        }
        let members = self.walked(node, m - least as u8)?;
        let committee = node.set.union(node.free.common(members));
        let size = u16::from(node.set.len()) + u16::from(node.left);
        if u16::from(committee.len()) != size {
            return None;
        }
        (self.value(committee) >= least).then_some(committee)
    }
}

impl<'a, A: Allocator + Copy> Tally for MinimaxSearch<'a, A> {
    ghost candidates = { λ tally. tally.m };

    ghost value_of = { λ tally set. closeness tally.m tally.rows set };

    ghost bound_of = { λ tally c set left. closeness_upto tally.m tally.rows c set };

    fn m(&self) -> u8 {
        self.profile.m()
    }

    fn value(&self, set: CandSet) -> u128 {
        MinimaxTally::new(self.profile).value(set)
    }

    fn bound(&self, c: u8, set: CandSet, left: u8) -> u128 {
        MinimaxTally::new(self.profile).bound(c, set, left)
    }
}

impl<'a, A: Allocator + Copy> WithClones for MinimaxSearch<'a, A> {
    ghost class_of = { λ tally c. clones_among tally.m tally.rows c };

    fn clones(&self) -> &Clones {
        &self.clones
    }
}

impl<'a, A: Allocator + Copy> Searchable for MinimaxSearch<'a, A> {
    fn good_committee(&self, k: u8) -> Option<CandSet> {
        let committee = CandSet::all(self.m()).common(near_committee(self.profile, k));
        self.found.set(committee);
        (committee.len() == k).then_some(committee)
    }

    fn find(&self, node: &Node, least: u128) -> Option<CandSet> {
        self.rows.begin(node.left);
        let found = match descent::find_within(self, *node, least, SHORT_SEARCH) {
            Ok(found) => found,
            Err(GivenUp) => match self.reached(node, least) {
                Some(committee) => Some(committee),
                None => descent::find(self, *node, least),
            },
        };
        if let Some(committee) = found {
            self.found.set(committee);
        }
        found
    }

    // Thousands of committees tie under this rule. Listing them took up to four times the instructions until the first
    // winner, even with at most 2^20 committees.
    fn tied(&self, _k: u8) -> Option<Tied> {
        None
    }

    fn completions(&self, node: &Node, least: u128) -> Option<Committees> {
        self.rows.begin(node.left);
        let sets = self.lists.begin(least);
        let completions = descent::list_completions(self, *node, least, sets);
        self.lists.end(completions.is_none());
        completions
    }
}
