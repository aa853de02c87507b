//! The rows of a profile: an `IndexMap` from each ballot to the number of its voters. No other module knows the map.
ghost use Rattle.std.specs.Prelude.{◌≡◌, ◌+◌, ◌<◌, ◌≤◌, ◌↔◌, List, [], false, length, slice_get, Some, IsTrue, OnOk, OnErr};
ghost use Rattle.std.specs.Iterator.{YieldsFirst, item_count};
ghost use Rattle.ballot_base.specs.Limits.{most_voters};
ghost use Rattle.ballot_base.specs.Ballots.{Row, voter_count, has_ballot, with_votes};

use crate::cand_set::CandSet;
use crate::hashing::BallotHashing;
use indexmap::IndexMap;
use indexmap::map::Iter;
use std::alloc::{AllocError, Allocator};
use std::marker::Model;

/// The different ballots in the order of their first appearance, each with the number of its voters.
#[derive(Drop)]
pub(crate) struct Rows<A: Allocator + Copy> {
    map: IndexMap<CandSet, u64, BallotHashing, A>,
}

impl<A: Allocator + Copy> Model for Rows<A> {
    ghost Value = { List Row };

    ghost view = { λ rows. rows.map.entries };
}

impl<A: Allocator + Copy + Drop> Rows<A> {
    /// An empty table, whose ballots are hashed with these parameters.
    pub(crate) fn new(alloc: A, hashing: BallotHashing) -> Rows<A>
        ensures { result ≡ [] }
    {
        Rows {
            map: IndexMap::with_hasher(alloc, hashing),
        }
    }

    /// Adds votes to the row of a ballot. A ballot that nobody has cast yet gets a new row, after all others.
    pub(crate) fn add(&mut self, ballot: CandSet, count: u64) -> Result<(), AllocError>
        requires { voter_count self.old + count ≤ most_voters }
        ensures ok { OnOk result (self.new ≡ with_votes self.old ballot count) }
        ensures err { OnErr result (self.new ≡ self.old) }
        ensures new { OnErr result (has_ballot self.old ballot ≡ false) }
    {
        match self.map.insert_full(ballot, count) {
            Ok((place, Some(before))) => {
                self.map[place] = before + count;
                Ok(())
            }
            Ok((_, None)) => Ok(()),
            Err(_) => Err(AllocError),
        }
    }
}

impl<A: Allocator + Copy> Rows<A> {
    pub(crate) fn is_empty(&self) -> bool
        ensures { IsTrue result ↔ (self.now ≡ []) }
    {
        self.map.is_empty()
    }

    pub(crate) fn len(&self) -> usize
        ensures { result ≡ length self.now }
    {
        self.map.len()
    }

    pub(crate) fn row(&self, i: usize) -> (CandSet, u64)
        requires { i < length self.now }
        ensures { slice_get self.now i ≡ Some result }
    {
        match self.map.get_index(i) {
            Some((ballot, voters)) => (*ballot, *voters),
            None => unreachable!(),
        }
    }

    pub(crate) fn ballots(&self) -> Ballots<'_>
        ensures { result ≡ self.now }
    {
        Ballots {
            rows: self.map.iter(),
        }
    }
}

/// Iterates over the different ballots of a profile, in the order of their first appearance. Each comes with the number
/// of voters who cast it. Contracts see the list of rows still to come.
#[derive(Drop)]
pub struct Ballots<'a> {
    rows: Iter<'a, CandSet, u64>,
}

impl<'a> Model for Ballots<'a> {
    ghost Value = { List Row };

    ghost view = { λ ballots. ballots.rows };
}

impl<'a> Iterator for Ballots<'a> {
    type Item = (CandSet, u64);

    ghost next_gives = { YieldsFirst (λ (rows : List Row). rows) };

    ghost remaining = { item_count (λ (rows : List Row). rows) };

    fn next(&mut self) -> Option<(CandSet, u64)> {
        let (ballot, voters) = self.rows.next()?;
        Some((*ballot, *voters))
    }
}
