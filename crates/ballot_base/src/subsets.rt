//! All committees of one size, in lexicographic order. Only tests use them: they try every committee or group, and
//! compare the outcome with the results of the crates above.
ghost use Rattle.std.specs.Prelude.{◌≡◌, ℕ, ◌≤◌, List, Some, length};
ghost use Rattle.std.specs.Iterator.{YieldsFirst, item_count};
ghost use Rattle.ballot_base.specs.Limits.{most_candidates};
ghost use Rattle.ballot_base.specs.Lists.{IsIncreasing, increasing_lists, later_than};
ghost use Rattle.ballot_base.specs.Steps.Subsets.{sets_from, MayComeNext};

use crate::cand_set::CandSet;
use std::marker::Model;

/// Iterates over the sets of k of the candidates 1 to m, in lexicographic order. Contracts see the list of those still
/// to come.
#[derive(Drop)]
pub struct KSets {
    m: u8,
    next: Option<CandSet>,
}

impl Model for KSets {
    ghost Value = { List (List ℕ) };

    ghost view = { λ walk. sets_from walk.m walk.next };

    ghost invariant = { λ walk. MayComeNext walk.m walk.next };
}

impl KSets {
    /// All sets of k of the candidates 1 to m.
    pub fn new(m: u8, k: u8) -> KSets
        requires fits { k ≤ m }
        requires most { m ≤ most_candidates }
        ensures { result ≡ increasing_lists 1 m k }
    {
        KSets {
            m,
            next: Some(CandSet::all(k)),
        }
    }

    /// Only the sets that come after `set`, which has k members.
    pub fn after(m: u8, k: u8, set: CandSet) -> KSets
        requires most { m ≤ most_candidates }
        requires candidates { IsIncreasing 1 m set }
        requires size { length set ≡ k }
        ensures { result ≡ later_than (Some set) (increasing_lists 1 m k) }
    {
        prove!(set.len() == k);
        KSets {
            m,
            next: set.next_of_size(m),
        }
    }
}

impl Iterator for KSets {
    type Item = CandSet;

    ghost next_gives = { YieldsFirst (λ (sets : List (List ℕ)). sets) };

    ghost remaining = { item_count (λ (sets : List (List ℕ)). sets) };

    fn next(&mut self) -> Option<CandSet> {
        let set = self.next?;
        self.next = set.next_of_size(self.m);
        Some(set)
    }
}
