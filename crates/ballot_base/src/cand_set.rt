//! Sets of candidates, each stored in one word.
ghost use Rattle.std.specs.Prelude.{◌≡◌, ℕ, ◌+◌, ◌-◌, ◌^◌, ◌<◌, ◌≤◌, ◌↔◌, List, [], ◌∷◌, not, length, count_by, IsTrue, MatchOption, SomeIff, Some, refl};
ghost use Rattle.std.specs.Int.{bit_at};
ghost use Rattle.std.specs.List.{range_with_len};
ghost use Rattle.std.specs.Iterator.{YieldsFirst, item_count};
ghost use Rattle.std.specs.Cmp.Lexicographic.{slice_cmp, texts_po, nat_list_cmp_total, texts_ties};
ghost use Rattle.std.specs.Ordering.{nat_cmp};
ghost use Rattle.ballot_base.specs.Limits.{most_candidates};
ghost use Rattle.ballot_base.specs.Lists.{IsIncreasing};
ghost use Rattle.ballot_base.specs.CandSet.{has_member, with_member, without_member, members_upto};
ghost use Rattle.ballot_base.specs.CandSet.{common_members, either_members, other_members, includes};
ghost use Rattle.ballot_base.specs.Steps.Subsets.{IsLastSet, IsNextSet};
ghost use Rattle.ballot_base.specs.Steps.Bits.{members, bits_of, bits_of_members, bits_of_same};
ghost use Rattle.std.proofs.Common.{ap};
ghost use Rattle.std.specs.Str.{bytes_eq};
ghost use Rattle.std.specs.Cmp.{partial_equiv_from_equiv};
ghost use Rattle.std.proofs.lemmas.Cmp.{nat_list_eq_equiv};
ghost use Rattle.std.specs.Hash.{u64 as word_input};

use crate::limits::MOST_CANDIDATES;
use std::cmp::Ordering;
use std::fmt;
use std::hash::{Hash, Hasher};
use std::marker::Model;

/// A set of candidates, numbered from 1 to `MOST_CANDIDATES`. Contracts see the increasing list of its members.
#[tactic(auto, using(crate::specs::Steps::Bits::bits_of_members))]
#[derive(Clone, Copy)]
pub struct CandSet {
    bits: u64,
}

impl Model for CandSet {
    ghost Value = { List ℕ };

    ghost view = { λ set. members set.bits };

    ghost invariant = { λ set. set.bits < 2 ^ most_candidates };

    ghost inverse = { λ set. record { bits = bits_of set } };

    ghost inverse_ok = { λ set h. ap (λ (n : ℕ). record { bits = n }) (bits_of_members set.bits h) };
}

/// The empty set.
impl Default for CandSet {
    ghost is_default = { λ set. set ≡ [] };

    fn default() -> CandSet {
        CandSet::empty()
    }
}

impl PartialEq for CandSet {
    ghost eq = { bytes_eq };

    ghost laws = { partial_equiv_from_equiv nat_list_eq_equiv };

    fn eq(&self, other: &CandSet) -> bool {
        self.bits == other.bits
    }
}

impl Eq for CandSet {
    ghost laws = { nat_list_eq_equiv };
}

impl PartialOrd for CandSet {
    ghost partial_cmp = { λ set other. Some (slice_cmp nat_cmp set other) };

    ghost laws = { texts_po };

    fn partial_cmp(&self, other: &CandSet) -> Option<Ordering> {
        Some(self.cmp(other))
    }
}

/// The order of `cmp_lex`.
impl Ord for CandSet {
    ghost cmp = { slice_cmp nat_cmp };

    ghost total = { nat_list_cmp_total };

    ghost matches_partial_cmp = { λ set other. refl };

    ghost matches_eq = { texts_ties };

    fn cmp(&self, other: &CandSet) -> Ordering {
        self.cmp_lex(*other)
    }
}

impl Hash for CandSet {
    ghost hash_input = { λ set. word_input (bits_of set) };

    ghost respects_eq = { λ set other same. ap word_input (bits_of_same set other same) };

    fn hash<H: Hasher>(&self, state: &mut H) {
        self.bits.hash(state);
    }
}

impl fmt::Debug for CandSet {
    fn fmt<W: fmt::Write>(&self, f: &mut fmt::Formatter<W>) -> fmt::Result {
        f.debug_set().entries(self.members()).finish()
    }
}

impl CandSet {
    /// The empty set.
    pub fn empty() -> CandSet
        ensures { result ≡ [] }
    {
        CandSet { bits: 0 }
    }

    /// The set of the candidates 1 to m.
    pub fn all(m: u8) -> CandSet
        requires { m ≤ most_candidates }
        ensures { result ≡ range_with_len 1 m }
    {
        CandSet {
            bits: numbers_to(m),
        }
    }

    /// The set of the candidates c + 1 to m.
    pub fn after(c: u8, m: u8) -> CandSet
        requires within { c ≤ m }
        requires most { m ≤ most_candidates }
        ensures { result ≡ range_with_len (c + 1) (m - c) }
    {
        CandSet {
            bits: numbers_to(m) & !numbers_to(c),
        }
    }

    /// The set of these numbers. Returns `None` unless the numbers increase and lie between 1 and `MOST_CANDIDATES`.
    /// Only tests call it.
    pub fn of_list(numbers: &[u8]) -> Option<CandSet>
        ensures { SomeIff result (IsIncreasing 1 most_candidates numbers.now) numbers.now }
    {
        let mut set = CandSet::empty();
        let mut last = 0;
        for n in numbers {
            if *n <= last || *n > MOST_CANDIDATES {
                return None;
            }
            set = set.with(*n);
            last = *n;
        }
        Some(set)
    }

    /// Whether the candidate is a member. Any number may be given.
    pub fn has(self, n: u8) -> bool
        ensures { result ≡ has_member self n }
    {
        n != 0 && n <= MOST_CANDIDATES && self.bits >> (n - 1) & 1 == 1
    }

    /// The set with this candidate added.
    pub fn with(self, n: u8) -> CandSet
        requires low { 1 ≤ n }
        requires high { n ≤ most_candidates }
        ensures { result ≡ with_member self n }
    {
        CandSet {
            bits: self.bits | 1 << (n - 1),
        }
    }

    /// The set without this candidate, who need not be a member. Any number may be given.
    pub fn without(self, n: u8) -> CandSet
        ensures { result ≡ without_member self n }
    {
        if n == 0 || n > MOST_CANDIDATES {
            return self;
        }
        CandSet {
            bits: self.bits & !(1 << (n - 1)),
        }
    }

    /// The members of both sets.
    pub fn common(self, other: CandSet) -> CandSet
        ensures { result ≡ common_members self other }
    {
        CandSet {
            bits: self.bits & other.bits,
        }
    }

    /// The members of either set, or of both.
    pub fn union(self, other: CandSet) -> CandSet
        ensures { result ≡ either_members self other }
    {
        CandSet {
            bits: self.bits | other.bits,
        }
    }

    /// The members that are not in the other set.
    pub fn minus(self, other: CandSet) -> CandSet
        ensures { result ≡ other_members self other }
    {
        CandSet {
            bits: self.bits & !other.bits,
        }
    }

    /// The number of candidates that are members of exactly one of the two sets: the Hamming distance.
    pub fn distance(self, other: CandSet) -> u8
        ensures { result
            ≡ count_by (λ n. not (has_member other n)) self + count_by (λ n. not (has_member self n)) other }
    {
        (self.bits ^ other.bits).count_ones() as u8
    }

    /// The members that are at most c.
    pub fn upto(self, c: u8) -> CandSet
        requires { c ≤ most_candidates }
        ensures { result ≡ members_upto self c }
    {
        CandSet {
            bits: self.bits & numbers_to(c),
        }
    }

    /// Whether all members of the other set are members of this one.
    pub fn includes(self, other: CandSet) -> bool
        ensures { result ≡ includes self other }
    {
        other.bits & self.bits == other.bits
    }

    /// The number of members.
    pub fn len(self) -> u8
        ensures count { result ≡ length self }
        ensures most { result ≤ most_candidates }
        ensures valid { IsIncreasing 1 most_candidates self }
    {
        self.bits.count_ones() as u8
    }

    /// Whether there is no member.
    pub fn is_empty(self) -> bool
        ensures { IsTrue result ↔ (self ≡ []) }
    {
        self.bits == 0
    }

    /// The members, in increasing order.
    pub fn members(self) -> Members
        ensures items { result ≡ self }
        ensures valid { IsIncreasing 1 most_candidates self }
    {
        Members { bits: self.bits }
    }

    /// The lowest member and the set of the others, or `None` for the empty set.
    pub fn split_first(self) -> Option<(u8, CandSet)>
        ensures { MatchOption result (self ≡ []) (λ parts. self ≡ parts.0 ∷ parts.1) }
    {
        if self.bits == 0 {
            return None;
        }
        let first = self.bits.trailing_zeros() as u8 + 1;
        Some((first, self.without(first)))
    }

    /// Compares the increasing lists of members lexicographically. A proper prefix of a list comes before the list.
    pub fn cmp_lex(self, other: CandSet) -> Ordering
        ensures { result ≡ slice_cmp nat_cmp self other }
    {
        let differ = self.bits ^ other.bits;
        if differ == 0 {
            return Ordering::Equal;
        }
        // Below the first member that only one of the sets has, both sets agree.
        let first = differ.trailing_zeros();
        if self.bits >> first & 1 == 1 {
            if other.bits >> first == 0 {
                Ordering::Greater
            } else {
                Ordering::Less
            }
        } else if self.bits >> first == 0 {
            Ordering::Less
        } else {
            Ordering::Greater
        }
    }

    /// The next set of the same size of the candidates 1 to m, in lexicographic order. Returns `None` after the last.
    pub(crate) fn next_of_size(self, m: u8) -> Option<CandSet>
        requires most { m ≤ most_candidates }
        requires candidates { IsIncreasing 1 m self }
        ensures { MatchOption result (IsLastSet m self) (IsNextSet m self) }
    {
        let absent = numbers_to(m) & !self.bits;
        if absent == 0 {
            return None;
        }
        // All numbers above the highest non-member are members, and the next member below it grows.
        let free = greatest(absent);
        let below = self.bits & numbers_to(free - 1);
        if below == 0 {
            return None;
        }
        let last = greatest(below);
        let run = numbers_to(last + 1 + (m - free)) - numbers_to(last);
        Some(CandSet {
            bits: below & numbers_to(last - 1) | run,
        })
    }
}

/// Iterates over the members of a set, in increasing order. Contracts see the list of those still to come.
#[derive(Drop)]
pub struct Members {
    bits: u64,
}

impl Model for Members {
    ghost Value = { List ℕ };

    ghost view = { λ iterator. members iterator.bits };

    ghost invariant = { λ iterator. iterator.bits < 2 ^ most_candidates };
}

impl Iterator for Members {
    type Item = u8;

    ghost next_gives = { YieldsFirst (λ (members : List ℕ). members) };

    ghost remaining = { item_count (λ (members : List ℕ). members) };

    fn next(&mut self) -> Option<u8> {
        if self.bits == 0 {
            return None;
        }
        let bit = self.bits.trailing_zeros() as u8;
        self.bits &= self.bits - 1;
        Some(bit + 1)
    }
}

fn numbers_to(n: u8) -> u64
    requires { n ≤ most_candidates }
    ensures { result ≡ 2 ^ n - 1 }
{
    if n == 0 {
        return 0;
    }
    u64::MAX >> (u64::BITS - u32::from(n))
}

fn greatest(bits: u64) -> u8
    requires some { 0 < bits }
    requires most { bits < 2 ^ most_candidates }
    ensures low { 1 ≤ result }
    ensures high { result ≤ most_candidates }
    ensures member { bit_at bits (result - 1) ≡ 1 }
    ensures above { (i : ℕ) → result ≤ i → bit_at bits i ≡ 0 }
{
    bits.ilog2() as u8 + 1
}
