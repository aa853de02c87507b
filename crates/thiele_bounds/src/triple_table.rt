//! A table of triples: a word for each three candidates.
ghost use Rattle.std.specs.Prelude.{◌≡◌, ℕ, ◌+◌, ◌^◌, ◌<◌, ◌≤◌, ◌==◌, true, ⊤, length, max, min, MatchOption, slice_index, if◌then◌else◌};
ghost use Rattle.ballot_base.specs.Limits.{most_candidates};
ghost use Rattle.ballot_base.specs.CandSet.{has_member};
ghost use Rattle.thiele_bounds.specs.Steps.Paired.{overlap_at};
ghost use Rattle.thiele_bounds.specs.Steps.Places.{HasRoom, tetrahedron, word_at};

use crate::pairs::{Table, add_pairs, add_to_pairs, row_start};
use ballot_base::CandSet;
use std::alloc::{AllocError, Allocator};
use std::cell::Cell;
use std::marker::Model;

/// Memory for a table of triples. Nothing is written to it before triples are counted.
#[derive(Drop)]
pub struct TripleMemory<A: Allocator> {
    // None while a table is in use.
    words: Cell<Option<Vec<u64, A>>>,
}

impl<A: Allocator> Model for TripleMemory<A> {
    ghost Value = { ⊤ };

    ghost view = { λ _. tt };
}

impl<A: Allocator + Copy + Drop> TripleMemory<A> {
    /// Takes memory for the triples of the candidates 1 to m: for 64 candidates, 383,240 bytes.
    pub fn of(alloc: A, m: u8) -> Result<TripleMemory<A>, AllocError>
        requires { m ≤ most_candidates }
    {
        Ok(TripleMemory {
            words: Cell::new(Some(Vec::with_capacity(alloc, plane_start(m + 1))?)),
        })
    }
}

impl<A: Allocator> TripleMemory<A> {
    /// A table for the candidates 1 to m in which every word is 0. It grows only if the memory is for fewer candidates.
    pub(crate) fn table(&self, m: u8) -> Option<Vec<u64, A>>
        requires { m ≤ most_candidates }
        ensures { MatchOption result ⊤ (λ table. (length table.items ≡ tetrahedron (m + 1))
            × ((n : ℕ) → slice_index table.items n ≡ 0)) }
    {
        let mut words = self.words.replace(None)?;
        words.clear();
        words.resize(plane_start(m + 1), 0).ok()?;
        Some(words)
    }

    /// Takes a table back.
    pub(crate) fn keep(&self, table: Vec<u64, A>) {
        self.words.set(Some(table));
    }
}

pub(crate) fn plane_start(candidate: u8) -> usize
    ensures { result ≡ tetrahedron candidate }
{
    let candidate = usize::from(candidate);
    candidate * (candidate + 1) * (candidate + 2) / 6
}

/// What a ballot adds for each two, and for each three, of the free candidates that it approves.
#[derive(Clone, Copy)]
pub(crate) struct Amounts {
    pub(crate) two: u64,
    pub(crate) three: u64,
}

/// Adds these amounts for each two and each three of the members.
pub(crate) fn add_threes(pairs: &mut Table, triples: &mut [u64], members: CandSet, amounts: Amounts)
    requires room { HasRoom members triples.old }
    requires pairs_fit { (i j : ℕ) → j ≤ most_candidates → overlap_at pairs.old i j + amounts.two < 2 ^ 64 }
    requires fits { (z y x : ℕ) → x < y → y < z → word_at triples.old z y x + amounts.three < 2 ^ 64 }
    ensures kept { length triples.new ≡ length triples.old }
    ensures paired { (i j : ℕ) → j ≤ most_candidates → overlap_at pairs.new i j ≡ overlap_at pairs.old i j
        + (if has_member members i then (if has_member members j then amounts.two else 0) else 0) }
    ensures added { (z y x : ℕ) → x < y → y < z → word_at triples.new z y x ≡ word_at triples.old z y x
        + (if has_member members z then (if has_member members y then (if has_member members x then amounts.three
        else 0) else 0) else 0) }
{
    if amounts.three == 0 {
        add_pairs(pairs, members, amounts.two);
        return;
    }
    for high in members.members() {
        add_to_pairs(pairs, high, CandSet::empty().with(high), amounts.two);
        add_to_plane(pairs, triples, high, members.upto(high - 1), amounts);
    }
}

/// Adds these amounts for a candidate with each of the members before it, and with each two of them.
fn add_to_plane(
    pairs: &mut Table,
    triples: &mut [u64],
    high: u8,
    members: CandSet,
    amounts: Amounts,
)
    requires within { high ≤ most_candidates }
    requires room { tetrahedron (high + 1) ≤ length triples.old }
    requires before { (n : ℕ) → has_member members n ≡ true → n < high }
    requires pairs_fit { (j : ℕ) → j < high → overlap_at pairs.old high j + amounts.two < 2 ^ 64 }
    requires fits { (y x : ℕ) → x < y → y < high → word_at triples.old high y x + amounts.three < 2 ^ 64 }
    ensures kept { length triples.new ≡ length triples.old }
    ensures paired { (i j : ℕ) → overlap_at pairs.new i j ≡ overlap_at pairs.old i j
        + (if max i j == high then (if has_member members (min i j) then amounts.two else 0) else 0) }
    ensures added { (z y x : ℕ) → x < y → y < z → word_at triples.new z y x ≡ word_at triples.old z y x
        + (if has_member members y then (if z == high then (if has_member members x then amounts.three else 0) else 0)
        else 0) }
{
    let start = row_start(high);
    for middle in members.members() {
        pairs[start + usize::from(middle)] += amounts.two;
        add_to_row(
            triples,
            high,
            middle,
            members.upto(middle - 1),
            amounts.three,
        );
    }
}

/// Adds this amount for two candidates with each of the columns.
fn add_to_row(table: &mut [u64], high: u8, middle: u8, columns: CandSet, amount: u64)
    requires room { tetrahedron (high + 1) ≤ length table.old }
    requires below { middle < high }
    requires before { (n : ℕ) → has_member columns n ≡ true → n < middle }
    requires fits { (x : ℕ) → x < middle → word_at table.old high middle x + amount < 2 ^ 64 }
    ensures kept { length table.new ≡ length table.old }
    ensures added { (z y x : ℕ) → x < y → y < z → word_at table.new z y x ≡ word_at table.old z y x
        + (if has_member columns x then (if z == high then (if y == middle then amount else 0) else 0) else 0) }
{
    let start = plane_start(high) + row_start(middle);
    for column in columns.members() {
        table[start + usize::from(column)] += amount;
    }
}
