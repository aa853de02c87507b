//! A bound that sees which candidates share voters.
//!
//! Majorants (module `majorant`) are summed over the ballots. No completion of a set is worth more than what all voters
//! keep and the worths of the added members, less the overlaps of all pairs of them (`laws::pairs`). Row sums bound
//! this in turn by a sum over the members (`laws::row_sums`; Gallo, Hammer and Simeone, Quadratic knapsack problems,
//! 1980). A candidate leaves if every completion with it falls short.
ghost use Rattle.std.specs.Prelude.{◌≡◌, ℕ, ◌+◌, ◌-◌, ◌*◌, ◌^◌, ◌<◌, ◌≤◌, ◌==◌, true, List, length, max, min, slice_index, if◌then◌else◌};
ghost use Rattle.ballot_base.specs.CandSet.{has_member};
ghost use Rattle.ballot_base.specs.Ballots.{voter_count};
ghost use Rattle.ballot_base.specs.Limits.{most_candidates, most_voters, worth_limit};
ghost use Rattle.ballot_base.specs.Lists.{IsIncreasing};
ghost use Rattle.row_multipliers.specs.Completions.{IsNode};
ghost use Rattle.thiele_bounds.specs.Steps.Paired.{AreNothing, IsSmallMajorant, most_sum, overlap_at, pair_place, triangle};
ghost use Rattle.thiele_bounds.specs.Steps.Rows.{AreBeside, AreRows, IsSum};
ghost use Rattle.thiele_bounds.specs.Steps.Totals.{AreSmall, BoundNode, NarrowsUnder};
ghost use Rattle.thiele_bounds.specs.Steps.Units.{most_given, most_overlap};

use crate::majorant::{HitSums, Majorant, Majorants};
use ballot_base::{CandSet, MOST_CANDIDATES, Profile, Worths};
use row_multipliers::Node;
use std::alloc::Allocator;

/// The number of places in a table of pairs: 65 * 66 / 2.
pub(crate) const TABLE_PLACES: usize = 2145;

/// A number for each unordered pair of candidates, also of a candidate with itself. The row of a candidate has its
/// pairs with the candidates up to it, and comes after the rows of all candidates before it.
pub(crate) type Table = [u64; TABLE_PLACES];

/// The majorants of all voters, added up.
#[derive(Drop)]
pub(crate) struct Totals {
    pub(crate) constant: u128,
    // For each free candidate, the worths of all voters who approve it.
    pub(crate) worths: Worths,
    // For each pair of free candidates, the overlaps of all voters who approve both.
    pub(crate) overlaps: Table,
}

/// What a search looks for by pairs: the ballots, what hits give, and the value that a committee has to reach.
#[derive(Drop)]
pub struct PairSearch<'a, A: Allocator + Copy> {
    pub profile: &'a Profile<A>,
    pub given: &'a HitSums,
    pub least: u128,
    ghost size: { profile.now.m ≤ most_candidates },
    ghost fits: { voter_count profile.now.rows * most_sum given.now.sums ≤ most_overlap },
}

impl<A: Allocator + Copy> PairSearch<'_, A> {
    /// The free candidates of a node that can still join, by majorants. Returns `None` only if no completion
    /// of its set reaches the value. Counts are not kept for later nodes: when they were, long lists of ties took a
    /// quarter more instructions.
    pub fn narrowed(&self, node: &Node) -> Option<CandSet>
        requires is_node { IsNode self.now.profile.now.m node.now.set node.now.free }
        requires several { 2 ≤ node.now.left }
        ensures { NarrowsUnder self.now.given.now self.now.profile.now node.now self.now.least result }
    {
        if node.free.len() < node.left {
            return None;
        }
        let mut totals = Totals {
            constant: 0,
            worths: Worths::none(),
            overlaps: [0; TABLE_PLACES],
        };
        self.add_ballots(&mut totals, node);
        let (free, left) = (node.free, node.left);
        let factor = 2 * u128::from(left - 1);
        let raise = factor * u128::from(totals.greatest_overlap());
        let rows = Rows {
            totals: &totals,
            free,
            left,
            raise,
        };
        let due = self
            .given
            .units(self.least)
            .saturating_mul(factor)
            .saturating_add(u128::from(left) * u128::from(left) * raise);
        rows.sums()
            .members_for(free, left, due.saturating_sub(factor * totals.constant))
    }

    fn add_ballots(&self, totals: &mut Totals, node: &Node)
        requires is_node { IsNode self.now.profile.now.m node.now.set node.now.free }
        requires some { 1 ≤ length node.now.free }
        requires nothing { AreNothing totals.old.constant totals.old.worths totals.old.overlaps }
        ensures totals { BoundNode self.now.given.now self.now.profile.now node.now totals.new.constant
            totals.new.worths totals.new.overlaps }
        ensures small { AreSmall totals.new }
    {
        let mut majorants = Majorants::new(&self.given.sums, node.left, node.free.len());
        for (ballot, voters) in self.profile.ballots() {
            let approved = ballot.common(node.free);
            let before = ballot.common(node.set).len();
            let majorant = majorants.of_ballot(before, approved.len());
            totals.add(majorant, approved, voters);
        }
    }
}

impl Totals {
    /// Adds the majorant of a ballot that approves these free candidates, once for each of its voters.
    pub(crate) fn add(&mut self, majorant: Majorant, approved: CandSet, voters: u64)
        requires voters { voters ≤ most_voters }
        requires majorant { IsSmallMajorant most_given majorant }
        requires overlap { voters * majorant.overlap ≤ most_overlap }
        requires small { AreSmall self.old }
        ensures constant { self.new.constant ≡ self.old.constant + voters * majorant.constant }
        ensures worths { (n : ℕ) → slice_index self.new.worths n ≡ slice_index self.old.worths n
            + (if has_member approved n then voters * majorant.worth else 0) }
        ensures overlaps { (i j : ℕ) → j ≤ most_candidates → overlap_at self.new.overlaps i j
            ≡ overlap_at self.old.overlaps i j
            + (if has_member approved i then (if has_member approved j then voters * majorant.overlap else 0) else 0) }
    {
        self.add_worths(majorant, approved, voters);
        if majorant.overlap > 0 {
            add_pairs(&mut self.overlaps, approved, voters * majorant.overlap);
        }
    }

    /// Like `add`, except for the overlap.
    pub(crate) fn add_worths(&mut self, majorant: Majorant, approved: CandSet, voters: u64)
        requires voters { voters ≤ most_voters }
        requires majorant { IsSmallMajorant most_given majorant }
        requires small { AreSmall self.old }
        ensures constant { self.new.constant ≡ self.old.constant + voters * majorant.constant }
        ensures worths { (n : ℕ) → slice_index self.new.worths n ≡ slice_index self.old.worths n
            + (if has_member approved n then voters * majorant.worth else 0) }
        ensures overlaps { self.new.overlaps ≡ self.old.overlaps }
    {
        let count = u128::from(voters);
        self.constant += count * u128::from(majorant.constant);
        self.worths
            .add(approved, count * u128::from(majorant.worth));
    }

    /// The highest overlap of two candidates. It is that of some candidate with itself.
    pub(crate) fn greatest_overlap(&self) -> u64
        requires small { AreSmall self.now }
        ensures most { (i j : ℕ) → i ≤ most_candidates → j ≤ most_candidates
            → overlap_at self.now.overlaps i j ≤ result }
        ensures small { result ≤ 2 ^ 58 }
    {
        let mut greatest = 0;
        for candidate in 0..MOST_CANDIDATES + 1 {
            greatest = self.overlaps[place(candidate, candidate)].max(greatest);
        }
        greatest
    }
}

/// The parts of row sums. Worths beside a candidate are raised, so that none is below 0.
#[derive(Drop)]
struct Rows<'a> {
    totals: &'a Totals,
    free: CandSet,
    // The number of free candidates that complete the set.
    left: u8,
    raise: u128,
}

impl Rows<'_> {
    fn sums(&self) -> Worths
        requires { AreRows self.now }
        ensures { (i : ℕ) → has_member self.now.free i ≡ true → IsSum self.now i (slice_index result i) }
    {
        let mut sums = Worths::none();
        let mut beside = Worths::none();
        for i in self.free.members() {
            self.put_beside(i, &mut beside);
            sums.set(i, self.sum_of(i, &beside));
        }
        sums
    }

    /// The row sum of the candidate `i`, by the worths beside it.
    fn sum_of(&self, i: u8, beside: &Worths) -> u128
        requires rows { AreRows self.now }
        requires candidates { IsIncreasing 1 most_candidates self.now.free }
        requires member { has_member self.now.free i ≡ true }
        requires beside { AreBeside self.now i beside.now }
        ensures sum { IsSum self.now i result }
        ensures small { result < worth_limit }
    {
        let others = self.free.without(i);
        let threshold = beside.nth_greatest(others, self.left - 1);
        u128::from(self.left - 2) * self.totals.worths.of(i)
            + beside.of(i)
            + u128::from(self.left - 1) * threshold
            + beside.excess(others, threshold)
    }

    /// Puts the worth of each free candidate beside the candidate `i`. Other worths stay.
    fn put_beside(&self, i: u8, beside: &mut Worths)
        requires rows { AreRows self.now }
        requires within { i ≤ most_candidates }
        requires small { (j : ℕ) → slice_index beside.old j ≤ 2 ^ 68 }
        ensures { AreBeside self.now i beside.new }
    {
        let factor = 2 * u128::from(self.left - 1);
        for j in self.free.members() {
            let overlap = u128::from(self.totals.overlaps[place(i, j)]);
            beside.set(j, self.totals.worths.of(j) + self.raise - factor * overlap);
        }
    }
}

pub(crate) fn row_start(candidate: u8) -> usize
    ensures { result ≡ triangle candidate }
{
    let candidate = usize::from(candidate);
    candidate * (candidate + 1) / 2
}

pub(crate) fn place(i: u8, j: u8) -> usize
    ensures { result ≡ pair_place i j }
{
    row_start(i.max(j)) + usize::from(i.min(j))
}

pub(crate) fn add_pairs(table: &mut Table, members: CandSet, amount: u64)
    requires fits { (i j : ℕ) → j ≤ most_candidates → overlap_at table.old i j + amount < 2 ^ 64 }
    ensures { (i j : ℕ) → j ≤ most_candidates → overlap_at table.new i j ≡ overlap_at table.old i j
        + (if has_member members i then (if has_member members j then amount else 0) else 0) }
{
    for row in members.members() {
        add_to_pairs(table, row, members.upto(row), amount);
    }
}

/// Adds this amount for a candidate with each of the columns.
pub(crate) fn add_to_pairs(table: &mut Table, row: u8, columns: CandSet, amount: u64)
    requires within { row ≤ most_candidates }
    requires columns { (n : ℕ) → has_member columns n ≡ true → n ≤ row }
    requires fits { (j : ℕ) → j ≤ row → overlap_at table.old row j + amount < 2 ^ 64 }
    ensures { (i j : ℕ) → overlap_at table.new i j ≡ overlap_at table.old i j
        + (if max i j == row then (if has_member columns (min i j) then amount else 0) else 0) }
{
    let start = row_start(row);
    for column in columns.members() {
        table[start + usize::from(column)] += amount;
    }
}
