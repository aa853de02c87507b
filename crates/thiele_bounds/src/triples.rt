//! A bound that sees which candidates share voters, three at a time.
//!
//! Cubic majorants are summed over the ballots. No completion of a set is worth more than what all voters keep, the
//! worths of the added members and the triples of all three of them, less the overlaps of all pairs of them
//! (`laws::triples`). Row sums, one level deeper than those of `pairs`, bound this in turn by a sum over the members
//! (`laws::triple_sums`). With many voters the bound is far lower than that of `pairs`, whose quadratic functions lose
//! more for each voter. It takes much longer.
ghost use Rattle.std.specs.Prelude.{◌≡◌, ℕ, ◌+◌, ◌-◌, ◌*◌, ◌/◌, ◌^◌, ◌<◌, ◌≤◌, true, List, length, min, slice_index, if◌then◌else◌};
ghost use Rattle.ballot_base.specs.CandSet.{has_member};
ghost use Rattle.ballot_base.specs.Ballots.{IsElection, hits, voter_count};
ghost use Rattle.ballot_base.specs.Limits.{most_candidates, worth_limit};
ghost use Rattle.ballot_base.specs.Lists.{IsIncreasing};
ghost use Rattle.row_multipliers.specs.Completions.{IsNode};
ghost use Rattle.thiele_bounds.specs.Triples.{threshold_sum};
ghost use Rattle.thiele_bounds.specs.Steps.Paired.{AreNothing, AreSmallSums, most_sum, overlap_at};
ghost use Rattle.thiele_bounds.specs.Steps.Cubics.{AreKept, Cubed, IsCubicOf, IsSmallCubic, bend_at, contact, fall_at, highest, increment_at, lack, overlap_of, touch_of, triple_at, worth_at};
ghost use Rattle.thiele_bounds.specs.Steps.Threes.{AreBends, AreCubics, ArePlaces, AreShared, AreThrees, AreTriples, AreTwos, CanShare, IsPart, IsSumOfOne, IsSumOfTwo, most_rough, three_of, three_rough, worth_by};
ghost use Rattle.thiele_bounds.specs.Steps.Places.{HasRoom};
ghost use Rattle.thiele_bounds.specs.Steps.Totals.{AreSmall, NarrowsUnder};
ghost use Rattle.thiele_bounds.specs.Steps.Units.{most_overlap};

use crate::majorant::{HitSums, Majorant, PLACES_BEFORE, PLACES_OPEN};
use crate::pairs::{TABLE_PLACES, Table, Totals, place, row_start};
use crate::rough::Rough;
use crate::triple_table::{Amounts, TripleMemory, add_threes, plane_start};
use ballot_base::{CandSet, MOST_CANDIDATES, PLACES, Profile, Worths};
use row_multipliers::Node;
use std::alloc::Allocator;
use std::marker::Model;

/// The number of units of worths of three in a unit of the rounded ones. So these fit into words.
const ROUGHLY: u128 = 1 << 30;

/// What a search looks for by triples: the ballots, what hits give, and the value that a committee has to reach.
#[derive(Drop)]
pub struct TripleSearch<'a, A: Allocator + Copy> {
    pub profile: &'a Profile<A>,
    pub given: &'a HitSums,
    pub least: u128,
    /// By how many eighths of a hit cubics are exact sooner than at nine eighths of the mean number of hits.
    pub shift: u8,
    /// Memory for the triples of the profile's candidates. If there is none, all free candidates stay.
    pub memory: &'a TripleMemory<A>,
    ghost size: { profile.now.m ≤ most_candidates },
    ghost fits: { voter_count profile.now.rows * most_sum given.now.sums ≤ most_overlap },
}

impl<A: Allocator + Copy> TripleSearch<'_, A> {
    /// The free candidates of a node that can still join. Returns `None` only if no completion of its set reaches the
    /// value.
    pub fn narrowed(&self, node: &Node) -> Option<CandSet>
        requires is_node { IsNode self.now.profile.now.m node.now.set node.now.free }
        requires several { 3 ≤ node.now.left }
        ensures { NarrowsUnder self.now.given.now self.now.profile.now node.now self.now.least result }
    {
        if node.free.len() < node.left {
            return None;
        }
        let Some(mut table) = self.memory.table(self.profile.m()) else {
            return Some(node.free);
        };
        let members = self.members_by(&mut table, node);
        self.memory.keep(table);
        members
    }

    /// Like `narrowed`, with a table of triples in which every word is 0.
    fn members_by(&self, triples: &mut [u64], node: &Node) -> Option<CandSet>
        requires is_node { IsNode self.now.profile.now.m node.now.set node.now.free }
        requires several { 3 ≤ node.now.left }
        requires some { 1 ≤ length node.now.free }
        requires room { HasRoom node.now.free triples.old }
        requires nothing { (n : ℕ) → slice_index triples.old n ≡ 0 }
        ensures { NarrowsUnder self.now.given.now self.now.profile.now node.now self.now.least result }
    {
        let mut totals = Totals {
            constant: 0,
            worths: Worths::none(),
            overlaps: [0; TABLE_PLACES],
        };
        self.add_ballots(&mut totals, triples, node);
        let others = u128::from(node.left - 1);
        let factor = 3 * others * u128::from(node.left - 2);
        let most = totals.greatest_overlap();
        let raise = 3 * others * u128::from(most);
        let due = self
            .given
            .units(self.least)
            .saturating_mul(factor)
            .saturating_add(u128::from(node.left) * others * u128::from(node.left - 2) * raise);
        share_pairs(&mut totals.overlaps, &totals.worths, node, most);
        let threes = Threes {
            node,
            pairs: &totals.overlaps,
            triples,
        };
        threes.sums().members_for(
            node.free,
            node.left,
            due.saturating_sub(factor * totals.constant),
        )
    }

    /// Adds up the cubics of all voters.
    fn add_ballots(&self, totals: &mut Totals, triples: &mut [u64], node: &Node)
        requires is_node { IsNode self.now.profile.now.m node.now.set node.now.free }
        requires some { 1 ≤ length node.now.free }
        requires room { HasRoom node.now.free triples.old }
        requires nothing { AreNothing totals.old.constant totals.old.worths totals.old.overlaps }
        requires no_triples { (n : ℕ) → slice_index triples.old n ≡ 0 }
        ensures cubics { AreCubics self.now.given.now.sums self.now.shift self.now.profile.now.rows node.now
            totals.new.constant totals.new.worths totals.new.overlaps }
        ensures small { AreSmall totals.new }
        ensures kept { length triples.new ≡ length triples.old }
        ensures triples { AreTriples self.now.given.now.sums self.now.shift self.now.profile.now.rows node.now
            triples.new }
        ensures valid { IsElection self.now.profile.now }
    {
        let mut cubics = Cubics::new(&self.given.sums, node, self.shift);
        let bends = Bends {
            touches: touches_at(node, self.shift),
            triples: triples_of(&self.given.sums),
        };
        for (ballot, voters) in self.profile.ballots() {
            let approved = ballot.common(node.free);
            let before = ballot.common(node.set).len();
            let majorant = cubics.of_ballot(before, approved.len());
            let triple = self.triple_with(node, ballot, &bends);
            totals.add_worths(majorant, approved, voters);
            let amounts = Amounts {
                two: voters * majorant.overlap,
                three: voters * triple,
            };
            add_threes(&mut totals.overlaps, triples, approved, amounts);
        }
    }

    /// The triple of the cubic of a ballot.
    fn triple_with(&self, node: &Node, ballot: CandSet, bends: &Bends) -> u64
        requires { AreBends self.now.given.now.sums self.now.shift node.now bends.now }
        ensures value { result ≡ triple_at self.now.given.now.sums (hits ballot node.now.set)
            (touch_of self.now.shift node.now.left (length node.now.free) (hits ballot node.now.free)) }
        ensures small { result ≤ most_sum self.now.given.now.sums }
    {
        let before = ballot.common(node.set).len();
        let approved = ballot.common(node.free).len();
        let touch = bends.touches[usize::from(approved)];
        bends.triples[contact_at(before, touch)]
    }
}

/// What is needed for the triples of all ballots at a node, so that it is not computed again for each.
#[derive(Drop)]
struct Bends {
    // By the number of free candidates that a ballot approves, where its cubic is exact first.
    touches: [u8; PLACES],
    // By the number of hits at which a cubic is exact first, its triple.
    triples: [u64; PLACES],
}

/// For each two free candidates, puts their part of the worths of three in the place of their overlap: half of the
/// worth of each, and by how much their overlap is below the greatest, once for each of the others that join. It is
/// rounded up.
fn share_pairs(pairs: &mut Table, worths: &Worths, node: &Node, most: u64)
    requires { CanShare worths.now pairs.old node.now.free node.now.left most }
    ensures { AreShared worths.now pairs.old node.now.free node.now.left most pairs.new }
{
    for i in node.free.members() {
        share_row(pairs, worths, node, i, most);
    }
}

/// Like `share_pairs`, for a candidate and each free one before it.
fn share_row(pairs: &mut Table, worths: &Worths, node: &Node, i: u8, most: u64)
    requires can { CanShare worths.now pairs.old node.now.free node.now.left most }
    requires member { has_member node.now.free i ≡ true }
    ensures made { (j : ℕ) → has_member node.now.free j ≡ true → j < i
        → IsPart worths.now pairs.old node.now.left most i j (overlap_at pairs.new i j) }
    ensures others { (a b : ℕ) → b < a → (a ≡ i → ⊥) → overlap_at pairs.new a b ≡ overlap_at pairs.old a b }
{
    let others = u128::from(node.left - 1);
    for j in node.free.upto(i - 1).members() {
        let at = place(i, j);
        let spare = 2 * others * u128::from(most.saturating_sub(pairs[at]));
        let part = worths.of(i) + worths.of(j) + spare;
        pairs[at] = (part / (2 * ROUGHLY)) as u64 + 1;
    }
}

/// What rounded worths of three are made of.
#[derive(Drop)]
struct Threes<'a> {
    node: &'a Node,
    // The part of each two free candidates.
    pairs: &'a Table,
    triples: &'a [u64],
}

impl Threes<'_> {
    /// For each free candidate, the row sum of the row sums of the pairs with it.
    fn sums(&self) -> Worths
        requires { AreThrees self.now }
        ensures { (i : ℕ) → has_member self.now.node.now.free i ≡ true → IsSumOfOne (three_of self.now)
            self.now.node.now.free self.now.node.now.left i (slice_index result i) }
    {
        let mut twos = [0; TABLE_PLACES];
        self.fill(&mut twos);
        let mut sums = Worths::none();
        for i in self.node.free.members() {
            sums.set(i, self.sum_of_one(&twos, i));
        }
        sums
    }

    /// A bound on the sums of two that the candidate and others make.
    fn sum_of_one(&self, twos: &Table, i: u8) -> u128
        requires threes { AreThrees self.now }
        requires twos { AreTwos self.now twos.now }
        requires member { has_member self.now.node.now.free i ≡ true }
        ensures sum { IsSumOfOne (three_of self.now) self.now.node.now.free self.now.node.now.left i result }
        ensures small { result < worth_limit }
    {
        let others = self.node.free.without(i);
        let mut sums = Worths::none();
        for j in others.members() {
            sums.set(j, ROUGHLY * u128::from(twos[place(i, j)]));
        }
        bound_of(&sums, others, self.node.left - 1)
    }

    /// Makes the sums of all two free candidates. The sum of two is the same in either order.
    fn fill(&self, twos: &mut Table)
        requires { AreThrees self.now }
        ensures { AreTwos self.now twos.new }
    {
        let mut worths = Rough::none();
        for i in self.node.free.members() {
            self.fill_row(twos, i, &mut worths);
        }
    }

    /// Makes the sums of a candidate and each free one before it. `worths` are used for the worths of three.
    fn fill_row(&self, twos: &mut Table, i: u8, worths: &mut Rough)
        requires threes { AreThrees self.now }
        requires member { has_member self.now.node.now.free i ≡ true }
        ensures made { (j : ℕ) → has_member self.now.node.now.free j ≡ true → j < i
            → IsSumOfTwo self.now i j (overlap_at twos.new i j) }
        ensures others { (a b : ℕ) → b < a → (a ≡ i → ⊥) → overlap_at twos.new a b ≡ overlap_at twos.old a b }
    {
        for j in self.node.free.upto(i - 1).members() {
            twos[place(i, j)] = self.sum_of_two(i, j, worths);
        }
    }

    /// A bound on the worths of three that a candidate, one before it and others make, rounded up.
    fn sum_of_two(&self, i: u8, j: u8, worths: &mut Rough) -> u64
        requires threes { AreThrees self.now }
        requires first { has_member self.now.node.now.free i ≡ true }
        requires second { has_member self.now.node.now.free j ≡ true }
        requires order { j < i }
        ensures { IsSumOfTwo self.now i j result }
    {
        worths.set(i, 0);
        worths.set(j, 0);
        self.set_below(i, j, worths);
        self.set_between(i, j, worths);
        self.set_above(i, j, worths);
        let others = self.node.free.without(i).without(j);
        worths.bound(others, self.node.left - 2)
    }

    /// Sets the worth of three with these two, for each free candidate before both.
    fn set_below(&self, i: u8, j: u8, worths: &mut Rough)
        requires threes { AreThrees self.now }
        requires first { has_member self.now.node.now.free i ≡ true }
        requires second { has_member self.now.node.now.free j ≡ true }
        requires order { j < i }
        ensures made { (l : ℕ) → has_member self.now.node.now.free l ≡ true → l < j
            → slice_index worths.new l ≡ three_rough self.now i j l }
        ensures kept { (l : ℕ) → j ≤ l → slice_index worths.new l ≡ slice_index worths.old l }
    {
        let (first, second) = (row_start(i), row_start(j));
        let pair = first + usize::from(j);
        let start = plane_start(i) + second;
        for l in self.node.free.upto(j - 1).members() {
            let at = usize::from(l);
            worths.set(l, self.worth(pair, first + at, second + at, start + at));
        }
    }

    /// Sets the worth of three with these two, for each free candidate between them.
    fn set_between(&self, i: u8, j: u8, worths: &mut Rough)
        requires threes { AreThrees self.now }
        requires first { has_member self.now.node.now.free i ≡ true }
        requires second { has_member self.now.node.now.free j ≡ true }
        requires order { j < i }
        ensures made { (l : ℕ) → has_member self.now.node.now.free l ≡ true → j < l → l < i
            → slice_index worths.new l ≡ three_rough self.now i j l }
        ensures kept { (l : ℕ) → (j < l → l < i → ⊥) → slice_index worths.new l ≡ slice_index worths.old l }
    {
        let (first, plane) = (row_start(i), plane_start(i));
        let pair = first + usize::from(j);
        let between = self.node.free.minus(self.node.free.upto(j)).upto(i - 1);
        for l in between.members() {
            let at = row_start(l) + usize::from(j);
            worths.set(l, self.worth(pair, first + usize::from(l), at, plane + at));
        }
    }

    /// Sets the worth of three with these two, for each free candidate after both.
    fn set_above(&self, i: u8, j: u8, worths: &mut Rough)
        requires threes { AreThrees self.now }
        requires first { has_member self.now.node.now.free i ≡ true }
        requires second { has_member self.now.node.now.free j ≡ true }
        requires order { j < i }
        ensures made { (l : ℕ) → has_member self.now.node.now.free l ≡ true → i < l
            → slice_index worths.new l ≡ three_rough self.now i j l }
        ensures kept { (l : ℕ) → l ≤ i → slice_index worths.new l ≡ slice_index worths.old l }
    {
        let pair = row_start(i) + usize::from(j);
        for l in self.node.free.minus(self.node.free.upto(i)).members() {
            let row = row_start(l);
            let (second, third) = (row + usize::from(i), row + usize::from(j));
            worths.set(l, self.worth(pair, second, third, plane_start(l) + pair));
        }
    }

    /// A worth of three, by the places of its three pairs and of its triple.
    fn worth(&self, first: usize, second: usize, third: usize, triple: usize) -> u64
        requires threes { AreThrees self.now }
        requires places { ArePlaces self.now first second third triple }
        ensures value { result ≡ worth_by self.now first second third triple }
        ensures small { result ≤ most_rough }
    {
        let others = u64::from(self.node.left - 1);
        let factor = 3 * others * u64::from(self.node.left - 2);
        let bends = u128::from(factor) * u128::from(self.triples[triple]);
        let pairs = self.pairs[first] + self.pairs[second] + self.pairs[third];
        pairs + (bends / ROUGHLY) as u64 + 1
    }
}

/// A bound on the sum of the worths of `count` of the candidates.
fn bound_of(worths: &Worths, candidates: CandSet, count: u8) -> u128
    requires candidates { IsIncreasing 1 most_candidates candidates }
    requires fits { (n : ℕ) → slice_index worths.now n ≤ 2 ^ 100 }
    ensures sum { (threshold : ℕ) × (result ≡ threshold_sum (slice_index worths.now) candidates count threshold) }
    ensures small { (most : ℕ) → ((n : ℕ) → slice_index worths.now n ≤ most) → result ≤ 2 ^ 9 * most }
{
    let threshold = worths.nth_greatest(candidates, count);
    u128::from(count) * threshold + worths.excess(candidates, threshold)
}

/// What a voter gives for h further hits is bounded by a constant and `worth * h - overlap * h * (h - 1)
/// + triple * h * (h - 1) * (h - 2)`.
#[derive(Clone, Copy)]
struct Cubic {
    worth: u64,
    overlap: u64,
    triple: u64,
}

impl Cubic {
    /// The cubic that is exact at `touch` further hits after the first `before`, and at one, two and three more.
    fn of(sums: &[u64; PLACES], before: u8, touch: u8) -> Cubic
        requires small { AreSmallSums sums.now }
        requires touch { touch ≤ 61 }
        ensures worth { result.worth ≡ worth_at sums.now before touch }
        ensures overlap { result.overlap ≡ overlap_of sums.now before touch }
        ensures triple { result.triple ≡ triple_at sums.now before touch }
        ensures small { IsSmallCubic (most_sum sums.now) result.worth result.overlap result.triple }
    {
        let most = sums[PLACES - 1];
        let at = contact_at(before, touch);
        let (fall, bend) = (fall_of(sums, at), bend_of(sums, at));
        let touch = u64::from(touch);
        let worth = increment_of(sums, at) + touch * fall + touch * (touch + 1) / 2 * bend;
        let overlap = (fall + touch * bend) / 2;
        Cubic {
            worth: worth.min(most),
            overlap: overlap.min(most),
            triple: bend / 6,
        }
    }

    /// The lowest constant with which the cubic is a majorant for up to `most` hits after the first `before`.
    fn constant(&self, sums: &[u64; PLACES], before: u8, most: u8) -> u64
        requires small { AreSmallSums sums.now }
        requires fits { before + most ≤ most_candidates }
        requires cubic { IsSmallCubic (most_sum sums.now) self.now.worth self.now.overlap self.now.triple }
        ensures value { result ≡ highest (lack sums.now before self.now.worth self.now.overlap self.now.triple)
            (most + 1) }
        ensures small { result ≤ most_sum sums.now * 2 ^ 13 }
    {
        let first = usize::from(before);
        let mut constant = 0;
        for hits in 0..usize::from(most) + 1 {
            let h = hits as u64;
            let pairs = h * h.saturating_sub(1);
            let triples = h * (h.saturating_sub(1) * h.saturating_sub(2));
            let given = sums[first + hits] + self.overlap * pairs;
            constant = given
                .saturating_sub(self.worth * h + self.triple * triples)
                .max(constant);
        }
        constant
    }
}

/// The number of places in a table of cubics.
const CUBIC_PLACES: usize = 128;

/// The cubics of ballots at a node, without their triples. Each is computed when it is first asked for, and kept.
/// Contracts see for what they are made.
#[derive(Drop)]
struct Cubics<'a> {
    sums: &'a [u64; PLACES],
    node: &'a Node,
    shift: u8,
    table: [Option<Majorant>; CUBIC_PLACES],
}

impl<'a> Model for Cubics<'a> {
    ghost Value = { Cubed };

    ghost view = { λ t. record {
      sums = t.sums.now;
      shift = t.shift;
      left = t.node.now.left;
      free = length t.node.now.free;
    } };

    ghost invariant = { λ t. (1 ≤ length t.node.now.free) × AreSmallSums t.sums.now × AreKept (record {
      sums = t.sums.now;
      shift = t.shift;
      left = t.node.now.left;
      free = length t.node.now.free;
    }) t.table };
}

impl<'a> Cubics<'a> {
    fn new(sums: &'a [u64; PLACES], node: &'a Node, shift: u8) -> Cubics<'a>
        requires some { 1 ≤ length node.now.free }
        requires small { AreSmallSums sums.now }
        ensures { result ≡ record {
          sums = sums.now;
          shift = shift;
          left = node.now.left;
          free = length node.now.free;
        } }
    {
        Cubics {
            sums,
            node,
            shift,
            table: [None; CUBIC_PLACES],
        }
    }

    /// The cubic of a ballot that has `before` hits and approves `approved` free candidates.
    fn of_ballot(&mut self, before: u8, approved: u8) -> Majorant
        requires { before + approved ≤ most_candidates }
        ensures cubic { IsCubicOf self.old before approved result }
        ensures same { self.new ≡ self.old }
    {
        let (row, column) = (usize::from(before), usize::from(approved));
        if row >= PLACES_BEFORE || column >= PLACES_OPEN {
            return self.made(before, approved);
        }
        let place = PLACES_OPEN * row + column;
        if let Some(cubic) = self.table[place] {
            return cubic;
        }
        let cubic = self.made(before, approved);
        self.table[place] = Some(cubic);
        cubic
    }

    fn made(&self, before: u8, approved: u8) -> Majorant
        requires { before + approved ≤ most_candidates }
        ensures { IsCubicOf self.now before approved result }
    {
        let touch = touch_at(self.node, approved, self.shift);
        let cubic = Cubic::of(self.sums, before, touch);
        let most = self.node.left.min(approved);
        Majorant {
            constant: cubic.constant(self.sums, before, most),
            worth: cubic.worth,
            overlap: cubic.overlap,
        }
    }
}

/// The triple of a cubic, by the number of hits at which it is exact first.
fn triples_of(sums: &[u64; PLACES]) -> [u64; PLACES]
    ensures { (n : ℕ) → n ≤ 61 → slice_index result n ≡ bend_at sums.now n / 6 }
{
    let mut triples = [0; PLACES];
    for n in 0..PLACES - 3 {
        triples[n] = bend_of(sums, n) / 6;
    }
    triples
}

/// `touch_at`, by the number of free candidates that a ballot approves.
fn touches_at(node: &Node, shift: u8) -> [u8; PLACES]
    requires { 1 ≤ length node.now.free }
    ensures { (n : ℕ) → n ≤ most_candidates
        → slice_index result n ≡ touch_of shift node.now.left (length node.now.free) n }
{
    let mut touches = [0; PLACES];
    for approved in 0..MOST_CANDIDATES + 1 {
        touches[usize::from(approved)] = touch_at(node, approved, shift);
    }
    touches
}

/// The number of further hits at which the cubic of a ballot with `approved` free candidates is exact first. This
/// is nine eighths of the mean number of hits if the free candidates that join are drawn at random, since good
/// committees have more hits, less `shift` eighths.
fn touch_at(node: &Node, approved: u8, shift: u8) -> u8
    requires some { 1 ≤ length node.now.free }
    requires few { approved ≤ most_candidates }
    ensures value { result ≡ touch_of shift node.now.left (length node.now.free) approved }
    ensures small { result ≤ 61 }
{
    let most = node.left.min(approved).max(3);
    let free = u32::from(node.free.len());
    let above = (9 * u32::from(node.left) * u32::from(approved)).saturating_sub(
        u32::from(shift) * free,
    );
    (above / (8 * free)).min(u32::from(most) - 3) as u8
}

/// The number of hits at which a cubic is exact first, as far as that can be.
fn contact_at(before: u8, touch: u8) -> usize
    ensures { result ≡ contact before touch }
{
    (usize::from(before) + usize::from(touch)).min(PLACES - 4)
}

/// What the hit after the first `hits` adds.
fn increment_of(sums: &[u64; PLACES], hits: usize) -> u64
    requires { hits ≤ 63 }
    ensures { result ≡ increment_at sums.now hits }
{
    sums[hits + 1].saturating_sub(sums[hits])
}

/// How much less the next hit adds.
fn fall_of(sums: &[u64; PLACES], hits: usize) -> u64
    requires { hits ≤ 62 }
    ensures { result ≡ fall_at sums.now hits }
{
    increment_of(sums, hits).saturating_sub(increment_of(sums, hits + 1))
}

/// How much less the next hit falls by.
fn bend_of(sums: &[u64; PLACES], hits: usize) -> u64
    requires { hits ≤ 61 }
    ensures { result ≡ bend_at sums.now hits }
{
    fall_of(sums, hits).saturating_sub(fall_of(sums, hits + 1))
}
