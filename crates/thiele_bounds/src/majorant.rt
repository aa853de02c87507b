//! Concave quadratic majorants of what a voter gives.
//!
//! For h hits after the first ones, a voter gives at most `constant + worth * h - overlap * h * h`. Since h * h is the
//! number of ordered pairs of members that the voter approves, majorants see where members overlap. Any `worth` and
//! `overlap` work, as `constant` is made as high as it must be.
ghost use Rattle.std.specs.Prelude.{◌≡◌, ℕ, ◌+◌, ◌*◌, ◌^◌, ◌≤◌, min, slice_index, MatchOption, ⊤};
ghost use Rattle.ballot_base.specs.Limits.{most_candidates, most_members, most_voters};
ghost use Rattle.ballot_base.specs.Increments.{increments};
ghost use Rattle.thiele_bounds.specs.Steps.Paired.{AreSmallSums, AreSums, IsMajorantOf, most_sum};
ghost use Rattle.thiele_bounds.specs.Steps.Units.{most_given, most_overlap, most_units};
ghost use Rattle.thiele_bounds.specs.Steps.Majorants.{AreMajorants, Majorized};

use ballot_base::{Increments, PLACES, ThieleRule};
use row_multipliers::multipliers::Wanted;
use std::marker::Model;

/// The maximum units of the overlaps of all voters together, if the first hit gives a 64th of it or less.
const MOST_FIRST_UNITS: u128 = 1 << 52;

/// With fewer voters, units are as with this number.
const FEW_VOTERS: u64 = 1 << 12;

/// The number of units that the first hit gives in sums for majorants, as many as fit: 2^40 for up to 4,096 voters, and
/// at least 2^20. If rounding matters, a bound that only just excludes a value does not exclude it. With 2^20, complete
/// graphs of 40 candidates did not end.
fn pair_units(voters: u64) -> u128
    requires most { voters ≤ most_voters }
    ensures some { 1 ≤ result }
    ensures most { result ≤ most_units }
    ensures fits { voters * (64 * result) ≤ most_overlap }
{
    MOST_FIRST_UNITS / u128::from(voters.max(FEW_VOTERS))
}

/// The maximum that all hits of a voter give together, in first hits.
const MOST_FIRST_HITS: u128 = 64;

/// What each number of hits gives in all: times the scale, in units. What each hit adds is rounded up, and no hit adds
/// more than the one before it.
#[derive(Drop)]
pub struct HitSums {
    pub scale: u128,
    pub unit: u128,
    pub sums: [u64; PLACES],
    ghost some: { 1 ≤ unit },
    ghost small: { (h : ℕ) → slice_index sums h ≤ most_given },
    ghost rises: { (h : ℕ) → h + 1 ≤ most_candidates → slice_index sums h ≤ slice_index sums (h + 1) },
    ghost concave: { (h : ℕ) → h + 2 ≤ most_candidates
        → slice_index sums (h + 2) + slice_index sums h ≤ 2 * slice_index sums (h + 1) },
}

impl HitSums {
    /// The sums for majorants under a rule, of an election with `voters` voters. Returns `None` only if a hit added
    /// more than the one before it, as under no rule.
    pub fn for_pairs(rule: ThieleRule, k: u8, voters: u64) -> Option<HitSums>
        requires some { 1 ≤ k }
        requires size { k ≤ most_members }
        requires voters { voters ≤ most_voters }
        ensures { MatchOption result ⊤ (λ given. AreSums (increments rule k) given.scale given.unit given.sums
            × (voters * most_sum given.sums ≤ most_overlap)) }
    {
        HitSums::of(rule, k, pair_units(voters))
    }

    /// The sums under a rule, with about `units` units for the first hit. Returns `None` if they would be too large, or
    /// if a hit added more than the one before it, as under no rule.
    pub fn of(rule: ThieleRule, k: u8, units: u128) -> Option<HitSums>
        requires some { 1 ≤ k }
        requires size { k ≤ most_members }
        requires units { 1 ≤ units }
        requires few { units ≤ most_units }
        ensures { MatchOption result ⊤ (λ given. AreSums (increments rule k) given.scale given.unit given.sums
            × ((h : ℕ) → slice_index given.sums h ≤ 64 * units)) }
    {
        let weights = Increments::of(rule, k).w;
        let scale = (units / weights[0].max(1)).max(1);
        let unit = weights[0].div_ceil(units).max(1);
        let mut sums = [0; PLACES];
        let mut given: u128 = 0;
        let mut last = u128::MAX;
        for hits in 0..PLACES - 1 {
            let increment = if hits < weights.len() {
                (weights[hits] * scale).div_ceil(unit)
            } else {
                0
            };
            given += increment;
            if increment > last || given > MOST_FIRST_HITS * units {
                return None;
            }
            sums[hits + 1] = given as u64;
            last = increment;
        }
        Some(HitSums { scale, unit, sums })
    }

    /// What the hit after the first `hits` gives. A hit past the last possible one gives nothing.
    pub(crate) fn increment(&self, hits: u8) -> u64
        ensures small { result ≤ most_given }
        ensures rise { hits + 1 ≤ most_candidates
            → slice_index self.now.sums (hits + 1) ≡ slice_index self.now.sums hits + result }
    {
        let before = usize::from(hits);
        if before + 1 < PLACES {
            self.sums[before + 1] - self.sums[before]
        } else {
            0
        }
    }

    /// The maximum that a voter gives for the first `before` hits and up to `most` further ones, less the multiplier
    /// for each further hit, and the numbers of further hits with which that is so. No hit gives more than the one
    /// before it, so the first that gives too little ends the count.
    pub(crate) fn constant(&self, before: u8, most: u8, multiplier: u64) -> (u64, Wanted)
        requires fits { before + most ≤ most_candidates }
        requires multiplier { multiplier ≤ most_given }
        ensures bounds { (h : ℕ) → h ≤ most
            → slice_index self.now.sums (before + h) ≤ result.0 + multiplier * h }
        ensures small { result.0 ≤ most_given }
    {
        if multiplier == 0 {
            return self.free_hits(before, most);
        }
        let mut fewest = 0;
        let mut hits = 0;
        while hits < most {
            let increment = self.increment(before + hits);
            if increment < multiplier {
                break;
            }
            hits += 1;
            if increment > multiplier {
                fewest = hits;
            }
        }
        let constant = self.sums[usize::from(before + hits)] - multiplier * u64::from(hits);
        (constant, Wanted { fewest, most: hits })
    }

    /// Like `constant`, if hits cost nothing.
    fn free_hits(&self, before: u8, most: u8) -> (u64, Wanted)
        requires fits { before + most ≤ most_candidates }
        ensures bounds { (h : ℕ) → h ≤ most → slice_index self.now.sums (before + h) ≤ result.0 }
        ensures small { result.0 ≤ most_given }
    {
        let mut fewest = 0;
        while fewest < most && self.increment(before + fewest) > 0 {
            fewest += 1;
        }
        (
            self.sums[usize::from(before + most)],
            Wanted { fewest, most },
        )
    }

    /// A value in units. Every value with fewer units is lower.
    pub(crate) fn units(&self, value: u128) -> u128
        ensures { (units : ℕ) → self.now.scale * value ≤ self.now.unit * units → result ≤ units }
    {
        value.saturating_mul(self.scale).div_ceil(self.unit)
    }
}

/// An upper bound on what a voter gives for h further hits: `constant + worth * h - overlap * h * h`.
#[derive(Clone, Copy)]
pub(crate) struct Majorant {
    pub(crate) constant: u64,
    pub(crate) worth: u64,
    pub(crate) overlap: u64,
}

impl Majorant {
    /// A majorant for up to `most` hits after the first `before`. It is exact at `touch` further hits and at one more,
    /// as far as that can be.
    pub(crate) fn at(sums: &[u64; PLACES], before: u8, most: u8, touch: u8) -> Majorant
        requires small { AreSmallSums sums.now }
        requires fits { before + most ≤ most_candidates }
        requires touch { touch ≤ most }
        ensures { IsMajorantOf sums.now before most result }
    {
        let first = usize::from(before);
        let at = first + usize::from(touch);
        let step = if touch < most {
            sums[at + 1].saturating_sub(sums[at])
        } else {
            0
        };
        let rise = sums[first + usize::from(most)].saturating_sub(sums[at]);
        // How much an increment falls by, in half a step, if the first is `step` and all of the run rise by `rise`.
        let run = u64::from(most - touch);
        let fall = (step * run).saturating_sub(rise) / (run * run.saturating_sub(1)).max(1);
        let overlap = fall.min(step);
        let worth = step + overlap * (2 * u64::from(touch) + 1);
        let mut constant = 0;
        for hits in 0..usize::from(most) + 1 {
            let given = sums[first + hits] + overlap * (hits * hits) as u64;
            constant = given.saturating_sub(worth * hits as u64).max(constant);
        }
        Majorant {
            constant,
            worth,
            overlap,
        }
    }
}

/// A table of majorants has places for fewer hits before than this.
pub(crate) const PLACES_BEFORE: usize = 8;

/// A table of majorants has places for ballots that approve fewer free candidates than this.
pub(crate) const PLACES_OPEN: usize = 16;

/// The number of places in a table of majorants.
const TABLE_PLACES: usize = 128;

/// The majorants of ballots if `left` of `free` candidates complete a set. Each is computed when it is first asked for,
/// and kept. Contracts see the sums and `left`.
#[derive(Drop)]
pub(crate) struct Majorants<'a> {
    sums: &'a [u64; PLACES],
    left: u8,
    free: u8,
    table: [Option<Majorant>; TABLE_PLACES],
}

impl<'a> Model for Majorants<'a> {
    ghost Value = { Majorized };

    ghost view = { λ t. record { sums = t.sums.now; left = t.left } };

    ghost invariant = { λ t. (1 ≤ t.free) × AreSmallSums t.sums.now × AreMajorants t.sums.now t.left t.table };
}

impl<'a> Majorants<'a> {
    pub(crate) fn new(sums: &'a [u64; PLACES], left: u8, free: u8) -> Majorants<'a>
        requires some { 1 ≤ free }
        requires small { AreSmallSums sums.now }
        ensures sums { result.sums ≡ sums.now }
        ensures left { result.left ≡ left }
    {
        Majorants {
            sums,
            left,
            free,
            table: [None; TABLE_PLACES],
        }
    }

    /// The majorant of a ballot that has `before` hits and approves `approved` free candidates.
    pub(crate) fn of_ballot(&mut self, before: u8, approved: u8) -> Majorant
        requires { before + approved ≤ most_candidates }
        ensures majorant { IsMajorantOf self.old.sums before (min self.old.left approved) result }
        ensures same { self.new ≡ self.old }
    {
        let (row, column) = (usize::from(before), usize::from(approved));
        if row >= PLACES_BEFORE || column >= PLACES_OPEN {
            return self.made(before, approved);
        }
        let place = PLACES_OPEN * row + column;
        if let Some(majorant) = self.table[place] {
            return majorant;
        }
        let majorant = self.made(before, approved);
        self.table[place] = Some(majorant);
        majorant
    }

    /// The majorant is exact about the mean number of hits if `left` of the free candidates are drawn at random: at the
    /// greatest number below it, and at one more. The quadratic with the lowest mean bound entered as many sets.
    fn made(&self, before: u8, approved: u8) -> Majorant
        requires { before + approved ≤ most_candidates }
        ensures { IsMajorantOf self.now.sums before (min self.now.left approved) result }
    {
        let most = self.left.min(approved);
        let touch = mean_hits(approved, self.left, self.free).min(most);
        Majorant::at(self.sums, before, most, touch)
    }
}

/// The greatest number below the mean number of hits of a ballot that approves `approved` of `free` candidates, if
/// `left` of them are drawn at random.
pub(crate) fn mean_hits(approved: u8, left: u8, free: u8) -> u8
    ensures { result ≤ approved }
{
    let hits = usize::from(approved) * usize::from(left);
    let below = hits.saturating_sub(1) / usize::from(free.max(1));
    below.min(usize::from(approved)) as u8
}
