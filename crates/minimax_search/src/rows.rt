//! The rows of an election, each with a weight, in an order that changes: those that matter at a node come first.
//!
//! A row does not matter if each completion of the node gives its ballot the hits that it needs. Then it does not
//! matter below the node either. As a search goes depth first, the rows that matter at a node are among those of the
//! last node with one seat more, and these are still the first ones, in any order. So for each number of seats left, a
//! count of rows is enough. Without this, 5,000 random voters took four times as long.
//!
//! Any rows, with any weights, give a sound bound, and whole committees are valued by all rows. So nothing is proved of
//! the order and the counts.
ghost use Rattle.std.specs.Prelude.{ℕ, ◌<◌, ◌≤◌};
ghost use Rattle.row_multipliers.specs.Steps.Limits.{most_moved};

use ballot_base::PLACES;
use row_multipliers::multipliers::MOST_MOVED;
use std::alloc::{AllocError, Allocator};
use std::array;
use std::cell::Cell;

/// Each weight begins with this number: enough that rounding matters little.
const FIRST_WEIGHT: u64 = 1 << 26;

/// Weights are raised if those of the rows that matter are together less than this. Moving makes them smaller, and the
/// shortest step would then leave only zeros. When weights began with 2^20 and were not raised, 64 popular candidates
/// and 20 seats took over 8 s, and they take 0.1 s now. Any number works.
const LEAST_TOGETHER: u64 = 1 << 28;

/// About what raised weights are together.
const RAISED: u64 = 1 << 34;

/// The direction that one hit makes.
const HIT: i32 = 64;

/// There is a count for each number of seats left, and for one seat more.
const LEVELS: usize = PLACES + 1;

/// A row and its weight.
#[derive(Clone, Copy)]
struct Weighed {
    row: u32,
    // The hits that the candidates of the highest worths lacked lately, in parts of `HIT`.
    direction: i32,
    weight: u64,
}

impl Weighed {
    fn first(row: u32) -> Weighed {
        Weighed {
            row,
            direction: 0,
            weight: FIRST_WEIGHT,
        }
    }

    fn moved(self, length: u64) -> Weighed {
        let distance = length.saturating_mul(u64::from(self.direction.unsigned_abs()));
        let weight = if self.direction > 0 {
            self.weight.saturating_add(distance).min(MOST_MOVED)
        } else {
            self.weight.saturating_sub(distance)
        };
        Weighed { weight, ..self }
    }
}

/// The rows of an election in their places, counted from 0.
#[derive(Drop)]
pub(crate) struct WeighedRows<A: Allocator> {
    places: Vec<Cell<Weighed>, A>,
    // For each number of seats left, how many rows matter at the node that was entered last.
    counts: [Cell<usize>; LEVELS],
}

impl<A: Allocator + Copy + Drop> WeighedRows<A> {
    /// Takes 16 bytes of memory for each row. All have the same weight.
    pub(crate) fn of(alloc: A, rows: usize) -> Result<WeighedRows<A>, AllocError> {
        let places = vec![in alloc; Cell::new(Weighed::first(0)); rows]?;
        let mut row: u32 = 0;
        for place in &places {
            place.set(Weighed::first(row));
            row = row.saturating_add(1);
        }
        Ok(WeighedRows {
            places,
            counts: array::from_fn(|_| Cell::new(0)),
        })
    }
}

impl<A: Allocator> WeighedRows<A> {
    /// Begins a search with `left` seats left, at which all rows matter.
    pub(crate) fn begin(&self, left: u8) {
        if let Some(count) = self.counts.get(usize::from(left) + 1) {
            count.set(self.places.len());
        }
    }

    /// How many rows matter with one seat more than `left`.
    pub(crate) fn count_above(&self, left: u8) -> usize {
        match self.counts.get(usize::from(left) + 1) {
            Some(count) => count.get(),
            None => 0,
        }
    }

    /// How many rows matter with `left` seats left.
    pub(crate) fn count(&self, left: u8) -> usize {
        match self.counts.get(usize::from(left)) {
            Some(count) => count.get(),
            None => 0,
        }
    }

    /// Notes how many rows matter with `left` seats left.
    pub(crate) fn note(&self, left: u8, matter: usize) {
        if let Some(count) = self.counts.get(usize::from(left)) {
            count.set(matter);
        }
    }

    /// Exchanges the rows of two places.
    pub(crate) fn exchange(&self, one: usize, other: usize) {
        let (Some(one), Some(other)) = (self.places.get(one), self.places.get(other)) else {
            return;
        };
        let row = one.get();
        one.set(other.get());
        other.set(row);
    }

    /// The row at a place: one of the given number of rows.
    pub(crate) fn row(&self, place: usize, rows: usize) -> usize
        requires { 1 ≤ rows }
        ensures { result < rows }
    {
        match self.places.get(place) {
            Some(weighed) => (weighed.get().row as usize).min(rows - 1),
            None => 0,
        }
    }

    /// The weight of the row at a place.
    pub(crate) fn weight(&self, place: usize) -> u64
        ensures { result ≤ most_moved }
    {
        match self.places.get(place) {
            Some(weighed) => weighed.get().weight.min(MOST_MOVED),
            None => 0,
        }
    }

    /// Forgets all directions, and raises the weights of the rows that matter if all of them are small. Only how they
    /// compare with one another matters.
    pub(crate) fn raise(&self, left: u8) {
        let mut together: u64 = 0;
        for weighed in self.places.iter().take(self.count(left)) {
            together = together.saturating_add(weighed.get().weight);
        }
        let factor = RAISED / together.max(1);
        for weighed in self.places.iter().take(self.count(left)) {
            let now = weighed.get();
            let weight = if together < LEAST_TOGETHER {
                now.weight.saturating_add(1).saturating_mul(factor)
            } else {
                now.weight
            };
            weighed.set(Weighed {
                direction: 0,
                weight,
                ..now
            });
        }
    }

    /// Turns the direction of the row at a place to the hits that it lacks; below 0 if it has too many. Returns the
    /// square of the direction, or 0 if the weight is 0 and would fall. When five eighths of the direction were kept,
    /// 157 elections took a sixth more instructions together, and parties with noise up to 1.6 times as many.
    pub(crate) fn aim(&self, place: usize, lacking: i32) -> u64 {
        let Some(weighed) = self.places.get(place) else {
            return 0;
        };
        let now = weighed.get();
        let direction = (now.direction / 8)
            .saturating_mul(7)
            .saturating_add(HIT.saturating_mul(lacking));
        weighed.set(Weighed { direction, ..now });
        if now.weight == 0 && direction <= 0 {
            return 0;
        }
        let size = u64::from(direction.unsigned_abs());
        size.saturating_mul(size)
    }

    /// Moves the weight of each row that matters by its direction, times `length`.
    pub(crate) fn step(&self, left: u8, length: u64) {
        for weighed in self.places.iter().take(self.count(left)) {
            weighed.set(weighed.get().moved(length));
        }
    }

    /// The length of a step that makes this much up, by the sum of the squared directions.
    pub(crate) fn length(missing: u128, square: u64) -> u64 {
        let length = missing.saturating_mul(HIT as u128) / u128::from(square.max(1));
        length.min(u128::from(u64::MAX)) as u64
    }
}
