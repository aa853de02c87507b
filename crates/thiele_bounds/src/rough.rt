//! Worths in a coarse unit, and bounds on what some of the candidates are worth together.
//!
//! Any threshold bounds this: each of them brings the threshold, and the excess of its worth. The bound is least if the
//! threshold is the worth of the last of the best. A threshold about there is found in two or three passes.
ghost use Rattle.std.specs.Prelude.{◌≡◌, ℕ, ◌-◌, ◌*◌, ◌≤◌, ◌==◌, List, slice_index, sum_by, if◌then◌else◌};
ghost use Rattle.ballot_base.specs.Limits.{most_candidates};
ghost use Rattle.ballot_base.specs.Lists.{IsIncreasing};
ghost use Rattle.thiele_bounds.specs.Steps.Threes.{IsBound, most_rough};

use ballot_base::{CandSet, PLACES};
use std::marker::Model;

/// The maximum of a worth. Even 255 thresholds and 64 worths fit into a word.
const MOST_ROUGH: u64 = 1 << 55;

/// The maximum number of thresholds that are tried.
const TURNS: u8 = 4;

/// The worth of each candidate, at most 2^55. Contracts see the list of the worths, each at the candidate's number.
#[derive(Drop)]
pub(crate) struct Rough {
    each: [u64; PLACES],
    // How far the last threshold lay above the mean worth, or below it, modulo 2^64.
    rise: u64,
}

impl Model for Rough {
    ghost Value = { List ℕ };

    ghost view = { λ rough. rough.each };

    ghost invariant = { λ rough. (n : ℕ) → slice_index rough.each n ≤ most_rough };
}

impl Rough {
    /// Every worth is 0.
    pub(crate) fn none() -> Rough
        ensures { (n : ℕ) → slice_index result n ≡ 0 }
    {
        Rough {
            each: [0; PLACES],
            rise: 0,
        }
    }

    /// Sets the worth of a candidate.
    pub(crate) fn set(&mut self, candidate: u8, worth: u64)
        requires candidate { candidate ≤ most_candidates }
        requires small { worth ≤ most_rough }
        ensures { (n : ℕ) → slice_index self.new n ≡ (if n == candidate then worth else slice_index self.old n) }
    {
        self.each[usize::from(candidate)] = worth;
    }

    /// A bound on the sum of the worths of `count` of the candidates, by a threshold that is nearly the best. All
    /// others should be worth 0. A threshold is looked for about as far from the mean worth as the last one was.
    pub(crate) fn bound(&mut self, candidates: CandSet, count: u8) -> u64
        ensures { IsBound self.old candidates count result }
    {
        let many = u64::from(candidates.len().max(1));
        let mean = self.excess(0).more / many;
        let guess = mean.wrapping_add(self.rise);
        let mut last = self.tried(candidates, count, guess.min(MOST_ROUGH));
        let mut least = last;
        for _turn in 1..TURNS {
            if last.is_near(count) {
                break;
            }
            last = self.tried(candidates, count, last.nearer(count, mean));
            if last.sum < least.sum {
                least = last;
            }
        }
        self.rise = least.threshold.wrapping_sub(mean);
        least.sum
    }

    /// The bound by a threshold.
    fn tried(&self, candidates: CandSet, count: u8, threshold: u64) -> Tried
        requires threshold { threshold ≤ most_rough }
        requires candidates { IsIncreasing 1 most_candidates candidates }
        ensures { IsBound self.now candidates count result.sum }
    {
        let excess = self.excess(threshold);
        Tried {
            sum: u64::from(count) * threshold + excess.more,
            threshold,
            more: excess.more,
            above: excess.above,
        }
    }

    /// By how much all worths exceed a threshold. Those of some candidates exceed it by no more. All are passed over in
    /// order, since that takes less time than looking for the candidates.
    fn excess(&self, threshold: u64) -> Excess
        ensures more { (candidates : List ℕ) → IsIncreasing 1 most_candidates candidates
            → sum_by (λ n. slice_index self.now n - threshold) candidates ≤ result.more }
        ensures small { result.more ≤ most_candidates * most_rough }
    {
        let mut more = 0;
        let mut above: u64 = 0;
        for candidate in 1..PLACES {
            let worth = self.each[candidate];
            more += worth.saturating_sub(threshold);
            above += u64::from(worth > threshold);
        }
        Excess {
            more,
            above: above.min(255) as u8,
        }
    }
}

/// What exceeds a threshold: in all, and how many worths.
#[derive(Clone, Copy)]
struct Excess {
    more: u64,
    above: u8,
}

/// A bound by a threshold, and what exceeded it.
#[derive(Clone, Copy)]
struct Tried {
    sum: u64,
    threshold: u64,
    more: u64,
    above: u8,
}

impl Tried {
    /// Whether nearly `count` worths exceeded the threshold. Then others are hardly better.
    fn is_near(self, count: u8) -> bool {
        self.above.saturating_add(2) >= count && self.above <= count.saturating_add(1)
    }

    /// The threshold that `count` worths exceed, if those above this one are spread evenly. If there are none, it is
    /// the mean.
    fn nearer(self, count: u8, mean: u64) -> u64
        ensures { result ≤ most_rough }
    {
        let above = u64::from(self.above);
        let step = (self.more / (above * above + 1)).saturating_mul(2).max(1);
        let threshold = if above == 0 {
            mean
        } else if self.above > count {
            let many = u64::from(self.above - count);
            self.threshold.saturating_add(step.saturating_mul(many))
        } else {
            let many = u64::from(count - self.above);
            self.threshold.saturating_sub(step.saturating_mul(many))
        };
        threshold.min(MOST_ROUGH)
    }
}
