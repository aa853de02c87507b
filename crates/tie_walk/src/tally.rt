//! The trait `Tally`: what gives a committee its value, and bounds what its completions can have.
//!
//! A walk knows of its tally only what the trait says: the value of a set and the law of the bound. So one walk serves
//! rules with plain bounds and families of committees. `greatest_sum` finds the highest sum of gains from the lowest of
//! these gains.
ghost use Rattle.std.specs.Prelude.{◌≡◌, ℕ, ◌+◌, ◌-◌, ◌*◌, ◌<◌, ◌≤◌, List, slice_index};
ghost use Rattle.ballot_base.specs.Limits.{most_candidates, worth_limit};
ghost use Rattle.ballot_base.specs.Lists.{IsIncreasing};
ghost use Rattle.tie_walk.specs.Ceilings.{IsBound, greatest_sum};

use ballot_base::{CandSet, Worths};

/// What gives a committee its value.
///
/// `bound` is a function of the tally and its arguments, whatever was asked before. Some types have bounds that also
/// depend on what contracts do not see, such as the contents of a `Cell`. Such a type cannot meet the clause `value` of
/// `bound`, however well it keeps the law.
pub trait Tally {
    ghost candidates: { Self → ℕ };

    ghost value_of: { Self → List ℕ → ℕ };

    ghost bound_of: { Self → ℕ → List ℕ → ℕ → ℕ };

    /// The number of candidates, 1 to `MOST_CANDIDATES`.
    fn m(&self) -> u8
        ensures value { result ≡ candidates self.now }
        ensures some { 1 ≤ result }
        ensures most { result ≤ most_candidates };

    /// The value of a set of candidates.
    fn value(&self, set: CandSet) -> u128
        requires { IsIncreasing 1 (candidates self.now) set }
        ensures { result ≡ value_of self.now set };

    /// An upper bound on the value of any committee of `set` and `left` candidates after `c`. No member of `set` is
    /// above `c`.
    fn bound(&self, c: u8, set: CandSet, left: u8) -> u128
        requires within { c ≤ candidates self.now }
        requires candidates { IsIncreasing 1 c set }
        requires fits { left ≤ candidates self.now - c }
        ensures value { result ≡ bound_of self.now c set left }
        ensures law { IsBound (value_of self.now) (candidates self.now) c set left result };
}

/// The highest sum of the worths of `left` of the candidates from c + 1 to m.
pub(crate) fn greatest_sum(worths: &Worths, c: u8, m: u8, left: u8) -> u128
    requires most { m ≤ most_candidates }
    requires within { c ≤ m }
    requires fits { left ≤ m - c }
    requires small { (n : ℕ) → slice_index worths.now n < worth_limit }
    ensures value { result ≡ greatest_sum (slice_index worths.now) (c + 1) m left }
    ensures most { (most : ℕ) → ((n : ℕ) → slice_index worths.now n ≤ most) → result ≤ left * most }
{
    let candidates = CandSet::after(c, m);
    let threshold = worths.nth_greatest(candidates, left);
    u128::from(left) * threshold + worths.excess(candidates, threshold)
}
