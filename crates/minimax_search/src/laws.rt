//! Laws of the definitions. Each function does nothing, and its contract is the law.
ghost use Rattle.std.specs.Prelude.{◌≡◌, true, ℕ, ◌+◌, ◌-◌, ◌*◌, ◌≤◌, ◌↔◌, List, length, sum_by};
ghost use Rattle.std.specs.List.{AllByRecursion};
ghost use Rattle.ballot_base.specs.Ballots.{Row, hits};
ghost use Rattle.ballot_base.specs.Lists.{IsIncreasing};
ghost use Rattle.ballot_base.specs.CandSet.{has_member};
ghost use Rattle.tie_walk.specs.Values.{greatest_distance};
ghost use Rattle.row_multipliers.specs.Completions.{IsNode, IsCompletion};
ghost use Rattle.minimax_search.specs.Needs.{hits_needed, weighted_needs, weighted_support};

/// Under minimax approval voting, no ballot is farther than `most` from a committee of `k` exactly if each ballot has
/// at least the hits that it needs.
pub fn needs()
    ensures { (m k most : ℕ) (rows : List Row) (committee : List ℕ)
        → AllByRecursion (λ row. IsIncreasing 1 m row.0) rows → IsIncreasing 1 m committee → length committee ≡ k
        → (greatest_distance rows committee ≤ most)
        ↔ AllByRecursion (λ row. hits_needed (length row.0) k most ≤ hits row.0 committee) rows }
{}

/// Weighted needs bound the committees that complete a set, under minimax approval voting. Each row may have any
/// weight, and the threshold may be any number. If no ballot is farther than `most` from a committee, the weighted
/// needs are at most `left` times the threshold, plus the excess of the supports of the free candidates over it. If `n`
/// is an added member, the bound is lower by the amount by which its support is below the threshold.
pub fn weighted_needs()
    ensures completions { (weight : Row → ℕ) (m k most : ℕ) (rows : List Row) (set free : List ℕ) (left threshold : ℕ)
        (committee : List ℕ) → AllByRecursion (λ row. IsIncreasing 1 m row.0) rows → IsNode m set free
        → IsCompletion m set free left committee → length set + left ≡ k → greatest_distance rows committee ≤ most
        → weighted_needs weight k most set rows
        ≤ left * threshold + sum_by (λ n. weighted_support weight rows n - threshold) free }
    ensures members { (weight : Row → ℕ) (m k most : ℕ) (rows : List Row) (set free : List ℕ) (left threshold : ℕ)
        (committee : List ℕ) (n : ℕ) → AllByRecursion (λ row. IsIncreasing 1 m row.0) rows → IsNode m set free
        → IsCompletion m set free left committee → length set + left ≡ k → greatest_distance rows committee ≤ most
        → has_member free n ≡ true → has_member committee n ≡ true
        → weighted_needs weight k most set rows + (threshold - weighted_support weight rows n)
        ≤ left * threshold + sum_by (λ n. weighted_support weight rows n - threshold) free }
{}
