//! Laws of the definitions. Each function does nothing, and its contract is the law.
ghost use Rattle.std.specs.Prelude.{◌≡◌, true, ℕ, ◌+◌, ◌-◌, ◌*◌, ◌≤◌, min, List, length, sum_by};
ghost use Rattle.std.specs.List.{AllByRecursion};
ghost use Rattle.ballot_base.specs.Ballots.{Row, hits};
ghost use Rattle.ballot_base.specs.Lists.{IsIncreasing};
ghost use Rattle.ballot_base.specs.CandSet.{common_members, has_member};
ghost use Rattle.tie_walk.specs.Values.{thiele_value};
ghost use Rattle.row_multipliers.specs.Completions.{IsNode, IsCompletion};
ghost use Rattle.thiele_bounds.specs.Pairs.{IsMajorant, all_constants, all_overlap, all_worth, pair_sum, row_sum};
ghost use Rattle.thiele_bounds.specs.Prices.{IsLinearMajorant};
ghost use Rattle.thiele_bounds.specs.Triples.{IsCubicMajorant, all_triples, sum_of_one, sum_of_pairs, sum_of_triples, sum_of_two, worth_of_three};

/// A majorant for each row bounds what its voters give, by the hits among the added members. Summed over the rows, no
/// committee is worth more than what all voters keep and the worths of the added members, less the overlaps of all
/// ordered pairs of them, also of each with itself. Any numbers that make majorants work.
pub fn pairs()
    ensures { (weights : List ℕ) (scale unit m : ℕ) (constant worth overlap : Row → ℕ) (rows : List Row)
        (set free : List ℕ) (left : ℕ) (committee : List ℕ) → AllByRecursion (λ row. IsIncreasing 1 m row.0) rows
        → IsNode m set free → IsCompletion m set free left committee
        → AllByRecursion (λ row. IsMajorant weights scale unit (hits row.0 set) (min left (hits row.0 free))
        (constant row) (worth row) (overlap row)) rows
        → scale * thiele_value weights rows committee
        + unit * pair_sum (all_overlap overlap rows) (common_members free committee)
        ≤ unit * (all_constants constant rows + sum_by (all_worth worth rows) (common_members free committee)) }
{}

/// Row sums bound worths less overlaps. The row of a member has its own worth and that of each other member beside it,
/// which is raised so that it is not below 0. Any threshold bounds a row: each of the others brings the threshold, and
/// the excess of its worth beside the member over the threshold.
pub fn row_sums()
    ensures { (worth : ℕ → ℕ) (overlap : ℕ → ℕ → ℕ) (m left raise : ℕ) (threshold : ℕ → ℕ) (free members : List ℕ)
        → 2 ≤ left → IsIncreasing 1 m free → IsIncreasing 1 m members → length members ≡ left
        → ((n : ℕ) → has_member members n ≡ true → has_member free n ≡ true)
        → ((i j : ℕ) → has_member free i ≡ true → has_member free j ≡ true
        → 2 * (left - 1) * overlap i j ≤ worth j + raise)
        → 2 * (left - 1) * sum_by worth members + left * left * raise
        ≤ 2 * (left - 1) * pair_sum overlap members
        + sum_by (λ i. row_sum worth overlap free left raise (threshold i) i) members }
{}

/// Prices bound the completions of a set, whatever multiplier is chosen for each row. The price of a candidate is the
/// sum of the multipliers of the voters who approve it. No completion is worth more than what all voters keep and the
/// prices of the added members.
pub fn prices()
    ensures { (weights : List ℕ) (scale unit m : ℕ) (constant multiplier : Row → ℕ) (rows : List Row)
        (set free : List ℕ) (left : ℕ) (committee : List ℕ) → AllByRecursion (λ row. IsIncreasing 1 m row.0) rows
        → IsNode m set free → IsCompletion m set free left committee
        → AllByRecursion (λ row. IsLinearMajorant weights scale unit (hits row.0 set) (min left (hits row.0 free))
        (constant row) (multiplier row)) rows
        → scale * thiele_value weights rows committee
        ≤ unit * (all_constants constant rows + sum_by (all_worth multiplier rows) (common_members free committee)) }
{}

/// A cubic majorant for each row bounds what its voters give. Summed over the rows, no committee is worth more than
/// what all voters keep, the worths of the added members and the triples of all ordered triples of different ones, less
/// the overlaps of all ordered pairs of different ones. Any numbers that make majorants work.
pub fn triples()
    ensures { (weights : List ℕ) (scale unit m : ℕ) (constant worth overlap triple : Row → ℕ) (rows : List Row)
        (set free : List ℕ) (left : ℕ) (committee : List ℕ) → AllByRecursion (λ row. IsIncreasing 1 m row.0) rows
        → IsNode m set free → IsCompletion m set free left committee
        → AllByRecursion (λ row. IsCubicMajorant weights scale unit (hits row.0 set) (min left (hits row.0 free))
        (constant row) (worth row) (overlap row) (triple row)) rows
        → scale * thiele_value weights rows committee
        + unit * sum_of_pairs (all_overlap overlap rows) (common_members free committee)
        ≤ unit * (all_constants constant rows + sum_by (all_worth worth rows) (common_members free committee)
        + sum_of_triples (all_triples triple rows) (common_members free committee)) }
{}

/// Row sums, one level deeper, bound worths and triples less overlaps. The worth of three members has the worth of each
/// and a multiple of their triple, less a multiple of their overlaps, and is raised so that it is not below 0. Any
/// thresholds bound what two members make with the others, and then what one member makes with them.
pub fn triple_sums()
    ensures { (worth : ℕ → ℕ) (overlap : ℕ → ℕ → ℕ) (triple : ℕ → ℕ → ℕ → ℕ) (m left raise : ℕ) (third : ℕ → ℕ → ℕ)
        (second : ℕ → ℕ) (free members : List ℕ)
        → 2 ≤ left → IsIncreasing 1 m free → IsIncreasing 1 m members → length members ≡ left
        → ((n : ℕ) → has_member members n ≡ true → has_member free n ≡ true)
        → ((i j : ℕ) → overlap i j ≡ overlap j i)
        → ((i j l : ℕ) → has_member free i ≡ true → has_member free j ≡ true → has_member free l ≡ true
        → (left - 1) * (overlap i j + overlap i l + overlap j l)
        ≤ worth i + worth j + worth l + 3 * (left - 1) * (left - 2) * triple i j l + raise)
        → 3 * (left - 1) * (left - 2) * (sum_by worth members + sum_of_triples triple members)
        + left * (left - 1) * (left - 2) * raise
        ≤ 3 * (left - 1) * (left - 2) * sum_of_pairs overlap members
        + sum_by (sum_of_one (sum_of_two (worth_of_three worth overlap triple left raise) free left third) free left
        second) members }
{}
