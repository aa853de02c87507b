//! Laws of the definitions. Each function does nothing, and its contract is the law.
ghost use Rattle.std.specs.Prelude.{ℕ, ◌+◌, ◌≤◌, List, sum_by};
ghost use Rattle.ballot_base.specs.Limits.{most_members};
ghost use Rattle.ballot_base.specs.Ballots.{Row};
ghost use Rattle.ballot_base.specs.Increments.{increments};
ghost use Rattle.ballot_base.specs.CandSet.{common_members};
ghost use Rattle.tie_walk.specs.Ceilings.{gain_at};
ghost use Rattle.tie_walk.specs.Values.{thiele_value};
ghost use Rattle.row_multipliers.specs.Completions.{IsNode, IsCompletion};

use ballot_base::ThieleRule;

/// Each member that is added to a set brings at most its gain at the set, since gains only fall as a set grows.
pub fn gains()
    ensures { (rule : ThieleRule) (k : ℕ) (rows : List Row) (m : ℕ) (set free : List ℕ) (left : ℕ)
        (committee : List ℕ) → k ≤ most_members → IsNode m set free → IsCompletion m set free left committee
        → thiele_value (increments rule k) rows committee ≤ thiele_value (increments rule k) rows set
        + sum_by (gain_at (thiele_value (increments rule k) rows) set) (common_members free committee) }
{}
