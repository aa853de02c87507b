//! Laws of the definitions. Each function does nothing, and its contract is the law.
ghost use Rattle.std.specs.Prelude.{ℕ, ◌≤◌, if◌then◌else◌};
ghost use Rattle.tie_walk.specs.Ceilings.{IsExactAtBest};
ghost use Rattle.sequential_winners.specs.Families.{Sequential, is_winner, some_winner};

/// The bounds of families reach the value of a winner only if some winner completes the set. So a walk over the winners
/// enters only prefixes with a winner below.
pub fn exact_bounds()
    ensures { (s : Sequential) (best : ℕ) → 1 ≤ best → IsExactAtBest (λ set. if is_winner s set then 1 else 0)
        (λ c set left. if some_winner s c set left then 1 else 0) s.election.m s.k best }
{}
