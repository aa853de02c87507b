//! Laws of the definitions. Each function does nothing, and its contract is the law.
ghost use Rattle.std.specs.Prelude.{◌≡◌, ◌≢◌, ℕ, ◌+◌, ◌-◌, ◌*◌, ◌^◌, ◌<◌, ◌≤◌, ◌↔◌, true, List, ◌∷◌, ◌++◌, Some, length, slice_index, All, AllPairs, Contains};
ghost use Rattle.std.specs.Int.{◌∣◌};
ghost use Rattle.ballot_base.specs.Limits.{most_candidates, most_members};
ghost use Rattle.ballot_base.specs.Lists.{IsIncreasing, increasing_lists, is_committee, AreInOrder, later_than};
ghost use Rattle.ballot_base.specs.CommonMultiple.{common_multiple, AllDivide};
ghost use Rattle.ballot_base.specs.Increments.{increment, denominator, increments};

use crate::increments::ThieleRule;

/// `increasing_lists` has exactly the increasing lists of the given length. `is_committee` accepts exactly those.
pub fn committees()
    ensures members { (first last size : ℕ) (set : List ℕ) → Contains (increasing_lists first last size) set
        ↔ (IsIncreasing first last set × (length set ≡ size)) }
    ensures test { (m k : ℕ) (list : List ℕ) → (is_committee m k list ≡ true)
        ↔ (IsIncreasing 1 m list × (length list ≡ k)) }
    ensures sizes { (first last size : ℕ) → All (λ set. length set ≡ size) (increasing_lists first last size) }
{}

/// `increasing_lists` is in order: each list is later than all lists before it, so that none occurs twice.
pub fn committee_order()
    ensures later { (first last size : ℕ) → AreInOrder (increasing_lists first last size) }
    ensures once { (first last size : ℕ) → AllPairs (λ set other. set ≢ other) (increasing_lists first last size) }
{}

/// If lists are in order, those later than a start are the last of them. If the start is one of the lists, they are
/// exactly the lists after it.
pub fn later()
    ensures end { (start : List ℕ) (lists : List (List ℕ)) → AreInOrder lists
        → (before : List (List ℕ)) × (lists ≡ before ++ later_than (Some start) lists) }
    ensures after { (before after : List (List ℕ)) (start : List ℕ) → AreInOrder (before ++ start ∷ after)
        → later_than (Some start) (before ++ start ∷ after) ≡ after }
{}

/// `common_multiple n` is the least positive number that all of 1 to n divide. It divides every other such number.
pub fn multiples()
    ensures positive { (n : ℕ) → 0 < common_multiple n }
    ensures divided { (n : ℕ) → AllDivide n (common_multiple n) }
    ensures least { (n other : ℕ) → 0 < other → AllDivide n other → common_multiple n ≤ other }
    ensures divides { (n other : ℕ) → AllDivide n other → common_multiple n ∣ other }
{}

/// Increments never rise: no member adds more than the one before.
pub fn falling()
    ensures { (rule : ThieleRule) (k i : ℕ) → 1 ≤ k → k ≤ most_members
        → slice_index (increments rule k) (i + 1) ≤ slice_index (increments rule k) i }
{}

/// Nothing is rounded: the increment of the j-th member, times j or times the base to the power j - 1, is the
/// denominator.
pub fn exact()
    ensures pav { (k j : ℕ) → 1 ≤ j → j ≤ k → increment ThieleRule.Pav k j * j ≡ denominator ThieleRule.Pav k }
    ensures geom2 { (k j : ℕ) → 1 ≤ j → j ≤ k
        → increment ThieleRule.Geom2 k j * 2 ^ (j - 1) ≡ denominator ThieleRule.Geom2 k }
    ensures geom3 { (k j : ℕ) → 1 ≤ j → j ≤ k
        → increment ThieleRule.Geom3 k j * 3 ^ (j - 1) ≡ denominator ThieleRule.Geom3 k }
    ensures geom4 { (k j : ℕ) → 1 ≤ j → j ≤ k
        → increment ThieleRule.Geom4 k j * 4 ^ (j - 1) ≡ denominator ThieleRule.Geom4 k }
{}

/// Bounds on multiples, denominators and increments. With them, sums over all voters fit 128 bits.
pub fn small()
    ensures multiples { (n : ℕ) → n ≤ most_candidates → common_multiple n < 2 ^ 90 }
    ensures denominators { (rule : ThieleRule) (k : ℕ) → k ≤ most_members → denominator rule k ≤ 2 ^ 78 }
    ensures increments { (rule : ThieleRule) (k j : ℕ) → 1 ≤ j → increment rule k j ≤ denominator rule k }
{}
