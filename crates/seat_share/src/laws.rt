//! Laws of the definitions. Each function does nothing, and its contract is the law.
ghost use Rattle.std.specs.Prelude.{◌≡◌, ◌≢◌, ◌+◌, ◌*◌, ◌^◌, ◌<◌, ◌≤◌, ◌↔◌, ℕ, List, sum, zip, Contains, AllPairs};
ghost use Rattle.std.specs.List.{AllByRecursion};
ghost use Rattle.seat_share.specs.Allocations.{IsLater, allocations};
ghost use Rattle.seat_share.specs.Fair.{IsFair};
ghost use Rattle.seat_share.specs.Steps.Claims.{IsWithinLimits, claim};

use crate::method::Method;

/// Hamilton's method keeps the quota (Balinski and Young, Fair Representation). A party's quota is its votes times the
/// seats, divided by all votes. The party's seats differ from the quota by less than one.
pub fn hamilton_keeps_the_quota()
    ensures { (votes allocation : List ℕ) (seats : ℕ) → 0 < sum votes → IsFair Method.Hamilton votes seats allocation →
        AllByRecursion (λ party. (party.0 * seats < (party.1 + 1) * sum votes)
        × (party.1 * sum votes < party.0 * seats + sum votes)) (zip votes allocation) }
{}

/// Each divisor method is house-monotone (Balinski and Young, Fair Representation). With one more seat, some fair
/// allocation takes no seat from a party.
pub fn divisor_methods_are_house_monotone()
    ensures { (method : Method) (votes allocation : List ℕ) (seats : ℕ) →
        method ≢ Method.Hamilton → 0 < sum votes → IsFair method votes seats allocation →
        (more : List ℕ) × IsFair method votes (seats + 1) more
        × AllByRecursion (λ seats. seats.0 ≤ seats.1) (zip allocation more) }
{}

/// Within the limits no product that compares two claims wraps: each is below 2^92. The largest ones are the squared
/// votes of one party times `s(s + 1)` of the other, by the method of Huntington and Hill.
pub fn products_fit()
    ensures { (method : Method) (total most votes seats other_votes other_seats : ℕ) →
        IsWithinLimits total most votes seats → IsWithinLimits total most other_votes other_seats →
        (claim method total most votes seats).0 * (claim method total most other_votes other_seats).1 < 2 ^ 92 }
{}

/// `allocations` has exactly the fair allocations.
pub fn all_fair_allocations()
    ensures { (method : Method) (votes : List ℕ) (seats : ℕ) (allocation : List ℕ) →
        Contains (allocations method votes seats) allocation ↔ IsFair method votes seats allocation }
{}

/// Allocations are in order: each is later than all before it, so that none occurs twice.
pub fn allocation_order()
    ensures later { (method : Method) (votes : List ℕ) (seats : ℕ) →
        AllPairs (λ x y. IsLater y x) (allocations method votes seats) }
    ensures once { (method : Method) (votes : List ℕ) (seats : ℕ) →
        AllPairs (λ x y. x ≢ y) (allocations method votes seats) }
{}
