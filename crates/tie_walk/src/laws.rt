//! Laws of the definitions. Each function does nothing, and its contract is the law.
ghost use Rattle.std.specs.Prelude.{◌≡◌, ◌≢◌, ℕ, ◌+◌, ◌-◌, ◌*◌, ◌^◌, ◌<◌, ◌≤◌, ◌↔◌, List, [], ◌∷◌, ◌++◌, Option, Some, length, fold, take, slice_index, IsTrue, Contains, AllPairs};
ghost use Rattle.std.specs.List.{AllByRecursion, range_with_len};
ghost use Rattle.ballot_base.specs.Limits.{most_members, most_thiele_value};
ghost use Rattle.ballot_base.specs.Increments.{increments};
ghost use Rattle.ballot_base.specs.Ballots.{Row, Election, IsElection};
ghost use Rattle.ballot_base.specs.Lists.{IsIncreasing, increasing_lists, AreInOrder, later_than};
ghost use Rattle.ballot_base.specs.CandSet.{with_member, without_member, members_upto};
ghost use Rattle.tie_walk.specs.Sequences.{hit_weights, has_greatest_gain, has_least_loss, IsGrown, IsShrunk, sequential_winners};
ghost use Rattle.tie_walk.specs.Ceilings.{Prefix, IsLive, IsSubmodular, IsBound, IsTight, IsExactAtBest, ceiling, closeness_upto, live_below};
ghost use Rattle.tie_walk.specs.Values.{greatest_distance, closeness, satisfaction_value, thiele_value};
ghost use Rattle.tie_walk.specs.Winners.{Winning, IsNextWinner, best_value, winners};

use crate::sequential::SeqRule;
use crate::tally::Tally;
use ballot_base::ThieleRule;

/// The highest value: a winner has it, and no committee has a higher one.
pub fn greatest_value()
    ensures reached { (value : List ℕ → ℕ) (m k : ℕ) → k ≤ m →
        (set : List ℕ) × Contains (winners value m k) set × (value set ≡ best_value value m k) }
    ensures greatest { (value : List ℕ → ℕ) (m k : ℕ) (set : List ℕ) →
        Contains (increasing_lists 1 m k) set → value set ≤ best_value value m k }
{}

/// The winners are exactly the committees of size k of the candidates 1 to m that have the highest value.
pub fn winning_committees()
    ensures { (value : List ℕ → ℕ) (m k : ℕ) (set : List ℕ) → Contains (winners value m k) set
        ↔ (IsIncreasing 1 m set × (length set ≡ k) × (value set ≡ best_value value m k)) }
{}

/// The winners are in order: each is later than all before it, so that none occurs twice.
pub fn winner_order()
    ensures later { (value : List ℕ → ℕ) (m k : ℕ) → AreInOrder (winners value m k) }
    ensures once { (value : List ℕ → ℕ) (m k : ℕ) → AllPairs (λ set other. set ≢ other) (winners value m k) }
{}

/// If a winner is the start of a walk, the walk has exactly the winners after it. So winners that are fetched one at a
/// time, each as the start of the next walk, come as in one walk over all.
pub fn starts()
    ensures winners { (value : List ℕ → ℕ) (m k : ℕ) (before after : List (List ℕ)) (start : List ℕ)
        → winners value m k ≡ before ++ start ∷ after → later_than (Some start) (winners value m k) ≡ after }
    ensures sequential { (rule : SeqRule) (e : Election) (k : ℕ) (before after : List (List ℕ)) (start : List ℕ)
        → sequential_winners rule e k ≡ before ++ start ∷ after
        → later_than (Some start) (sequential_winners rule e k) ≡ after }
{}

/// Under Thiele's rules and satisfaction approval voting, gains only fall as a committee grows.
pub fn gains_fall()
    ensures thiele { (rule : ThieleRule) (k : ℕ) (rows : List Row) → k ≤ most_members
        → IsSubmodular (thiele_value (increments rule k) rows) }
    ensures satisfaction { (m : ℕ) (rows : List Row) → IsSubmodular (satisfaction_value m rows) }
{}

/// If gains only fall, the value and the highest gains bound every completion. Under minimax approval voting, the
/// distances on the candidates decided so far do.
pub fn ceilings()
    ensures gains { (value : List ℕ → ℕ) (m c : ℕ) (set : List ℕ) (left : ℕ) → IsSubmodular value
        → IsIncreasing 1 c set → IsBound value m c set left (ceiling value m c set left) }
    ensures distances { (m : ℕ) (rows : List Row) (c : ℕ) (set : List ℕ) (left : ℕ)
        → IsIncreasing 1 c set → IsBound (closeness m rows) m c set left (closeness_upto m rows c set) }
{}

/// Which prefixes are counted: a prefix is live exactly if the count is positive below it and below each of its
/// beginnings. So the count, which takes 1 for each such prefix, is the number of the live ones.
pub fn live_prefixes()
    ensures { (bound : ℕ → List ℕ → ℕ → ℕ) (m k best : ℕ) (after : Option (List ℕ)) (prefix : Prefix)
        → IsIncreasing 1 prefix.c prefix.set → prefix.c ≤ m → IsLive bound m k best after prefix
        ↔ ((c : ℕ) → c ≤ prefix.c → 1 ≤ live_below bound m k best after (m - c) c (members_upto prefix.set c)) }
{}

/// If no bound is too high, a bound that reaches a value shows that some completion reaches it, whatever is best.
pub fn tight_bounds()
    ensures { (value : List ℕ → ℕ) (bound : ℕ → List ℕ → ℕ → ℕ) (m k best : ℕ) → IsTight value bound m k
        → IsExactAtBest value bound m k best }
{}

/// How far a winner is from the one before it if no bound is too high, as under approval voting and satisfaction
/// approval voting. One call of `next` asks for at most four bounds for each candidate.
pub fn short_waits<T: Tally>()
    ensures { (from : Winning T) (winner : Option (List ℕ)) (to : Winning T)
        → IsTight (T.value_of from.tally) (T.bound_of from.tally) from.m from.k
        → IsNextWinner T T.value_of T.bound_of from winner to → to.ceilings ≤ from.ceilings + 4 * from.m }
{}

/// No ballot is farther from a committee than there are candidates. So the value under minimax approval voting and the
/// maximum distance add up to the number of candidates.
pub fn distances()
    ensures { (m : ℕ) (rows : List Row) (committee : List ℕ) → AllByRecursion (λ row. IsIncreasing 1 m row.0) rows
        → IsIncreasing 1 m committee → greatest_distance rows committee + closeness m rows committee ≡ m }
{}

/// Which lists are grown and shrunk, place by place. Each member of a grown list has a highest gain at the set of the
/// members before it. Each member of a shrunk list has a lowest loss from the candidates that those before it leave.
pub fn sequences()
    ensures grown { (weights : List ℕ) (m : ℕ) (rows : List Row) (list : List ℕ) → IsGrown weights m rows list
        ↔ ((i : ℕ) → i < length list → let before = fold with_member [] (take i list) in
        IsTrue (has_greatest_gain weights m rows before (slice_index list i))) }
    ensures shrunk { (weights : List ℕ) (m : ℕ) (rows : List Row) (list : List ℕ) → IsShrunk weights m rows list
        ↔ ((i : ℕ) → i < length list → let left = fold without_member (range_with_len 1 m) (take i list) in
        IsTrue (has_least_loss weights rows left (slice_index list i))) }
{}

/// The winners under the sequential rules are exactly the committees that some sequence of choices makes.
pub fn sequential_committees()
    ensures seqpav { (e : Election) (k : ℕ) (set : List ℕ) → Contains (sequential_winners SeqRule.SeqPav e k) set
        ↔ ((list : List ℕ) × (length list ≡ k) × IsGrown (hit_weights SeqRule.SeqPav e.m) e.m e.rows list
        × (fold with_member [] list ≡ set)) }
    ensures seqcc { (e : Election) (k : ℕ) (set : List ℕ) → Contains (sequential_winners SeqRule.SeqCc e k) set
        ↔ ((list : List ℕ) × (length list ≡ k) × IsGrown (hit_weights SeqRule.SeqCc e.m) e.m e.rows list
        × (fold with_member [] list ≡ set)) }
    ensures revseqpav { (e : Election) (k : ℕ) (set : List ℕ) → k ≤ e.m
        → Contains (sequential_winners SeqRule.RevSeqPav e k) set
        ↔ ((list : List ℕ) × (length list ≡ e.m - k) × IsShrunk (hit_weights SeqRule.RevSeqPav e.m) e.m e.rows list
        × (fold without_member (range_with_len 1 e.m) list ≡ set)) }
{}

/// These winners are in order: each is later than all before it, so that none occurs twice.
pub fn sequential_order()
    ensures later { (rule : SeqRule) (e : Election) (k : ℕ) → AreInOrder (sequential_winners rule e k) }
    ensures once { (rule : SeqRule) (e : Election) (k : ℕ)
        → AllPairs (λ set other. set ≢ other) (sequential_winners rule e k) }
{}

/// How large values are under Thiele's rules and satisfaction approval voting, times their denominators, whatever the
/// election is. So no sum of a tally wraps.
pub fn ranges()
    ensures proportional { (e : Election) (k : ℕ) (committee : List ℕ) → IsElection e → k ≤ most_members
        → thiele_value (increments ThieleRule.Pav k) e.rows committee < 2 ^ 87 }
    ensures thiele { (rule : ThieleRule) (e : Election) (k : ℕ) (committee : List ℕ) → IsElection e → k ≤ most_members
        → thiele_value (increments rule k) e.rows committee < 2 ^ 114 }
    ensures satisfaction { (e : Election) (committee : List ℕ) → IsElection e
        → satisfaction_value e.m e.rows committee < 2 ^ 125 }
{}

/// How large the bounds are of every prefix that a tally may be asked for, whatever the election is. So no sum of a
/// tally wraps.
pub fn ceiling_ranges()
    ensures proportional { (e : Election) (k c : ℕ) (set : List ℕ) (left : ℕ) → IsElection e → k ≤ most_members
        → c ≤ e.m → IsIncreasing 1 c set → left ≤ e.m - c
        → ceiling (thiele_value (increments ThieleRule.Pav k) e.rows) e.m c set left < 2 ^ 91 }
    ensures thiele { (rule : ThieleRule) (e : Election) (k c : ℕ) (set : List ℕ) (left : ℕ) → IsElection e
        → k ≤ most_members → c ≤ e.m → IsIncreasing 1 c set → left ≤ e.m - c
        → ceiling (thiele_value (increments rule k) e.rows) e.m c set left ≤ most_thiele_value }
    ensures satisfaction { (e : Election) (c : ℕ) (set : List ℕ) (left : ℕ) → IsElection e
        → c ≤ e.m → IsIncreasing 1 c set → left ≤ e.m - c
        → ceiling (satisfaction_value e.m e.rows) e.m c set left < 2 ^ 122 }
{}
