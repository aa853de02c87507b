//! What approval voting and minimax approval voting elect.
ghost use Rattle.std.specs.Prelude.{◌≡◌, ℕ, ◌≤◌, ◌↔◌, false, true, List, length, Contains};
ghost use Rattle.ballot_base.specs.Limits.{most_members};
ghost use Rattle.ballot_base.specs.Lists.{IsIncreasing};
ghost use Rattle.ballot_base.specs.CandSet.{has_member};
ghost use Rattle.ballot_base.specs.Ballots.{Election, IsElection, voter_count};
ghost use Rattle.tie_walk.specs.Sequences.{supporters};
ghost use Rattle.tie_walk.specs.Values.{thiele_of, tally_value, closeness, greatest_distance};
ghost use Rattle.tie_walk.specs.Winners.{winners};

use ballot_base::ThieleRule;

/// Approval voting elects exactly the committees of the candidates with the most approvals: those of size k in which no
/// candidate outside has more supporters than a member (Lackner and Skowron, Multi-Winner Voting with Approval
/// Preferences).
pub fn elects_the_most_approved()
    ensures { (e : Election) (k : ℕ) (committee : List ℕ) → IsElection e → k ≤ most_members
        → Contains (winners (tally_value (thiele_of e ThieleRule.Av k)) e.m k) committee
        ↔ (IsIncreasing 1 e.m committee × (length committee ≡ k) × ((member other : ℕ)
        → has_member committee member ≡ true → has_member committee other ≡ false
        → voter_count (supporters e.rows other) ≤ voter_count (supporters e.rows member))) }
{}

/// Minimax approval voting elects exactly the committees that no other one of their size beats: none is nearer to the
/// ballot that is farthest from it (Lackner and Skowron, the same book).
pub fn elects_the_nearest()
    ensures { (e : Election) (k : ℕ) (committee : List ℕ) → IsElection e
        → Contains (winners (closeness e.m e.rows) e.m k) committee
        ↔ (IsIncreasing 1 e.m committee × (length committee ≡ k) × ((other : List ℕ) → IsIncreasing 1 e.m other
        → length other ≡ k → greatest_distance e.rows committee ≤ greatest_distance e.rows other)) }
{}
