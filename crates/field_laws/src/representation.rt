//! Which rules represent groups of voters.
ghost use Rattle.std.specs.Prelude.{ℕ, ◌≤◌, List, Contains};
ghost use Rattle.ballot_base.specs.Limits.{most_members};
ghost use Rattle.ballot_base.specs.Ballots.{Election, IsElection, voter_count};
ghost use Rattle.tie_walk.specs.Sequences.{sequential_winners};
ghost use Rattle.tie_walk.specs.Values.{thiele_of, tally_value};
ghost use Rattle.tie_walk.specs.Winners.{winners};
ghost use Rattle.group_check.specs.Groups.{HasProperty};

use ballot_base::ThieleRule;
use group_check::Property;
use tie_walk::SeqRule;

/// If there is a voter, each winner under Chamberlin-Courant has justified representation: in every group of at least
/// n/k voters who share a candidate, some voter approves a member (Aziz, Brill, Conitzer, Elkind, Freeman and Walsh,
/// Justified Representation in Approval-Based Committee Voting, 2017).
pub fn chamberlin_courant_is_justified()
    ensures { (e : Election) (k : ℕ) (committee : List ℕ) → IsElection e → 1 ≤ voter_count e.rows
        → Contains (winners (tally_value (thiele_of e ThieleRule.Cc k)) e.m k) committee
        → HasProperty Property.Jr e committee }
{}

/// If there is a voter, each winner under sequential Chamberlin-Courant, which the source calls greedy approval voting,
/// has justified representation, whatever tied choices are made (the same paper).
pub fn sequential_chamberlin_courant_is_justified()
    ensures { (e : Election) (k : ℕ) (committee : List ℕ) → IsElection e → 1 ≤ voter_count e.rows
        → Contains (sequential_winners SeqRule.SeqCc e k) committee → HasProperty Property.Jr e committee }
{}

/// If there is a voter, each winner under proportional approval voting has all properties: EJR+ (Brill and Peters,
/// Robust and Verifiable Proportionality Axioms for Multiwinner Voting, 2023), so extended justified representation
/// (Aziz, Brill, Conitzer, Elkind, Freeman and Walsh, 2017), and so the other two.
pub fn proportional_approval_has_all()
    ensures { (e : Election) (k : ℕ) (committee : List ℕ) → IsElection e
        → 1 ≤ voter_count e.rows → k ≤ most_members
        → Contains (winners (tally_value (thiele_of e ThieleRule.Pav k)) e.m k) committee
        → (property : Property) → HasProperty property e committee }
{}
