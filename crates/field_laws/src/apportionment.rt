//! Which rules share out seats among parties as a method of apportionment does.
ghost use Rattle.std.specs.Prelude.{ℕ, ◌≤◌, ◌↔◌, List, Contains};
ghost use Rattle.ballot_base.specs.Limits.{most_members};
ghost use Rattle.ballot_base.specs.Ballots.{Election, IsElection, voter_count};
ghost use Rattle.tie_walk.specs.Sequences.{sequential_winners};
ghost use Rattle.tie_walk.specs.Values.{thiele_of, tally_value};
ghost use Rattle.tie_walk.specs.Winners.{winners};
ghost use Rattle.field_laws.specs.PartyLists.{ArePartyLists, IsApportioned};

use ballot_base::ThieleRule;
use seat_share::Method;
use tie_walk::SeqRule;

/// If there is a voter and all ballots are party lists, proportional approval voting elects exactly the committees
/// whose seats are a fair allocation by D'Hondt's method (Brill, Laslier and Skowron, Multiwinner Approval Rules as
/// Apportionment Methods, 2018).
pub fn proportional_approval_is_dhondt()
    ensures { (e : Election) (k : ℕ) (committee : List ℕ) → IsElection e → 1 ≤ voter_count e.rows → k ≤ most_members
        → ArePartyLists k e.rows
        → Contains (winners (tally_value (thiele_of e ThieleRule.Pav k)) e.m k) committee
        ↔ IsApportioned Method.Dhondt e k committee }
{}

/// Sequential proportional approval voting makes exactly these committees too, by all tied choices together (the same
/// paper).
pub fn sequential_proportional_approval_is_dhondt()
    ensures { (e : Election) (k : ℕ) (committee : List ℕ) → IsElection e → 1 ≤ voter_count e.rows
        → ArePartyLists k e.rows
        → Contains (sequential_winners SeqRule.SeqPav e k) committee ↔ IsApportioned Method.Dhondt e k committee }
{}
