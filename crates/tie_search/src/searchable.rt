//! What can be searched.
ghost use Rattle.std.specs.Prelude.{◌≡◌, ℕ, ◌≤◌, List, MatchOption, ⊤, length};
ghost use Rattle.ballot_base.specs.Limits.{most_candidates};
ghost use Rattle.ballot_base.specs.Lists.{IsIncreasing};
ghost use Rattle.row_multipliers.specs.Completions.{Finds, IsNode};
ghost use Rattle.tie_search.specs.Alike.{AreAlike, AreClasses, HasClasses};
ghost use Rattle.tie_search.specs.Tied.{AreReaching, AreTied};

use crate::found::{Committees, Tied};
use ballot_base::{CandSet, Clones};
use row_multipliers::Node;
use tie_walk::Tally;

/// Values of committees, and which candidates are clones.
pub trait WithClones: Tally {
    // The clones of each candidate.
    ghost class_of: { Self → ℕ → List ℕ };

    /// The clones of each candidate. If one of them takes its place, a committee keeps its value.
    fn clones(&self) -> &Clones
        ensures table { HasClasses (Self.candidates self.now) (Self.class_of self.now) result.now }
        ensures rise { (c : ℕ) → 1 ≤ c → c ≤ Self.candidates self.now
            → IsIncreasing 1 (Self.candidates self.now) (Self.class_of self.now c) }
        ensures classes { AreClasses (Self.candidates self.now) (Self.class_of self.now) }
        ensures alike { AreAlike (Self.value_of self.now) (Self.candidates self.now) (Self.class_of self.now) }
        ensures most { Self.candidates self.now ≤ most_candidates };
}

/// Values of committees. A committee of at least a given value can be searched for.
pub trait Searchable: WithClones {
    /// A good committee of `k` to begin with. Any committee works; the better it is, the less is searched.
    fn good_committee(&self, k: u8) -> Option<CandSet>
        requires some { 1 ≤ k }
        requires fits { k ≤ Self.candidates self.now }
        ensures { MatchOption result ⊤ (λ set. IsIncreasing 1 (Self.candidates self.now) set × (length set ≡ k)) };

    /// Finds a committee that completes a node and whose value is at least `least`. Returns `None` if there is none.
    fn find(&self, node: &Node, least: u128) -> Option<CandSet>
        requires is_node { IsNode (Self.candidates self.now) node.now.set node.now.free }
        ensures { Finds (Self.value_of self.now) (Self.candidates self.now) node.now least result };

    /// Lists the committees of `k` with the highest value, each once, or returns one of them if there are more than
    /// `MOST_TIED`. Every other one becomes a listed one if clones take the place of members. Returns `None` if they
    /// are left to `find`, as for a rule under which too many tie in most elections.
    fn tied(&self, k: u8) -> Option<Tied>
        requires some { 1 ≤ k }
        requires fits { k ≤ Self.candidates self.now }
        ensures { MatchOption result ⊤
            (AreTied (Self.value_of self.now) (Self.class_of self.now) (Self.candidates self.now) k) };

    /// Lists the committees that complete a node and are worth at least `least`, each once. Every other one becomes a
    /// listed one if clones take the place of members. Returns `None` if there are more than `MOST_TIED`, or they are
    /// not looked for, as it would take too long.
    fn completions(&self, node: &Node, least: u128) -> Option<Committees>
        requires is_node { IsNode (Self.candidates self.now) node.now.set node.now.free }
        ensures { MatchOption result ⊤ (λ committees. AreReaching (Self.value_of self.now) (Self.class_of self.now)
            (Self.candidates self.now) node.now least committees.items) }
    {
        None
    }
}
