//! A node of a search.
ghost use Rattle.std.specs.Prelude.{◌≡◌, ◌-◌, ◌≤◌};
ghost use Rattle.ballot_base.specs.CandSet.{with_member, without_member};
ghost use Rattle.ballot_base.specs.Limits.{most_candidates};

use ballot_base::CandSet;

/// A set that may become a committee, the candidates that are free to join it, and how many of them join.
#[derive(Clone, Copy, Default)]
pub struct Node {
    pub set: CandSet,
    pub free: CandSet,
    pub left: u8,
}

impl Node {
    /// The node after a free candidate has joined.
    pub fn child(&self, next: u8) -> Node
        requires low { 1 ≤ next }
        requires high { next ≤ most_candidates }
        requires some { 1 ≤ self.now.left }
        ensures set { result.set ≡ with_member self.now.set next }
        ensures free { result.free ≡ without_member self.now.free next }
        ensures left { result.left ≡ self.now.left - 1 }
    {
        Node {
            set: self.set.with(next),
            free: self.free.without(next),
            left: self.left - 1,
        }
    }
}
