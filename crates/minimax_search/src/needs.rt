//! Hits that ballots need so that none is far from a committee.
ghost use Rattle.std.specs.Prelude.{◌≡◌, ◌+◌, ◌-◌, length};
ghost use Rattle.ballot_base.specs.Ballots.{hits};
ghost use Rattle.ballot_base.specs.Limits.{most_candidates};
ghost use Rattle.ballot_base.specs.Lists.{IsIncreasing};
ghost use Rattle.minimax_search.specs.Needs.{hits_needed};

use ballot_base::CandSet;
use row_multipliers::Node;

/// The number of hits that the ballot still needs at a node, so that it is no farther than `most` from a committee that
/// completes the set. Counting a distance takes less time than counting a size and hits.
pub(crate) fn still_needed(ballot: CandSet, node: &Node, most: u8) -> u8
    requires ballot { IsIncreasing 1 most_candidates ballot }
    requires set { IsIncreasing 1 most_candidates node.now.set }
    ensures { result ≡ hits_needed (length ballot) (length node.now.set + node.now.left) most
        - hits ballot node.now.set }
{
    // If no more hits come, the distance is the farthest. Each hit makes it less by two.
    let farthest = u16::from(ballot.distance(node.set)) + u16::from(node.left);
    let most = u16::from(most);
    // So it is with most ballots. Without this, small elections took a tenth more instructions.
    if farthest <= most {
        return 0;
    }
    let excess = farthest - most;
    (excess / 2 + excess % 2) as u8
}
