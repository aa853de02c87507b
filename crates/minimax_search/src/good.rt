//! A committee to begin with that is near the ballots. Members are exchanged for candidates on a farthest ballot, as
//! long as each exchange leaves fewer ballots at this distance.
//!
//! Any committee works, so nothing is proved of this one. Together with needs that are counted from one distance,
//! this beginning took 0.7 times the instructions in small elections.
ghost use Rattle.std.specs.Prelude.{◌≤◌};
ghost use Rattle.ballot_base.specs.Limits.{most_candidates};

use ballot_base::{CandSet, Profile};
use std::alloc::Allocator;

/// The maximum number of exchanges. Any number works.
const MOST_EXCHANGES: u8 = 64;

/// A committee of `k` that is near the ballots.
pub(crate) fn near_committee<A: Allocator + Copy>(profile: &Profile<A>, k: u8) -> CandSet
    requires { k ≤ most_candidates }
{
    let mut committee = CandSet::all(k);
    for _exchanged in 0..MOST_EXCHANGES {
        let Some(nearer) = exchanged(profile, committee) else {
            break;
        };
        committee = nearer;
    }
    committee
}

/// A nearer committee, with a candidate on a farthest ballot in the place of a member. Returns `None` if none is found.
fn exchanged<A: Allocator + Copy>(profile: &Profile<A>, committee: CandSet) -> Option<CandSet> {
    let farthest = Farthest::of(profile, committee);
    for member in committee.minus(farthest.ballot).members() {
        let others = committee.without(member);
        for candidate in farthest.ballot.minus(others).members() {
            let nearer = others.with(candidate);
            if farthest.is_undercut(profile, nearer) {
                return Some(nearer);
            }
        }
    }
    None
}

/// A farthest ballot from a committee, its distance, and how many different ballots have this distance.
#[derive(Clone, Copy)]
struct Farthest {
    ballot: CandSet,
    distance: u8,
    count: u64,
}

impl Farthest {
    fn of<A: Allocator + Copy>(profile: &Profile<A>, committee: CandSet) -> Farthest {
        let mut farthest = Farthest {
            ballot: committee,
            distance: 0,
            count: 0,
        };
        for (ballot, _voters) in profile.ballots() {
            let distance = ballot.distance(committee);
            if distance > farthest.distance {
                farthest = Farthest {
                    ballot,
                    distance,
                    count: 0,
                };
            }
            if distance == farthest.distance {
                farthest.count = farthest.count.saturating_add(1);
            }
        }
        farthest
    }

    /// Whether fewer ballots have this distance from another committee, and no ballot is farther.
    fn is_undercut<A: Allocator + Copy>(&self, profile: &Profile<A>, other: CandSet) -> bool {
        let mut spare = self.count;
        for (ballot, _voters) in profile.ballots() {
            let apart = ballot.distance(other);
            if apart == self.distance {
                spare = spare.saturating_sub(1);
            }
            if apart > self.distance || spare == 0 {
                return false;
            }
        }
        true
    }
}
