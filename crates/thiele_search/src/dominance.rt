//! Dominance: one candidate dominates another if all supporters of the other, and further voters, approve it.
//!
//! In a committee with the other and without it, it can take the place of the other: no voter loses a hit, and some
//! voter gains one. If each hit adds something, the value rises (`proofs/DominanceLemmas.antt`). Where voters are few,
//! most candidates are dominated. Without dominance, seven voters, 58 candidates and 26 seats took more than a minute
//! under `geom4`.
ghost use Rattle.std.specs.Prelude.{◌≡◌, ℕ, ◌≤◌, true, MatchOption, ⊤};
ghost use Rattle.ballot_base.specs.CandSet.{has_member};
ghost use Rattle.ballot_base.specs.Limits.{most_members};
ghost use Rattle.tie_walk.specs.Values.{thiele_of};
ghost use Rattle.thiele_search.specs.Steps.Dominance.{IsDominance, is_follower};

use ballot_base::{CandSet, Increments, PLACES, Profile, ThieleRule};
use std::alloc::Allocator;

/// The followers of each candidate, for committees of at most `k` under a rule by which each hit adds something.
#[derive(Drop)]
pub(crate) struct Dominance {
    pub(crate) k: u8,
    // At a candidate's number, the candidates all of whose supporters approve it, itself included.
    pub(crate) followers: [CandSet; PLACES],
}

impl Dominance {
    /// Returns `None` if some hit adds nothing, as the second one does under `cc`.
    pub fn of<A: Allocator + Copy>(profile: &Profile<A>, rule: ThieleRule, k: u8) -> Option<Self>
        requires some { 1 ≤ k }
        requires size { k ≤ most_members }
        ensures { MatchOption result ⊤ (IsDominance (thiele_of profile.now rule k)) }
    {
        // No hit adds less than the last one.
        if Increments::of(rule, k).w[usize::from(k) - 1] == 0 {
            return None;
        }
        let mut followers = [CandSet::empty(); PLACES];
        for c in 1..profile.m() + 1 {
            followers[usize::from(c)] = followers_of(profile, c);
        }
        Some(Dominance { k, followers })
    }
}

/// The candidates all of whose supporters approve `c`.
fn followers_of<A: Allocator + Copy>(profile: &Profile<A>, c: u8) -> CandSet
    ensures { (d : ℕ) → has_member result d ≡ true → is_follower profile.now.rows c d ≡ true }
{
    let mut followers = CandSet::all(profile.m());
    for (ballot, _voters) in profile.ballots() {
        if !ballot.has(c) {
            followers = followers.minus(ballot);
        }
    }
    followers
}
