//! The votes of parties, from ballots that each approve at most one party.
ghost use Rattle.std.specs.Prelude.{◌≡◌, IfSome, None, true, false};
ghost use Rattle.vote_cli.specs.Parties.{has_many_approved, party_votes};

use arrayvec::ArrayVec;
use ballot_base::Profile;
use seat_share::MOST_PARTIES;
use std::alloc::Allocator;

/// The votes of the candidates as parties, in their order. A voter counts for the candidate that the ballot approves,
/// and an empty ballot counts for none. Returns `None` if a ballot approves two or more. It takes no memory.
pub(crate) fn votes_of<A: Allocator + Copy>(
    profile: &Profile<A>,
) -> Option<ArrayVec<u64, MOST_PARTIES>>
    ensures none { result ≡ None → has_many_approved profile.now ≡ true }
    ensures some { IfSome result (λ votes.
        (has_many_approved profile.now ≡ false) × (votes.items ≡ party_votes profile.now)) }
{
    let mut votes = [0; MOST_PARTIES];
    for (ballot, voters) in profile.ballots() {
        if ballot.len() > 1 {
            return None;
        }
        if let Some(parts) = ballot.split_first() {
            votes[usize::from(parts.0) - 1] += voters;
        }
    }
    let mut votes = ArrayVec::from(votes);
    votes.truncate(usize::from(profile.m()));
    Some(votes)
}
