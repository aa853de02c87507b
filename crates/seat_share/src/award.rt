//! Gives seats one after another, each to a party with the highest claim to one more, and finds the ties for the last
//! of them.
//!
//! The last claim that was met is a threshold. Seats that a party claims above it are certain; parties that claim a
//! seat exactly there are tied. `proofs/Threshold.antt` has the theorem behind this, for allocations of all seats. In
//! such an allocation, no party has a claim to another's seat exactly if each party has its certain seats and some tied
//! ones have one more. `proofs/QuotaLemmas.antt` has the same theorem for Hamilton's remainders.
ghost use Rattle.std.specs.Prelude.{◌≡◌, ◌+◌, ◌≤◌, ◌<◌, ◌++◌, ◌∷◌, ℕ, List, [], length, sum, cond, true, false, Some};
ghost use Rattle.std.specs.List.{AllByRecursion};
ghost use Rattle.seat_share.specs.Limits.{most_parties, most_votes};
ghost use Rattle.seat_share.specs.Quotients.{Quotient};
ghost use Rattle.seat_share.specs.Steps.Claims.{claim};
ghost use Rattle.seat_share.specs.Steps.Standings.{AllKeep, AllStand, AreWithin, IsGreatest, Keeps, Stands};
ghost use Rattle.seat_share.specs.Steps.Standings.{votes_of, seats_of, tied_count};

use crate::claims::{Contest, Quotient};
use crate::party::Party;

/// A party, by its place, and its claim to one more seat.
#[derive(Clone, Copy)]
struct Claimant {
    place: usize,
    quotient: Quotient,
}

/// A party with the highest claim to one more seat; `None` if no party has votes.
fn first_claimant(contest: Contest, parties: &[Party]) -> Option<Claimant>
    requires { AreWithin contest.seats parties.now }
    ensures greatest { IsGreatest (claim contest.method contest.votes contest.seats) parties.now result }
{
    let mut best = None;
    for place in 0..parties.len() {
        let party = parties[place];
        if party.votes > 0 {
            let quotient = contest.claim(party.votes, party.seats);
            best = Some(greater(best, Claimant { place, quotient }));
        }
    }
    best
}

/// The one with the higher claim; on equality the best so far.
fn greater(best: Option<Claimant>, later: Claimant) -> Claimant
    ensures { (claims : ℕ → ℕ → Quotient) (before : List Party) (c : Party) →
        length before ≡ later.place → 0 < c.votes → later.quotient ≡ claims c.votes c.seats →
        IsGreatest claims before best → IsGreatest claims (before ++ c ∷ []) (Some result) }
{
    match best {
        Some(first) if first.quotient.is_at_least(later.quotient) => first,
        _ => later,
    }
}

/// Gives all seats, one after the other, each to a party with the highest claim to one more. Returns the last claim
/// that was met.
pub(crate) fn award(contest: Contest, parties: &mut [Party]) -> Quotient
    requires votes { AllByRecursion (λ c. c.votes ≤ most_votes) parties.old }
    requires fresh { AllByRecursion (λ c. c.seats ≡ 0) parties.old }
    requires total { contest.votes ≡ sum (votes_of parties.old) }
    requires some { 0 < contest.votes }
    ensures kept { let claims = claim contest.method contest.votes contest.seats in
        AllKeep claims contest.seats result parties.new }
    ensures votes { votes_of parties.new ≡ votes_of parties.old }
    ensures seats { seats_of parties.new ≡ contest.seats }
    ensures within { AreWithin contest.seats parties.new }
{
    let mut low = Quotient::greatest();
    for _given in 0..contest.seats {
        match first_claimant(contest, parties) {
            Some(first) => {
                parties[first.place].seats += 1;
                low = first.quotient;
            }
            None => unreachable!(),
        }
    }
    low
}

/// Takes back the seats that were met exactly at the threshold, and marks the parties that are tied there. Returns the
/// number of seats that were taken back.
pub(crate) fn settle(contest: Contest, low: Quotient, parties: &mut [Party]) -> usize
    requires few { length parties.old ≤ most_parties }
    requires within { AreWithin contest.seats parties.old }
    requires some { 0 < contest.votes }
    requires kept { let claims = claim contest.method contest.votes contest.seats in
        AllKeep claims contest.seats low parties.old }
    ensures stand { let claims = claim contest.method contest.votes contest.seats in
        AllStand claims contest.seats low parties.new }
    ensures votes { votes_of parties.new ≡ votes_of parties.old }
    ensures seats { seats_of parties.new + result ≡ seats_of parties.old }
    ensures ties { result ≤ tied_count parties.new }
{
    let Some((first, rest)) = parties.split_first_mut() else {
        return 0;
    };
    settle(contest, low, rest) + settle_party(contest, low, first)
}

/// Takes back the party's last seat if it was met exactly at the threshold, and marks the party if it is tied there.
/// Returns the number of seats that were taken back.
fn settle_party(contest: Contest, low: Quotient, party: &mut Party) -> usize
    requires within { (party.old.votes ≤ most_votes) × (party.old.seats ≤ contest.seats) }
    requires some { 0 < contest.votes }
    requires kept { let claims = claim contest.method contest.votes contest.seats in
        Keeps claims contest.seats low party.old.votes party.old.seats }
    ensures stands { let claims = claim contest.method contest.votes contest.seats in
        Stands claims contest.seats low party.new.votes party.new.seats party.new.is_tied }
    ensures votes { party.new.votes ≡ party.old.votes }
    ensures seats { party.new.seats + result ≡ party.old.seats }
    ensures tie { result ≤ cond party.new.is_tied 1 0 }
{
    if party.votes == 0 {
        party.is_tied = false;
        return 0;
    }
    if party.seats > 0 && low.is_at_least(contest.claim(party.votes, party.seats - 1)) {
        party.seats -= 1;
        party.is_tied = true;
        return 1;
    }
    party.is_tied = contest.claim(party.votes, party.seats).is_at_least(low);
    0
}
