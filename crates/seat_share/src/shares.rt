//! The fair allocations, one after the other.
ghost use Rattle.std.specs.Prelude.{◌≡◌, ◌≤◌, ◌<◌, ℕ, List, length, sum, IfOk, IfErr, IfSome, Some, None};
ghost use Rattle.std.specs.List.{AllByRecursion};
ghost use Rattle.std.specs.Iterator.{YieldsFirst, item_count};
ghost use Rattle.std.specs.Option.{option_copied};
ghost use Rattle.seat_share.specs.Allocations.{allocations, later_than};
ghost use Rattle.seat_share.specs.Faults.{share_fault};
ghost use Rattle.seat_share.specs.Limits.{most_parties, most_votes};
ghost use Rattle.seat_share.specs.Steps.Standings.{IsChoosing, allocation, allocations_left, votes_of};

use crate::award::{award, settle};
use crate::claims::Contest;
use crate::limits::{MOST_PARTIES, MOST_SEATS, MOST_VOTES};
use crate::method::{Method, ShareFault};
use crate::party::{Party, advance, count_tied, place_after, place_last};
use arrayvec::ArrayVec;
use std::marker::Model;

/// The seats of each party, in the order of the parties.
#[derive(Debug, Drop)]
pub struct Allocation {
    seats: ArrayVec<u16, MOST_PARTIES>,
}

impl Model for Allocation {
    ghost use Rattle.std.specs.Prelude.{ℕ, List};

    ghost Value = { List ℕ };

    ghost view = { λ a. a.seats.items };
}

impl Allocation {
    /// The number of seats of each party, in the order in which the votes were given.
    pub fn seats(&self) -> &[u16]
        ensures { result.now ≡ self.now }
    {
        self.seats.as_slice()
    }
}

/// Iterates over the fair allocations of seats by a method, in ascending order. Contracts see the list of those still
/// to come.
#[derive(Drop)]
pub struct Shares {
    parties: ArrayVec<Party, MOST_PARTIES>,
    is_left: bool,
}

impl Model for Shares {
    ghost use Rattle.std.specs.Prelude.{ℕ, List};
    ghost use Rattle.seat_share.specs.Steps.Standings.{allocations_left, IsChoosing};

    ghost Value = { List (List ℕ) };

    ghost view = { λ s. allocations_left s.is_left s.parties.items };

    ghost invariant = { λ s. IsChoosing s.parties.items };
}

impl Shares {
    /// Shares out the seats, from 1 to [`MOST_SEATS`], among the parties with these votes. There are at most
    /// [`MOST_PARTIES`] parties, and at most [`MOST_VOTES`] votes in all. A party without votes gets no seat. A refusal
    /// is the fault of [`share_fault`].
    ///
    /// The allocations are those later than `after`, or all if `after` is `None`. `after` has a number for each party
    /// and need not be an allocation itself. Nothing is allocated, and a start costs no walk over what comes before it.
    pub fn new(
        votes: &[u64],
        method: Method,
        seats: u16,
        after: Option<&[u16]>,
    ) -> Result<Shares, ShareFault>
        ensures ok { let start = option_copied after.entry in IfOk result (λ shares.
            (share_fault votes.now seats start ≡ None)
            × (shares ≡ later_than start (allocations method votes.now seats))) }
        ensures err { IfErr result (λ fault. share_fault votes.now seats (option_copied after.entry) ≡ Some fault) }
    {
        if let Some(fault) = share_fault(votes, seats, after) {
            return Err(fault);
        }
        let contest = Contest {
            method,
            votes: total(votes) as u64,
            seats,
        };
        let mut parties = parties_with(votes);
        let is_left = choose(contest, parties.as_mut_slice(), after);
        Ok(Shares { parties, is_left })
    }
}

impl Iterator for Shares {
    type Item = Allocation;

    ghost next_gives = { YieldsFirst (λ (allocations : List (List ℕ)). allocations) };

    ghost remaining = { item_count (λ (allocations : List (List ℕ)). allocations) };

    fn next(&mut self) -> Option<Allocation> {
        if !self.is_left {
            return None;
        }
        let allocation = allocation_of(self.parties.as_slice());
        self.is_left = advance(self.parties.as_mut_slice());
        Some(allocation)
    }
}

/// The first reason, in the order of [`ShareFault`], why [`Shares::new`] refuses the votes of the parties, the number
/// of seats or the start. Returns `None` if it refuses none of them. No seats are shared out to find the reason.
pub fn share_fault(votes: &[u64], seats: u16, after: Option<&[u16]>) -> Option<ShareFault>
    ensures { result ≡ share_fault votes.now seats (option_copied after.entry) }
{
    if votes.is_empty() {
        return Some(ShareFault::NoParties);
    }
    if votes.len() > MOST_PARTIES {
        return Some(ShareFault::TooManyParties);
    }
    let total = total(votes);
    if total == 0 {
        return Some(ShareFault::NoVotes);
    }
    if total > u128::from(MOST_VOTES) {
        return Some(ShareFault::TooManyVotes);
    }
    if seats == 0 || seats > MOST_SEATS {
        return Some(ShareFault::BadSeats);
    }
    if after.is_some_and(|start| start.len() != votes.len()) {
        return Some(ShareFault::AfterLength);
    }
    None
}

fn total(votes: &[u64]) -> u128
    requires { length votes.now ≤ most_parties }
    ensures { result ≡ sum votes.now }
{
    let mut total = 0;
    for count in votes {
        total += u128::from(*count);
    }
    total
}

fn parties_with(votes: &[u64]) -> ArrayVec<Party, MOST_PARTIES>
    requires { length votes.now ≤ most_parties }
    ensures votes { votes_of result.items ≡ votes.now }
    ensures fresh { AllByRecursion (λ c. c.seats ≡ 0) result.items }
{
    let mut parties = ArrayVec::new();
    for &votes in votes {
        parties.push(Party::new(votes));
    }
    parties
}

/// Gives the parties their certain seats, and places the seats of a tie for the first allocation, or for the first that
/// is later than the start. Returns whether there is one.
fn choose(contest: Contest, parties: &mut [Party], after: Option<&[u16]>) -> bool
    requires few { length parties.old ≤ most_parties }
    requires votes { AllByRecursion (λ c. c.votes ≤ most_votes) parties.old }
    requires fresh { AllByRecursion (λ c. c.seats ≡ 0) parties.old }
    requires total { contest.votes ≡ sum (votes_of parties.old) }
    requires some { 0 < contest.votes }
    requires start { IfSome after (λ start. length start.now ≡ length parties.old) }
    ensures choices { let all = allocations contest.method (votes_of parties.old) contest.seats in
        allocations_left result parties.new ≡ later_than (option_copied after.entry) all }
    ensures valid { IsChoosing parties.new }
{
    let low = award(contest, parties);
    let more = settle(contest, low, parties);
    place_last(parties, more);
    match after {
        Some(start) => place_after(parties, count_tied(parties), more, start),
        None => true,
    }
}

fn allocation_of(parties: &[Party]) -> Allocation
    requires few { length parties.now ≤ most_parties }
    requires valid { IsChoosing parties.now }
    ensures { result ≡ allocation parties.now }
{
    let mut seats = ArrayVec::new();
    for party in parties {
        seats.push(party.next_seats());
    }
    Allocation { seats }
}
