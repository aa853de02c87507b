//! Elections with clones: against a plain walk, against D'Hondt's method, and large ones that have to end.
ghost use Rattle.std.specs.Prelude.{Some, ◌≡◌, ◌≤◌};
ghost use Rattle.ballot_base.specs.Limits.{most_candidates, most_members};
ghost use Rattle.tie_walk.specs.Winners.{IsStart};

use super::searches::assert_all_same;
use super::support::{
    CountedSearch, Draw, assert_of, ballot_of, election_of, first_committee, random_ballots,
    search_of,
};
use ballot_base::{CandSet, Profile, ThieleRule};
use seat_share::{Method, Shares};
use std::alloc::Global;
use std::cell::Cell;
use std::process::Abort;
use tie_search::{SearchWinners, Searchable, Tied};

/// More winners than any of these elections has.
const MOST_COUNTED: usize = 100_000;

/// Parties of candidates with the same supporters, and the seats to fill.
#[derive(Clone, Copy)]
struct Lists<'a> {
    /// The candidates of each party.
    size: u8,
    /// The voters of each party.
    votes: &'a [u64],
    seats: u8,
}

/// The bits of the candidates of a party: those of one follow those of another.
fn party_word(size: u8, party: usize) -> u64 {
    let mut word = 0;
    for n in 0..usize::from(size) {
        word |= 1 << (party.wrapping_mul(usize::from(size)).wrapping_add(n) % 64);
    }
    word
}

impl Lists<'_> {
    /// The number of candidates, at most 64.
    fn candidates(self) -> u8
        ensures least { 1 ≤ result }
        ensures most { result ≤ most_candidates }
    {
        let all = usize::from(self.size).saturating_mul(self.votes.len());
        u8::try_from(all).unwrap_or(64).clamp(1, 64)
    }

    /// The election in which each voter approves the candidates of one party.
    fn election(self, rt: &impl Abort, alloc: Global) -> Profile {
        let mut ballots = Vec::new(alloc);
        for party in 0..self.votes.len() {
            let ballot = (party_word(self.size, party), self.votes[party]);
            ballots.push(ballot).expect(rt, "memory");
        }
        election_of(rt, alloc, self.candidates(), &ballots)
    }

    /// The seats that a committee gives a party.
    fn seats_of(self, committee: CandSet, party: usize) -> u16 {
        let members = ballot_of(self.candidates(), party_word(self.size, party));
        u16::from(committee.common(members).len())
    }

    /// Whether a committee gives the parties these seats.
    fn gives(self, committee: CandSet, seats: &[u16]) -> bool {
        for party in 0..seats.len() {
            if self.seats_of(committee, party) != seats[party] {
                return false;
            }
        }
        true
    }

    /// How many committees give the parties these seats.
    fn committees(self, seats: &[u16]) -> u64 {
        let mut count: u64 = 1;
        for seats in seats {
            count = count.wrapping_mul(choices(u64::from(self.size), u64::from(*seats)));
        }
        count
    }
}

/// How many choices of `k` of `n` candidates there are.
fn choices(n: u64, k: u64) -> u64 {
    let mut count: u64 = 1;
    for i in 0..k {
        count = count.wrapping_mul(n.saturating_sub(i)) / (i + 1);
    }
    count
}

/// A committee size that fits.
fn fitting(seats: u8, m: u8) -> u8
    requires { 1 ≤ m }
    ensures least { 1 ≤ result }
    ensures most { result ≤ most_members }
    ensures fits { result ≤ m }
{
    seats.clamp(1, 40).min(m)
}

/// The winners of a search after a start, or all of them. The search is lent, and can be asked for others afterwards.
fn winners_of<'a, S: Searchable>(
    search: &'a S,
    finds: &'a Cell<u64>,
    k: u8,
    start: Option<CandSet>,
) -> SearchWinners<CountedSearch<'a, S>>
    requires some { 1 ≤ k }
    requires fits { k ≤ S.candidates search.now }
    requires start { IsStart (S.candidates search.now) k start }
{
    SearchWinners::new(CountedSearch::all(search, finds), k, start)
}

/// Asserts that all committees that give the parties these seats win, and answers how many they are.
fn assert_all_win<S: Searchable>(
    rt: &impl Abort,
    search: &S,
    k: u8,
    lists: Lists<'_>,
    seats: &[u16],
) -> u64
    requires some { 1 ≤ k }
    requires fits { k ≤ S.candidates search.now }
{
    let finds = Cell::new(0);
    let mut found: u64 = 0;
    for committee in winners_of(search, &finds, k, None) {
        found = found.wrapping_add(u64::from(lists.gives(committee, seats)));
    }
    let wanted = lists.committees(seats);
    assert!(rt; found == wanted, "{seats:?}: {found} of {wanted}");
    found
}

/// How many winners there are.
fn count_winners<S: Searchable>(search: &S, k: u8) -> u64
    requires some { 1 ≤ k }
    requires fits { k ≤ S.candidates search.now }
{
    let finds = Cell::new(0);
    winners_of(search, &finds, k, None)
        .take(MOST_COUNTED)
        .count() as u64
}

/// Asserts that the winners of a search are exactly all choices of candidates for each of D'Hondt's allocations.
fn assert_choices<S: Searchable>(rt: &impl Abort, search: &S, k: u8, lists: Lists<'_>)
    requires some { 1 ≤ k }
    requires fits { k ≤ S.candidates search.now }
{
    let seats = u16::from(lists.seats);
    let allocations = Shares::new(lists.votes, Method::Dhondt, seats, None);
    let mut all = 0;
    for allocation in allocations.expect(rt, "allocations") {
        let found = assert_all_win(rt, search, k, lists, allocation.seats());
        all = found.wrapping_add(all);
    }
    let count = count_winners(search, k);
    let is_all = count == all;
    assert_of(rt, is_all, "winners, seats", count as u128, seats as u128);
}

/// Asserts that the winners by `pav` are as D'Hondt's method shares out the seats.
fn assert_as_dhondt(rt: &impl Abort, alloc: Global, lists: Lists<'_>) {
    let profile = lists.election(rt, alloc);
    let k = fitting(lists.seats, profile.m());
    let search = search_of(rt, alloc, &profile, ThieleRule::Pav, k);
    assert_choices(rt, &search, k, lists);
}

/// The candidates of each party, the voters of each, and the seats.
static PARTIES: [(u8, &[u64], u8); 7] = [
    (4, &[1, 1, 1], 5),
    (3, &[53, 24, 23], 4),
    (5, &[2, 1], 4),
    (2, &[3, 3, 2, 2], 3),
    (4, &[6, 3, 2], 6),
    (1, &[5, 5, 5, 1], 2),
    (6, &[7, 5], 7),
];

#[test]
fn parties_as_by_dhondt(rt: HostRuntime) {
    for (size, votes, seats) in &PARTIES {
        let lists = Lists {
            size: *size,
            votes: *votes,
            seats: *seats,
        };
        assert_as_dhondt(&rt, rt.alloc(), lists);
    }
}

/// A ballot over classes of clones. The word has a bit for each class.
fn spread(sizes: &[u8], word: u64) -> u64 {
    let mut ballot = 0;
    let mut place: u32 = 0;
    for class in 0..sizes.len() {
        for _ in 0..sizes[class] {
            ballot |= (word >> (class % 64) & 1) << (place % 64);
            place = place.wrapping_add(1);
        }
    }
    ballot
}

/// An election of eight candidates in classes of these sizes, whose ballots the seed decides.
fn election_of_classes(rt: &impl Abort, alloc: Global, sizes: &[u8], seed: u64) -> Profile
    ensures { result.m ≡ 8 }
{
    let mut ballots = random_ballots(Draw::Few, seed, 9, 1);
    for i in 0..ballots.len() {
        ballots[i].0 = spread(sizes, ballots[i].0);
    }
    election_of(rt, alloc, 8, &ballots)
}

/// The sizes of classes of clones.
static CLASSES: [&[u8]; 6] = [
    &[1, 2, 3],
    &[2, 2, 2, 1],
    &[4, 1, 3],
    &[6, 2],
    &[1, 1, 1, 5],
    &[2, 1, 2, 1, 2],
];

#[test]
fn random_classes(rt: HostRuntime) {
    for sizes in &CLASSES {
        for seed in 1..6 {
            let profile = election_of_classes(&rt, rt.alloc(), sizes, seed);
            assert_all_same(&rt, rt.alloc(), &profile);
        }
    }
}

/// Asserts that no winner is searched for if a list has all that tie, up to exchanges of clones. No clause says so.
fn assert_not_searched<S: Searchable>(rt: &impl Abort, search: &S, k: u8)
    requires some { 1 ≤ k }
    requires fits { k ≤ S.candidates search.now }
{
    if !matches!(search.tied(k), Some(Tied::Listed(_))) {
        return;
    }
    let finds = Cell::new(0);
    let counted = CountedSearch::all(search, &finds);
    let count = SearchWinners::new(counted, k, None)
        .take(MOST_COUNTED)
        .count();
    assert_of(
        rt,
        finds.get() == 0,
        "searches, winners",
        finds.get() as u128,
        count as u128,
    );
}

#[test]
fn listed_winners_are_not_searched_for(rt: HostRuntime) {
    for sizes in &CLASSES {
        for seed in 1..6 {
            let profile = election_of_classes(&rt, rt.alloc(), sizes, seed);
            let k = fitting(4, profile.m());
            let search = search_of(&rt, rt.alloc(), &profile, ThieleRule::Geom3, k);
            assert_not_searched(&rt, &search, k);
        }
    }
}

/// A committee of k of the candidates 1 to m that are next to each other, from candidate 2 on if there are enough.
fn second_committee(m: u8, k: u8) -> CandSet
    requires most { m ≤ most_candidates }
    requires fits { k ≤ m }
    ensures { IsStart m k (Some result) }
{
    let mut word = 0;
    for n in 1..=k {
        word |= 1 << (usize::from(n) % 64);
    }
    let second = ballot_of(m, word);
    if second.len() == k {
        return second;
    }
    first_committee(m, k)
}

/// Asserts that 1,000 winners come.
fn assert_thousand<S: Searchable + Drop>(rt: &impl Abort, winners: SearchWinners<S>, k: u8) {
    let found = winners.take(1000).count();
    assert_of(
        rt,
        found == 1000,
        "winners, seats",
        found as u128,
        k as u128,
    );
}

/// Asserts that the first 1,000 winners of a search come, and 1,000 after a start.
fn assert_thousands<S: Searchable>(rt: &impl Abort, search: &S, k: u8, start: CandSet)
    requires some { 1 ≤ k }
    requires fits { k ≤ S.candidates search.now }
    requires start { IsStart (S.candidates search.now) k (Some start) }
{
    let finds = Cell::new(0);
    assert_thousand(rt, winners_of(search, &finds, k, None), k);
    assert_thousand(rt, winners_of(search, &finds, k, Some(start)), k);
}

/// Asserts that the first 1,000 winners of an election come, and 1,000 after a start.
fn assert_ends(rt: &impl Abort, alloc: Global, rule: ThieleRule, lists: Lists<'_>) {
    let profile = lists.election(rt, alloc);
    let k = fitting(lists.seats, profile.m());
    let search = search_of(rt, alloc, &profile, rule, k);
    let start = second_committee(profile.m(), k);
    assert_thousands(rt, &search, k, start);
}

/// The rules, the candidates of each party, the voters of each, and the seats.
static LARGE: [(ThieleRule, u8, &[u64], u8); 8] = [
    (ThieleRule::Pav, 12, &[1, 1, 1], 12),
    (ThieleRule::Pav, 12, &[53, 24, 23, 11, 7], 20),
    (ThieleRule::Geom2, 12, &[53, 24, 23, 11, 7], 20),
    (ThieleRule::Geom4, 12, &[53, 24, 23, 11, 7], 20),
    (ThieleRule::Geom3, 64, &[1], 40),
    (ThieleRule::Pav, 40, &[1], 31),
    (ThieleRule::Cc, 8, &[1, 1, 1, 1, 1, 1, 1, 1], 20),
    (ThieleRule::Pav, 32, &[3, 2], 40),
];

/// Small files over which a search without clones does not end in a minute.
#[test]
fn party_lists_end(rt: HostRuntime) {
    for (rule, size, votes, seats) in &LARGE {
        let lists = Lists {
            size: *size,
            votes: *votes,
            seats: *seats,
        };
        assert_ends(&rt, rt.alloc(), *rule, lists);
    }
}

/// More searches than the first 1,000 winners ask for. With one for each clone there would be thousands.
const MANY_SEARCHES: u64 = 500;

/// Asserts that the first 1,000 winners ask for few searches if no tied committees are listed. No clause says so.
fn assert_few<S: Searchable>(rt: &impl Abort, search: &S, k: u8)
    requires some { 1 ≤ k }
    requires fits { k ≤ S.candidates search.now }
{
    let finds = Cell::new(0);
    let counted = CountedSearch::new(search, &finds, false);
    assert_thousand(rt, SearchWinners::new(counted, k, None), k);
    let count = finds.get();
    assert!(rt; count < MANY_SEARCHES, "{count} searches");
}

/// Asserts the same of an election of parties.
fn assert_few_searches(rt: &impl Abort, alloc: Global, lists: Lists<'_>) {
    let profile = lists.election(rt, alloc);
    let k = fitting(lists.seats, profile.m());
    let search = search_of(rt, alloc, &profile, ThieleRule::Geom3, k);
    assert_few(rt, &search, k);
}

/// The candidates of each party, the voters of each, and the seats.
static SEARCHED: [(u8, &[u64], u8); 2] = [
    (12, &[53, 24, 23, 11, 7], 20),
    (16, &[9, 60, 1, 20], 30),
];

#[test]
fn party_lists_ask_for_few_searches(rt: HostRuntime) {
    for (size, votes, seats) in &SEARCHED {
        let lists = Lists {
            size: *size,
            votes: *votes,
            seats: *seats,
        };
        assert_few_searches(&rt, rt.alloc(), lists);
    }
}
