//! Winners by search after each start: against a plain list, with a count of the questions and of the sets that are
//! entered. No clause says that a question is a search, nor how many sets are entered after a start, but for a bound.
ghost use Rattle.std.specs.Prelude.{◌≡◌, ◌≤◌};
ghost use Rattle.ballot_base.specs.Limits.{most_candidates, most_members};
ghost use Rattle.tie_walk.specs.Winners.{IsStart};

use super::support::{
    CountedSearch, Draw, assert_after, assert_of, election_of, minimax_of, plain_best,
    random_ballots, search_of,
};
use ballot_base::{CandSet, KSets, MOST_CANDIDATES, MOST_MEMBERS, Profile, ThieleRule};
use std::alloc::Global;
use std::cell::Cell;
use std::process::Abort;
use tie_search::{SearchWinners, Searchable};
use tie_walk::Tally;

/// The next winner. The call has to search exactly as often as `questions` counts, and at most `most` times.
fn next_counted<S: Searchable>(
    rt: &impl Abort,
    winners: &mut SearchWinners<CountedSearch<'_, S>>,
    finds: &Cell<u64>,
    most: u8,
) -> Option<CandSet> {
    let (asked, found) = (winners.questions(), finds.get());
    let winner = winners.next();
    let questions = winners.questions().saturating_sub(asked);
    let searches = u128::from(finds.get().saturating_sub(found));
    let is_right = questions == searches && searches <= u128::from(most);
    assert_of(rt, is_right, "questions, searches", questions, searches);
    winner
}

/// How many beginnings of a committee, its first 1, 2 and more members, the committee before it does not have. In
/// lexicographic order no earlier one has them either.
fn new_beginnings(committee: CandSet, before: &Option<CandSet>) -> u128 {
    let Some(before) = before else {
        return u128::from(committee.len());
    };
    let mut count: u128 = 0;
    for n in 1..MOST_CANDIDATES + 1 {
        let is_new = committee.has(n) && committee.upto(n) != before.upto(n);
        count = count.saturating_add(u128::from(is_new));
    }
    count
}

/// Whether a committee is later than the start, if there is one.
fn is_later(committee: CandSet, start: &Option<CandSet>) -> bool {
    match start {
        Some(start) => committee.cmp_lex(*start).is_gt(),
        None => true,
    }
}

/// Asserts that the winners after a start, or all of them, are those in the list of all committees. The sets that are
/// entered are at any time the different beginnings of the winners so far, but for those of the start.
fn assert_listed<S: Searchable>(rt: &impl Abort, search: &S, k: u8, start: Option<CandSet>)
    requires some { 1 ≤ k }
    requires fits { k ≤ S.candidates search.now }
    requires start { IsStart (S.candidates search.now) k start }
{
    let m = search.m();
    let best = plain_best(search, m, k);
    let finds = Cell::new(0);
    let mut winners = SearchWinners::new(CountedSearch::all(search, &finds), k, start);
    assert_after(rt, winners.best() == best, k, m, &start);
    let mut before = start;
    let mut beginnings: u128 = 0;
    for committee in KSets::new(m, k) {
        if search.value(committee) == best && is_later(committee, &start) {
            let winner = next_counted(rt, &mut winners, &finds, m + k);
            beginnings = beginnings.saturating_add(new_beginnings(committee, &before));
            let is_next = winner == Some(committee) && winners.entered() == beginnings;
            assert_after(rt, is_next, k, m, &start);
            before = Some(committee);
        }
    }
    let winner = next_counted(rt, &mut winners, &finds, m + k);
    let is_end = winner.is_none() && winners.entered() == beginnings;
    assert_after(rt, is_end, k, m, &start);
}

/// Asserts the same after each start, and without one.
fn assert_starts<S: Searchable>(rt: &impl Abort, search: &S, m: u8, k: u8)
    requires candidates { m ≡ S.candidates search.now }
    requires most { m ≤ most_candidates }
    requires some { 1 ≤ k }
    requires fits { k ≤ m }
{
    assert_listed(rt, search, k, None);
    for start in KSets::new(m, k) {
        assert_listed(rt, search, k, Some(start));
    }
}

/// Asserts the same with a list of tied committees, if the search makes one, and without.
fn assert_asked<S: Searchable>(rt: &impl Abort, search: &S, k: u8)
    requires some { 1 ≤ k }
    requires fits { k ≤ S.candidates search.now }
{
    let m = search.m();
    assert_starts(rt, search, m, k);
    let finds = Cell::new(0);
    let without_list = CountedSearch::new(search, &finds, false);
    assert_starts(rt, &without_list, m, k);
}

const RULES: [ThieleRule; 3] = [ThieleRule::Pav, ThieleRule::Cc, ThieleRule::Geom2];

/// Asserts the same under each of the rules, and under minimax.
fn assert_rules(rt: &impl Abort, alloc: Global, profile: &Profile, k: u8)
    requires some { 1 ≤ k }
    requires size { k ≤ most_members }
    requires fits { k ≤ profile.now.m }
{
    for rule in &RULES {
        assert_asked(rt, &search_of(rt, alloc, profile, *rule, k), k);
    }
    assert_asked(rt, &minimax_of(rt, alloc, profile), k);
}

/// Asserts the same of each size, in an election of m candidates, 40 at most.
fn assert_election(rt: &impl Abort, alloc: Global, m: u8, ballots: &[(u64, u64)]) {
    let profile = election_of(rt, alloc, m.clamp(1, MOST_MEMBERS), ballots);
    for k in 1..profile.m() + 1 {
        assert_rules(rt, alloc, &profile, k);
    }
}

/// Candidates and ballots, with their voters.
static GIVEN: [(u8, &[(u64, u64)]); 9] = [
    // All are clones, and all committees tie.
    (3, &[(0b111, 1)]),
    (4, &[(0, 1)]),
    // Two pairs of clones, side by side and not.
    (4, &[(0b0011, 2), (0b1100, 2)]),
    (5, &[(0b01001, 2), (0b10010, 2), (0b00100, 1)]),
    // Three clones, two and one.
    (6, &[(0b000111, 3), (0b011000, 2), (0b100000, 1)]),
    (6, &[(0b110100, 3), (0b001010, 2), (0b000001, 2)]),
    // Ties of candidates with different voters.
    (
        5,
        &[
            (0b00011, 1),
            (0b00110, 1),
            (0b01100, 1),
            (0b11000, 1),
            (0b10001, 1),
        ],
    ),
    (
        6,
        &[(0b001011, 1), (0b010110, 1), (0b101100, 1), (0b110001, 1)],
    ),
    // One committee of three wins.
    (6, &[(0b010000, 3), (0b000010, 2), (0b100000, 1)]),
];

#[test]
fn given_elections(rt: HostRuntime) {
    for (m, ballots) in &GIVEN {
        assert_election(&rt, rt.alloc(), *m, ballots);
    }
}

#[test]
fn drawn_elections(rt: HostRuntime) {
    let draws = [Draw::Few, Draw::Many, Draw::Neighbours, Draw::Alike];
    for seed in 0..16_u8 {
        let draw = draws[usize::from(seed / 4)];
        let ballots = random_ballots(draw, u64::from(seed), 5, 1);
        assert_election(&rt, rt.alloc(), 3 + seed % 4, &ballots);
    }
}

/// Asserts that 1,000 winners come, whose searches are counted.
fn assert_thousand<S: Searchable>(rt: &impl Abort, search: &S, k: u8, lists_ties: bool)
    requires some { 1 ≤ k }
    requires fits { k ≤ S.candidates search.now }
{
    let most = search.m() + k;
    let finds = Cell::new(0);
    let counted = CountedSearch::new(search, &finds, lists_ties);
    let mut winners = SearchWinners::new(counted, k, None);
    for call in 0..1000_u16 {
        let winner = next_counted(rt, &mut winners, &finds, most);
        assert_of(
            rt,
            winner.is_some(),
            "winners, seats",
            call as u128,
            k as u128,
        );
    }
}

/// Parties of 16 of 64 candidates.
const PARTIES: [(u64, u64); 4] = [
    (0xFFFF, 53),
    (0xFFFF << 16, 24),
    (0xFFFF << 32, 23),
    (0xFFFF << 48, 11),
];

/// Asserts the same of 20 of the parties' candidates under a rule.
fn assert_parties(rt: &impl Abort, alloc: Global, profile: &Profile, rule: ThieleRule)
    requires { profile.now.m ≡ most_candidates }
{
    let search = search_of(rt, alloc, profile, rule, 20);
    assert_thousand(rt, &search, 20, true);
    assert_thousand(rt, &search, 20, false);
}

#[test]
fn party_lists(rt: HostRuntime) {
    let profile = election_of(&rt, rt.alloc(), MOST_CANDIDATES, &PARTIES);
    for rule in &RULES {
        assert_parties(&rt, rt.alloc(), &profile, *rule);
    }
    assert_thousand(&rt, &minimax_of(&rt, rt.alloc(), &profile), 20, true);
}
