//! How many prefixes the walk enters: against live prefixes counted by their definition, and in elections worked out by
//! hand.
ghost use Rattle.std.specs.Prelude.{◌≡◌, ◌≤◌};
ghost use Rattle.ballot_base.specs.Limits.{most_candidates};
ghost use Rattle.tie_walk.specs.Winners.{IsStart};

use super::super::support::{
    Counting, Draw, assert_after, assert_of, ballot_of, committee_of, election_of, random_ballots,
};
use ballot_base::{CandSet, KSets, MOST_CANDIDATES, Profile, ThieleRule};
use std::process::Abort;
use tie_walk::{ApprovalTally, MinimaxTally, SavTally, Tally, ThieleTally, Winners};

/// Asserts that only the first 20 of 40 candidates win, by a walk over 41 prefixes, and at most 10,000 calls in all.
fn assert_few_calls<T: Tally>(rt: &impl Abort, tally: &T)
    requires { T.candidates tally.now ≡ 40 }
{
    let counting = Counting::new(tally);
    let mut winners = Winners::new(&counting, 40, 20, None);
    let is_only = winners.next() == Some(CandSet::all(20)) && winners.next().is_none();
    assert!(rt; is_only, "the first 20 win");
    let (entered, calls) = (winners.entered(), counting.calls());
    let is_few = entered == 41 && calls <= 10_000;
    assert_of(rt, is_few, "prefixes, calls", entered, calls as u128);
}

/// Of 40 candidates a voter approves the first 20, who win 20 seats.
#[test]
fn twenty_of_forty_in_few_calls(rt: HostRuntime) {
    let profile = election_of(&rt, rt.alloc(), 40, &[((1 << 20) - 1, 1)]);
    assert_few_calls(&rt, &ApprovalTally::new(&profile, 20));
    assert_few_calls(&rt, &ThieleTally::new(&profile, ThieleRule::Av, 20));
}

/// Calls for a winner. Before, at least one prefix was entered, and at most this many.
fn call_once<T: Tally>(rt: &impl Abort, winners: &mut Winners<T>, most: u128) {
    let entered = winners.entered();
    let is_within = entered >= 1 && entered <= most;
    assert_of(rt, is_within, "prefixes, most", entered, most);
    let _winner = winners.next();
}

/// How many prefixes a walk for two seats enters in four calls. It enters at least one before them, and never more than
/// these.
fn entered_in_four<T: Tally>(rt: &impl Abort, tally: &T, start: Option<CandSet>, most: u128) -> u128
    requires candidates { T.candidates tally.now ≡ 3 }
    requires start { IsStart 3 2 start }
{
    let mut winners = Winners::new(tally, 3, 2, start);
    for _ in 0..4u8 {
        call_once(rt, &mut winners, most);
    }
    winners.entered()
}

/// Two voters approve 1 and 2, and one voter 3: nine prefixes are live, and four after 1 and 3.
#[test]
fn entered_for_two_seats(rt: HostRuntime) {
    let profile = election_of(&rt, rt.alloc(), 3, &[(0b011, 2), (0b100, 1)]);
    let tally = ThieleTally::new(&profile, ThieleRule::Pav, 2);
    let start = committee_of(&rt, 3, 2, 0b101);
    let all = entered_in_four(&rt, &tally, None, 12);
    let later = entered_in_four(&rt, &tally, Some(start), 7);
    let is_right = all == 9 && later >= 4;
    assert_of(&rt, is_right, "prefixes, after 1 and 3", all, later);
}

/// Whether all beginnings of a prefix are open, whose members are the candidates 1 to c whose bit of the word is 1.
fn is_open<T: Tally>(tally: &T, m: u8, k: u8, best: u128, c: u8, word: u64) -> bool
    requires candidates { m ≡ T.candidates tally.now }
    requires most { m ≤ most_candidates }
    requires within { c ≤ m }
{
    for d in 0..c + 1 {
        let set = ballot_of(d, word);
        let len = set.len();
        if len > k || len + (m - d) < k || tally.bound(d, set, k - len) < best {
            return false;
        }
    }
    true
}

/// Whether a committee after the start, if there is one, has exactly the members of this prefix up to c.
fn is_ahead(m: u8, k: u8, start: &Option<CandSet>, c: u8, word: u64) -> bool
    requires most { m ≤ most_candidates }
    requires within { c ≤ m }
    requires fits { k ≤ m }
    requires start { IsStart m k start.now }
{
    let Some(start) = start else {
        return true;
    };
    let set = ballot_of(c, word);
    for committee in KSets::after(m, k, *start) {
        if committee.upto(c) == set {
            return true;
        }
    }
    false
}

/// How many prefixes are live after the start, if there is one.
fn count_live<T: Tally>(tally: &T, m: u8, k: u8, best: u128, start: &Option<CandSet>) -> u128
    requires candidates { m ≡ T.candidates tally.now }
    requires most { m ≤ 10 }
    requires fits { k ≤ m }
    requires start { IsStart m k start.now }
{
    let mut live = 0_u32;
    for c in 0..m + 1 {
        for word in 0..1_u64 << c {
            let counts = is_open(tally, m, k, best, c, word) && is_ahead(m, k, start, c, word);
            live = live.saturating_add(u32::from(counts));
        }
    }
    u128::from(live)
}

/// Asserts that the walk over all winners enters exactly the live prefixes, and a walk after a start few more.
fn assert_live_from<T: Tally>(rt: &impl Abort, tally: &T, m: u8, k: u8, start: Option<CandSet>)
    requires candidates { m ≡ T.candidates tally.now }
    requires most { m ≤ 10 }
    requires some { 1 ≤ k }
    requires fits { k ≤ m }
    requires start { IsStart m k start }
{
    let mut winners = Winners::new(tally, m, k, start);
    let live = count_live(tally, m, k, winners.best(), &start);
    for _winner in &mut winners {}
    let more = if start.is_some() { m } else { 0 };
    let most = live.saturating_add(u128::from(more));
    let entered = winners.entered();
    assert_after(rt, live <= entered && entered <= most, k, m, &start);
}

/// Asserts both, after each start.
fn assert_live<T: Tally>(rt: &impl Abort, tally: &T, m: u8, k: u8)
    requires candidates { m ≡ T.candidates tally.now }
    requires most { m ≤ 10 }
    requires some { 1 ≤ k }
    requires fits { k ≤ m }
{
    assert_live_from(rt, tally, m, k, None);
    for start in KSets::new(m, k) {
        assert_live_from(rt, tally, m, k, Some(start));
    }
}

/// Asserts the same under a rule of each sort.
fn assert_rules(rt: &impl Abort, profile: &Profile, m: u8, k: u8)
    requires candidates { m ≡ profile.now.m }
    requires most { m ≤ 10 }
    requires some { 1 ≤ k }
    requires fits { k ≤ m }
{
    assert_live(rt, &ThieleTally::new(profile, ThieleRule::Pav, k), m, k);
    assert_live(rt, &ApprovalTally::new(profile, k), m, k);
    assert_live(rt, &SavTally::new(profile), m, k);
    assert_live(rt, &MinimaxTally::new(profile), m, k);
}

#[test]
fn live_prefixes_of_small_elections(rt: HostRuntime) {
    let alloc = rt.alloc();
    for seed in 0..8 {
        let m = 3 + (seed % 3) as u8;
        let profile = election_of(&rt, alloc, m, &random_ballots(Draw::Few, seed, 5, 1));
        for k in 1..m + 1 {
            assert_rules(&rt, &profile, m, k);
        }
    }
}

/// Asserts that the first winners of 32 of 64 candidates are the first committees.
fn assert_first<T: Tally>(rt: &impl Abort, tally: &T)
    requires { T.candidates tally.now ≡ most_candidates }
{
    let mut winners = Winners::new(tally, MOST_CANDIDATES, 32, None);
    for committee in KSets::new(MOST_CANDIDATES, 32).take(100) {
        assert!(rt; winners.next() == Some(committee), "{committee:?}");
    }
}

/// Of 64 candidates a voter approves all: all committees of 32 tie, and the first come soon.
#[test]
fn the_first_of_all_tied_committees(rt: HostRuntime) {
    let profile = election_of(&rt, rt.alloc(), MOST_CANDIDATES, &[(u64::MAX, 1)]);
    assert_first(&rt, &SavTally::new(&profile));
}
