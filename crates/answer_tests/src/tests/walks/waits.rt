//! How many bounds the walk asks for from one winner to the next.
ghost use Rattle.std.specs.Prelude.{◌≡◌, ◌*◌, ◌≤◌};
ghost use Rattle.ballot_base.specs.Limits.{most_candidates, most_members};
ghost use Rattle.tie_walk.specs.Ceilings.{IsTight};
ghost use Rattle.tie_walk.specs.Winners.{IsStart};

use super::super::support::{Counting, Draw, assert_of, committee_of, election_of, random_ballots};
use ballot_base::{CandSet, KSets, MOST_CANDIDATES, Profile, ThieleRule};
use std::process::Abort;
use tie_walk::laws::short_waits;
use tie_walk::{ApprovalTally, MinimaxTally, SavTally, Tally, ThieleTally, Winners};

/// Asserts how many bounds were asked for before each call for a winner, for one seat and three candidates.
fn assert_bounds<T: Tally>(rt: &impl Abort, tally: &T, counts: &[u128])
    requires { T.candidates tally.now ≡ 3 }
{
    let mut winners = Winners::new(tally, 3, 1, None);
    for count in counts {
        let bounds = winners.ceilings();
        assert_of(rt, bounds == *count, "bounds, due", bounds, *count);
        let _winner = winners.next();
    }
}

/// Two voters approve 1 and 2, and one voter 3, for one seat: one bound before the first winner, three on the way down
/// to each of 1 and 2, and one that shows that 3 is not a winner. Twelve would be few.
#[test]
fn bounds_for_one_seat(rt: HostRuntime) {
    let profile = election_of(&rt, rt.alloc(), 3, &[(0b011, 2), (0b100, 1)]);
    let counts = [1, 4, 7, 8, 8];
    assert_bounds(&rt, &ApprovalTally::new(&profile, 1), &counts);
    assert_bounds(&rt, &ThieleTally::new(&profile, ThieleRule::Av, 1), &counts);
}

/// How many bounds a call for a winner asks for if no bound of the tally is too high: few, by the contracts.
fn bounds_to_the_next<T: Tally>(winners: &mut Winners<T>) -> u128
    requires { IsTight (T.value_of winners.old.tally) (T.bound_of winners.old.tally) winners.old.m winners.old.k }
    ensures { result ≤ 4 * winners.old.m }
{
    short_waits::<T>();
    let before = winners.ceilings();
    let _winner = winners.next();
    winners.ceilings() - before
}

/// How many bounds a call for the first winner asks for under approval voting.
fn bounds_of_approval(profile: &Profile, k: u8) -> u128
    requires some { 1 ≤ k }
    requires size { k ≤ most_members }
    requires fits { k ≤ profile.now.m }
    ensures { result ≤ 4 * profile.now.m }
{
    let tally = ApprovalTally::new(profile, k);
    let mut winners = Winners::new(&tally, profile.m(), k, None);
    bounds_to_the_next(&mut winners)
}

/// How many bounds a call for the first winner asks for under satisfaction approval voting.
fn bounds_of_satisfaction(profile: &Profile, k: u8) -> u128
    requires some { 1 ≤ k }
    requires fits { k ≤ profile.now.m }
    ensures { result ≤ 4 * profile.now.m }
{
    let tally = SavTally::new(profile);
    let mut winners = Winners::new(&tally, profile.m(), k, None);
    bounds_to_the_next(&mut winners)
}

/// Whether a call gives a winner, and how many bounds it asks the tally for. It has to count just these.
fn call_counted<T: Tally>(
    rt: &impl Abort,
    counting: &Counting<'_, T>,
    winners: &mut Winners<Counting<'_, T>>,
) -> (bool, u128) {
    let (before, asked) = (winners.ceilings(), counting.bounds());
    let winner = winners.next();
    let bounds = winners.ceilings().saturating_sub(before);
    let counted = u128::from(counting.bounds().saturating_sub(asked));
    assert_of(rt, bounds == counted, "bounds, counted", bounds, counted);
    (winner.is_some(), counted)
}

/// Whether a call gives a winner. It has to ask for at most four bounds for each candidate, as bounds that are never
/// too high allow.
fn gives_winner<T: Tally>(
    rt: &impl Abort,
    counting: &Counting<'_, T>,
    winners: &mut Winners<Counting<'_, T>>,
    call: u16,
) -> bool {
    let (is_found, bounds) = call_counted(rt, counting, winners);
    let is_short = bounds <= 4 * u128::from(counting.m());
    assert_of(rt, is_short, "bounds, call", bounds, call as u128);
    is_found
}

/// How many winners come in a number of calls, whose bounds are counted by a tally that answers nothing else.
fn count_with_waits<T: Tally>(
    rt: &impl Abort,
    tally: &T,
    k: u8,
    after: Option<CandSet>,
    calls: u16,
) -> u16
    requires some { 1 ≤ k }
    requires fits { k ≤ T.candidates tally.now }
    requires start { IsStart (T.candidates tally.now) k after }
{
    let counting = Counting::new(tally);
    let mut winners = Winners::new(&counting, counting.m(), k, after);
    let mut found = 0_u16;
    for call in 0..calls {
        let is_found = gives_winner(rt, &counting, &mut winners, call);
        found = found.saturating_add(u16::from(is_found));
    }
    found
}

/// Asserts that 1,000 committees of 32 come from the first on, and 1,000 after 1 to 31 and 64.
fn assert_tied<T: Tally>(rt: &impl Abort, tally: &T)
    requires { T.candidates tally.now ≡ most_candidates }
{
    let all = count_with_waits(rt, tally, 32, None, 1000);
    let start = committee_of(rt, MOST_CANDIDATES, 32, (1 << 31) - 1 | 1 << 63);
    let later = count_with_waits(rt, tally, 32, Some(start), 1000);
    let is_right = all == 1000 && later == 1000;
    assert_of(
        rt,
        is_right,
        "winners, later ones",
        all as u128,
        later as u128,
    );
}

/// Of 64 candidates a voter approves all, so that all committees of 32 tie: the first 1,000 of them, and those after 1
/// to 31 and 64.
#[test]
fn waits_for_tied_committees(rt: HostRuntime) {
    let profile = election_of(&rt, rt.alloc(), MOST_CANDIDATES, &[(u64::MAX, 1)]);
    let bounds = bounds_of_approval(&profile, 32).min(bounds_of_satisfaction(&profile, 32));
    assert!(rt; bounds >= 32, "a bound for each of 1 to 32");
    assert_tied(&rt, &ApprovalTally::new(&profile, 32));
    assert_tied(&rt, &SavTally::new(&profile));
}

/// Of 40 candidates a voter approves the first 20, who win 20 seats.
#[test]
fn waits_for_the_only_winner(rt: HostRuntime) {
    let profile = election_of(&rt, rt.alloc(), 40, &[((1 << 20) - 1, 1)]);
    let counts = [
        count_with_waits(&rt, &ApprovalTally::new(&profile, 20), 20, None, 3),
        count_with_waits(
            &rt,
            &ThieleTally::new(&profile, ThieleRule::Av, 20),
            20,
            None,
            3,
        ),
    ];
    assert!(rt; counts == [1, 1], "the only winner");
}

/// More calls than the elections below have winners of one size.
const MANY_CALLS: u16 = 100;

/// Asserts that each call for a winner after a start, or for any, up to the first that gives none, counts the bounds
/// that it asks for. Returns how many bounds were asked for and are not counted: those of the walk to the greatest
/// value.
fn uncounted<T: Tally>(rt: &impl Abort, tally: &T, k: u8, start: Option<CandSet>) -> u128
    requires some { 1 ≤ k }
    requires fits { k ≤ T.candidates tally.now }
    requires start { IsStart (T.candidates tally.now) k start }
{
    let counting = Counting::new(tally);
    let mut winners = Winners::new(&counting, counting.m(), k, start);
    for _ in 0..MANY_CALLS {
        if !call_counted(rt, &counting, &mut winners).0 {
            return u128::from(counting.bounds()).saturating_sub(winners.ceilings());
        }
    }
    panic!(rt; "winners without end");
}

/// Asserts that all bounds are counted from the start on, after each start and without one: the walk to the greatest
/// value is the same.
fn assert_counted<T: Tally>(rt: &impl Abort, tally: &T, m: u8, k: u8)
    requires candidates { m ≡ T.candidates tally.now }
    requires most { m ≤ most_candidates }
    requires some { 1 ≤ k }
    requires fits { k ≤ m }
{
    let wanted = uncounted(rt, tally, k, None);
    for start in KSets::new(m, k) {
        let bounds = uncounted(rt, tally, k, Some(start));
        assert_of(rt, bounds == wanted, "not counted, wanted", bounds, wanted);
    }
}

/// Asserts the same under every rule.
fn assert_rules(rt: &impl Abort, profile: &Profile, m: u8, k: u8)
    requires candidates { m ≡ profile.now.m }
    requires most { m ≤ most_members }
    requires some { 1 ≤ k }
    requires fits { k ≤ m }
{
    for rule in &ThieleRule::ALL {
        assert_counted(rt, &ThieleTally::new(profile, *rule, k), m, k);
    }
    assert_counted(rt, &ApprovalTally::new(profile, k), m, k);
    assert_counted(rt, &SavTally::new(profile), m, k);
    assert_counted(rt, &MinimaxTally::new(profile), m, k);
}

#[test]
fn bounds_of_small_elections(rt: HostRuntime) {
    let draws = [Draw::Few, Draw::Many, Draw::Neighbours, Draw::Alike];
    for seed in 0..16_u8 {
        let m = 3 + seed / 4;
        let ballots = random_ballots(draws[usize::from(seed % 4)], u64::from(seed), 5, 1);
        let profile = election_of(&rt, rt.alloc(), m, &ballots);
        for k in 1..m + 1 {
            assert_rules(&rt, &profile, m, k);
        }
    }
}
