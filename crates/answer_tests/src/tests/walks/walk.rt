//! The walk against a pass over all committees, and values of sets that are larger than a committee.
ghost use Rattle.std.specs.Prelude.{◌≡◌, ◌≤◌};
ghost use Rattle.ballot_base.specs.Limits.{most_candidates, most_members};
ghost use Rattle.ballot_base.specs.Lists.{increasing_lists, later_than};
ghost use Rattle.tie_walk.specs.Winners.{IsStart};

use super::super::support::{
    Draw, assert_after, ballot_of, election_of, plain_best, random_ballots,
};
use ballot_base::{CandSet, KSets, Profile, ThieleRule};
use std::process::Abort;
use tie_walk::{ApprovalTally, MinimaxTally, SavTally, Tally, ThieleTally, Winners};

/// The committees of k after a start, or all of them.
fn later_committees(m: u8, k: u8, start: Option<CandSet>) -> KSets
    requires most { m ≤ most_candidates }
    requires fits { k ≤ m }
    requires start { IsStart m k start }
    ensures { result ≡ later_than start (increasing_lists 1 m k) }
{
    match start {
        Some(start) => KSets::after(m, k, start),
        None => KSets::new(m, k),
    }
}

/// Asserts that the winners after a start, or all of them, are those that a pass over the committees finds.
fn assert_later<T: Tally>(rt: &impl Abort, tally: &T, k: u8, best: u128, start: Option<CandSet>)
    requires most { T.candidates tally.now ≤ most_candidates }
    requires some { 1 ≤ k }
    requires fits { k ≤ T.candidates tally.now }
    requires start { IsStart (T.candidates tally.now) k start }
{
    let m = tally.m();
    let mut winners = Winners::new(tally, m, k, start);
    assert!(rt; winners.best() == best, "the best of {k} is not {best}");
    for committee in later_committees(m, k, start) {
        if tally.value(committee) == best {
            assert_after(rt, winners.next() == Some(committee), k, m, &start);
        }
    }
    assert_after(rt, winners.next().is_none(), k, m, &start);
}

/// Asserts the same after each start, and without one.
fn assert_walks<T: Tally>(rt: &impl Abort, tally: &T, m: u8, k: u8)
    requires candidates { m ≡ T.candidates tally.now }
    requires most { m ≤ most_candidates }
    requires some { 1 ≤ k }
    requires fits { k ≤ m }
{
    let best = plain_best(tally, m, k);
    assert_later(rt, tally, k, best, None);
    for start in KSets::new(m, k) {
        assert_later(rt, tally, k, best, Some(start));
    }
}

/// Asserts the same under every rule.
fn assert_rules(rt: &impl Abort, profile: &Profile, m: u8, k: u8)
    requires candidates { m ≡ profile.now.m }
    requires most { m ≤ most_members }
    requires some { 1 ≤ k }
    requires fits { k ≤ m }
{
    for rule in &ThieleRule::ALL {
        assert_walks(rt, &ThieleTally::new(profile, *rule, k), m, k);
    }
    assert_walks(rt, &ApprovalTally::new(profile, k), m, k);
    assert_walks(rt, &SavTally::new(profile), m, k);
    assert_walks(rt, &MinimaxTally::new(profile), m, k);
}

#[test]
fn walks_over_small_elections(rt: HostRuntime) {
    let alloc = rt.alloc();
    for seed in 0..20 {
        let m = 3 + (seed % 4) as u8;
        let profile = election_of(&rt, alloc, m, &random_ballots(Draw::Few, seed, 5, 1));
        for k in 1..m + 1 {
            assert_rules(&rt, &profile, m, k);
        }
    }
}

/// Two voters approve 1, 2 and 3, and one voter only 3. For two seats, a third hit adds nothing: not to the value of
/// all three, and not to the bound of 1 and 2 with 3.
#[test]
fn approvals_past_the_last_seat(rt: HostRuntime) {
    let profile = election_of(&rt, rt.alloc(), 3, &[(0b111, 2), (0b100, 1)]);
    let tally = ApprovalTally::new(&profile, 2);
    let values = [
        tally.value(ballot_of(3, 0b011)),
        tally.value(ballot_of(3, 0b111)),
        tally.bound(2, ballot_of(2, 0b011), 1),
    ];
    assert!(rt; values == [4, 5, 5], "{values:?}");
}
