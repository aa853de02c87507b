//! Winners by search against a walk with plain ceilings.
ghost use Rattle.std.specs.Prelude.{◌≤◌};
ghost use Rattle.ballot_base.specs.Limits.{most_members};

use super::support::{Draw, assert_searched, election_of, random_ballots, search_of};
use ballot_base::{MOST_MEMBERS, Profile, ThieleRule};
use std::alloc::Global;
use std::process::Abort;
use tie_walk::ThieleTally;

/// Asserts that the search and a walk with ceilings find the same winners.
fn assert_same(rt: &impl Abort, alloc: Global, profile: &Profile, rule: ThieleRule, k: u8)
    requires some { 1 ≤ k }
    requires size { k ≤ most_members }
    requires fits { k ≤ profile.now.m }
{
    let search = search_of(rt, alloc, profile, rule, k);
    assert_searched(rt, &ThieleTally::new(profile, rule, k), &search, k);
}

/// Asserts the same under each rule, of each size.
pub(super) fn assert_all_same(rt: &impl Abort, alloc: Global, profile: &Profile)
    requires { profile.now.m ≤ most_members }
{
    let m = profile.m();
    for rule in &ThieleRule::ALL {
        for k in 1..m + 1 {
            assert_same(rt, alloc, profile, *rule, k);
        }
    }
}

/// Asserts the same of an election of m candidates, 40 at most.
fn assert_election(rt: &impl Abort, alloc: Global, m: u8, ballots: &[(u64, u64)]) {
    let profile = election_of(rt, alloc, m.clamp(1, MOST_MEMBERS), ballots);
    assert_all_same(rt, alloc, &profile);
}

/// Candidates, seeds, ballots, and by how much their voters are multiplied. The last one has 4 billion voters, too many
/// for columns.
static DRAWN: [(u8, u64, usize, u64); 6] = [
    (1, 3, 3, 1),
    (5, 3, 1, 1),
    (5, 3, 150, 1),
    (8, 3, 9, 1),
    (10, 1, 80, 1),
    (7, 2, 9, 150_000_000),
];

#[test]
fn the_same_winners(rt: HostRuntime) {
    for (m, seeds, count, times) in &DRAWN {
        for seed in 1..=*seeds {
            let ballots = random_ballots(Draw::Few, seed, *count, *times);
            assert_election(&rt, rt.alloc(), *m, &ballots);
        }
    }
}

/// Candidates and ballots, with their voters.
static GIVEN: [(u8, &[(u64, u64)]); 3] = [
    // As many voters as stand in columns, and one more.
    (6, &[(0b00_0111, 4), (0b01_1100, 2), (0b11_0001, 1)]),
    (6, &[(0b00_0111, 4), (0b01_1100, 2), (0b11_0001, 2)]),
    // Each candidate has one voter of its own.
    (
        9,
        &[
            (1, 1),
            (2, 1),
            (4, 1),
            (8, 1),
            (16, 1),
            (32, 1),
            (64, 1),
            (128, 1),
            (256, 1),
        ],
    ),
];

#[test]
fn the_same_winners_of_given_ballots(rt: HostRuntime) {
    for (m, ballots) in &GIVEN {
        assert_election(&rt, rt.alloc(), *m, ballots);
    }
}
