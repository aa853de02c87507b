//! Winners by search against a walk with plain bounds.
ghost use Rattle.std.specs.Prelude.{◌≤◌};

use super::support::{Draw, assert_searched, election_of, minimax_of, random_ballots};
use ballot_base::Profile;
use std::alloc::Global;
use std::process::Abort;
use tie_walk::MinimaxTally;

/// Asserts that the search and a walk with plain bounds find the same winners of each size.
fn assert_all_sizes(rt: &impl Abort, alloc: Global, profile: &Profile) {
    for k in 1..profile.m() + 1 {
        assert_searched(
            rt,
            &MinimaxTally::new(profile),
            &minimax_of(rt, alloc, profile),
            k,
        );
    }
}

/// Asserts the same of an election of m candidates and `more` more ballots than that.
fn assert_drawn(rt: &impl Abort, alloc: Global, draw: Draw, m: u8, more: u8)
    requires some { 1 ≤ m }
    requires few { m ≤ 8 }
    requires more { more ≤ 8 }
{
    let count = m + more;
    let seed = u64::from(m) << 8 | u64::from(count);
    let ballots = random_ballots(draw, seed, usize::from(count), 1);
    assert_all_sizes(rt, alloc, &election_of(rt, alloc, m, &ballots));
}

#[test]
fn the_same_winners(rt: HostRuntime) {
    for draw in &[Draw::Few, Draw::Many, Draw::Neighbours, Draw::Alike] {
        for m in 4..9 {
            for more in 1..7 {
                assert_drawn(&rt, rt.alloc(), *draw, m, more);
            }
        }
    }
}

// All committees of a size tie if nobody is approved.
#[test]
fn one_ballot_of_few_candidates(rt: HostRuntime) {
    for m in 1..8 {
        for word in 0..9 {
            let profile = election_of(&rt, rt.alloc(), m, &[(word, 2)]);
            assert_all_sizes(&rt, rt.alloc(), &profile);
        }
    }
}
