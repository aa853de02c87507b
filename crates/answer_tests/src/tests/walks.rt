//! Winners among 64 candidates, worked out by hand.
ghost use Rattle.std.specs.Prelude.{Some, ◌≡◌};
ghost use Rattle.ballot_base.specs.Limits.{most_candidates};
ghost use Rattle.tie_walk.specs.Winners.{IsStart};

mod entered;
mod waits;
mod walk;

use super::support::election_of;
use ballot_base::{CandSet, MOST_CANDIDATES, Profile, ThieleRule};
use std::alloc::Global;
use std::process::Abort;
use tie_walk::{SeqRule, SeqWinners, Tally, ThieleTally, Winners};

/// Of 64 candidates, three voters approve 1 and 2, and one voter 63 and 64.
const TWO_PAIRS: [(u64, u64); 2] = [(3, 3), (3 << 62, 1)];

/// The pair of a list.
fn pair(rt: &impl Abort, list: &[u8]) -> CandSet
    ensures { IsStart most_candidates 2 (Some result) }
{
    let set = CandSet::of_list(list).expect(rt, "a set");
    assert!(rt; set.len() == 2, "a pair");
    set
}

/// Asserts that only these winners are left.
fn assert_left<T: Tally>(rt: &impl Abort, winners: &mut Winners<T>, lists: &[&[u8]]) {
    for list in lists {
        assert!(rt; winners.next() == CandSet::of_list(list), "{list:?}");
    }
    assert!(rt; winners.next().is_none(), "after the winners");
}

/// Asserts that only these pairs come after the start under Chamberlin-Courant. Each of four voters approves a member
/// of a winner.
fn assert_after<T: Tally>(rt: &impl Abort, tally: &T, start: &[u8], lists: &[&[u8]])
    requires { T.candidates tally.now ≡ most_candidates }
{
    let start = Some(pair(rt, start));
    let mut winners = Winners::new(tally, MOST_CANDIDATES, 2, start);
    assert!(rt; winners.best() == 4, "each voter has a member");
    assert_left(rt, &mut winners, lists);
}

/// Asserts the same of an election.
fn assert_covering(rt: &impl Abort, profile: &Profile, start: &[u8], lists: &[&[u8]])
    requires { profile.now.m ≡ most_candidates }
{
    assert_after(
        rt,
        &ThieleTally::new(profile, ThieleRule::Cc, 2),
        start,
        lists,
    );
}

/// Asserts the same of the sequential rule.
fn assert_sequential(
    rt: &impl Abort,
    alloc: Global,
    profile: &Profile,
    start: &[u8],
    lists: &[&[u8]],
)
    requires { profile.now.m ≡ most_candidates }
{
    let start = Some(pair(rt, start));
    let mut winners = SeqWinners::new(alloc, profile, SeqRule::SeqCc, 2, start).expect(
        rt, "levels",
    );
    for list in lists {
        assert!(rt; winners.next() == CandSet::of_list(list), "{list:?}");
    }
    assert!(rt; winners.next().is_none(), "after the sequential winners");
}

/// A start, and the winners after it.
static STARTS: [(&[u8], &[&[u8]]); 5] = [
    // No winner, a winner, no winner between two, the last winner, and the last pair.
    (&[1, 2], &[&[1, 63], &[1, 64], &[2, 63], &[2, 64]]),
    (&[1, 64], &[&[2, 63], &[2, 64]]),
    (&[2, 62], &[&[2, 63], &[2, 64]]),
    (&[2, 64], &[]),
    (&[63, 64], &[]),
];

#[test]
fn winners_after_a_start(rt: HostRuntime) {
    let profile = election_of(&rt, rt.alloc(), MOST_CANDIDATES, &TWO_PAIRS);
    for (start, lists) in &STARTS {
        assert_covering(&rt, &profile, start, lists);
        assert_sequential(&rt, rt.alloc(), &profile, start, lists);
    }
}

/// Asserts that only the first 63 candidates win by the reverse sequential rule.
fn assert_first_63(rt: &impl Abort, alloc: Global, profile: &Profile)
    requires { profile.now.m ≡ most_candidates }
{
    let winners = SeqWinners::new(alloc, profile, SeqRule::RevSeqPav, 63, None);
    let mut left = winners.expect(rt, "levels");
    let is_only = left.next() == Some(CandSet::all(63)) && left.next().is_none();
    assert!(rt; is_only, "the first 63 win");
}

const ALL_HITS: [(u64, u64); 2] = [(u64::MAX, 1), (u64::MAX >> 1, 1)];

/// Of 64 candidates, one voter approves all, and one all but the last: the last hit of each counts.
#[test]
fn the_last_of_64_hits(rt: HostRuntime) {
    let profile = election_of(&rt, rt.alloc(), MOST_CANDIDATES, &ALL_HITS);
    assert_first_63(&rt, rt.alloc(), &profile);
}
