//! Highest values, and how many committees have them, among 40 and 64 candidates: each was found by a plain walk with
//! ceilings too.
ghost use Rattle.std.specs.Prelude.{◌≤◌};

use super::support::{assert_of, election_of, minimax_of, search_of};
use ballot_base::{MOST_CANDIDATES, Profile, ThieleRule};
use std::alloc::Global;
use std::process::Abort;
use tie_search::{SearchWinners, Searchable};

/// The size of the committees.
const SIZE: u8 = 6;

/// The maximum number of winners that are counted.
const MOST_COUNTED: usize = 1000;

/// How many voters there are.
const VOTERS: usize = 60;

/// How ballots are drawn: each candidate with the same chance, ballots that differ little from one, candidates some of
/// which are popular, and candidates near a place in a square.
#[derive(Clone, Copy)]
enum Draw {
    Independent,
    Resampled,
    Popular,
    Square,
}

/// The next random word (Steele, Lea and Flood, Fast splittable pseudorandom number generators).
fn random_word(state: &mut u64) -> u64 {
    *state = state.wrapping_add(0x9E37_79B9_7F4A_7C15);
    let mut word = *state;
    word = (word ^ word >> 30).wrapping_mul(0xBF58_476D_1CE4_E5B9);
    word = (word ^ word >> 27).wrapping_mul(0x94D0_49BB_1331_11EB);
    word ^ word >> 31
}

/// Those of 64 candidates, eight in a row, that are at most two steps away from a place.
fn those_near(place: u64) -> u64 {
    let mut near = 0;
    for n in 0..64u64 {
        let across = (n % 8).abs_diff(place % 8);
        let down = (n / 8).abs_diff(place / 8 % 8);
        if across + down <= 2 {
            near |= 1 << n;
        }
    }
    near
}

/// The candidates of a ballot, as the bits of a word, by three random words and one that is the same for all voters.
fn approved(draw: Draw, all: u64, a: u64, b: u64, c: u64) -> u64 {
    match draw {
        Draw::Independent => a & b,
        Draw::Resampled => all & (a | b) | a & b & c,
        Draw::Popular => a & b & c | b & 0x8421_0842_1084,
        Draw::Square => those_near(a),
    }
}

/// The election of m candidates, at least as many as a committee has, with drawn ballots of one voter each.
fn drawn_election(rt: &impl Abort, alloc: Global, draw: Draw, m: u8) -> Profile
    ensures { SIZE ≤ result.m }
{
    let mut state = 7;
    let all = random_word(&mut state) & random_word(&mut state);
    let mut ballots = [(0, 1); VOTERS];
    for i in 0..VOTERS {
        let a = random_word(&mut state);
        let b = random_word(&mut state);
        let c = random_word(&mut state);
        ballots[i] = (approved(draw, all, a, b, c), 1);
    }
    election_of(rt, alloc, m.clamp(SIZE, MOST_CANDIDATES), &ballots)
}

/// Asserts the highest value, and how many committees have it.
fn assert_search<S: Searchable + Drop>(rt: &impl Abort, search: S, best: u128, winners: usize)
    requires { SIZE ≤ S.candidates search }
{
    let found = SearchWinners::new(search, SIZE, None);
    let greatest = found.best();
    let count = found.take(MOST_COUNTED).count();
    let is_known = greatest == best && count == winners;
    assert_of(rt, is_known, "winners, value", count as u128, greatest);
}

const RULES: [ThieleRule; 5] = [
    ThieleRule::Pav,
    ThieleRule::Cc,
    ThieleRule::Geom2,
    ThieleRule::Geom3,
    ThieleRule::Geom4,
];

/// Asserts the highest value times its denominator, and the number of winners, under a rule.
fn assert_rule(
    rt: &impl Abort,
    alloc: Global,
    profile: &Profile,
    rule: ThieleRule,
    known: (u128, usize),
)
    requires { SIZE ≤ profile.now.m }
{
    let search = search_of(rt, alloc, profile, rule, SIZE);
    assert_search(rt, search, known.0, known.1);
}

/// Asserts the same under each of the rules.
fn assert_thiele(rt: &impl Abort, alloc: Global, profile: &Profile, known: &[(u128, usize); 5])
    requires { SIZE ≤ profile.now.m }
{
    for i in 0..RULES.len() {
        assert_rule(rt, alloc, profile, RULES[i], known[i]);
    }
}

/// A draw, the candidates, and the highest values and numbers of winners under the rules.
static KNOWN: [(Draw, u8, &[(u128, usize); 5]); 8] = [
    (
        Draw::Independent,
        40,
        &[(5192, 1), (60, 189), (2704, 1), (18288, 1), (72768, 1)],
    ),
    (
        Draw::Independent,
        64,
        &[(5260, 1), (60, 795), (2724, 1), (18324, 1), (72848, 1)],
    ),
    (
        Draw::Resampled,
        40,
        &[(7962, 3), (60, 1000), (3659, 1), (21664, 1), (81657, 1)],
    ),
    (
        Draw::Resampled,
        64,
        &[(8034, 1), (60, 1000), (3667, 1), (21681, 1), (81688, 1)],
    ),
    (
        Draw::Popular,
        40,
        &[(6574, 1), (60, 1000), (3263, 1), (20488, 1), (78877, 1)],
    ),
    (
        Draw::Popular,
        64,
        &[(6574, 1), (60, 1000), (3264, 1), (20523, 1), (79032, 1)],
    ),
    (
        Draw::Square,
        40,
        &[(4035, 3), (53, 156), (2136, 1), (14904, 7), (60608, 4)],
    ),
    (
        Draw::Square,
        64,
        &[(4200, 5), (60, 33), (2240, 4), (16038, 2), (65792, 1)],
    ),
];

#[test]
fn thiele_rules(rt: HostRuntime) {
    for (draw, m, known) in &KNOWN {
        let profile = drawn_election(&rt, rt.alloc(), *draw, *m);
        assert_thiele(&rt, rt.alloc(), &profile, known);
    }
}

/// Asserts the smallest maximum distance, and how many committees have it.
fn assert_minimax(rt: &impl Abort, alloc: Global, profile: &Profile, distance: u8, winners: usize)
    requires { SIZE ≤ profile.now.m }
{
    let best = u128::from(profile.m().saturating_sub(distance));
    let search = minimax_of(rt, alloc, profile);
    assert_search(rt, search, best, winners);
}

/// A draw, the candidates, the smallest maximum distance, and how many committees have it.
static DISTANCES: [(Draw, u8, u8, usize); 8] = [
    (Draw::Independent, 40, 16, 2),
    (Draw::Independent, 64, 23, 1),
    (Draw::Resampled, 40, 13, 34),
    (Draw::Resampled, 64, 19, 423),
    (Draw::Popular, 40, 13, 132),
    (Draw::Popular, 64, 17, 16),
    (Draw::Square, 40, 13, 38),
    (Draw::Square, 64, 16, 1000),
];

#[test]
fn minimax(rt: HostRuntime) {
    for (draw, m, distance, winners) in &DISTANCES {
        let profile = drawn_election(&rt, rt.alloc(), *draw, *m);
        assert_minimax(&rt, rt.alloc(), &profile, *distance, *winners);
    }
}
