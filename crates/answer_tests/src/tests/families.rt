//! Winners by families against those by plain levels.
ghost use Rattle.std.specs.Prelude.{◌≡◌, ◌≤◌};
ghost use Rattle.ballot_base.specs.Limits.{most_candidates};
ghost use Rattle.ballot_base.specs.Lists.{IsIncreasing};
ghost use Rattle.sequential_winners.specs.Families.{sequential_of};
ghost use Rattle.tie_walk.specs.Winners.{IsStart};

use super::support::{ballot_of, election_of, next_word};
use ballot_base::{CandSet, KSets, MOST_CANDIDATES, Profile};
use sequential_winners::{Families, FamilyMemory, FamilyWinners};
use std::alloc::Global;
use std::process::Abort;
use tie_walk::{SeqRule, SeqWinners};

/// The families of committees of k under a rule.
fn families_of<'a>(
    rt: &impl Abort,
    alloc: Global,
    profile: &'a Profile,
    rule: SeqRule,
    k: u8,
) -> Families<'a>
    requires some { 1 ≤ k }
    requires fits { k ≤ profile.now.m }
    ensures { result ≡ sequential_of profile.now rule k }
{
    let memory = FamilyMemory::new(alloc, profile, rule, k).expect(rt, "memory");
    Families::new(memory)
}

/// Asserts that both find the same winners, those later than the start or all of them.
fn assert_same(
    rt: &impl Abort,
    alloc: Global,
    profile: &Profile,
    rule: SeqRule,
    k: u8,
    start: Option<CandSet>,
)
    requires some { 1 ≤ k }
    requires fits { k ≤ profile.now.m }
    requires start { IsStart profile.now.m k start }
{
    let families = families_of(rt, alloc, profile, rule, k);
    let wanted = SeqWinners::new(alloc, profile, rule, k, start).expect(rt, "levels");
    let found = FamilyWinners::new(&families, start);
    assert!(rt; found.eq(wanted), "{rule:?}: {k} after {start:?}");
}

/// Asserts that both find the same winners of each rule and size.
fn assert_all(rt: &impl Abort, alloc: Global, profile: &Profile) {
    for rule in &SeqRule::ALL {
        for k in 1..profile.m() + 1 {
            assert_same(rt, alloc, profile, *rule, k, None);
        }
    }
}

/// The word with the bit of a kind at each candidate of that kind. The kinds come in turn, and candidates of one kind
/// are clones.
fn spread(kinds: u8, word: u64) -> u64
    requires some { 1 ≤ kinds }
    requires few { kinds ≤ 64 }
{
    let mut approved = 0;
    for n in 1..MOST_CANDIDATES + 1 {
        approved |= (word >> (n % kinds) & 1) << (n - 1);
    }
    approved
}

/// Three ballots that the seed decides, over candidates of this many kinds.
fn ballots_of_kinds(kinds: u8, seed: u64) -> [(u64, u64); 3]
    requires some { 1 ≤ kinds }
    requires few { kinds ≤ 64 }
{
    let mut ballots = [(0, 0); 3];
    let mut word = seed;
    for i in 0..3 {
        word = next_word(word);
        ballots[i] = (spread(kinds, word >> 20 & word >> 40), 1 + word % 2);
    }
    ballots
}

/// Asserts the same of elections of m candidates with this many kinds of ballots.
fn assert_kinds(rt: &impl Abort, alloc: Global, m: u8, kinds: u8)
    requires some { 1 ≤ m }
    requires most { m ≤ most_candidates }
    requires kinds { 1 ≤ kinds }
    requires few { kinds ≤ 64 }
{
    for seed in 1..5 {
        let profile = election_of(rt, alloc, m, &ballots_of_kinds(kinds, seed));
        assert_all(rt, alloc, &profile);
    }
}

#[test]
fn the_same_winners(rt: HostRuntime) {
    let alloc = rt.alloc();
    for m in 1..8 {
        assert_kinds(&rt, alloc, m, 1);
        assert_kinds(&rt, alloc, m, 2);
        assert_kinds(&rt, alloc, m, 3);
        assert_kinds(&rt, alloc, m, 5);
        assert_kinds(&rt, alloc, m, 8);
    }
}

/// Elections of nine candidates with ties: for each voter a number whose digits are those approved, 0 for nobody.
static TIES: [&[u64]; 12] = [
    // Each with voters of their own, as many or not.
    &[1, 2, 3, 4, 5, 6, 7, 8, 9],
    &[1, 1, 2, 2, 3, 3, 4, 5, 6],
    &[1, 2, 3],
    // Parties.
    &[123, 456, 789],
    &[12, 34, 56, 7, 8, 9],
    // Those who tie have a voter in common: two pairs, a ring, a star, all.
    &[12, 1, 2, 34, 3, 4, 5, 5, 6, 6],
    &[12, 23, 34, 45, 15, 6, 6, 7, 7],
    &[123, 14, 25, 36, 7, 7, 8, 8],
    &[123_456_789, 1, 2, 3, 4],
    // They have none, and their voters approve others too.
    &[14, 25, 36, 0, 7],
    &[12, 13, 23, 4, 4, 5, 5, 6, 6],
    &[17, 28, 39, 17, 28, 39, 7, 8, 9],
];

/// The candidates whose digits the number has, as the bits of a word.
fn approved(number: u64) -> u64 {
    let mut rest = number;
    let mut digits = 0;
    for _digit in 0..9 {
        digits |= 1 << (rest % 10);
        rest /= 10;
    }
    digits >> 1
}

/// The election of nine candidates with a ballot of one voter for each of these numbers, of at most sixteen.
fn election_of_digits(rt: &impl Abort, alloc: Global, numbers: &[u64]) -> Profile
    ensures { result.m ≡ 9 }
{
    let mut ballots = [(0, 0); 16];
    for i in 0..numbers.len().min(16) {
        ballots[i] = (approved(numbers[i]), 1);
    }
    election_of(rt, alloc, 9, &ballots)
}

/// Asserts that both find the same winners of each rule after a start.
fn assert_same_after(rt: &impl Abort, alloc: Global, profile: &Profile, start: CandSet)
    requires { IsIncreasing 1 profile.now.m start }
{
    let k = start.len();
    if 1 <= k && k <= profile.m() {
        for rule in &SeqRule::ALL {
            assert_same(rt, alloc, profile, *rule, k, Some(start));
        }
    }
}

/// Asserts that both find the same winners of an election with ties, all of them and those after each start.
fn assert_ties(rt: &impl Abort, alloc: Global, numbers: &[u64]) {
    let profile = election_of_digits(rt, alloc, numbers);
    assert_all(rt, alloc, &profile);
    for word in 1..1 << 9 {
        assert_same_after(rt, alloc, &profile, ballot_of(9, word));
    }
}

#[test]
fn ties_after_each_start(rt: HostRuntime) {
    for numbers in &TIES {
        assert_ties(&rt, rt.alloc(), numbers);
    }
}

/// Asserts that a search finds the same winners of each rule and size, where no families are stored.
fn assert_searched(rt: &impl Abort, alloc: Global, profile: &Profile) {
    for rule in &SeqRule::ALL {
        for k in 1..profile.m() + 1 {
            let memory = FamilyMemory::for_searches(alloc, profile, *rule, k).expect(rt, "memory");
            let families = Families::new(memory);
            let wanted = SeqWinners::new(alloc, profile, *rule, k, None).expect(rt, "levels");
            let found = FamilyWinners::new(&families, None);
            assert!(rt; found.eq(wanted), "{rule:?}: {k}");
        }
    }
}

#[test]
fn searched_winners(rt: HostRuntime) {
    let alloc = rt.alloc();
    for numbers in &TIES {
        let profile = election_of_digits(&rt, alloc, numbers);
        assert_searched(&rt, alloc, &profile);
    }
}

/// The election of the candidates 1 to m with a voter each.
fn a_voter_each(rt: &impl Abort, alloc: Global, m: u8) -> Profile
    requires some { 1 ≤ m }
    requires most { m ≤ most_candidates }
    ensures { result.m ≡ m }
{
    let mut ballots = [(0, 0); MOST_CANDIDATES as usize];
    for n in 0..m {
        ballots[usize::from(n)] = (1 << n, 1);
    }
    election_of(rt, alloc, m, &ballots)
}

/// Asserts that the first winners of each rule are the first committees.
fn assert_first(rt: &impl Abort, alloc: Global, profile: &Profile, k: u8, count: usize)
    requires some { 1 ≤ k }
    requires fits { k ≤ profile.now.m }
{
    for rule in &SeqRule::ALL {
        let families = families_of(rt, alloc, profile, *rule, k);
        let first = KSets::new(profile.m(), k).take(count);
        assert!(rt;
            FamilyWinners::new(&families, None).take(count).eq(first),
            "{rule:?}"
        );
    }
}

/// Asserts that the first 1,000 committees of 20 win if each of 40 candidates has a voter.
fn assert_first_of_each(rt: &impl Abort, alloc: Global) {
    let each = a_voter_each(rt, alloc, 40);
    assert_first(rt, alloc, &each, 20, 1000);
}

/// All committees win if one voter approves the first of 64 candidates, and if each of 40 has a voter.
#[test]
fn first_of_many_winners(rt: HostRuntime) {
    let alloc = rt.alloc();
    let single = election_of(&rt, alloc, MOST_CANDIDATES, &[(1, 1)]);
    assert_first(&rt, alloc, &single, 40, 2);
    assert_first_of_each(&rt, alloc);
}

/// How many committees of six win, 40,000 at most.
fn winners_of_six(rt: &impl Abort, alloc: Global, profile: &Profile, rule: SeqRule) -> usize
    requires { 6 ≤ profile.now.m }
{
    let families = families_of(rt, alloc, profile, rule, 6);
    FamilyWinners::new(&families, None).take(40_000).count()
}

/// All 38,760 committees of 6 out of 20 candidates with a voter each.
#[test]
fn many_winners_are_counted(rt: HostRuntime) {
    let alloc = rt.alloc();
    let profile = a_voter_each(&rt, alloc, 20);
    for rule in &SeqRule::ALL {
        assert!(rt;
            winners_of_six(&rt, alloc, &profile, *rule) == 38_760,
            "{rule:?}"
        );
    }
}
