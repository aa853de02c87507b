//! Violations, compared with what is found by trying all lists and all groups.
use ballot_base::{CandSet, KSets, MOST_CANDIDATES, MOST_MEMBERS, Profile, ProfileBuilder};
use group_check::{Property, Violation, find_violation};
use std::alloc::Global;
use std::process::Abort;

/// The committees and ballots of the small elections have only these candidates.
const FEW: u8 = 5;

/// The candidates whose bit is set, of the first `FEW`.
fn chosen(bits: u64) -> CandSet {
    let mut set = CandSet::empty();
    for candidate in 1..=FEW {
        if bits >> candidate & 1 == 1 {
            set = set.with(candidate);
        }
    }
    set
}

/// Small elections of a number of ballots, with 1 to `most` voters each.
#[derive(Clone, Copy)]
struct Kind {
    seeds: u64,
    ballots: u64,
    most: u64,
    /// At each candidate's place the first of its clones.
    firsts: [u8; 5],
}

/// Elections without clones, and with classes of one to three.
static KINDS: [(u64, u64, u64, [u8; 5]); 10] = [
    (100, 6, 3, [1, 2, 3, 4, 5]),
    (50, FEW_VOTERS, 1, [1, 2, 3, 4, 5]),
    (100, 6, 3, [1, 1, 3, 4, 5]),
    (100, 6, 3, [1, 2, 2, 1, 5]),
    (100, 6, 3, [1, 2, 3, 3, 3]),
    (100, FEW_VOTERS, 1, [1, 2, 1, 2, 1]),
    (100, FEW_VOTERS, 1, [1, 1, 1, 4, 4]),
    (100, FEW_VOTERS, 1, [1, 2, 3, 1, 3]),
    (100, 4, 3, [1, 2, 2, 2, 1]),
    (100, 4, 3, [1, 2, 1, 4, 4]),
];

/// An election, as a number: the ballots of its kind, then the first clones, and the seed.
fn named(kind: &Kind, seed: u64) -> u64 {
    let mut name = kind.ballots;
    for first in &kind.firsts {
        name = name.saturating_mul(10).saturating_add(u64::from(*first));
    }
    name.saturating_mul(100).saturating_add(seed)
}

/// The candidates whose first clone is in the set.
fn with_clones(set: CandSet, firsts: &[u8; 5]) -> CandSet {
    let mut all = CandSet::empty();
    for candidate in 1..=FEW {
        if set.has(firsts[usize::from(candidate) - 1]) {
            all = all.with(candidate);
        }
    }
    all
}

/// An election of these ballots and their voters, at least one for each ballot.
fn election_of(rt: &impl Abort, alloc: Global, ballots: &[(CandSet, u64)]) -> Profile {
    let mut builder = ProfileBuilder::new(alloc, MOST_CANDIDATES).expect(rt, "memory");
    for (ballot, voters) in ballots {
        prove!(ballot.len() <= MOST_CANDIDATES);
        builder
            .add(*ballot, (*voters).max(1))
            .expect(rt, "a ballot");
    }
    builder.finish().ok().expect(rt, "a profile")
}

/// A small election of a kind, the same for the same seed.
fn small_election(rt: &impl Abort, alloc: Global, seed: u64, kind: &Kind) -> Profile {
    let mut ballots = Vec::new(alloc);
    let mut state = seed;
    for _round in 0..kind.ballots {
        state = state
            .wrapping_mul(6_364_136_223_846_793_005)
            .wrapping_add(1_442_695_040_888_963_407);
        let ballot = with_clones(chosen(state >> 32), &kind.firsts);
        let voters = (state >> 60) % kind.most.max(1) + 1;
        ballots.push((ballot, voters)).expect(rt, "memory");
    }
    election_of(rt, alloc, &ballots)
}

/// A group of voters, which may have any number of the voters of a row.
#[derive(Clone, Copy, Drop)]
struct Group {
    voters: u64,
    /// The candidates, of the first `FEW`, that all its members approve.
    common: CandSet,
    /// The members of the committee that none of them approves.
    missed: CandSet,
    /// The maximum number of members of the committee that one of them approves.
    most_hits: u8,
}

impl Group {
    /// Adds voters of a ballot.
    fn add(&mut self, committee: CandSet, ballot: CandSet, voters: u64) {
        self.voters = self.voters.saturating_add(voters);
        self.common = self.common.common(ballot);
        self.missed = self.missed.minus(ballot);
        self.most_hits = self.most_hits.max(ballot.common(committee).len());
    }

    /// Whether the group breaks the property at this level, of `all` voters, by its definition.
    fn breaks(&self, committee: CandSet, all: u64, property: Property, level: u8) -> bool {
        let size = u64::from(committee.len());
        let is_large = self.voters.saturating_mul(size) >= all.saturating_mul(u64::from(level));
        let is_cohesive = is_large && self.common.len() >= level;
        let represented = committee.len().saturating_sub(self.missed.len());
        match property {
            Property::Jr => level == 1 && is_cohesive && self.most_hits < 1,
            Property::Pjr => is_cohesive && represented < level,
            Property::Ejr => is_cohesive && self.most_hits < level,
            Property::EjrPlus => {
                is_large && !committee.includes(self.common) && self.most_hits < level
            }
        }
    }
}

/// Which voters make a group.
#[derive(Clone, Copy)]
enum Members<'a> {
    /// All voters of the ballots that a report names.
    Reported(&'a Violation),
    /// The number of voters of each row is a digit of this number, in the base of one more than the row has.
    Numbered(u64),
}

/// How many of the voters of a ballot are members; in a number it is the digit at this place value.
fn voters_of(members: Members<'_>, ballot: CandSet, count: u64, divisor: u64) -> u64 {
    match members {
        Members::Reported(report) => if report.contains(ballot) { count } else { 0 },
        Members::Numbered(number) => number / divisor.max(1) % count.saturating_add(1),
    }
}

/// The group of these voters.
fn group_of(profile: &Profile, committee: CandSet, members: Members<'_>) -> Group {
    let mut group = Group {
        voters: 0,
        common: CandSet::all(FEW),
        missed: committee,
        most_hits: 0,
    };
    let mut divisor = 1u64;
    for (ballot, count) in profile.ballots() {
        let voters = voters_of(members, ballot, count, divisor);
        divisor = divisor.saturating_mul(count.saturating_add(1));
        if voters > 0 {
            group.add(committee, ballot, voters);
        }
    }
    group
}

/// How many voters there are in the elections whose groups are all tried.
const FEW_VOTERS: u64 = 5;

/// The lowest level at which some group breaks the property, found by trying every group: there are at most 2 to the
/// power of the voters.
fn least_level(profile: &Profile, committee: CandSet, property: Property) -> Option<u8> {
    for level in 1..=committee.len() {
        for number in 0..1 << FEW_VOTERS {
            let group = group_of(profile, committee, Members::Numbered(number));
            if group.breaks(committee, profile.voters(), property, level) {
                return Some(level);
            }
        }
    }
    None
}

/// The first violation at a level, found by trying each T and each U of the first candidates.
fn first_at(
    profile: &Profile,
    committee: CandSet,
    property: Property,
    level: u8,
) -> Option<Violation> {
    let (size, places) = match property {
        Property::Jr | Property::Ejr => (level, 0),
        Property::Pjr => (level, level.saturating_sub(1)),
        Property::EjrPlus => (1, 0),
    };
    for shared in KSets::new(FEW, size.min(FEW)) {
        let may_share = property != Property::EjrPlus || shared.common(committee).is_empty();
        for within in KSets::new(FEW, places.min(FEW)) {
            let mut violation = Violation {
                property,
                committee,
                level,
                shared,
                within,
                voters: 0,
            };
            violation.voters = group_of(profile, committee, Members::Reported(&violation)).voters;
            let due = profile.voters().saturating_mul(u64::from(level));
            let has = violation.voters.saturating_mul(u64::from(committee.len()));
            if may_share && committee.includes(within) && has >= due {
                return Some(violation);
            }
        }
    }
    None
}

/// The first violation of all, if there is one.
fn first_of_all(profile: &Profile, committee: CandSet, property: Property) -> Option<Violation> {
    let levels = if property == Property::Jr {
        1
    } else {
        committee.len()
    };
    for level in 1..=levels {
        let found = first_at(profile, committee, property, level);
        if found.is_some() {
            return found;
        }
    }
    None
}

/// Whether a report's own ballots are a group of its size that breaks the property at its level.
fn shows_itself(profile: &Profile, violation: &Violation) -> bool {
    let committee = violation.committee;
    let group = group_of(profile, committee, Members::Reported(violation));
    group.voters == violation.voters
        && group.common.includes(violation.shared)
        && group.breaks(
            committee,
            profile.voters(),
            violation.property,
            violation.level,
        )
}

/// Whether this is the first violation of all, and its own ballots show it. If there are few voters, its level is the
/// lowest at which some group breaks the property.
fn is_right(
    profile: &Profile,
    committee: CandSet,
    property: Property,
    found: Option<Violation>,
) -> bool {
    let (level, is_shown) = match &found {
        Some(violation) => (Some(violation.level), shows_itself(profile, violation)),
        None => (None, true),
    };
    let is_least = profile.voters() > FEW_VOTERS
        || least_level(profile, committee, property) == level;
    is_shown && is_least && found == first_of_all(profile, committee, property)
}

/// What is found of a committee, which has to be one that may be checked.
fn violation(
    rt: &impl Abort,
    profile: &Profile,
    committee: CandSet,
    property: Property,
) -> Option<Violation> {
    assert!(rt;
        !committee.is_empty() && committee.len() <= MOST_MEMBERS && profile.m() == MOST_CANDIDATES
    );
    find_violation(profile, committee, property)
}

/// Whether a committee lacks a property, compared with what is found by trying all. The number names the election.
fn is_violated(
    rt: &impl Abort,
    profile: &Profile,
    committee: CandSet,
    property: Property,
    election: u64,
) -> bool {
    let found = violation(rt, profile, committee, property);
    let is_right = is_right(profile, committee, property, found);
    assert!(rt; is_right, "{election} {committee:?} {}", property.name());
    found.is_some()
}

/// How many committees of an election lack a property.
fn count_violated(rt: &impl Abort, profile: &Profile, election: u64) -> u64 {
    let mut violated = 0u64;
    for bits in 1..32 {
        let committee = chosen(bits << 1);
        for property in &Property::ALL {
            let is_violated = is_violated(rt, profile, committee, *property, election);
            violated = violated.saturating_add(u64::from(is_violated));
        }
    }
    violated
}

/// Asserts what is found of all committees of the elections of a kind. Many of them lack a property.
fn assert_kind(rt: &impl Abort, alloc: Global, kind: &Kind) {
    let mut violated = 0u64;
    for seed in 0..kind.seeds {
        let profile = small_election(rt, alloc, seed, kind);
        let name = named(kind, seed);
        violated = violated.saturating_add(count_violated(rt, &profile, name));
    }
    assert!(rt; violated > 100, "{violated} {}", named(kind, 0));
}

#[test]
fn small_elections(rt: HostRuntime) {
    for (seeds, ballots, most, firsts) in &KINDS {
        let kind = Kind {
            seeds: *seeds,
            ballots: *ballots,
            most: *most,
            firsts: *firsts,
        };
        assert_kind(&rt, rt.alloc(), &kind);
    }
}

/// Voters who each approve a candidate of their own, and these candidates.
fn large_election(rt: &impl Abort, alloc: Global, voters: u8, alike: CandSet) -> Profile {
    let mut ballots = Vec::new(alloc);
    for candidate in 1..=voters.min(MOST_CANDIDATES) {
        let ballot = alike.with(candidate);
        ballots.push((ballot, 1)).expect(rt, "memory");
    }
    election_of(rt, alloc, &ballots)
}

/// Asserts that in such an election the committee of the candidates 1 to 20 lacks EJR and EJR+ if it is violated, and
/// nothing else.
fn assert_lacks(rt: &impl Abort, alloc: Global, voters: u8, alike: CandSet, is_violated: bool) {
    let profile = large_election(rt, alloc, voters, alike);
    for property in &Property::ALL {
        let is_found = violation(rt, &profile, CandSet::all(20), *property).is_some();
        let is_due = is_violated && matches!(*property, Property::Ejr | Property::EjrPlus);
        assert!(rt; is_found == is_due, "{is_violated} {}", property.name());
    }
}

/// Elections with too many lists for a search that tries all: twenty voters who share twenty candidates and
/// approve one member each, and forty who approve one candidate each.
#[test]
fn many_lists(rt: HostRuntime) {
    assert_lacks(&rt, rt.alloc(), 20, CandSet::after(20, 40), true);
    assert_lacks(&rt, rt.alloc(), 40, CandSet::empty(), false);
}

/// The candidates of these spans, each from its first to its last.
fn spanned(spans: &[(u8, u8)]) -> CandSet {
    let mut all = CandSet::empty();
    for (first, last) in spans {
        let last = (*last).min(MOST_CANDIDATES);
        let before = (*first).saturating_sub(1).min(last);
        all = all.union(CandSet::after(before, last));
    }
    all
}

/// Voters who each approve some members of their own, from 1 on, and candidates from 41 on that all approve.
fn blocks(rt: &impl Abort, alloc: Global, voters: u8, size: u8, alike: u8) -> Profile {
    let mut ballots = Vec::new(alloc);
    for voter in 1..=voters {
        let last = voter.saturating_mul(size);
        let first = last.saturating_sub(size).saturating_add(1);
        let ballot = spanned(&[(first, last), (41, alike.saturating_add(40))]);
        ballots.push((ballot, 1)).expect(rt, "memory");
    }
    election_of(rt, alloc, &ballots)
}

/// Committees of the first 40 candidates beside clones that all voters approve: groups of some voters share as many
/// clones as the level wants, and their own members, alike too, decide whether the committee has PJR. Each line has the
/// voters, the members of each, the clones, and the level and the voters of the first violation (0 if there is none).
type Block = (u8, u8, u8, u8, u64);

static BLOCKS: [Block; 7] = [
    (4, 10, 22, 0, 0),
    (5, 8, 18, 0, 0),
    (5, 8, 22, 0, 0),
    (6, 6, 22, 13, 2),
    (7, 5, 22, 11, 2),
    (8, 5, 22, 0, 0),
    (9, 4, 14, 13, 3),
];

/// The violation of PJR at a level by a number of voters who share clones, or none at level 0.
fn shared_by(level: u8, voters: u64) -> Option<Violation> {
    (level > 0).then_some(Violation {
        property: Property::Pjr,
        committee: CandSet::all(40),
        level,
        shared: spanned(&[(41, level.saturating_add(40))]),
        within: spanned(&[(1, level.saturating_sub(1))]),
        voters,
    })
}

/// Asserts the violation of a line.
fn assert_block(rt: &impl Abort, alloc: Global, block: Block) {
    let (voters, size, alike, level, group) = block;
    let profile = blocks(rt, alloc, voters, size, alike);
    let found = violation(rt, &profile, CandSet::all(40), Property::Pjr);
    let is_due = found == shared_by(level, group);
    assert!(rt; is_due, "{voters} voters of {size}, {alike} clones");
}

#[test]
fn clones_beside_blocks(rt: HostRuntime) {
    for block in &BLOCKS {
        assert_block(&rt, rt.alloc(), *block);
    }
}

/// Asserts that all three voters lack EJR+ at level 26 by candidate 1, and that the committee has all else.
fn assert_lacks_only(rt: &impl Abort, profile: &Profile, committee: CandSet) {
    for property in &Property::ALL {
        let due = (*property == Property::EjrPlus).then_some(Violation {
            property: *property,
            committee,
            level: 26,
            shared: CandSet::all(1),
            within: CandSet::empty(),
            voters: 3,
        });
        let found = violation(rt, profile, committee, *property);
        assert!(rt; found == due, "{}", property.name());
    }
}

/// Three voters who share classes of clones two by two. Each approves 25 members of a committee of 39. So at level 26
/// any two lack a member if they share a candidate outside it, and only EJR+ asks no more of them.
#[test]
fn clones_of_pairs(rt: HostRuntime) {
    let ballots = [
        (spanned(&[(1, 25), (26, 43), (62, 62)]), 1),
        (spanned(&[(1, 25), (44, 61), (63, 63)]), 1),
        (spanned(&[(1, 7), (26, 61), (64, 64)]), 1),
    ];
    let profile = election_of(&rt, rt.alloc(), &ballots);
    let committee = spanned(&[(8, 19), (26, 37), (44, 55), (62, 64)]);
    assert_lacks_only(&rt, &profile, committee);
}
