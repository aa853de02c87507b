//! A walk from committee to committee towards one that is near each ballot.
//!
//! In each step, a member makes place for a candidate: one of those on the most ballots that are too far, for one of
//! those on the fewest ballots that would become too far without it. Ties are broken at random, always by the same
//! numbers. The two that were exchanged last rest for a step, so that the walk does not go back (Glover, Tabu search,
//! 1989).
//!
//! Any committee works, so nothing is proved of these. An election of 44 voters with 34 seats took ten times as long
//! without walks.

use ballot_base::{CandSet, PLACES, Profile};
use row_multipliers::Node;
use std::alloc::Allocator;

/// What a ballot's wish counts. Ties are broken by random numbers below it.
const WISH: u64 = 1 << 16;

/// The maximum number of steps. Any number works.
const MOST_STEPS: u16 = 1000;

/// A committee on its way.
#[derive(Drop)]
pub(crate) struct Walk<'a, A: Allocator + Copy> {
    profile: &'a Profile<A>,
    // The candidates that may join or leave.
    free: CandSet,
    committee: CandSet,
    // Those that were exchanged last.
    resting: CandSet,
    random: Random,
}

impl<'a, A: Allocator + Copy> Walk<'a, A> {
    /// Begins with the set of a node, and with free candidates: the first members of `like`, and then the first others.
    pub(crate) fn from(profile: &'a Profile<A>, node: &Node, like: CandSet) -> Walk<'a, A> {
        let kept = first_of(node.free.common(like), node.left);
        let missing = node.left.saturating_sub(kept.len());
        let others = first_of(node.free.minus(kept), missing);
        Walk {
            profile,
            free: node.free,
            committee: node.set.union(kept).union(others),
            resting: CandSet::empty(),
            random: Random::new(),
        }
    }

    /// Walks on to a committee from which no ballot is farther than `most`. Returns `None` if the way is too long.
    pub(crate) fn reaching(&mut self, most: u8) -> Option<CandSet> {
        for _step in 0..MOST_STEPS {
            let Some(wishes) = self.wishes(most) else {
                return Some(self.committee);
            };
            self.exchange(&wishes);
        }
        None
    }

    /// For each candidate, how many ballots wish that it joins or leaves. Returns `None` if none is too far.
    fn wishes(&mut self, most: u8) -> Option<Wishes> {
        let members = self.committee.common(self.free);
        let others = self.free.minus(members);
        let mut wishes = Wishes::drawn(&mut self.random);
        let mut is_near = true;
        for (ballot, _voters) in self.profile.ballots() {
            let distance = ballot.distance(self.committee);
            if distance < most.saturating_sub(1) {
                continue;
            }
            // An exchange moves a ballot by at most two.
            wishes.add(members.minus(ballot));
            if distance > most {
                wishes.add(others.common(ballot));
                is_near = false;
            }
        }
        if is_near {
            return None;
        }
        Some(wishes)
    }

    /// Exchanges the two with the most wishes, if there are two that do not rest.
    fn exchange(&mut self, wishes: &Wishes) {
        let awake = self.free.minus(self.resting);
        let leaving = wishes.most_of(awake.common(self.committee));
        let joining = wishes.most_of(awake.minus(self.committee));
        self.resting = CandSet::empty();
        if !leaving.is_empty() && !joining.is_empty() {
            self.committee = self.committee.minus(leaving).union(joining);
            self.resting = leaving.union(joining);
        }
    }
}

/// The first `count` members of the set, or all of them if there are fewer.
fn first_of(set: CandSet, count: u8) -> CandSet {
    let mut others = set;
    for _taken in 0..count {
        if let Some((_first, rest)) = others.split_first() {
            others = rest;
        }
    }
    set.minus(others)
}

/// Wishes of ballots, by candidate.
#[derive(Drop)]
struct Wishes {
    each: [u64; PLACES],
}

impl Wishes {
    /// No wishes yet, but a number for each candidate that breaks ties.
    fn drawn(random: &mut Random) -> Wishes {
        let mut each = [0; PLACES];
        for wishes in &mut each {
            *wishes = random.next() % WISH;
        }
        Wishes { each }
    }

    fn add(&mut self, set: CandSet) {
        for candidate in set.members() {
            if let Some(wishes) = self.each.get_mut(usize::from(candidate)) {
                *wishes = wishes.saturating_add(WISH);
            }
        }
    }

    /// The candidate with the most wishes, or none if the set is empty.
    fn most_of(&self, set: CandSet) -> CandSet {
        let mut best = CandSet::empty();
        let mut most = 0;
        for candidate in set.members() {
            let wishes = self.each.get(usize::from(candidate)).copied().unwrap_or(0);
            if best.is_empty() || wishes > most {
                best = CandSet::empty().with(candidate);
                most = wishes;
            }
        }
        best
    }
}

/// Numbers that look random, and are the same in each walk. (Marsaglia, Xorshift RNGs, 2003)
#[derive(Clone, Copy)]
struct Random(u64);

impl Random {
    fn new() -> Random {
        Random(88_172_645_463_325_252)
    }

    fn next(&mut self) -> u64 {
        self.0 ^= self.0 << 13;
        self.0 ^= self.0 >> 7;
        self.0 ^= self.0 << 17;
        self.0
    }
}
