//! The walk over the committees whose value reaches the best, and the counts of its steps. It goes depth first from
//! prefix to prefix, and enters only prefixes whose bound reaches the best.
//!
//! `proofs/WalkLemmas.antt` shows that what the walk leaves out has no winner. `LiveLemmas.antt` and `OpenLemmas.antt`
//! show that each prefix it enters is live.
ghost use Rattle.std.specs.Prelude.{◌≡◌, ◌+◌, ◌^◌, ◌<◌, ◌≤◌, false, None, Some, if◌then◌else◌};
ghost use Rattle.ballot_base.specs.Limits.{most_candidates};
ghost use Rattle.ballot_base.specs.Lists.{IsIncreasing};
ghost use Rattle.tie_walk.specs.Steps.Walks.{IsBegun, IsPast, IsPlace, IsStride, IsWalk, HasNone};
ghost use Rattle.tie_walk.specs.Steps.Walks.{aim, aim_at, asks, opens, progress, work_left};
ghost use Rattle.tie_walk.specs.Winners.{IsStart};

use crate::tally::Tally;
use ballot_base::CandSet;

/// The decision on each of the candidates 1 to c: those of the set are members, the others are not.
#[derive(Clone, Copy)]
pub(crate) struct Prefix {
    c: u8,
    set: CandSet,
}

impl Prefix {
    /// What comes after all committees below this prefix: the last member becomes a non-member. Returns `None` if there
    /// is no member.
    fn past(&self) -> Option<Prefix>
        requires high { self.now.c ≤ most_candidates }
        requires candidates { IsIncreasing 1 self.now.c self.now.set }
        ensures { IsPast self.now result }
    {
        let mut c = self.c;
        while c > 0 {
            if self.set.has(c) {
                let set = self.set.without(c);
                return Some(Prefix { c, set });
            }
            c -= 1;
        }
        None
    }
}

/// A walk over the committees of size k of the tally's m candidates whose value reaches the best: its place and its
/// counts.
#[derive(Drop)]
pub(crate) struct Walk<'a, T: Tally> {
    tally: &'a T,
    m: u8,
    k: u8,
    best: u128,
    place: Option<Prefix>,
    // How many prefixes the walk has entered, and how many bounds it has asked for.
    entered: u128,
    ceilings: u128,
}

impl<'a, T: Tally> Walk<'a, T> {
    /// A walk over the committees after the start, or over all if there is none. It goes down to the start as far as
    /// the beginnings of the start are open, without entering the last one, and then past what is below.
    pub(crate) fn begin(tally: &'a T, k: u8, best: u128, after: &Option<CandSet>) -> Walk<'a, T>
        requires some { 1 ≤ k }
        requires fits { k ≤ T.candidates tally.now }
        requires start { IsStart (T.candidates tally.now) k after.now }
        ensures walk { IsWalk T.candidates result }
        ensures aim { aim result ≡ aim_at tally.now (T.candidates tally.now) k best }
        ensures begun { IsBegun (T.value_of tally.now) (T.bound_of tally.now) (T.candidates tally.now) k best
            after.now (progress result) }
    {
        let m = tally.m();
        let mut walk = Walk {
            tally,
            m,
            k,
            best,
            place: None,
            entered: 0,
            ceilings: 0,
        };
        let Some(start) = *after else {
            let set = CandSet::empty();
            walk.visit(&Prefix { c: 0, set });
            return walk;
        };
        for c in 0..m {
            let set = start.upto(c);
            let prefix = Prefix { c, set };
            if !walk.enter(&prefix) {
                walk.place = prefix.past();
                return walk;
            }
        }
        walk.place = Prefix { c: m, set: start }.past();
        walk
    }

    /// The value that the committees must reach.
    pub(crate) fn best(&self) -> u128
        ensures { result ≡ self.now.best }
    {
        self.best
    }

    /// From here on, committees must reach this value.
    pub(crate) fn raise(&mut self, best: u128)
        requires walk { IsWalk T.candidates self.old }
        ensures walk { IsWalk T.candidates self.new }
        ensures aim { aim self.new ≡ aim_at self.old.tally.now self.old.m self.old.k best }
        ensures progress { progress self.new ≡ progress self.old }
    {
        self.best = best;
    }

    /// The number of prefixes that the walk has entered.
    pub(crate) fn entered(&self) -> u128
        ensures { result ≡ self.now.entered }
    {
        self.entered
    }

    /// The number of bounds that the walk has asked for.
    pub(crate) fn ceilings(&self) -> u128
        ensures { result ≡ self.now.ceilings }
    {
        self.ceilings
    }

    /// Whether the walk enters a prefix: the prefix can become a committee, and its bound reaches the best value. Only
    /// this step of the walk goes down, asks for a bound, and raises the counts.
    fn enter(&mut self, prefix: &Prefix) -> bool
        requires walk { IsWalk T.candidates self.old }
        requires place { IsPlace self.old.m self.old.k (Some prefix.now) }
        requires asks { self.old.ceilings < 2 ^ 127 }
        ensures walk { IsWalk T.candidates self.new }
        ensures aim { aim self.new ≡ aim self.old }
        ensures open { result ≡ opens T.bound_of self.old prefix.now }
        ensures entered { self.new.entered ≡ self.old.entered + (if result then 1 else 0) }
        ensures asked { self.old.ceilings ≤ self.new.ceilings }
        ensures once { self.new.ceilings ≤ self.old.ceilings + 1 }
        ensures asks { self.new.ceilings ≡ self.old.ceilings + (if asks self.old prefix.now then 1 else 0) }
        ensures none { result ≡ false → HasNone T.value_of self.old prefix.now }
    {
        let left = self.k - prefix.set.len();
        if left > self.m - prefix.c {
            return false;
        }
        self.ceilings += 1;
        if self.tally.bound(prefix.c, prefix.set, left) < self.best {
            return false;
        }
        self.entered += 1;
        true
    }

    /// The winner at a prefix, if there is one. Then the walk goes on after the prefix, or below it: with the next
    /// candidate, if there is room for one.
    fn visit(&mut self, prefix: &Prefix) -> Option<CandSet>
        requires walk { IsWalk T.candidates self.old }
        requires place { IsPlace self.old.m self.old.k (Some prefix.now) }
        requires asks { self.old.ceilings + work_left self.old.m (Some prefix.now) < 2 ^ 127 }
        ensures walk { IsWalk T.candidates self.new }
        ensures stride { IsStride T.value_of T.bound_of self.old (Some prefix.now) result self.new }
        ensures work { work_left self.old.m self.new.place < work_left self.old.m (Some prefix.now) }
        ensures early { prefix.now.c < self.old.m → result ≡ None }
    {
        let (m, k) = (self.m, self.k);
        let Prefix { c, set } = *prefix;
        if !self.enter(prefix) {
            self.place = prefix.past();
            return None;
        }
        if c < m {
            let next = c + 1;
            let set = if set.len() < k { set.with(next) } else { set };
            self.place = Some(Prefix { c: next, set });
            return None;
        }
        self.place = prefix.past();
        (self.tally.value(set) >= self.best).then_some(set)
    }

    /// The next winner from the walk's place on.
    pub(crate) fn next(&mut self) -> Option<CandSet>
        requires walk { IsWalk T.candidates self.old }
        requires fits { self.old.ceilings + work_left self.old.m self.old.place < 2 ^ 127 }
        ensures walk { IsWalk T.candidates self.new }
        ensures stride { IsStride T.value_of T.bound_of self.old self.old.place result self.new }
        ensures end { result ≡ None → self.new.place ≡ None }
    {
        while let Some(prefix) = self.place {
            if let Some(set) = self.visit(&prefix) {
                return Some(set);
            }
        }
        None
    }
}
