//! The search for a violation.
ghost use Rattle.std.specs.Prelude.{◌≡◌, ◌≢◌, ℕ, ◌+◌, ◌-◌, ◌<◌, ◌≤◌, ◌↔◌, ◌++◌, Bool, List, [], ◌∷◌, None, IfSome, IsTrue, filter, length, sum, find, nat_le};
ghost use Rattle.std.specs.List.{list_all, range_with_len};
ghost use Rattle.ballot_base.specs.Limits.{most_members, most_voters};
ghost use Rattle.ballot_base.specs.Lists.{IsIncreasing};
ghost use Rattle.ballot_base.specs.Ballots.{IsElection};
ghost use Rattle.ballot_base.specs.Clones.{AreClones};
ghost use Rattle.ballot_base.specs.CandSet.{includes};
ghost use Rattle.ballot_base.specs.Steps.Lists.{IsIncreasing-prop};
ghost use Rattle.group_check.specs.declared.property.Property.TheVariants.{Pjr};
ghost use Rattle.group_check.specs.Groups.{HasProperty};
ghost use Rattle.group_check.specs.Report.{IsReport, first_violation, lists_within, is_in_group, group_of};
ghost use Rattle.group_check.specs.Steps.Checking.{greatest_level, shared_size, may_share, IsFirst, IsSecond, Computes, pairs_of, first_of, first_of_lists, completions, voters_around, is_enough_within, is_large};
ghost use Rattle.group_check.specs.Steps.Refuting.{choices_of, choices_beside};

use crate::property::{Property, Violation};
use crate::refutation::Choices;
use ballot_base::{CandSet, Clones, Profile};
use std::alloc::Allocator;

/// Returns a group that shows that the committee lacks the property, or `None` if the committee has it. The group
/// breaks the property at the lowest level at which any group does. It is the whole group of the first candidates that
/// show a violation at that level. Allocates no memory.
pub fn find_violation<A: Allocator + Copy>(
    profile: &Profile<A>,
    committee: CandSet,
    property: Property,
) -> Option<Violation>
    requires some { committee ≢ [] }
    requires candidates { IsIncreasing 1 profile.now.m committee }
    requires size { length committee ≤ most_members }
    ensures none { (result ≡ None) ↔ HasProperty property profile.now committee }
    ensures some { IfSome result (λ report. IsReport property profile.now committee report) }
{
    let clones = Clones::of(profile);
    for level in 1..=greatest_level(property, committee) {
        let search = Search {
            profile,
            clones: &clones,
            committee,
            property,
            level,
        };
        let found = search.first();
        if found.is_some() {
            return found;
        }
    }
    None
}

/// The highest level at which a group can break the property.
fn greatest_level(property: Property, committee: CandSet) -> u8
    ensures { result ≡ greatest_level property committee }
{
    match property {
        Property::Jr => 1,
        Property::Pjr | Property::Ejr | Property::EjrPlus => committee.len(),
    }
}

/// The search for the first violation at one level.
#[derive(Drop)]
pub struct Search<'a, A: Allocator + Copy> {
    pub profile: &'a Profile<A>,
    pub clones: &'a Clones,
    pub committee: CandSet,
    pub property: Property,
    pub level: u8,
    ghost some: { 1 ≤ length committee },
    ghost classes: { AreClones profile.now.m profile.now.rows clones.now },
    ghost candidates: { IsIncreasing 1 profile.now.m committee } by { IsIncreasing-prop 1 profile.now.m committee },
    ghost least: { 1 ≤ level },
    ghost most: { level ≤ greatest_level property committee },
}

impl<A: Allocator + Copy> Search<'_, A> {
    fn first(&self) -> Option<Violation>
        ensures { result ≡ first_violation self.now.property self.now.profile.now self.now.committee self.now.level }
    {
        let nobody = CandSet::empty();
        let pool = self.shareable();
        let size = self.shared_size();
        if self.is_refuted(self.choices(nobody, pool, size)) {
            return None;
        }
        self.first_beyond(nobody, pool, size)
    }

    /// The choices of T of these candidates and `left` candidates of the pool, and of any U.
    fn choices(&self, shared: CandSet, pool: CandSet, left: u8) -> Choices
        ensures { result ≡ choices_of self.now.committee self.now.level shared pool left }
    {
        Choices {
            shared,
            pool,
            left,
            within: CandSet::empty(),
            members: self.committee,
            room: self.level - 1,
        }
    }

    fn shared_size(&self) -> u8
        ensures { result ≡ shared_size self.now.property self.now.level }
    {
        match self.property {
            Property::Jr | Property::Pjr | Property::Ejr => self.level,
            Property::EjrPlus => 1,
        }
    }

    /// The candidates that a group may share. EJR+ excludes members of the committee.
    fn shareable(&self) -> CandSet
        ensures candidates { result
            ≡ filter (may_share self.now.property self.now.committee) (range_with_len 1 self.now.profile.now.m) }
        ensures valid { IsElection self.now.profile.now }
    {
        let candidates = CandSet::all(self.profile.m());
        match self.property {
            Property::Jr | Property::Pjr | Property::Ejr => candidates,
            Property::EjrPlus => candidates.minus(self.committee),
        }
    }

    /// The first violation that shares these candidates and `left` candidates of the pool, all of which come after
    /// them.
    fn first_beyond(&self, shared: CandSet, pool: CandSet, left: u8) -> Option<Violation>
        requires order { IsIncreasing 1 self.now.profile.now.m (shared ++ pool) }
        requires size { length shared + left ≡ shared_size self.now.property self.now.level }
        requires shared { IsTrue (list_all (may_share self.now.property self.now.committee) (shared ++ pool)) }
        ensures { result ≡ first_of_lists self.now.property self.now.profile.now self.now.committee self.now.level
            (completions shared pool left) }
    {
        if left == 0 {
            return self.first_sharing(shared);
        }
        if pool.len() < left {
            return None;
        }
        let (candidate, rest) = pool.split_first()?;
        let more = shared.with(candidate);
        if !self.is_refuted(self.choices(more, rest, left - 1)) {
            let found = self.first_beyond(more, rest, left - 1);
            if found.is_some() {
                return found;
            }
        }
        // A list with a clone in the candidate's place has the same group as the list with the candidate.
        let others = rest.minus(self.clones.class(candidate));
        self.first_beyond(shared, others, left)
    }

    /// The first violation that shares exactly these candidates.
    fn first_sharing(&self, shared: CandSet) -> Option<Violation>
        requires { IsFirst self.now.property self.now.profile.now.m self.now.committee self.now.level shared }
        ensures { let lists = lists_within self.now.property self.now.profile.now.m self.now.committee self.now.level in
            result ≡ first_of self.now.property self.now.profile.now self.now.committee self.now.level
            (pairs_of shared lists) }
    {
        let nobody = CandSet::empty();
        if self.property != Property::Pjr {
            return self.counted(shared, nobody);
        }
        let within = self.first_within(shared, nobody, self.committee)?;
        self.counted(shared, within)
    }

    /// The first list U of these members and of members of the pool that has enough voters who approve all of `shared`.
    /// All members of the pool come after these members.
    fn first_within(&self, shared: CandSet, within: CandSet, pool: CandSet) -> Option<CandSet>
        requires property { self.now.property ≡ Pjr }
        requires members { IsTrue (includes self.now.committee pool) }
        requires order { IsIncreasing 1 self.now.profile.now.m (within ++ pool) }
        requires size { length within < self.now.level }
        ensures { result ≡ find (is_enough_within self.now.profile.now self.now.committee self.now.level shared)
            (completions within pool (self.now.level - 1 - length within)) }
    {
        let left = self.level - 1 - within.len();
        if pool.len() < left {
            return None;
        }
        // No list that begins with these members has more voters.
        if !self.is_enough(self.voters_around(shared, within, pool)) {
            return None;
        }
        if left == 0 {
            return Some(within);
        }
        let (member, rest) = pool.split_first()?;
        let more = within.with(member);
        if !self.is_refuted(beside(shared, more, rest, left - 1)) {
            let found = self.first_within(shared, more, rest);
            if found.is_some() {
                return found;
            }
        }
        // A voter who approves the member approves its clones too, and so fits no list that has a clone without it.
        let others = rest.minus(self.clones.class(member));
        self.first_within(shared, within, others)
    }

    /// The violation with the whole group of these lists, if the group is large enough for the level.
    fn counted(&self, shared: CandSet, within: CandSet) -> Option<Violation>
        requires shared { IsFirst self.now.property self.now.profile.now.m self.now.committee self.now.level shared }
        requires within { IsSecond self.now.property self.now.profile.now.m self.now.level within }
        ensures { result ≡ first_of self.now.property self.now.profile.now self.now.committee self.now.level
            ((shared, within) ∷ []) }
    {
        let mut violation = Violation {
            property: self.property,
            committee: self.committee,
            level: self.level,
            shared,
            within,
            voters: 0,
        };
        violation.voters = supporting_voters(self.profile, &violation);
        self.is_enough(violation.voters).then_some(violation)
    }

    /// Whether a group of `voters` voters is large enough for the level.
    fn is_enough(&self, voters: u64) -> bool
        ensures { result ≡ is_large self.now.profile.now self.now.committee self.now.level voters }
    {
        voters >= self.needed()
    }

    /// How many voters a group has to have for the level l: l/k of all voters if the committee has k members.
    pub fn needed(&self) -> u64
        ensures { (voters : ℕ) → nat_le result voters
            ≡ is_large self.now.profile.now self.now.committee self.now.level voters }
    {
        let due = u64::from(self.level) * self.profile.voters();
        due.div_ceil(u64::from(self.committee.len()))
    }

    /// The number of voters who approve all of `shared`, and only members that a list U which begins with `within` can
    /// have. These are the members of `within` and as many of the pool as fit into the list.
    fn voters_around(&self, shared: CandSet, within: CandSet, pool: CandSet) -> u64
        requires { length within < self.now.level }
        ensures group { let left = self.now.level - 1 - length within in
            result ≡ sum (voters_around self.now.profile.now self.now.committee shared within pool left) }
        ensures most { result ≤ most_voters }
        ensures valid { IsElection self.now.profile.now }
    {
        let committee = self.committee;
        let left = self.level - 1 - within.len();
        voters_with(self.profile, |ballot| {
            let approved = ballot.common(committee);
            let more = approved.common(pool).len().min(left);
            ballot.includes(shared) && approved.len() <= approved.common(within).len() + more
        })
    }
}

/// The choices of T of exactly these candidates, and of U of these members and `room` of the other `members`.
pub fn beside(shared: CandSet, within: CandSet, members: CandSet, room: u8) -> Choices
    ensures { result ≡ choices_beside shared within members room }
{
    Choices {
        shared,
        pool: CandSet::empty(),
        left: 0,
        within,
        members,
        room,
    }
}

fn supporting_voters<A: Allocator + Copy>(profile: &Profile<A>, violation: &Violation) -> u64
    ensures group { result ≡ sum (group_of (is_in_group violation.now) profile.now.rows) }
    ensures most { result ≤ most_voters }
{
    voters_with(profile, |ballot| violation.contains(ballot))
}

/// The number of voters whose ballots pass the test.
pub fn voters_with<A: Allocator + Copy, F: Fn(CandSet) -> bool>(
    profile: &Profile<A>,
    passes: F,
) -> u64
    requires { F.IsAlwaysCallable passes }
    ensures group { (test : List ℕ → Bool) → Computes (F.post passes) test
        → result ≡ sum (group_of test profile.now.rows) }
    ensures most { result ≤ most_voters }
    ensures valid { IsElection profile.now }
{
    let mut voters = 0;
    for (ballot, count) in profile.ballots() {
        if passes(ballot) {
            voters += count;
        }
    }
    voters
}
