//! Refutations: no choice of T and U from given candidates gives a large group.
//!
//! - Peeling: a voter who approves too few of the candidates that T can take, or more members than U has room for,
//!   belongs to no group. T contains no candidate with too few supporters among the other voters.
//! - Charges: a candidate of T that a voter does not approve, or an approved member outside U, is an obstacle: it keeps
//!   the voter out of the group. Each voter's vote is split evenly among the obstacles that T and U can have. A group
//!   lacks at least the votes that are charged to the candidates in T, or to the members outside U.
//! - Choices that neither refutes are split: into those with some candidate and those without it. They are not split if
//!   the most approved candidates and members have a large group.
ghost use Rattle.std.specs.Prelude.{◌≡◌, ◌≢◌, ℕ, ◌≤◌, [], true, IfSome, IsTrue, slice_index, sum, sum_by, length};
ghost use Rattle.ballot_base.specs.Limits.{most_candidates};
ghost use Rattle.ballot_base.specs.Ballots.{IsElection};
ghost use Rattle.ballot_base.specs.CandSet.{has_member};
ghost use Rattle.group_check.specs.Steps.Refuting.{AreOpen, IsRefuted, CannotAgree, IsFinding, with_candidate, with_committee_member, may_belong, possible_voters, supporters, obstacles, charge};

use crate::checking::{Search, beside, voters_with};
use crate::property::Property;
use ballot_base::{CandSet, Worths};
use std::alloc::Allocator;

/// The number of parts that a vote is split in.
const UNITS: u64 = 1 << 20;

/// Lists T and U as far as they are chosen: T consists of `shared` and `left` candidates of the pool, and U of `within`
/// and `room` of the open members.
#[derive(Clone, Copy)]
pub struct Choices {
    pub shared: CandSet,
    pub pool: CandSet,
    pub left: u8,
    pub within: CandSet,
    pub members: CandSet,
    pub room: u8,
}

/// What a group has to agree on: to approve each of these candidates, or to approve none of them, except for any
/// `spared` of them.
#[derive(Clone, Copy)]
pub struct Agreement {
    pub candidates: CandSet,
    pub spared: u8,
    pub approved: bool,
}

impl Choices {
    /// The choices with this candidate in T.
    fn with_candidate(self, candidate: u8) -> Choices
        requires low { 1 ≤ candidate }
        requires high { candidate ≤ most_candidates }
        requires left { 1 ≤ self.left }
        ensures { result ≡ with_candidate self candidate }
    {
        Choices {
            shared: self.shared.with(candidate),
            pool: self.pool.without(candidate),
            left: self.left - 1,
            ..self
        }
    }

    /// The choices with this member in U.
    fn with_member(self, member: u8) -> Choices
        requires low { 1 ≤ member }
        requires high { member ≤ most_candidates }
        requires room { 1 ≤ self.room }
        ensures { result ≡ with_committee_member self member }
    {
        Choices {
            within: self.within.with(member),
            members: self.members.without(member),
            room: self.room - 1,
            ..self
        }
    }
}

impl Agreement {
    /// The candidates that keep a voter with this ballot from agreeing.
    fn obstacles(&self, ballot: CandSet) -> CandSet
        ensures { result ≡ obstacles self.now ballot }
    {
        if self.approved {
            self.candidates.minus(ballot)
        } else {
            self.candidates.common(ballot)
        }
    }
}

/// What the ballots show about the choices.
enum Finding {
    /// No list T and U has a large group.
    Refuted,
    /// T takes its candidates from this smaller pool.
    Peeled(CandSet),
    /// The next candidate to join T or not.
    Candidate(u8),
    /// The next member to join U or not.
    Member(u8),
    /// There may be a large group.
    Unclear,
}

impl<A: Allocator + Copy> Search<'_, A> {
    /// Whether no lists T and U of these choices have a large group. A result of `false` may be wrong, and then only
    /// costs time.
    pub fn is_refuted(&self, choices: Choices) -> bool
        requires { AreOpen self.now.profile.now.m self.now.committee choices }
        ensures { IsTrue result
            → IsRefuted self.now.property self.now.profile.now self.now.committee self.now.level choices }
    {
        match self.finding(&choices) {
            Finding::Refuted => true,
            Finding::Peeled(pool) => self.is_refuted(Choices { pool, ..choices }),
            Finding::Candidate(candidate) => {
                let rest = choices.pool.without(candidate);
                let pool = rest.minus(self.clones.class(candidate));
                self.is_refuted(Choices { pool, ..choices })
                    && self.is_refuted(choices.with_candidate(candidate))
            }
            Finding::Member(member) => {
                let members = choices.members.without(member);
                (choices.room == 0 || self.is_refuted(choices.with_member(member)))
                    && self.is_refuted(Choices { members, ..choices })
            }
            Finding::Unclear => false,
        }
    }

    // Not inlined: its tables would lie on the stack at each level of a search.
    #[inline(never)]
    fn finding(&self, choices: &Choices) -> Finding
        requires { AreOpen self.now.profile.now.m self.now.committee choices.now }
        ensures finding { IsFinding self.now.property self.now.profile.now self.now.committee self.now.level choices.now
            result }
        ensures valid { IsElection self.now.profile.now }
    {
        let voters = voters_with(self.profile, |ballot| self.may_belong(choices, ballot));
        if voters < self.needed() || choices.pool.len() < choices.left {
            return Finding::Refuted;
        }
        let supporters = self.supporters(choices);
        let pool = supporters.at_least(choices.pool, u128::from(self.needed()));
        if pool.len() < choices.pool.len() {
            return Finding::Peeled(pool);
        }
        if self.is_overcharged(choices, voters) {
            return Finding::Refuted;
        }
        if self.is_shown(choices, &supporters) {
            return Finding::Unclear;
        }
        self.next_choice(choices, &supporters, voters)
    }

    /// Whether a voter with this ballot can belong to a group of these choices.
    fn may_belong(&self, choices: &Choices, ballot: CandSet) -> bool
        ensures { result ≡ may_belong self.now.property self.now.committee self.now.level choices.now ballot }
    {
        if !ballot.includes(choices.shared) || ballot.common(choices.pool).len() < choices.left {
            return false;
        }
        let approved = ballot.common(self.committee);
        match self.property {
            Property::Jr | Property::Ejr | Property::EjrPlus => approved.len() < self.level,
            Property::Pjr => {
                let more = approved.common(choices.members).len().min(choices.room);
                approved.len() <= approved.common(choices.within).len() + more
            }
        }
    }

    /// For each candidate, the number of its voters who can belong to a group of these choices.
    fn supporters(&self, choices: &Choices) -> Worths
        ensures { (n : ℕ) → slice_index result n
            ≡ sum (supporters self.now.property self.now.profile.now self.now.committee self.now.level choices.now n) }
    {
        let mut supporters = Worths::none();
        for (ballot, count) in self.profile.ballots() {
            if self.may_belong(choices, ballot) {
                supporters.add(ballot, u128::from(count));
            }
        }
        supporters
    }

    /// Whether any T or any U has obstacles that are charged with too many of the votes.
    fn is_overcharged(&self, choices: &Choices, voters: u64) -> bool
        requires voters { voters ≡ sum (possible_voters self.now.property self.now.profile.now self.now.committee
            self.now.level choices.now) }
        requires enough { choices.now.left ≤ length choices.now.pool }
        requires are_open { AreOpen self.now.profile.now.m self.now.committee choices.now }
        requires valid { IsElection self.now.profile.now }
        ensures { IsTrue result
            → IsRefuted self.now.property self.now.profile.now self.now.committee self.now.level choices.now }
    {
        let shared = Agreement {
            candidates: choices.pool,
            spared: choices.pool.len() - choices.left,
            approved: true,
        };
        let unrepresented = Agreement {
            candidates: choices.members,
            spared: choices.room,
            approved: false,
        };
        self.cannot_agree(choices, &shared, voters)
            || self.property == Property::Pjr && self.cannot_agree(choices, &unrepresented, voters)
    }

    /// Whether too few voters agree, whichever candidates are spared.
    fn cannot_agree(&self, choices: &Choices, agreement: &Agreement, voters: u64) -> bool
        requires { voters ≡ sum (possible_voters self.now.property self.now.profile.now self.now.committee
            self.now.level choices.now) }
        ensures { IsTrue result → CannotAgree self.now.property self.now.profile.now self.now.committee
            self.now.level choices.now agreement.now }
    {
        if agreement.candidates.len() <= agreement.spared {
            return false;
        }
        let charges = self.charges(choices, agreement);
        let spare = u128::from(voters.saturating_sub(self.needed())) * u128::from(UNITS);
        let due = charges
            .excess(agreement.candidates, 0)
            .saturating_sub(spare);
        charges
            .members_for(agreement.candidates, agreement.spared, due)
            .is_none()
    }

    /// For each candidate, its part of the votes of those to whom it is an obstacle.
    fn charges(&self, choices: &Choices, agreement: &Agreement) -> Worths
        ensures charges { (n : ℕ) → slice_index result n
            ≡ sum_by (charge self.now.property self.now.committee self.now.level choices.now agreement.now n)
            self.now.profile.now.rows }
        ensures valid { IsElection self.now.profile.now }
    {
        let mut charges = Worths::none();
        for (ballot, count) in self.profile.ballots() {
            let obstacles = agreement.obstacles(ballot);
            let size = obstacles.len();
            if size > 0 && self.may_belong(choices, ballot) {
                charges.add(obstacles, u128::from(count * UNITS / u64::from(size)));
            }
        }
        charges
    }

    /// Whether T of the most approved candidates of the pool and U of the most approved members have a large group.
    /// Where equals do not all fit, T takes all of the candidates, and U none of the members. A wrong result only costs
    /// time.
    fn is_shown(&self, choices: &Choices, supporters: &Worths) -> bool {
        let least = supporters.nth_greatest(choices.pool, choices.left);
        let candidates = supporters.at_least(choices.pool, least);
        let next = supporters.nth_greatest(choices.members, choices.room.saturating_add(1));
        let members = supporters.at_least(choices.members, next + 1);
        let shared = choices.shared.union(candidates);
        let within = choices.within.union(members);
        let chosen = beside(shared, within, CandSet::empty(), 0);
        voters_with(self.profile, |ballot| self.may_belong(&chosen, ballot)) >= self.needed()
    }

    /// What to choose next, if the voters agree on too few candidates of the pool or approve more members than U has
    /// room for: the candidate with the fewest supporters, or the member with the most. The member comes first only if
    /// more voters approve it than lack the most approved of the candidates in dispute.
    fn next_choice(&self, choices: &Choices, supporters: &Worths, voters: u64) -> Finding
        ensures { IsFinding self.now.property self.now.profile.now self.now.committee self.now.level choices.now
            result }
    {
        let all = u128::from(voters);
        let candidates = disputed_candidates(choices, supporters, all);
        let members = self.disputed_members(choices, supporters);
        let most = supporters.nth_greatest(candidates, 1) + supporters.nth_greatest(members, 1);
        if candidates.is_empty() || most > all {
            return match supporters.best_of(members) {
                Some(member) => Finding::Member(member),
                None => Finding::Unclear,
            };
        }
        match least_supported(supporters, candidates) {
            Some(candidate) => Finding::Candidate(candidate),
            None => Finding::Unclear,
        }
    }

    /// The open members that voters approve, or none if U has room for all of them.
    fn disputed_members(&self, choices: &Choices, supporters: &Worths) -> CandSet
        ensures { (n : ℕ) → has_member result n ≡ true → has_member choices.now.members n ≡ true }
    {
        let approved = supporters.at_least(choices.members, 1);
        if self.property == Property::Pjr && approved.len() > choices.room {
            approved
        } else {
            CandSet::empty()
        }
    }
}

/// The candidates of the pool that some of the voters do not approve, or none if the others are enough for T.
fn disputed_candidates(choices: &Choices, supporters: &Worths, voters: u128) -> CandSet
    ensures among { (n : ℕ) → has_member result n ≡ true → has_member choices.now.pool n ≡ true }
    ensures left { result ≢ [] → 1 ≤ choices.now.left }
{
    let common = supporters.at_least(choices.pool, voters);
    if common.len() < choices.left {
        choices.pool.minus(common)
    } else {
        CandSet::empty()
    }
}

/// One of the candidates with the fewest supporters, or `None` for the empty set.
fn least_supported(supporters: &Worths, candidates: CandSet) -> Option<u8>
    ensures { IfSome result (λ n. has_member candidates n ≡ true) }
{
    let fewest = supporters.nth_greatest(candidates, candidates.len());
    let others = supporters.at_least(candidates, fewest + 1);
    let (candidate, _equals) = candidates.minus(others).split_first()?;
    Some(candidate)
}
