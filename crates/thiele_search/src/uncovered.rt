//! A lean search under `cc`, for nodes with few seats left.
//!
//! No bound ends most nodes with seven seats left, so the work at each of them counts. There only voters without a hit
//! who approve a free candidate are of use. They are written anew as columns of few words, and one word in each block
//! has a bit for each of them that is still without a hit. So the gains of a set are counted with a few instructions
//! for each candidate.
//!
//! The search only reports whether it has refuted a node: whether no completion of it reaches a value. If it finds that
//! one may, it stops. The order of the candidates and the thresholds only decide how soon it ends.
ghost use Rattle.std.specs.Prelude.{◌≡◌, ℕ, ◌+◌, ◌-◌, ◌*◌, ◌^◌, ◌<◌, ◌≤◌, List, true, false, filter, length, min, nat_le, slice_index, MatchOption, ⊤};
ghost use Rattle.std.specs.Int.{bit_at};
ghost use Rattle.ballot_base.specs.Ballots.{IsElection};
ghost use Rattle.ballot_base.specs.CandSet.{has_member, with_member, without_member};
ghost use Rattle.ballot_base.specs.Increments.{increments};
ghost use Rattle.ballot_base.specs.Limits.{most_candidates, most_members};
ghost use Rattle.ballot_base.specs.Worths.{AreTooLow, AreWanted};
ghost use Rattle.ballot_base.specs.declared.increments.ThieleRule.TheVariants.{Cc};
ghost use Rattle.row_multipliers.specs.Completions.{IsNode, IsOutOfReach};
ghost use Rattle.tie_walk.specs.Sequences.{gain};
ghost use Rattle.tie_walk.specs.Values.{thiele_value};
ghost use Rattle.thiele_search.specs.Steps.Columns.{block_voters, total, AreColumns, voter_ballot};
ghost use Rattle.thiele_search.specs.Steps.Uncovered.{AreFew, AreWithout, IsBranch, bound_by, is_uncovered, most_left, newly, table_blocks, uncovered_voters, FallsShort};

use crate::columns::{BLOCK_VOTERS, Block, add_row};
use ballot_base::{CandSet, PLACES, Profile};
use row_multipliers::Node;
use std::alloc::Allocator;
use std::cell::Cell;

/// The number of blocks of a table. With more voters there is no table.
const TABLE_BLOCKS: usize = 4;

/// With more seats left there is no lean search.
pub(crate) const MOST_LEFT: u8 = 7;

/// The maximum number of thresholds that are tried for a set.
const TURNS: u8 = 5;

/// For each block, which of its voters are without a hit.
type Voters = [u64; TABLE_BLOCKS];

/// How many voters without a hit approve each candidate, at its number.
type Gains = [u16; PLACES];

/// A threshold for each number of seats left, to begin with.
type Thresholds = [u16; MOST_LEFT as usize + 1];

/// A set below a node, the candidates that are free to join it, how many of them join, and how many voters they must
/// add to those with a hit.
#[derive(Clone, Copy)]
struct Branch {
    set: CandSet,
    free: CandSet,
    left: u8,
    due: u32,
    voters: Voters,
}

/// The voters without a hit at a node who approve a free candidate, as columns.
#[derive(Drop)]
pub(crate) struct Uncovered<'a, A: Allocator + Copy> {
    pub(crate) profile: &'a Profile<A>,
    pub(crate) set: CandSet,
    pub(crate) free: CandSet,
    pub(crate) blocks: [Block; TABLE_BLOCKS],
    /// The number of branches that were entered.
    pub(crate) branches: Cell<u64>,
    ghost few: { length (uncovered_voters profile.now.rows set free) ≤ table_blocks * block_voters },
    ghost columns: { AreColumns (uncovered_voters profile.now.rows set free) blocks },
}

/// Whether a ballot is that of voters without a hit who approve a free candidate.
fn is_uncovered(ballot: CandSet, set: CandSet, free: CandSet) -> bool
    ensures { result ≡ is_uncovered set free ballot }
{
    ballot.common(set).is_empty() && !ballot.common(free).is_empty()
}

impl<'a, A: Allocator + Copy> Uncovered<'a, A> {
    /// The voters without a hit at a node. Returns `None` if there are too many.
    pub(crate) fn of(profile: &'a Profile<A>, node: &Node) -> Option<Uncovered<'a, A>>
        ensures { MatchOption result ⊤ (λ table. (table.profile.now ≡ profile.now) × (table.set ≡ node.now.set)
            × (table.free ≡ node.now.free)) }
    {
        let mut blocks = [[0; PLACES]; TABLE_BLOCKS];
        let mut voters = 0;
        for (ballot, count) in profile.ballots() {
            let count = count as usize;
            if !is_uncovered(ballot, node.set, node.free) {
                continue;
            }
            if voters + count > TABLE_BLOCKS * BLOCK_VOTERS {
                return None;
            }
            add_row(&mut blocks, voters, ballot, count);
            voters += count;
        }
        Some(Uncovered {
            profile,
            set: node.set,
            free: node.free,
            blocks,
            branches: Cell::new(0),
        })
    }

    /// Whether no completion of the node adds `due` voters to those with a hit. Only `true` is certain.
    pub(crate) fn refutes(&self, left: u8, due: u32) -> bool
        requires valid { IsElection self.now.profile.now }
        requires is_node { IsNode self.now.profile.now.m self.now.set self.now.free }
        ensures { (k : ℕ) → 1 ≤ k → k ≤ most_members → result ≡ true
            → IsOutOfReach (thiele_value (increments Cc k) self.now.profile.now.rows) self.now.profile.now.m
            self.now.set self.now.free left
            (thiele_value (increments Cc k) self.now.profile.now.rows self.now.set + due) }
    {
        if left > MOST_LEFT {
            return false;
        }
        let branch = Branch {
            set: self.set,
            free: self.free,
            left,
            due,
            voters: [u64::MAX; TABLE_BLOCKS],
        };
        self.falls_short(&branch, &mut [0; MOST_LEFT as usize + 1])
    }

    /// Whether no completion of a branch adds the voters that are due. Only `true` is certain.
    #[inline(never)]
    fn falls_short(&self, branch: &Branch, thresholds: &mut Thresholds) -> bool
        requires branch { IsBranch self.now.profile.now self.now.set self.now.free branch.now }
        requires few { branch.now.left ≤ most_left }
        ensures { result ≡ true → FallsShort self.now.profile.now branch.now }
    {
        self.branches.update(|branches| branches.wrapping_add(1));
        if branch.left == 0 {
            return false;
        }
        let place = usize::from(branch.left);
        let mut open = *branch;
        let mut gains = self.gains(branch);
        while let Some(least) = least_wanted(&gains, &open, &mut thresholds[place]) {
            let kept = keep(&mut gains, open.free, least);
            let next = kept.best;
            open.free = kept.free;
            if !kept.free.has(next) || u32::from(gains[usize::from(next)]) >= open.due {
                return false;
            }
            let child = self.child(&open, next, gains[usize::from(next)]);
            if !self.falls_short(&child, thresholds) {
                return false;
            }
            open.free = kept.free.without(next);
            gains[usize::from(next)] = 0;
        }
        true
    }

    /// The branch after a free candidate has joined.
    fn child(&self, branch: &Branch, next: u8, gain: u16) -> Branch
        requires branch { IsBranch self.now.profile.now self.now.set self.now.free branch.now }
        requires next { has_member branch.now.free next ≡ true }
        requires some { 1 ≤ branch.now.left }
        requires gain { gain ≤ branch.now.due }
        ensures branch { IsBranch self.now.profile.now self.now.set self.now.free result }
        ensures set { result.set ≡ with_member branch.now.set next }
        ensures free { result.free ≡ without_member branch.now.free next }
        ensures left { result.left ≡ branch.now.left - 1 }
        ensures due { result.due ≡ branch.now.due - gain }
    {
        Branch {
            set: branch.set.with(next),
            free: branch.free.without(next),
            left: branch.left - 1,
            due: branch.due - u32::from(gain),
            voters: self.without(&branch.voters, next),
        }
    }

    /// The voters who do not approve a candidate.
    fn without(&self, voters: &Voters, candidate: u8) -> Voters
        requires few { candidate ≤ most_candidates }
        requires valid { IsElection self.now.profile.now }
        ensures { (set : List ℕ) → has_member set candidate ≡ false
            → AreWithout (uncovered_voters self.now.profile.now.rows self.now.set self.now.free) set voters.now
            → AreWithout (uncovered_voters self.now.profile.now.rows self.now.set self.now.free)
            (with_member set candidate) result }
    {
        let mut rest = *voters;
        for b in 0..TABLE_BLOCKS {
            rest[b] = others(rest[b], self.blocks[b][usize::from(candidate)]);
        }
        rest
    }

    /// How many of the voters approve a candidate.
    fn gain(&self, voters: &Voters, candidate: u8) -> u16
        requires { candidate ≤ most_candidates }
        ensures newly { (set : List ℕ)
            → AreWithout (uncovered_voters self.now.profile.now.rows self.now.set self.now.free) set voters.now
            → result ≡ newly (uncovered_voters self.now.profile.now.rows self.now.set self.now.free) set candidate }
        ensures few { result ≤ table_blocks * block_voters }
    {
        let mut gain = 0;
        for b in 0..TABLE_BLOCKS {
            gain += (self.blocks[b][usize::from(candidate)] & voters[b]).count_ones() as u16;
        }
        gain
    }

    /// The gain of each free candidate.
    fn gains(&self, branch: &Branch) -> Gains
        requires branch { IsBranch self.now.profile.now self.now.set self.now.free branch.now }
        ensures each { (n : ℕ) → has_member branch.now.free n ≡ true → slice_index result n
            ≡ newly (uncovered_voters self.now.profile.now.rows self.now.set self.now.free) branch.now.set n }
        ensures few { AreFew result }
    {
        let mut gains = [0; PLACES];
        for candidate in branch.free.members() {
            gains[usize::from(candidate)] = self.gain(&branch.voters, candidate);
        }
        gains
    }
}

/// The voters of a block who are not in a column.
fn others(voters: u64, column: u64) -> u64
    ensures { (i : ℕ) → i < block_voters → bit_at result i ≡ min (bit_at voters i) (1 - bit_at column i) }
{
    voters & !column
}

/// By how much the gains exceed a threshold, in all, and how many of them do.
#[derive(Clone, Copy)]
struct Excess {
    more: u16,
    above: u16,
}

/// What exceeds a threshold.
fn excess_over(gains: &Gains, threshold: u16) -> Excess
    requires few { AreFew gains.now }
    ensures more { result.more ≡ total (λ n. slice_index gains.now n - threshold) (most_candidates + 1) }
    ensures small { result.more ≤ (most_candidates + 1) * (table_blocks * block_voters) }
{
    let mut more = 0;
    let mut above: u16 = 0;
    for n in 0..PLACES {
        let gain = gains[n];
        more += gain.saturating_sub(threshold);
        above = above.wrapping_add(u16::from(gain > threshold));
    }
    Excess { more, above }
}

/// A bound on what some candidates gain together, by a threshold, and how many gains exceed it.
#[derive(Clone, Copy)]
struct Bound {
    most: u32,
    threshold: u16,
    above: u16,
}

/// The bound for `left` candidates by a threshold: each of them gains the threshold, and what exceeds it.
fn bound_at(gains: &Gains, left: u8, threshold: u16) -> Bound
    requires few { AreFew gains.now }
    ensures most { result.most ≡ bound_by (slice_index gains.now) left threshold }
    ensures threshold { result.threshold ≡ threshold }
{
    let excess = excess_over(gains, threshold);
    Bound {
        most: u32::from(left) * u32::from(threshold) + u32::from(excess.more),
        threshold,
        above: excess.above,
    }
}

impl Bound {
    /// A threshold nearby that about `left` gains exceed. Any answer works.
    fn nearer(self, left: u8) -> u16 {
        let left = u16::from(left);
        if self.above > left {
            self.threshold
                .saturating_add((self.above - left).div_ceil(2))
        } else {
            self.threshold
                .saturating_sub((left - self.above).div_ceil(2))
        }
    }
}

/// The gain that a free candidate of a branch needs to be among the ones that gain what is due. Returns `None` only if
/// no such candidates do. `threshold` is where a threshold is looked for, and then the last one. Any is sound.
fn least_wanted(gains: &Gains, branch: &Branch, threshold: &mut u16) -> Option<u16>
    requires few { AreFew gains.now }
    ensures { MatchOption result (AreTooLow (slice_index gains.now) branch.now.free branch.now.left branch.now.due)
        (λ least. AreWanted (slice_index gains.now) branch.now.free branch.now.left branch.now.due
        (filter (λ n. nat_le least (slice_index gains.now n)) branch.now.free)) }
{
    let mut last = bound_at(gains, branch.left, *threshold);
    for _ in 1..TURNS {
        let next = last.nearer(branch.left);
        if last.most < branch.due || next == last.threshold {
            break;
        }
        last = bound_at(gains, branch.left, next);
    }
    *threshold = last.threshold;
    if last.most < branch.due {
        return None;
    }
    // A candidate below the threshold leaves some of it unused.
    let least = u32::from(last.threshold).saturating_sub(last.most - branch.due);
    Some(least as u16)
}

/// The candidates that are kept. `best` is one of them with the highest gain, or 0 if none gains anything: any other
/// one works too.
#[derive(Clone, Copy)]
struct Kept {
    free: CandSet,
    best: u8,
}

/// Keeps the candidates whose gain is at least `least`, and sets the gains of the others to 0.
fn keep(gains: &mut Gains, candidates: CandSet, least: u16) -> Kept
    requires few { AreFew gains.old }
    ensures free { result.free ≡ filter (λ n. nat_le least (slice_index gains.old n)) candidates }
    ensures same { (n : ℕ) → has_member result.free n ≡ true → slice_index gains.new n ≡ slice_index gains.old n }
    ensures few { AreFew gains.new }
{
    let mut free = candidates;
    let mut best = 0;
    let mut most = 0;
    for candidate in candidates.members() {
        let gain = gains[usize::from(candidate)];
        if gain < least {
            free = free.without(candidate);
            gains[usize::from(candidate)] = 0;
        } else if gain > most {
            most = gain;
            best = candidate;
        }
    }
    Kept { free, best }
}
