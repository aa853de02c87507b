//! Needs of all ballots together: a bound on committees that are near each ballot.
//!
//! All needs are added up, each with a weight. A set is given up if the sum exceeds what the best free candidates can
//! give. A candidate leaves if every completion with it falls short (`laws::weighted_needs`; Glover, Surrogate
//! constraints, 1968). Any weights work. A ballot weighs by the share that it needs of its free candidates. If that
//! pays, weights are moved instead, as multipliers are (`row_multipliers::multipliers`). With weights by the share, 64
//! candidates and 20 seats did not end within 12 s if voters and candidates lie on a line. With moved ones they take
//! 0.01 s.
ghost use Rattle.std.specs.Prelude.{◌≡◌, ℕ, ◌^◌, ◌≤◌, List, slice_index, ◌-◌};
ghost use Rattle.ballot_base.specs.Limits.{most_candidates};
ghost use Rattle.row_multipliers.specs.Completions.{IsNode};
ghost use Rattle.row_multipliers.specs.Steps.Constraints.{IsConstraint};
ghost use Rattle.row_multipliers.specs.Steps.Narrowed.{Narrows};
ghost use Rattle.minimax_search.specs.Steps.Search.{NarrowsNear, share_parts};
ghost use Rattle.tie_walk.specs.Values.{closeness};

use crate::minimax::ROUND;
use crate::needs::still_needed;
use crate::rows::WeighedRows;
use ballot_base::{CandSet, PLACES, Profile, Worths};
use row_multipliers::multipliers::{Constraint, Moved};
use row_multipliers::{Node, Payoff};
use std::alloc::Allocator;

/// The maximum number of rounds at a node. With 15, hierarchies with 10 seats took an eighth longer.
const MOST_ROUNDS: u32 = 18;

/// The number of rounds between two judgements whether the gap closes fast enough.
const ROUNDS_BETWEEN: u32 = 3;

/// A step aims at weighted needs that exceed the supports by the total divided by this. With 8, voters and candidates
/// in a square took thirty times as long, and with 128, 60 random voters twenty times as long. Any number works.
const MARGIN: u128 = 32;

/// Gaps are compared in parts of the total.
const GAP_PARTS: u128 = 1 << 20;

/// The denominator of shares.
const SHARE_PARTS: u64 = 1024;

/// For each number of candidates, the share of one of them, in parts of `SHARE_PARTS`. Any shares would be right. A
/// look-up takes less time than a division for each ballot.
#[derive(Drop)]
pub(crate) struct Shares {
    of_one: [u64; PLACES],
    ghost small: { (n : ℕ) → slice_index of_one n ≤ share_parts },
}

impl Shares {
    pub(crate) fn equal() -> Shares {
        let mut of_one = [SHARE_PARTS; PLACES];
        for n in 1..PLACES {
            of_one[n] = SHARE_PARTS / n as u64;
        }
        Shares { of_one }
    }

    /// The weight of a ballot that needs some of its free candidates: the need, times the cube of the share of these
    /// candidates that it needs. Any weights work. With the square of the need, 64 candidates, 32 seats and 20
    /// voters took seven to twelve times as long.
    fn weight(&self, needed: u8, approved: CandSet) -> u64
        ensures { result ≤ 2 ^ 62 }
    {
        let needed = u64::from(needed);
        let share = needed * self.of_one[usize::from(approved.len())];
        needed * share * share * share
    }
}

/// Whether a ballot needs at least the hits that it would get on average if seats went to the free candidates at
/// random. Others weigh nothing by their share, so that 40 random candidates and 20 seats took 0.6 times as long. With
/// nine eighths of these hits as the limit, some elections took twice as long. Any answer works.
fn is_tight(needed: u8, approved: CandSet, node: &Node) -> bool {
    let share = u64::from(needed).saturating_mul(u64::from(node.free.len()));
    share >= u64::from(approved.len()).saturating_mul(u64::from(node.left))
}

/// The free candidates of a node that can still join, by the needs. Returns `None` only if no completion of the node is
/// near each ballot.
pub(crate) fn eligible(needs: &Constraint, node: &Node) -> Option<CandSet>
    ensures { (value : List ℕ → ℕ) (m least : ℕ) → m ≤ most_candidates → IsNode m node.now.set node.now.free
        → IsConstraint value m node.now least needs.now → Narrows value m node.now least result }
{
    // Without weights nothing is due. To order the candidates by their worths took a tenth of the instructions.
    if needs.due == 0 {
        return Some(node.free);
    }
    needs.narrowed(node)
}

/// How ballots are weighed at a node.
#[derive(Drop)]
pub(crate) enum Weighing<'a> {
    /// Not at all, since it does not pay.
    Nothing,
    /// By the share that a ballot needs of its free candidates.
    ByShare(&'a Shares),
    /// By weights that are moved.
    Moved,
}

/// How far the gap has closed in the rounds at a node.
#[derive(Drop)]
struct Closing {
    smallest: u128,
    // The smallest gap some rounds ago.
    before: u128,
    rounds: u32,
}

impl Closing {
    fn new() -> Closing {
        Closing {
            smallest: u128::MAX,
            before: u128::MAX,
            rounds: 0,
        }
    }

    /// Notes the gap of a round. Returns whether the gap would not close in the rounds that are left, even at twice the
    /// pace of the last ones.
    fn is_too_slow(&mut self, gap: u128) -> bool {
        self.rounds = self.rounds.saturating_add(1);
        self.smallest = self.smallest.min(gap);
        if self.rounds % ROUNDS_BETWEEN != 0 {
            return false;
        }
        let gain = self.before.saturating_sub(self.smallest);
        let rounds = u128::from(MOST_ROUNDS.saturating_sub(self.rounds));
        self.before = self.smallest;
        gain.saturating_mul(rounds) / 2 < self.smallest
    }

    fn end(&self, free: Option<CandSet>) -> Moved
        ensures { result.free ≡ free }
    {
        Moved {
            free,
            best: CandSet::empty(),
            rounds: self.rounds,
        }
    }
}

/// What a search looks for by weighted needs: a committee from which no ballot is farther than `most`.
#[derive(Drop)]
pub(crate) struct NeedSearch<'a, A: Allocator + Copy> {
    pub(crate) profile: &'a Profile<A>,
    pub(crate) rows: &'a WeighedRows<A>,
    pub(crate) weighing: Weighing<'a>,
    pub(crate) most: u8,
    ghost size: { profile.now.m ≤ most_candidates },
}

impl<A: Allocator + Copy> NeedSearch<'_, A> {
    /// Moves the weights, if they are moved ones. Returns the free candidates that can still join, or `None` only if no
    /// completion of the set is near each ballot.
    pub(crate) fn moved(&self, node: &Node, moves: &Payoff) -> Option<CandSet>
        requires is_node { IsNode self.now.profile.now.m node.now.set node.now.free }
        ensures { NarrowsNear self.now.profile.now self.now.most node.now result }
    {
        if !matches!(&self.weighing, Weighing::Moved) {
            moves.work(1);
            return Some(node.free);
        }
        self.rows.raise(node.left);
        let moved = self.narrowed(node);
        let work = ROUND * u64::from(moved.rounds);
        moves.work(work);
        moves.note(node, work, moved.free)
    }

    /// Moves the weights until no completion of the node is near each ballot, or the gap closes too slowly.
    fn narrowed(&self, node: &Node) -> Moved
        requires is_node { IsNode self.now.profile.now.m node.now.set node.now.free }
        ensures { NarrowsNear self.now.profile.now self.now.most node.now result.free }
    {
        let mut closing = Closing::new();
        let mut here = *node;
        for _round in 0..MOST_ROUNDS {
            let needs = self.constraint(&here);
            let Some(free) = needs.narrowed(&here) else {
                return closing.end(None);
            };
            here.free = free;
            let best = needs.best(&here);
            let excess = needs.excess(best);
            if closing.is_too_slow(excess.saturating_mul(GAP_PARTS) / needs.due.max(1)) {
                break;
            }
            let square = self.aim(&here, best);
            if square == 0 {
                break;
            }
            let missing = excess.saturating_add(needs.due / MARGIN);
            self.rows
                .step(node.left, WeighedRows::<A>::length(missing, square));
        }
        closing.end(Some(here.free))
    }

    /// The weight of the row at a place, whose ballot needs some of its free candidates.
    fn weight(&self, place: usize, needed: u8, approved: CandSet, node: &Node) -> u64
        ensures { result ≤ 2 ^ 62 }
    {
        match &self.weighing {
            Weighing::Nothing => 0,
            Weighing::ByShare(shares) => {
                if is_tight(needed, approved, node) {
                    shares.weight(needed, approved)
                } else {
                    0
                }
            }
            Weighing::Moved => self.rows.weight(place),
        }
    }

    /// The needs of a node by the present weights. What all ballots still need is due. A free candidate is worth the
    /// total weight of the ballots that approve it.
    pub(crate) fn constraint(&self, node: &Node) -> Constraint
        requires is_node { IsNode self.now.profile.now.m node.now.set node.now.free }
        ensures constraint { IsConstraint (closeness self.now.profile.now.m self.now.profile.now.rows)
            self.now.profile.now.m node.now (self.now.profile.now.m - self.now.most) result }
        ensures most { self.now.profile.now.m ≤ most_candidates }
    {
        let mut needs = Constraint {
            paid: 0,
            due: 0,
            worths: Worths::none(),
        };
        if matches!(&self.weighing, Weighing::Nothing) {
            return needs;
        }
        let are_moved = matches!(&self.weighing, Weighing::Moved);
        let rows = self.profile.rows();
        for place in 0..self.rows.count(node.left).min(rows) {
            // Most moved weights are 0.
            if are_moved && self.rows.weight(place) == 0 {
                continue;
            }
            let (ballot, _voters) = self.profile.row(self.rows.row(place, rows));
            let needed = still_needed(ballot, node, self.most);
            if needed > 0 {
                let approved = ballot.common(node.free);
                let weight = u128::from(self.weight(place, needed, approved, node));
                if weight > 0 {
                    needs.due += weight * u128::from(needed);
                    needs.worths.add(approved, weight);
                }
            }
        }
        needs
    }

    /// Turns the directions of the rows to the hits that they lack among the candidates of the highest worths. Returns
    /// the sum of the squared directions.
    fn aim(&self, node: &Node, best: CandSet) -> u64
        requires is_node { IsNode self.now.profile.now.m node.now.set node.now.free }
    {
        let mut square: u64 = 0;
        let rows = self.profile.rows();
        for place in 0..self.rows.count(node.left) {
            let (ballot, _voters) = self.profile.row(self.rows.row(place, rows));
            let needed = still_needed(ballot, node, self.most);
            let lacking = i32::from(needed) - i32::from(ballot.common(best).len());
            square = square.saturating_add(self.rows.aim(place, lacking));
        }
        square
    }
}
