//! Multipliers that follow the node, and narrow it: a subgradient method (Held, Wolfe and Crowder, Validation of
//! subgradient optimization, 1974).
//!
//! A bound over the rows of an election has a multiplier for each row. In each round, the multiplier of a row rises if
//! the candidates of the highest worths hit its ballot less often than they should, and falls if more often. One array
//! has the multipliers of a whole search. They are changed in place and never restored when the search goes back: any
//! multipliers work, and the last ones are a good beginning for the next node. Nothing but their range is proved.
ghost use Rattle.std.specs.Prelude.{◌≡◌, ℕ, List, ◌≤◌, IfOk, length};
ghost use Rattle.ballot_base.specs.Limits.{most_candidates};
ghost use Rattle.row_multipliers.specs.Completions.{IsNode};
ghost use Rattle.row_multipliers.specs.Steps.Constraints.{IsConstraint};
ghost use Rattle.row_multipliers.specs.Steps.Narrowed.{Narrows};

use crate::node::Node;
use ballot_base::{CandSet, Worths};
use std::alloc::{AllocError, Allocator};
use std::cell::Cell;
use std::marker::Model;
use std::mem;

/// The maximum that a step moves a multiplier to. Without it, weights of ballots under minimax grew without end, and
/// voters and candidates in a square with outliers took almost three times as long.
pub const MOST_MOVED: u64 = 1 << 40;

/// The pace of a step that closes the whole gap. With two fifths of it at nodes, hierarchies, parties and slates took
/// up to twice as long.
const WHOLE: u64 = 1024;

/// The direction that one hit makes.
const HIT: i32 = 64;

/// The number of rounds between two judgements whether the gap closes fast enough.
const ROUNDS_BETWEEN: u16 = 3;

/// A gap counts as smaller only if it closed by more than itself divided by this.
const LEAST_FALL: u128 = 8192;

/// With a limit of the gap, the number of rounds after which a gap of more than twice the limit ends the moving. No gap
/// this large ever came within the limit by `ROUNDS_OF_DOUBT`. Without this, small random elections
/// took up to a tenth more instructions.
const FIRST_DOUBT: u16 = 30;

/// After each this many rounds, a gap above the limit ends the moving, and so does one that falls too slowly. Without
/// the latter, 40 random candidates and 20 seats took a sixth more instructions under `pav`.
const ROUNDS_OF_DOUBT: u16 = 100;

/// A gap counts as closed if it is less than the large one divided by this. Without it, multipliers moved on for
/// hundreds of rounds among neighbours, which took two to four times the instructions under `pav`.
const CLOSED: u128 = 1 << 20;

/// How long multipliers are moved.
#[derive(Clone, Copy)]
pub struct Effort {
    /// The maximum number of rounds.
    pub rounds: u16,
    /// The number of rounds without a smaller gap after which steps get shorter.
    pub patience: u8,
    /// The largest gap with which moving goes on after many rounds, or until the gap is as good as closed. If there is
    /// no such limit, moving ends as soon as the gap closes too slowly.
    pub large_gap: Option<u128>,
}

/// A bound of a node. For each completion that reaches the value, `paid` plus the worths of the candidates that join is
/// at least `due`.
#[derive(Drop)]
pub struct Constraint {
    /// What is there without the candidates that join.
    pub paid: u128,
    /// What is needed, together with the worths of the candidates that join.
    pub due: u128,
    pub worths: Worths,
}

impl Constraint {
    /// The free candidates of a node that can still join. Returns `None` only if no completion of its set reaches the
    /// value.
    pub fn narrowed(&self, node: &Node) -> Option<CandSet>
        ensures { (value : List ℕ → ℕ) (m least : ℕ) → m ≤ most_candidates → IsNode m node.now.set node.now.free
            → IsConstraint value m node.now least self.now → Narrows value m node.now least result }
    {
        self.worths
            .members_for(node.free, node.left, self.due.saturating_sub(self.paid))
    }

    /// The free candidates of the highest worths, as many as join.
    pub fn best(&self, node: &Node) -> CandSet {
        let lowest = self.worths.nth_greatest(node.free, node.left);
        let mut best = self.worths.at_least(node.free, lowest);
        let better = self.worths.at_least(node.free, lowest.saturating_add(1));
        for candidate in best.minus(better).members() {
            if best.len() > node.left {
                best = best.without(candidate);
            }
        }
        best
    }

    /// How far the candidates of the highest worths exceed what is due.
    pub fn excess(&self, best: CandSet) -> u128 {
        self.paid
            .saturating_add(self.worths.excess(best, 0))
            .saturating_sub(self.due)
    }
}

/// How far the candidates of the highest worths exceed what is due.
#[derive(Clone, Copy)]
pub struct Gap {
    /// In a unit that is the same in all rounds.
    pub size: u128,
    /// The length of a step that closes the gap.
    pub closing_step: u128,
}

/// A bound over the rows of an election, with a multiplier for each row.
pub trait RowBound {
    ghost candidates: { Self → ℕ };

    ghost value_of: { Self → List ℕ → ℕ };

    // The value that completions must reach.
    ghost least: { Self → ℕ };

    /// What the completions of a node bring that reach the value, by the present multipliers.
    fn constraint(&self, node: &Node) -> Constraint
        requires is_node { IsNode (Self.candidates self.now) node.now.set node.now.free }
        ensures constraint { IsConstraint (Self.value_of self.now) (Self.candidates self.now) node.now
            (Self.least self.now) result }
        ensures most { Self.candidates self.now ≤ most_candidates };

    /// The gap of a round, by the candidates of the highest worths.
    fn gap(&self, constraint: &Constraint, best: CandSet) -> Gap;

    /// Turns the directions of the rows by `Multipliers::aim`, to the hits that they lack among the candidates of the
    /// highest worths. Returns the sum of the squared directions.
    fn aim(&self, node: &Node, best: CandSet) -> u128
        requires is_node { IsNode (Self.candidates self.now) node.now.set node.now.free };
}

/// The result of moving multipliers at a node.
#[derive(Drop)]
pub struct Moved {
    /// The free candidates that can still join. `None` only if no completion of the set reaches the value.
    pub free: Option<CandSet>,
    /// The candidates of the highest worths when the gap was the smallest.
    pub best: CandSet,
    pub rounds: u32,
}

/// Moves the multipliers of a bound until no completion of the node reaches the value, or the gap closes too slowly.
/// Then it goes back to the multipliers whose gap was the smallest.
pub fn narrowed<B: RowBound, A: Allocator>(
    bound: &B,
    multipliers: &Multipliers<A>,
    node: &Node,
    effort: Effort,
) -> Moved
    requires is_node { IsNode (B.candidates bound.now) node.now.set node.now.free }
    ensures { Narrows (B.value_of bound.now) (B.candidates bound.now) node.now (B.least bound.now) result.free }
{
    let mut progress = Progress::new(effort);
    let mut here = *node;
    for _round in 0..effort.rounds {
        let constraint = bound.constraint(&here);
        let Some(free) = constraint.narrowed(&here) else {
            return progress.end(None);
        };
        here.free = free;
        let best = constraint.best(&here);
        let gap = bound.gap(&constraint, best);
        match progress.next(gap, best) {
            Next::Smaller => multipliers.keep(),
            Next::Larger => {}
            Next::Back => multipliers.restore(),
            Next::End => break,
        }
        let square = bound.aim(&here, best);
        if square == 0 {
            break;
        }
        multipliers.step(progress.length(gap, square));
    }
    multipliers.restore();
    progress.end(Some(here.free))
}

/// The numbers of hits, from `fewest` to `most`, that fit the multiplier of a row best.
#[derive(Clone, Copy)]
pub struct Wanted {
    pub fewest: u8,
    pub most: u8,
}

impl Wanted {
    /// How many hits a row with `hits` of them lacks; below 0 if it has too many.
    fn lacking(self, hits: u8) -> i32 {
        let nearest = hits.max(self.fewest).min(self.most);
        i32::from(nearest) - i32::from(hits)
    }
}

/// The multiplier of a row.
#[derive(Clone, Copy)]
struct Multiplier {
    now: u64,
    // The multiplier with which the gap was the smallest.
    lowest: u64,
    // The hits that the candidates of the highest worths lacked lately, in parts of a hit.
    direction: i32,
    wanted: Wanted,
}

impl Multiplier {
    fn at(now: u64) -> Multiplier {
        Multiplier {
            now,
            lowest: now,
            direction: 0,
            wanted: Wanted { fewest: 0, most: 0 },
        }
    }

    fn moved(self, length: u64) -> Multiplier {
        if self.direction == 0 {
            return self;
        }
        let distance = length.saturating_mul(u64::from(self.direction.unsigned_abs()));
        let now = if self.direction > 0 {
            self.now.saturating_add(distance).min(MOST_MOVED)
        } else {
            self.now.saturating_sub(distance)
        };
        Multiplier { now, ..self }
    }
}

/// A multiplier for each row. Contracts see the number of rows.
#[derive(Drop)]
pub struct Multipliers<A: Allocator> {
    rows: Vec<Cell<Multiplier>, A>,
}

impl<A: Allocator> Model for Multipliers<A> {
    ghost Value = { ℕ };

    ghost view = { λ multipliers. length multipliers.rows.items };
}

impl<A: Allocator + Copy + Drop> Multipliers<A> {
    /// Takes 24 bytes of memory for each row. All rows begin with the same multiplier.
    pub fn of(alloc: A, rows: usize, first: u64) -> Result<Multipliers<A>, AllocError>
        ensures { IfOk result (λ multipliers. multipliers ≡ rows) }
    {
        Ok(Multipliers {
            rows: vec![in alloc; Cell::new(Multiplier::at(first)); rows]?,
        })
    }
}

impl<A: Allocator> Multipliers<A> {
    /// Begins anew with this multiplier of a row.
    pub fn begin(&self, row: usize, first: u64) {
        if let Some(row) = self.rows.get(row) {
            row.set(Multiplier::at(first));
        }
    }

    /// The number from `low` to `high` that is nearest to the multiplier of a row. The multiplier itself stays, since
    /// the range is narrow if few seats are left, and other nodes need the multiplier as it was.
    pub fn within(&self, row: usize, low: u64, high: u64) -> u64
        ensures { result ≤ high }
    {
        let Some(row) = self.rows.get(row) else {
            return 0;
        };
        row.get().now.max(low).min(high)
    }

    /// Notes the numbers of hits that fit the multiplier of a row best.
    pub fn want(&self, row: usize, wanted: Wanted) {
        if let Some(row) = self.rows.get(row) {
            row.update(|multiplier| Multiplier {
                wanted,
                ..multiplier
            });
        }
    }

    /// Turns the direction of a row with `hits` hits to those that it wants. Returns the square of the direction,
    /// or 0 if the multiplier is 0 and would fall.
    pub fn aim(&self, row: usize, hits: u8) -> u64 {
        let Some(row) = self.rows.get(row) else {
            return 0;
        };
        let multiplier = row.get();
        let lacking = multiplier.wanted.lacking(hits);
        let direction = (multiplier.direction / 8)
            .saturating_mul(5)
            .saturating_add(HIT.saturating_mul(lacking));
        row.set(Multiplier {
            direction,
            ..multiplier
        });
        if multiplier.now == 0 && direction <= 0 {
            return 0;
        }
        let size = u64::from(direction.unsigned_abs());
        size.saturating_mul(size)
    }

    /// Keeps the multipliers, whose gap is the smallest so far.
    fn keep(&self) {
        for row in &self.rows {
            row.update(|multiplier| Multiplier {
                lowest: multiplier.now,
                ..multiplier
            });
        }
    }

    /// Goes back to the multipliers with which the gap was the smallest.
    fn restore(&self) {
        for row in &self.rows {
            row.update(|multiplier| Multiplier::at(multiplier.lowest));
        }
    }

    /// Moves each multiplier by its direction, times `length`.
    fn step(&self, length: u64) {
        for row in &self.rows {
            row.update(|multiplier| multiplier.moved(length));
        }
    }
}

/// What follows a round.
#[derive(Clone, Copy)]
enum Next {
    /// The gap is smaller than all before.
    Smaller,
    Larger,
    /// Steps get shorter, and go on where the gap was the smallest.
    Back,
    End,
}

/// How far the gap has closed.
#[derive(Drop)]
struct Progress {
    effort: Effort,
    smallest: u128,
    // The candidates of the highest worths when the gap was the smallest.
    best: CandSet,
    // The smallest gap some rounds ago.
    before: u128,
    pace: u64,
    stalled: u8,
    rounds: u16,
}

impl Progress {
    fn new(effort: Effort) -> Progress {
        Progress {
            effort,
            smallest: u128::MAX,
            best: CandSet::empty(),
            before: u128::MAX,
            pace: WHOLE,
            stalled: 0,
            rounds: 0,
        }
    }

    /// Notes the gap of a round, and decides what follows.
    fn next(&mut self, gap: Gap, best: CandSet) -> Next {
        self.rounds = self.rounds.saturating_add(1);
        let fall = self.smallest.saturating_sub(gap.size);
        self.stalled = if fall > gap.size / LEAST_FALL {
            0
        } else {
            self.stalled.saturating_add(1)
        };
        if fall > 0 {
            self.smallest = gap.size;
        }
        if self.is_over() {
            return Next::End;
        }
        if fall > 0 {
            self.best = best;
            return Next::Smaller;
        }
        if self.stalled < self.effort.patience {
            return Next::Larger;
        }
        self.stalled = 0;
        self.pace = self.pace / 8 * 5;
        if self.pace == 0 {
            return Next::End;
        }
        Next::Back
    }

    /// Whether the gap is as good as closed, closes too slowly, or is too large.
    fn is_over(&mut self) -> bool {
        let Some(large) = self.effort.large_gap else {
            return self.rounds % ROUNDS_BETWEEN == 0 && self.closes_too_slowly();
        };
        match self.rounds {
            FIRST_DOUBT => self.smallest / 2 > large,
            rounds if rounds % ROUNDS_OF_DOUBT == 0 => {
                self.smallest > large || self.falls_too_slowly(large)
            }
            _ => self.smallest < large / CLOSED,
        }
    }

    /// Whether the gap has fallen too slowly since the last doubt: by less than a fifth, or by less than three tenths if
    /// it is above an eighth of the limit. With a quarter, short rankings took a fifth longer under `geom3`. If a small
    /// gap had to fall by a quarter too, voters and candidates on a line took twice as long under `geom3`.
    fn falls_too_slowly(&mut self, large: u128) -> bool {
        let before = mem::replace(&mut self.before, self.smallest);
        let slow = if self.smallest > large / 8 {
            before / 10 * 7
        } else {
            before / 5 * 4
        };
        self.smallest > slow
    }

    /// Whether the gap would not close in the rounds that are left, even at twice the pace of the last ones.
    fn closes_too_slowly(&mut self) -> bool {
        let gain = self.before.saturating_sub(self.smallest);
        let rounds = u128::from(self.effort.rounds.saturating_sub(self.rounds));
        self.before = self.smallest;
        gain.saturating_mul(rounds) / 2 < self.smallest
    }

    /// How far multipliers move by their directions.
    fn length(&self, gap: Gap, square: u128) -> u64
        requires { 1 ≤ square }
    {
        let part = gap.closing_step.saturating_mul(u128::from(self.pace)) / u128::from(WHOLE);
        let length = part.saturating_mul(HIT as u128) / square;
        length.min(u128::from(u64::MAX)) as u64
    }

    fn end(&self, free: Option<CandSet>) -> Moved
        ensures { result.free ≡ free }
    {
        Moved {
            free,
            best: self.best,
            rounds: u32::from(self.rounds),
        }
    }
}
