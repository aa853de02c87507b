//! Where a costly bound pays.
//!
//! To move multipliers, or to count triples, takes as long as many visits to sets. So a search measures, by the number
//! of seats left, how often a bound ends a node, what it costs, and how much work there is below a node without it. The
//! bound is made where it saves more work than it costs, and only a share of all work may be lost on it. So a short
//! search ends without it, and an election that it does not shorten takes little longer. Nothing is proved of these
//! numbers.
ghost use Rattle.std.specs.Prelude.{◌≡◌, ⊤};

use crate::node::Node;
use ballot_base::{CandSet, MOST_MEMBERS};
use std::array;
use std::cell::Cell;
use std::marker::Model;

/// At most two nodes in this number are left alone, to measure the work below them, and so few that this work is about
/// a tenth of what the bound costs. Measured at nodes that a bound had not ended, it was too high, and 40 random
/// candidates took fifteen times as long under `cc`. As long as one node in 16 was left alone, 12,000 random voters
/// took up to twice as long under `pav`.
const CAUTION: u64 = 20;

/// The number of nodes in a row that are left alone. With one, 449 elections of many models took 3 % longer.
const LEFT_ALONE: u64 = 2;

/// How many times the work below the nodes that it ends a bound saves, about. It also narrows other nodes, and
/// multipliers that were moved serve later nodes. Without this, elections took a seventh longer under `minimax`.
const NARROWED: u64 = 2;

/// The part of the saved work that makes up for lost work: less work was saved than measured, since a bound ends the
/// nodes with little work below first. With an eighth, candidates on a circle took 1.37 times as long under `geom4`.
const MADE_UP: u64 = 4;

/// A node that ended is this many parts of success.
const PARTS: u32 = 1024;

/// What a bound is taken to achieve before it was made: as if it had ended some nodes.
const HOPED: Mean = Mean {
    count: 4,
    value: PARTS,
};

/// There is a level for each number of seats left.
const LEVELS: usize = MOST_MEMBERS as usize + 1;

/// What a bound achieves, and what it costs, by the number of seats left. The unit of work is a visit to a set.
/// Contracts see nothing of it.
#[derive(Drop)]
pub struct Payoff {
    // One in this number of all visits may be lost on the bound.
    lost_share: u64,
    // All work of the search so far.
    done: Cell<u64>,
    // The work that was lost on the bound, less a part of what it saved.
    lost: Cell<u64>,
    levels: [Cell<Level>; LEVELS],
    // No count is open of the work below a node with fewer seats left than this.
    lowest: Cell<u8>,
}

impl Model for Payoff {
    ghost Value = { ⊤ };

    ghost view = { λ _. tt };
}

impl Payoff {
    /// The bound was not made yet. It costs about `cost` visits. One in `lost_share` of all visits may be lost on it.
    pub fn new(lost_share: u64, cost: u64) -> Payoff {
        Payoff {
            lost_share,
            done: Cell::new(0),
            lost: Cell::new(0),
            levels: array::from_fn(|_| Cell::new(Level::first(cost))),
            lowest: Cell::new(0),
        }
    }

    /// Begins a search: the bound is not made until the search has lasted a while. What was learnt in those before
    /// still counts.
    pub fn begin(&self) {
        self.done.set(0);
        self.lost.set(0);
        for level in &self.levels {
            level.update(|level| Level {
                open: None,
                ..level
            });
        }
    }

    /// Counts work, in visits.
    pub fn work(&self, visits: u64) {
        self.done.update(|done| done.saturating_add(visits));
    }

    /// Enters a node with `left` seats left. As a search goes depth first, all work since an earlier node with as many
    /// seats left or fewer was below the earlier node.
    pub fn enter(&self, left: u8) {
        let done = self.done.get();
        let lowest = usize::from(self.lowest.replace(left));
        if let Some(open) = self.levels.get(lowest..usize::from(left) + 1) {
            for level in open {
                level.update(|level| level.closed(done));
            }
        }
        if let Some(level) = self.levels.get(usize::from(left)) {
            level.update(|level| level.entered(done));
        }
    }

    /// Whether to make the bound at the node that was entered last, with `left` seats left.
    pub fn is_due(&self, left: u8) -> bool {
        let Some(level) = self.levels.get(usize::from(left)) else {
            return false;
        };
        let level = level.get();
        let cost = u64::from(level.cost.value);
        let lost = self.lost.get().saturating_add(cost);
        if lost > self.done.get() / self.lost_share.max(1) {
            return false;
        }
        let saved = level.saved(self.work_below(left)).saturating_mul(NARROWED);
        let times = (saved / cost.max(1)).max(1);
        saved >= cost && u64::from(level.nodes) % times.saturating_mul(CAUTION) >= LEFT_ALONE
    }

    /// The work below a node with `left` seats left, as far as it is known: at least that with fewer seats left.
    fn work_below(&self, left: u8) -> u64 {
        let mut most = 0;
        for level in self.levels.iter().take(usize::from(left) + 1) {
            most = u64::from(level.get().below.value).max(most);
        }
        most
    }

    /// Notes the answer of the bound at the node that was entered last, and returns it. It took this work, which is
    /// counted apart.
    pub fn note(&self, node: &Node, work: u64, answer: Option<CandSet>) -> Option<CandSet>
        ensures { result ≡ answer }
    {
        if let Some(level) = self.levels.get(usize::from(node.left)) {
            let saved = u64::from(level.get().below.value);
            self.lost.update(|lost| match answer {
                Some(_) => lost.saturating_add(work),
                None => lost.saturating_sub(saved / MADE_UP),
            });
            level.update(|level| level.noted(answer.is_none(), work));
        }
        answer
    }
}

/// What is known of the nodes with a number of seats left.
#[derive(Clone, Copy)]
struct Level {
    nodes: u32,
    // How often the bound ended a node, in parts, and what it cost.
    success: Mean,
    cost: Mean,
    // The work below a node where the bound was not made.
    below: Mean,
    // All work up to the beginning of the node whose work below is being counted, modulo 2^32.
    open: Option<u32>,
}

impl Level {
    /// Nothing is known but what the bound costs, about.
    fn first(cost: u64) -> Level {
        Level {
            nodes: 0,
            success: HOPED,
            cost: Mean::NONE.with(cost),
            below: Mean::NONE,
            open: None,
        }
    }

    /// The work that the bound saves on average, if there is this much below a node.
    fn saved(self, below: u64) -> u64 {
        below.saturating_mul(u64::from(self.success.value)) / u64::from(PARTS)
    }

    /// Ends the count of the work below a node.
    fn closed(self, done: u64) -> Level {
        let below = match self.open {
            Some(before) => self
                .below
                .with(u64::from(low_half(done).wrapping_sub(before))),
            None => self.below,
        };
        Level {
            below,
            open: None,
            ..self
        }
    }

    /// Enters a node.
    fn entered(self, done: u64) -> Level {
        Level {
            nodes: self.nodes.wrapping_add(1),
            open: Some(low_half(done)),
            ..self
        }
    }

    /// Notes whether the bound ended a node, and what it cost. The work below the node is not measured: a node that a
    /// bound does not end has more work below it than most.
    fn noted(self, ended: bool, work: u64) -> Level {
        Level {
            success: self.success.with(if ended { u64::from(PARTS) } else { 0 }),
            cost: self.cost.with(work),
            open: None,
            ..self
        }
    }
}

/// A number modulo 2^32.
fn low_half(number: u64) -> u32 {
    (number % (1 << 32)) as u32
}

/// About how many of the last numbers a mean is of, so that old ones are forgotten.
const MEMORY: u32 = 50;

/// A running mean, up to `u32::MAX`. There is one for each number of seats left in each copy of a search on the stack.
#[derive(Clone, Copy)]
struct Mean {
    // The count of its numbers, up to 50.
    count: u32,
    value: u32,
}

impl Mean {
    /// The mean of no numbers.
    const NONE: Mean = Mean { count: 0, value: 0 };

    /// The mean once a number has come. Old numbers are forgotten.
    fn with(self, number: u64) -> Mean {
        let count = MEMORY.min(self.count.saturating_add(1));
        let others = u64::from(self.value).saturating_mul(u64::from(count.saturating_sub(1)));
        let value = others.saturating_add(number) / u64::from(count);
        Mean {
            count,
            value: value.min(u64::from(u32::MAX)) as u32,
        }
    }
}
