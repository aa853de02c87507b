//! Prices of candidates: a bound that needs no gains.
//!
//! Choose any multiplier for each row. A voter then gives a completion of a set at most a constant, and the multiplier
//! for each hit after those at the set. The constant is a maximum over the numbers of hits that the node allows: what
//! the hits give, less the multiplier for each further hit. Summed over the voters, no completion of the set is worth
//! more than all constants and the prices of the candidates that join (`laws::prices`; Fisher, The Lagrangian
//! relaxation method for solving integer programming problems, 1981).
//!
//! The multipliers are moved (`row_multipliers::multipliers`). With prices of the whole election only, five parties
//! with noise, 64 candidates and 10 seats took 8 s and not 0.8 s under `pav`.
ghost use Rattle.std.specs.Prelude.{◌≡◌, ℕ, ◌+◌, ◌*◌, ◌<◌, ◌≤◌, List, [], slice_index, MatchOption, if◌then◌else◌, ⊤};
ghost use Rattle.ballot_base.specs.CandSet.{has_member};
ghost use Rattle.ballot_base.specs.Limits.{most_candidates, most_members, worth_limit};
ghost use Rattle.ballot_base.specs.Increments.{increments};
ghost use Rattle.tie_walk.specs.Values.{Thiele, tally_value};
ghost use Rattle.row_multipliers.specs.Completions.{IsNode};
ghost use Rattle.row_multipliers.specs.Steps.Narrowed.{Narrows};
ghost use Rattle.thiele_bounds.specs.Steps.Paired.{AreSums};
ghost use Rattle.thiele_bounds.specs.Steps.Units.{most_given, most_priced};
ghost use Rattle.thiele_bounds.specs.Steps.Priced.{ArePrices};
ghost use Rattle.thiele_bounds.specs.Steps.Totals.{BoundNode};

use crate::majorant::{HitSums, mean_hits};
use ballot_base::{CandSet, Worths};
use row_multipliers::Node;
use row_multipliers::multipliers::{self, Constraint, Effort, Gap, Multipliers, RowBound};
use std::alloc::Allocator;
use tie_walk::{Tally, ThieleTally};

/// The units of the first hit, about: enough that rounding matters little.
const UNITS: u128 = 1 << 40;

/// Multipliers of a whole search go on moving only if the gap is at most the value divided by this. Ballots that were
/// drawn independently leave more, whatever the multipliers; small elections of these took 0.02 s longer.
const LARGE_GAP: u128 = 64;

/// The effort at a node.
pub const NODE: Effort = Effort {
    rounds: 15,
    patience: 4,
    large_gap: None,
};

/// The effort at the same node after a candidate has left.
pub const AGAIN: Effort = Effort { rounds: 3, ..NODE };

/// The effort for a whole search, once, if committees of a value of `units` units are looked for.
fn root(units: u128) -> Effort {
    Effort {
        rounds: 400,
        patience: 20,
        large_gap: Some(units / LARGE_GAP),
        ..NODE
    }
}

/// What a search looks for by prices: the values of committees, what hits give, a multiplier for each row, and the
/// value that a committee has to reach.
#[derive(Drop)]
pub struct PriceSearch<'a, A: Allocator + Copy> {
    pub tally: &'a ThieleTally<'a, A>,
    pub given: &'a HitSums,
    pub multipliers: &'a Multipliers<A>,
    /// Whether prices are flat: the multiplier of a ballot is what a hit gives after its mean number of hits, and does
    /// not move. No prices are lower if all ballots can have about as many hits, as those of a grid's rows and columns.
    pub is_flat: bool,
    pub least: u128,
    ghost size: { tally.now.election.m ≤ most_candidates },
    ghost sums: { AreSums (increments tally.now.rule tally.now.k) given.now.scale given.now.unit given.now.sums },
}

/// What all voters keep at a node, and the price of each free candidate, in units.
#[derive(Drop)]
pub struct Prices {
    pub constant: u128,
    pub worths: Worths,
}

impl<A: Allocator + Copy> PriceSearch<'_, A> {
    /// The prices at a node, by the present multipliers.
    fn prices(&self, node: &Node) -> Prices
        requires is_node { IsNode self.now.tally.now.election.m node.now.set node.now.free }
        ensures totals { BoundNode self.now.given.now self.now.tally.now.election node.now result.constant
            result.worths [] }
        ensures constant { result.constant ≤ most_priced }
        ensures worths { (n : ℕ) → slice_index result.worths n ≤ most_priced }
    {
        let mut constant = 0;
        let mut worths = Worths::none();
        let profile = self.tally.profile();
        for i in 0..profile.rows() {
            let (ballot, voters) = profile.row(i);
            let approved = ballot.common(node.free);
            let before = ballot.common(node.set).len();
            let most = node.left.min(approved.len());
            let multiplier = self.multiplier(i, node, before, approved.len());
            let count = u128::from(voters);
            let (given, wanted) = self.given.constant(before, most, multiplier);
            self.multipliers.want(i, wanted);
            constant += count * u128::from(given);
            add_price(&mut worths, approved, count * u128::from(multiplier));
        }
        Prices { constant, worths }
    }

    /// The multiplier of row i, which has `before` hits and approves `approved` free candidates of a node. It is first
    /// moved between what the first further hit gives and what the hit after the last would give.
    fn multiplier(&self, i: usize, node: &Node, before: u8, approved: u8) -> u64
        requires fits { before + approved ≤ most_candidates }
        ensures { result ≤ most_given }
    {
        let most = node.left.min(approved);
        if self.is_flat {
            let mean = mean_hits(approved, node.left, node.free.len());
            return self.given.increment(before + mean.min(most));
        }
        let first = self.given.increment(before);
        let last = self.given.increment(before + most);
        self.multipliers.within(i, last, first)
    }

    /// Begins between the increments of the last hit of a good committee, if there is one, and of the next one.
    fn begin(&self, good: CandSet) {
        let profile = self.tally.profile();
        for i in 0..profile.rows() {
            let hits = profile.row(i).0.common(good).len();
            let next = self.given.increment(hits);
            let last = self.given.increment(hits.saturating_sub(1));
            self.multipliers.begin(i, next / 2 + last / 2);
        }
    }
}

/// Adds a price to the worth of each of these candidates. Under `cc`, most are 0: those of voters whose hits suffice.
fn add_price(worths: &mut Worths, approved: CandSet, price: u128)
    requires fits { (n : ℕ) → slice_index worths.old n + price < worth_limit }
    ensures { (n : ℕ) → slice_index worths.new n
        ≡ slice_index worths.old n + (if has_member approved n then price else 0) }
{
    if price > 0 {
        worths.add(approved, price);
    }
}

impl<A: Allocator + Copy> RowBound for PriceSearch<'_, A> {
    ghost candidates = { λ search. search.tally.now.election.m };

    ghost value_of = { λ search set. tally_value search.tally.now set };

    ghost least = { λ search. search.least };

    fn constraint(&self, node: &Node) -> Constraint {
        let Prices { constant, worths } = self.prices(node);
        Constraint {
            paid: constant,
            due: self.given.units(self.least),
            worths,
        }
    }

    fn gap(&self, constraint: &Constraint, best: CandSet) -> Gap {
        let excess = constraint.excess(best);
        Gap {
            size: excess,
            closing_step: excess.saturating_add(1),
        }
    }

    fn aim(&self, _node: &Node, best: CandSet) -> u128 {
        let mut square: u128 = 0;
        let profile = self.tally.profile();
        for i in 0..profile.rows() {
            let (ballot, voters) = profile.row(i);
            let size = self.multipliers.aim(i, ballot.common(best).len());
            square = square.saturating_add(u128::from(size) * u128::from(voters));
        }
        square
    }
}

/// The prices of a search among the committees of `k`: their parts, and the lowest prices of the whole election.
#[derive(Drop)]
pub struct Priced<A: Allocator> {
    pub k: u8,
    pub given: HitSums,
    pub multipliers: Multipliers<A>,
    pub whole: Prices,
    /// The candidates of the highest prices.
    pub dearest: CandSet,
    /// Whether the prices show that no committee is better than the one that they were made for.
    pub show_best: bool,
}

impl<A: Allocator + Copy> Priced<A> {
    /// Prices for the committees of `k`, by these multipliers. They are low if no committee is much better than `good`.
    /// Returns `None` only if what hits give is too large, as under no rule.
    pub fn of(
        multipliers: Multipliers<A>,
        values: &ThieleTally<A>,
        k: u8,
        good: CandSet,
    ) -> Option<Priced<A>>
        requires some { 1 ≤ k }
        requires size { k ≤ most_members }
        requires k_is { k ≡ values.now.k }
        ensures { MatchOption result ⊤ (ArePrices values.now) }
    {
        let given = HitSums::of(values.rule(), k, UNITS)?;
        let candidates = CandSet::all(values.m());
        let all = Node {
            set: CandSet::empty(),
            free: candidates,
            left: k,
        };
        let search = PriceSearch {
            tally: values,
            given: &given,
            multipliers: &multipliers,
            is_flat: false,
            least: values.value(candidates.common(good)).saturating_add(1),
        };
        search.begin(good);
        let effort = root(given.units(search.least));
        let moved = multipliers::narrowed(&search, &multipliers, &all, effort);
        let whole = search.prices(&all);
        Some(Priced {
            k,
            given,
            multipliers,
            whole,
            dearest: moved.best,
            show_best: moved.free.is_none(),
        })
    }

    /// The free candidates of a node that can still join, by the prices of the whole election. Returns `None` only if
    /// no completion of its set reaches the value. In a committee of another size than `k` all can still join.
    pub fn narrowed(&self, node: &Node, least: u128) -> Option<CandSet>
        ensures { (tally : Thiele) → ArePrices tally self.now → tally.election.m ≤ most_candidates
            → IsNode tally.election.m node.now.set node.now.free
            → Narrows (tally_value tally) tally.election.m node.now least result }
    {
        if u16::from(node.set.len()) + u16::from(node.left) != u16::from(self.k) {
            return Some(node.free);
        }
        let Prices { constant, worths } = &self.whole;
        let paid = constant.saturating_add(worths.excess(node.set, 0));
        let due = self.given.units(least).saturating_sub(paid);
        worths.members_for(node.free, node.left, due)
    }
}
