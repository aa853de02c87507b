//! Bounds on the committees that complete a set under a Thiele rule, and which of the bounds are worth computing.
//!
//! The value of the set and the gains of the candidates that join bound a committee, since gains only fall as a set
//! grows (`laws::gains`; Nemhauser and Wolsey, Maximizing submodular set functions, 1981). The prices of the whole
//! election come before the gains are counted, and under `cc` the number of voters that the free candidates cover.
//!
//! A bound by pairs of candidates comes before the gains as well (`thiele_bounds::pairs`). It counts a voter who
//! approves two members less than twice. Then come prices of the node itself, whose multipliers are moved
//! (`row_multipliers::multipliers`). Pairs shorten elections whose ballots were drawn independently, and prices those
//! whose ballots have structure. A search begins without both, since a short one ends sooner without them. Each is made
//! only where it pays (`row_multipliers::payoff`).
ghost use Rattle.std.specs.Prelude.{◌≡◌, ℕ, ◌≤◌, true, false, slice_index};
ghost use Rattle.ballot_base.specs.CandSet.{has_member};
ghost use Rattle.ballot_base.specs.Increments.{increments};
ghost use Rattle.ballot_base.specs.declared.increments.ThieleRule.TheVariants.{Cc};
ghost use Rattle.tie_walk.specs.Sequences.{gain};
ghost use Rattle.row_multipliers.specs.Steps.Narrowed.{Narrows};
ghost use Rattle.thiele_search.specs.Steps.Aided.{IsAided, IsGainPlan, IsValued};
ghost use Rattle.row_multipliers.specs.Completions.{IsNode, IsOutOfReach};
ghost use Rattle.tie_walk.specs.Values.{tally_value};

use crate::costs;
use crate::dominance::Dominance;
use crate::symmetry::MOST_CHOSEN;
use crate::thiele::ThieleSearch;
use crate::trials::{FEW_SEATS, Uses};
use crate::uncovered::{MOST_LEFT, Uncovered};
use ballot_base::{CandSet, Clones, ThieleRule, Worths};
use row_multipliers::Node;
use row_multipliers::multipliers::{self, Effort, RowBound};
use std::alloc::Allocator;
use thiele_bounds::{
    AGAIN, HitSums, NODE, PairSearch, PriceSearch, Priced, TripleMemory, TripleSearch,
};
use tie_search::descent::{Narrowing, Plan};
use tie_walk::Tally;

/// With fewer seats left there are no triples, and pairs are not counted either.
const FEWEST_SEATS: u8 = 3;

/// With more voters, good committees have about as many hits as random ones.
const MANY_VOTERS: u64 = 1_000;

/// The aids of a search: clones; dominance, if each hit adds something; prices, if they are worth making; what hits
/// give, for majorants; memory for a table of triples; and which tests helped so far.
#[derive(Drop)]
pub(crate) struct Aids<A: Allocator> {
    pub(crate) clones: Clones,
    pub(crate) dominance: Option<Dominance>,
    pub(crate) priced: Option<Priced<A>>,
    pub(crate) sums: Option<HitSums>,
    pub(crate) table: TripleMemory<A>,
    pub(crate) uses: Uses,
}

/// What a lean search shows.
#[derive(Clone, Copy)]
struct LeanSearch {
    /// Whether no completion of the set reaches the value. Only `true` is certain.
    refutes: bool,
    /// The number of branches that were entered.
    branches: u64,
}

impl LeanSearch {
    /// Nothing was searched.
    const NONE: LeanSearch = LeanSearch {
        refutes: false,
        branches: 0,
    };
}

impl<'a, A: Allocator + Copy> ThieleSearch<'a, A> {
    /// Counts work, in visits, for all that is judged by it.
    fn work(&self, visits: u64) {
        self.pairs.work(visits);
        self.moves.work(visits);
        self.last.work(visits);
        self.symmetries.work(visits);
    }

    /// The free candidates of a node that can still join, by the gains of its set. Returns `None` only if no completion
    /// of the set reaches the value.
    fn promising(&self, gains: &Worths, node: &Node, value: u128, least: u128) -> Option<CandSet>
        requires is_node { IsNode self.now.election.m node.now.set node.now.free }
        requires valued { IsValued self.now node.now.set value }
        requires gains { (n : ℕ) → has_member node.now.free n ≡ true → slice_index gains.now n
            ≡ gain (increments self.now.rule self.now.k) self.now.election.rows node.now.set n }
        ensures { Narrows (tally_value self.now) self.now.election.m node.now least result }
    {
        gains.members_for(node.free, node.left, least.saturating_sub(value))
    }

    /// The free candidates of a node that can still join. Returns `None` only if no completion of its set reaches the
    /// value.
    fn eligible(&self, node: &Node, least: u128, effort: Effort) -> Option<CandSet>
        requires is_node { IsNode self.now.election.m node.now.set node.now.free }
        ensures { Narrows (tally_value self.now) self.now.election.m node.now least result }
    {
        self.covered(node, least)?;
        let free = self.priced(node, least)?;
        let free = self.pair_narrowed(&Node { free, ..*node }, least)?;
        self.moved(&Node { free, ..*node }, least, effort)
    }

    /// Like `eligible`, but by prices whose multipliers are moved, if that is worth its work.
    fn moved(&self, node: &Node, least: u128, effort: Effort) -> Option<CandSet>
        requires is_node { IsNode self.now.election.m node.now.set node.now.free }
        ensures { Narrows (tally_value self.now) self.now.election.m node.now least result }
    {
        match &self.aids.priced {
            Some(priced) if self.moves.is_due(node.left) => {
                let search = PriceSearch {
                    tally: &self.counts.tally,
                    given: &priced.given,
                    multipliers: &priced.multipliers,
                    is_flat: false,
                    least,
                };
                let moved = multipliers::narrowed(&search, &priced.multipliers, node, effort);
                let rows = self.counts.tally.profile().rows();
                let work = costs::round(rows, self.counts.tally.rule()).saturating_mul(u64::from(
                    moved.rounds,
                ));
                self.work(work);
                self.moves.note(node, work, moved.free)
            }
            _ => Some(node.free),
        }
    }

    /// Like `eligible`, but by how many voters the free candidates cover, if this is worth asking. Under rules other
    /// than `cc`, which counts only a voter's first hit, it would seldom give up a set.
    fn covered(&self, node: &Node, least: u128) -> Option<CandSet>
        requires is_node { IsNode self.now.election.m node.now.set node.now.free }
        ensures { Narrows (tally_value self.now) self.now.election.m node.now least result }
    {
        if self.counts.tally.rule() != ThieleRule::Cc {
            return Some(node.free);
        }
        let uses = &self.aids.uses.cover;
        if !uses.are_due() && node.left <= FEW_SEATS {
            return Some(node.free);
        }
        let most = self.value(node.set.union(node.free));
        uses.note((most >= least).then_some(node.free))
    }

    /// Like `eligible`, but by the prices of the whole election, if they are kept and worth asking for.
    fn priced(&self, node: &Node, least: u128) -> Option<CandSet>
        requires is_node { IsNode self.now.election.m node.now.set node.now.free }
        ensures { Narrows (tally_value self.now) self.now.election.m node.now least result }
    {
        let uses = &self.aids.uses.prices;
        let is_due = uses.are_due() || node.left > FEW_SEATS;
        match &self.aids.priced {
            Some(priced) if is_due => uses.note(priced.narrowed(node, least)),
            _ => Some(node.free),
        }
    }

    /// Like `eligible`, but by pairs, if they are worth counting.
    fn pair_narrowed(&self, node: &Node, least: u128) -> Option<CandSet>
        requires is_node { IsNode self.now.election.m node.now.set node.now.free }
        ensures { Narrows (tally_value self.now) self.now.election.m node.now least result }
    {
        self.work(1);
        if !self.may_count_pairs(node) {
            return Some(node.free);
        }
        let work = costs::pairs(node.free.len());
        self.work(work);
        let free = self.by_pairs(node, least);
        self.pairs.note(node, work, free)
    }

    /// Whether pairs are worth counting at a node. Under `cc` they rule out too little: 40 candidates, 10 seats and 500
    /// random voters took 4.2 s with them, and 3.6 s without.
    fn may_count_pairs(&self, node: &Node) -> bool {
        self.counts.tally.rule() != ThieleRule::Cc
            && node.left >= FEWEST_SEATS
            && self.pairs.is_due(node.left)
    }

    /// Like `eligible`, but by a lean search under `cc`, if few seats are left and it is worth its work.
    fn by_uncovered(&self, node: &Node, value: u128, least: u128) -> Option<CandSet>
        requires is_node { IsNode self.now.election.m node.now.set node.now.free }
        requires valued { IsValued self.now node.now.set value }
        ensures { Narrows (tally_value self.now) self.now.election.m node.now least result }
    {
        let is_few = node.left <= MOST_LEFT;
        if self.counts.tally.rule() != ThieleRule::Cc || !is_few || !self.last.is_due(node.left) {
            return Some(node.free);
        }
        let search = self.lean_search(node, value, least);
        let work = costs::lean_search(search.branches);
        self.work(work);
        self.last
            .note(node, work, (!search.refutes).then_some(node.free))
    }

    /// Searches the completions of the set of a node for the value, under `cc`, where few voters are without a hit.
    // Not inlined: its tables take 5 KB of stack, which would lie at each level of a search.
    #[inline(never)]
    fn lean_search(&self, node: &Node, value: u128, least: u128) -> LeanSearch
        requires rule { self.now.rule ≡ Cc }
        requires some { 1 ≤ self.now.k }
        requires is_node { IsNode self.now.election.m node.now.set node.now.free }
        requires valued { IsValued self.now node.now.set value }
        ensures { result.refutes ≡ true → IsOutOfReach (tally_value self.now) self.now.election.m node.now.set
            node.now.free node.now.left least }
    {
        let Some(due) = least.checked_sub(value) else {
            return LeanSearch::NONE;
        };
        let due = due.min(u128::from(u32::MAX));
        match Uncovered::of(self.counts.tally.profile(), node) {
            Some(table) => LeanSearch {
                refutes: table.refutes(node.left, due as u32),
                branches: table.branches.get(),
            },
            None => LeanSearch::NONE,
        }
    }

    /// Like `eligible`, but where a node is entered. A lean search under `cc` comes last: among neighbours prices end
    /// most nodes sooner.
    fn eligible_at_entry(&self, node: &Node, value: u128, least: u128) -> Option<CandSet>
        requires is_node { IsNode self.now.election.m node.now.set node.now.free }
        requires valued { IsValued self.now node.now.set value }
        ensures { Narrows (tally_value self.now) self.now.election.m node.now least result }
    {
        let free = self.bounded_at_entry(node, least)?;
        self.by_uncovered(&Node { free, ..*node }, value, least)
    }

    /// Like `eligible`, but where a node is entered. Triples come last, where they pay.
    fn bounded_at_entry(&self, node: &Node, least: u128) -> Option<CandSet>
        requires is_node { IsNode self.now.election.m node.now.set node.now.free }
        ensures { Narrows (tally_value self.now) self.now.election.m node.now least result }
    {
        let free = self.eligible(node, least, NODE)?;
        self.triple_narrowed(&Node { free, ..*node }, least)
    }

    /// Like `eligible`, but where candidates have left a node after its entry. Triples are counted if the number of
    /// free candidates is a multiple of three.
    fn eligible_again(&self, node: &Node, least: u128) -> Option<CandSet>
        requires is_node { IsNode self.now.election.m node.now.set node.now.free }
        ensures { Narrows (tally_value self.now) self.now.election.m node.now least result }
    {
        let free = self.eligible(node, least, AGAIN)?;
        if node.free.len() % 3 != 0 {
            return Some(free);
        }
        self.triple_narrowed(&Node { free, ..*node }, least)
    }

    /// Like `eligible`, but by triples, if they are worth counting.
    fn triple_narrowed(&self, node: &Node, least: u128) -> Option<CandSet>
        requires is_node { IsNode self.now.election.m node.now.set node.now.free }
        ensures { Narrows (tally_value self.now) self.now.election.m node.now least result }
    {
        if !self.may_count_triples(node) {
            return Some(node.free);
        }
        let work = costs::triples(self.counts.tally.profile().rows(), node.free.len());
        self.work(work);
        self.last.note(node, work, self.by_triples(node, least))
    }

    /// Whether triples are worth counting at a node. Under `cc` they rule out too little. Further down, their tables
    /// would take too much stack.
    fn may_count_triples(&self, node: &Node) -> bool {
        self.counts.tally.rule() != ThieleRule::Cc
            && node.left >= FEWEST_SEATS
            && node.set.len() <= MOST_CHOSEN
            && self.last.is_due(node.left)
    }

    /// Like `eligible`, but by cubic majorants, if at least three seats are left.
    // Not inlined: its tables take 35 KB of stack, which would lie beside the moving of multipliers.
    #[inline(never)]
    fn by_triples(&self, node: &Node, least: u128) -> Option<CandSet>
        requires is_node { IsNode self.now.election.m node.now.set node.now.free }
        ensures { Narrows (tally_value self.now) self.now.election.m node.now least result }
    {
        match &self.aids.sums {
            Some(given) if node.left >= FEWEST_SEATS => {
                let profile = self.counts.tally.profile();
                let search = TripleSearch {
                    profile,
                    given,
                    least,
                    shift: shift_for(profile.voters()),
                    memory: &self.aids.table,
                };
                search.narrowed(node)
            }
            _ => Some(node.free),
        }
    }

    /// Whether flat prices or pairs show that no completion of the set of a root reaches the value. Only `true` is
    /// certain.
    pub(crate) fn falls_short(&self, root: &Node, least: u128) -> bool
        requires is_node { IsNode self.now.election.m root.now.set root.now.free }
        ensures { result ≡ true → IsOutOfReach (tally_value self.now) self.now.election.m root.now.set root.now.free
            root.now.left least }
    {
        let uses = &self.aids.uses.roots;
        uses.note(self.bounded_at_root(root, least)).is_none()
    }

    /// Like `eligible`, but at a root, by flat prices and pairs.
    fn bounded_at_root(&self, node: &Node, least: u128) -> Option<CandSet>
        requires is_node { IsNode self.now.election.m node.now.set node.now.free }
        ensures { Narrows (tally_value self.now) self.now.election.m node.now least result }
    {
        self.flatly_priced(node, least)?;
        self.by_pairs(node, least)
    }

    /// Like `eligible`, but by flat prices.
    fn flatly_priced(&self, node: &Node, least: u128) -> Option<CandSet>
        requires is_node { IsNode self.now.election.m node.now.set node.now.free }
        ensures { Narrows (tally_value self.now) self.now.election.m node.now least result }
    {
        match &self.aids.priced {
            Some(priced) => {
                let search = PriceSearch {
                    tally: &self.counts.tally,
                    given: &priced.given,
                    multipliers: &priced.multipliers,
                    is_flat: true,
                    least,
                };
                search.constraint(node).narrowed(node)
            }
            None => Some(node.free),
        }
    }

    /// Like `eligible`, but by pairs, if at least two seats are left.
    // Not inlined: its tables take 24 KB of stack, which would lie beside the moving of multipliers.
    #[inline(never)]
    fn by_pairs(&self, node: &Node, least: u128) -> Option<CandSet>
        requires is_node { IsNode self.now.election.m node.now.set node.now.free }
        ensures { Narrows (tally_value self.now) self.now.election.m node.now least result }
    {
        match &self.aids.sums {
            Some(given) if node.left >= 2 => {
                let search = PairSearch {
                    profile: self.counts.tally.profile(),
                    given,
                    least,
                };
                search.narrowed(node)
            }
            _ => Some(node.free),
        }
    }
}

impl<'a, A: Allocator + Copy> Narrowing for ThieleSearch<'a, A> {
    ghost is_valued = { λ tally set value. IsValued tally set value };

    ghost is_plan = { λ tally set left plan. IsGainPlan tally set plan };

    fn dominated(&self, node: &Node, tried: u8) -> CandSet {
        let Some(dominance) = &self.aids.dominance else {
            return CandSet::empty();
        };
        if u16::from(node.set.len()) + u16::from(node.left) > u16::from(dominance.k) {
            return CandSet::empty();
        }
        dominance.followers[usize::from(tried)].minus(self.aids.clones.class(tried))
    }

    fn matched(&self, node: &Node, tried: u8) -> CandSet {
        let profile = self.counts.tally.profile();
        self.symmetries
            .matched(profile, &self.aids.clones, node, tried)
    }

    // Where the election has symmetry, a list may be of many ties, and each is sooner asked for.
    fn gives_up(&self) -> bool {
        let profile = self.counts.tally.profile();
        self.symmetries.end_lists(profile, &self.aids.clones)
    }

    fn root_value(&self, node: &Node) -> u128 {
        self.counts.value(node.set)
    }

    fn whole_value(&self, _node: &Node, value: u128) -> u128 {
        value
    }

    fn plan(&self, node: &Node, value: u128, least: u128) -> Option<Plan> {
        self.pairs.enter(node.left);
        self.moves.enter(node.left);
        self.last.enter(node.left);
        self.symmetries.enter(node.left);
        let free = self.eligible_at_entry(node, value, least)?;
        let gains = self.counts.gains(node.set, free);
        let eligible = self.promising(&gains, &Node { free, ..*node }, value, least)?;
        Some(Plan {
            value,
            eligible,
            choices: eligible,
            worths: gains,
            due: least.saturating_sub(value),
            least,
        })
    }

    fn narrowed(&self, plan: &Plan, node: &Node, least: u128) -> Option<CandSet> {
        // Gains are known here, so what they rule out is left out before anything else is counted. In the other order,
        // parties with noise took up to twice as long under `pav`.
        let free = self.promising(&plan.worths, node, plan.value, least)?;
        self.eligible_again(&Node { free, ..*node }, least)
    }

    fn child_value(&self, plan: &Plan, _node: &Node, next: u8) -> u128 {
        plan.value + plan.worths.of(next)
    }
}

/// By how many eighths of a hit cubics are exact sooner. The fewer voters there are, the more hits good committees have
/// beside random ones. 5,000 random voters took twice as many counts with 4, and 500 took half as many again with 7.
fn shift_for(voters: u64) -> u8 {
    if voters > MANY_VOTERS { 7 } else { 4 }
}
