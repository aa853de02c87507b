//! Bounds on committees that are near each ballot (minimax), for a search from set to set.
//!
//! A ballot is no farther than a distance from a committee of `k` exactly if it has enough hits: half of the excess of
//! its size and `k` together over the distance, rounded up (`laws::needs`). A set is given up if a ballot needs more
//! hits than there are seats left, or than it has free candidates. If a ballot needs a hit from each seat left, all
//! candidates that are not on it leave. One of the free candidates on the ballot that can spare the fewest must join.
//! Ballots that get the hits that they need in any case are left out (module `rows`).
//!
//! If several seats are left and several candidates are to be tried, all needs are also added up, each with a weight
//! (module `weights`).
ghost use Rattle.std.specs.Prelude.{◌≡◌, ◌⊎◌, ◌≤◌, ⊤};
ghost use Rattle.row_multipliers.specs.Completions.{IsNode};
ghost use Rattle.minimax_search.specs.Steps.Search.{Branches, IsNearPlan};

use crate::minimax::MinimaxSearch;
use crate::needs::still_needed;
use crate::weights::{NeedSearch, Weighing, eligible};
use ballot_base::CandSet;
use row_multipliers::Node;
use std::alloc::Allocator;
use tie_search::descent::{Narrowing, Plan};
use tie_walk::{MinimaxTally, Tally};

/// With fewer seats left than this, going through the sets takes less time than weighing needs, although weights rule
/// out a third of the sets and more. Any number works.
const FEWEST_SEATS: u8 = 4;

/// With fewer candidates to try than this, going through the sets takes less time as well. With 1, elections of 16 to
/// 20 candidates took 15 to 30 % more instructions; with 4, those of 20 seats among 40 took 44 % more. Any works.
const FEWEST_CHOICES: u8 = 3;

/// With fewer seats left than this, passing over rows that do not matter takes less time than moving them away. With 1,
/// elections of 16 candidates took 6 to 8 % more instructions. Any number works.
const FEWEST_TO_SORT: u8 = 3;

impl<A: Allocator + Copy> Narrowing for MinimaxSearch<'_, A> {
    // No value is kept: a whole committee is valued when it is reached.
    ghost is_valued = { λ election set value. ⊤ };

    ghost is_plan = { λ election set left plan. IsNearPlan election set left plan };

    fn root_value(&self, _node: &Node) -> u128 {
        0
    }

    fn whole_value(&self, node: &Node, _value: u128) -> u128 {
        MinimaxTally::new(self.profile).value(node.set)
    }

    fn gives_up(&self) -> bool {
        self.lists.is_over()
    }

    fn plan(&self, node: &Node, value: u128, least: u128) -> Option<Plan> {
        self.lists.enter(least);
        let m = self.m();
        if least > u128::from(m) {
            return None;
        }
        let most = m - least as u8;
        let (choices, free) = self.choices(node, most)?;
        let search = NeedSearch {
            profile: self.profile,
            rows: &self.rows,
            weighing: self.weighing(node.left, choices),
            most,
        };
        let free = search.moved(&Node { free, ..*node }, &self.moves)?;
        let here = Node { free, ..*node };
        let needs = search.constraint(&here);
        Some(Plan {
            value,
            eligible: eligible(&needs, &here)?,
            choices,
            worths: needs.worths,
            due: needs.due.saturating_sub(needs.paid),
            least,
        })
    }

    fn narrowed(&self, plan: &Plan, node: &Node, least: u128) -> Option<CandSet> {
        if least > u128::from(self.m()) {
            return None;
        }
        if plan.due == 0 {
            return Some(node.free);
        }
        plan.worths.members_for(node.free, node.left, plan.due)
    }

    fn child_value(&self, _plan: &Plan, _node: &Node, _next: u8) -> u128 {
        0
    }
}

/// The tightest ballot so far: the one that can spare the fewest candidates. Any ballot that needs a hit works; a tight
/// one leaves few candidates to try.
#[derive(Clone, Copy)]
struct Tightest {
    /// The candidates on the ballot that can still join.
    choices: CandSet,
    /// How many of them the ballot can spare.
    spare: u8,
    needed: u8,
}

impl Tightest {
    /// No ballot yet, so any candidate may be tried.
    fn none(free: CandSet) -> Tightest
        ensures { result.choices ≡ free }
    {
        Tightest {
            choices: free,
            spare: u8::MAX,
            needed: 0,
        }
    }

    /// The tighter of this ballot and another one, which needs some of its candidates.
    fn or(self, choices: CandSet, needed: u8) -> Tightest
        ensures { (result.choices ≡ choices) ⊎ (result.choices ≡ self.choices) }
    {
        let spare = choices.len().saturating_sub(needed);
        if spare < self.spare || spare == self.spare && needed > self.needed {
            return Tightest {
                choices,
                spare,
                needed,
            };
        }
        self
    }
}

impl<A: Allocator + Copy> MinimaxSearch<'_, A> {
    /// Two sets: branching candidates, at least one of which must join so that no ballot is farther than `most`; and
    /// the candidates that are still eligible. Returns `None` if some ballot needs more hits than it can have.
    fn choices(&self, node: &Node, most: u8) -> Option<(CandSet, CandSet)>
        requires is_node { IsNode self.now.m node.now.set node.now.free }
        requires some { 1 ≤ node.now.left }
        ensures { Branches self.now most node.now result }
    {
        if node.free.len() < node.left {
            return None;
        }
        let mut tightest = Tightest::none(node.free);
        let mut rest = node.free;
        let mut size = rest.len();
        let rows = self.profile.rows();
        let mut matter = self.rows.count_above(node.left);
        let mut place: usize = 0;
        for _visit in 0..matter {
            let (ballot, _voters) = self.profile.row(self.rows.row(place, rows));
            let needed = still_needed(ballot, node, most);
            let open = ballot.common(rest);
            let others = size.saturating_sub(open.len());
            if needed == 0 || needed <= node.left.saturating_sub(others) {
                // Each completion gives the ballot the hits that it needs.
                if node.left < FEWEST_TO_SORT {
                    place = place.saturating_add(1);
                } else {
                    matter = matter.saturating_sub(1);
                    self.rows.exchange(place, matter);
                }
                continue;
            }
            if needed > node.left.min(open.len()) {
                // The ballot often refutes the next node as well.
                self.rows.exchange(place, 0);
                return None;
            }
            if needed == node.left {
                rest = open;
                size = open.len();
            }
            tightest = tightest.or(open, needed);
            place = place.saturating_add(1);
        }
        self.rows.note(node.left, matter);
        Some((tightest.choices, rest))
    }

    /// Enters a node with `left` seats left, and chooses weights. The `choices` are to be tried.
    fn weighing(&self, left: u8, choices: CandSet) -> Weighing<'_> {
        self.moves.enter(left);
        if left < FEWEST_SEATS || choices.len() < FEWEST_CHOICES {
            return Weighing::Nothing;
        }
        if self.moves.is_due(left) {
            Weighing::Moved
        } else {
            Weighing::ByShare(&self.shares)
        }
    }
}
