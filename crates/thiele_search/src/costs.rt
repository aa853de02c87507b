//! What bounds cost, in visits to a set. Any numbers work.
//!
//! Costs are between a half and all of those that were measured with 31 to 2,000 different ballots, except those of a
//! lean search, which are a quarter.
use ballot_base::ThieleRule;
use row_multipliers::Payoff;

/// One in this number of all visits may be lost on each bound.
const LOST_SHARE: u64 = 24;

/// How many branches a lean search enters, about.
const FIRST_BRANCHES: u64 = 64;

/// The cost of a lean search that enters this many branches: that of its table, and an eighth of a visit for each.
pub(crate) fn lean_search(branches: u64) -> u64 {
    2 + branches / 8
}

/// The cost of counting pairs: a bound for each of the free candidates, with each of the others. A visit takes longer
/// with many ballots too, so their number makes no difference.
pub(crate) fn pairs(free: u8) -> u64 {
    let free = u64::from(free);
    (free * free).div_ceil(47)
}

/// About how many rounds move the multipliers of a node.
const FIRST_ROUNDS: u64 = 6;

/// The cost of a round that moves multipliers. With many ballots a visit takes longer, too. Under `cc` it takes less,
/// since it counts first hits only.
pub(crate) fn round(rows: usize, rule: ThieleRule) -> u64 {
    let (rows_per_visit, most) = if rule == ThieleRule::Cc {
        (24, 36)
    } else {
        (86, 9)
    };
    most.min(rows.div_ceil(rows_per_visit) as u64)
}

/// The cost of counting triples: a pass over the ballots, and a bound for each pair of the free candidates, with each
/// of the others. A visit takes longer with many ballots too.
pub(crate) fn triples(rows: usize, free: u8) -> u64 {
    let free = u64::from(free);
    let rows = rows as u64;
    free.saturating_mul(rows.saturating_add(4 * free * free))
        / rows.saturating_mul(4).saturating_add(240)
}

/// Nothing is known of pairs yet.
pub(crate) fn counted_pairs(m: u8) -> Payoff {
    Payoff::new(LOST_SHARE, pairs(m))
}

/// Nothing is known of moved multipliers yet.
pub(crate) fn moved(rows: usize, rule: ThieleRule) -> Payoff {
    Payoff::new(LOST_SHARE, round(rows, rule).saturating_mul(FIRST_ROUNDS))
}

/// Nothing is known of the last bound of a node yet: that of triples, and under `cc` that of a lean search.
pub(crate) fn last_bound(rows: usize, m: u8, rule: ThieleRule) -> Payoff {
    let cost = if rule == ThieleRule::Cc {
        lean_search(FIRST_BRANCHES)
    } else {
        triples(rows, m)
    };
    Payoff::new(LOST_SHARE, cost)
}
