//! Multipliers of rows, which a search keeps from node to node.
use super::support::assert_of;
use row_multipliers::multipliers::Multipliers;

/// The multiplier of each row.
const FIRST: u64 = 1000;

/// Ranges that a row is asked for one after another, each with its number that is nearest to `FIRST`.
static RANGES: [(u64, u64, u64); 5] = [
    (0, 10, 10),
    (0, 5000, 1000),
    (2000, 3000, 2000),
    (0, 5000, 1000),
    (1000, 1000, 1000),
];

// Few seats left make a range narrow. If that changed the multiplier, all other nodes would begin with a poor one.
#[test]
fn ranges_leave_the_multiplier_as_it_was(rt: HostRuntime) {
    let multipliers = Multipliers::of(rt.alloc(), 2, FIRST).expect(&rt, "memory");
    for (low, high, nearest) in &RANGES {
        let found = multipliers.within(1, *low, *high);
        let (found, nearest) = (u128::from(found), u128::from(*nearest));
        assert_of(&rt, found == nearest, "a multiplier", found, nearest);
    }
}
