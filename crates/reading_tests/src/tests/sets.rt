//! Sets of candidates, committees in order, and the numbers of Thiele's rules.
use ballot_base::{
    CandSet, Increments, KSets, MOST_CANDIDATES, MOST_MEMBERS, ThieleRule, common_multiple,
};
use std::alloc::Global;
use std::process::Abort;

/// Lists, and how the set of each is shown.
static SETS: [(&[u8], &str); 7] = [
    (&[], "Some({})"),
    (&[1], "Some({1})"),
    (&[1, 3, 64], "Some({1, 3, 64})"),
    (&[1, 3, 3], "None"),
    (&[3, 1], "None"),
    (&[0], "None"),
    (&[65], "None"),
];

/// Asserts how the set of a list is shown.
fn assert_shown(rt: &impl Abort, alloc: Global, list: &[u8], wanted: &str) {
    let text = format!(in alloc; "{:?}", CandSet::of_list(list)).expect(rt, wanted);
    assert!(rt; text.as_str() == wanted, "{list:?}: {text}");
}

#[test]
fn sets_of_lists(rt: HostRuntime) {
    for (list, wanted) in &SETS {
        assert_shown(&rt, rt.alloc(), list, wanted);
    }
}

/// Two sets in words: what either has, whether the first has all members of the second, and whether it comes before.
fn told_of(rt: &impl Abort, alloc: Global, set: CandSet, other: CandSet) -> String {
    let either = set.union(other);
    let (is_superset, is_before) = (set.includes(other), set < other);
    format!(in alloc; "{either:?} {is_superset} {is_before}").expect(rt, "memory")
}

/// Asserts how the set of the last three is shown.
fn assert_last(rt: &impl Abort, alloc: Global) {
    let last = CandSet::after(61, MOST_CANDIDATES);
    let text = told_of(rt, alloc, last, last);
    assert!(rt; text.as_str() == "{62, 63, 64} true false", "{text}");
}

/// Asserts what is found of the sets of two lists.
fn assert_pair(rt: &impl Abort, alloc: Global, pair: Pair) {
    let (list, others, wanted) = pair;
    let set = CandSet::of_list(list).expect(rt, wanted);
    let other = CandSet::of_list(others).expect(rt, wanted);
    let text = told_of(rt, alloc, set, other);
    assert!(rt; text.as_str() == wanted, "{list:?} {others:?}: {text}");
}

/// Lists of two sets, what either has, whether the first has all members of the second, and whether it comes before.
type Pair = (&'static [u8], &'static [u8], &'static str);

static PAIRS: [Pair; 4] = [
    (&[1, 3], &[2, 3], "{1, 2, 3} false true"),
    (&[1, 2, 64], &[2, 64], "{1, 2, 64} true true"),
    (&[2], &[1, 2], "{1, 2} false false"),
    (&[7], &[7], "{7} true false"),
];

#[test]
fn pairs_of_sets(rt: HostRuntime) {
    for pair in &PAIRS {
        assert_pair(&rt, rt.alloc(), *pair);
    }
    assert_last(&rt, rt.alloc());
}

/// Asserts which sets come, one after the other.
fn assert_sets(rt: &impl Abort, mut sets: KSets, lists: &[&[u8]]) {
    for list in lists {
        assert!(rt; sets.next() == CandSet::of_list(list), "{list:?}");
    }
    assert!(rt; sets.next().is_none(), "after all");
}

/// The pairs of four candidates.
static ORDERED: [&[u8]; 6] = [&[1, 2], &[1, 3], &[1, 4], &[2, 3], &[2, 4], &[3, 4]];

/// The pairs come from the first on, and after two of them.
#[test]
fn pairs_in_order(rt: HostRuntime) {
    assert_sets(&rt, KSets::new(4, 2), &ORDERED);
    let middle = CandSet::empty().with(1).with(4);
    assert_sets(&rt, KSets::after(4, 2, middle), &ORDERED[3..]);
    let last = CandSet::empty().with(3).with(4);
    assert_sets(&rt, KSets::after(4, 2, last), &[]);
}

/// Numbers n, and the least common multiple of the numbers 1 to n.
static MULTIPLES: [(u8, u128); 5] = [
    (0, 1),
    (10, 2520),
    (20, 232_792_560),
    (40, 5_342_931_457_063_200),
    (64, 1_182_266_884_102_822_267_511_361_600),
];

/// Rules, sizes of committees, the common denominator, and the first increments; all others are 0.
static INCREMENTS: [(ThieleRule, u8, u128, &[u128]); 4] = [
    (ThieleRule::Pav, 3, 6, &[6, 3, 2]),
    (ThieleRule::Cc, 3, 1, &[1, 0, 0]),
    (ThieleRule::Geom2, 3, 4, &[4, 2, 1]),
    (ThieleRule::Av, 2, 1, &[1, 1]),
];

#[test]
fn multiples(rt: HostRuntime) {
    for (n, wanted) in &MULTIPLES {
        let multiple = common_multiple((*n).min(MOST_CANDIDATES));
        assert!(rt; multiple == *wanted, "{n}: {multiple}");
    }
}

#[test]
fn first_increments(rt: HostRuntime) {
    for (rule, size, denom, first) in &INCREMENTS {
        let increments = Increments::of(*rule, (*size).clamp(1, MOST_MEMBERS));
        let (front, rest) = increments.w.split_at(first.len().min(40));
        let is_right = increments.denom == *denom && front == *first;
        assert!(rt;
            is_right && rest == &[0; 40][first.len().min(40)..],
            "{increments:?}"
        );
    }
}
