//! Allocations one by one, and requests that are refused.
use seat_share::{Method, ShareFault, Shares};
use std::process::Abort;

/// The votes, the method, the seats and a start; and the first allocation, if one is left, and whether there are more.
type Case = (
    &'static [u64],
    Method,
    u16,
    Option<&'static [u16]>,
    &'static [u16],
    bool,
);

static FIRST_ALLOCATIONS: [Case; 6] = [
    // Starts with more seats than may be shared out, which no list in words can have.
    (
        &[53, 24, 23],
        Method::Dhondt,
        7,
        Some(&[0, 65_535, 65_535]),
        &[4, 2, 1],
        false,
    ),
    (
        &[53, 24, 23],
        Method::Dhondt,
        7,
        Some(&[10_001, 0, 0]),
        &[],
        false,
    ),
    (
        &[1; 40],
        Method::Adams,
        20,
        None,
        &[
            0, 0, 0, 0, 0, 0, 0, 0, 0, 0, 0, 0, 0, 0, 0, 0, 0, 0, 0, 0, 1, 1, 1, 1, 1, 1, 1, 1, 1,
            1, 1, 1, 1, 1, 1, 1, 1, 1, 1, 1,
        ],
        true,
    ),
    (
        &[1; 41],
        Method::Adams,
        20,
        None,
        &[
            0, 0, 0, 0, 0, 0, 0, 0, 0, 0, 0, 0, 0, 0, 0, 0, 0, 0, 0, 0, 0, 1, 1, 1, 1, 1, 1, 1, 1,
            1, 1, 1, 1, 1, 1, 1, 1, 1, 1, 1, 1,
        ],
        true,
    ),
    (
        &[1; 64],
        Method::Adams,
        20,
        None,
        &[
            0, 0, 0, 0, 0, 0, 0, 0, 0, 0, 0, 0, 0, 0, 0, 0, 0, 0, 0, 0, 0, 0, 0, 0, 0, 0, 0, 0, 0,
            0, 0, 0, 0, 0, 0, 0, 0, 0, 0, 0, 0, 0, 0, 0, 1, 1, 1, 1, 1, 1, 1, 1, 1, 1, 1, 1, 1, 1,
            1, 1, 1, 1, 1, 1,
        ],
        true,
    ),
    // Some 10^18 allocations come before the start, which is not one itself; no walk over them would end.
    (
        &[1; 64],
        Method::Adams,
        32,
        Some(&[
            1, 0, 0, 0, 0, 0, 0, 0, 0, 0, 0, 0, 0, 0, 0, 0, 0, 0, 0, 0, 0, 0, 0, 0, 0, 0, 0, 0, 0,
            0, 0, 0, 0, 0, 0, 0, 0, 0, 0, 0, 0, 0, 0, 0, 0, 0, 0, 0, 0, 0, 0, 0, 0, 0, 0, 0, 0, 0,
            0, 0, 0, 0, 0, 0,
        ]),
        &[
            1, 0, 0, 0, 0, 0, 0, 0, 0, 0, 0, 0, 0, 0, 0, 0, 0, 0, 0, 0, 0, 0, 0, 0, 0, 0, 0, 0, 0,
            0, 0, 0, 0, 1, 1, 1, 1, 1, 1, 1, 1, 1, 1, 1, 1, 1, 1, 1, 1, 1, 1, 1, 1, 1, 1, 1, 1, 1,
            1, 1, 1, 1, 1, 1,
        ],
        true,
    ),
];

/// Asserts the first allocation of a row, and whether there are more.
fn assert_first(rt: &impl Abort, case: &Case) {
    let (votes, method, seats, start, first, has_more) = *case;
    let mut shares = Shares::new(votes, method, seats, start).expect(rt, "no fault");
    let is_first = match shares.next() {
        Some(allocation) => allocation.seats() == first,
        None => first.is_empty(),
    };
    let is_right = is_first
        && shares.next().is_some() == has_more
        && shares.next().is_some() == has_more;
    assert!(rt; is_right, "{seats} seats, first {first:?}");
}

#[test]
fn first_allocations(rt: HostRuntime) {
    for case in &FIRST_ALLOCATIONS {
        assert_first(&rt, case);
    }
}

/// The allocations of eight seats to sixteen equal parties that come after a start, or all of them.
fn eight_seats(rt: &impl Abort, start: Option<&[u16]>) -> Shares {
    Shares::new(&[1; 16], Method::Adams, 8, start).expect(rt, "no fault")
}

/// All 12,870 allocations by one walk, and each by a walk of its own that starts after the one before.
#[test]
fn one_at_a_time(rt: HostRuntime) {
    let mut walk = eight_seats(&rt, None);
    let mut next = eight_seats(&rt, None).next();
    for place in 0..12870 {
        let allocation = walk.next().expect(&rt, "an allocation");
        let after = next.expect(&rt, "an allocation after a start");
        assert!(rt; after.seats() == allocation.seats(), "{place}");
        next = eight_seats(&rt, Some(after.seats())).next();
    }
    assert!(rt; walk.next().is_none() && next.is_none());
}

/// Votes, seats and a start that no method takes, and why not.
static FAULTS: [(&[u64], u16, Option<&[u16]>, ShareFault); 15] = [
    (&[], 1, None, ShareFault::NoParties),
    (&[], 0, Some(&[0]), ShareFault::NoParties),
    (&[0; 65], 0, None, ShareFault::TooManyParties),
    (&[1; 65], 1, Some(&[]), ShareFault::TooManyParties),
    (&[0, 0], 1, None, ShareFault::NoVotes),
    (&[0, 0], 0, Some(&[]), ShareFault::NoVotes),
    (&[4294967296, 1], 1, None, ShareFault::TooManyVotes),
    (&[4294967297], 0, Some(&[]), ShareFault::TooManyVotes),
    (&[u64::MAX, u64::MAX, 2], 1, None, ShareFault::TooManyVotes),
    (&[1], 0, None, ShareFault::BadSeats),
    (&[1], 10001, Some(&[]), ShareFault::BadSeats),
    (&[1], 65535, None, ShareFault::BadSeats),
    (&[1, 1], 1, Some(&[0]), ShareFault::AfterLength),
    (&[1, 1], 1, Some(&[]), ShareFault::AfterLength),
    (
        &[53, 24, 23],
        7,
        Some(&[4, 2, 1, 0]),
        ShareFault::AfterLength,
    ),
];

#[test]
fn faults(rt: HostRuntime) {
    for (votes, seats, after, fault) in &FAULTS {
        let refused = Shares::new(votes, Method::Dhondt, *seats, *after).err();
        assert!(rt; refused == Some(*fault), "{fault:?}");
    }
}
