//! The memory that searches take.
ghost use Rattle.std.specs.Prelude.{◌≡◌};

use super::support::{assert_of, ballot_of};
use ballot_base::{Profile, ProfileBuilder, ThieleRule};
use minimax_search::MinimaxSearch;
use refusing_heap::{Measured, Usage};
use std::alloc::Allocator;
use std::process::Abort;
use thiele_search::{SearchMemory, ThieleSearch};
use tie_search::SearchWinners;

/// The bytes that each different ballot takes.
const BALLOT: usize = 24;

/// The maximum number of bytes that a search under a Thiele rule takes beside those of ballots.
const BESIDE: usize = 915_720;

/// The number of candidates.
const CANDIDATES: u8 = 20;

/// The size of a committee.
const SIZE: u8 = 3;

/// Numbers of different ballots.
static BALLOTS: [u64; 4] = [1, 100, 3_000, 9_000];

/// An election with this many different ballots.
fn different_ballots<'h>(rt: &impl Abort, heap: &'h Measured, ballots: u64) -> Profile<&'h Measured>
    ensures { result.m ≡ 20 }
{
    let mut builder = ProfileBuilder::new(heap, CANDIDATES).expect(rt, "a builder");
    for word in 0..ballots {
        builder
            .add(ballot_of(CANDIDATES, word), 1)
            .expect(rt, "a ballot");
    }
    match builder.finish() {
        Ok(profile) => profile,
        Err(_) => panic!(rt; "no voters"),
    }
}

/// Begins to count anew. Returns the number of bytes in use.
fn count_from_here(heap: &Measured) -> usize {
    let now = heap.usage.get().now;
    heap.usage.set(Usage { now, most: now });
    now
}

/// Asserts that at most this many bytes were taken since the count began.
fn assert_taken(rt: &impl Abort, heap: &Measured, before: usize, most: usize) {
    let taken = heap.usage.get().most.saturating_sub(before);
    assert_of(
        rt,
        taken <= most,
        "bytes taken",
        taken as u128,
        most as u128,
    );
}

/// Asserts that a search under a Thiele rule takes its memory before it begins. The allocator counts into the heap.
fn assert_memory_first<A: Allocator + Copy + Drop>(
    rt: &impl Abort,
    heap: &Measured,
    profile: &Profile<A>,
    alloc: A,
)
    requires { profile.now.m ≡ 20 }
{
    let before = count_from_here(heap);
    let memory = SearchMemory::new(alloc, profile, ThieleRule::Pav, SIZE).expect(rt, "memory");
    let most = BALLOT.saturating_mul(profile.rows()).saturating_add(BESIDE);
    assert_taken(rt, heap, before, most);
    let before = count_from_here(heap);
    let mut winners = SearchWinners::new(ThieleSearch::new(memory), SIZE, None);
    assert_of(rt, winners.next().is_some(), "a winner", 0, 0);
    assert_taken(rt, heap, before, 0);
}

#[test]
fn a_search_takes_its_memory_first(rt: HostRuntime) {
    let heap = Measured::new(rt.alloc());
    for ballots in &BALLOTS {
        let profile = different_ballots(&rt, &heap, *ballots);
        assert_memory_first(&rt, &heap, &profile, &heap);
    }
}

#[test]
fn a_minimax_search_takes_its_memory_first(rt: HostRuntime) {
    let heap = Measured::new(rt.alloc());
    for ballots in &BALLOTS {
        let profile = different_ballots(&rt, &heap, *ballots);
        let before = count_from_here(&heap);
        let search = MinimaxSearch::new(&heap, &profile).expect(&rt, "memory");
        assert_taken(&rt, &heap, before, BALLOT.saturating_mul(profile.rows()));
        let before = count_from_here(&heap);
        let mut winners = SearchWinners::new(search, SIZE, None);
        assert_of(&rt, winners.next().is_some(), "a winner", 0, 0);
        assert_taken(&rt, &heap, before, 0);
    }
}
