//! Files with changes at random, whole and in pieces.
ghost use Rattle.std.specs.Prelude.{◌<◌};
ghost use Rattle.preflib_text.specs.Approvals.{HasNumber};

use super::pieces::FILES;
use super::support::{assert_outcome, in_pieces, outcome, reading_as};
use preflib_text::{Pick, read_profile};
use std::alloc::Global;
use std::process::Abort;

/// How many changed files are read.
const MUTANTS: u32 = 100_000;

/// The most changes of one file.
const MOST_CHANGES: usize = 3;

/// Numbers that a seed decides (Marsaglia, Xorshift RNGs).
#[derive(Drop)]
struct Numbers {
    state: u64,
}

impl Numbers {
    /// The next number below this one.
    fn below(&mut self, end: usize) -> usize
        requires { 0 < end }
        ensures { result < end }
    {
        self.state ^= self.state << 13;
        self.state ^= self.state >> 7;
        self.state ^= self.state << 17;
        (self.state % end as u64) as usize
    }
}

/// The file with a change of its bytes at some place: one bit turned, another byte there, a byte more, a byte less, or
/// the end cut off.
fn with_other_bytes(rt: &impl Abort, alloc: Global, file: &[u8], numbers: &mut Numbers) -> Vec<u8> {
    let (before, after) = file.split_at(numbers.below(file.len().max(1)));
    let byte = numbers.below(256) as u8;
    let Some((first, rest)) = after.split_first() else {
        return joined(rt, alloc, before, &[byte], &[]);
    };
    match numbers.below(5) {
        0 => joined(rt, alloc, before, &[*first ^ 1 << (byte % 8)], rest),
        1 => joined(rt, alloc, before, &[byte], rest),
        2 => joined(rt, alloc, before, &[byte, *first], rest),
        3 => joined(rt, alloc, before, &[], rest),
        _ => joined(rt, alloc, before, &[], &[]),
    }
}

/// Three parts of a file, one after the other.
fn joined(rt: &impl Abort, alloc: Global, front: &[u8], middle: &[u8], back: &[u8]) -> Vec<u8> {
    [front, middle, back].concat(alloc).expect(rt, "memory")
}

/// Adds a line with its end.
fn push_line(rt: &impl Abort, text: &mut Vec<u8>, line: &[u8]) {
    text.extend_from_slice(line).expect(rt, "memory");
    text.push(b'\n').expect(rt, "memory");
}

/// The file with one line twice, or joined to the next one.
fn with_other_lines(rt: &impl Abort, alloc: Global, file: &[u8], numbers: &mut Numbers) -> Vec<u8> {
    let chosen = numbers.below(10);
    let is_joined = numbers.below(2) == 0;
    let mut changed = Vec::new(alloc);
    for (i, line) in file.split(|byte| *byte == b'\n').enumerate() {
        if i == chosen && is_joined {
            changed.extend_from_slice(line).expect(rt, "memory");
            continue;
        }
        push_line(rt, &mut changed, line);
        if i == chosen {
            push_line(rt, &mut changed, line);
        }
    }
    changed
}

/// The file with a few changes.
fn mutant(rt: &impl Abort, alloc: Global, file: &[u8], numbers: &mut Numbers) -> Vec<u8> {
    let mut changed = joined(rt, alloc, file, &[], &[]);
    for _ in 0..numbers.below(MOST_CHANGES) + 1 {
        changed = if numbers.below(4) == 0 {
            with_other_lines(rt, alloc, changed.as_slice(), numbers)
        } else {
            with_other_bytes(rt, alloc, changed.as_slice(), numbers)
        };
    }
    changed
}

/// Whether a file holds a profile. It has one outcome, as a whole and in pieces of this size.
fn is_profile(rt: &impl Abort, alloc: Global, pick: Pick, file: &[u8], size: usize) -> bool
    requires { HasNumber pick.way }
{
    let whole = read_profile(alloc, file, &pick);
    let is_profile = whole.is_ok();
    let whole = outcome(rt, alloc, whole);
    let pieces = in_pieces(alloc, pick, file, size, size, size);
    assert_outcome(rt, alloc, pieces, whole.as_str(), file, size as u64);
    is_profile
}

/// Whether the next changed file holds a profile. It has one outcome.
fn is_next_profile(rt: &impl Abort, alloc: Global, pick: Pick, numbers: &mut Numbers) -> bool
    requires { HasNumber pick.way }
{
    let file = FILES[numbers.below(FILES.len())].0;
    let changed = mutant(rt, alloc, file, numbers);
    let size = numbers.below(20) + 1;
    is_profile(rt, alloc, pick, &changed, size)
}

/// Each changed file has one outcome. Some changes leave a profile, and some a fault.
#[test]
fn one_outcome_each(rt: HostRuntime) {
    let alloc = rt.alloc();
    let pick = reading_as(&rt, alloc, "");
    let mut numbers = Numbers { state: 20_261_123 };
    let mut profiles = 0u32;
    for _ in 0..MUTANTS {
        let is_profile = is_next_profile(&rt, alloc, pick, &mut numbers);
        profiles = profiles.saturating_add(u32::from(is_profile));
    }
    assert!(rt;
        profiles > MUTANTS / 20 && profiles < MUTANTS / 2,
        "{profiles} profiles"
    );
}
