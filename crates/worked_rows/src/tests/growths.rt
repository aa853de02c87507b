//! Growths that are refused, one after the other.
ghost use Rattle.std.specs.Prelude.{◌≤◌};

use super::runs::{reader, run_on, run_over};
use super::support::{ANSWER, THREE, assert_ended, ending, request};
use refusing_heap::Refusing;
use std::alloc::Global;
use std::process::Abort;
use test_devices::{Fault, Recorder, SliceReader};
use vote_cli::Request;

/// More growths than any of the calls below asks for.
const MANY: u64 = 100;

const MEMORY: &[u8] = b"committees: memory\n";

const READ_FAILED: &[u8] = b"committees: read failed\n";

/// Whether the growth was asked for, and refused.
fn has_refused(heap: &Refusing) -> bool {
    heap.left.get() == 0
}

/// A request, the words that it is from, an input, and what a run over it leaves.
#[derive(Clone, Copy)]
struct Case<'a> {
    words: &'a str,
    request: &'a Request,
    bytes: &'a [u8],
    text: &'a [u8],
}

/// Asserts that a run ends out of memory if the growth with this number is refused, and otherwise as in the case.
/// Returns whether it was refused.
fn is_refused(rt: &impl Abort, alloc: Global, case: Case<'_>, growth: u64) -> bool
    requires { 1 ≤ growth }
{
    let heap = Refusing::new(alloc, growth);
    let ended = run_over(alloc, &heap, case.request, reader(case.bytes));
    let is_refused = has_refused(&heap);
    let left = if is_refused { MEMORY } else { case.text };
    assert_ended(rt, case.words, growth as usize, &ended, ending(left));
    is_refused
}

/// Asserts that a run leaves this text exactly if no growth is refused. Returns how many growths it asks for.
fn growths_of_run(rt: &impl Abort, alloc: Global, words: &str, bytes: &[u8], text: &[u8]) -> u64 {
    let request = &request(rt, alloc, words);
    let case = Case {
        words,
        request,
        bytes,
        text,
    };
    for n in 1..=MANY {
        if !is_refused(rt, alloc, case, n) {
            return n - 1;
        }
    }
    panic!(rt; "each run of {words} has a refused growth")
}

/// Two groups of voters with nothing in common.
const PARTED: &[u8] = b"# DATA TYPE: cat\n# NUMBER ALTERNATIVES: 4\n3: {1,2}\n1: {3,4}\n";

/// Words, an input, what the run leaves, and the fewest growths that it asks for: the room of names and for a line,
/// each name and each new ballot, sets that choices make, and three for a search, or one under minimax.
type Run<'a> = (&'a str, &'a [u8], &'a [u8], u64);

static RUNS: [Run<'static>; 12] = [
    ("elect --rule av --size 1", THREE, ANSWER, 3),
    (
        "elect --rule pav --size 2",
        THREE,
        b"rule pav\nsize 2\nscore 6/2\n1,2\n1,3\n2,3\nend\n",
        6,
    ),
    (
        "elect --rule geom3 --size 2",
        THREE,
        b"rule geom3\nsize 2\nscore 9/3\n1,3\n2,3\nend\n",
        6,
    ),
    (
        "elect --rule minimax --size 2",
        THREE,
        b"rule minimax\nsize 2\ndistance 2\n1,3\n2,3\nend\n",
        4,
    ),
    (
        "elect --rule seqpav --size 2",
        THREE,
        b"rule seqpav\nsize 2\n1,2\n1,3\n2,3\nend\n",
        4,
    ),
    (
        "elect --rule revseqpav --size 1",
        THREE,
        b"rule revseqpav\nsize 1\n1\n2\nend\n",
        4,
    ),
    (
        "check --property jr --committee 3,4",
        PARTED,
        b"violated jr\nlevel 1\ncandidates 1\nvoters 3 of 4\n3: 1,2\n",
        3,
    ),
    ("check --property ejr --committee 1,3", THREE, b"holds\n", 3),
    (
        "share --method dhondt --seats 2 --names p.soi",
        b"# NUMBER ALTERNATIVES: 3\n# ALTERNATIVE NAME 1: Red\n# ALTERNATIVE NAME 3: Blue\n5: 1,2\n3: 3\n2:\n",
        b"method dhondt\nseats 2\n1,0,1\tRed; Blue\nend\n",
        5,
    ),
    (
        "share --method dhondt --seats 2",
        THREE,
        b"committees: request: ManyApproved\n",
        3,
    ),
    // With votes in the words no memory is taken.
    (
        "share --method dhondt --seats 7 --votes 53,24,23",
        THREE,
        b"method dhondt\nseats 7\n4,2,1\nend\n",
        0,
    ),
    (
        "share --method dhondt --seats 7 --votes 4294967296,1",
        THREE,
        b"committees: request: TooManyVotes\n",
        0,
    ),
];

/// Asserts that a run asks for at least the growths that it needs, and for none if that is 0.
fn assert_growths(rt: &impl Abort, alloc: Global, run: Run<'_>) {
    let (words, bytes, text, least) = run;
    let growths = growths_of_run(rt, alloc, words, bytes, text);
    let is_right = growths >= least && (least > 0 || growths == 0);
    assert!(rt; is_right, "{words} asks for {growths} growths");
}

#[test]
fn each_growth_of_a_run(rt: HostRuntime) {
    for run in &RUNS {
        assert_growths(&rt, rt.alloc(), *run);
    }
}

/// How many growths a run asks for before its read of this number, which fails. The bytes come in pieces of 16.
fn growths_before(alloc: Global, request: &Request, bytes: &[u8], call: u64) -> u64 {
    let heap = Refusing::new(alloc, MANY);
    run_over(alloc, &heap, request, SliceReader::failing(bytes, 16, call));
    MANY.saturating_sub(heap.left.get())
}

/// Asserts how a run ends in which the growth with one number is refused and the read with another number fails.
fn assert_first(rt: &impl Abort, alloc: Global, case: Case<'_>, growth: u64, call: u64)
    requires { 1 ≤ growth }
{
    let heap = Refusing::new(alloc, growth);
    let source = SliceReader::failing(case.bytes, 16, call);
    let ended = run_over(alloc, &heap, case.request, source);
    let wanted = ending(case.text);
    assert_ended(rt, case.words, growth as usize, &ended, wanted);
}

/// Asserts that a run in which a growth is refused and a read fails ends by what comes first, with nothing written.
fn assert_first_decides(rt: &impl Abort, alloc: Global, run: Run<'_>, growths: u64) {
    let (words, bytes, _text, _least) = run;
    let request = &request(rt, alloc, words);
    for call in 1..=bytes.len().div_ceil(16) as u64 + 1 {
        let before = growths_before(alloc, request, bytes, call);
        for growth in 1..=growths {
            let text = if growth <= before {
                MEMORY
            } else {
                READ_FAILED
            };
            let case = Case {
                words,
                request,
                bytes,
                text,
            };
            assert_first(rt, alloc, case, growth, call);
        }
    }
}

#[test]
fn a_growth_and_a_read(rt: HostRuntime) {
    for run in &RUNS {
        let (words, bytes, text, _least) = *run;
        let growths = growths_of_run(&rt, rt.alloc(), words, bytes, text);
        assert_first_decides(&rt, rt.alloc(), *run, growths);
    }
}

/// How the two writers fail, and what is written to the second.
type Writers = (Fault, Fault, &'static [u8]);

static WRITERS: [Writers; 6] = [
    (Fault::ErrorAfter(0), Fault::Sound, MEMORY),
    (Fault::ZeroAfter(0), Fault::Sound, MEMORY),
    (Fault::AtFlush, Fault::Sound, MEMORY),
    (Fault::Sound, Fault::ErrorAfter(0), b""),
    (Fault::Sound, Fault::ZeroAfter(0), b""),
    (Fault::Sound, Fault::AtFlush, MEMORY),
];

/// Asserts that a run whose growth of this number is refused ends out of memory, with nothing written but this.
fn assert_memory(rt: &impl Abort, alloc: Global, case: Case<'_>, growth: u64, writers: Writers)
    requires { 1 ≤ growth }
{
    let heap = Refusing::new(alloc, growth);
    let out = Recorder::new(alloc, usize::MAX, writers.0);
    let err = Recorder::new(alloc, usize::MAX, writers.1);
    let ended = run_on(&heap, case.request, reader(case.bytes), out, err);
    let mut wanted = ending(MEMORY);
    wanted.err = writers.2;
    assert_ended(rt, case.words, growth as usize, &ended, wanted);
}

/// Asserts that a run whose growth of this number is refused ends out of memory, with nothing written, whichever writer
/// fails later.
fn assert_growth_decides(rt: &impl Abort, alloc: Global, run: Run<'_>, growth: u64)
    requires { 1 ≤ growth }
{
    let (words, bytes, text, _least) = run;
    let case = Case {
        words,
        request: &request(rt, alloc, words),
        bytes,
        text,
    };
    for writers in &WRITERS {
        assert_memory(rt, alloc, case, growth, *writers);
    }
}

#[test]
fn a_growth_and_a_writer(rt: HostRuntime) {
    for run in &RUNS {
        let (words, bytes, text, _least) = *run;
        for growth in 1..=growths_of_run(&rt, rt.alloc(), words, bytes, text) {
            assert_growth_decides(&rt, rt.alloc(), *run, growth);
        }
    }
}

/// Comments take no memory: 2,100,000 bytes of them before a file make no growth more.
#[test]
fn comments_take_no_memory(rt: HostRuntime) {
    let alloc = rt.alloc();
    let comments = "# X: y\n".repeat(alloc, 300_000).expect(&rt, "memory");
    let long = [comments.as_bytes(), THREE].concat(alloc);
    let long = long.expect(&rt, "memory");
    let words = "elect --rule av --size 1";
    let few = growths_of_run(&rt, alloc, words, THREE, ANSWER);
    let many = growths_of_run(&rt, alloc, words, &long, ANSWER);
    assert!(rt; many == few, "{many} growths, not {few}");
}
