//! Reads and writes that fail.
ghost use Rattle.std.specs.Prelude.{◌≤◌};

use super::long::{all_beside_one, report_of_all};
use super::runs::{reader, run_on, run_over, writer};
use super::support::{ANSWER, THREE, Wanted, assert_ended, ending, request};
use std::alloc::Global;
use std::process::Abort;
use test_devices::{Fault, Recorder, SliceReader};
use vote_cli::Request;

const READ_FAILED: &[u8] = b"committees: read failed\n";

const WRITE_FAILED: &[u8] = b"committees: write failed\n";

/// Words, an input, and what a run leaves of them if no device fails.
type Case<'a> = (&'a str, &'a [u8], &'a [u8]);

/// An input with a fault, and lines after it.
const FAULTY: &[u8] = b"\n\n\n\n\n\n\n\n\n\n\n# NUMBER ALTERNATIVES: 0\n# NUMBER ALTERNATIVES: 3\n";

/// Answers, reports and refusals over an input.
static CASES: [Case<'static>; 10] = [
    ("elect --rule av --size 1", THREE, ANSWER),
    (
        "elect --rule pav --size 2",
        THREE,
        b"rule pav\nsize 2\nscore 6/2\n1,2\n1,3\n2,3\nend\n",
    ),
    (
        "elect --rule minimax --size 1",
        THREE,
        b"rule minimax\nsize 1\ndistance 2\n1\n2\nend\n",
    ),
    (
        "elect --rule seqpav --size 2",
        THREE,
        b"rule seqpav\nsize 2\n1,2\n1,3\n2,3\nend\n",
    ),
    (
        "elect --rule av --size 4",
        THREE,
        b"committees: request: SizeTooLarge\n",
    ),
    (
        "elect --rule av --size 1",
        FAULTY,
        b"committees: input line 12: BadNumber\n",
    ),
    (
        "elect --rule av --size 1",
        b"",
        b"committees: input: NoAlternatives\n",
    ),
    ("check --property jr --committee 1,3", THREE, b"holds\n"),
    (
        "check --property pjr --committee 1,2 --category 2",
        THREE,
        b"violated pjr\nlevel 1\ncandidates 3\nwithin -\nvoters 2 of 3\n2: 3\n",
    ),
    (
        "share --method dhondt --seats 2",
        b"# NUMBER ALTERNATIVES: 2\n# DATA TYPE: cat\n1: 2\n1: 1\n",
        b"method dhondt\nseats 2\n1,1\nend\n",
    ),
];

/// Asserts how a run ends whose read with this number is to fail, and that its flush comes once if it answers. The
/// bytes come in pieces of 16.
fn assert_read(rt: &impl Abort, alloc: Global, request: &Request, case: Case<'_>, call: usize) {
    let (words, bytes, left) = case;
    let source = SliceReader::failing(bytes, 16, call as u64);
    let ended = run_over(alloc, alloc, request, source);
    let wanted = ending(left);
    assert_ended(rt, words, call, &ended, wanted);
    let flushes = ended.out.flushes();
    assert!(rt;
        flushes == u64::from(wanted.err.is_empty()),
        "{words} {call}: {flushes} flushes"
    );
}

/// Asserts that a run ends with a failed read exactly if one of its reads fails. A last read finds the end.
fn assert_reads(rt: &impl Abort, alloc: Global, case: Case<'_>) {
    let (words, bytes, text) = case;
    let request = request(rt, alloc, words);
    let reads = bytes.len().div_ceil(16) + 1;
    for call in 1..=reads + 1 {
        let left = if call <= reads { READ_FAILED } else { text };
        assert_read(rt, alloc, &request, (words, bytes, left), call);
    }
}

#[test]
fn each_read_fails_in_turn(rt: HostRuntime) {
    for case in &CASES {
        assert_reads(&rt, rt.alloc(), *case);
    }
}

/// Asserts that the output has a beginning of the text after a write of it has failed at this byte, or its flush.
fn assert_beginning(
    rt: &impl Abort,
    alloc: Global,
    request: &Request,
    case: Case<'_>,
    taken: usize,
) {
    let (_words, bytes, text) = case;
    let faults = [
        (usize::MAX, Fault::ErrorAfter(taken)),
        (usize::MAX, Fault::ZeroAfter(taken)),
        (1, Fault::ErrorAfter(taken)),
        (1, Fault::ZeroAfter(taken)),
    ];
    for (piece, fault) in faults {
        let fault = if taken == text.len() {
            Fault::AtFlush
        } else {
            fault
        };
        let out = Recorder::new(alloc, piece, fault);
        let ended = run_on(alloc, request, reader(bytes), out, writer(alloc));
        let wanted = Wanted {
            status: 6,
            out: &text[..taken.min(text.len())],
            err: WRITE_FAILED,
        };
        assert_ended(rt, "a failed write after", taken, &ended, wanted);
    }
}

/// Like `assert_beginning`, from the first byte on, by steps of `step` bytes.
fn assert_beginnings(rt: &impl Abort, alloc: Global, case: Case<'_>, step: usize)
    requires { 1 ≤ step }
{
    let (words, _bytes, text) = case;
    let request = request(rt, alloc, words);
    for taken in (0..=text.len()).step_by(step) {
        assert_beginning(rt, alloc, &request, case, taken);
    }
}

/// Whether a run that leaves this text refuses its input or its request.
fn is_refusal(text: &[u8]) -> bool {
    text.starts_with(b"committees: ")
}

#[test]
fn each_byte_of_the_output_is_not_taken(rt: HostRuntime) {
    for case in &CASES {
        if !is_refusal(case.2) {
            assert_beginnings(&rt, rt.alloc(), *case, 1);
        }
    }
}

/// A report is written in several pieces, and a write of any of them may fail.
#[test]
fn a_long_report_is_not_taken(rt: HostRuntime) {
    let alloc = rt.alloc();
    let file = all_beside_one(&rt, alloc, "{", "}");
    let report = report_of_all(&rt, alloc);
    let words = "check --property jr --committee 40 --kind cat";
    let case = (words, file.as_bytes(), report.as_bytes());
    assert_beginnings(&rt, alloc, case, 997);
}

/// A writer of the errors: how many bytes it takes at once, its fault, and how many it takes in all.
type Writer = (usize, Fault, usize);

/// Asserts that the status and the output stay, and that a beginning of the line is taken, if this writer fails.
fn assert_error(
    rt: &impl Abort,
    alloc: Global,
    request: &Request,
    case: Case<'_>,
    failing: Writer,
) {
    let (words, bytes, line) = case;
    let (piece, fault, taken) = failing;
    let err = Recorder::new(alloc, piece, fault);
    let ended = run_on(alloc, request, reader(bytes), writer(alloc), err);
    let mut wanted = ending(line);
    wanted.err = &line[..taken.min(line.len())];
    assert_ended(rt, words, taken, &ended, wanted);
}

/// Like `assert_error`, wherever a write of the errors fails.
fn assert_errors(rt: &impl Abort, alloc: Global, case: Case<'_>) {
    let (words, _bytes, line) = case;
    let request = request(rt, alloc, words);
    for taken in 0..=line.len() {
        for failing in [
            (usize::MAX, Fault::ErrorAfter(taken), taken),
            (taken.max(1), Fault::ZeroAfter(taken), taken),
            (1, Fault::AtFlush, line.len()),
        ] {
            assert_error(rt, alloc, &request, case, failing);
        }
    }
}

#[test]
fn each_byte_of_the_errors_is_not_taken(rt: HostRuntime) {
    for case in &CASES {
        if is_refusal(case.2) {
            assert_errors(&rt, rt.alloc(), *case);
        }
    }
}
