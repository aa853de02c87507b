//! Answers that a failed write cut off, and the second runs that fetch the rest.
use super::listings::{LISTINGS, Listing, listing_of};
use super::runs::{reader, run_on, writer};
use super::support::{THREE, Wanted, assert_ended, assert_leaves, request};
use std::alloc::Global;
use std::process::Abort;
use test_devices::{Fault, Recorder};

/// Asserts that a second run fetches what is missing after this beginning of a text: it starts after the last whole
/// answer, with what is left of the limit. If no answer is whole, or if the limit leaves only the last line missing,
/// there is no such run.
fn assert_fetched(
    rt: &impl Abort,
    alloc: Global,
    listing: Listing<'_>,
    limit: Option<usize>,
    taken: &str,
) {
    let lines = taken.split('\n').count().saturating_sub(1);
    let answers = lines.saturating_sub(listing.header_lines());
    let left = limit.map(|limit| limit.saturating_sub(answers));
    if answers == 0 || left == Some(0) {
        return;
    }
    let words = listing.words(rt, alloc, answers, left);
    let text = listing.text(rt, alloc, answers, left);
    assert_leaves(rt, alloc, words.as_str(), THREE, text.as_bytes());
}

/// Asserts that a run with this fault of its output ends with a failed write, and leaves these bytes there.
fn assert_cut_off(rt: &impl Abort, alloc: Global, words: &str, fault: Fault, taken: &str) {
    let request = request(rt, alloc, words);
    let out = Recorder::new(alloc, usize::MAX, fault);
    let ended = run_on(alloc, &request, reader(THREE), out, writer(alloc));
    let wanted = Wanted {
        status: 6,
        out: taken.as_bytes(),
        err: b"committees: write failed\n",
    };
    assert_ended(rt, words, taken.len(), &ended, wanted);
}

/// Cuts the text of a listing off after each of its bytes, and fetches the rest.
fn assert_cuts(rt: &impl Abort, alloc: Global, listing: Listing<'_>, limit: Option<usize>) {
    let words = listing.words(rt, alloc, 0, limit);
    let text = listing.text(rt, alloc, 0, limit);
    for (place, _byte) in text.as_str().char_indices() {
        let taken = &text.as_str()[..place];
        let fault = Fault::ErrorAfter(place);
        assert_cut_off(rt, alloc, words.as_str(), fault, taken);
        assert_fetched(rt, alloc, listing, limit, taken);
    }
}

#[test]
fn each_cut_of_each_listing(rt: HostRuntime) {
    for row in LISTINGS.lines() {
        let listing = listing_of(&rt, row);
        for limit in [Some(1), Some(2), Some(3), Some(9), None] {
            assert_cuts(&rt, rt.alloc(), listing, limit);
        }
    }
}

/// The lines before the winners of `THREE` for two seats.
const HEADER: &str = "rule pav\nsize 2\nscore 6/2\n";

/// These lines and the three winners, in 42 bytes.
const TIES: &str = "rule pav\nsize 2\nscore 6/2\n1,2\n1,3\n2,3\nend\n";

/// The minimum and maximum of bytes of the ties that are taken, where the second run starts, and what it prints after
/// the lines before the answers.
static CUTS: [(usize, usize, &str, &str); 4] = [
    (0, 29, "", "1,2\n1,3\n2,3\nend\n"),
    (30, 33, " --after 1,2", "1,3\n2,3\nend\n"),
    (34, 37, " --after 1,3", "2,3\nend\n"),
    (38, 41, " --after 2,3", "end\n"),
];

/// The start of the second run, and what it prints after the lines before the answers, if `taken` bytes are taken.
fn rest_of(rt: &impl Abort, taken: usize) -> (&'static str, &'static str) {
    for (first, last, start, rest) in &CUTS {
        if *first <= taken && taken <= *last {
            return (start, rest);
        }
    }
    panic!(rt; "a row of {taken} bytes")
}

/// Asserts that the rest comes from the start of the row that this number of bytes is of.
fn assert_rest(rt: &impl Abort, alloc: Global, words: &str, taken: usize) {
    let (start, rest) = rest_of(rt, taken);
    let words = format!(in alloc; "{words}{start}").expect(rt, start);
    let text = format!(in alloc; "{HEADER}{rest}").expect(rt, start);
    assert_leaves(rt, alloc, words.as_str(), THREE, text.as_bytes());
}

/// Asserts that the text is cut off if the output fails after any of its bytes, and that the rest is fetched.
fn assert_each_cut(rt: &impl Abort, alloc: Global, words: &str, text: &str) {
    for (taken, _byte) in text.char_indices() {
        let fault = Fault::ErrorAfter(taken);
        assert_cut_off(rt, alloc, words, fault, &text[..taken]);
        assert_rest(rt, alloc, words, taken);
    }
}

/// The output fails after each of the bytes, or at the flush after them all.
#[test]
fn ties_that_are_cut_off(rt: HostRuntime) {
    let words = "elect --rule pav --size 2";
    assert_each_cut(&rt, rt.alloc(), words, TIES);
    assert_cut_off(&rt, rt.alloc(), words, Fault::AtFlush, TIES);
}
