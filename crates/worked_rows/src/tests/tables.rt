//! Tables of runs. Expected values are worked by hand from the rules, or taken from public tables.
mod approvals;
mod checks;
mod elections;
mod inputs;
mod names;
mod pages;
mod refusals;
mod shares;

use super::runs::run_over;
use super::support::{assert_ended, ending, request, written_out};
use std::alloc::Global;
use std::process::Abort;
use test_devices::SliceReader;
use vote_cli::Request;

/// An input, and what a run over it leaves.
#[derive(Clone, Copy)]
struct Texts<'a> {
    input: &'a [u8],
    left: &'a [u8],
}

/// Asserts what a run leaves over an input that comes as a whole and in single bytes.
fn assert_texts(rt: &impl Abort, alloc: Global, row: &str, request: &Request, texts: Texts<'_>) {
    for piece in [usize::MAX, 1] {
        let reader = SliceReader::new(texts.input, piece);
        let ended = run_over(alloc, alloc, request, reader);
        assert_ended(rt, row, piece, &ended, ending(texts.left));
    }
}

/// Asserts a row of a table over an input.
fn assert_row(rt: &impl Abort, alloc: Global, row: &str, input: &[u8]) {
    let (words, wanted) = row.split_once(" | ").expect(rt, row);
    let request = request(rt, alloc, written_out(rt, alloc, words).as_str());
    let mut text = written_out(rt, alloc, wanted);
    text.push_str("\n").expect(rt, row);
    let left = text.as_bytes();
    assert_texts(rt, alloc, row, &request, Texts { input, left });
}

/// Asserts each row of a table. A row has the words after the program's name, a bar, and what the run leaves, without
/// the end of its last line. A row that begins with `<` is the input of the rows after it. One that begins with `//`
/// says what they are.
fn assert_table(rt: &impl Abort, alloc: Global, table: &str) {
    let mut input = String::new(alloc);
    for row in table.split('\n') {
        if row.starts_with("//") {
            continue;
        }
        match row.strip_prefix('<') {
            Some(file) => input = written_out(rt, alloc, file.strip_prefix(' ').unwrap_or("")),
            None => assert_row(rt, alloc, row, input.as_bytes()),
        }
    }
}
