//! What the tests share: requests from words, what runs leave, and texts of tables.
ghost use Rattle.std.specs.Prelude.{◌≡◌, ◌==◌, ◌||◌};
ghost use Rattle.vote_cli.specs.Status.{code_of};

use super::runs::{Ended, reader, run_over};
use std::alloc::Global;
use std::fmt::Write;
use std::process::Abort;
use vote_cli::{Device, Request, read_request};

/// Three candidates and two ballots: two voters approve 1 and 2, and one voter approves 3.
pub(super) const THREE: &[u8] =
    b"# DATA TYPE: cat\n# NUMBER ALTERNATIVES: 3\n# NUMBER CATEGORIES: 2\n2: {1,2},3\n1: 3,{1,2}\n";

/// The answer to it by approval voting, for one seat.
pub(super) const ANSWER: &[u8] = b"rule av\nsize 1\nscore 2/1\n1\n2\nend\n";

/// Adds a word.
fn push_word(rt: &impl Abort, alloc: Global, words: &mut Vec<String>, word: &str) {
    let word = String::from_str(alloc, word).expect(rt, word);
    words.push(word).expect(rt, "memory");
}

/// The request of the words of a line, after the program's name.
pub(super) fn request(rt: &impl Abort, alloc: Global, line: &str) -> Request {
    let mut words = Vec::new(alloc);
    push_word(rt, alloc, &mut words, "committees");
    for word in line.split_whitespace() {
        push_word(rt, alloc, &mut words, word);
    }
    read_request(alloc, words.as_slice()).expect(rt, line)
}

/// What a run has to leave: its exit status, and the bytes on its two writers.
#[derive(Clone, Copy)]
pub(super) struct Wanted<'a> {
    pub status: u8,
    pub out: &'a [u8],
    pub err: &'a [u8],
}

/// What a run has to leave that ends with this text: the report of a violation has status 1, a line on the input 3, and
/// one on the request 4.
pub(super) fn ending(text: &[u8]) -> Wanted<'_> {
    let (out, err): (&[u8], &[u8]) = if text.starts_with(b"committees: ") {
        (b"", text)
    } else {
        (text, b"")
    };
    let status = if out.starts_with(b"violated ") {
        1
    } else if err.starts_with(b"committees: input") {
        3
    } else if err.starts_with(b"committees: request") {
        4
    } else if err == b"committees: memory\n".as_slice() {
        5
    } else if !err.is_empty() {
        6
    } else {
        0
    };
    Wanted { status, out, err }
}

/// Asserts that the run left this, and that a device failed exactly if its status is 6. The number distinguishes cases
/// of one name.
pub(super) fn assert_ended(
    rt: &impl Abort,
    case: &str,
    number: usize,
    ended: &Ended<'_>,
    wanted: Wanted<'_>,
)
    ensures status { code_of ended.now.status ≡ wanted.entry.status }
    ensures devices { (ended.now.reader.has_failed || ended.now.out.has_failed) ≡ (wanted.entry.status == 6) }
    ensures out { ended.now.out.taken ≡ wanted.entry.out.now }
    ensures err { ended.now.err.taken ≡ wanted.entry.err.now }
{
    let status = ended.status.code();
    let has_failed = ended.reader.failed() || ended.out.failed();
    let (out, err) = (ended.out.taken(), ended.err.taken());
    let is_right = status == wanted.status
        && has_failed == (wanted.status == 6)
        && out == wanted.out
        && err == wanted.err;
    assert!(rt;
        is_right,
        "{case} {number}: status {status}, failed {has_failed}, {out:?} {err:?}"
    );
}

/// Asserts that these words after the program's name end with this text over these bytes.
pub(super) fn assert_leaves(
    rt: &impl Abort,
    alloc: Global,
    words: &str,
    bytes: &[u8],
    text: &[u8],
) {
    let request = request(rt, alloc, words);
    let ended = run_over(alloc, alloc, &request, reader(bytes));
    assert_ended(rt, words, 0, &ended, ending(text));
}

/// Adds the numbers from the first to the last, up or down, with commas between them.
fn push_range(rt: &impl Abort, text: &mut String, first: u8, last: u8) {
    write!(text, "{first}").expect(rt, "memory");
    for step in 1..=first.abs_diff(last) {
        let n = if first < last {
            first.saturating_add(step)
        } else {
            first.saturating_sub(step)
        };
        write!(text, ",{n}").expect(rt, "memory");
    }
}

/// The number that a text is.
fn number_of(rt: &impl Abort, text: &str) -> u8 {
    text.parse().expect(rt, text)
}

/// Adds a list in brackets: `1..4` is `1,2,3,4`, and `0*3` is `0,0,0`.
fn push_list(rt: &impl Abort, text: &mut String, list: &str) {
    if let Some((first, last)) = list.split_once("..") {
        return push_range(rt, text, number_of(rt, first), number_of(rt, last));
    }
    let (number, count) = list.split_once('*').expect(rt, list);
    for i in 0..number_of(rt, count) {
        let comma = if i > 0 { "," } else { "" };
        write!(text, "{comma}{number}").expect(rt, list);
    }
}

/// The text that a part of a table stands for: `¶` ends a line, and lists may stand in brackets.
pub(super) fn written_out(rt: &impl Abort, alloc: Global, part: &str) -> String {
    let text = part.replace(alloc, '¶', "\n").expect(rt, part);
    let mut pieces = text.as_str().split('[');
    let mut whole = String::from_str(alloc, pieces.next().unwrap_or("")).expect(rt, part);
    for piece in pieces {
        let (list, rest) = piece.split_once(']').expect(rt, part);
        push_list(rt, &mut whole, list);
        whole.push_str(rest).expect(rt, part);
    }
    whole
}
