//! The lines of a ballot file, and what is on them.
ghost use Rattle.std.specs.Prelude.{◌≡◌, ℕ, ◌<◌, List, ◌∷◌, length};
ghost use Rattle.preflib_text.specs.Lines.{pieces_of, trim_start, without_mark, without_return};
ghost use Rattle.preflib_text.specs.Metadata.{trimmed};
ghost use Rattle.preflib_text.specs.Steps.Cuts.{IsSort};

use bstr::ByteSlice;

/// A line without its end, and the bytes after its end.
#[derive(Clone, Copy)]
pub(crate) struct Cut<'a> {
    pub(crate) line: &'a [u8],
    pub(crate) rest: &'a [u8],
}

/// The kind of a line.
#[derive(Clone, Copy)]
pub(crate) enum Sort {
    Blank,
    Metadata,
    Ballot,
}

/// The input without a byte order mark at its start.
pub(crate) fn without_mark(bytes: &[u8]) -> &[u8]
    ensures { result.now ≡ without_mark bytes.now }
{
    match bytes {
        [0xEF, 0xBB, 0xBF, rest @ ..] => rest,
        _ => bytes,
    }
}

/// Cuts off the first line, which ends at an LF or with the text.
pub(crate) fn first_line(text: &[u8]) -> Cut<'_>
    requires { 0 < length text.now }
    ensures line { (piece : List ℕ) × (pieces_of text.now ≡ piece ∷ pieces_of result.rest.now)
        × (result.line.now ≡ without_return piece) }
    ensures shorter { length result.rest.now < length text.now }
{
    match text.find_byte(b'\n') {
        Some(at) => Cut {
            line: without_return(&text[..at]),
            rest: &text[at + 1..],
        },
        None => Cut {
            line: without_return(text),
            rest: &[],
        },
    }
}

pub(crate) fn without_return(line: &[u8]) -> &[u8]
    ensures { result.now ≡ without_return line.now }
{
    match line {
        [front @ .., b'\r'] => front,
        _ => line,
    }
}

/// The bytes without blanks (spaces and tabs) at the start.
#[tactic(auto, unfolding(crate::specs::Lines::trim_start))]
pub(crate) fn trim_start(bytes: &[u8]) -> &[u8]
    ensures { result.now ≡ trim_start bytes.now }
{
    let mut rest = bytes;
    while let [b' ' | b'\t', after @ ..] = rest {
        rest = after;
    }
    rest
}

pub(crate) fn trim(bytes: &[u8]) -> &[u8]
    ensures { result.now ≡ trimmed bytes.now }
{
    let mut rest = trim_start(bytes);
    while let [before @ .., b' ' | b'\t'] = rest {
        rest = before;
    }
    rest
}

pub(crate) fn sort_of(line: &[u8]) -> Sort
    ensures { IsSort line.now result }
{
    match trim_start(line) {
        [] => Sort::Blank,
        [b'#', ..] => Sort::Metadata,
        _ => Sort::Ballot,
    }
}
