//! Files in pieces: what is held between them, and what comes of all.
ghost use Rattle.std.specs.Prelude.{◌≡◌, ◌+◌, ◌++◌, ◌<◌, length};
ghost use Rattle.preflib_text.specs.Approvals.{HasNumber};
ghost use Rattle.preflib_text.specs.Limits.{word_limit};

use super::support::{MANY, assert_holds, assert_outcome, in_pieces, outcome, reading_as};
use preflib_text::{LineReader, Pick};
use refusing_heap::Refusing;
use std::alloc::Global;
use std::fmt;
use std::process::Abort;

/// A file, and what it holds.
type File = (&'static [u8], &'static str);

/// A file of each type, with names, blank lines and ends of all kinds, and what it holds.
pub(super) static FILES: [File; 5] = [
    (
        b"\xEF\xBB\xBF# DATA TYPE: cat\r\n# NUMBER ALTERNATIVES: 3\n# NUMBER CATEGORIES: 2\r\n2: {1,2},3\n1: 3\r",
        "3\n2: 1,2\n1: 3",
    ),
    (
        b"# DATA TYPE: soc\n# ALTERNATIVE NAME 2: B\r\n# NUMBER ALTERNATIVES: 2\n\r\n3: 2,1\r\n4: 1,2\r\n",
        "2\n2 B\n3: 2\n4: 1",
    ),
    (
        b"\xEF\xBB\xBF\n# NUMBER ALTERNATIVES: 3\n \t\n# DATA TYPE: soi\n1: 3\n5:\n6: 3 , 1",
        "3\n7: 3\n5: ",
    ),
    (
        b"\r\n# DATA TYPE: x\r\n# NUMBER ALTERNATIVES: 03\r\n#DATA TYPE:toc\r\n02:{1,3},2\r\n# y\r\n1: 2,1,3\r\n",
        "3\n2: 1,3\n1: 2",
    ),
    (
        b"\xEF\xBB\xBF# DATA TYPE: toi\n# NUMBER ALTERNATIVES: 3\n2: {1,3}\r\n1: 2\n\r\n3: 2,1\r",
        "3\n2: 1,3\n4: 2",
    ),
];

/// Asserts what a file holds that is cut before the bytes of two numbers.
fn assert_three(rt: &impl Abort, alloc: Global, pick: Pick, row: File, cuts: (usize, usize))
    requires { HasNumber pick.way }
{
    let (file, held) = row;
    let (first, second) = cuts;
    let size = second.saturating_sub(first);
    let read = in_pieces(alloc, pick, file, first, size, file.len());
    assert_outcome(rt, alloc, read, held, file, first as u64);
}

#[test]
fn three_pieces(rt: HostRuntime) {
    let pick = reading_as(&rt, rt.alloc(), "");
    for row in &FILES {
        for second in 0..=row.0.len() {
            for first in 0..=second {
                assert_three(&rt, rt.alloc(), pick, *row, (first, second));
            }
        }
    }
}

/// Adds what is reported of a piece.
fn push_told(rt: &impl Abort, text: &mut String, told: &impl fmt::Display) {
    write!(text, "{told}; ").expect(rt, "memory");
}

/// Feeds a piece. Adds how many bytes of an unfinished line are held then, or the fault.
fn feed(rt: &impl Abort, text: &mut String, reader: &mut LineReader<&Refusing>, piece: &[u8])
    requires { length reader.old.fed + length piece.now < word_limit }
    ensures { reader.new.fed ≡ reader.old.fed ++ piece.now }
{
    match reader.feed(piece) {
        Ok(()) => push_told(rt, text, &reader.held()),
        Err(fault) => push_told(rt, text, &fault),
    }
}

/// Adds what comes of a file whose pieces were fed.
fn push_end(rt: &impl Abort, alloc: Global, text: &mut String, reader: LineReader<&Refusing>) {
    let read = outcome(rt, alloc, reader.finish());
    text.push_str(read.as_str()).expect(rt, "memory");
}

/// What comes of the pieces of a file that is cut before the bytes of these numbers, and of the file.
fn told_of(
    rt: &impl Abort,
    alloc: Global,
    heap: &Refusing,
    pick: Pick,
    file: &[u8],
    first: usize,
    second: usize,
) -> String
    requires { HasNumber pick.way }
{
    let mut reader = LineReader::new(heap, pick).expect(rt, "a reader");
    let mut text = String::new(alloc);
    let mut rest = file;
    for size in &[first, second.saturating_sub(first), file.len()] {
        let (piece, after) = rest.split_at(rest.len().min(*size));
        feed(rt, &mut text, &mut reader, piece);
        rest = after;
    }
    push_end(rt, alloc, &mut text, reader);
    text
}

/// A front, a number of bytes `#`, and a back; how many bytes of the file come after the first and after the second
/// cut; the number of the growth that is refused; and the outcome.
type Cut<'a> = (&'a str, usize, &'a str, usize, usize, u64, &'a str);

static CUTS: [Cut<'static>; 7] = [
    // A CR at the end of a piece, before LF and before another byte.
    (
        "# NUMBER ALTERNATIVES: 3\n1: 1\r\n",
        0,
        "",
        1,
        0,
        MANY,
        "5; 0; 0; 3\n1: 1",
    ),
    (
        "# NUMBER ALTERNATIVES: 3\n1: 1\r2\n1: 1\n",
        0,
        "",
        7,
        5,
        MANY,
        "5; line 2: BadBallot; line 2: BadBallot; line 2: BadBallot",
    ),
    // A mark in pieces.
    (
        "",
        0,
        "\u{feff}# NUMBER ALTERNATIVES: 3\n1: 1",
        30,
        29,
        MANY,
        "2; 0; 4; 3\n1: 1",
    ),
    // The longest line and a CR, and a byte after it.
    (
        "\n \n",
        1_048_576,
        "\r\n",
        2,
        1,
        MANY,
        "1048576; 1048577; 0; NoAlternatives",
    ),
    (
        "\n \n",
        1_048_576,
        "\rx",
        2,
        1,
        MANY,
        "1048576; 1048577; line 3: LongLine; line 3: LongLine",
    ),
    (
        "\n \n",
        1_048_577,
        "\n1: 1\n",
        6,
        5,
        MANY,
        "line 3: LongLine; line 3: LongLine; line 3: LongLine; line 3: LongLine",
    ),
    // A reader whose memory ran out reports that at each later call. It begins with two growths, for the names and for
    // a line; the third is that of the first ballot.
    (
        "# NUMBER ALTERNATIVES: 3\n1: 1\n1: x\n",
        0,
        "",
        10,
        5,
        3,
        "0; line 2: Memory; line 2: Memory; line 2: Memory",
    ),
];

/// A file of a front, a number of bytes `#`, and a back.
fn marked_file(rt: &impl Abort, alloc: Global, front: &str, marks: usize, back: &str) -> String {
    let marks = "#".repeat(alloc, marks).expect(rt, front);
    format!(in alloc; "{front}{marks}{back}").expect(rt, front)
}

/// Asserts what is held after each piece of a file, and what comes of it.
fn assert_cut(rt: &impl Abort, alloc: Global, pick: Pick, cut: &Cut<'_>)
    requires { HasNumber pick.way }
{
    let (front, marks, back, first, second, refused, wanted) = *cut;
    let file = marked_file(rt, alloc, front, marks, back);
    let first = file.len().saturating_sub(first);
    let second = file.len().saturating_sub(second);
    let heap = Refusing::new(alloc, refused.max(1));
    let told = told_of(rt, alloc, &heap, pick, file.as_bytes(), first, second);
    assert!(rt; told.as_str() == wanted, "{front:?}, {back:?}: {told}");
}

#[test]
fn what_is_held_after_each_piece(rt: HostRuntime) {
    let pick = reading_as(&rt, rt.alloc(), "--kind toi");
    for cut in &CUTS {
        assert_cut(&rt, rt.alloc(), pick, cut);
    }
}

/// Files with bytes that are not text, in a mark and in names, and what they hold.
static NO_TEXTS: [(&[u8], &str); 2] = [
    (
        b"\xEF\xBB# NUMBER ALTERNATIVES: 3\n1: 1\n",
        "NoAlternatives",
    ),
    (
        b"# NUMBER ALTERNATIVES: 3\n# ALTERNATIVE NAME 2: \xFF\0\xC3 \r#\x0B\r\r\n1: 1\n",
        "3\n2 [255, 0, 195, 32, 13, 35, 11, 13]\n1: 1",
    ),
];

#[test]
fn bytes_that_are_no_text(rt: HostRuntime) {
    let pick = reading_as(&rt, rt.alloc(), "--kind toi");
    for (file, wanted) in &NO_TEXTS {
        assert_holds(&rt, rt.alloc(), pick, file, wanted);
    }
}

/// A file of 87 bytes.
static SMALL: &[u8] =
    b"# DATA TYPE: cat\n# NUMBER ALTERNATIVES: 3\n# NUMBER CATEGORIES: 2\n2: {1,2},3\n1: 3,{1,2}\n";

/// What its first n bytes hold.
fn held_by_beginning(n: usize) -> &'static str {
    match n {
        0..=38 => "NoAlternatives",
        // After the colon of the alternatives.
        39 | 40 => "line 2: BadNumber",
        // After the colon of the categories.
        62 | 63 => "line 3: BadNumber",
        41..=65 => "NoVoters",
        // Two voters approve nobody so far.
        67 | 68 => "3\n2: ",
        66 | 69..=72 | 74 => "line 4: BadBallot",
        73 | 75 | 76 => "3\n2: 1,2",
        // One voter approves nobody so far.
        78 | 79 => "3\n2: 1,2\n1: ",
        80 | 86 | 87 => "3\n2: 1,2\n1: 3",
        _ => "line 5: BadBallot",
    }
}

#[test]
fn beginnings_of_a_file(rt: HostRuntime) {
    assert!(rt; SMALL.len() == 87);
    let pick = reading_as(&rt, rt.alloc(), "");
    for n in 0..=SMALL.len() {
        assert_holds(&rt, rt.alloc(), pick, &SMALL[..n], held_by_beginning(n));
    }
}

/// Asserts that a file of 2,000,000 bytes is read whose lines take no memory.
fn assert_without_memory(rt: &impl Abort, alloc: Global, pick: Pick, file: &[u8])
    requires { HasNumber pick.way }
{
    let heap = Refusing::new(alloc, 3);
    // Each line has seven bytes: after one byte, a million and two million bytes, 1, 1 and 2 bytes are held.
    let told = told_of(rt, alloc, &heap, pick, file, 1, 1_000_000);
    assert!(rt; file.len() == 2_000_000 && heap.left.get() == 1);
    assert!(rt; told.as_str() == "1; 1; 2; NoAlternatives", "{told}");
}

/// Lines without content take no memory, however many they are: of a reader's growths, all but those of `new` are still
/// to come.
#[test]
fn many_lines_without_memory(rt: HostRuntime) {
    let pick = reading_as(&rt, rt.alloc(), "");
    let lines = "# X: y\n".repeat(rt.alloc(), 285_715);
    let lines = lines.expect(&rt, "memory");
    let (file, _) = lines.as_bytes().split_at(lines.len().min(2_000_000));
    assert_without_memory(&rt, rt.alloc(), pick, file);
}
