//! What a reader keeps in memory: the room for a line, the names and the different ballots.
ghost use Rattle.std.specs.Prelude.{◌≡◌, ◌+◌, ◌++◌, ◌<◌, ◌≤◌, length};
ghost use Rattle.preflib_text.specs.Approvals.{HasNumber};
ghost use Rattle.preflib_text.specs.Limits.{word_limit};

use super::support::reading_as;
use preflib_text::{LineReader, MOST_LINE_BYTES, Pick};
use refusing_heap::{Measured, Usage};
use std::alloc::Global;
use std::process::Abort;

/// Lines that bring nothing new after ballots that approve 1 and 2, 3, 64, and nobody: a name after the first ballot is
/// not read.
static OLD_LINES: &str =
    "# TITLE: x\n\n \t\r\n1: {2,1}\n3: 3\r\n2: {},{1}\n# ALTERNATIVE NAME 2: Bo\n# y\n9: 64,{1,2}\n";

/// The lengths of some comments.
static LENGTHS: [usize; 6] = [0, 1, 1_000, 100_000, 900_000, 1_000_000];

/// The sizes of pieces, in turn.
static SIZES: [usize; 6] = [1, 5, 100, 4_096, 20, 65_536];

/// More than a reader needs for 64 empty names.
const NAMES_ROOM: usize = 4_096;

/// Feeds a piece. Returns how many bytes are in use then, and the most that were since before.
fn feed(rt: &impl Abort, heap: &Measured, reader: &mut LineReader<&Measured>, piece: &[u8]) -> Usage
    requires { length reader.old.fed + length piece.now < word_limit }
    ensures { reader.new.fed ≡ reader.old.fed ++ piece.now }
{
    let now = heap.usage.get().now;
    heap.usage.set(Usage { now, most: now });
    reader.feed(piece).expect(rt, "no fault");
    heap.usage.get()
}

/// Asserts that lines in pieces of different sizes take no memory, not even for a while.
fn assert_kept(rt: &impl Abort, heap: &Measured, reader: &mut LineReader<&Measured>, lines: &[u8])
    requires { length reader.old.fed + length lines.now < word_limit }
    ensures { length reader.new.fed ≤ length reader.old.fed + length lines.now }
{
    let now = heap.usage.get().now;
    let mut rest = lines;
    for i in 0..lines.len() {
        if rest.is_empty() {
            break;
        }
        let (piece, after) = rest.split_at(rest.len().min(SIZES[i % 6]));
        let usage = feed(rt, heap, reader, piece);
        assert!(rt;
            usage == Usage { now, most: now },
            "{now}, piece {i}: {usage:?}"
        );
        rest = after;
    }
}

/// Asserts that bytes take memory.
fn assert_taken(rt: &impl Abort, heap: &Measured, reader: &mut LineReader<&Measured>, bytes: &[u8])
    requires { length reader.old.fed + length bytes.now < word_limit }
    ensures { reader.new.fed ≡ reader.old.fed ++ bytes.now }
{
    let before = heap.usage.get().now;
    let usage = feed(rt, heap, reader, bytes);
    assert!(rt; usage.now > before, "{before}, {usage:?}");
}

/// Asserts what a reader keeps: the room for a line, then a name and ballots, nothing of lines that bring nothing new,
/// and more ballots.
fn assert_kept_by_reader(rt: &impl Abort, heap: &Measured, pick: Pick, lines: &[u8])
    requires { HasNumber pick.way }
{
    let mut reader = LineReader::new(heap, pick).expect(rt, "a reader");
    let room = heap.usage.get().now;
    assert!(rt;
        room < MOST_LINE_BYTES + NAMES_ROOM,
        "{room} bytes for a line"
    );
    assert_taken(
        rt,
        heap,
        &mut reader,
        b"# DATA TYPE: cat\n# NUMBER ALTERNATIVES: 64\n# ALTERNATIVE NAME 1: Ada\n",
    );
    assert_taken(rt, heap, &mut reader, b"2: {1,2},3\n1: 3\n4: 64\n1:\n");
    assert_kept(rt, heap, &mut reader, lines);
    assert_taken(
        rt,
        heap,
        &mut reader,
        b"1: 4\n1: 5\n1: 6\n1: 7\n1: 8\n1: 9\n1: 10\n1: 11\n1: 12\n1: 13\n1: 14\n1: 15\n1: 16\n1: 17\n1: 18\n",
    );
    let profile = reader.finish().expect(rt, "a profile");
    assert!(rt; profile.rows() == 19, "19 ballots");
}

/// Many lines without a new name or ballot, and comments of some lengths among them.
fn old_lines(rt: &impl Abort, alloc: Global) -> String {
    let mut lines = String::new(alloc);
    for length in &LENGTHS {
        let old = OLD_LINES.repeat(alloc, 1_000).expect(rt, "memory");
        let comment = "x".repeat(alloc, *length).expect(rt, "memory");
        write!(lines, "{old}#{comment}\n").expect(rt, "memory");
    }
    lines
}

/// However many lines a file has, a reader takes memory only for names and different ballots, and gives all of it back.
#[test]
fn lines_are_not_kept(rt: HostRuntime) {
    let pick = reading_as(&rt, rt.alloc(), "");
    let heap = Measured::new(rt.alloc());
    let lines = old_lines(&rt, rt.alloc());
    assert_kept_by_reader(&rt, &heap, pick, lines.as_bytes());
    let usage = heap.usage.get();
    assert!(rt; usage.now == 0, "all is given back");
    assert!(rt; usage.most > 0, "the maximum is not forgotten");
}
