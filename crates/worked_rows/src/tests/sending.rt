//! Which bytes each write of an answer is handed, so that a run shows early what it has found.
ghost use Rattle.std.specs.Prelude.{None, length};

use super::runs::{reader, writer};
use super::support::{THREE, request, written_out};
use preflib_text::Trace;
use std::alloc::Global;
use std::io;
use std::io::ErrorKind;
use std::process::Abort;
use vote_cli::{Device, Sink, Status, run};

/// A writer that keeps what it is handed, with a bar after each write.
#[derive(Drop)]
struct Pieces {
    text: Vec<u8>,
    has_failed: bool,
    /// A byte for each flush.
    flushes: Trace,
}

impl Device for Pieces {
    ghost has_failed = { λ pieces. pieces.has_failed };

    fn failed(&self) -> bool {
        self.has_failed
    }
}

impl Sink for Pieces {
    ghost contents = { λ pieces. None };

    ghost flushes = { λ pieces. length pieces.flushes.bytes };

    fn write(&mut self, buf: &[u8]) -> io::Result<usize> {
        if buf.is_empty() {
            return Ok(0);
        }
        if self.text.extend_from_slice(buf).is_ok() && self.text.push(b'|').is_ok() {
            return Ok(buf.len());
        }
        self.has_failed = true;
        Err(io::Error::from(ErrorKind::Other))
    }

    fn flush(&mut self) -> io::Result<()> {
        self.flushes.add(b"\n");
        Ok(())
    }
}

/// What the writes of a run are handed that answers.
fn pieces_of(rt: &impl Abort, alloc: Global, words: &str, bytes: &[u8]) -> Pieces {
    let request = request(rt, alloc, words);
    let mut out = Pieces {
        text: Vec::new(alloc),
        has_failed: false,
        flushes: Trace::new(),
    };
    let status = run(
        alloc,
        &request,
        &mut reader(bytes),
        &mut out,
        &mut writer(alloc),
    );
    assert!(rt; status == Status::Answered, "{words}");
    out
}

/// Words, and what the writes of their run over `THREE` are handed.
const WRITES: &str = "\
elect --rule av --size 1 | rule av¶size 1¶|score 2/1¶|1¶|2¶|end¶|
elect --rule pav --size 2 | rule pav¶size 2¶|score 6/2¶|1,2¶|1,3¶|2,3¶|end¶|
elect --rule cc --size 2 --limit 1 | rule cc¶size 2¶|score 3/1¶|1,3¶|more¶|
elect --rule sav --size 1 --after 1 | rule sav¶size 1¶|score 6/6¶|2¶|3¶|end¶|
elect --rule minimax --size 1 | rule minimax¶size 1¶|distance 2¶|1¶|2¶|end¶|
elect --rule seqpav --size 2 | rule seqpav¶size 2¶|1,2¶|1,3¶|2,3¶|end¶|
elect --rule seqcc --size 1 --limit 1 | rule seqcc¶size 1¶|1¶|more¶|
share --method dhondt --seats 1 --votes 1,1 | method dhondt¶seats 1¶|0,1¶|1,0¶|end¶|";

/// The lines of the rule and the size are a write of their own, and come first. The best value is the second.
#[test]
fn lines_are_sent_as_they_come(rt: HostRuntime) {
    for row in WRITES.lines() {
        let (words, wanted) = row.split_once(" | ").expect(&rt, row);
        let pieces = pieces_of(&rt, rt.alloc(), words, THREE);
        let wanted = written_out(&rt, rt.alloc(), wanted);
        assert!(rt; pieces.text.as_slice() == wanted.as_bytes(), "{row}");
    }
}

/// A voter who approves nobody: all committees tie.
const EMPTY: &[u8] = b"# DATA TYPE: cat\n# NUMBER ALTERNATIVES: 64\n1: {}\n";

/// Words, and how the writes of their run over `EMPTY` end: the hundredth answer is sent at once, and later answers are
/// sent together, up to those whose number is a multiple of 256.
const ENDS: &str = "\
elect --rule av --size 2 --limit 101 | |2,37¶|2,38¶|2,39¶|2,40¶more¶|
elect --rule av --size 2 --limit 258 | 5,14¶5,15¶|5,16¶5,17¶more¶|";

#[test]
fn a_hundred_answers_are_sent_one_by_one(rt: HostRuntime) {
    for row in ENDS.lines() {
        let (words, wanted) = row.split_once(" | ").expect(&rt, row);
        let pieces = pieces_of(&rt, rt.alloc(), words, EMPTY);
        let wanted = written_out(&rt, rt.alloc(), wanted);
        assert!(rt; pieces.text.ends_with(wanted.as_bytes()), "{row}");
    }
}
