//! Reads a ballot file in pieces. Of the text, only the bytes since the last LF are kept. Contracts see all bytes that
//! were fed.
ghost use Rattle.std.specs.Prelude.{◌≡◌, ◌⊎◌, ℕ, ◌^◌, ◌<◌, ◌≤◌, ◌+◌, true, false, List, [], ◌∷◌, ◌++◌, length, Some};
ghost use Rattle.std.specs.Prelude.{None, Result, Ok, Err, MatchResult, IfSome, IfOk, IfErr, OnOk};
ghost use Rattle.std.specs.Vec.{vec_capacity};
ghost use Rattle.preflib_text.specs.Limits.{most_line_bytes, word_limit};
ghost use Rattle.preflib_text.specs.Lines.{lines_of};
ghost use Rattle.preflib_text.specs.Approvals.{HasNumber};
ghost use Rattle.preflib_text.specs.Reading.{Reads, at_end, at_line};
ghost use Rattle.preflib_text.specs.Pieces.{ended_lines, unfinished_line, is_too_long, LacksMemory, IsLate, feeding};
ghost use Rattle.preflib_text.specs.Pieces.{IsTrue};
ghost use Rattle.preflib_text.specs.Steps.After.{IsAfter, IsFine};
ghost use Rattle.preflib_text.specs.Steps.Pieces.{line_room, unmarked, line_with, IsReady, IsRead, IsRefused};
ghost use Rattle.preflib_text.specs.Steps.Pieces.{IsFed, Agrees};

use crate::fault::{FaultName, ReadFault};
use crate::limits::MOST_LINE_BYTES;
use crate::lines::{without_mark, without_return};
use crate::notes::Notes;
use crate::pick::Pick;
use crate::reader::{at_end, fault_of_line, finish, take_line};
use crate::trace::Trace;
use ballot_base::{BallotHashing, MOST_CANDIDATES, Profile, ProfileBuilder};
use bstr::ByteSlice;
use std::alloc::{Allocator, Global};
use std::marker::Model;

/// The room for a line: the longest, with a CR at its end and a byte order mark before it.
const LINE_ROOM: usize = MOST_LINE_BYTES + 4;

/// What is known from the lines that have ended.
#[derive(Drop)]
struct EndedLines<A: Allocator + Copy> {
    builder: ProfileBuilder<A>,
    notes: Notes,
    /// The number of lines that have ended.
    number: u64,
}

/// What is kept of the bytes that were fed.
#[derive(Drop)]
struct Progress<A: Allocator + Copy> {
    /// The fault that was returned.
    fault: Option<ReadFault>,
    ended: EndedLines<A>,
    /// The bytes since the last LF.
    held: Vec<u8, A>,
    ghost room: { line_room ≤ vec_capacity held },
}

/// The bytes of a line after `number` others, without the byte order mark if it is the first line.
fn unmarked(number: u64, bytes: &[u8]) -> &[u8]
    ensures { result.now ≡ unmarked number bytes.now }
{
    if number == 0 {
        without_mark(bytes)
    } else {
        bytes
    }
}

impl<A: Allocator + Copy + Drop> EndedLines<A> {
    /// Reads the next line, given the bytes before its LF or before the end of the input.
    fn take(&mut self, pick: &Pick, bytes: &[u8]) -> Result<(), ReadFault>
        requires way { HasNumber pick.now.way }
        requires ready { IsReady self.old.notes self.old.builder }
        requires number { self.old.number + 1 < word_limit }
        ensures ok { OnOk result (IsRead pick.now self.old.notes self.old.builder
            (line_with self.old.number bytes.now) self.new.notes self.new.builder) }
        ensures number { OnOk result (self.new.number ≡ self.old.number + 1) }
        ensures err { IfErr result (λ fault. IsRefused pick.now self.old.notes self.old.builder
            (line_with self.old.number bytes.now) (self.old.number + 1) fault) }
    {
        let line = without_return(unmarked(self.number, bytes));
        self.number += 1;
        match take_line(&mut self.builder, &mut self.notes, pick, line) {
            Ok(()) => Ok(()),
            Err(name) => Err(fault_of_line(self.number, name)),
        }
    }

    /// Reads the last line, if it has no LF.
    fn end_input(&mut self, held: &[u8], pick: &Pick, _fed: &Trace) -> Result<(), ReadFault>
        requires way { HasNumber pick.now.way }
        requires fed { IsFed pick.now _fed.now.bytes self.old.notes self.old.builder self.old.number held.now }
        requires length { length _fed.now.bytes < word_limit }
        ensures ok { OnOk result (IsFine pick.now (lines_of _fed.now.bytes)
            × IsAfter pick.now (lines_of _fed.now.bytes) self.new.notes self.new.builder) }
        ensures err { IfErr result (λ fault. Reads _fed.now.bytes pick.now (Err fault)
            ⊎ LacksMemory (lines_of _fed.now.bytes) pick.now fault) }
        ensures late { IfErr result (λ fault. IsLate (ended_lines _fed.now.bytes) fault) }
    {
        if unmarked(self.number, held).is_empty() {
            return Ok(());
        }
        self.take(pick, held)
    }
}

impl<A: Allocator + Copy + Drop> Progress<A> {
    /// Keeps bytes of a line that has not ended.
    fn hold(&mut self, bytes: &[u8]) -> Result<(), ReadFault>
        requires number { self.old.ended.number + 1 < word_limit }
        requires held { length self.old.held.items ≤ line_room }
        ensures ok { OnOk result ((self.new.held.items ≡ self.old.held.items ++ bytes.now)
            × (is_too_long (unmarked self.old.ended.number (self.old.held.items ++ bytes.now)) ≡ false)) }
        ensures err { IfErr result (λ fault.
            (is_too_long (unmarked self.old.ended.number (self.old.held.items ++ bytes.now)) ≡ true)
            × (fault ≡ at_line (self.old.ended.number + 1) FaultName.LongLine)) }
        ensures ended { self.new.ended ≡ self.old.ended }
    {
        let number = self.ended.number;
        if bytes.len() > LINE_ROOM - self.held.len() {
            return Err(fault_of_line(number + 1, FaultName::LongLine));
        }
        let Ok(()) = self.held.extend_from_slice(bytes) else {
            unreachable!();
        };
        if without_return(unmarked(number, &self.held)).len() > MOST_LINE_BYTES {
            return Err(fault_of_line(number + 1, FaultName::LongLine));
        }
        Ok(())
    }

    /// Reads the line that ends after these bytes. A line within one piece is read in place.
    fn end_line(&mut self, pick: &Pick, bytes: &[u8]) -> Result<(), ReadFault>
        requires way { HasNumber pick.now.way }
        requires ready { IsReady self.old.ended.notes self.old.ended.builder }
        requires number { self.old.ended.number + 1 < word_limit }
        requires held { length self.old.held.items ≤ line_room }
        ensures ok { OnOk result (IsRead pick.now self.old.ended.notes self.old.ended.builder
            (line_with self.old.ended.number (self.old.held.items ++ bytes.now))
            self.new.ended.notes self.new.ended.builder) }
        ensures number { OnOk result (self.new.ended.number ≡ self.old.ended.number + 1) }
        ensures held { OnOk result (self.new.held.items ≡ []) }
        ensures err { IfErr result (λ fault. IsRefused pick.now self.old.ended.notes self.old.ended.builder
            (line_with self.old.ended.number (self.old.held.items ++ bytes.now)) (self.old.ended.number + 1) fault) }
    {
        if self.held.is_empty() {
            return self.ended.take(pick, bytes);
        }
        self.hold(bytes)?;
        let taken = self.ended.take(pick, &self.held);
        self.held.clear();
        taken
    }

    /// Reads the lines that end in a piece, and keeps the bytes after them.
    fn feed_lines(&mut self, pick: &Pick, _fed: &Trace, bytes: &[u8]) -> Result<(), ReadFault>
        requires way { HasNumber pick.now.way }
        requires fed { IsFed pick.now _fed.now.bytes self.old.ended.notes self.old.ended.builder self.old.ended.number
            self.old.held.items }
        requires length { length _fed.now.bytes + length bytes.now < word_limit }
        ensures ok { OnOk result (IsFed pick.now (_fed.now.bytes ++ bytes.now) self.new.ended.notes
            self.new.ended.builder self.new.ended.number self.new.held.items) }
        ensures err { IfErr result (λ fault. IsTrue (feeding pick.now (_fed.now.bytes ++ bytes.now) (Some fault))) }
        ensures late { IfErr result (λ fault. IsLate (ended_lines _fed.now.bytes) fault) }
    {
        let mut rest = bytes;
        while let Some(at) = rest.find_byte(b'\n') {
            self.end_line(pick, &rest[..at])?;
            rest = &rest[at + 1..];
        }
        if rest.is_empty() {
            return Ok(());
        }
        self.hold(rest)
    }

    /// Reads a piece up to its first fault, unless a fault was returned before. Returns the first fault.
    #[tactic(auto, unfolding(crate::specs::Steps::Pieces::Agrees))]
    fn feed(&mut self, pick: &Pick, fed: &Trace, bytes: &[u8]) -> Result<(), ReadFault>
        requires way { HasNumber pick.now.way }
        requires fed { Agrees pick.now fed.now.bytes self.old.fault self.old.ended.notes self.old.ended.builder
            self.old.ended.number self.old.held.items }
        requires length { length fed.now.bytes + length bytes.now < word_limit }
        ensures agrees { Agrees pick.now (fed.now.bytes ++ bytes.now) self.new.fault self.new.ended.notes
            self.new.ended.builder self.new.ended.number self.new.held.items }
        ensures answer { MatchResult result (λ _. self.new.fault ≡ None) (λ fault. self.new.fault ≡ Some fault) }
        ensures again { IfSome self.old.fault (λ fault. self.new.fault ≡ Some fault) }
        ensures late { self.old.fault ≡ None
            → IfSome self.new.fault (λ fault. IsLate (ended_lines fed.now.bytes) fault) }
    {
        if let Some(fault) = self.fault {
            return Err(fault);
        }
        let read = self.feed_lines(pick, fed, bytes);
        self.fault = read.err();
        read
    }
}

/// The profile of all lines, or their first fault.
fn finish_lines<A: Allocator + Copy + Drop>(
    progress: Progress<A>,
    pick: &Pick,
    fed: &Trace,
) -> Result<Profile<A>, ReadFault>
    requires way { HasNumber pick.now.way }
    requires fed { IsFed pick.now fed.now.bytes progress.ended.notes progress.ended.builder progress.ended.number
        progress.held.items }
    requires length { length fed.now.bytes < word_limit }
    ensures ok { IfOk result (λ profile. Reads fed.now.bytes pick.now (Ok profile)) }
    ensures err { IfErr result (λ fault. Reads fed.now.bytes pick.now (Err fault)
        ⊎ LacksMemory (lines_of fed.now.bytes) pick.now fault) }
    ensures late { IfErr result (λ fault. IsLate (ended_lines fed.now.bytes) fault) }
{
    let mut ended = progress.ended;
    ended.end_input(&progress.held, pick, fed)?;
    finish(ended.builder, &ended.notes)
}

/// Reads a ballot file in pieces. However it is cut, the outcome is that of all bytes together.
///
/// Contracts see the pick, all bytes that were fed, and the fault that was returned. The reader keeps only the
/// unfinished line, the names and the different ballots.
#[derive(Drop)]
pub struct LineReader<A: Allocator + Copy = Global> {
    pick: Pick,
    progress: Progress<A>,
    fed: Trace,
}

impl<A: Allocator + Copy> Model for LineReader<A> {
    ghost use Rattle.std.specs.Prelude.{◌<◌, length};
    ghost use Rattle.preflib_text.specs.Limits.{word_limit};
    ghost use Rattle.preflib_text.specs.Approvals.{HasNumber};
    ghost use Rattle.preflib_text.specs.Pieces.{Feeding, feeding};
    ghost use Rattle.preflib_text.specs.Steps.Pieces.{Agrees};

    ghost Value = { Feeding };

    ghost view = { λ r. feeding r.pick r.fed.bytes r.progress.fault };

    ghost invariant = { λ r. HasNumber r.pick.way × (length r.fed.bytes < word_limit)
        × Agrees r.pick r.fed.bytes r.progress.fault r.progress.ended.notes r.progress.ended.builder
        r.progress.ended.number r.progress.held.items };
}

impl<A: Allocator + Copy + Drop> LineReader<A> {
    /// A reader to which nothing was fed. The room for a line is allocated here. If an allocation fails, returns
    /// `Memory` without a line. Ballots are hashed with the fixed parameters. The number of `pick.way` is at least 1.
    pub fn new(alloc: A, pick: Pick) -> Result<LineReader<A>, ReadFault>
        requires { HasNumber pick.way }
        ensures ok { IfOk result (λ reader. reader ≡ feeding pick [] None) }
        ensures err { IfErr result (λ fault. fault ≡ at_end FaultName.Memory) }
    {
        LineReader::with_hashing(alloc, pick, BallotHashing::fixed())
    }

    /// Like `new`, with these hash parameters; they affect only speed.
    pub fn with_hashing(
        alloc: A,
        pick: Pick,
        hashing: BallotHashing,
    ) -> Result<LineReader<A>, ReadFault>
        requires { HasNumber pick.way }
        ensures ok { IfOk result (λ reader. reader ≡ feeding pick [] None) }
        ensures err { IfErr result (λ fault. fault ≡ at_end FaultName.Memory) }
    {
        let memory = at_end(FaultName::Memory);
        let Ok(builder) = ProfileBuilder::with_hashing(alloc, MOST_CANDIDATES, hashing) else {
            return Err(memory);
        };
        let Ok(held) = Vec::with_capacity(alloc, LINE_ROOM) else {
            return Err(memory);
        };
        let notes = Notes::new(&pick);
        let progress = Progress {
            fault: None,
            ended: EndedLines {
                builder,
                notes,
                number: 0,
            },
            held,
        };
        Ok(LineReader {
            pick,
            progress,
            fed: Trace::new(),
        })
    }

    /// Reads the next bytes; in all, fewer than 2^64 may be fed. The first fault of a line is returned as soon as the
    /// line has ended. `LongLine` is returned as soon as the line can no longer come within the limit. The fault is the
    /// first one of every input that begins with the bytes so far, and each later call returns it again. Memory is
    /// taken only for names and new ballots.
    pub fn feed(&mut self, bytes: &[u8]) -> Result<(), ReadFault>
        requires { length self.old.fed + length bytes.now < word_limit }
        ensures fed { self.new ≡ feeding self.old.pick (self.old.fed ++ bytes.now) self.new.fault }
        ensures answer { MatchResult result (λ _. self.new.fault ≡ None) (λ fault. self.new.fault ≡ Some fault) }
        ensures again { IfSome self.old.fault (λ fault. self.new.fault ≡ Some fault) }
        ensures told { IsTrue self.new }
        ensures late { self.old.fault ≡ None → IfErr result (λ fault. IsLate (ended_lines self.old.fed) fault) }
        ensures nothing { bytes.now ≡ [] → self.new ≡ self.old }
        ensures every { IfErr result (λ fault. (more : List ℕ) → Reads (self.new.fed ++ more) self.new.pick (Err fault)
            ⊎ LacksMemory (lines_of (self.new.fed ++ more)) self.new.pick fault) }
    {
        let answer = self.progress.feed(&self.pick, &self.fed, bytes);
        self.fed.add(bytes);
        answer
    }

    /// The number of bytes kept of the unfinished line, at most `MOST_LINE_BYTES` and a CR. A CR that may belong to the
    /// end of the line counts; a byte order mark at the start of the input does not. After a fault the result is 0.
    pub fn held(&self) -> usize
        ensures held { self.now.fault ≡ None → result ≡ length (unfinished_line self.now.fed) }
        ensures after { IfSome self.now.fault (λ _. result ≡ 0) }
        ensures most { result ≤ most_line_bytes + 1 }
    {
        if self.progress.fault.is_some() {
            return 0;
        }
        unmarked(self.progress.ended.number, &self.progress.held).len()
    }

    /// Ends the input. Returns the profile of all bytes, or their first fault. A fault that was returned before is
    /// returned again. Memory is taken only if the last line has no LF, for a name or a new ballot.
    pub fn finish(self) -> Result<Profile<A>, ReadFault>
        ensures ok { IfOk result (λ profile. Reads self.fed self.pick (Ok profile)) }
        ensures err { IfErr result (λ fault. Reads self.fed self.pick (Err fault)
            ⊎ LacksMemory (lines_of self.fed) self.pick fault) }
        ensures again { IfSome self.fault (λ fault. result ≡ Err fault) }
        ensures late { self.fault ≡ None → IfErr result (λ fault. IsLate (ended_lines self.fed) fault) }
    {
        if let Some(fault) = self.progress.fault {
            return Err(fault);
        }
        finish_lines(self.progress, &self.pick, &self.fed)
    }
}
