//! Devices that give and take few bytes at a time, and fail at a chosen call or byte.
ghost use Rattle.std.specs.Prelude.{◌≡◌, ◌≢◌, ◌↔◌, ◌≤◌, ◌+◌, ◌-◌, ◌^◌, ◌==◌, ◌||◌, ◌&&◌, not, [], Some, true, IfOk, IsErr, is_err, length, min, if◌then◌else◌};
ghost use Rattle.std.specs.Io.{ReadsAtMost, WritesAtMost};
ghost use Rattle.std.specs.Io.KnownBytes.{ReadConsumes, WriteAppends};
ghost use Rattle.text_output.specs.Device.{bytes_given, is_failed_write};
ghost use Rattle.test_devices.specs.Faults.{IsDue, is_zero_after};
ghost use Rattle.test_devices.specs.Views.{new_reader, new_writer};

use preflib_text::Trace;
use std::alloc::Global;
use std::io;
use std::io::ErrorKind;
use std::marker::Model;
use text_output::{Device, Sink, Source};

/// A reader over bytes. Contracts see the bytes that it still has to give, whether a call has failed, and the number of
/// calls up to the one that fails (0 if none does). They also see how many bytes it has given, and the maximum per
/// call.
#[derive(Drop)]
pub struct SliceReader<'a> {
    rest: &'a [u8],
    piece: usize,
    calls_left: u64,
    has_failed: bool,
    given: Trace,
}

impl<'a> Model for SliceReader<'a> {
    ghost use Rattle.std.specs.Prelude.{◌≤◌, length};
    ghost use Rattle.test_devices.specs.Views.{ReaderView};

    ghost Value = { ReaderView };

    ghost view = { λ reader. record {
      remaining = reader.rest.now;
      has_failed = reader.has_failed;
      calls_left = reader.calls_left;
      given = length reader.given.bytes;
      piece = reader.piece;
    } };

    ghost invariant = { λ reader. 1 ≤ reader.piece };
}

impl<'a> SliceReader<'a> {
    /// A reader that gives at most `piece` bytes per call, at least 1, and never fails.
    pub fn new(bytes: &'a [u8], piece: usize) -> SliceReader<'a>
        requires some { 1 ≤ piece }
        ensures { result ≡ new_reader bytes.now piece 0 }
    {
        SliceReader::failing(bytes, piece, 0)
    }

    /// A reader that gives at most `piece` bytes per call, at least 1. The call with the number `fails`, counted from
    /// 1, is an error; later calls are not. With 0 no call is an error.
    pub fn failing(bytes: &'a [u8], piece: usize, fails: u64) -> SliceReader<'a>
        requires some { 1 ≤ piece }
        ensures { result ≡ new_reader bytes.now piece fails }
    {
        SliceReader {
            rest: bytes,
            piece,
            calls_left: fails,
            has_failed: false,
            given: Trace::new(),
        }
    }
}

impl<'a> Device for SliceReader<'a> {
    ghost has_failed = { λ reader. reader.has_failed };

    fn failed(&self) -> bool {
        self.has_failed
    }
}

impl<'a> Source for SliceReader<'a> {
    ghost remaining = { λ reader. Some reader.remaining };

    ghost given = { λ reader. reader.given };

    fn read(&mut self, buf: &mut [u8]) -> io::Result<usize>
        ensures bound { ReadsAtMost result buf.new }
        ensures bytes { ReadConsumes (Some self.old.remaining) (Some self.new.remaining) result buf.new }
        ensures given { self.new.given ≡ self.old.given + bytes_given result }
        ensures failed { self.new.has_failed ≡ (self.old.has_failed || is_err result) }
        ensures due { is_err result ≡ (self.old.calls_left == 1) }
        ensures left { self.new.calls_left ≡ self.old.calls_left - 1 }
        ensures piece { IfOk result (λ n. n ≤ self.old.piece) }
        ensures same_piece { self.new.piece ≡ self.old.piece }
    {
        let is_due = self.calls_left == 1;
        self.calls_left = self.calls_left.saturating_sub(1);
        if is_due {
            self.has_failed = true;
            return Err(io::Error::from(ErrorKind::Other));
        }
        let count = self.rest.len().min(self.piece).min(buf.len());
        let (given, rest) = self.rest.split_at(count);
        buf[..count].copy_from_slice(given);
        self.rest = rest;
        self.given.add(given);
        Ok(count)
    }
}

/// How a writer fails. The fault shows in one call, and later calls are sound.
#[derive(Clone, Copy, Debug, PartialEq, Eq)]
pub enum Fault {
    /// It does not fail.
    Sound,
    /// A write is an error, once this many bytes were taken.
    ErrorAfter(usize),
    /// A write takes no byte, once this many were taken.
    ZeroAfter(usize),
    /// The flush is an error.
    AtFlush,
}

/// A writer that keeps what it took, and counts its flushes. Contracts see the bytes, the count, whether a call has
/// failed, the fault that is still to show, and the maximum number of bytes per call.
#[derive(Drop)]
pub struct Recorder {
    taken: Vec<u8>,
    piece: usize,
    fault: Fault,
    flushes: u64,
    has_failed: bool,
    /// A byte for each flush.
    flushed: Trace,
}

impl Model for Recorder {
    ghost use Rattle.std.specs.Prelude.{◌≡◌, ◌-◌, ◌^◌, length, min};
    ghost use Rattle.std.specs.Vec.{vec_items};
    ghost use Rattle.test_devices.specs.Views.{WriterView};

    ghost Value = { WriterView };

    ghost view = { λ writer. record {
      taken = vec_items writer.taken;
      flushes = length writer.flushed.bytes;
      has_failed = writer.has_failed;
      fault = writer.fault;
      piece = writer.piece;
    } };

    ghost invariant = { λ writer. writer.flushes ≡ min (length writer.flushed.bytes) (2 ^ 64 - 1) };
}

impl Recorder {
    /// A writer that takes at most `piece` bytes per call. If `piece` is 0, each write of one or more bytes fails.
    pub fn new(alloc: Global, piece: usize, fault: Fault) -> Recorder
        ensures { result ≡ new_writer piece fault }
    {
        Recorder {
            taken: Vec::new(alloc),
            piece,
            fault,
            flushes: 0,
            has_failed: false,
            flushed: Trace::new(),
        }
    }

    /// The bytes that it took.
    pub fn taken(&self) -> &[u8]
        ensures { result.now ≡ self.now.taken }
    {
        self.taken.as_slice()
    }

    /// The number of flushes. The count stays at its maximum.
    pub fn flushes(&self) -> u64
        ensures { result ≡ min self.now.flushes (2 ^ 64 - 1) }
    {
        self.flushes
    }

    /// The number of bytes that it still takes before its fault shows.
    fn room(&self) -> usize
        ensures { IsDue self.now.fault (length self.now.taken) → result ≡ 0 }
    {
        match self.fault {
            Fault::ErrorAfter(most) | Fault::ZeroAfter(most) => {
                most.saturating_sub(self.taken.len())
            }
            Fault::Sound | Fault::AtFlush => usize::MAX,
        }
    }
}

impl Device for Recorder {
    ghost has_failed = { λ writer. writer.has_failed };

    fn failed(&self) -> bool {
        self.has_failed
    }
}

impl Sink for Recorder {
    ghost contents = { λ writer. Some writer.taken };

    ghost flushes = { λ writer. writer.flushes };

    fn write(&mut self, buf: &[u8]) -> io::Result<usize>
        ensures bound { WritesAtMost result buf.now }
        ensures bytes { WriteAppends (Some self.old.taken) (Some self.new.taken) result buf.now }
        ensures failed { self.new.has_failed ≡ (self.old.has_failed || is_failed_write result buf.now) }
        ensures flushes { self.new.flushes ≡ self.old.flushes }
        ensures due { IsDue self.old.fault (length self.old.taken) → buf.now ≢ []
            → is_failed_write result buf.now ≡ true }
        ensures error { is_err result ≡ (is_failed_write result buf.now && not (is_zero_after self.old.fault)) }
        ensures fault { self.new.fault ≡ (if is_failed_write result buf.now then Fault.Sound else self.old.fault) }
        ensures piece { IfOk result (λ n. n ≤ self.old.piece) }
        ensures same_piece { self.new.piece ≡ self.old.piece }
    {
        if buf.is_empty() {
            return Ok(0);
        }
        let count = buf.len().min(self.piece).min(self.room());
        if count > 0 && self.taken.extend_from_slice(&buf[..count]).is_ok() {
            return Ok(count);
        }
        let takes_none = matches!(self.fault, Fault::ZeroAfter(_));
        self.has_failed = true;
        self.fault = Fault::Sound;
        if takes_none {
            return Ok(0);
        }
        Err(io::Error::from(ErrorKind::Other))
    }

    fn flush(&mut self) -> io::Result<()>
        ensures bytes { self.new.taken ≡ self.old.taken }
        ensures flushes { self.new.flushes ≡ self.old.flushes + 1 }
        ensures due { IsErr result ↔ (self.old.fault ≡ Fault.AtFlush) }
        ensures failed { self.new.has_failed ≡ (self.old.has_failed || is_err result) }
        ensures fault { self.new.fault ≡ (if is_err result then Fault.Sound else self.old.fault) }
        ensures same_piece { self.new.piece ≡ self.old.piece }
    {
        self.flushes = self.flushes.saturating_add(1);
        self.flushed.add(b"\n");
        if self.fault != Fault::AtFlush {
            return Ok(());
        }
        self.has_failed = true;
        self.fault = Fault::Sound;
        Err(io::Error::from(ErrorKind::Other))
    }
}
