//! The devices that a run reads and writes, which record whether a call has failed.
ghost use Rattle.std.specs.Prelude.{◌≡◌, ◌+◌, ℕ, ◌||◌, Bool, List, Option, false, is_err};
ghost use Rattle.std.specs.Io.{ReadsAtMost, WritesAtMost};
ghost use Rattle.std.specs.Io.KnownBytes.{Keeps, ReadConsumes, WriteAppends};
ghost use Rattle.text_output.specs.Device.{bytes_given, is_failed_write};

use preflib_text::Trace;
use std::io;
use std::io::{Read, Write};
use std::marker::Model;

/// A device that records whether a call on it has failed.
pub trait Device {
    ghost has_failed: { Self → Bool };

    /// Whether a call on the device has failed so far.
    fn failed(&self) -> bool
        ensures { result ≡ has_failed self.now };
}

/// A device that bytes are read from.
pub trait Source: Device {
    // The bytes that reads will give from here on, if they are known.
    ghost remaining: { Self → Option (List ℕ) };

    // How many bytes reads have given so far.
    ghost given: { Self → ℕ };

    /// Reads into the front of `buf`, and returns the number of bytes that it read. A count of 0 for a `buf` with room
    /// means that nothing is left. An error of any kind is a failed call.
    fn read(&mut self, buf: &mut [u8]) -> io::Result<usize>
        ensures bound { ReadsAtMost result buf.new }
        ensures bytes { ReadConsumes (remaining self.old) (remaining self.new) result buf.new }
        ensures given { given self.new ≡ given self.old + bytes_given result }
        ensures failed { Self.has_failed self.new ≡ (Self.has_failed self.old || is_err result) };
}

/// A device that bytes are written to.
pub trait Sink: Device {
    // The bytes that were taken, if they are known.
    ghost contents: { Self → Option (List ℕ) };

    // How many flushes there were so far.
    ghost flushes: { Self → ℕ };

    /// Takes bytes from the front of `buf`, and returns their number. An error of any kind is a failed call. So is a
    /// count of 0 for one or more bytes.
    fn write(&mut self, buf: &[u8]) -> io::Result<usize>
        ensures bound { WritesAtMost result buf.now }
        ensures bytes { WriteAppends (contents self.old) (contents self.new) result buf.now }
        ensures flushes { flushes self.new ≡ flushes self.old }
        ensures failed { Self.has_failed self.new ≡ (Self.has_failed self.old || is_failed_write result buf.now) };

    /// Hands on what was taken. An error is a failed call.
    fn flush(&mut self) -> io::Result<()>
        ensures bytes { Keeps (contents self.old) (contents self.new) }
        ensures flushes { flushes self.new ≡ flushes self.old + 1 }
        ensures failed { Self.has_failed self.new ≡ (Self.has_failed self.old || is_err result) };
}

/// A reader or a writer of `std` as a device. Contracts see what it holds, whether a call has failed, how many bytes
/// its reads have given, and how often it was flushed.
#[derive(Drop)]
pub struct Told<T> {
    inner: T,
    has_failed: bool,
    /// The bytes that reads have given.
    given: Trace,
    /// A byte for each flush.
    flushes: Trace,
}

impl<T> Model for Told<T> {
    ghost use Rattle.std.specs.Prelude.{ℕ, Bool, length};

    ghost Value = { T × Bool × ℕ × ℕ };

    ghost view = { λ told. (told.inner, told.has_failed, length told.given.bytes, length told.flushes.bytes) };
}

impl<T> Told<T> {
    /// A device over this reader or writer. No call on it has failed yet.
    pub fn new(inner: T) -> Told<T>
        ensures { result ≡ (inner, false, 0, 0) }
    {
        Told {
            inner,
            has_failed: false,
            given: Trace::new(),
            flushes: Trace::new(),
        }
    }
}

impl<T> Device for Told<T> {
    ghost has_failed = { λ told. told.1 };

    fn failed(&self) -> bool {
        self.has_failed
    }
}

impl<T: Read> Source for Told<T> {
    ghost remaining = { λ told. T.remaining told.0 };

    ghost given = { λ told. told.2 };

    fn read(&mut self, buf: &mut [u8]) -> io::Result<usize> {
        let result = self.inner.read(buf);
        if let Ok(count) = &result {
            self.given.add(&buf[..*count]);
        }
        self.has_failed = self.has_failed || result.is_err();
        result
    }
}

impl<T: Write> Sink for Told<T> {
    ghost contents = { λ told. T.contents told.0 };

    ghost flushes = { λ told. told.3 };

    fn write(&mut self, buf: &[u8]) -> io::Result<usize> {
        let result = self.inner.write(buf);
        let fails = match &result {
            Ok(n) => *n == 0 && !buf.is_empty(),
            Err(_) => true,
        };
        self.has_failed = self.has_failed || fails;
        result
    }

    fn flush(&mut self) -> io::Result<()> {
        let result = self.inner.flush();
        self.flushes.add(b"\n");
        self.has_failed = self.has_failed || result.is_err();
        result
    }
}
