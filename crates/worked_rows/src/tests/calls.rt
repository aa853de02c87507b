//! Readers and writers of the standard library's traits, and which of their calls a run makes.
use super::support::{ANSWER, THREE, request};
use std::alloc::Global;
use std::io;
use std::io::{ErrorKind, Read, Write};
use std::process::Abort;
use vote_cli::{Device, Status, Told, run};

/// A writer that keeps what it takes, and counts its calls. One write and one flush may fail.
#[derive(Drop)]
struct Counting {
    taken: Vec<u8>,
    writes: u64,
    flushes: u64,
    /// The number of the write that fails, counted from 1, and 0 if none is to fail.
    failing_write: u64,
    /// The number of the flush that fails, counted in the same way.
    failing_flush: u64,
}

impl Counting {
    /// Took nothing yet.
    fn new(alloc: Global, failing_write: u64, failing_flush: u64) -> Counting {
        Counting {
            taken: Vec::new(alloc),
            writes: 0,
            flushes: 0,
            failing_write,
            failing_flush,
        }
    }
}

impl Write for Counting {
    fn write(&mut self, buf: &[u8]) -> io::Result<usize> {
        self.writes = self.writes.saturating_add(1);
        if self.writes == self.failing_write {
            return Err(io::Error::from(ErrorKind::Other));
        }
        self.taken.extend_from_slice(buf)?;
        Ok(buf.len())
    }

    fn flush(&mut self) -> io::Result<()> {
        self.flushes = self.flushes.saturating_add(1);
        if self.flushes == self.failing_flush {
            return Err(io::Error::from(ErrorKind::Other));
        }
        Ok(())
    }
}

/// A reader whose first call fails. The calls after it give the bytes.
#[derive(Drop)]
struct FailingFirst<'a> {
    rest: &'a [u8],
    has_failed: bool,
}

impl<'a> Read for FailingFirst<'a> {
    fn read(&mut self, buf: &mut [u8]) -> io::Result<usize> {
        if self.has_failed {
            return self.rest.read(buf);
        }
        self.has_failed = true;
        Err(io::Error::from(ErrorKind::Other))
    }
}

/// Runs an election over `THREE`, and asserts that it ends with this status. Its output has failed exactly if the
/// status is that of a failed device.
fn assert_writes(rt: &impl Abort, alloc: Global, writer: &mut Counting, wanted: Status) {
    let request = request(rt, alloc, "elect --rule av --size 1");
    let mut reader = Told::new(THREE);
    let mut out = Told::new(writer);
    let mut err = Told::new(Vec::new(alloc));
    let status = run(alloc, &request, &mut reader, &mut out, &mut err);
    assert!(rt; status == wanted, "{status:?}");
    assert!(rt;
        out.failed() == (wanted == Status::DeviceFailed),
        "{wanted:?}"
    );
    assert!(rt; !reader.failed() && !err.failed(), "{wanted:?}");
}

#[test]
fn an_answer_is_flushed_once(rt: HostRuntime) {
    let mut writer = Counting::new(rt.alloc(), 0, 0);
    assert_writes(&rt, rt.alloc(), &mut writer, Status::Answered);
    assert_eq!(rt; writer.flushes, 1);
    assert!(rt; writer.writes > 0 && writer.taken.as_slice() == ANSWER);
}

#[test]
fn a_flush_that_fails(rt: HostRuntime) {
    let mut writer = Counting::new(rt.alloc(), 0, 1);
    assert_writes(&rt, rt.alloc(), &mut writer, Status::DeviceFailed);
    assert_eq!(rt; writer.flushes, 1);
    assert!(rt; writer.taken.as_slice() == ANSWER);
}

#[test]
fn a_first_write_that_fails(rt: HostRuntime) {
    let mut writer = Counting::new(rt.alloc(), 1, 0);
    assert_writes(&rt, rt.alloc(), &mut writer, Status::DeviceFailed);
    assert!(rt; writer.writes > 0 && writer.taken.is_empty());
}

#[test]
fn a_first_read_that_fails(rt: HostRuntime) {
    let alloc = rt.alloc();
    let request = request(&rt, alloc, "elect --rule av --size 1");
    let mut reader = Told::new(FailingFirst {
        rest: THREE,
        has_failed: false,
    });
    let mut writer = Counting::new(alloc, 0, 0);
    let mut out = Told::new(&mut writer);
    let mut err = Told::new(Vec::new(alloc));
    let status = run(alloc, &request, &mut reader, &mut out, &mut err);
    assert!(rt; status == Status::DeviceFailed, "{status:?}");
    assert!(rt; reader.failed() && !out.failed() && !err.failed());
    assert_eq!(rt; (writer.writes, writer.flushes), (0, 0));
}
