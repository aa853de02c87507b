//! Runs over the devices.
ghost use Rattle.std.specs.Prelude.{◌≡◌, true};
ghost use Rattle.test_devices.specs.States.{told_reader, told_writer};
ghost use Rattle.test_devices.specs.Views.{new_reader, new_writer};
ghost use Rattle.vote_cli.specs.Runs.{Ends, has_votes};

use std::alloc::{Allocator, Global};
use test_devices::{Fault, Recorder, SliceReader};
use vote_cli::{Request, Status, run};

/// A reader that gives all that is asked for, and never fails.
pub(super) fn reader(bytes: &[u8]) -> SliceReader<'_>
    ensures { result ≡ new_reader bytes.now usize.MAX 0 }
{
    SliceReader::new(bytes, usize::MAX)
}

/// A writer that takes all that it is given, and never fails.
pub(super) fn writer(alloc: Global) -> Recorder
    ensures { result ≡ new_writer usize.MAX Fault.Sound }
{
    Recorder::new(alloc, usize::MAX, Fault::Sound)
}

/// A run that has ended, and its devices.
#[derive(Drop)]
pub(super) struct Ended<'a> {
    pub status: Status,
    pub reader: SliceReader<'a>,
    pub out: Recorder,
    pub err: Recorder,
}

/// Runs a request over the devices.
pub(super) fn run_on<'a, A: Allocator + Copy + Drop>(
    alloc: A,
    request: &Request,
    mut reader: SliceReader<'a>,
    mut out: Recorder,
    mut err: Recorder,
) -> Ended<'a>
    ensures ends { Ends request.now (told_reader reader.entry) (told_reader result.reader)
        (told_writer out) (told_writer result.out) (told_writer err) (told_writer result.err) result.status }
    ensures votes { has_votes request.now.task ≡ true → result.reader ≡ reader.entry }
{
    let status = run(alloc, request, &mut reader, &mut out, &mut err);
    Ended {
        status,
        reader,
        out,
        err,
    }
}

/// Runs a request over a reader, and over writers that never fail.
pub(super) fn run_over<'a, A: Allocator + Copy + Drop>(
    alloc: Global,
    heap: A,
    request: &Request,
    reader: SliceReader<'a>,
) -> Ended<'a> {
    run_on(heap, request, reader, writer(alloc), writer(alloc))
}
