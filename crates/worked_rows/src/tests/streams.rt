//! Runs over the streams of the standard library, with hashes by fixed and by secret numbers.
use super::support::{ANSWER, THREE, request};
use std::alloc::Global;
use std::hash::RandomState;
use std::process::Abort;
use vote_cli::{BallotHashing, Device, Request, Status, Storage, Told, run, run_with_hashing};

/// The streams of a run.
#[derive(Drop)]
struct Streams {
    reader: Told<&'static [u8]>,
    out: Told<Vec<u8>>,
    err: Told<Vec<u8>>,
}

/// The status of a run over these streams, with these parameters of the hash if there are some.
fn status_of(
    alloc: Global,
    request: &Request,
    hashing: Option<BallotHashing>,
    streams: &mut Streams,
) -> Status {
    let Streams { reader, out, err } = streams;
    match hashing {
        Some(hashing) => run_with_hashing(Storage { alloc, hashing }, request, reader, out, err),
        None => run(alloc, request, reader, out, err),
    }
}

/// Asserts that a run over `THREE` answers, with these parameters of the hash if there are some.
fn assert_answers(
    rt: &impl Abort,
    alloc: Global,
    request: &Request,
    hashing: Option<BallotHashing>,
) {
    let mut streams = Streams {
        reader: Told::new(THREE),
        out: Told::new(Vec::new(alloc)),
        err: Told::new(Vec::new(alloc)),
    };
    let status = status_of(alloc, request, hashing, &mut streams);
    assert!(rt; status == Status::Answered, "{status:?}");
    let Streams { reader, out, err } = &streams;
    assert!(rt; !reader.failed() && !out.failed() && !err.failed());
}

#[test]
fn streams_of_std(rt: HostRuntime) {
    let request = request(&rt, rt.alloc(), "elect --rule av --size 1 a.cat");
    assert!(rt; request.file() == Some("a.cat"));
    assert_answers(&rt, rt.alloc(), &request, None);
    let state = RandomState::new(&rt).expect(&rt, "random numbers");
    let hashing = BallotHashing::secret(&state);
    assert_answers(&rt, rt.alloc(), &request, Some(hashing));
}

/// What a run writes to a vector.
#[test]
fn bytes_of_an_answer(rt: HostRuntime) {
    let alloc = rt.alloc();
    let request = request(&rt, alloc, "elect --rule av --size 1");
    let mut written = Vec::new(alloc);
    let mut out = Told::new(&mut written);
    let mut err = Told::new(Vec::new(alloc));
    run(alloc, &request, &mut Told::new(THREE), &mut out, &mut err);
    assert!(rt; written.as_slice() == ANSWER, "{written:?}");
}

static CODES: [(Status, u8); 6] = [
    (Status::Answered, 0),
    (Status::Violated, 1),
    (Status::InputRefused, 3),
    (Status::RequestRefused, 4),
    (Status::NoMemory, 5),
    (Status::DeviceFailed, 6),
];

#[test]
fn codes_of_statuses(rt: HostRuntime) {
    for (status, code) in &CODES {
        assert!(rt; status.code() == *code, "{status:?}");
    }
}
