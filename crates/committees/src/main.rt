//! The program `committees`: elects committees from PrefLib ballot files, checks them, and shares out seats.
#![tactic(auto)]

use std::fs::File;
use std::hash::RandomState;
use std::io::Read;
use std::process::ExitCode;
use std::{env, io};
use vote_cli::status::{OUT_OF_MEMORY, WRITE_FAILED};
use vote_cli::{
    BallotHashing, LineFault, Request, Status, Storage, Told, read_request, run_with_hashing,
};

/// The exit status for a refused command line. No run ends with it.
const WORDS_REFUSED: u8 = 2;

fn main(rt: HostRuntime) -> ExitCode {
    match words(&rt) {
        Ok(words) => answer(&rt, &words),
        Err(error) if error.kind() == io::ErrorKind::OutOfMemory => no_memory(&rt),
        Err(_) => end(
            &rt,
            WORDS_REFUSED,
            "error: a word of the command line is not UTF-8 text",
        ),
    }
}

/// The words of the command line, beginning with the program's name.
fn words(rt: &HostRuntime) -> io::Result<Vec<String>> {
    Ok(env::args(rt)?.collect(rt.alloc())?)
}

/// Answers a command line.
fn answer(rt: &HostRuntime, words: &[String]) -> ExitCode {
    match read_request(rt.alloc(), words) {
        Ok(request) => answer_request(rt, &request),
        Err(LineFault::Help(text)) => match rt.print(text) {
            Ok(()) => ExitCode::SUCCESS,
            Err(_) => end(rt, Status::DeviceFailed.code(), WRITE_FAILED),
        },
        Err(LineFault::Usage(text)) => {
            let _ = rt.eprint(text);
            ExitCode::from(WORDS_REFUSED)
        }
        Err(LineFault::Memory) => no_memory(rt),
        Err(fault) => refused(rt, &fault),
    }
}

/// Ends with the line on a command line that `clap` accepted and `read_request` refused.
fn refused(rt: &HostRuntime, fault: &LineFault) -> ExitCode {
    if let Some(line) = fault.line() {
        let _ = rt.eprintln(line);
    }
    ExitCode::from(WORDS_REFUSED)
}

/// Answers over the file that the request names; failing that, over standard input.
fn answer_request(rt: &HostRuntime, request: &Request) -> ExitCode {
    match request.file() {
        None => answer_over(rt, request, rt.stdin()),
        Some(path) => match File::open(rt, path) {
            Ok(file) => answer_over(rt, request, file),
            Err(_) => end(rt, Status::DeviceFailed.code(), "committees: open failed"),
        },
    }
}

/// Runs a request over a reader, standard output and standard error.
fn answer_over<R: Read + Drop>(rt: &HostRuntime, request: &Request, reader: R) -> ExitCode {
    let mut reader = Told::new(reader);
    let mut out = Told::new(rt.stdout());
    let mut err = Told::new(rt.stderr());
    let storage = Storage {
        alloc: rt.alloc(),
        hashing: hashing(rt),
    };
    let status = run_with_hashing(storage, request, &mut reader, &mut out, &mut err);
    ExitCode::from(status.code())
}

/// The parameters for hashing ballots: random, so that nobody can write a file of ballots that collide. If the system
/// gives no random bytes, they are fixed.
fn hashing(rt: &HostRuntime) -> BallotHashing {
    match RandomState::new(rt) {
        Ok(keys) => BallotHashing::secret(&keys),
        Err(_) => BallotHashing::fixed(),
    }
}

fn no_memory(rt: &HostRuntime) -> ExitCode {
    end(rt, Status::NoMemory.code(), OUT_OF_MEMORY)
}

fn end(rt: &HostRuntime, status: u8, line: &str) -> ExitCode {
    let _ = rt.eprintln(line);
    ExitCode::from(status)
}
