//! A whole run, from the bytes of the input to the bytes of the answer.
//!
//! Each function of `answers` states what it wrote by `Writes`. This module joins that to what was read. `LeavesRun`
//! (`specs/Runs.antt`) defines what a run leaves on its devices.
ghost use Rattle.std.specs.Prelude.{◌≡◌, ◌≢◌, Err, IfSome, true};
ghost use Rattle.preflib_text.specs.Approvals.{HasNumber};
ghost use Rattle.text_output.specs.Device.{reader_state, writer_state};
ghost use Rattle.text_output.specs.Steps.Printing.{calls_of};
ghost use Rattle.vote_cli.specs.Runs.{IsRight, LeavesRun, Reports, has_votes};
ghost use Rattle.vote_cli.specs.Steps.Refusals.{WritesRight, ReadsBallots, ReadsOn};
ghost use Rattle.vote_cli.specs.Steps.Refusals.{TellsOfReads, TellsOfWrites, error_of, status_of};

use crate::answers::{Ballots, Outcome, answer_share};
use crate::input::read_to_end;
use crate::refusal::Refusal;
use crate::status::Status;
use crate::storage::Storage;
use ballot_base::{BallotHashing, Profile};
use preflib_text::{LineReader, Pick};
use request_words::{Request, Task};
use std::alloc::Allocator;
use text_output::{Names, Sink, Source};

fn ballots_of<A: Allocator + Copy + Drop>(lines: LineReader<A>) -> Result<Profile<A>, Refusal>
    ensures ballots { ReadsBallots lines.pick lines.fed result }
    ensures unread { result ≢ Err Refusal.ReadFailed }
    ensures unwritten { result ≢ Err Refusal.WriteFailed }
{
    Ok(lines.finish()?)
}

// Not inlined: the piece that is read takes 8 KB of stack, which would lie beside a search for winners.
#[inline(never)]
fn read_ballots<A: Allocator + Copy + Drop, R: Source>(
    storage: Storage<A>,
    pick: &Pick,
    reader: &mut R,
) -> Result<Profile<A>, Refusal>
    requires way { HasNumber pick.now.way }
    ensures input { IfSome (R.remaining reader.old) (λ bytes. ReadsBallots pick.now bytes result) }
    ensures reads { ReadsOn (reader_state R.remaining R.has_failed R.given reader.old)
        (reader_state R.remaining R.has_failed R.given reader.new) result }
    ensures unwritten { result ≢ Err Refusal.WriteFailed }
{
    let lines = read_to_end(storage, pick, reader)?;
    ballots_of(lines)
}

/// Writes the answer if there is one. The input is read only if its ballots are asked about.
fn answer<A: Allocator + Copy + Drop, R: Source, W: Sink>(
    storage: Storage<A>,
    request: &Request,
    reader: &mut R,
    out: &mut W,
) -> Result<Outcome, Refusal>
    ensures answer { WritesRight (IsRight request.now (reader_state R.remaining R.has_failed R.given reader.old))
        (W.contents out.old) (W.contents out.new) result }
    ensures reads { TellsOfReads request.now.task (reader_state R.remaining R.has_failed R.given reader.old)
        (reader_state R.remaining R.has_failed R.given reader.new) result }
    ensures writes { TellsOfWrites (calls_of W.has_failed W.flushes out.old)
        (calls_of W.has_failed W.flushes out.new) result }
    ensures votes { has_votes request.now.task ≡ true → reader.new ≡ reader.old }
{
    match request.task() {
        Task::OfVotes(votes, sharing) => {
            let names = Names::<A>::numbers(request.names());
            answer_share(out, votes.as_slice(), sharing, &names)
        }
        Task::OfBallots(question) => {
            let profile = read_ballots(storage, &request.pick(), reader)?;
            let ballots = Ballots {
                profile: &profile,
                with_names: request.names(),
            };
            ballots.answer(storage.alloc, out, question)
        }
    }
}

fn refuse<E: Sink>(err: &mut E, refusal: Refusal) -> Status
    ensures status { result ≡ status_of refusal }
    ensures error { Reports (writer_state E.contents E.has_failed E.flushes err.old)
        (writer_state E.contents E.has_failed E.flushes err.new) (error_of refusal) }
{
    let _ = refusal.write(err);
    refusal.status()
}

/// Answers a request over the bytes of a reader: writes the answer to `out`, or a line to `err`. The status is how the
/// run ended. If a write fails, `out` has taken a beginning of the answer.
///
/// The input is read to its end, whatever it holds. Only then is the request tested, and only then is anything written.
/// No memory is taken after the first write. If the votes stand in the request, nothing is read and no memory is taken.
/// Ballots are hashed with fixed parameters; use `run_with_hashing` for untrusted input.
pub fn run<A: Allocator + Copy + Drop, R: Source, W: Sink, E: Sink>(
    alloc: A,
    request: &Request,
    reader: &mut R,
    out: &mut W,
    err: &mut E,
) -> Status
    ensures { LeavesRun (reader_state R.remaining R.has_failed R.given)
        (writer_state W.contents W.has_failed W.flushes) (writer_state E.contents E.has_failed E.flushes)
        request.now reader.old reader.new out.old out.new err.old err.new result }
{
    let storage = Storage {
        alloc,
        hashing: BallotHashing::fixed(),
    };
    run_with_hashing(storage, request, reader, out, err)
}

/// Like `run`, but ballots are hashed with the parameters of `storage`. These only change the time that ballots take.
pub fn run_with_hashing<A: Allocator + Copy + Drop, R: Source, W: Sink, E: Sink>(
    storage: Storage<A>,
    request: &Request,
    reader: &mut R,
    out: &mut W,
    err: &mut E,
) -> Status
    ensures { LeavesRun (reader_state R.remaining R.has_failed R.given)
        (writer_state W.contents W.has_failed W.flushes) (writer_state E.contents E.has_failed E.flushes)
        request.now reader.old reader.new out.old out.new err.old err.new result }
{
    match answer(storage, request, reader, out) {
        Ok(Outcome::Answered) => Status::Answered,
        Ok(Outcome::Violated) => Status::Violated,
        Err(refusal) => refuse(err, refusal),
    }
}
