//! Why a run ends without an answer, or with only a beginning of one.
ghost use Rattle.std.specs.Prelude.{◌≡◌, ◌++◌, [], codes, is_ok};
ghost use Rattle.text_output.specs.Steps.Printing.{Sends, calls_of};
ghost use Rattle.text_output.specs.Text.{line};
ghost use Rattle.vote_cli.specs.FaultText.{fault_text};
ghost use Rattle.vote_cli.specs.Steps.RequestFaults.{request_fault_word};
ghost use Rattle.vote_cli.specs.Steps.Refusals.{error_of, status_of};

use crate::status::{OUT_OF_MEMORY, Status, WRITE_FAILED};
use itoa::Buffer;
use preflib_text::{FaultName, ReadFault};
use seat_share::ShareFault;
use std::alloc::AllocError;
use text_output::{Sink, WriteFailed, write_pieces};

/// Why a request does not fit the input, or its votes.
#[derive(Clone, Copy, Debug, PartialEq, Eq)]
pub(crate) enum RequestFault {
    /// There are fewer candidates than seats.
    SizeTooLarge,
    /// The start is not a committee of this size, or does not have one number of seats for each party.
    AfterMisfit,
    /// The list to check is not strictly increasing, is too long, or has a number that is not a candidate's.
    CommitteeMisfit,
    /// A ballot approves two candidates or more, so it is not for one party.
    ManyApproved,
    /// Seats cannot be shared out.
    Share(ShareFault),
}

impl RequestFault {
    fn word(self) -> &'static [u8]
        ensures { result.now ≡ request_fault_word self }
    {
        match self {
            RequestFault::SizeTooLarge => b"SizeTooLarge",
            RequestFault::AfterMisfit => b"AfterMisfit",
            RequestFault::CommitteeMisfit => b"CommitteeMisfit",
            RequestFault::ManyApproved => b"ManyApproved",
            RequestFault::Share(fault) => fault.name().as_bytes(),
        }
    }
}

/// A start with another number of parties is a misfit of the request.
impl From<ShareFault> for RequestFault {
    ghost use Rattle.vote_cli.specs.Steps.RequestFaults.{misfit_of};
    ghost use Rattle.std.specs.Prelude.{◌≡◌};

    ghost from_gives = { λ refused fault. fault ≡ misfit_of refused };

    fn from(refused: ShareFault) -> RequestFault {
        match refused {
            ShareFault::AfterLength => RequestFault::AfterMisfit,
            _ => RequestFault::Share(refused),
        }
    }
}

/// Why a run ends without an answer, or with only a beginning of one.
#[derive(Clone, Copy, Debug, PartialEq, Eq)]
pub(crate) enum Refusal {
    Input(ReadFault),
    Request(RequestFault),
    Memory,
    ReadFailed,
    WriteFailed,
}

impl Refusal {
    pub(crate) fn status(self) -> Status
        ensures { result ≡ status_of self }
    {
        match self {
            Refusal::Input(_) => Status::InputRefused,
            Refusal::Request(_) => Status::RequestRefused,
            Refusal::Memory => Status::NoMemory,
            Refusal::ReadFailed | Refusal::WriteFailed => Status::DeviceFailed,
        }
    }

    pub(crate) fn write<E: Sink>(self, err: &mut E) -> Result<(), WriteFailed>
        ensures { Sends E.contents (calls_of E.has_failed E.flushes) err.old err.new (is_ok result) (error_of self) }
    {
        match self {
            Refusal::Input(fault) => write_input_fault(err, fault),
            Refusal::Request(fault) => write_request_fault(err, fault),
            Refusal::Memory => write_pieces(err, &[OUT_OF_MEMORY.as_bytes(), b"\n"]),
            Refusal::ReadFailed => write_pieces(err, &[b"committees: read failed\n"]),
            Refusal::WriteFailed => write_pieces(err, &[WRITE_FAILED.as_bytes(), b"\n"]),
        }
    }
}

fn write_input_fault<E: Sink>(err: &mut E, fault: ReadFault) -> Result<(), WriteFailed>
    ensures { Sends E.contents (calls_of E.has_failed E.flushes) err.old err.new (is_ok result)
        (line (fault_text fault)) }
{
    let word = fault.name.name().as_bytes();
    let Some(number) = fault.line else {
        return write_pieces(err, &[b"committees: input: ", word, b"\n"]);
    };
    let mut digits = Buffer::new();
    let pieces = [
        b"committees: input line ".as_slice(),
        digits.format(number).as_bytes(),
        b": ",
        word,
        b"\n",
    ];
    write_pieces(err, &pieces)
}

fn write_request_fault<E: Sink>(err: &mut E, fault: RequestFault) -> Result<(), WriteFailed>
    ensures { Sends E.contents (calls_of E.has_failed E.flushes) err.old err.new (is_ok result)
        (line (codes "committees: request: " ++ request_fault_word fault)) }
{
    write_pieces(err, &[b"committees: request: ", fault.word(), b"\n"])
}

/// An input for which memory ran out has no fault of its own.
impl From<ReadFault> for Refusal {
    ghost use Rattle.vote_cli.specs.Steps.Refusals.{IsRefusal};

    ghost from_gives = { IsRefusal };

    fn from(fault: ReadFault) -> Refusal {
        match fault.name {
            FaultName::Memory => Refusal::Memory,
            _ => Refusal::Input(fault),
        }
    }
}

impl From<RequestFault> for Refusal {
    ghost use Rattle.std.specs.Prelude.{◌≡◌};
    ghost use Rattle.vote_cli.specs.declared.refusal.Refusal.TheVariants.{Request};

    ghost from_gives = { λ fault refusal. refusal ≡ Request fault };

    fn from(fault: RequestFault) -> Refusal {
        Refusal::Request(fault)
    }
}

impl From<AllocError> for Refusal {
    ghost use Rattle.std.specs.Prelude.{◌≡◌};
    ghost use Rattle.vote_cli.specs.declared.refusal.Refusal.TheVariants.{Memory};

    ghost from_gives = { λ _ refusal. refusal ≡ Memory };

    fn from(_error: AllocError) -> Refusal {
        Refusal::Memory
    }
}

impl From<WriteFailed> for Refusal {
    ghost use Rattle.std.specs.Prelude.{◌≡◌};
    ghost use Rattle.vote_cli.specs.declared.refusal.Refusal.TheVariants.{WriteFailed as FailedWrite};

    ghost from_gives = { λ _ refusal. refusal ≡ FailedWrite };

    fn from(_failed: WriteFailed) -> Refusal {
        Refusal::WriteFailed
    }
}
