//! Why a file is refused.
ghost use Rattle.std.specs.Prelude.{◌≡◌, Some};
ghost use Rattle.preflib_text.specs.Names.{added_fault, fault_name, read_fault_text};
ghost use Rattle.preflib_text.specs.declared.fault.FaultName.TheVariants.{Memory};

use ballot_base::AddFault;
use std::alloc::AllocError;
use std::error::Error;
use std::fmt;

/// What is wrong with a file.
#[derive(Clone, Copy, Debug, PartialEq, Eq)]
pub enum FaultName {
    /// A line has more than [`MOST_LINE_BYTES`](crate::MOST_LINE_BYTES) bytes without its end.
    LongLine,
    /// The number of alternatives or of categories is not a number or is 0, or there are more than
    /// [`MOST_CATEGORIES`](crate::MOST_CATEGORIES) categories.
    BadNumber,
    /// There are more than [`MOST_CANDIDATES`](ballot_base::MOST_CANDIDATES) alternatives.
    TooManyCandidates,
    /// The number of alternatives or of categories is given again, with another value.
    ConflictingKey,
    /// The first ballot or the end comes before the number of alternatives.
    NoAlternatives,
    /// The first ballot comes before the type of the file is known.
    NoKind,
    /// The metadata give a type that is not one of the five.
    BadKind,
    /// A ballot line does not consist of a count, a colon and an order.
    BadBallot,
    /// A count is 0 or above [`MOST_VOTERS`](ballot_base::MOST_VOTERS).
    BadCount,
    /// A number in a ballot is 0 or above the number of alternatives.
    NoSuchCandidate,
    /// A number occurs twice in a ballot.
    RepeatedCandidate,
    /// A class of a strict ranking does not have exactly one number.
    NotStrict,
    /// A complete ranking leaves out a candidate.
    Incomplete,
    /// A ballot has more classes than there are categories.
    TooManyClasses,
    /// The input ends without a ballot.
    NoVoters,
    /// With this line there are more than [`MOST_VOTERS`](ballot_base::MOST_VOTERS) voters.
    TooManyVoters,
    /// The way of approval does not fit the type of the file, or its category is above the number of categories.
    PickMisfit,
    /// An allocation failed.
    Memory,
}

impl FaultName {
    /// The names of all faults, in the order of the variants.
    pub const NAMES: [&'static str; 18] = [
        "LongLine",
        "BadNumber",
        "TooManyCandidates",
        "ConflictingKey",
        "NoAlternatives",
        "NoKind",
        "BadKind",
        "BadBallot",
        "BadCount",
        "NoSuchCandidate",
        "RepeatedCandidate",
        "NotStrict",
        "Incomplete",
        "TooManyClasses",
        "NoVoters",
        "TooManyVoters",
        "PickMisfit",
        "Memory",
    ];

    /// The name, as it is printed in the line that refuses a file.
    pub const fn name(self) -> &'static str
        ensures { result.now ≡ fault_name self }
    {
        FaultName::NAMES[self as usize]
    }
}

impl fmt::Display for FaultName {
    ghost output = { λ fault. Some (fault_name fault) };

    fn fmt<W: fmt::Write>(&self, f: &mut fmt::Formatter<W>) -> fmt::Result {
        f.write_str(self.name())
    }
}

impl Error for FaultName {}

impl From<AllocError> for FaultName {
    ghost from_gives = { λ _ fault. fault ≡ Memory };

    fn from(_error: AllocError) -> FaultName {
        FaultName::Memory
    }
}

impl From<AddFault> for FaultName {
    ghost from_gives = { λ refused fault. fault ≡ added_fault refused };

    fn from(refused: AddFault) -> FaultName {
        match refused {
            AddFault::TooManyVoters => FaultName::TooManyVoters,
            AddFault::Memory => FaultName::Memory,
        }
    }
}

/// What is wrong with a file, and the number of the line where it is, counted from 1. `NoAlternatives` and `NoVoters`
/// have no line.
#[derive(Clone, Copy, Debug, PartialEq, Eq)]
pub struct ReadFault {
    pub name: FaultName,
    pub line: Option<u64>,
}

impl fmt::Display for ReadFault {
    ghost output = { λ fault. Some (read_fault_text fault) };

    fn fmt<W: fmt::Write>(&self, f: &mut fmt::Formatter<W>) -> fmt::Result {
        match self.line {
            Some(line) => write!(f, "line {line}: {}", self.name),
            None => f.write_str(self.name.name()),
        }
    }
}

impl Error for ReadFault {}
