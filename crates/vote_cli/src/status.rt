//! How a run ended.
ghost use Rattle.std.specs.Prelude.{◌≡◌};
ghost use Rattle.vote_cli.specs.Status.{code_of};

/// The line on standard error if memory runs out, without its end.
pub const OUT_OF_MEMORY: &str = "committees: memory";

/// The line on standard error if a write fails, without its end.
pub const WRITE_FAILED: &str = "committees: write failed";

/// How a run ended.
#[derive(Clone, Copy, Debug, PartialEq, Eq)]
pub enum Status {
    /// The answer was written.
    Answered,
    /// A property is violated, and the report was written.
    Violated,
    /// The input has a fault.
    InputRefused,
    /// The request does not fit the input, or its own votes.
    RequestRefused,
    /// An allocation failed.
    NoMemory,
    /// A read or a write failed.
    DeviceFailed,
}

impl Status {
    /// The exit status of the program. No run ends with 2, the status for a refused command line.
    pub fn code(&self) -> u8
        ensures { result ≡ code_of self.now }
    {
        match self {
            Status::Answered => 0,
            Status::Violated => 1,
            Status::InputRefused => 3,
            Status::RequestRefused => 4,
            Status::NoMemory => 5,
            Status::DeviceFailed => 6,
        }
    }
}
