//! The library behind the program `committees`: from a request and an input to an answer, a status and an error line.
//!
//! `run_request` has the whole run. `input` reads the ballots, `answers` has a function for each question, and
//! `election` chooses the algorithm of a rule. `listing` prints the answers of an election or of seats, and `refusal`
//! names what stops a run. The printer, the report of a check, and the devices are in `text_output`.
#![tactic(auto)]

mod answers;
mod elect_text;
mod election;
mod input;
pub mod laws;
mod listing;
mod parties;
mod refusal;
pub mod run_request;
mod share_text;
mod starts;
pub mod status;
pub mod storage;

pub use ballot_base::BallotHashing;
pub use request_words::{
    Electing, LineFault, ListOption, Page, Question, Request, Rule, ScoredRule, Sharing, Task,
    read_request,
};
pub use run_request::{run, run_with_hashing};
pub use status::Status;
pub use storage::Storage;
pub use text_output::{Device, Sink, Source, Told, device};
