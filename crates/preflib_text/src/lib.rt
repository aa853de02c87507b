//! Reads PrefLib ballot files: complete, incomplete, strict and weak rankings, and categories.
//!
//! `lines` cuts an input into lines. `metadata` and `ballot`, with `approvals`, read one of them. `notes` finds the
//! fault of a line, or what the line does to the profile. `reader` does so for a whole input, `pieces` for an input in
//! pieces.
#![tactic(auto)]

mod approvals;
mod ballot;
pub mod fault;
pub mod laws;
pub mod limits;
mod lines;
mod metadata;
mod notes;
pub mod pick;
mod pieces;
mod reader;
mod trace;

pub use ballot::one_ballot_line;
pub use fault::{FaultName, ReadFault};
pub use limits::{MOST_CATEGORIES, MOST_LINE_BYTES};
pub use pick::{Kind, Pick, Way};
pub use pieces::LineReader;
pub use reader::{one_outcome, read_profile, some_outcome};
pub use trace::Trace;
