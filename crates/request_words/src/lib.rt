//! The command line: its arguments, and the request that they make.
#![tactic(auto)]

mod commands;
mod ending;
mod help;
pub mod laws;
mod number_list;
mod options;
pub mod request;
pub mod words;

pub use request::{
    Electing, MOST_LIMIT, MOST_WAY_NUMBER, Page, Question, Request, Rule, ScoredRule, Sharing, Task,
};
pub use words::{LineFault, ListOption, read_request};
