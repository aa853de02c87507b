//! A search for winners under minimax approval voting: the committees with the smallest maximum distance to a ballot.
//!
//! `MinimaxSearch` finds a committee that is near each ballot, if there is one. `needs` computes the hits that a ballot
//! needs for that. `search` narrows the sets of `tie_search::descent`, by `weights` of ballots that are moved if that
//! pays; `rows` has these weights, and the rows that matter in front. `good` finds a committee to begin with. If a
//! search lasts, `walk` looks for one that ends it. `lists` limits the work on lists of winners.
//! `tie_search::SearchWinners` asks for one winner after another.
#![tactic(auto)]

mod good;
pub mod laws;
mod lists;
pub mod minimax;
mod needs;
mod rows;
mod search;
mod walk;
mod weights;

pub use minimax::MinimaxSearch;
