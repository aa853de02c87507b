//! A search for winners under Thiele's rules.
//!
//! `ThieleSearch` finds a committee of at least a given value, which consists of a set and some of the free candidates.
//! One search also lists all tied committees, if they are few. `tie_search::descent` goes from set to set, and `search`
//! narrows each set. Three bounds serve it: gains (`counts`, with 64 voters in each word of `columns`), and the prices
//! and pairs of `thiele_bounds`. `tie_search::SearchWinners` asks for one winner after another.
//!
//! A `SearchMemory` holds all memory that such a search takes. So a caller can take it before anything is written, and
//! prepare the search afterwards.
//!
//! The order of candidates, the multipliers and the committee to begin with only decide how soon a search ends. Only
//! their ranges are proved: any choice gives the same answers.
#![tactic(auto)]

mod colours;
mod columns;
mod costs;
mod counts;
mod dominance;
pub mod laws;
mod matching;
mod permutations;
mod search;
mod symmetry;
pub mod thiele;
mod trials;
mod uncovered;

pub use thiele::{SearchMemory, ThieleSearch};
