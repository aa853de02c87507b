//! Winners by search.
//!
//! `Searchable` is what can be searched. Its `find` returns a committee of at least a given value, which consists of a
//! set and some of the free candidates. Two crates implement it: `thiele_search` for Thiele's rules, and
//! `minimax_search` for minimax approval voting.
//!
//! `SearchWinners` lists the winners. It asks a search for each of them, so it goes only where a winner is. A walk over
//! plain bounds enters a prefix in vain if its bound reaches the highest value and no committee below it does. A search
//! may also list all winners that complete a branch (module `branch_list`), which answers all questions below it.
//!
//! `descent` is the search that both make, from set to set. It tries candidates by their worth. `found` is what it has
//! found so far.
#![tactic(auto)]

mod asking;
mod branch;
mod branch_list;
pub mod descent;
pub mod found;
mod oracle;
pub mod searchable;
pub mod winners;

pub use found::{Committees, MOST_TIED, Tied};
pub use searchable::{Searchable, WithClones};
pub use winners::SearchWinners;
