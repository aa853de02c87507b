//! Bounds on the committees that complete a set under a Thiele rule, which need no gains.
//!
//! `prices` bounds by a multiplier for each row, `pairs` sees which candidates share voters, and `triples` looks at
//! three candidates at a time. All count what hits give in units: `majorant` has these sums, and the quadratic
//! functions that `pairs` adds up.
#![tactic(auto)]

pub mod laws;
pub mod majorant;
pub mod pairs;
pub mod prices;
mod rough;
mod triple_table;
pub mod triples;

pub use majorant::HitSums;
pub use pairs::PairSearch;
pub use prices::{AGAIN, NODE, PriceSearch, Priced};
pub use triple_table::TripleMemory;
pub use triples::TripleSearch;
