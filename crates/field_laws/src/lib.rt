//! Theorems of the field, over the definitions that the program's answers are proved to meet. The program does not
//! stand on them. Each function does nothing, and its contract is the theorem.
#![tactic(auto)]

pub mod apportionment;
pub mod approval_voting;
pub mod printed_lists;
pub mod representation;
