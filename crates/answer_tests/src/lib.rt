//! Tests of the answers: committees that win, representation and seats.
#![tactic(auto)]

#[cfg(test)]
mod tests;
