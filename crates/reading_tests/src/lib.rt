//! Tests of what is read: sets and profiles, ballot files, and the words of the command line.
#![tactic(auto)]

#[cfg(test)]
mod tests;
