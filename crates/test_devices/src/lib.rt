//! For tests: devices that fail.
#![tactic(auto)]

pub mod devices;

pub use devices::{Fault, Recorder, SliceReader};
