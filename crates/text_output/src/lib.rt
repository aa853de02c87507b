//! Text on its way to a device.
//!
//! `device` has the traits of what is read and written. `printing` has the `Printer`, which keeps text in a buffer of
//! fixed size until there is enough of it for a write. Through a printer, `numbers` and `names` print lists of
//! candidates and of seats, and `check_text` prints the report of a check.
#![tactic(auto)]

pub mod check_text;
pub mod device;
pub mod names;
pub mod numbers;
pub mod printing;

pub use check_text::{Report, write_holds};
pub use device::{Device, Sink, Source, Told};
pub use names::{Names, print_beside_seats, print_candidates};
pub use numbers::print_seats;
pub use printing::{MOST_PENDING, Printer, WriteFailed, write_pieces};
