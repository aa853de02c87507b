//! Runs from words and bytes to bytes, and what devices and memory do to them.
mod calls;
mod drawn;
mod failures;
mod growths;
mod listings;
mod long;
mod rest;
mod runs;
mod sending;
mod streams;
mod support;
mod tables;
