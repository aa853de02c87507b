//! One file for each part of reading. Expected values are worked by hand.
mod builders;
mod files;
mod growths;
mod kept;
mod mutants;
mod pieces;
mod sets;
mod support;
mod words;
