//! The limits of a file.

use ballot_base::MOST_VOTERS;

/// The maximum number of bytes in a line, without its end.
pub const MOST_LINE_BYTES: usize = 1_048_576;

/// The maximum number of categories: 2^32.
pub const MOST_CATEGORIES: u64 = 4_294_967_296;

/// What larger numbers are read as. No number that a reader needs is above [`MOST_VOTERS`].
pub(crate) const ABOVE: u64 = MOST_VOTERS + 1;
