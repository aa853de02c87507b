//! A list of numbers in an argument of the command line.
ghost use Rattle.std.specs.Prelude.{◌≡◌, IfOk, option_map};
ghost use Rattle.std.specs.Vec.{vec_items};
ghost use Rattle.request_words.specs.NumberList.{entry_of, list_of};

use std::alloc::{AllocError, Global};

/// The number of these digits. Returns `None` if there is anything else, or the number is not below 2^64.
fn entry_of(text: &str) -> Option<u64>
    ensures { result ≡ entry_of text.now }
{
    if text.starts_with('+') {
        return None;
    }
    text.parse().ok()
}

/// The numbers between commas, or `None` if the text is not a list of numbers.
pub(crate) fn list_of(alloc: Global, text: &str) -> Result<Option<Vec<u64>>, AllocError>
    ensures { IfOk result (λ list. option_map vec_items list ≡ list_of text.now) }
{
    let mut numbers = Vec::new(alloc);
    for entry in text.split(',') {
        let Some(number) = entry_of(entry) else {
            return Ok(None);
        };
        numbers.push(number)?;
    }
    Ok(Some(numbers))
}
