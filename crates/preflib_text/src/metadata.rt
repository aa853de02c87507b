//! Reads a metadata line: its key, its value, and the fact that they state.
ghost use Rattle.std.specs.Prelude.{◌≡◌, ◌==◌, true, false, [], ◌∷◌, option_map, MatchOption};
ghost use Rattle.std.specs.List.{list_any, before_first, after_first};
ghost use Rattle.preflib_text.specs.Metadata.{words_of, written_number, told_by, told_of};
ghost use Rattle.preflib_text.specs.Steps.Tokens.{capped};
ghost use Rattle.preflib_text.specs.Steps.Tells.{words_with, digits_after, meant, capped_told};

use crate::limits::ABOVE;
use crate::lines::{trim, trim_start};
use bstr::ByteSlice;

/// The fact that a metadata line states.
#[derive(Clone, Copy)]
pub(crate) enum Fact<'a> {
    Type(&'a [u8]),
    Alternatives(&'a [u8]),
    Categories(&'a [u8]),
    Name(u64, &'a [u8]),
    Nothing,
}

/// A metadata line, cut at its first colon.
#[derive(Clone, Copy)]
struct Entry<'a> {
    key: &'a [u8],
    value: &'a [u8],
}

/// A word and the bytes after it.
#[derive(Clone, Copy)]
struct Word<'a> {
    word: &'a [u8],
    rest: &'a [u8],
}

/// Continues a number with these digits. Returns `None` if the text has another byte.
#[tactic(auto, unfolding(crate::specs::Steps::Tells::digits_after))]
fn digits_after(first: u64, text: &[u8]) -> Option<u64>
    requires { first ≡ capped first }
    ensures { result ≡ digits_after first text.now }
{
    let mut value = first;
    let mut rest = text;
    while let [byte, after @ ..] = rest {
        if !byte.is_ascii_digit() {
            return None;
        }
        value = (10 * value + u64::from(*byte - b'0')).min(ABOVE);
        rest = after;
    }
    Some(value)
}

/// The number that a text of digits stands for. A number above `MOST_VOTERS` becomes `ABOVE`.
pub(crate) fn written_number(text: &[u8]) -> Option<u64>
    ensures { result ≡ option_map capped (written_number text.now) }
{
    if text.is_empty() {
        return None;
    }
    digits_after(0, text)
}

/// The first word, and the bytes after it. Without a word, both are empty.
fn first_word(text: &[u8]) -> Word<'_>
    ensures word { words_of text.now ≡ words_with result.word.now (words_of result.rest.now) }
    ensures end { result.word.now ≡ [] → result.rest.now ≡ [] }
{
    let text = trim_start(text);
    match text.find_byteset(b" \t") {
        Some(at) => Word {
            word: &text[..at],
            rest: &text[at..],
        },
        None => Word {
            word: text,
            rest: &[],
        },
    }
}

fn cut_at_colon(text: &[u8]) -> Option<Entry<'_>>
    ensures { MatchOption result (list_any (λ b. b == 58) text.now ≡ false)
        (λ e. (list_any (λ b. b == 58) text.now ≡ true) × (e.key.now ≡ before_first (λ b. b == 58) text.now)
        × (e.value.now ≡ after_first (λ b. b == 58) text.now)) }
{
    let at = text.find_byte(b':')?;
    Some(Entry {
        key: &text[..at],
        value: &text[at + 1..],
    })
}

/// The fact that a key of at most two words states.
fn told_by_two<'a>(first: &[u8], second: &[u8], value: &'a [u8]) -> Fact<'a>
    ensures { meant result
        ≡ told_by (record { key = words_with first.now (words_with second.now []); value = value.now }) }
{
    if first.eq_ignore_ascii_case(b"DATA") && second.eq_ignore_ascii_case(b"TYPE") {
        return Fact::Type(value);
    }
    if first.eq_ignore_ascii_case(b"NUMBER") && second.eq_ignore_ascii_case(b"ALTERNATIVES") {
        return Fact::Alternatives(value);
    }
    if first.eq_ignore_ascii_case(b"NUMBER") && second.eq_ignore_ascii_case(b"CATEGORIES") {
        return Fact::Categories(value);
    }
    Fact::Nothing
}

/// The fact that a key of three words states.
fn told_by_three<'a>(first: &[u8], second: &[u8], third: &[u8], value: &'a [u8]) -> Fact<'a>
    ensures { meant result
        ≡ capped_told (told_by (record { key = first.now ∷ second.now ∷ third.now ∷ []; value = value.now })) }
{
    if !(first.eq_ignore_ascii_case(b"ALTERNATIVE") && second.eq_ignore_ascii_case(b"NAME")) {
        return Fact::Nothing;
    }
    match written_number(third) {
        Some(number) => Fact::Name(number, value),
        None => Fact::Nothing,
    }
}

fn told_by<'a>(key: &[u8], value: &'a [u8]) -> Fact<'a>
    ensures { meant result ≡ capped_told (told_by (record { key = words_of key.now; value = value.now })) }
{
    let first = first_word(key);
    let second = first_word(first.rest);
    let third = first_word(second.rest);
    if third.word.is_empty() {
        told_by_two(first.word, second.word, value)
    } else if first_word(third.rest).word.is_empty() {
        told_by_three(first.word, second.word, third.word, value)
    } else {
        Fact::Nothing
    }
}

/// The fact that a metadata line states.
pub(crate) fn told_of(line: &[u8]) -> Fact<'_>
    ensures { meant result ≡ capped_told (told_of line.now) }
{
    let [b'#', text @ ..] = trim_start(line) else {
        return Fact::Nothing;
    };
    match cut_at_colon(text) {
        Some(entry) => told_by(entry.key, trim(entry.value)),
        None => Fact::Nothing,
    }
}
