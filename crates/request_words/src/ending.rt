//! The type of a file by its extension.
ghost use Rattle.std.specs.Prelude.{◌≡◌, option_map};
ghost use Rattle.request_words.specs.Endings.{after_last, kind_in_path};

use preflib_text::Kind;

/// The bytes after the last one that equals `byte`.
#[tactic(auto, unfolding(crate::specs::Endings::after_last))]
fn after_last(text: &[u8], byte: u8) -> Option<&[u8]>
    ensures { option_map (λ s. s.now) result ≡ after_last byte text.now }
{
    let mut found = None;
    let mut rest = text;
    while let [first, after @ ..] = rest {
        if *first == byte {
            found = Some(after);
        }
        rest = after;
    }
    found
}

/// The type by the extension of the file's name, in letters of any case.
pub(crate) fn kind_in_path(path: &str) -> Option<Kind>
    ensures { result ≡ kind_in_path path.now }
{
    let path = path.as_bytes();
    let name = after_last(path, b'/').unwrap_or(path);
    Kind::named(after_last(name, b'.')?)
}
