//! The type of a file, and which candidates of its ballots count as approved.
ghost use Rattle.std.specs.Prelude.{◌≡◌};
ghost use Rattle.preflib_text.specs.Names.{kind_name, kind_named};

/// The type of a ballot file, as PrefLib names it.
#[derive(Clone, Copy, Debug, PartialEq, Eq)]
pub enum Kind {
    /// Categories.
    Cat,
    /// Strict and complete rankings.
    Soc,
    /// Strict and incomplete rankings.
    Soi,
    /// Complete rankings with ties.
    Toc,
    /// Incomplete rankings with ties.
    Toi,
}

impl Kind {
    /// All types.
    pub const ALL: [Kind; 5] = [Kind::Cat, Kind::Soc, Kind::Soi, Kind::Toc, Kind::Toi];

    /// The names of the types, in the order of `ALL`.
    pub const NAMES: [&'static str; 5] = ["cat", "soc", "soi", "toc", "toi"];

    /// The name of the type, as in the extensions of PrefLib's files and in their metadata.
    pub const fn name(self) -> &'static str
        ensures { result.now ≡ kind_name self }
    {
        Kind::NAMES[self as usize]
    }

    /// The type with this name, in letters of any case, or `None`.
    pub fn named(text: &[u8]) -> Option<Kind>
        ensures { result ≡ kind_named text.now }
    {
        Kind::ALL
            .iter()
            .copied()
            .find(|kind| text.eq_ignore_ascii_case(kind.name().as_bytes()))
    }
}

/// Which candidates of a ballot count as approved. The numbers are at least 1.
#[derive(Clone, Copy, Debug, Default, PartialEq, Eq)]
pub enum Way {
    /// In a `cat` file, the first category; in a ranking, the first class that has a candidate.
    #[default]
    Usual,
    /// In a `cat` file, this category, counted from 1.
    Category(u32),
    /// In a ranking, the top classes, as many as it takes to reach this many candidates, or all.
    SetSize(u32),
    /// In a ranking, this many top classes, or all.
    Classes(u32),
}

/// How a file is read. By default its type comes from the metadata, and the usual way applies.
#[derive(Clone, Copy, Debug, Default, PartialEq, Eq)]
pub struct Pick {
    /// The type of the file, if it is given. It overrides the metadata.
    pub kind: Option<Kind>,
    /// The type by the extension of the file's name, used only if nothing else gives the type.
    pub ending: Option<Kind>,
    /// Which candidates count as approved.
    pub way: Way,
}
