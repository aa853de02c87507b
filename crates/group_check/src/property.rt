//! Properties of committees, and violations of them.
ghost use Rattle.std.specs.Prelude.{◌≡◌};
ghost use Rattle.group_check.specs.Names.{property_name, property_named};
ghost use Rattle.group_check.specs.Report.{is_in_group};

use ballot_base::CandSet;

/// A property of committees: each large group of voters who agree on enough candidates is represented. Each property
/// implies the one before it. The profile has n voters, the committee has k members, and l goes from 1 to k.
#[derive(Clone, Copy, Debug, PartialEq, Eq)]
pub enum Property {
    /// Justified representation: in every group of at least n/k voters who share a candidate, some voter approves a
    /// committee member (Aziz, Brill, Conitzer, Elkind, Freeman and Walsh).
    Jr,
    /// Proportional justified representation: every group of at least l · n/k voters who share l candidates approves,
    /// together, at least l committee members (Sanchez-Fernandez and others).
    Pjr,
    /// Extended justified representation: in every group of at least l · n/k voters who share l candidates, some voter
    /// approves at least l committee members (Aziz, Brill, Conitzer, Elkind, Freeman and Walsh).
    Ejr,
    /// EJR+: in every group of at least l · n/k voters who share a candidate outside the committee, some voter approves
    /// at least l committee members (Brill and Peters).
    EjrPlus,
}

impl Property {
    /// All properties.
    pub const ALL: [Property; 4] = [
        Property::Jr,
        Property::Pjr,
        Property::Ejr,
        Property::EjrPlus,
    ];

    /// The names of the properties, in the order of `ALL`.
    pub const NAMES: [&'static str; 4] = ["jr", "pjr", "ejr", "ejrplus"];

    /// The name, as it is written on the command line and in answers.
    pub const fn name(self) -> &'static str
        ensures { result.now ≡ property_name self }
    {
        Property::NAMES[self as usize]
    }

    /// The property with this name, or `None`. Upper and lower case differ.
    pub fn named(name: &str) -> Option<Property>
        ensures { result ≡ property_named name.now }
    {
        Property::ALL
            .iter()
            .copied()
            .find(|property| name == property.name())
    }
}

/// A group of voters that breaks a property.
#[derive(Clone, Copy, Debug, PartialEq, Eq)]
pub struct Violation {
    /// The property that the group breaks.
    pub property: Property,
    /// The committee that lacks the property.
    pub committee: CandSet,
    /// The level l, from 1 to the size of the committee: how many members the group could claim.
    pub level: u8,
    /// The l candidates that each of the group's voters approves; for `EjrPlus` one, outside the committee.
    pub shared: CandSet,
    /// For `Pjr`, l - 1 members of the committee, among them all members that the group's voters approve. Empty for the
    /// other properties.
    pub within: CandSet,
    /// The number of voters in the group.
    pub voters: u64,
}

impl Violation {
    /// Whether a voter with this ballot belongs to the group.
    pub fn contains(&self, ballot: CandSet) -> bool
        ensures { result ≡ is_in_group self.now ballot }
    {
        let approved = ballot.common(self.committee);
        let is_below = match self.property {
            Property::Jr | Property::Ejr | Property::EjrPlus => approved.len() < self.level,
            Property::Pjr => self.within.includes(approved),
        };
        ballot.includes(self.shared) && is_below
    }
}
