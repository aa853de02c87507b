//! The methods, and what they refuse.
ghost use Rattle.std.specs.Prelude.{◌≡◌};
ghost use Rattle.seat_share.specs.Names.{method_name, method_named, share_fault_name};

/// How seats are shared out in proportion to votes (Balinski and Young, Fair Representation; Pukelsheim, Proportional
/// Representation). All but Hamilton's are divisor methods. They compare quotients of a party's votes and a divisor
/// that grows with the party's seats.
#[derive(Clone, Copy, Debug, PartialEq, Eq)]
pub enum Method {
    /// Largest remainders with the Hare quota. A party gets its votes times the seats over all votes, rounded down. The
    /// seats that are left go to the largest remainders.
    Hamilton,
    /// D'Hondt (Jefferson): divisors 1, 2, 3, ..
    Dhondt,
    /// Sainte-Laguë (Webster): divisors 1, 3, 5, ..
    SainteLague,
    /// Huntington and Hill: divisors that are the geometric means of s and s + 1.
    Huntington,
    /// Divisors 0, 1, 2, ..: first seats come before all others.
    Adams,
    /// Divisors that are the harmonic means of s and s + 1.
    Dean,
}

impl Method {
    /// All methods.
    pub const ALL: [Method; 6] = [
        Method::Hamilton,
        Method::Dhondt,
        Method::SainteLague,
        Method::Huntington,
        Method::Adams,
        Method::Dean,
    ];

    /// The names of the methods, in the order of `ALL`.
    pub const NAMES: [&'static str; 6] = [
        "hamilton",
        "dhondt",
        "saintelague",
        "huntington",
        "adams",
        "dean",
    ];

    /// The name, as it is written on the command line and in answers.
    pub const fn name(self) -> &'static str
        ensures { result.now ≡ method_name self }
    {
        Method::NAMES[self as usize]
    }

    /// The method with this name, or `None`. Upper and lower case differ.
    pub fn named(name: &str) -> Option<Method>
        ensures { result ≡ method_named name.now }
    {
        Method::ALL
            .iter()
            .copied()
            .find(|method| name == method.name())
    }
}

/// Why no seats are shared out. If several reasons hold, the first in this order is returned.
#[derive(Clone, Copy, Debug, PartialEq, Eq)]
pub enum ShareFault {
    /// There is no party.
    NoParties,
    /// There are more than [`MOST_PARTIES`](crate::MOST_PARTIES) parties.
    TooManyParties,
    /// No party has a vote.
    NoVotes,
    /// There are more than [`MOST_VOTES`](crate::MOST_VOTES) votes, of all parties together.
    TooManyVotes,
    /// The number of seats is 0, or above [`MOST_SEATS`](crate::MOST_SEATS).
    BadSeats,
    /// The start does not have exactly one number for each party.
    AfterLength,
}

impl ShareFault {
    /// The name, as it is printed in the line that refuses a request.
    pub const fn name(self) -> &'static str
        ensures { result.now ≡ share_fault_name self }
    {
        match self {
            ShareFault::NoParties => "NoParties",
            ShareFault::TooManyParties => "TooManyParties",
            ShareFault::NoVotes => "NoVotes",
            ShareFault::TooManyVotes => "TooManyVotes",
            ShareFault::BadSeats => "BadSeats",
            ShareFault::AfterLength => "AfterLength",
        }
    }
}
