//! The claim of a party to its next seat: a quotient for a divisor method, or what is left of the party's votes for
//! Hamilton's.
ghost use Rattle.std.specs.Prelude.{◌≡◌, ◌≤◌};
ghost use Rattle.seat_share.specs.Limits.{most_seats, most_votes};
ghost use Rattle.seat_share.specs.Quotients.{is_at_least};
ghost use Rattle.seat_share.specs.Steps.Claims.{claim, most_dividend};

use crate::limits::MOST_VOTES;
use crate::method::Method;
use std::marker::Model;

/// A dividend and a divisor, which may be 0.
#[derive(Clone, Copy)]
pub(crate) struct Quotient {
    dividend: u128,
    divisor: u128,
}

impl Model for Quotient {
    ghost use Rattle.std.specs.Prelude.{ℕ, ◌≤◌};
    ghost use Rattle.seat_share.specs.Steps.Claims.{most_dividend, most_divisor};

    ghost Value = { ℕ × ℕ };

    ghost view = { λ q. (q.dividend, q.divisor) };

    ghost inverse = { λ value. record {
      dividend = value.0;
      divisor = value.1;
    } };

    ghost invariant = { λ q. (q.dividend ≤ most_dividend) × (q.divisor ≤ most_divisor) };
}

impl Quotient {
    /// A quotient that no claim exceeds.
    pub(crate) fn greatest() -> Quotient
        ensures { result ≡ (most_dividend, 0) }
    {
        let most_votes = u128::from(MOST_VOTES);
        Quotient {
            dividend: most_votes * most_votes,
            divisor: 0,
        }
    }

    pub(crate) fn is_at_least(self, other: Quotient) -> bool
        ensures { result ≡ is_at_least self other }
    {
        if self.divisor == 0 {
            return other.divisor != 0 || other.dividend <= self.dividend;
        }
        other.divisor != 0 && other.dividend * self.divisor <= self.dividend * other.divisor
    }
}

/// A method, the number of all votes, and the number of seats to share out.
#[derive(Clone, Copy)]
pub(crate) struct Contest {
    pub(crate) method: Method,
    pub(crate) votes: u64,
    pub(crate) seats: u16,
    ghost few_votes: { votes ≤ most_votes },
    ghost few_seats: { seats ≤ most_seats },
}

impl Contest {
    /// The claim of a party with these votes and seats to its next seat.
    pub(crate) fn claim(self, votes: u64, seats: u16) -> Quotient
        requires votes { votes ≤ most_votes }
        requires seats { seats ≤ self.seats }
        ensures value { result ≡ claim self.method self.votes self.seats votes seats }
    {
        let all = u128::from(self.votes);
        let left = u128::from(self.seats - seats);
        let most = u128::from(self.seats);
        let votes = u128::from(votes);
        let seats = u128::from(seats);
        let (dividend, divisor) = match self.method {
            Method::Hamilton => (votes * most + left * all, 1),
            Method::Dhondt => (votes, seats + 1),
            Method::SainteLague => (votes, 2 * seats + 1),
            Method::Huntington => (votes * votes, seats * (seats + 1)),
            Method::Adams => (votes, seats),
            Method::Dean => (votes * (2 * seats + 1), 2 * seats * (seats + 1)),
        };
        Quotient { dividend, divisor }
    }
}
