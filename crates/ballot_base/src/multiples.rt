//! The least common multiple of 1 to n.
ghost use Rattle.std.specs.Prelude.{◌≡◌, ◌≤◌};
ghost use Rattle.std.specs.Int.{IsGcd};
ghost use Rattle.ballot_base.specs.Limits.{most_candidates};
ghost use Rattle.ballot_base.specs.CommonMultiple.{common_multiple};

/// The least common multiple of the numbers 1 to n, for n up to `MOST_CANDIDATES`; 1 for n = 0.
pub fn common_multiple(n: u8) -> u128
    requires { n ≤ most_candidates }
    ensures { result ≡ common_multiple n }
{
    let mut multiple: u128 = 1;
    for i in 1..=n {
        // The divisors that i shares with the multiple are those that it shares with this remainder, which fits a byte.
        let rest = (multiple % u128::from(i)) as u8;
        multiple *= u128::from(i / greatest_divisor(i, rest));
    }
    multiple
}

/// The greatest common divisor, by Euclid's algorithm.
fn greatest_divisor(mut a: u8, mut b: u8) -> u8
    ensures { IsGcd a b result }
{
    while b != 0 {
        let rest = a % b;
        a = b;
        b = rest;
    }
    a
}
