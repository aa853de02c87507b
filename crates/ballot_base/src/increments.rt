//! Thiele's rules and their increments.
ghost use Rattle.std.specs.Prelude.{◌≡◌, ◌≤◌};
ghost use Rattle.ballot_base.specs.Limits.{most_members};
ghost use Rattle.ballot_base.specs.Increments.{increment, denominator, increments};

use crate::limits::MOST_MEMBERS;
use crate::multiples::common_multiple;

/// A Thiele method: each voter adds an increment to a committee's score for each member whom the voter approves
/// (Lackner and Skowron, Multi-Winner Voting with Approval Preferences, Thiele methods). The j-th such member adds:
#[derive(Clone, Copy, Debug, PartialEq, Eq)]
pub enum ThieleRule {
    /// Approval voting: 1.
    Av,
    /// Proportional approval voting: 1/j.
    Pav,
    /// Chamberlin-Courant: 1 for the first member, and nothing for the others.
    Cc,
    /// Geometric: 1/2^(j-1).
    Geom2,
    /// Geometric: 1/3^(j-1).
    Geom3,
    /// Geometric: 1/4^(j-1).
    Geom4,
}

impl ThieleRule {
    /// All rules, each once.
    pub const ALL: [ThieleRule; 6] = [
        ThieleRule::Av,
        ThieleRule::Pav,
        ThieleRule::Cc,
        ThieleRule::Geom2,
        ThieleRule::Geom3,
        ThieleRule::Geom4,
    ];

    /// The common denominator of the increments for committees of size k, 1 to `MOST_MEMBERS`. It is not reduced.
    pub fn denominator(self, k: u8) -> u128
        requires some { 1 ≤ k }
        requires most { k ≤ most_members }
        ensures { result ≡ denominator self k }
    {
        match self {
            ThieleRule::Av | ThieleRule::Cc => 1,
            ThieleRule::Pav => common_multiple(k),
            ThieleRule::Geom2 => 2u128.pow(u32::from(k - 1)),
            ThieleRule::Geom3 => 3u128.pow(u32::from(k - 1)),
            ThieleRule::Geom4 => 4u128.pow(u32::from(k - 1)),
        }
    }
}

/// The increments of a rule as whole numbers over one common denominator, which is not reduced.
#[derive(Clone, Copy, Debug, PartialEq, Eq)]
pub struct Increments {
    /// At place j - 1, what the j-th member adds, times the denominator; 0 for j above the size of the committee.
    pub w: [u128; MOST_MEMBERS as usize],
    /// The common denominator, at least 1.
    pub denom: u128,
}

impl Increments {
    /// The increments for committees of size k, 1 to `MOST_MEMBERS`. Allocates nothing.
    pub fn of(rule: ThieleRule, k: u8) -> Increments
        requires some { 1 ≤ k }
        requires most { k ≤ most_members }
        ensures weights { result.w ≡ increments rule k }
        ensures denominator { result.denom ≡ denominator rule k }
    {
        let denom = rule.denominator(k);
        let mut w = [0; MOST_MEMBERS as usize];
        for j in 0..k {
            w[usize::from(j)] = increment(rule, k, denom, j + 1);
        }
        Increments { w, denom }
    }
}

/// What the j-th member adds, times the denominator.
fn increment(rule: ThieleRule, k: u8, denom: u128, j: u8) -> u128
    requires denominator { denom ≡ denominator rule k }
    requires some { 1 ≤ j }
    requires within { j ≤ k }
    requires most { k ≤ most_members }
    ensures { result ≡ increment rule k j }
{
    match rule {
        ThieleRule::Av => 1,
        ThieleRule::Pav => denom / u128::from(j),
        ThieleRule::Cc => u128::from(j == 1),
        ThieleRule::Geom2 => 2u128.pow(u32::from(k - j)),
        ThieleRule::Geom3 => 3u128.pow(u32::from(k - j)),
        ThieleRule::Geom4 => 4u128.pow(u32::from(k - j)),
    }
}
