//! Laws of the properties. Each function does nothing, and its contract is the law.
ghost use Rattle.std.specs.Prelude.{◌≡◌, ℕ, ◌≤◌, List};
ghost use Rattle.ballot_base.specs.Lists.{IsIncreasing};
ghost use Rattle.ballot_base.specs.Ballots.{Election, IsElection, voter_count};
ghost use Rattle.group_check.specs.Groups.{HasProperty};
ghost use Rattle.group_check.specs.Report.{IsReport};

use crate::property::{Property, Violation};

/// If there is a voter, a committee with EJR+ has extended justified representation.
pub fn extended_plus_is_extended()
    ensures { (e : Election) (committee : List ℕ) → IsElection e → 1 ≤ voter_count e.rows → IsIncreasing 1 e.m committee
        → HasProperty Property.EjrPlus e committee → HasProperty Property.Ejr e committee }
{}

/// A committee with extended justified representation has proportional justified representation.
pub fn extended_is_proportional()
    ensures { (e : Election) (committee : List ℕ) → IsElection e → IsIncreasing 1 e.m committee
        → HasProperty Property.Ejr e committee → HasProperty Property.Pjr e committee }
{}

/// A committee with proportional justified representation has justified representation.
pub fn proportional_is_justified()
    ensures { (e : Election) (committee : List ℕ) → HasProperty Property.Pjr e committee
        → HasProperty Property.Jr e committee }
{}

/// There is at most one report.
pub fn one_report()
    ensures { (property : Property) (e : Election) (committee : List ℕ) (a b : Violation)
        → IsReport property e committee a → IsReport property e committee b → a ≡ b }
{}
