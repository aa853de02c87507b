//! Clones: candidates approved by the same voters. `Clones::of` finds the class of each candidate of a profile.
//!
//! Clones are interchangeable: with one in the place of another, each voter has as many approved members as before. So
//! searches and checks try one candidate of a class and then leave out the others.
ghost use Rattle.std.specs.Prelude.{◌≡◌, ◌≤◌, [], slice_index_or, ℕ, List};
ghost use Rattle.ballot_base.specs.Clones.{AreClones, clones_among};
ghost use Rattle.ballot_base.specs.Limits.{most_candidates};

use crate::cand_set::CandSet;
use crate::limits::PLACES;
use crate::profile::Profile;
use std::alloc::Allocator;
use std::marker::Model;

/// The classes of clones of a profile. Contracts see a list that holds the class of each candidate at its number.
#[derive(Drop)]
pub struct Clones {
    classes: [CandSet; PLACES],
}

impl Model for Clones {
    ghost Value = { List (List ℕ) };

    ghost view = { λ c. c.classes };
}

impl Clones {
    /// Finds the class of each candidate of a profile. Allocates nothing.
    pub fn of<A: Allocator + Copy>(profile: &Profile<A>) -> Clones
        ensures { AreClones profile.now.m profile.now.rows result }
    {
        let mut classes = [CandSet::empty(); PLACES];
        for c in 1..profile.m() + 1 {
            classes[usize::from(c)] = class_of(profile, c);
        }
        Clones { classes }
    }

    /// The clones of a candidate from 1 to m, including the candidate itself.
    pub fn class(&self, candidate: u8) -> CandSet
        requires { candidate ≤ most_candidates }
        ensures { result ≡ slice_index_or self.now candidate [] }
    {
        self.classes[usize::from(candidate)]
    }
}

/// The candidates that have exactly the same supporters as `c`.
fn class_of<A: Allocator + Copy>(profile: &Profile<A>, c: u8) -> CandSet
    ensures { result ≡ clones_among profile.now.m profile.now.rows c }
{
    let mut clones = CandSet::all(profile.m());
    for (ballot, _voters) in profile.ballots() {
        clones = if ballot.has(c) {
            clones.common(ballot)
        } else {
            clones.minus(ballot)
        };
    }
    clones
}
