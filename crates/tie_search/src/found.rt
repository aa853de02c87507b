//! What a search has found, and which value it still looks for.
//!
//! A search for all tied committees begins with the value of a good one. A committee with a higher value replaces all
//! that were listed, and from then on its value is looked for. If more tie than can be listed, the list stays full, and
//! only higher values still count. A candidate that was tried with a set is no longer free to join it, so no committee
//! is met twice.
ghost use Rattle.std.specs.Prelude.{◌≡◌, ℕ, ◌^◌, ◌<◌, ◌≤◌, List, MatchOption, length};
ghost use Rattle.ballot_base.specs.Limits.{most_thiele_value};
ghost use Rattle.tie_search.specs.Steps.Found.{Advances, AreListed, HasSome, IsKnown, IsListed, IsSettled};

use arrayvec::ArrayVec;
use ballot_base::CandSet;

/// The maximum number of tied committees that are listed.
pub const MOST_TIED: usize = 256;

/// A list of committees.
pub type Committees = ArrayVec<CandSet, MOST_TIED>;

/// What is known of the committees with the highest value.
#[derive(Drop)]
pub enum Tied {
    /// A list of at least one. Every other one becomes a listed one if clones take the place of members.
    Listed(Committees),
    /// One of them.
    Known(CandSet),
}

impl Tied {
    /// The first committee that is known.
    pub(crate) fn first(&self) -> CandSet
        requires { HasSome self.now }
        ensures { IsKnown self.now result }
    {
        match self {
            Tied::Listed(committees) => committees[0],
            Tied::Known(committee) => *committee,
        }
    }
}

/// Which committees a search looks for.
#[derive(Clone, Copy, PartialEq, Eq)]
pub enum Wanted {
    /// One committee with at least the value that the search begins with.
    One,
    /// All committees with the highest value.
    All,
}

/// What a search has found.
#[derive(Drop)]
pub struct Found {
    pub wanted: Wanted,
    // Committees of at least this value are looked for.
    pub least: u128,
    // The value of the listed committees.
    pub value: u128,
    pub committees: Committees,
}

impl Found {
    /// An empty result of a search for committees worth at least `least`.
    pub fn nothing(wanted: Wanted, least: u128) -> Found
        ensures wanted { result.wanted ≡ wanted }
        ensures least { result.least ≡ least }
        ensures none { length result.committees.items ≡ 0 }
    {
        Found {
            wanted,
            least,
            value: 0,
            committees: ArrayVec::new(),
        }
    }

    /// The committee that is listed first.
    pub fn first(&self) -> Option<CandSet>
        ensures { MatchOption result (length self.now.committees.items ≡ 0) (λ committee. IsListed self.now committee) }
    {
        self.committees.first().copied()
    }

    /// Takes a committee that is not listed yet, if its value is looked for. The value is at most 2^116.
    pub fn offer(&mut self, committee: CandSet, value: u128)
        requires small { value ≤ most_thiele_value }
        requires new { IsListed self.old committee → ⊥ }
        ensures advances { (value_of : List ℕ → ℕ) → value_of committee ≡ value → AreListed value_of self.old
            → Advances value_of (λ other. other ≡ committee) self.old self.new }
        ensures settled { (value_of : List ℕ → ℕ) → value_of committee ≡ value → AreListed value_of self.old
            → IsSettled value_of self.new committee }
    {
        if value < self.least {
            return;
        }
        if self.committees.is_empty() || value > self.value {
            self.value = value;
            self.least = match self.wanted {
                Wanted::One => u128::MAX,
                Wanted::All => value,
            };
            self.committees.clear();
            self.committees.push(committee);
        } else if self.committees.is_full() {
            self.least = value + 1;
        } else {
            self.committees.push(committee);
        }
    }
}
