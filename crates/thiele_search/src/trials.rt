//! Which tests of a set are worth making.
//!
//! Two quick tests may give up a set: how many voters its free candidates cover, and prices of the whole election. A
//! third may give up the root of a search. Which of them help depends on the ballots: prices shorten an election among
//! neighbours, and seldom a random one. So a search counts how often each test gave up a set. Any test may be left out,
//! so nothing is proved of these counts.
ghost use Rattle.std.specs.Prelude.{◌≡◌};

use ballot_base::CandSet;
use std::cell::Cell;

/// With more seats left than this, the quick tests are always made: whole branches depend on them. Without prices,
/// elections among neighbours took up to 180 times as long.
pub(crate) const FEW_SEATS: u8 = 5;

/// How many more times a test is made for each set that it gave up.
const TRIALS_FOR_HELP: u32 = 4;

/// The maximum number of times that a test is made without help.
const MOST_TRIALS: u32 = 256;

/// How often a test is made.
#[derive(Clone, Copy)]
struct Limits {
    /// The number of times that the test is made before it has to help.
    trials: u32,
    /// If the test does not help, it is made for one set in this number, so that its use is judged anew.
    sample: u32,
}

/// If prices were always asked, random elections took up to a fifth more instructions under `cc`, and if cover was,
/// those of few different ballots a third more.
const QUICK: Limits = Limits {
    trials: 256,
    sample: 16,
};

/// Flat prices and pairs take as long as a hundred sets, so they have to help first at the root of the whole election,
/// where they are always asked for. Asked for at the root of each question that is not answered after 64 sets, noise
/// round one ballot took twice the instructions.
const ROOTS: Limits = Limits {
    trials: 0,
    sample: u32::MAX,
};

/// What is known of the use of each test.
#[derive(Drop)]
pub(crate) struct Uses {
    pub(crate) cover: Trials,
    pub(crate) prices: Trials,
    pub(crate) roots: Trials,
}

impl Uses {
    pub(crate) fn none() -> Uses {
        Uses {
            cover: Trials::none(QUICK),
            prices: Trials::none(QUICK),
            roots: Trials::none(ROOTS),
        }
    }
}

/// How often a test is made before it has to help again.
#[derive(Drop)]
pub(crate) struct Trials {
    limits: Limits,
    // The number of the next set, from 1.
    sets: Cell<u32>,
    trials: Cell<u32>,
}

impl Trials {
    fn none(limits: Limits) -> Trials {
        Trials {
            limits,
            sets: Cell::new(1),
            trials: Cell::new(limits.trials),
        }
    }

    /// Counts a set. Returns whether to make the test there: if it helps often enough.
    pub(crate) fn are_due(&self) -> bool {
        let sets = self.sets.get();
        self.sets.set(sets.saturating_add(1));
        self.trials.get() > 0 || sets % self.limits.sample.max(1) == 0
    }

    /// Notes the answer of the test, and returns it.
    pub(crate) fn note(&self, answer: Option<CandSet>) -> Option<CandSet>
        ensures { result ≡ answer }
    {
        let trials = self.trials.get();
        self.trials.set(match answer {
            Some(_) => trials.saturating_sub(1),
            None => MOST_TRIALS.min(trials.saturating_add(TRIALS_FOR_HELP)),
        });
        answer
    }
}
