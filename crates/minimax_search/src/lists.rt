//! How long lists of committees are searched for.
//!
//! A list takes more work than a question, and pays if many questions follow. If it is given up, its work was in vain.
//! So only a share of all work may be in vain. Any list may be given up, so nothing is proved of these counts.

use std::cell::Cell;

/// The number of sets that may be entered in vain, however short the search was so far. Any number works.
const SHORT_LIST: u64 = 200;

/// Of all sets that were entered so far, one in this number may be entered in vain. With 3, 44 voters with 34 seats
/// took a tenth longer, and with 8, 4,000 voters took 1.3 times as long. Any number works.
const SHARE_OF_ALL: u64 = 6;

/// The sets that were entered for lists and for questions about one value.
#[derive(Drop)]
pub(crate) struct Lists {
    // The value that is asked about.
    least: Cell<u128>,
    entered: Cell<u64>,
    // The sets that were entered for lists that were given up.
    in_vain: Cell<u64>,
    // The value of the committees that are being listed, or the maximum if none are.
    value: Cell<u128>,
    // How many sets were entered before this list.
    before: Cell<u64>,
    is_over: Cell<bool>,
}

impl Lists {
    pub(crate) fn new() -> Lists {
        Lists {
            least: Cell::new(0),
            entered: Cell::new(0),
            in_vain: Cell::new(0),
            value: Cell::new(u128::MAX),
            before: Cell::new(0),
            is_over: Cell::new(false),
        }
    }

    /// Begins a list of committees with a value. Returns the number of sets that may be entered for it.
    pub(crate) fn begin(&self, value: u128) -> u64 {
        self.value.set(value);
        self.before.set(self.entered.get());
        let share = self.entered.get() / SHARE_OF_ALL;
        SHORT_LIST
            .saturating_add(share)
            .saturating_sub(self.in_vain.get())
    }

    /// Ends the list.
    pub(crate) fn end(&self, is_given_up: bool) {
        self.value.set(u128::MAX);
        self.is_over.set(false);
        if is_given_up {
            let sets = self.entered.get().saturating_sub(self.before.get());
            self.in_vain.update(|in_vain| in_vain.saturating_add(sets));
        }
    }

    /// Enters a set, below which committees of at least this value are looked for. If it is above the value of a list,
    /// there are more committees than fit. If another value is asked about, the counts begin anew.
    pub(crate) fn enter(&self, least: u128) {
        self.is_over.set(least > self.value.get());
        if least != self.least.get() && !self.is_over() {
            self.least.set(least);
            self.entered.set(0);
            self.in_vain.set(0);
        }
        self.entered.update(|entered| entered.saturating_add(1));
    }

    /// Whether there are more committees than fit into the list.
    pub(crate) fn is_over(&self) -> bool {
        self.is_over.get()
    }
}
