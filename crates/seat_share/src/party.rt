//! The parties while seats are shared out, and the choices among the tied ones.
ghost use Rattle.std.specs.Prelude.{◌≡◌, ◌+◌, ◌-◌, ◌≤◌, ◌∷◌, [], Some, cond, false, length, true};
ghost use Rattle.seat_share.specs.Allocations.{later_than};
ghost use Rattle.seat_share.specs.Limits.{most_seats};
ghost use Rattle.seat_share.specs.Steps.Choices.{choices};
ghost use Rattle.seat_share.specs.Steps.Standings.{standings, tied_count, more_count, allocation, choices_from};
ghost use Rattle.seat_share.specs.Steps.Standings.{MoreAreTied, allocations_left};

/// A party: its votes and its certain seats, whether it is tied for one more, and whether it has that seat in the
/// allocation that comes next.
#[derive(Clone, Copy, Default)]
pub(crate) struct Party {
    pub(crate) votes: u64,
    pub(crate) seats: u16,
    pub(crate) is_tied: bool,
    pub(crate) has_more: bool,
}

impl Party {
    pub(crate) fn new(votes: u64) -> Party
        ensures votes { result.votes ≡ votes }
        ensures seats { result.seats ≡ 0 }
    {
        Party {
            votes,
            seats: 0,
            is_tied: false,
            has_more: false,
        }
    }

    pub(crate) fn next_seats(self) -> u16
        requires { self.seats ≤ most_seats }
        ensures { result ≡ self.seats + cond self.has_more 1 0 }
    {
        if self.has_more {
            self.seats + 1
        } else {
            self.seats
        }
    }
}

/// Gives one more seat to the last `more` tied parties, and to no others. Returns the number of seats that find no
/// party.
pub(crate) fn place_last(parties: &mut [Party], more: usize) -> usize
    ensures left { result ≡ more - tied_count parties.old }
    ensures same { standings parties.new ≡ standings parties.old }
    ensures placed { more_count parties.new + result ≡ more }
    ensures tied { MoreAreTied parties.new }
    ensures first { choices_from parties.new ≡ choices (standings parties.old) (more - result) }
{
    let Some((first, rest)) = parties.split_first_mut() else {
        return more;
    };
    let left = place_last(rest, more);
    if first.is_tied && left > 0 {
        first.has_more = true;
        left - 1
    } else {
        first.has_more = false;
        left
    }
}

pub(crate) fn count_tied(parties: &[Party]) -> usize
    ensures { result ≡ tied_count parties.now }
{
    parties.iter().filter(|party| party.is_tied).count()
}

/// Gives one more seat to `more` of the `tied` tied parties, for the first choice that is later than the start. The
/// start has a number for each party. Returns whether there is such a choice.
pub(crate) fn place_after(parties: &mut [Party], tied: usize, more: usize, start: &[u16]) -> bool
    requires long { length start.now ≡ length parties.old }
    requires count { tied ≡ tied_count parties.old }
    requires tied { MoreAreTied parties.old }
    ensures same { standings parties.new ≡ standings parties.old }
    ensures tied { MoreAreTied parties.new }
    ensures count { result ≡ true → more_count parties.new ≡ more }
    ensures later { let all = choices (standings parties.old) more in
        allocations_left result parties.new ≡ later_than (Some start.now) all }
{
    if more > tied {
        return false;
    }
    let Some((seats, others)) = start.split_first() else {
        return false;
    };
    let Some((first, rest)) = parties.split_first_mut() else {
        return false;
    };
    if first.seats > *seats {
        place_last(parties, more);
        return true;
    }
    let others_tied = tied - usize::from(first.is_tied);
    if first.seats < *seats {
        if !first.is_tied || more == 0 || *seats - first.seats > 1 {
            return false;
        }
        first.has_more = true;
        return place_after(rest, others_tied, more - 1, others);
    }
    first.has_more = false;
    if place_after(rest, others_tied, more, others) {
        return true;
    }
    if !first.is_tied || more == 0 {
        return false;
    }
    first.has_more = true;
    place_last(rest, more - 1);
    true
}

fn count_more(parties: &[Party]) -> usize
    ensures { result ≡ more_count parties.now }
{
    parties.iter().filter(|party| party.has_more).count()
}

/// Goes on to the next allocation. Returns whether there is one.
pub(crate) fn advance(parties: &mut [Party]) -> bool
    requires tied { MoreAreTied parties.old }
    ensures same { standings parties.new ≡ standings parties.old }
    ensures count { more_count parties.new ≡ more_count parties.old }
    ensures tied { MoreAreTied parties.new }
    ensures next { result ≡ true → choices_from parties.old ≡ allocation parties.old ∷ choices_from parties.new }
    ensures last { result ≡ false → choices_from parties.old ≡ allocation parties.old ∷ [] }
{
    let Some((first, rest)) = parties.split_first_mut() else {
        return false;
    };
    if advance(rest) {
        return true;
    }
    let more = count_more(rest);
    if first.has_more || !first.is_tied || more == 0 {
        return false;
    }
    first.has_more = true;
    place_last(rest, more - 1);
    true
}
