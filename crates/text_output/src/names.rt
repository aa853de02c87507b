//! The names that stand beside the numbers of candidates and parties.
ghost use Rattle.std.specs.Prelude.{◌≡◌, [], is_ok, is_some};
ghost use Rattle.text_output.specs.Names.{beside, called, candidates_text, names_text, naming, seated_parties};
ghost use Rattle.text_output.specs.Steps.Names.{IsName, listed_name, names_in};
ghost use Rattle.text_output.specs.Steps.Printing.{Prints, calls_of};

use crate::device::Sink;
use crate::numbers::{print_members, print_number};
use crate::printing::{Printer, WriteFailed};
use ballot_base::{CandSet, Profile};
use std::alloc::Allocator;
use std::marker::Model;

/// Where names come from.
#[derive(Drop)]
enum NameSource<'a, A: Allocator + Copy> {
    /// Names are not wanted.
    Unwanted,
    /// No candidate has a name, so numbers stand in their place.
    Numbers,
    /// The candidates of a profile.
    Of(&'a Profile<A>),
}

/// The names that stand beside numbers. Contracts see the list of them from candidate 1 on, with `[]` for a candidate
/// without a name. They see `None` if names are not wanted.
#[derive(Drop)]
pub struct Names<'a, A: Allocator + Copy> {
    source: NameSource<'a, A>,
}

impl<'a, A: Allocator + Copy> Model for Names<'a, A> {
    ghost use Rattle.text_output.specs.Names.{Names};
    ghost use Rattle.text_output.specs.Steps.Names.{names_of};

    ghost Value = { Names };

    ghost view = { λ names. names_of names.source };
}

impl<'a, A: Allocator + Copy> Names<'a, A> {
    /// The names of the candidates of this profile, if they are wanted.
    pub fn of(profile: &'a Profile<A>, are_wanted: bool) -> Names<'a, A>
        ensures { result ≡ naming are_wanted profile.now.names }
    {
        let source = if are_wanted {
            NameSource::Of(profile)
        } else {
            NameSource::Unwanted
        };
        Names { source }
    }

    /// Names for candidates who have none: if names are wanted, numbers stand in their place.
    pub fn numbers(are_wanted: bool) -> Names<'a, A>
        ensures { result ≡ naming are_wanted [] }
    {
        let source = if are_wanted {
            NameSource::Numbers
        } else {
            NameSource::Unwanted
        };
        Names { source }
    }

    fn are_wanted(&self) -> bool
        ensures { result ≡ is_some self.now }
    {
        !matches!(self.source, NameSource::Unwanted)
    }

    /// The name of a candidate, if there is such a candidate and it has a name.
    fn name(&self, n: usize) -> Option<&[u8]>
        ensures { IsName (names_in self.now) n result }
    {
        match self.source {
            NameSource::Unwanted | NameSource::Numbers => None,
            // No candidate has the number 0.
            NameSource::Of(profile) => profile.name(u8::try_from(n).unwrap_or(0)),
        }
    }
}

/// Prints the name of a candidate, or the number if the candidate has no name.
fn print_name<W: Sink, A: Allocator + Copy>(
    printer: &mut Printer<'_, W>,
    names: &Names<'_, A>,
    n: usize,
) -> Result<(), WriteFailed>
    ensures { Prints W.contents (calls_of W.has_failed W.flushes) printer.old printer.new (is_ok result)
        (called (names_in names.now) n) }
{
    match names.name(n) {
        Some(name) => printer.print(name),
        None => print_number(printer, n),
    }
}

/// Prints a name in a list of names: all but the first come after `; `.
fn print_listed_name<W: Sink, A: Allocator + Copy>(
    printer: &mut Printer<'_, W>,
    names: &Names<'_, A>,
    n: usize,
    is_first: bool,
) -> Result<(), WriteFailed>
    ensures { Prints W.contents (calls_of W.has_failed W.flushes) printer.old printer.new (is_ok result)
        (listed_name is_first (names_in names.now) n) }
{
    if is_first {
        return print_name(printer, names, n);
    }
    printer.print(b"; ")?;
    print_name(printer, names, n)
}

fn print_member_names<W: Sink, A: Allocator + Copy>(
    printer: &mut Printer<'_, W>,
    names: &Names<'_, A>,
    set: CandSet,
) -> Result<(), WriteFailed>
    ensures { Prints W.contents (calls_of W.has_failed W.flushes) printer.old printer.new (is_ok result)
        (names_text (names_in names.now) set) }
{
    let mut is_first = true;
    for member in set.members() {
        print_listed_name(printer, names, usize::from(member), is_first)?;
        is_first = false;
    }
    Ok(())
}

fn print_seated_names<W: Sink, A: Allocator + Copy>(
    printer: &mut Printer<'_, W>,
    names: &Names<'_, A>,
    seats: &[u16],
) -> Result<(), WriteFailed>
    ensures { Prints W.contents (calls_of W.has_failed W.flushes) printer.old printer.new (is_ok result)
        (names_text (names_in names.now) (seated_parties seats.now)) }
{
    let mut is_first = true;
    for i in 0..seats.len() {
        if seats[i] == 0 {
            continue;
        }
        print_listed_name(printer, names, i + 1, is_first)?;
        is_first = false;
    }
    Ok(())
}

/// Prints a tab and the names of the parties with a seat, if names are wanted. Parties are numbered from 1, and `seats`
/// has the seats of each.
pub fn print_beside_seats<W: Sink, A: Allocator + Copy>(
    printer: &mut Printer<'_, W>,
    names: &Names<'_, A>,
    seats: &[u16],
) -> Result<(), WriteFailed>
    ensures { Prints W.contents (calls_of W.has_failed W.flushes) printer.old printer.new (is_ok result)
        (beside names.now (seated_parties seats.now)) }
{
    if !names.are_wanted() {
        return Ok(());
    }
    printer.print(b"\t")?;
    print_seated_names(printer, names, seats)
}

/// Prints the numbers of the members and, if names are wanted, a tab and their names.
pub fn print_candidates<W: Sink, A: Allocator + Copy>(
    printer: &mut Printer<'_, W>,
    names: &Names<'_, A>,
    members: CandSet,
) -> Result<(), WriteFailed>
    ensures { Prints W.contents (calls_of W.has_failed W.flushes) printer.old printer.new (is_ok result)
        (candidates_text names.now members) }
{
    print_members(printer, members)?;
    if !names.are_wanted() {
        return Ok(());
    }
    printer.print(b"\t")?;
    print_member_names(printer, names, members)
}
