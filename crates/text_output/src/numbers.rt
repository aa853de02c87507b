//! Lists of numbers, in digits.
ghost use Rattle.std.specs.Prelude.{◌≡◌, ◌∷◌, is_ok};
ghost use Rattle.text_output.specs.Steps.Printing.{Prints, calls_of};
ghost use Rattle.text_output.specs.Steps.Numbers.{following_text};
ghost use Rattle.text_output.specs.Text.{numbers_text};

use crate::device::Sink;
use crate::printing::{Printer, WriteFailed};
use ballot_base::CandSet;
use itoa::{Buffer, Integer};

pub(crate) fn print_number<W: Sink, N: Integer>(
    printer: &mut Printer<'_, W>,
    n: N,
) -> Result<(), WriteFailed>
    ensures { Prints W.contents (calls_of W.has_failed W.flushes) printer.old printer.new (is_ok result) (N.text n) }
{
    let mut digits = Buffer::new();
    printer.print(digits.format(n).as_bytes())
}

/// Prints a comma and a number.
fn print_next<W: Sink, N: Integer>(printer: &mut Printer<'_, W>, n: N) -> Result<(), WriteFailed>
    ensures { Prints W.contents (calls_of W.has_failed W.flushes) printer.old printer.new (is_ok result)
        (44 ∷ N.text n) }
{
    let mut digits = Buffer::new();
    printer.print_all(&[b",", digits.format(n).as_bytes()])
}

/// Prints the members, with a comma before each.
fn print_other_members<W: Sink>(
    printer: &mut Printer<'_, W>,
    set: CandSet,
) -> Result<(), WriteFailed>
    ensures { Prints W.contents (calls_of W.has_failed W.flushes) printer.old printer.new (is_ok result)
        (following_text set) }
{
    for member in set.members() {
        print_next(printer, member)?;
    }
    Ok(())
}

/// Prints the members, with commas between them.
pub(crate) fn print_members<W: Sink>(
    printer: &mut Printer<'_, W>,
    set: CandSet,
) -> Result<(), WriteFailed>
    ensures { Prints W.contents (calls_of W.has_failed W.flushes) printer.old printer.new (is_ok result)
        (numbers_text set) }
{
    let Some(parts) = set.split_first() else {
        return Ok(());
    };
    print_number(printer, parts.0)?;
    print_other_members(printer, parts.1)
}

/// Prints the seats, with a comma before each.
fn print_other_seats<W: Sink>(
    printer: &mut Printer<'_, W>,
    seats: &[u16],
) -> Result<(), WriteFailed>
    ensures { Prints W.contents (calls_of W.has_failed W.flushes) printer.old printer.new (is_ok result)
        (following_text seats.now) }
{
    for n in seats {
        print_next(printer, *n)?;
    }
    Ok(())
}

/// Prints the seats of the parties, in their order, with commas between them.
pub fn print_seats<W: Sink>(printer: &mut Printer<'_, W>, seats: &[u16]) -> Result<(), WriteFailed>
    ensures { Prints W.contents (calls_of W.has_failed W.flushes) printer.old printer.new (is_ok result)
        (numbers_text seats.now) }
{
    let [first, others @ ..] = seats else {
        return Ok(());
    };
    print_number(printer, *first)?;
    print_other_seats(printer, others)
}
