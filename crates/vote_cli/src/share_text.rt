//! The text of allocations of seats.
ghost use Rattle.std.specs.Prelude.{◌≡◌, ◌++◌, is_ok};
ghost use Rattle.text_output.specs.Steps.Printing.{Prints, SendsAll, calls_of};
ghost use Rattle.vote_cli.specs.Listing.{allocation_line, answers_text};
ghost use Rattle.vote_cli.specs.ShareText.{share_header};

use crate::listing::AnswerPage;
use itoa::Buffer;
use request_words::Sharing;
use seat_share::{Method, Shares};
use std::alloc::Allocator;
use text_output::{Names, Printer, Sink, WriteFailed};

fn print_header<W: Sink>(
    printer: &mut Printer<'_, W>,
    method: Method,
    seats: u16,
) -> Result<(), WriteFailed>
    ensures { Prints W.contents (calls_of W.has_failed W.flushes) printer.old printer.new (is_ok result)
        (share_header method seats) }
{
    let mut seat_digits = Buffer::new();
    let pieces = [
        b"method ".as_slice(),
        method.name().as_bytes(),
        b"\nseats ",
        seat_digits.format(seats).as_bytes(),
        b"\n",
    ];
    printer.print_all(&pieces)
}

/// Writes the method, the seats and these allocations up to the limit, and flushes the writer.
pub(crate) fn write_shares<W: Sink, N: Allocator + Copy>(
    out: &mut W,
    mut shares: Shares,
    sharing: &Sharing,
    names: &Names<'_, N>,
) -> Result<(), WriteFailed>
    ensures { SendsAll W.contents (calls_of W.has_failed W.flushes) out.old out.new (is_ok result)
        (share_header sharing.now.method sharing.now.seats
        ++ answers_text (allocation_line names.now) sharing.now.page.limit shares) }
{
    let mut printer = Printer::new(out);
    print_header(&mut printer, sharing.method, sharing.seats)?;
    let page = AnswerPage {
        names,
        limit: sharing.page.limit,
    };
    page.print(&mut printer, &mut shares)
}
