//! The list of the answers to a request. One loop prints the answers of `Winners`, `SearchWinners`, `FamilyWinners` and
//! `Shares`, which hand them out through one trait.
ghost use Rattle.std.specs.Prelude.{◌≡◌, ◌≢◌, ◌-◌, ℕ, List, Some, [], is_ok, option_map, false, true};
ghost use Rattle.std.specs.Iterator.{YieldsFirstBy};
ghost use Rattle.text_output.specs.Names.{Names};
ghost use Rattle.text_output.specs.Steps.Printing.{Prints, PrintsAll, calls_of};
ghost use Rattle.vote_cli.specs.Listing.{allocation_line, answers_text, committee_line, has_more, last_line};

use ballot_base::CandSet;
use seat_share::{Allocation, Shares};
use sequential_winners::FamilyWinners;
use std::alloc::Allocator;
use text_output::{
    Names, Printer, Sink, WriteFailed, print_beside_seats, print_candidates, print_seats,
};
use tie_search::{SearchWinners, Searchable};
use tie_walk::{Tally, Winners};

/// An answer to a request: a list of numbers, the members of a committee or the seats of the parties.
pub(crate) trait Answer: Drop {
    // its numbers
    ghost numbers: { Self → List ℕ };

    // the line of the answer with these numbers
    ghost line_of: { Names → List ℕ → List ℕ };

    fn print_line<W: Sink, N: Allocator + Copy>(
        &self,
        printer: &mut Printer<'_, W>,
        names: &Names<'_, N>,
    ) -> Result<(), WriteFailed>
        ensures { Prints W.contents (calls_of W.has_failed W.flushes) printer.old printer.new (is_ok result)
            (Self.line_of names.now (Self.numbers self.now)) };
}

impl Answer for CandSet {
    ghost numbers = { λ committee. committee };

    ghost line_of = { committee_line };

    fn print_line<W: Sink, N: Allocator + Copy>(
        &self,
        printer: &mut Printer<'_, W>,
        names: &Names<'_, N>,
    ) -> Result<(), WriteFailed> {
        print_candidates(printer, names, *self)?;
        printer.print(b"\n")
    }
}

impl Answer for Allocation {
    ghost numbers = { λ allocation. allocation };

    ghost line_of = { allocation_line };

    fn print_line<W: Sink, N: Allocator + Copy>(
        &self,
        printer: &mut Printer<'_, W>,
        names: &Names<'_, N>,
    ) -> Result<(), WriteFailed> {
        let seats = self.seats();
        print_seats(printer, seats)?;
        print_beside_seats(printer, names, seats)?;
        printer.print(b"\n")
    }
}

/// The number of first answers that are sent one by one, each before the next one is looked for.
const SENT_ALONE: u64 = 100;

/// The number of later answers that are sent together, if they do not fill the printer before.
const SENT_TOGETHER: u64 = 256;

/// Whether what waits is sent after the answer of this number, counted from 1.
fn is_sent_after(number: u64) -> bool {
    number <= SENT_ALONE || number % SENT_TOGETHER == 0
}

/// Hands out the answers to a request one by one.
pub(crate) trait Answers {
    type Answer: Answer;

    // the answers still to come
    ghost left: { Self → List (List ℕ) };

    /// The first of the answers still to come.
    fn next_answer(&mut self) -> Option<Self::Answer>
        ensures { YieldsFirstBy Self.Answer.numbers Self.left self.old result self.new };
}

impl<'a, T: Tally> Answers for Winners<'a, T> {
    type Answer = CandSet;

    ghost left = { λ winners. winners.left };

    fn next_answer(&mut self) -> Option<CandSet> {
        self.next()
    }
}

impl<S: Searchable + Drop> Answers for SearchWinners<S> {
    type Answer = CandSet;

    ghost left = { λ winners. winners.left };

    fn next_answer(&mut self) -> Option<CandSet> {
        self.next()
    }
}

impl<'a, A: Allocator + Copy> Answers for FamilyWinners<'a, A> {
    type Answer = CandSet;

    ghost left = { λ winners. winners };

    fn next_answer(&mut self) -> Option<CandSet> {
        self.next()
    }
}

impl Answers for Shares {
    type Answer = Allocation;

    ghost left = { λ shares. shares };

    fn next_answer(&mut self) -> Option<Allocation> {
        self.next()
    }
}

/// Prints the last line once the limit is reached. It looks for one more answer to decide which line that is.
fn print_last<W: Sink, A: Answers>(
    printer: &mut Printer<'_, W>,
    answers: &mut A,
) -> Result<(), WriteFailed>
    ensures { Prints W.contents (calls_of W.has_failed W.flushes) printer.old printer.new (is_ok result)
        (last_line (has_more (Some 0) (A.left answers.old))) }
{
    match answers.next_answer() {
        Some(_) => printer.print(b"more\n"),
        None => printer.print(b"end\n"),
    }
}

fn has_room(room: Option<u32>) -> bool
    ensures some { result ≡ true → room ≢ Some 0 }
    ensures none { result ≡ false → room ≡ Some 0 }
{
    room.is_none_or(|n| n > 0)
}

fn one_less(room: Option<u32>) -> Option<u32>
    ensures { result ≡ option_map (λ n. n - 1) room }
{
    room.map(|n| n.saturating_sub(1))
}

/// The names that are printed beside answers, and the maximum number of answers.
#[derive(Drop)]
pub(crate) struct AnswerPage<'a, N: Allocator + Copy> {
    pub(crate) names: &'a Names<'a, N>,
    pub(crate) limit: Option<u32>,
}

impl<N: Allocator + Copy> AnswerPage<'_, N> {
    /// Prints the answers up to the limit and the last line, and flushes the writer.
    ///
    /// What was printed before is sent before the first answer is looked for, and the first answer before the second
    /// one is. Later answers may wait for each other (`is_sent_after`).
    pub(crate) fn print<W: Sink, A: Answers>(
        &self,
        printer: &mut Printer<'_, W>,
        answers: &mut A,
    ) -> Result<(), WriteFailed>
        ensures printed { PrintsAll W.contents (calls_of W.has_failed W.flushes) printer.old printer.new (is_ok result)
            (answers_text (A.Answer.line_of self.now.names.now) self.now.limit (A.left answers.old)) }
        ensures nothing { is_ok result ≡ true → printer.new.pending.items ≡ [] }
    {
        printer.send()?;
        self.print_all(printer, answers)?;
        printer.finish()
    }

    fn print_all<W: Sink, A: Answers>(
        &self,
        printer: &mut Printer<'_, W>,
        answers: &mut A,
    ) -> Result<(), WriteFailed>
        ensures { Prints W.contents (calls_of W.has_failed W.flushes) printer.old printer.new (is_ok result)
            (answers_text (A.Answer.line_of self.now.names.now) self.now.limit (A.left answers.old)) }
    {
        let mut room = self.limit;
        let mut number: u64 = 0;
        while has_room(room) {
            let Some(answer) = answers.next_answer() else {
                return printer.print(b"end\n");
            };
            number = number.saturating_add(1);
            self.print_one::<W, A>(printer, &answer, number)?;
            room = one_less(room);
        }
        print_last(printer, answers)
    }

    /// Prints the line of the answer with this number, counted from 1. It is sent at once, or waits for later answers.
    fn print_one<W: Sink, A: Answers>(
        &self,
        printer: &mut Printer<'_, W>,
        answer: &A::Answer,
        number: u64,
    ) -> Result<(), WriteFailed>
        ensures { Prints W.contents (calls_of W.has_failed W.flushes) printer.old printer.new (is_ok result)
            (A.Answer.line_of self.now.names.now (A.Answer.numbers answer.now)) }
    {
        answer.print_line(printer, self.names)?;
        if is_sent_after(number) {
            return printer.send();
        }
        Ok(())
    }
}
