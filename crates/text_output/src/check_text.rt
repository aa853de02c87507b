//! The text of a check: that the property holds, or the report of a violation.
ghost use Rattle.std.specs.Prelude.{◌++◌, is_ok};
ghost use Rattle.ballot_base.specs.Ballots.{voter_count};
ghost use Rattle.text_output.specs.Steps.Printing.{Prints, SendsAll, calls_of};
ghost use Rattle.text_output.specs.Names.{candidates_text};
ghost use Rattle.text_output.specs.Text.{line};
ghost use Rattle.text_output.specs.CheckText.{holds_text, within_text, row_text, group_text};
ghost use Rattle.text_output.specs.CheckText.{level_text, claim_text, voters_text, violation_text};

use crate::device::Sink;
use crate::names::{Names, print_candidates};
use crate::printing::{Printer, WriteFailed};
use ballot_base::{CandSet, Profile};
use group_check::{Property, Violation};
use itoa::Buffer;
use std::alloc::Allocator;

/// Writes that the committee has the property, and flushes the writer.
pub fn write_holds<W: Sink>(out: &mut W) -> Result<(), WriteFailed>
    ensures { SendsAll W.contents (calls_of W.has_failed W.flushes) out.old out.new (is_ok result) holds_text }
{
    let mut printer = Printer::new(out);
    printer.print(b"holds\n")?;
    printer.finish()
}

/// What the report of a violation is about: the violation, the ballots, and the names of the candidates.
#[derive(Drop)]
pub struct Report<'a, A: Allocator + Copy> {
    /// What the report shows.
    pub violation: &'a Violation,
    /// The ballots that were checked.
    pub profile: &'a Profile<A>,
    /// The names beside the numbers of candidates.
    pub names: Names<'a, A>,
}

impl<A: Allocator + Copy> Report<'_, A> {
    /// Prints the candidates after these words, on a line, with their names beside them if they are wanted.
    fn print_set<W: Sink>(
        &self,
        printer: &mut Printer<'_, W>,
        words: &[u8],
        candidates: CandSet,
    ) -> Result<(), WriteFailed>
        ensures { Prints W.contents (calls_of W.has_failed W.flushes) printer.old printer.new (is_ok result)
            (line (words.now ++ candidates_text self.now.names candidates)) }
    {
        printer.print(words)?;
        print_candidates(printer, &self.names, candidates)?;
        printer.print(b"\n")
    }

    fn print_level<W: Sink>(&self, printer: &mut Printer<'_, W>) -> Result<(), WriteFailed>
        ensures { Prints W.contents (calls_of W.has_failed W.flushes) printer.old printer.new (is_ok result)
            (level_text self.now.violation.now.property self.now.violation.now.level) }
    {
        let mut digits = Buffer::new();
        let pieces = [
            b"violated ".as_slice(),
            self.violation.property.name().as_bytes(),
            b"\nlevel ",
            digits.format(self.violation.level).as_bytes(),
            b"\n",
        ];
        printer.print_all(&pieces)
    }

    /// Prints the line that only a report of proportional justified representation has.
    fn print_within<W: Sink>(&self, printer: &mut Printer<'_, W>) -> Result<(), WriteFailed>
        ensures { Prints W.contents (calls_of W.has_failed W.flushes) printer.old printer.new (is_ok result)
            (within_text self.now.names self.now.violation.now.property self.now.violation.now.within) }
    {
        let within = self.violation.within;
        match self.violation.property {
            Property::Jr | Property::Ejr | Property::EjrPlus => Ok(()),
            Property::Pjr if within.is_empty() => printer.print(b"within -\n"),
            Property::Pjr => self.print_set(printer, b"within ", within),
        }
    }

    /// Prints the lines before the voters.
    fn print_claim<W: Sink>(&self, printer: &mut Printer<'_, W>) -> Result<(), WriteFailed>
        ensures { Prints W.contents (calls_of W.has_failed W.flushes) printer.old printer.new (is_ok result)
            (claim_text self.now.names self.now.violation.now) }
    {
        self.print_level(printer)?;
        self.print_set(printer, b"candidates ", self.violation.shared)?;
        self.print_within(printer)
    }

    /// Prints the line with the number of voters in the group, and of all voters.
    fn print_voters<W: Sink>(&self, printer: &mut Printer<'_, W>) -> Result<(), WriteFailed>
        ensures { Prints W.contents (calls_of W.has_failed W.flushes) printer.old printer.new (is_ok result)
            (voters_text self.now.violation.now.voters (voter_count self.now.profile.now.rows)) }
    {
        let mut voters_digits = Buffer::new();
        let mut total_digits = Buffer::new();
        let pieces = [
            b"voters ".as_slice(),
            voters_digits.format(self.violation.voters).as_bytes(),
            b" of ",
            total_digits.format(self.profile.voters()).as_bytes(),
            b"\n",
        ];
        printer.print_all(&pieces)
    }

    /// Prints a ballot after the number of its voters, on a line.
    fn print_ballot<W: Sink>(
        &self,
        printer: &mut Printer<'_, W>,
        ballot: CandSet,
        count: u64,
    ) -> Result<(), WriteFailed>
        ensures { Prints W.contents (calls_of W.has_failed W.flushes) printer.old printer.new (is_ok result)
            (row_text self.now.names (ballot, count)) }
    {
        let mut digits = Buffer::new();
        printer.print(digits.format(count).as_bytes())?;
        self.print_set(printer, b": ", ballot)
    }

    fn print_group<W: Sink>(&self, printer: &mut Printer<'_, W>) -> Result<(), WriteFailed>
        ensures { Prints W.contents (calls_of W.has_failed W.flushes) printer.old printer.new (is_ok result)
            (group_text self.now.names self.now.violation.now self.now.profile.now.rows) }
    {
        for (ballot, count) in self.profile.ballots() {
            if !self.violation.contains(ballot) {
                continue;
            }
            self.print_ballot(printer, ballot, count)?;
        }
        Ok(())
    }

    /// Writes the report, and flushes the writer.
    pub fn write<W: Sink>(&self, out: &mut W) -> Result<(), WriteFailed>
        ensures { SendsAll W.contents (calls_of W.has_failed W.flushes) out.old out.new (is_ok result)
            (violation_text self.now.names self.now.violation.now self.now.profile.now) }
    {
        let mut printer = Printer::new(out);
        self.print_claim(&mut printer)?;
        self.print_voters(&mut printer)?;
        self.print_group(&mut printer)?;
        printer.finish()
    }
}
