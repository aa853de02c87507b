//! The text of an election's winners.
ghost use Rattle.std.specs.Prelude.{◌≡◌, ◌≤◌, ◌++◌, IfErr, IfOk, is_ok};
ghost use Rattle.ballot_base.specs.Limits.{most_members};
ghost use Rattle.ballot_base.specs.Lists.{later_than};
ghost use Rattle.request_words.specs.Request.{page_of};
ghost use Rattle.text_output.specs.Steps.Printing.{Prints, Sends, SendsAll, calls_of};
ghost use Rattle.text_output.specs.Text.{line};
ghost use Rattle.tie_walk.specs.Sequences.{sequential_winners};
ghost use Rattle.tie_walk.specs.Winners.{IsStart};
ghost use Rattle.vote_cli.specs.Answer.{answered, election_answer, request_refused};
ghost use Rattle.vote_cli.specs.ElectText.{best_text, elect_text, rule_lines, score_text};
ghost use Rattle.vote_cli.specs.Listing.{answers_text, committee_line};
ghost use Rattle.vote_cli.specs.Steps.RequestFaults.{request_fault_word};
ghost use Rattle.vote_cli.specs.Steps.ScoredText.{ranked_text};
ghost use Rattle.vote_cli.specs.Steps.Starts.{IsStart-prop};

use crate::listing::{AnswerPage, Answers};
use crate::refusal::RequestFault;
use crate::starts::committee_start;
use ballot_base::{CandSet, Profile, common_multiple};
use itoa::Buffer;
use request_words::{Electing, Rule, ScoredRule};
use sequential_winners::{Families, FamilyMemory, FamilyWinners};
use std::alloc::Allocator;
use text_output::{Names, Printer, Sink, WriteFailed, write_pieces};
use tie_search::{SearchWinners, Searchable};
use tie_walk::{Tally, Winners};

fn print_score<W: Sink>(
    printer: &mut Printer<'_, W>,
    score: u128,
    denominator: u128,
) -> Result<(), WriteFailed>
    ensures { Prints W.contents (calls_of W.has_failed W.flushes) printer.old printer.new (is_ok result)
        (line (score_text score denominator)) }
{
    let mut score_digits = Buffer::new();
    let mut denominator_digits = Buffer::new();
    let pieces = [
        b"score ".as_slice(),
        score_digits.format(score).as_bytes(),
        b"/",
        denominator_digits.format(denominator).as_bytes(),
        b"\n",
    ];
    printer.print_all(&pieces)
}

/// That the lines of the rule and the size were sent. Only `Listing::write_rule` makes one, and whatever looks for
/// winners takes one by value. So no search begins before these lines are sent.
#[derive(Drop)]
pub(crate) struct RuleSent(());

/// An election, and what is listed of its winners: all later than `after`, or the first `limit` of them.
#[derive(Drop)]
pub(crate) struct Listing<'a, A: Allocator + Copy> {
    pub(crate) profile: &'a Profile<A>,
    pub(crate) size: u8,
    pub(crate) after: Option<CandSet>,
    pub(crate) limit: Option<u32>,
    pub(crate) names: Names<'a, A>,
    ghost least: { 1 ≤ size },
    ghost most: { size ≤ most_members },
    ghost fits: { size ≤ profile.now.m },
    ghost start: { IsStart profile.now.m size after } by { IsStart-prop profile.now.m size after },
}

impl<'a, A: Allocator + Copy + Drop> Listing<'a, A> {
    /// The listing that a request asks for. Refuses a size above the number of candidates, and a start that is not a
    /// committee of this size.
    pub(crate) fn new(
        profile: &'a Profile<A>,
        asked: &Electing,
        with_names: bool,
    ) -> Result<Listing<'a, A>, RequestFault>
        requires least { 1 ≤ asked.now.size }
        requires most { asked.now.size ≤ most_members }
        ensures ok { IfOk result (λ listing.
            election_answer asked.now.rule asked.now.size (page_of asked.now.page) with_names profile.now
            ≡ answered (elect_text asked.now.rule listing.size
            (record { after = listing.after; limit = listing.limit }) listing.names listing.profile.now)) }
        ensures err { IfErr result (λ fault.
            election_answer asked.now.rule asked.now.size (page_of asked.now.page) with_names profile.now
            ≡ request_refused (request_fault_word fault)) }
    {
        if asked.size > profile.m() {
            return Err(RequestFault::SizeTooLarge);
        }
        let after = committee_start(&asked.page, profile.m(), asked.size)?;
        Ok(Listing {
            profile,
            size: asked.size,
            after,
            limit: asked.page.limit,
            names: Names::of(profile, with_names),
        })
    }

    fn print_best<W: Sink>(
        &self,
        printer: &mut Printer<'_, W>,
        rule: ScoredRule,
        best: u128,
    ) -> Result<(), WriteFailed>
        ensures { Prints W.contents (calls_of W.has_failed W.flushes) printer.old printer.new (is_ok result)
            (line (best_text rule self.now.profile.now.m self.now.size best)) }
    {
        let m = self.profile.m();
        match rule {
            ScoredRule::Thiele(thiele) => print_score(printer, best, thiele.denominator(self.size)),
            ScoredRule::Satisfaction => print_score(printer, best, common_multiple(m)),
            ScoredRule::Minimax => {
                let mut digits = Buffer::new();
                let distance = digits.format(u128::from(m).saturating_sub(best));
                printer.print_all(&[b"distance ", distance.as_bytes(), b"\n"])
            }
        }
    }

    /// Writes the lines of the rule and the size. They are sent at once, and the writer is not flushed.
    // Not inlined: its printer takes 8 KB of stack, which would lie beside a search for winners.
    #[inline(never)]
    pub(crate) fn write_rule<W: Sink>(
        &self,
        out: &mut W,
        rule: Rule,
    ) -> Result<RuleSent, WriteFailed>
        ensures { Sends W.contents (calls_of W.has_failed W.flushes) out.old out.new (is_ok result)
            (rule_lines rule self.now.size) }
    {
        let mut size_digits = Buffer::new();
        let pieces = [
            b"rule ".as_slice(),
            rule.name().as_bytes(),
            b"\nsize ",
            size_digits.format(self.size).as_bytes(),
            b"\n",
        ];
        write_pieces(out, &pieces)?;
        Ok(RuleSent(()))
    }

    /// Writes the lines after the rule and the size, under a rule whose values the tally computes, and flushes the
    /// writer. A walk over the tally's bounds finds the winners.
    pub(crate) fn write_ranked<W: Sink, T: Tally>(
        &self,
        out: &mut W,
        tally: &T,
        rule: ScoredRule,
        _sent: RuleSent,
    ) -> Result<(), WriteFailed>
        requires { T.candidates tally.now ≡ self.now.profile.now.m }
        ensures { SendsAll W.contents (calls_of W.has_failed W.flushes) out.old out.new (is_ok result)
            (ranked_text rule (T.value_of tally.now) self.now.size
            (record { after = self.now.after; limit = self.now.limit }) self.now.names self.now.profile.now) }
    {
        let mut winners = Winners::new(tally, self.profile.m(), self.size, self.after);
        self.write_best(out, rule, winners.best(), &mut winners)
    }

    /// Like `write_ranked`, but a search finds the winners.
    pub(crate) fn write_searched<W: Sink, S: Searchable + Drop>(
        &self,
        out: &mut W,
        search: S,
        rule: ScoredRule,
        _sent: RuleSent,
    ) -> Result<(), WriteFailed>
        requires { S.candidates search ≡ self.now.profile.now.m }
        ensures { SendsAll W.contents (calls_of W.has_failed W.flushes) out.old out.new (is_ok result)
            (ranked_text rule (S.value_of search) self.now.size
            (record { after = self.now.after; limit = self.now.limit }) self.now.names self.now.profile.now) }
    {
        let mut winners = SearchWinners::new(search, self.size, self.after);
        self.write_best(out, rule, winners.best(), &mut winners)
    }

    /// Writes the line of the best value and the lines of the winners, and flushes the writer.
    fn write_best<W: Sink, B: Answers>(
        &self,
        out: &mut W,
        rule: ScoredRule,
        best: u128,
        winners: &mut B,
    ) -> Result<(), WriteFailed>
        ensures { SendsAll W.contents (calls_of W.has_failed W.flushes) out.old out.new (is_ok result)
            (line (best_text rule self.now.profile.now.m self.now.size best)
            ++ answers_text (B.Answer.line_of self.now.names) self.now.limit (B.left winners.old)) }
    {
        let mut printer = Printer::new(out);
        self.print_best(&mut printer, rule, best)?;
        self.page().print(&mut printer, winners)
    }

    /// Writes the winners of a sequential rule after the start, and flushes the writer.
    pub(crate) fn write_families<W: Sink>(
        &self,
        out: &mut W,
        memory: FamilyMemory<'_, A>,
        _sent: RuleSent,
    ) -> Result<(), WriteFailed>
        requires { IsStart memory.election.m memory.k self.now.after }
        ensures { SendsAll W.contents (calls_of W.has_failed W.flushes) out.old out.new (is_ok result)
            (answers_text (committee_line self.now.names) self.now.limit (later_than self.now.after
            (sequential_winners memory.entry.rule memory.entry.election memory.entry.k))) }
    {
        let families = Families::new(memory);
        let mut winners = FamilyWinners::new(&families, self.after);
        let mut printer = Printer::new(out);
        self.page().print(&mut printer, &mut winners)
    }

    fn page(&self) -> AnswerPage<'_, A>
        ensures names { result.names.now ≡ self.now.names }
        ensures limit { result.limit ≡ self.now.limit }
    {
        AnswerPage {
            names: &self.names,
            limit: self.limit,
        }
    }
}
