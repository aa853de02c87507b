//! The answers to the questions of a request.
ghost use Rattle.std.specs.Prelude.{◌≡◌, ◌≢◌, [], Err, IfErr, IfOk, false, length, not, true};
ghost use Rattle.std.specs.Option.{option_copied};
ghost use Rattle.request_words.specs.Request.{IsInRange, page_of, question_of};
ghost use Rattle.seat_share.specs.Faults.{has_other_length};
ghost use Rattle.text_output.specs.Steps.Printing.{calls_of};
ghost use Rattle.vote_cli.specs.Answer.{IsAnswerAbout, IsCheckAnswer, ballots_answer, share_answer};
ghost use Rattle.vote_cli.specs.Starts.{has_seats_for, may_start};
ghost use Rattle.vote_cli.specs.Steps.Refusals.{Writes};
ghost use Rattle.vote_cli.specs.Steps.RequestFaults.{request_fault_word};
ghost use Rattle.vote_cli.specs.Steps.Sharing.{IsShareRefusal, IsSharedOut};

use crate::elect_text::Listing;
use crate::election::answer_election;
use crate::parties::votes_of;
use crate::refusal::{Refusal, RequestFault};
use crate::share_text::write_shares;
use crate::starts::{committee_of, seats_start};
use ballot_base::Profile;
use group_check::{Property, find_violation};
use request_words::{Question, Sharing};
use seat_share::{Shares, share_fault};
use std::alloc::Allocator;
use text_output::{Names, Report, Sink, write_holds};

/// What was written.
#[derive(Clone, Copy, Debug, PartialEq, Eq)]
pub(crate) enum Outcome {
    /// The answer.
    Answered,
    /// The report of a property that does not hold.
    Violated,
}

/// The fair allocations later than a start, which must have one number of seats for each party.
fn shares_from(
    votes: &[u64],
    sharing: &Sharing,
    start: Option<&[u16]>,
) -> Result<Shares, RequestFault>
    ensures ok { let after = option_copied start.entry in IfOk result (λ shares.
        IsSharedOut sharing.now.method sharing.now.seats after votes.now shares
        × (has_other_length (length votes.now) after ≡ false)) }
    ensures err { IfErr result (λ fault. IsShareRefusal sharing.now.seats
        (not (has_other_length (length votes.now) (option_copied start.entry))) votes.now (request_fault_word fault)) }
{
    Ok(Shares::new(votes, sharing.method, sharing.seats, start)?)
}

/// The fair allocations that are asked for. A fault of the votes takes precedence over a start that does not fit.
fn shares_of(votes: &[u64], sharing: &Sharing) -> Result<Shares, RequestFault>
    ensures ok { let after = (page_of sharing.now.page).after in IfOk result (λ shares.
        IsSharedOut sharing.now.method sharing.now.seats after votes.now shares
        × (may_start (has_seats_for (length votes.now)) after ≡ true)) }
    ensures err { let starts = may_start (has_seats_for (length votes.now)) (page_of sharing.now.page).after in
        IfErr result (λ fault. IsShareRefusal sharing.now.seats starts votes.now (request_fault_word fault)) }
{
    let Some(list) = &sharing.page.after else {
        return shares_from(votes, sharing, None);
    };
    match seats_start(list) {
        Some(start) => shares_from(votes, sharing, Some(start.as_slice())),
        None => Err(match share_fault(votes, sharing.seats, None) {
            Some(fault) => RequestFault::Share(fault),
            None => RequestFault::AfterMisfit,
        }),
    }
}

/// Writes the fair allocations that are asked for, of seats to parties with these votes.
pub(crate) fn answer_share<A: Allocator + Copy, W: Sink>(
    out: &mut W,
    votes: &[u64],
    sharing: &Sharing,
    names: &Names<'_, A>,
) -> Result<Outcome, Refusal>
    ensures wrote { Writes W.contents (calls_of W.has_failed W.flushes) out.old out.new result (λ answer. answer
        ≡ share_answer sharing.now.method sharing.now.seats (page_of sharing.now.page) names.now votes.now) }
    ensures memory { result ≢ Err Refusal.Memory }
{
    let shares = shares_of(votes, sharing)?;
    write_shares(out, shares, sharing, names)?;
    Ok(Outcome::Answered)
}

/// Ballots that were read, and whether the names of their candidates are printed.
#[derive(Drop)]
pub(crate) struct Ballots<'a, A: Allocator + Copy> {
    pub(crate) profile: &'a Profile<A>,
    pub(crate) with_names: bool,
}

impl<A: Allocator + Copy + Drop> Ballots<'_, A> {
    /// Writes that the committee of a list has a property, or the report that shows that it does not.
    // Not inlined: its printer takes 8 KB of stack, which would lie beside a search for winners.
    #[inline(never)]
    fn answer_check<W: Sink>(
        &self,
        out: &mut W,
        property: Property,
        list: &[u64],
    ) -> Result<Outcome, Refusal>
        requires some { list.now ≢ [] }
        ensures wrote { Writes W.contents (calls_of W.has_failed W.flushes) out.old out.new result
            (IsCheckAnswer property list.now self.now.with_names self.now.profile.now) }
        ensures memory { result ≢ Err Refusal.Memory }
    {
        let Some(committee) = committee_of(list, self.profile.m()) else {
            return Err(Refusal::Request(RequestFault::CommitteeMisfit));
        };
        let Some(violation) = find_violation(self.profile, committee, property) else {
            write_holds(out)?;
            return Ok(Outcome::Answered);
        };
        let report = Report {
            violation: &violation,
            profile: self.profile,
            names: Names::of(self.profile, self.with_names),
        };
        report.write(out)?;
        Ok(Outcome::Violated)
    }

    /// Writes the fair allocations that are asked for. Each voter counts for the one party that the ballot approves.
    fn answer_share<W: Sink>(&self, out: &mut W, sharing: &Sharing) -> Result<Outcome, Refusal>
        ensures wrote { let asked = sharing.now in
            Writes W.contents (calls_of W.has_failed W.flushes) out.old out.new result
            (λ answer. answer ≡ ballots_answer asked.method asked.seats (page_of asked.page)
            self.now.with_names self.now.profile.now) }
        ensures memory { result ≢ Err Refusal.Memory }
    {
        let Some(votes) = votes_of(self.profile) else {
            return Err(Refusal::Request(RequestFault::ManyApproved));
        };
        let names = Names::of(self.profile, self.with_names);
        answer_share(out, votes.as_slice(), sharing, &names)
    }

    pub(crate) fn answer<W: Sink>(
        &self,
        alloc: A,
        out: &mut W,
        question: &Question,
    ) -> Result<Outcome, Refusal>
        requires asked { IsInRange (question_of question.now) }
        ensures { Writes W.contents (calls_of W.has_failed W.flushes) out.old out.new result
            (IsAnswerAbout self.now.with_names (question_of question.now) self.now.profile.now) }
    {
        match question {
            Question::Elect(asked) => {
                let listing = Listing::new(self.profile, asked, self.with_names)?;
                answer_election(alloc, out, asked.rule, &listing)
            }
            Question::Check(property, committee) => {
                self.answer_check(out, *property, committee.as_slice())
            }
            Question::Share(sharing) => self.answer_share(out, sharing),
        }
    }
}
