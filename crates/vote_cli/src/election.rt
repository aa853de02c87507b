//! The winners of an election: the algorithm that finds them under each rule.
//!
//! All memory is taken first. Then the lines of the rule and the size are sent. Only then does a search begin: it takes
//! a `RuleSent`.
//!
//! The functions for a rule are not inlined: a tally or a printer takes many KB of stack, and those of other rules
//! should not lie beside it.
ghost use Rattle.std.specs.Prelude.{◌≡◌, IfOk};
ghost use Rattle.tie_walk.specs.Values.{thiele_of};
ghost use Rattle.text_output.specs.Steps.Printing.{calls_of};
ghost use Rattle.vote_cli.specs.Steps.Listed.{listed_text};
ghost use Rattle.vote_cli.specs.Steps.Refusals.{WritesText};

use crate::answers::Outcome;
use crate::elect_text::{Listing, RuleSent};
use crate::refusal::Refusal;
use ballot_base::ThieleRule;
use minimax_search::MinimaxSearch;
use request_words::{Rule, ScoredRule};
use sequential_winners::FamilyMemory;
use std::alloc::{AllocError, Allocator};
use text_output::Sink;
use thiele_search::{SearchMemory, ThieleSearch};
use tie_walk::{ApprovalTally, SavTally, SeqRule};

/// Writes an election and its listed winners.
pub(crate) fn answer_election<A: Allocator + Copy + Drop, W: Sink>(
    alloc: A,
    out: &mut W,
    rule: Rule,
    listing: &Listing<'_, A>,
) -> Result<Outcome, Refusal>
    ensures { WritesText W.contents (calls_of W.has_failed W.flushes) out.old out.new result
        (listed_text listing.now rule) }
{
    match rule {
        Rule::Scored(ScoredRule::Thiele(ThieleRule::Av)) => answer_approval(out, listing),
        Rule::Scored(ScoredRule::Thiele(rule)) => answer_thiele(alloc, out, rule, listing),
        Rule::Scored(ScoredRule::Satisfaction) => answer_satisfaction(out, listing),
        Rule::Scored(ScoredRule::Minimax) => answer_minimax(alloc, out, listing),
        Rule::Sequential(rule) => answer_sequential(alloc, out, rule, listing),
    }
}

/// Writes an election under approval voting, whose bounds are exact without a search.
#[inline(never)]
fn answer_approval<A: Allocator + Copy + Drop, W: Sink>(
    out: &mut W,
    listing: &Listing<'_, A>,
) -> Result<Outcome, Refusal>
    ensures { WritesText W.contents (calls_of W.has_failed W.flushes) out.old out.new result
        (listed_text listing.now (Rule.Scored (ScoredRule.Thiele ThieleRule.Av))) }
{
    let rule = ScoredRule::Thiele(ThieleRule::Av);
    let sent = listing.write_rule(out, Rule::Scored(rule))?;
    let tally = ApprovalTally::new(listing.profile, listing.size);
    listing.write_ranked(out, &tally, rule, sent)?;
    Ok(Outcome::Answered)
}

/// Writes an election under another of Thiele's rules, whose winners a search finds.
#[inline(never)]
fn answer_thiele<A: Allocator + Copy + Drop, W: Sink>(
    alloc: A,
    out: &mut W,
    rule: ThieleRule,
    listing: &Listing<'_, A>,
) -> Result<Outcome, Refusal>
    ensures { WritesText W.contents (calls_of W.has_failed W.flushes) out.old out.new result
        (listed_text listing.now (Rule.Scored (ScoredRule.Thiele rule))) }
{
    let memory = search_memory(alloc, rule, listing)?;
    let sent = listing.write_rule(out, Rule::Scored(ScoredRule::Thiele(rule)))?;
    let search = prepared(memory, &sent);
    listing.write_searched(out, search, ScoredRule::Thiele(rule), sent)?;
    Ok(Outcome::Answered)
}

// Not inlined: what the memory is made from takes stack, too, which is given back before the search begins.
#[inline(never)]
fn search_memory<'a, A: Allocator + Copy + Drop>(
    alloc: A,
    rule: ThieleRule,
    listing: &Listing<'a, A>,
) -> Result<SearchMemory<'a, A>, AllocError>
    ensures { IfOk result (λ memory. memory ≡ thiele_of listing.now.profile.now rule listing.now.size) }
{
    SearchMemory::new(alloc, listing.profile, rule, listing.size)
}

// Not inlined: what the search is made from takes as much stack again, which is given back before the search begins.
#[inline(never)]
fn prepared<'a, A: Allocator + Copy + Drop>(
    memory: SearchMemory<'a, A>,
    _sent: &RuleSent,
) -> ThieleSearch<'a, A>
    ensures { result ≡ memory.entry }
{
    ThieleSearch::new(memory)
}

/// Writes an election under satisfaction approval voting, whose bounds are exact without a search.
#[inline(never)]
fn answer_satisfaction<A: Allocator + Copy + Drop, W: Sink>(
    out: &mut W,
    listing: &Listing<'_, A>,
) -> Result<Outcome, Refusal>
    ensures { WritesText W.contents (calls_of W.has_failed W.flushes) out.old out.new result
        (listed_text listing.now (Rule.Scored ScoredRule.Satisfaction)) }
{
    let rule = ScoredRule::Satisfaction;
    let sent = listing.write_rule(out, Rule::Scored(rule))?;
    let tally = SavTally::new(listing.profile);
    listing.write_ranked(out, &tally, rule, sent)?;
    Ok(Outcome::Answered)
}

/// Writes an election under minimax approval voting, whose winners a search finds.
#[inline(never)]
fn answer_minimax<A: Allocator + Copy + Drop, W: Sink>(
    alloc: A,
    out: &mut W,
    listing: &Listing<'_, A>,
) -> Result<Outcome, Refusal>
    ensures { WritesText W.contents (calls_of W.has_failed W.flushes) out.old out.new result
        (listed_text listing.now (Rule.Scored ScoredRule.Minimax)) }
{
    let rule = ScoredRule::Minimax;
    let search = MinimaxSearch::new(alloc, listing.profile)?;
    let sent = listing.write_rule(out, Rule::Scored(rule))?;
    listing.write_searched(out, search, rule, sent)?;
    Ok(Outcome::Answered)
}

/// Writes an election under a sequential rule, whose winners come in families.
#[inline(never)]
fn answer_sequential<A: Allocator + Copy + Drop, W: Sink>(
    alloc: A,
    out: &mut W,
    rule: SeqRule,
    listing: &Listing<'_, A>,
) -> Result<Outcome, Refusal>
    ensures { WritesText W.contents (calls_of W.has_failed W.flushes) out.old out.new result
        (listed_text listing.now (Rule.Sequential rule)) }
{
    let memory = FamilyMemory::new(alloc, listing.profile, rule, listing.size)?;
    let sent = listing.write_rule(out, Rule::Sequential(rule))?;
    listing.write_families(out, memory, sent)?;
    Ok(Outcome::Answered)
}
