//! Reads a whole ballot file: cuts it into lines, applies each line to the profile, and finishes the profile.
ghost use Rattle.std.specs.Prelude.{◌≡◌, ◌⊎◌, ℕ, ◌^◌, ◌<◌, List, [], ◌∷◌, map, Some, None, unwrap_or};
ghost use Rattle.std.specs.Prelude.{Result, Ok, Err, MatchResult, IfOk, IfErr, OnOk};
ghost use Rattle.ballot_base.specs.Ballots.{Election};
ghost use Rattle.preflib_text.specs.Lines.{pieces_of, without_return};
ghost use Rattle.preflib_text.specs.Approvals.{HasNumber};
ghost use Rattle.preflib_text.specs.Reading.{Reads, RunsShort, at_end, at_line};
ghost use Rattle.preflib_text.specs.Steps.Notes.{Casts, MayCome, DoneOrRefused, effect_of, end_error, fresh_notes};
ghost use Rattle.preflib_text.specs.Steps.Notes.{line_error};
ghost use Rattle.preflib_text.specs.Steps.Pieces.{IsReady, IsRead, IsLineRefused};

use crate::ballot::Ballot;
use crate::fault::{FaultName, ReadFault};
use crate::lines::{first_line, without_mark};
use crate::notes::{Effect, Notes, Vote};
use crate::pick::Pick;
use ballot_base::{MOST_CANDIDATES, Profile, ProfileBuilder};
use std::alloc::Allocator;

/// Adds a ballot. The first one fixes the number of candidates.
fn add_vote<A: Allocator + Copy + Drop>(
    builder: &mut ProfileBuilder<A>,
    vote: Vote,
) -> Result<(), FaultName>
    requires { MayCome builder.old (Casts vote.first vote.ballot.approved vote.ballot.count) }
    ensures { DoneOrRefused result builder.old builder.new
        (Casts vote.first vote.ballot.approved vote.ballot.count) }
{
    let Vote { first, ballot } = vote;
    if let Some(m) = first {
        builder.narrow(m);
    }
    builder.add(ballot.approved, ballot.count)?;
    Ok(())
}

fn apply<A: Allocator + Copy + Drop>(
    builder: &mut ProfileBuilder<A>,
    effect: &Effect<'_>,
) -> Result<(), FaultName>
    requires { MayCome builder.old (effect_of effect.now) }
    ensures { DoneOrRefused result builder.old builder.new (effect_of effect.now) }
{
    match effect {
        Effect::Nothing => Ok(()),
        Effect::Name(number, name) => Ok(builder.set_name(*number, name)?),
        Effect::Ballot(vote) => add_vote(builder, *vote),
    }
}

pub(crate) fn at_end(name: FaultName) -> ReadFault
    ensures { result ≡ at_end name }
{
    ReadFault { name, line: None }
}

/// The profile of all lines, or the fault at the end of the input.
pub(crate) fn finish<A: Allocator + Copy + Drop>(
    builder: ProfileBuilder<A>,
    notes: &Notes,
) -> Result<Profile<A>, ReadFault>
    ensures { MatchResult result
        (λ profile. (end_error notes.now builder ≡ None) × (profile ≡ builder))
        (λ fault. (end_error notes.now builder ≡ Some fault.name) × (fault.line ≡ None)) }
{
    if notes.alternatives.is_none() {
        return Err(at_end(FaultName::NoAlternatives));
    }
    let Ok(profile) = builder.finish() else {
        return Err(at_end(FaultName::NoVoters));
    };
    Ok(profile)
}

/// Reads a line, and applies its effect to the profile.
pub(crate) fn take_line<A: Allocator + Copy + Drop>(
    builder: &mut ProfileBuilder<A>,
    notes: &mut Notes,
    pick: &Pick,
    line: &[u8],
) -> Result<(), FaultName>
    requires way { HasNumber pick.now.way }
    requires ready { IsReady notes.old builder.old }
    ensures ok { OnOk result (IsRead pick.now notes.old builder.old line.now notes.new builder.new) }
    ensures err { IfErr result (λ name. IsLineRefused pick.now notes.old builder.old line.now name) }
{
    match notes.take_line(pick, line) {
        Ok(effect) => apply(builder, &effect),
        Err(name) => Err(name),
    }
}

/// A fault at a line. `NoAlternatives` has no line.
pub(crate) fn fault_of_line(number: u64, name: FaultName) -> ReadFault
    ensures { result ≡ at_line number name }
{
    let line = match name {
        FaultName::NoAlternatives => None,
        _ => Some(number),
    };
    ReadFault { name, line }
}

/// The fault if no profile could be allocated. It is the first line's own fault, or `Memory` at line 1. Without lines
/// it is the fault of the end.
fn fault_without_memory(pick: &Pick, text: &[u8]) -> ReadFault
    requires { HasNumber pick.now.way }
    ensures none { text.now ≡ [] → result ≡ at_end FaultName.NoAlternatives }
    ensures some { (line : List ℕ) (lines : List (List ℕ)) → map without_return (pieces_of text.now) ≡ line ∷ lines
        → result ≡ at_line 1 (unwrap_or (line_error pick.now (fresh_notes pick.now) line) FaultName.Memory) }
{
    if text.is_empty() {
        return at_end(FaultName::NoAlternatives);
    }
    let name = match Notes::new(pick).take_line(pick, first_line(text).line) {
        Ok(_) => FaultName::Memory,
        Err(name) => name,
    };
    fault_of_line(1, name)
}

/// Reads a ballot file. Returns the profile of its ballots, or the first fault. The number of `pick.way` is at least 1.
///
/// Numbers in the file may have any number of digits. A candidate without a name has none in the profile. `Memory`
/// comes with the number of the line at which memory ran out; then no line up to it has a fault. Memory is taken at the
/// first line, for names of candidates, and for ballots that no earlier line has.
///
/// The format is that of PrefLib: <https://preflib.github.io/PrefLib-Jekyll/format>.
pub fn read_profile<A: Allocator + Copy + Drop>(
    alloc: A,
    bytes: &[u8],
    pick: &Pick,
) -> Result<Profile<A>, ReadFault>
    requires { HasNumber pick.now.way }
    ensures ok { IfOk result (λ profile. Reads bytes.now pick.now (Ok profile)) }
    ensures err { IfErr result (λ fault. Reads bytes.now pick.now (Err fault) ⊎ RunsShort bytes.now pick.now fault) }
{
    let mut rest = without_mark(bytes);
    let Ok(mut builder) = ProfileBuilder::new(alloc, MOST_CANDIDATES) else {
        return Err(fault_without_memory(pick, rest));
    };
    let mut notes = Notes::new(pick);
    let mut number = 0;
    while !rest.is_empty() {
        let cut = first_line(rest);
        number += 1;
        if let Err(name) = take_line(&mut builder, &mut notes, pick, cut.line) {
            return Err(fault_of_line(number, name));
        }
        rest = cut.rest;
    }
    finish(builder, &notes)
}

/// Each input has an outcome under each pick: a profile or a fault.
pub fn some_outcome()
    ensures { (bytes : List ℕ) (pick : Pick) → (outcome : Result Election ReadFault) × Reads bytes pick outcome }
{}

/// An input has only one outcome under a pick.
pub fn one_outcome()
    ensures { (bytes : List ℕ) (pick : Pick) (a b : Result Election ReadFault) → Reads bytes pick a → Reads bytes pick b
        → a ≡ b }
{}
