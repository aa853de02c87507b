//! What is known from the lines so far, and what the next line does to the profile: its fault, a name or a ballot.
//!
//! `proofs/After.antt` has the statement on which both readers rest: what the notes and the profile are after some
//! lines, and after one more.
ghost use Rattle.std.specs.Prelude.{◌≡◌, ◌^◌, ◌≤◌, true, false, Some, None, MatchResult, IfOk};
ghost use Rattle.ballot_base.specs.Limits.{most_voters};
ghost use Rattle.preflib_text.specs.Metadata.{NameIs, written_number};
ghost use Rattle.preflib_text.specs.Steps.Tells.{meant};
ghost use Rattle.preflib_text.specs.Reading.{number_fault, is_fitting};
ghost use Rattle.preflib_text.specs.Steps.Notes.{fresh_notes, told_error, told_notes, told_effect};
ghost use Rattle.preflib_text.specs.Steps.Notes.{ballot_error, cast_effect, line_error, line_notes, line_effect};
ghost use Rattle.preflib_text.specs.Steps.Notes.{effect_of, IsProper, IsSound};
ghost use Rattle.preflib_text.specs.Approvals.{HasNumber};
ghost use Rattle.preflib_text.specs.Steps.Tokens.{ballot_of};

use crate::approvals::Header;
use crate::ballot::{Ballot, read_ballot};
use crate::fault::FaultName;
use crate::limits::{MOST_CATEGORIES, MOST_LINE_BYTES};
use crate::lines::{Sort, sort_of};
use crate::metadata::{Fact, told_of, written_number};
use crate::pick::{Kind, Pick, Way};
use ballot_base::MOST_CANDIDATES;

/// What is known from the lines so far.
#[derive(Clone, Copy)]
pub(crate) struct Notes {
    pub(crate) alternatives: Option<u64>,
    pub(crate) categories: Option<u64>,
    pub(crate) kind: Result<Kind, FaultName>,
    /// Whether a ballot line was read.
    pub(crate) has_ballot: bool,
}

/// What a line does to the profile.
#[derive(Clone, Copy)]
pub(crate) enum Effect<'a> {
    Nothing,
    /// Gives this candidate a name.
    Name(u8, &'a [u8]),
    /// Adds a ballot.
    Ballot(Vote),
}

/// A ballot. The first one comes with the number of candidates.
#[derive(Clone, Copy)]
pub(crate) struct Vote {
    pub(crate) first: Option<u8>,
    pub(crate) ballot: Ballot,
}

/// Notes a metadata number, 1 to `most`. If the number was noted before, the two have to be equal.
fn note_number<'a>(
    noted: &mut Option<u64>,
    most: u64,
    too_large: FaultName,
    text: &[u8],
) -> Result<Effect<'a>, FaultName>
    requires { most ≤ most_voters }
    ensures { MatchResult result
        (λ effect. (number_fault (Some too_large) most noted.old (written_number text.now) ≡ None)
        × (noted.new ≡ written_number text.now) × (effect ≡ Effect.Nothing))
        (λ name. number_fault (Some too_large) most noted.old (written_number text.now) ≡ Some name) }
{
    match (written_number(text), *noted) {
        (None | Some(0), _) => Err(FaultName::BadNumber),
        (Some(n), _) if n > most => Err(too_large),
        (Some(n), Some(before)) if n != before => Err(FaultName::ConflictingKey),
        (number, _) => {
            *noted = number;
            Ok(Effect::Nothing)
        }
    }
}

fn is_fitting(kind: Kind, categories: Option<u64>, way: Way) -> bool
    ensures { result ≡ is_fitting kind categories way }
{
    match (kind, way) {
        (_, Way::Usual) => true,
        (Kind::Cat, Way::Category(n)) => categories.is_none_or(|most| u64::from(n) <= most),
        (Kind::Cat, _) | (_, Way::Category(_)) => false,
        _ => true,
    }
}

impl Notes {
    pub(crate) fn new(pick: &Pick) -> Notes
        ensures { result ≡ fresh_notes pick.now }
    {
        Notes {
            alternatives: None,
            categories: None,
            kind: pick.kind.or(pick.ending).ok_or(FaultName::NoKind),
            has_ballot: false,
        }
    }

    /// What the name of a candidate does. A name for a number that no candidate can have does nothing.
    fn name_effect<'a>(&self, number: u64, name: &'a [u8]) -> Effect<'a>
        requires { IsSound self.now }
        ensures { effect_of result ≡ told_effect self.now (NameIs number name.now) }
    {
        let most = self.alternatives.unwrap_or(u64::from(MOST_CANDIDATES));
        if (1..=most).contains(&number) {
            Effect::Name(number as u8, name)
        } else {
            Effect::Nothing
        }
    }

    /// Notes the fact that a metadata line states.
    fn take_told<'a>(&mut self, pick: &Pick, told: Fact<'a>) -> Result<Effect<'a>, FaultName>
        requires notes { IsSound self.old }
        requires before { self.old.has_ballot ≡ false }
        ensures told { MatchResult result
            (λ effect. (told_error self.old (meant told.entry) ≡ None)
            × (self.new ≡ told_notes pick.now self.old (meant told.entry))
            × (effect_of effect ≡ told_effect self.old (meant told.entry)))
            (λ name. told_error self.old (meant told.entry) ≡ Some name) }
        ensures proper { IfOk result (λ effect. IsProper self.old (effect_of effect)) }
    {
        match told {
            Fact::Type(text) => {
                if pick.kind.is_none() {
                    self.kind = Kind::named(text).ok_or(FaultName::BadKind);
                }
                Ok(Effect::Nothing)
            }
            Fact::Alternatives(text) => note_number(
                &mut self.alternatives,
                u64::from(MOST_CANDIDATES),
                FaultName::TooManyCandidates,
                text,
            ),
            Fact::Categories(text) => note_number(
                &mut self.categories,
                MOST_CATEGORIES,
                FaultName::BadNumber,
                text,
            ),
            Fact::Name(number, name) => Ok(self.name_effect(number, name)),
            Fact::Nothing => Ok(Effect::Nothing),
        }
    }

    fn take_ballot<'a>(&mut self, pick: &Pick, line: &[u8]) -> Result<Effect<'a>, FaultName>
        requires notes { IsSound self.old }
        requires way { HasNumber pick.now.way }
        ensures ballot { MatchResult result
            (λ effect. (ballot_error pick.now self.old (ballot_of line.now) ≡ None)
            × (self.new ≡ record self.old { has_ballot = true })
            × (effect_of effect ≡ cast_effect pick.now self.old (ballot_of line.now)))
            (λ name. ballot_error pick.now self.old (ballot_of line.now) ≡ Some name) }
        ensures proper { IfOk result (λ effect. IsProper self.old (effect_of effect)) }
    {
        let Some(m) = self.alternatives else {
            return Err(FaultName::NoAlternatives);
        };
        let kind = self.kind?;
        if !is_fitting(kind, self.categories, pick.way) {
            return Err(FaultName::PickMisfit);
        }
        let header = Header {
            kind,
            m: m as u8,
            categories: self.categories,
        };
        let ballot = read_ballot(line, header, pick.way)?;
        let first = (!self.has_ballot).then_some(header.m);
        self.has_ballot = true;
        Ok(Effect::Ballot(Vote { first, ballot }))
    }

    /// Reads a line, and returns what it does to the profile.
    pub(crate) fn take_line<'a>(
        &mut self,
        pick: &Pick,
        line: &'a [u8],
    ) -> Result<Effect<'a>, FaultName>
        requires notes { IsSound self.old }
        requires way { HasNumber pick.now.way }
        ensures line { MatchResult result
            (λ effect. (line_error pick.now self.old line.now ≡ None)
            × (self.new ≡ line_notes pick.now self.old line.now)
            × (effect_of effect ≡ line_effect pick.now self.old line.now))
            (λ name. line_error pick.now self.old line.now ≡ Some name) }
        ensures proper { IfOk result (λ effect. IsProper self.old (effect_of effect)) }
    {
        if line.len() > MOST_LINE_BYTES {
            return Err(FaultName::LongLine);
        }
        match sort_of(line) {
            Sort::Ballot => self.take_ballot(pick, line),
            Sort::Metadata if !self.has_ballot => self.take_told(pick, told_of(line)),
            Sort::Metadata | Sort::Blank => Ok(Effect::Nothing),
        }
    }
}
