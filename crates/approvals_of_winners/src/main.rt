//! Reads a PrefLib file from standard input, and prints all committees of `SIZE` that win by proportional approval
//! voting: on each line the members of one, and after each member the number of voters who approve it.
#![tactic(auto)]

ghost use Rattle.std.specs.Prelude.{◌≡◌, ℕ, [], true, IfOk, IfSome, Ok, slice_index};
ghost use Rattle.std.specs.List.{range_with_len};
ghost use Rattle.ballot_base.specs.CandSet.{has_member};
ghost use Rattle.ballot_base.specs.Increments.{increments};
ghost use Rattle.preflib_text.specs.Approvals.{HasNumber};
ghost use Rattle.preflib_text.specs.Reading.{Reads};
ghost use Rattle.tie_walk.specs.Sequences.{gain};

use anyhow::{Result, ensure};
use ballot_base::{CandSet, MOST_CANDIDATES, Profile, ThieleRule, Worths};
use preflib_text::{Pick, read_profile};
use std::alloc::Global;
use std::io::{BufWriter, Read, Write};
use thiele_search::{SearchMemory, ThieleSearch};
use tie_search::SearchWinners;
use tie_walk::ThieleTally;

/// The size of a committee.
const SIZE: u8 = 3;

/// The profile of a ballot file.
fn read_ballots<R: Read + Drop>(alloc: Global, mut input: R, pick: &Pick) -> Result<Profile>
    requires { HasNumber pick.now.way }
    ensures { IfOk result (λ profile. IfSome (R.remaining input) (λ bytes. Reads bytes pick.now (Ok profile))) }
{
    let mut bytes = Vec::new(alloc);
    input.read_to_end(&mut bytes)?;
    Ok(read_profile(alloc, &bytes, pick)?)
}

/// The number of voters who approve each candidate: under approval voting, a committee without members gains this by
/// the candidate.
fn approvals(profile: &Profile) -> Worths
    ensures { (n : ℕ) → has_member (range_with_len 1 profile.now.m) n ≡ true
        → slice_index result n ≡ gain (increments ThieleRule.Av SIZE) profile.now.rows [] n }
{
    let tally = ThieleTally::new(profile, ThieleRule::Av, SIZE);
    tally.gains(CandSet::empty(), CandSet::all(profile.m()))
}

/// Prints the line of a winner.
fn print_winner<W: Write>(out: &mut W, winner: CandSet, approvals: &Worths) -> Result<()> {
    write!(out, "winner")?;
    for candidate in 1..=MOST_CANDIDATES {
        if winner.has(candidate) {
            let voters = approvals.of(candidate);
            write!(out, " {candidate} ({voters})")?;
        }
    }
    writeln!(out)?;
    Ok(())
}

/// Takes all memory before the first line is printed.
fn main(rt: HostRuntime) -> Result<()> {
    let profile = read_ballots(rt.alloc(), rt.stdin(), &Pick::default())?;
    ensure!(SIZE <= profile.m(), "fewer than {SIZE} candidates");
    let memory = SearchMemory::new(rt.alloc(), &profile, ThieleRule::Pav, SIZE)?;
    let mut out = BufWriter::new(rt.alloc(), rt.stdout())?;
    let approvals = approvals(&profile);
    let search = ThieleSearch::new(memory);
    let winners = SearchWinners::new(search, SIZE, None);
    for winner in winners {
        print_winner(&mut out, winner, &approvals)?;
    }
    out.flush()?;
    Ok(())
}
