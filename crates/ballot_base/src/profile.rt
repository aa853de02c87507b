//! Profiles of approval ballots.
ghost use Rattle.std.specs.Prelude.{◌≡◌, ◌≢◌, ◌+◌, ◌-◌, ◌<◌, ◌≤◌, ◌↔◌, [], false, length, replicate, take, slice_get, slice_set, option_map};
ghost use Rattle.std.specs.Prelude.{Some, Err, IsErr, IfOk, IfErr, OnOk, OnErr};
ghost use Rattle.ballot_base.specs.Limits.{most_candidates, most_voters};
ghost use Rattle.ballot_base.specs.Lists.{IsIncreasing};
ghost use Rattle.ballot_base.specs.Ballots.{IsElection, election, name_of, voter_count, has_ballot, with_votes, Election};
ghost use Rattle.ballot_base.specs.Steps.Profiles.{texts, IsCounted};

use crate::cand_set::CandSet;
use crate::hashing::BallotHashing;
use crate::limits::MOST_VOTERS;
use crate::rows::{Ballots, Rows};
use std::alloc::{AllocError, Allocator, Global};
use std::marker::Model;

/// The name of each candidate; an empty name means that there is none.
type Names<A> = Vec<Vec<u8, A>, A>;

/// Why a ballot or a name was not added.
#[derive(Clone, Copy, Debug, PartialEq, Eq)]
pub enum AddFault {
    /// There would be more than `MOST_VOTERS` voters.
    TooManyVoters,
    /// An allocation failed.
    Memory,
}

/// Why no profile could be made.
#[derive(Clone, Copy, Debug, PartialEq, Eq)]
pub enum FinishFault {
    /// No ballot was added.
    NoVoters,
}

/// A profile under construction. Contracts see the election so far.
#[derive(Drop)]
pub struct ProfileBuilder<A: Allocator + Copy = Global> {
    m: u8,
    names: Names<A>,
    voters: u64,
    rows: Rows<A>,
}

impl<A: Allocator + Copy> Model for ProfileBuilder<A> {
    ghost Value = { Election };

    ghost view = { λ b. election b.m (texts b.names.items) b.rows };

    ghost invariant = { λ b. IsCounted (election b.m (texts b.names.items) b.rows) b.voters };
}

impl<A: Allocator + Copy + Drop> ProfileBuilder<A> {
    /// A builder for m candidates, 1 to `MOST_CANDIDATES`, without names or ballots. Ballots are hashed with the fixed
    /// parameters.
    pub fn new(alloc: A, m: u8) -> Result<ProfileBuilder<A>, AllocError>
        requires some { 1 ≤ m }
        requires most { m ≤ most_candidates }
        ensures { IfOk result (λ builder. builder ≡ election m (replicate m []) []) }
    {
        ProfileBuilder::with_hashing(alloc, m, BallotHashing::fixed())
    }

    /// Like `new`, with these hash parameters; they affect only speed.
    pub fn with_hashing(
        alloc: A,
        m: u8,
        hashing: BallotHashing,
    ) -> Result<ProfileBuilder<A>, AllocError>
        requires some { 1 ≤ m }
        requires most { m ≤ most_candidates }
        ensures { IfOk result (λ builder. builder ≡ election m (replicate m []) []) }
    {
        Ok(ProfileBuilder {
            m,
            names: no_names(alloc, m)?,
            voters: 0,
            rows: Rows::new(alloc, hashing),
        })
    }

    /// Sets the name of a candidate, 1 to m, in place of the one before. An empty name removes the one before and needs
    /// no memory. The only refusal is `Memory`, which leaves the builder unchanged.
    pub fn set_name(&mut self, n: u8, name: &[u8]) -> Result<(), AddFault>
        requires low { 1 ≤ n }
        requires high { n ≤ self.old.m }
        ensures ok { OnOk result (self.new ≡ record self.old { names = slice_set self.old.names (n - 1) name.now }) }
        ensures err { IfErr result (λ fault. (fault ≡ AddFault.Memory) × (self.new ≡ self.old)) }
        ensures memory { result ≡ Err AddFault.Memory → name.now ≢ [] }
        ensures valid { IsElection self.new }
    {
        let alloc = *self.names.allocator();
        let Ok(name) = copy_of(alloc, name) else {
            return Err(AddFault::Memory);
        };
        self.names[usize::from(n) - 1] = name;
        Ok(())
    }

    /// Keeps only the candidates 1 to m. Allocates nothing. No ballot may have been added before.
    pub fn narrow(&mut self, m: u8)
        requires some { 1 ≤ m }
        requires most { m ≤ self.old.m }
        requires no_ballot { self.old.rows ≡ [] }
        ensures narrowed { self.new ≡ election m (take m self.old.names) [] }
        ensures valid { IsElection self.new }
    {
        self.names.truncate(usize::from(m));
        self.m = m;
    }

    /// Adds `count` voters, at least 1, who approve exactly these candidates. A known ballot keeps its place and takes
    /// no memory; a new one comes last. `TooManyVoters` is returned exactly if there would be more than `MOST_VOTERS`
    /// voters. A refusal leaves the builder unchanged.
    pub fn add(&mut self, set: CandSet, count: u64) -> Result<(), AddFault>
        requires ballot { IsIncreasing 1 self.old.m set }
        requires voters { 1 ≤ count }
        ensures ok { OnOk result (self.new ≡ record self.old { rows = with_votes self.old.rows set count }) }
        ensures too_many { (result ≡ Err AddFault.TooManyVoters) ↔ (most_voters < voter_count self.old.rows + count) }
        ensures memory { result ≡ Err AddFault.Memory → has_ballot self.old.rows set ≡ false }
        ensures err { OnErr result (self.new ≡ self.old) }
        ensures valid { IsElection self.new }
    {
        if count > MOST_VOTERS - self.voters {
            return Err(AddFault::TooManyVoters);
        }
        match self.rows.add(set, count) {
            Ok(()) => {
                self.voters += count;
                Ok(())
            }
            Err(_) => Err(AddFault::Memory),
        }
    }

    /// Makes a profile of the ballots that were added. Allocates nothing. If no ballot was added, returns `NoVoters`
    /// and the unchanged builder.
    pub fn finish(self) -> Result<Profile<A>, (FinishFault, ProfileBuilder<A>)>
        ensures ok { IfOk result (λ profile. profile ≡ self) }
        ensures err { IfErr result (λ back. (back.0 ≡ FinishFault.NoVoters) × (back.1 ≡ self)) }
        ensures empty { IsErr result ↔ (self.rows ≡ []) }
    {
        if self.rows.is_empty() {
            return Err((FinishFault::NoVoters, self));
        }
        Ok(Profile { built: self })
    }
}

/// A copy of the bytes. An empty copy takes no memory.
fn copy_of<A: Allocator + Copy + Drop>(alloc: A, bytes: &[u8]) -> Result<Vec<u8, A>, AllocError>
    ensures ok { IfOk result (λ copy. copy.items ≡ bytes.now) }
    ensures memory { OnErr result (bytes.now ≢ []) }
{
    if bytes.is_empty() {
        return Ok(Vec::new(alloc));
    }
    Vec::from_slice(alloc, bytes)
}

fn no_names<A: Allocator + Copy + Drop>(alloc: A, m: u8) -> Result<Names<A>, AllocError>
    ensures { IfOk result (λ names. texts names.items ≡ replicate m []) }
{
    let mut names = Vec::with_capacity(alloc, usize::from(m))?;
    for _ in 0..m {
        names.push(Vec::new(alloc))?;
    }
    Ok(names)
}

/// A profile of approval ballots over the candidates 1 to m, with 1 to `MOST_VOTERS` voters.
#[derive(Drop)]
pub struct Profile<A: Allocator + Copy = Global> {
    built: ProfileBuilder<A>,
}

impl<A: Allocator + Copy> Model for Profile<A> {
    ghost Value = { Election };

    ghost view = { λ profile. profile.built };

    ghost invariant = { λ profile. profile.built.rows ≢ [] };
}

impl<A: Allocator + Copy> Profile<A> {
    /// The number of candidates, 1 to `MOST_CANDIDATES`.
    pub fn m(&self) -> u8
        ensures value { result ≡ self.now.m }
        ensures valid { IsElection self.now }
    {
        self.built.m
    }

    /// The name of a candidate, if it has one: bytes that need not be text. Any number may be given; 0 and numbers
    /// above m have no name.
    pub fn name(&self, n: u8) -> Option<&[u8]>
        ensures value { option_map (λ name. name.now) result ≡ name_of self.now n }
        ensures valid { IsElection self.now }
    {
        if n == 0 || n > self.built.m {
            return None;
        }
        let name = self.built.names[usize::from(n) - 1].as_slice();
        if name.is_empty() { None } else { Some(name) }
    }

    /// The number of different ballots, at least 1.
    pub fn rows(&self) -> usize
        ensures value { result ≡ length self.now.rows }
        ensures some { 1 ≤ result }
        ensures valid { IsElection self.now }
    {
        self.built.rows.len()
    }

    /// The ballot at place i, counted from 0, in the order of first appearance, and the number of voters who cast it.
    pub fn row(&self, i: usize) -> (CandSet, u64)
        requires { i < length self.now.rows }
        ensures { slice_get self.now.rows i ≡ Some result }
    {
        self.built.rows.row(i)
    }

    /// The different ballots, in the order of first appearance, each with the number of voters who cast it.
    pub fn ballots(&self) -> Ballots<'_>
        ensures rows { result ≡ self.now.rows }
        ensures valid { IsElection self.now }
    {
        self.built.rows.ballots()
    }

    /// The number of voters, 1 to `MOST_VOTERS`.
    pub fn voters(&self) -> u64
        ensures value { result ≡ voter_count self.now.rows }
        ensures some { 1 ≤ result }
        ensures most { result ≤ most_voters }
    {
        self.built.voters
    }
}
