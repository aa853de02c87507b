//! The ballots candidate by candidate, one bit per voter, so that gains are counted for 64 voters at once.
//!
//! For each number of hits, one word holds the voters who have it. The words are made member by member: voters who
//! approve the member move on by one hit. The gain of a candidate is the sum, over numbers of hits, of the weight times
//! the bits that word and column share. Only the candidates that are asked for are counted.
//!
//! There are no columns for more than 65,536 voters, more than two voters per row, or weights from 2^44 on; then gains
//! come from one pass over the rows. The columns take 520 bytes for 64 voters, once, when they are made.
ghost use Rattle.std.specs.Prelude.{◌≡◌, ℕ, ◌+◌, ◌-◌, ◌*◌, ◌^◌, ◌<◌, ◌≤◌, ◌==◌, ◌&&◌, true, List, [], ◌++◌, length, replicate, slice_index, IfOk, MatchOption, ⊤, if◌then◌else◌};
ghost use Rattle.std.specs.Int.{bit_at};
ghost use Rattle.ballot_base.specs.Limits.{most_candidates, most_members};
ghost use Rattle.ballot_base.specs.Ballots.{hits, voter_count};
ghost use Rattle.ballot_base.specs.CandSet.{has_member};
ghost use Rattle.tie_walk.specs.Values.{thiele_of};
ghost use Rattle.thiele_search.specs.Steps.Columns.{AreAdded, block_voters, most_blocks, total, shared, given, approves_some, IsBlock, AreByHits, AreColumns, AreColumnsOf, AreRising, AreWeights, voters_of, voter_ballot, word_before, column_limit};

use ballot_base::{CandSet, Increments, MOST_MEMBERS, PLACES, Profile, ThieleRule, Worths};
use std::alloc::{AllocError, Allocator};

/// The number of voters who share a word.
pub(crate) const BLOCK_VOTERS: usize = 64;

/// The maximum number of blocks: 65,536 voters.
const MOST_BLOCKS: usize = 1024;

/// With more voters per row than this, a pass over the rows takes less time than one over the blocks.
const ROW_VOTERS: usize = 2;

/// From this weight on there are no columns, and the gains of a block may not fit a word of 64 bits. It takes 23 seats
/// or more; then columns with words of 128 bits took a fifth longer than passes over the rows.
const LARGE_WEIGHT: u128 = 1 << 44;

/// For each candidate, at its number, which of 64 voters approve it.
pub(crate) type Block = [u64; PLACES];

/// The weight of each hit; the first is at index 0.
type Weights = [u64; MOST_MEMBERS as usize];

/// Moves the voters who approve a further member on by one hit.
fn add_hit(words: &mut Block, approving: u64, levels: usize)
    requires { levels ≤ most_members }
    ensures { (h i : ℕ) → h < levels → i < block_voters → bit_at (slice_index words.new h) i
        ≡ (if bit_at approving i == 1 then bit_at (word_before words.old h) i else bit_at (slice_index words.old h) i) }
{
    let mut before = 0;
    for h in 0..levels {
        let here = words[h];
        words[h] = here & !approving | before & approving;
        before = here;
    }
}

/// For each of the first `levels` numbers of hits, at the number, which voters of a block have it.
fn by_hits(block: &Block, set: CandSet, levels: usize) -> Block
    requires { levels ≤ most_members }
    ensures { (ballot_at : ℕ → List ℕ) → IsBlock ballot_at block.now → AreByHits ballot_at set levels result }
{
    let mut words = [0; PLACES];
    words[0] = u64::MAX;
    for member in set.members() {
        add_hit(&mut words, block[usize::from(member)], levels);
    }
    words
}

/// How many of the first `levels` words there are up to the last one with a voter.
fn levels_in_use(words: &Block, levels: usize) -> usize
    requires { levels ≤ most_members }
    ensures few { result ≤ levels }
    ensures others { (h : ℕ) → result ≤ h → h < levels → slice_index words.now h ≡ 0 }
{
    let mut used = 0;
    for h in 0..levels {
        if words[h] != 0 {
            used = h + 1;
        }
    }
    used
}

/// Which voters of a block approve a member of the set.
fn covered_by(block: &Block, set: CandSet) -> u64
    ensures { (ballot_at : ℕ → List ℕ) → IsBlock ballot_at block.now → (i : ℕ) → i < block_voters
        → bit_at result i ≡ (if hits (ballot_at i) set == 0 then 0 else 1) }
{
    let mut covered = 0;
    for member in set.members() {
        covered |= block[usize::from(member)];
    }
    covered
}

/// What the voters of a column give: for each number of hits, the weight times the bits that word and column share.
fn given_by(words: &Block, column: u64, weights: &Weights, levels: usize) -> u64
    requires few { levels ≤ most_members }
    requires small { (h : ℕ) → slice_index weights.now h < 2 ^ 44 }
    ensures sum { result
        ≡ total (λ h. slice_index weights.now h * shared column (slice_index words.now h)) levels }
    ensures most { result ≤ levels * 2 ^ 50 }
{
    let mut sum = 0;
    for h in 0..levels {
        sum += weights[h] * u64::from((column & words[h]).count_ones());
    }
    sum
}

/// Puts a voter at a place of a block: the bit of the place is set for each candidate on the ballot.
fn add_voter(block: &mut Block, place: u32, ballot: CandSet)
    requires { place < block_voters }
    ensures { (c i : ℕ) → i < block_voters → bit_at (slice_index block.new c) i
        ≡ (if (i == place) && has_member ballot c then 1 else bit_at (slice_index block.old c) i) }
{
    for candidate in ballot.members() {
        block[usize::from(candidate)] |= 1 << place;
    }
}

/// Puts `count` voters with one ballot after the first `voters` voters.
pub(crate) fn add_row(blocks: &mut [Block], voters: usize, ballot: CandSet, count: usize)
    requires { voters + count ≤ length blocks.old * block_voters }
    ensures kept { length blocks.new ≡ length blocks.old }
    ensures added { (ballots : List (List ℕ)) → length ballots ≡ voters → AreColumns ballots blocks.old
        → AreColumns (ballots ++ replicate count ballot) blocks.new }
{
    for passed in 0..count {
        let voter = voters + passed;
        let place = (voter % BLOCK_VOTERS) as u32;
        add_voter(&mut blocks[voter / BLOCK_VOTERS], place, ballot);
    }
}

fn blocks_of<A: Allocator + Copy + Drop>(
    alloc: A,
    profile: &Profile<A>,
) -> Result<Vec<Block, A>, AllocError>
    requires { voter_count profile.now.rows ≤ most_blocks * block_voters }
    ensures few { IfOk result (λ blocks. length blocks.items ≤ most_blocks) }
    ensures all { IfOk result (λ blocks. voter_count profile.now.rows ≤ length blocks.items * block_voters) }
    ensures columns { IfOk result (λ blocks. AreColumns (voters_of profile.now.rows) blocks.items) }
{
    let most = (profile.voters() as usize).div_ceil(BLOCK_VOTERS);
    let mut blocks = vec![in alloc; [0; PLACES]; most]?;
    let mut voters = 0;
    for (ballot, count) in profile.ballots() {
        let count = count as usize;
        add_row(&mut blocks, voters, ballot, count);
        voters += count;
    }
    Ok(blocks)
}

/// The weights in words of 64 bits, and the number of the last hit that gives something. Returns `None` if a weight is
/// too large.
fn small_weights(weights: &[u128; MOST_MEMBERS as usize]) -> Option<(Weights, usize)>
    ensures { MatchOption result ⊤ (λ small. AreWeights small.0 small.1
        × ((j : ℕ) → slice_index small.0 j ≡ slice_index weights.now j)) }
{
    let mut small = [0; MOST_MEMBERS as usize];
    let mut levels = 0;
    for j in 0..small.len() {
        if weights[j] >= LARGE_WEIGHT {
            return None;
        }
        small[j] = weights[j] as u64;
        if small[j] > 0 {
            levels = j + 1;
        }
    }
    Some((small, levels))
}

/// The ballots of a profile, candidate by candidate, and what a voter gives for each hit.
#[derive(Drop)]
pub(crate) struct Columns<A: Allocator> {
    pub(crate) blocks: Vec<Block, A>,
    pub(crate) weights: Weights,
    pub(crate) levels: usize,
    ghost few: { length blocks.items ≤ most_blocks },
    ghost sound: { AreWeights weights levels },
}

impl<A: Allocator + Copy + Drop> Columns<A> {
    /// The columns of a profile. Returns `None` if there are too many voters, too many voters per row, or a large
    /// weight.
    pub(crate) fn of(
        alloc: A,
        profile: &Profile<A>,
        rule: ThieleRule,
        k: u8,
    ) -> Result<Option<Columns<A>>, AllocError>
        requires some { 1 ≤ k }
        requires size { k ≤ most_members }
        ensures { IfOk result (λ kept. MatchOption kept ⊤ (λ columns. AreColumnsOf (thiele_of profile.now rule k)
            columns.blocks.items columns.weights)) }
    {
        let voters = profile.voters() as usize;
        if voters > MOST_BLOCKS * BLOCK_VOTERS || voters / ROW_VOTERS > profile.rows() {
            return Ok(None);
        }
        let Some(small) = small_weights(&Increments::of(rule, k).w) else {
            return Ok(None);
        };
        let weights = small.0;
        Ok(Some(Columns {
            blocks: blocks_of(alloc, profile)?,
            weights,
            levels: small.1,
        }))
    }
}

impl<A: Allocator> Columns<A> {
    /// What a set gains by each of the free candidates.
    pub(crate) fn gains_of(&self, set: CandSet, free: CandSet) -> Worths
        ensures { (ballots : List (List ℕ)) → AreColumns ballots self.now.blocks.items → AreRising ballots
            → (c : ℕ) → has_member free c ≡ true → slice_index result c
            ≡ total (λ v. given self.now.weights set c (voter_ballot ballots v))
            (length self.now.blocks.items * block_voters) }
    {
        let mut gains = Worths::none();
        for block in &self.blocks {
            self.add_block(&mut gains, block, set, free);
        }
        gains
    }

    pub(crate) fn covered(&self, set: CandSet) -> usize
        ensures { (ballots : List (List ℕ)) → AreColumns ballots self.now.blocks.items → AreRising ballots
            → result ≡ total (λ v. approves_some set (voter_ballot ballots v))
            (length self.now.blocks.items * block_voters) }
    {
        let mut covered = 0;
        for block in &self.blocks {
            covered += covered_by(block, set).count_ones() as usize;
        }
        covered
    }

    /// Adds to the gains of the free candidates what the voters of a block give. No voter has more hits than the set
    /// has members.
    fn add_block(&self, gains: &mut Worths, block: &Block, set: CandSet, free: CandSet)
        requires { (c : ℕ) → slice_index gains.old c < column_limit }
        ensures sum { (ballot_at : ℕ → List ℕ) → IsBlock ballot_at block.now
            → AreAdded self.now.weights set free ballot_at gains.old gains.new }
        ensures most { (c : ℕ) → slice_index gains.new c ≤ slice_index gains.old c + most_members * 2 ^ 50 }
    {
        if self.levels == 1 {
            self.add_first_hits(gains, block, set, free);
            return;
        }
        let levels = self.levels.min(usize::from(set.len()) + 1);
        let words = by_hits(block, set, levels);
        let levels = levels_in_use(&words, levels);
        for candidate in free.members() {
            let column = block[usize::from(candidate)];
            let given = given_by(&words, column, &self.weights, levels);
            gains.set(candidate, gains.of(candidate) + u128::from(given));
        }
    }

    /// Like `add_block`, if only a voter's first hit counts. One word, for the voters without a hit, is enough; with a
    /// word for each number of hits, random elections took a quarter more instructions.
    fn add_first_hits(&self, gains: &mut Worths, block: &Block, set: CandSet, free: CandSet)
        requires first { self.now.levels ≡ 1 }
        requires fits { (c : ℕ) → slice_index gains.old c < column_limit }
        ensures sum { (ballot_at : ℕ → List ℕ) → IsBlock ballot_at block.now
            → AreAdded self.now.weights set free ballot_at gains.old gains.new }
        ensures most { (c : ℕ) → slice_index gains.new c ≤ slice_index gains.old c + most_members * 2 ^ 50 }
    {
        let uncovered = !covered_by(block, set);
        let weight = self.weights[0];
        for candidate in free.members() {
            let shared = (block[usize::from(candidate)] & uncovered).count_ones();
            gains.set(
                candidate,
                gains.of(candidate) + u128::from(weight * u64::from(shared)),
            );
        }
    }
}
