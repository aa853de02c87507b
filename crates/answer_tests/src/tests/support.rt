//! Ballots, elections and a comparison of more than one file of tests.
ghost use Rattle.std.specs.Prelude.{Some, ◌≡◌, ◌≤◌};
ghost use Rattle.ballot_base.specs.Limits.{most_candidates, most_members};
ghost use Rattle.ballot_base.specs.Lists.{IsIncreasing};
ghost use Rattle.tie_walk.specs.Values.{thiele_of};
ghost use Rattle.tie_walk.specs.Winners.{IsStart};

use ballot_base::{CandSet, Clones, KSets, Profile, ProfileBuilder, ThieleRule};
use minimax_search::MinimaxSearch;
use row_multipliers::Node;
use std::alloc::Global;
use std::cell::Cell;
use std::process::Abort;
use thiele_search::{SearchMemory, ThieleSearch};
use tie_search::{Committees, SearchWinners, Searchable, Tied, WithClones};
use tie_walk::{Tally, Winners};

/// Asserts something about two numbers, and shows both if it fails. One message serves many tests, since each message
/// of its own takes seconds to prove.
pub(super) fn assert_of(rt: &impl Abort, is_right: bool, what: &str, first: u128, second: u128) {
    assert!(rt; is_right, "{what}: {first}, {second}");
}

/// Asserts something about the committees of k of m candidates that come after a start, or about all of them.
pub(super) fn assert_after(rt: &impl Abort, is_right: bool, k: u8, m: u8, start: &Option<CandSet>) {
    assert!(rt; is_right, "{k} of {m} after {start:?}");
}

/// The candidates 1 to m whose bit of the word is 1.
pub(super) fn ballot_of(m: u8, word: u64) -> CandSet
    requires { m ≤ most_candidates }
    ensures { IsIncreasing 1 m result }
{
    let mut set = CandSet::empty();
    for n in 1..m + 1 {
        if word >> (n - 1) & 1 == 1 {
            set = set.with(n);
        }
    }
    set
}

/// An election of m candidates and of these ballots, as words with a bit for each candidate, and their voters. A ballot
/// without voters is left out.
pub(super) fn election_of(rt: &impl Abort, alloc: Global, m: u8, ballots: &[(u64, u64)]) -> Profile
    requires some { 1 ≤ m }
    requires most { m ≤ most_candidates }
    ensures { result.m ≡ m }
{
    let mut builder = ProfileBuilder::new(alloc, m).expect(rt, "a builder");
    for (word, voters) in ballots {
        let count = *voters;
        if count > 0 {
            builder
                .add(ballot_of(m, *word), count)
                .expect(rt, "a ballot");
        }
    }
    match builder.finish() {
        Ok(profile) => profile,
        Err(_) => panic!(rt; "no voters"),
    }
}

/// How voters approve candidates: few of them, many, neighbours, or almost the same.
#[derive(Clone, Copy)]
pub(super) enum Draw {
    Few,
    Many,
    Neighbours,
    Alike,
}

/// The candidates of a ballot, as the bits of a word, by a random word.
fn approved(draw: Draw, word: u64) -> u64 {
    match draw {
        Draw::Few => word >> 20 & word >> 40,
        Draw::Many => word >> 20 | word >> 40,
        Draw::Neighbours => 7 << (word >> 40) % 6,
        Draw::Alike => 11 ^ word >> 20 & word >> 30 & word >> 40,
    }
}

/// The random word after a word.
pub(super) fn next_word(word: u64) -> u64 {
    word.wrapping_mul(6_364_136_223_846_793_005)
        .wrapping_add(1_442_695_040_888_963_407)
}

/// The maximum number of ballots that are drawn.
const MOST_DRAWN: usize = 150;

/// `count` ballots that the seed decides, at most 150, each of `times` to three times `times` voters.
pub(super) fn random_ballots(
    draw: Draw,
    seed: u64,
    count: usize,
    times: u64,
) -> [(u64, u64); MOST_DRAWN] {
    let mut ballots = [(0, 0); MOST_DRAWN];
    let mut word = seed;
    for i in 0..count.min(MOST_DRAWN) {
        word = next_word(word);
        ballots[i] = (approved(draw, word), times.wrapping_mul(1 + word % 3));
    }
    ballots
}

/// The committee of the k candidates whose bit of the word is 1.
pub(super) fn committee_of(rt: &impl Abort, m: u8, k: u8, word: u64) -> CandSet
    requires { m ≤ most_candidates }
    ensures { IsStart m k (Some result) }
{
    let set = ballot_of(m, word);
    assert!(rt; set.len() == k, "a committee of {k}");
    set
}

/// The first committee of k of the candidates 1 to m.
pub(super) fn first_committee(m: u8, k: u8) -> CandSet
    requires most { m ≤ most_candidates }
    requires fits { k ≤ m }
    ensures { IsStart m k (Some result) }
{
    CandSet::all(k)
}

/// A search for committees of k under a rule.
pub(super) fn search_of<'a>(
    rt: &impl Abort,
    alloc: Global,
    profile: &'a Profile,
    rule: ThieleRule,
    k: u8,
) -> ThieleSearch<'a>
    requires some { 1 ≤ k }
    requires size { k ≤ most_members }
    requires fits { k ≤ profile.now.m }
    ensures { result ≡ thiele_of profile.now rule k }
{
    let memory = SearchMemory::new(alloc, profile, rule, k).expect(rt, "memory");
    ThieleSearch::new(memory)
}

/// A search under minimax approval voting.
pub(super) fn minimax_of<'a>(
    rt: &impl Abort,
    alloc: Global,
    profile: &'a Profile,
) -> MinimaxSearch<'a>
    ensures { result ≡ profile.now }
{
    MinimaxSearch::new(alloc, profile).expect(rt, "memory")
}

/// The highest value, by a pass over all committees.
pub(super) fn plain_best<T: Tally>(tally: &T, m: u8, k: u8) -> u128
    requires candidates { m ≡ T.candidates tally.now }
    requires most { m ≤ most_candidates }
    requires fits { k ≤ m }
{
    let mut best = 0;
    for committee in KSets::new(m, k) {
        best = best.max(tally.value(committee));
    }
    best
}

/// Asserts that a search and a walk over a tally find the same winners, those later than the start or all of them.
pub(super) fn assert_same_winners<P: Tally, S: Searchable>(
    rt: &impl Abort,
    plain: &P,
    search: &S,
    k: u8,
    start: Option<CandSet>,
)
    requires candidates { P.candidates plain.now ≡ S.candidates search.now }
    requires some { 1 ≤ k }
    requires fits { k ≤ P.candidates plain.now }
    requires start { IsStart (P.candidates plain.now) k start }
{
    let m = plain.m();
    let finds = Cell::new(0);
    let wanted = Winners::new(plain, m, k, start);
    let found = SearchWinners::new(CountedSearch::all(search, &finds), k, start);
    let is_best = found.best() == wanted.best();
    assert_after(rt, is_best && found.eq(wanted), k, m, &start);
}

/// Asserts that the search and the walk with plain bounds find the same winners, all of them and those later than the
/// first committee.
pub(super) fn assert_searched<P: Tally, S: Searchable>(
    rt: &impl Abort,
    plain: &P,
    search: &S,
    k: u8,
)
    requires candidates { P.candidates plain.now ≡ S.candidates search.now }
    requires some { 1 ≤ k }
    requires fits { k ≤ P.candidates plain.now }
{
    assert_same_winners(rt, plain, search, k, None);
    assert_same_winners(rt, plain, search, k, Some(first_committee(plain.m(), k)));
}

/// A search of another one's values that counts the calls of `find`. It lists tied committees if the other one does and
/// it may.
#[derive(Drop)]
pub(super) struct CountedSearch<'a, S: Searchable> {
    pub(super) search: &'a S,
    finds: &'a Cell<u64>,
    lists_ties: bool,
}

impl<'a, S: Searchable> CountedSearch<'a, S> {
    /// It lists tied committees as the other one does.
    pub(super) fn all(search: &'a S, finds: &'a Cell<u64>) -> CountedSearch<'a, S>
        ensures { result.search.now ≡ search.now }
    {
        CountedSearch::new(search, finds, true)
    }

    pub(super) fn new(search: &'a S, finds: &'a Cell<u64>, lists_ties: bool) -> CountedSearch<'a, S>
        ensures { result.search.now ≡ search.now }
    {
        CountedSearch {
            search,
            finds,
            lists_ties,
        }
    }
}

impl<'a, S: Searchable> Tally for CountedSearch<'a, S> {
    ghost candidates = { λ counted. S.candidates counted.search.now };

    ghost value_of = { λ counted. S.value_of counted.search.now };

    ghost bound_of = { λ counted. S.bound_of counted.search.now };

    fn m(&self) -> u8 {
        self.search.m()
    }

    fn value(&self, set: CandSet) -> u128 {
        self.search.value(set)
    }

    fn bound(&self, c: u8, set: CandSet, left: u8) -> u128 {
        self.search.bound(c, set, left)
    }
}

impl<'a, S: Searchable> WithClones for CountedSearch<'a, S> {
    ghost class_of = { λ counted. S.class_of counted.search.now };

    fn clones(&self) -> &Clones {
        self.search.clones()
    }
}

impl<'a, S: Searchable> Searchable for CountedSearch<'a, S> {
    fn good_committee(&self, k: u8) -> Option<CandSet> {
        self.search.good_committee(k)
    }

    fn find(&self, node: &Node, least: u128) -> Option<CandSet> {
        count(self.finds);
        self.search.find(node, least)
    }

    fn tied(&self, k: u8) -> Option<Tied> {
        if !self.lists_ties {
            return None;
        }
        self.search.tied(k)
    }

    fn completions(&self, node: &Node, least: u128) -> Option<Committees> {
        self.search.completions(node, least)
    }
}

/// A tally that hands on only its number of candidates, its values and its bounds, and counts the calls of the last
/// two.
#[derive(Drop)]
pub(super) struct Counting<'a, T: Tally> {
    pub(super) tally: &'a T,
    values: Cell<u64>,
    bounds: Cell<u64>,
}

impl<'a, T: Tally> Counting<'a, T> {
    pub(super) fn new(tally: &'a T) -> Counting<'a, T>
        ensures { result.tally.now ≡ tally.now }
    {
        Counting {
            tally,
            values: Cell::new(0),
            bounds: Cell::new(0),
        }
    }

    /// How many bounds were asked for so far.
    pub(super) fn bounds(&self) -> u64 {
        self.bounds.get()
    }

    /// How many values and bounds were asked for so far.
    pub(super) fn calls(&self) -> u64 {
        self.values.get().saturating_add(self.bounds.get())
    }
}

fn count(calls: &Cell<u64>) {
    calls.set(calls.get().saturating_add(1));
}

impl<'a, T: Tally> Tally for Counting<'a, T> {
    ghost candidates = { λ counting. T.candidates counting.tally.now };

    ghost value_of = { λ counting. T.value_of counting.tally.now };

    ghost bound_of = { λ counting. T.bound_of counting.tally.now };

    fn m(&self) -> u8 {
        self.tally.m()
    }

    fn value(&self, set: CandSet) -> u128 {
        count(&self.values);
        self.tally.value(set)
    }

    fn bound(&self, c: u8, set: CandSet, left: u8) -> u128 {
        count(&self.bounds);
        self.tally.bound(c, set, left)
    }
}
