//! What the tests share: requests from words, and what files hold, as a whole and in pieces.
ghost use Rattle.std.specs.Prelude.{◌<◌};
ghost use Rattle.preflib_text.specs.Approvals.{HasNumber};

use ballot_base::{CandSet, MOST_CANDIDATES, Profile};
use preflib_text::{LineReader, Pick, ReadFault, read_profile};
use refusing_heap::Refusing;
use request_words::{LineFault, Request, read_request};
use std::alloc::{Allocator, Global};
use std::fmt;
use std::process::Abort;

/// More growths than any test asks for.
pub(super) const MANY: u64 = 100;

/// Whether the growth was asked for, and refused.
pub(super) fn has_refused(heap: &Refusing) -> bool {
    heap.left.get() == 0
}

/// A word of a line: `·` in it is a blank, and `''` is a word of no bytes.
fn word_of(rt: &impl Abort, alloc: Global, word: &str) -> String {
    let word = if word == "''" { "" } else { word };
    word.replace(alloc, '·', " ").expect(rt, word)
}

/// The words of a line, after the program's name, read as a request.
pub(super) fn read_line(rt: &impl Abort, alloc: Global, line: &str) -> Result<Request, LineFault> {
    let mut words = Vec::new(alloc);
    words
        .push(String::from_str(alloc, "committees").expect(rt, line))
        .expect(rt, line);
    for word in line.split(' ') {
        if !word.is_empty() {
            words.push(word_of(rt, alloc, word)).expect(rt, line);
        }
    }
    read_request(alloc, words.as_slice())
}

/// How a file is read by these words of a request.
pub(super) fn reading_as(rt: &impl Abort, alloc: Global, words: &str) -> Pick
    ensures { HasNumber result.way }
{
    let line = format!(in alloc; "elect --rule av --size 1 {words}").expect(rt, words);
    read_line(rt, alloc, line.as_str()).expect(rt, words).pick()
}

/// A set as a text: its members, with commas between them.
#[derive(Clone, Copy)]
struct Members(CandSet);

impl fmt::Display for Members {
    fn fmt<W: fmt::Write>(&self, f: &mut fmt::Formatter<W>) -> fmt::Result {
        let mut comma = "";
        for n in 1..=MOST_CANDIDATES {
            if self.0.has(n) {
                write!(f, "{comma}{n}")?;
                comma = ",";
            }
        }
        Ok(())
    }
}

/// A name, or the list of its bytes if they are not text.
#[derive(Clone, Copy)]
struct NameText<'a>(&'a [u8]);

impl fmt::Display for NameText<'_> {
    fn fmt<W: fmt::Write>(&self, f: &mut fmt::Formatter<W>) -> fmt::Result {
        match str::from_utf8(self.0) {
            Ok(name) => f.write_str(name),
            Err(_) => write!(f, "{:?}", self.0),
        }
    }
}

/// The names of a profile, a line for each.
#[derive(Drop)]
struct NameLines<'a, A: Allocator + Copy>(&'a Profile<A>);

impl<A: Allocator + Copy> fmt::Display for NameLines<'_, A> {
    fn fmt<W: fmt::Write>(&self, f: &mut fmt::Formatter<W>) -> fmt::Result {
        for n in 1..=self.0.m() {
            if let Some(name) = self.0.name(n) {
                write!(f, "\n{n} {}", NameText(name))?;
            }
        }
        Ok(())
    }
}

/// The ballots of a profile, a line for each.
#[derive(Drop)]
struct BallotLines<'a, A: Allocator + Copy>(&'a Profile<A>);

impl<A: Allocator + Copy> fmt::Display for BallotLines<'_, A> {
    fn fmt<W: fmt::Write>(&self, f: &mut fmt::Formatter<W>) -> fmt::Result {
        for (ballot, voters) in self.0.ballots() {
            write!(f, "\n{voters}: {}", Members(ballot))?;
        }
        Ok(())
    }
}

/// A profile as a text: the number of candidates, the names and the ballots.
fn profile_text<A: Allocator + Copy + Drop>(
    rt: &impl Abort,
    alloc: Global,
    profile: &Profile<A>,
) -> String {
    let (names, ballots) = (NameLines(profile), BallotLines(profile));
    format!(in alloc; "{}{names}{ballots}", profile.m()).expect(rt, "a profile")
}

/// What comes of reading, as a text: the profile, or the fault.
pub(super) fn outcome<A: Allocator + Copy + Drop>(
    rt: &impl Abort,
    alloc: Global,
    read: Result<Profile<A>, ReadFault>,
) -> String {
    match &read {
        Ok(profile) => profile_text(rt, alloc, profile),
        Err(fault) => format!(in alloc; "{fault}").expect(rt, "a fault"),
    }
}

/// Asserts the outcome of reading a file, or of other steps. The number distinguishes the outcomes of one file.
pub(super) fn assert_outcome<A: Allocator + Copy + Drop>(
    rt: &impl Abort,
    alloc: Global,
    read: Result<Profile<A>, ReadFault>,
    wanted: &str,
    file: &[u8],
    number: u64,
) {
    let text = outcome(rt, alloc, read);
    assert!(rt; text.as_str() == wanted, "{number}, {file:?}: {text}");
}

/// What a file holds that is fed in pieces of these sizes: the first, the second, and each later one.
pub(super) fn in_pieces(
    alloc: Global,
    pick: Pick,
    file: &[u8],
    first: usize,
    second: usize,
    later: usize,
) -> Result<Profile, ReadFault>
    requires { HasNumber pick.way }
{
    let sizes = [first, second, later];
    let mut reader = LineReader::new(alloc, pick)?;
    let mut rest = file;
    for i in 0..file.len().saturating_add(2) {
        if i > 2 && rest.is_empty() {
            break;
        }
        let size = sizes[i.min(2)];
        let (piece, after) = rest.split_at(rest.len().min(size));
        reader.feed(piece)?;
        rest = after;
    }
    reader.finish()
}

/// Asserts what a file holds as a whole, in single bytes, and cut in two at each place. The number of a reading is that
/// place, 0 for the whole, and the length of the file for single bytes.
pub(super) fn assert_holds(rt: &impl Abort, alloc: Global, pick: Pick, file: &[u8], wanted: &str)
    requires { HasNumber pick.way }
{
    let length = file.len();
    let whole = read_profile(alloc, file, &pick);
    assert_outcome(rt, alloc, whole, wanted, file, 0);
    let bytes = in_pieces(alloc, pick, file, 1, 1, 1);
    assert_outcome(rt, alloc, bytes, wanted, file, length as u64);
    for at in 0..length {
        let cut = in_pieces(alloc, pick, file, at, length, length);
        assert_outcome(rt, alloc, cut, wanted, file, at as u64);
    }
}
