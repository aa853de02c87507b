//! Lists of answers, from each start on and up to each limit. The answers are worked by hand.
use super::support::{THREE, assert_leaves, written_out};
use std::alloc::Global;
use std::fmt::Write;
use std::process::Abort;

/// The words, the lines before the answers, and the answers: over `THREE`, and over the votes in the words.
pub(super) static LISTINGS: &str = "\
elect --rule av --size 1 | rule av¶size 1¶score 2/1 | 1¶2
elect --rule pav --size 2 | rule pav¶size 2¶score 6/2 | 1,2¶1,3¶2,3
elect --rule cc --size 2 | rule cc¶size 2¶score 3/1 | 1,3¶2,3
elect --rule geom2 --size 2 | rule geom2¶size 2¶score 6/2 | 1,2¶1,3¶2,3
elect --rule geom3 --size 2 | rule geom3¶size 2¶score 9/3 | 1,3¶2,3
elect --rule geom4 --size 2 | rule geom4¶size 2¶score 12/4 | 1,3¶2,3
elect --rule sav --size 1 | rule sav¶size 1¶score 6/6 | 1¶2¶3
elect --rule minimax --size 1 | rule minimax¶size 1¶distance 2 | 1¶2
elect --rule seqpav --size 2 | rule seqpav¶size 2 | 1,2¶1,3¶2,3
elect --rule seqcc --size 1 | rule seqcc¶size 1 | 1¶2
elect --rule revseqpav --size 1 | rule revseqpav¶size 1 | 1¶2
share --method hamilton --seats 2 --votes 1,1,1,1 | method hamilton¶seats 2 | 0,0,1,1¶0,1,0,1¶0,1,1,0¶1,0,0,1¶1,0,1,0¶1,1,0,0
share --method dhondt --seats 1 --votes 1,1 | method dhondt¶seats 1 | 0,1¶1,0
share --method saintelague --seats 2 --votes 3,1 | method saintelague¶seats 2 | 1,1¶2,0
share --method huntington --seats 10 --votes 1,6 | method huntington¶seats 10 | 1,9¶2,8
share --method adams --seats 2 --votes 5,3,3 | method adams¶seats 2 | 1,0,1¶1,1,0
share --method dean --seats 2 --votes 5,3,3 | method dean¶seats 2 | 1,0,1¶1,1,0";

/// A list of answers: the words that ask for it, its lines before the answers, and the answers. `¶` stands between
/// lines.
#[derive(Clone, Copy)]
pub(super) struct Listing<'a> {
    words: &'a str,
    header: &'a str,
    answers: &'a str,
}

/// The listing of a row.
pub(super) fn listing_of<'a>(rt: &impl Abort, row: &'a str) -> Listing<'a> {
    let (words, rest) = row.split_once(" | ").expect(rt, row);
    let (header, answers) = rest.split_once(" | ").expect(rt, row);
    Listing {
        words,
        header,
        answers,
    }
}

impl<'a> Listing<'a> {
    /// How many answers there are.
    pub(super) fn count(self) -> usize {
        self.answers.split('¶').count()
    }

    /// How many lines come before the answers.
    pub(super) fn header_lines(self) -> usize {
        self.header.split('¶').count()
    }

    /// The words that ask for the answers after the first `from`, up to a limit if there is one.
    pub(super) fn words(
        self,
        rt: &impl Abort,
        alloc: Global,
        from: usize,
        limit: Option<usize>,
    ) -> String {
        let mut words = String::from_str(alloc, self.words).expect(rt, self.words);
        if let Some(limit) = limit {
            write!(words, " --limit {limit}").expect(rt, self.words);
        }
        if let Some(start) = self.answers.split('¶').take(from).last() {
            write!(words, " --after {start}").expect(rt, self.words);
        }
        words
    }

    /// The text of the answers after the first `from`, up to a limit if there is one.
    pub(super) fn text(
        self,
        rt: &impl Abort,
        alloc: Global,
        from: usize,
        limit: Option<usize>,
    ) -> String {
        let limit = limit.unwrap_or(usize::MAX);
        let mut text = written_out(rt, alloc, self.header);
        for answer in self.answers.split('¶').skip(from).take(limit) {
            write!(text, "\n{answer}").expect(rt, answer);
        }
        let is_cut = self.count() > from.saturating_add(limit);
        let last = if is_cut { "\nmore\n" } else { "\nend\n" };
        text.push_str(last).expect(rt, last);
        text
    }
}

/// Asserts the answers after each answer and from the first on, one at a time, two at a time, and all of them.
fn assert_pages(rt: &impl Abort, alloc: Global, listing: Listing<'_>) {
    let count = listing.count();
    for from in 0..=count {
        for limit in [Some(1), Some(2), Some(count), Some(4_294_967_295), None] {
            let words = listing.words(rt, alloc, from, limit);
            let text = listing.text(rt, alloc, from, limit);
            assert_leaves(rt, alloc, words.as_str(), THREE, text.as_bytes());
        }
    }
}

#[test]
fn pages_of_each_listing(rt: HostRuntime) {
    for row in LISTINGS.lines() {
        assert_pages(&rt, rt.alloc(), listing_of(&rt, row));
    }
}
