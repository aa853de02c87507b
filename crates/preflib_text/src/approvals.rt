//! What is noted of a ballot while it is read: the candidates that it approves, and what is wrong with it.
ghost use Rattle.std.specs.Prelude.{◌≡◌, ◌+◌, ◌^◌, ◌<◌, ◌≤◌};
ghost use Rattle.ballot_base.specs.Limits.{most_candidates};
ghost use Rattle.preflib_text.specs.Limits.{word_limit};
ghost use Rattle.preflib_text.specs.Steps.Marks.{no_marks, taking_of, takes, is_past, wrong_with, with_new};
ghost use Rattle.preflib_text.specs.Steps.Marks.{with_number, with_end, fault_of};

use crate::fault::FaultName;
use crate::pick::{Kind, Way};
use ballot_base::{CandSet, MOST_VOTERS};

/// Which candidates count as approved: `Way` with the default resolved.
#[derive(Clone, Copy)]
pub(crate) enum Taking {
    /// The numbers of this class, counted from 1.
    Category(u32),
    /// The numbers of the top classes, as many as it takes to reach this many numbers, or of all classes.
    SetSize(u32),
    /// The numbers of this many top classes.
    Classes(u32),
}

impl Taking {
    /// What a way takes in a file of this type.
    pub(crate) fn new(kind: Kind, way: Way) -> Taking
        ensures { result ≡ taking_of kind way }
    {
        match way {
            Way::Usual if kind == Kind::Cat => Taking::Category(1),
            Way::Usual => Taking::SetSize(1),
            Way::Category(n) => Taking::Category(n),
            Way::SetSize(n) => Taking::SetSize(n),
            Way::Classes(n) => Taking::Classes(n),
        }
    }
}

/// What the numbers of a ballot are read with: the number of candidates, and which numbers are taken.
#[derive(Clone, Copy)]
pub(crate) struct Terms {
    pub(crate) m: u8,
    pub(crate) taking: Taking,
    ghost few: { m ≤ most_candidates },
}

/// What the metadata say about the ballots.
#[derive(Clone, Copy)]
pub(crate) struct Header {
    pub(crate) kind: Kind,
    pub(crate) m: u8,
    pub(crate) categories: Option<u64>,
    ghost few: { m ≤ most_candidates },
}

/// What is noted of the classes of a ballot so far.
#[derive(Clone, Copy)]
pub(crate) struct Marks {
    /// What is wrong with the first wrong number.
    pub(crate) wrong: Option<FaultName>,
    /// The numbers up to the first wrong one.
    pub(crate) seen: CandSet,
    /// The seen numbers that are taken.
    pub(crate) approved: CandSet,
    /// Whether each finished class has exactly one number.
    pub(crate) strict: bool,
    /// The number of finished classes.
    pub(crate) classes: u64,
    /// How many numbers the finished classes have.
    pub(crate) before: u64,
    /// How many numbers the current class has so far.
    pub(crate) numbers: u64,
}

impl Marks {
    pub(crate) fn new() -> Marks
        ensures { result ≡ no_marks }
    {
        Marks {
            wrong: None,
            seen: CandSet::empty(),
            approved: CandSet::empty(),
            strict: true,
            classes: 0,
            before: 0,
            numbers: 0,
        }
    }

    /// Whether the numbers of the current class are taken.
    pub(crate) fn takes(&self, taking: Taking) -> bool
        requires { self.now.classes + 1 < word_limit }
        ensures { result ≡ takes taking self.now.classes self.now.before }
    {
        match taking {
            Taking::Category(n) => self.classes + 1 == u64::from(n),
            Taking::SetSize(n) => self.before < u64::from(n),
            Taking::Classes(n) => self.classes < u64::from(n),
        }
    }

    /// Whether neither the current class nor a later one is taken.
    pub(crate) fn is_past(&self, taking: Taking) -> bool
        ensures { result ≡ is_past taking self.now.classes self.now.before }
    {
        match taking {
            Taking::Category(n) | Taking::Classes(n) => u64::from(n) <= self.classes,
            Taking::SetSize(n) => u64::from(n) <= self.before,
        }
    }

    /// What is wrong with this number, or with one before it.
    pub(crate) fn wrong_with(&self, m: u8, n: u64) -> Option<FaultName>
        requires { m ≤ most_candidates }
        ensures { result ≡ wrong_with m self.now n }
    {
        if self.wrong.is_some() {
            return self.wrong;
        }
        if n == 0 || n > u64::from(m) {
            return Some(FaultName::NoSuchCandidate);
        }
        if self.seen.has(n as u8) {
            return Some(FaultName::RepeatedCandidate);
        }
        None
    }

    /// Adds a number with which nothing is wrong to the current class; `taken` says whether it is approved.
    pub(crate) fn add_new(&mut self, n: u64, taken: bool)
        requires low { 1 ≤ n }
        requires high { n ≤ most_candidates }
        requires numbers { self.old.numbers + 1 < word_limit }
        ensures { self.new ≡ with_new self.old taken n }
    {
        self.numbers += 1;
        self.seen = self.seen.with(n as u8);
        if taken {
            self.approved = self.approved.with(n as u8);
        }
    }

    /// Adds a number to the current class.
    pub(crate) fn add_number(&mut self, terms: Terms, n: u64)
        requires classes { self.old.classes + 1 < word_limit }
        requires numbers { self.old.numbers + 1 < word_limit }
        ensures { self.new ≡ with_number terms.m terms.taking self.old n }
    {
        self.wrong = self.wrong_with(terms.m, n);
        if self.wrong.is_some() {
            self.numbers += 1;
        } else {
            self.add_new(n, self.takes(terms.taking));
        }
    }

    pub(crate) fn end_class(&mut self)
        requires classes { self.old.classes + 1 < word_limit }
        requires numbers { self.old.before + self.old.numbers < word_limit }
        ensures { self.new ≡ with_end self.old }
    {
        self.strict = self.strict && self.numbers == 1;
        self.classes += 1;
        self.before += self.numbers;
        self.numbers = 0;
    }

    /// What is wrong with the ballot, if it has this count.
    pub(crate) fn fault(&self, header: Header, count: u64) -> Option<FaultName>
        ensures { result ≡ fault_of header.kind header.m header.categories count self.now }
    {
        if count == 0 || count > MOST_VOTERS {
            return Some(FaultName::BadCount);
        }
        if self.wrong.is_some() {
            return self.wrong;
        }
        if matches!(header.kind, Kind::Soc | Kind::Soi) && !self.strict {
            return Some(FaultName::NotStrict);
        }
        if matches!(header.kind, Kind::Soc | Kind::Toc) && self.seen.len() < header.m {
            return Some(FaultName::Incomplete);
        }
        match (header.kind, header.categories) {
            (Kind::Cat, Some(most)) if self.classes > most => Some(FaultName::TooManyClasses),
            _ => None,
        }
    }
}
