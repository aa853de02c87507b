//! What a command line asks for.
ghost use Rattle.std.specs.Prelude.{◌≡◌, option_map, string_bytes};
ghost use Rattle.preflib_text.specs.Approvals.{HasNumber};
ghost use Rattle.request_words.specs.Names.{rule_name, rule_named};
ghost use Rattle.request_words.specs.Request.{InRange, task_of};

use ballot_base::ThieleRule;
use group_check::Property;
use preflib_text::Pick;
use seat_share::Method;
use std::marker::Model;
use tie_walk::SeqRule;

/// The number of Thiele's rules, which come first in `Rule::ALL`.
const THIELE_RULES: usize = ThieleRule::ALL.len();

/// The rule by which committees win (Lackner and Skowron, Multi-Winner Voting with Approval
/// Preferences).
#[derive(Clone, Copy, Debug, PartialEq, Eq)]
pub enum Rule {
    /// The committees with the highest value win.
    Scored(ScoredRule),
    /// A committee is made one choice at a time, and every tie is followed.
    Sequential(SeqRule),
}

impl Rule {
    /// All rules.
    pub const ALL: [Rule; 11] = [
        Rule::Scored(ScoredRule::Thiele(ThieleRule::Av)),
        Rule::Scored(ScoredRule::Thiele(ThieleRule::Pav)),
        Rule::Scored(ScoredRule::Thiele(ThieleRule::Cc)),
        Rule::Scored(ScoredRule::Thiele(ThieleRule::Geom2)),
        Rule::Scored(ScoredRule::Thiele(ThieleRule::Geom3)),
        Rule::Scored(ScoredRule::Thiele(ThieleRule::Geom4)),
        Rule::Scored(ScoredRule::Satisfaction),
        Rule::Scored(ScoredRule::Minimax),
        Rule::Sequential(SeqRule::SeqPav),
        Rule::Sequential(SeqRule::SeqCc),
        Rule::Sequential(SeqRule::RevSeqPav),
    ];

    /// The names of the rules, in the order of `ALL`.
    pub const NAMES: [&'static str; 11] = [
        "av",
        "pav",
        "cc",
        "geom2",
        "geom3",
        "geom4",
        "sav",
        "minimax",
        "seqpav",
        "seqcc",
        "revseqpav",
    ];

    /// The name, as it is written on the command line and in answers.
    pub const fn name(self) -> &'static str
        ensures { result.now ≡ rule_name self }
    {
        let place = match self {
            Rule::Scored(ScoredRule::Thiele(rule)) => rule as usize,
            Rule::Scored(ScoredRule::Satisfaction) => THIELE_RULES,
            Rule::Scored(ScoredRule::Minimax) => THIELE_RULES + 1,
            Rule::Sequential(rule) => THIELE_RULES + 2 + rule as usize,
        };
        Rule::NAMES[place]
    }

    /// The rule with this name, or `None`. Upper and lower case differ.
    pub fn named(name: &str) -> Option<Rule>
        ensures { result ≡ rule_named name.now }
    {
        Rule::ALL.iter().copied().find(|rule| name == rule.name())
    }
}

/// A rule that gives each committee a value.
#[derive(Clone, Copy, Debug, PartialEq, Eq)]
pub enum ScoredRule {
    /// A Thiele method. A voter who approves x members of a committee adds the first x increments of the rule. The
    /// highest sum over the voters wins.
    Thiele(ThieleRule),
    /// Satisfaction approval voting. A voter adds the share of the approved candidates that are members of the
    /// committee. The highest sum over the voters wins.
    Satisfaction,
    /// Minimax approval voting. The distance of a voter from a committee is the number of candidates in exactly one of
    /// the voter's approvals and the committee. The smallest maximum distance wins, however many voters have it.
    Minimax,
}

/// The maximum number of answers that a request may ask for.
pub const MOST_LIMIT: u32 = 4_294_967_295;

/// The maximum number of `--category`, `--setsize` and `--classes`.
pub const MOST_WAY_NUMBER: u32 = 1_000_000;

/// Which of the answers are wanted.
#[derive(Debug, Drop)]
pub struct Page {
    /// The start: only answers later than this list are wanted. The list need not be an answer itself. It has at least
    /// one number.
    pub after: Option<Vec<u64>>,
    /// The maximum number of answers that are wanted, from 1 to `MOST_LIMIT`.
    pub limit: Option<u32>,
}

/// Which committees are asked for: the rule by which they win, how many seats they have, and which of the winners are
/// wanted.
#[derive(Debug, Drop)]
pub struct Electing {
    /// The rule by which committees win.
    pub rule: Rule,
    /// The number of seats, from 1 to `MOST_MEMBERS`.
    pub size: u8,
    /// Which of the winners are wanted. A start fits if it is a committee of this size.
    pub page: Page,
}

/// Which seats are asked for: the method by which they are shared out among parties, how many there are, and which of
/// the fair allocations are wanted.
#[derive(Debug, Drop)]
pub struct Sharing {
    /// The method by which the seats are shared out.
    pub method: Method,
    /// The number of seats, from 1 to `MOST_SEATS`.
    pub seats: u16,
    /// Which of the fair allocations are wanted. A start fits if it has a number for each party, each at most
    /// `MOST_SEATS`.
    pub page: Page,
}

/// What is asked about the ballots of an input. Each list has at least one number.
#[derive(Debug, Drop)]
pub enum Question {
    /// Elect committees.
    Elect(Electing),
    /// Check whether a committee has a property. The members are as they were given: any numbers, in any order.
    Check(Property, Vec<u64>),
    /// Share out seats. Each voter counts for the one party that the ballot approves.
    Share(Sharing),
}

/// What a request asks for.
#[derive(Debug, Drop)]
pub enum Task {
    /// A question about the ballots of an input.
    OfBallots(Question),
    /// Share out seats among parties with these votes. There is at least one party.
    OfVotes(Vec<u64>, Sharing),
}

/// A request: its task, how the file is read, the file to read if one is named, and whether answers have names. Each
/// one comes from `read_request`.
#[derive(Debug, Drop)]
pub struct Request {
    task: Task,
    pick: Pick,
    file: Option<String>,
    names: bool,
}

impl Model for Request {
    ghost use Rattle.std.specs.Prelude.{option_map, string_bytes};
    ghost use Rattle.preflib_text.specs.Approvals.{HasNumber};
    ghost use Rattle.request_words.specs.Request.{Request, InRange, task_of};

    ghost Value = { Request };

    ghost view = { λ a. record {
      task = task_of a.task;
      pick = a.pick;
      file = option_map string_bytes a.file;
      names = a.names;
    } };

    ghost invariant = { λ a. InRange (task_of a.task) × HasNumber a.pick.way };
}

impl Request {
    pub(crate) fn new(task: Task, pick: Pick, file: Option<String>, names: bool) -> Request
        requires range { InRange (task_of task) }
        requires way { HasNumber pick.way }
        ensures { result ≡ record {
          task = task_of task;
          pick = pick;
          file = option_map string_bytes file;
          names = names;
        } }
    {
        Request {
            task,
            pick,
            file,
            names,
        }
    }

    /// What the request asks for.
    pub fn task(&self) -> &Task
        ensures value { task_of result.now ≡ self.now.task }
        ensures range { InRange (task_of result.now) }
    {
        &self.task
    }

    /// How the file is read.
    pub fn pick(&self) -> Pick
        ensures value { result ≡ self.now.pick }
        ensures way { HasNumber result.way }
    {
        self.pick
    }

    /// The path of the file to read. If it is `None`, the input is standard input.
    pub fn file(&self) -> Option<&str>
        ensures { option_map (λ s. s.now) result ≡ self.now.file }
    {
        self.file.as_deref()
    }

    /// Whether answers show the names of the candidates beside their numbers.
    pub fn names(&self) -> bool
        ensures { result ≡ self.now.names }
    {
        self.names
    }
}
