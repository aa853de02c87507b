//! Reads the command line with `clap`.
ghost use Rattle.std.specs.Prelude.{◌≡◌, ◌≢◌, ◌≤◌, IfErr, IfOk, IfSome, Some, [], codes, map, option_and_then, option_map, string_bytes, true};
ghost use Rattle.std.specs.List.{list_any};
ghost use Rattle.std.specs.Vec.{vec_items};
ghost use Rattle.clap.specs.Words.{found_of, kind_of as error_kind_of, one_of, rows_of, takes};
ghost use Rattle.ballot_base.specs.Limits.{most_members};
ghost use Rattle.seat_share.specs.Limits.{most_seats};
ghost use Rattle.preflib_text.specs.Approvals.{HasNumber};
ghost use Rattle.preflib_text.specs.Names.{kind_named};
ghost use Rattle.request_words.specs.Endings.{kind_in_path};
ghost use Rattle.request_words.specs.Limits.{most_limit};
ghost use Rattle.request_words.specs.Request.{InRange, IsPage, task_of, page_of, sharing_by};
ghost use Rattle.request_words.specs.declared.words.ListOption.TheVariants.{Votes};
ghost use Rattle.request_words.specs.Steps.Values.{Gives, GivesAsked, HasCheckValues, HasCounts};
ghost use Rattle.request_words.specs.Words.{IsAfterClap};
ghost use Rattle.request_words.specs.Steps.Values.{HasElectValues, HasLimit, HasShareValues, HasValues};
ghost use Rattle.request_words.specs.Words.{RefusesWords};
ghost use Rattle.request_words.specs.Steps.Values.{IsCount, IsFaultOf, IsFlag};
ghost use Rattle.request_words.specs.Words.{asked_in, asking, check_in};
ghost use Rattle.request_words.specs.Words.{elect_in, elect_over_page, has_input, is_given};
ghost use Rattle.request_words.specs.Words.{line_of, list_in, listed, number_at, page_in};
ghost use Rattle.request_words.specs.Words.{program, request_of, result_and_then, share_in, share_over_votes};
ghost use Rattle.request_words.specs.Words.{wants_names, way_by, way_in, way_names, without_both};

use crate::commands::program;
use crate::ending::kind_in_path;
use crate::number_list::list_of;
use crate::request::{Electing, Page, Question, Request, Rule, Sharing, Task};
use clap::error::ErrorKind;
use clap::{ArgMatches, Error};
use group_check::Property;
use preflib_text::{Kind, Pick, Way};
use seat_share::Method;
use std::alloc::{AllocError, Global};

/// An option whose value is a list of numbers.
#[derive(Clone, Copy, Debug, PartialEq, Eq)]
pub enum ListOption {
    /// `--committee`
    Committee,
    /// `--votes`
    Votes,
    /// `--after`
    After,
}

/// Why a command line gives no request. If several faults hold, the first in this order is returned; `Memory` may come
/// in the place of any.
#[derive(Debug, Drop)]
pub enum LineFault {
    /// Help was asked for. Its text goes to standard output, with status 0.
    Help(String),
    /// The arguments were refused. The text about them goes to standard error, with status 2.
    Usage(String),
    /// The value of this option is not a list of numbers: status 2.
    BadList(ListOption),
    /// More than one of `--category`, `--setsize` and `--classes` is given: status 2.
    TwoPicks,
    /// `--votes` is given together with a file, or with an option on how a file is read: status 2.
    VotesAndInput,
    /// An allocation failed: status 5.
    Memory,
}

impl LineFault {
    /// The line on standard error that reports the fault, without its end. `Help` and `Usage` have a text of their own,
    /// and `Memory` may come anywhere: for these the result is `None`.
    pub fn line(&self) -> Option<&'static str>
        ensures { option_map (λ s. s.now) result ≡ line_of self.now }
    {
        match self {
            LineFault::BadList(ListOption::Committee) => Some(
                "committees: words: BadList --committee",
            ),
            LineFault::BadList(ListOption::Votes) => Some("committees: words: BadList --votes"),
            LineFault::BadList(ListOption::After) => Some("committees: words: BadList --after"),
            LineFault::TwoPicks => Some("committees: words: TwoPicks"),
            LineFault::VotesAndInput => Some("committees: words: VotesAndInput"),
            LineFault::Help(_) | LineFault::Usage(_) | LineFault::Memory => None,
        }
    }
}

impl From<AllocError> for LineFault {
    ghost use Rattle.std.specs.Prelude.{◌≡◌};
    ghost use Rattle.request_words.specs.declared.words.LineFault.TheVariants.{Memory};

    ghost from_gives = { λ _ e. e ≡ Memory };

    fn from(_error: AllocError) -> LineFault {
        LineFault::Memory
    }
}

/// Reads the request from the arguments, of which the first is the program's name. An error is clap's, or the first
/// fault that the arguments have after clap accepted them, or `Memory`.
pub fn read_request(alloc: Global, words: &[String]) -> Result<Request, LineFault>
    ensures request { IfOk result (λ r. request_of (map string_bytes words.now) ≡ Some r) }
    ensures taken { takes program (map string_bytes words.now) ≡ true → IfErr result IsAfterClap }
    ensures fault { IfErr result (RefusesWords (map string_bytes words.now)) }
{
    let program = program(alloc)?;
    match program.try_get_matches_from(words) {
        Ok(matches) => {
            let (name, command) = matches.subcommand().unwrap();
            asked(alloc, name, command)
        }
        Err(error) => Err(fault(alloc, &error)),
    }
}

/// The request in what clap found for the command of this name.
fn asked(alloc: Global, name: &str, command: &ArgMatches<'_>) -> Result<Request, LineFault>
    requires { HasValues name.now (rows_of (found_of command.now)) }
    ensures { GivesAsked (asked_in name.now (rows_of (found_of command.now))) result }
{
    match name {
        "elect" => elect_asked(alloc, command),
        "check" => check_asked(alloc, command),
        "share" => share_asked(alloc, command),
        // The program has no other command.
        _ => unreachable!(),
    }
}

fn elect_asked(alloc: Global, elect: &ArgMatches<'_>) -> Result<Request, LineFault>
    requires { HasElectValues (rows_of (found_of elect.now)) }
    ensures { GivesAsked (elect_in (rows_of (found_of elect.now))) result }
{
    let (rule, size) = rule_and_size(elect);
    let page = page(alloc, elect)?;
    let question = Question::Elect(Electing { rule, size, page });
    request(alloc, elect, Task::OfBallots(question))
}

fn rule_and_size(elect: &ArgMatches<'_>) -> (Rule, u8)
    requires { HasElectValues (rows_of (found_of elect.now)) }
    ensures asked { let rows = rows_of (found_of elect.now) in
        elect_in rows ≡ Some (result_and_then (elect_over_page rows result.0 result.1) (page_in rows)) }
    ensures least { 1 ≤ result.1 }
    ensures most { result.1 ≤ most_members }
{
    let rule = Rule::named(elect.get_str("rule").unwrap()).unwrap();
    let size = elect.get_one::<u8>("size").unwrap();
    (rule, size)
}

fn check_asked(alloc: Global, check: &ArgMatches<'_>) -> Result<Request, LineFault>
    requires { HasCheckValues (rows_of (found_of check.now)) }
    ensures { GivesAsked (check_in (rows_of (found_of check.now))) result }
{
    let property = Property::named(check.get_str("property").unwrap()).unwrap();
    let committee = check.get_str("committee").unwrap();
    let committee = numbers(alloc, ListOption::Committee, committee)?;
    let question = Question::Check(property, committee);
    request(alloc, check, Task::OfBallots(question))
}

fn share_asked(alloc: Global, share: &ArgMatches<'_>) -> Result<Request, LineFault>
    requires { HasShareValues (rows_of (found_of share.now)) }
    ensures { GivesAsked (share_in (rows_of (found_of share.now))) result }
{
    let (method, seats) = method_and_seats(share);
    let votes = list_given(alloc, share, ListOption::Votes, "votes")?;
    let page = page(alloc, share)?;
    let sharing = Sharing {
        method,
        seats,
        page,
    };
    let request = request(alloc, share, share_task(votes, sharing))?;
    if is_given(share, "votes") && has_input(share) {
        return Err(LineFault::VotesAndInput);
    }
    Ok(request)
}

/// A task to share out seats by the given votes or, without them, by those of ballots.
fn share_task(votes: Option<Vec<u64>>, asked: Sharing) -> Task
    ensures { task_of result ≡ sharing_by (option_map vec_items votes) asked.method asked.seats (page_of asked.page) }
{
    match votes {
        Some(votes) => Task::OfVotes(votes, asked),
        None => Task::OfBallots(Question::Share(asked)),
    }
}

fn method_and_seats(share: &ArgMatches<'_>) -> (Method, u16)
    requires { HasShareValues (rows_of (found_of share.now)) }
    ensures asked { let rows = rows_of (found_of share.now) in
        share_in rows ≡ Some (result_and_then (without_both rows)
        (result_and_then (share_over_votes rows result.0 result.1) (list_in Votes (codes "votes") rows))) }
    ensures least { 1 ≤ result.1 }
    ensures most { result.1 ≤ most_seats }
{
    let method = Method::named(share.get_str("method").unwrap()).unwrap();
    let seats = share.get_one::<u16>("seats").unwrap();
    (method, seats)
}

fn page(alloc: Global, command: &ArgMatches<'_>) -> Result<Page, LineFault>
    requires { HasLimit (rows_of (found_of command.now)) }
    ensures given { Gives page_of (page_in (rows_of (found_of command.now))) result }
    ensures range { IfOk result (λ page. IsPage (page_of page)) }
{
    let after = list_given(alloc, command, ListOption::After, "after")?;
    let limit = number(command, "limit");
    Ok(Page { after, limit })
}

/// The list of an option, if it is given.
fn list_given(
    alloc: Global,
    command: &ArgMatches<'_>,
    option: ListOption,
    name: &str,
) -> Result<Option<Vec<u64>>, LineFault>
    ensures given { Gives (option_map vec_items) (list_in option name.now (rows_of (found_of command.now))) result }
    ensures some { IfOk result (λ list. IfSome list (λ v. vec_items v ≢ [])) }
{
    match command.get_str(name) {
        Some(text) => Ok(Some(numbers(alloc, option, text)?)),
        None => Ok(None),
    }
}

fn numbers(alloc: Global, option: ListOption, text: &str) -> Result<Vec<u64>, LineFault>
    ensures given { Gives vec_items (listed option text.now) result }
    ensures some { IfOk result (λ v. vec_items v ≢ []) }
{
    list_of(alloc, text)?.ok_or(LineFault::BadList(option))
}

/// Whether an argument about the input is given: a file, or how one is read.
fn has_input(command: &ArgMatches<'_>) -> bool
    ensures { result ≡ has_input (rows_of (found_of command.now)) }
{
    is_given(command, "file") || is_given(command, "kind") || has_way(command)
}

fn has_way(command: &ArgMatches<'_>) -> bool
    ensures { result ≡ list_any (is_given (rows_of (found_of command.now))) way_names }
{
    is_given(command, "category") || is_given(command, "setsize") || is_given(command, "classes")
}

fn is_given(command: &ArgMatches<'_>, name: &str) -> bool
    ensures { result ≡ is_given (rows_of (found_of command.now)) name.now }
{
    command.contains_id(name)
}

/// The request for this task over the input that clap found for a command.
fn request(alloc: Global, command: &ArgMatches<'_>, task: Task) -> Result<Request, LineFault>
    requires counts { HasCounts (rows_of (found_of command.now)) }
    requires range { InRange (task_of task) }
    ensures { Gives (λ r. r) (asking (rows_of (found_of command.now)) (task_of task)) result }
{
    let Some(way) = way_asked(command) else {
        return Err(LineFault::TwoPicks);
    };
    let pick = pick_of(command.get_str("kind"), command.get_str("file"), way);
    let file = owned(alloc, command.get_str("file"))?;
    Ok(Request::new(task, pick, file, wants_names(command)))
}

fn wants_names(command: &ArgMatches<'_>) -> bool
    requires { IsFlag (one_of (codes "names") (rows_of (found_of command.now))) }
    ensures { result ≡ wants_names (rows_of (found_of command.now)) }
{
    command.get_flag("names")
}

/// How a file with this path is read.
fn pick_of(kind: Option<&str>, path: Option<&str>, way: Way) -> Pick
    ensures { result ≡ record {
      kind = option_and_then kind_named (option_map (λ s. s.now) kind.entry);
      ending = option_and_then kind_in_path (option_map (λ s. s.now) path.entry);
      way = way;
    } }
{
    let kind = match kind {
        Some(name) => Kind::named(name.as_bytes()),
        None => None,
    };
    let ending = match path {
        Some(path) => kind_in_path(path),
        None => None,
    };
    Pick { kind, ending, way }
}

/// The way of approval in what clap found for a command, or `None` if more than one is given.
fn way_asked(command: &ArgMatches<'_>) -> Option<Way>
    requires { HasCounts (rows_of (found_of command.now)) }
    ensures value { result ≡ way_in (rows_of (found_of command.now)) }
    ensures number { IfSome result HasNumber }
{
    let category = number(command, "category");
    let set_size = number(command, "setsize");
    let classes = number(command, "classes");
    one_way(category, set_size, classes)
}

fn number(command: &ArgMatches<'_>, name: &str) -> Option<u32>
    requires { IsCount (one_of name.now (rows_of (found_of command.now))) }
    ensures value { result ≡ number_at name.now (rows_of (found_of command.now)) }
    ensures least { IfSome result (λ n. 1 ≤ n) }
    ensures most { IfSome result (λ n. n ≤ most_limit) }
{
    command.get_one::<u32>(name)
}

/// The way of approval with its number, or `None` if more than one is given.
fn one_way(category: Option<u32>, set_size: Option<u32>, classes: Option<u32>) -> Option<Way>
    requires category { IfSome category (λ n. 1 ≤ n) }
    requires set_size { IfSome set_size (λ n. 1 ≤ n) }
    requires classes { IfSome classes (λ n. 1 ≤ n) }
    ensures value { result ≡ way_by category set_size classes }
    ensures number { IfSome result HasNumber }
{
    match (category, set_size, classes) {
        (None, None, None) => Some(Way::Usual),
        (Some(n), None, None) => Some(Way::Category(n)),
        (None, Some(n), None) => Some(Way::SetSize(n)),
        (None, None, Some(n)) => Some(Way::Classes(n)),
        _ => None,
    }
}

fn owned(alloc: Global, text: Option<&str>) -> Result<Option<String>, AllocError>
    ensures { IfOk result (λ r. option_map string_bytes r ≡ option_map (λ s. s.now) text.entry) }
{
    match text {
        Some(text) => Ok(Some(text.to_string(alloc)?)),
        None => Ok(None),
    }
}

/// The fault for an error of clap.
fn fault(alloc: Global, error: &Error) -> LineFault
    ensures { IsFaultOf (error_kind_of error.now) result }
{
    let Ok(text) = error.to_string(alloc) else {
        return LineFault::Memory;
    };
    match error.kind() {
        ErrorKind::DisplayHelp => LineFault::Help(text),
        ErrorKind::OutOfMemory => LineFault::Memory,
        _ => LineFault::Usage(text),
    }
}
