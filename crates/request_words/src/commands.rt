//! The program and its commands, as clap sees them.
ghost use Rattle.std.specs.Prelude.{IfOk, map};
ghost use Rattle.request_words.specs.Steps.Commands.{AreCommandsOf, AreOwnAndShared, IsCommandOf, IsProgram, argument_of};

use crate::help::{self, CommandHelp};
use crate::options::{ArgumentRow, Takes, with_rows};
use crate::request::{MOST_LIMIT, MOST_WAY_NUMBER, Rule};
use ballot_base::MOST_MEMBERS;
use clap::{Arg, Command};
use group_check::Property;
use preflib_text::Kind;
use seat_share::{MOST_SEATS, Method};
use std::alloc::{AllocError, Global};

// The help of `--size` states the limit.
const _: () = prove!(MOST_MEMBERS == 40);

// The help of `--seats` states the limit.
const _: () = prove!(MOST_SEATS == 10000);

/// The arguments of `elect`, without those that all commands have.
const ELECT: [ArgumentRow<'static>; 4] = [
    ArgumentRow {
        name: "rule",
        takes: Takes::Name("RULE", &Rule::NAMES),
        required: true,
        help: "The rule: av, pav, cc, geom2, geom3, geom4, sav,\nminimax, seqpav, seqcc or revseqpav",
    },
    ArgumentRow {
        name: "size",
        takes: Takes::Number("SIZE", MOST_MEMBERS as u32),
        required: true,
        help: "The number of seats to fill, 1 to 40",
    },
    AFTER,
    LIMIT,
];

/// The arguments of `check`, without those that all commands have.
const CHECK: [ArgumentRow<'static>; 2] = [
    ArgumentRow {
        name: "property",
        takes: Takes::Name("NAME", &Property::NAMES),
        required: true,
        help: "The property: jr, pjr, ejr or ejrplus",
    },
    ArgumentRow {
        name: "committee",
        takes: Takes::List,
        required: true,
        help: "The members of the committee, as 2,3,5",
    },
];

/// The arguments of `share`, without those that all commands have.
const SHARE: [ArgumentRow<'static>; 5] = [
    ArgumentRow {
        name: "method",
        takes: Takes::Name("METHOD", &Method::NAMES),
        required: true,
        help: "The method: hamilton, dhondt, saintelague,\nhuntington, adams or dean",
    },
    ArgumentRow {
        name: "seats",
        takes: Takes::Number("SEATS", MOST_SEATS as u32),
        required: true,
        help: "The number of seats to share out, 1 to 10000",
    },
    ArgumentRow {
        name: "votes",
        takes: Takes::List,
        required: false,
        help: "The votes of each party, as 53,24,23\n[default: those of the ballots]",
    },
    AFTER,
    LIMIT,
];

/// The option for the answer after which the printed ones begin.
const AFTER: ArgumentRow<'static> = ArgumentRow {
    name: "after",
    takes: Takes::List,
    required: false,
    help: "Print only the answers that come after this one,\nas 2,3,5",
};

/// The option for the maximum number of printed answers.
const LIMIT: ArgumentRow<'static> = ArgumentRow {
    name: "limit",
    takes: Takes::Number("N", MOST_LIMIT),
    required: false,
    help: "Print N answers at most, and whether there are\nmore [default: all]",
};

/// The arguments that all commands have: how the ballots are read, whether names are printed, and `FILE`.
const SHARED: [ArgumentRow<'static>; 6] = [
    ArgumentRow {
        name: "kind",
        takes: Takes::Name("KIND", &Kind::NAMES),
        required: false,
        help: "The type of the file: cat, soc, soi, toc or toi\n[default: its DATA TYPE line, or its extension]",
    },
    ArgumentRow {
        name: "category",
        takes: Takes::Number("N", MOST_WAY_NUMBER),
        required: false,
        help: "Count category N of a cat file as approved\n[default: the first]",
    },
    ArgumentRow {
        name: "setsize",
        takes: Takes::Number("N", MOST_WAY_NUMBER),
        required: false,
        help: "Count the top classes of a ranking as approved,\nuntil they hold N candidates",
    },
    ArgumentRow {
        name: "classes",
        takes: Takes::Number("N", MOST_WAY_NUMBER),
        required: false,
        help: "Count the top N classes of a ranking as approved\n[default: the first that is not empty]",
    },
    ArgumentRow {
        name: "names",
        takes: Takes::Nothing,
        required: false,
        help: "Print the names of the candidates beside numbers",
    },
    ArgumentRow {
        name: "file",
        takes: Takes::File,
        required: false,
        help: "The ballots, a PrefLib file\n[default: standard input]",
    },
];

/// A command.
#[derive(Clone, Copy)]
struct CommandRow<'a> {
    name: &'a str,
    help: CommandHelp,
    /// Its arguments, without those that all commands have.
    own: &'a [ArgumentRow<'a>],
}

/// The commands of the program.
const COMMANDS: [CommandRow<'static>; 3] = [
    CommandRow {
        name: "elect",
        help: help::ELECT,
        own: &ELECT,
    },
    CommandRow {
        name: "check",
        help: help::CHECK,
        own: &CHECK,
    },
    CommandRow {
        name: "share",
        help: help::SHARE,
        own: &SHARE,
    },
];

/// The program with its commands.
pub(crate) fn program<'a>(alloc: Global) -> Result<Command<'a>, AllocError>
    ensures { IfOk result IsProgram }
{
    let commands = commands(alloc, &COMMANDS)?;
    Command::new(alloc, "committees")
        .about(help::PROGRAM.about)
        .after_long_help(help::PROGRAM.end)
        .subcommand_required(true)
        .subcommands(commands)
}

fn commands<'a>(alloc: Global, rows: &[CommandRow<'a>]) -> Result<Vec<Command<'a>>, AllocError>
    ensures { IfOk result (λ commands. AreCommandsOf rows.now commands.items) }
{
    let mut commands = Vec::new(alloc);
    for row in rows {
        commands.push(command(alloc, *row)?)?;
    }
    Ok(commands)
}

/// The command of a row: its own arguments, and after them those that all commands have.
fn command<'a>(alloc: Global, row: CommandRow<'a>) -> Result<Command<'a>, AllocError>
    ensures { IfOk result (IsCommandOf row.entry) }
{
    let arguments = arguments(alloc, row.own)?;
    Command::new(alloc, row.name)
        .about(row.help.about)
        .after_long_help(row.help.end)
        .args(arguments)
}

/// A command's own arguments, and after them those that all commands have.
fn arguments<'a>(alloc: Global, own: &[ArgumentRow<'a>]) -> Result<Vec<Arg<'a>>, AllocError>
    ensures { IfOk result (λ args. AreOwnAndShared (map argument_of own.now) args.items) }
{
    let own = with_rows(alloc, Vec::new(alloc), own)?;
    with_rows(alloc, own, &SHARED)
}
