//! The arguments of the commands, as clap sees them.
ghost use Rattle.std.specs.Prelude.{IfOk};
ghost use Rattle.request_words.specs.Steps.Commands.{AddsArguments, IsArgument, argument_of};

use clap::builder::ValueParser;
use clap::{Arg, ArgAction};
use std::alloc::{AllocError, Global};

/// What an argument takes. Help uses the first text as the name of the value.
#[derive(Clone, Copy)]
pub(crate) enum Takes<'a> {
    /// An option with one of these names.
    Name(&'a str, &'a [&'a str]),
    /// An option with a number from 1 to this one.
    Number(&'a str, u32),
    /// An option with a list of numbers.
    List,
    /// An option without a value.
    Nothing,
    /// The positional argument `FILE`.
    File,
}

/// An argument of a command.
#[derive(Clone, Copy)]
pub(crate) struct ArgumentRow<'a> {
    /// The name, which is also the long name of an option.
    pub(crate) name: &'a str,
    /// What it takes.
    pub(crate) takes: Takes<'a>,
    /// Whether it must be given.
    pub(crate) required: bool,
    /// Its help text, within the columns.
    pub(crate) help: &'a str,
}

/// The argument of a row. The help of an option lists the names that it takes.
fn argument<'a>(alloc: Global, row: ArgumentRow<'a>) -> Arg<'a>
    ensures { IsArgument (argument_of row.entry) result }
{
    let argument = Arg::new(alloc, row.name)
        .help(row.help)
        .required(row.required);
    match row.takes {
        Takes::Name(value, names) => argument
            .long(row.name)
            .value_name(value)
            .value_parser(names)
            .hide_possible_values(true),
        Takes::Number(value, most) => argument
            .long(row.name)
            .value_name(value)
            .value_parser(ValueParser::signed(1, i64::from(most))),
        Takes::List => argument.long(row.name).value_name("LIST"),
        Takes::Nothing => argument.long(row.name).action(ArgAction::SetTrue),
        Takes::File => argument.value_name("FILE"),
    }
}

/// These arguments, followed by those of the rows.
pub(crate) fn with_rows<'a>(
    alloc: Global,
    mut arguments: Vec<Arg<'a>>,
    rows: &[ArgumentRow<'a>],
) -> Result<Vec<Arg<'a>>, AllocError>
    ensures { IfOk result (λ args. AddsArguments rows.now arguments.entry.items args.items) }
{
    arguments.reserve(rows.len())?;
    for row in rows {
        arguments.push(argument(alloc, *row))?;
    }
    Ok(arguments)
}
