//! The arguments of `aprsbook-table`.
ghost use Rattle.std.specs.Prelude.{◌≡◌, IfOk, map, true, false};
ghost use Rattle.clap.specs.Words.{app_of, found_of, is_simple_and_free, rows_of, rule_of};
ghost use Rattle.aprs_arguments.specs.Arguments as Spec;

use crate::arguments::{
    GREATEST_GAP, copy_paths, gap_arg, inputs_arg, option_arg, read_matches_and_gap, text_at,
};
use crate::help;
use crate::jobs::{JobFault, STANDARD_MESSAGE_GAP, Table, TableJob};
use aprs_transmissions::Gap;
use clap::builder::ValueParser;
use clap::{Arg, ArgMatches, Command};
use std::alloc::{AllocError, Global};

/// What the arguments of `aprsbook-table [TABLE] [--gap SECONDS] [INPUT]...` ask for, the
/// program's name being the first: the table, which is that of the rows where none is named, the
/// gap, which is 30 seconds where it is not given, and the inputs' paths in the order of the
/// arguments. The first word that is neither an option nor SECONDS names a table where it is the
/// name of one, and is a path else. SECONDS is 1 to 3,600, and else a fault of `JobFault::Clap`.
/// Where the arguments ask for help or the version, its text is that of `JobFault::Clap`.
/// `JobFault::Memory` where an allocation failed. By `asked` the job is the one that the
/// definition of the command reads from the arguments; by `judged` clap's refusal is for a fault
/// that this definition finds in them.
pub fn table_job(alloc: Global, arguments: &[&str]) -> Result<TableJob, JobFault>
    ensures asked { Spec.AnswersTable (map (λ a. a.now) arguments.now) result }
    ensures judged { Spec.JudgesArguments Spec.table_app (map (λ a. a.now) arguments.now)
        result }
{
    let (matches, gap) = {
        let mut command = table_command(alloc)?;
        read_matches_and_gap(&mut command, arguments)?
    };
    let Some(message_gap) = read_message_gap(&matches) else {
        return Err(JobFault::Options);
    };
    let (named, inputs) = read_table_and_inputs(alloc, &matches)?;
    let table = named.with_message_gap(message_gap);
    Ok(TableJob { table, gap, inputs })
}

/// A law; the function does nothing. The command is simple, and no argument has a rule on another:
/// clap's definitions say what it finds in any arguments, and which faults.
pub fn table_command_is_simple()
    ensures { is_simple_and_free Spec.table_app ≡ true }
{}

/// The command `aprsbook-table [--gap SECONDS] [--message-gap SECONDS] [INPUT]...`; the first INPUT
/// may name a table.
/// `AllocError` where an allocation failed.
fn table_command<'a>(alloc: Global) -> Result<Command<'a>, AllocError>
    ensures { IfOk result (λ c. app_of c ≡ Spec.table_app) }
{
    let inputs = inputs_arg(alloc);
    let with_inputs = Command::new(alloc, "aprsbook-table")
        .version(help::VERSION)
        .about(help::TABLE)
        .override_usage(help::TABLE_USAGE)
        .after_help(help::TABLES)
        .after_long_help(help::TABLE_EXAMPLES)
        .arg(inputs)?;
    let gap = gap_arg(alloc);
    let with_gap = with_inputs.arg(gap)?;
    let message_gap = message_gap_arg(alloc);
    with_gap.arg(message_gap)
}

/// The option `--message-gap SECONDS`, with 0 to 3,600 seconds.
fn message_gap_arg<'a>(alloc: Global) -> Arg<'a>
    ensures rule { rule_of result ≡ Spec.message_gap_rule }
    ensures local { result.global ≡ false }
{
    option_arg(alloc, "message-gap", "SECONDS", help::MESSAGE_GAP).value_parser(
        ValueParser::unsigned(0, GREATEST_GAP),
    )
}

/// The message gap that `--message-gap` gives: half an hour where it isn't given, `Some(None)`
/// where it is 0, and `None` where its text is no number of 0 to 3,600.
fn read_message_gap(matches: &ArgMatches<'_>) -> Option<Option<Gap>>
    ensures { result ≡ Spec.chosen_message_gap (rows_of (found_of matches.now)) }
{
    match text_at(matches, "message-gap") {
        Some(text) => message_gap_in(text),
        None => Some(Gap::new(STANDARD_MESSAGE_GAP)),
    }
}

/// The message gap of as many seconds as the text says, which may begin with a plus sign. `None`
/// where it says no number of 0 to 3,600; the command has refused such a text before.
fn message_gap_in(text: &str) -> Option<Option<Gap>>
    ensures { result ≡ Spec.read_message_gap text.now }
{
    match text.parse::<u64>() {
        Ok(seconds) => message_gap_of(seconds),
        Err(_) => None,
    }
}

/// The message gap of so many seconds: `Some(None)` of 0, and `None` of more than 3,600.
fn message_gap_of(seconds: u64) -> Option<Option<Gap>>
    ensures { result ≡ Spec.message_gap_of seconds }
{
    if seconds == 0 {
        return Some(None);
    }
    match Gap::new(seconds) {
        Some(gap) => Some(Some(gap)),
        None => None,
    }
}

/// The table that INPUT names first among these matches, and the paths that it gives else, in the
/// order of the arguments and in memory of their own. Where it names none, the table is that of the
/// rows. `AllocError` where an allocation failed.
fn read_table_and_inputs(
    alloc: Global,
    matches: &ArgMatches<'_>,
) -> Result<(Table, Vec<String>), AllocError>
    ensures { IfOk result (λ asked. (asked.0, Spec.paths_of asked.1.items)
        ≡ Spec.table_and_paths (Spec.given_inputs (rows_of (found_of matches.now)))) }
{
    match matches.get_strs("input") {
        Some(values) => copy_asked(alloc, values),
        None => Ok((Table::Rows, Vec::new(alloc))),
    }
}

/// The table that these values of INPUT name first, or that of the rows where they name none, and
/// copies of the paths among them. `AllocError` where an allocation failed.
fn copy_asked(alloc: Global, values: &[&str]) -> Result<(Table, Vec<String>), AllocError>
    ensures { IfOk result (λ asked. (asked.0, Spec.paths_of asked.1.items)
        ≡ Spec.table_and_paths (map (λ value. value.now) values.now)) }
{
    let (table, paths) = split_table(values);
    let inputs = copy_paths(alloc, paths)?;
    Ok((table, inputs))
}

/// The table that the first value names, with the others, which are paths; where it names none, the
/// table of the rows, with all values.
fn split_table<'a, 'b>(values: &'a [&'b str]) -> (Table, &'a [&'b str])
    ensures { (result.0, map (λ value. value.now) result.1.now)
        ≡ Spec.table_and_paths (map (λ value. value.now) values.now) }
{
    let Some((first, others)) = values.split_first() else {
        return (Table::Rows, values);
    };
    match Table::named(first.as_bytes()) {
        Some(table) => (table, others),
        None => (Table::Rows, values),
    }
}
