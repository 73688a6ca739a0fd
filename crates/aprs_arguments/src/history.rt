//! The arguments of `aprsbook-history`.
ghost use Rattle.std.specs.Prelude.{◌≡◌, IfOk, map, true};
ghost use Rattle.clap.specs.Words.{app_of, is_simple_and_free};
ghost use Rattle.aprs_arguments.specs.Arguments as Spec;

use crate::arguments::{gap_arg, inputs_arg, read_given_inputs, read_matches_and_gap};
use crate::help;
use crate::jobs::{HistoryJob, JobFault};
use clap::Command;
use std::alloc::{AllocError, Global};

/// What the arguments of `aprsbook-history [--gap SECONDS] [INPUT]...` ask for, the program's name
/// being the first: the gap, which is 30 seconds where it is not given, and the inputs' paths in
/// the order of the arguments. SECONDS is 1 to 3,600, and else a fault of `JobFault::Clap`. Where
/// the arguments ask for help or the version, its text is that of `JobFault::Clap`.
/// `JobFault::Memory` where an allocation failed. By `asked` the job is the one that the definition
/// of the command reads from the arguments; by `judged` clap's refusal is for a fault that this
/// definition finds in them.
pub fn history_job(alloc: Global, arguments: &[&str]) -> Result<HistoryJob, JobFault>
    ensures asked { Spec.AnswersHistory (map (λ a. a.now) arguments.now) result }
    ensures judged { Spec.JudgesArguments Spec.history_app (map (λ a. a.now) arguments.now)
        result }
{
    let (matches, gap) = {
        let mut command = history_command(alloc)?;
        read_matches_and_gap(&mut command, arguments)?
    };
    let inputs = read_given_inputs(alloc, &matches)?;
    Ok(HistoryJob { gap, inputs })
}

/// A law; the function does nothing. The command is simple, and no argument has a rule on another:
/// clap's definitions say what it finds in any arguments, and which faults.
pub fn history_command_is_simple()
    ensures { is_simple_and_free Spec.history_app ≡ true }
{}

/// The command `aprsbook-history [--gap SECONDS] [INPUT]...`. `AllocError` where an allocation
/// failed.
fn history_command<'a>(alloc: Global) -> Result<Command<'a>, AllocError>
    ensures { IfOk result (λ c. app_of c ≡ Spec.history_app) }
{
    let inputs = inputs_arg(alloc);
    let with_inputs = Command::new(alloc, "aprsbook-history")
        .version(help::VERSION)
        .about(help::HISTORY)
        .after_long_help(help::HISTORY_EXAMPLES)
        .arg(inputs)?;
    let gap = gap_arg(alloc);
    with_inputs.arg(gap)
}
