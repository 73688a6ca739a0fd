//! The arguments of `aprsbook-fold`.
ghost use Rattle.std.specs.Prelude.{◌≡◌, ◌⊎◌, IfErr, IfNone, IfOk, IfSome, Some, map, false, true};
ghost use Rattle.clap.specs.Words.{app_of, first_of, found_of, is_simple_and_free, kind_of, rows_of, rule_of};
ghost use Rattle.clap.specs.declared.error.Error.{Error};
ghost use Rattle.clap.specs.declared.error.kind.ErrorKind.TheVariants.{ValueValidation};
ghost use Rattle.aprs_arguments.specs.Arguments.{chosen_gap, inputs_rule};
ghost use Rattle.aprs_arguments.specs.Fold as Spec;

use crate::arguments::{gap_arg, option_arg, read_given_inputs, read_matches_and_gap, text_at};
use crate::help;
use crate::jobs::JobFault;
use aprs_ax25::Callsign;
use aprs_transmissions::Gap;
use clap::error::ErrorKind;
use clap::{Arg, ArgAction, ArgMatches, Command};
use std::alloc::{AllocError, Global};

/// What the arguments of `aprsbook-fold` ask for: the fold of book files, with the paths of these;
/// without any, standard input is read.
#[derive(Drop)]
pub struct FoldJob {
    /// The gap of the book that is written, and of each book file.
    pub gap: Gap,
    /// The source to begin with: only its rows and those of sources after it are written. `None`
    /// where the rows are written from the first on.
    pub from: Option<Callsign>,
    /// The source to end before: neither its rows nor those of sources after it are written. `None`
    /// where the rows are written up to the last.
    pub until: Option<Callsign>,
    /// The path of the book file whose rows are known: only those are written that it lacks. `None`
    /// where all are.
    pub new_to: Option<String>,
    /// The paths, in the order of the arguments.
    pub inputs: Vec<String>,
    /// Whether the book files are only checked, and nothing is written.
    pub is_check: bool,
}

/// What the arguments of `aprsbook-fold` ask for, the program's name being the first. They are
/// `[--gap SECONDS] [--from SOURCE] [--until SOURCE] [--new-to OLD] [--check] [BOOK]...`. The job
/// has the gap, which is 30 seconds where it isn't given, both sources and the path of the old
/// book. It also has the inputs' paths in the order of the arguments, and says whether `--check` is
/// among these. SECONDS is 1 to 3,600, and SOURCE the text of a callsign; else it is a fault of
/// `JobFault::Clap`. Where the arguments ask for help or the version, its text is that of
/// `JobFault::Clap`. `JobFault::Memory` where an allocation failed. By `asked` the job is the one
/// that the definition of the command reads from the arguments. By `judged` clap's refusal is for a
/// fault that this definition finds in them, or for such a SOURCE.
pub fn fold_job(alloc: Global, arguments: &[&str]) -> Result<FoldJob, JobFault>
    ensures asked { Spec.AnswersFold (map (λ a. a.now) arguments.now) result }
    ensures judged { Spec.JudgesFold (map (λ a. a.now) arguments.now) result }
{
    let mut command = fold_command(alloc)?;
    let (matches, gap) = read_matches_and_gap(&mut command, arguments)?;
    read_fold(alloc, &mut command, &matches, gap)
}

/// The job that these matches ask for, of this gap. Where a source is no callsign, the fault of the
/// command for it; `Memory` where an allocation failed.
fn read_fold(
    alloc: Global,
    command: &mut Command<'_>,
    matches: &ArgMatches<'_>,
    gap: Gap,
) -> Result<FoldJob, JobFault>
    ensures job { IfOk result (λ j. chosen_gap (rows_of (found_of matches.now)) ≡ Some gap
        → Spec.IsFoldJobOf (rows_of (found_of matches.now)) j) }
    ensures refused { IfErr result (λ f. (f ≡ JobFault.Memory)
        ⊎ (Spec.HasBadSource (rows_of (found_of matches.now)) × ((error : Error)
        × (kind_of error ≡ ValueValidation) × (f ≡ JobFault.Clap error)))) }
{
    let Some(from) = read_source(matches, "from") else {
        return Err(source_fault(command, help::NO_FROM));
    };
    let Some(until) = read_source(matches, "until") else {
        return Err(source_fault(command, help::NO_UNTIL));
    };
    let new_to = read_path(alloc, matches, "new-to")?;
    let inputs = read_given_inputs(alloc, matches)?;
    Ok(FoldJob {
        gap,
        from,
        until,
        new_to,
        inputs,
        is_check: is_check_asked(matches),
    })
}

/// A law; the function does nothing. The command is simple, and no argument has a rule on another:
/// clap's definitions say what it finds in any arguments, and which faults.
pub fn fold_command_is_simple()
    ensures { is_simple_and_free Spec.fold_app ≡ true }
{}

/// Whether `--check` was given.
fn is_check_asked(matches: &ArgMatches<'_>) -> bool
    ensures { result ≡ Spec.is_check_asked (rows_of (found_of matches.now)) }
{
    match text_at(matches, "check") {
        Some(text) => text == "true",
        None => false,
    }
}

/// The source that the option of this name gives: `Some(None)` where it isn't given, and `None`
/// where its text is no callsign.
fn read_source(matches: &ArgMatches<'_>, name: &str) -> Option<Option<Callsign>>
    ensures read { IfSome result
        (Spec.IsSourceIn (first_of name.now (rows_of (found_of matches.now)))) }
    ensures refused { IfNone result
        (Spec.SpellsNone (first_of name.now (rows_of (found_of matches.now)))) }
{
    let Some(text) = text_at(matches, name) else {
        return Some(None);
    };
    match Callsign::parse(text.as_bytes()) {
        Ok(source) => Some(Some(source)),
        Err(_) => None,
    }
}

/// The path that the option of this name gives, in memory of its own, or `None` where it isn't
/// given. `AllocError` where an allocation failed.
fn read_path(
    alloc: Global,
    matches: &ArgMatches<'_>,
    name: &str,
) -> Result<Option<String>, AllocError>
    ensures { IfOk result (λ path. Spec.path_in path
        ≡ first_of name.now (rows_of (found_of matches.now))) }
{
    match text_at(matches, name) {
        Some(text) => Ok(Some(String::from_str(alloc, text)?)),
        None => Ok(None),
    }
}

/// The fault for a source that is no callsign, of which clap says this; or `Memory` where an
/// allocation failed.
fn source_fault(command: &mut Command<'_>, message: &str) -> JobFault
    ensures { (result ≡ JobFault.Memory) ⊎ ((error : Error)
        × (kind_of error ≡ ValueValidation) × (result ≡ JobFault.Clap error)) }
{
    match command.error(ErrorKind::ValueValidation, message) {
        Ok(error) => JobFault::Clap(error),
        Err(error) => JobFault::from(error),
    }
}

/// The command of `aprsbook-fold`, with its arguments. `AllocError` where an allocation failed.
fn fold_command<'a>(alloc: Global) -> Result<Command<'a>, AllocError>
    ensures { IfOk result (λ c. app_of c ≡ Spec.fold_app) }
{
    let inputs = books_arg(alloc);
    let with_inputs = Command::new(alloc, "aprsbook-fold")
        .version(help::VERSION)
        .about(help::FOLD)
        .after_long_help(help::FOLD_EXAMPLES)
        .arg(inputs)?;
    let gap = gap_arg(alloc);
    let with_gap = with_inputs.arg(gap)?;
    let from = option_arg(alloc, "from", "SOURCE", help::FOLD_FROM);
    let with_from = with_gap.arg(from)?;
    let until = option_arg(alloc, "until", "SOURCE", help::FOLD_UNTIL);
    let with_until = with_from.arg(until)?;
    let new_to = option_arg(alloc, "new-to", "OLD", help::FOLD_NEW_TO);
    let with_new_to = with_until.arg(new_to)?;
    let check = check_arg(alloc);
    with_new_to.arg(check)
}

/// Makes the option `--check`, which has no value.
fn check_arg<'a>(alloc: Global) -> Arg<'a>
    ensures rule { rule_of result ≡ Spec.check_rule }
    ensures local { result.global ≡ false }
{
    Arg::new(alloc, "check")
        .long("check")
        .action(ArgAction::SetTrue)
        .help(help::FOLD_CHECK)
}

/// Makes the argument BOOK, of which any number may be given.
fn books_arg<'a>(alloc: Global) -> Arg<'a>
    ensures rule { rule_of result ≡ inputs_rule }
    ensures local { result.global ≡ false }
{
    Arg::new(alloc, "input")
        .num_args(1..)
        .value_name("BOOK")
        .help(help::FOLDED)
}
