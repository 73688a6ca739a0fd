//! The arguments of the command line.
ghost use Rattle.std.specs.Prelude.{◌≡◌, ◌≢◌, ◌⊎◌, option_map, IfErr, IfOk, Ok, Some, map, true, false};
ghost use Rattle.clap.specs.Words.{app_of, first_of, found_of, is_simple, is_simple_and_free, kind_of, matches_of, rows_of, rule_of, subcommand_rows_of, with_subcommand};
ghost use Rattle.clap.specs.declared.error.kind.ErrorKind.TheVariants.{OutOfMemory};
ghost use Rattle.clap.specs.declared.builder.command.Command.TheViews.{out-Command};
ghost use Rattle.clap.specs.declared.builder.value_parser.ValueParser.{ValueParser};
ghost use Rattle.aprs_arguments.specs.Arguments as Spec;
ghost use Rattle.aprs_log.specs.MomentReading.{moment_of};

use crate::help;
use crate::jobs::{Job, JobFault};
use aprs_convert::Form;
use aprs_log::{Moment, Receiver};
use aprs_transmissions::Gap;
use clap::builder::{PossibleValue, ValueParser};
use clap::error::ErrorKind;
use clap::{Arg, ArgMatches, Command};
use std::alloc::{AllocError, Global};

/// The greatest gap, in seconds.
pub(crate) const GREATEST_GAP: u64 = 3600;

/// What is asked for, without the inputs.
#[derive(Drop)]
enum Task {
    Check,
    Convert(Form),
    Merge(Gap),
    Show(Gap),
    Widen(Gap),
}

/// What the program's arguments ask for, its name being the first: a command of `check [INPUT]`,
/// `convert FORM [INPUT]`, `merge [INPUT]...`, `show [INPUT]...` and `widen SECONDS [INPUT]`, and
/// `convert text` where no command is given. `convert capture` needs `--receiver NAME` and
/// `--moment MOMENT`, and the other forms refuse both: else it is `JobFault::Options`. `merge`
/// and `show` have `--gap SECONDS`, which is 30 where it is not given. SECONDS is 1 to 3,600, and
/// else a fault of `JobFault::Clap`. The inputs' paths are given in the order of the arguments.
/// Where these ask for help or the version, its text is that of `JobFault::Clap`.
/// `JobFault::Memory` where an allocation failed. By `asked` the job is the one that the
/// definition of the command reads from the arguments; by `judged` clap's refusal is for a fault
/// that this definition finds in them. There `p` is a parser that takes the names of the forms
/// and nothing else.
pub fn job(alloc: Global, arguments: &[&str]) -> Result<Job, JobFault>
    ensures asked { (p : ValueParser) × Spec.IsForms p
        × Spec.AnswersArguments (Spec.program_app p) (map (λ a. a.now) arguments.now) result }
    ensures judged { (p : ValueParser) × Spec.IsForms p
        × Spec.JudgesArguments (Spec.program_app p) (map (λ a. a.now) arguments.now) result }
{
    let forms = form_values();
    let command = program(alloc, forms.as_slice())?;
    let matches = match command.try_get_matches_from(arguments) {
        Ok(matches) => matches,
        Err(error) => return Err(clap_fault(error)),
    };
    let Some(task) = read_task(&matches) else {
        return Err(JobFault::Options);
    };
    let inputs = read_inputs(alloc, &matches)?;
    Ok(with_inputs(task, inputs))
}

/// A law; the function does nothing. The program's command is simple: clap's definitions say what
/// it finds in any arguments. It is free too where FORM takes the names of the forms: no argument
/// has a rule on another, so that these definitions also say which faults it finds.
pub fn command_is_simple()
    ensures simple { (p : ValueParser) → is_simple (Spec.program_app p) ≡ true }
    ensures free { (p : ValueParser) → Spec.IsForms p
        → is_simple_and_free (Spec.program_app p) ≡ true }
{}

/// The values that FORM may have: the name of each form, with its help.
fn form_values<'a>() -> [PossibleValue<'a>; 5]
    ensures { Spec.AreForms result }
{
    [
        PossibleValue::new("text").help(help::TEXT),
        PossibleValue::new("kind").help(help::KIND),
        PossibleValue::new("kiss").help(help::KISS),
        PossibleValue::new("log").help(help::LOG),
        PossibleValue::new("capture").help(help::CAPTURE),
    ]
}

/// The argument FORM, which has to be given and takes these names of forms and nothing else.
fn form_arg<'a>(alloc: Global, forms: &'a [PossibleValue<'a>]) -> Arg<'a>
    requires { Spec.AreForms forms.now }
    ensures rule { (p : ValueParser) × Spec.IsForms p × (rule_of result ≡ Spec.form_rule p) }
    ensures local { result.global ≡ false }
{
    required_arg(alloc, "form", "FORM", help::FORM).value_parser(forms)
}

/// An argument that has to be given. `value_name` stands for its value in the help. By the clause
/// `local` it is one of its own command alone.
fn required_arg<'a>(
    alloc: Global,
    name: &'static str,
    value_name: &'static str,
    help: &'static str,
) -> Arg<'a>
    ensures rule { rule_of result ≡ Spec.required_rule name.entry.now }
    ensures local { result.global ≡ false }
{
    Arg::new(alloc, name)
        .required(true)
        .value_name(value_name)
        .help(help)
}

/// The option `--name` with one value, for which `value_name` stands in the help. By the clause
/// `local` it is one of its own command alone.
pub(crate) fn option_arg<'a>(
    alloc: Global,
    name: &'static str,
    value_name: &'static str,
    help: &'static str,
) -> Arg<'a>
    ensures rule { rule_of result ≡ Spec.option_rule name.entry.now }
    ensures local { result.global ≡ false }
{
    Arg::new(alloc, name)
        .long(name)
        .value_name(value_name)
        .help(help)
}

/// What the text of a gap may be: a number of seconds, 1 to 3,600, with a plus sign before it or
/// none.
fn gap_parser<'a>() -> ValueParser<'a>
    ensures { result ≡ Spec.gap_parser }
{
    ValueParser::unsigned(1, GREATEST_GAP)
}

/// The option `--gap SECONDS`, with 1 to 3,600 seconds.
pub(crate) fn gap_arg<'a>(alloc: Global) -> Arg<'a>
    ensures rule { rule_of result ≡ Spec.gap_rule }
    ensures local { result.global ≡ false }
{
    option_arg(alloc, "gap", "SECONDS", help::GAP).value_parser(gap_parser())
}

/// The argument SECONDS, which has to be given: 1 to 3,600 seconds.
fn seconds_arg<'a>(alloc: Global) -> Arg<'a>
    ensures rule { rule_of result ≡ Spec.seconds_rule }
    ensures local { result.global ≡ false }
{
    required_arg(alloc, "seconds", "SECONDS", help::SECONDS).value_parser(gap_parser())
}

/// The argument INPUT of a command that takes one input or none.
fn input_arg<'a>(alloc: Global, help: &'static str) -> Arg<'a>
    ensures rule { rule_of result ≡ Spec.input_rule }
    ensures local { result.global ≡ false }
{
    Arg::new(alloc, "input").value_name("INPUT").help(help)
}

/// The argument INPUT of a command that takes any number of inputs, also none.
pub(crate) fn inputs_arg<'a>(alloc: Global) -> Arg<'a>
    ensures rule { rule_of result ≡ Spec.inputs_rule }
    ensures local { result.global ≡ false }
{
    Arg::new(alloc, "input")
        .num_args(1..)
        .value_name("INPUT")
        .help(help::GATHERED)
}

/// The command `convert FORM [INPUT]` with the options `--receiver NAME` and `--moment MOMENT`,
/// where FORM takes the names `forms`. `AllocError` where an allocation failed. By the clause
/// `globals` no argument of it is taken over by other commands.
fn convert_command<'a>(
    alloc: Global,
    forms: &'a [PossibleValue<'a>],
) -> Result<Command<'a>, AllocError>
    requires { Spec.AreForms forms.now }
    ensures app { IfOk result (λ c. (p : ValueParser) × Spec.IsForms p
        × (app_of c ≡ Spec.convert_app p)) }
    ensures globals { IfOk result (λ c. (out-Command c).has_globals ≡ false) }
{
    let form = form_arg(alloc, forms);
    let with_form = Command::new(alloc, "convert")
        .about(help::CONVERT)
        .arg(form)?;
    let input = input_arg(alloc, help::CONVERTED);
    let with_input = with_form.arg(input)?;
    let receiver = option_arg(alloc, "receiver", "NAME", help::RECEIVER);
    let with_receiver = with_input.arg(receiver)?;
    let moment = option_arg(alloc, "moment", "MOMENT", help::MOMENT);
    with_receiver.arg(moment)
}

/// The command `check [INPUT]`. `AllocError` where an allocation failed. By the clause `globals`
/// none of its arguments is global, so no other command takes it too.
fn check_command<'a>(alloc: Global) -> Result<Command<'a>, AllocError>
    ensures app { IfOk result (λ c. app_of c ≡ Spec.check_app) }
    ensures globals { IfOk result (λ c. (out-Command c).has_globals ≡ false) }
{
    let input = input_arg(alloc, help::CHECKED);
    Command::new(alloc, "check").about(help::CHECK).arg(input)
}

/// A command that gathers inputs under a gap, `merge` or `show`: `[--gap SECONDS] [INPUT]...`,
/// with `about` as its help. `AllocError` where an allocation failed. By the clause `globals` no
/// argument of it is taken over by other commands.
fn gathering_command<'a>(
    alloc: Global,
    name: &'static str,
    about: &'static str,
) -> Result<Command<'a>, AllocError>
    ensures app { IfOk result (λ c. app_of c ≡ Spec.gathering_app name.entry.now) }
    ensures globals { IfOk result (λ c. (out-Command c).has_globals ≡ false) }
{
    let inputs = inputs_arg(alloc);
    let with_inputs = Command::new(alloc, name).about(about).arg(inputs)?;
    let gap = gap_arg(alloc);
    with_inputs.arg(gap)
}

/// The command `widen SECONDS [INPUT]`. `AllocError` where an allocation failed. By the clause
/// `globals` no argument of it is taken over by other commands.
fn widen_command<'a>(alloc: Global) -> Result<Command<'a>, AllocError>
    ensures app { IfOk result (λ c. app_of c ≡ Spec.widen_app) }
    ensures globals { IfOk result (λ c. (out-Command c).has_globals ≡ false) }
{
    let seconds = seconds_arg(alloc);
    let with_seconds = Command::new(alloc, "widen")
        .about(help::WIDEN)
        .arg(seconds)?;
    let input = input_arg(alloc, help::WIDENED);
    with_seconds.arg(input)
}

/// The program's command, before `convert` and the other commands are added to it.
fn top_command<'a>(alloc: Global) -> Command<'a>
    ensures { app_of result ≡ Spec.program_top }
{
    Command::new(alloc, "aprsbook")
        .version(help::VERSION)
        .about(help::ABOUT)
        .after_help(help::NO_COMMAND)
        .after_long_help(help::EXAMPLES)
}

/// The program's command with this command added, once that is made. `AllocError` where an
/// allocation failed, in one or the other.
fn with_command<'a>(
    program: Command<'a>,
    made: Result<Command<'a>, AllocError>,
) -> Result<Command<'a>, AllocError>
    requires { IfOk made (λ c. (out-Command c).has_globals ≡ false) }
    ensures { IfOk result (λ c. (added : Command) × (made.entry ≡ Ok added)
        × (app_of c ≡ with_subcommand (app_of program.entry) (app_of added).top)) }
{
    program.subcommand(made?)
}

/// The program's command with all its commands, where FORM of `convert` takes the names `forms`.
/// `AllocError` where an allocation failed. Each command is added before the next is made, since
/// each that is held would have to be given back where memory is refused.
fn program<'a>(alloc: Global, forms: &'a [PossibleValue<'a>]) -> Result<Command<'a>, AllocError>
    requires { Spec.AreForms forms.now }
    ensures { IfOk result (λ c. (p : ValueParser) × Spec.IsForms p
        × (app_of c ≡ Spec.program_app p)) }
{
    let convert = convert_command(alloc, forms);
    let with_convert = with_command(top_command(alloc), convert)?;
    let check = check_command(alloc);
    let with_check = with_command(with_convert, check)?;
    let merge = gathering_command(alloc, "merge", help::MERGE);
    let with_merge = with_command(with_check, merge)?;
    let show = gathering_command(alloc, "show", help::SHOW);
    let with_show = with_command(with_merge, show)?;
    let widen = widen_command(alloc);
    with_command(with_show, widen)
}

/// The fault for an error of clap: `Memory` where an allocation failed, and else this error.
pub(crate) fn clap_fault(error: clap::Error) -> JobFault
    ensures { ((kind_of error ≡ OutOfMemory) × (result ≡ JobFault.Memory))
        ⊎ ((kind_of error ≢ OutOfMemory) × (result ≡ JobFault.Clap error)) }
{
    match error.kind() {
        ErrorKind::OutOfMemory => JobFault::Memory,
        _ => JobFault::Clap(error),
    }
}

/// What clap finds in the arguments of a program that gathers inputs, and the gap that they choose:
/// 30 seconds where they give none. Fails where the command doesn't take the arguments, or where an
/// allocation failed. (An unreadable gap would be `Options`, but clap has refused it before.)
pub(crate) fn read_matches_and_gap<'a>(
    command: &mut Command<'a>,
    arguments: &'a [&'a str],
) -> Result<(ArgMatches<'a>, Gap), JobFault>
    requires { is_simple_and_free (app_of command.old) ≡ true }
    ensures matches { IfOk result (λ found. rows_of (found_of found.0)
        ≡ matches_of (app_of command.old) (map (λ a. a.now) arguments.entry.now)) }
    ensures gap { IfOk result (λ found. Spec.chosen_gap
        (matches_of (app_of command.old) (map (λ a. a.now) arguments.entry.now)) ≡ Some found.1) }
    ensures refused { IfErr result
        (Spec.FailsGathering (app_of command.old) (map (λ a. a.now) arguments.entry.now)) }
    ensures judged { Spec.JudgesArguments (app_of command.old)
        (map (λ a. a.now) arguments.entry.now) result }
{
    let matches = match command.try_get_matches_from_mut(arguments) {
        Ok(matches) => matches,
        Err(error) => return Err(clap_fault(error)),
    };
    match read_chosen_gap(&matches) {
        Some(gap) => Ok((matches, gap)),
        None => Err(JobFault::Options),
    }
}

/// The first value of the argument of this name, or `None` where it was not given. A flag has the
/// value `false` then.
pub(crate) fn text_at<'a>(matches: &ArgMatches<'a>, id: &str) -> Option<&'a str>
    ensures { option_map (λ s. s.now) result ≡ first_of id.now (rows_of (found_of matches.now)) }
{
    matches.get_str(id)
}

/// The task that the arguments ask for, which is `convert text` without a command. `None` where
/// the options of `capture` are missing, unreadable or given to another form. (An unreadable gap
/// would be `None` too, but clap has refused it before.)
fn read_task(matches: &ArgMatches<'_>) -> Option<Task>
    ensures { result ≡ Spec.task_of (subcommand_rows_of matches.now) }
{
    match matches.subcommand() {
        None => Some(Task::Convert(Form::Text)),
        Some((name, inner)) => read_named(name, inner),
    }
}

/// The task of the command of this name, with what its arguments say. Any name but `convert`,
/// `merge`, `show` and `widen` is taken as `check`. `None` where the form or the gap can't be
/// read.
fn read_named(name: &str, matches: &ArgMatches<'_>) -> Option<Task>
    ensures { result ≡ Spec.task_by_name name.now (rows_of (found_of matches.now)) }
{
    if name == "convert" {
        Some(Task::Convert(read_form(matches)?))
    } else if name == "merge" {
        Some(Task::Merge(read_chosen_gap(matches)?))
    } else if name == "show" {
        Some(Task::Show(read_chosen_gap(matches)?))
    } else if name == "widen" {
        Some(Task::Widen(read_widened_gap(matches)?))
    } else {
        Some(Task::Check)
    }
}

/// The gap that `--gap` gives to `merge` or `show`: 30 seconds where it isn't given, and `None`
/// where its text is no number of 1 to 3,600.
pub(crate) fn read_chosen_gap(matches: &ArgMatches<'_>) -> Option<Gap>
    ensures { result ≡ Spec.chosen_gap (rows_of (found_of matches.now)) }
{
    match text_at(matches, "gap") {
        Some(text) => read_gap(text),
        None => Some(Gap::STANDARD),
    }
}

/// The gap that SECONDS gives to `widen`, or `None` where it isn't given or its text is no number
/// of 1 to 3,600.
fn read_widened_gap(matches: &ArgMatches<'_>) -> Option<Gap>
    ensures { result ≡ Spec.widened_gap (rows_of (found_of matches.now)) }
{
    read_gap(text_at(matches, "seconds")?)
}

/// The gap of as many seconds as the text says, which may begin with a plus sign. `None` where it
/// says no number of 1 to 3,600; the command has refused such a text before.
fn read_gap(text: &str) -> Option<Gap>
    ensures { result ≡ Spec.read_gap text.now }
{
    match text.parse::<u64>() {
        Ok(seconds) => Gap::new(seconds),
        Err(_) => None,
    }
}

/// The form that FORM, `--receiver` and `--moment` ask for, or `None` where FORM isn't given or
/// these two options don't fit it.
fn read_form(matches: &ArgMatches<'_>) -> Option<Form>
    ensures { result ≡ Spec.asked_form (rows_of (found_of matches.now)) }
{
    let name = text_at(matches, "form")?;
    named_form(
        name,
        text_at(matches, "receiver"),
        text_at(matches, "moment"),
    )
}

/// The form of this name with these options, or `None` where they don't fit: `text`, `kind`, `kiss`
/// and `log` have neither. Any other name is taken as `capture`, which needs both: the command
/// takes no other.
fn named_form(name: &str, receiver: Option<&str>, moment: Option<&str>) -> Option<Form>
    ensures { result ≡ Spec.named_form_of name.now (option_map (λ s. s.now) receiver.entry)
        (option_map (λ s. s.now) moment.entry) }
{
    if name == "text" {
        plain_form(Form::Text, receiver, moment)
    } else if name == "kind" {
        plain_form(Form::Kind, receiver, moment)
    } else if name == "kiss" {
        plain_form(Form::Kiss, receiver, moment)
    } else if name == "log" {
        plain_form(Form::Log, receiver, moment)
    } else {
        capture_form(receiver, moment)
    }
}

/// The form, which takes neither option: `None` where either is given.
fn plain_form(form: Form, receiver: Option<&str>, moment: Option<&str>) -> Option<Form>
    ensures { result ≡ Spec.plain_form_of form (option_map (λ s. s.now) receiver.entry)
        (option_map (λ s. s.now) moment.entry) }
{
    match (receiver, moment) {
        (None, None) => Some(form),
        _ => None,
    }
}

/// A capture by this receiver at this moment, or `None` where an option is missing, or its text is
/// no receiver's name or no moment.
fn capture_form(receiver: Option<&str>, moment: Option<&str>) -> Option<Form>
    ensures { result ≡ Spec.capture_form_of (option_map (λ s. s.now) receiver.entry)
        (option_map (λ s. s.now) moment.entry) }
{
    let receiver = read_receiver(receiver?)?;
    let moment = read_moment(moment?)?;
    Some(Form::Capture { receiver, moment })
}

/// The receiver of this name, or `None` where the text is no receiver's name.
fn read_receiver(text: &str) -> Option<Receiver>
    ensures { result ≡ Spec.receiver_of text.now }
{
    Receiver::parse(text.as_bytes())
}

/// The moment that the text says, or `None` where it is no text of a moment.
fn read_moment(text: &str) -> Option<Moment>
    ensures { result ≡ moment_of text.now }
{
    Moment::parse(text.as_bytes())
}

/// The paths of the inputs, in the order of the arguments and in memory of their own. There are
/// none where no command or no input is given. `AllocError` where an allocation failed.
fn read_inputs(alloc: Global, matches: &ArgMatches<'_>) -> Result<Vec<String>, AllocError>
    ensures { IfOk result (λ v. Spec.paths_of v.items
        ≡ Spec.inputs_in (subcommand_rows_of matches.now)) }
{
    match matches.subcommand() {
        Some((_, inner)) => read_given_inputs(alloc, inner),
        None => Ok(Vec::new(alloc)),
    }
}

/// The paths that INPUT gives among these matches, in the order of the arguments and in memory of
/// their own. `AllocError` where an allocation failed.
pub(crate) fn read_given_inputs(
    alloc: Global,
    matches: &ArgMatches<'_>,
) -> Result<Vec<String>, AllocError>
    ensures { IfOk result (λ v. Spec.paths_of v.items
        ≡ Spec.given_inputs (rows_of (found_of matches.now))) }
{
    match matches.get_strs("input") {
        Some(paths) => copy_paths(alloc, paths),
        None => Ok(Vec::new(alloc)),
    }
}

/// Copies of the texts, in their order and in memory of their own. `AllocError` where an
/// allocation failed.
pub(crate) fn copy_paths(alloc: Global, paths: &[&str]) -> Result<Vec<String>, AllocError>
    ensures { IfOk result (λ v. Spec.paths_of v.items ≡ map (λ path. path.now) paths.now) }
{
    let mut inputs = Vec::new(alloc);
    for path in paths {
        inputs.push(String::from_str(alloc, path)?)?;
    }
    Ok(inputs)
}

/// The job of this task, with these inputs.
fn with_inputs(task: Task, inputs: Vec<String>) -> Job
    ensures task { Spec.job_task result ≡ task }
    ensures inputs { Spec.inputs_of result ≡ Spec.paths_of inputs.items }
{
    match task {
        Task::Check => Job::Check(inputs),
        Task::Convert(form) => Job::Convert(form, inputs),
        Task::Merge(gap) => Job::Merge(gap, inputs),
        Task::Show(gap) => Job::Show(gap, inputs),
        Task::Widen(gap) => Job::Widen(gap, inputs),
    }
}
