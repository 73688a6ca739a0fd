//! What a host calls. Each function is given a region of memory for good. What a run writes goes
//! into `output`, and the name of an input's fault into `name`, each if it fits. An input of more
//! than 1,073,741,824 bytes is at fault. Where memory for the output is refused (status 3), a
//! prefix of the text is put there.
//!
//! Words of the contracts here:
//! - `TellsRun Does`: a run ended and wrote a text as `Does` says, and the answer, `output` and
//!   `name` tell just that. `TellsNoRun`: the answer is status 2, and both are as before.
//! - `WritesOver Told`: the run over this input ended so, and wrote the text that `Told` says of
//!   it.
//! - `Merges`, `Shows`, `TellsHistory`, `TellsTable`, `Widens`: the run over the inputs ended so,
//!   and wrote its text, a prefix of it where memory for it was refused, or nothing.
//! - `AskForSeveral`: the seconds are a gap, and the lengths add up to that of `inputs`.
ghost use Rattle.std.specs.Prelude.{◌≡◌, ℕ, None, Some, IfNone, IfSome};
ghost use Rattle.aprs_arguments.specs.Arguments.{named_table};
ghost use Rattle.aprs_arguments.specs.declared.jobs.Table.{Table};
ghost use Rattle.aprs_convert.specs.Check.{Checks};
ghost use Rattle.aprs_convert.specs.Conversion.{Converts};
ghost use Rattle.aprs_convert.specs.declared.form.Form.TheVariants as form;
ghost use Rattle.aprs_transmissions.specs.Gap.{IsGap};
ghost use Rattle.aprs_log.specs.MomentReading.{moment_of};
ghost use Rattle.aprs_log.specs.Receiver.{IsName};
ghost use Rattle.aprs_web.specs.Answer.{TellsNoRun, TellsRun};
ghost use Rattle.aprs_web.specs.Runs.{AskForSeveral, Merges, Shows, TellsHistory, TellsTable, Widens, WritesOver, input_texts};

use crate::answer::{Answer, answer_of, no_run};
use crate::inputs::add_up;
use crate::written::{check, convert, history, merge, show, tabulate, widen};
use aprs_arena::{Arena, Region};
use aprs_arguments::Table;
use aprs_convert::Form;
use aprs_log::{Moment, Receiver};
use aprs_transmissions::Gap;

/// Checks the log `input`: writes a line for each line in which no frame was heard, and the totals.
/// At a fault of the log what is reported of the lines before it is written, and no totals.
#[unsafe(no_mangle)]
pub extern "C" fn aprs_check(
    region: Region,
    input: &[u8],
    output: &mut [u8],
    name: &mut [u8],
) -> Answer
    ensures { TellsRun (WritesOver Checks input.now)
        result output.old output.new name.old name.new }
{
    let arena = Arena::over(region);
    let (outcome, text) = check(&arena, input);
    answer_of(&outcome, text.as_slice(), output, name)
}

/// Writes the log `input` as a monitor prints its frames. At a fault of the log all before it is
/// written.
#[unsafe(no_mangle)]
pub extern "C" fn aprs_text(
    region: Region,
    input: &[u8],
    output: &mut [u8],
    name: &mut [u8],
) -> Answer
    ensures { TellsRun (WritesOver (Converts form.Text) input.now)
        result output.old output.new name.old name.new }
{
    converted(region, Form::Text, input, output, name)
}

/// Writes the log `input` as a monitor prints its frames, each with its kind of report. At a fault
/// of the log all before it is written.
#[unsafe(no_mangle)]
pub extern "C" fn aprs_kind(
    region: Region,
    input: &[u8],
    output: &mut [u8],
    name: &mut [u8],
) -> Answer
    ensures { TellsRun (WritesOver (Converts form.Kind) input.now)
        result output.old output.new name.old name.new }
{
    converted(region, Form::Kind, input, output, name)
}

/// Writes the log `input` as a KISS stream of its frames. At a fault of the log all before it is
/// written.
#[unsafe(no_mangle)]
pub extern "C" fn aprs_kiss(
    region: Region,
    input: &[u8],
    output: &mut [u8],
    name: &mut [u8],
) -> Answer
    ensures { TellsRun (WritesOver (Converts form.Kiss) input.now)
        result output.old output.new name.old name.new }
{
    converted(region, Form::Kiss, input, output, name)
}

/// Writes the log `input` as a log again, in its one spelling. Lines that are passed over give
/// nothing. At a fault of the log all before it is written.
#[unsafe(no_mangle)]
pub extern "C" fn aprs_log(
    region: Region,
    input: &[u8],
    output: &mut [u8],
    name: &mut [u8],
) -> Answer
    ensures { TellsRun (WritesOver (Converts form.Log) input.now)
        result output.old output.new name.old name.new }
{
    converted(region, Form::Log, input, output, name)
}

/// Writes a log of the UI frames in the KISS stream `input`; any other frame gives nothing. It is
/// as if the receiver of the name `receiver` had heard each at `moment`, which is text. No run
/// where `receiver` is no name or `moment` is no moment. At a fault of the stream all before it is
/// written.
#[unsafe(no_mangle)]
pub extern "C" fn aprs_capture(
    region: Region,
    receiver: &[u8],
    moment: &[u8],
    input: &[u8],
    output: &mut [u8],
    name: &mut [u8],
) -> Answer
    ensures run { (m : ℕ) → IsName receiver.now → moment_of moment.now ≡ Some m
        → TellsRun (WritesOver (Converts (form.Capture receiver.now m)) input.now)
        result output.old output.new name.old name.new }
    ensures no_name { ¬ IsName receiver.now
        → TellsNoRun result output.old output.new name.old name.new }
    ensures no_moment { moment_of moment.now ≡ None
        → TellsNoRun result output.old output.new name.old name.new }
{
    let Some(receiver) = Receiver::parse(receiver) else {
        return no_run();
    };
    let Some(moment) = Moment::parse(moment) else {
        return no_run();
    };
    converted(
        region,
        Form::Capture { receiver, moment },
        input,
        output,
        name,
    )
}

/// A conversion of `input` to this form, as the host reads it.
fn converted(region: Region, form: Form, input: &[u8], output: &mut [u8], name: &mut [u8]) -> Answer
    ensures { TellsRun (WritesOver (Converts form) input.now)
        result output.old output.new name.old name.new }
{
    let arena = Arena::over(region);
    let (outcome, text) = convert(&arena, form, input);
    answer_of(&outcome, text.as_slice(), output, name)
}

/// Writes the book of several inputs, logs or books, under a gap of so many seconds. They lie one
/// after the other in `inputs` and have these lengths. No run where the seconds are no gap (1 to
/// 3,600), or the lengths don't add up to that of `inputs`. Where an input is refused, nothing is
/// written.
#[unsafe(no_mangle)]
pub extern "C" fn aprs_merge(
    region: Region,
    seconds: u64,
    inputs: &[u8],
    lengths: &[usize],
    output: &mut [u8],
    name: &mut [u8],
) -> Answer
    ensures run { AskForSeveral seconds lengths.now inputs.now
        → TellsRun (Merges seconds (input_texts lengths.now inputs.now))
        result output.old output.new name.old name.new }
    ensures no_run { ¬ AskForSeveral seconds lengths.now inputs.now
        → TellsNoRun result output.old output.new name.old name.new }
{
    let Some(gap) = gap_of(seconds, inputs, lengths) else {
        return no_run();
    };
    let arena = Arena::over(region);
    let (outcome, text) = merge(&arena, gap, inputs, lengths);
    answer_of(&outcome, text.as_slice(), output, name)
}

/// Writes the listing of several inputs, logs or books, under a gap of so many seconds. They lie
/// one after the other in `inputs` and have these lengths. No run where the seconds are no gap (1
/// to 3,600), or the lengths don't add up to that of `inputs`. Where an input is refused, nothing
/// is written.
#[unsafe(no_mangle)]
pub extern "C" fn aprs_show(
    region: Region,
    seconds: u64,
    inputs: &[u8],
    lengths: &[usize],
    output: &mut [u8],
    name: &mut [u8],
) -> Answer
    ensures run { AskForSeveral seconds lengths.now inputs.now
        → TellsRun (Shows seconds (input_texts lengths.now inputs.now))
        result output.old output.new name.old name.new }
    ensures no_run { ¬ AskForSeveral seconds lengths.now inputs.now
        → TellsNoRun result output.old output.new name.old name.new }
{
    let Some(gap) = gap_of(seconds, inputs, lengths) else {
        return no_run();
    };
    let arena = Arena::over(region);
    let (outcome, text) = show(&arena, gap, inputs, lengths);
    answer_of(&outcome, text.as_slice(), output, name)
}

/// Writes the history of the book of several inputs, logs or books, under a gap of so many seconds.
/// They lie one after the other in `inputs` and have these lengths. No run where the seconds are no
/// gap (1 to 3,600), or the lengths don't add up to that of `inputs`. Where an input is refused,
/// nothing is written.
#[unsafe(no_mangle)]
pub extern "C" fn aprs_history(
    region: Region,
    seconds: u64,
    inputs: &[u8],
    lengths: &[usize],
    output: &mut [u8],
    name: &mut [u8],
) -> Answer
    ensures run { AskForSeveral seconds lengths.now inputs.now
        → TellsRun (TellsHistory seconds (input_texts lengths.now inputs.now))
        result output.old output.new name.old name.new }
    ensures no_run { ¬ AskForSeveral seconds lengths.now inputs.now
        → TellsNoRun result output.old output.new name.old name.new }
{
    let Some(gap) = gap_of(seconds, inputs, lengths) else {
        return no_run();
    };
    let arena = Arena::over(region);
    let (outcome, text) = history(&arena, gap, inputs, lengths);
    answer_of(&outcome, text.as_slice(), output, name)
}

/// Writes a table of the book of several inputs, logs or books, under a gap of so many seconds.
/// `table` is the text that names it, such as `rows`. The inputs lie one after the other in
/// `inputs` and have these lengths. No run where the text names no table, the seconds are no gap (1
/// to 3,600), or the lengths don't add up to that of `inputs`. Where an input is refused, nothing
/// is written.
#[unsafe(no_mangle)]
pub extern "C" fn aprs_table(
    region: Region,
    seconds: u64,
    table: &[u8],
    inputs: &[u8],
    lengths: &[usize],
    output: &mut [u8],
    name: &mut [u8],
) -> Answer
    ensures run { (t : Table) → named_table table.now ≡ Some t
        → AskForSeveral seconds lengths.now inputs.now
        → TellsRun (TellsTable t seconds (input_texts lengths.now inputs.now))
        result output.old output.new name.old name.new }
    ensures no_table { named_table table.now ≡ None
        → TellsNoRun result output.old output.new name.old name.new }
    ensures no_run { ¬ AskForSeveral seconds lengths.now inputs.now
        → TellsNoRun result output.old output.new name.old name.new }
{
    let Some(table) = Table::named(table) else {
        return no_run();
    };
    let Some(gap) = gap_of(seconds, inputs, lengths) else {
        return no_run();
    };
    let arena = Arena::over(region);
    let (outcome, text) = tabulate(&arena, table, gap, inputs, lengths);
    answer_of(&outcome, text.as_slice(), output, name)
}

/// The gap of so many seconds, if the arguments ask for a run over several inputs.
fn gap_of(seconds: u64, inputs: &[u8], lengths: &[usize]) -> Option<Gap>
    ensures some { IfSome result (λ gap. (gap ≡ seconds)
        × AskForSeveral seconds lengths.now inputs.now) }
    ensures none { IfNone result (¬ AskForSeveral seconds lengths.now inputs.now) }
{
    let gap = Gap::new(seconds)?;
    if add_up(lengths, inputs.len()) {
        Some(gap)
    } else {
        None
    }
}

/// Writes the book of `input`, a log or a book, under a gap of so many seconds. A book of a greater
/// gap is refused. No run where the seconds are no gap (1 to 3,600). Where the input is refused,
/// nothing is written.
#[unsafe(no_mangle)]
pub extern "C" fn aprs_widen(
    region: Region,
    seconds: u64,
    input: &[u8],
    output: &mut [u8],
    name: &mut [u8],
) -> Answer
    ensures run { IsGap seconds → TellsRun (Widens seconds input.now)
        result output.old output.new name.old name.new }
    ensures no_run { ¬ IsGap seconds
        → TellsNoRun result output.old output.new name.old name.new }
{
    let arena = Arena::over(region);
    let Some(gap) = Gap::new(seconds) else {
        return no_run();
    };
    let (outcome, text) = widen(&arena, gap, input);
    answer_of(&outcome, text.as_slice(), output, name)
}
