//! What a program is to do, and which run does it.
ghost use Rattle.std.specs.Prelude.{◌≡◌, ◌≤◌, length};
ghost use Rattle.aprs_arguments.specs.Arguments.{inputs_of, paths_of};
ghost use Rattle.aprs_io.specs.Input.{most_input};
ghost use Rattle.aprs_runs.specs.Devices.{CallsOutput};
ghost use Rattle.aprs_runs.specs.Outcome.{IsToldOf, RefusesFor, WritesFor};
ghost use Rattle.aprs_runs.specs.Several.{GiveUnion, IsFirstRefused, OfEach};
ghost use Rattle.aprs_host.specs.Work as Spec;

use aprs_arguments::{Job, Table};
use aprs_convert::Form;
use aprs_io::Counted;
use aprs_log::MAX_INPUT;
use aprs_runs::{
    RunFault, check_run, convert_run, history_run, merge_run, show_run, table_run, widen_run,
};
use aprs_transmissions::Gap;
use std::alloc::Allocator;
use std::io::{Read, Write};

/// A run over one input.
#[derive(Drop)]
pub enum Single {
    /// Reports the input's lines that hold no frame, and how many lines do and don't hold one.
    Check,
    /// Writes the input in another form.
    Convert(Form),
    /// Writes the input's book under this gap.
    Widen(Gap),
}

/// A run over several inputs.
#[derive(Clone, Copy)]
pub enum Gathering {
    /// Writes the inputs' book.
    Merge,
    /// Writes the listing of the inputs' book.
    Show,
    /// Writes the history of the inputs' book.
    History,
    /// Writes this table of the inputs' book.
    Table(Table),
}

/// What a program is to do.
#[derive(Drop)]
pub enum Work {
    /// A run over one input.
    Of(Single),
    /// A run over several inputs, for a book of this gap.
    OfAll(Gathering, Gap),
}

/// The work of a job, and the paths of its inputs. Takes no memory.
pub fn work_of(job: Job) -> (Work, Vec<String>)
    ensures work { result.0 ≡ Spec.work_of job }
    ensures inputs { paths_of result.1.items ≡ inputs_of job }
{
    match job {
        Job::Check(inputs) => (Work::Of(Single::Check), inputs),
        Job::Convert(form, inputs) => (Work::Of(Single::Convert(form)), inputs),
        Job::Widen(gap, inputs) => (Work::Of(Single::Widen(gap)), inputs),
        Job::Merge(gap, inputs) => (Work::OfAll(Gathering::Merge, gap), inputs),
        Job::Show(gap, inputs) => (Work::OfAll(Gathering::Show, gap), inputs),
    }
}

/// Does the work over inputs, the first alone where it is a run over one, as `run_single` and
/// `run_gathering` say. Requires at least one input.
pub fn run_work<R: Read, W: Write, A: Allocator + Copy>(
    alloc: A,
    work: Work,
    inputs: &mut [Counted<R>],
    w: &mut Counted<W>,
) -> Result<(), RunFault>
    requires { 1 ≤ length inputs.now }
    ensures { Spec.DoesWork work most_input R.remaining W.contents result inputs.old inputs.new
        w.old w.new }
{
    match work {
        Work::Of(single) => run_single(alloc, single, &mut inputs[0], w),
        Work::OfAll(gathering, gap) => run_gathering(alloc, gathering, gap, inputs, w),
    }
}

/// Does the work over one input with the limit `MAX_INPUT` (1,073,741,824 bytes). One byte more may
/// be read to see whether the input is longer, which is a fault. `check_run`, `convert_run` and
/// `widen_run` of `aprs_runs` do it. `Does` says what these promise: what is written, which fault
/// the run ends with, and what the devices are asked.
pub fn run_single<R: Read, W: Write, A: Allocator + Copy>(
    alloc: A,
    single: Single,
    r: &mut Counted<R>,
    w: &mut Counted<W>,
) -> Result<(), RunFault>
    ensures { Spec.Does single most_input R.remaining W.contents result r.old r.new w.old w.new }
{
    match single {
        Single::Check => check_run(alloc, MAX_INPUT, r, w),
        Single::Convert(form) => convert_run(alloc, MAX_INPUT, form, r, w),
        Single::Widen(gap) => widen_run(alloc, MAX_INPUT, gap, r, w),
    }
}

/// Does the work over several inputs, each with the limit `MAX_INPUT` (1,073,741,824 bytes). One
/// byte more of an input may be read to see whether it is longer, which is a fault. `merge_run`,
/// `show_run`, `history_run` and `table_run` of `aprs_runs` do it, and say what memory it takes.
pub fn run_gathering<R: Read, W: Write, A: Allocator + Copy>(
    alloc: A,
    gathering: Gathering,
    gap: Gap,
    inputs: &mut [Counted<R>],
    w: &mut Counted<W>,
) -> Result<(), RunFault>
    // `gots` is what was got of each input. At `Ok` and `Write` they stand for sets; of any union
    // of these, what was written is the text that is asked for, whole at `Ok`, a prefix at `Write`.
    ensures writes { OfEach most_input R.remaining inputs.old inputs.new (λ gots.
        WritesFor (IsToldOf (GiveUnion gap gots) (Spec.IsOutputOf gathering gap)) W.contents result
        w.old w.new) }
    // At `Input` that input is the first that isn't taken, for this fault; at `Memory` all inputs
    // stand for sets. At both nothing was written.
    ensures refuses { OfEach most_input R.remaining inputs.old inputs.new (λ gots.
        RefusesFor (GiveUnion gap gots) (IsFirstRefused gap gots) result w.old w.new) }
    // No input is asked after its end or a fault, and none after the refused one. The output isn't
    // asked after a fault, nor at all where an input is refused or at `Memory`.
    ensures asks { Spec.AsksAll gathering result inputs.old inputs.new }
    ensures calls { CallsOutput result w.old w.new }
{
    match gathering {
        Gathering::Merge => merge_run(alloc, MAX_INPUT, gap, inputs, w),
        Gathering::Show => show_run(alloc, MAX_INPUT, gap, inputs, w),
        Gathering::History => history_run(alloc, MAX_INPUT, gap, inputs, w),
        Gathering::Table(table) => table_run(alloc, MAX_INPUT, table, gap, inputs, w),
    }
}
