//! The run that writes a listing, a history or a table of several inputs.
ghost use Rattle.std.specs.Prelude.{◌≤◌, ℕ, List};
ghost use Rattle.aprs_io.specs.Device.{Sends};
ghost use Rattle.aprs_io.specs.Input.{most_input};
ghost use Rattle.aprs_runs.specs.Devices.{AsksEach, CallsOutput};
ghost use Rattle.aprs_runs.specs.Extract.{IsExtractOf, IsSummarized};
ghost use Rattle.aprs_runs.specs.Outcome.{IsToldOf, RefusesFor, WritesFor};
ghost use Rattle.aprs_runs.specs.Several.{GiveUnion, IsFirstRefused, OfEach};

use crate::fault::RunFault;
use crate::gathered::answer_of;
use crate::merge::read_all;
use aprs_arguments::Table;
use aprs_io::{Counted, WriteFault};
use aprs_lists::{write_listing, write_messages, write_things};
use aprs_summary::Summary;
use aprs_transmissions::Gap;
use std::alloc::Allocator;
use std::io::{Read, Write};

/// What is written of a book other than its text.
#[derive(Clone, Copy)]
pub(crate) enum Extract {
    Listing,
    History,
    Table(Table),
}

/// What is written of a book from its summary.
#[derive(Clone, Copy)]
pub(crate) enum Summarized {
    Listing,
    Messages,
    Things,
}

/// Writes this of a book, from its summary. At a fault a prefix of it went out. Takes no memory.
pub(crate) fn write_summarized<W: Write, A: Allocator + Copy>(
    w: &mut Counted<W>,
    what: Summarized,
    summary: &Summary<'_, A>,
) -> Result<(), WriteFault>
    ensures { (text : List ℕ) × IsSummarized what summary.now text
        × Sends W.contents result w.old w.new text }
{
    match what {
        Summarized::Listing => write_listing(w, summary),
        Summarized::Messages => write_messages(w, summary),
        Summarized::Things => write_things(w, summary),
    }
}

/// Writes this extract of the book of this gap of all inputs' receptions. All inputs are read, in
/// order, before the first byte is written. Where one is refused, its number and fault are
/// reported, no further one is read, and nothing is written. At `Memory` an allocation failed for
/// the book or its lists, and nothing was written. At `Write` a prefix of the extract was written.
pub(crate) fn extract_run<R: Read, W: Write, A: Allocator + Copy>(
    alloc: A,
    limit: u64,
    extract: Extract,
    gap: Gap,
    inputs: &mut [Counted<R>],
    w: &mut Counted<W>,
) -> Result<(), RunFault>
    requires { limit ≤ most_input }
    // `gots` is what was got of each input. At `Ok` and `Write` they stand for sets; of any union
    // of these, what was written is the extract, whole at `Ok`, a prefix of it at `Write`.
    ensures writes { OfEach limit R.remaining inputs.old inputs.new (λ gots.
        WritesFor (IsToldOf (GiveUnion gap gots) (IsExtractOf extract gap)) W.contents result w.old
        w.new) }
    // At `Input` that input is the first that isn't taken, for this fault; at `Memory` all inputs
    // stand for sets. At both nothing was written.
    ensures refuses { OfEach limit R.remaining inputs.old inputs.new (λ gots.
        RefusesFor (GiveUnion gap gots) (IsFirstRefused gap gots) result w.old w.new) }
    // No input is asked after its end or a fault, and none after the refused one. The output isn't
    // asked after a fault, nor at all where an input is refused or at `Memory`.
    ensures asks { AsksEach result inputs.old inputs.new }
    ensures calls { CallsOutput result w.old w.new }
{
    let gathered = match read_all(alloc, limit, gap, inputs) {
        Ok(gathered) => gathered,
        Err((index, fault)) => return Err(RunFault::Input { index, fault }),
    };
    answer_of(gathered.extract(extract, w))
}
