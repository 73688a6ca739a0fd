//! The runs, with what they write in memory.
//!
//! Words of the contracts here:
//! - `WritesOver Told`: the run over this input ended so, and wrote the text that `Told` says of
//!   it.
//! - `Merges`, `Shows`, `TellsHistory`, `TellsTable`, `Widens`: the run ended so. At `Ok` the text
//!   is the book, listing, history or table of the inputs' set, and at `Write` a prefix of it. At
//!   `Input` that input is refused, and there is no text. At `Memory` there is none either.
//! - `input_texts lengths inputs`: the inputs, which lie one after the other and have these
//!   lengths.
ghost use Rattle.std.specs.Prelude.{◌≡◌, []};
ghost use Rattle.aprs_convert.specs.Check.{Checks};
ghost use Rattle.aprs_convert.specs.Conversion.{Converts};
ghost use Rattle.aprs_web.specs.Runs.{Merges, Shows, TellsHistory, TellsTable, Widens, WritesOver, input_texts};

use crate::inputs::readers;
use aprs_arguments::Table;
use aprs_convert::Form;
use aprs_io::Counted;
use aprs_log::MAX_INPUT;
use aprs_runs::{
    RunFault, check_run, convert_run, history_run, merge_run, show_run, table_run, widen_run,
};
use aprs_transmissions::Gap;
use std::alloc::Allocator;

/// A check of a log, and what it wrote.
pub(crate) fn check<A: Allocator + Copy>(
    alloc: A,
    input: &[u8],
) -> (Result<(), RunFault>, Vec<u8, A>)
    ensures { WritesOver Checks input.now result.0 result.1.items }
{
    let mut r = Counted::new(input);
    let mut w = Counted::new(text_for(alloc, input));
    let outcome = check_run(alloc, MAX_INPUT, &mut r, &mut w);
    (outcome, w.into_inner())
}

/// A conversion of a log or a stream, and what it wrote.
pub(crate) fn convert<A: Allocator + Copy>(
    alloc: A,
    form: Form,
    input: &[u8],
) -> (Result<(), RunFault>, Vec<u8, A>)
    ensures { WritesOver (Converts form) input.now result.0 result.1.items }
{
    let mut r = Counted::new(input);
    let mut w = Counted::new(text_for(alloc, input));
    let outcome = convert_run(alloc, MAX_INPUT, form, &mut r, &mut w);
    (outcome, w.into_inner())
}

/// A merge of the inputs, and what it wrote.
pub(crate) fn merge<A: Allocator + Copy>(
    alloc: A,
    gap: Gap,
    inputs: &[u8],
    lengths: &[usize],
) -> (Result<(), RunFault>, Vec<u8, A>)
    ensures { Merges gap (input_texts lengths.now inputs.now) result.0 result.1.items }
{
    let mut w = Counted::new(text_for(alloc, inputs));
    let Ok(mut readers) = readers(alloc, inputs, lengths) else {
        return (Err(RunFault::Memory), w.into_inner());
    };
    let outcome = merge_run(alloc, MAX_INPUT, gap, readers.as_mut_slice(), &mut w);
    (outcome, w.into_inner())
}

/// A listing of the inputs, and what it wrote.
pub(crate) fn show<A: Allocator + Copy>(
    alloc: A,
    gap: Gap,
    inputs: &[u8],
    lengths: &[usize],
) -> (Result<(), RunFault>, Vec<u8, A>)
    ensures { Shows gap (input_texts lengths.now inputs.now) result.0 result.1.items }
{
    let mut w = Counted::new(Vec::new(alloc));
    let Ok(mut readers) = readers(alloc, inputs, lengths) else {
        return (Err(RunFault::Memory), w.into_inner());
    };
    let outcome = show_run(alloc, MAX_INPUT, gap, readers.as_mut_slice(), &mut w);
    (outcome, w.into_inner())
}

/// How the run of the inputs' history ended, and what it wrote.
pub(crate) fn history<A: Allocator + Copy>(
    alloc: A,
    gap: Gap,
    inputs: &[u8],
    lengths: &[usize],
) -> (Result<(), RunFault>, Vec<u8, A>)
    ensures { TellsHistory gap (input_texts lengths.now inputs.now) result.0 result.1.items }
{
    let mut w = Counted::new(text_for(alloc, inputs));
    let Ok(mut readers) = readers(alloc, inputs, lengths) else {
        return (Err(RunFault::Memory), w.into_inner());
    };
    let outcome = history_run(alloc, MAX_INPUT, gap, readers.as_mut_slice(), &mut w);
    (outcome, w.into_inner())
}

/// How the run of this table ended, and what it wrote.
pub(crate) fn tabulate<A: Allocator + Copy>(
    alloc: A,
    table: Table,
    gap: Gap,
    inputs: &[u8],
    lengths: &[usize],
) -> (Result<(), RunFault>, Vec<u8, A>)
    ensures { TellsTable table gap (input_texts lengths.now inputs.now) result.0 result.1.items }
{
    let mut w = Counted::new(text_for(alloc, inputs));
    let Ok(mut readers) = readers(alloc, inputs, lengths) else {
        return (Err(RunFault::Memory), w.into_inner());
    };
    let outcome = table_run(alloc, MAX_INPUT, table, gap, readers.as_mut_slice(), &mut w);
    (outcome, w.into_inner())
}

/// A widening of an input, and what it wrote.
pub(crate) fn widen<A: Allocator + Copy>(
    alloc: A,
    gap: Gap,
    input: &[u8],
) -> (Result<(), RunFault>, Vec<u8, A>)
    ensures { Widens gap input.now result.0 result.1.items }
{
    let mut r = Counted::new(input);
    let mut w = Counted::new(text_for(alloc, input));
    let outcome = widen_run(alloc, MAX_INPUT, gap, &mut r, &mut w);
    (outcome, w.into_inner())
}

/// A text that is to come of these inputs. It has room for twice as many bytes as they have, where
/// there is memory for that, so that it doesn't move up to there.
fn text_for<A: Allocator + Copy>(alloc: A, inputs: &[u8]) -> Vec<u8, A>
    ensures { result.items ≡ [] }
{
    match Vec::with_capacity(alloc, inputs.len().saturating_mul(2)) {
        Ok(text) => text,
        Err(_) => Vec::new(alloc),
    }
}
