//! The fold of several book files, and their check alone.
//!
//! Words of the contracts here:
//! - `gots` is what was got of each input (`OfEach`). `GiveUnion`: a union of sets that they stand
//!   for. `IsToldOf`: there is such a set, and of each one this is the text.
//! - `WritesFor`: that text went out, or a prefix of it at `Write`.
//! - `EndsEarly`: that input is refused for the fault, and a part of a book's text was written.
ghost use Rattle.std.specs.Prelude.{◌≡◌, ◌≢◌, ◌≤◌, IfErr, OnOk};
ghost use Rattle.aprs_bookfile.specs.RowReader.{most_stream};
ghost use Rattle.aprs_fold.specs.Inputs.{AreAsked, IsRefused};
ghost use Rattle.aprs_fold.specs.Range.{all_sources};
ghost use Rattle.aprs_runs.specs.Fold as Spec;
ghost use Rattle.aprs_runs.specs.Merge.{IsTextOfBook};
ghost use Rattle.aprs_runs.specs.Outcome.{IsToldOf, WritesFor};
ghost use Rattle.aprs_runs.specs.Several.{GiveUnion, OfEach};

use crate::fault::{InputFault, RunFault};
use aprs_fold::{FoldFault, SourceRange, check_books, fold_books};
use aprs_io::Counted;
use aprs_transmissions::Gap;
use std::alloc::Allocator;
use std::io::{Read, Write};

/// Writes the text of the book of this gap of all inputs' receptions, as `merge_run` does, where
/// each input is a book file of this gap, of at most `limit` bytes. The inputs are read side by
/// side, and the text is written as they are read. Memory is taken for each input (16 KiB, its
/// longest line twice and its longest row) and for one row more with its line, whatever the number
/// of rows. Requires that `limit` is at most 9,223,372,036,854,775,807. The header is sent before
/// an input is read. Where an input is refused, its number, from 0, and its fault are returned. At
/// that fault, and at `Memory`, the header and a part of the rows' lines were written, which is no
/// book's text. `Memory` comes as `FoldFault::Memory` says. At `Write` a prefix of a book's text
/// was written.
pub fn fold_run<R: Read, W: Write, A: Allocator + Copy>(
    alloc: A,
    limit: u64,
    gap: Gap,
    inputs: &mut [Counted<R>],
    w: &mut Counted<W>,
) -> Result<(), RunFault>
    requires { limit ≤ most_stream }

    // However it ends, so much was got of each input. At `Ok` each is a book file; of any union of
    // the sets that they stand for, what was written is the book's text.
    ensures writes { OfEach limit R.remaining inputs.old inputs.new (λ gots.
        OnOk result (Spec.AreBookFiles gap gots
        × WritesFor (IsToldOf (GiveUnion gap gots) (IsTextOfBook gap)) W.contents result
        w.old w.new)) }

    // At `Input` that input is refused for its fault. At any fault what was written is a part of a
    // book's text.
    ensures refuses { IfErr result (λ fault. Spec.EndsEarly R.remaining W.contents limit gap
        all_sources fault inputs.old inputs.new w.old w.new) }

    // No input is asked after its end or a fault.
    ensures asks { AreAsked R.remaining limit inputs.old inputs.new }
{
    fold_range_run(alloc, limit, gap, &SourceRange::all(), inputs, w)
}

/// Writes of the book that `fold_run` writes the rows whose sources are within the range: a whole
/// book's text, with their number at its end. The inputs are read to their ends and refused as
/// `fold_run` does it. Requires that `limit` is at most 9,223,372,036,854,775,807.
pub fn fold_range_run<R: Read, W: Write, A: Allocator + Copy>(
    alloc: A,
    limit: u64,
    gap: Gap,
    range: &SourceRange,
    inputs: &mut [Counted<R>],
    w: &mut Counted<W>,
) -> Result<(), RunFault>
    requires { limit ≤ most_stream }

    // However it ends, so much was got of each input. At `Ok` each is a book file; of any union of
    // the sets that they stand for, what was written is the text of the range's rows of its book.
    ensures writes { OfEach limit R.remaining inputs.old inputs.new (λ gots.
        OnOk result (Spec.AreBookFiles gap gots
        × WritesFor (IsToldOf (GiveUnion gap gots) (Spec.IsTextOfSources range.now gap))
        W.contents result w.old w.new)) }

    // At `Input` that input is refused for its fault. At any fault what was written is a part of a
    // book's text.
    ensures refuses { IfErr result (λ fault. Spec.EndsEarly R.remaining W.contents limit gap
        range.now fault inputs.old inputs.new w.old w.new) }

    // No input is asked after its end or a fault.
    ensures asks { AreAsked R.remaining limit inputs.old inputs.new }
{
    match fold_books(alloc, limit, gap, range, inputs, w) {
        Ok(()) => Ok(()),
        Err(fault) => Err(run_fault_of(fault)),
    }
}

/// Reads the inputs to their ends, and refuses them as `fold_range_run` does, but writes nothing.
/// Memory is taken for each input (16 KiB, its longest line and its longest row); no rows are
/// joined. Requires that `limit` is at most 9,223,372,036,854,775,807.
pub fn check_books_run<R: Read, A: Allocator + Copy>(
    alloc: A,
    limit: u64,
    gap: Gap,
    inputs: &mut [Counted<R>],
) -> Result<(), RunFault>
    requires { limit ≤ most_stream }

    // However it ends, so much was got of each input. At `Ok` each is a book file.
    ensures checks { OfEach limit R.remaining inputs.old inputs.new (λ gots.
        OnOk result (Spec.AreBookFiles gap gots)) }

    // At `Input` that input is refused for its fault. No output was there to be refused.
    ensures refuses { IfErr result (λ fault. (own : FoldFault) × (fault ≡ Spec.run_fault_of own)
        × IsRefused R.remaining limit gap own inputs.old inputs.new) }
    ensures unwritten { IfErr result (λ fault. fault ≢ RunFault.Write) }

    // No input is asked after its end or a fault.
    ensures asks { AreAsked R.remaining limit inputs.old inputs.new }
{
    match check_books(alloc, limit, gap, inputs) {
        Ok(()) => Ok(()),
        Err(fault) => Err(run_fault_of(fault)),
    }
}

/// The fault of a run whose fold ended early so.
pub(crate) fn run_fault_of(fault: FoldFault) -> RunFault
    ensures { result ≡ Spec.run_fault_of fault }
{
    match fault {
        FoldFault::Input { index, fault } => RunFault::Input {
            index,
            fault: InputFault::Book(fault),
        },
        FoldFault::OtherGap { index } => RunFault::Input {
            index,
            fault: InputFault::OtherGap,
        },
        FoldFault::Memory => RunFault::Memory,
        FoldFault::Write => RunFault::Write,
    }
}
