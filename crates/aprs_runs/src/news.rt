//! What of a fold is new to the first of its inputs.
ghost use Rattle.std.specs.Prelude.{◌≡◌, ◌≤◌, IfErr, List, OnOk};
ghost use Rattle.aprs_io.specs.Device.{Sends};
ghost use Rattle.aprs_transmissions.specs.Row.{Row};
ghost use Rattle.aprs_bookfile.specs.RowReader.{most_stream};
ghost use Rattle.aprs_bookfile.specs.Text.{written_text};
ghost use Rattle.aprs_fold.specs.Inputs.{AreAsked, AreBooks};
ghost use Rattle.aprs_fold.specs.News.{news_of_sources};
ghost use Rattle.aprs_runs.specs.News as Spec;

use crate::fault::RunFault;
use crate::fold::run_fault_of;
use aprs_fold::{SourceRange, fold_news};
use aprs_io::Counted;
use aprs_transmissions::Gap;
use std::alloc::Allocator;
use std::io::{Read, Write};

/// Writes of the book that `fold_range_run` writes those rows that the first input hasn't as they
/// are: a whole book's text, with their number at its end. Whoever has taken the first input's book
/// and takes what was written has the book of all inputs. Each input is read once. Requires that
/// `limit` is at most 9,223,372,036,854,775,807.
pub fn news_run<R: Read, W: Write, A: Allocator + Copy>(
    alloc: A,
    limit: u64,
    gap: Gap,
    range: &SourceRange,
    inputs: &mut [Counted<R>],
    w: &mut Counted<W>,
) -> Result<(), RunFault>
    requires { limit ≤ most_stream }

    // At `Ok` each input is the whole text of a book of this gap. What was written is the text of
    // what is new to the first in the book of all.
    ensures news { OnOk result ((rows : List (List Row))
        × AreBooks R.remaining limit gap inputs.old inputs.new rows
        × Sends W.contents result w.old w.new
        (written_text (news_of_sources range.now gap rows))) }

    // At `Input` that input is refused for its fault. At any fault what was written is a part of a
    // book's text.
    ensures refuses { IfErr result (λ fault. Spec.EndsNewsEarly R.remaining W.contents limit gap
        fault inputs.old inputs.new w.old w.new) }

    // None is asked after its end or a fault.
    ensures asks { AreAsked R.remaining limit inputs.old inputs.new }
{
    match fold_news(alloc, limit, gap, range, inputs, w) {
        Ok(()) => Ok(()),
        Err(fault) => Err(run_fault_of(fault)),
    }
}
