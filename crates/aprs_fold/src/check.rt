//! Whether several inputs are books that can be folded.
//!
//! Words of the contracts here:
//! - `AreBooks`: each input was read to its end, and is the whole text of a book of this gap. These
//!   are the books' rows.
//! - `IsRefused`: the input that the fault names has it as a book file, as far as it was read.
//! - `AreAsked`: of each input at most `limit` bytes were got, and it wasn't asked after its end.
ghost use Rattle.std.specs.Prelude.{◌≡◌, ◌≢◌, ◌≤◌, IfErr, List, OnOk};
ghost use Rattle.aprs_transmissions.specs.Row.{Row};
ghost use Rattle.aprs_bookfile.specs.RowReader.{most_stream};
ghost use Rattle.aprs_fold.specs.Inputs.{AreAsked, AreBooks, IsRefused};

use crate::fault::FoldFault;
use crate::opening::{advance, open_all};
use aprs_io::Counted;
use aprs_rows::Tournament;
use aprs_transmissions::Gap;
use std::alloc::Allocator;
use std::io::Read;

/// Reads the inputs to their ends, side by side as `fold_books` does, and judges each as the whole
/// text of a book of this gap, of at most `limit` bytes. It joins no rows, and nothing is written:
/// so it ends as `fold_books` does, but never with `Write`, and with `Memory` only where a growth
/// for an input was refused. Memory is taken for each input (16 KiB, its longest line three times
/// and its longest row twice). Requires a limit of at most `MAX_BOOK`.
pub fn check_books<R: Read, A: Allocator + Copy>(
    alloc: A,
    limit: u64,
    gap: Gap,
    inputs: &mut [Counted<R>],
) -> Result<(), FoldFault>
    requires { limit ≤ most_stream }

    // At `Ok` each input is the whole text of a book of this gap.
    ensures books { OnOk result ((rows : List (List Row))
        × AreBooks R.remaining limit gap inputs.old inputs.new rows) }

    // At a fault of an input, that input has it. No output was there to be refused.
    ensures refuses { IfErr result (λ fault.
        IsRefused R.remaining limit gap fault inputs.old inputs.new) }
    ensures unwritten { IfErr result (λ fault. fault ≢ FoldFault.Write) }

    // Of each input at most `limit` bytes were got, and one more was taken at `TooLong`. None is
    // asked after its end or a fault.
    ensures asks { AreAsked R.remaining limit inputs.old inputs.new }
{
    let mut opened = open_all(alloc, limit, gap, inputs)?;
    let streams = opened.as_mut_slice();
    let mut tournament = Tournament::new(alloc, streams)?;
    while let Some(index) = tournament.first(streams) {
        advance(index, streams, inputs)?;
        tournament.play_again(streams, index);
    }
    Ok(())
}
