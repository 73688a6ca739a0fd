//! A table of several inputs.
ghost use Rattle.std.specs.Prelude.{◌≤◌};
ghost use Rattle.aprs_io.specs.Input.{most_input};
ghost use Rattle.aprs_runs.specs.Devices.{AsksEach, CallsOutput};
ghost use Rattle.aprs_runs.specs.Outcome.{IsToldOf, RefusesFor, WritesFor};
ghost use Rattle.aprs_runs.specs.Several.{GiveUnion, IsFirstRefused, OfEach};
ghost use Rattle.aprs_runs.specs.TableOf.{IsTableOf};

use crate::extract::{Extract, extract_run};
use crate::fault::RunFault;
use aprs_arguments::Table;
use aprs_io::Counted;
use aprs_transmissions::Gap;
use std::alloc::Allocator;
use std::io::{Read, Write};

/// Writes this table of the book of this gap of all inputs' receptions: the names of its columns,
/// and its lines. The table of the rows has a line for each row of the book, in the book's order,
/// which says what its frame tells. The others have one for each message, station, object or item,
/// in the order of the listing. An input that begins with `APRSBOOK` is a book file, any other
/// a log. One of more than `limit` bytes is refused. Requires that `limit` is at most `MAX_INPUT`
/// (1,073,741,824). All inputs are read, in order, before the first byte is written. Where one is
/// refused, its number and fault are reported, no further one is read, and nothing is written. At
/// `Memory` an allocation failed for the book or its lists, and nothing was written. At `Write` a
/// prefix of the table was written.
pub fn table_run<R: Read, W: Write, A: Allocator + Copy>(
    alloc: A,
    limit: u64,
    table: Table,
    gap: Gap,
    inputs: &mut [Counted<R>],
    w: &mut Counted<W>,
) -> Result<(), RunFault>
    requires { limit ≤ most_input }

    // At `Ok` and `Write` the inputs stand for sets; of any union of these, what was written is the
    // table, whole at `Ok`, a prefix of it at `Write`.
    ensures writes { OfEach limit R.remaining inputs.old inputs.new (λ gots.
        WritesFor (IsToldOf (GiveUnion gap gots) (IsTableOf table gap)) W.contents result
        w.old w.new) }

    // At `Input` that input is the first that isn't taken, for this fault; at `Memory` all inputs
    // stand for sets. At both nothing was written.
    ensures refuses { OfEach limit R.remaining inputs.old inputs.new (λ gots.
        RefusesFor (GiveUnion gap gots) (IsFirstRefused gap gots) result w.old w.new) }

    // No input is asked after its end or a fault, and none after the refused one, which wasn't at
    // its end where its fault is `Memory`. The output isn't asked after a fault, nor at all where
    // an input is refused or at `Memory`.
    ensures asks { AsksEach result inputs.old inputs.new }
    ensures calls { CallsOutput result w.old w.new }
{
    extract_run(alloc, limit, Extract::Table(table), gap, inputs, w)
}
