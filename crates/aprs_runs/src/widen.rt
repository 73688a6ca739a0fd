//! The widening of an input's book.
ghost use Rattle.std.specs.Prelude.{◌≡◌, ◌≤◌, [], ◌∷◌};
ghost use Rattle.aprs_io.specs.Device.{device_of};
ghost use Rattle.aprs_io.specs.Input.{most_input};
ghost use Rattle.aprs_convert.specs.Got.{OfGot};
ghost use Rattle.aprs_runs.specs.Devices.{AsksEach, CallsOutput};
ghost use Rattle.aprs_runs.specs.Merge.{IsTextOfBook};
ghost use Rattle.aprs_runs.specs.Outcome.{IsToldOf, RefusesFor, WritesFor};
ghost use Rattle.aprs_runs.specs.Widen.{GivesSetWithin, IsNotWidened};

use crate::fault::{InputFault, RunFault};
use crate::gathered::{Gathered, OutputFault};
use crate::input::read_input_rows;
use aprs_io::Counted;
use aprs_transmissions::Gap;
use std::alloc::Allocator;
use std::io::{Read, Write};

/// Writes the text of an input's book, widened to this gap. An input that begins with `APRSBOOK` is
/// a book file, any other a log. One of more than `limit` bytes is refused, and a faultless book
/// file of a greater gap as `Narrower`. Requires that `limit` is at most `MAX_INPUT`
/// (1,073,741,824). All of the input is read, and its rows are joined, before the first byte is
/// written. Where the input is refused, its fault is returned as that of input 0, and nothing is
/// written. At `Memory` an allocation failed for the widened book, and nothing was written. At
/// `Write` a prefix of the text was written.
pub fn widen_run<R: Read, W: Write, A: Allocator + Copy>(
    alloc: A,
    limit: u64,
    gap: Gap,
    r: &mut Counted<R>,
    w: &mut Counted<W>,
) -> Result<(), RunFault>
    requires { limit ≤ most_input }

    // If the input's bytes are known, `text` was got of it, and `ending` says how it then ended.
    // At `Ok` and `Write` the input stands for a set, and its own gap isn't greater. Of any such
    // set, what was written is the book's text: whole at `Ok`, a prefix of it at `Write`.
    ensures writes { OfGot limit (R.remaining (device_of r.old)) (R.remaining (device_of r.new))
        (λ text ending. WritesFor (IsToldOf (GivesSetWithin gap text ending) (IsTextOfBook gap))
        W.contents result w.old w.new) }

    // At `Input` its number is 0, and the input isn't taken, for this fault; at `Memory` the input
    // stands for a set. At both nothing was written.
    ensures refuses { OfGot limit (R.remaining (device_of r.old)) (R.remaining (device_of r.new))
        (λ text ending. RefusesFor (GivesSetWithin gap text ending)
        (IsNotWidened gap text ending) result w.old w.new) }

    // The input isn't asked after its end or a fault. The output isn't asked after a fault, nor at
    // all where the input is refused or at `Memory`.
    ensures asks { AsksEach result (r.old ∷ []) (r.new ∷ []) }
    ensures calls { CallsOutput result w.old w.new }
{
    let mut gathered = Gathered::new(alloc, gap);
    let own = match read_input_rows(alloc, limit, &mut gathered, r) {
        Ok(own) => own,
        Err(fault) => return Err(RunFault::Input { index: 0, fault }),
    };
    if own.seconds() > gap.seconds() {
        return Err(narrower_fault());
    }
    match gathered.write(w) {
        Ok(()) => Ok(()),
        Err(OutputFault::Memory) => Err(RunFault::Memory),
        Err(OutputFault::Write) => Err(RunFault::Write),
    }
}

/// The fault of a run whose only input, number 0, is a book file of a greater gap.
fn narrower_fault() -> RunFault
    ensures { result ≡ RunFault.Input 0 InputFault.Narrower }
{
    RunFault::Input {
        index: 0,
        fault: InputFault::Narrower,
    }
}
