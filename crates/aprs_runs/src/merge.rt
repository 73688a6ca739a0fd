//! The merge of several inputs.
ghost use Rattle.std.specs.Prelude.{◌≡◌, ◌≢◌, ◌-◌, ◌<◌, ◌≤◌, [], length, Err, IfOk};
ghost use Rattle.aprs_io.specs.Input.{most_input};
ghost use Rattle.aprs_runs.specs.Devices.{AsksMerge, CallsOutput};
ghost use Rattle.aprs_runs.specs.Gathered.{ReadsAll, ReadsEach};
ghost use Rattle.aprs_runs.specs.Merge.{IsTextOfBook};
ghost use Rattle.aprs_runs.specs.Outcome.{IsToldOf, RefusesFor, WritesFor};
ghost use Rattle.aprs_runs.specs.Several.{GiveUnion, IsFirstRefused, OfEach};

use crate::fault::{InputFault, RunFault};
use crate::gathered::{Gathered, OutputFault};
use crate::input::read_into;
use aprs_io::Counted;
use aprs_transmissions::Gap;
use std::alloc::Allocator;
use std::io::{Read, Write};

/// Writes the text of the book of this gap of all inputs' receptions. An input that begins with
/// `APRSBOOK` is a book file, any other a log. One of more than `limit` bytes is refused. Requires
/// that `limit` is at most `MAX_INPUT` (1,073,741,824). All inputs are read, in order, before the
/// first byte is written. Where one is refused, its number and fault are reported, no further one
/// is read, and nothing is written. At `Write` a prefix of the text was written. Never returns
/// `RunFault::Memory`: an allocation that failed is a fault of an input, of the last one where it
/// was for the book of all.
pub fn merge_run<R: Read, W: Write, A: Allocator + Copy>(
    alloc: A,
    limit: u64,
    gap: Gap,
    inputs: &mut [Counted<R>],
    w: &mut Counted<W>,
) -> Result<(), RunFault>
    requires { limit ≤ most_input }

    // At `Ok` and `Write` the inputs stand for sets; of any union of these, what was written is the
    // book's text, whole at `Ok`, a prefix of it at `Write`.
    ensures writes { OfEach limit R.remaining inputs.old inputs.new (λ gots.
        WritesFor (IsToldOf (GiveUnion gap gots) (IsTextOfBook gap)) W.contents result
        w.old w.new) }

    // At `Input` that input is the first that isn't taken, for this fault, and nothing was written.
    ensures refuses { OfEach limit R.remaining inputs.old inputs.new (λ gots.
        RefusesFor (GiveUnion gap gots) (IsFirstRefused gap gots) result w.old w.new) }
    ensures memory { result ≡ Err RunFault.Memory → ⊥ }

    // No input is asked after its end or a fault, and none after the refused one; at `Memory` that
    // one wasn't at its end, or all inputs were. The output isn't asked after a fault, nor at all
    // where an input is refused.
    ensures asks { AsksMerge result inputs.old inputs.new }
    ensures calls { CallsOutput result w.old w.new }
{
    let gathered = match read_all(alloc, limit, gap, inputs) {
        Ok(gathered) => gathered,
        Err((index, fault)) => return Err(RunFault::Input { index, fault }),
    };
    match gathered.write(w) {
        Ok(()) => Ok(()),
        Err(OutputFault::Write) => Err(RunFault::Write),
        Err(OutputFault::Memory) => Err(fault_of_last(inputs.len())),
    }
}

/// The run's fault where an allocation failed for the book of this many inputs, after all of them
/// were read: `Memory` of the last input, whose number is one less, since they count from 0.
/// Without inputs the number is 0.
pub(crate) fn fault_of_last(inputs: usize) -> RunFault
    ensures { result ≡ RunFault.Input (inputs - 1) InputFault.Memory }
{
    RunFault::Input {
        index: inputs.saturating_sub(1),
        fault: InputFault::Memory,
    }
}

/// Gathers all inputs' receptions for a book of this gap, or returns the number, from 0, and the
/// fault of the first input that is refused. The inputs after that one aren't read. At most `limit`
/// bytes are read of each, and one more at `TooLong`.
pub(crate) fn read_all<R: Read, A: Allocator + Copy>(
    alloc: A,
    limit: u64,
    gap: Gap,
    inputs: &mut [Counted<R>],
) -> Result<Gathered<A>, (usize, InputFault)>
    requires { limit ≤ most_input }

    // What was gathered is the book of any set that the inputs stand for together; or the input of
    // that number is the first that isn't taken, for this fault.
    ensures reads { OfEach limit R.remaining inputs.old inputs.new (ReadsEach gap result) }
    ensures gap { IfOk result (λ gathered. gathered.gap ≡ gap) }
    // Without an input there are no rows.
    ensures some { IfOk result (λ gathered. gathered.rows ≢ [] → 0 < length inputs.old) }

    // All inputs were read to their ends, or those before the refused one, and that to its fault.
    ensures calls { ReadsAll result inputs.old inputs.new }
{
    let mut gathered = Gathered::new(alloc, gap);
    for (index, r) in inputs.iter_mut().enumerate() {
        match read_into(alloc, limit, &mut gathered, r) {
            Ok(()) => {}
            Err(fault) => return Err((index, fault)),
        }
    }
    Ok(gathered)
}
