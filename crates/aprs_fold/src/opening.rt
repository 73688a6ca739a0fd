//! The streams of several inputs: their first rows, and the next row of one.
//!
//! Words of the contracts here:
//! - `IsReading`: of an input that was `first` these rows were taken, and the next is in front; or
//!   they are all, and the input has ended. `AreReading` and `AreOpened` say so of each input.
//! - `IsReadyAt`: the stream of this number hasn't ended. `taken_at`: its row in front is taken
//!   too.
//! - `GoesOn`, `OthersStay`, `ChangesAt`: this stream or input alone was read on, and what is in
//!   front of it then doesn't come before what was.
//! - `IsOfInputs`: the fault isn't that of a refused output.
//! - `IsRefused`, `IsOneRefused`: the input that the fault names has it as a book file.
//! - `AreAsked`: of each input at most `limit` bytes were got, and it wasn't asked after its end.
ghost use Rattle.std.specs.Prelude.{◌≡◌, ℕ, ◌<◌, ◌≤◌, ◌++◌, ◌∷◌, [], IfErr, IfOk, List, OnOk, length};
ghost use Rattle.aprs_io.specs.declared.device.Counted.{Counted as CountedValue};
ghost use Rattle.aprs_transmissions.specs.Row.{Row};
ghost use Rattle.aprs_bookfile.specs.RowReader.{most_stream};
ghost use Rattle.aprs_fold.specs.Inputs as Spec;
ghost use Rattle.aprs_fold.specs.Streams as Streams;

use crate::fault::FoldFault;
use aprs_bookfile::RowStream;
use aprs_io::Counted;
use aprs_transmissions::Gap;
use std::alloc::Allocator;
use std::io::Read;

/// A stream for each input, which was read to its first row, or to its end where it has none. Fails
/// at the first input that has a fault or another gap, or with `Memory`. Requires a limit of at
/// most 9,223,372,036,854,775,807.
pub(crate) fn open_all<R: Read, A: Allocator + Copy>(
    alloc: A,
    limit: u64,
    gap: Gap,
    inputs: &mut [Counted<R>],
) -> Result<Vec<RowStream<A>, A>, FoldFault>
    requires { limit ≤ most_stream }
    ensures reads { IfOk result (λ streams. Streams.AreOpened R.remaining limit gap inputs.old
        inputs.new streams.items) }
    ensures own { IfErr result Streams.IsOfInputs }
    ensures all { IfOk result (λ streams. length streams.items ≡ length inputs.old) }
    ensures refuses { IfErr result (λ fault.
        Spec.IsRefused R.remaining limit gap fault inputs.old inputs.new) }
    ensures asks { Spec.AreAsked R.remaining limit inputs.old inputs.new }
{
    let mut streams = Vec::new(alloc);
    for (index, input) in inputs.iter_mut().enumerate() {
        let stream = open_one(alloc, limit, gap, index, input)?;
        keep(&mut streams, stream)?;
    }
    Ok(streams)
}

/// Puts a stream after the others.
fn keep<A: Allocator + Copy>(
    streams: &mut Vec<RowStream<A>, A>,
    stream: RowStream<A>,
) -> Result<(), FoldFault>
    ensures kept { OnOk result (streams.new.items ≡ streams.old.items ++ stream ∷ []) }
    ensures memory { IfErr result (λ fault. fault ≡ FoldFault.Memory) }
{
    if streams.push(stream).is_err() {
        return Err(FoldFault::Memory);
    }
    Ok(())
}

/// A stream of this input, which was read to its first row, or to its end where it has none.
/// Fails with the input's fault or with `OtherGap`, each with the number `index`, or with `Memory`.
pub(crate) fn open_one<R: Read, A: Allocator + Copy>(
    alloc: A,
    limit: u64,
    gap: Gap,
    index: usize,
    input: &mut Counted<R>,
) -> Result<RowStream<A>, FoldFault>
    requires { limit ≤ most_stream }
    ensures reads { IfOk result (λ stream.
        Streams.IsReading R.remaining limit gap input.old input.new stream []) }
    ensures refuses { IfErr result (λ fault.
        Spec.IsOneRefused R.remaining limit gap index fault input.old input.new) }
{
    let mut stream = RowStream::new(alloc, limit)?;
    if let Err(fault) = stream.advance(input) {
        return Err(FoldFault::Input { index, fault });
    }
    if stream.gap() != gap {
        return Err(FoldFault::OtherGap { index });
    }
    Ok(stream)
}

/// Reads the next row of the input of this number, or reads to its end. Requires that its stream
/// hasn't ended. Fails with the input's fault.
pub(crate) fn advance<R: Read, A: Allocator + Copy>(
    index: usize,
    streams: &mut [RowStream<A>],
    inputs: &mut [Counted<R>],
) -> Result<(), FoldFault>
    requires ready { Streams.IsReadyAt streams.old index }
    requires there { index < length streams.old }
    requires within { index < length inputs.old }
    ensures one { OnOk result ((limit gap : ℕ) (first : List (CountedValue R))
        (taken : List (List Row))
        → Streams.AreReading R.remaining limit gap first inputs.old streams.old taken
        → Streams.AreReading R.remaining limit gap first inputs.new streams.new
        (Streams.taken_at streams.old index taken)
        × Streams.GoesOn index streams.old streams.new) }
    ensures stays { OnOk result (Streams.OthersStay index streams.old streams.new) }
    ensures less { OnOk result
        (Streams.ahead_of_all streams.new < Streams.ahead_of_all streams.old) }
    ensures own { IfErr result Streams.IsOfInputs }
    ensures changes { Streams.ChangesAt index inputs.old inputs.new }
    ensures fault { IfErr result (λ fault. (limit gap : ℕ) (first : List (CountedValue R))
        (taken : List (List Row))
        → Streams.AreReading R.remaining limit gap first inputs.old streams.old taken
        → Spec.IsRefused R.remaining limit gap fault first inputs.new
        × Spec.AreAsked R.remaining limit first inputs.new) }
{
    match streams[index].advance(&mut inputs[index]) {
        Ok(()) => Ok(()),
        Err(fault) => Err(FoldFault::Input { index, fault }),
    }
}
