//! A KISS stream, captured as a log.
//!
//! Words of the contracts here:
//! - A plan says what a run writes of an input, and with which fault it ends, by what was got of
//!   it.
//! - `RunsAsPlanned`: the run wrote that text and ended so, or wrote a prefix of it at `Write`.
//! - `stream_plan`: a log line for each UI frame in the stream, and a fault at `Read` and
//!   `TooLong`.
//! - `StandsAfter reader bytes`: since the last frame end the reader was fed these bytes.
//! - `judgements_of` a stream has a data frame, or a fault, for each nonempty piece; `rest_of` has
//!   the bytes after the last frame end.
ghost use Rattle.std.specs.Prelude.{◌≡◌, ◌≤◌, ◌++◌, ℕ, List, OnOk, OnErr};
ghost use Rattle.std.specs.List.{flat_map};
ghost use Rattle.std.specs.Io.KnownBytes.{Appends};
ghost use Rattle.aprs_io.specs.Input.{most_input};
ghost use Rattle.aprs_ax25.specs.FrameFault.{frame_or_fault};
ghost use Rattle.aprs_kiss.specs.Device.{device_of, AppendsPrefix, Calls, Sends, last_at};
ghost use Rattle.aprs_kiss.specs.Reader.{StandsAfter};
ghost use Rattle.aprs_kiss.specs.Answer.{judgements_in};
ghost use Rattle.aprs_kiss.specs.Stream.{judgements_of, rest_of};
ghost use Rattle.aprs_convert.specs.Plan as Spec;

use crate::fault::ConvertFault;
use aprs_ax25::Frame;
use aprs_io::read_some;
use aprs_kiss::{Counted, Fed, KissReader, WriteFault};
use aprs_log::{InputEnd, LogCause, LogFault, LogWriter, Moment, Receiver, Reception};
use std::io::{Read, Write};

/// How many bytes of the stream are read at once, at most.
const CHUNK: usize = 16_384;

/// Reads a KISS stream of at most `limit` bytes, and writes a log line for each UI frame in it, as
/// if this receiver had heard all at this moment. Requires that `limit` is at most `MAX_INPUT`. At
/// `Log`, the stream's fault in line 0, the lines of all frames before it have been written; at
/// `Write` a prefix of the lines. Neither device is asked again after its end or a fault. Takes no
/// memory.
pub fn capture<R: Read, W: Write>(
    limit: u64,
    receiver: &Receiver,
    moment: &Moment,
    r: &mut Counted<R>,
    w: &mut Counted<W>,
) -> Result<(), ConvertFault>
    requires { limit ≤ most_input }
    ensures { Spec.RunsAsPlanned (Spec.stream_plan receiver.now moment.now) limit
        R.remaining W.contents result r.old r.new w.old w.new }
{
    let mut reader = KissReader::new();
    let mut log = LogWriter::new();
    let mut buffer = [0; CHUNK];
    let mut left = limit;
    loop {
        match read_some(r, &mut buffer, left) {
            Ok(count) => {
                let (chunk, _) = buffer.split_at(count);
                capture_chunk(&mut reader, &mut log, chunk, receiver, moment, w)?;
                left -= count as u64;
            }
            Err(ending) => return stream_end(ending),
        }
    }
}

/// The answer of a capture whose stream ended so: `Ok` where it has no further byte, and otherwise
/// a fault in line 0, since a read failed or the stream is over the limit.
fn stream_end(ending: InputEnd) -> Result<(), ConvertFault>
    ensures { Spec.EndsStream result ending }
{
    match ending {
        InputEnd::End => Ok(()),
        InputEnd::Read => Err(fault_of_stream(LogCause::Read)),
        InputEnd::TooLong => Err(fault_of_stream(LogCause::TooLong)),
    }
}

/// The fault of a stream for this cause. A stream has no lines: its faults stand in line 0.
fn fault_of_stream(cause: LogCause) -> ConvertFault
    ensures { result ≡ ConvertFault.Log (record { line = 0; cause = cause }) }
{
    ConvertFault::from(LogFault { line: 0, cause })
}

/// Writes the log lines of the UI frames that end in a chunk of the stream. Without a fault the
/// reader was fed all of the chunk, and keeps the bytes of a frame that goes on after it. At a
/// fault a prefix of the lines went out.
fn capture_chunk<W: Write>(
    reader: &mut KissReader,
    log: &mut LogWriter,
    chunk: &[u8],
    receiver: &Receiver,
    moment: &Moment,
    w: &mut Counted<W>,
) -> Result<(), WriteFault>
    // Here `e` is what came of the stream since the last frame end before the chunk.
    ensures stands { OnOk result ((e : List ℕ) → StandsAfter reader.old e
        → StandsAfter reader.new (rest_of (e ++ chunk.now))) }
    ensures sent { OnOk result ((e : List ℕ) → StandsAfter reader.old e
        → Appends (W.contents (device_of w.old)) (W.contents (device_of w.new))
        (flat_map (Spec.capture_text receiver.now moment.now) (judgements_of (e ++ chunk.now)))) }
    ensures prefix { OnErr result ((e : List ℕ) → StandsAfter reader.old e
        → AppendsPrefix (W.contents (device_of w.old)) (W.contents (device_of w.new))
        (flat_map (Spec.capture_text receiver.now moment.now) (judgements_of (e ++ chunk.now)))) }
    ensures calls { Calls (last_at result) w.old w.new }
{
    let mut rest = chunk;
    while !rest.is_empty() {
        let (used, fed) = reader.feed(rest);
        write_fed(w, log, receiver, moment, fed)?;
        let (_, after) = rest.split_at(used);
        rest = after;
    }
    Ok(())
}

/// Writes the log line of what the KISS reader returned, where that is a UI frame, and otherwise
/// nothing. At a fault a prefix of the line went out.
fn write_fed<W: Write>(
    w: &mut Counted<W>,
    log: &mut LogWriter,
    receiver: &Receiver,
    moment: &Moment,
    fed: Fed<'_>,
) -> Result<(), WriteFault>
    ensures { Sends W.contents result w.old w.new
        (flat_map (Spec.capture_text receiver.now moment.now) (judgements_in fed.entry)) }
{
    match fed {
        Fed::Frame { frame, .. } => write_frame(w, log, receiver, moment, frame),
        Fed::Nothing | Fed::Passed(_) => Ok(()),
    }
}

/// Writes the log line of a data frame's bytes, where they are a UI frame, and otherwise nothing.
/// At a fault a prefix of the line went out.
fn write_frame<W: Write>(
    w: &mut Counted<W>,
    log: &mut LogWriter,
    receiver: &Receiver,
    moment: &Moment,
    bytes: &[u8],
) -> Result<(), WriteFault>
    ensures { Sends W.contents result w.old w.new
        (Spec.frame_line receiver.now moment.now (frame_or_fault bytes.now)) }
{
    match Frame::read(bytes) {
        Ok(frame) => log.write(w, &Reception::new(moment.copy(), receiver.copy(), frame)),
        Err(_) => Ok(()),
    }
}
