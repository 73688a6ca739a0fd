//! A reader of a KISS stream that comes in chunks of any size.
//!
//! Words of the contracts here:
//! - A piece is what stands before a frame end, FEND, and after the one before it.
//! - `StandsAfter reader bytes`: since the last frame end the reader was fed these bytes.
//! - `judgements_of` a stream has, for each nonempty piece, its data frame or why it is passed
//!   over. `rest_of` has the bytes after the last frame end.
//! - `judgements_in` an answer, and `judgements_of_outcome`, have the one that is reported, or
//!   none.
//! - `EndsPiece`: the stream's last byte is the frame end of a nonempty piece.
//! - `IsPlain`: none of the bytes is FEND or FESC. `spelled_bytes` are those that a piece stands
//!   for.
//! - `IsOpen`, `IsClosed`: an escape has begun in this state, or none has.
ghost use Rattle.std.specs.Prelude.{◌≡◌, ◌≢◌, ◌≤◌, ◌<◌, ◌+◌, ◌∷◌, ◌++◌, ◌↔◌, ℕ, List, [], false, IsTrue, IfNone, IfSome, OnSome, IfOk, length, take};
ghost use Rattle.std.specs.Bool.{OnTrue, OnFalse};
ghost use Rattle.std.specs.Borrow.{sem};
ghost use Rattle.std.specs.Option.{option_map, option_and_then};
ghost use Rattle.std.specs.Io.BufRead.{Rests};
ghost use Rattle.aprs_kiss.specs.Judgement.{judgement_of, data_frame_of};
ghost use Rattle.aprs_kiss.specs.ReaderSteps.{IsOpen, IsClosed, HoldsSome, judgements_of_outcome};
ghost use Rattle.aprs_kiss.specs.Plain.{IsPlain, is_special};
ghost use Rattle.aprs_kiss.specs.Spelling.{HasNoEnd};
ghost use Rattle.aprs_kiss.specs.Unspelling.{spelled_bytes};
ghost use Rattle.aprs_kiss.specs.Stream.{EndsPiece, judgements_of, rest_of};

use crate::fault::PassFault;
use crate::spelling::{FEND, FESC, TFEND, TFESC, cut_plain};
use arrayvec::ArrayVec;

/// The most bytes of a frame once its escapes are undone, the type byte among them.
pub const MAX_FRAME: usize = 1024;

/// What a reader returns for the bytes that it was fed.
#[derive(Clone, Copy, Debug, PartialEq, Eq)]
pub enum Fed<'a> {
    /// No nonempty piece ended: all bytes were used.
    Nothing,
    /// A data frame without its type byte, 0 to 1,023 bytes, and the port from 0 to 15 that the
    /// type byte names.
    Frame { port: u8, frame: &'a [u8] },
    /// A piece that is no data frame.
    Passed(PassFault),
}

/// What the buffer holds of the piece that is being read.
#[derive(Clone, Copy, Debug, PartialEq, Eq)]
enum State {
    /// No byte came since the last frame end. The frame before it may still lie there.
    Ended,
    /// The bytes that the piece spells so far.
    Plain,
    /// The same, before an escape that isn't whole yet.
    Escape,
    /// The piece spells more bytes than there is room for.
    Long,
    /// The same, before an escape that isn't whole yet.
    LongEscape,
    /// The piece has an escape that spells nothing.
    Broken,
}

/// Reads the frames of a KISS stream (the KISS paper) that comes in chunks of any size, into a
/// buffer of its own. It takes no memory.
#[derive(Drop)]
pub struct KissReader {
    bytes: ArrayVec<u8, MAX_FRAME>,
    state: State,
    ghost some: { HoldsSome state bytes.items },
}

impl KissReader {
    ghost use Rattle.aprs_kiss.specs.Reader.{StandsAfter};
    ghost use Rattle.aprs_kiss.specs.Answer.{IsWithinBounds, judgements_in};
    ghost use Rattle.aprs_kiss.specs.contracts.reader.KissReader.{the_row};

    /// A reader at the beginning of a stream. Takes no memory.
    pub fn new() -> Self
        ensures { StandsAfter result [] }
    {
        KissReader {
            bytes: ArrayVec::new(),
            state: State::Ended,
        }
    }

    /// Takes bytes from the start of `chunk`, the next part of a stream: up to and with the first
    /// frame end of a nonempty piece of the stream, or all of them where there is none. Returns
    /// how many it took, and what ended there: a data frame of 0 to 1,023 bytes, which lies in
    /// the reader until the next call, the fault for which a piece is passed over, or nothing.
    /// The next call goes on with the bytes after these. Takes no memory.
    pub fn feed(&mut self, chunk: &[u8]) -> (usize, Fed<'_>)
        // Here and below, `before` is what came since the last frame end before the call. The
        // nonempty pieces that ended are none or one, and its judgement is reported.
        ensures judged { (before : List ℕ) → StandsAfter self.old before
            → judgements_of (before ++ take result.0 chunk.now) ≡ judgements_in result.1 }
        ensures bounds { IsWithinBounds result.1 }
        ensures used { result.0 ≤ length chunk.now }
        ensures progress { 0 < length chunk.now → 0 < result.0 }
        ensures whole { judgements_in result.1 ≡ [] → result.0 ≡ length chunk.now }
        // The byte that was used last is the frame end of the piece that is reported.
        ensures ends { (before : List ℕ) → StandsAfter self.old before → judgements_in result.1 ≢ []
            → EndsPiece (before ++ take result.0 chunk.now) }

        // Once the frame is given back, the reader stands after what is left of all that came.
        ensures* stands { sem 𝓛 (Rests the_row self.entry (λ new. (before : List ℕ)
            → StandsAfter self.old before
            → StandsAfter new (rest_of (before ++ take result.0 chunk.now)))) }
    {
        let (used, outcome) = self.step(chunk);
        match outcome {
            None => (used, Fed::Nothing),
            Some(Ok(port)) => {
                let frame = &self.bytes.as_slice()[1..];
                (used, Fed::Frame { port, frame })
            }
            Some(Err(fault)) => (used, Fed::Passed(fault)),
        }
    }

    /// Whether no byte came since the last frame end or the beginning of the stream. Then the
    /// stream may end here. Takes no memory.
    pub fn finish(&self) -> bool
        ensures { (before : List ℕ) → StandsAfter self.now before → IsTrue result ↔ (before ≡ []) }
    {
        matches!(self.state, State::Ended)
    }

    /// Goes to the beginning of another stream, and forgets the piece that it was reading. Takes
    /// no memory.
    pub fn reset(&mut self)
        ensures { StandsAfter self.new [] }
    {
        let state = &mut self.state;
        *state = State::Ended;
    }

    /// Takes bytes from the start of `chunk`, up to and with the first frame end of a nonempty
    /// piece of the stream, or all of them where there is none, and returns how many. Then, where
    /// such a piece ended, the port of its data frame, which lies in the buffer after its type
    /// byte, or why it is passed over; `None` where none ended.
    fn step(&mut self, chunk: &[u8]) -> (usize, Option<Result<u8, PassFault>>)
        ensures judged { (before : List ℕ) → StandsAfter self.old before
            → judgements_of (before ++ take result.0 chunk.now)
            ≡ judgements_of_outcome result.1 self.new.bytes.items }
        ensures frame { IfSome result.1 (λ o.
            IfOk o (λ port. (port < 16) × (0 < length self.new.bytes.items))) }
        ensures used { result.0 ≤ length chunk.now }
        ensures progress { OnSome result.1 (0 < result.0) }
        ensures whole { IfNone result.1 (result.0 ≡ length chunk.now) }
        ensures ends { (before : List ℕ) → StandsAfter self.old before
            → OnSome result.1 (EndsPiece (before ++ take result.0 chunk.now)) }

        ensures stands { (before : List ℕ) → StandsAfter self.old before
            → StandsAfter self.new (rest_of (before ++ take result.0 chunk.now)) }
    {
        let mut rest = chunk;
        loop {
            let (plain, mark) = cut_plain(rest);
            self.take_plain(plain);
            let Some((byte, after)) = mark else {
                return (chunk.len(), None);
            };
            // A frame end right after another ends nothing.
            if byte == FESC {
                self.take_escape();
            } else if !self.finish() {
                return (chunk.len() - after.len(), Some(self.end_piece()));
            }
            rest = after;
        }
    }

    /// Takes bytes of a piece among which there is no FEND or FESC. Where an escape has begun,
    /// the first of them ends it.
    fn take_plain(&mut self, run: &[u8])
        requires { IsPlain run.now }
        ensures { (before : List ℕ) → StandsAfter self.old before
            → StandsAfter self.new (before ++ run.now) }
    {
        let [first, after @ ..] = run else {
            return;
        };
        if self.is_open() {
            self.take_escaped(*first);
            self.take_unescaped(after);
        } else {
            self.take_unescaped(run);
        }
    }

    /// Whether an escape has begun, and its second byte hasn't come yet.
    fn is_open(&self) -> bool
        ensures open { OnTrue result (IsOpen self.now.state) }
        ensures closed { OnFalse result (IsClosed self.now.state) }
    {
        matches!(self.state, State::Escape | State::LongEscape)
    }

    /// Takes bytes of a piece that stand for themselves, where no escape has begun. The first of
    /// a piece replace the frame before in the buffer. Without room for them the piece is too long.
    /// Where it is too long or broken, it stays so, and these bytes aren't kept.
    fn take_unescaped(&mut self, run: &[u8])
        requires plain { IsPlain run.now }
        requires closed { IsClosed self.old.state }
        ensures { (before : List ℕ) → StandsAfter self.old before
            → StandsAfter self.new (before ++ run.now) }
    {
        match self.state {
            State::Ended if run.is_empty() => {}
            State::Ended => {
                self.bytes.clear();
                self.append(run);
            }
            State::Plain => self.append(run),
            _ => {}
        }
    }

    /// Takes the second byte of an escape. The byte that the escape stands for goes into the
    /// buffer; without room for it the piece is too long, and stays so. If the escape stands for
    /// no byte, the piece is broken.
    fn take_escaped(&mut self, code: u8)
        requires open { IsOpen self.old.state }
        requires plain { is_special code ≡ false }
        ensures stands { (before : List ℕ) → StandsAfter self.old before
            → StandsAfter self.new (before ++ code ∷ []) }
        ensures closed { IsClosed self.new.state }
    {
        match unescape(code) {
            None => self.state = State::Broken,
            Some(byte) => match self.state {
                State::Escape => self.append(&[byte]),
                _ => self.state = State::Long,
            },
        }
    }

    /// Adds bytes to the end of the buffer. Without room for all of them none is added, and the
    /// piece is too long.
    fn append(&mut self, bytes: &[u8])
        requires { 0 < length self.old.bytes.items + length bytes.now }
        // `all` is the piece with these bytes: it spells what the buffer held, and then `bytes`.
        ensures stands { (all : List ℕ) → HasNoEnd all → 0 < length all
            → spelled_bytes all ≡ Some (self.old.bytes.items ++ bytes.now)
            → StandsAfter self.new all }
        ensures closed { IsClosed self.new.state }
    {
        match self.bytes.try_extend_from_slice(bytes) {
            Ok(()) => self.state = State::Plain,
            Err(_) => self.state = State::Long,
        }
    }

    /// Takes FESC, which begins an escape. As the second byte of an escape it breaks the piece.
    fn take_escape(&mut self)
        ensures { (before : List ℕ) → StandsAfter self.old before
            → StandsAfter self.new (before ++ 0xDB ∷ []) }
    {
        match self.state {
            State::Ended => {
                self.bytes.clear();
                self.state = State::Escape;
            }
            State::Plain => self.state = State::Escape,
            State::Long => self.state = State::LongEscape,
            _ => self.state = State::Broken,
        }
    }

    /// Judges a piece at the frame end after it: the port of its data frame, which stays in the
    /// buffer, or the first fault in the order of `PassFault`, wherever in the piece it stands. An
    /// escape that isn't whole is a bad one. The next byte begins another piece.
    fn end_piece(&mut self) -> Result<u8, PassFault>
        ensures stands { StandsAfter self.new [] }
        ensures judged { (before : List ℕ) → StandsAfter self.old before → 0 < length before
            → judgements_of_outcome (Some result) self.new.bytes.items ≡ judgement_of before ∷ [] }
        ensures frame { IfOk result (λ port. (port < 16) × (0 < length self.new.bytes.items)) }
    {
        let state = self.state;
        self.state = State::Ended;
        match state {
            State::Plain => port_of(self.bytes.as_slice()),
            State::Long => Err(PassFault::TooLong),
            _ => Err(PassFault::BadEscape),
        }
    }
}

/// The port of a data frame, from its type byte, the first. `NotData` where there is no byte, or
/// the low four bits, the command, aren't 0.
fn port_of(bytes: &[u8]) -> Result<u8, PassFault>
    ensures judged { judgements_of_outcome (Some result) bytes.now ≡ data_frame_of bytes.now ∷ [] }
    ensures frame { IfOk result (λ port. (port < 16) × (0 < length bytes.now)) }
{
    match bytes {
        [head, ..] if head % 16 == 0 => Ok(head / 16),
        _ => Err(PassFault::NotData),
    }
}

/// The byte that an escape stands for which ends in `code`: FEND for TFEND, FESC for TFESC,
/// and `None` for any other byte.
fn unescape(code: u8) -> Option<u8>
    // An escape before `more` spells that byte, and then what `more` spells.
    ensures { (more : List ℕ) → spelled_bytes (0xDB ∷ code ∷ more)
        ≡ option_and_then (λ byte. option_map (λ bytes. byte ∷ bytes) (spelled_bytes more)) result }
{
    if code == TFEND {
        Some(FEND)
    } else if code == TFESC {
        Some(FESC)
    } else {
        None
    }
}
