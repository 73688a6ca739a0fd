//! What holds of KISS streams whatever calls are made, and which answers are equal. The functions
//! that do nothing ensure a law: a caller that makes such a call knows it.
ghost use Rattle.std.specs.Prelude.{◌≡◌, ◌↔◌, ℕ, List, IsTrue};
ghost use Rattle.aprs_kiss.specs.Laws as Spec;
ghost use Rattle.aprs_kiss.specs.Answer.{judgements_in};
ghost use Rattle.aprs_kiss.specs.Reader.{StandsAfter};

use crate::reader::{Fed, KissReader};

/// No two lists of bytes are sent alike, and each nonempty piece of a stream has exactly one
/// judgement.
pub fn each_piece_is_judged_once()
    ensures spelled { Spec.SpellsOnce }
    ensures judged { Spec.JudgedOnce }
{}

/// A stream is its pieces and its rest, with one frame end after each piece and none in them.
pub fn a_stream_is_its_pieces()
    ensures joined { Spec.MadeOfPieces }
    ensures cut { Spec.CutAtEachEnd }
{}

/// There are bytes that a reader may have been fed since the last frame end, whatever was done with
/// it before.
pub fn a_reader_stands_after_some_bytes(_reader: &KissReader)
    ensures { (before : List ℕ) × StandsAfter _reader.now before }
{}

/// Bytes without a frame end aren't judged until a frame end follows, and then nothing is left of
/// the stream. A frame end alone has no judgement.
pub fn frame_ends_end_pieces()
    ensures begun { Spec.OpenPiece }
    ensures ended { Spec.EndedPiece }
    ensures empty { Spec.EmptyPiece }
    ensures left { Spec.EndedStream }
{}

/// Where a stream is cut changes neither its judgements nor what is left of it.
pub fn cuts_change_nothing()
    ensures empty { Spec.BeginsEmpty }
    ensures judged { Spec.JudgedInParts }
    ensures left { Spec.LeftInParts }
{}

/// What `write_kiss` writes is read as a data frame of port 0 with the same bytes, where there
/// are at most 1,023 of them; a longer frame is passed over as too long. After either nothing is
/// left of the stream.
pub fn written_frames_are_read_back()
    ensures frame { Spec.ReadBack }
    ensures long { Spec.ReadBackLong }
    ensures whole { Spec.ReadWhole }
{}

/// Answers are equal exactly if they say the same: nothing ended, the same frame came on the same
/// port, wherever its bytes lie, or a piece is passed over for the same fault.
pub fn equal_answers_say_the_same(a: &Fed<'_>, b: &Fed<'_>) -> bool
    ensures { IsTrue result ↔ (judgements_in a.now ≡ judgements_in b.now) }
{
    a == b
}
