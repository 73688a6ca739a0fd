//! The answers to a whole stream, however it is cut.
//!
//! Words of the contracts here:
//! - `hears`: what a listener becomes by one answer. `FoldsTo hears old answers new`: the listener
//!   took these answers, one after another.
//! - `StandsAfter reader bytes`: since the last frame end the reader was fed these bytes.
//! - `judgements_of` a stream has, for each nonempty piece, its data frame or why it is passed
//!   over. `rest_of` has the bytes after the last frame end.
ghost use Rattle.std.specs.Prelude.{◌++◌, ℕ, List};
ghost use Rattle.std.specs.List.{FoldsTo};
ghost use Rattle.aprs_kiss.specs.Judgement.{Judgement};
ghost use Rattle.aprs_kiss.specs.Reader.{StandsAfter};
ghost use Rattle.aprs_kiss.specs.Answer.{judgements_in};
ghost use Rattle.aprs_kiss.specs.Stream.{judgements_of, rest_of};

use crate::reader::{Fed, KissReader};

/// Takes what a reader returns, one answer after another.
pub trait Listener {
    /// What an answer makes of a listener: the listener before, the answer, the listener after.
    ghost hears: { Self → Judgement → Self → Type 0 };

    /// Takes the next answer. `Fed::Nothing` leaves the listener as it is.
    fn hear(&mut self, fed: Fed<'_>)
        ensures { FoldsTo hears self.old (judgements_in fed.entry) self.new };
}

/// Feeds all of a chunk of a stream to the reader, and hands each answer to the listener. Takes no
/// memory but what the listener takes.
pub fn feed_all<L: Listener>(reader: &mut KissReader, chunk: &[u8], listener: &mut L)
    // `before` is what came since the last frame end before the call. The listener hears the
    // judgements of the pieces that ended since, in order.
    ensures stands { (before : List ℕ) → StandsAfter reader.old before
        → StandsAfter reader.new (rest_of (before ++ chunk.now)) }
    ensures heard { (before : List ℕ) → StandsAfter reader.old before
        → FoldsTo L.hears listener.old (judgements_of (before ++ chunk.now)) listener.new }
{
    let mut rest = chunk;
    while !rest.is_empty() {
        let (used, fed) = reader.feed(rest);
        listener.hear(fed);
        let (_, after) = rest.split_at(used);
        rest = after;
    }
}

/// Feeds a stream to the reader, cut into parts of these lengths and then what is left of it, and
/// hands each answer to the listener. The answers are those of the stream, whatever the lengths.
/// Takes no memory but what the listener takes.
pub fn feed_in_parts<L: Listener>(
    reader: &mut KissReader,
    stream: &[u8],
    lengths: &[usize],
    listener: &mut L,
)
    // `before` is what came since the last frame end before the call. The listener hears the
    // judgements of the pieces that ended since, in order.
    ensures stands { (before : List ℕ) → StandsAfter reader.old before
        → StandsAfter reader.new (rest_of (before ++ stream.now)) }
    ensures heard { (before : List ℕ) → StandsAfter reader.old before
        → FoldsTo L.hears listener.old (judgements_of (before ++ stream.now)) listener.new }
{
    let mut rest = stream;
    for len in lengths {
        let (part, after) = rest.split_at((*len).min(rest.len()));
        feed_all(reader, part, listener);
        rest = after;
    }
    feed_all(reader, rest, listener);
}
