//! Objects and items.

ghost use Rattle.std.specs.Prelude.{◌≡◌, ◌<◌, length, position, IfSome};
ghost use Rattle.std.specs.Option.{option_map};
ghost use Rattle.aprs_report.specs.Object.{is_item_mark};
ghost use Rattle.aprs_report.specs.Object as Spec;
ghost use Rattle.aprs_report.specs.Reading.{view};
ghost use Rattle.aprs_report.specs.Reader.{state_of, object_of, item_field_of, item_of};

use crate::bytes::chunk;
use crate::name::name_in;
use crate::place::place_at_start;
use crate::report::Report;
use crate::stamp::stamp_at_start;

/// The word for whether an object or an item is live: `live` or `killed`. Takes no memory.
pub fn live_text(live: bool) -> &'static [u8]
    ensures { result.now ≡ Spec.live_text live }
{
    if live { b"live" } else { b"killed" }
}

/// Whether an object or an item is live, and the rest, from bytes that begin with its mark: the
/// byte `live` where it is live, `_` where it is killed. `None` where they begin with neither.
fn state_at_start(live: u8, bytes: &[u8]) -> Option<(bool, &[u8])>
    ensures { option_map (λ x. (x.0, x.1.now)) result ≡ state_of live bytes.now }
{
    match bytes {
        [mark, rest @ ..] if *mark == live => Some((true, rest)),
        [b'_', rest @ ..] => Some((false, rest)),
        _ => None,
    }
}

/// An object, from the bytes of an information field after its first, `;`: a name of nine bytes,
/// `*` where it is live or `_` where it is killed, a stamp, a position with its symbol, and a
/// comment (APRS Protocol Reference 1.0.1, chapter 11). Spaces at the name's end count among the
/// nine bytes, and are cut off. `None` where one of these but the comment can't be read.
#[tactic(auto, unfolding(crate::specs::Reader::object_of))]
pub fn object(bytes: &[u8]) -> Option<Report<'_>>
    ensures { option_map view result ≡ object_of bytes.now }
{
    let (field, rest) = chunk::<9>(bytes)?;
    let name = name_in(field)?;
    let (live, rest) = state_at_start(b'*', rest)?;
    let (stamp, rest) = stamp_at_start(rest)?;
    let (place, symbol, comment) = place_at_start(rest)?;
    Some(Report::Object {
        name,
        live,
        stamp,
        place,
        symbol,
        comment,
    })
}

/// The index of the first `!` or `_`, which is the mark of an item, or `None` where there is
/// none.
fn place_of_mark(bytes: &[u8]) -> Option<usize>
    ensures exact { result ≡ position is_item_mark bytes.now }
    ensures within { IfSome result (λ i. i < length bytes.now) }
{
    bytes.iter().position(|byte| *byte == b'!' || *byte == b'_')
}

/// The bytes before an item's mark, which are its name with the spaces at its end, and the rest,
/// from the mark on. `None` where there is no mark, or where these bytes aren't three to nine.
#[tactic(auto, unfolding(crate::specs::Reader::item_field_of))]
fn item_field(bytes: &[u8]) -> Option<(&[u8], &[u8])>
    ensures { option_map (λ x. (x.0.now, x.1.now)) result ≡ item_field_of bytes.now }
{
    let end = place_of_mark(bytes)?;
    if 3 <= end && end <= 9 {
        Some(bytes.split_at(end))
    } else {
        None
    }
}

/// An item, from the bytes of an information field after its first, `)` (APRS Protocol Reference
/// 1.0.1, chapter 11). It has a name of three to nine bytes, none of them `!` or `_`. After it come
/// `!` where it is live or `_` where it is killed, a position with its symbol, and a comment.
/// Spaces at the name's end count among the three to nine bytes, and are cut off. `None` where one
/// of these but the comment can't be read.
#[tactic(auto, unfolding(crate::specs::Reader::item_of))]
pub fn item(bytes: &[u8]) -> Option<Report<'_>>
    ensures { option_map view result ≡ item_of bytes.now }
{
    let (field, rest) = item_field(bytes)?;
    let name = name_in(field)?;
    let (live, rest) = state_at_start(b'!', rest)?;
    let (place, symbol, comment) = place_at_start(rest)?;
    Some(Report::Item {
        name,
        live,
        place,
        symbol,
        comment,
    })
}
