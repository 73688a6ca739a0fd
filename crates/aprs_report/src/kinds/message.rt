//! Messages, and what answers them.

ghost use Rattle.std.specs.Prelude.{◌≡◌};
ghost use Rattle.std.specs.Option.{option_map};
ghost use Rattle.std.specs.List.{list_all};
ghost use Rattle.aprs_report.specs.Bytes.{is_alphanumeric};
ghost use Rattle.aprs_report.specs.Message.{is_id};
ghost use Rattle.aprs_report.specs.Reading.{view};
ghost use Rattle.aprs_report.specs.Reader as Spec;

use crate::bytes::{Trailing, chunk, is_alphanumeric_byte};
use crate::name::name_in;
use crate::report::Report;

/// Whether each byte is a letter or a digit.
fn all_alphanumeric(bytes: &[u8]) -> bool
    ensures { result ≡ list_all is_alphanumeric bytes.now }
{
    bytes.iter().all(|byte| is_alphanumeric_byte(*byte))
}

/// Whether the bytes are an id: one to five letters or digits.
fn can_be_id(bytes: &[u8]) -> bool
    ensures { result ≡ is_id bytes.now }
{
    1 <= bytes.len() && bytes.len() <= 5 && all_alphanumeric(bytes)
}

/// The id of an acknowledgement or a rejection: all that follows the word `ack` or `rej`, with
/// which `part` has to begin. `None` where it doesn't begin with `word`, or where no id follows.
#[tactic(auto, unfolding(crate::specs::Reader::answer_at))]
fn answer(word: [u8; 3], part: &[u8]) -> Option<&[u8]>
    ensures { option_map (λ x. x.now) result ≡ Spec.answer_at word part.now }
{
    let [a, b, c] = word;
    match part {
        [x, y, z, id @ ..] if *x == a && *y == b && *z == c && can_be_id(id) => Some(id),
        _ => None,
    }
}

/// The id after the brace `{`: all bytes but this first one. `None` where the first isn't a
/// brace, or where the others are no id.
fn id_after_brace(bytes: &[u8]) -> Option<&[u8]>
    ensures { option_map (λ x. x.now) result ≡ Spec.id_at bytes.now }
{
    match bytes {
        [b'{', id @ ..] if can_be_id(id) => Some(id),
        _ => None,
    }
}

/// The text and the id of a part that ends in a brace `{` and an id, or `None` where it doesn't
/// end so. No id has a brace, so this one is the last, and one of the last six bytes, since an id
/// has at most five.
fn text_and_id(part: &[u8]) -> Option<(&[u8], &[u8])>
    ensures { option_map (λ x. (x.0.now, x.1.now)) result ≡ Spec.text_and_id_of part.now }
{
    for i in part.len().saturating_sub(6)..part.len() {
        match id_after_brace(&part[i..]) {
            Some(id) => return Some((&part[..i], id)),
            None => {}
        }
    }
    None
}

/// What `part`, the bytes of a message after its addressee, says: an acknowledgement (`ack` and
/// an id), a rejection (`rej` and an id), a text with a brace and an id after it, or all text.
fn part_to<'a>(addressee: &'a [u8], part: &'a [u8]) -> Report<'a>
    ensures { view result ≡ Spec.part_of addressee.now part.now }
{
    if let Some(id) = answer(*b"ack", part) {
        return Report::Ack { addressee, id };
    }
    if let Some(id) = answer(*b"rej", part) {
        return Report::Rej { addressee, id };
    }
    match text_and_id(part) {
        Some((text, id)) => Report::Message {
            addressee,
            text,
            id: Some(id),
        },
        None => Report::Message {
            addressee,
            text: part,
            id: None,
        },
    }
}

/// The addressee, from a name in the first nine bytes, and the part, which follows the colon
/// after them, without CR and LF at its end. `None` where there are fewer bytes, where the nine
/// hold no name, or where no colon follows.
#[tactic(auto, unfolding(crate::specs::Reader::addressee_and_part_of))]
fn addressee_and_part(bytes: &[u8]) -> Option<(&[u8], &[u8])>
    ensures { option_map (λ x. (x.0.now, x.1.now)) result ≡ Spec.addressee_and_part_of bytes.now }
{
    let (field, rest) = chunk::<9>(bytes)?;
    let addressee = name_in(field)?;
    match rest {
        [b':', part @ ..] => Some((addressee, Trailing::LineEnds.cut(part))),
        _ => None,
    }
}

/// A message, an acknowledgement or a rejection, from the bytes of an information field after its
/// first, `:`. `None` where they don't begin with an addressee in nine bytes and a colon.
#[tactic(auto, unfolding(crate::specs::Reader::message_with))]
pub fn message(bytes: &[u8]) -> Option<Report<'_>>
    ensures { option_map view result ≡ Spec.message_with bytes.now }
{
    let (addressee, part) = addressee_and_part(bytes)?;
    Some(part_to(addressee, part))
}
