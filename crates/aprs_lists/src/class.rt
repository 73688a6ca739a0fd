//! The classes of messages.
ghost use Rattle.std.specs.Prelude.{◌≡◌};
ghost use Rattle.std.specs.Option.{option_map};
ghost use Rattle.std.specs.List.{list_all};
ghost use Rattle.aprs_report.specs.Bytes.{is_alphanumeric};
ghost use Rattle.aprs_lists.specs.Copies.{message_named};
ghost use Rattle.aprs_summary.specs.ReplyAcks.{is_number_or_nothing};
ghost use Rattle.aprs_lists.specs.Class as Spec;

use crate::net::copies::MessageName;

/// The class of a message, in a word.
pub(crate) fn class_text(message: &MessageName<'_>) -> &'static [u8]
    ensures { result.now ≡ Spec.class_text (message_named message.now) }
{
    let (addressee, text) = (message.addressee, message.text);
    if is_bulletin(addressee) {
        b"bulletin"
    } else if is_announcement(addressee) {
        b"announcement"
    } else if addressee.starts_with(b"NWS-") {
        b"weather-bulletin"
    } else if is_telemetry(text) {
        b"telemetry"
    } else if is_query(text) {
        b"query"
    } else if message.id.is_none() && is_ack_text(text) {
        b"answer"
    } else {
        b"message"
    }
}

/// Whether an addressee is that of a bulletin.
#[tactic(auto, unfolding(crate::specs::Class::is_bulletin_of))]
fn is_bulletin(addressee: &[u8]) -> bool
    ensures { result ≡ Spec.is_bulletin addressee.now }
{
    match addressee {
        [b'B', b'L', b'N', mark, ..] => mark.is_ascii_digit(),
        _ => false,
    }
}

/// Whether an addressee is that of an announcement.
#[tactic(auto, unfolding(crate::specs::Class::is_bulletin_of))]
fn is_announcement(addressee: &[u8]) -> bool
    ensures { result ≡ Spec.is_announcement addressee.now }
{
    match addressee {
        [b'B', b'L', b'N', mark, ..] => mark.is_ascii_uppercase(),
        _ => false,
    }
}

/// Whether a text tells what values of telemetry mean.
fn is_telemetry(text: &[u8]) -> bool
    ensures { result ≡ Spec.is_telemetry text.now }
{
    text.starts_with(b"PARM.")
        || text.starts_with(b"UNIT.")
        || text.starts_with(b"EQNS.")
        || text.starts_with(b"BITS.")
}

/// Whether a text asks a station for a report.
fn is_query(text: &[u8]) -> bool
    ensures { result ≡ Spec.is_query text.now }
{
    text.starts_with(b"?APRS") || text.starts_with(b"?PING?")
}

/// Whether a text is an ack with a brace.
#[tactic(auto, unfolding(crate::specs::Class::is_ack_text))]
fn is_ack_text(text: &[u8]) -> bool
    ensures { result ≡ Spec.is_ack_text text.now }
{
    match text {
        [b'a', b'c', b'k', number @ ..] => is_ended_number(number),
        _ => false,
    }
}

/// Whether bytes are one or two letters or digits, and the end of an ack with a brace.
#[tactic(auto, unfolding(crate::specs::Class::is_ended_number))]
fn is_ended_number(bytes: &[u8]) -> bool
    ensures { result ≡ Spec.is_ended_number bytes.now }
{
    match bytes {
        [x, y, rest @ ..] => {
            x.is_ascii_alphanumeric() && is_ack_end(&bytes[1..])
                || x.is_ascii_alphanumeric() && y.is_ascii_alphanumeric() && is_ack_end(rest)
        }
        _ => false,
    }
}

/// Whether bytes are a closing brace, and at most two letters or digits.
fn is_ack_end(bytes: &[u8]) -> bool
    ensures { result ≡ Spec.is_ack_end bytes.now }
{
    match bytes {
        [b'}', rest @ ..] => rest.len() <= 2 && all_alphanumeric(rest),
        _ => false,
    }
}

/// Whether each byte is a letter or a digit.
fn all_alphanumeric(bytes: &[u8]) -> bool
    ensures { result ≡ list_all is_alphanumeric bytes.now }
{
    bytes.iter().all(|byte| byte.is_ascii_alphanumeric())
}
