//! The numbers of reply-acks in a text (APRS 1.1).
//!
//! Words of the contracts here:
//! - `HoldsOnly P option`: P holds of what the option has, and of nothing else.
//! - `IsNumberedText number acknowledged text`: the text ends with `{number}` and then
//!   `acknowledged`, which may be empty. `IsReplyAckText`: the text acknowledges this number so, or
//!   as an ack.
//! - `EndsAfter`, `EndsSo`: the bytes are some, a mark, and at most two letters or digits, or just
//!   so many.
ghost use Rattle.std.specs.Prelude.{◌≡◌, ◌<◌, ℕ, List, false};
ghost use Rattle.std.specs.Option.{option_map};
ghost use Rattle.std.specs.List.{list_all};
ghost use Rattle.aprs_report.specs.Bytes.{is_alphanumeric};
ghost use Rattle.aprs_summary.specs.ReplyAcks.{IsNumberedText, IsAckText, IsReplyAckText, is_message_number};
ghost use Rattle.aprs_summary.specs.ReplyTexts as Spec;

/// The number that a text has for reply-acks, or `None` where it has none. Takes no memory.
pub fn number_in(text: &[u8]) -> Option<&[u8]>
    ensures { Spec.HoldsOnly (λ (number : List ℕ).
        (acknowledged : List ℕ) × IsNumberedText number acknowledged text.now)
        (option_map (λ x. x.now) result) }
{
    let (number, _) = numbers_in(text)?;
    Some(number)
}

/// The number that a text acknowledges by a reply-ack, or `None` where it acknowledges none. Takes
/// no memory.
pub fn acknowledged_in(text: &[u8]) -> Option<&[u8]>
    ensures { Spec.HoldsOnly (λ (number : List ℕ). IsReplyAckText number text.now)
        (option_map (λ x. x.now) result) }
{
    match numbers_in(text) {
        Some((_, acknowledged)) if !acknowledged.is_empty() => Some(acknowledged),
        Some(_) => None,
        None => ack_in(text),
    }
}

/// The number of a text, and what it acknowledges, which may be empty. `None` where the text has no
/// number.
fn numbers_in(text: &[u8]) -> Option<(&[u8], &[u8])>
    ensures { Spec.HoldsOnly (λ (x : List ℕ × List ℕ). IsNumberedText x.0 x.1 text.now)
        (option_map (λ x. (x.0.now, x.1.now)) result) }
{
    let (before, acknowledged) = end_after(b'}', text)?;
    let (_, number) = end_after(b'{', before)?;
    if number.is_empty() {
        return None;
    }
    Some((number, acknowledged))
}

/// The number that an ack acknowledges, or `None` where the text is no ack of this form.
fn ack_in(text: &[u8]) -> Option<&[u8]>
    ensures { Spec.HoldsOnly (λ (number : List ℕ). IsAckText number text.now)
        (option_map (λ x. x.now) result) }
{
    let (before, _) = end_after(b'}', text)?;
    number_at(before)
}

/// The number after `ack`, which is all of the rest. `None` where the bytes don't begin so, or
/// where the rest is no number.
#[tactic(auto, unfolding(crate::specs::ReplyTexts::number_at))]
fn number_at(bytes: &[u8]) -> Option<&[u8]>
    ensures { option_map (λ x. x.now) result ≡ Spec.number_at bytes.now }
{
    match bytes {
        [b'a', b'c', b'k', number @ ..] if can_be_number(number) => Some(number),
        _ => None,
    }
}

/// Whether the bytes are a number: one or two letters or digits.
fn can_be_number(bytes: &[u8]) -> bool
    ensures { result ≡ is_message_number bytes.now }
{
    1 <= bytes.len() && bytes.len() <= 2 && all_alphanumeric(bytes)
}

/// The bytes before a mark, and the letters or digits after it, which are the last of all: two, one
/// or none. `None` where the bytes don't end so. The mark has to be no letter or digit, so there is
/// one such end.
fn end_after(mark: u8, bytes: &[u8]) -> Option<(&[u8], &[u8])>
    requires { is_alphanumeric mark ≡ false }
    ensures { Spec.HoldsOnly (Spec.EndsAfter mark bytes.now)
        (option_map (λ x. (x.0.now, x.1.now)) result) }
{
    if let Some(found) = cut_at(mark, 0, bytes) {
        return Some(found);
    }
    if let Some(found) = cut_at(mark, 1, bytes) {
        return Some(found);
    }
    cut_at(mark, 2, bytes)
}

/// The bytes before a mark, and the letters or digits after it, which are the last `len` of all.
/// `None` where the bytes don't end so.
fn cut_at(mark: u8, len: usize, bytes: &[u8]) -> Option<(&[u8], &[u8])>
    requires { len < 3 }
    ensures { Spec.HoldsOnly (Spec.EndsSo mark len bytes.now)
        (option_map (λ x. (x.0.now, x.1.now)) result) }
{
    let at = bytes.len().checked_sub(len + 1)?;
    match &bytes[at..] {
        [first, end @ ..] if *first == mark && all_alphanumeric(end) => Some((&bytes[..at], end)),
        _ => None,
    }
}

/// Whether each byte is a letter or a digit.
fn all_alphanumeric(bytes: &[u8]) -> bool
    ensures { result ≡ list_all is_alphanumeric bytes.now }
{
    bytes.iter().all(|byte| byte.is_ascii_alphanumeric())
}
