//! Telemetry in comments.
ghost use Rattle.std.specs.Prelude.{◌≡◌, ◌<◌};
ghost use Rattle.std.specs.Option.{option_map};
ghost use Rattle.aprs_report.specs.Reader.{byte_where};
ghost use Rattle.aprs_details.specs.CommentTelemetry as Spec;

use crate::value::two_base91;
use aprs_io::cut_at;

/// What a comment says of measured values (APRS 1.2, base-91 comment telemetry), each number 0 to
/// 8,280.
#[derive(Clone, Copy, Debug, PartialEq, Eq)]
pub struct CommentTelemetry {
    /// The number of the report.
    pub sequence: u32,
    /// The first analog value.
    pub a1: u32,
    /// The second analog value; as those after it, `None` where the report ends before it.
    pub a2: Option<u32>,
    /// The third analog value.
    pub a3: Option<u32>,
    /// The fourth analog value.
    pub a4: Option<u32>,
    /// The fifth analog value.
    pub a5: Option<u32>,
    /// The eight digital values, each `0` or `1`, the first one first; `None` where the report ends
    /// before them. Of their number only the lowest eight bits count.
    pub bits: Option<[u8; 8]>,
}

/// The number of two digits of base 91 at the start of some bytes, and the rest.
#[tactic(auto, unfolding(crate::specs::CommentTelemetry::digit_pair))]
fn digit_pair(text: &[u8]) -> Option<(u32, &[u8])>
    ensures { option_map (λ x. (x.0, x.1.now)) result ≡ Spec.digit_pair text.now }
{
    let (digits, rest) = text.split_first_chunk::<2>()?;
    let n = two_base91(digits)?;
    Some((n, rest))
}

/// The next number, if any bytes are left, and the rest. `None` where the bytes that are left don't
/// begin with a number.
fn next_number(text: &[u8]) -> Option<(Option<u32>, &[u8])>
    ensures { option_map (λ x. (x.0, x.1.now)) result ≡ Spec.next_number text.now }
{
    if text.is_empty() {
        return Some((None, text));
    }
    let (n, rest) = digit_pair(text)?;
    Some((Some(n), rest))
}

/// The lowest eight bits of a number, the lowest first, each as `0` or `1`.
fn eight_bits(n: u32) -> [u8; 8]
    ensures { result ≡ Spec.eight_bits n }
{
    [
        b'0' + (n % 2) as u8,
        b'0' + (n / 2 % 2) as u8,
        b'0' + (n / 4 % 2) as u8,
        b'0' + (n / 8 % 2) as u8,
        b'0' + (n / 16 % 2) as u8,
        b'0' + (n / 32 % 2) as u8,
        b'0' + (n / 64 % 2) as u8,
        b'0' + (n / 128 % 2) as u8,
    ]
}

/// The eight bits of a number, if there is one.
fn bits(n: Option<u32>) -> Option<[u8; 8]>
    ensures { result ≡ Spec.bits_of n }
{
    let n = n?;
    Some(eight_bits(n))
}

/// The telemetry whose numbers the text is, as they stand between two bars. `None` where the text
/// is anything else.
#[tactic(auto, unfolding(crate::specs::CommentTelemetry::numbers_in))]
fn numbers_in(text: &[u8]) -> Option<CommentTelemetry>
    ensures { result ≡ Spec.numbers_in text.now }
{
    let (sequence, rest) = digit_pair(text)?;
    let (a1, rest) = digit_pair(rest)?;
    let (a2, rest) = next_number(rest)?;
    let (a3, rest) = next_number(rest)?;
    let (a4, rest) = next_number(rest)?;
    let (a5, rest) = next_number(rest)?;
    let (last, rest) = next_number(rest)?;
    if rest.len() == 0 {
        Some(CommentTelemetry {
            sequence,
            a1,
            a2,
            a3,
            a4,
            a5,
            bits: bits(last),
        })
    } else {
        None
    }
}

/// The bar that some bytes begin with, and the rest.
fn bar(bytes: &[u8]) -> Option<(u8, &[u8])>
    ensures { option_map (λ x. (x.0, x.1.now)) result ≡ byte_where Spec.is_bar bytes.now }
{
    match bytes {
        [b'|', rest @ ..] => Some((b'|', rest)),
        _ => None,
    }
}

/// The telemetry with which the text begins, between a bar and the next.
#[tactic(auto, unfolding(crate::specs::CommentTelemetry::telemetry_at))]
fn telemetry_at(text: &[u8]) -> Option<CommentTelemetry>
    ensures { result ≡ Spec.telemetry_at text.now }
{
    let (_, rest) = bar(text)?;
    let (numbers, _) = cut_at(rest, b'|')?;
    numbers_in(numbers)
}

impl CommentTelemetry {
    ghost use Rattle.std.specs.Prelude.{◌≡◌};
    ghost use Rattle.aprs_details.specs.CommentTelemetry as Spec;

    /// The first telemetry in a comment, which may stand anywhere in it. It is `|`, two to seven
    /// numbers of two digits of base 91 each, and `|`. `None` where the comment has none. Takes no
    /// memory.
    pub fn read(comment: &[u8]) -> Option<CommentTelemetry>
        ensures { result ≡ Spec.comment_telemetry_of comment.now }
    {
        for i in 0..comment.len() {
            match telemetry_at(&comment[i..]) {
                Some(telemetry) => return Some(telemetry),
                None => {}
            }
        }
        None
    }
}
