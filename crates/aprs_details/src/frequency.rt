//! Frequencies in comments.
ghost use Rattle.std.specs.Prelude.{◌≡◌, ◌<◌, length, IfSome};
ghost use Rattle.std.specs.Option.{option_map};
ghost use Rattle.aprs_report.specs.Bytes.{is_space};
ghost use Rattle.aprs_report.specs.Reader.{byte_where};
ghost use Rattle.aprs_details.specs.Value.{is_dot};
ghost use Rattle.aprs_details.specs.Frequency as Spec;

use crate::details::{base91_altitude, without_mark};
use crate::extension::{pair, phg, range};
use crate::value::{all_digits, numeral};

/// The frequency that a comment says (APRS 1.2, frequency specification), and how to call there.
#[derive(Clone, Copy, Debug, PartialEq, Eq)]
pub struct Frequency<'a> {
    /// In kilohertz, 0 to 999,999.
    pub khz: u32,
    /// The tone as it was sent, `T`, `C` or `D` and three digits, and in lower case where the
    /// channel is narrow. Empty where none follows the frequency directly.
    pub tone: &'a [u8],
    /// How far above the frequency a repeater listens, in kilohertz, -9,990 to 9,990. `None` where
    /// that doesn't follow the frequency, or its tone, directly.
    pub offset: Option<i32>,
}

/// The dot that some bytes begin with, and the rest.
fn dot(bytes: &[u8]) -> Option<(u8, &[u8])>
    ensures { option_map (λ x. (x.0, x.1.now)) result ≡ byte_where is_dot bytes.now }
{
    match bytes {
        [b'.', rest @ ..] => Some((b'.', rest)),
        _ => None,
    }
}

/// The space that some bytes begin with, and the rest.
fn space(bytes: &[u8]) -> Option<(u8, &[u8])>
    ensures { option_map (λ x. (x.0, x.1.now)) result ≡ byte_where is_space bytes.now }
{
    match bytes {
        [b' ', rest @ ..] => Some((b' ', rest)),
        _ => None,
    }
}

/// The kilohertz of two digits and a space: the digits count tens. `None` for other bytes.
fn tens(places: &[u8; 3]) -> Option<u32>
    ensures exact { result ≡ Spec.tens_of places.now }
    ensures small { IfSome result (λ n. n < 10000000) }
{
    if places[2] == b' ' {
        let tens = numeral(&places[..2])?;
        Some(tens * 10)
    } else {
        None
    }
}

/// The kilohertz of the places after the point: three digits, or two and a space.
fn thousandths(places: &[u8; 3]) -> Option<u32>
    ensures exact { result ≡ Spec.thousandths_of places.now }
    ensures small { IfSome result (λ n. n < 10000000) }
{
    match numeral(places) {
        Some(n) => Some(n),
        None => tens(places),
    }
}

/// The frequency in kilohertz with which the text begins, and the rest. The megahertz are three
/// digits: the letter of a microwave band isn't read.
#[tactic(auto, unfolding(crate::specs::Frequency::khz_at))]
fn khz_at(text: &[u8]) -> Option<(u32, &[u8])>
    ensures { option_map (λ x. (x.0, x.1.now)) result ≡ Spec.khz_at text.now }
{
    let (megahertz, rest) = text.split_first_chunk::<3>()?;
    let (_, rest) = dot(rest)?;
    let (places, rest) = rest.split_first_chunk::<3>()?;
    let (unit, rest) = rest.split_first_chunk::<3>()?;
    let whole = numeral(megahertz)?;
    let thousandths = thousandths(places)?;
    let [m, h, z] = *unit;
    if m == b'M' && h == b'H' && z == b'z' {
        Some((whole * 1_000 + thousandths, rest))
    } else {
        None
    }
}

/// A space and a word of four bytes at the start of some bytes, and the rest.
#[tactic(auto, unfolding(crate::specs::Frequency::word_at))]
fn word_at(text: &[u8]) -> Option<(&[u8; 4], &[u8])>
    ensures exact { option_map (λ x. (x.0.now, x.1.now)) result ≡ Spec.word_at text.now }
    ensures four { IfSome result (λ x. length x.0.now ≡ 4) }
{
    let (_, rest) = space(text)?;
    let (word, rest) = rest.split_first_chunk::<4>()?;
    Some((word, rest))
}

/// Whether the word is a tone: its letter and three digits.
fn is_tone(word: &[u8; 4]) -> bool
    ensures { result ≡ Spec.is_tone word.now }
{
    matches!(word[0], b'T' | b'C' | b'D' | b't' | b'c' | b'd') && all_digits(&word[1..])
}

/// The tone after a space with which the text begins, and what follows it. Where none stands there,
/// nothing and the text.
fn tone_at(text: &[u8]) -> (&[u8], &[u8])
    ensures tone { result.0.now ≡ (Spec.tone_at text.now).0 }
    ensures rest { result.1.now ≡ (Spec.tone_at text.now).1 }
{
    match word_at(text) {
        Some((word, rest)) => {
            if is_tone(word) {
                (word, rest)
            } else {
                (b"", text)
            }
        }
        None => (b"", text),
    }
}

/// How far above a frequency a repeater listens, in kilohertz: a sign and three digits of tens.
/// `None` where the word is no such offset.
fn offset(word: &[u8; 4]) -> Option<i32>
    ensures { result ≡ Spec.offset_of word.now }
{
    if word[0] == b'+' {
        let tens = numeral(&word[1..])?;
        Some((tens * 10) as i32)
    } else if word[0] == b'-' {
        let tens = numeral(&word[1..])?;
        Some(-((tens * 10) as i32))
    } else {
        None
    }
}

/// The offset after a space with which the text begins, in kilohertz. `None` where none stands
/// there.
fn offset_at(text: &[u8]) -> Option<i32>
    ensures { result ≡ Spec.offset_at text.now }
{
    let (word, _) = word_at(text)?;
    offset(word)
}

/// The frequency with which the text begins, and after it perhaps a tone and an offset. Neither is
/// read after another word, and no tone after an offset.
#[tactic(auto, unfolding(crate::specs::Frequency::tuned_at))]
fn tuned_at(text: &[u8]) -> Option<Frequency<'_>>
    ensures { option_map Spec.frequency_view result ≡ Spec.tuned_at text.now }
{
    let (khz, rest) = khz_at(text)?;
    let (tone, rest) = tone_at(rest);
    Some(Frequency {
        khz,
        tone,
        offset: offset_at(rest),
    })
}

/// Whether these seven bytes are a data extension: course and speed, a range, or a transmitter. DFS
/// isn't one of them.
fn is_extension(field: &[u8]) -> bool
    ensures { result ≡ Spec.is_extension field.now }
{
    pair(field).is_some() || range(field).is_some() || phg(field).is_some()
}

/// What follows the data extension with which a comment begins.
#[tactic(auto, unfolding(crate::specs::Frequency::after_extension))]
fn after_extension(comment: &[u8]) -> Option<&[u8]>
    ensures { option_map (λ x. x.now) result ≡ Spec.after_extension comment.now }
{
    let (field, rest) = comment.split_first_chunk::<7>()?;
    if is_extension(field) {
        Some(rest)
    } else {
        None
    }
}

/// The frequency that follows the data extension with which a comment begins.
fn extended(comment: &[u8]) -> Option<Frequency<'_>>
    ensures { option_map Spec.frequency_view result ≡ Spec.extended comment.now }
{
    let rest = after_extension(comment)?;
    tuned_at(rest)
}

/// What follows an altitude `xxx}` with which the text begins; or the text, where it doesn't.
fn after_altitude(text: &[u8]) -> &[u8]
    ensures { result.now ≡ Spec.after_altitude text.now }
{
    match text.split_first_chunk::<4>() {
        Some((altitude, rest)) => {
            if base91_altitude(altitude).is_some() {
                rest
            } else {
                text
            }
        }
        None => text,
    }
}

/// The frequency with which the text begins, or that follows an altitude.
fn tuned_after_altitude(text: &[u8]) -> Option<Frequency<'_>>
    ensures { option_map Spec.frequency_view result
        ≡ Spec.tuned_at (Spec.after_altitude text.now) }
{
    tuned_at(after_altitude(text))
}

impl<'a> Frequency<'a> {
    ghost use Rattle.std.specs.Prelude.{◌≡◌};
    ghost use Rattle.std.specs.Option.{option_map};
    ghost use Rattle.aprs_details.specs.Frequency as Spec;

    /// The frequency with which the comment of a position begins, or that follows the data
    /// extension with which it begins. `None` where no frequency stands there. Takes no memory.
    #[tactic(auto, unfolding(crate::specs::Frequency::frequency_of))]
    pub fn of_comment(comment: &'a [u8]) -> Option<Frequency<'a>>
        ensures { option_map Spec.frequency_view result ≡ Spec.frequency_of comment.now }
    {
        match tuned_at(comment) {
            Some(frequency) => Some(frequency),
            None => extended(comment),
        }
    }

    /// The frequency with which the text of a status begins. `None` where it begins with none.
    /// Takes no memory.
    pub fn of_status(text: &'a [u8]) -> Option<Frequency<'a>>
        ensures { option_map Spec.frequency_view result ≡ Spec.tuned_at text.now }
    {
        tuned_at(text)
    }

    /// The frequency of a Mic-E comment: at its start, or after a radio's mark, an altitude, or
    /// both. `None` where no frequency stands there. Takes no memory.
    #[tactic(auto, unfolding(crate::specs::Frequency::mic_e_frequency_of))]
    pub fn of_mic_e(comment: &'a [u8]) -> Option<Frequency<'a>>
        ensures { option_map Spec.frequency_view result ≡ Spec.mic_e_frequency_of comment.now }
    {
        match tuned_after_altitude(comment) {
            Some(frequency) => Some(frequency),
            None => tuned_after_altitude(without_mark(comment)),
        }
    }
}
