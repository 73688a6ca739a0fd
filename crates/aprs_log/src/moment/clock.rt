//! Moments that follow one another.
ghost use Rattle.std.specs.Prelude.{◌≡◌, ◌⊎◌, ◌↔◌, ℕ, ◌≤◌, ◌<◌, ◌+◌, ◌∷◌, ◌++◌, [], length, take, drop, slice_index, Some, IfSome};
ghost use Rattle.std.specs.Bool.{OnTrue};
ghost use Rattle.std.specs.Int.{w64, to_le_bytes};
ghost use Rattle.aprs_log.specs.declared.moment_form.MomentForm.{MomentForm};
ghost use Rattle.aprs_log.specs.Clock as Spec;
ghost use Rattle.aprs_log.specs.Sizes.{seconds_size};
ghost use Rattle.aprs_log.specs.Moment.{IsWritable, moment_text_in, two_digits};
ghost use Rattle.aprs_log.specs.MomentReading.{moment_in, moment_of};

use crate::MomentForm;
use crate::moment::Moment;

/// The bytes of a moment's date, with the `T` after it.
pub const DATE_LEN: usize = 11;

/// The bytes of a time's hour, minute and second.
const TIME_LEN: usize = 8;

/// How many milliseconds a day has.
pub const MILLIS_A_DAY: u64 = 86_400_000;

/// Reads moments that follow one another. It keeps the date of the last one and that day's first
/// moment, since lines of a log or a book that follow one another mostly have the same date.
#[derive(Drop)]
pub struct Clock {
    date: [u8; DATE_LEN],
    midnight: Moment,
    ghost reads: { moment_in MomentForm.Seconds (date ++ Spec.midnight_text) ≡ Some midnight },
}

impl Clock {
    /// A clock that keeps the date 1970-01-01. Takes no memory.
    pub fn new() -> Clock {
        Clock {
            date: *b"1970-01-01T",
            midnight: Moment::EPOCH,
        }
    }

    /// The moment of a text in `form`, or `None` where the text isn't that of a moment in this
    /// form. Keeps the date of a moment that it returns, so that the next one of that day is read
    /// sooner. Takes no memory.
    pub fn parse_in(&mut self, form: MomentForm, text: &[u8]) -> Option<Moment>
        ensures exact { (m : ℕ)
            → (result ≡ Some m) ↔ (IsWritable form m × (text.now ≡ moment_text_in form m)) }
    {
        if text.len() != form.size() {
            return None;
        }
        self.parse(text)
    }

    /// The moment of a text of 20 or 24 bytes, or `None` where it isn't the text of a moment. Keeps
    /// the date of a moment that it returns.
    pub(crate) fn parse(&mut self, text: &[u8]) -> Option<Moment>
        requires { (length text.now ≡ seconds_size) ⊎ (length text.now ≡ Spec.millis_size) }
        ensures { result ≡ moment_of text.now }
    {
        match self.parse_same_day(text) {
            Some(moment) => Some(moment),
            None => self.parse_and_keep_date(text),
        }
    }

    /// The moment of a text of 20 or 24 bytes, where it has the date that is kept. `None` decides
    /// nothing: the text may be that of a moment of another date.
    fn parse_same_day(&self, text: &[u8]) -> Option<Moment>
        requires { (length text.now ≡ seconds_size) ⊎ (length text.now ≡ Spec.millis_size) }
        ensures { IfSome result (λ m. moment_of text.now ≡ Some m) }
    {
        if !has_date(text, &self.date) {
            return None;
        }
        let (_, rest) = text.split_at(DATE_LEN);
        let (time, fraction) = rest.split_at(TIME_LEN);
        let second = second_of_text(time)?;
        let milli = milli_of_text(fraction)?;
        Moment::from_millis(self.midnight.millis() + u64::from(second) * 1000 + u64::from(milli))
    }

    /// The moment of a text of 20 or 24 bytes, of any date, which is then kept. `None` where it
    /// isn't the text of a moment; then the date before is kept on.
    #[cold]
    #[inline(never)]
    fn parse_and_keep_date(&mut self, text: &[u8]) -> Option<Moment>
        requires { (length text.now ≡ seconds_size) ⊎ (length text.now ≡ Spec.millis_size) }
        ensures { result ≡ moment_of text.now }
    {
        let moment = Moment::parse(text)?;
        let millis = moment.millis();
        // The first moment of that day: it is no later, so there always is one.
        if let Some(midnight) = Moment::from_millis(millis - millis % MILLIS_A_DAY) {
            let mut date = [0; DATE_LEN];
            date.copy_from_slice(&text[..DATE_LEN]);
            *self = Clock { date, midnight };
        }
        Some(moment)
    }
}

/// Whether a text begins with this date: two words of eight bytes, which overlap, have all of it.
#[inline(always)]
fn has_date(text: &[u8], date: &[u8; DATE_LEN]) -> bool
    requires { DATE_LEN ≤ length text.now }
    ensures { OnTrue result (take DATE_LEN text.now ≡ date.now) }
{
    word_at(text, 0) == word_at(date, 0) && word_at(text, 3) == word_at(date, 3)
}

/// The eight bytes at a place, as a number whose lowest byte is the first of them.
#[inline(always)]
fn word_at(bytes: &[u8], place: usize) -> u64
    requires { place + 8 ≤ length bytes.now }
    ensures { to_le_bytes w64 result ≡ take 8 (drop place bytes.now) }
{
    let mut word = [0; 8];
    word.copy_from_slice(&bytes[place..place + 8]);
    u64::from_le_bytes(word)
}

/// The second of the day that a text of 8 bytes says, as `12:00:00`, or `None` where it says none.
fn second_of_text(text: &[u8]) -> Option<u32>
    requires { length text.now ≡ TIME_LEN }
    ensures says { IfSome result (λ n. Spec.SecondText n text.now) }
    ensures reads { (n : ℕ) → Spec.SecondText n text.now → result ≡ Some n }
{
    let (hour, minute, second) = (number_at(text, 0), number_at(text, 3), number_at(text, 6));
    if text[2] == b':' && text[5] == b':' && hour < 24 && minute < 60 && second < 60 {
        Some(u32::from(hour) * 3600 + u32::from(minute) * 60 + u32::from(second))
    } else {
        None
    }
}

/// The millisecond that the end of a moment's text says: 0 for `Z`, and 0 to 999 for `.000Z` to
/// `.999Z`, or `None` where it is neither. Requires 1 or 5 bytes.
fn milli_of_text(text: &[u8]) -> Option<u32>
    requires { (length text.now ≡ 1) ⊎ (length text.now ≡ 5) }
    ensures says { IfSome result
        (λ n. Spec.IsFractionText (Spec.form_of_end text.now) n text.now) }
    ensures reads { (n : ℕ) → Spec.IsFractionText (Spec.form_of_end text.now) n text.now
        → result ≡ Some n }
{
    if text.len() == 1 {
        return if text[0] == b'Z' { Some(0) } else { None };
    }
    let hundreds = text[1].wrapping_sub(b'0');
    let tens = text[2].wrapping_sub(b'0');
    let units = text[3].wrapping_sub(b'0');
    if text[0] == b'.' && hundreds < 10 && tens < 10 && units < 10 && text[4] == b'Z' {
        Some(u32::from(hundreds) * 100 + u32::from(tens) * 10 + u32::from(units))
    } else {
        None
    }
}

/// The number whose two digits stand at `i` and after it, or 255 where one of these bytes is no
/// digit.
fn number_at(text: &[u8], i: usize) -> u8
    requires { i + 1 < length text.now }
    ensures says { result < 100
        → two_digits result ≡ slice_index text.now i ∷ slice_index text.now (i + 1) ∷ [] }
    ensures reads { (n : ℕ) → n < 100
        → two_digits n ≡ slice_index text.now i ∷ slice_index text.now (i + 1) ∷ [] → result ≡ n }
{
    let tens = text[i].wrapping_sub(b'0');
    let units = text[i + 1].wrapping_sub(b'0');
    if tens < 10 && units < 10 {
        tens * 10 + units
    } else {
        255
    }
}
