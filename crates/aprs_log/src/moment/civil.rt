//! Dates of the civil calendar with a time of the day.
ghost use Rattle.std.specs.Prelude.{◌≡◌, ◌≤◌, ◌<◌, ◌+◌, ◌*◌, ◌/◌, ◌%◌, length, SomeIff, IfSome};
ghost use Rattle.aprs_log.specs.CivilMoment.{IsCivil};
ghost use Rattle.aprs_log.specs.MomentReading as Spec;
ghost use Rattle.aprs_log.specs.Sizes.{last_second, seconds_size};
ghost use Rattle.aprs_log.specs.Places.{near_civil, near_digit, near_millis, nearest_pair};

use crate::MomentForm;
use crate::moment::calendar::{date_of, day_number};
use std::marker::Model;

/// The bytes of a date and time's text to the second.
pub const SECONDS_LEN: usize = 20;

/// The bytes of a date and time's text to the millisecond.
pub const MILLIS_LEN: usize = 24;

/// A date and a time of its day, as the digits of a text say them. The calendar may lack the date,
/// and a day the time.
#[derive(Clone, Copy)]
pub struct CivilTime {
    year: u16,
    month: u8,
    day: u8,
    hour: u8,
    minute: u8,
    second: u8,
}

impl Model for CivilTime {
    ghost Value = { Spec.Civil };

    ghost view = { λ c. record {
      year = c.year;
      month = c.month;
      day = c.day;
      hour = c.hour;
      minute = c.minute;
      second = c.second;
    } };

    ghost invariant = { λ c. (c.year < 10000) × (c.month < 100) × (c.day < 100)
        × (c.hour < 100) × (c.minute < 100) × (c.second < 100) };

    ghost inverse = { λ c. record {
      year = c.year;
      month = c.month;
      day = c.day;
      hour = c.hour;
      minute = c.minute;
      second = c.second;
    } };
}

impl CivilTime {
    /// The date and time of a text in this form, and its milliseconds, or `None` where the text
    /// isn't in this form. Ranges aren't tested: a month may be 99.
    pub fn parse(form: MomentForm, text: &[u8]) -> Option<(CivilTime, u16)>
        ensures { SomeIff result
            (Spec.civil_text form (near_civil text.now) (near_millis form text.now) ≡ text.now)
            (near_civil text.now, near_millis form text.now) }
    {
        match form {
            MomentForm::Seconds => CivilTime::parse_short(text),
            MomentForm::Millis => CivilTime::parse_long(text),
        }
    }

    /// The date and time of a text in the form `2024-05-01T12:00:00Z`, with 0 milliseconds, or
    /// `None` where the text isn't in this form. Ranges aren't tested: a month may be 99.
    fn parse_short(text: &[u8]) -> Option<(CivilTime, u16)>
        ensures { SomeIff result
            (Spec.civil_text MomentForm.Seconds (near_civil text.now) 0 ≡ text.now)
            (near_civil text.now, 0) }
    {
        if text.len() != SECONDS_LEN {
            return None;
        }
        let civil = CivilTime::from_digits(text);
        // Written again, it differs where a byte was no digit, or not the right mark.
        if civil.short_text().as_slice() == text {
            Some((civil, 0))
        } else {
            None
        }
    }

    /// The date and time of a text in the form `2024-05-01T12:00:00.000Z`, and its milliseconds, or
    /// `None` where the text isn't in this form. Ranges aren't tested: a month may be 99.
    fn parse_long(text: &[u8]) -> Option<(CivilTime, u16)>
        ensures { SomeIff result (Spec.civil_text MomentForm.Millis (near_civil text.now)
            (near_millis MomentForm.Millis text.now) ≡ text.now)
            (near_civil text.now, near_millis MomentForm.Millis text.now) }
    {
        if text.len() != MILLIS_LEN {
            return None;
        }
        let civil = CivilTime::from_digits(text);
        let millis = u16::from(near_digit(text[20])) * 100 + u16::from(nearest_pair(text, 21));
        // Written again, it differs where a byte was no digit, or not the right mark.
        if civil.text(millis).as_slice() == text {
            Some((civil, millis))
        } else {
            None
        }
    }

    /// The time whose digits stand at their places in a text of at least 20 bytes. A byte that is
    /// no digit counts as 0 or 9, whichever is nearer.
    fn from_digits(text: &[u8]) -> CivilTime
        requires { seconds_size ≤ length text.now }
        ensures { result ≡ near_civil text.now }
    {
        CivilTime {
            year: u16::from(nearest_pair(text, 0)) * 100 + u16::from(nearest_pair(text, 2)),
            month: nearest_pair(text, 5),
            day: nearest_pair(text, 8),
            hour: nearest_pair(text, 11),
            minute: nearest_pair(text, 14),
            second: nearest_pair(text, 17),
        }
    }

    /// The date and the time of the day `seconds` seconds after 1970-01-01T00:00:00Z. Requires that
    /// this is before the year 2100.
    pub fn from_seconds(seconds: u64) -> CivilTime
        requires { seconds ≤ last_second }
        ensures real { IsCivil result }
        ensures number { Spec.seconds_of result ≡ seconds }
    {
        let second = (seconds % 86_400) as u32;
        let (year, month, day) = date_of((seconds / 86_400) as u32);
        CivilTime {
            year,
            month,
            day,
            hour: (second / 3600) as u8,
            minute: (second / 60 % 60) as u8,
            second: (second % 60) as u8,
        }
    }

    /// The seconds from 1970-01-01T00:00:00Z to this time, or `None` where the years 1970 to 2099
    /// don't have the date, or a day doesn't have the time.
    pub fn seconds(&self) -> Option<u64>
        ensures value { SomeIff result (IsCivil self.now) (Spec.seconds_of self.now) }
        ensures bound { IfSome result (λ n. n ≤ last_second) }
    {
        if self.year < 1970 || self.year > 2099 || !self.is_time() {
            return None;
        }
        match day_number(self.year, self.month, self.day) {
            Some(day) => Some(u64::from(day) * 86_400 + u64::from(self.second_of_day())),
            None => None,
        }
    }

    /// Whether a day has this hour, minute and second.
    fn is_time(&self) -> bool
        ensures { result ≡ Spec.is_time self.now }
    {
        self.hour < 24 && self.minute < 60 && self.second < 60
    }

    /// The seconds from the start of the day to this time. Hour, minute and second are below 100,
    /// so that the sum is below 363,000 even where no day has the time.
    fn second_of_day(&self) -> u32
        ensures value { result ≡ Spec.second_of_day self.now }
        ensures bound { result < 363000 }
    {
        u32::from(self.hour) * 3600 + u32::from(self.minute) * 60 + u32::from(self.second)
    }

    /// The text to the second, as `2024-05-01T12:00:00Z`.
    fn short_text(&self) -> [u8; SECONDS_LEN]
        ensures { result ≡ Spec.civil_text MomentForm.Seconds self.now 0 }
    {
        let century = (self.year / 100) as u8;
        let year = (self.year % 100) as u8;
        [
            tens(century),
            units(century),
            tens(year),
            units(year),
            b'-',
            tens(self.month),
            units(self.month),
            b'-',
            tens(self.day),
            units(self.day),
            b'T',
            tens(self.hour),
            units(self.hour),
            b':',
            tens(self.minute),
            units(self.minute),
            b':',
            tens(self.second),
            units(self.second),
            b'Z',
        ]
    }

    /// The text to the millisecond, as `2024-05-01T12:00:00.000Z`. `millis` are the milliseconds of
    /// the second, below 1,000.
    pub fn text(&self, millis: u16) -> [u8; MILLIS_LEN]
        requires { millis < 1000 }
        ensures { result ≡ Spec.civil_text MomentForm.Millis self.now millis }
    {
        let mut text = [b'Z'; MILLIS_LEN];
        // The text to the second has 19 bytes before its `Z`.
        text[..19].copy_from_slice(&self.short_text()[..19]);
        text[19] = b'.';
        text[20] = b'0' + (millis / 100) as u8;
        text[21] = tens((millis % 100) as u8);
        text[22] = units((millis % 100) as u8);
        text
    }
}

/// The value of a digit. For a byte below `0` it is 0, and for one above `9` it is 9.
fn near_digit(byte: u8) -> u8
    ensures value { result ≡ near_digit byte }
    ensures bound { result ≤ 9 }
{
    byte.saturating_sub(b'0').min(9)
}

/// The number whose two digits stand at `i` and after it. A byte that is no digit counts as 0 or 9,
/// whichever is nearer.
fn nearest_pair(text: &[u8], i: usize) -> u8
    requires { i + 1 < length text.now }
    ensures value { result ≡ nearest_pair text.now i }
    ensures bound { result < 100 }
{
    near_digit(text[i]) * 10 + near_digit(text[i + 1])
}

/// The tens digit of a number below 100, as an ASCII byte.
pub fn tens(n: u8) -> u8
    requires { n < 100 }
    ensures { result ≡ 48 + n / 10 }
{
    b'0' + n / 10
}

/// The last digit of a number, as an ASCII byte.
pub fn units(n: u8) -> u8
    ensures { result ≡ 48 + n % 10 }
{
    b'0' + n % 10
}
