//! Days of the civil calendar, by their number.
ghost use Rattle.std.specs.Prelude.{◌≡◌, ◌≤◌, ◌<◌, pos, MatchOption};
ghost use Rattle.jiff_core.specs.Calendar.{days_from_civil};
ghost use Rattle.aprs_log.specs.CivilMoment.{IsDay};

use jiff::ToSpan;
use jiff::civil::Date;

/// The days from -9999-01-01, at which the calendar's own count begins, to 1970-01-01.
const DAYS_BEFORE_1970: u32 = 4_371_587;

/// The days from 1970-01-01 to a date, or `None` where the calendar doesn't have the date. They are
/// below 47,482, the number of 2100-01-01. Requires a year from 1970 to 2099, and a month and a day
/// below 100.
pub fn day_number(year: u16, month: u8, day: u8) -> Option<u32>
    requires low { 1970 ≤ year }
    requires high { year ≤ 2099 }
    requires month { month < 100 }
    requires day { day < 100 }

    ensures { MatchOption result (IsDay year month day → ⊥)
        (λ n. IsDay year month day × (pos n ≡ days_from_civil (pos year) month day) × (n < 47482)) }
{
    match Date::new(year as i16, month as i8, day as i8) {
        Ok(date) => Some(date.to_plain().days_since_min() - DAYS_BEFORE_1970),
        Err(_) => None,
    }
}

/// The date `day` days after 1970-01-01: its year, month and day. Requires that it is before
/// 2100-01-01, the day with the number 47,482.
pub fn date_of(day: u32) -> (u16, u8, u8)
    requires { day < 47482 }
    ensures date { IsDay result.0 result.1 result.2 }
    ensures number { days_from_civil (pos result.0) result.1 result.2 ≡ pos day }
{
    let span = (day as i64).days();
    let date = Date::constant(1970, 1, 1).saturating_add(span).to_plain();
    (date.year.unsigned_abs(), date.month, date.day)
}
