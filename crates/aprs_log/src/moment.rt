//! Moments in milliseconds.
ghost use Rattle.std.specs.Prelude.{◌≡◌, ◌↔◌, ℕ, ◌≤◌, ◌*◌, ◌/◌, Some, SomeIff};
ghost use Rattle.std.specs.Fmt.{styled_text};
ghost use Rattle.std.specs.Ordering.{nat_cmp, as_partial_cmp};
ghost use Rattle.std.proofs.Common.{rules};
ghost use Rattle.std.specs.Cmp.{partial_order_from_own_ties};
ghost use Rattle.std.specs.Cmp.Rules.{comparing};
ghost use Rattle.aprs_log.specs.Sizes.{last_milli, last_second};
ghost use Rattle.aprs_log.specs.Moment.{IsTextOf, IsWritable, moment_text, moment_text_in};
ghost use Rattle.aprs_log.specs.MomentReading.{form_of_text, moment_of};

mod calendar;
pub(crate) mod civil;
pub(crate) mod clock;
pub(crate) mod writer;

use crate::MomentForm;
use civil::{CivilTime, SECONDS_LEN};
use std::cmp::Ordering;
use std::fmt;
use std::marker::Model;

/// The last second of the year 2099, in seconds since 1970-01-01T00:00:00Z.
pub(crate) const LAST_SECOND: u64 = 4_102_444_799;

/// The last millisecond of the year 2099, in milliseconds since 1970-01-01T00:00:00Z.
const LAST_MILLI: u64 = 4_102_444_799_999;

/// A whole millisecond from 1970-01-01T00:00:00.000Z to 2099-12-31T23:59:59.999Z. No second is a
/// leap second. Moments are ordered by their number of milliseconds.
#[derive(Clone, Copy, Debug, PartialEq, Eq)]
pub struct Moment {
    millis: u64,
}

impl Model for Moment {
    ghost Value = { ℕ };

    ghost view = { λ m. m.millis };

    ghost invariant = { λ m. m.millis ≤ last_milli };

    ghost inverse = { λ n. record { millis = n } };
}

impl Moment {
    /// The moment 1970-01-01T00:00:00Z.
    pub(crate) const EPOCH: Moment = Moment { millis: 0 };

    /// The moment `seconds` seconds after 1970-01-01T00:00:00Z, or `None` where these are more than
    /// 4,102,444,799, the last second of 2099. Takes no memory.
    pub fn new(seconds: u64) -> Option<Moment>
        ensures { SomeIff result (seconds ≤ last_second) (seconds * 1000) }
    {
        if seconds <= LAST_SECOND {
            Some(Moment {
                millis: seconds * 1000,
            })
        } else {
            None
        }
    }

    /// The moment `millis` milliseconds after 1970-01-01T00:00:00Z, or `None` where these are more
    /// than 4,102,444,799,999, the last millisecond of 2099. Takes no memory.
    pub fn from_millis(millis: u64) -> Option<Moment>
        ensures { SomeIff result (millis ≤ last_milli) millis }
    {
        if millis <= LAST_MILLI {
            Some(Moment { millis })
        } else {
            None
        }
    }

    /// The milliseconds since 1970-01-01T00:00:00Z. Takes no memory.
    pub fn millis(&self) -> u64
        ensures value { result ≡ self.now }
        ensures in_range { result ≤ last_milli }
    {
        self.millis
    }

    /// The whole seconds since 1970-01-01T00:00:00Z, rounded down. Takes no memory.
    pub fn seconds(&self) -> u64
        ensures value { result ≡ self.now / 1000 }
        ensures in_range { result ≤ last_second }
    {
        self.millis / 1000
    }

    /// The moment of a text such as `2024-05-01T12:00:00Z` or `2024-05-01T12:00:00.000Z`. `None`
    /// where the bytes aren't exactly such a text, of a date of the civil calendar from 1970 to
    /// 2099, an hour below 24, and a minute and a second below 60. Takes no memory.
    pub fn parse(text: &[u8]) -> Option<Moment>
        ensures value { result ≡ moment_of text.now }
        ensures exact { (m : ℕ) → (result ≡ Some m) ↔ IsTextOf m text.now }
    {
        Moment::parse_in(form_of(text), text)
    }

    /// The moment of a text in `form`. `None` where the text is in the other form, and wherever
    /// `parse` returns `None`. Takes no memory.
    pub fn parse_in(form: MomentForm, text: &[u8]) -> Option<Moment>
        ensures exact { (m : ℕ)
            → (result ≡ Some m) ↔ (IsWritable form m × (text.now ≡ moment_text_in form m)) }
    {
        match CivilTime::parse(form, text) {
            Some(read) => match read.0.seconds() {
                Some(seconds) => Some(Moment {
                    millis: seconds * 1000 + u64::from(read.1),
                }),
                None => None,
            },
            None => None,
        }
    }

    /// The moment's text to the millisecond, as `2024-05-01T12:00:00.000Z`, which `parse` reads
    /// back as the same moment. Takes no memory.
    pub fn text(&self) -> [u8; 24]
        ensures value { result ≡ moment_text self.now }
        ensures writable { IsWritable MomentForm.Millis self.now }
        ensures reads_back { moment_of result ≡ Some self.now }
    {
        CivilTime::from_seconds(self.millis / 1000).text((self.millis % 1000) as u16)
    }

    /// The same moment. Takes no memory.
    pub fn copy(&self) -> Moment
        ensures { result ≡ self.now }
    {
        *self
    }
}

/// Writes the moment's text to the millisecond, padded or cut as a text is, as `{:>26}` or `{:.10}`
/// asks.
impl fmt::Display for Moment {
    ghost output = { λ m. Some (moment_text m) };

    ghost styled_output = { λ m options. Some (styled_text options (moment_text m)) };

    fn fmt<W: fmt::Write>(&self, f: &mut fmt::Formatter<W>) -> fmt::Result {
        match str::from_utf8(&self.text()) {
            Ok(text) => f.pad(text),
            Err(_) => unreachable!(),
        }
    }
}

impl Ord for Moment {
    ghost cmp = { nat_cmp };

    ghost total = { Prim.search (comparing, rules) };

    ghost matches_partial_cmp = { Prim.search (comparing, rules) };

    ghost matches_eq = { Prim.search (comparing, rules) };

    fn cmp(&self, other: &Moment) -> Ordering {
        self.millis.cmp(&other.millis)
    }
}

impl PartialOrd for Moment {
    ghost partial_cmp = { as_partial_cmp nat_cmp };

    ghost laws = { partial_order_from_own_ties (Prim.search (comparing, rules))
        (Prim.search (comparing, rules)) };

    fn partial_cmp(&self, other: &Moment) -> Option<Ordering> {
        Some(self.cmp(other))
    }
}

/// The one form that a text can be in, by its length: `Seconds` for 20 bytes, and `Millis` for any
/// other number.
fn form_of(text: &[u8]) -> MomentForm
    ensures { result ≡ form_of_text text.now }
{
    if text.len() == SECONDS_LEN {
        MomentForm::Seconds
    } else {
        MomentForm::Millis
    }
}
