//! Moments that follow one another, as they are written.
ghost use Rattle.std.specs.Prelude.{◌≡◌, ◌<◌, ◌≤◌, ◌+◌, ◌%◌};
ghost use Rattle.aprs_log.specs.declared.moment_form.MomentForm.{MomentForm};
ghost use Rattle.aprs_log.specs.Moment.{moment_text, time_text};
ghost use Rattle.aprs_log.specs.Sizes.{last_milli};

use crate::moment::Moment;
use crate::moment::civil::{MILLIS_LEN, tens, units};
use crate::moment::clock::{DATE_LEN, MILLIS_A_DAY};

/// The bytes of a time of the day to the millisecond, with the `Z` after it.
const MILLIS_TIME_LEN: usize = MILLIS_LEN - DATE_LEN;

/// Writes moments that follow one another. It keeps the text of the last one and that day's first
/// moment, since lines of a log or a book that follow one another mostly have the same date.
#[derive(Drop)]
pub struct MomentWriter {
    text: [u8; MILLIS_LEN],
    /// The first moment of the day, in milliseconds since 1970-01-01T00:00:00Z.
    midnight: u64,
    /// The milliseconds from `midnight` to the moment whose text is kept.
    time: u64,
    ghost writes: { text ≡ moment_text (midnight + time) },
    ghost starts: { midnight % 86400000 ≡ 0 },
    ghost early: { midnight ≤ last_milli },
    ghost within: { time < 86400000 },
}

impl MomentWriter {
    /// A writer that keeps the first moment of 1970. Takes no memory.
    pub fn new() -> MomentWriter {
        MomentWriter {
            text: Moment::EPOCH.text(),
            midnight: 0,
            time: 0,
        }
    }

    /// The text of a moment to the millisecond, as `2024-05-01T12:00:00.000Z`. Keeps the text, so
    /// that of the next moment of that day the time alone is written. Takes no memory.
    pub fn text(&mut self, moment: Moment) -> [u8; 24]
        ensures { result ≡ moment_text moment }
    {
        // Wraps to a large number for a moment before the day that is kept.
        let time = moment.millis().wrapping_sub(self.midnight);
        if time >= MILLIS_A_DAY {
            self.begin_day(moment);
        } else if time != self.time {
            self.text[DATE_LEN..].copy_from_slice(&time_text(time as u32));
            self.time = time;
        }
        self.text
    }

    /// Keeps the text of a moment of another day, and the first moment of that day.
    #[cold]
    #[inline(never)]
    fn begin_day(&mut self, moment: Moment)
        ensures { self.new.midnight + self.new.time ≡ moment }
    {
        let millis = moment.millis();
        let time = millis % MILLIS_A_DAY;
        *self = MomentWriter {
            text: moment.text(),
            midnight: millis - time,
            time,
        };
    }
}

/// The text of a time of the day in milliseconds, as `12:00:00.000Z`.
#[inline(always)]
fn time_text(time: u32) -> [u8; MILLIS_TIME_LEN]
    requires { time < MILLIS_A_DAY }
    ensures { result ≡ time_text MomentForm.Millis time }
{
    let milli = time % 1000;
    let hour = (time / 3_600_000) as u8;
    let minute = (time / 60_000 % 60) as u8;
    let second = (time / 1000 % 60) as u8;
    let rest = (milli % 100) as u8;
    [
        tens(hour),
        units(hour),
        b':',
        tens(minute),
        units(minute),
        b':',
        tens(second),
        units(second),
        b'.',
        b'0' + (milli / 100) as u8,
        tens(rest),
        units(rest),
        b'Z',
    ]
}
