//! How moments are written.
ghost use Rattle.std.specs.Prelude.{◌≡◌};
ghost use Rattle.aprs_log.specs.Clock.{form_size};

use crate::moment::civil::{MILLIS_LEN, SECONDS_LEN};

/// How a moment is written: to the second, as `2024-05-01T12:00:00Z`, or to the millisecond, as
/// `2024-05-01T12:00:00.000Z`.
#[derive(Clone, Copy, Debug, PartialEq, Eq)]
pub enum MomentForm {
    /// To the second.
    Seconds,
    /// To the millisecond.
    Millis,
}

impl MomentForm {
    /// How many bytes a moment's text has in this form.
    pub(crate) fn size(self) -> usize
        ensures { result ≡ form_size self }
    {
        match self {
            MomentForm::Seconds => SECONDS_LEN,
            MomentForm::Millis => MILLIS_LEN,
        }
    }
}
