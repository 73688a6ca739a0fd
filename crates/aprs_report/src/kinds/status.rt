//! Statuses.

ghost use Rattle.std.specs.Prelude.{◌≡◌};
ghost use Rattle.std.specs.Option.{option_map};
ghost use Rattle.aprs_report.specs.Reading.{view};
ghost use Rattle.aprs_report.specs.Reader.{utc_at, status_of};

use crate::report::Report;
use crate::stamp::{Stamp, stamp_at_start};

/// The stamp of day, hour and minute in UTC (its mark is `z`) that some bytes begin with, and the
/// rest, or `None` where they don't begin so.
#[tactic(auto, unfolding(crate::specs::Reader::utc_at))]
fn utc_at_start(bytes: &[u8]) -> Option<(Stamp, &[u8])>
    ensures { option_map (λ x. (x.0, x.1.now)) result ≡ utc_at bytes.now }
{
    let (stamp, rest) = stamp_at_start(bytes)?;
    if stamp.mark == b'z' {
        Some((stamp, rest))
    } else {
        None
    }
}

/// The status report that has these bytes after its `>`: a time stamp in UTC, if they begin with
/// one, and the text.
pub fn status(bytes: &[u8]) -> Report<'_>
    ensures { view result ≡ status_of bytes.now }
{
    match utc_at_start(bytes) {
        Some((stamp, text)) => Report::Status {
            stamp: Some(stamp),
            text,
        },
        None => Report::Status {
            stamp: None,
            text: bytes,
        },
    }
}
