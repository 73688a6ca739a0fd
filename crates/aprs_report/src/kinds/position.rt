//! Positions.

ghost use Rattle.std.specs.Prelude.{◌≡◌};
ghost use Rattle.std.specs.Option.{option_map};
ghost use Rattle.aprs_report.specs.Reading.{view};
ghost use Rattle.aprs_report.specs.Reader.{position_of, stamped_position_of};

use crate::place::place_at_start;
use crate::report::Report;
use crate::stamp::{Stamp, stamp_at_start};

/// A position report, from the bytes after its first byte and its stamp: a position with its
/// symbol, and a comment. `messaging` says whether the station can take messages, and `stamp` is
/// the stamp that was read before, if there is one. `None` where the bytes begin with no
/// position.
#[tactic(auto, unfolding(crate::specs::Reader::position_of))]
pub fn position(messaging: bool, stamp: Option<Stamp>, bytes: &[u8]) -> Option<Report<'_>>
    ensures { option_map view result ≡ position_of messaging stamp bytes.now }
{
    let (place, symbol, comment) = place_at_start(bytes)?;
    Some(Report::Position {
        messaging,
        stamp,
        place,
        symbol,
        comment,
    })
}

/// A position report with a stamp, from the bytes of an information field after its first: a
/// stamp, a position with its symbol, and a comment. `messaging` says whether the station can
/// take messages. `None` where the stamp or the position can't be read.
#[tactic(auto, unfolding(crate::specs::Reader::stamped_position_of))]
pub fn stamped_position(messaging: bool, bytes: &[u8]) -> Option<Report<'_>>
    ensures { option_map view result ≡ stamped_position_of messaging bytes.now }
{
    let (stamp, rest) = stamp_at_start(bytes)?;
    position(messaging, Some(stamp), rest)
}
