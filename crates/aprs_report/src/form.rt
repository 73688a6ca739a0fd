//! The reports that have a form of their own.

ghost use Rattle.std.specs.Prelude.{◌≡◌};
ghost use Rattle.std.specs.Option.{option_map};
ghost use Rattle.aprs_report.specs.Reading.{view};
ghost use Rattle.aprs_report.specs.Reader.{report_by_form};

use crate::kinds::message::message;
use crate::kinds::object::{item, object};
use crate::kinds::position::{position, stamped_position};
use crate::kinds::status::status;
use crate::report::Report;

/// The report that an information field is, by its first byte. `None` where no kind of report
/// begins with that byte, or where the bytes after it don't have the form of that kind.
#[inline(always)]
#[tactic(auto, unfolding(crate::specs::Reader::report_by_form))]
pub fn form(info: &[u8]) -> Option<Report<'_>>
    ensures { option_map view result ≡ report_by_form info.now }
{
    match info {
        [b'!', rest @ ..] => position(false, None, rest),
        [b'=', rest @ ..] => position(true, None, rest),
        [b'/', rest @ ..] => stamped_position(false, rest),
        [b'@', rest @ ..] => stamped_position(true, rest),
        [b';', rest @ ..] => object(rest),
        [b')', rest @ ..] => item(rest),
        [b'>', rest @ ..] => Some(status(rest)),
        [b':', rest @ ..] => message(rest),
        _ => None,
    }
}
