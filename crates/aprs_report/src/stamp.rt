//! Time stamps.

ghost use Rattle.std.specs.Prelude.{◌≡◌};
ghost use Rattle.std.specs.Option.{option_map};
ghost use Rattle.std.specs.List.{list_all};
ghost use Rattle.aprs_report.specs.Bytes.{is_digit};
ghost use Rattle.aprs_report.specs.Stamp.{is_time_mark};
ghost use Rattle.aprs_report.specs.Reader.{byte_where, stamp_at};

use crate::bytes::{chunk, is_digit_byte};

/// When a report says that it was made (APRS Protocol Reference 1.0.1, chapter 6). The digits'
/// ranges are not tested.
#[derive(Clone, Copy, Debug, PartialEq, Eq)]
pub struct Stamp {
    /// Day, hour and minute, or, at the mark `h`, hour, minute and second: two digits each.
    pub digits: [u8; 6],
    /// `z` for UTC, `/` for local time, `h` for a time of day in UTC.
    pub mark: u8,
}

impl Stamp {
    ghost use Rattle.aprs_report.specs.Stamp.{stamp_bytes};

    /// The six digits and the mark, as a report has them (APRS Protocol Reference 1.0.1, chapter
    /// 6). Takes no memory.
    pub fn text(&self) -> [u8; 7]
        ensures { result ≡ stamp_bytes self.now }
    {
        let mut text = [self.mark; 7];
        text[..6].copy_from_slice(&self.digits);
        text
    }
}

/// Whether each byte is a digit, `0` to `9`.
fn all_digits(bytes: &[u8]) -> bool
    ensures { result ≡ list_all is_digit bytes.now }
{
    bytes.iter().all(|byte| is_digit_byte(*byte))
}

/// The mark of a time stamp (`z`, `/` or `h`) that some bytes begin with, and the rest, or `None`
/// where they don't begin so.
fn mark_at_start(bytes: &[u8]) -> Option<(u8, &[u8])>
    ensures { option_map (λ x. (x.0, x.1.now)) result ≡ byte_where is_time_mark bytes.now }
{
    match bytes {
        [mark @ (b'z' | b'/' | b'h'), rest @ ..] => Some((*mark, rest)),
        _ => None,
    }
}

/// The time stamp that some bytes begin with, six digits and a mark (`z`, `/` or `h`), and the
/// rest. `None` where they don't begin so.
#[tactic(auto, unfolding(crate::specs::Reader::stamp_at))]
pub fn stamp_at_start(bytes: &[u8]) -> Option<(Stamp, &[u8])>
    ensures { option_map (λ x. (x.0, x.1.now)) result ≡ stamp_at bytes.now }
{
    let (digits, rest) = chunk::<6>(bytes)?;
    let (mark, rest) = mark_at_start(rest)?;
    if !all_digits(digits) {
        return None;
    }
    let stamp = Stamp {
        digits: *digits,
        mark,
    };
    Some((stamp, rest))
}
