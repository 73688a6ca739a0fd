//! Lines that are judged by their rows' sources.
ghost use Rattle.std.specs.Prelude.{◌≡◌, IfSome};
ghost use Rattle.hex.specs.Hex.{IsBytes};
ghost use Rattle.aprs_log.specs.declared.moment_form.MomentForm.{MomentForm};
ghost use Rattle.aprs_transmissions.specs.Row.{Row};
ghost use Rattle.aprs_bookfile.specs.Text.{IsBookRow, row_line};
ghost use Rattle.aprs_transmissions.specs.Key.{key_of};
ghost use Rattle.aprs_fold.specs.Range.{is_until};
ghost use Rattle.aprs_fold.specs.Lines.{IsJudged};

use crate::range::cut::last_space;
use aprs_ax25::{Callsign, Frame, MAX_UI_FRAME};
use aprs_io::decode_lower_into;

/// Whether the line is a row's whose source comes before `end`, or any row's where there is no
/// `end`. A line that begins with `END` is taken for the last line, which is no row's. `None` where
/// another line has no space, or no frame after its last one; nothing else of it is looked at.
pub fn is_before(line: &[u8], end: &Option<Callsign>) -> Option<bool>
    ensures { IfSome result (IsJudged end.now line.now) }
{
    if line.starts_with(b"END") {
        return Some(false);
    }
    let frame = frame_in(line)?;
    Some(comes_before(&frame, end))
}

/// Whether the frame's source comes before `end`. `true` where there is no `end`.
#[tactic(auto, unfolding(aprs_transmissions::specs::Key::key_of))]
fn comes_before(frame: &Frame, end: &Option<Callsign>) -> bool
    ensures { result ≡ is_until end.now (key_of frame.now).source }
{
    match end {
        Some(end) => frame.source().cmp(end).is_lt(),
        None => true,
    }
}

/// The frame of a row's line, whose digits are its last field. `None` where that is no frame, or no
/// space stands before it.
fn frame_in(line: &[u8]) -> Option<Frame>
    ensures { IfSome result (λ frame. (form : MomentForm) (x : Row) → IsBookRow form x
        → line.now ≡ row_line form x → frame ≡ x.greatest.frame) }
{
    let space = last_space(line)?;
    let digits = &line[space + 1..];
    if digits.len() > 2 * MAX_UI_FRAME {
        return None;
    }
    let mut room = [0; MAX_UI_FRAME];
    let count = decode_lower_into(digits, &mut room)?;
    frame_of(&room[..count])
}

/// The frame of these bytes, or `None` where they are no frame.
fn frame_of(bytes: &[u8]) -> Option<Frame>
    ensures frame { IfSome result (λ frame. frame ≡ bytes.now) }
    ensures bytes { IsBytes bytes.now }
{
    Frame::read(bytes).ok()
}
