//! Lines out of a window.
ghost use Rattle.aprs_log.specs.ReaderSteps.{line_in};
ghost use Rattle.std.specs.Prelude.{◌≡◌, ◌<◌, length, None, Some, IfNone, IfSome, OnErr};
ghost use Rattle.aprs_io.specs.Cut.{Cut, cut_at};
ghost use Rattle.aprs_log.specs.Line.{line_of};
ghost use Rattle.aprs_log.specs.Window.{items};

use crate::fault::LineFault;
use crate::line::line_buffers::LineBuffers;
use crate::line::{Line, read_fields};
use crate::reader::window::Window;
use aprs_io::cut_at;

/// Takes the first line and its LF out of the window and reads it into `found`. A line at fault is
/// taken out too, but leaves `found` as it was. `None` where the window holds no whole line: then
/// window and `found` stay.
pub fn take_line(
    window: &mut Window,
    scratch: &mut LineBuffers,
    found: &mut Line,
) -> Option<Result<(), LineFault>>
    ensures none { IfNone result ((cut_at 10 (items window.old) ≡ None)
        × (items window.new ≡ items window.old) × (found.new ≡ found.old)) }
    ensures some { IfSome result (λ r. (cut : Cut) × (cut_at 10 (items window.old) ≡ Some cut)
        × (line_in r found.new ≡ line_of cut.before) × (items window.new ≡ cut.after)) }
    ensures unchanged { IfSome result (λ r. OnErr r (found.new ≡ found.old)) }
    ensures shorter { IfSome result (λ _. length (items window.new) < length (items window.old)) }
{
    let Some((line, _)) = cut_at(window.as_slice(), b'\n') else {
        return None;
    };
    let used = line.len() + 1;
    let answer = read_fields(line, scratch, found);
    window.consume(used);
    Some(answer)
}
