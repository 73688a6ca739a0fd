//! Frames as a monitor prints them.
ghost use Rattle.std.specs.Prelude.{◌≡◌, ◌≤◌, ◌++◌};
ghost use Rattle.arrayvec.specs.ArrayVec.{array_vec_len};
ghost use Rattle.aprs_ax25.specs.FrameFault.{parts_of};
ghost use Rattle.aprs_convert.specs.Monitor.{monitor_text};

use crate::text::{Text, push_shown};
use aprs_ax25::{Frame, FrameRef, push_hops_text};

/// Puts the frame as a monitor prints it at the end of `out`: source, destination, digipeaters and
/// information. `out` holds at most 10 bytes before, which leaves room for every frame.
pub fn push_monitor_text(out: &mut Text, frame: &Frame)
    requires { array_vec_len out.old ≤ 10 }
    ensures text { out.new.items ≡ out.old.items ++ monitor_text (parts_of frame.now) }
    ensures most { array_vec_len out.new ≤ 1152 }
{
    let frame = FrameRef::of(frame);
    frame.push_source_text(out);
    out.push(b'>');
    frame.push_destination_text(out);
    push_hops_text(out, &frame);
    out.push(b':');
    push_shown(out, frame.info());
}
