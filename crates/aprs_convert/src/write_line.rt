//! What a run writes for a line of a log.
ghost use Rattle.std.specs.Prelude.{◌≡◌, ◌≤◌, ◌++◌, [], codes};
ghost use Rattle.aprs_ax25.specs.FrameFault.{parts_of};
ghost use Rattle.aprs_kiss.specs.Device.{Sends};
ghost use Rattle.aprs_report.specs.Reader.{reading_of};
ghost use Rattle.aprs_report.specs.Reading.{kind_of};
ghost use Rattle.arrayvec.specs.ArrayVec.{array_vec_len};
ghost use Rattle.aprs_convert.specs.Monitor.{monitor_text, kind_and_monitor_text};
ghost use Rattle.aprs_convert.specs.Conversion.{reception_text};
ghost use Rattle.aprs_convert.specs.Plan.{line_text};

use crate::form::Form;
use crate::monitor::push_monitor_text;
use crate::text::Text;
use aprs_ax25::Frame;
use aprs_io::push_all;
use aprs_kiss::{Counted, KissWriter, WriteFault, send};
use aprs_log::{Line, LogWriter, Reception};
use aprs_report::Report;
use std::io::Write;

/// Scratch for what is written for a line, kept from line to line.
#[derive(Drop)]
pub struct Scratch {
    text: Text,
    kiss: KissWriter,
    log: LogWriter,
}

impl Scratch {
    /// The scratch before the first line.
    pub fn new() -> Scratch {
        Scratch {
            text: Text::new(),
            kiss: KissWriter::new(),
            log: LogWriter::new(),
        }
    }
}

/// Writes what a form gives for a line; one that is passed over gives nothing. `scratch` is room
/// that is kept from line to line. At a fault a prefix of what is to be written went out.
pub fn write_line_as<W: Write>(
    form: &Form,
    w: &mut Counted<W>,
    line: &Line,
    scratch: &mut Scratch,
) -> Result<(), WriteFault>
    ensures { Sends W.contents result w.old w.new (line_text form.now line.now) }
{
    match line {
        Line::Heard(reception) => write_reception(form, w, reception, scratch),
        Line::Passed(_) => Ok(()),
    }
}

/// Writes what a form gives for a reception: a monitor's line, with or without the kind of report,
/// a KISS frame, or the line of a log. At a fault a prefix of it went out.
fn write_reception<W: Write>(
    form: &Form,
    w: &mut Counted<W>,
    reception: &Reception,
    scratch: &mut Scratch,
) -> Result<(), WriteFault>
    ensures { Sends W.contents result w.old w.new (reception_text form.now reception.now) }
{
    match form {
        Form::Text => write_monitor_line(w, reception.frame(), &mut scratch.text),
        Form::Kind => write_kind_line(w, reception.frame(), &mut scratch.text),
        Form::Kiss => scratch.kiss.write(w, reception.frame().bytes()),
        Form::Log | Form::Capture { .. } => scratch.log.write(w, reception),
    }
}

/// Writes the frame as a monitor prints it, and an LF; `text` is room for the line. At a fault a
/// prefix of the line went out.
fn write_monitor_line<W: Write>(
    w: &mut Counted<W>,
    frame: &Frame,
    text: &mut Text,
) -> Result<(), WriteFault>
    ensures { Sends W.contents result w.old w.new
        (monitor_text (parts_of frame.now) ++ codes "\n") }
{
    text.clear();
    push_monitor_line(text, frame);
    send(w, text.as_slice())
}

/// Writes the kind of report, a space, the frame as a monitor prints it, and an LF; `text` is room
/// for the line. At a fault a prefix of the line went out.
fn write_kind_line<W: Write>(
    w: &mut Counted<W>,
    frame: &Frame,
    text: &mut Text,
) -> Result<(), WriteFault>
    ensures { Sends W.contents result w.old w.new
        (kind_and_monitor_text (parts_of frame.now) ++ codes "\n") }
{
    text.clear();
    push_kind_line(text, frame);
    send(w, text.as_slice())
}

/// Puts the kind of report, a space, the frame as a monitor prints it, and an LF into the text,
/// which is empty.
fn push_kind_line(text: &mut Text, frame: &Frame)
    requires { text.old.items ≡ [] }
    ensures { text.new.items ≡ kind_and_monitor_text (parts_of frame.now) ++ codes "\n" }
{
    push_kind(text, frame.info());
    text.push(b' ');
    push_monitor_text(text, frame);
    text.push(b'\n');
}

/// Puts the name of the kind of the report in `info`, at most 8 bytes, at the end of `out`, which
/// is empty.
fn push_kind(out: &mut Text, info: &[u8])
    requires { array_vec_len out.old ≡ 0 }
    ensures name { out.new.items ≡ out.old.items ++ kind_of (reading_of info.now) }
    ensures most { array_vec_len out.new ≤ 8 }
{
    let kind = Report::read(info).kind();
    push_all(out, kind.as_bytes());
}

/// Puts the frame as a monitor prints it, and an LF into the text, which is empty.
fn push_monitor_line(text: &mut Text, frame: &Frame)
    requires { text.old.items ≡ [] }
    ensures { text.new.items ≡ monitor_text (parts_of frame.now) ++ codes "\n" }
{
    push_monitor_text(text, frame);
    text.push(b'\n');
}
