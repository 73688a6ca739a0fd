//! Notes of a program, which change nothing of how it ends.
ghost use Rattle.std.specs.Prelude.{◌≡◌};
ghost use Rattle.std.specs.List.{ends_with};
ghost use Rattle.aprs_io.specs.Device.{Sends};
ghost use Rattle.aprs_io.specs.Outlet.{Puts};
ghost use Rattle.aprs_host.specs.Note as Spec;

use crate::complaint::put_two;
use aprs_io::{Counted, Outlet, WriteFault};
use std::io::Write;

/// Writes that an input is empty: the program's name, a colon, a space, the input's path, the words
/// and LF. At a fault a prefix of this was written. Takes no memory.
pub fn note_empty<W: Write>(
    w: &mut Counted<W>,
    program: &[u8],
    path: &[u8],
) -> Result<(), WriteFault>
    ensures { Sends W.contents result w.old w.new (Spec.empty_text program.now path.now) }
{
    let mut out = Outlet::new(w);
    put_empty(&mut out, program, path)?;
    out.flush()
}

/// Puts the line of the note.
fn put_empty<W: Write>(
    out: &mut Outlet<'_, W>,
    program: &[u8],
    path: &[u8],
) -> Result<(), WriteFault>
    ensures { Puts W.contents result out.old out.new (Spec.empty_text program.now path.now) }
{
    put_two(out, program, b": ")?;
    put_two(out, path, b": is empty\n")
}

/// Whether a path is that of a book file by its name. Takes no memory.
pub fn is_book_name(path: &str) -> bool
    ensures { result ≡ Spec.is_book_name path.now }
{
    path.as_bytes().ends_with(b".book")
}
