//! A table on its way out.
ghost use Rattle.std.specs.Prelude.{◌++◌, ℕ, List};
ghost use Rattle.aprs_io.specs.Device.{Sends};
ghost use Rattle.aprs_io.specs.Outlet.{Puts};

use aprs_io::{Counted, Outlet, WriteFault};
use std::io::Write;

/// What gives the lines of a table.
pub(crate) trait Lines: Drop {
    /// The lines, one after another.
    ghost lines: { Self → List ℕ };

    /// Puts the lines, in their order. Fails where the output is refused.
    fn put_lines<W: Write>(self, out: &mut Outlet<'_, W>) -> Result<(), WriteFault>
        ensures { Puts W.contents result out.old out.new (lines self) };
}

/// Writes a table: the names of its columns, and its lines. At a fault a prefix of this went out.
/// Takes no memory.
pub(crate) fn write_table<W: Write, L: Lines>(
    w: &mut Counted<W>,
    columns: &[u8],
    lines: L,
) -> Result<(), WriteFault>
    ensures { Sends W.contents result w.old w.new (columns.now ++ L.lines lines) }
{
    let mut out = Outlet::new(w);
    put_table(&mut out, columns, lines)?;
    out.flush()
}

/// Puts the names of a table's columns, and its lines. Fails where the output is refused.
fn put_table<W: Write, L: Lines>(
    out: &mut Outlet<'_, W>,
    columns: &[u8],
    lines: L,
) -> Result<(), WriteFault>
    ensures { Puts W.contents result out.old out.new (columns.now ++ L.lines lines) }
{
    out.put(columns)?;
    lines.put_lines(out)
}
