//! The lines of the tables on their way out.
ghost use Rattle.std.specs.Prelude.{◌∷◌, ◌++◌, map};
ghost use Rattle.aprs_io.specs.Outlet.{Puts};
ghost use Rattle.aprs_table.specs.Cells.{cell_text};
ghost use Rattle.aprs_lists.specs.Lines.{tabbed_line};

use aprs_io::{Outlet, WriteFault};
use aprs_table::{Cell, put_cell, put_cells};
use std::io::Write;

/// Puts a line: these fields, in their order, with a tab between two, and LF. Fails where the
/// output is refused.
pub fn put_line<W: Write>(
    out: &mut Outlet<'_, W>,
    first: &Cell<'_>,
    second: &[Cell<'_>],
    third: &[Cell<'_>],
) -> Result<(), WriteFault>
    ensures { Puts W.contents result out.old out.new (tabbed_line
        (cell_text first.now ∷ map cell_text second.now ++ map cell_text third.now)) }
{
    put_long_line(out, first, second, third, &[])
}

/// Puts a line of a first field and three lists of fields, in their order, with a tab between two
/// fields, and LF. Fails where the output is refused.
pub fn put_long_line<W: Write>(
    out: &mut Outlet<'_, W>,
    first: &Cell<'_>,
    second: &[Cell<'_>],
    third: &[Cell<'_>],
    fourth: &[Cell<'_>],
) -> Result<(), WriteFault>
    ensures { Puts W.contents result out.old out.new
        (tabbed_line (cell_text first.now ∷ map cell_text second.now
        ++ (map cell_text third.now ++ map cell_text fourth.now))) }
{
    put_cell(out, first)?;
    put_cells(out, second)?;
    put_cells(out, third)?;
    put_cells(out, fourth)?;
    out.put(b"\n")
}
