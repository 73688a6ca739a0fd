//! The lines of histories and listings on their way out.
//!
//! Words of the contracts here:
//! - As it is shown: a backslash and each byte outside 20 to 7E stand as a backslash, x and two
//!   hexadecimal digits.
ghost use Rattle.std.specs.Prelude.{◌++◌, codes, map};
ghost use Rattle.std.specs.List.{flat_map};
ghost use Rattle.aprs_io.specs.Outlet.{Puts};
ghost use Rattle.aprs_io.specs.Shown.{shown_text};
ghost use Rattle.aprs_table.specs.FieldText.{field_text, spaced_field};
ghost use Rattle.aprs_table.specs.SpacedLine.{after_space, line_with_text, spaced_line};

use crate::field::{Field, put_field};
use aprs_io::{Outlet, WriteFault, put_shown};
use std::io::Write;

/// Puts a line: its kind, each of `fields` and then of `others` after a space, and LF. Fails where
/// the output is refused.
pub fn put_spaced_line<W: Write>(
    out: &mut Outlet<'_, W>,
    kind: &[u8],
    fields: &[Field<'_>],
    others: &[Field<'_>],
) -> Result<(), WriteFault>
    ensures { Puts W.contents result out.old out.new (spaced_line kind.now
        (map field_text fields.now ++ map field_text others.now)) }
{
    put_start(out, kind, fields, others)?;
    // No text follows.
    out.put(b"\n")
}

/// Puts a line: its kind, each of `fields` and then of `others` after a space, a colon, the text
/// as it is shown, and LF. Fails where the output is refused.
pub fn put_text_line<W: Write>(
    out: &mut Outlet<'_, W>,
    kind: &[u8],
    fields: &[Field<'_>],
    others: &[Field<'_>],
    text: &[u8],
) -> Result<(), WriteFault>
    ensures { Puts W.contents result out.old out.new (line_with_text kind.now
        (map field_text fields.now ++ map field_text others.now) text.now) }
{
    put_start(out, kind, fields, others)?;
    put_text(out, text)
}

/// Puts the start of a line: its kind, and each of `fields` and then of `others` after a space.
/// Fails where the output is refused.
fn put_start<W: Write>(
    out: &mut Outlet<'_, W>,
    kind: &[u8],
    fields: &[Field<'_>],
    others: &[Field<'_>],
) -> Result<(), WriteFault>
    ensures { Puts W.contents result out.old out.new (kind.now
        ++ flat_map after_space (map field_text fields.now ++ map field_text others.now)) }
{
    out.put(kind)?;
    put_fields(out, fields)?;
    put_fields(out, others)
}

/// Puts each field after a space. Fails where the output is refused.
fn put_fields<W: Write>(out: &mut Outlet<'_, W>, fields: &[Field<'_>]) -> Result<(), WriteFault>
    ensures { Puts W.contents result out.old out.new (flat_map spaced_field fields.now) }
{
    for field in fields {
        put_spaced(out, field)?;
    }
    Ok(())
}

/// Puts a space and the field. Fails where the output is refused.
fn put_spaced<W: Write>(out: &mut Outlet<'_, W>, field: &Field<'_>) -> Result<(), WriteFault>
    ensures { Puts W.contents result out.old out.new (spaced_field field.now) }
{
    out.put(b" ")?;
    put_field(out, field)
}

/// Puts a colon, the text as it is shown, and LF. Fails where the output is refused.
fn put_text<W: Write>(out: &mut Outlet<'_, W>, text: &[u8]) -> Result<(), WriteFault>
    ensures { Puts W.contents result out.old out.new
        (codes ":" ++ shown_text text.now ++ codes "\n") }
{
    out.put(b":")?;
    put_shown(out, text)?;
    out.put(b"\n")
}
