//! Names of objects and items, and addressees.

ghost use Rattle.std.specs.Prelude.{◌≡◌};
ghost use Rattle.std.specs.Option.{option_map};
ghost use Rattle.std.specs.List.{list_all};
ghost use Rattle.aprs_report.specs.Bytes.{is_printable};
ghost use Rattle.aprs_report.specs.Reader.{name_of};

use crate::bytes::{Trailing, is_printable_byte};

/// Whether each byte is a space to `~`.
fn all_printable(field: &[u8]) -> bool
    ensures { result ≡ list_all is_printable field.now }
{
    field.iter().all(|byte| is_printable_byte(*byte))
}

/// The name in a field of an object, an item or an addressee: its bytes without the spaces at
/// their end. `None` where a byte isn't a space to `~`, or where nothing is left.
pub fn name_in(field: &[u8]) -> Option<&[u8]>
    ensures { option_map (λ x. x.now) result ≡ name_of field.now }
{
    if !all_printable(field) {
        return None;
    }
    let name = Trailing::Spaces.cut(field);
    if name.is_empty() { None } else { Some(name) }
}
