//! Objects and items that were heard of.
ghost use Rattle.std.specs.Prelude.{◌≡◌, ◌++◌, ℕ, List, map, IfOk, OnOk};
ghost use Rattle.aprs_transmissions.specs.Lists.{Ordered};
ghost use Rattle.aprs_summary.specs.Known.{AreIndexesOf, IsEntryBefore};
ghost use Rattle.aprs_transmissions.specs.Row.{Row};
ghost use Rattle.aprs_summary.specs.Names.{ReportsNamed, shown_report};
ghost use Rattle.aprs_summary.specs.NamedRows.{reports_in};

use crate::Heard;
use crate::known::index::Index;
use crate::known::indexes::Indexes;
use aprs_log::Reception;
use aprs_rows::Memory;
use std::alloc::Allocator;

/// An object or an item that was heard of.
#[derive(Drop)]
pub struct Named<'a> {
    /// Whether it is an item.
    pub is_item: bool,
    /// Its name, without the spaces at its end.
    pub name: &'a [u8],
    /// Its last report.
    pub heard: Heard<'a>,
}

/// The objects of any rows that have these indexes, and then the items, each ascending by name,
/// with the last report of each.
pub fn objects_of<'a, A: Allocator + Copy>(
    alloc: A,
    indexes: &'a Indexes<Reception, A>,
) -> Result<Vec<Named<'a>, A>, Memory>
    ensures { (gap : ℕ) (rows : List Row) → AreIndexesOf rows indexes.now
        → IfOk result (λ named. ReportsNamed gap rows named.items) }
{
    let mut list = Vec::new(alloc);
    push_reports(&mut list, false, indexes.objects())?;
    push_reports(&mut list, true, indexes.items())?;
    Ok(list)
}

/// Puts at the list's end what an index knows, ascending by name: as items where `is_item` says
/// so, otherwise as objects. Empty entries are left out. After `Memory` a part may have been put
/// there.
fn push_reports<'a, A: Allocator + Copy>(
    list: &mut Vec<Named<'a>, A>,
    is_item: bool,
    known: &'a Index<Reception, A>,
) -> Result<(), Memory>
    ensures ascending { Ordered IsEntryBefore known.now }
    ensures reports { OnOk result (map shown_report list.new.items
        ≡ map shown_report list.old.items ++ reports_in is_item known.now) }
{
    for (name, greatest) in known.iter() {
        if let Some(x) = greatest {
            let named = Named {
                is_item,
                name: name.as_slice(),
                heard: Heard::of(x),
            };
            list.push(named)?;
        }
    }
    Ok(())
}
