//! The walk over the objects and items of a summary.
ghost use Rattle.std.specs.Prelude.{◌≡◌, Bool, true, false, [], ◌∷◌, ◌++◌, MatchOption};
ghost use Rattle.aprs_transmissions.specs.Lists.{Ordered};
ghost use Rattle.aprs_summary.specs.Known.{IsEntryBefore, objects, items, index_of};
ghost use Rattle.aprs_summary.specs.Names.{shown_report};
ghost use Rattle.aprs_summary.specs.NamedRows.{reports_by, reports_in};

use crate::Named;
use crate::known::heard::heard_at;
use crate::known::indexes::Indexes;
use crate::lists::heard_room::HeardRoom;
use aprs_log::ReceptionRef;
use std::alloc::{Allocator, Global};
use std::collections::btree_map::Iter;
use std::marker::Model;

/// The objects that are still to come, ascending by name, and then the items, ascending by name.
#[derive(Drop)]
pub struct NamedWalk<'s, 't, A: Allocator = Global> {
    objects: Iter<'s, Vec<u8, A>, Option<ReceptionRef<'t>>>,
    items: Iter<'s, Vec<u8, A>, Option<ReceptionRef<'t>>>,
}

impl<'s, 't, A: Allocator> Model for NamedWalk<'s, 't, A> {
    ghost use Rattle.std.specs.Prelude.{List, ◌++◌, true, false};
    ghost use Rattle.aprs_log.specs.Reception.{Received};
    ghost use Rattle.aprs_summary.specs.Names.{Thing};
    ghost use Rattle.aprs_summary.specs.NamedRows.{reports_by};

    ghost Value = { List (Thing × Received) };

    ghost view = { λ w. reports_by (λ key. key.items) false w.objects
        ++ reports_by (λ key. key.items) true w.items };
}

impl<'s, 't, A: Allocator + Copy> NamedWalk<'s, 't, A> {
    /// The objects and the items of these indexes.
    pub(crate) fn of(indexes: &'s Indexes<ReceptionRef<'t>, A>) -> NamedWalk<'s, 't, A>
        ensures reports { result ≡ reports_in false (index_of objects indexes.now)
            ++ reports_in true (index_of items indexes.now) }
        ensures objects { Ordered IsEntryBefore (index_of objects indexes.now) }
        ensures items { Ordered IsEntryBefore (index_of items indexes.now) }
    {
        NamedWalk {
            objects: indexes.objects().iter(),
            items: indexes.items().iter(),
        }
    }

    /// The next object or item, or `None` after the last. What is last known of it is read into the
    /// room. Takes no memory.
    pub fn next<'r>(&mut self, room: &'r mut HeardRoom) -> Option<Named<'r>>
    where
        's: 'r,
        ensures { MatchOption result (self.old ≡ []) (λ x. self.old ≡ shown_report x ∷ self.new) }
    {
        if let Some((name, x)) = next_report(&mut self.objects) {
            return Some(Named {
                is_item: false,
                name,
                heard: heard_at(&mut room.first, x),
            });
        }
        let (name, x) = next_report(&mut self.items)?;
        Some(Named {
            is_item: true,
            name,
            heard: heard_at(&mut room.first, x),
        })
    }
}

/// The name and the reception of the next entry that isn't empty, or `None` after the last.
fn next_report<'s, 't, A: Allocator + Copy>(
    entries: &mut Iter<'s, Vec<u8, A>, Option<ReceptionRef<'t>>>,
) -> Option<(&'s [u8], &'s ReceptionRef<'t>)>
    ensures { (is_item : Bool) → MatchOption result
        ((reports_by (λ key. key.items) is_item entries.old ≡ [])
        × (reports_by (λ key. key.items) is_item entries.new ≡ []))
        (λ x. reports_by (λ key. key.items) is_item entries.old
        ≡ (record { is_item = is_item; name = x.0.now }, x.1.now)
        ∷ reports_by (λ key. key.items) is_item entries.new) }
{
    while let Some((name, known)) = entries.next() {
        if let Some(x) = known {
            return Some((name.as_slice(), x));
        }
    }
    None
}
