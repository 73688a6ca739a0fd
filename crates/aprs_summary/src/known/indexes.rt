//! What is last known of each station, object and item.
//!
//! Words of the contracts here:
//! - `known_at bytes index`: the reception that the index knows at these bytes, or none.
//! - `SameKnown`: of everything the same is known. `NotesReport`: of the subject the greater of
//!   what was known and the new one is known, and of all else the same.
//! - `HaveEntries`: the subject's index has an entry for it, which may be empty.
ghost use Rattle.std.specs.Prelude.{◌≡◌, [], IsOk, OnOk, OnErr};
ghost use Rattle.std.specs.Option.{option_copied, option_map};
ghost use Rattle.aprs_summary.specs.Known as Spec;

use crate::known::index::Index;
use crate::known::kept::{Kept, KeptFrom};
use crate::known::subject::{Subject, call_bytes};
use aprs_ax25::Callsign;
use aprs_log::ReceptionRef;
use aprs_rows::Memory;
use std::alloc::{Allocator, Global};
use std::marker::Model;

/// The last position and status by callsign, and the last report of an object and an item by name.
pub struct Indexes<X: Kept, A: Allocator = Global> {
    positions: Index<X, A>,
    statuses: Index<X, A>,
    objects: Index<X, A>,
    items: Index<X, A>,
}

impl<X: Kept, A: Allocator> Drop for Indexes<X, A> {
    fn drop(self) {
        let Indexes {
            positions,
            statuses,
            objects,
            items,
        } = self;
        drop(positions);
        drop(statuses);
        drop(objects);
        drop(items);
    }
}

impl<X: Kept, A: Allocator> Model for Indexes<X, A> {
    ghost use Rattle.aprs_summary.specs.Known.{FourIndexes};

    ghost Value = { FourIndexes };

    ghost view = { λ i. record {
      positions = i.positions;
      statuses = i.statuses;
      objects = i.objects;
      items = i.items;
    } };
}

impl<X: Kept, A: Allocator + Copy> Indexes<X, A> {
    /// Four indexes in which nothing is known. Takes no memory.
    pub fn new(alloc: A) -> Indexes<X, A>
        ensures { (topic : Spec.Topic) → Spec.index_of topic result ≡ [] }
    {
        Indexes {
            positions: Index::new(alloc),
            statuses: Index::new(alloc),
            objects: Index::new(alloc),
            items: Index::new(alloc),
        }
    }

    /// The greatest reception of a position report from this station, or `None` where none is
    /// known. Takes no memory.
    pub fn position(&self, station: &Callsign) -> Option<&X>
        ensures { option_map X.received (option_copied result)
            ≡ Spec.known_at (Spec.call_bytes station.now) (Spec.index_of Spec.positions self.now) }
    {
        self.positions.get(call_bytes(station).as_slice())
    }

    /// The greatest reception of a status report from this station, or `None` where none is known.
    /// Takes no memory.
    pub fn status(&self, station: &Callsign) -> Option<&X>
        ensures { option_map X.received (option_copied result)
            ≡ Spec.known_at (Spec.call_bytes station.now) (Spec.index_of Spec.statuses self.now) }
    {
        self.statuses.get(call_bytes(station).as_slice())
    }

    /// The greatest reception of a report of the object of this name, or `None` where none is
    /// known. The name must have no spaces at its end. Takes no memory.
    pub fn object(&self, name: &[u8]) -> Option<&X>
        ensures { option_map X.received (option_copied result)
            ≡ Spec.known_at name.now (Spec.index_of Spec.objects self.now) }
    {
        self.objects.get(name)
    }

    /// The greatest reception of a report of the item of this name, or `None` where none is known.
    /// The name must have no spaces at its end. Takes no memory.
    pub fn item(&self, name: &[u8]) -> Option<&X>
        ensures { option_map X.received (option_copied result)
            ≡ Spec.known_at name.now (Spec.index_of Spec.items self.now) }
    {
        self.items.get(name)
    }

    /// The last report of each object, by name.
    pub(crate) fn objects(&self) -> &Index<X, A>
        ensures { result.now ≡ Spec.index_of Spec.objects self.now }
    {
        &self.objects
    }

    /// The last report of each item, by name.
    pub(crate) fn items(&self) -> &Index<X, A>
        ensures { result.now ≡ Spec.index_of Spec.items self.now }
    {
        &self.items
    }

    /// Makes an empty entry for this subject in its index, unless there is an entry: then it takes
    /// no memory. For `Nothing` no entry is made. What is known stays as it was, also after
    /// `Memory`.
    pub fn reserve(&mut self, subject: &Subject<'_>) -> Result<(), Memory>
        ensures same { Spec.SameKnown self.old self.new }
        ensures made { OnOk result (Spec.HaveEntries subject.now self.new) }
        ensures there { Spec.HaveEntries subject.now self.old → IsOk result }
    {
        match subject {
            Subject::Position(call) => self.positions.reserve(call.as_slice()),
            Subject::Status(call) => self.statuses.reserve(call.as_slice()),
            Subject::Object(name) => self.objects.reserve(name),
            Subject::Item(name) => self.items.reserve(name),
            Subject::Nothing => Ok(()),
        }
    }

    /// Keeps the reception as what is last known of its subject, where nothing was known or it is
    /// greater. The subject has to have its entry; for `Nothing` nothing is kept. Takes no memory.
    pub fn note<'t>(&mut self, subject: &Subject<'_>, x: &ReceptionRef<'t>)
    where
        X: KeptFrom<'t>,
        requires { Spec.HaveEntries subject.now self.old }
        ensures { Spec.NotesReport subject.now x.now self.old self.new }
    {
        match subject {
            Subject::Position(call) => self.positions.note(call.as_slice(), x),
            Subject::Status(call) => self.statuses.note(call.as_slice(), x),
            Subject::Object(name) => self.objects.note(name, x),
            Subject::Item(name) => self.items.note(name, x),
            Subject::Nothing => {}
        }
    }

    /// Keeps the reception as what is last known of its subject, where nothing was known or it is
    /// greater, and makes the subject's entry where there is none. For `Nothing` nothing is kept.
    /// After `Memory` the same is known as before.
    pub fn take<'t>(&mut self, subject: &Subject<'_>, x: &ReceptionRef<'t>) -> Result<(), Memory>
    where
        X: KeptFrom<'t>,
        ensures taken { OnOk result (Spec.NotesReport subject.now x.now self.old self.new) }
        ensures same { OnErr result (Spec.SameKnown self.old self.new) }
    {
        match subject {
            Subject::Position(call) => self.positions.take(call.as_slice(), x),
            Subject::Status(call) => self.statuses.take(call.as_slice(), x),
            Subject::Object(name) => self.objects.take(name, x),
            Subject::Item(name) => self.items.take(name, x),
            Subject::Nothing => Ok(()),
        }
    }
}
