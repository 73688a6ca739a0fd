//! What is last known, by the bytes of what it is known of.
ghost use Rattle.std.specs.Prelude.{◌≡◌, ℕ, List, [], Some, IsOk, OnOk, OnErr, cond};
ghost use Rattle.std.specs.Option.{option_copied, option_map};
ghost use Rattle.std.specs.Ordering.{is_eq};
ghost use Rattle.aprs_log.specs.Reception.{bytes_cmp};
ghost use Rattle.aprs_transmissions.specs.Best.{greater_known};
ghost use Rattle.aprs_transmissions.specs.Lists.{Ordered};
ghost use Rattle.aprs_summary.specs.Known as Spec;

use crate::known::greater::exceeds;
use crate::known::kept::{Kept, KeptFrom};
use aprs_log::ReceptionRef;
use aprs_rows::Memory;
use std::alloc::{Allocator, Global};
use std::collections::BTreeMap;
use std::collections::btree_map::Iter;
use std::marker::Model;

/// The greatest reception that reports on each callsign or name, by the bytes of these. An entry
/// with `None` says as much as no entry: nothing is known.
pub(crate) struct Index<X: Kept, A: Allocator = Global> {
    map: BTreeMap<Vec<u8, A>, Option<X>, A>,
    alloc: A,
}

impl<X: Kept, A: Allocator> Drop for Index<X, A> {
    fn drop(self) {
        let Index { map, alloc: _ } = self;
        drop(map);
    }
}

impl<X: Kept, A: Allocator> Model for Index<X, A> {
    ghost use Rattle.aprs_summary.specs.Known.{Entries, plain_entries};

    ghost Value = { Entries };

    ghost view = { λ k. plain_entries (λ key. key.items) X.received k.map.entries };
}

impl<X: Kept, A: Allocator + Copy> Index<X, A> {
    /// An index in which nothing is known. Takes no memory.
    pub(crate) fn new(alloc: A) -> Index<X, A>
        ensures { result ≡ [] }
    {
        Index {
            map: BTreeMap::new(alloc),
            alloc,
        }
    }

    /// Makes an empty entry at these bytes, unless there is an entry: then it takes no memory.
    /// What is known stays as it was, also after `Memory`.
    pub(crate) fn reserve(&mut self, bytes: &[u8]) -> Result<(), Memory>
        ensures same { (q : List ℕ) → Spec.known_at q self.new ≡ Spec.known_at q self.old }
        ensures made { OnOk result (Spec.HasEntry bytes.now self.new) }
        ensures there { Spec.HasEntry bytes.now self.old → IsOk result }
    {
        if self.map.contains_key(bytes) {
            return Ok(());
        }
        let key = Vec::from_slice(self.alloc, bytes)?;
        self.map.insert(key, None)?;
        Ok(())
    }

    /// Keeps the reception in the entry at these bytes, if nothing, or a lesser reception, is
    /// known there. The entry has to be there. What is known at other bytes stays. Takes no
    /// memory.
    pub(crate) fn note<'t>(&mut self, bytes: &[u8], x: &ReceptionRef<'t>)
    where
        X: KeptFrom<'t>,
        requires { Spec.HasEntry bytes.now self.old }
        ensures { (q : List ℕ) → Spec.known_at q self.new ≡ cond (is_eq (bytes_cmp bytes.now q))
            (Some (greater_known (Spec.known_at q self.old) x.now)) (Spec.known_at q self.old) }
    {
        if let Some(known) = self.map.get_mut(bytes) {
            keep(known, x);
        }
    }

    /// Keeps the reception in the entry at these bytes, if nothing, or a lesser reception, is
    /// known there. The entry is made where there is none. What is known at other bytes stays.
    /// After `Memory` the same is known as before. The reception is put first, and what was known
    /// is put back where it is greater: most entries are new, and then one search is enough.
    pub(crate) fn take<'t>(&mut self, bytes: &[u8], x: &ReceptionRef<'t>) -> Result<(), Memory>
    where
        X: KeptFrom<'t>,
        ensures taken { OnOk result ((q : List ℕ)
            → Spec.known_at q self.new ≡ cond (is_eq (bytes_cmp bytes.now q))
            (Some (greater_known (Spec.known_at q self.old) x.now)) (Spec.known_at q self.old)) }
        ensures same { OnErr result
            ((q : List ℕ) → Spec.known_at q self.new ≡ Spec.known_at q self.old) }
    {
        let key = Vec::from_slice(self.alloc, bytes)?;
        let known = match self.map.insert(key, Some(X::kept_from(x)))? {
            Some(Some(known)) => known,
            Some(None) => return Ok(()),
            None => return Ok(()),
        };
        if !exceeds(x, Some(&known.lent())) {
            self.put_back(bytes, known);
        }
        Ok(())
    }

    /// Keeps this in the entry at these bytes, which has to be there, in the place of what it has.
    /// What is known at other bytes stays. Takes no memory.
    fn put_back(&mut self, bytes: &[u8], known: X)
        requires { Spec.HasEntry bytes.now self.old }
        ensures { (q : List ℕ) → Spec.known_at q self.new ≡ cond (is_eq (bytes_cmp bytes.now q))
            (Some (X.received known)) (Spec.known_at q self.old) }
    {
        if let Some(place) = self.map.get_mut(bytes) {
            put_in(place, known);
        }
    }

    /// The reception that is known at these bytes, or `None`. Takes no memory.
    pub(crate) fn get(&self, bytes: &[u8]) -> Option<&X>
        ensures { option_map X.received (option_copied result) ≡ Spec.known_at bytes.now self.now }
    {
        match self.map.get(bytes) {
            Some(known) => known.as_ref(),
            None => None,
        }
    }

    /// The entries, ascending by their bytes, empty ones too. By `plain_entries` each has the bytes
    /// of its key, and the reception that it keeps, or none. Takes no memory, nor does walking over
    /// them.
    pub(crate) fn iter(&self) -> Iter<'_, Vec<u8, A>, Option<X>>
        ensures entries { Spec.plain_entries (λ key. key.items) X.received result ≡ self.now }
        ensures ascending { Ordered Spec.IsEntryBefore self.now }
    {
        self.map.iter()
    }
}

/// Puts a reception in the place of what was kept there.
fn put_in<X: Kept>(place: &mut Option<X>, known: X)
    ensures { place.new ≡ Some known }
{
    *place = Some(known);
}

/// Puts `x` into `known`, unless a reception is there that is as great or greater.
fn keep<'t, X: KeptFrom<'t>>(known: &mut Option<X>, x: &ReceptionRef<'t>)
    ensures { option_map X.received known.new
        ≡ Some (greater_known (option_map X.received known.old) x.now) }
{
    match &*known {
        Some(greatest) if !exceeds(x, Some(&greatest.lent())) => {}
        _ => *known = Some(X::kept_from(x)),
    }
}
