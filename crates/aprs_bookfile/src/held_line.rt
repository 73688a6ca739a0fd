//! The line that is being read, as far as its bytes decide what it is.
//!
//! Words of the contracts here:
//! - A line is hopeless once it is wrong whatever follows. No further bytes of it are held then.
//! - `IsHeldOf first held line`: what is held is the line that was read, or a beginning of it after
//!   which it is hopeless. `first` says whether it is the text's first line.
//! - `IsLean`: no byte is held after which the line was hopeless already.
//! - `Decides`: so many of these bytes decide what the line is, and this is the place after them.
//! - `Passes`: so many bytes, at least one, are passed at once. Before the last one it isn't wrong.
ghost use Rattle.std.specs.Prelude.{◌≡◌, ◌+◌, ◌<◌, ◌≤◌, ◌++◌, ℕ, List, [], false, Some, OnErr, OnOk, IsTrue, ◌↔◌, length};
ghost use Rattle.aprs_bookfile.specs.HeldLine as Spec;

use crate::row_place::{Place, next_after};
use aprs_rows::Memory;
use std::alloc::Allocator;
use std::marker::Model;

/// More bytes than a header or a last line has. So many are held of each line.
const HELD_ANYWAY: usize = 60;

/// What is held of a line: all of it, or its beginning up to the byte after which it is wrong
/// whatever follows. So what is held is judged as the whole line is.
#[derive(Drop)]
pub(crate) struct HeldLine<A: Allocator> {
    bytes: Vec<u8, A>,
    /// The place in a row's line after these bytes, if a row's line may begin so.
    place: Option<Place>,
}

impl<A: Allocator> Model for HeldLine<A> {
    ghost use Rattle.std.specs.Prelude.{◌≡◌, ℕ, List};
    ghost use Rattle.aprs_bookfile.specs.RowPlace.{place_in};

    ghost Value = { List ℕ };

    ghost view = { λ h. h.bytes.items };

    ghost invariant = { λ h. h.place ≡ place_in h.bytes.items };
}

impl<A: Allocator + Copy> HeldLine<A> {
    /// A line of which nothing was read. Takes no memory.
    pub(crate) fn new(alloc: A) -> HeldLine<A>
        ensures { result ≡ [] }
    {
        HeldLine {
            bytes: Vec::new(alloc),
            place: Some(Place::first()),
        }
    }

    /// Whether nothing is held.
    pub(crate) fn is_empty(&self) -> bool
        ensures { IsTrue result ↔ self.now ≡ [] }
    {
        self.bytes.is_empty()
    }

    /// What is held.
    pub(crate) fn as_slice(&self) -> &[u8]
        ensures value { result.now ≡ self.now }
    {
        self.bytes.as_slice()
    }

    /// Goes on to the next line.
    pub(crate) fn clear(&mut self)
        ensures items { self.new ≡ [] }
    {
        self.bytes.clear();
        self.place = Some(Place::first());
    }

    /// Holds these bytes, which come next in the line, as far as they decide what it is. `first`
    /// says whether it is the first line of its text. After `Memory` it is as before.
    pub(crate) fn extend(&mut self, first: bool, bytes: &[u8]) -> Result<(), Memory>
        ensures held { OnOk result ((line : List ℕ) → Spec.IsHeldOf first self.old line
            → Spec.IsHeldOf first self.new (line ++ bytes.now)) }
        ensures lean { OnOk result (Spec.IsLean first self.old → Spec.IsLean first self.new) }
        ensures size { OnOk result (length self.new ≤ length self.old + length bytes.now) }
        ensures unchanged { OnErr result (self.new ≡ self.old) }
    {
        let (count, place) = self.deciding(first, bytes);
        self.bytes.extend_from_slice(&bytes[..count])?;
        self.place = place;
        Ok(())
    }

    /// How many of these bytes, which come next, decide what the line is, and the place after them.
    fn deciding(&self, first: bool, bytes: &[u8]) -> (usize, Option<Place>)
        ensures { Spec.Decides first self.now bytes.now result.0 result.1 }
    {
        let held = self.bytes.len();
        let mut place = self.place;
        let mut i = 0;
        while i < bytes.len() {
            if is_hopeless(first, held + i, place) {
                return (i, place);
            }
            let (count, after) = pass(first, place, &bytes[i..]);
            place = after;
            i += count;
        }
        (bytes.len(), place)
    }
}

/// How many of these bytes are passed at once, at least one, and the place after them. Where a line
/// may be a row's, they are those that go on with the field.
fn pass(first: bool, place: Option<Place>, bytes: &[u8]) -> (usize, Option<Place>)
    requires { 0 < length bytes.now }
    ensures { Spec.Passes first place bytes.now result.0 result.1 }
{
    match place {
        Some(place) if !first => pass_field(place, bytes),
        _ => (1, next_after(place, bytes[0])),
    }
}

/// How many of these bytes, at least one, are passed at once after this place, and the place after
/// them.
fn pass_field(place: Place, bytes: &[u8]) -> (usize, Option<Place>)
    requires { 0 < length bytes.now }
    ensures { Spec.Passes false (Some place) bytes.now result.0 result.1 }
{
    let count = place.count_more(bytes);
    if count == 0 {
        return (1, place.after(bytes[0]));
    }
    (count, Some(place.further(count)))
}

/// Whether each line that begins with so many bytes, and has this place after them, is wrong, the
/// first line of a text (`first`) or another.
fn is_hopeless(first: bool, size: usize, place: Option<Place>) -> bool
    ensures { result ≡ Spec.is_hopeless first size place }
{
    size >= HELD_ANYWAY && (first || place.is_none())
}
