//! A row in bytes.
ghost use Rattle.std.specs.Prelude.{◌≡◌, ◌<◌, ◌++◌, ◌∷◌, [], All, IfOk, OnOk};
ghost use Rattle.std.specs.List.{join_with_byte};
ghost use Rattle.aprs_ax25.specs.FrameRef.{frame_bytes};
ghost use Rattle.aprs_log.specs.Receiver.{IsName};
ghost use Rattle.aprs_transmissions.specs.Key.{key_cmp};
ghost use Rattle.aprs_transmissions.specs.Row.{last_moment, row_cmp, row_key};
ghost use Rattle.aprs_transmissions.specs.Sound.{IsSoundRow};
ghost use Rattle.aprs_rows.specs.Names.{names_in};
ghost use Rattle.aprs_rows.specs.Packed.{IsMarked, IsShort, Notes, mark_row};

use crate::Memory;
use crate::growth::reserve_one;
use crate::row::key_prefix::{KeyPrefix, key_order};
use crate::row::names::cut_name;
use crate::store::mark::Mark;
use aprs_ax25::FrameRef;
use aprs_log::{Moment, Receiver, ReceptionRef};
use std::alloc::Allocator;
use std::cmp::Ordering;
use std::marker::Model;

/// One transmission: its first moment, the names of its receivers with commas between, and its
/// greatest reception.
#[derive(Drop)]
pub struct RowView<'a> {
    first: Moment,
    names: &'a [u8],
    greatest: ReceptionRef<'a>,
    /// The prefix of the key.
    head: KeyPrefix,
}

impl<'a> Model for RowView<'a> {
    ghost use Rattle.std.specs.Prelude.{All};
    ghost use Rattle.aprs_log.specs.Receiver.{IsName};
    ghost use Rattle.aprs_transmissions.specs.Row.{Row as RowValue};
    ghost use Rattle.aprs_rows.specs.KeyPrefix.{HasKeyPrefix};
    ghost use Rattle.aprs_rows.specs.Names.{names_in};

    ghost Value = { RowValue };

    ghost view = { λ r.
        record { first = r.first; receivers = names_in r.names.now; greatest = r.greatest } };

    ghost invariant = { λ r.
        All IsName (names_in r.names.now) × HasKeyPrefix r.head r.greatest.frame };
}

impl<'a> RowView<'a> {
    /// The row of a first moment, of the receivers whose names stand in `receivers` with commas
    /// between, and of this greatest reception. Takes no memory.
    #[inline(always)]
    pub fn new(first: Moment, receivers: &'a [u8], greatest: ReceptionRef<'a>) -> RowView<'a>
        requires { All IsName (names_in receivers.now) }
        ensures { result ≡ record {
          first = first;
          receivers = names_in receivers.now;
          greatest = greatest.entry;
        } }
    {
        let head = KeyPrefix::of(&greatest.frame());
        RowView {
            first,
            names: receivers,
            greatest,
            head,
        }
    }

    /// The row that a mark notes, from the row's bytes: the text of its receivers, then the name of
    /// the greatest reception's receiver, then the frame.
    pub(crate) fn of_mark(mark: &Mark, bytes: &'a [u8]) -> RowView<'a>
        requires { IsMarked mark.now bytes.now }
        ensures { result ≡ mark_row mark.now bytes.now }
    {
        let (receivers, rest) = bytes.split_at(mark.receivers as usize);
        let (receiver, bytes) = rest.split_at(mark.receiver as usize);
        let frame = FrameRef::with_info_at(bytes, mark.info_at as usize);
        let greatest = ReceptionRef::new(mark.last, receiver, frame);
        RowView::new(mark.first, receivers, greatest)
    }

    /// The mark of the row. Requires that the row is sound by itself, and that its receivers' names
    /// with commas between have fewer than 4,294,967,296 bytes, so that their number fits.
    pub(crate) fn mark(&self) -> Mark
        requires sound { IsSoundRow self.now }
        requires short { IsShort self.now }
        ensures { Notes result self.now }
    {
        let frame = self.greatest.frame();
        Mark {
            first: self.first,
            last: self.greatest.moment(),
            receivers: self.names.len() as u32,
            frame: frame.bytes().len() as u16,
            receiver: self.greatest.receiver().len() as u8,
            info_at: frame.info_at() as u8,
        }
    }

    /// This row with another first moment, and with the names in `receivers`, which commas part, in
    /// place of its own.
    pub(crate) fn with_first_and_names(self, first: Moment, receivers: &'a [u8]) -> RowView<'a>
        requires { All IsName (names_in receivers.now) }
        ensures { result ≡ record {
          first = first;
          receivers = names_in receivers.now;
          greatest = self.entry.greatest;
        } }
    {
        RowView {
            first,
            names: receivers,
            ..self
        }
    }

    /// The same row, which lies at the same place.
    pub(crate) fn copy(&self) -> RowView<'a>
        ensures { result ≡ self.now }
    {
        RowView {
            first: self.first,
            names: self.names,
            greatest: self.greatest.copy(),
            head: self.head,
        }
    }

    /// The first moment at which the transmission was heard. Takes no memory.
    pub fn first(&self) -> Moment
        ensures { result ≡ self.now.first }
    {
        self.first
    }

    /// The last moment, which is that of the greatest reception. Takes no memory.
    pub fn last(&self) -> Moment
        ensures { result ≡ last_moment self.now }
    {
        self.greatest.moment()
    }

    /// The names of those who heard it, with commas between. Takes no memory.
    pub fn receivers(&self) -> &'a [u8]
        ensures text { result.now ≡ join_with_byte 44 self.now.receivers }
        ensures names { names_in result.now ≡ self.now.receivers }
        ensures each { All IsName self.now.receivers }
    {
        self.names
    }

    /// The name of the receiver of the greatest reception. Takes no memory.
    pub fn receiver(&self) -> &'a [u8]
        ensures value { result.now ≡ self.now.greatest.receiver }
        ensures name { IsName self.now.greatest.receiver }
    {
        self.greatest.receiver()
    }

    /// The frame of the greatest reception. Takes no memory.
    pub fn frame(&self) -> FrameRef<'a>
        ensures { frame_bytes result ≡ self.now.greatest.frame }
    {
        self.greatest.frame()
    }

    /// The names of those who heard it, as a list in memory from `alloc`, or `Memory` where that is
    /// refused.
    pub fn receiver_names<A: Allocator + Copy>(&self, alloc: A) -> Result<Vec<Receiver, A>, Memory>
        ensures { IfOk result (λ names. names.items ≡ self.now.receivers) }
    {
        let mut names = Vec::new(alloc);
        let mut rest = self.receivers();
        while let Some((name, after)) = cut_name(rest) {
            push_receiver(&mut names, name)?;
            rest = after;
        }
        push_receiver(&mut names, rest)?;
        Ok(names)
    }

    /// The greatest reception, as a view of the same bytes. Takes no memory.
    pub fn greatest(&self) -> ReceptionRef<'a>
        ensures { result ≡ self.now.greatest }
    {
        self.greatest.copy()
    }

    /// The order of rows, by key, then first moment. Takes no memory.
    pub fn order(&self, other: &RowView<'_>) -> Ordering
        ensures { result ≡ row_cmp self.now other.now }
    {
        match self.key_order(other) {
            Ordering::Equal => self.first.cmp(&other.first),
            unequal => unequal,
        }
    }

    /// The order of the two rows' keys.
    pub(crate) fn key_order(&self, other: &RowView<'_>) -> Ordering
        ensures { result ≡ key_cmp (row_key self.now) (row_key other.now) }
    {
        key_order(self.head, &self.frame(), other.head, &other.frame())
    }
}

/// Puts the receiver of this name, which has to be a receiver's name, after the others.
fn push_receiver<A: Allocator>(names: &mut Vec<Receiver, A>, name: &[u8]) -> Result<(), Memory>
    requires { IsName name.now }
    ensures { OnOk result (names.new.items ≡ names.old.items ++ name.now ∷ []) }
{
    reserve_one(names)?;
    names.push(Receiver::with_name(name))?;
    Ok(())
}
