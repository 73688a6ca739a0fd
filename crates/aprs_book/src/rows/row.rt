//! What a book shows of its rows.
ghost use Rattle.std.specs.Prelude.{◌≡◌, List};
ghost use Rattle.std.specs.Iterator.{YieldsFirst, item_count};

use crate::rows::walk::Walk;
use aprs_ax25::{Callsign, Frame};
use aprs_log::{Moment, Receiver, Reception};
use std::alloc::{Allocator, Global};
use std::marker::Model;

/// One transmission.
#[derive(Drop)]
pub struct Row<'a> {
    /// The station that sent it.
    pub source: Callsign,
    /// The destination address.
    pub destination: Callsign,
    /// The information, 1 to 256 bytes.
    pub info: &'a [u8],
    /// The first moment at which it was heard.
    pub first: Moment,
    /// The last moment, which is that of the greatest reception.
    pub last: Moment,
    /// Who heard it, in ascending order.
    pub receivers: &'a [Receiver],
    /// Who heard the greatest reception.
    pub receiver: &'a Receiver,
    /// The frame of the greatest reception.
    pub frame: &'a Frame,
}

impl<'a> Model for Row<'a> {
    ghost use Rattle.aprs_transmissions.specs.Row.{Row as RowValue};
    ghost use Rattle.aprs_rows.specs.RowWith.{row_with};
    ghost use Rattle.aprs_book.specs.KeyedFrame.{IsKeyed};

    ghost Value = { RowValue };

    ghost view = { λ r. row_with r.first r.last r.receivers.now r.receiver.now r.frame.now };

    ghost invariant = { λ r. IsKeyed r.source r.destination r.info.now r.frame.now };
}

impl<'a> Row<'a> {
    /// The row of this first moment, these receivers and this greatest reception. The other fields
    /// are read from the greatest reception.
    #[tactic(auto, unfolding(aprs_transmissions::specs::Key::key_of))]
    pub(crate) fn new(first: Moment, receivers: &'a [Receiver], greatest: &'a Reception) -> Row<'a>
        ensures { result
            ≡ record { first = first; receivers = receivers.now; greatest = greatest.now } }
    {
        let frame = greatest.frame();
        Row {
            source: frame.source(),
            destination: frame.destination(),
            info: frame.info(),
            first,
            last: greatest.moment(),
            receivers,
            receiver: greatest.receiver(),
            frame,
        }
    }
}

/// The rows of a book that are still to come, in order.
#[derive(Drop)]
pub struct Rows<'a, A: Allocator = Global> {
    walk: Walk<'a, A>,
}

impl<'a, A: Allocator> Model for Rows<'a, A> {
    ghost use Rattle.std.specs.Prelude.{List};
    ghost use Rattle.aprs_transmissions.specs.Row.{Row as RowValue};

    ghost Value = { List RowValue };

    ghost view = { λ r. r.walk };
}

impl<'a, A: Allocator> Rows<'a, A> {
    /// The rows that are still to come in this walk.
    pub(crate) fn of(walk: Walk<'a, A>) -> Rows<'a, A>
        ensures { result ≡ walk.entry }
    {
        Rows { walk }
    }
}

impl<'a, A: Allocator + Copy> Iterator for Rows<'a, A> {
    type Item = Row<'a>;

    ghost next_gives = { YieldsFirst (λ rows. rows) };

    ghost remaining = { item_count (λ rows. rows) };

    /// The next row, or `None` after the last.
    fn next(&mut self) -> Option<Row<'a>> {
        let row = self.walk.next()?;
        Some(row.show())
    }
}
