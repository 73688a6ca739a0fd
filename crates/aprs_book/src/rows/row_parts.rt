//! A row as it is handed over.
ghost use Rattle.std.specs.Prelude.{◌≡◌};

use aprs_ax25::{Frame, FrameRef};
use aprs_log::{Moment, Receiver, Reception, ReceptionRef};
use std::alloc::{Allocator, Global};
use std::marker::Model;

/// What makes a row. Any values may stand here: a row is judged when it is pushed.
#[derive(Drop)]
pub struct RowParts<A: Allocator = Global> {
    /// The first moment at which it was heard.
    pub first: Moment,
    /// The moment of the greatest reception.
    pub last: Moment,
    /// Who heard it.
    pub receivers: Vec<Receiver, A>,
    /// Who heard the greatest reception.
    pub receiver: Receiver,
    /// The frame of the greatest reception, which has the key.
    pub frame: Frame,
}

impl<A: Allocator> Model for RowParts<A> {
    ghost use Rattle.aprs_transmissions.specs.Row.{Row as RowValue};
    ghost use Rattle.aprs_rows.specs.RowWith.{row_with};

    ghost Value = { RowValue };

    ghost view = { λ r. row_with r.first r.last r.receivers.items r.receiver r.frame };
}

impl<A: Allocator> RowParts<A> {
    /// A copy of the greatest reception.
    pub(crate) fn greatest(&self) -> Reception
        ensures { result ≡ self.now.greatest }
    {
        Reception::new(self.last, self.receiver.copy(), self.frame.copy())
    }

    /// The greatest reception, which stays where it lies.
    pub(crate) fn heard(&self) -> ReceptionRef<'_>
        ensures { result ≡ self.now.greatest }
    {
        let frame = FrameRef::of(&self.frame);
        ReceptionRef::new(self.last, self.receiver.as_bytes(), frame)
    }
}
