//! Receptions that are lent.
ghost use Rattle.std.specs.Prelude.{◌≡◌};
ghost use Rattle.aprs_ax25.specs.FrameRef.{frame_bytes};
ghost use Rattle.aprs_log.specs.Receiver.{IsName};
ghost use Rattle.aprs_log.specs.Reception.{heard_cmp};

use crate::reception::heard_order;
use crate::{Moment, Receiver, Reception};
use aprs_ax25::FrameRef;
use std::cmp::Ordering;
use std::marker::Model;

/// A reception whose bytes lie elsewhere: in a `Reception`, or among others in a store. What it
/// gives lives as long as those bytes.
#[derive(Drop)]
pub struct ReceptionRef<'a> {
    moment: Moment,
    receiver: &'a [u8],
    frame: FrameRef<'a>,
}

impl<'a> Model for ReceptionRef<'a> {
    ghost use Rattle.aprs_ax25.specs.FrameRef.{frame_bytes};
    ghost use Rattle.aprs_log.specs.Receiver.{IsName};
    ghost use Rattle.aprs_log.specs.Reception.{Received};

    ghost Value = { Received };

    ghost view = { λ x.
        record { moment = x.moment; receiver = x.receiver.now; frame = frame_bytes x.frame } };

    ghost invariant = { λ x. IsName x.receiver.now };
}

impl<'a> ReceptionRef<'a> {
    /// The reception of this moment, of the receiver of this name, and of this frame. Takes no
    /// memory.
    pub fn new(moment: Moment, receiver: &'a [u8], frame: FrameRef<'a>) -> ReceptionRef<'a>
        requires { IsName receiver.now }
        ensures { result ≡
            record { moment = moment; receiver = receiver.now; frame = frame_bytes frame.entry } }
    {
        ReceptionRef {
            moment,
            receiver,
            frame,
        }
    }

    /// This reception, lent. Takes no memory.
    pub fn of(x: &'a Reception) -> ReceptionRef<'a>
        ensures { result ≡ x.now }
    {
        ReceptionRef {
            moment: x.moment(),
            receiver: x.receiver().as_bytes(),
            frame: FrameRef::of(x.frame()),
        }
    }

    /// When the frame was heard. Takes no memory.
    pub fn moment(&self) -> Moment
        ensures { result ≡ self.now.moment }
    {
        self.moment
    }

    /// The name of the receiver that heard the frame, 1 to 16 bytes. Takes no memory.
    pub fn receiver(&self) -> &'a [u8]
        ensures value { result.now ≡ self.now.receiver }
        ensures name { IsName self.now.receiver }
    {
        self.receiver
    }

    /// The frame that was heard. Takes no memory.
    pub fn frame(&self) -> FrameRef<'a>
        ensures { frame_bytes result ≡ self.now.frame }
    {
        self.frame
    }

    /// The same reception, which lies at the same place. Takes no memory.
    pub fn copy(&self) -> ReceptionRef<'a>
        ensures { result ≡ self.now }
    {
        ReceptionRef {
            moment: self.moment,
            receiver: self.receiver,
            frame: self.frame,
        }
    }

    /// The order of two receptions, by moment, then receiver, then frame. Takes no memory.
    pub fn order(&self, other: &ReceptionRef<'_>) -> Ordering
        ensures { result ≡ heard_cmp self.now other.now }
    {
        heard_order(
            (self.moment, other.moment),
            (self.receiver, other.receiver),
            (self.frame.bytes(), other.frame.bytes()),
        )
    }

    /// The reception in a place of its own. Takes no memory.
    pub fn to_reception(&self) -> Reception
        ensures { result ≡ self.now }
    {
        Reception::new(
            self.moment,
            Receiver::with_name(self.receiver),
            self.frame.to_frame(),
        )
    }
}
