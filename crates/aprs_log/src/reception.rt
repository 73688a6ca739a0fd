//! Receptions.
ghost use Rattle.std.specs.Prelude.{◌≡◌, Ok, Err, OnOk, OnErr, IfErr};
ghost use Rattle.std.specs.Ordering.{as_partial_cmp};
ghost use Rattle.std.proofs.Common.{rules};
ghost use Rattle.std.specs.Cmp.{partial_order_from_own_ties};
ghost use Rattle.std.specs.Cmp.Rules.{comparing};
ghost use Rattle.aprs_ax25.specs.FrameFault.{frame_or_fault};
ghost use Rattle.aprs_log.specs.Reception.{Received, heard_cmp};

use crate::{Moment, Receiver};
use aprs_ax25::{Frame, FrameFault};
use std::cmp::Ordering;
use std::marker::Model;

/// A frame as one receiver heard it at one moment. Receptions are ordered by moment, then by
/// receiver, then by frame.
#[derive(PartialEq, Eq, Drop)]
pub struct Reception {
    moment: Moment,
    receiver: Receiver,
    frame: Frame,
}

impl Model for Reception {
    ghost Value = { Received };

    ghost view = { λ x. record { moment = x.moment; receiver = x.receiver; frame = x.frame } };

    ghost inverse = { λ x. record { moment = x.moment; receiver = x.receiver; frame = x.frame } };
}

impl Reception {
    /// The reception of these three parts. Takes no memory.
    pub fn new(moment: Moment, receiver: Receiver, frame: Frame) -> Reception
        ensures { result ≡ record { moment = moment; receiver = receiver; frame = frame } }
    {
        Reception {
            moment,
            receiver,
            frame,
        }
    }

    /// Becomes the reception of these parts, where the bytes are a UI frame. Otherwise returns the
    /// first fault why they aren't: moment and receiver are then the new ones, and the frame the
    /// old one. Takes no memory.
    pub(crate) fn assign(
        &mut self,
        moment: Moment,
        receiver: Receiver,
        bytes: &[u8],
    ) -> Result<(), FrameFault>
        ensures heard { OnOk result (frame_or_fault bytes.now ≡ Ok self.new.frame) }
        ensures moment { self.new.moment ≡ moment }
        ensures receiver { self.new.receiver ≡ receiver }
        ensures fault { IfErr result (λ fault. frame_or_fault bytes.now ≡ Err fault) }
        ensures unchanged { OnErr result (self.new.frame ≡ self.old.frame) }
    {
        self.moment = moment;
        self.receiver = receiver;
        self.frame.reread(bytes)
    }

    /// When the frame was heard. Takes no memory.
    pub fn moment(&self) -> Moment
        ensures { result ≡ self.now.moment }
    {
        self.moment
    }

    /// Which receiver heard the frame. Takes no memory.
    pub fn receiver(&self) -> &Receiver
        ensures { result.now ≡ self.now.receiver }
    {
        &self.receiver
    }

    /// The frame that was heard. Takes no memory.
    pub fn frame(&self) -> &Frame
        ensures { result.now ≡ self.now.frame }
    {
        &self.frame
    }

    /// The same reception. Takes no memory.
    pub fn copy(&self) -> Reception
        ensures { result ≡ self.now }
    {
        Reception {
            moment: self.moment,
            receiver: self.receiver.copy(),
            frame: self.frame.copy(),
        }
    }
}

impl Ord for Reception {
    ghost cmp = { heard_cmp };

    ghost total = { Prim.search (comparing, rules) };

    ghost matches_partial_cmp = { Prim.search (comparing, rules) };

    ghost matches_eq = { Prim.search (comparing, rules) };

    fn cmp(&self, other: &Reception) -> Ordering {
        heard_order(
            (self.moment, other.moment),
            (self.receiver.as_bytes(), other.receiver.as_bytes()),
            (self.frame.bytes(), other.frame.bytes()),
        )
    }
}

impl PartialOrd for Reception {
    ghost partial_cmp = { as_partial_cmp heard_cmp };

    ghost laws = { partial_order_from_own_ties (Prim.search (comparing, rules))
        (Prim.search (comparing, rules)) };

    fn partial_cmp(&self, other: &Reception) -> Option<Ordering> {
        Some(self.cmp(other))
    }
}

/// The order of two receptions by their moments, then the names of their receivers, then the bytes
/// of their frames.
pub(crate) fn heard_order(
    moments: (Moment, Moment),
    names: (&[u8], &[u8]),
    frames: (&[u8], &[u8]),
) -> Ordering
    ensures { result ≡ heard_cmp
        (record { moment = moments.0; receiver = names.entry.0.now; frame = frames.entry.0.now })
        (record { moment = moments.1; receiver = names.entry.1.now; frame = frames.entry.1.now }) }
{
    match moments.0.cmp(&moments.1) {
        Ordering::Equal => match names.0.cmp(names.1) {
            Ordering::Equal => frames.0.cmp(frames.1),
            unequal => unequal,
        },
        unequal => unequal,
    }
}
