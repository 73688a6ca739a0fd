//! The station that sent a frame.
ghost use Rattle.std.specs.Prelude.{◌≡◌};
ghost use Rattle.aprs_transmissions.specs.Key.{key_of};

use aprs_ax25::Callsign;
use aprs_log::ReceptionRef;
use std::marker::Model;

/// The station that sent a frame, with the octets of its address. Most rows follow one of the same
/// station, and then its callsign needn't be read.
#[derive(Drop)]
pub struct Sender<'a> {
    call: Callsign,
    octets: &'a [u8],
}

impl<'a> Model for Sender<'a> {
    ghost use Rattle.std.specs.Prelude.{◌≡◌};
    ghost use Rattle.aprs_ax25.specs.Callsign.{Call};
    ghost use Rattle.aprs_ax25.specs.FrameFault.{call_of};

    ghost Value = { Call };

    ghost view = { λ s. s.call };

    ghost invariant = { λ s. s.call ≡ call_of s.octets.now };
}

impl<'a> Sender<'a> {
    /// Who sent the frame of a reception. `before` is who sent the frame of the row before it, if
    /// there is one: where the address octets are equal, no callsign is read.
    #[tactic(auto, unfolding(aprs_transmissions::specs::Key::key_of))]
    pub fn after(before: Option<Sender<'a>>, x: &ReceptionRef<'a>) -> Sender<'a>
        ensures { result ≡ (key_of x.now.frame).source }
    {
        let octets = x.frame().source_octets();
        match before {
            Some(sender) if sender.octets == octets => sender,
            _ => Sender {
                call: x.frame().source(),
                octets,
            },
        }
    }

    /// The station's callsign.
    pub fn call(&self) -> &Callsign
        ensures { result.now ≡ self.now }
    {
        &self.call
    }
}
