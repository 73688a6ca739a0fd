//! Digipeaters of a frame.
ghost use Rattle.std.specs.Prelude.{◌≡◌, ◌+◌, ◌<◌, ◌≤◌, ◌++◌, length, true};
ghost use Rattle.arrayvec.specs.ArrayVec.{array_vec_len};
ghost use Rattle.aprs_ax25.specs.Address.{IsAddress, address_octets};
ghost use Rattle.aprs_ax25.specs.FrameFault.{has_callsign, address_of};

use crate::callsign::Callsign;
use crate::scan::MAX_UI_FRAME;
use arrayvec::ArrayVec;

/// A digipeater that a frame names (AX.25 2.2, section 3.12.5).
#[derive(PartialEq, Eq, Drop)]
pub struct Hop {
    /// The digipeater's callsign.
    pub call: Callsign,
    /// Whether the digipeater has repeated the frame: its H bit.
    pub repeated: bool,
}

impl Hop {
    ghost use Rattle.aprs_ax25.specs.Hop.{hop_of};
    ghost use Rattle.aprs_ax25.specs.Making.{hop_address};

    /// Puts the seven octets of the digipeater's address at the end of `out`, with this extension
    /// bit. The flags are the H bit, 1 if the digipeater has repeated the frame, and two reserved
    /// bits, both 1: together 7 or 3.
    pub(crate) fn push(&self, out: &mut ArrayVec<u8, MAX_UI_FRAME>, extension: u8)
        requires room { array_vec_len out.old + 7 ≤ MAX_UI_FRAME }
        requires extension { extension < 2 }
        ensures octets { out.new.items ≡ out.old.items
            ++ address_octets extension (hop_address self.now) }
        ensures address { IsAddress (hop_address self.now) }
    {
        let flags = if self.repeated { 7 } else { 3 };
        self.call.push_address(out, flags, extension);
    }

    /// The digipeater that the seven octets of an address spell. It has repeated the frame if the
    /// H bit is 1, the high bit of the last octet.
    pub(crate) fn from_octets(octets: &[u8]) -> Hop
        requires seven { length octets.now ≡ 7 }
        requires callsign { has_callsign octets.now ≡ true }
        ensures { result ≡ hop_of (address_of octets.now) }
    {
        Hop {
            call: Callsign::from_octets(octets),
            repeated: octets[6] >= 128,
        }
    }
}
