//! Laws on all byte lists and digipeaters: what these functions ensure is the law.
ghost use Rattle.std.specs.Prelude.{ℕ, ◌≡◌, ◌<◌, ◌↔◌, ◌⊎◌, List, All, IsTrue, Ok};
ghost use Rattle.aprs_ax25.specs.FrameFault.{frame_or_fault};
ghost use Rattle.aprs_ax25.specs.Laws.{IsReadAsFrame, IsReadAsNone};
ghost use Rattle.aprs_ax25.specs.UiFrame.{IsUiFrame};

use crate::hop::Hop;

/// Every byte list either is the frame of exactly one set of parts, or has exactly one first fault.
pub fn each_is_a_frame_or_refused()
    ensures { (bytes : List ℕ) → All (λ b. b < 256) bytes
        → IsReadAsFrame bytes ⊎ IsReadAsNone bytes }
{}

/// Reading accepts exactly the bytes that are a UI frame.
pub fn ui_frames_are_read()
    ensures { (bytes : List ℕ) → IsUiFrame bytes ↔ (frame_or_fault bytes ≡ Ok bytes) }
{}

/// Digipeaters are equal exactly if they are the same: the same callsign, which has repeated the
/// frame or not.
pub fn equal_hops_are_the_same(a: &Hop, b: &Hop) -> bool
    ensures { IsTrue result ↔ (a.now ≡ b.now) }
{
    a == b
}
