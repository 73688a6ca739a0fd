//! What a key is.
ghost use Rattle.std.specs.Prelude.{◌≡◌, ℕ, List};
ghost use Rattle.aprs_ax25.specs.Frame.{Parts, FrameOf};
ghost use Rattle.aprs_transmissions.specs.Key.{key_of, key_of_parts};

/// The key of a frame is its source, its destination and its information, whatever digipeaters and
/// flags it has.
pub fn keys_are_of_parts()
    ensures { (p : Parts) (frame : List ℕ) → FrameOf p frame → key_of frame ≡ key_of_parts p }
{}
