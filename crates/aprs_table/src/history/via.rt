//! The digipeaters of a frame in one word.
ghost use Rattle.std.specs.Prelude.{◌≡◌, List};
ghost use Rattle.std.specs.List.{flat_map};
ghost use Rattle.aprs_ax25.specs.Hop.{hop_text};
ghost use Rattle.aprs_ax25.specs.declared.hop.Hop.{Hop};
ghost use Rattle.aprs_table.specs.History.{via_text};

use aprs_ax25::after_comma;

/// The text of digipeaters without the comma before the first, or `-` where there are none.
pub fn via_or_dash(hops: &[u8]) -> &[u8]
    ensures { (all : List Hop) → hops.now ≡ flat_map hop_text all → result.now ≡ via_text all }
{
    if hops.is_empty() {
        b"-"
    } else {
        after_comma(hops)
    }
}
