//! Worked examples of the texts of callsigns, and near misses.
ghost use Rattle.std.specs.Prelude.{codes};
ghost use Rattle.aprs_ax25.specs.declared.fault.CallFault.TheVariants as call;
ghost use Rattle.aprs_ax25.specs.CallText.{SpellsCall, FirstCallFault};
ghost use Rattle.aprs_ax25.specs.Examples.{callsign, nj7p, n7oo};

/// Callsigns as monitors print them, and texts of no callsign with their first faults.
pub fn callsigns_have_texts()
    ensures ssid { SpellsCall n7oo (codes "N7OO-1") }
    ensures no_ssid { SpellsCall nj7p (codes "NJ7P") }
    ensures greatest { SpellsCall (callsign (codes "N0CALL") 15) (codes "N0CALL-15") }

    ensures misses_sixteen { FirstCallFault (codes "N0CALL-16") call.Ssid }
    ensures misses_nought { FirstCallFault (codes "NJ7P-0") call.Ssid }
    ensures misses_leading_nought { FirstCallFault (codes "N7OO-01") call.Ssid }
    ensures misses_seven { FirstCallFault (codes "N0CALLS") call.Length }
    ensures misses_none { FirstCallFault (codes "-1") call.Length }
    ensures misses_small { FirstCallFault (codes "n7oo-1") call.Character }

    // Texts with more than one fault: the first is told.
    ensures misses_all { FirstCallFault (codes "n0calls-0") call.Length }
    ensures misses_two { FirstCallFault (codes "n7oo-01") call.Character }
{}
