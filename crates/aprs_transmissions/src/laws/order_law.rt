//! The orders.
ghost use Rattle.std.specs.Cmp.{IsTotalOrder};
ghost use Rattle.std.specs.FinMap.{IsAntisymmetric};
ghost use Rattle.aprs_ax25.specs.Callsign.{call_cmp};
ghost use Rattle.aprs_log.specs.Reception.{heard_cmp};
ghost use Rattle.aprs_transmissions.specs.Key.{key_cmp};
ghost use Rattle.aprs_transmissions.specs.Row.{row_cmp};

/// Callsigns, keys, receptions and rows have total orders.
pub fn orders_are_total()
    ensures callsigns { IsTotalOrder call_cmp }
    ensures keys { IsTotalOrder key_cmp }
    ensures receptions { IsTotalOrder heard_cmp }
    ensures rows { IsTotalOrder row_cmp }
{}

/// Callsigns, keys and receptions that are equal in their order are identical. Rows of one key and
/// one first moment may differ.
pub fn equals_are_identical()
    ensures callsigns { IsAntisymmetric call_cmp }
    ensures keys { IsAntisymmetric key_cmp }
    ensures receptions { IsAntisymmetric heard_cmp }
{}
