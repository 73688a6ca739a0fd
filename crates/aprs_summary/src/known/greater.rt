//! The greater of two receptions.
ghost use Rattle.std.specs.Prelude.{◌≡◌, false, true, Some};
ghost use Rattle.std.specs.Option.{option_copied};
ghost use Rattle.aprs_transmissions.specs.Best.{greater_known};

use aprs_log::ReceptionRef;

/// The greater of the reception that is known and `x`; `x` where none is known.
pub(crate) fn greater_known<'a>(
    known: Option<&ReceptionRef<'a>>,
    x: ReceptionRef<'a>,
) -> ReceptionRef<'a>
    ensures { result ≡ greater_known (option_copied known.entry) x.entry }
{
    match known {
        Some(greatest) if !exceeds(&x, known) => greatest.copy(),
        _ => x,
    }
}

/// Whether a reception is greater than the one that is known, by moment, then receiver, then frame.
/// Where none is known it is.
pub(crate) fn exceeds(x: &ReceptionRef<'_>, known: Option<&ReceptionRef<'_>>) -> bool
    ensures kept { result ≡ false → option_copied known.entry
        ≡ Some (greater_known (option_copied known.entry) x.now) }
    ensures new { result ≡ true → greater_known (option_copied known.entry) x.now ≡ x.now }
{
    match known {
        Some(greatest) => greatest.order(x).is_lt(),
        None => true,
    }
}
