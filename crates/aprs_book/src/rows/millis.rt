//! The gap inside a transmission, as moments count.
ghost use Rattle.std.specs.Prelude.{◌≡◌, ◌≤◌};
ghost use Rattle.aprs_transmissions.specs.Gap.{IsGap, millis_of};

use aprs_transmissions::Gap;
use std::marker::Model;

/// A gap in milliseconds, the unit of moments: at most an hour.
#[derive(Clone, Copy)]
pub(crate) struct Millis {
    millis: u64,
}

impl Model for Millis {
    ghost use Rattle.std.specs.Prelude.{◌≤◌, ℕ};

    ghost Value = { ℕ };

    ghost view = { λ g. g.millis };

    ghost invariant = { λ g. g.millis ≤ 3600000 };

    ghost inverse = { λ n. record { millis = n } };
}

impl Millis {
    /// The gap in milliseconds. `range` says that a `Gap` is 1 to 3,600 seconds.
    pub(crate) fn of(gap: Gap) -> Millis
        ensures value { result ≡ millis_of gap }
        ensures range { IsGap gap }
    {
        Millis {
            millis: gap.seconds() * 1000,
        }
    }

    /// The number of milliseconds, at most 3,600,000.
    pub(crate) fn get(&self) -> u64
        ensures value { result ≡ self.now }
        ensures bound { result ≤ 3600000 }
    {
        self.millis
    }
}
