//! The gap inside a transmission.
ghost use Rattle.std.specs.Prelude.{◌≡◌, SomeIff};
ghost use Rattle.aprs_transmissions.specs.Gap.{IsGap, standard_gap};

use std::marker::Model;

/// The greatest gap, in seconds.
const GREATEST: u64 = 3600;

/// How far apart neighbours of one transmission may be at most: 1 to 3,600 seconds.
#[derive(Clone, Copy, Debug, PartialEq, Eq)]
pub struct Gap {
    seconds: u64,
}

impl Model for Gap {
    ghost use Rattle.std.specs.Prelude.{ℕ};
    ghost use Rattle.aprs_transmissions.specs.Gap.{IsGap};

    ghost Value = { ℕ };

    ghost view = { λ g. g.seconds };

    ghost invariant = { λ g. IsGap g.seconds };

    ghost inverse = { λ n. record { seconds = n } };
}

impl Gap {
    /// The gap that a book has where no other is chosen: 30 seconds.
    pub const STANDARD: Gap = Gap { seconds: 30 };

    /// The gap of this many seconds, or `None` where they are not 1 to 3,600. Takes no memory.
    pub fn new(seconds: u64) -> Option<Gap>
        ensures { SomeIff result (IsGap seconds) seconds }
    {
        if 1 <= seconds && seconds <= GREATEST {
            Some(Gap { seconds })
        } else {
            None
        }
    }

    /// The seconds, 1 to 3,600. Takes no memory.
    pub fn seconds(&self) -> u64
        ensures value { result ≡ self.now }
        ensures range { IsGap result }
    {
        self.seconds
    }
}

/// The standard gap, of 30 seconds. Takes no memory.
impl Default for Gap {
    ghost is_default = { λ gap. gap ≡ standard_gap };

    fn default() -> Gap {
        Gap::STANDARD
    }
}
