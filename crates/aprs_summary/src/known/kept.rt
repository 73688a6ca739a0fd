//! How an index keeps a reception.
ghost use Rattle.std.specs.Prelude.{◌≡◌};
ghost use Rattle.aprs_log.specs.Reception.{Received};

use aprs_log::{Reception, ReceptionRef};

/// What an index keeps of a reception: the reception itself, or the reception lent.
pub trait Kept: Drop {
    /// The reception.
    ghost received: { Self → Received };

    /// The reception, lent.
    fn lent(&self) -> ReceptionRef<'_>
        ensures { result ≡ received self.now };
}

/// What can be kept of a reception whose bytes lie elsewhere.
pub trait KeptFrom<'t>: Kept {
    /// What is kept of this reception.
    fn kept_from(x: &ReceptionRef<'t>) -> Self
        ensures { Self.received result ≡ x.now };
}

impl Kept for Reception {
    ghost received = { λ x. x };

    fn lent(&self) -> ReceptionRef<'_> {
        ReceptionRef::of(self)
    }
}

impl<'t> KeptFrom<'t> for Reception {
    /// The reception itself, copied from where it lies.
    fn kept_from(x: &ReceptionRef<'t>) -> Reception {
        x.to_reception()
    }
}

impl<'t> Kept for ReceptionRef<'t> {
    ghost received = { λ x. x };

    fn lent(&self) -> ReceptionRef<'_> {
        self.copy()
    }
}

impl<'t> KeptFrom<'t> for ReceptionRef<'t> {
    /// The reception stays where it lies.
    fn kept_from(x: &ReceptionRef<'t>) -> ReceptionRef<'t> {
        x.copy()
    }
}
