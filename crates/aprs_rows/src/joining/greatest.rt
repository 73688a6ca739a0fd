//! The greatest reception.
ghost use Rattle.std.specs.Prelude.{◌≡◌, IsOk, IfOk};
ghost use Rattle.aprs_transmissions.specs.JoinRow.{greater};
ghost use Rattle.aprs_transmissions.specs.Joining.{AreAny, IsAny, IsGreaterOf};
ghost use Rattle.aprs_transmissions.proofs.Joins.{greatest_laws};

use crate::{Join, Memory};
use aprs_log::Reception;
use std::marker::Model;

/// The greatest of some receptions: the last, of several at one moment that of the greatest
/// receiver, and of several of that receiver's the one with the greatest frame.
#[derive(Drop)]
pub struct Greatest {
    heard: Reception,
}

impl Model for Greatest {
    ghost use Rattle.aprs_log.specs.Reception.{Received};

    ghost Value = { Received };

    ghost view = { λ g. g.heard };
}

impl Greatest {
    /// The greatest of one reception. Takes no memory.
    pub fn new(x: &Reception) -> Greatest
        ensures { result ≡ x.now }
    {
        Greatest { heard: x.copy() }
    }

    /// The greatest reception. Takes no memory.
    pub fn get(&self) -> &Reception
        ensures { result.now ≡ self.now }
    {
        &self.heard
    }
}

impl Join for Greatest {
    ghost valid = { IsAny };

    ghost alike = { AreAny };

    ghost joined = { IsGreaterOf };

    ghost laws = { greatest_laws };

    /// Always `true`: any two can be joined.
    fn fits(&self, _other: &Greatest) -> bool {
        true
    }

    /// The greater of both. Never fails. Takes no memory.
    fn join(&self, other: &Greatest) -> Result<Greatest, Memory>
        ensures joined { IfOk result (IsGreaterOf self.now other.now) }
        ensures valid_result { IfOk result IsAny }

        ensures always { IsOk result }

        ensures valid_self { IsAny self.now }
        ensures valid_other { IsAny other.now }
    {
        let mut heard = self.heard.copy();
        keep_greater(&mut heard, &other.heard);
        Ok(Greatest { heard })
    }
}

/// Puts `x` in place of `greatest` where `x` is greater: later, or at the same moment by a greater
/// receiver, or by the same receiver with a greater frame. Takes no memory.
pub fn keep_greater(greatest: &mut Reception, x: &Reception)
    ensures { greatest.new ≡ greater greatest.old x.now }
{
    let current: &Reception = greatest;
    if current.cmp(x).is_lt() {
        *greatest = x.copy();
    }
}
