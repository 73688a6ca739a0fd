//! The memory that a host gives for good.
ghost use Rattle.std.specs.Prelude.{◌≡◌, ◌+◌, ◌<◌, ◌^◌, MatchResult};
ghost use Rattle.aprs_arena.specs.Room.{units_at};

use std::marker::Model;

/// The size and the alignment of a unit, in bytes.
pub(crate) const UNIT: usize = 16;

/// `units` units of 16 bytes from `start` on, which is a multiple of 16 and not null. Whoever has
/// this value has the bytes alone: nothing lies in them, and nobody else reads or writes them.
#[repr(C)]
#[derive(Drop)]
pub struct Region {
    pub start: *mut u8,
    pub units: usize,
}

impl Model for Region {
    ghost also_owns = { λ region. units_at region.units region.start };
}

impl Region {
    /// So many units from the front, and the rest; or the whole region again, where it has fewer.
    pub(crate) fn cut(self, units: usize) -> Result<(Region, Region), Region>
        requires { units < 2 ^ 60 }
        ensures { MatchResult result
            (λ parts. (parts.0.units ≡ units) × (units + parts.1.units ≡ self.units))
            (λ whole. (self.units < units) × (whole.units ≡ self.units)) }
    {
        let Region { start, units: all } = self;
        if units > all {
            return Err(Region { start, units: all });
        }
        let rest = unsafe { start.add(units * UNIT) };
        Ok((
            Region { start, units },
            Region {
                start: rest,
                units: all - units,
            },
        ))
    }
}
