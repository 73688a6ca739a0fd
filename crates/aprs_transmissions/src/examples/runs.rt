//! Worked examples of transmissions, and near misses.
ghost use Rattle.aprs_transmissions.specs.Run.{HeardAt, Run};
ghost use Rattle.aprs_transmissions.specs.Examples.{half_minute, hi_key, near_pair, far_pair};

/// A part of a transmission is no transmission, and two transmissions aren't one.
pub fn runs_are_maximal()
    ensures heard { HeardAt far_pair hi_key 30001 }
    ensures misses_moment { HeardAt far_pair hi_key 30000 → ⊥ }

    ensures run { Run half_minute near_pair hi_key 0 30000 }
    ensures misses_part { Run half_minute near_pair hi_key 0 0 → ⊥ }
    ensures misses_both { Run half_minute far_pair hi_key 0 30001 → ⊥ }
{}
