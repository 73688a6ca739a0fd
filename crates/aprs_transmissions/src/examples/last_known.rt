//! Worked examples of what is last known, and near misses.
ghost use Rattle.std.specs.Prelude.{◌≡◌, Some, None};
ghost use Rattle.aprs_transmissions.specs.Best.{IsBest, LastKnown, known_of};
ghost use Rattle.aprs_transmissions.specs.BestLaws.{Passes};
ghost use Rattle.aprs_transmissions.specs.Examples.{is_any_key, by_rx1, early, far_pair};

/// What is last known is the greatest reception, and not the one that comes last in the list. Where
/// the key of any reception passes the test, something is last known.
pub fn greatest_is_last_known()
    ensures best { IsBest far_pair (Passes is_any_key) (by_rx1 30001) }
    ensures plain { known_of is_any_key None far_pair ≡ Some (by_rx1 30001) }
    ensures misses_last { IsBest far_pair (Passes is_any_key) early → ⊥ }
    ensures misses_none { LastKnown far_pair (Passes is_any_key) None → ⊥ }
{}
