//! Worked examples of sets and orders, and near misses.
ghost use Rattle.std.specs.Prelude.{[], ◌∷◌};
ghost use Rattle.aprs_log.specs.Reception.{bytes_cmp, heard_cmp};
ghost use Rattle.aprs_transmissions.specs.Lists.{SameMembers, Ordered};
ghost use Rattle.aprs_transmissions.specs.Order.{IsBelow, IsUpTo};
ghost use Rattle.aprs_transmissions.specs.Examples.{rx1, rx2, by_rx1};

/// Two lists have the same members in whatever order and however often. Ascending lists have no
/// repeats. A value is up to itself, and not below itself.
pub fn sets_and_orders()
    ensures members { SameMembers (rx1 ∷ rx2 ∷ rx1 ∷ []) (rx2 ∷ rx1 ∷ []) }
    ensures misses_member { SameMembers (rx1 ∷ []) (rx1 ∷ rx2 ∷ []) → ⊥ }

    ensures ascends { Ordered (IsBelow bytes_cmp) (rx1 ∷ rx2 ∷ []) }
    ensures misses_repeat { Ordered (IsBelow bytes_cmp) (rx1 ∷ rx1 ∷ []) → ⊥ }

    ensures up_to_itself { IsUpTo heard_cmp (by_rx1 0) (by_rx1 0) }
    ensures misses_below_itself { IsBelow heard_cmp (by_rx1 0) (by_rx1 0) → ⊥ }
{}
