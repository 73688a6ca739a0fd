//! Worked examples of the objects and items of a set, and near misses.
ghost use Rattle.std.specs.Prelude.{[], ◌∷◌, true, false};
ghost use Rattle.aprs_summary.specs.Names.{AreNamed};
ghost use Rattle.aprs_summary.specs.Examples.{object_at, killed_at, item_at, two_leaders, leader_listed};

/// An object has one row, with its greatest report from any station, and an item of its name has
/// another, after all objects.
pub fn things_are_named_once()
    ensures named { AreNamed two_leaders
        (leader_listed false (killed_at 10) ∷ leader_listed true (item_at 20) ∷ []) }
    ensures misses_killed { AreNamed two_leaders
        (leader_listed false (object_at 0) ∷ leader_listed true (item_at 20) ∷ []) → ⊥ }
    ensures misses_order { AreNamed two_leaders
        (leader_listed true (item_at 20) ∷ leader_listed false (killed_at 10) ∷ []) → ⊥ }
    ensures misses_item { AreNamed two_leaders (leader_listed false (killed_at 10) ∷ []) → ⊥ }
{}
