//! Worked examples of what a key reports, and near misses.
ghost use Rattle.std.specs.Prelude.{◌≡◌, true, false, codes};
ghost use Rattle.aprs_transmissions.specs.Key.{key_of};
ghost use Rattle.aprs_transmissions.specs.Examples.{n0call, key_by};
ghost use Rattle.aprs_summary.specs.Reports as Spec;
ghost use Rattle.aprs_summary.specs.Examples.{killed_at, item_at};

/// A position and a status are their sender's. The SSID counts.
pub fn stations_report()
    ensures position { Spec.reports_position (n0call 7) (key_by 7 (codes "!4903.50N/07201.75W-"))
        ≡ true }
    ensures status { Spec.reports_status (n0call 7) (key_by 7 (codes ">Hi")) ≡ true }

    ensures misses_status { Spec.reports_position (n0call 7) (key_by 7 (codes ">Hi")) ≡ false }
    ensures misses_position { Spec.reports_status (n0call 7)
        (key_by 7 (codes "!4903.50N/07201.75W-")) ≡ false }
    ensures misses_station { Spec.reports_position (n0call 8)
        (key_by 7 (codes "!4903.50N/07201.75W-")) ≡ false }
    ensures misses_station_of_status { Spec.reports_status (n0call 8) (key_by 7 (codes ">Hi"))
        ≡ false }
{}

/// A killed object is found by its name, and an item by its own, also with spaces at the name's
/// end. An object is no item of its name, and an item no object.
pub fn things_are_reported_by_name()
    ensures object { Spec.reports_object (codes "LEADER  ") (key_of (killed_at 0).frame) ≡ true }
    ensures item { Spec.reports_item (codes "LEADER  ") (key_of (item_at 0).frame) ≡ true }

    ensures misses_object { Spec.reports_item (codes "LEADER") (key_of (killed_at 0).frame)
        ≡ false }
    ensures misses_item { Spec.reports_object (codes "LEADER") (key_of (item_at 0).frame)
        ≡ false }
    ensures misses_name { Spec.reports_object (codes "LEAD") (key_of (killed_at 0).frame)
        ≡ false }
    ensures misses_name_of_item { Spec.reports_item (codes "LEAD") (key_of (item_at 0).frame)
        ≡ false }
{}
