//! A worked example of what a monitor prints of a frame, and near misses.
ghost use Rattle.std.specs.Prelude.{◌≡◌, true, false, [], ◌∷◌, codes};
ghost use Rattle.aprs_ax25.specs.Examples.{address_with, n7lem, nj7p, parts_through};
ghost use Rattle.aprs_convert.specs.Monitor.{kind_and_monitor_text, monitor_text};
ghost use Rattle.aprs_io.specs.Shown.{is_shown_as_is};

/// A star stands after a digipeater that has repeated the frame, and after no other. A space and a
/// tilde are shown as themselves, and a backslash isn't.
pub fn monitors_print_frames()
    ensures direct { monitor_text (parts_through []) ≡ codes "N7LEM>NJ7P:>Hi" }
    ensures repeated { monitor_text
        (parts_through (address_with nj7p 4 ∷ address_with n7lem 3 ∷ []))
        ≡ codes "N7LEM>NJ7P,NJ7P*,N7LEM:>Hi" }
    ensures kind { kind_and_monitor_text (parts_through []) ≡ codes "status N7LEM>NJ7P:>Hi" }

    ensures space { is_shown_as_is 32 ≡ true }
    ensures tilde { is_shown_as_is 126 ≡ true }
    ensures misses_backslash { is_shown_as_is 92 ≡ false }
    ensures misses_below { is_shown_as_is 31 ≡ false }
    ensures misses_above { is_shown_as_is 127 ≡ false }
{}
