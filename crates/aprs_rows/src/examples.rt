//! Worked examples of why a row can't follow others, and of which of several comes first, and near
//! misses.
ghost use Rattle.std.specs.Prelude.{◌≡◌, [], ◌∷◌, Some, None};
ghost use Rattle.aprs_transmissions.specs.declared.row_cause.RowCause.TheVariants.{Order, Span, Near, Receivers, NotGreatest};
ghost use Rattle.aprs_transmissions.specs.Examples.{half_minute, rx1, rx2, by_rx1, example_row, row_at, row_to, short_row};
ghost use Rattle.aprs_rows.specs.Fronts.{NotAfter};
ghost use Rattle.aprs_rows.specs.Matches.{halved, winner_of};
ghost use Rattle.aprs_rows.specs.Refusal.{refusal};
ghost use Rattle.aprs_rows.specs.Examples.{eighth_row, unlisted_row, lesser_row};

/// Each cause alone, and beside it a row like the one it refuses, which nothing refuses. The gap
/// counts from the last moment of the row before.
pub fn rows_are_refused_for_a_cause()
    ensures order { refusal half_minute (eighth_row ∷ []) (row_at 0) ≡ Some Order }
    ensures follows { refusal half_minute (row_at 0 ∷ []) eighth_row ≡ None }

    ensures span { refusal half_minute [] (row_to 1 0) ≡ Some Span }
    ensures at_once { refusal half_minute [] (row_to 0 0) ≡ None }

    ensures near { refusal half_minute (row_to 0 9 ∷ []) (row_at 30009) ≡ Some Near }
    ensures far { refusal half_minute (row_to 0 9 ∷ []) (row_at 30010) ≡ None }

    ensures unlisted { refusal half_minute [] unlisted_row ≡ Some Receivers }
    ensures descending { refusal half_minute [] (example_row 0 (rx2 ∷ rx1 ∷ []) (by_rx1 1))
        ≡ Some Receivers }
    ensures twice { refusal half_minute [] (example_row 0 (rx1 ∷ rx1 ∷ []) (by_rx1 1))
        ≡ Some Receivers }
    ensures lesser { refusal half_minute [] lesser_row ≡ Some NotGreatest }
    ensures listed { refusal half_minute [] short_row ≡ None }
{}

/// Where two causes are true of a row, it is refused for the first in the order of `RowCause`.
pub fn first_causes_hide_others()
    ensures order_span { refusal half_minute (eighth_row ∷ []) (row_to 1 0) ≡ Some Order }
    ensures order_near { refusal half_minute (row_at 0 ∷ []) (row_at 0) ≡ Some Order }
    ensures order_receivers { refusal half_minute (eighth_row ∷ []) unlisted_row ≡ Some Order }
    ensures order_not_greatest { refusal half_minute (eighth_row ∷ []) lesser_row ≡ Some Order }

    ensures span_near { refusal half_minute (row_at 0 ∷ []) (row_to 2 1) ≡ Some Span }
    ensures span_receivers { refusal half_minute [] (example_row 1 (rx2 ∷ []) (by_rx1 0))
        ≡ Some Span }

    ensures near_receivers { refusal half_minute (row_at 0 ∷ []) unlisted_row ≡ Some Near }
    ensures near_not_greatest { refusal half_minute (row_at 0 ∷ []) lesser_row ≡ Some Near }

    ensures receivers_not_greatest { refusal half_minute [] (example_row 1 (rx2 ∷ []) (by_rx1 1))
        ≡ Some Receivers }
{}

/// Each match has half the number of the two before it. Numbers after those of the matches are
/// those of streams.
pub fn matches_have_half_the_number()
    ensures itself { halved 0 5 ≡ 5 }
    ensures next { halved 1 5 ≡ 2 }
    ensures even { halved 1 4 ≡ 2 }
    ensures second { halved 2 5 ≡ 1 }
    ensures last { halved 3 5 ≡ 0 }
    ensures won { winner_of (7 ∷ 8 ∷ []) 1 ≡ 8 }
    ensures stream { winner_of (7 ∷ 8 ∷ []) 3 ≡ 1 }
{}

/// A row that isn't there comes after all.
pub fn ended_lists_come_last()
    ensures ended { NotAfter (Some (row_at 0)) None }
    ensures both { NotAfter None None }
    ensures earlier { NotAfter (Some (row_at 0)) (Some (row_at 1)) }
    ensures misses_ended { NotAfter None (Some (row_at 0)) → ⊥ }
    ensures misses_later { NotAfter (Some (row_at 1)) (Some (row_at 0)) → ⊥ }
{}
