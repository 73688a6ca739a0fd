//! Worked examples of rows and of the book of a set, and near misses.
ghost use Rattle.std.specs.Prelude.{◌≡◌, [], ◌∷◌};
ghost use Rattle.aprs_transmissions.specs.Row.{IsOf, RowOf};
ghost use Rattle.aprs_transmissions.specs.Book.{BookOf};
ghost use Rattle.aprs_transmissions.specs.JoinRow.{plain_book};
ghost use Rattle.aprs_transmissions.specs.Examples.{half_minute, hi_frame, hi_after_digipeater, hi_as_response, rx1, rx2, reception_at, by_rx1, early, example_row, row_at, row_to, near_pair, near_row, far_pair, early_row, late_row, tied_pair, tied_row};

/// A row has its transmission's greatest reception, and all of its receivers. A reception after its
/// last moment is not of it.
pub fn rows_are_whole()
    ensures is_of { IsOf near_row early }
    ensures misses_later { IsOf early_row (by_rx1 30001) → ⊥ }

    ensures row { RowOf half_minute tied_pair tied_row }
    ensures misses_greatest { RowOf half_minute tied_pair
        (example_row 0 (rx1 ∷ rx2 ∷ []) (by_rx1 0)) → ⊥ }
    ensures misses_receiver { RowOf half_minute tied_pair (example_row 0 (rx2 ∷ []) early) → ⊥ }
{}

/// A book has all rows of its set, in order.
pub fn books_are_whole()
    ensures book { BookOf half_minute far_pair (early_row ∷ late_row ∷ []) }
    ensures misses_row { BookOf half_minute far_pair (early_row ∷ []) → ⊥ }
    ensures misses_order { BookOf half_minute far_pair (late_row ∷ early_row ∷ []) → ⊥ }
{}

/// Neighbours 30 seconds apart are of one transmission, and 30,001 milliseconds apart of two. One
/// more reception that is near to two rows makes them one, and a further one between its first and
/// its last moment doesn't change that row.
#[tactic(auto, unfolding(crate::specs::Key::key_of, crate::specs::Key::key_cmp))]
pub fn gaps_decide_rows()
    ensures thirty_joins { plain_book half_minute near_pair ≡ near_row ∷ [] }
    ensures a_millisecond_more_does_not { plain_book half_minute far_pair
        ≡ early_row ∷ late_row ∷ [] }

    ensures two_rows { plain_book half_minute (by_rx1 30001 ∷ by_rx1 60001 ∷ by_rx1 0 ∷ [])
        ≡ row_at 0 ∷ row_to 30001 60001 ∷ [] }
    ensures bridged { plain_book half_minute
        (by_rx1 30000 ∷ by_rx1 30001 ∷ by_rx1 60001 ∷ by_rx1 0 ∷ [])
        ≡ row_to 0 60001 ∷ [] }
    ensures inside { plain_book half_minute
        (by_rx1 40000 ∷ by_rx1 30000 ∷ by_rx1 30001 ∷ by_rx1 60001 ∷ by_rx1 0 ∷ [])
        ≡ row_to 0 60001 ∷ [] }
{}

/// Of receptions at one moment that of the greater receiver is greatest, and of one receiver's that
/// with the greater frame, in whatever order they come.
#[tactic(auto, unfolding(crate::specs::Key::key_of, crate::specs::Key::key_cmp))]
pub fn ties_go_by_receiver_then_frame()
    ensures frame { plain_book half_minute (reception_at 0 rx1 hi_after_digipeater ∷ by_rx1 0 ∷ [])
        ≡ row_at 0 ∷ [] }
    ensures frame_turned { plain_book half_minute
        (by_rx1 0 ∷ reception_at 0 rx1 hi_after_digipeater ∷ [])
        ≡ row_at 0 ∷ [] }
    ensures receiver { plain_book half_minute tied_pair ≡ tied_row ∷ [] }
{}

/// Receivers stand in ascending order, each once.
#[tactic(auto, unfolding(crate::specs::Key::key_of, crate::specs::Key::key_cmp))]
pub fn receivers_ascend()
    ensures { plain_book half_minute
        (reception_at 10 rx2 hi_frame ∷ reception_at 5 rx1 hi_as_response ∷ early ∷ [])
        ≡ example_row 0 (rx1 ∷ rx2 ∷ []) (reception_at 10 rx2 hi_frame) ∷ [] }
{}
