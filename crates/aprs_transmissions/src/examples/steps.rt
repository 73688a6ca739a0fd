//! Worked examples of the steps by which code makes a book, and near misses.
ghost use Rattle.std.specs.Prelude.{◌≡◌, [], ◌∷◌};
ghost use Rattle.aprs_transmissions.specs.JoinRow.{single, IsNear, coalesced_rows};
ghost use Rattle.aprs_transmissions.specs.Coalescing.{AreInOrder, StandFor};
ghost use Rattle.aprs_transmissions.specs.Together.{book_together};
ghost use Rattle.aprs_transmissions.specs.Inserted.{insert_heard, FitsInPlace};
ghost use Rattle.aprs_transmissions.specs.Examples.{half_minute, hi_frame, rx2, reception_at, by_rx1, early, row_at, row_to, early_row, late_row, tied_row, short_row};

/// A reception that code inserts into rows becomes a row of its own where it is far from all, makes
/// a near row longer, makes two near rows one, or, inside a row that has its receiver, changes
/// nothing.
#[tactic(auto, unfolding(crate::specs::Key::key_of, crate::specs::Key::key_cmp))]
pub fn gaps_decide_what_is_inserted()
    ensures apart { insert_heard half_minute (by_rx1 60001) (row_at 0 ∷ [])
        ≡ row_at 0 ∷ row_at 60001 ∷ [] }
    ensures grown { insert_heard half_minute (by_rx1 30001) (row_at 0 ∷ row_at 60001 ∷ [])
        ≡ row_at 0 ∷ row_to 30001 60001 ∷ [] }
    ensures bridged { insert_heard half_minute (by_rx1 30000) (row_at 0 ∷ row_to 30001 60001 ∷ [])
        ≡ row_to 0 60001 ∷ [] }
    ensures inside { insert_heard half_minute (by_rx1 40000) (row_to 0 60001 ∷ [])
        ≡ row_to 0 60001 ∷ [] }
{}

/// Rows are near up to the gap. A reception fits in place where one row alone is near and lists
/// its receiver.
pub fn rows_are_near_up_to_the_gap()
    ensures near { IsNear half_minute early_row (single (by_rx1 30000)) }
    ensures misses_far { IsNear half_minute early_row (single (by_rx1 30001)) → ⊥ }

    ensures fits { FitsInPlace half_minute (early_row ∷ late_row ∷ [])
        (reception_at 0 rx2 hi_frame) }
    ensures misses_receiver { FitsInPlace half_minute (early_row ∷ []) (by_rx1 10) → ⊥ }
    ensures misses_two { FitsInPlace half_minute (early_row ∷ late_row ∷ [])
        (reception_at 10 rx2 hi_frame) → ⊥ }
{}

/// Of rows in order each joins the last so far, where it is near to that, or comes after it. Rows
/// that aren't in order are neither sorted nor put in their place. A row stands for all its
/// witnesses, and for no fewer.
pub fn rows_in_order_are_one_book()
    ensures in_order { AreInOrder (early_row ∷ row_at 0 ∷ late_row ∷ []) }
    ensures misses_later_first { AreInOrder (late_row ∷ early_row ∷ []) → ⊥ }

    ensures inside { coalesced_rows half_minute
        (row_to 0 60000 ∷ row_at 10 ∷ row_at 90000 ∷ row_at 120001 ∷ [])
        ≡ row_to 0 90000 ∷ row_at 120001 ∷ [] }
    ensures tied { coalesced_rows half_minute (early_row ∷ row_at 0 ∷ []) ≡ tied_row ∷ [] }
    ensures misses_order { coalesced_rows half_minute (row_at 30001 ∷ row_at 0 ∷ [])
        ≡ row_at 0 ∷ row_at 30001 ∷ [] → ⊥ }

    ensures stands { StandFor (early_row ∷ []) (early ∷ []) }
    ensures misses_witness { StandFor (short_row ∷ []) (by_rx1 1 ∷ []) → ⊥ }
{}

/// Rows in any order are together one book: up to half a minute apart they are one row of it.
#[tactic(auto, unfolding(crate::specs::Key::key_of, crate::specs::Key::key_cmp))]
pub fn rows_have_one_book_in_any_order()
    ensures apart { book_together half_minute (row_at 30001 ∷ row_at 0 ∷ [])
        ≡ row_at 0 ∷ row_at 30001 ∷ [] }
    ensures near { book_together half_minute (row_at 30000 ∷ row_at 0 ∷ [])
        ≡ row_to 0 30000 ∷ [] }
    ensures between { book_together half_minute (row_at 0 ∷ row_at 60000 ∷ row_at 30000 ∷ [])
        ≡ row_to 0 60000 ∷ [] }
    ensures misses_their_order { book_together half_minute (row_at 30001 ∷ row_at 0 ∷ [])
        ≡ row_at 30001 ∷ row_at 0 ∷ [] → ⊥ }
{}
