//! Worked examples of gaps, of books under them, and of other units, and near misses.
ghost use Rattle.std.specs.Prelude.{◌≡◌, [], ◌∷◌, map};
ghost use Rattle.aprs_transmissions.specs.Gap.{standard_gap, IsGap, millis_of};
ghost use Rattle.aprs_transmissions.specs.BookValue.{Holds, IsSoundBook, HaveOneGap, AreJoined, widened_to};
ghost use Rattle.aprs_transmissions.specs.JoinRow.{plain_book};
ghost use Rattle.aprs_transmissions.specs.Widening.{widened_rows};
ghost use Rattle.aprs_transmissions.specs.Scaling.{scaled_rows, scaled_heard};
ghost use Rattle.aprs_transmissions.specs.Examples.{half_minute, rx1, rx2, by_rx1, example_row, row_at, near_pair, near_row, far_pair, book_under, early_row, late_row};

/// Gaps are 1 to 3,600 seconds, and the standard gap is 30,000 milliseconds.
pub fn gaps_are_of_seconds()
    ensures standard { millis_of standard_gap ≡ half_minute }

    ensures least { IsGap 1 }
    ensures greatest { IsGap 3600 }
    ensures misses_none { IsGap 0 → ⊥ }
    ensures misses_more { IsGap 3601 → ⊥ }
{}

/// A book holds a set under its own gap, which is at least a second, and is joined with books of
/// that gap alone. Rows that are far enough apart under 30 seconds, and not under 31, become one
/// row where the book is widened.
pub fn books_have_gaps()
    ensures holds { Holds far_pair (book_under 30) }
    ensures misses_gap { Holds far_pair (book_under 31) → ⊥ }

    ensures sound { IsSoundBook (book_under 30) }
    ensures misses_sound { IsSoundBook (book_under 31) → ⊥ }
    ensures misses_range { IsSoundBook (record { gap = 0; rows = [] }) → ⊥ }

    ensures misses_other { HaveOneGap (book_under 30) (book_under 31) → ⊥ }
    ensures misses_joined { AreJoined (book_under 30) (book_under 31) (book_under 30) → ⊥ }

    ensures widened { widened_to 31 (book_under 30)
        ≡ record { gap = 31; rows = example_row 0 (rx1 ∷ rx2 ∷ []) (by_rx1 30001) ∷ [] } }
{}

/// Two rows 30,001 milliseconds apart are one under a gap of 30,001, and stay two under their own.
#[tactic(auto, unfolding(crate::specs::Key::key_of, crate::specs::Key::key_cmp))]
pub fn wider_gaps_join_rows()
    ensures widened { widened_rows 30001 (early_row ∷ late_row ∷ [])
        ≡ example_row 0 (rx1 ∷ rx2 ∷ []) (by_rx1 30001) ∷ [] }
    ensures apart { widened_rows 30000 (early_row ∷ late_row ∷ [])
        ≡ early_row ∷ late_row ∷ [] }
{}

/// One transmission of 30,000 milliseconds is one of 30,000,000 microseconds under the gap in
/// microseconds. Under the gap in milliseconds it would be two.
#[tactic(auto, unfolding(crate::specs::Key::key_of, crate::specs::Key::key_cmp))]
pub fn units_scale_gaps_too()
    ensures scaled { scaled_rows 1000 (near_row ∷ [])
        ≡ example_row 0 (rx1 ∷ rx2 ∷ []) (by_rx1 30000000) ∷ [] }
    ensures plain { plain_book 30000000 (map (scaled_heard 1000) near_pair)
        ≡ scaled_rows 1000 (near_row ∷ []) }
    ensures two { plain_book 30000 (map (scaled_heard 1000) near_pair)
        ≡ early_row ∷ row_at 30000000 ∷ [] }
{}
