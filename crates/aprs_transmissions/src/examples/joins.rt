//! Worked examples of joins, and near misses.
ghost use Rattle.std.specs.Prelude.{◌≡◌, [], ◌∷◌};
ghost use Rattle.aprs_log.specs.Reception.{bytes_cmp};
ghost use Rattle.aprs_transmissions.specs.Joining.{JoinLaws, AreAny, IsGreaterOf, IsAny, IsUnited, Joined, FoldsTo};
ghost use Rattle.aprs_transmissions.specs.JoinRow.{coalesced_rows};
ghost use Rattle.aprs_transmissions.specs.Merged.{ascending_union};
ghost use Rattle.aprs_transmissions.specs.Examples.{half_minute, rx1, rx2, by_rx1, early, near_row, early_row, late_row, close_row, TakesFirst};

/// A join of two receptions is the greater one, and a join of two lists of receivers has the names
/// of both, each once. A rule that always gives the first value is no join. Where items are joined
/// to a start, the start counts too.
pub fn joins_take_both()
    ensures greater { IsGreaterOf early (by_rx1 30001) (by_rx1 30001) }
    ensures misses_lesser { IsGreaterOf early (by_rx1 30001) early → ⊥ }

    ensures united { IsUnited bytes_cmp (rx2 ∷ []) (rx1 ∷ rx2 ∷ []) (rx1 ∷ rx2 ∷ []) }
    ensures merged { ascending_union bytes_cmp (rx2 ∷ []) (rx1 ∷ rx2 ∷ []) ≡ rx1 ∷ rx2 ∷ [] }
    ensures misses_repeat { IsUnited bytes_cmp (rx1 ∷ []) (rx1 ∷ []) (rx1 ∷ rx1 ∷ []) → ⊥ }

    ensures misses_first { JoinLaws IsAny AreAny TakesFirst → ⊥ }

    ensures folds { FoldsTo IsGreaterOf early (by_rx1 30001 ∷ []) (by_rx1 30001) }
    ensures misses_start { FoldsTo IsGreaterOf (by_rx1 30001) (early ∷ []) early → ⊥ }
{}

/// Two books whose rows are near are joined to one row, and not to both rows side by side. Where
/// the rows are far, those of one book alone aren't the joined book.
#[tactic(auto, unfolding(crate::specs::Key::key_of, crate::specs::Key::key_cmp))]
pub fn joined_books_are_books()
    ensures joined { Joined half_minute (early_row ∷ []) (close_row ∷ []) (near_row ∷ []) }
    ensures one_pass { coalesced_rows half_minute (early_row ∷ close_row ∷ [])
        ≡ near_row ∷ [] }
    ensures misses_side_by_side { Joined half_minute (early_row ∷ []) (close_row ∷ [])
        (early_row ∷ close_row ∷ []) → ⊥ }
    ensures misses_one_book { Joined half_minute (early_row ∷ []) (late_row ∷ [])
        (early_row ∷ []) → ⊥ }
{}
