//! Worked examples of what is new, and near misses. The functions do nothing.
ghost use Rattle.std.specs.Prelude.{◌≡◌, [], ◌∷◌};
ghost use Rattle.aprs_transmissions.specs.Examples.{early_row, half_minute, late_row, tied_row};
ghost use Rattle.aprs_transmissions.specs.JoinRow.{merge};
ghost use Rattle.aprs_fold.specs.NewRows.{HasMerged, new_rows};

/// A row that both have is not new; one with a receiver more is. One with a receiver less is new as
/// it stands, though it has been taken: in the book of both there is nothing new.
#[tactic(auto, unfolding(crate::specs::Examples::key_of, crate::specs::Examples::key_cmp))]
pub fn rows_are_new_as_they_are()
    ensures later { new_rows (early_row ∷ []) (early_row ∷ late_row ∷ []) ≡ late_row ∷ [] }
    ensures more { new_rows (early_row ∷ []) (tied_row ∷ []) ≡ tied_row ∷ [] }
    ensures less { new_rows (tied_row ∷ []) (early_row ∷ []) ≡ early_row ∷ [] }
    ensures merged { new_rows (tied_row ∷ [])
        (merge half_minute (tied_row ∷ []) (early_row ∷ [])) ≡ [] }
{}

/// Who has taken the old book gets all by the new rows; who hasn't lacks the old ones.
#[tactic(auto, unfolding(crate::specs::Examples::key_of, crate::specs::Examples::key_cmp))]
pub fn new_rows_need_the_old()
    ensures whole { merge half_minute (early_row ∷ [])
        (new_rows (early_row ∷ []) (early_row ∷ late_row ∷ [])) ≡ early_row ∷ late_row ∷ [] }
    ensures taken { HasMerged half_minute (tied_row ∷ []) (early_row ∷ []) }
    ensures misses_taken { HasMerged half_minute (late_row ∷ []) (early_row ∷ []) → ⊥ }
    ensures misses_old { merge half_minute []
        (new_rows (early_row ∷ []) (early_row ∷ late_row ∷ [])) ≡ late_row ∷ [] }
{}
