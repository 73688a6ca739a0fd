//! Worked examples of sound rows and their witnesses, and near misses.
ghost use Rattle.std.specs.Prelude.{◌≡◌, [], ◌∷◌};
ghost use Rattle.aprs_transmissions.specs.Lists.{◌∈◌};
ghost use Rattle.aprs_transmissions.specs.Sound.{Sound, IsNext};
ghost use Rattle.aprs_transmissions.specs.Witnesses.{witnesses};
ghost use Rattle.aprs_transmissions.specs.Examples.{half_minute, hi_frame, rx1, rx2, reception_at, by_rx1, example_row, early_row, late_row, close_row, short_row};

/// Rows that no set has are not sound: those with a greatest reception that isn't by the last
/// receiver where all is at one moment, with near rows of one key, or with receivers that don't
/// ascend. A row that is near to the last one can't be next.
pub fn soundness_is_seen_in_rows()
    ensures sound { Sound half_minute (short_row ∷ []) }
    ensures misses_greatest { Sound half_minute
        (example_row 1 (rx1 ∷ rx2 ∷ []) (by_rx1 1) ∷ []) → ⊥ }
    ensures misses_apart { Sound half_minute (early_row ∷ close_row ∷ []) → ⊥ }
    ensures misses_receivers { Sound half_minute
        (example_row 0 (rx2 ∷ rx1 ∷ []) (by_rx1 1) ∷ []) → ⊥ }

    ensures next { IsNext half_minute (early_row ∷ []) late_row }
    ensures misses_near_next { IsNext half_minute (early_row ∷ []) close_row → ⊥ }
{}

/// The witnesses of a row are made up of it, so that what was really heard need not be among them.
pub fn witnesses_are_made_up()
    ensures witnesses { witnesses (short_row ∷ [])
        ≡ by_rx1 0 ∷ by_rx1 1 ∷ by_rx1 0 ∷ reception_at 0 rx2 hi_frame ∷ [] }
    ensures misses_other { reception_at 1 rx2 hi_frame ∈ witnesses (short_row ∷ []) → ⊥ }
{}
