//! Worked examples of merges between places, and near misses.
ghost use Rattle.std.specs.Prelude.{◌≡◌, [], ◌∷◌};
ghost use Rattle.aprs_transmissions.specs.Lists.{◌∈◌};
ghost use Rattle.aprs_transmissions.specs.Taken.{sets_after, StepsFit};
ghost use Rattle.aprs_transmissions.specs.StepLaws.{rows_after_steps};
ghost use Rattle.aprs_transmissions.specs.Examples.{half_minute, hi_frame, rx1, rx2, reception_at, by_rx1, example_row, take_merge_take, back_and_forth};

/// A merge takes what the other place has then, and not what comes there later. Steps fit a number
/// of places if each place that they name is below it. Two places that take from each other have
/// the same book afterwards.
#[tactic(auto, unfolding(crate::specs::Key::key_of, crate::specs::Key::key_cmp))]
pub fn merges_take_what_is_there()
    ensures taken { sets_after take_merge_take 1 ≡ by_rx1 0 ∷ [] }
    ensures misses_later { by_rx1 30001 ∈ sets_after take_merge_take 1 → ⊥ }

    ensures fits { StepsFit 2 back_and_forth }
    ensures misses_place { StepsFit 1 back_and_forth → ⊥ }

    ensures first_book { rows_after_steps half_minute back_and_forth (λ place. []) 0
        ≡ example_row 0 (rx1 ∷ rx2 ∷ []) (reception_at 20 rx2 hi_frame) ∷ [] }
    ensures second_book { rows_after_steps half_minute back_and_forth (λ place. []) 1
        ≡ example_row 0 (rx1 ∷ rx2 ∷ []) (reception_at 20 rx2 hi_frame) ∷ [] }
{}
