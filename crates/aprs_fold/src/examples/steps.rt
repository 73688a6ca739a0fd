//! Worked examples of the steps of a fold, and near misses. The functions do nothing.
ghost use Rattle.std.specs.Prelude.{◌≡◌, [], ◌∷◌, ◌++◌, None, Some, codes, false, true};
ghost use Rattle.aprs_transmissions.specs.Examples.{early_row, late_row};
ghost use Rattle.aprs_fold.specs.Examples.{uncalled};
ghost use Rattle.aprs_fold.specs.Folding.{rows_put};
ghost use Rattle.aprs_fold.specs.Inputs.{IsOneRefused};
ghost use Rattle.aprs_fold.specs.LastRow.{IsOfStream, lent_or, taken_or};
ghost use Rattle.aprs_fold.specs.Lines.{IsLineAt, ReadsLine};
ghost use Rattle.aprs_fold.specs.Streams.{IsOfInputs, ahead_of_all};
ghost use Rattle.aprs_fold.specs.Taking.{ClosesFor, IsThere};
ghost use Rattle.aprs_fold.specs.declared.fault.FoldFault.TheVariants.{Memory, OtherGap, Write};

/// Where the next row closes the last one, that is put, and the next takes its place.
pub fn closed_rows_are_put()
    ensures closed { rows_put true (early_row ∷ []) ≡ early_row ∷ [] }
    ensures not_closed { rows_put false (early_row ∷ []) ≡ [] }
    ensures there { IsThere true (early_row ∷ []) }
    ensures not_there { IsThere false [] }
    ensures misses_there { IsThere true [] → ⊥ }
    ensures misses_not_there { IsThere false (early_row ∷ []) → ⊥ }
    ensures closes_none { ClosesFor false 30000 [] early_row }
    ensures misses_closed { ClosesFor true 30000 [] early_row → ⊥ }
{}

/// A row that was taken is lent by its stream, and a joined one by none.
pub fn taken_rows_are_lent()
    ensures taken { taken_or (Some 1) (early_row ∷ []) late_row ≡ late_row ∷ [] }
    ensures joined { taken_or None (early_row ∷ []) late_row ≡ early_row ∷ [] }
    ensures not_lent { lent_or {A = Unit {0}} None (early_row ∷ []) [] ≡ early_row ∷ [] }
    ensures no_stream { lent_or {A = Unit {0}} (Some 0) (early_row ∷ []) [] ≡ [] }
    ensures of_the_stream { IsOfStream 1 (Some 1) }
    ensures misses_other { IsOfStream 1 (Some 0) → ⊥ }
{}

/// A refusal of the output is no fault of an input.
pub fn streams_end_and_fail()
    ensures memory { IsOfInputs Memory }
    ensures gap { IsOfInputs (OtherGap 1) }
    ensures misses_output { IsOfInputs Write → ⊥ }
    ensures misses_refusal { IsOneRefused Some 100 31 1 Write (uncalled []) (uncalled []) → ⊥ }
    ensures no_stream { ahead_of_all {A = Unit {0}} [] ≡ 0 }
{}

/// A line stands at a place up to the first LF from there on, and the next place is after that.
pub fn lines_stand_at_places()
    ensures line { IsLineAt (codes "aT" ++ 10 ∷ codes "b") 1 (codes "T") }
    ensures next { ReadsLine (codes "aT" ++ 10 ∷ codes "b") 1 (codes "T") 3 }
    ensures misses_next { ReadsLine (codes "aT" ++ 10 ∷ codes "b") 1 (codes "T") 2 → ⊥ }
    ensures misses_second { IsLineAt (codes "a" ++ 10 ∷ codes "b" ++ 10 ∷ []) 0
        (codes "a" ++ 10 ∷ codes "b") → ⊥ }
{}
