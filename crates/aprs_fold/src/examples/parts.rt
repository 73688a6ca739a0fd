//! Worked examples of the part of a text that a fold leaves, and near misses. The functions do
//! nothing.
ghost use Rattle.std.specs.Prelude.{◌≡◌, [], ◌∷◌, ◌++◌, Some, codes};
ghost use Rattle.aprs_bookfile.specs.Text.{written_text};
ghost use Rattle.aprs_fold.specs.Examples.{uncalled};
ghost use Rattle.aprs_fold.specs.Fold.{IsPart, LacksEnd, header_text};
ghost use Rattle.aprs_fold.specs.declared.fault.FoldFault.TheVariants.{Memory};

/// A header alone lacks a last line, which a whole text has. Where an input or memory failed, at
/// least the header was left, and no whole text.
pub fn headers_lack_an_end()
    ensures header { header_text 31 ≡ codes "APRSBOOK 3 31" ++ 10 ∷ [] }
    ensures lacks { LacksEnd (header_text 31) }
    ensures part { IsPart Some 31 Memory [] [] (uncalled []) (uncalled (header_text 31)) }
    ensures misses_end { LacksEnd (written_text (record { gap = 31; rows = [] })) → ⊥ }
    ensures misses_whole { IsPart Some 31 Memory [] [] (uncalled [])
        (uncalled (written_text (record { gap = 31; rows = [] }))) → ⊥ }
    ensures misses_nothing { IsPart Some 31 Memory [] [] (uncalled []) (uncalled []) → ⊥ }
{}
