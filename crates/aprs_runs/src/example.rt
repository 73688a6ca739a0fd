//! Worked examples of what an input stands for, and near misses that it leaves out. The functions
//! do nothing.
ghost use Rattle.std.specs.Prelude.{[], ◌∷◌, List};
ghost use Rattle.aprs_io.specs.declared.input.InputEnd.TheVariants.{End, Read};
ghost use Rattle.aprs_log.specs.Reception.{Received};
ghost use Rattle.aprs_runs.specs.Examples.{cut_book, text_of_no_row, unended_log};
ghost use Rattle.aprs_runs.specs.Inputs.{GivesSet};

/// A log of no line stands for the empty set alone. One whose read failed, or whose last line isn't
/// ended, stands for none.
pub fn logs_stand_for_their_receptions()
    ensures empty { GivesSet 30 [] End [] }
    ensures misses_reception { (x : Received) → GivesSet 30 [] End (x ∷ []) → ⊥ }
    ensures misses_failed_read { (S : List Received) → GivesSet 30 [] Read S → ⊥ }
    ensures misses_unended { (S : List Received) → GivesSet 30 unended_log End S → ⊥ }
{}

/// A book file of no row stands for the empty set, under its own gap. Without its last line it
/// stands for none.
pub fn book_files_stand_for_their_sets()
    ensures empty { GivesSet 5 text_of_no_row End [] }
    ensures misses_other_gap { (S : List Received) → GivesSet 30 text_of_no_row End S → ⊥ }
    ensures misses_failed_read { (S : List Received) → GivesSet 5 text_of_no_row Read S → ⊥ }
    ensures misses_cut_short { (S : List Received) → GivesSet 5 cut_book End S → ⊥ }
{}
