//! Worked examples of ranges of sources, and near misses. The functions do nothing.
ghost use Rattle.std.specs.Prelude.{◌≡◌, [], ◌∷◌, false, true};
ghost use Rattle.aprs_transmissions.specs.Examples.{n0call};
ghost use Rattle.aprs_fold.specs.Examples.{from_eight, of_eight, of_seven, two_until_ten, until_eight};
ghost use Rattle.aprs_fold.specs.Range.{is_within, rows_of_sources};

/// A range has its first source, and not its end. SSIDs are numbers: 9 is before 10.
pub fn ranges_lack_their_ends()
    ensures first { is_within two_until_ten (n0call 2) ≡ true }
    ensures between { is_within two_until_ten (n0call 9) ≡ true }
    ensures misses_before { is_within two_until_ten (n0call 1) ≡ false }
    ensures misses_end { is_within two_until_ten (n0call 10) ≡ false }
{}

/// A row is in the part that begins with its source, and not in the one that ends there.
#[tactic(auto, unfolding(aprs_transmissions::specs::Key::key_of))]
pub fn rows_are_in_one_part()
    ensures before { rows_of_sources until_eight (of_seven ∷ of_eight ∷ []) ≡ of_seven ∷ [] }
    ensures after { rows_of_sources from_eight (of_seven ∷ of_eight ∷ []) ≡ of_eight ∷ [] }
{}
