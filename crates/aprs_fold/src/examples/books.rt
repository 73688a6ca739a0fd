//! Worked examples of the book of several books, and near misses. The functions do nothing.
ghost use Rattle.std.specs.Prelude.{◌≡◌, [], ◌∷◌};
ghost use Rattle.aprs_transmissions.specs.Examples.{row_at, row_to};
ghost use Rattle.aprs_fold.specs.Examples.{of_eight, of_seven, until_eight};
ghost use Rattle.aprs_fold.specs.Inputs.{all_of, book_of_all};
ghost use Rattle.aprs_fold.specs.Range.{book_of_sources};

/// Several books are one book under a gap in seconds, in whatever order they come.
#[tactic(auto, unfolding(crate::specs::Examples::key_of, crate::specs::Examples::key_cmp))]
pub fn books_are_one_book()
    ensures none { book_of_all 30 [] ≡ record { gap = 30; rows = [] } }
    ensures near { book_of_all 30 ((row_at 30000 ∷ []) ∷ [] ∷ (row_at 0 ∷ []) ∷ [])
        ≡ record { gap = 30; rows = row_to 0 30000 ∷ [] } }
    ensures apart { book_of_all 30 ((row_at 30001 ∷ []) ∷ (row_at 0 ∷ []) ∷ [])
        ≡ record { gap = 30; rows = row_at 0 ∷ row_at 30001 ∷ [] } }
    ensures wider { book_of_all 31 ((row_at 30001 ∷ []) ∷ (row_at 0 ∷ []) ∷ [])
        ≡ record { gap = 31; rows = row_to 0 30001 ∷ [] } }
    ensures all { all_of ((row_at 1 ∷ row_at 2 ∷ []) ∷ [] ∷ (row_at 0 ∷ []) ∷ [])
        ≡ row_at 1 ∷ row_at 2 ∷ row_at 0 ∷ [] }
{}

/// A range has those rows of that book whose sources are within it.
#[tactic(auto, unfolding(crate::specs::Examples::key_of, crate::specs::Examples::key_cmp))]
pub fn books_have_ranges()
    ensures both { book_of_sources until_eight 30 ((of_eight ∷ []) ∷ (of_seven ∷ []) ∷ [])
        ≡ record { gap = 30; rows = of_seven ∷ [] } }
    ensures joined { book_of_sources until_eight 30
        ((row_at 30000 ∷ of_eight ∷ []) ∷ (row_at 0 ∷ []) ∷ [])
        ≡ record { gap = 30; rows = row_to 0 30000 ∷ [] } }
    ensures none { book_of_sources until_eight 30 ((of_eight ∷ []) ∷ [])
        ≡ record { gap = 30; rows = [] } }
{}
