//! Worked examples of what of a fold is new to the first book, and near misses. The functions do
//! nothing.
ghost use Rattle.std.specs.Prelude.{◌≡◌, [], ◌∷◌};
ghost use Rattle.aprs_transmissions.specs.Examples.{early_row, row_at, row_to, tied_row};
ghost use Rattle.aprs_fold.specs.Examples.{of_eight, of_seven, until_eight};
ghost use Rattle.aprs_fold.specs.News.{first_of, news_of_sources};
ghost use Rattle.aprs_fold.specs.Range.{all_sources};

/// The first book is the old one, which is folded with the others. So a row that a new receiver
/// makes, and one that a new row joins, are new. What the old one has taken is not.
#[tactic(auto, unfolding(crate::specs::Examples::key_of, crate::specs::Examples::key_cmp))]
pub fn news_are_of_the_fold()
    ensures first { first_of ((row_at 0 ∷ []) ∷ (row_at 1 ∷ []) ∷ []) ≡ row_at 0 ∷ [] }
    ensures none { first_of [] ≡ [] }
    ensures of_none { news_of_sources all_sources 30 [] ≡ record { gap = 30; rows = [] } }
    ensures of_one { news_of_sources all_sources 30 ((row_at 0 ∷ []) ∷ [])
        ≡ record { gap = 30; rows = [] } }
    ensures later { news_of_sources all_sources 30
        ((row_at 0 ∷ []) ∷ (row_at 30001 ∷ []) ∷ [])
        ≡ record { gap = 30; rows = row_at 30001 ∷ [] } }
    ensures earlier { news_of_sources all_sources 30
        ((row_at 30001 ∷ []) ∷ (row_at 0 ∷ []) ∷ [])
        ≡ record { gap = 30; rows = row_at 0 ∷ [] } }
    ensures joins { news_of_sources all_sources 30
        ((row_at 0 ∷ []) ∷ (row_at 30000 ∷ []) ∷ [])
        ≡ record { gap = 30; rows = row_to 0 30000 ∷ [] } }
    ensures joins_under_a_wider_gap { news_of_sources all_sources 31
        ((row_at 0 ∷ []) ∷ (row_at 30001 ∷ []) ∷ [])
        ≡ record { gap = 31; rows = row_to 0 30001 ∷ [] } }
    ensures receiver { news_of_sources all_sources 30
        ((row_at 0 ∷ []) ∷ (early_row ∷ []) ∷ [])
        ≡ record { gap = 30; rows = tied_row ∷ [] } }
    ensures taken { news_of_sources all_sources 30
        ((tied_row ∷ []) ∷ (early_row ∷ []) ∷ (row_at 0 ∷ []) ∷ [])
        ≡ record { gap = 30; rows = [] } }
    ensures other_files { news_of_sources all_sources 30
        ([] ∷ (row_at 0 ∷ []) ∷ (row_at 0 ∷ []) ∷ []) ≡ record { gap = 30; rows = row_at 0 ∷ [] } }
{}

/// Of a range those are new whose sources are within it.
#[tactic(auto, unfolding(crate::specs::Examples::key_of, crate::specs::Examples::key_cmp))]
pub fn news_have_ranges()
    ensures within { news_of_sources until_eight 30 ([] ∷ (of_seven ∷ of_eight ∷ []) ∷ [])
        ≡ record { gap = 30; rows = of_seven ∷ [] } }
    ensures known { news_of_sources until_eight 30
        ((of_seven ∷ []) ∷ (of_seven ∷ of_eight ∷ []) ∷ []) ≡ record { gap = 30; rows = [] } }
{}
