//! Worked examples of what is lent, and near misses. The functions do nothing.
ghost use Rattle.std.specs.Prelude.{◌≡◌, [], ◌∷◌, ◌++◌, codes, false, true};
ghost use Rattle.aprs_bookfile.specs.RowLines.{ended_by_lf};
ghost use Rattle.aprs_bookfile.specs.Text.{end_line};
ghost use Rattle.aprs_fold.specs.Lent.{after_line, with_last};

/// A last line counts the lines before it and those that were lent before. What has no LF is no
/// line.
pub fn last_lines_count_the_lines_before_them()
    ensures none { with_last 0 [] ≡ ended_by_lf (end_line 0) }
    ensures two { with_last 1 (codes "T" ++ 10 ∷ [])
        ≡ codes "T" ++ 10 ∷ ended_by_lf (end_line 2) }
    ensures misses { with_last 1 (codes "T") ≡ codes "T" ++ ended_by_lf (end_line 1) }
{}

/// After a line the lines from a place up to another are lent, and a last line; after a last line
/// nothing is.
pub fn lines_follow_the_line_in_hand()
    ensures lines { after_line false 1 2 4 (codes "abT" ++ 10 ∷ codes "c")
        ≡ codes "T" ++ 10 ∷ ended_by_lf (end_line 2) }
    ensures none { after_line false 1 2 2 (codes "abT" ++ 10 ∷ codes "c")
        ≡ ended_by_lf (end_line 1) }
    ensures last { after_line true 1 2 4 (codes "abT" ++ 10 ∷ codes "c") ≡ [] }
{}
