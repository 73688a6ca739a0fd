//! The laws of a fold. Their functions do nothing: what they ensure are the laws.
ghost use Rattle.std.specs.Prelude.{◌<◌, ℕ};
ghost use Rattle.aprs_fold.specs.Folded as Spec;
ghost use Rattle.aprs_fold.specs.Folding.{Begins, BeginsBook, EndsAsBook, TakesOn};

/// Rows of any books come in the order of key and first moment. The next row joins the last one
/// where it is near; otherwise the last one is written, and the next takes its place. What is
/// written and the last one are then the book of all rows that came. What is written begins the
/// book of these and of any rows that come after them in order.
pub fn rows_in_order_are_folded()
    ensures first { (gap : ℕ) → Spec.FirstIsLast gap }
    ensures near { (gap : ℕ) → Spec.NearJoins gap }
    ensures far { (gap : ℕ) → Spec.FarCloses gap }
    ensures book { (gap : ℕ) → 0 < gap → Spec.FoldedIsBook gap }
    ensures stays { (gap : ℕ) → 0 < gap → Spec.WrittenStays gap }
{}

/// Several books are folded into one. The next row of each is in front. Each step takes the first
/// of the rows in front, as `rows_in_order_are_folded` takes the next row. After each step what is
/// written and the last row are the book of all rows that were taken. What is written begins the
/// book of these and of all rows that still come.
pub fn books_are_folded()
    ensures begins { (gap : ℕ) → Begins gap }
    ensures takes { (gap : ℕ) → TakesOn gap }
    ensures ends { (gap : ℕ) → 0 < gap → EndsAsBook gap }
    ensures stays { (gap : ℕ) → 0 < gap → BeginsBook gap }
{}
