//! The laws of what is new. Their functions do nothing: what they ensure are the laws.
ghost use Rattle.std.specs.Prelude.{◌<◌, ℕ};
ghost use Rattle.aprs_fold.specs.NewRows as Spec;

/// What is new to a book are those rows of another that it lacks as they are. They are a book
/// themselves. Nothing of the book is new to itself; and of the book of both nothing is new exactly
/// if the first has taken the second already.
pub fn new_rows_are_a_book()
    ensures lacking { Spec.NewAreLacking }
    ensures sound { (gap : ℕ) → Spec.NewAreSound gap }
    ensures none { (gap : ℕ) → 0 < gap → Spec.NoneIsNew gap }
{}

/// Whoever has taken a book needs of another one only what is new to the first. Each book has taken
/// itself, and keeps what it has taken.
pub fn new_rows_are_enough()
    ensures enough { (gap : ℕ) → 0 < gap → Spec.NothingIsLost gap }
    ensures merged { (gap : ℕ) → 0 < gap → Spec.MergedIsNoMore gap }
    ensures taken { (gap : ℕ) → 0 < gap → Spec.TakenIsKept gap }
{}

/// Whoever has taken a book, and takes what is new to it in its fold with other books, has what
/// these books themselves would give, whatever comes beside, in whatever order and with whatever
/// repeats. So it is too where of one book after another only what was new is sent.
pub fn news_come_in_any_order()
    ensures at_once { (gap : ℕ) → 0 < gap → Spec.NewsStandForBooks gap }
    ensures each { (gap : ℕ) → 0 < gap → Spec.NewsComeFreely gap }
{}

/// Where the old book is folded with others, one row of it has to be kept: a row that no later one
/// joins is a row of the old book exactly if it is the last one that was taken of it.
pub fn old_rows_are_seen()
    ensures { (gap : ℕ) → 0 < gap → Spec.LastDecides gap }
{}
