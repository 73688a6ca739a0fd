//! Laws of the step that books are made with. The functions do nothing: their clauses are the laws.
ghost use Rattle.std.specs.Prelude.{ℕ, ◌<◌};
ghost use Rattle.aprs_transmissions.specs.StepLaws as Spec;
ghost use Rattle.aprs_transmissions.specs.Together;

/// A reception or a sound row that joins a book gives the book of the union, and so do the rows of
/// a second book, one after another. Receptions that join one after another give their book.
pub fn one_more_joins()
    ensures reception { (gap : ℕ) → Spec.TakesReception gap }
    ensures row { (gap : ℕ) → 0 < gap → Spec.TakesRow gap }
    ensures rows { (gap : ℕ) → Spec.TakesRows gap }
    ensures plain { (gap : ℕ) → Spec.PlainBookIsBook gap }
{}

/// Code changes two rows at most: what it makes of a book and one more reception is the book of
/// the union. A reception that fits in place passes the code's test for that.
pub fn reception_is_inserted()
    ensures book { (gap : ℕ) → Spec.InsertsReception gap }
    ensures in_place { (gap : ℕ) → Spec.FitsByTest gap }
{}

/// Sound rows with one more after them are sound exactly if that row is sound by itself, and comes
/// after the last of them and far from it.
pub fn last_row_decides()
    ensures { (gap : ℕ) → Spec.OnlyNextFollows gap }
{}

/// One reception is near to at most two rows of a book.
pub fn two_rows_are_near_at_most()
    ensures { (gap : ℕ) → Spec.AtMostTwoAreNear gap }
{}

/// After any steps on empty books, which take receptions or merge one place's book into another's,
/// each place has the book of the receptions that it took. So two places that took the same ones
/// have equal books.
pub fn steps_give_books()
    ensures books { (gap : ℕ) → Spec.StepsGiveBooks gap }
    ensures equal { (gap : ℕ) → Spec.SameTakenSameRows gap }
{}

/// Rows that are each sound by itself are together one sound book, in any order and with any
/// repeats. Rows that come after them join that book.
pub fn rows_are_one_book()
    ensures sound { (gap : ℕ) → 0 < gap → Together.BookIsSound gap }
    ensures order { (gap : ℕ) → 0 < gap → Together.OrderIsFree gap }
    ensures more { (gap : ℕ) → Together.MoreJoin gap }
{}

/// The rows of the book that rows are together, as in `rows_are_one_book`, come one by one. Where
/// the first two rows are near, they are one, which is sound if both are. Where they aren't, and
/// the rows are in order, the first is the first row of the book.
pub fn book_comes_row_by_row()
    ensures joined { (gap : ℕ) → Together.FirstsJoin gap }
    ensures sound { (gap : ℕ) → 0 < gap → Together.NearIsSound gap }
    ensures first { (gap : ℕ) → Together.FirstStands gap }
{}
