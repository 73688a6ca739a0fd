//! Laws of the book of a set.
ghost use Rattle.std.specs.Prelude.{ℕ, ◌<◌};
ghost use Rattle.aprs_transmissions.specs.BookLaws as Spec;

/// Each set has exactly one book, and only the empty set has one without rows.
pub fn sets_have_one_book()
    ensures some { (gap : ℕ) → Spec.EachSetHasBook gap }
    ensures only { (gap : ℕ) → Spec.MembersDecideBook gap }
    ensures empty { (gap : ℕ) → Spec.EmptyBookIsOfNothing gap }
{}

/// Sound rows are exactly the books, and each is the book of its witnesses: of receptions that, if
/// heard, would give exactly these rows. Under a gap of 0, which no book can have, the law is only
/// that books are sound.
pub fn sound_rows_are_books()
    ensures sound { (gap : ℕ) → Spec.BooksAreSound gap }
    ensures exactly { (gap : ℕ) → 0 < gap → Spec.SoundRowsAreBooks gap }
    ensures witnesses { (gap : ℕ) → 0 < gap → Spec.WitnessesHaveBook gap }
{}

/// The book of a union depends on the books of both sets alone: it is their joined value.
pub fn books_decide_unions()
    ensures alone { (gap : ℕ) → Spec.BooksDecideUnion gap }
    ensures joined { (gap : ℕ) → 0 < gap → Spec.UnionIsJoined gap }
{}

/// A book has exactly one row for each transmission in its set.
pub fn runs_have_one_row_each()
    ensures { (gap : ℕ) → Spec.RunsHaveOneRowEach gap }
{}
