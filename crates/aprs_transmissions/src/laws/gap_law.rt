//! Laws of books under another gap.
ghost use Rattle.std.specs.Prelude.{ℕ};
ghost use Rattle.aprs_transmissions.specs.BookValue.{WidenedHolds, WidensJoinedBooks};
ghost use Rattle.aprs_transmissions.specs.Widening as Spec;

/// One pass over the rows of a book, which joins neighbours that are near under a gap that is not
/// less, gives the book of the same set under that gap. The rows stay sound, an equal gap changes
/// nothing, two steps give what one gives, and widened books join to the widened join.
pub fn gaps_can_be_widened()
    ensures book { Spec.WidensBook }
    ensures sound { Spec.WidenedIsSound }

    ensures equal { (gap : ℕ) → Spec.KeepsUnderOwnGap gap }
    ensures steps { Spec.WidensInSteps }
    ensures joined { Spec.WidensJoined }
{}

/// A book that is widened to a gap that is not less still holds the same set. Widening the join of
/// two books is joining the widened books.
pub fn books_can_be_widened()
    ensures holds { WidenedHolds }
    ensures joined { WidensJoinedBooks }
{}

/// Under a lesser gap the rows don't decide the book: no function of rows alone gives it.
pub fn gaps_cannot_be_narrowed()
    ensures { Spec.NarrowsNot }
{}
