//! Laws of what is last known, and of when something was heard.
ghost use Rattle.aprs_transmissions.specs.BestLaws.{SomeIsLastKnown, PlainIsLastKnown, MembersDecideLastKnown, RowsTellLastKnown};
ghost use Rattle.aprs_transmissions.specs.SpanLaws.{RowsTellFirstMoment, RowsTellLastMoment};

/// What is last known of a set, the greatest reception whose key passes a test, is one value that
/// depends on membership alone, or none. Looking at one reception after another finds it. It is
/// also what is last known of the greatest receptions of the rows of the set's book.
pub fn books_tell_last_known()
    ensures some { SomeIsLastKnown }
    ensures plain { PlainIsLastKnown }
    ensures only { MembersDecideLastKnown }
    ensures rows { RowsTellLastKnown }
{}

/// The least and the greatest moments of those receptions of a set whose keys pass a test are the
/// least first and the greatest last moments of those rows of its book whose keys pass it.
pub fn books_tell_spans()
    ensures first { RowsTellFirstMoment }
    ensures last { RowsTellLastMoment }
{}
