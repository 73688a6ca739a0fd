//! Laws over all rows. Their functions do nothing: what they ensure is the law.
ghost use Rattle.aprs_bookfile.specs.Law as Spec;
ghost use Rattle.aprs_bookfile.specs.Seconds.{AreWrittenToTheSecond};

/// The text of a book's rows in a version, with its gap, is that of no other version, gap or rows.
/// So different books are written as different texts. A beginning of such a text has no fault but
/// how the input ended (`Ending`, `Read` or `TooLong`), or that an allocation failed. Where the
/// input ended after the whole text, that has no fault but the latter.
pub fn each_book_has_one_text()
    ensures one { Spec.HaveOneText }
    ensures written { Spec.TellBooksApart }
    ensures cut { Spec.AreCutShort }
{}

/// The header of a book and a part of its rows' lines, or all of them, have the fault `Ending`
/// where the input ends there. So they are the text of no book.
pub fn cut_rows_lack_an_end()
    ensures { Spec.LackAnEnd }
{}

/// The rows and the gap of a whole text of any version are read back, where the text is within the
/// limit, no read fails and no allocation fails. The limit is 1,073,741,824 bytes at most.
pub fn written_books_are_read()
    ensures { Spec.AreReadBack }
{}

/// Apart from `Memory`, a text has exactly one fault for each way in which the input may end. Only
/// the whole text of a book, where the end came after it, has none.
pub fn each_text_has_one_fault_or_none()
    ensures some { Spec.HaveFaultOrBook }
    ensures one { Spec.HaveOneBookFault }
    ensures none { Spec.BooksAreFaultless }
{}

/// The whole texts of books are exactly those of sets of receptions: the text, in some version, of
/// the set's book under the version's gap, where each row can be spelled in a line.
pub fn book_texts_are_of_sets()
    ensures { Spec.AreOfSets }
{}

/// A book that was read of a text is written as the text of version 3 of the same gap and the same
/// rows. Those are the same bytes, to the last, exactly if what was read is of version 3.
pub fn read_books_are_written_back()
    ensures { Spec.AreWrittenBack }
{}

/// In a text of version 1 the moment of a whole second, until the end of 2099, is written as its
/// date and time of day.
pub fn old_moments_are_told_to_the_second()
    ensures { AreWrittenToTheSecond }
{}
