//! A caller's `Book`, written as the text of a book file, and read back.
#![tactic(auto)]

mod read;
mod write;

pub use aprs_bookfile::{
    BookCause, BookFault, LentRow, RowStream, Version, WrittenRow, book_texts_are_of_sets,
    cut_rows_lack_an_end, each_book_has_one_text, each_text_has_one_fault_or_none, end_line_and_lf,
    end_line_with_another_count_is_no_row, header_line, memory_is_refused_in_a_line,
    old_moments_are_told_to_the_second, order_comes_before_span, put_row,
    read_books_are_written_back, read_rows, write_rows, written_books_are_read,
};
pub use read::read_book;
pub use write::write_book;
