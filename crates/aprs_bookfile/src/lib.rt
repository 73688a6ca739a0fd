//! Book files: the text of a book, whose rows are written as lines and read back.
#![tactic(auto)]

mod cut;
mod end_line;
mod example;
mod fault;
mod held_line;
mod hexadecimal;
mod kept_rows;
mod laws;
mod lent_row;
mod piece;
mod read;
mod row_buffers;
mod row_line;
mod row_place;
mod row_reader;
mod row_stream;
mod stage;
mod version;
mod write;
mod write_book_rows;
mod written_row;

pub use example::{
    end_line_with_another_count_is_no_row, memory_is_refused_in_a_line, order_comes_before_span,
};
pub use fault::{BookCause, BookFault};
pub use laws::{
    book_texts_are_of_sets, cut_rows_lack_an_end, each_book_has_one_text,
    each_text_has_one_fault_or_none, old_moments_are_told_to_the_second,
    read_books_are_written_back, written_books_are_read,
};
pub use lent_row::LentRow;
pub use read::read_rows;
pub use row_stream::RowStream;
pub use version::Version;
pub use write::{end_line_and_lf, header_line, put_row, row_start, row_tail};
pub use write_book_rows::write_rows;
pub use written_row::WrittenRow;
