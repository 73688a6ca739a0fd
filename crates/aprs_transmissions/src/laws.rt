//! The laws of books.

mod book_law;
mod gap_law;
mod join_law;
mod key_law;
mod last_known_law;
mod order_law;
mod step_law;
mod unit_law;

pub use book_law::{
    books_decide_unions, runs_have_one_row_each, sets_have_one_book, sound_rows_are_books,
};
pub use gap_law::{books_can_be_widened, gaps_can_be_widened, gaps_cannot_be_narrowed};
pub use join_law::{books_join, receivers_join, receptions_join};
pub use key_law::keys_are_of_parts;
pub use last_known_law::{books_tell_last_known, books_tell_spans};
pub use order_law::{equals_are_identical, orders_are_total};
pub use step_law::{
    book_comes_row_by_row, last_row_decides, one_more_joins, reception_is_inserted,
    rows_are_one_book, steps_give_books, two_rows_are_near_at_most,
};
pub use unit_law::units_can_change;
