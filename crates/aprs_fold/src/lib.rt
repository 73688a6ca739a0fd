//! Book files folded into one, in memory that doesn't grow with their rows: all of them, a range of
//! sources, which is found by bisection, or what is new to one of them.
#![tactic(auto)]

mod check;
mod examples;
mod fault;
mod fold;
mod known;
mod last_row;
mod laws;
mod news;
mod opening;
mod range;
mod taking;
mod taking_new;

pub use check::check_books;
pub use examples::books::{books_are_one_book, books_have_ranges};
pub use examples::inputs::{headers_tell_the_gap, refusals_name_an_input};
pub use examples::lent_lines::{
    last_lines_count_the_lines_before_them, lines_follow_the_line_in_hand,
};
pub use examples::new_rows::{new_rows_need_the_old, rows_are_new_as_they_are};
pub use examples::news::{news_are_of_the_fold, news_have_ranges};
pub use examples::parts::headers_lack_an_end;
pub use examples::ranges::{ranges_lack_their_ends, rows_are_in_one_part};
pub use examples::read_at::{reads_give_bytes_at_a_place, sizes_count_all_bytes};
pub use fault::FoldFault;
pub use fold::{MAX_BOOK, fold_books};
pub use laws::books::{books_are_folded, rows_in_order_are_folded};
pub use laws::news::{
    new_rows_are_a_book, new_rows_are_enough, news_come_in_any_order, old_rows_are_seen,
};
pub use laws::parts::parts_are_the_whole;
pub use news::fold_news;
pub use range::SourceRange;
pub use range::book_range::BookRange;
pub use range::read_at::ReadAt;
