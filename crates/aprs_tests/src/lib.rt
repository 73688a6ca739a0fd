//! Tests of the library as callers use it, by topic: devices, frames, reports, the texts of logs,
//! books and listings, books and stores, runs, ranges of sources in book files, a program's words,
//! the memory that all calls take, and interrupted writes.
#![tactic(auto)]

#[cfg(test)]
mod ample_memory;
#[cfg(test)]
mod book_faults;
#[cfg(test)]
mod book_texts;
#[cfg(test)]
mod books;
#[cfg(test)]
mod compared_books;
#[cfg(test)]
mod devices;
#[cfg(test)]
mod ends;
#[cfg(test)]
mod failing_inputs;
#[cfg(test)]
mod folds;
#[cfg(test)]
mod frames;
#[cfg(test)]
mod gaps;
#[cfg(test)]
mod given_back;
#[cfg(test)]
mod last_known;
#[cfg(test)]
mod library;
#[cfg(test)]
mod lines;
#[cfg(test)]
mod listed;
#[cfg(test)]
mod listings;
#[cfg(test)]
mod logs;
#[cfg(test)]
mod merges;
#[cfg(test)]
mod mic_e;
#[cfg(test)]
mod millis;
#[cfg(test)]
mod mixed_inputs;
#[cfg(test)]
mod no_requests;
#[cfg(test)]
mod pieces;
#[cfg(test)]
mod plain_book;
#[cfg(test)]
mod printed;
#[cfg(test)]
mod pushed_rows;
#[cfg(test)]
mod ranges;
#[cfg(test)]
mod refused_calls;
#[cfg(test)]
mod refused_memory;
#[cfg(test)]
mod refused_runs;
#[cfg(test)]
mod reports;
#[cfg(test)]
mod retried;
#[cfg(test)]
mod runs;
#[cfg(test)]
mod show_runs;
#[cfg(test)]
mod stored_rows;
#[cfg(test)]
mod streams;
#[cfg(test)]
mod table_runs;
#[cfg(test)]
mod words;
