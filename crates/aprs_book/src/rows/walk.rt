//! The walk over the rows of a book, prefix by prefix.
ghost use Rattle.std.specs.Prelude.{◌≡◌, List};
ghost use Rattle.std.specs.List.{flat_map};
ghost use Rattle.std.specs.Iterator.{YieldsFirstRef, item_count};

use crate::rows::kept_row::KeptRow;
use aprs_rows::KeyPrefix;
use std::alloc::{Allocator, Global};
use std::collections::VecDeque;
use std::collections::btree_map::Values;
use std::marker::Model;

/// The rows that are still to come, in order, as a book keeps them: what is left of the rows of
/// one prefix, which lie in two slices, then the rows of all further prefixes.
#[derive(Drop)]
pub(crate) struct Walk<'a, A: Allocator = Global> {
    rows: &'a [KeptRow<A>],
    back: &'a [KeptRow<A>],
    others: Values<'a, KeyPrefix, VecDeque<KeptRow<A>, A>>,
}

impl<'a, A: Allocator> Model for Walk<'a, A> {
    ghost use Rattle.std.specs.Prelude.{List, ◌++◌};
    ghost use Rattle.std.specs.List.{flat_map};
    ghost use Rattle.aprs_transmissions.specs.Row.{Row as RowValue};

    ghost Value = { List RowValue };

    ghost view = { λ w. w.rows.now ++ (w.back.now ++ flat_map (λ v. v.items) w.others) };
}

impl<'a, A: Allocator> Walk<'a, A> {
    /// A walk over the rows of each prefix, one after another.
    pub(crate) fn of(others: Values<'a, KeyPrefix, VecDeque<KeptRow<A>, A>>) -> Walk<'a, A>
        ensures { result ≡ flat_map (λ v. v.items) others.entry }
    {
        Walk {
            rows: &[],
            back: &[],
            others,
        }
    }
}

impl<'a, A: Allocator + Copy> Iterator for Walk<'a, A> {
    type Item = &'a KeptRow<A>;

    ghost next_gives = { YieldsFirstRef (λ rows. rows) };

    ghost remaining = { item_count (λ rows. rows) };

    /// The next row, or `None` after the last.
    fn next(&mut self) -> Option<&'a KeptRow<A>> {
        while self.rows.is_empty() {
            self.rows = self.back;
            self.back = &[];
            if self.rows.is_empty() {
                (self.rows, self.back) = self.others.next()?.as_slices();
            }
        }
        let (first, others) = self.rows.split_first()?;
        self.rows = others;
        Some(first)
    }
}
