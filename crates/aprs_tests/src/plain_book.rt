//! A book kept plainly: one vector of rows of small numbers, each of which is looked at in turn.

use std::alloc::Global;
use std::test::Fail;

/// A reception: its millisecond, its receiver's bit, and the number of its frame. Receptions are
/// ordered as those of a book are, where greater bits are later names and greater numbers later
/// bytes.
#[derive(Clone, Copy, PartialEq, Eq, PartialOrd, Ord)]
pub struct Plain {
    pub milli: u64,
    pub receiver: u8,
    pub frame: u8,
}

/// A row: the number of its key, its first millisecond, its greatest reception, which is its last,
/// and its receivers' bits.
#[derive(Clone, Copy, PartialEq, Eq, PartialOrd, Ord)]
pub struct PlainRow {
    pub key: u8,
    pub first: u64,
    pub greatest: Plain,
    pub receivers: u8,
}

impl PlainRow {
    /// The row of one reception.
    pub fn single(key: u8, x: Plain) -> PlainRow {
        PlainRow {
            key,
            first: x.milli,
            greatest: x,
            receivers: x.receiver,
        }
    }

    /// Whether both have one key and at most 30 seconds lie between them.
    fn is_near(&self, other: &PlainRow) -> bool {
        self.key == other.key
            && self.first <= other.greatest.milli.saturating_add(30_000)
            && other.first <= self.greatest.milli.saturating_add(30_000)
    }

    /// Both as one row.
    fn joined(&self, other: &PlainRow) -> PlainRow {
        PlainRow {
            key: self.key,
            first: self.first.min(other.first),
            greatest: self.greatest.max(other.greatest),
            receivers: self.receivers | other.receivers,
        }
    }
}

/// Rows in the order of a book.
#[derive(Drop)]
pub struct PlainBook {
    pub rows: Vec<PlainRow>,
}

impl PlainBook {
    pub fn new(alloc: Global) -> PlainBook {
        PlainBook {
            rows: Vec::new(alloc),
        }
    }

    /// Adds a row, which takes up all that are near to it.
    pub fn add(&mut self, alloc: Global, row: PlainRow) -> Result<(), Fail> {
        let mut all = row;
        let mut rows = Vec::new(alloc);
        for other in self.rows.iter() {
            if other.is_near(&row) {
                all = all.joined(other);
            } else {
                rows.push(*other)?;
            }
        }
        let place = rows.partition_point(|other| *other < all);
        rows.insert(place, all)?;
        self.rows = rows;
        Ok(())
    }

    /// Adds the rows of another.
    pub fn merge(&mut self, alloc: Global, other: &PlainBook) -> Result<(), Fail> {
        for row in other.rows.iter() {
            self.add(alloc, *row)?;
        }
        Ok(())
    }

    /// The greatest reception of the rows of these keys.
    pub fn greatest(&self, keys: &[u8]) -> Option<Plain> {
        let mut greatest = None;
        for row in self.rows.iter() {
            if keys.contains(&row.key) {
                greatest = greatest.max(Some(row.greatest));
            }
        }
        greatest
    }

    /// The number of rows of these keys.
    pub fn transmissions(&self, keys: &[u8]) -> u64 {
        let mut count = 0u64;
        for row in self.rows.iter() {
            if keys.contains(&row.key) {
                count = count.saturating_add(1);
            }
        }
        count
    }
}
