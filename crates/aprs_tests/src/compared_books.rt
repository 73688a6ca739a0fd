//! The book beside a plain one, which keeps its rows in one vector: after each step both have the
//! same rows, and the same is last known to both.

use crate::plain_book::{Plain, PlainBook, PlainRow};
use aprs_ax25::Frame;
use aprs_book::{Book, Gap, Heard, Row};
use aprs_fixtures::{REPEATED, callsign, frame_of, receiver};
use aprs_log::{Moment, Receiver, Reception};
use aprs_rows::{BookStore, WalkRoom};
use std::alloc::{Allocator, Global};
use std::test::Fail;

/// 2024-05-01T12:00:00Z, in milliseconds since 1970 began.
const NOON: u64 = 1_714_564_800_000;

/// The key of each frame of the table, as its number, from 0, among the keys in their order.
const KEYS: [u8; 7] = [2, 0, 1, 2, 3, 4, 5];

/// The keys from N0CALL-7: a position, an object and a status.
const SEVEN: &[u8] = &[0, 1, 2];

/// The keys from N0CALL-8: an item, and an object without and with a comment.
const EIGHT: &[u8] = &[3, 4, 5];

/// Seven frames, ascending. From N0CALL-7: a status that was repeated, a position, an object, and
/// that status direct. From N0CALL-8: an item, and two of an object, whose keys differ only at the
/// ends.
fn table(alloc: Global) -> Result<Vec<Frame>, Fail> {
    let mut frames = Vec::new(alloc);
    frames.push(Frame::read(&REPEATED).ok().ok_or("frame")?)?;
    const SENT: &[(&[u8], &[u8])] = &[
        (b"N0CALL-7", b"!4903.50N/07201.75W-"),
        (b"N0CALL-7", b";LEADER   *092345z4903.50N/07201.75W>"),
        (b"N0CALL-7", b">Hi"),
        (b"N0CALL-8", b")LEADER!4903.50N/07201.75W>"),
        (b"N0CALL-8", b";LEADER   _092345z4903.50N/07201.75W>"),
        (b"N0CALL-8", b";LEADER   _092345z4903.50N/07201.75W>home"),
    ];
    for &(source, info) in SENT {
        frames.push(frame_of(source, info)?)?;
    }
    Ok(frames)
}

/// The receiver of a bit.
fn name_of(bit: u8) -> &'static [u8] {
    match bit {
        1 => b"RX1",
        2 => b"RX2",
        _ => b"RX3",
    }
}

/// The bit of a receiver.
fn bit_of(name: &Receiver) -> u8 {
    match name.as_bytes() {
        b"RX1" => 1,
        b"RX2" => 2,
        _ => 4,
    }
}

/// The reception of these numbers.
fn reception(frames: &[Frame], x: Plain) -> Result<Reception, Fail> {
    Ok(Reception::new(
        Moment::from_millis(NOON.saturating_add(x.milli)).ok_or("moment")?,
        receiver(name_of(x.receiver))?,
        frames.get(x.frame as usize).ok_or("a frame")?.copy(),
    ))
}

/// The numbers of a reception.
fn plain(frames: &[Frame], moment: Moment, name: &Receiver, frame: &Frame) -> Option<Plain> {
    Some(Plain {
        milli: moment.millis().checked_sub(NOON)?,
        receiver: bit_of(name),
        frame: u8::try_from(frames.iter().position(|known| known == frame)?).ok()?,
    })
}

/// The numbers of a row.
fn plain_row(frames: &[Frame], row: &Row<'_>) -> Option<PlainRow> {
    let greatest = plain(frames, row.last, row.receiver, row.frame)?;
    let mut receivers = 0;
    for name in row.receivers {
        receivers |= bit_of(name);
    }
    Some(PlainRow {
        key: *KEYS.get(greatest.frame as usize)?,
        first: row.first.millis().checked_sub(NOON)?,
        greatest,
        receivers,
    })
}

/// Whether the rows of both are the same.
fn same_rows<A: Allocator + Copy>(frames: &[Frame], book: &Book<A>, plain: &PlainBook) -> bool {
    book.len() == plain.rows.len()
        && book
            .rows()
            .zip(plain.rows.iter())
            .all(|(row, want)| plain_row(frames, &row) == Some(*want))
}

/// Whether what is known is the greatest reception of these keys.
fn is_greatest(
    frames: &[Frame],
    known: Option<Heard<'_>>,
    plain_book: &PlainBook,
    keys: &[u8],
) -> bool {
    let known = known.and_then(|x| plain(frames, x.moment, x.receiver, x.frame));
    known == plain_book.greatest(keys)
}

/// Whether the same is last known to both.
fn same_known<A: Allocator + Copy>(
    frames: &[Frame],
    book: &Book<A>,
    plain: &PlainBook,
) -> Result<bool, Fail> {
    let seven = callsign(b"N0CALL-7")?;
    let eight = callsign(b"N0CALL-8")?;
    Ok(
        is_greatest(frames, book.position(&seven), plain, &[0])
            && is_greatest(frames, book.status(&seven), plain, &[2])
            && is_greatest(frames, book.position(&eight), plain, &[])
            && is_greatest(frames, book.object(b"LEADER"), plain, &[1, 4, 5])
            && is_greatest(frames, book.item(b"LEADER  "), plain, &[3]),
    )
}

/// Whether both list the same stations with as many transmissions.
fn same_stations<A: Allocator + Copy>(book: &Book<A>, plain: &PlainBook) -> Result<bool, Fail> {
    let stations = book.stations().ok().ok_or("memory")?;
    let mut listed = stations.iter().map(|station| station.transmissions);
    const KEYS: &[&[u8]] = &[SEVEN, EIGHT];
    for &keys in KEYS {
        let count = plain.transmissions(keys);
        if count > 0 && listed.next() != Some(count) {
            return Ok(false);
        }
    }
    Ok(listed.next().is_none())
}

/// A book and the plain one.
#[derive(Drop)]
struct Both {
    book: Book,
    plain: PlainBook,
}

impl Both {
    fn new(alloc: Global) -> Both {
        Both {
            book: Book::new(alloc),
            plain: PlainBook::new(alloc),
        }
    }

    /// Takes a reception into both.
    fn take(&mut self, alloc: Global, frames: &[Frame], x: Plain) -> Result<(), Fail> {
        let key = *KEYS.get(x.frame as usize).ok_or("a key")?;
        self.book.take(&reception(frames, x)?).ok().ok_or("memory")?;
        self.plain.add(alloc, PlainRow::single(key, x))
    }

    /// Merges others into these.
    fn merge(&mut self, alloc: Global, other: &Both) -> Result<(), Fail> {
        self.book = self.book.merge(&other.book).ok().ok_or("memory")?;
        self.plain.merge(alloc, &other.plain)
    }

    /// Whether both know the same.
    fn agree(&self, frames: &[Frame]) -> Result<bool, Fail> {
        Ok(
            same_rows(frames, &self.book, &self.plain)
                && same_known(frames, &self.book, &self.plain)?
                && same_stations(&self.book, &self.plain)?,
        )
    }
}

/// Five receptions of one key, the last by another receiver over a digipeater.
const FIVE: [Plain; 5] = [
    Plain {
        milli: 0,
        receiver: 1,
        frame: 3,
    },
    Plain {
        milli: 60_001,
        receiver: 1,
        frame: 3,
    },
    Plain {
        milli: 30_001,
        receiver: 1,
        frame: 3,
    },
    Plain {
        milli: 30_000,
        receiver: 1,
        frame: 3,
    },
    Plain {
        milli: 50_000,
        receiver: 2,
        frame: 0,
    },
];

/// Whether this is the book in a store.
fn is_of_store<A: Allocator + Copy>(
    alloc: A,
    store: &BookStore<A>,
    book: &Book<A>,
) -> Result<bool, Fail> {
    let mut room = WalkRoom::new(alloc);
    let rows = store.rows(&mut room).ok().ok_or("memory")?;
    let made = Book::of_rows(alloc, rows).ok().ok_or("memory")?;
    Ok(made.same(book))
}

/// Takes a reception into both, and puts it into a store.
fn take_and_store(
    alloc: Global,
    frames: &[Frame],
    both: &mut Both,
    store: &mut BookStore,
    x: Plain,
) -> Result<(), Fail> {
    let heard = reception(frames, x)?;
    store.push_reception(&heard).ok().ok_or("memory")?;
    both.take(alloc, frames, x)
}

/// The five in the order of this number, below 120.
fn five_in_order(order: usize) -> [Plain; 5] {
    let mut five = FIVE;
    let mut rest = order;
    const SIZES: &[usize] = &[5, 4, 3, 2];
    for &size in SIZES {
        let place = rest % size;
        rest /= size;
        if place < 5 && size <= 5 {
            five.swap(place, size - 1);
        }
    }
    five
}

/// Takes the five in the order of this number into both, and into a store.
fn agrees_in_order(alloc: Global, frames: &[Frame], order: usize) -> Result<bool, Fail> {
    let mut both = Both::new(alloc);
    let mut store = BookStore::new(alloc, Gap::STANDARD);
    for x in five_in_order(order) {
        take_and_store(alloc, frames, &mut both, &mut store, x)?;
        if !both.agree(frames)? {
            return Ok(false);
        }
    }
    is_of_store(alloc, &store, &both.book)
}

#[test]
fn five_receptions_in_each_order(rt: HostRuntime) -> Result<(), Fail> {
    let alloc = rt.alloc();
    let frames = table(alloc)?;
    for order in 0..120usize {
        assert!(rt;
            agrees_in_order(alloc, frames.as_slice(), order)?,
            "{order}"
        );
    }
    Ok(())
}

/// Numbers that look like chance, the same in each run.
#[derive(Clone, Copy)]
struct Numbers {
    state: u64,
}

impl Numbers {
    /// The next one, below `end`, or 0.
    fn below(&mut self, end: u64) -> u64 {
        self.state = self
            .state
            .wrapping_mul(6_364_136_223_846_793_005)
            .wrapping_add(1_442_695_040_888_963_407);
        (self.state >> 33).checked_rem(end).unwrap_or(0)
    }

    /// A reception of the table within seven minutes. Two of them are some number of gaps apart, or
    /// none, and at most two milliseconds more or less.
    fn reception(&mut self) -> Plain {
        Plain {
            milli: self
                .below(14)
                .wrapping_mul(30_000)
                .wrapping_add(self.below(3)),
            receiver: match self.below(3) {
                0 => 1,
                1 => 2,
                _ => 4,
            },
            frame: u8::try_from(self.below(7)).unwrap_or(0),
        }
    }
}

/// Takes or merges as the next number says, and returns whether both books agree.
fn agrees_after_a_step(
    alloc: Global,
    frames: &[Frame],
    numbers: &mut Numbers,
    ours: &mut Both,
    theirs: &mut Both,
) -> Result<bool, Fail> {
    match numbers.below(8) {
        0 => ours.merge(alloc, theirs)?,
        1 => theirs.merge(alloc, ours)?,
        2..5 => theirs.take(alloc, frames, numbers.reception())?,
        _ => ours.take(alloc, frames, numbers.reception())?,
    }
    Ok(ours.agree(frames)? && theirs.agree(frames)?)
}

/// Takes and merges in the order of this number, and looks at both books after each step.
fn agrees_in_steps(alloc: Global, frames: &[Frame], number: u64) -> Result<bool, Fail> {
    let mut numbers = Numbers { state: number };
    let mut ours = Both::new(alloc);
    let mut theirs = Both::new(alloc);
    for _ in 0..24u64 {
        if !agrees_after_a_step(alloc, frames, &mut numbers, &mut ours, &mut theirs)? {
            return Ok(false);
        }
    }
    Ok(true)
}

#[test]
fn a_hundred_sequences_of_steps(rt: HostRuntime) -> Result<(), Fail> {
    let alloc = rt.alloc();
    let frames = table(alloc)?;
    for number in 0..100u64 {
        assert!(rt;
            agrees_in_steps(alloc, frames.as_slice(), number)?,
            "{number}"
        );
    }
    Ok(())
}

/// Takes a thousand rows of one key, this many places apart, into both, and into a store.
fn agrees_in_a_thousand(alloc: Global, frames: &[Frame], stride: u64) -> Result<bool, Fail> {
    let mut both = Both::new(alloc);
    let mut store = BookStore::new(alloc, Gap::STANDARD);
    for i in 0..1000u64 {
        let x = Plain {
            milli: i.wrapping_mul(stride) % 1000 * 30_001,
            receiver: 1,
            frame: 3,
        };
        take_and_store(alloc, frames, &mut both, &mut store, x)?;
    }
    Ok(
        both.agree(frames)?
            && both.plain.rows.len() == 1000
            && is_of_store(alloc, &store, &both.book)?,
    )
}

// In order, against it, and scattered.
#[test]
fn a_thousand_rows_of_one_key(rt: HostRuntime) -> Result<(), Fail> {
    let alloc = rt.alloc();
    let frames = table(alloc)?;
    const STRIDES: &[u64] = &[1, 999, 387];
    for &stride in STRIDES {
        assert!(rt;
            agrees_in_a_thousand(alloc, frames.as_slice(), stride)?,
            "{stride}"
        );
    }
    Ok(())
}
