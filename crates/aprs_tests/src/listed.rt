//! Objects and messages of a larger book, as values.

use aprs_book::{Book, Gap, HeardRoom, MessageRow, MessageState, Named, Summary};
use aprs_fixtures::sent;
use aprs_log::Reception;
use aprs_rows::{BookStore, WalkRoom};
use std::alloc::{Allocator, Global};
use std::test::Fail;

/// The two digits of this number, below fifty.
fn digits(number: usize) -> [u8; 2] {
    let i = number % 50;
    [b'0' + (i / 10) as u8, b'0' + (i % 10) as u8]
}

/// Whether this is the message of this number, which has an id of its own.
fn is_message(message: &MessageRow<'_>, number: usize) -> bool {
    message.id == Some(digits(number).as_slice())
        && message.text == b"Hi".as_slice()
        && message.addressee == b"WU2Z".as_slice()
        && message.state == MessageState::Unanswered
        && message.first == message.last
}

/// Whether this is the item of this number.
fn is_item(named: &Named<'_>, number: usize) -> bool {
    let [tens, ones] = digits(number);
    named.is_item && named.name == [b'N', b'R', tens, ones].as_slice()
}

/// The message and the item of this number, below fifty; later ones have earlier moments.
fn both(number: u64) -> Result<[Reception; 2], Fail> {
    let i = number % 50;
    let tens = b'0' + (i / 10) as u8;
    let ones = b'0' + (i % 10) as u8;
    let message = [
        b':', b'W', b'U', b'2', b'Z', b' ', b' ', b' ', b' ', b' ', b':', b'H', b'i', b'{', tens,
        ones,
    ];
    let item = [
        b')', b'N', b'R', tens, ones, b'!', b'4', b'9', b'0', b'3', b'.', b'5', b'0', b'N', b'/',
        b'0', b'7', b'2', b'0', b'1', b'.', b'7', b'5', b'W', b'>',
    ];
    let second = (50 - i) * 60;
    Ok([
        sent(second, b"N0CALL-7", message.as_slice())?,
        sent(second, b"N0CALL-8", item.as_slice())?,
    ])
}

/// The book that takes fifty of both.
fn fifty_taken<A: Allocator + Copy>(alloc: A) -> Result<Book<A>, Fail> {
    let mut book = Book::new(alloc);
    for i in 0..50u64 {
        for x in both(i)? {
            book.take(&x).ok().ok_or("memory")?;
        }
    }
    Ok(book)
}

/// The store of fifty of both.
fn fifty_stored<A: Allocator + Copy>(alloc: A) -> Result<BookStore<A>, Fail> {
    let mut store = BookStore::new(alloc, Gap::STANDARD);
    for i in 0..50u64 {
        for x in both(i)? {
            store.push_reception(&x).ok().ok_or("memory")?;
        }
    }
    Ok(store)
}

/// Whether the book lists the fifty messages and the fifty items.
fn book_has_fifty<A: Allocator + Copy>(book: &Book<A>) -> Result<bool, Fail> {
    let messages = book.messages().ok().ok_or("memory")?;
    let named = book.objects().ok().ok_or("memory")?;
    if messages.len() != 50 || named.len() != 50 {
        return Ok(false);
    }
    for i in 0..50usize {
        if !is_message(&messages[i], i) || !is_item(&named[i], i) {
            return Ok(false);
        }
    }
    Ok(true)
}

/// Whether the summary tells of the fifty items.
fn summary_has_items<A: Allocator + Copy>(summary: &Summary<'_, A>) -> bool {
    let mut named = summary.objects();
    let mut room = HeardRoom::new();
    for i in 0..50usize {
        match named.next(&mut room) {
            Some(item) if is_item(&item, i) => {}
            _ => return false,
        }
    }
    named.next(&mut room).is_none()
}

/// Whether the summary tells of the fifty messages.
fn summary_has_messages<A: Allocator + Copy>(summary: &Summary<'_, A>) -> bool {
    let mut messages = summary.messages();
    for i in 0..50usize {
        match messages.next() {
            Some(message) if is_message(&message, i) => {}
            _ => return false,
        }
    }
    messages.next().is_none()
}

/// Whether the summary is of two stations of fifty transmissions each.
fn summary_has_two<A: Allocator + Copy>(summary: &Summary<'_, A>) -> bool {
    let mut stations = summary.stations();
    let mut room = HeardRoom::new();
    for _ in 0..2usize {
        match stations.next(&mut room) {
            Some(station) if station.transmissions == 50 => {}
            _ => return false,
        }
    }
    stations.next(&mut room).is_none()
}

// With ample memory no list is refused. Each of 50 messages has an id of its own, and each of 50
// items a name of its own.
#[test]
fn many_rows_of_a_book_are_listed(rt: HostRuntime) -> Result<(), Fail> {
    let book = fifty_taken(rt.alloc())?;
    assert!(rt; book.len() == 100);
    assert!(rt; book_has_fifty(&book)?);
    Ok(())
}

#[test]
fn many_rows_of_a_store_are_listed(rt: HostRuntime) -> Result<(), Fail> {
    let alloc = rt.alloc();
    let store = fifty_stored(alloc)?;
    let mut room = WalkRoom::new(alloc);
    let summary = Summary::of(alloc, &store, &mut room).ok().ok_or("memory")?;
    assert!(rt; summary_has_messages(&summary));
    assert!(rt; summary_has_items(&summary));
    assert!(rt; summary_has_two(&summary));
    Ok(())
}
