//! What is last known of stations, objects and items.

use aprs_book::{Book, Heard, Station};
use aprs_fixtures::{callsign, sent};
use aprs_log::Reception;
use aprs_report::{Place, Report, Stamp, Symbol};
use std::alloc::{Allocator, Global};
use std::test::Fail;

/// 49 degrees 3.50 minutes north, 72 degrees 1.75 minutes west.
const HERE: Place = Place::Plain {
    lat: 294_350,
    lon: -432_175,
    ambiguity: 0,
};

const HOUSE: Symbol = Symbol {
    table: b'/',
    code: b'-',
};

const CAR: Symbol = Symbol {
    table: b'/',
    code: b'>',
};

fn book_of<A: Allocator + Copy>(alloc: A, receptions: &[&Reception]) -> Result<Book<A>, Fail> {
    let mut book = Book::new(alloc);
    for x in receptions {
        book.take(x).ok().ok_or("memory")?;
    }
    Ok(book)
}

/// Whether these are a station's callsign and number of transmissions.
fn counts(station: &Station<'_>, text: &[u8], transmissions: u64) -> bool {
    station.call.text().as_slice() == text && station.transmissions == transmissions
}

/// Whether this is what is last known, with this report.
fn is_known(known: &Option<Heard<'_>>, x: &Reception, report: &Report<'_>) -> bool {
    match known {
        Some(heard) => {
            heard.moment == x.moment()
                && heard.receiver == x.receiver()
                && heard.frame == x.frame()
                && heard.report == *report
        }
        None => false,
    }
}

/// Whether a book of two receptions from N0CALL-7 has the later one's report as its position.
fn knows_the_later<A: Allocator + Copy>(
    book: &Book<A>,
    late: &Reception,
    report: &Report<'_>,
) -> Result<bool, Fail> {
    let station = callsign(b"N0CALL-7")?;
    let stations = book.stations().ok().ok_or("memory")?;
    let [listed] = stations.as_slice() else {
        return Ok(false);
    };
    Ok(
        book.len() == 2
            && is_known(&book.position(&station), late, report)
            && book.status(&station).is_none()
            && book.position(&callsign(b"N0CALL-8")?).is_none()
            && counts(listed, b"N0CALL-7", 2)
            && is_known(&listed.position, late, report)
            && listed.status.is_none(),
    )
}

/// Whether the book of two receptions has the later one's report, that of a house here.
fn has_the_later(alloc: Global, both: &[&Reception], late: &Reception) -> Result<bool, Fail> {
    let here = Report::Position {
        messaging: false,
        stamp: None,
        place: HERE,
        symbol: HOUSE,
        comment: b"",
    };
    knows_the_later(&book_of(alloc, both)?, late, &here)
}

// A position taken later, but heard earlier, isn't the last known one.
#[test]
fn positions_are_the_greatest_heard(rt: HostRuntime) -> Result<(), Fail> {
    let late = sent(600, b"N0CALL-7", b"!4903.50N/07201.75W-")?;
    let early = sent(0, b"N0CALL-7", b"!4904.00N/07201.75W-")?;
    assert!(rt; has_the_later(rt.alloc(), &[&late, &early], &late)?);
    assert!(rt; has_the_later(rt.alloc(), &[&early, &late], &late)?);
    Ok(())
}

/// Whether a book of a status and a later position from N0CALL-7 keeps the status.
fn keeps_the_status<A: Allocator + Copy>(book: &Book<A>, status: &Reception) -> Result<bool, Fail> {
    let station = callsign(b"N0CALL-7")?;
    let hi = Report::Status {
        stamp: None,
        text: b"Hi",
    };
    Ok(is_known(&book.status(&station), status, &hi) && book.position(&station).is_some())
}

#[test]
fn statuses_are_no_positions(rt: HostRuntime) -> Result<(), Fail> {
    let status = sent(0, b"N0CALL-7", b">Hi")?;
    let position = sent(60, b"N0CALL-7", b"!4903.50N/07201.75W-")?;
    let book = book_of(rt.alloc(), &[&status, &position])?;
    assert!(rt; keeps_the_status(&book, &status)?);
    Ok(())
}

/// Whether this is what was heard last of the station.
fn is_heard_last<A: Allocator + Copy>(
    book: &Book<A>,
    station: &[u8],
    x: &Reception,
) -> Result<bool, Fail> {
    Ok(match book.last_heard(&callsign(station)?) {
        Some(heard) => heard.moment == x.moment() && heard.frame == x.frame(),
        None => false,
    })
}

// Whatever a station's last frame says, it counts. One that is sent to a station doesn't.
#[test]
fn any_frame_is_heard_last(rt: HostRuntime) -> Result<(), Fail> {
    let position = sent(60, b"N0CALL-7", b"!4903.50N/07201.75W-")?;
    let raw = sent(600, b"N0CALL-7", b"?")?;
    let status = sent(0, b"N0CALL-7", b">Hi")?;
    let other = sent(900, b"N0CALL-8", b":N0CALL-9 :Hi")?;
    let book = book_of(rt.alloc(), &[&position, &raw, &status, &other])?;
    assert!(rt; is_heard_last(&book, b"N0CALL-7", &raw)?);
    assert!(rt; is_heard_last(&book, b"N0CALL-8", &other)?);
    assert!(rt; book.last_heard(&callsign(b"N0CALL-9")?).is_none());
    assert!(rt; book.last_heard(&callsign(b"APRS")?).is_none());
    Ok(())
}

#[test]
fn nothing_is_known_of_no_rows(rt: HostRuntime) -> Result<(), Fail> {
    let station = callsign(b"N0CALL-7")?;
    assert!(rt; Book::new(rt.alloc()).status(&station).is_none());
    Ok(())
}

/// Whether the book knows the killed object and the item by this name.
fn knows_leader<A: Allocator + Copy>(
    book: &Book<A>,
    name: &[u8],
    killed: &Reception,
    item: &Reception,
) -> bool {
    let object_report = Report::Object {
        name: b"LEADER",
        live: false,
        stamp: Stamp {
            digits: *b"092345",
            mark: b'z',
        },
        place: HERE,
        symbol: CAR,
        comment: b"",
    };
    let item_report = Report::Item {
        name: b"LEADER",
        live: true,
        place: HERE,
        symbol: CAR,
        comment: b"",
    };
    is_known(&book.object(name), killed, &object_report)
        && is_known(&book.item(name), item, &item_report)
}

/// Whether it knows them by their name, with spaces at its end or without.
fn knows_both<A: Allocator + Copy>(book: &Book<A>, killed: &Reception, item: &Reception) -> bool {
    knows_leader(book, b"LEADER", killed, item) && knows_leader(book, b"LEADER   ", killed, item)
}

/// Whether it knows an object or an item of another name.
fn knows_others<A: Allocator + Copy>(book: &Book<A>) -> bool {
    const OTHERS: &[&[u8]] = &[b"", b" LEADER", b"LEAD"];
    for &name in OTHERS {
        if book.object(name).is_some() || book.item(name).is_some() {
            return true;
        }
    }
    false
}

/// Whether two transmissions of N0CALL-7 and one of N0CALL-8, which has no position, are listed.
fn lists_three<A: Allocator + Copy>(book: &Book<A>) -> Result<bool, Fail> {
    let stations = book.stations().ok().ok_or("memory")?;
    let [first, second] = stations.as_slice() else {
        return Ok(false);
    };
    Ok(counts(first, b"N0CALL-7", 2) && counts(second, b"N0CALL-8", 1) && second.position.is_none())
}

// An object belongs to no station, and an item of its name is something else.
#[test]
fn objects_and_items_go_by_name(rt: HostRuntime) -> Result<(), Fail> {
    let live = sent(0, b"N0CALL-7", b";LEADER   *092345z4903.50N/07201.75W>")?;
    let killed = sent(60, b"N0CALL-8", b";LEADER   _092345z4903.50N/07201.75W>")?;
    let item = sent(120, b"N0CALL-7", b")LEADER!4903.50N/07201.75W>")?;
    let book = book_of(rt.alloc(), &[&live, &killed, &item])?;
    assert!(rt; knows_both(&book, &killed, &item) && !knows_others(&book));
    assert!(rt; lists_three(&book)?);
    Ok(())
}
