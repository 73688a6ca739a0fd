//! Examples of a few calls each, most of which docs/library.md shows as they stand here:
//! `tests/documents/library.sh` compares these.

use aprs_ax25::{Callsign, Frame, Hop};
use aprs_book::{Book, Gap};
use aprs_booktext::{BookFault, read_book, write_book};
use aprs_fixtures::{DIRECT, DIRECT_LINE, DIRECT_TEXT, NOON, ONE_LINE, receiver};
use aprs_kiss::{Counted, Fed, KissReader, WriteFault, write_kiss};
use aprs_log::{Line, MAX_INPUT, Moment, Receiver, Reception, read_line};
use aprs_mice::MicE;
use aprs_report::{Fraction, Report};
use aprs_tool::{RunFault, merge_run};
use std::alloc::Global;
use std::test::Fail;

/// Takes the frame that a TNC has just sent into a book, unless it has no report, and merges the
/// book with that of another receiver. `None` where no whole frame was sent, or a call failed.
fn hear(mut book: Book, other: &Book, sent: &[u8], moment: Moment, by: Receiver) -> Option<Book> {
    let mut tnc = KissReader::new();
    let (_, Fed::Frame { frame, .. }) = tnc.feed(sent) else {
        return None;
    };
    let frame = Frame::read(frame).ok()?;
    if Report::read(frame.info()).kind() != "raw" {
        book.take(&Reception::new(moment, by, frame)).ok()?;
    }
    book.merge(other).ok()
}

/// The port and the length of the frame that a TNC sent, if it is a whole one.
fn port_and_length(sent: &[u8]) -> Option<(u8, usize)> {
    match KissReader::new().feed(sent) {
        (_, Fed::Frame { port, frame }) => Some((port, frame.len())),
        _ => None,
    }
}

/// Sends a frame to a TNC, or to a file.
fn send_frame(tnc: &mut Counted<Vec<u8>>, frame: &Frame) -> Result<(), WriteFault> {
    write_kiss(tnc, frame.bytes())
}

/// A beacon with this status, by way of one digipeater.
fn beacon(source: &[u8], status: &[u8]) -> Option<Frame> {
    let to = Callsign::parse(b"APRS").ok()?;
    let from = Callsign::parse(source).ok()?;
    let wide = Hop {
        call: Callsign::parse(b"WIDE1-1").ok()?,
        repeated: false,
    };
    Frame::make(&to, &from, &[wide], status).ok()
}

/// The latitude that a position report tells, as an exact fraction of a degree.
fn latitude(information: &[u8]) -> Option<Fraction> {
    match Report::read(information) {
        Report::Position { place, .. } => Some(place.lat()),
        _ => None,
    }
}

/// How many knots a Mic-E station moves at, and the name of its message.
fn knots_and_message(frame: &Frame) -> Option<(u16, &'static str)> {
    let says = MicE::read(&frame.destination(), frame.info())?;
    Some((says.speed, says.message.name()))
}

/// Takes what a line of a log reports, if a frame was heard.
fn take_line(book: &mut Book, line: &[u8]) -> Option<()> {
    match read_line(line).ok()? {
        Line::Heard(reception) => book.take(&reception).ok(),
        Line::Passed(_) => None,
    }
}

/// When this station was heard last, after two books are merged.
fn heard_last(one: &Book, other: &Book, station: &Callsign) -> Option<u64> {
    let book = one.merge(other).ok()?;
    let heard = book.last_heard(station)?;
    Some(heard.moment.seconds())
}

/// The bytes of a book's file.
fn file_of(alloc: Global, book: &Book) -> Result<Vec<u8>, WriteFault> {
    let mut file = Counted::new(Vec::new(alloc));
    write_book(&mut file, book)?;
    Ok(file.into_inner())
}

/// The book of such a file.
fn book_in(alloc: Global, file: &[u8]) -> Result<Book, BookFault> {
    read_book(alloc, MAX_INPUT, b"", &mut Counted::new(file))
}

/// The book file of two logs, or of two other book files of the standard gap.
fn merge_two(alloc: Global, one: &[u8], other: &[u8]) -> Result<Vec<u8>, RunFault> {
    let mut inputs = [Counted::new(one), Counted::new(other)];
    let mut file = Counted::new(Vec::new(alloc));
    merge_run(alloc, MAX_INPUT, Gap::STANDARD, &mut inputs, &mut file)?;
    Ok(file.into_inner())
}

/// The frame `DIRECT` as a TNC sends it on port 0.
const SENT: &[u8] =
    b"\xc0\x00\x82\xa0\xa4\xa6\x40\x40\xe0\x9c\x60\x86\x82\x98\x98\x6f\x03\xf0>Hi\xc0";

#[test]
fn what_a_tnc_sends_is_heard(rt: HostRuntime) -> Result<(), Fail> {
    let moment = Moment::new(NOON).ok_or("moment")?;
    let (mine, other) = (Book::new(rt.alloc()), Book::new(rt.alloc()));
    let book = hear(mine, &other, SENT, moment, receiver(b"RX1")?).ok_or("heard")?;
    assert!(rt; book.len() == 1 && other.len() == 0);
    Ok(())
}

#[test]
fn a_tnc_is_read_and_written(rt: HostRuntime) -> Result<(), Fail> {
    assert!(rt; port_and_length(SENT) == Some((0, 19)));
    let mut tnc = Counted::new(Vec::new(rt.alloc()));
    let frame = Frame::read(&DIRECT).ok().ok_or("frame")?;
    assert!(rt; send_frame(&mut tnc, &frame).is_ok());
    assert!(rt; tnc.into_inner().as_slice() == SENT);
    Ok(())
}

#[test]
fn frames_and_reports_are_made_and_read(rt: HostRuntime) -> Result<(), Fail> {
    let frame = beacon(b"N0CALL-7", b">Hi").ok_or("beacon")?;
    assert!(rt; frame.hops() == 1 && frame.info() == b">Hi".as_slice());
    assert!(rt; beacon(b"n0call", b">Hi").is_none());
    let lat = latitude(b"=4903.50N/07201.75W-").ok_or("position")?;
    assert!(rt; lat.numerator == 294_350 && lat.denominator == 6_000);
    Ok(())
}

/// A frame to this destination, by way of none.
fn sent_to(destination: &[u8], info: &[u8]) -> Option<Frame> {
    let to = Callsign::parse(destination).ok()?;
    let from = Callsign::parse(b"N0CALL-9").ok()?;
    Frame::make(&to, &from, &[], info).ok()
}

#[test]
fn mic_e_frames_are_read(rt: HostRuntime) -> Result<(), Fail> {
    let frame = sent_to(b"S32UVT", b"`(_fn\"Oj/").ok_or("frame")?;
    let (knots, message) = knots_and_message(&frame).ok_or("Mic-E")?;
    assert!(rt; knots == 20 && message == "returning");
    Ok(())
}

/// Whether a book's file is that of one line, and is read as the book.
fn is_kept(alloc: Global, book: &Book) -> Result<bool, Fail> {
    let file = file_of(alloc, book).ok().ok_or("file")?;
    let again = book_in(alloc, file.as_slice()).ok().ok_or("read")?;
    Ok(file.as_slice() == DIRECT_TEXT && again.same(book))
}

#[test]
fn books_are_taken_and_kept(rt: HostRuntime) -> Result<(), Fail> {
    let mut book = Book::new(rt.alloc());
    assert!(rt; take_line(&mut book, DIRECT_LINE).is_some());
    let station = Callsign::parse(b"N0CALL-7").ok().ok_or("callsign")?;
    assert!(rt; heard_last(&book, &book, &station) == Some(NOON));
    assert!(rt; is_kept(rt.alloc(), &book)?);
    Ok(())
}

#[test]
fn files_are_merged(rt: HostRuntime) -> Result<(), Fail> {
    let merged = merge_two(rt.alloc(), ONE_LINE, DIRECT_TEXT);
    assert!(rt; merged.ok().ok_or("merged")?.as_slice() == DIRECT_TEXT);
    Ok(())
}
