//! Listings of several inputs, and outputs that refuse them.

use crate::listings::listing_of;
use aprs_book::Gap;
use aprs_fixtures::{DIRECT_TEXT, EMPTY_TEXT, Full, ONE_LINE, Tight};
use aprs_kiss::Counted;
use aprs_log::MAX_INPUT;
use aprs_tool::{RunFault, show_run, status_of};
use std::alloc::Global;
use std::test::Fail;

const HELLO_LISTING: &[u8] = b"station N0CALL-7 1\nstatus 2024-05-01T12:00:00.000Z RX1 -:Hi\n";

/// Inputs, and what is listed of them.
const LISTED: &[(&[&[u8]], &[u8])] = &[
    (&[], b""),
    (&[b""], b""),
    (&[EMPTY_TEXT], b""),
    (&[ONE_LINE], HELLO_LISTING),
    (&[DIRECT_TEXT], HELLO_LISTING),
    (&[ONE_LINE, DIRECT_TEXT], HELLO_LISTING),
    (&[DIRECT_TEXT, ONE_LINE], HELLO_LISTING),
];

/// Whether this is listed of these inputs.
fn is_listed(alloc: Global, texts: &[&[u8]], listing: &[u8]) -> Result<bool, Fail> {
    let mut inputs = Vec::new(alloc);
    for text in texts {
        inputs.push(Counted::new(*text))?;
    }
    Ok(listing_of(alloc, inputs.as_mut_slice())?.as_slice() == listing)
}

// A log and the book of it have one listing, also together.
#[test]
fn a_book_is_listed_as_its_log(rt: HostRuntime) -> Result<(), Fail> {
    for &(texts, listing) in LISTED {
        assert!(rt; is_listed(rt.alloc(), texts, listing)?);
    }
    Ok(())
}

/// Whether so many bytes of the listing are written where the output takes no more.
fn is_listed_up_to(alloc: Global, room: usize) -> bool {
    let mut inputs = [Counted::new(ONE_LINE)];
    let mut w = Counted::new(Tight {
        bytes: Vec::new(alloc),
        room,
    });
    let run = show_run(
        alloc,
        MAX_INPUT,
        Gap::STANDARD,
        inputs.as_mut_slice(),
        &mut w,
    );
    let is_refused = matches!(&run, Err(RunFault::Write)) && w.failures() == 1;
    is_refused && HELLO_LISTING.get(..room) == Some(w.into_inner().bytes.as_slice())
}

#[test]
fn a_refused_output_has_a_prefix(rt: HostRuntime) {
    let alloc = rt.alloc();
    for room in 0..HELLO_LISTING.len() {
        assert!(rt; is_listed_up_to(alloc, room));
    }
    let mut inputs = [Counted::new(ONE_LINE)];
    let run = show_run(
        alloc,
        MAX_INPUT,
        Gap::STANDARD,
        inputs.as_mut_slice(),
        &mut Counted::new(Full),
    );
    assert!(rt; matches!(&run, Err(RunFault::Write)));
    assert!(rt; status_of(&RunFault::Memory) == 4);
}
