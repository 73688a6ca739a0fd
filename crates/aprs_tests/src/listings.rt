//! Listings, word for word.

use aprs_book::Gap;
use aprs_fixtures::{frame_of, receiver};
use aprs_kiss::Counted;
use aprs_log::{MAX_INPUT, Moment, Reception, write_line};
use aprs_tool::show_run;
use std::alloc::Global;
use std::test::Fail;

/// What RX1 heard: when, from whom, and what.
type Sent = (&'static str, &'static str, &'static [u8]);

/// The log of these.
fn log_of(alloc: Global, all: &[Sent]) -> Result<Vec<u8>, Fail> {
    let mut w = Counted::new(Vec::new(alloc));
    for (moment, source, info) in all {
        let x = Reception::new(
            Moment::parse(moment.as_bytes()).ok_or("moment")?,
            receiver(b"RX1")?,
            frame_of(source.as_bytes(), info)?,
        );
        if write_line(&mut w, &x).is_err() {
            return Err("a fault".into());
        }
    }
    Ok(w.into_inner())
}

/// What is listed of these inputs, if it goes well.
pub fn listing_of(alloc: Global, inputs: &mut [Counted<&[u8]>]) -> Result<Vec<u8>, Fail> {
    let mut w = Counted::new(Vec::new(alloc));
    match show_run(alloc, MAX_INPUT, Gap::STANDARD, inputs, &mut w) {
        Ok(()) => Ok(w.into_inner()),
        Err(_) => Err("a fault".into()),
    }
}

/// What is listed of an input, if it goes well.
pub fn listing(alloc: Global, input: &[u8]) -> Result<Vec<u8>, Fail> {
    let mut inputs = [Counted::new(input)];
    listing_of(alloc, inputs.as_mut_slice())
}

/// Whether each log has the listing beside it.
fn are_listed(alloc: Global, cases: &[(&[Sent], &str)]) -> Result<bool, Fail> {
    for (all, text) in cases {
        let log = log_of(alloc, all)?;
        if listing(alloc, log.as_slice())?.as_slice() != text.as_bytes() {
            return Ok(false);
        }
    }
    Ok(true)
}

const FROM: &str = "N0CALL-7";

const NOON: &str = "2024-05-01T12:00:00Z";

const HELLO: Sent = (NOON, FROM, b">Hi");

const LATE: Sent = ("2024-05-01T12:10:00Z", FROM, b"!4903.50N/07201.75W-");

const EARLY: Sent = (NOON, FROM, b"!4904.00N/07201.75W-");

const GREATEST: &str = "station N0CALL-7 2
position 2024-05-01T12:10:00.000Z RX1 - 294350/6000 -432175/6000 0 /-:
";

// The greatest position is listed, whichever was taken last, and moments to the millisecond.
#[test]
fn stations_are_listed(rt: HostRuntime) -> Result<(), Fail> {
    const CASES: &[(&[Sent], &str)] = &[
        (&[], ""),
        (
            &[HELLO],
            "station N0CALL-7 1\nstatus 2024-05-01T12:00:00.000Z RX1 -:Hi\n",
        ),
        (
            &[("2024-05-01T12:00:00.500Z", FROM, b">Hi")],
            "station N0CALL-7 1\nstatus 2024-05-01T12:00:00.500Z RX1 -:Hi\n",
        ),
        (&[LATE, EARLY], GREATEST),
        (&[EARLY, LATE], GREATEST),
    ];
    assert!(rt; are_listed(rt.alloc(), CASES)?);
    Ok(())
}

// An object is that of whoever reported it last, and an item of its name is something else.
#[test]
fn objects_and_items_are_listed(rt: HostRuntime) -> Result<(), Fail> {
    const CASES: &[(&[Sent], &str)] = &[(
        &[
            (NOON, FROM, b";LEADER   *092345z4903.50N/07201.75W>"),
            (
                "2024-05-01T12:01:00Z",
                "N0CALL-8",
                b";LEADER   _092345z4903.50N/07201.75W>",
            ),
            ("2024-05-01T12:02:00Z", FROM, b")LEADER!4903.50N/07201.75W>"),
        ],
        "station N0CALL-7 2
station N0CALL-8 1
object LEADER killed 2024-05-01T12:01:00.000Z RX1 N0CALL-8 092345z 294350/6000 -432175/6000 0 />:
item LEADER live 2024-05-01T12:02:00.000Z RX1 N0CALL-7 - 294350/6000 -432175/6000 0 />:
",
    )];
    assert!(rt; are_listed(rt.alloc(), CASES)?);
    Ok(())
}

const LIVE: Sent = (NOON, FROM, b";LEADER   *092345z4903.50N/07201.75W>");

const KILLED: Sent = (NOON, FROM, b";LEADER   _092345z4903.50N/07201.75W>");

const LIVE_OF_EIGHTH: Sent = (NOON, "N0CALL-8", b";LEADER   *092345z4903.50N/07201.75W>");

// Of reports at one moment by one receiver the one with the greater frame is listed: killed (_)
// after live (*), and N0CALL-8 after N0CALL-7, whichever was taken last.
#[test]
fn objects_at_one_moment_go_by_frame(rt: HostRuntime) -> Result<(), Fail> {
    const KILLED_LISTED: &str = "station N0CALL-7 2
object LEADER killed 2024-05-01T12:00:00.000Z RX1 N0CALL-7 092345z 294350/6000 -432175/6000 0 />:
";
    const LIVE_LISTED: &str = "station N0CALL-7 1
station N0CALL-8 1
object LEADER live 2024-05-01T12:00:00.000Z RX1 N0CALL-8 092345z 294350/6000 -432175/6000 0 />:
";
    const CASES: &[(&[Sent], &str)] = &[
        (&[KILLED, LIVE], KILLED_LISTED),
        (&[LIVE, KILLED], KILLED_LISTED),
        (&[LIVE_OF_EIGHTH, KILLED], LIVE_LISTED),
        (&[KILLED, LIVE_OF_EIGHTH], LIVE_LISTED),
    ];
    assert!(rt; are_listed(rt.alloc(), CASES)?);
    Ok(())
}

const TESTING: Sent = (NOON, FROM, b":WU2Z     :Testing{003");

const BEFORE: Sent = ("2024-05-01T11:59:00Z", "WU2Z", b":N0CALL-7 :ack003");

const AFTER: Sent = ("2024-05-01T12:00:10Z", "WU2Z", b":N0CALL-7 :ack003");

const REJECTED: Sent = ("2024-05-01T12:01:00Z", "WU2Z", b":N0CALL-7 :rej003");

const AGAIN: Sent = ("2024-05-01T12:00:40Z", FROM, b":WU2Z     :Testing{003\r");

const OWN: Sent = ("2024-05-01T12:00:10Z", FROM, b":N0CALL-7 :ack003");

// An answer counts from the message's first moment on, and only from whom it was sent to.
#[test]
fn messages_are_listed(rt: HostRuntime) -> Result<(), Fail> {
    const CASES: &[(&[Sent], &str)] = &[
        (
            &[TESTING, BEFORE],
            "station N0CALL-7 1
station WU2Z 1
message N0CALL-7 WU2Z 003 unanswered 2024-05-01T12:00:00.000Z 2024-05-01T12:00:00.000Z:Testing
",
        ),
        (
            &[TESTING, BEFORE, AFTER],
            "station N0CALL-7 1
station WU2Z 2
message N0CALL-7 WU2Z 003 acknowledged 2024-05-01T12:00:00.000Z 2024-05-01T12:00:00.000Z:Testing
",
        ),
        (
            &[TESTING, BEFORE, AFTER, REJECTED],
            "station N0CALL-7 1
station WU2Z 3
message N0CALL-7 WU2Z 003 rejected 2024-05-01T12:00:00.000Z 2024-05-01T12:00:00.000Z:Testing
",
        ),
        (
            &[TESTING, AGAIN],
            "station N0CALL-7 2
message N0CALL-7 WU2Z 003 unanswered 2024-05-01T12:00:00.000Z 2024-05-01T12:00:40.000Z:Testing
",
        ),
        (
            &[TESTING, OWN],
            "station N0CALL-7 2
message N0CALL-7 WU2Z 003 unanswered 2024-05-01T12:00:00.000Z 2024-05-01T12:00:00.000Z:Testing
",
        ),
    ];
    assert!(rt; are_listed(rt.alloc(), CASES)?);
    Ok(())
}

const AT_ONCE: Sent = (NOON, "WU2Z", b":N0CALL-7 :ack003");

const OF_ANOTHER_ID: Sent = ("2024-05-01T12:00:10Z", "WU2Z", b":N0CALL-7 :ack004");

const TO_ANOTHER: Sent = ("2024-05-01T12:00:10Z", "WU2Z", b":N0CALL-8 :ack003");

// An ack of another id or to another station answers nothing, one at the message's very first
// moment does, and a message that is sent again after it stays acknowledged. Addressees are in
// order, whatever their texts and ids are.
#[test]
fn answers_are_for_one_message(rt: HostRuntime) -> Result<(), Fail> {
    const CASES: &[(&[Sent], &str)] = &[
        (
            &[TESTING, OF_ANOTHER_ID, TO_ANOTHER],
            "station N0CALL-7 1
station WU2Z 2
message N0CALL-7 WU2Z 003 unanswered 2024-05-01T12:00:00.000Z 2024-05-01T12:00:00.000Z:Testing
",
        ),
        (
            &[TESTING, AT_ONCE],
            "station N0CALL-7 1
station WU2Z 1
message N0CALL-7 WU2Z 003 acknowledged 2024-05-01T12:00:00.000Z 2024-05-01T12:00:00.000Z:Testing
",
        ),
        (
            &[TESTING, AFTER, AGAIN],
            "station N0CALL-7 2
station WU2Z 1
message N0CALL-7 WU2Z 003 acknowledged 2024-05-01T12:00:00.000Z 2024-05-01T12:00:40.000Z:Testing
",
        ),
        (
            &[
                (NOON, FROM, b":WU2Z     :A{1"),
                (NOON, FROM, b":N0CALL-9 :B{2"),
            ],
            "station N0CALL-7 2
message N0CALL-7 N0CALL-9 2 unanswered 2024-05-01T12:00:00.000Z 2024-05-01T12:00:00.000Z:B
message N0CALL-7 WU2Z 1 unanswered 2024-05-01T12:00:00.000Z 2024-05-01T12:00:00.000Z:A
",
        ),
    ];
    assert!(rt; are_listed(rt.alloc(), CASES)?);
    Ok(())
}

// What looks like an id but is none is text. Messages go by their texts, and of one text the one
// without an id comes first.
#[test]
fn messages_without_an_id_are_listed(rt: HostRuntime) -> Result<(), Fail> {
    const CASES: &[(&[Sent], &str)] = &[
        (
            &[
                (NOON, FROM, b":WU2Z     :ack"),
                (NOON, FROM, b":WU2Z     :Testing{AB}CD"),
            ],
            "station N0CALL-7 2
message N0CALL-7 WU2Z - unnumbered 2024-05-01T12:00:00.000Z 2024-05-01T12:00:00.000Z:Testing{AB}CD
message N0CALL-7 WU2Z - unnumbered 2024-05-01T12:00:00.000Z 2024-05-01T12:00:00.000Z:ack
",
        ),
        (
            &[TESTING, (NOON, FROM, b":WU2Z     :Testing")],
            "station N0CALL-7 2
message N0CALL-7 WU2Z - unnumbered 2024-05-01T12:00:00.000Z 2024-05-01T12:00:00.000Z:Testing
message N0CALL-7 WU2Z 003 unanswered 2024-05-01T12:00:00.000Z 2024-05-01T12:00:00.000Z:Testing
",
        ),
    ];
    assert!(rt; are_listed(rt.alloc(), CASES)?);
    Ok(())
}

// A stamp, a compressed place, and a place with four digits left out. South and east, with a symbol
// whose code is a colon; and a symbol of the alternate table.
#[test]
fn places_are_listed(rt: HostRuntime) -> Result<(), Fail> {
    const CASES: &[(&[Sent], &str)] = &[
        (
            &[(NOON, FROM, b"@092345/4903.50N/07201.75W>Test1234")],
            "station N0CALL-7 1
position 2024-05-01T12:00:00.000Z RX1 092345/ 294350/6000 -432175/6000 0 />:Test1234
",
        ),
        (
            &[(NOON, FROM, b"=/5L!!<*e7> sTComment")],
            "station N0CALL-7 1
position 2024-05-01T12:00:00.000Z RX1 - 18855837/380926 -13856184/190463 c />:Comment
",
        ),
        (
            &[(NOON, FROM, b"!49  .  N/072  .  W-")],
            "station N0CALL-7 1
position 2024-05-01T12:00:00.000Z RX1 - 294000/6000 -432000/6000 4 /-:
",
        ),
        (
            &[(NOON, FROM, b"!4903.50S/07201.75E:")],
            "station N0CALL-7 1
position 2024-05-01T12:00:00.000Z RX1 - -294350/6000 432175/6000 0 /::
",
        ),
        (
            &[(NOON, FROM, b"!4903.50N\\07201.75W\\")],
            "station N0CALL-7 1
position 2024-05-01T12:00:00.000Z RX1 - 294350/6000 -432175/6000 0 \\x5c\\x5c:
",
        ),
    ];
    assert!(rt; are_listed(rt.alloc(), CASES)?);
    Ok(())
}

// Each field that shows bytes, with a backslash, and where it may have one with a byte below 20 or
// over 7e. A space is escaped in a name, and not in a text.
#[test]
fn bytes_are_shown(rt: HostRuntime) -> Result<(), Fail> {
    const CASES: &[(&[Sent], &str)] = &[
        (
            &[
                (NOON, FROM, b"!4903.50N/07201.75W-a \\\xff"),
                (NOON, FROM, b">092345zNet \\\x7f"),
            ],
            "station N0CALL-7 2
position 2024-05-01T12:00:00.000Z RX1 - 294350/6000 -432175/6000 0 /-:a \\x5c\\xff
status 2024-05-01T12:00:00.000Z RX1 092345z:Net \\x5c\\x7f
",
        ),
        (
            &[(NOON, FROM, b";MY \\CAR  *092345z4903.50N/07201.75W>\\\x80")],
            "station N0CALL-7 1
object MY\\x20\\x5cCAR live 2024-05-01T12:00:00.000Z RX1 N0CALL-7 092345z \
    294350/6000 -432175/6000 0 />:\\x5c\\x80
",
        ),
        (
            &[(NOON, FROM, b")A \\B_4903.50N/07201.75W>\\\x00")],
            "station N0CALL-7 1
item A\\x20\\x5cB killed 2024-05-01T12:00:00.000Z RX1 N0CALL-7 - \
    294350/6000 -432175/6000 0 />:\\x5c\\x00
",
        ),
        (
            &[(NOON, FROM, b":A \\B     :It is \\\xfe{1")],
            "station N0CALL-7 1
message N0CALL-7 A\\x20\\x5cB 1 unanswered \
    2024-05-01T12:00:00.000Z 2024-05-01T12:00:00.000Z:It is \\x5c\\xfe
",
        ),
    ];
    assert!(rt; are_listed(rt.alloc(), CASES)?);
    Ok(())
}
