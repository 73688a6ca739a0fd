//! Reports of the APRS Protocol Reference, field by field.

use aprs_report::{Place, Report, Stamp, Symbol};

const HOUSE: Symbol = Symbol {
    table: b'/',
    code: b'-',
};

const CAR: Symbol = Symbol {
    table: b'/',
    code: b'>',
};

/// 49 degrees 3.50 minutes north, 72 degrees 1.75 minutes west.
const HERE: Place = Place::Plain {
    lat: 49 * 6_000 + 350,
    lon: -(72 * 6_000 + 175),
    ambiguity: 0,
};

fn stamp(mark: u8) -> Option<Stamp> {
    Some(Stamp {
        digits: *b"092345",
        mark,
    })
}

fn position(
    messaging: bool,
    stamp: Option<Stamp>,
    place: Place,
    symbol: Symbol,
    comment: &[u8],
) -> Report<'_> {
    Report::Position {
        messaging,
        stamp,
        place,
        symbol,
        comment,
    }
}

fn house(lat: i32, lon: i32, ambiguity: u8) -> Report<'static> {
    let place = Place::Plain {
        lat,
        lon,
        ambiguity,
    };
    position(false, None, place, HOUSE, b"")
}

fn car(table: u8, y: u32, x: u32) -> Report<'static> {
    let place = Place::Base91 { y, x, cst: *b" sT" };
    let symbol = Symbol { table, code: b'>' };
    position(true, None, place, symbol, b"")
}

/// The first field that is read as another report than the one beside it.
fn misread<'a>(table: &[(&'a [u8], Report<'a>)]) -> Option<&'a [u8]> {
    for (info, report) in table {
        if Report::read(info) != *report {
            return Some(info);
        }
    }
    None
}

/// Whether all these reports are of this kind.
fn are_kind(table: &[(&[u8], Report<'_>)], kind: &str) -> bool {
    for (_, report) in table {
        if report.kind() != kind {
            return false;
        }
    }
    true
}

#[test]
fn plain_positions(rt: HostRuntime) {
    let table = [
        (
            b"!4903.50N/07201.75W-".as_slice(),
            house(294350, -432175, 0),
        ),
        (
            b"!4903.5 N/07201.75W-".as_slice(),
            house(294350, -432170, 1),
        ),
        (
            b"!49  .  N/072  .  W-".as_slice(),
            house(294000, -432000, 4),
        ),
        (
            b"!49  .  N/07299.99W-".as_slice(),
            house(294000, -432000, 4),
        ),
        (b"!4903.50N/07201.7 W-".as_slice(), Report::Raw),
        (
            b"!9000.00N/18000.00E-".as_slice(),
            house(540000, 1080000, 0),
        ),
        (b"!9000.01N/07201.75W-".as_slice(), Report::Raw),
        (b"!4960.00N/07201.75W-".as_slice(), Report::Raw),
        (b"!496 .  N/07201.75W-".as_slice(), Report::Raw),
    ];
    assert!(rt; misread(&table) == None);
}

#[test]
fn positions_with_stamps_and_comments(rt: HostRuntime) {
    let table = [
        (
            b"!4903.50N/07201.75W-Test 001234".as_slice(),
            position(false, None, HERE, HOUSE, b"Test 001234"),
        ),
        (
            b"/092345z4903.50N/07201.75W>Test1234".as_slice(),
            position(false, stamp(b'z'), HERE, CAR, b"Test1234"),
        ),
        (
            b"@092345/4903.50N/07201.75W>Test1234".as_slice(),
            position(true, stamp(b'/'), HERE, CAR, b"Test1234"),
        ),
    ];
    assert!(rt; misread(&table) == None);
}

#[test]
fn fractions_of_a_degree(rt: HostRuntime) {
    let (lat, lon) = (HERE.lat(), HERE.lon());
    assert!(rt; (lat.numerator, lat.denominator) == (294350, 6000));
    assert!(rt; (lon.numerator, lon.denominator) == (-432175, 6000));
}

/// 49.5 degrees north, and 72.75 west to less than 1/190463 of a degree.
const COMPRESSED: Place = Place::Base91 {
    y: 15427503,
    x: 20427156,
    cst: *b" sT",
};

#[test]
fn compressed_positions(rt: HostRuntime) {
    let table = [
        (b"=/5L!!<*e7> sT".as_slice(), car(b'/', 15427503, 20427156)),
        (b"=/{{!!<*e7> sT".as_slice(), car(b'/', 68566680, 20427156)),
        (b"=/{{!\"<*e7> sT".as_slice(), Report::Raw),
        (b"=/5L!!{{!!> sT".as_slice(), car(b'/', 15427503, 68566680)),
        (b"=c5L!!<*e7> sT".as_slice(), car(b'2', 15427503, 20427156)),
        (
            b"=/5L!!<*e7> sTComment".as_slice(),
            position(true, None, COMPRESSED, CAR, b"Comment"),
        ),
    ];
    assert!(rt; misread(&table) == None);
}

#[test]
fn compressed_fractions_of_a_degree(rt: HostRuntime) {
    let (lat, lon) = (COMPRESSED.lat(), COMPRESSED.lon());
    assert!(rt; (lat.numerator, lat.denominator) == (18855837, 380926));
    assert!(rt; lat.numerator * 2 == lat.denominator * 99);
    assert!(rt; (lon.numerator, lon.denominator) == (-13856184, 190463));
    assert!(rt; (lon.numerator * 4 + lon.denominator * 291) / 4 == 0);
}

#[test]
fn kinds(rt: HostRuntime) {
    assert!(rt; Report::read(b"=/5L!!<*e7> sT").kind() == "position");
    assert!(rt; Report::read(b"").kind() == "raw");
    assert!(rt; object(true, b"").kind() == "object");
    assert!(rt; item(LEADER, b'>').kind() == "item");
}

const LEADER: &[u8] = b"LEADER";

fn object(live: bool, comment: &[u8]) -> Report<'_> {
    Report::Object {
        name: LEADER,
        live,
        stamp: Stamp {
            digits: *b"092345",
            mark: b'z',
        },
        place: HERE,
        symbol: CAR,
        comment,
    }
}

fn item(name: &[u8], code: u8) -> Report<'_> {
    Report::Item {
        name,
        live: true,
        place: HERE,
        symbol: Symbol { table: b'/', code },
        comment: b"",
    }
}

#[test]
fn objects_and_items(rt: HostRuntime) {
    let table = [
        (
            b";LEADER   *092345z4903.50N/07201.75W>".as_slice(),
            object(true, b""),
        ),
        (
            b";LEADER   _092345z4903.50N/07201.75W>".as_slice(),
            object(false, b""),
        ),
        (
            b";LEADER   *092345z4903.50N/07201.75W>088/036".as_slice(),
            object(true, b"088/036"),
        ),
        (
            b";         *092345z4903.50N/07201.75W>".as_slice(),
            Report::Raw,
        ),
        (
            b")LEADER!4903.50N/07201.75W>".as_slice(),
            item(LEADER, b'>'),
        ),
        (
            b")AID #2!4903.50N/07201.75WA".as_slice(),
            item(b"AID #2", b'A'),
        ),
        (b")AI!4903.50N/07201.75WA".as_slice(), Report::Raw),
        (b")AID NUMBER!4903.50N/07201.75WA".as_slice(), Report::Raw),
    ];
    assert!(rt; misread(&table) == None);
}

fn status(stamp: Option<Stamp>, text: &[u8]) -> Report<'_> {
    Report::Status { stamp, text }
}

fn message<'a>(text: &'a [u8], id: Option<&'a [u8]>) -> Report<'a> {
    Report::Message {
        addressee: b"WU2Z",
        text,
        id,
    }
}

#[test]
fn statuses(rt: HostRuntime) {
    let table = [
        (
            b">Net Control Center".as_slice(),
            status(None, b"Net Control Center"),
        ),
        (
            b">092345zNet Control Center".as_slice(),
            status(stamp(b'z'), b"Net Control Center"),
        ),
        (b">092345/Net".as_slice(), status(None, b"092345/Net")),
    ];
    assert!(rt; misread(&table) == None);
    assert!(rt; are_kind(&table, "status"));
}

#[test]
fn messages(rt: HostRuntime) {
    let table = [
        (b":WU2Z     :Testing".as_slice(), message(b"Testing", None)),
        (
            b":WU2Z     :Testing{003".as_slice(),
            message(b"Testing", Some(b"003")),
        ),
        (
            b":WU2Z     :Testing{003\r".as_slice(),
            message(b"Testing", Some(b"003")),
        ),
        (
            b":WU2Z     :Testing{AB}CD".as_slice(),
            message(b"Testing{AB}CD", None),
        ),
        (b":WU2Z     :ack".as_slice(), message(b"ack", None)),
    ];
    assert!(rt; misread(&table) == None);
    assert!(rt; are_kind(&table, "message"));
}

#[test]
fn acks_and_rejs(rt: HostRuntime) {
    let id = b"003".as_slice();
    let ack = Report::Ack {
        addressee: b"N0CALL-7",
        id,
    };
    let rej = Report::Rej {
        addressee: b"N0CALL-7",
        id,
    };
    let longest = Report::Ack {
        addressee: b"KB2ICI-14",
        id,
    };
    let acks = [
        (b":N0CALL-7 :ack003".as_slice(), ack),
        (b":KB2ICI-14:ack003".as_slice(), longest),
    ];
    let rejs = [(b":N0CALL-7 :rej003".as_slice(), rej)];
    assert!(rt; misread(&acks) == None);
    assert!(rt; misread(&rejs) == None);
    assert!(rt; are_kind(&acks, "ack") && are_kind(&rejs, "rej"));
}

/// Fields at the ends of what may stand in a place: what lies over a symbol, a code, the halves of
/// the globe, a stamp by the hour, names and their lengths, an id, and what is cut off at the end
/// of a message.
const AT_THE_ENDS: &[(&[u8], Report<'static>)] = &[
    (
        b"!4903.50NZ07201.75W~",
        Report::Position {
            messaging: false,
            stamp: None,
            place: HERE,
            symbol: Symbol {
                table: b'Z',
                code: b'~',
            },
            comment: b"",
        },
    ),
    (
        b"!4903.50S007201.75E!",
        Report::Position {
            messaging: false,
            stamp: None,
            place: Place::Plain {
                lat: -294_350,
                lon: 432_175,
                ambiguity: 0,
            },
            symbol: Symbol {
                table: b'0',
                code: b'!',
            },
            comment: b"",
        },
    ),
    (
        b"!4903.50NA07201.75W-",
        Report::Position {
            messaging: false,
            stamp: None,
            place: HERE,
            symbol: Symbol {
                table: b'A',
                code: b'-',
            },
            comment: b"",
        },
    ),
    (b"!4903.50N[07201.75W-", Report::Raw),
    (b"!4903.50N/07201.75W ", Report::Raw),
    (b"!4903.50N/07201.75W\x7f", Report::Raw),
    (
        b"=j5L!!<*e7> sT",
        Report::Position {
            messaging: true,
            stamp: None,
            place: COMPRESSED,
            symbol: Symbol {
                table: b'9',
                code: b'>',
            },
            comment: b"",
        },
    ),
    (
        b"=a5L!!<*e7> sT",
        Report::Position {
            messaging: true,
            stamp: None,
            place: COMPRESSED,
            symbol: Symbol {
                table: b'0',
                code: b'>',
            },
            comment: b"",
        },
    ),
    (b"=k5L!!<*e7> sT", Report::Raw),
    (
        b"/092345h4903.50N/07201.75W>",
        Report::Position {
            messaging: false,
            stamp: Some(Stamp {
                digits: *b"092345",
                mark: b'h',
            }),
            place: HERE,
            symbol: CAR,
            comment: b"",
        },
    ),
    (b"/092345x4903.50N/07201.75W>", Report::Raw),
    (
        b">092345hNet",
        Report::Status {
            stamp: None,
            text: b"092345hNet",
        },
    ),
    (
        b")A~C_4903.50N/07201.75W>",
        Report::Item {
            name: b"A~C",
            live: false,
            place: HERE,
            symbol: CAR,
            comment: b"",
        },
    ),
    (
        b")THE LEADE!4903.50N/07201.75W>",
        Report::Item {
            name: b"THE LEADE",
            live: true,
            place: HERE,
            symbol: CAR,
            comment: b"",
        },
    ),
    (b")AI\x7f!4903.50N/07201.75WA", Report::Raw),
    (
        b":WU2Z     :Testing{aZ09b\r\n",
        Report::Message {
            addressee: b"WU2Z",
            text: b"Testing",
            id: Some(b"aZ09b"),
        },
    ),
    (
        b":WU2Z     :Testing{zA",
        Report::Message {
            addressee: b"WU2Z",
            text: b"Testing",
            id: Some(b"zA"),
        },
    ),
    (
        b":WU2Z     :Testing{123456",
        Report::Message {
            addressee: b"WU2Z",
            text: b"Testing{123456",
            id: None,
        },
    ),
];

#[test]
fn ends_of_ranges(rt: HostRuntime) {
    assert!(rt; misread(AT_THE_ENDS) == None);
}

/// Mic-E, weather, telemetry, raw GPS, queries, capabilities, user-defined, third-party, grid
/// locators, test data, no bytes, and a position after other text.
#[test]
fn left_raw(rt: HostRuntime) {
    let table = [
        b"`(_fn\"Oj/".as_slice(),
        b"'(_fn\"Oj/".as_slice(),
        b"_10090556c220s004g005t077".as_slice(),
        b"T#005,199,000,255,073,123,01101001".as_slice(),
        b"$GPRMC,063909,A,3349.4302,N,11700.3721,W".as_slice(),
        b"?APRS?".as_slice(),
        b"<IGATE,MSG_CNT=43,LOC_CNT=14".as_slice(),
        b"{Q1qwerty".as_slice(),
        b"}WIDE1-1>APRS:>Hi".as_slice(),
        b"[IO91SX]35 miles NNW of London".as_slice(),
        b",191146,V,4214.2466,N,07303.5181,W".as_slice(),
        b"".as_slice(),
        b"xx!4903.50N/07201.75W-".as_slice(),
    ];
    for info in table {
        assert!(rt; Report::read(info) == Report::Raw, "at {info:?}");
    }
}
