//! Mic-E frames that other readers of the standard read likewise.

use aprs_ax25::Callsign;
use aprs_mice::{MicE, MicEMessage};
use aprs_report::{Place, Symbol};

/// A latitude and a longitude in hundredths of minutes, and their ambiguity.
type At = (i32, i32, u8);

/// A destination and an information field; where, how fast in knots and to where in degrees; the
/// message; the symbol's table and code; whether it is current; the comment.
type Row = (
    &'static [u8],
    &'static [u8],
    At,
    (u16, u16),
    MicEMessage,
    u8,
    u8,
    bool,
    &'static [u8],
);

const READ: &[Row] = &[
    // the example of the standard; the SSID of the destination says nothing of the frame
    (
        b"S32UVT",
        b"`(_fn\"Oj/",
        (200_564, -672_774, 0),
        (20, 251),
        MicEMessage::Returning,
        b'/',
        b'j',
        true,
        b"",
    ),
    (
        b"S32UVT-7",
        b"`(_fn\"Oj/",
        (200_564, -672_774, 0),
        (20, 251),
        MicEMessage::Returning,
        b'/',
        b'j',
        true,
        b"",
    ),
    // four digits left out; old; a digit over the symbol
    (
        b"TSZLZZ",
        b"'?Q'Mz*>9>text",
        (-258_000, -815_311, 4),
        (499, 14),
        MicEMessage::OffDuty,
        b'9',
        b'>',
        false,
        b">text",
    ),
    // an emergency; the alternate table
    (
        b"850RU3",
        b"'+\\IOh\x1d_\\]Hi",
        (510_253, 690_445, 0),
        (517, 201),
        MicEMessage::Emergency,
        b'\\',
        b'_',
        false,
        b"]Hi",
    ),
    // no offset; south and west
    (
        b"X5T20R",
        b"`D;`7QA_/]Hi",
        (-514_202, -243_168, 0),
        (275, 337),
        MicEMessage::InService,
        b'/',
        b'_',
        true,
        b"]Hi",
    ),
    // 5 degrees, by 190
    (
        b"PX1WQR",
        b"'{<e}3@v1\"4a}_%",
        (49_712, -33_273, 0),
        (172, 336),
        MicEMessage::EnRoute,
        b'1',
        b'v',
        false,
        b"\"4a}_%",
    ),
    // 9 degrees 59.99 minutes, by 190
    (
        b"3AA3PS",
        b"'\x7fW\x7fv[Dv/>text",
        (-180_303, -59_999, 0),
        (106, 340),
        MicEMessage::Custom4,
        b'/',
        b'v',
        false,
        b">text",
    ),
    // 10 degrees without the offset
    (
        b"WVZLLZ",
        b"'&X\x1cYT=&9>text",
        (-456_000, -60_000, 4),
        (615, 233),
        MicEMessage::OffDuty,
        b'9',
        b'&',
        false,
        b">text",
    ),
    // 798 knots; one digit left out
    (
        b"B64YSZ",
        b"`q-3kmY&Z]Hi",
        (100_930, -631_723, 1),
        (798, 161),
        MicEMessage::Custom3,
        b'Z',
        b'&',
        true,
        b"]Hi",
    ),
    // 0 degrees, which is east
    (
        b"F73UU2",
        b"'vX\x1c>wA-/>text",
        (345_552, 0, 0),
        (349, 137),
        MicEMessage::Custom3,
        b'/',
        b'-',
        false,
        b">text",
    ),
    // 109 degrees 9.99 minutes, by 80
    (
        b"515WR4",
        b"'ua\x7fj'nv9]Hi",
        (311_724, 654_999, 0),
        (781, 182),
        MicEMessage::Emergency,
        b'9',
        b'v',
        false,
        b"]Hi",
    ),
    // 100 degrees, by 80
    (
        b"RV46YR",
        b"'lX\x1c3|<>A>text",
        (-160_692, -600_000, 0),
        (239, 232),
        MicEMessage::EnRoute,
        b'A',
        b'>',
        false,
        b">text",
    ),
    // a standard and two custom bits
    (
        b"AQ4LLZ",
        b"`XOAL=D#9",
        (-10_000, -365_137, 3),
        (483, 340),
        MicEMessage::Unknown,
        b'9',
        b'#',
        true,
        b"",
    ),
    // the third character is a space
    (
        b"0QLLZZ",
        b"`q5g]&0#\\",
        (-6_000, -632_575, 4),
        (651, 20),
        MicEMessage::Special,
        b'\\',
        b'#',
        true,
        b"",
    ),
];

const NONE: &[(&[u8], &[u8])] = &[
    // another first byte
    (b"UP05ZZ", b"%[8bP5#j/\"4a}_%"),
    // M isn't in the table
    (b"M4US5L", b"'m+5(^6_9\"4a}_%"),
    // a custom bit in the fourth place
    (b"B4AKZZ", b"'-.xY\x1d?[1\"4a}_%"),
    // d is 100
    (b"2V1LLL", b"`\x802fY(\x1f>A]Hi"),
    // m is 9
    (b"R0SXP9", b"'1%TW<7[\\]Hi"),
    // m is 99
    (b"2Q0LLL", b"'c\x7f5g)Vj1"),
    // h is below 0
    (b"8XPYS2", b"`b=\x1b`pkv\\]Hi"),
    // DC is below 0
    (b"A0DS4Z", b"'OS%i\x1b9jA>text"),
    // SE is below 0
    (b"25147X", b"`9O4F\x1bmk\\]Hi"),
];

/// What the field says under this destination.
fn read<'a>(destination: &[u8], info: &'a [u8]) -> Option<MicE<'a>> {
    match Callsign::parse(destination) {
        Ok(callsign) => MicE::read(&callsign, info),
        Err(_) => None,
    }
}

/// The first destination that isn't read as its row says.
fn misread(rows: &'static [Row]) -> Option<&'static [u8]> {
    for &(destination, info, at, motion, message, table, code, is_current, comment) in rows {
        let (lat, lon, ambiguity) = at;
        let (speed, course) = motion;
        let wanted = MicE {
            place: Place::Plain {
                lat,
                lon,
                ambiguity,
            },
            speed,
            course,
            message,
            symbol: Symbol { table, code },
            is_current,
            comment,
        };
        if read(destination, info) != Some(wanted) {
            return Some(destination);
        }
    }
    None
}

#[test]
fn mic_e_frames_are_read(rt: HostRuntime) {
    assert!(rt; misread(READ) == None);
}

#[test]
fn other_frames_are_no_mic_e(rt: HostRuntime) {
    for &(destination, info) in NONE {
        assert!(rt; read(destination, info) == None);
    }
}
