//! Moments, and the lines of a log.

use aprs_fixtures::{DIRECT, DIRECT_LINE, LOG};
use aprs_kiss::Counted;
use aprs_log::{
    Line, LineFault, LogCause, Moment, Reason, Receiver, Reception, read_line, write_line,
};
use std::alloc::Global;
use std::fmt::Write;
use std::test::Fail;

/// Whether this text is of so many seconds, which are written so.
fn is_moment(text: &[u8], seconds: u64, written: &[u8; 24]) -> bool {
    match Moment::parse(text) {
        Some(moment) => {
            moment.seconds() == seconds
                && moment.text() == *written
                && Moment::new(seconds) == Some(moment)
        }
        None => false,
    }
}

#[test]
fn moments_and_their_texts(rt: HostRuntime) {
    const CASES: &[(&[u8], u64, &[u8; 24])] = &[
        (b"1970-01-01T00:00:00Z", 0, b"1970-01-01T00:00:00.000Z"),
        (
            b"2024-05-01T12:00:00Z",
            1_714_564_800,
            b"2024-05-01T12:00:00.000Z",
        ),
        (
            b"2099-12-31T23:59:59Z",
            4_102_444_799,
            b"2099-12-31T23:59:59.000Z",
        ),
    ];
    for &(text, seconds, written) in CASES {
        assert!(rt; is_moment(text, seconds, written));
    }
    assert!(rt; Moment::new(4_102_444_800).is_none());
}

#[test]
fn a_line_is_heard(rt: HostRuntime) -> Result<(), Fail> {
    let Ok(Line::Heard(heard)) = read_line(DIRECT_LINE) else {
        return Err("heard".into());
    };
    assert!(rt; heard.moment().seconds() == 1_714_564_800);
    assert!(rt; heard.receiver().as_bytes() == b"RX1".as_slice());
    assert!(rt; heard.frame().bytes() == DIRECT.as_slice());
    Ok(())
}

#[test]
fn a_later_reception_is_greater(rt: HostRuntime) -> Result<(), Fail> {
    let Ok(Line::Heard(heard)) = read_line(DIRECT_LINE) else {
        return Err("heard".into());
    };
    let receiver = Receiver::parse(b"RX0").ok_or("a name")?;
    let moment = Moment::new(1_714_564_801).ok_or("a moment")?;
    let later = Reception::new(moment, receiver, heard.frame().copy());
    assert!(rt; heard.copy() == heard && heard < later);
    Ok(())
}

#[test]
fn names_have_1_to_16_bytes(rt: HostRuntime) {
    const CASES: &[(&[u8], bool)] = &[
        (b"az-AZ_0123456789", true),
        (b"az-AZ_0123456789a", false),
        (b"-", true),
        (b"", false),
        (b"RX.1", false),
    ];
    for &(name, is_name) in CASES {
        assert!(rt; Receiver::parse(name).is_some() == is_name, "{name:?}");
    }
}

#[test]
fn each_fault_of_a_line(rt: HostRuntime) -> Result<(), Fail> {
    const CASES: &[(&[u8], LineFault)] = &[
        (b"2024-05-01T12:00:60Z RX1 c0", LineFault::Moment),
        (b"2024-05-01T12:00:00Z", LineFault::Moment),
        (
            b"2024-05-01T12:00:00Z ABCDEFGHIJKLMNOPQ c0",
            LineFault::Receiver,
        ),
        (b"2024-05-01T12:00:00Z RX1", LineFault::Receiver),
        (b"2024-05-01T12:00:00Z RX1 c0c", LineFault::Hex),
        (b"2024-05-01T12:00:00Z RX1 zz", LineFault::Hex),
    ];
    for &(line, fault) in CASES {
        assert!(rt; read_line(line) == Err(fault), "{fault:?}");
    }
    assert!(rt; LogCause::from(LineFault::Hex).number() == LineFault::Hex.number());
    assert!(rt; LogCause::Memory.name() == "Memory");
    Ok(())
}

#[test]
fn lines_have_at_most_8192_bytes(rt: HostRuntime) -> Result<(), Fail> {
    let mut longest = Vec::new(rt.alloc());
    longest.extend_from_slice(b"2024-05-01T12:00:00Z RX ")?;
    longest.resize(8192, b'0')?;
    assert!(rt; read_line(longest.as_slice()) == Ok(Line::Passed(Reason::Unended)));
    longest.push(b'0')?;
    assert!(rt; read_line(longest.as_slice()) == Err(LineFault::LongLine));
    Ok(())
}

#[test]
fn a_line_of_another_port_is_written_as_of_port_0(rt: HostRuntime) -> Result<(), Fail> {
    let line = b"2024-05-01T12:00:00Z RX1 C05082A0A4A64040E09C60868298986F03F03E4869C0";
    let Ok(Line::Heard(heard)) = read_line(line) else {
        return Err("heard".into());
    };
    let mut out = Counted::new(Vec::new(rt.alloc()));
    assert!(rt; write_line(&mut out, &heard) == Ok(()));
    assert!(rt; out.into_inner().as_slice() == &LOG[..74]);
    Ok(())
}

/// What is read of a line whose hexadecimal text has these bytes.
fn line_of(alloc: Global, bytes: &[u8]) -> Result<Line, Fail> {
    let mut line = String::new(alloc);
    line.push_str("2024-05-01T12:00:00Z RX1 ")?;
    for byte in bytes {
        write!(line, "{byte:02x}")?;
    }
    Ok(read_line(line.as_bytes()).ok().ok_or("a line")?)
}

/// The bytes between two frame ends, after a type byte.
fn kiss(rt: &HostRuntime, kind: u8, bytes: &[u8]) -> Result<Vec<u8>, Fail> {
    let mut sent = Vec::new(rt.alloc());
    sent.push(0xC0)?;
    sent.push(kind)?;
    sent.extend_from_slice(bytes)?;
    sent.push(0xC0)?;
    Ok(sent)
}

#[test]
fn each_reason(rt: HostRuntime) -> Result<(), Fail> {
    const CASES: &[(&[u8], Reason)] = &[
        (b"\xc0\x00A", Reason::Unended),
        (b"", Reason::NoFrame),
        (b"\xc0\xc0", Reason::NoFrame),
        (b"\xc0\x00A\xc0\x00A\xc0", Reason::TwoFrames),
        (b"\xc0\x00>\xdbA\xc0", Reason::BadEscape),
        (b"\xc0\x00>\xdb\xc0", Reason::BadEscape),
        (b"\xc0\x01A\xc0", Reason::NotData),
        (b"\xc0\x00A\xc0", Reason::Address),
    ];
    for &(bytes, reason) in CASES {
        assert!(rt;
            line_of(rt.alloc(), bytes)? == Line::Passed(reason),
            "{reason:?}"
        );
    }
    assert!(rt; Reason::LongInfo.name() == "LongInfo" && Reason::LongInfo.number() == 12);
    Ok(())
}

/// What is read of the direct frame with another octet in this place.
fn line_with(rt: &HostRuntime, place: usize, octet: u8) -> Result<Line, Fail> {
    let mut frame = DIRECT;
    *frame.get_mut(place).ok_or("a place")? = octet;
    line_of(rt.alloc(), kiss(rt, 0, &frame)?.as_slice())
}

#[test]
fn each_reason_of_a_frame(rt: HostRuntime) -> Result<(), Fail> {
    const CASES: &[(usize, u8, Reason)] = &[
        (6, 0xe1, Reason::Address),
        (7, 0x40, Reason::Callsign),
        (14, 0x13, Reason::Control),
        (15, 0xcf, Reason::Pid),
    ];
    for &(place, octet, reason) in CASES {
        assert!(rt;
            line_with(&rt, place, octet)? == Line::Passed(reason),
            "{reason:?}"
        );
    }
    Ok(())
}

/// What is read of a frame of the direct one's header and so many more bytes, after this type byte.
fn line_of_size(rt: &HostRuntime, kind: u8, more: usize) -> Result<Line, Fail> {
    let mut frame = Vec::new(rt.alloc());
    frame.extend_from_slice(&DIRECT[..16])?;
    frame.resize(frame.len().saturating_add(more), b'A')?;
    line_of(rt.alloc(), kiss(rt, kind, frame.as_slice())?.as_slice())
}

#[test]
fn sizes_of_frames(rt: HostRuntime) -> Result<(), Fail> {
    const CASES: &[(usize, Reason)] = &[(0, Reason::NoInfo), (257, Reason::LongInfo)];
    for &(more, reason) in CASES {
        assert!(rt; line_of_size(&rt, 0, more)? == Line::Passed(reason));
    }
    let Line::Heard(heard) = line_of_size(&rt, 0x50, 256)? else {
        return Err("heard".into());
    };
    assert!(rt; heard.frame().bytes().starts_with(&DIRECT[..16]));
    assert!(rt; heard.frame().info() == [b'A'; 256].as_slice());
    Ok(())
}

#[test]
fn sizes_of_pieces(rt: HostRuntime) -> Result<(), Fail> {
    let most = [b'A'; 1024];
    const CASES: &[(usize, Reason)] = &[(1023, Reason::Address), (1024, Reason::TooLong)];
    for &(size, reason) in CASES {
        let sent = kiss(&rt, 0, &most[..size])?;
        assert!(rt; line_of(rt.alloc(), sent.as_slice())? == Line::Passed(reason));
    }
    Ok(())
}
