//! Frames and callsigns of the AX.25 and APRS documents, byte by byte.

use aprs_ax25::{CallFault, Callsign, Frame, FrameFault, FrameRef, Hop, MakeFault};
use arrayvec::ArrayVec;
use std::alloc::Global;
use std::test::Fail;

/// From N0CALL-7 to APRS, `>Hi`.
const PLAIN: [u8; 19] = [
    0x82, 0xa0, 0xa4, 0xa6, 0x40, 0x40, 0xe0, 0x9c, 0x60, 0x86, 0x82, 0x98, 0x98, 0x6f, 0x03, 0xf0,
    0x3e, 0x48, 0x69,
];

/// The frame of `PLAIN`, repeated by WIDE1-1.
const REPEATED: [u8; 26] = [
    0x82, 0xa0, 0xa4, 0xa6, 0x40, 0x40, 0xe0, 0x9c, 0x60, 0x86, 0x82, 0x98, 0x98, 0x6e, 0xae, 0x92,
    0x88, 0x8a, 0x62, 0x40, 0xe3, 0x03, 0xf0, 0x3e, 0x48, 0x69,
];

/// The octets of a digipeater named D and a digit, the digit's octet and the last one being given.
fn digipeater(digit: u8, last: u8) -> [u8; 7] {
    [0x88, digit, 0x40, 0x40, 0x40, 0x40, last]
}

/// Whether a frame is the plain one.
fn is_plain(frame: &Frame) -> bool {
    frame.source().text().as_slice() == b"N0CALL-7".as_slice()
        && frame.source().ssid() == 7
        && frame.destination().text().as_slice() == b"APRS".as_slice()
        && frame.hops() == 0
        && frame.hop(0).is_none()
        && frame.info() == b">Hi".as_slice()
}

/// Whether a frame's digipeater of this number has this callsign, and has repeated it or not.
fn is_hop(frame: &Frame, number: usize, text: &[u8], repeated: bool) -> bool {
    match frame.hop(number) {
        Some(hop) => hop.call.text().as_slice() == text && hop.repeated == repeated,
        None => false,
    }
}

#[test]
fn reads_a_frame(rt: HostRuntime) -> Result<(), Fail> {
    let frame = Frame::read(&PLAIN).ok().ok_or("a frame")?;
    assert!(rt; is_plain(&frame));
    let frame = Frame::read(&REPEATED).ok().ok_or("a frame")?;
    assert!(rt; is_hop(&frame, 0, b"WIDE1-1", true));
    assert!(rt; frame.copy() == frame);
    Ok(())
}

/// Why the plain frame with another octet in this place is none.
fn fault_with(place: usize, octet: u8) -> Option<FrameFault> {
    let mut bytes = PLAIN;
    *bytes.get_mut(place)? = octet;
    Frame::read(&bytes).err()
}

#[test]
fn refuses_what_is_no_frame(rt: HostRuntime) {
    const OCTETS: &[(usize, u8, FrameFault)] = &[
        (6, 0xe1, FrameFault::Address),
        (7, 0x40, FrameFault::Callsign),
        (14, 0x13, FrameFault::Control),
        (15, 0xcf, FrameFault::Pid),
    ];
    for &(place, octet, fault) in OCTETS {
        assert!(rt; fault_with(place, octet) == Some(fault), "{fault:?}");
    }
    const SIZES: &[(usize, FrameFault)] = &[
        (16, FrameFault::NoInfo),
        (14, FrameFault::Control),
        (0, FrameFault::Address),
    ];
    for &(size, fault) in SIZES {
        assert!(rt; Frame::read(&PLAIN[..size]).err() == Some(fault), "{size}");
    }
}

#[test]
fn reads_256_bytes_of_information(rt: HostRuntime) -> Result<(), Fail> {
    let mut bytes = PLAIN[..17].to_vec(rt.alloc())?;
    for _ in 0..255 {
        bytes.push(0x41)?;
    }
    assert!(rt; Frame::read(&bytes).is_ok());
    bytes.push(0x41)?;
    assert!(rt; matches!(Frame::read(&bytes), Err(FrameFault::LongInfo)));
    Ok(())
}

/// A frame with digipeaters of these digits' octets, the last of which ends the address field.
fn repeated_by(alloc: Global, digits: &[u8]) -> Result<Vec<u8>, Fail> {
    let mut bytes = REPEATED[..14].to_vec(alloc)?;
    for (i, digit) in digits.iter().enumerate() {
        let last = if i + 1 == digits.len() { 0x61 } else { 0x60 };
        bytes.extend_from_slice(&digipeater(*digit, last))?;
    }
    bytes.extend_from_slice(&REPEATED[21..])?;
    Ok(bytes)
}

/// The octets of the digits from 1 on.
const DIGITS: [u8; 9] = [0x62, 0x64, 0x66, 0x68, 0x6a, 0x6c, 0x6e, 0x70, 0x72];

#[test]
fn reads_eight_digipeaters_and_no_ninth(rt: HostRuntime) -> Result<(), Fail> {
    let bytes = repeated_by(rt.alloc(), &DIGITS[..8])?;
    let frame = Frame::read(&bytes).ok().ok_or("a frame")?;
    assert!(rt; frame.hops() == 8 && is_hop(&frame, 7, b"D8", false));
    let bytes = repeated_by(rt.alloc(), &DIGITS)?;
    assert!(rt; matches!(Frame::read(&bytes), Err(FrameFault::Address)));
    Ok(())
}

#[test]
fn parses_callsigns(rt: HostRuntime) {
    const TEXTS: &[&str] = &["N0CALL-7", "A-15", "APRS"];
    for &text in TEXTS {
        let bytes = text.as_bytes();
        assert!(rt; matches!(Callsign::parse(bytes), Ok(call) if call.text().as_slice() == bytes));
    }
    const LENGTHS: &[&str] = &["", "N0CALLX", "-7"];
    for &text in LENGTHS {
        assert!(rt; matches!(Callsign::parse(text.as_bytes()), Err(CallFault::Length)));
    }
    assert!(rt; matches!(Callsign::parse(b"n0call"), Err(CallFault::Character)));
    const SSIDS: &[&str] = &[
        "N0CALL-0",
        "N0CALL-07",
        "N0CALL-16",
        "N0CALL-",
        "N0CALL-1-2",
    ];
    for &text in SSIDS {
        assert!(rt; matches!(Callsign::parse(text.as_bytes()), Err(CallFault::Ssid)));
    }
}

// Of several faults the first in this order counts: Address, Callsign, Control, Pid.
#[test]
fn frames_are_refused_for_their_first_fault(rt: HostRuntime) {
    let mut bytes = PLAIN;
    bytes[15] = 0xcf;
    bytes[14] = 0x13;
    assert!(rt; Frame::read(&bytes).err() == Some(FrameFault::Control));
    bytes[7] = 0x40;
    assert!(rt; Frame::read(&bytes).err() == Some(FrameFault::Callsign));
    bytes[6] = 0xe1;
    assert!(rt; Frame::read(&bytes).err() == Some(FrameFault::Address));
}

// Length comes before Character, and Character before Ssid.
#[test]
fn callsigns_are_refused_for_their_first_fault(rt: HostRuntime) {
    assert!(rt; matches!(Callsign::parse(b"n0callx-0"), Err(CallFault::Length)));
    assert!(rt; matches!(Callsign::parse(b"n0call-0"), Err(CallFault::Character)));
}

#[test]
fn callsigns_are_of_capitals_and_digits(rt: HostRuntime) {
    const CASES: &[(&[u8], bool)] = &[
        (b"ABCDEF", true),
        (b"GHIJKL", true),
        (b"MNOPQR", true),
        (b"STUVWX", true),
        (b"YZ0123", true),
        (b"456789", true),
        (b"A@", false),
        (b"A[", false),
        (b"A/", false),
        (b"A:", false),
    ];
    for &(text, is_call) in CASES {
        assert!(rt; Callsign::parse(text).is_ok() == is_call, "{text:?}");
    }
}

/// A callsign.
fn call(text: &[u8]) -> Result<Callsign, Fail> {
    Ok(Callsign::parse(text).ok().ok_or("a callsign")?)
}

/// What is made of N0CALL-7, APRS and these.
fn made(hops: &[Hop], info: &[u8]) -> Result<Result<Frame, MakeFault>, Fail> {
    Ok(Frame::make(&call(b"APRS")?, &call(b"N0CALL-7")?, hops, info))
}

#[test]
fn makes_frames(rt: HostRuntime) -> Result<(), Fail> {
    let frame = made(&[], b">Hi")?;
    assert!(rt; matches!(&frame, Ok(frame) if frame.bytes() == PLAIN.as_slice()));
    let hop = Hop {
        call: call(b"WIDE1-1")?,
        repeated: true,
    };
    let frame = made(&[hop], b">Hi")?;
    assert!(rt; matches!(&frame, Ok(frame) if frame.bytes() == REPEATED.as_slice()));
    Ok(())
}

#[test]
fn makes_no_other_frames(rt: HostRuntime) -> Result<(), Fail> {
    let mut hops = Vec::new(rt.alloc());
    for _ in 0..9 {
        hops.push(Hop {
            call: call(b"N0CALL-7")?,
            repeated: false,
        })?;
    }
    assert!(rt; matches!(made(&hops, b"")?, Err(MakeFault::Hops)));
    assert!(rt; matches!(made(&[], b"")?, Err(MakeFault::NoInfo)));
    assert!(rt; matches!(made(&[], &[0x41; 257])?, Err(MakeFault::LongInfo)));
    Ok(())
}

#[test]
fn puts_texts_of_callsigns(rt: HostRuntime) -> Result<(), Fail> {
    let frame = Frame::read(&REPEATED).ok().ok_or("a frame")?;
    let frame = FrameRef::of(&frame);
    let mut text: ArrayVec<u8, 27> = ArrayVec::new();
    frame.push_source_text(&mut text);
    frame.push_destination_text(&mut text);
    assert!(rt; frame.push_hop_text(0, &mut text) == Some(true));
    assert!(rt; text.as_slice() == b"N0CALL-7APRSWIDE1-1".as_slice());
    Ok(())
}
