//! What receivers hear. Each call takes no memory, and fails where its arguments make nothing.

use aprs_ax25::{Callsign, Frame};
use aprs_log::{Moment, Receiver, Reception};
use std::test::Fail;

/// 2024-05-01T12:00:00Z, in seconds since 1970 began.
pub const NOON: u64 = 1_714_564_800;

/// The receiver of this name.
pub fn receiver(name: &[u8]) -> Result<Receiver, Fail> {
    Ok(Receiver::parse(name).ok_or("receiver")?)
}

/// What the receiver of this name heard so many seconds after `NOON`.
pub fn heard(second: u64, name: &[u8], frame: &[u8]) -> Result<Reception, Fail> {
    Ok(Reception::new(
        Moment::new(NOON.saturating_add(second)).ok_or("moment")?,
        receiver(name)?,
        Frame::read(frame).ok().ok_or("frame")?,
    ))
}

/// The callsign of this text.
pub fn callsign(text: &[u8]) -> Result<Callsign, Fail> {
    Ok(Callsign::parse(text).ok().ok_or("callsign")?)
}

/// A frame from a source to APRS with this information.
pub fn frame_of(source: &[u8], info: &[u8]) -> Result<Frame, Fail> {
    let destination = callsign(b"APRS")?;
    let frame = Frame::make(&destination, &callsign(source)?, &[], info);
    Ok(frame.ok().ok_or("frame")?)
}

/// What RX1 hears of a source so many seconds after `NOON`.
pub fn sent(second: u64, source: &[u8], info: &[u8]) -> Result<Reception, Fail> {
    Ok(Reception::new(
        Moment::new(NOON.saturating_add(second)).ok_or("moment")?,
        receiver(b"RX1")?,
        frame_of(source, info)?,
    ))
}
