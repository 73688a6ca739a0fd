//! What is kept from line to line.
use aprs_ax25::{Frame, MAX_UI_FRAME};
use aprs_log::Clock;

/// A frame in as few octets as one has.
const SHORTEST: &[u8] = b"\x82\xa0\xa4\xa6\x40\x40\xe0\x9c\x60\x86\x82\x98\x98\x61\x03\xf0>";

/// What reading a row's line writes to. It is kept from line to line, since to make it anew costs
/// more than to read a short line.
#[derive(Drop)]
pub struct RowBuffers {
    /// The bytes of the frame's digits.
    pub bytes: [u8; MAX_UI_FRAME],
    /// The frame.
    pub frame: Frame,
    /// The day of the line before.
    pub clock: Clock,
}

impl RowBuffers {
    /// Buffers for the first line. Their frame is `SHORTEST`, since none was read yet.
    pub fn new() -> RowBuffers {
        let Ok(frame) = Frame::read(SHORTEST) else {
            unreachable!()
        };
        RowBuffers {
            bytes: [0; MAX_UI_FRAME],
            frame,
            clock: Clock::new(),
        }
    }
}
