//! What is kept from line to line.
use crate::moment::clock::Clock;
use aprs_kiss::KissReader;

/// The most bytes that the hexadecimal text of a line holds.
const MAX_BYTES: usize = 4096;

/// What reading a line writes to. It is kept from line to line, since to make it anew costs more
/// than to read a line.
#[derive(Drop)]
pub struct LineBuffers {
    /// The bytes that the receiver gave.
    pub bytes: [u8; MAX_BYTES],
    /// The reader of the frame in these bytes, which then lies in it.
    pub kiss: KissReader,
    /// The reader of moments, which keeps the date of the line before.
    pub clock: Clock,
}

impl LineBuffers {
    /// Room for the first line.
    pub fn new() -> LineBuffers {
        LineBuffers {
            bytes: [0; MAX_BYTES],
            kiss: KissReader::new(),
            clock: Clock::new(),
        }
    }
}
