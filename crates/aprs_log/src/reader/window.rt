//! Bytes that were read and are not yet taken.
ghost use Rattle.std.specs.Prelude.{◌≡◌, ◌<◌, ◌≤◌, ℕ, List, ◌++◌, length, drop, IfOk, IfErr};
ghost use Rattle.aprs_log.specs.Sizes.{most_line};
ghost use Rattle.aprs_log.specs.declared.reader.window.TheConstants.{WINDOW_SIZE};

use aprs_io::{Counted, InputEnd, read_some};
use std::io::Read;

/// The bytes of room that a window has: two lines of the greatest length.
const WINDOW_SIZE: usize = 16_384;

/// The bytes from `start` to `end`, and room after them.
#[derive(Drop)]
pub struct Window {
    bytes: [u8; WINDOW_SIZE],
    start: usize,
    end: usize,
    ghost ordered: { start ≤ end },
    ghost within: { end ≤ WINDOW_SIZE },
}

impl Window {
    ghost use Rattle.std.specs.Io.KnownBytes.{Consumes};
    ghost use Rattle.aprs_io.specs.Device.{Calls, device_of};
    ghost use Rattle.aprs_io.specs.Input.{EndsIfKnown, last_got};
    ghost use Rattle.aprs_log.specs.Window.{items};

    /// A window that holds `head`, which has at most 8 bytes.
    pub fn new(head: &[u8]) -> Window
        requires { length head.now ≤ 8 }
        ensures { items result ≡ head.now }
    {
        let mut bytes = [0; WINDOW_SIZE];
        bytes[..head.len()].copy_from_slice(head);
        Window {
            bytes,
            start: 0,
            end: head.len(),
        }
    }

    /// The bytes that the window holds.
    pub fn as_slice(&self) -> &[u8]
        ensures value { result.now ≡ items self.now }
        ensures fits { length result.now ≤ WINDOW_SIZE }
    {
        &self.bytes[self.start..self.end]
    }

    /// Lets go of the first `count` bytes that the window holds.
    pub fn consume(&mut self, count: usize)
        requires { count ≤ length (items self.old) }
        ensures { items self.new ≡ drop count (items self.old) }
    {
        self.start += count;
    }

    /// Reads once, at most `left` bytes, to the place after those that the window holds, and
    /// returns how many came, at least one. Otherwise returns how the input ends here: with
    /// `TooLong` where `left` is 0 and a further byte came, which is dropped. Requires that the
    /// window holds no more than a longest line, 8,192 bytes, so that there is room.
    pub fn read_more<R: Read>(
        &mut self,
        source: &mut Counted<R>,
        left: u64,
    ) -> Result<u64, InputEnd>
        requires { length (items self.old) ≤ most_line }

        ensures some { IfOk result (λ n. (0 < n) × (n ≤ left)) }
        ensures more { IfOk result (λ n. (more : List ℕ) × (length more ≡ n)
            × (items self.new ≡ items self.old ++ more)
            × Consumes (R.remaining (device_of source.old)) (R.remaining (device_of source.new))
            more) }

        ensures end { IfErr result (λ ending. (items self.new ≡ items self.old)
            × EndsIfKnown ending left (R.remaining (device_of source.old))
            (R.remaining (device_of source.new))) }

        ensures calls { Calls (last_got result) source.old source.new }
    {
        self.move_to_front();
        let end = self.end;
        let count = read_some(source, &mut self.bytes[end..], left)?;
        self.end = end + count;
        Ok(count as u64)
    }

    /// Moves the bytes that the window holds to its start, so that all its room is after them.
    fn move_to_front(&mut self)
        ensures items { items self.new ≡ items self.old }
        ensures room { self.new.end ≡ length (items self.old) }
    {
        let (start, end) = (self.start, self.end);
        self.bytes.copy_within(start..end, 0);
        self.start = 0;
        self.end = end - start;
    }
}
