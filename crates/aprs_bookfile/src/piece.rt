//! Bytes of an input that were read and are not yet taken.
ghost use Rattle.std.specs.Prelude.{◌≡◌, ◌<◌, ◌≤◌, [], length, drop, IfOk, IfErr, OnOk};
ghost use Rattle.aprs_bookfile.specs.TextFault.{most_ahead};

use aprs_io::{Counted, InputEnd, put, read_some};
use aprs_rows::Memory;
use std::alloc::Allocator;
use std::io::Read;

/// How many bytes are asked of an input at once.
const PIECE: usize = 16_384;

/// The bytes from `start` to `end`.
#[derive(Drop)]
pub struct Piece<A: Allocator> {
    bytes: Vec<u8, A>,
    start: usize,
    end: usize,
    ghost ordered: { start ≤ end },
    ghost within: { end ≤ length bytes.items },
    ghost some: { 0 < length bytes.items },
    ghost small: { length bytes.items ≤ most_ahead },
}

impl<A: Allocator + Copy> Piece<A> {
    ghost use Rattle.std.specs.Io.KnownBytes.{Consumes};
    ghost use Rattle.aprs_io.specs.Device.{Calls, device_of};
    ghost use Rattle.aprs_io.specs.Input.{EndsIfKnown, last_got};
    ghost use Rattle.aprs_bookfile.specs.Piece.{bytes_left};

    /// These bytes, at most 8, and room for more.
    pub fn new(alloc: A, head: &[u8]) -> Result<Piece<A>, Memory>
        requires { length head.now ≤ 8 }
        ensures { IfOk result (λ piece. bytes_left piece ≡ head.now) }
    {
        let mut bytes = Vec::new(alloc);
        bytes.resize(PIECE, 0)?;
        let end = put(bytes.as_mut_slice(), 0, head);
        Ok(Piece {
            bytes,
            start: 0,
            end,
        })
    }

    /// The bytes.
    pub fn as_slice(&self) -> &[u8]
        ensures value { result.now ≡ bytes_left self.now }
        ensures few { length result.now ≤ most_ahead }
    {
        &self.bytes.as_slice()[self.start..self.end]
    }

    /// Lets go of the first `count` bytes.
    pub fn consume(&mut self, count: usize)
        requires { count ≤ length (bytes_left self.old) }
        ensures { bytes_left self.new ≡ drop count (bytes_left self.old) }
    {
        self.start += count;
    }

    /// Reads once, at most `left` bytes, in the place of those that are here, and returns how many
    /// came, at least one. Otherwise returns how the input ends here, and then there are none.
    /// Where `left` is 0, one byte is asked for and not kept: if it comes, that is `TooLong`.
    pub fn refill<R: Read>(&mut self, source: &mut Counted<R>, left: u64) -> Result<u64, InputEnd>
        ensures some { IfOk result (λ n. (0 < n) × (n ≤ left)
            × (length (bytes_left self.new) ≡ n)) }
        ensures few { OnOk result (length (bytes_left self.new) ≤ most_ahead) }
        ensures got { IfOk result (λ n. Consumes (R.remaining (device_of source.old))
            (R.remaining (device_of source.new)) (bytes_left self.new)) }

        ensures end { IfErr result (λ ending. (bytes_left self.new ≡ [])
            × EndsIfKnown ending left (R.remaining (device_of source.old))
            (R.remaining (device_of source.new))) }

        ensures calls { Calls (last_got result) source.old source.new }
    {
        self.start = 0;
        self.end = 0;
        let count = read_some(source, self.bytes.as_mut_slice(), left)?;
        self.end = count;
        Ok(count as u64)
    }
}
