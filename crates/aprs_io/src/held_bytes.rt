//! The bytes that an outlet holds back.
ghost use Rattle.std.specs.Prelude.{◌≡◌, ◌≤◌, ◌+◌, [], ◌++◌, length};

use crate::put;
use std::marker::Model;

/// The most bytes that an outlet holds back: twice those of a `BufWriter`, so that they aren't
/// buffered there again.
pub const MAX_HELD: usize = 16_384;

/// At most `MAX_HELD` bytes, which lie in the value itself. Unlike an `ArrayVec` it writes over
/// none of them where it is emptied, which happens once for each buffer full.
#[derive(Drop)]
pub(crate) struct HeldBytes {
    bytes: [u8; MAX_HELD],
    len: usize,
}

impl Model for HeldBytes {
    ghost use Rattle.std.specs.Prelude.{◌≡◌, ◌≤◌, List, ℕ, length, take};
    ghost use Rattle.aprs_io.specs.declared.held_bytes.TheConstants.{MAX_HELD};

    ghost Value = { List ℕ };

    ghost view = { λ held. take held.len held.bytes };

    ghost invariant = { λ held. (held.len ≤ MAX_HELD) × (length held.bytes ≡ MAX_HELD) };
}

impl HeldBytes {
    /// No bytes.
    pub(crate) fn new() -> HeldBytes
        ensures { result ≡ [] }
    {
        HeldBytes {
            bytes: [0; MAX_HELD],
            len: 0,
        }
    }

    /// How many they are.
    pub(crate) fn len(&self) -> usize
        ensures value { result ≡ length self.now }
        ensures most { result ≤ MAX_HELD }
    {
        self.len
    }

    /// The bytes.
    pub(crate) fn as_slice(&self) -> &[u8]
        ensures { result.now ≡ self.now }
    {
        &self.bytes[..self.len]
    }

    /// Puts `bytes` after them, for which there has to be room.
    pub(crate) fn push_all(&mut self, bytes: &[u8])
        requires { length self.old + length bytes.now ≤ MAX_HELD }
        ensures { self.new ≡ self.old ++ bytes.now }
    {
        self.len = put(&mut self.bytes, self.len, bytes);
    }

    /// Drops them all.
    pub(crate) fn clear(&mut self)
        ensures { self.new ≡ [] }
    {
        self.len = 0;
    }
}
