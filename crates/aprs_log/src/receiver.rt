//! Names of receivers.
ghost use Rattle.std.specs.Prelude.{◌≡◌, List, ℕ, Some, SomeIff};
ghost use Rattle.std.specs.Fmt.{styled_text};
ghost use Rattle.std.specs.List.{list_all};
ghost use Rattle.std.specs.Ordering.{as_partial_cmp};
ghost use Rattle.std.proofs.Common.{rules};
ghost use Rattle.std.specs.Cmp.{partial_order_from_own_ties};
ghost use Rattle.std.specs.Cmp.Rules.{comparing};
ghost use Rattle.aprs_log.specs.Receiver.{IsName, is_receiver, is_name_byte};
ghost use Rattle.aprs_log.specs.Reception.{bytes_cmp};

use aprs_io::copy_bytes;
use arrayvec::ArrayVec;
use std::cmp::Ordering;
use std::fmt;
use std::marker::Model;

/// The most bytes of a receiver's name.
pub(crate) const MAX_NAME: usize = 16;

/// The name of a receiver: 1 to 16 letters, digits, `-` and `_`. Names are ordered by their bytes.
#[derive(Debug, PartialEq, Eq, Drop)]
pub struct Receiver {
    bytes: ArrayVec<u8, MAX_NAME>,
}

impl Model for Receiver {
    ghost Value = { List ℕ };

    ghost view = { λ r. r.bytes.items };

    ghost invariant = { λ r. IsName r.bytes.items };

    ghost inverse = { λ bytes. record { bytes = record { items = bytes } } };
}

impl Receiver {
    /// The receiver of this name, or `None` where the bytes aren't 1 to 16 ASCII letters, digits,
    /// `-` and `_`. Takes no memory.
    pub fn parse(bytes: &[u8]) -> Option<Receiver>
        ensures { SomeIff result (IsName bytes.now) bytes.now }
    {
        if is_receiver(bytes) {
            Some(Receiver::with_name(bytes))
        } else {
            None
        }
    }

    /// The receiver of this name. Requires that the bytes are a name; `parse` takes any.
    /// Takes no memory.
    pub fn with_name(bytes: &[u8]) -> Receiver
        requires { IsName bytes.now }
        ensures { result ≡ bytes.now }
    {
        match ArrayVec::try_from(bytes) {
            Ok(bytes) => Receiver { bytes },
            Err(_) => unreachable!(),
        }
    }

    /// The bytes of the name, 1 to 16 of ASCII. Takes no memory.
    pub fn as_bytes(&self) -> &[u8]
        ensures value { result.now ≡ self.now }
        ensures name { IsName self.now }
    {
        self.bytes.as_slice()
    }

    /// The same name. Takes no memory.
    pub fn copy(&self) -> Receiver
        ensures { result ≡ self.now }
    {
        Receiver {
            bytes: copy_bytes(&self.bytes),
        }
    }
}

/// Writes the name, padded or cut as a text is, as `{:<16}` or `{:.3}` asks.
impl fmt::Display for Receiver {
    ghost output = { λ name. Some name };

    ghost styled_output = { λ name options. Some (styled_text options name) };

    fn fmt<W: fmt::Write>(&self, f: &mut fmt::Formatter<W>) -> fmt::Result {
        match str::from_utf8(self.as_bytes()) {
            Ok(text) => f.pad(text),
            Err(_) => unreachable!(),
        }
    }
}

impl Ord for Receiver {
    ghost cmp = { bytes_cmp };

    ghost total = { Prim.search (comparing, rules) };

    ghost matches_partial_cmp = { Prim.search (comparing, rules) };

    ghost matches_eq = { Prim.search (comparing, rules) };

    fn cmp(&self, other: &Receiver) -> Ordering {
        self.bytes.cmp(&other.bytes)
    }
}

impl PartialOrd for Receiver {
    ghost partial_cmp = { as_partial_cmp bytes_cmp };

    ghost laws = { partial_order_from_own_ties (Prim.search (comparing, rules))
        (Prim.search (comparing, rules)) };

    fn partial_cmp(&self, other: &Receiver) -> Option<Ordering> {
        Some(self.cmp(other))
    }
}

/// Whether the bytes are a receiver's name: 1 to 16 letters, digits, `-` and `_`.
fn is_receiver(bytes: &[u8]) -> bool
    ensures { result ≡ is_receiver bytes.now }
{
    matches!(bytes.len(), 1..=MAX_NAME) && are_name_bytes(bytes)
}

/// Whether each of the bytes may be in a name.
fn are_name_bytes(bytes: &[u8]) -> bool
    ensures { result ≡ list_all is_name_byte bytes.now }
{
    bytes.iter().all(|b| is_name_byte(*b))
}

/// Whether a byte may be in a name: an ASCII letter, a digit, `-` or `_`.
pub(crate) fn is_name_byte(byte: u8) -> bool
    ensures { result ≡ is_name_byte byte }
{
    byte.is_ascii_alphanumeric() || byte == b'-' || byte == b'_'
}
