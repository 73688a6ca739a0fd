//! Kinds of bytes, and the ends of byte lists.

ghost use Rattle.std.specs.Prelude.{◌≡◌, ◌≤◌, length};
ghost use Rattle.std.specs.Option.{option_map};
ghost use Rattle.aprs_report.specs.Bytes.{is_digit, is_capital, is_alphanumeric, is_printable};
ghost use Rattle.aprs_report.specs.Reader.{chunk_of, cut_end};

/// Whether the byte is `0` to `9`.
pub fn is_digit_byte(byte: u8) -> bool
    ensures { result ≡ is_digit byte }
{
    byte.is_ascii_digit()
}

/// Whether the byte is `A` to `Z`.
pub fn is_capital_byte(byte: u8) -> bool
    ensures { result ≡ is_capital byte }
{
    byte.is_ascii_uppercase()
}

/// Whether the byte is a letter of either case or a digit.
pub fn is_alphanumeric_byte(byte: u8) -> bool
    ensures { result ≡ is_alphanumeric byte }
{
    byte.is_ascii_alphanumeric()
}

/// Whether the byte is a space to `~`.
pub fn is_printable_byte(byte: u8) -> bool
    ensures { result ≡ is_printable byte }
{
    b' ' <= byte && byte <= b'~'
}

/// The first `N` bytes and the rest, or `None` where there are fewer than `N`.
pub fn chunk<const N: usize>(bytes: &[u8]) -> Option<(&[u8; N], &[u8])>
    ensures { option_map (λ x. (x.0.now, x.1.now)) result ≡ chunk_of N bytes.now }
{
    bytes.split_first_chunk::<N>()
}

/// Which bytes are cut off at the end of others.
#[derive(Clone, Copy)]
pub enum Trailing {
    /// Spaces.
    Spaces,
    /// CR and LF.
    LineEnds,
}

impl Trailing {
    ghost use Rattle.aprs_report.specs.TrailingBytes.{is_trailing};

    /// Whether the byte is of this kind: a space for `Spaces`, CR or LF for `LineEnds`.
    fn has(self, byte: u8) -> bool
        ensures { result ≡ is_trailing self byte }
    {
        match self {
            Trailing::Spaces => byte == b' ',
            Trailing::LineEnds => byte == b'\r' || byte == b'\n',
        }
    }

    /// The bytes without all those of this kind at their end.
    pub fn cut(self, bytes: &[u8]) -> &[u8]
        ensures exact { result.now ≡ cut_end (is_trailing self) bytes.now }
        ensures short { length result.now ≤ length bytes.now }
    {
        let mut rest = bytes;
        while let [shorter @ .., last] = rest {
            if !self.has(*last) {
                return rest;
            }
            rest = shorter;
        }
        rest
    }
}
