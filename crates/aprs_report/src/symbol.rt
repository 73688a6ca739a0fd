//! Symbols.

ghost use Rattle.std.specs.Prelude.{◌≡◌};
ghost use Rattle.std.specs.Option.{option_map};
ghost use Rattle.aprs_report.specs.Symbol.{is_table, is_code};
ghost use Rattle.aprs_report.specs.Reader.{byte_where, table_of_byte, table_at};

use crate::bytes::{is_capital_byte, is_digit_byte};

/// What a station or object is shown as on a map (APRS Protocol Reference 1.0.1, chapter 20).
#[derive(Clone, Copy, Debug, PartialEq, Eq)]
pub struct Symbol {
    /// `/`, `\`, or a digit or capital that lies over a symbol of `\`.
    pub table: u8,
    /// `!` to `~`.
    pub code: u8,
}

/// Whether the byte names a table of symbols in a plain position.
fn is_table_byte(byte: u8) -> bool
    ensures { result ≡ is_table byte }
{
    byte == b'/' || byte == b'\\' || is_digit_byte(byte) || is_capital_byte(byte)
}

/// Whether the byte is the code of a symbol.
fn is_code_byte(byte: u8) -> bool
    ensures { result ≡ is_code byte }
{
    b'!' <= byte && byte <= b'~'
}

/// The first byte, which names a table of symbols as in a plain position, and the rest. `None`
/// where it names no table, or where there is no byte.
pub fn table_at_start(bytes: &[u8]) -> Option<(u8, &[u8])>
    ensures { option_map (λ x. (x.0, x.1.now)) result ≡ byte_where is_table bytes.now }
{
    match bytes {
        [table, rest @ ..] if is_table_byte(*table) => Some((*table, rest)),
        _ => None,
    }
}

/// The first byte, which is the code of a symbol, and the rest. `None` where it is no code, or
/// where there is no byte.
pub fn code_at_start(bytes: &[u8]) -> Option<(u8, &[u8])>
    ensures { option_map (λ x. (x.0, x.1.now)) result ≡ byte_where is_code bytes.now }
{
    match bytes {
        [code, rest @ ..] if is_code_byte(*code) => Some((*code, rest)),
        _ => None,
    }
}

/// The table of symbols that a byte of a compressed position stands for: `a` to `j` for `0` to
/// `9`, and `/`, `\` and `A` to `Z` for themselves. `None` for any other byte.
fn table_by_name(byte: u8) -> Option<u8>
    ensures { result ≡ table_of_byte byte }
{
    match byte {
        b'a'..=b'j' => Some(byte - b'a' + b'0'),
        b'/' | b'\\' | b'A'..=b'Z' => Some(byte),
        _ => None,
    }
}

/// The table of symbols that the first byte stands for in a compressed position, and the rest.
/// `None` where it stands for no table, or where there is no byte.
#[tactic(auto, unfolding(crate::specs::Reader::table_at))]
pub fn compressed_table_at_start(bytes: &[u8]) -> Option<(u8, &[u8])>
    ensures { option_map (λ x. (x.0, x.1.now)) result ≡ table_at bytes.now }
{
    match bytes {
        [] => None,
        [name, rest @ ..] => {
            let table = table_by_name(*name)?;
            Some((table, rest))
        }
    }
}
