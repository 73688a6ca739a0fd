//! Texts that are cut at a byte.
ghost use Rattle.std.specs.Prelude.{◌≡◌};
ghost use Rattle.std.specs.List.{position_or_len};
ghost use Rattle.std.specs.Option.{option_map};
ghost use Rattle.aprs_io.specs.Cut.{cut_at, cut_of, is_byte};

use memchr::memchr;

/// The bytes before the first `stop` and the bytes after it, or `None` where the text has no such
/// byte. Takes no memory.
pub fn cut_at(text: &[u8], stop: u8) -> Option<(&[u8], &[u8])>
    ensures { option_map cut_of result ≡ cut_at stop text.now }
{
    let len = len_before(text, stop);
    if len < text.len() {
        Some((&text[..len], &text[len + 1..]))
    } else {
        None
    }
}

/// How many bytes stand before the first `stop`, or the text's length where it has no such byte.
fn len_before(text: &[u8], stop: u8) -> usize
    ensures { result ≡ position_or_len (is_byte stop) text.now }
{
    memchr(stop, text).unwrap_or(text.len())
}
