//! A line of output, while it is put together.
ghost use Rattle.std.specs.Prelude.{◌≡◌, ◌+◌, ◌*◌, ◌≤◌, ◌++◌, length};
ghost use Rattle.std.specs.Fmt.{decimal};
ghost use Rattle.arrayvec.specs.ArrayVec.{array_vec_len};
ghost use Rattle.aprs_io.specs.Shown.{shown_text};

use aprs_io::{are_shown, push_all, shown_byte};
use arrayvec::ArrayVec;

/// The most bytes of a line that is put together before it is written.
pub const MAX_TEXT: usize = 1200;

/// A line of output, while it is put together. It takes no memory.
pub type Text = ArrayVec<u8, MAX_TEXT>;

/// Puts what the bytes are shown as at the end of `out`: 1 or 4 bytes for each, as `shown_byte`
/// returns them. Requires room for 4 bytes for each.
pub fn push_shown(out: &mut Text, bytes: &[u8])
    requires { array_vec_len out.old + 4 * length bytes.now ≤ MAX_TEXT }
    ensures shown { out.new.items ≡ out.old.items ++ shown_text bytes.now }
    ensures most { array_vec_len out.new ≤ array_vec_len out.old + 4 * length bytes.now }
{
    if are_shown(bytes) {
        push_all(out, bytes);
    } else {
        push_escaped(out, bytes);
    }
}

/// Puts what the bytes are shown as at the end of `out`, one byte after the other.
fn push_escaped(out: &mut Text, bytes: &[u8])
    requires { array_vec_len out.old + 4 * length bytes.now ≤ MAX_TEXT }
    ensures shown { out.new.items ≡ out.old.items ++ shown_text bytes.now }
    ensures most { array_vec_len out.new ≤ array_vec_len out.old + 4 * length bytes.now }
{
    for b in bytes {
        push_all(out, shown_byte(*b).as_slice());
    }
}

/// Puts the number at the end, in decimal: at most 20 digits. Requires room for 20.
pub fn push_decimal(out: &mut Text, n: u64)
    requires { array_vec_len out.old + 20 ≤ MAX_TEXT }
    ensures decimal { out.new.items ≡ out.old.items ++ decimal n }
    ensures most { array_vec_len out.new ≤ array_vec_len out.old + 20 }
{
    push_all(out, itoa::Buffer::new().format(n).as_bytes());
}
