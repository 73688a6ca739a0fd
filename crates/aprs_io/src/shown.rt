//! Bytes as texts show them.
ghost use Rattle.std.specs.Prelude.{◌≡◌, ◌+◌, ◌≤◌, ◌++◌, ◌∷◌, []};
ghost use Rattle.std.specs.List.{list_all};
ghost use Rattle.arrayvec.specs.ArrayVec.{array_vec_len};
ghost use Rattle.hex.specs.Hex.{encode_lower};
ghost use Rattle.aprs_io.specs.Outlet.{Puts};
ghost use Rattle.aprs_io.specs.Shown.{is_shown_as_is, shown_byte, shown_text};

use crate::byte_vectors::push_all;
use crate::device::WriteFault;
use crate::outlet::Outlet;
use arrayvec::ArrayVec;
use std::io::Write;

/// Whether `shown_byte` shows each of the bytes as itself; `true` where there are no bytes. Then
/// they can be put as they are, in one piece. Takes no memory.
pub fn are_shown(bytes: &[u8]) -> bool
    ensures { result ≡ list_all is_shown_as_is bytes.now }
{
    // No early end, so that many bytes are looked at in one step.
    let mut all = true;
    for b in bytes {
        all &= is_shown_as_is(*b);
    }
    all
}

/// What the byte is shown as: itself where it is 0x20 to 0x7E and no backslash, and else a
/// backslash, `x` and two lower case hexadecimal digits. Takes no memory.
pub fn shown_byte(b: u8) -> ArrayVec<u8, 4>
    ensures { result.items ≡ shown_byte b }
{
    let mut text = ArrayVec::new();
    if is_shown_as_is(b) {
        text.push(b);
    } else {
        text.push(b'\\');
        text.push(b'x');
        push_hex(&mut text, b);
    }
    text
}

/// Puts each of the bytes into the outlet as `shown_byte` shows it. At a fault a prefix of what the
/// outlet held and of this text went out, the rest is lost, and the outlet holds nothing. Takes no
/// memory.
pub fn put_shown<W: Write>(out: &mut Outlet<'_, W>, bytes: &[u8]) -> Result<(), WriteFault>
    ensures { Puts W.contents result out.old out.new (shown_text bytes.now) }
{
    if are_shown(bytes) {
        return out.put(bytes);
    }
    for b in bytes {
        out.put(shown_byte(*b).as_slice())?;
    }
    Ok(())
}

/// Whether the byte is shown as itself: it is 0x20 to 0x7E and no backslash.
fn is_shown_as_is(b: u8) -> bool
    ensures { result ≡ is_shown_as_is b }
{
    (b' '..=b'~').contains(&b) && b != b'\\'
}

/// Puts the byte's two lower case hexadecimal digits at the end.
fn push_hex(out: &mut ArrayVec<u8, 4>, b: u8)
    requires { array_vec_len out.old + 2 ≤ 4 }
    ensures { out.new.items ≡ out.old.items ++ encode_lower (b ∷ []) }
{
    let mut digits = [0; 2];
    if hex::encode_to_slice([b], &mut digits).is_err() {
        unreachable!()
    }
    push_all(out, &digits);
}
