//! Bytes in hexadecimal.
ghost use Rattle.std.specs.Prelude.{◌≡◌, ◌≢◌, ◌≤◌, ◌<◌, ◌+◌, ◌*◌, ◌++◌, ◌/◌, ◌%◌, ℕ, List, take, drop, length, slice_index, true, false, Ok, Some, MatchBool, MatchOption, MatchResult, IsOk};
ghost use Rattle.std.specs.Bool.{OnTrue};
ghost use Rattle.hex.specs.Hex.{IsBytes, decode_of, encode_lower, hex_digit_value, lower_digits};
ghost use Rattle.aprs_io.specs.Hexadecimal.{HoldsByte, HoldsDigits, HoldsValue, byte_of};

/// How many bytes are read or written in a step.
const BLOCK: usize = 16;

/// Decodes hexadecimal digits, with letters in either case, to the start of `room`, which has to
/// have room for their bytes, and returns how many bytes they are. `None` where the text has
/// another byte or an odd number of digits; then too the first half as many bytes of `room` as the
/// text has may have changed. The bytes after these stay. Takes no memory.
pub fn decode_into(text: &[u8], room: &mut [u8]) -> Option<usize>
    requires { length text.now ≤ 2 * length room.old }
    ensures bytes { MatchOption result (¬ IsOk (decode_of text.now))
        (λ n. (n ≤ length room.new) × (decode_of text.now ≡ Ok (take n room.new))) }
    ensures stays { let n = length text.now / 2 in drop n room.new ≡ drop n room.old }
{
    let Some(len) = count_pairs(text) else {
        return None;
    };
    decode_to(text, &mut room[..len]).then_some(len)
}

/// Decodes lower case digits to the start of `room`, which has to have room for their bytes, and
/// returns how many bytes they are. `None` where the text has a capital letter, another byte that
/// is no digit, or an odd number of digits; then too the first half as many bytes of `room` as the
/// text has may have changed. The bytes after these stay. Takes no memory.
pub fn decode_lower_into(text: &[u8], room: &mut [u8]) -> Option<usize>
    requires { length text.now ≤ 2 * length room.old }
    ensures bytes { MatchOption result
        ((bytes : List ℕ) → IsBytes bytes → text.now ≢ encode_lower bytes)
        (λ n. (n ≤ length room.new) × (text.now ≡ encode_lower (take n room.new))) }
    ensures stays { let n = length text.now / 2 in drop n room.new ≡ drop n room.old }
{
    let Some(len) = count_pairs(text) else {
        return None;
    };
    decode_lower_to(text, &mut room[..len]).then_some(len)
}

/// Half the length of a text, or `None` where the length is odd. Its bytes aren't looked at.
fn count_pairs(text: &[u8]) -> Option<usize>
    ensures { MatchOption result (¬ (length text.now % 2 ≡ 0)) (λ n. length text.now ≡ 2 * n) }
{
    if text.len().is_multiple_of(2) {
        Some(text.len() / 2)
    } else {
        None
    }
}

/// Writes the lower case digits of `bytes`, two for each, to `out` from `at` on, over what is
/// there, and returns the place after them. The other bytes of `out` stay. Takes no memory.
pub fn put_hex(out: &mut [u8], at: usize, bytes: &[u8]) -> usize
    requires { at + 2 * length bytes.now ≤ length out.old }

    ensures end { result ≡ at + 2 * length bytes.now }
    ensures digits { take result out.new ≡ take at out.old ++ encode_lower bytes.now }
    ensures bytes { IsBytes bytes.now }

    ensures len { length out.new ≡ length out.old }
    ensures stays { drop result out.new ≡ drop result out.old }
{
    let end = at + 2 * bytes.len();
    encode_to(bytes, &mut out[at..end]);
    end
}

/// Fills `digits` with the lower case digits of `bytes`, two for each: block by block, where the
/// last block may overlap the one before it, or byte by byte where there are fewer than a block.
fn encode_to(bytes: &[u8], digits: &mut [u8])
    requires { length digits.old ≡ 2 * length bytes.now }
    ensures { digits.new ≡ encode_lower bytes.now }
{
    let len = bytes.len();
    if len < BLOCK {
        encode_few(bytes, digits);
        return;
    }
    'blocks: for i in 0..len.div_ceil(BLOCK) {
        encode_block(bytes, digits, (BLOCK * i).min(len - BLOCK));
    }
}

/// Fills `digits` with the lower case digits of `bytes`, two for each, byte by byte.
fn encode_few(bytes: &[u8], digits: &mut [u8])
    requires { length digits.old ≡ 2 * length bytes.now }
    ensures { digits.new ≡ encode_lower bytes.now }
{
    'bytes: for i in 0..bytes.len() {
        let byte = bytes[i];
        digits[2 * i] = digit_of(byte / 16);
        digits[2 * i + 1] = digit_of(byte % 16);
    }
}

/// Writes the digits of the 16 bytes from `at` on to their place in `digits`; the digits before
/// them stay. They are made in an array of their own, so that many of them are made in one step
/// of the processor.
#[inline(always)]
fn encode_block(bytes: &[u8], digits: &mut [u8], at: usize)
    requires len { length digits.old ≡ 2 * length bytes.now }
    requires room { at + BLOCK ≤ length bytes.now }

    ensures digits { (k : ℕ) → at ≤ k → k < at + BLOCK → HoldsDigits bytes.now digits.new k }

    ensures len { length digits.new ≡ length digits.old }
    ensures kept { (k : ℕ) → k < 2 * at → slice_index digits.new k ≡ slice_index digits.old k }
{
    let mut block = [0; 2 * BLOCK];
    put_digits(&bytes[at..at + BLOCK], &mut block);
    digits[2 * at..2 * at + 2 * BLOCK].copy_from_slice(&block);
}

/// Fills `digits` with the digits of the 16 bytes of a block. Each byte is put twice first, so
/// that all digits are made alike, which the compiler does in fewer steps.
#[inline(always)]
fn put_digits(bytes: &[u8], digits: &mut [u8; 32])
    requires { length bytes.now ≡ BLOCK }
    ensures { (j : ℕ) → j < BLOCK → HoldsDigits bytes.now digits.new j }
{
    let mut twice = [0; 2 * BLOCK];
    'bytes: for j in 0..BLOCK {
        twice[2 * j] = bytes[j];
        twice[2 * j + 1] = bytes[j];
    }
    'digits: for k in 0..2 * BLOCK {
        digits[k] = digit_of(half_of(twice[k], k));
    }
}

/// The half of a byte that digit `k` stands for: the high four bits where `k` is even, or else
/// the low four.
#[inline(always)]
fn half_of(byte: u8, k: usize) -> u8
    ensures small { result < 16 }
    ensures even { k % 2 ≡ 0 → result ≡ byte / 16 }
    ensures odd { k % 2 ≡ 1 → result ≡ byte % 16 }
{
    if k.is_multiple_of(2) {
        byte / 16
    } else {
        byte % 16
    }
}

/// The lower case digit of a value.
#[inline(always)]
fn digit_of(value: u8) -> u8
    requires { value < 16 }
    ensures { result ≡ slice_index lower_digits value }
{
    if value < 10 {
        value + b'0'
    } else {
        value - 10 + b'a'
    }
}

/// Fills `out` with the bytes of hexadecimal digits, in either case, and returns whether the text
/// is digits alone. At `false` what `out` holds means nothing. Where the fast look of
/// `decode_digits` says no, the crate `hex` decides.
fn decode_to(text: &[u8], out: &mut [u8]) -> bool
    requires { length text.now ≡ 2 * length out.old }
    ensures { MatchResult (decode_of text.now) (λ bytes. (result ≡ true) × (out.new ≡ bytes))
        (λ e. result ≡ false) }
{
    decode_digits(text, out, false) || hex::decode_to_slice(text, out).is_ok()
}

/// Fills `out` with the bytes of lower case digits, and returns whether the text is such digits
/// alone. At `false` what `out` holds means nothing. Where the fast look of `decode_digits` says
/// no, a look byte by byte decides.
fn decode_lower_to(text: &[u8], out: &mut [u8]) -> bool
    requires { length text.now ≡ 2 * length out.old }
    ensures bytes { MatchBool result (text.now ≡ encode_lower out.new)
        ((bytes : List ℕ) → IsBytes bytes → text.now ≢ encode_lower bytes) }
    ensures len { length out.new ≡ length out.old }
{
    decode_digits(text, out, true) || decode_few(text, out)
}

/// Fills `out` with the bytes of lower case digits, byte by byte, and returns whether the text is
/// such digits alone. At `false` what `out` holds means nothing.
#[inline(never)]
fn decode_few(text: &[u8], out: &mut [u8]) -> bool
    requires { length text.now ≡ 2 * length out.old }
    ensures bytes { MatchBool result (text.now ≡ encode_lower out.new)
        ((bytes : List ℕ) → IsBytes bytes → text.now ≢ encode_lower bytes) }
    ensures len { length out.new ≡ length out.old }
{
    'bytes: for i in 0..out.len() {
        let high = value_of(text[2 * i], true);
        let low = value_of(text[2 * i + 1], true);
        if high > 15 || low > 15 {
            return false;
        }
        out[i] = high * 16 + low;
    }
    true
}

/// Fills `out` with the bytes of hexadecimal digits, and returns whether the text is digits
/// alone; if `lower`, a capital letter is no digit. It goes block by block, where the last block
/// may overlap the one before it, and says `false` of any text that is shorter than a block. At
/// `false` what `out` holds means nothing.
#[inline(always)]
fn decode_digits(text: &[u8], out: &mut [u8], lower: bool) -> bool
    requires { length text.now ≡ 2 * length out.old }
    ensures bytes { OnTrue result (decode_of text.now ≡ Ok out.new) }
    ensures lower { lower ≡ true → OnTrue result (text.now ≡ encode_lower out.new) }
    ensures len { length out.new ≡ length out.old }
{
    let len = out.len();
    if len < BLOCK {
        return false;
    }
    'blocks: for i in 0..len.div_ceil(BLOCK) {
        let at = (BLOCK * i).min(len - BLOCK);
        if !decode_block(text, out, at, lower) {
            return false;
        }
    }
    true
}

/// Decodes the digits of the 16 bytes from `at` on to their place in `out`, and returns whether
/// all are digits; if `lower`, a capital letter is none. At `false` these 16 bytes mean nothing.
/// The bytes before them stay.
#[inline(always)]
fn decode_block(text: &[u8], out: &mut [u8], at: usize, lower: bool) -> bool
    requires len { length text.now ≡ 2 * length out.old }
    requires room { at + BLOCK ≤ length out.old }

    ensures bytes { OnTrue result ((k : ℕ) → at ≤ k → k < at + BLOCK
        → HoldsByte text.now out.new k) }
    ensures lower { lower ≡ true → OnTrue result ((k : ℕ) → at ≤ k → k < at + BLOCK
        → HoldsDigits out.new text.now k) }

    ensures len { length out.new ≡ length out.old }
    ensures kept { (k : ℕ) → k < at → slice_index out.new k ≡ slice_index out.old k }
{
    let mut values = [0; 2 * BLOCK];
    let are_digits = put_values(&text[2 * at..2 * at + 2 * BLOCK], &mut values, lower);
    put_bytes(&values, &mut out[at..at + BLOCK]);
    are_digits
}

/// Fills `values` with the value of each digit, and returns whether all are digits; if `lower`, a
/// capital letter is none. The value of another byte is 255. There is no early end, so that many
/// are looked at in one step of the processor.
#[inline(always)]
fn put_values(digits: &[u8], values: &mut [u8; 32], lower: bool) -> bool
    requires { length digits.now ≡ 2 * BLOCK }
    ensures value { OnTrue result ((j : ℕ) → j < 2 * BLOCK → HoldsValue digits.now values.new j) }
    ensures lower { lower ≡ true → OnTrue result ((j : ℕ) → j < 2 * BLOCK
        → slice_index digits.now j ≡ slice_index lower_digits (slice_index values.new j)) }
{
    let mut most = 0;
    'digits: for j in 0..2 * BLOCK {
        let value = value_of(digits[j], lower);
        most = value.max(most);
        values[j] = value;
    }
    most < 16
}

/// Fills `out` with the byte of each pair of values: the first value is its high half, the second
/// its low half. Where a value is 255, which no digit has, the byte means nothing.
#[inline(always)]
fn put_bytes(values: &[u8; 32], out: &mut [u8])
    requires { length out.old ≡ BLOCK }
    ensures len { length out.new ≡ BLOCK }
    ensures bytes { (j : ℕ) → j < BLOCK → slice_index out.new j
        ≡ byte_of (slice_index values.now (2 * j)) (slice_index values.now (2 * j + 1)) }
{
    'bytes: for j in 0..BLOCK {
        out[j] = values[2 * j]
            .wrapping_mul(16)
            .wrapping_add(values[2 * j + 1]);
    }
}

/// The value of a digit, and 255 for another byte. If `lower`, a capital letter is no digit.
#[inline(always)]
fn value_of(byte: u8, lower: bool) -> u8
    ensures value { result < 16 → hex_digit_value byte ≡ Some result }
    ensures lower { lower ≡ true → result < 16 → byte ≡ slice_index lower_digits result }
    ensures other { lower ≡ true → 16 ≤ result → (v : ℕ) → v < 16
        → byte ≢ slice_index lower_digits v }
{
    let number = byte.wrapping_sub(b'0');
    // Bit 5 is set in a small letter and clear in a capital.
    let small = if lower { byte } else { byte | 0x20 };
    let letter = small.wrapping_sub(b'a');
    if number < 10 {
        number
    } else if letter < 6 {
        letter + 10
    } else {
        255
    }
}
