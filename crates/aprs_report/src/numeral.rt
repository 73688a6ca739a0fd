//! Numbers written in digits.

ghost use Rattle.std.specs.Prelude.{◌≡◌, ◌<◌, ◌≤◌, length, IfSome};
ghost use Rattle.aprs_report.specs.Numeral.{is_digit_of};
ghost use Rattle.aprs_report.specs.Reader.{numeral_of};

/// Whether the byte is a digit of the base, where `nought` is the digit 0, the byte after it is
/// 1, and so on.
fn is_digit_in(base: u32, nought: u8, byte: u8) -> bool
    ensures { result ≡ is_digit_of base nought byte }
{
    nought <= byte && ((byte - nought) as u32) < base
}

/// The number that up to four digits of a base spell, the most significant first, or `None` where
/// a byte is no digit of the base. `nought` is the digit 0. Without a byte the number is 0, and
/// in any case it is less than 91 to the power of 4, which is 68,574,961.
pub fn numeral(base: u32, nought: u8, text: &[u8]) -> Option<u32>
    requires base { base ≤ 91 }
    requires four { length text.now ≤ 4 }
    ensures exact { result ≡ numeral_of base nought text.now }
    ensures small { IfSome result (λ n. n < 68574961) }
{
    let mut n = 0;
    for byte in text {
        if !is_digit_in(base, nought, *byte) {
            return None;
        }
        n = n * base + (*byte - nought) as u32;
    }
    Some(n)
}
