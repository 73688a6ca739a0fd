//! Lines in bytes.
ghost use Rattle.std.specs.Prelude.{◌≡◌, ◌<◌, ◌+◌, ◌∷◌, length, take, drop, IfNone, IfSome, count_by};
ghost use Rattle.aprs_io.specs.Cut.{Lacks, is_byte};

use memchr::{memchr, memrchr};

/// How many bytes stand before the first LF, or `None` where there is no LF.
pub fn line_len(bytes: &[u8]) -> Option<usize>
    ensures some { IfSome result (λ n. (n < length bytes.now) × Lacks 10 (take n bytes.now)
        × (drop n bytes.now ≡ 10 ∷ drop (n + 1) bytes.now)) }
    ensures none { IfNone result (Lacks 10 bytes.now) }
{
    memchr(b'\n', bytes)
}

/// How many LFs there are.
pub fn count_lines(bytes: &[u8]) -> usize
    ensures { result ≡ count_by (is_byte 10) bytes.now }
{
    bytes.iter().filter(|byte| **byte == b'\n').count()
}

/// How many bytes stand before the last space, or `None` where there is no space.
pub fn last_space(bytes: &[u8]) -> Option<usize>
    ensures { IfSome result (λ n. (n < length bytes.now) × Lacks 32 (drop (n + 1) bytes.now)
        × (drop n bytes.now ≡ 32 ∷ drop (n + 1) bytes.now)) }
{
    memrchr(b' ', bytes)
}
