//! Texts that are cut at a byte.
ghost use Rattle.std.specs.Prelude.{◌≡◌, ◌+◌, ◌∷◌, ◌++◌, [], length, IfNone, IfSome};
ghost use Rattle.aprs_bookfile.specs.Lines.{pieces};
ghost use Rattle.aprs_io.specs.Cut.{Lacks};

use memchr::memchr;

/// What stands before the first `stop` in a text and what stands after it, or `None` where the text
/// has no such byte.
pub fn cut(text: &[u8], stop: u8) -> Option<(&[u8], &[u8])>
    ensures some { IfSome result (λ p. (text.now ≡ p.0.now ++ stop ∷ p.1.now)
        × Lacks stop p.0.now) }
    ensures len { IfSome result (λ p. length p.0.now + 1 + length p.1.now ≡ length text.now) }
    ensures none { IfNone result (Lacks stop text.now) }
{
    match memchr(stop, text) {
        Some(i) => Some((&text[..i], &text[i + 1..])),
        None => None,
    }
}

/// What stands before the first `stop` in a text and what stands after it, or `None` where the text
/// has no such byte. For a text that mostly has it near its start, as one that begins with a name:
/// a plain loop finds it sooner than `memchr`.
pub fn cut_near(text: &[u8], stop: u8) -> Option<(&[u8], &[u8])>
    ensures some { IfSome result (λ p. (text.now ≡ p.0.now ++ stop ∷ p.1.now)
        × Lacks stop p.0.now) }
    ensures pieces { IfSome result (λ p. pieces stop text.now ≡ p.0.now ∷ pieces stop p.1.now) }
    ensures len { IfSome result (λ p. length p.0.now + 1 + length p.1.now ≡ length text.now) }

    ensures none { IfNone result (Lacks stop text.now) }
    ensures one { IfNone result (pieces stop text.now ≡ text.now ∷ []) }
{
    for i in 0..text.len() {
        if text[i] == stop {
            return Some((&text[..i], &text[i + 1..]));
        }
    }
    None
}
