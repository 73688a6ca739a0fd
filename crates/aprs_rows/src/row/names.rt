//! Names of receivers in texts.
ghost use Rattle.std.specs.Prelude.{◌≡◌, ◌<◌, ◌++◌, ◌∷◌, [], All, length, IfNone, IfSome, OnOk};
ghost use Rattle.std.specs.List.{join_with_byte, flat_map};
ghost use Rattle.aprs_log.specs.Receiver.{IsName};
ghost use Rattle.aprs_rows.specs.Names.{names_in};

use crate::Memory;
use aprs_log::Receiver;
use memchr::memchr;
use std::alloc::Allocator;

/// The first name of a text and what stands after the comma behind it, or `None` where the text has
/// no comma, so that it is one name.
pub(crate) fn cut_name(text: &[u8]) -> Option<(&[u8], &[u8])>
    ensures some { IfSome result (λ p. names_in text.now ≡ p.0.now ∷ names_in p.1.now) }
    ensures none { IfNone result (names_in text.now ≡ text.now ∷ []) }
    ensures shorter { IfSome result (λ p. length p.1.now < length text.now) }
{
    match memchr(b',', text) {
        Some(i) => Some((&text[..i], &text[i + 1..])),
        None => None,
    }
}

/// Writes names over the text, with commas between. After `Memory` a part of them may stand there.
/// For the crates of this repository.
pub fn put_names<A: Allocator>(text: &mut Vec<u8, A>, names: &[Receiver]) -> Result<(), Memory>
    ensures text { OnOk result (text.new.items ≡ join_with_byte 44 names.now) }
    ensures names { OnOk result (All IsName names.now) }
{
    text.clear();
    let Some((first, others)) = names.split_first() else {
        return Ok(());
    };
    put(text, first.as_bytes())?;
    put_further_names(text, others)
}

/// Puts names after the text that is there, with a comma before each.
fn put_further_names<A: Allocator>(text: &mut Vec<u8, A>, names: &[Receiver]) -> Result<(), Memory>
    ensures text { OnOk result (text.new.items
        ≡ text.old.items ++ flat_map (λ name. 44 ∷ name) names.now) }
    ensures names { OnOk result (All IsName names.now) }
{
    for name in names {
        put(text, b",")?;
        put(text, name.as_bytes())?;
    }
    Ok(())
}

/// Puts bytes after the text that is there.
fn put<A: Allocator>(text: &mut Vec<u8, A>, bytes: &[u8]) -> Result<(), Memory>
    ensures { OnOk result (text.new.items ≡ text.old.items ++ bytes.now) }
{
    text.extend_from_slice(bytes)?;
    Ok(())
}
