//! Room for more.
ghost use Rattle.std.specs.Prelude.{◌≡◌, ◌<◌, ◌≤◌, ◌+◌, ◌*◌, ◌/◌, ◌⊎◌, ◌++◌, OnOk, OnErr, length, vec_len, vec_capacity};

use crate::Memory;
use std::alloc::Allocator;

/// Makes room for one more item. Where there is none, takes room for an eighth of the items and one
/// more, so that little memory lies idle. The items stay as they are, also after `Memory`.
pub(crate) fn reserve_one<T, A: Allocator>(items: &mut Vec<T, A>) -> Result<(), Memory>
    ensures items { items.new.items ≡ items.old.items }
    ensures room { OnOk result (vec_len items.new < vec_capacity items.new) }
    ensures bound { vec_capacity items.new ≤ vec_capacity items.old + vec_len items.old / 8 + 1 }
    ensures eighth { OnOk result ((vec_capacity items.new ≡ vec_capacity items.old)
        ⊎ (vec_len items.old + vec_len items.old / 8 < vec_capacity items.new)) }
{
    if items.len() < items.capacity() {
        return Ok(());
    }
    let more = items.len() / 8 + 1;
    items.reserve_exact(more)?;
    Ok(())
}

/// Makes room for `more` items after those that are there, which stay as they are, also after
/// `Memory`. Where there is none, takes room for as many again as there are, or for `more` if that
/// is more. So items that come one by one are moved less than twice each on average, however many
/// come.
pub(crate) fn reserve<T, A: Allocator>(items: &mut Vec<T, A>, more: usize) -> Result<(), Memory>
    ensures items { items.new.items ≡ items.old.items }
    ensures room { OnOk result (vec_len items.new + more ≤ vec_capacity items.new) }
    ensures doubled { OnOk result ((vec_capacity items.new ≡ vec_capacity items.old)
        ⊎ (2 * vec_len items.old ≤ vec_capacity items.new)) }
    ensures refused { OnErr result (vec_capacity items.old < vec_len items.old + more) }
{
    if more <= items.capacity() - items.len() {
        return Ok(());
    }
    items.reserve_exact(more.max(items.len()))?;
    Ok(())
}

/// Puts bytes after those that are there. Requires room for them, and so can't fail.
pub(crate) fn put<A: Allocator>(items: &mut Vec<u8, A>, more: &[u8])
    requires { vec_len items.old + length more.now ≤ vec_capacity items.old }
    ensures items { items.new.items ≡ items.old.items ++ more.now }
    ensures capacity { vec_capacity items.old ≤ vec_capacity items.new }
    ensures len { vec_len items.new ≡ vec_len items.old + length more.now }
{
    if items.extend_from_slice(more).is_err() {
        unreachable!()
    }
}
