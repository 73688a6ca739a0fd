//! Arenas that are almost full.

use bumpalo::Bump;
use std::alloc::Global;
use std::mem::forget;
use std::test::Fail;

/// Takes all room of an arena but for so many units of 128 bytes, and refuses any growth beyond. It
/// fails where memory is refused.
pub fn squeeze(bump: &Bump, units: usize) -> Result<Vec<u8, &Bump>, Fail> {
    bump.set_allocation_limit(Some(0));
    let mut fill = Vec::new(bump);
    let room = units.saturating_mul(128);
    fill.reserve(bump.chunk_capacity().saturating_sub(room))?;
    Ok(fill)
}

/// An arena that has room for so many units of 64 bytes, and refuses the growth that would take it
/// beyond until its limit is lifted.
pub fn arena(alloc: Global, units: usize) -> Result<Bump, Fail> {
    let room = units.saturating_mul(64);
    let bump = Bump::try_with_capacity(alloc, room)?;
    bump.set_allocation_limit(Some(0));
    let mut beyond: Vec<u8, &Bump> = Vec::new(&bump);
    beyond.reserve(bump.chunk_capacity().saturating_sub(room))?;
    // It stays taken.
    forget(beyond);
    Ok(bump)
}
