//! The allocator.
ghost use Rattle.std.specs.Prelude.{◌≡◌, ◌<◌, ◌^◌, IfSome};
ghost use Rattle.aprs_arena.specs.Room.{to_give_back, units_for};

use crate::region::{Region, UNIT};
use std::alloc::{AllocError, Allocator};
use std::cell::Cell;

/// How many classes of blocks there are: one for each power of two of units.
const CLASSES: usize = 64;

/// An allocator of a region of memory. Each block begins at a multiple of 16. Blocks that
/// collections give back fall into classes, from one power of two of units up to the next. The
/// arena keeps the largest of each class for later use, and the others are lost. Where none that it
/// keeps is long enough, a block is taken from the front of what was never used. If that is too
/// short, the allocation fails, and a shorter one may still succeed. Collections hold a `&` to the
/// arena.
#[derive(Drop)]
pub struct Arena {
    left: Cell<Option<Region>>,
    freed: [Cell<Option<Freed>>; CLASSES],
}

/// A block that came back, and how many units it has.
#[derive(Drop)]
struct Freed {
    units: usize,
    block: Region,
}

impl Arena {
    /// An arena of all of this region. Takes no memory.
    pub fn over(region: Region) -> Arena {
        Arena {
            left: Cell::new(Some(region)),
            freed: std::array::from_fn(|_| Cell::new(None)),
        }
    }

    /// Takes a block for `size` bytes, if there is room. For 2^63 bytes or more there is none.
    fn take(&self, size: usize) -> Option<Region>
        ensures { IfSome result (λ block. (block.units ≡ units_for size) × (size < 2 ^ 63)) }
    {
        if size > isize::MAX as usize {
            return None;
        }
        let units = units_of(size);
        match self.take_freed(units) {
            Some(block) => Some(block),
            None => self.take_left(units),
        }
    }

    /// Takes so many units from the front of a block that came back, the first that is found from
    /// the class of as many units on. `None` where none of these is long enough.
    fn take_freed(&self, units: usize) -> Option<Region>
        requires { units < 2 ^ 60 }
        ensures { IfSome result (λ block. block.units ≡ units) }
    {
        let freed = &self.freed[..];
        for cell in &freed[class_of(units)..] {
            let Some(Freed { units: all, block }) = cell.replace(None) else {
                continue;
            };
            match block.cut(units) {
                Ok((block, rest)) => {
                    self.keep(rest, all.saturating_sub(units));
                    return Some(block);
                }
                Err(block) => cell.set(Some(Freed { units: all, block })),
            }
        }
        None
    }

    /// Takes so many units from the front of what was never used, or none where it has fewer.
    fn take_left(&self, units: usize) -> Option<Region>
        requires { units < 2 ^ 60 }
        ensures { IfSome result (λ block. block.units ≡ units) }
    {
        match self.left.replace(None)?.cut(units) {
            Ok((block, rest)) => {
                self.left.set(Some(rest));
                Some(block)
            }
            Err(all) => {
                self.left.set(Some(all));
                None
            }
        }
    }

    /// Keeps a block of so many units, or the one of its class that is there if that isn't shorter.
    /// The other is lost.
    fn keep(&self, block: Region, units: usize) {
        let cell = &self.freed[class_of(units)];
        let kept = match cell.replace(None) {
            Some(other) if other.units >= units => other,
            _ => Freed { units, block },
        };
        cell.set(Some(kept));
    }
}

/// How many units hold so many bytes.
fn units_of(size: usize) -> usize
    ensures { result ≡ units_for size }
{
    size.div_ceil(UNIT)
}

/// The class of a block of so many units: their logarithm to base 2, rounded down, and 0 for none.
fn class_of(units: usize) -> usize
    ensures { result < 64 }
{
    units.max(1).ilog2() as usize
}

unsafe impl Allocator for Arena {
    ghost dealloc_token = { λ _ type place. to_give_back type place };

    // A unit is aligned to 16, and no type asks for more.
    fn allocate(&self, size: usize, _align: usize) -> Result<*mut u8, AllocError> {
        match self.take(size) {
            Some(Region { start, units: _ }) => Ok(start),
            None => Err(AllocError),
        }
    }

    unsafe fn deallocate(&self, ptr: *mut u8, size: usize, _align: usize) {
        let units = units_of(size);
        self.keep(Region { start: ptr, units }, units);
    }
}
