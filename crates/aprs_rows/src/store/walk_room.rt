//! Memory for a walk.

use crate::store::packed::PackedRows;
use std::alloc::{Allocator, Global};

/// Memory for a walk over the rows of a store. Each walk writes over what is in it.
#[derive(Drop)]
pub struct WalkRoom<A: Allocator = Global> {
    /// The rows of the store that weren't sorted, in order.
    pub(crate) sorted: PackedRows<A>,
    /// The names of receivers.
    pub(crate) names: Vec<u8, A>,
}

impl<A: Allocator + Copy> WalkRoom<A> {
    /// Memory for no rows. Takes none.
    pub fn new(alloc: A) -> WalkRoom<A> {
        WalkRoom {
            sorted: PackedRows::new(alloc),
            names: Vec::new(alloc),
        }
    }
}
