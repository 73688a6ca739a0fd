//! Room for what is listed.

use aprs_log::Reception;

/// Room for the receptions that a walk over a summary reads, one station, object or item after
/// another. The next one takes the place of the last.
#[derive(Drop)]
pub struct HeardRoom {
    pub(crate) first: Option<Reception>,
    pub(crate) second: Option<Reception>,
}

impl HeardRoom {
    /// Room in which nothing is yet. Takes no memory.
    pub fn new() -> HeardRoom {
        HeardRoom {
            first: None,
            second: None,
        }
    }
}
