//! Laws of books in another unit of time.
ghost use Rattle.aprs_transmissions.specs.Scaling.{ScalesBook};

/// Rows are the book of a set under a gap exactly if they still are with all moments and the gap
/// counted in a finer unit. So a book counted in seconds, as in a file of version 1, becomes one in
/// milliseconds.
pub fn units_can_change()
    ensures { ScalesBook }
{}
