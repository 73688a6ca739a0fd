//! What is noted of a row beside its bytes.
ghost use Rattle.std.specs.Prelude.{◌≡◌};
ghost use Rattle.aprs_rows.specs.Packed.{mark_size};

use aprs_log::Moment;

/// The first and the last moment of a row, and four numbers of bytes. These are of the text of its
/// receivers, of the greatest reception's frame and receiver's name, and of that frame before its
/// information.
#[derive(Clone, Copy)]
pub(crate) struct Mark {
    pub first: Moment,
    pub last: Moment,
    pub receivers: u32,
    pub frame: u16,
    pub receiver: u8,
    pub info_at: u8,
}

impl Mark {
    /// How many bytes the row has.
    pub(crate) fn size(&self) -> usize
        ensures { result ≡ mark_size self.now }
    {
        self.receivers as usize + (self.receiver as usize + self.frame as usize)
    }
}
