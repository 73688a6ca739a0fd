//! The halves of the globe that the letters of a position name.
ghost use Rattle.std.specs.Prelude.{◌≡◌, slice_index};

/// The halves of the globe that the letters of a position name (APRS Protocol Reference 1.0.1,
/// chapters 6 and 10). An angle of 0 has a half too, which its number doesn't show.
#[derive(Clone, Copy, Debug, PartialEq, Eq)]
pub struct Halves {
    /// Whether the latitude is south.
    pub is_south: bool,
    /// Whether the longitude is west.
    pub is_west: bool,
}

/// The byte of this index, or 0 where the bytes end before it.
fn byte_at(bytes: &[u8], index: usize) -> u8
    ensures { result ≡ slice_index bytes.now index }
{
    match bytes.get(index) {
        Some(byte) => *byte,
        None => 0,
    }
}

impl Halves {
    ghost use Rattle.std.specs.Prelude.{◌≡◌};
    ghost use Rattle.aprs_details.specs.Halves as Spec;

    /// The halves of the plain position of a report, which stands right before this comment. Takes
    /// no memory.
    pub fn of_report(info: &[u8], comment: &[u8]) -> Halves
        ensures { result ≡ Spec.halves_of info.now comment.now }
    {
        let end = info.len().saturating_sub(comment.len());
        Halves {
            is_south: byte_at(info, end.saturating_sub(12)) == b'S',
            is_west: byte_at(info, end.saturating_sub(2)) == b'W',
        }
    }

    /// The halves of a Mic-E position, by the characters of its destination. Takes no memory.
    pub fn of_mic_e(characters: &[u8]) -> Halves
        ensures { result ≡ Spec.mic_e_halves_of characters.now }
    {
        Halves {
            is_south: byte_at(characters, 3) < b'P',
            is_west: b'P' <= byte_at(characters, 5),
        }
    }
}
