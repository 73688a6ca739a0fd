//! Versions of book files.
ghost use Rattle.std.specs.Prelude.{◌≡◌, ◌≢◌, ◌≤◌, ◌<◌, ◌^◌, ℕ, Some, decimal, IfNone, IfSome};
ghost use Rattle.arrayvec.specs.ArrayVec.{array_vec_len};
ghost use Rattle.aprs_transmissions.specs.Gap.{IsGap};
ghost use Rattle.aprs_bookfile.specs.Version.{form_of, gap_of, header_of, IsVersion};

use aprs_io::push_all;
use aprs_log::MomentForm;
use aprs_transmissions::Gap;
use arrayvec::ArrayVec;
use itoa::Buffer;

/// The most bytes of a header, with its LF.
pub const MAX_HEADER: usize = 16;

/// What the first line of a book file says: how its moments are written, and its gap in seconds.
#[derive(Clone, Copy, Debug, PartialEq, Eq)]
pub enum Version {
    /// Moments to the second, and a gap of 30 seconds.
    One,
    /// Moments to the millisecond, and a gap of 30 seconds.
    Two,
    /// Moments to the millisecond, and this gap.
    Three(Gap),
}

impl Version {
    /// The version whose first line this is, without its LF, or `None` where it is that of no
    /// version. A gap has to be 1 to 3,600 in decimal, with no zero before it.
    pub fn of_header(line: &[u8]) -> Option<Version>
        ensures some { IfSome result (λ v. IsVersion v × (line.now ≡ header_of v)) }
        ensures none { IfNone result ((v : Version) → IsVersion v → line.now ≢ header_of v) }
    {
        if line == b"APRSBOOK 1".as_slice() {
            return Some(Version::One);
        }
        if line == b"APRSBOOK 2".as_slice() {
            return Some(Version::Two);
        }
        let Some(gap) = gap_in(line) else {
            return None;
        };
        if line == Version::Three(gap).header().as_slice() {
            Some(Version::Three(gap))
        } else {
            None
        }
    }

    /// The first line of a text of this version, without its LF: at most 15 bytes.
    pub fn header(&self) -> ArrayVec<u8, MAX_HEADER>
        ensures text { result.items ≡ header_of self.now }
        ensures short { array_vec_len result ≤ 15 }
    {
        let mut line = ArrayVec::new();
        match self {
            Version::One => push_all(&mut line, b"APRSBOOK 1"),
            Version::Two => push_all(&mut line, b"APRSBOOK 2"),
            Version::Three(gap) => {
                push_all(&mut line, b"APRSBOOK 3 ");
                push_all(&mut line, Buffer::new().format(gap.seconds()).as_bytes());
            }
        }
        line
    }

    /// How the moments of a text of this version are written: to the second in version 1, and to
    /// the millisecond in the others.
    pub fn form(&self) -> MomentForm
        ensures { result ≡ form_of self.now }
    {
        match self {
            Version::One => MomentForm::Seconds,
            Version::Two | Version::Three(_) => MomentForm::Millis,
        }
    }

    /// The gap of a book of this version: 30 seconds in versions 1 and 2.
    pub fn gap(&self) -> Gap
        ensures { result ≡ gap_of self.now }
    {
        match self {
            Version::One | Version::Two => Gap::STANDARD,
            Version::Three(gap) => *gap,
        }
    }
}

/// The gap that a line names after its first 11 bytes, or `None` where it names none there. In a
/// header of version 3 these bytes are `APRSBOOK 3 `; here they aren't looked at, so a line that is
/// no header may give a gap too.
fn gap_in(line: &[u8]) -> Option<Gap>
    ensures some { IfSome result IsGap }
    ensures only { (gap : ℕ) → IsGap gap → line.now ≡ header_of (Version.Three gap)
        → result ≡ Some gap }
{
    if line.len() < 11 {
        return None;
    }
    match number_in(&line[11..]) {
        Some(seconds) => Gap::new(seconds),
        None => None,
    }
}

/// The number below 2^64 that digits spell, or `None` where they spell none. A plus sign and zeros
/// before it are passed over.
fn number_in(digits: &[u8]) -> Option<u64>
    ensures { (n : ℕ) → n < 2 ^ 64 → digits.now ≡ decimal n → result ≡ Some n }
{
    match std::str::from_utf8(digits) {
        Ok(text) => match text.parse::<u64>() {
            Ok(number) => Some(number),
            Err(_) => None,
        },
        Err(_) => None,
    }
}
