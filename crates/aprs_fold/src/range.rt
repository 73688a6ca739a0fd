//! Ranges of sources, and their rows in book files that can be read at any place.
ghost use Rattle.std.specs.Prelude.{◌≡◌};
ghost use Rattle.aprs_transmissions.specs.Row.{row_key};
ghost use Rattle.aprs_fold.specs.Range as Spec;

pub(crate) mod book_range;
pub(crate) mod cut;
pub(crate) mod find;
pub(crate) mod judge;
pub(crate) mod line;
pub(crate) mod read_at;
pub(crate) mod tail;

use aprs_ax25::Callsign;
use aprs_rows::RowView;

/// The sources from one to another, in the order of a book: by letters and digits, and then by SSID
/// as a number. There are none where `until` isn't after `from`.
#[derive(Drop)]
pub struct SourceRange {
    /// The first of them; where there is none, the range begins with the first source of all.
    pub from: Option<Callsign>,
    /// The first after them; where there is none, the range ends with the last source of all.
    pub until: Option<Callsign>,
}

impl SourceRange {
    /// The range of all sources. Takes no memory.
    pub fn all() -> SourceRange
        ensures { result ≡ Spec.all_sources }
    {
        SourceRange {
            from: None,
            until: None,
        }
    }

    /// Whether the source is within the range: not before its first, and before its end. Takes no
    /// memory.
    pub fn contains(&self, source: &Callsign) -> bool
        ensures { result ≡ Spec.is_within self.now source.now }
    {
        is_from(&self.from, source) && is_until(&self.until, source)
    }

    /// Whether the row's source is within the range.
    #[inline(always)]
    #[tactic(auto, unfolding(aprs_transmissions::specs::Key::key_of))]
    pub(crate) fn contains_row(&self, row: &RowView<'_>) -> bool
        ensures { result ≡ Spec.is_within self.now (row_key row.now).source }
    {
        if self.from.is_none() && self.until.is_none() {
            return true;
        }
        self.contains(&row.frame().source())
    }
}

/// Whether the source isn't before the first one of a range. `true` where that has none.
fn is_from(first: &Option<Callsign>, source: &Callsign) -> bool
    ensures { result ≡ Spec.is_from first.now source.now }
{
    match first {
        Some(first) => first.cmp(source).is_le(),
        None => true,
    }
}

/// Whether the source is before the end of a range. `true` where that has none.
fn is_until(end: &Option<Callsign>, source: &Callsign) -> bool
    ensures { result ≡ Spec.is_until end.now source.now }
{
    match end {
        Some(end) => source.cmp(end).is_lt(),
        None => true,
    }
}
