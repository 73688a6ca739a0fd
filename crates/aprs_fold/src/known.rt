//! Whether a row is the one of a known book that was last taken.
ghost use Rattle.std.specs.Prelude.{◌≡◌, false, true};
ghost use Rattle.aprs_transmissions.specs.Lists.{◌∈◌};
ghost use Rattle.aprs_bookfile.specs.RowReader.{list_of_row};

use aprs_bookfile::LentRow;
use aprs_rows::RowView;

/// Whether the row is the known one, if there is one.
pub(crate) fn is_known(row: &RowView<'_>, known: Option<LentRow<'_>>) -> bool
    ensures same { result ≡ true → row.now ∈ list_of_row known.entry }
    ensures other { result ≡ false → row.now ∈ list_of_row known.entry → ⊥ }
{
    match known {
        Some(other) => is_same(row, other.row()),
        None => false,
    }
}

/// Whether two rows are the same.
fn is_same(row: &RowView<'_>, other: &RowView<'_>) -> bool
    ensures same { result ≡ true → row.now ≡ other.now }
    ensures other { result ≡ false → row.now ≡ other.now → ⊥ }
{
    row.first() == other.first()
        && row.last() == other.last()
        && row.receivers() == other.receivers()
        && row.receiver() == other.receiver()
        && row.frame().bytes() == other.frame().bytes()
}
