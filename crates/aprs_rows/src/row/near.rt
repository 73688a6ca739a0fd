//! Nearness in time.
ghost use Rattle.std.specs.Prelude.{◌≡◌, ◌+◌, nat_le};
ghost use Rattle.aprs_transmissions.specs.Gap.{millis_of};
ghost use Rattle.aprs_rows.specs.Merger.{IsByTest};

use crate::row::row_view::RowView;
use aprs_log::Moment;
use aprs_transmissions::Gap;

/// Whether what begins at `first` doesn't begin too late to be near to what ends at `last`: at most
/// the gap after it, or before it. It looks one way only: what lies long before it passes too.
pub(crate) fn is_near(gap: Gap, last: Moment, first: Moment) -> bool
    ensures { result ≡ nat_le first (last + millis_of gap) }
{
    first.millis() <= last.millis() + gap.seconds() * 1000
}

/// Whether `row` is near to a row of this first moment and the greatest reception of `latest`: it
/// has the key of that, and neither begins more than the gap after the other ends. By `IsByTest`
/// this is nearness whatever receivers the row of `latest` has.
pub(crate) fn are_near(gap: Gap, first: Moment, latest: &RowView<'_>, row: &RowView<'_>) -> bool
    ensures { IsByTest result (millis_of gap) first latest.now row.now }
{
    is_near(gap, latest.last(), row.first())
        && is_near(gap, row.last(), first)
        && latest.key_order(row).is_eq()
}
