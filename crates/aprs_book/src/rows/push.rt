//! One more row after those of a book.
ghost use Rattle.std.specs.Prelude.{ℕ, [], ◌≡◌};
ghost use Rattle.std.specs.List.{list_any};
ghost use Rattle.aprs_transmissions.specs.Sound.{Sound};
ghost use Rattle.aprs_rows.specs.Refusal.{refusal, is_of_last, is_out_of_order, is_too_near, is_ascending, is_same_name, RefusesUnsound, PrefixesAreSound};

use crate::rows::kept_row::KeptRow;
use crate::rows::millis::Millis;
use crate::{RowCause, RowParts};
use aprs_log::Receiver;
use std::alloc::Allocator;

/// After sound rows nothing refuses a row exactly if the rows with it are sound. The empty list of
/// rows is sound, and so is each prefix of sound rows.
pub fn sound_rows_are_pushed()
    ensures none { (gap : ℕ) → Sound gap [] }
    ensures exactly { (gap : ℕ) → RefusesUnsound gap }
    ensures prefix { (gap : ℕ) → PrefixesAreSound gap }
{}

/// The first cause, in the order of `RowCause`, that refuses a row of these parts after the rows,
/// or `None` where it may be added. Looks at the last row alone.
#[tactic(auto, unfolding(aprs_rows::specs::Refusal::refusal))]
pub(crate) fn first_cause<A: Allocator + Copy>(
    gap: Millis,
    rows: &[KeptRow<A>],
    parts: &RowParts<A>,
) -> Option<RowCause>
    ensures { result ≡ refusal gap rows.now parts.now }
{
    if is_out_of_order(rows, parts) {
        return Some(RowCause::Order);
    }
    if parts.last.millis() < parts.first.millis() {
        return Some(RowCause::Span);
    }
    if is_too_near(gap, rows, parts) {
        return Some(RowCause::Near);
    }
    let names = parts.receivers.as_slice();
    if !is_ascending(names) || !has_name(names, &parts.receiver) {
        return Some(RowCause::Receivers);
    }
    if parts.first == parts.last && !is_last_name(names, &parts.receiver) {
        return Some(RowCause::NotGreatest);
    }
    None
}

/// Whether a row of these parts doesn't come after the last row, by key, then first moment.
/// `false` where there is no last row.
fn is_out_of_order<A: Allocator + Copy>(rows: &[KeptRow<A>], parts: &RowParts<A>) -> bool
    ensures { result ≡ is_of_last (λ l. is_out_of_order l parts.now) rows.now }
{
    match rows.last() {
        Some(last) => !last.comes_before(parts),
        None => false,
    }
}

/// Whether a row of these parts has the key of the last row, and begins at most the gap after that
/// ends. `false` where there is no last row.
fn is_too_near<A: Allocator + Copy>(gap: Millis, rows: &[KeptRow<A>], parts: &RowParts<A>) -> bool
    ensures { result ≡ is_of_last (λ l. is_too_near gap l parts.now) rows.now }
{
    match rows.last() {
        Some(last) => last.is_too_near_to(gap, parts),
        None => false,
    }
}

/// Whether each name is below the next.
fn is_ascending(names: &[Receiver]) -> bool
    ensures { result ≡ is_ascending names.now }
{
    let mut rest = names;
    while let [first, second, ..] = rest {
        if !first.cmp(second).is_lt() {
            return false;
        }
        rest = &rest[1..];
    }
    true
}

/// Whether the name is among these.
fn has_name(names: &[Receiver], name: &Receiver) -> bool
    ensures { result ≡ list_any (is_same_name name.now) names.now }
{
    names.iter().any(|other| name.cmp(other).is_eq())
}

/// Whether the name is the last of these. `false` where there are no names.
fn is_last_name(names: &[Receiver], name: &Receiver) -> bool
    ensures { result ≡ is_of_last (is_same_name name.now) names.now }
{
    match names.last() {
        Some(last) => name.cmp(last).is_eq(),
        None => false,
    }
}
