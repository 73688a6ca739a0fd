//! Why a row doesn't follow others in a book.
ghost use Rattle.std.specs.Prelude.{◌≡◌, ◌&&◌, List, None, IfNone, IfSome, true, false};
ghost use Rattle.std.specs.List.{last_or, list_any};
ghost use Rattle.std.specs.Option.{option_copied};
ghost use Rattle.aprs_transmissions.specs.Gap.{millis_of};
ghost use Rattle.aprs_transmissions.specs.Row.{Row};
ghost use Rattle.aprs_transmissions.specs.Sound.{IsSoundRow};
ghost use Rattle.aprs_rows.specs.Names.{names_in};
ghost use Rattle.aprs_rows.specs.Refusal as Spec;
ghost use Rattle.aprs_rows.specs.Judging.{list_of};

use crate::row::names::cut_name;
use crate::row::near::is_near;
use crate::row::row_view::RowView;
use aprs_transmissions::{Gap, RowCause};

impl<'a> RowView<'a> {
    /// The first cause, in the order of `RowCause`, for which the row can't follow the rows of a
    /// book of this gap, or `None` where it can. `before` is the last of those rows, or `None`
    /// where there are none. Takes no memory.
    pub fn refusal_after(&self, before: Option<&RowView<'_>>, gap: Gap) -> Option<RowCause>
        ensures cause { (rows : List Row) → last_or None rows ≡ option_copied before.entry
            → result ≡ Spec.refusal (millis_of gap) rows self.now }
        // A row that nothing refuses is sound by itself.
        ensures sound { IfNone result (IsSoundRow self.now) }
    {
        self.first_cause(before, gap)
    }

    /// The first cause for which this row can't come right after `before`, the last row of a book,
    /// or be the book's first row where `before` is `None`. `None` where nothing speaks against it.
    #[tactic(auto, unfolding(crate::specs::Refusal::refusal))]
    fn first_cause(&self, before: Option<&RowView<'_>>, gap: Gap) -> Option<RowCause>
        ensures { result
            ≡ Spec.refusal (millis_of gap) (list_of (option_copied before.entry)) self.now }
    {
        if self.is_out_of_order(before) {
            return Some(RowCause::Order);
        }
        if self.last().millis() < self.first().millis() {
            return Some(RowCause::Span);
        }
        if self.is_too_near(before, gap) {
            return Some(RowCause::Near);
        }
        let Some(is_last) = is_last_of_ascending(self.receivers(), self.receiver()) else {
            return Some(RowCause::Receivers);
        };
        // Of receptions at one moment the greatest is that of the last receiver by name.
        if self.first() == self.last() && !is_last {
            return Some(RowCause::NotGreatest);
        }
        None
    }

    /// Whether `before` is a row that this one doesn't come after, by key and first moment. `false`
    /// where `before` is `None`.
    fn is_out_of_order(&self, before: Option<&RowView<'_>>) -> bool
        ensures { result ≡ Spec.is_of_last (λ l. Spec.is_out_of_order l self.now)
            (list_of (option_copied before.entry)) }
    {
        match before {
            Some(last) => !last.order(self).is_lt(),
            None => false,
        }
    }

    /// Whether `before` is a row of the same key, and this one begins at most the gap after it
    /// ends, or earlier. `false` where `before` is `None`.
    fn is_too_near(&self, before: Option<&RowView<'_>>, gap: Gap) -> bool
        ensures { result ≡ Spec.is_of_last (λ l. Spec.is_too_near (millis_of gap) l self.now)
            (list_of (option_copied before.entry)) }
    {
        match before {
            Some(last) => last.is_too_near_to(gap, self),
            None => false,
        }
    }

    /// Whether `other` has the key of this row, and begins at most the gap after this one ends, or
    /// earlier.
    fn is_too_near_to(&self, gap: Gap, other: &RowView<'_>) -> bool
        ensures { result ≡ Spec.is_too_near (millis_of gap) self.now other.now }
    {
        is_near(gap, self.last(), other.first()) && self.key_order(other).is_eq()
    }
}

/// Whether `name` is the last name of the text, or `None` where the names of the text don't
/// strictly ascend or `name` isn't among them.
fn is_last_of_ascending(text: &[u8], name: &[u8]) -> Option<bool>
    ensures none { IfNone result ((Spec.is_ascending (names_in text.now)
        && list_any (Spec.is_same_name name.now) (names_in text.now)) ≡ false) }
    ensures some { IfSome result (λ is_last. ((Spec.is_ascending (names_in text.now)
        && list_any (Spec.is_same_name name.now) (names_in text.now)) ≡ true)
        × (is_last ≡ Spec.is_of_last (Spec.is_same_name name.now) (names_in text.now))) }
{
    let Some((first, others)) = cut_name(text) else {
        return if is_same_name(name, text) {
            Some(true)
        } else {
            None
        };
    };
    let mut before = first;
    let mut rest = others;
    let mut has_name = is_same_name(name, first);
    while let Some((next, after)) = cut_name(rest) {
        if !before.cmp(next).is_lt() {
            return None;
        }
        has_name = has_name || is_same_name(name, next);
        before = next;
        rest = after;
    }
    let is_last = is_same_name(name, rest);
    if before.cmp(rest).is_lt() && (has_name || is_last) {
        Some(is_last)
    } else {
        None
    }
}

/// Whether both are the same name. Their last bytes, in which most differ, are looked at first.
#[inline(always)]
fn is_same_name(name: &[u8], other: &[u8]) -> bool
    ensures { result ≡ Spec.is_same_name name.now other.now }
{
    let size = name.len();
    if size != other.len() {
        return false;
    }
    if size > 0 && name[size - 1] != other[size - 1] {
        return false;
    }
    name.cmp(other).is_eq()
}
