//! Rows in order of which the first is known.
ghost use Rattle.std.specs.Prelude.{◌≡◌, ◌≢◌, IfSome, IfNone, [], ◌∷◌, None, Some};
ghost use Rattle.aprs_rows.specs.Merger.{first_in};

use crate::row::row_view::RowView;
use crate::store::packed::Unpacked;
use crate::store::tournament::HasFront;
use std::marker::Model;
use std::mem::replace;

/// The first of rows in order, and those after it. Where there is none, none comes after it.
#[derive(Drop)]
pub(crate) struct Front<'a> {
    first: Option<RowView<'a>>,
    rest: Unpacked<'a>,
}

impl<'a> Model for Front<'a> {
    ghost use Rattle.std.specs.Prelude.{◌≡◌, [], List, None};
    ghost use Rattle.aprs_transmissions.specs.Row.{Row as RowValue};
    ghost use Rattle.aprs_rows.specs.Merger.{rows_ahead};

    ghost Value = { List RowValue };

    ghost view = { λ f. rows_ahead f.first f.rest };

    ghost invariant = { λ f. f.first ≡ None → f.rest ≡ [] };
}

impl<'a> Front<'a> {
    /// The front of these rows, or `None` where there are none.
    pub(crate) fn of(mut rows: Unpacked<'a>) -> Option<Front<'a>>
        ensures some { IfSome result (λ f. (f ≡ rows.entry) × (rows.entry ≢ [])) }
        ensures none { IfNone result (rows.entry ≡ []) }
    {
        let first = rows.next()?;
        Some(Front {
            first: Some(first),
            rest: rows,
        })
    }

    /// The first row, or `None` where there are none.
    pub(crate) fn first(&self) -> Option<&RowView<'a>>
        ensures some { IfSome result (λ x. first_in self.now ≡ Some x.now) }
        ensures none { IfNone result (first_in self.now ≡ None) }
    {
        self.first.as_ref()
    }

    /// Takes out the first row, or `None` where there are none.
    #[inline(always)]
    pub(crate) fn take(&mut self) -> Option<RowView<'a>>
        ensures some { IfSome result (λ x. self.old ≡ x ∷ self.new) }
        ensures none { IfNone result ((self.old ≡ []) × (self.new ≡ [])) }
    {
        let next = self.rest.next();
        replace(&mut self.first, next)
    }
}

impl HasFront for Front<'_> {
    ghost front = { first_in };

    #[inline(always)]
    fn has_row(&self) -> bool {
        self.first.is_some()
    }

    #[inline(always)]
    fn is_before(&self, other: &Self) -> bool {
        let Some(row) = &self.first else {
            return false;
        };
        let Some(next) = &other.first else {
            return true;
        };
        row.order(next).is_lt()
    }
}
