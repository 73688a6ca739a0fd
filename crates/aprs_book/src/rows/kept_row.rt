//! A row as a book keeps it.
ghost use Rattle.std.specs.Prelude.{min, ◌≡◌, ◌↔◌, IsTrue, ◌+◌, if◌then◌else◌, nat_lt, IsOk, IfOk, OnOk, OnErr};
ghost use Rattle.std.specs.Ordering.{is_lt};
ghost use Rattle.std.specs.declared.cmp.Ordering.TheVariants.{Less, Equal, Greater};
ghost use Rattle.aprs_log.specs.Reception.{bytes_cmp};
ghost use Rattle.aprs_transmissions.specs.Lists.{◌∈◌, Ordered};
ghost use Rattle.aprs_transmissions.specs.Order.{IsBelow};
ghost use Rattle.aprs_transmissions.specs.Row.{row_cmp};
ghost use Rattle.aprs_transmissions.specs.JoinRow.{single, combine};
ghost use Rattle.aprs_transmissions.specs.Inserted.{compare_near_to, grow_row};
ghost use Rattle.aprs_rows.specs.Refusal.{is_too_near};

use crate::rows::millis::Millis;
use crate::{Memory, Receivers, Row, RowParts};
use aprs_log::{Moment, Receiver, Reception};
use aprs_rows::{RowView, keep_greater, order_of_keys};
use std::alloc::{Allocator, Global};
use std::boxed::Box;
use std::cmp::Ordering;
use std::marker::Model;

/// One transmission, in a place of its own, so that rows are put in order without moving them.
pub(crate) struct KeptRow<A: Allocator = Global> {
    sent: Box<Sent<A>, A>,
}

impl<A: Allocator> Drop for KeptRow<A> {
    fn drop(self) {
        let KeptRow { sent } = self;
        drop(sent);
    }
}

/// What is known of a transmission. Its key and its last moment are those of its greatest
/// reception.
#[derive(Drop)]
struct Sent<A: Allocator = Global> {
    first: Moment,
    receivers: Receivers<A>,
    greatest: Reception,
}

impl<A: Allocator> Model for KeptRow<A> {
    ghost use Rattle.aprs_transmissions.specs.Row.{Row as RowValue};

    ghost Value = { RowValue };

    ghost view = { λ r. record {
      first = r.sent.value.first;
      receivers = r.sent.value.receivers;
      greatest = r.sent.value.greatest;
    } };
}

impl<A: Allocator + Copy> KeptRow<A> {
    /// The row of this first moment, these receivers and this greatest reception, in memory of its
    /// own.
    pub(crate) fn new(
        alloc: A,
        first: Moment,
        receivers: Receivers<A>,
        greatest: Reception,
    ) -> Result<KeptRow<A>, Memory>
        ensures { IfOk result (λ row.
            row ≡ record { first = first; receivers = receivers; greatest = greatest }) }
    {
        let sent = Sent {
            first,
            receivers,
            greatest,
        };
        let sent = Box::new(alloc, sent)?;
        Ok(KeptRow { sent })
    }

    /// The row of one reception.
    pub(crate) fn single(alloc: A, x: &Reception) -> Result<KeptRow<A>, Memory>
        ensures { IfOk result (λ row. row ≡ single x.now) }
    {
        let mut receivers = Receivers::new(alloc);
        receivers.add(x.receiver())?;
        KeptRow::new(alloc, x.moment(), receivers, x.copy())
    }

    /// The row of these parts, whose receivers have to ascend strictly, in memory of its own.
    pub(crate) fn of(alloc: A, parts: &RowParts<A>) -> Result<KeptRow<A>, Memory>
        requires { Ordered (IsBelow bytes_cmp) parts.now.receivers }
        ensures { IfOk result (λ row. row ≡ parts.now) }
    {
        let receivers = Receivers::of_ascending(alloc, parts.receivers.as_slice())?;
        KeptRow::new(alloc, parts.first, receivers, parts.greatest())
    }

    /// A row of a store, whose receivers have to ascend strictly, in memory of its own.
    pub(crate) fn of_view(alloc: A, row: &RowView<'_>) -> Result<KeptRow<A>, Memory>
        requires { Ordered (IsBelow bytes_cmp) row.now.receivers }
        ensures { IfOk result (λ kept. kept ≡ row.now) }
    {
        let receivers = Receivers::of_row(alloc, row)?;
        KeptRow::new(alloc, row.first(), receivers, row.greatest().to_reception())
    }

    /// Where this row lies, seen from a reception: by key first; of one key it is `Less` where it
    /// ends more than the gap before the reception, `Greater` where it begins more than the gap
    /// after the reception, and `Equal` where they are near.
    pub(crate) fn compare_near_to(&self, gap: Millis, x: &Reception) -> Ordering
        ensures { result ≡ compare_near_to gap self.now x.now }
    {
        let greatest = self.greatest();
        match order_of_keys(greatest.frame(), x.frame()) {
            Ordering::Equal => {
                let moment = x.moment();
                moment_order(gap, self.first(), greatest.moment(), moment, moment)
            }
            unequal => unequal,
        }
    }

    /// Whether this row comes before a row of these parts, by key, then first moment.
    pub(crate) fn comes_before(&self, parts: &RowParts<A>) -> bool
        ensures { result ≡ is_lt (row_cmp self.now parts.now) }
    {
        match order_of_keys(self.greatest().frame(), &parts.frame) {
            Ordering::Equal => self.first() < parts.first,
            unequal => unequal.is_lt(),
        }
    }

    /// Whether a row of these parts has the key of this row, and begins at most the gap after this
    /// row ends, or earlier.
    pub(crate) fn is_too_near_to(&self, gap: Millis, parts: &RowParts<A>) -> bool
        ensures { result ≡ is_too_near gap self.now parts.now }
    {
        let greatest = self.greatest();
        order_of_keys(greatest.frame(), &parts.frame).is_eq()
            && parts.first.millis() <= greatest.moment().millis() + gap.get()
    }

    /// Adds a reception that is near to this row: lists its receiver, and keeps the earlier first
    /// moment and the greater reception. Takes no memory where the receiver is listed already.
    /// After `Memory` the row is as before.
    pub(crate) fn grow(&mut self, x: &Reception) -> Result<(), Memory>
        ensures grown { OnOk result (self.new ≡ grow_row self.old x.now) }
        ensures listed { x.now.receiver ∈ self.old.receivers → IsOk result }
        ensures unchanged { OnErr result (self.new ≡ self.old) }
    {
        let sent = self.sent.as_mut();
        sent.receivers.add(x.receiver())?;
        sent.first = earlier(sent.first, x.moment());
        keep_greater(&mut sent.greatest, x);
        Ok(())
    }

    /// The one row that this row, the row `next` and a reception that is near to both become, in
    /// memory of its own.
    pub(crate) fn bridge(&self, x: &Reception, next: &KeptRow<A>) -> Result<KeptRow<A>, Memory>
        ensures { IfOk result (λ row. row ≡ combine (grow_row self.now x.now) next.now) }
    {
        let mut receivers = self.receivers().duplicate()?;
        receivers.add(x.receiver())?;
        let receivers = receivers.unite(next.receivers())?;
        let mut greatest = self.greatest().copy();
        keep_greater(&mut greatest, x);
        keep_greater(&mut greatest, next.greatest());
        let first = earlier(earlier(self.first(), x.moment()), next.first());
        KeptRow::new(self.allocator(), first, receivers, greatest)
    }

    /// Whether both are the same row.
    pub(crate) fn equals(&self, other: &KeptRow<A>) -> bool
        ensures { IsTrue result ↔ (self.now ≡ other.now) }
    {
        self.first() == other.first()
            && same_names(self.receivers().as_slice(), other.receivers().as_slice())
            && same_reception(self.greatest(), other.greatest())
    }

    /// The first moment.
    pub(crate) fn first(&self) -> Moment
        ensures { result ≡ self.now.first }
    {
        self.sent.as_ref().first
    }

    /// The names of the receivers that heard the transmission.
    pub(crate) fn names(&self) -> &[Receiver]
        ensures { result.now ≡ self.now.receivers }
    {
        self.receivers().as_slice()
    }

    /// The receivers that heard the transmission.
    fn receivers(&self) -> &Receivers<A>
        ensures { result.now ≡ self.now.receivers }
    {
        &self.sent.as_ref().receivers
    }

    /// Where the row's memory comes from.
    fn allocator(&self) -> A {
        *Box::allocator(&self.sent)
    }

    /// The greatest reception, which has the key and the last moment of the row.
    pub(crate) fn greatest(&self) -> &Reception
        ensures { result.now ≡ self.now.greatest }
    {
        &self.sent.as_ref().greatest
    }

    /// This row as callers see it. Its receivers and its greatest reception stay where they lie.
    pub(crate) fn show(&self) -> Row<'_>
        ensures { result ≡ self.now }
    {
        Row::new(self.first(), self.receivers().as_slice(), self.greatest())
    }
}

/// Where the span from `first` to `last` lies, seen from the other span: `Less` where it ends more
/// than the gap before the other begins, `Greater` where it begins more than the gap after the
/// other ends, and `Equal` where they are near.
fn moment_order(
    gap: Millis,
    first: Moment,
    last: Moment,
    other_first: Moment,
    other_last: Moment,
) -> Ordering
    ensures { result ≡ (if nat_lt (last + gap) other_first then Less
        else if nat_lt (other_last + gap) first then Greater else Equal) }
{
    if last.millis() + gap.get() < other_first.millis() {
        Ordering::Less
    } else if other_last.millis() + gap.get() < first.millis() {
        Ordering::Greater
    } else {
        Ordering::Equal
    }
}

/// The earlier of both.
fn earlier(a: Moment, b: Moment) -> Moment
    ensures { result ≡ min a b }
{
    if b.millis() < a.millis() { b } else { a }
}

/// Whether both are the same names, in the same order.
fn same_names(a: &[Receiver], b: &[Receiver]) -> bool
    ensures { IsTrue result ↔ (a.now ≡ b.now) }
{
    a == b
}

/// Whether both are the same reception.
fn same_reception(a: &Reception, b: &Reception) -> bool
    ensures { IsTrue result ↔ (a.now ≡ b.now) }
{
    a == b
}
