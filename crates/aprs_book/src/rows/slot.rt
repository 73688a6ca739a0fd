//! Where a reception goes in the rows.
ghost use Rattle.std.specs.Prelude.{◌≡◌, ◌≤◌, ◌<◌, ◌+◌, ◌/◌, true, length, remove, IsOk, OnOk, OnErr};
ghost use Rattle.std.specs.VecDeque.{deque_len, deque_capacity};
ghost use Rattle.aprs_transmissions.specs.Inserted.{insert_heard, has_place_for};
ghost use Rattle.aprs_transmissions.specs.Sound.{Sound};
ghost use Rattle.aprs_book.specs.Slots.{IsSlot};

use crate::Memory;
use crate::rows::kept_row::KeptRow;
use crate::rows::millis::Millis;
use aprs_log::Reception;
use std::alloc::Allocator;
use std::collections::VecDeque;

/// Where a reception goes among rows.
#[derive(Drop)]
pub(crate) enum Slot {
    /// No row is near: a new row goes to this place, from 0.
    New(usize),
    /// One row is near: that at this place.
    One(usize),
    /// Two rows are near: those at this place and at the next.
    Two(usize),
}

/// The slot of a reception among the rows whose keys have the prefix of its key, by binary search.
/// The rows have to be sound; so at most two of them are near to it. By `IsSlot` this is the place
/// at which the reception makes a row of its own, grows one, or makes two rows one.
pub(crate) fn find_slot<A: Allocator + Copy>(
    gap: Millis,
    rows: &VecDeque<KeptRow<A>, A>,
    x: &Reception,
) -> Slot
    requires { Sound gap rows.now.items }
    ensures { IsSlot gap x.now rows.now.items result }
{
    let i = rows.partition_point(|row| row.compare_near_to(gap, x).is_lt());
    if i == rows.len() || rows[i].compare_near_to(gap, x).is_gt() {
        return Slot::New(i);
    }
    if i + 1 == rows.len() || rows[i + 1].compare_near_to(gap, x).is_gt() {
        return Slot::One(i);
    }
    Slot::Two(i)
}

/// Adds a reception to the sound rows of its prefix: it becomes a new row, or a near row grows, or
/// two near rows become one. `count`, the number of the rows of all keys, rises or falls with
/// them. What needs memory is made before the first change: after `Memory` both are as before.
pub(crate) fn put<A: Allocator + Copy>(
    gap: Millis,
    rows: &mut VecDeque<KeptRow<A>, A>,
    count: &mut usize,
    x: &Reception,
) -> Result<(), Memory>
    requires sound { Sound gap rows.old.items }
    requires fewer { length rows.old.items ≤ count.old }

    ensures inserted { OnOk result (rows.new.items ≡ insert_heard gap x.now rows.old.items) }
    ensures counted { count.new + length rows.old.items ≡ count.old + length rows.new.items }

    ensures in_place { has_place_for gap x.now rows.old.items ≡ true → IsOk result }
    ensures unchanged { OnErr result (rows.new.items ≡ rows.old.items) }
{
    match find_slot(gap, rows, x) {
        Slot::New(i) => {
            let Some(more) = count.checked_add(1) else {
                return Err(Memory::past_all_sizes());
            };
            let row = KeptRow::single(*rows.allocator(), x)?;
            grow_by_one(rows)?;
            rows.insert(i, row)?;
            *count = more;
        }
        Slot::One(i) => {
            let row = &mut rows[i];
            row.grow(x)?;
        }
        Slot::Two(i) => {
            let row = rows[i].bridge(x, &rows[i + 1])?;
            rows[i] = row;
            take_out(rows, i + 1);
            *count -= 1;
        }
    }
    Ok(())
}

/// Takes out the row at this place, which has to be there, and drops it.
fn take_out<T: Drop, A: Allocator>(rows: &mut VecDeque<T, A>, i: usize)
    requires { i < deque_len rows.old }
    ensures items { rows.new.items ≡ remove rows.old.items i }
    ensures len { deque_len rows.new + 1 ≡ deque_len rows.old }
{
    drop(rows.remove(i));
}

/// Makes room for one more row. Where there is none, takes room for an eighth of the rows and one
/// more, so that little memory lies idle. The rows stay as they are, also after `Memory`.
pub(crate) fn grow_by_one<T, A: Allocator>(rows: &mut VecDeque<T, A>) -> Result<(), Memory>
    ensures items { rows.new.items ≡ rows.old.items }
    ensures room { OnOk result (deque_len rows.new < deque_capacity rows.new) }
    ensures bound { deque_capacity rows.new
        ≤ deque_capacity rows.old + deque_len rows.old / 8 + 1 }
{
    if rows.len() < rows.capacity() {
        return Ok(());
    }
    let more = rows.len() / 8 + 1;
    rows.reserve_exact(more)?;
    Ok(())
}
