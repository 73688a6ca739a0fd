//! Names of receivers as a book keeps them.
ghost use Rattle.std.specs.Prelude.{◌≡◌, ◌≤◌, length, insert, OnOk, OnErr};
ghost use Rattle.aprs_rows.specs.KeptNames.{names_kept};

use crate::Memory;
use crate::growth::reserve_one;
use aprs_log::Receiver;
use std::alloc::Allocator;
use std::slice;

/// Names of receivers. One alone, which most rows have, takes no memory.
#[derive(Drop)]
pub(crate) enum KeptNames<A: Allocator> {
    One(A, Receiver),
    Many(Vec<Receiver, A>),
}

impl<A: Allocator + Copy> KeptNames<A> {
    /// Keeps these names: one alone without the list, any others in their list.
    pub(crate) fn of(names: Vec<Receiver, A>) -> KeptNames<A>
        ensures { names_kept result ≡ names.items }
    {
        match names.as_slice() {
            [name] => KeptNames::One(*names.allocator(), name.copy()),
            _ => KeptNames::Many(names),
        }
    }

    /// Where the names' memory comes from.
    pub(crate) fn allocator(&self) -> A {
        match self {
            KeptNames::One(alloc, _) => *alloc,
            KeptNames::Many(names) => *names.allocator(),
        }
    }

    /// The names as a slice, in the order in which they are kept.
    pub(crate) fn as_slice(&self) -> &[Receiver]
        ensures { result.now ≡ names_kept self.now }
    {
        match self {
            KeptNames::One(_, name) => slice::from_ref(name),
            KeptNames::Many(names) => names.as_slice(),
        }
    }

    /// Puts `name` before the name at index `i`, or after all where `i` is their number. After
    /// `Memory` the names are as before.
    pub(crate) fn insert(&mut self, i: usize, name: &Receiver) -> Result<(), Memory>
        requires { i ≤ length (names_kept self.old) }
        ensures inserted { OnOk result
            (names_kept self.new ≡ insert (names_kept self.old) i name.now) }
        ensures unchanged { OnErr result (names_kept self.new ≡ names_kept self.old) }
    {
        match self {
            KeptNames::One(alloc, first) => {
                let mut names = Vec::new(*alloc);
                names.reserve_exact(2)?;
                names.push_reserved(first.copy());
                insert_name(&mut names, i, name)?;
                *self = KeptNames::Many(names);
                Ok(())
            }
            KeptNames::Many(names) => {
                if !names.is_empty() {
                    return insert_name(names, i, name);
                }
                let alloc = *names.allocator();
                *self = KeptNames::One(alloc, name.copy());
                Ok(())
            }
        }
    }
}

/// Puts `name` before the name at index `i`, or after all where `i` is their number. After `Memory`
/// the names are as before.
fn insert_name<A: Allocator>(
    names: &mut Vec<Receiver, A>,
    i: usize,
    name: &Receiver,
) -> Result<(), Memory>
    requires { i ≤ length names.old.items }
    ensures inserted { OnOk result (names.new.items ≡ insert names.old.items i name.now) }
    ensures unchanged { OnErr result (names.new.items ≡ names.old.items) }
{
    reserve_one(names)?;
    names.insert(i, name.copy())?;
    Ok(())
}
