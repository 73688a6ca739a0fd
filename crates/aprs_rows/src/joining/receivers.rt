//! Names of receivers in ascending order.
ghost use Rattle.std.specs.Prelude.{◌≡◌, ℕ, ◌+◌, ◌≤◌, List, [], ◌∷◌, ◌++◌, length, insert, IsOk, OnOk, OnErr, IfOk, MatchResult, vec_len, vec_capacity};
ghost use Rattle.aprs_log.specs.Reception.{bytes_cmp};
ghost use Rattle.aprs_transmissions.specs.Lists.{◌∈◌, Ordered};
ghost use Rattle.aprs_transmissions.specs.Order.{IsBelow};
ghost use Rattle.aprs_transmissions.specs.JoinRow.{add, union};
ghost use Rattle.aprs_transmissions.specs.Merged.{ascending_union};
ghost use Rattle.aprs_transmissions.specs.Joining.{AreAny, IsUnited};
ghost use Rattle.aprs_rows.specs.KeptNames.{names_kept};
ghost use Rattle.aprs_transmissions.proofs.Orders.{bytes_total, bytes_exact};
ghost use Rattle.aprs_transmissions.proofs.Joins.{receivers_laws};

use crate::joining::kept_names::KeptNames;
use crate::row::names::cut_name;
use crate::row::row_view::RowView;
use crate::{Join, Memory};
use aprs_log::Receiver;
use std::alloc::{Allocator, Global};
use std::cmp::Ordering;
use std::marker::Model;

/// Names of receivers, strictly ascending.
pub struct Receivers<A: Allocator = Global> {
    names: KeptNames<A>,
}

impl<A: Allocator> Drop for Receivers<A> {
    fn drop(self) {
        let Receivers { names } = self;
        drop(names);
    }
}

impl<A: Allocator> Model for Receivers<A> {
    ghost Value = { List (List ℕ) };

    ghost view = { λ r. names_kept r.names };

    ghost invariant = { λ r. Ordered (IsBelow bytes_cmp) (names_kept r.names) };
}

impl<A: Allocator + Copy> Receivers<A> {
    /// No names. Takes no memory.
    pub fn new(alloc: A) -> Receivers<A>
        ensures { result ≡ [] }
    {
        Receivers {
            names: KeptNames::of(Vec::new(alloc)),
        }
    }

    /// The names in order, each once. Takes no memory.
    pub fn as_slice(&self) -> &[Receiver]
        ensures value { result.now ≡ self.now }
        ensures ascending { Ordered (IsBelow bytes_cmp) self.now }
    {
        self.names.as_slice()
    }

    /// Puts a name in its place. Where the name is there already, nothing changes and no memory is
    /// taken. After `Memory` the names are as before.
    pub fn add(&mut self, name: &Receiver) -> Result<(), Memory>
        ensures joined { OnOk result (IsUnited bytes_cmp (name.now ∷ []) self.old self.new) }
        ensures added { OnOk result (self.new ≡ add bytes_cmp name.now self.old) }
        ensures listed { name.now ∈ self.old → IsOk result }
        ensures unchanged { OnErr result (self.new ≡ self.old) }
    {
        match search(self.names.as_slice(), name) {
            Ok(_) => Ok(()),
            Err(i) => self.names.insert(i, name),
        }
    }

    /// The names of both lists, ascending and each once, or `Memory` where that is refused. The two
    /// lists stay as they are. For the crates of this repository.
    pub fn unite(&self, other: &Receivers<A>) -> Result<Receivers<A>, Memory>
        ensures union { IfOk result (λ both. both ≡ union bytes_cmp self.now other.now) }
        ensures joined { IfOk result (IsUnited bytes_cmp self.now other.now) }
        ensures ascending { Ordered (IsBelow bytes_cmp) self.now }
        ensures ascending_other { Ordered (IsBelow bytes_cmp) other.now }
    {
        let ours = self.names.as_slice();
        let theirs = other.names.as_slice();
        let mut names = Vec::new(self.names.allocator());
        names.reserve_exact(ours.len() + theirs.len())?;
        merge_onto(&mut names, ours, theirs);
        Ok(Receivers {
            names: KeptNames::of(names),
        })
    }

    /// These names, which have to ascend strictly, or `Memory` where that is refused. For the
    /// crates of this repository.
    pub fn of_ascending(alloc: A, ascending: &[Receiver]) -> Result<Receivers<A>, Memory>
        requires { Ordered (IsBelow bytes_cmp) ascending.now }
        ensures { IfOk result (λ names. names ≡ ascending.now) }
    {
        if let [name] = ascending {
            return Ok(Receivers {
                names: KeptNames::One(alloc, name.copy()),
            });
        }
        let mut names = Vec::new(alloc);
        names.reserve_exact(ascending.len())?;
        copy_onto(&mut names, ascending);
        Ok(Receivers {
            names: KeptNames::Many(names),
        })
    }

    /// The receivers of a row, which have to ascend strictly, in memory of their own, or `Memory`
    /// where that is refused. For the crates of this repository.
    pub fn of_row(alloc: A, row: &RowView<'_>) -> Result<Receivers<A>, Memory>
        requires { Ordered (IsBelow bytes_cmp) row.now.receivers }
        ensures { IfOk result (λ names. names ≡ row.now.receivers) }
    {
        let text = row.receivers();
        if cut_name(text).is_none() {
            return Ok(Receivers {
                names: KeptNames::One(alloc, Receiver::with_name(text)),
            });
        }
        Ok(Receivers {
            names: KeptNames::Many(row.receiver_names(alloc)?),
        })
    }

    /// A copy of the names, in memory from the same allocator, or `Memory` where that is refused.
    /// For the crates of this repository.
    pub fn duplicate(&self) -> Result<Receivers<A>, Memory>
        ensures { IfOk result (λ copy. copy ≡ self.now) }
    {
        Receivers::of_ascending(self.names.allocator(), self.names.as_slice())
    }
}

impl<A: Allocator + Copy> Join for Receivers<A> {
    ghost valid = { Ordered (IsBelow bytes_cmp) };

    ghost alike = { AreAny };

    ghost joined = { IsUnited bytes_cmp };

    ghost laws = { receivers_laws bytes_total bytes_exact };

    /// Always `true`: any two can be joined.
    fn fits(&self, _other: &Receivers<A>) -> bool {
        true
    }

    /// The names of both, ascending, each once, or `Memory` where that is refused.
    fn join(&self, other: &Receivers<A>) -> Result<Receivers<A>, Memory> {
        self.unite(other)
    }
}

/// Looks by halves for a name among names, which have to ascend strictly: its index, or as `Err`
/// the index at which it would have to be inserted.
fn search(names: &[Receiver], name: &Receiver) -> Result<usize, usize>
    requires { Ordered (IsBelow bytes_cmp) names.now }
    ensures { MatchResult result
        (λ _. add bytes_cmp name.now names.now ≡ names.now)
        (λ i. (i ≤ length names.now)
        × (add bytes_cmp name.now names.now ≡ insert names.now i name.now)) }
{
    names.binary_search(name)
}

/// Puts the names of `ours` and `theirs`, which both ascend, in order and each once after those in
/// `names`. Requires room for all of them.
fn merge_onto<A: Allocator>(names: &mut Vec<Receiver, A>, ours: &[Receiver], theirs: &[Receiver])
    requires { vec_len names.old + length ours.now + length theirs.now ≤ vec_capacity names.old }
    ensures { names.new.items ≡ names.old.items ++ ascending_union bytes_cmp ours.now theirs.now }
{
    let mut i = 0;
    let mut j = 0;
    while i < ours.len() && j < theirs.len() {
        match ours[i].cmp(&theirs[j]) {
            Ordering::Less => {
                names.push_reserved(ours[i].copy());
                i += 1;
            }
            Ordering::Equal => {
                names.push_reserved(ours[i].copy());
                i += 1;
                j += 1;
            }
            Ordering::Greater => {
                names.push_reserved(theirs[j].copy());
                j += 1;
            }
        }
    }
    copy_onto(names, &ours[i..]);
    copy_onto(names, &theirs[j..]);
}

/// Puts the names of `more` after those in `names`. Requires room for them.
fn copy_onto<A: Allocator>(names: &mut Vec<Receiver, A>, more: &[Receiver])
    requires { vec_len names.old + length more.now ≤ vec_capacity names.old }
    ensures items { names.new.items ≡ names.old.items ++ more.now }
    ensures capacity { vec_capacity names.new ≡ vec_capacity names.old }
{
    for name in more {
        names.push_reserved(name.copy());
    }
}
