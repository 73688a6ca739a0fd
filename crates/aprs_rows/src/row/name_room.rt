//! Names of receivers, gathered from texts and united.
ghost use Rattle.std.specs.Prelude.{◌≡◌, ◌≢◌, ◌<◌, ◌≤◌, ◌+◌, ◌++◌, [], All, length, map, IfOk, OnErr, vec_len, vec_capacity};
ghost use Rattle.aprs_log.specs.Receiver.{IsName};
ghost use Rattle.aprs_log.specs.Reception.{bytes_cmp};
ghost use Rattle.aprs_transmissions.specs.JoinRow.{union};
ghost use Rattle.aprs_rows.specs.Names.{names_in};
ghost use Rattle.aprs_rows.specs.Sorted.{next_text, ascending_text};

use crate::Memory;
use crate::growth::{put, reserve};
use crate::row::names::cut_name;
use std::alloc::Allocator;
use std::marker::Model;
use std::mem::take;

/// Names, and the room that is left for texts of names. All memory was taken before. Contracts see
/// the names that were gathered and aren't united yet, and the bytes that are left beside them:
/// those of the room, less the bytes of each name and one for a comma after it.
#[derive(Drop)]
pub(crate) struct NameRoom<'a, A: Allocator> {
    names: Vec<&'a [u8], A>,
    text: Vec<u8, A>,
    room: &'a mut [u8],
}

impl<'a, A: Allocator> Model for NameRoom<'a, A> {
    ghost use Rattle.std.specs.Prelude.{◌-◌, length, map, vec_capacity};
    ghost use Rattle.aprs_rows.specs.NameRoom.{GatheredNames, HasRoom, names_size};

    ghost Value = { GatheredNames };

    ghost view = { λ r. record {
      names = map (λ n. n.now) r.names.items;
      left = length r.room.now - names_size (map (λ n. n.now) r.names.items);
    } };

    ghost invariant = { λ r. HasRoom (map (λ n. n.now) r.names.items) (vec_capacity r.names)
        (vec_capacity r.text) (length r.room.now) };
}

impl<'a, A: Allocator + Copy> NameRoom<'a, A> {
    /// No names, and all of the room. Takes memory for as many names as can be in it: each takes
    /// two bytes at least, with its comma. Without room this doesn't fail.
    pub(crate) fn new(alloc: A, room: &'a mut [u8]) -> Result<NameRoom<'a, A>, Memory>
        ensures room { IfOk result (λ r. r ≡ record { names = []; left = length room.old }) }
        ensures some { OnErr result (0 < length room.old) }
    {
        let mut names = Vec::new(alloc);
        reserve(&mut names, room.len() - room.len() / 2)?;
        let mut text = Vec::new(alloc);
        reserve(&mut text, room.len())?;
        Ok(NameRoom { names, text, room })
    }

    /// How many bytes may be left at most: all that the room has, with those of the names that
    /// aren't united yet. Fewer are left where names were gathered.
    pub(crate) fn left(&self) -> usize
        ensures { self.now.left ≤ result }
    {
        self.room.len()
    }

    /// Puts the names of a text, which commas part, after those here. Requires that the text and a
    /// comma fit in the room.
    pub(crate) fn gather(&mut self, text: &'a [u8])
        requires room { length text.now + 1 ≤ self.old.left }
        requires each { All IsName (names_in text.now) }
        ensures names { self.new.names ≡ self.old.names ++ names_in text.now }
        ensures left { self.new.left + (length text.now + 1) ≡ self.old.left }
    {
        let mut rest = text;
        while let Some((name, after)) = cut_name(rest) {
            self.names.push_reserved(name);
            rest = after;
        }
        self.names.push_reserved(rest);
    }

    /// A text of the names, each once and ascending, with commas between. It stays in the room.
    /// Afterwards there are no names. Requires that there is a name.
    pub(crate) fn unite(&mut self) -> &'a [u8]
        requires { self.old.names ≢ [] }
        ensures text { names_in result.now ≡ union bytes_cmp self.old.names [] }
        ensures each { All IsName (names_in result.now) }
        ensures names { self.new.names ≡ [] }
        ensures left { self.old.left ≤ self.new.left }
    {
        self.names.sort_unstable();
        self.text.clear();
        put_ascending(&mut self.text, self.names.as_slice());
        self.names.clear();
        let (own, rest) = take(&mut self.room).split_at_mut(self.text.len());
        own.copy_from_slice(self.text.as_slice());
        self.room = rest;
        own
    }
}

/// Puts names, which ascend, with commas between after the text that is there; of equal names one,
/// and nothing where there are no names. Requires room for them.
fn put_ascending<A: Allocator>(text: &mut Vec<u8, A>, names: &[&[u8]])
    requires { vec_len text.old + length (ascending_text (map (λ n. n.now) names.now))
        ≤ vec_capacity text.old }
    ensures text { text.new.items ≡ text.old.items ++ ascending_text (map (λ n. n.now) names.now) }
    ensures capacity { vec_capacity text.old ≤ vec_capacity text.new }
{
    let Some((first, others)) = names.split_first() else {
        return;
    };
    put(text, first);
    for (i, name) in others.iter().enumerate() {
        put_next(text, names[i], name);
    }
}

/// Puts a comma and `name` after the text, or nothing where `before`, the name before it, is the
/// same. Requires room for them.
fn put_next<A: Allocator>(text: &mut Vec<u8, A>, before: &[u8], name: &[u8])
    requires { vec_len text.old + length (next_text before.now name.now) ≤ vec_capacity text.old }
    ensures text { text.new.items ≡ text.old.items ++ next_text before.now name.now }
    ensures capacity { vec_capacity text.old ≤ vec_capacity text.new }
{
    if before.cmp(name).is_eq() {
        return;
    }
    put(text, b",");
    put(text, name);
}
