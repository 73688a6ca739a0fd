//! Copies of messages, and answers to them, among the rows of a book. What a row says is what its
//! frame says, or the frame that this passes on. The gate is the station that passed it on.
//!
//! Words of the contracts here:
//! - `GivesCopy row copy`: the row says this message, from its first to its last moment.
//!   `GivesNetReply`: it is this answer, at its first moment.
//! - `AreGiven Gives rows list`: the list has exactly what the rows give. `IsGathered`: so it is of
//!   copies and of answers.
//! - `HoldsOnly P option`: P holds of what the option has, and of nothing else.
//! - `copy_of`, `reply_of`: copy and answer as contracts see them; `copy_cmp`, `reply_cmp`: their
//!   order.
ghost use Rattle.std.specs.Prelude.{◌≡◌, ◌↔◌, ◌⊎◌, List, Some, IfOk, OnOk, map};
ghost use Rattle.std.specs.Option.{option_map};
ghost use Rattle.std.specs.Ordering.{on};
ghost use Rattle.aprs_transmissions.specs.BookValue.{IsSoundBook};
ghost use Rattle.aprs_transmissions.specs.Lists.{◌∈◌, Ordered};
ghost use Rattle.aprs_transmissions.specs.Order.{IsUpTo};
ghost use Rattle.aprs_transmissions.specs.Row.{row_key};
ghost use Rattle.aprs_report.specs.Reader.{reading_of};
ghost use Rattle.aprs_lists.specs.Answers.{Reply, reply_cmp, reply_of};
ghost use Rattle.aprs_lists.specs.Copies.{Copy, copy_cmp, copy_of, message_named};
ghost use Rattle.aprs_summary.specs.Messages.{reported_message};
ghost use Rattle.aprs_summary.specs.ReplyTexts.{HoldsOnly};
ghost use Rattle.aprs_lists.specs.Said.{said_in, said_view};
ghost use Rattle.aprs_lists.specs.Traffic as Spec;

use crate::net::answers::{Answer, Question};
use crate::net::copies::{MessageCopy, MessageName};
use crate::net::packed_call::PackedCall;
use crate::net::sort::{sort_answers, sort_copies};
use crate::said::{Said, call_in, said_in};
use aprs_ax25::Callsign;
use aprs_report::Report;
use aprs_rows::{BookRows, BookStore, Memory, RowView, WalkRoom};
use aprs_summary::acknowledged_in;
use aprs_transmissions::Gap;
use std::alloc::{Allocator, Global};
use std::marker::Model;

/// The copies of messages, and the answers to them, that the rows of the book in a store give, each
/// in order. What they say stays where it lies.
pub struct Traffic<'t, A: Allocator = Global> {
    store: &'t BookStore<A>,
    copies: Vec<MessageCopy<'t>, A>,
    answers: Vec<Answer<'t>, A>,
}

impl<'t, A: Allocator> Drop for Traffic<'t, A> {
    fn drop(self) {
        let Traffic {
            store: _,
            copies,
            answers,
        } = self;
        drop(copies);
        drop(answers);
    }
}

impl<'t, A: Allocator> Model for Traffic<'t, A> {
    ghost use Rattle.aprs_transmissions.specs.BookValue.{BookValue};
    ghost use Rattle.aprs_lists.specs.Traffic.{IsGathered};

    ghost Value = { BookValue };

    ghost view = { λ t. t.store.now };

    ghost invariant = { λ t. IsGathered t.store.now.rows t.copies.items t.answers.items };
}

impl<'t, A: Allocator + Copy> Traffic<'t, A> {
    /// The traffic of the book in this store, in one pass over its rows. Takes memory for the walk
    /// over them, each copy and each answer. The room has to last as long as the traffic.
    pub fn of(
        alloc: A,
        store: &'t BookStore<A>,
        room: &'t mut WalkRoom<A>,
    ) -> Result<Traffic<'t, A>, Memory>
        ensures { IfOk result (λ traffic. traffic ≡ store.now) }
    {
        let rows = store.rows(room)?;
        let Gathered { copies, answers } = gather(alloc, rows)?;
        Ok(Traffic {
            store,
            copies,
            answers,
        })
    }

    /// The gap of the book.
    pub(crate) fn gap(&self) -> Gap
        ensures value { result ≡ self.now.gap }
        ensures sound { IsSoundBook self.now }
    {
        self.store.gap()
    }

    /// The copies, in order.
    pub(crate) fn copies(&self) -> &[MessageCopy<'t>]
        ensures given { Spec.AreGiven Spec.GivesCopy self.now.rows (map copy_of result.now) }
        ensures ordered { Ordered (IsUpTo (on copy_of copy_cmp)) result.now }
    {
        self.copies.as_slice()
    }

    /// The answers, in order.
    pub(crate) fn answers(&self) -> &[Answer<'t>]
        ensures given { Spec.AreGiven Spec.GivesNetReply self.now.rows (map reply_of result.now) }
        ensures ordered { Ordered (IsUpTo (on reply_of reply_cmp)) result.now }
    {
        self.answers.as_slice()
    }
}

/// The copies and the answers that were gathered.
#[derive(Drop)]
struct Gathered<'t, A: Allocator = Global> {
    copies: Vec<MessageCopy<'t>, A>,
    answers: Vec<Answer<'t>, A>,
}

/// What the report of an answer names.
#[derive(Drop)]
struct AnswerParts<'t> {
    addressee: &'t [u8],
    number: &'t [u8],
    is_reply: bool,
    is_rejection: bool,
}

/// What these rows give, in one pass over them.
fn gather<'t, A: Allocator + Copy>(
    alloc: A,
    rows: BookRows<'t, A>,
) -> Result<Gathered<'t, A>, Memory>
    ensures { IfOk result (λ gathered.
        Spec.IsGathered rows.entry.rows gathered.copies.items gathered.answers.items) }
{
    let mut copies = Vec::new(alloc);
    let mut answers = Vec::new(alloc);
    for row in rows {
        take_row(&mut copies, &mut answers, &row)?;
    }
    sort_copies(&mut copies);
    sort_answers(&mut answers);
    Ok(Gathered { copies, answers })
}

/// Adds what a row gives: a copy of a message, an answer, both, or nothing.
fn take_row<'t, A: Allocator + Copy>(
    copies: &mut Vec<MessageCopy<'t>, A>,
    answers: &mut Vec<Answer<'t>, A>,
    row: &RowView<'t>,
) -> Result<(), Memory>
    ensures copies { OnOk result ((c : Copy) → (c ∈ map copy_of copies.new.items)
        ↔ ((c ∈ map copy_of copies.old.items) ⊎ Spec.GivesCopy row.now c)) }
    ensures answers { OnOk result ((a : Reply) → (a ∈ map reply_of answers.new.items)
        ↔ ((a ∈ map reply_of answers.old.items) ⊎ Spec.GivesNetReply row.now a)) }
{
    put_copy(copies, copy_in(row))?;
    put_answer(answers, answer_in(row))
}

/// Puts a copy after the others, if there is one.
fn put_copy<'t, A: Allocator + Copy>(
    copies: &mut Vec<MessageCopy<'t>, A>,
    copy: Option<MessageCopy<'t>>,
) -> Result<(), Memory>
    ensures { OnOk result (map copy_of copies.new.items
        ≡ Spec.with_one (map copy_of copies.old.items) (option_map copy_of copy.entry)) }
{
    if let Some(copy) = copy {
        make_room(copies)?;
        copies.push(copy)?;
    }
    Ok(())
}

/// Puts an answer after the others, if there is one.
fn put_answer<'t, A: Allocator + Copy>(
    answers: &mut Vec<Answer<'t>, A>,
    answer: Option<Answer<'t>>,
) -> Result<(), Memory>
    ensures { OnOk result (map reply_of answers.new.items
        ≡ Spec.with_one (map reply_of answers.old.items) (option_map reply_of answer.entry)) }
{
    if let Some(answer) = answer {
        make_room(answers)?;
        answers.push(answer)?;
    }
    Ok(())
}

/// Makes room for one more item. Where there is none, takes room for three times as many again:
/// what was outgrown stays behind in many systems, and room that isn't written to takes no memory
/// there. The items stay as they are, also after `Memory`.
fn make_room<T, A: Allocator>(items: &mut Vec<T, A>) -> Result<(), Memory>
    ensures { items.new.items ≡ items.old.items }
{
    if items.len() < items.capacity() {
        return Ok(());
    }
    let more = items.len().saturating_mul(3).max(16);
    items.reserve_exact(more)?;
    Ok(())
}

/// The copy of a message that a row is, or `None` where it is none.
fn copy_in<'t>(row: &RowView<'t>) -> Option<MessageCopy<'t>>
    ensures { HoldsOnly (Spec.GivesCopy row.now) (option_map copy_of result) }
{
    let said = said_in(row)?;
    let message = message_in(&said)?;
    Some(MessageCopy {
        message,
        first: row.first(),
        gate: packed(said.gate),
        last: row.last(),
    })
}

/// The callsign in few bytes, if there is one.
fn packed(call: Option<Callsign>) -> Option<PackedCall>
    ensures { result ≡ call }
{
    match call {
        Some(call) => Some(PackedCall::of(&call)),
        None => None,
    }
}

/// The message that is said, or `None` where it is none.
fn message_in<'t>(said: &Said<'t>) -> Option<MessageName<'t>>
    ensures { option_map message_named result
        ≡ reported_message said.now.source (reading_of said.now.info.now) }
{
    match Report::read(said.info) {
        Report::Message {
            addressee,
            text,
            id,
        } => Some(MessageName {
            source: PackedCall::of(&said.source),
            addressee,
            text,
            id,
        }),
        _ => None,
    }
}

/// The answer that a row says, or `None` where it says none.
fn answer_in<'t>(row: &RowView<'t>) -> Option<Answer<'t>>
    ensures { HoldsOnly (Spec.GivesNetReply row.now) (option_map reply_of result) }
{
    let said = said_in(row)?;
    let parts = answer_parts(said.info)?;
    let source = call_in(parts.addressee)?;
    Some(Answer {
        question: Question {
            source: PackedCall::of(&source),
            answerer: PackedCall::of(&said.source),
            number: parts.number,
            is_reply: parts.is_reply,
        },
        moment: row.first(),
        is_rejection: parts.is_rejection,
    })
}

/// What an answer with this information names, or `None` where it is no answer.
fn answer_parts<'t>(info: &'t [u8]) -> Option<AnswerParts<'t>>
    ensures { HoldsOnly (λ (a : Spec.Answering). Spec.SaysAnswer a (reading_of info.now))
        (option_map Spec.answering_of result) }
{
    match Report::read(info) {
        Report::Ack { addressee, id } => Some(AnswerParts {
            addressee,
            number: id,
            is_reply: false,
            is_rejection: false,
        }),
        Report::Rej { addressee, id } => Some(AnswerParts {
            addressee,
            number: id,
            is_reply: false,
            is_rejection: true,
        }),
        Report::Message {
            addressee,
            text,
            id: None,
        } => {
            let number = acknowledged_in(text)?;
            Some(AnswerParts {
                addressee,
                number,
                is_reply: true,
                is_rejection: false,
            })
        }
        _ => None,
    }
}
