//! Copies and answers put in order.
ghost use Rattle.std.specs.Ordering.{on};
ghost use Rattle.aprs_transmissions.specs.Lists.{Ordered, SameMembers};
ghost use Rattle.aprs_transmissions.specs.Order.{IsUpTo};
ghost use Rattle.aprs_lists.specs.Answers.{reply_cmp, reply_of};
ghost use Rattle.aprs_lists.specs.Copies.{copy_cmp, copy_of};

use crate::net::answers::Answer;
use crate::net::copies::MessageCopy;
use std::alloc::Allocator;

/// Puts copies in order. Takes no memory.
pub fn sort_copies<'t, A: Allocator>(copies: &mut Vec<MessageCopy<'t>, A>)
    ensures ordered { Ordered (IsUpTo (on copy_of copy_cmp)) copies.new.items }
    ensures same { SameMembers copies.old.items copies.new.items }
{
    copies.sort_unstable();
}

/// Puts answers in order. Takes no memory.
pub fn sort_answers<'t, A: Allocator>(answers: &mut Vec<Answer<'t>, A>)
    ensures ordered { Ordered (IsUpTo (on reply_of reply_cmp)) answers.new.items }
    ensures same { SameMembers answers.old.items answers.new.items }
{
    answers.sort_unstable();
}
