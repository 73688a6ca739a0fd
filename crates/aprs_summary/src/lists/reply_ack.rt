//! What reply-acks say of a message (APRS 1.1).
ghost use Rattle.std.specs.Prelude.{◌≡◌};
ghost use Rattle.std.specs.Option.{option_copied};
ghost use Rattle.aprs_summary.specs.Messages as Spec;

use aprs_log::{Moment, ReceptionRef};

/// What became of the number that a message has for reply-acks. The ids of acks and rejs say
/// nothing of it.
#[derive(Clone, Copy, Debug, PartialEq, Eq)]
pub enum ReplyAck {
    /// The message has no such number: it has an id, or its text doesn't end as `{MM}` or `{MM}AA`
    /// does. Each of both is one or two letters or digits.
    NotAwaited,
    /// No reply-ack acknowledged it since its first reception.
    Awaited,
    /// The last reply-ack that acknowledged it was heard at this moment.
    Heard(Moment),
}

/// What came of the number of a message first heard at this moment, by its greatest reply-ack:
/// `Awaited` where there is none, or only one from before that moment.
pub(crate) fn reply_ack_by(first: Moment, reply: Option<&ReceptionRef<'_>>) -> ReplyAck
    ensures { result ≡ Spec.reply_ack_by first (option_copied reply.entry) }
{
    match reply {
        Some(x) if x.moment() >= first => ReplyAck::Heard(x.moment()),
        _ => ReplyAck::Awaited,
    }
}
