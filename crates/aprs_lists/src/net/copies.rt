//! Copies of messages.
ghost use Rattle.std.specs.Prelude.{◌≡◌};

use crate::net::packed_call::PackedCall;
use aprs_log::Moment;

/// What makes copies one message: all of these fields.
#[derive(PartialEq, Eq, PartialOrd, Ord, Drop)]
pub struct MessageName<'t> {
    /// Who sent it.
    pub source: PackedCall,
    /// To whom, without the spaces at its end.
    pub addressee: &'t [u8],
    /// What it says, without the brace and the id, and without CR and LF at its end.
    pub text: &'t [u8],
    /// One to five letters or digits, or `None` where it has no id.
    pub id: Option<&'t [u8]>,
}

impl<'t> MessageName<'t> {
    /// A copy of the name. Takes no memory.
    pub fn copy(&self) -> MessageName<'t>
        ensures { result ≡ self.now }
    {
        MessageName {
            source: self.source.copy(),
            addressee: self.addressee,
            text: self.text,
            id: self.id,
        }
    }
}

/// A copy of a message that was heard. Copies are ordered by message, first moment, gate and last
/// moment.
#[derive(PartialEq, Eq, PartialOrd, Ord, Drop)]
pub struct MessageCopy<'t> {
    /// The message.
    pub message: MessageName<'t>,
    /// The first moment at which the copy was heard.
    pub first: Moment,
    /// The station that passed it on, or `None` where its sender itself was heard.
    pub gate: Option<PackedCall>,
    /// The last moment at which the copy was heard.
    pub last: Moment,
}
