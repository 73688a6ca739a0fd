//! Which message the bits A, B and C are.

ghost use Rattle.std.specs.Prelude.{◌≡◌};
ghost use Rattle.aprs_mice.specs.MicEMessage.{message_of_bits};

use crate::mark::Bit;

/// What the operator of a Mic-E station has chosen to say (APRS Protocol Reference 1.0.1,
/// chapter 10).
#[derive(Clone, Copy, Debug, PartialEq, Eq)]
pub enum MicEMessage {
    /// M0.
    OffDuty,
    /// M1.
    EnRoute,
    /// M2.
    InService,
    /// M3.
    Returning,
    /// M4.
    Committed,
    /// M5.
    Special,
    /// M6.
    Priority,
    /// An emergency, which the standard and the custom messages share.
    Emergency,
    /// C0: users agree among themselves what a custom message means.
    Custom0,
    /// C1.
    Custom1,
    /// C2.
    Custom2,
    /// C3.
    Custom3,
    /// C4.
    Custom4,
    /// C5.
    Custom5,
    /// C6.
    Custom6,
    /// Bits that mix a standard and a custom message.
    Unknown,
}

impl MicEMessage {
    ghost use Rattle.aprs_mice.specs.MicEMessage.{message_name};

    /// The message's name in lower case, as `off-duty`, `custom-0` or `unknown`. Takes no memory.
    pub fn name(self) -> &'static str
        ensures { result.now ≡ message_name self }
    {
        match self {
            MicEMessage::OffDuty => "off-duty",
            MicEMessage::EnRoute => "en-route",
            MicEMessage::InService => "in-service",
            MicEMessage::Returning => "returning",
            MicEMessage::Committed => "committed",
            MicEMessage::Special => "special",
            MicEMessage::Priority => "priority",
            MicEMessage::Emergency => "emergency",
            MicEMessage::Custom0 => "custom-0",
            MicEMessage::Custom1 => "custom-1",
            MicEMessage::Custom2 => "custom-2",
            MicEMessage::Custom3 => "custom-3",
            MicEMessage::Custom4 => "custom-4",
            MicEMessage::Custom5 => "custom-5",
            MicEMessage::Custom6 => "custom-6",
            MicEMessage::Unknown => "unknown",
        }
    }
}

/// The message of the bits A, B and C.
pub fn message_of_bits(a: Bit, b: Bit, c: Bit) -> MicEMessage
    ensures { result ≡ message_of_bits a b c }
{
    match (a, b, c) {
        (Bit::Standard, Bit::Standard, Bit::Standard) => MicEMessage::OffDuty,
        (Bit::Standard, Bit::Standard, Bit::Zero) => MicEMessage::EnRoute,
        (Bit::Standard, Bit::Zero, Bit::Standard) => MicEMessage::InService,
        (Bit::Standard, Bit::Zero, Bit::Zero) => MicEMessage::Returning,
        (Bit::Zero, Bit::Standard, Bit::Standard) => MicEMessage::Committed,
        (Bit::Zero, Bit::Standard, Bit::Zero) => MicEMessage::Special,
        (Bit::Zero, Bit::Zero, Bit::Standard) => MicEMessage::Priority,
        (Bit::Zero, Bit::Zero, Bit::Zero) => MicEMessage::Emergency,
        (Bit::Custom, Bit::Custom, Bit::Custom) => MicEMessage::Custom0,
        (Bit::Custom, Bit::Custom, Bit::Zero) => MicEMessage::Custom1,
        (Bit::Custom, Bit::Zero, Bit::Custom) => MicEMessage::Custom2,
        (Bit::Custom, Bit::Zero, Bit::Zero) => MicEMessage::Custom3,
        (Bit::Zero, Bit::Custom, Bit::Custom) => MicEMessage::Custom4,
        (Bit::Zero, Bit::Custom, Bit::Zero) => MicEMessage::Custom5,
        (Bit::Zero, Bit::Zero, Bit::Custom) => MicEMessage::Custom6,
        _ => MicEMessage::Unknown,
    }
}
