//! Which report an information field is.

ghost use Rattle.std.specs.Prelude.{◌≡◌};

use crate::form::form;
use crate::place::Place;
use crate::stamp::Stamp;
use crate::symbol::Symbol;

/// What an information field says. Its slices are borrowed from the field.
#[derive(Clone, Copy, Debug, PartialEq, Eq)]
pub enum Report<'a> {
    /// The position of the frame's source (APRS Protocol Reference 1.0.1, chapters 6, 8 and 9).
    Position {
        /// Whether the station can take messages.
        messaging: bool,
        /// When the report was made, if it says so.
        stamp: Option<Stamp>,
        /// Where the station is.
        place: Place,
        /// What the station is shown as on a map.
        symbol: Symbol,
        /// All that follows the position.
        comment: &'a [u8],
    },
    /// The state and position of an object (chapter 11).
    Object {
        /// The object's name, without the spaces at its end.
        name: &'a [u8],
        /// Whether the object is live, or killed.
        live: bool,
        /// When the report was made.
        stamp: Stamp,
        /// Where the object is.
        place: Place,
        /// What the object is shown as on a map.
        symbol: Symbol,
        /// All that follows the position.
        comment: &'a [u8],
    },
    /// The state and position of an item (chapter 11).
    Item {
        /// The item's name, without the spaces at its end.
        name: &'a [u8],
        /// Whether the item is live, or killed.
        live: bool,
        /// Where the item is.
        place: Place,
        /// What the item is shown as on a map.
        symbol: Symbol,
        /// All that follows the position.
        comment: &'a [u8],
    },
    /// A message (chapter 14).
    Message {
        /// Who the message is for, without the spaces at its end.
        addressee: &'a [u8],
        /// What it says, without the brace and the id. CR and LF are cut off at the end of the
        /// field, and not before the brace.
        text: &'a [u8],
        /// The id by which it is acknowledged, if it has one: one to five letters or digits.
        id: Option<&'a [u8]>,
    },
    /// A message with this id has arrived (chapter 14).
    Ack {
        /// Who had sent that message, without the spaces at its end.
        addressee: &'a [u8],
        /// The id of that message: one to five letters or digits.
        id: &'a [u8],
    },
    /// A message with this id was rejected (chapter 14).
    Rej {
        /// Who had sent that message, without the spaces at its end.
        addressee: &'a [u8],
        /// The id of that message: one to five letters or digits.
        id: &'a [u8],
    },
    /// The status of the frame's source (chapter 16).
    Status {
        /// Day, hour and minute in UTC, if the text begins with them: its mark is `z`.
        stamp: Option<Stamp>,
        /// All that follows the stamp, or the first byte `>` where there is no stamp.
        text: &'a [u8],
    },
    /// Any other field.
    Raw,
}

impl<'a> Report<'a> {
    ghost use Rattle.aprs_report.specs.Reading.{view, kind_of, Reads};
    ghost use Rattle.aprs_report.specs.Reader.{reading_of};

    /// What an information field says. This can't fail: a field that has the form of no other
    /// report is `Raw`. Promised by `reads` is that the field has the form of the report, or of
    /// none where that is `Raw`; by `value`, that the report is a function of the field's bytes.
    /// Takes no memory.
    #[inline(always)]
    pub fn read(info: &'a [u8]) -> Report<'a>
        ensures reads { Reads (view result) info.now }
        ensures value { view result ≡ reading_of info.now }
    {
        match form(info) {
            Some(report) => report,
            None => Report::Raw,
        }
    }

    /// The name of the report's kind in lower case, as `position`. Takes no memory.
    pub fn kind(&self) -> &'static str
        ensures { result.now ≡ kind_of (view self.now) }
    {
        match self {
            Report::Position { .. } => "position",
            Report::Object { .. } => "object",
            Report::Item { .. } => "item",
            Report::Message { .. } => "message",
            Report::Ack { .. } => "ack",
            Report::Rej { .. } => "rej",
            Report::Status { .. } => "status",
            Report::Raw => "raw",
        }
    }
}
