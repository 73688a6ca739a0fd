//! What a frame reports on.
ghost use Rattle.std.specs.Prelude.{◌≡◌, true, None};
ghost use Rattle.aprs_report.specs.Reader.{reading_of};
ghost use Rattle.aprs_transmissions.specs.Key.{key_of};
ghost use Rattle.aprs_summary.specs.Known.{Topic, call_bytes, subject_bytes, report_bytes, topic_bytes};

use aprs_ax25::Callsign;
use aprs_log::ReceptionRef;
use aprs_report::Report;
use arrayvec::ArrayVec;

/// The most bytes under which an index has a callsign: one of its SSID, and nine of its text.
const CALL_BYTES: usize = 10;

/// What a frame reports on, with the bytes under which an index has it.
#[derive(Drop)]
pub enum Subject<'a> {
    /// Where this station is.
    Position(ArrayVec<u8, CALL_BYTES>),
    /// The status of this station.
    Status(ArrayVec<u8, CALL_BYTES>),
    /// The object of this name.
    Object(&'a [u8]),
    /// The item of this name.
    Item(&'a [u8]),
    /// Nothing that an index has.
    Nothing,
}

impl<'a> Subject<'a> {
    /// What a frame from this station with this information reports on. The topics are positions,
    /// statuses, objects and items. Under the topic of the report the subject has the bytes of the
    /// callsign or the name (`subject_bytes`), and under any other it has none.
    pub fn of(source: &Callsign, info: &'a [u8]) -> Subject<'a>
        ensures { (topic : Topic) → subject_bytes topic result
            ≡ report_bytes topic source.now (reading_of info.now) }
    {
        match Report::read(info) {
            Report::Position { .. } => Subject::Position(call_bytes(source)),
            Report::Status { .. } => Subject::Status(call_bytes(source)),
            Report::Object { name, .. } => Subject::Object(name),
            Report::Item { name, .. } => Subject::Item(name),
            _ => Subject::Nothing,
        }
    }

    /// What the frame of a reception reports on.
    #[tactic(auto, unfolding(aprs_transmissions::specs::Key::key_of))]
    pub fn of_heard(heard: &ReceptionRef<'a>) -> Subject<'a>
        ensures { (topic : Topic)
            → subject_bytes topic result ≡ topic_bytes topic (key_of heard.now.frame) }
    {
        Subject::of(&heard.frame().source(), info_of(heard))
    }

    /// `true` only where the frame reports on nothing that an index has.
    pub(crate) fn is_nothing(&self) -> bool
        ensures { result ≡ true → (topic : Topic) → subject_bytes topic self.now ≡ None }
    {
        matches!(self, Subject::Nothing)
    }

    /// Whether both are the same subject, under the same bytes. `false` where both are `Nothing`.
    pub(crate) fn is_same(&self, other: &Subject<'_>) -> bool
        ensures { result ≡ true
            → (topic : Topic) → subject_bytes topic self.now ≡ subject_bytes topic other.now }
    {
        match (self, other) {
            (Subject::Position(ours), Subject::Position(theirs)) => {
                ours.as_slice() == theirs.as_slice()
            }
            (Subject::Status(ours), Subject::Status(theirs)) => {
                ours.as_slice() == theirs.as_slice()
            }
            (Subject::Object(ours), Subject::Object(theirs)) => ours == theirs,
            (Subject::Item(ours), Subject::Item(theirs)) => ours == theirs,
            _ => false,
        }
    }
}

/// The information of a reception's frame.
#[tactic(auto, unfolding(aprs_transmissions::specs::Key::key_of))]
pub fn info_of<'a>(heard: &ReceptionRef<'a>) -> &'a [u8]
    ensures { result.now ≡ (key_of heard.now.frame).info }
{
    heard.frame().info()
}

/// The bytes under which an index has a callsign: its SSID, and then its text. No other callsign
/// has the same bytes.
pub(crate) fn call_bytes(call: &Callsign) -> ArrayVec<u8, CALL_BYTES>
    ensures { result.items ≡ call_bytes call.now }
{
    let mut bytes = ArrayVec::new();
    bytes.push(call.ssid());
    if bytes.try_extend_from_slice(call.text().as_slice()).is_err() {
        unreachable!()
    }
    bytes
}
