//! A reception as the book reports it.
ghost use Rattle.std.specs.Prelude.{◌≡◌};
ghost use Rattle.std.specs.Option.{option_copied};

use aprs_ax25::Frame;
use aprs_log::{Moment, Receiver, Reception, ReceptionRef};
use aprs_report::Report;
use std::marker::Model;

/// What was heard last of something: of the receptions that were asked for, the greatest by moment,
/// then receiver, then frame. Its report is what its frame's information says.
#[derive(Drop)]
pub struct Heard<'a> {
    /// When the frame was heard.
    pub moment: Moment,
    /// Who heard it.
    pub receiver: &'a Receiver,
    /// What was heard.
    pub frame: &'a Frame,
    /// What it says.
    pub report: Report<'a>,
}

impl<'a> Model for Heard<'a> {
    ghost use Rattle.std.specs.Prelude.{◌≡◌};
    ghost use Rattle.aprs_log.specs.Reception.{Received};
    ghost use Rattle.aprs_report.specs.Reading.{view as value_of};
    ghost use Rattle.aprs_transmissions.specs.Key.{key_of};
    ghost use Rattle.aprs_summary.specs.Reports.{report_of};

    ghost Value = { Received };

    ghost view = { λ h.
        record { moment = h.moment; receiver = h.receiver.now; frame = h.frame.now } };

    ghost invariant = { λ h. value_of h.report ≡ report_of (key_of h.frame.now) };
}

impl<'a> Heard<'a> {
    /// This reception, with the report that its information says.
    #[tactic(auto, unfolding(aprs_transmissions::specs::Key::key_of))]
    pub(crate) fn of(x: &'a Reception) -> Heard<'a>
        ensures { result ≡ x.now }
    {
        let frame = x.frame();
        Heard {
            moment: x.moment(),
            receiver: x.receiver(),
            frame,
            report: Report::read(frame.info()),
        }
    }
}

/// The reception that is known, with what it says, or `None` where none is known.
pub fn heard_of<'a>(known: Option<&'a Reception>) -> Option<Heard<'a>>
    ensures { result ≡ option_copied known.entry }
{
    match known {
        Some(x) => Some(Heard::of(x)),
        None => None,
    }
}

/// The reception, read into the place, with what it says.
pub(crate) fn heard_at<'r>(place: &'r mut Option<Reception>, x: &ReceptionRef<'_>) -> Heard<'r>
    ensures { result ≡ x.now }
{
    Heard::of(place.insert(x.to_reception()))
}

/// The reception that is known, read into the place, with what it says, or `None` where none is
/// known.
pub(crate) fn heard_in<'r>(
    place: &'r mut Option<Reception>,
    known: Option<&ReceptionRef<'_>>,
) -> Option<Heard<'r>>
    ensures { result ≡ option_copied known.entry }
{
    match known {
        Some(x) => Some(heard_at(place, x)),
        None => None,
    }
}
