//! What frames say, and who passed them on.
ghost use Rattle.std.specs.Prelude.{◌≡◌};
ghost use Rattle.std.specs.Option.{option_map};
ghost use Rattle.aprs_details.specs.ThirdParty.{passed_of, passed_view};
ghost use Rattle.aprs_transmissions.specs.Row.{row_key};
ghost use Rattle.aprs_summary.specs.MessageRows.{spelled_call};
ghost use Rattle.aprs_lists.specs.Said as Spec;

use aprs_ax25::Callsign;
use aprs_details::ThirdParty;
use aprs_rows::RowView;

/// What a frame says.
#[derive(Drop)]
pub(crate) struct Said<'t> {
    /// Who sent it.
    pub source: Callsign,
    /// The station that passed it on, or `None` where its sender itself was heard.
    pub gate: Option<Callsign>,
    /// What it says.
    pub info: &'t [u8],
}

/// What the frame of a row says. If it passes on another one, that is what it says, or `None` where
/// the source of that is no callsign.
#[tactic(auto, unfolding(aprs_transmissions::specs::Key::key_of))]
pub(crate) fn said_in<'t>(row: &RowView<'t>) -> Option<Said<'t>>
    ensures { option_map Spec.said_view result ≡ Spec.said_in (row_key row.now) }
{
    let frame = row.frame();
    let info = frame.info();
    said_by(frame.source(), info, ThirdParty::read(info))
}

/// What a station says with this information, or with the frame that it passes on.
fn said_by<'t>(source: Callsign, info: &'t [u8], passed: Option<ThirdParty<'t>>) -> Option<Said<'t>>
    ensures { option_map Spec.said_view result
        ≡ Spec.said_by source info.now (option_map passed_view passed.entry) }
{
    let Some(passed) = passed else {
        return Some(Said {
            source,
            gate: None,
            info,
        });
    };
    let sender = call_in(passed.source)?;
    Some(Said {
        source: sender,
        gate: Some(source),
        info: passed.info,
    })
}

/// The callsign that a text spells, or `None` where it spells none.
pub(crate) fn call_in(text: &[u8]) -> Option<Callsign>
    ensures { result ≡ spelled_call text.now }
{
    match Callsign::parse(text) {
        Ok(call) => Some(call),
        Err(_) => None,
    }
}
