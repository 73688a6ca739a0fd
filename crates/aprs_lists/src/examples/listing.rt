//! Worked examples of the lines of the listing, and near misses.
ghost use Rattle.std.specs.Prelude.{◌≡◌, [], ◌∷◌, None, Some, codes, true, false};
ghost use Rattle.aprs_log.specs.Moment.{moment_text};
ghost use Rattle.aprs_report.specs.Examples.{here, leader, leader_item, stamp_with};
ghost use Rattle.aprs_report.specs.Reading.{ack, message, position, raw, rej, status};
ghost use Rattle.aprs_transmissions.specs.Examples.{n0call, rx1};
ghost use Rattle.aprs_transmissions.specs.Key.{key_of};
ghost use Rattle.aprs_ax25.specs.Callsign.{call_text};
ghost use Rattle.aprs_details.specs.Examples.{car};
ghost use Rattle.aprs_summary.specs.Examples.{hi_listed};
ghost use Rattle.aprs_summary.specs.declared.lists.message.MessageState.TheVariants.{Acknowledged};
ghost use Rattle.aprs_table.specs.SpacedLine.{line_with_text};
ghost use Rattle.aprs_lists.specs.Examples.{heard_at};
ghost use Rattle.aprs_lists.specs.Listing.{known_line, message_line, report_line, station_line};

/// A position, a status, an object and an item have a line of their own, and other reports have
/// none.
pub fn reports_have_lines()
    ensures position { report_line (heard_at 5) (position true None here car (codes "Hi"))
        ≡ line_with_text (codes "position") (moment_text 5 ∷ rx1 ∷ codes "-"
        ∷ codes "294350/6000" ∷ codes "-432175/6000" ∷ codes "0" ∷ codes "/>" ∷ []) (codes "Hi") }
    ensures status { report_line (heard_at 5) (status (Some (stamp_with 122)) (codes "Hi"))
        ≡ line_with_text (codes "status") (moment_text 5 ∷ rx1 ∷ codes "092345z" ∷ [])
        (codes "Hi") }
    ensures object { report_line (heard_at 5) (leader true)
        ≡ line_with_text (codes "object") (codes "LEADER" ∷ codes "live" ∷ moment_text 5 ∷ rx1
        ∷ call_text (key_of []).source ∷ codes "092345z" ∷ codes "294350/6000"
        ∷ codes "-432175/6000" ∷ codes "0" ∷ codes "/>" ∷ []) [] }
    ensures item { report_line (heard_at 5) (leader_item false)
        ≡ line_with_text (codes "item") (codes "LEADER" ∷ codes "killed" ∷ moment_text 5 ∷ rx1
        ∷ call_text (key_of []).source ∷ codes "-" ∷ codes "294350/6000"
        ∷ codes "-432175/6000" ∷ codes "0" ∷ codes "/>" ∷ []) [] }
    ensures misses_message { report_line (heard_at 5) (message (codes "A") (codes "Hi") None) ≡ [] }
    ensures misses_ack { report_line (heard_at 5) (ack (codes "A") (codes "1")) ≡ [] }
    ensures misses_rej { report_line (heard_at 5) (rej (codes "A") (codes "1")) ≡ [] }
    ensures misses_raw { report_line (heard_at 5) raw ≡ [] }
    ensures unknown { known_line None ≡ [] }
{}

/// A station has a line with the number of its transmissions, and a message one with what came of
/// it.
pub fn stations_and_messages_have_lines()
    ensures station { station_line
        (record { call = n0call 7; transmissions = 3; position = None; status = None })
        ≡ codes "station N0CALL-7 3\n" }
    ensures message { message_line (hi_listed 5 6 Acknowledged (Some 6))
        ≡ line_with_text (codes "message") (codes "N0CALL-7" ∷ codes "N0CALL-8" ∷ codes "1"
        ∷ codes "acknowledged" ∷ moment_text 5 ∷ moment_text 6 ∷ []) (codes "Hi") }
{}
