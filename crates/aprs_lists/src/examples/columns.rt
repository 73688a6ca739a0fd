//! Worked examples of the lines of the tables: each field stands below the name of its column.
ghost use Rattle.std.specs.Prelude.{◌≡◌, [], ◌∷◌, Bool, List, None, Some, codes, ℕ};
ghost use Rattle.aprs_ax25.specs.Callsign.{call_text};
ghost use Rattle.aprs_io.specs.Shown.{shown_text};
ghost use Rattle.aprs_log.specs.Moment.{moment_text};
ghost use Rattle.aprs_transmissions.specs.Examples.{n0call, rx1};
ghost use Rattle.aprs_summary.specs.Examples.{heard_by};
ghost use Rattle.aprs_table.specs.Examples.{fields_with};
ghost use Rattle.aprs_lists.specs.Lines.{tabbed_line};
ghost use Rattle.aprs_lists.specs.NetExamples.{told_all, told_awaited};
ghost use Rattle.aprs_lists.specs.Stations.{activity_fields, station_columns, station_fields};
ghost use Rattle.aprs_lists.specs.Things.{heard_thing_line, thing_columns};
ghost use Rattle.aprs_lists.specs.Told.{message_columns, told_fields};

/// A line has a tab between two fields, and ends in LF.
pub fn lines_have_tabs()
    ensures none { tabbed_line [] ≡ 10 ∷ [] }
    ensures one { tabbed_line (codes "a" ∷ []) ≡ 97 ∷ 10 ∷ [] }
    ensures two { tabbed_line (codes "a" ∷ codes "b" ∷ []) ≡ 97 ∷ 9 ∷ 98 ∷ 10 ∷ [] }
    ensures empty { tabbed_line ([] ∷ codes "b" ∷ [] ∷ []) ≡ 9 ∷ 98 ∷ 9 ∷ 10 ∷ [] }
{}

/// The fields of a message with an id, and of one that awaits a reply-ack.
pub fn messages_have_columns()
    ensures all { told_fields told_all ≡ fields_with message_columns (
        (codes "source", call_text (n0call 7)) ∷
        (codes "addressee", shown_text (codes "N0CALL-8")) ∷
        (codes "id", shown_text (codes "1")) ∷ (codes "text", shown_text (codes "Hi")) ∷
        (codes "state", codes "rejected") ∷ (codes "first", moment_text 1) ∷
        (codes "last", moment_text 2) ∷ (codes "answer", moment_text 3) ∷
        (codes "answer_source", shown_text (codes "N0CALL-8")) ∷
        (codes "reply_ack", codes "acknowledged") ∷ (codes "reply_answer", moment_text 4) ∷
        (codes "gate", call_text (n0call 1)) ∷ (codes "class", codes "message") ∷
        (codes "number", shown_text (codes "1")) ∷ (codes "outcome", codes "acknowledged") ∷
        (codes "outcome_moment", moment_text 5) ∷ []) }
    ensures awaited { told_fields told_awaited ≡ fields_with message_columns (
        (codes "source", call_text (n0call 7)) ∷
        (codes "addressee", shown_text (codes "N0CALL-8")) ∷
        (codes "text", shown_text (codes "Hi{05}")) ∷ (codes "state", codes "unnumbered") ∷
        (codes "first", moment_text 1) ∷ (codes "last", moment_text 2) ∷
        (codes "reply_ack", codes "unanswered") ∷ (codes "class", codes "message") ∷
        (codes "number", shown_text (codes "05")) ∷ (codes "outcome", codes "unanswered") ∷ []) }
{}

/// The fields of a station with a position and a status, and of one with neither.
pub fn stations_have_columns()
    ensures all { station_fields
        (record {
          call = n0call 7;
          transmissions = 3;
          position = Some (heard_by 7 5 (codes "@092345z4903.50N/07201.75W-Hi"));
          status = Some (heard_by 7 6 (codes ">092346zHo"));
        }) (activity_fields (Some 8) 2) ≡ fields_with station_columns (
        (codes "source", codes "N0CALL-7") ∷ (codes "transmissions", codes "3") ∷
        (codes "last", moment_text 5) ∷ (codes "receiver", rx1) ∷
        (codes "stamp", codes "092345z") ∷ (codes "latitude", codes "49.0583333") ∷
        (codes "longitude", codes "-72.0291667") ∷ (codes "ambiguity", codes "0") ∷
        (codes "compressed", codes "no") ∷ (codes "symbol", codes "/-") ∷
        (codes "text", codes "Hi") ∷ (codes "status_last", moment_text 6) ∷
        (codes "status_receiver", rx1) ∷ (codes "status_stamp", codes "092346z") ∷
        (codes "status_text", codes "Ho") ∷ (codes "heard", moment_text 8) ∷
        (codes "passed", codes "2") ∷ []) }
    ensures misses_both { station_fields
        (record { call = n0call 0; transmissions = 1; position = None; status = None })
        (activity_fields (Some 8) 0) ≡ fields_with station_columns (
        (codes "source", codes "N0CALL") ∷ (codes "transmissions", codes "1") ∷
        (codes "heard", moment_text 8) ∷ (codes "passed", codes "0") ∷ []) }
{}

/// The fields of an object that is live, and of an item that is killed.
pub fn things_have_columns()
    ensures object { heard_thing_line
        (heard_by 7 5 (codes ";LEADER   *092345z4903.50N/07201.75W>Hi"))
        ≡ tabbed_line (fields_with thing_columns (
        (codes "kind", codes "object") ∷ (codes "name", codes "LEADER") ∷
        (codes "state", codes "live") ∷ (codes "last", moment_text 5) ∷ (codes "receiver", rx1) ∷
        (codes "source", codes "N0CALL-7") ∷ (codes "stamp", codes "092345z") ∷
        (codes "latitude", codes "49.0583333") ∷ (codes "longitude", codes "-72.0291667") ∷
        (codes "ambiguity", codes "0") ∷ (codes "compressed", codes "no") ∷
        (codes "symbol", codes "/>") ∷ (codes "text", codes "Hi") ∷ [])) }
    ensures item { heard_thing_line (heard_by 7 5 (codes ")AID_/5L!!<*e7> sT"))
        ≡ tabbed_line (fields_with thing_columns (
        (codes "kind", codes "item") ∷ (codes "name", codes "AID") ∷
        (codes "state", codes "killed") ∷ (codes "last", moment_text 5) ∷
        (codes "receiver", rx1) ∷ (codes "source", codes "N0CALL-7") ∷
        (codes "latitude", codes "49.5000000") ∷ (codes "longitude", codes "-72.7500039") ∷
        (codes "compressed", codes "yes") ∷ (codes "symbol", codes "/>") ∷ [])) }
    ensures misses_others { heard_thing_line (heard_by 7 5 (codes ">Hi")) ≡ [] }
{}
