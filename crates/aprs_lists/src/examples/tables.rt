//! Worked examples of the tables, and near misses.
ghost use Rattle.std.specs.Prelude.{◌≡◌, [], ◌∷◌, ◌++◌, Bool, List, None, Option, Some, codes, true, false, ℕ};
ghost use Rattle.aprs_ax25.specs.Callsign.{call_text};
ghost use Rattle.aprs_io.specs.Shown.{shown_text};
ghost use Rattle.aprs_log.specs.Moment.{moment_text};
ghost use Rattle.aprs_report.specs.Reading.{item, object, position, raw, status};
ghost use Rattle.aprs_report.specs.declared.place.Place.{Place};
ghost use Rattle.aprs_report.specs.declared.stamp.Stamp.{Stamp};
ghost use Rattle.aprs_report.specs.declared.symbol.Symbol.{Symbol};
ghost use Rattle.aprs_transmissions.specs.Examples.{n0call, rx1};
ghost use Rattle.aprs_transmissions.specs.Key.{key_of};
ghost use Rattle.aprs_table.specs.Cells.{stamp_field};
ghost use Rattle.aprs_summary.specs.declared.lists.message.MessageState.TheVariants.{Unnumbered, Unanswered, Acknowledged, Rejected};
ghost use Rattle.aprs_summary.specs.declared.lists.reply_ack.ReplyAck.TheVariants.{NotAwaited, Awaited, Heard};
ghost use Rattle.aprs_lists.specs.Activity.{frames_passed, heard_kept, heard_last, latest, passed_kept, passes_on, with_row};
ghost use Rattle.aprs_lists.specs.Examples.{ack_at, active_rows, heard_at, row_by, message_to, rej_at, reply_at, sent_as, text_to};
ghost use Rattle.aprs_lists.specs.Lines.{tabbed_line};
ghost use Rattle.aprs_lists.specs.Stations.{no_position, no_status, position_in, status_in};
ghost use Rattle.aprs_lists.specs.Things.{named_fields, placed_fields, thing_line_in};
ghost use Rattle.aprs_lists.specs.Told.{earlier_answer, listed_outcome, listed_settled, message_number, sent_told};

/// A message's number is its id, or else that of its text.
pub fn messages_have_numbers()
    ensures id { message_number (message_to (codes "WU2Z") (codes "Hi{02}") (Some (codes "01")))
        ≡ Some (codes "01") }
    ensures number { message_number (text_to (codes "Hi{01}")) ≡ Some (codes "01") }
    ensures with_another { message_number (text_to (codes "Hi{01}AB")) ≡ Some (codes "01") }
    ensures of_an_ack { message_number (text_to (codes "ack05}F1")) ≡ None }
    ensures none { message_number (text_to (codes "Hi")) ≡ None }
{}

/// Acks and rejs of an id make its state; any answer to a number makes its outcome.
pub fn answers_decide()
    ensures unnumbered { (sent_told (sent_as (codes "Hi") None) None None).outcome ≡ Unnumbered }
    ensures unanswered { (sent_told (sent_as (codes "Hi") (Some (codes "1"))) None None).state
        ≡ Unanswered }
    ensures acknowledged { (sent_told (sent_as (codes "Hi") (Some (codes "1"))) (Some (ack_at 6))
        None).state ≡ Acknowledged }
    ensures rejected { (sent_told (sent_as (codes "Hi") (Some (codes "1"))) (Some (rej_at 6))
        None).state ≡ Rejected }
    ensures by_reply_alone { (sent_told (sent_as (codes "Hi") (Some (codes "1"))) None
        (Some (reply_at 6))).state ≡ Unanswered }
    ensures outcome_by_reply { (sent_told (sent_as (codes "Hi") (Some (codes "1"))) None
        (Some (reply_at 6))).outcome ≡ Acknowledged }
    ensures number_by_ack { (sent_told (sent_as (codes "Hi{1}") None) (Some (rej_at 6))
        None).outcome ≡ Rejected }
    ensures number_has_no_state { (sent_told (sent_as (codes "Hi{1}") None) (Some (rej_at 6))
        None).state ≡ Unnumbered }
    ensures awaited { (sent_told (sent_as (codes "Hi{1}") None) (Some (ack_at 6)) None).reply_ack
        ≡ Awaited }
    ensures replied { (sent_told (sent_as (codes "Hi{1}") None) None (Some (reply_at 6))).reply_ack
        ≡ Heard 6 }
    ensures settled { (sent_told (sent_as (codes "Hi{1}") None) (Some (ack_at 7))
        (Some (reply_at 6))).settled ≡ Some 6 }
{}

/// The earlier of two answers counts, and of two at one moment the ack or rej.
pub fn earlier_answers_count()
    ensures first { earlier_answer (Some (ack_at 6)) (Some (reply_at 7)) ≡ Some (ack_at 6) }
    ensures at_once { earlier_answer (Some (rej_at 6)) (Some (reply_at 6)) ≡ Some (rej_at 6) }
    ensures second { earlier_answer (Some (ack_at 7)) (Some (reply_at 6)) ≡ Some (reply_at 6) }
    ensures one { earlier_answer None (Some (reply_at 6)) ≡ Some (reply_at 6) }
    ensures none { earlier_answer None None ≡ None }
{}

/// The outcome of a message of the listing is its state, or what a reply-ack says where it has no
/// id.
pub fn listed_messages_have_outcomes()
    ensures unnumbered { listed_outcome Unnumbered NotAwaited ≡ Unnumbered }
    ensures awaited { listed_outcome Unnumbered Awaited ≡ Unanswered }
    ensures replied { listed_outcome Unnumbered (Heard 6) ≡ Acknowledged }
    ensures rejected { listed_outcome Rejected NotAwaited ≡ Rejected }
    ensures unanswered { listed_outcome Unanswered NotAwaited ≡ Unanswered }
    ensures acknowledged { listed_outcome Acknowledged NotAwaited ≡ Acknowledged }
    ensures when { listed_settled (Some 5) NotAwaited ≡ Some 5 }
    ensures when_replied { listed_settled None (Heard 6) ≡ Some 6 }
    ensures never { listed_settled None Awaited ≡ None }
{}

/// An object or an item is told with its name, whether it is live, and when, by whom and from whom.
pub fn things_are_told()
    ensures live { named_fields (codes "A") true (heard_at 5) ≡ shown_text (codes "A")
        ∷ codes "live" ∷ moment_text 5 ∷ rx1 ∷ call_text (key_of []).source ∷ [] }
    ensures killed { named_fields (codes "A") false (heard_at 5) ≡ shown_text (codes "A")
        ∷ codes "killed" ∷ moment_text 5 ∷ rx1 ∷ call_text (key_of []).source ∷ [] }
    ensures object { (live : Bool) (stamp : Stamp) (place : Place) (symbol : Symbol)
        (comment : List ℕ) → thing_line_in (heard_at 5)
        (object (codes "A") live stamp place symbol comment)
        ≡ tabbed_line (codes "object" ∷ named_fields (codes "A") live (heard_at 5)
        ++ placed_fields (Some stamp) place symbol comment) }
    ensures item { (live : Bool) (place : Place) (symbol : Symbol) (comment : List ℕ)
        → thing_line_in (heard_at 5) (item (codes "A") live place symbol comment)
        ≡ tabbed_line (codes "item" ∷ named_fields (codes "A") live (heard_at 5)
        ++ placed_fields None place symbol comment) }
    ensures misses_others { thing_line_in (heard_at 5) raw ≡ [] }
{}

/// A station is told with the moment and the receiver of its position and of its status.
pub fn stations_are_told()
    ensures position { (messaging : Bool) (stamp : Option Stamp) (place : Place) (symbol : Symbol)
        (comment : List ℕ) → position_in (heard_at 5)
        (position messaging stamp place symbol comment)
        ≡ moment_text 5 ∷ rx1 ∷ placed_fields stamp place symbol comment }
    ensures status { (stamp : Option Stamp) (text : List ℕ) → status_in (heard_at 5)
        (status stamp text) ≡ moment_text 5 ∷ rx1 ∷ stamp_field stamp ∷ shown_text text ∷ [] }
    ensures no_place { position_in (heard_at 5) raw ≡ no_position }
    ensures misses_status { status_in (heard_at 5) raw ≡ no_status }
{}

/// A station was heard last at the latest of its rows' last moments, whatever they say.
#[tactic(auto, unfolding(aprs_transmissions::specs::Key::key_of))]
pub fn stations_are_heard_last()
    ensures none { latest [] ≡ None }
    ensures in_the_middle { latest (5 ∷ 9 ∷ 7 ∷ []) ≡ Some 9 }
    ensures twice { latest (5 ∷ 5 ∷ []) ≡ Some 5 }
    ensures heard { heard_last (n0call 7) active_rows ≡ Some 40 }
    ensures by_a_frame_that_it_passed_on { heard_last (n0call 8) active_rows ≡ Some 50 }
    ensures misses_source_of_a_passed_frame { heard_last (n0call 9) active_rows ≡ None }
{}

/// A station passed on each frame that begins as a third-party frame, whoever its source is.
pub fn stations_pass_on_frames()
    ensures one_of_two { frames_passed (n0call 8) active_rows ≡ 1 }
    ensures none { frames_passed (n0call 7) active_rows ≡ 0 }
    ensures passes { passes_on (row_by 8 50 (codes "}N0CALL-9>APRS:>Hi")) ≡ true }
    ensures any_source { passes_on (row_by 8 50 (codes "}>:")) ≡ true }
    ensures misses_colon { passes_on (row_by 8 50 (codes "}N0CALL-9>APRS")) ≡ false }
    ensures misses_arrow { passes_on (row_by 8 50 (codes "}N0CALL-9:>Hi")) ≡ false }
    ensures misses_brace { passes_on (row_by 8 50 (codes ">N0CALL-9>APRS:>Hi")) ≡ false }
{}

/// What is kept of a station is when it was heard last, and how many frames it passed on.
pub fn activities_are_kept()
    ensures heard { heard_kept (Some (record { heard = 5; passed = 2 })) ≡ Some 5 }
    ensures never_heard { heard_kept None ≡ None }
    ensures passed { passed_kept (Some (record { heard = 5; passed = 2 })) ≡ 2 }
    ensures never_passed { passed_kept None ≡ 0 }
    ensures first { with_row None 5 false ≡ record { heard = 5; passed = 0 } }
    ensures first_that_passes { with_row None 5 true ≡ record { heard = 5; passed = 1 } }
    ensures later { with_row (Some (record { heard = 5; passed = 2 })) 6 true
        ≡ record { heard = 6; passed = 3 } }
    ensures earlier { with_row (Some (record { heard = 5; passed = 2 })) 4 false
        ≡ record { heard = 5; passed = 2 } }
{}
