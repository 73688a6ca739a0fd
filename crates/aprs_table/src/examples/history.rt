//! Worked examples of the lines of a history, and near misses. Their functions do nothing.
#![tactic(auto, unfolding(crate::proofs::Steps::line_of))]

ghost use Rattle.std.specs.Prelude.{◌≡◌, ◌∷◌, ◌++◌, [], None, true, false, codes};
ghost use Rattle.aprs_report.specs.Examples.{leader, leader_item};
ghost use Rattle.aprs_report.specs.Reading.{ack, raw, status};
ghost use Rattle.aprs_transmissions.specs.Examples.{early_row, near_row};
ghost use Rattle.aprs_table.specs.HistoryExamples.{jeep_info, line_once, reported_once, row_to, with_lf};
ghost use Rattle.aprs_table.specs.History.{history_line};
ghost use Rattle.aprs_table.specs.HistoryLines.{told_named_line};

/// A line says when its row began and with_lf, by whom it was heard, and who sent the frame of its
/// greatest reception. It has that frame's digipeaters, a star after each that repeated it.
pub fn histories_tell_rows()
    ensures receivers { history_line near_row ≡ with_lf (codes
        "status 1970-01-01T00:00:00.000Z 1970-01-01T00:00:30.000Z RX1,RX2 N0CALL-7 - -:Hi") }
    ensures digipeater { history_line early_row ≡ with_lf (codes
        "status 1970-01-01T00:00:00.000Z 1970-01-01T00:00:00.000Z RX2 N0CALL-7 WIDE1-1* -:Hi") }

    ensures misses_last { history_line near_row ≡ with_lf (codes
        "status 1970-01-01T00:00:00.000Z 1970-01-01T00:00:00.000Z RX1,RX2 N0CALL-7 - -:Hi") → ⊥ }
    ensures misses_star { history_line early_row ≡ with_lf (codes
        "status 1970-01-01T00:00:00.000Z 1970-01-01T00:00:00.000Z RX2 N0CALL-7 WIDE1-1 -:Hi") → ⊥ }
{}

/// A line has the kind of its frame's report, and what the report says.
pub fn histories_tell_reports()
    ensures position { history_line (reported_once (codes "!4903.50N/07201.75W-Test"))
        ≡ line_once (codes "position") (codes "- 294350/6000 -432175/6000 0 /-:Test") }
    ensures object { history_line (reported_once (codes ";LEADER   *092345z4903.50N/07201.75W>"))
        ≡ line_once (codes "object")
        (codes "LEADER live 092345z 294350/6000 -432175/6000 0 />:") }
    ensures killed { history_line (reported_once (codes ";LEADER   _092345z4903.50N/07201.75W>"))
        ≡ line_once (codes "object")
        (codes "LEADER killed 092345z 294350/6000 -432175/6000 0 />:") }
    ensures compressed { history_line (reported_once (codes "=/5L!!<*e7> sT"))
        ≡ line_once (codes "position") (codes "- 18855837/380926 -13856184/190463 c />:") }
    ensures item { history_line (reported_once (codes ")AID #2!4903.50N/07201.75WA"))
        ≡ line_once (codes "item")
        (codes "AID\\x20#2 live - 294350/6000 -432175/6000 0 /A:") }
    ensures message { history_line (reported_once (codes ":WU2Z     :Testing{003"))
        ≡ line_once (codes "message") (codes "WU2Z 003:Testing") }
    ensures unnumbered { history_line (reported_once (codes ":WU2Z     :Testing"))
        ≡ line_once (codes "message") (codes "WU2Z -:Testing") }
    ensures ack { history_line (reported_once (codes ":WU2Z     :ack003"))
        ≡ line_once (codes "ack") (codes "WU2Z 003") }
    ensures rej { history_line (reported_once (codes ":WU2Z     :rej003"))
        ≡ line_once (codes "rej") (codes "WU2Z 003") }
    ensures raw { history_line (reported_once (codes "T#005"))
        ≡ line_once (codes "raw") (codes "APRS:T#005") }
    ensures numbers { history_line (reported_once (codes ">Hi\n\\" ++ 255 ∷ []))
        ≡ line_once (codes "status") (codes "-:Hi\\x0a\\x5c\\xff") }

    ensures stamped { history_line (reported_once (codes "@092345z4903.50N/07201.75W>"))
        ≡ line_once (codes "position") (codes "092345z 294350/6000 -432175/6000 0 />:") }
    ensures status { history_line (reported_once (codes ">092345zHi"))
        ≡ line_once (codes "status") (codes "092345z:Hi") }
    ensures ambiguous { history_line (reported_once (codes "!4903.5 N/07201.7 W-"))
        ≡ line_once (codes "position") (codes "- 294350/6000 -432170/6000 1 /-:") }
    ensures dead_item { history_line (reported_once (codes ")AID #2_4903.50N/07201.75WA"))
        ≡ line_once (codes "item")
        (codes "AID\\x20#2 killed - 294350/6000 -432175/6000 0 /A:") }

    ensures misses_north { history_line (reported_once (codes "!4903.50N/07201.75W-Test"))
        ≡ line_once (codes "position") (codes "- -432175/6000 294350/6000 0 /-:Test") → ⊥ }
    ensures misses_addressee { history_line (reported_once (codes ":WU2Z     :Testing{003"))
        ≡ line_once (codes "message") (codes "003 WU2Z:Testing") → ⊥ }
    ensures misses_capital { history_line (reported_once (codes ">Hi\n"))
        ≡ line_once (codes "status") (codes "-:Hi\\x0A") → ⊥ }
    ensures misses_rej { history_line (reported_once (codes ":WU2Z     :rej003"))
        ≡ line_once (codes "ack") (codes "WU2Z 003") → ⊥ }
{}

/// The line of a Mic-E frame says its course and its speed, what the station says of itself, and
/// where it is. Without the symbol's table it is no Mic-E frame.
pub fn histories_tell_mic_e()
    ensures mic_e { history_line (row_to (codes "S32UVT") jeep_info)
        ≡ line_once (codes "mic-e")
        (codes "251 20 returning - 200564/6000 -672774/6000 0 /j:") }
    ensures comment { history_line (row_to (codes "S32UVT") (jeep_info ++ codes "Hi"))
        ≡ line_once (codes "mic-e")
        (codes "251 20 returning - 200564/6000 -672774/6000 0 /j:Hi") }
    ensures committed { history_line (row_to (codes "3SRUVT") jeep_info)
        ≡ line_once (codes "mic-e")
        (codes "251 20 committed - 200564/6000 -672774/6000 0 /j:") }
    ensures raw { history_line (row_to (codes "S32UVT") (codes "`(_fn\"Oj"))
        ≡ line_once (codes "raw") (codes "S32UVT:`(_fn\"Oj") }

    ensures misses_course { history_line (row_to (codes "S32UVT") jeep_info)
        ≡ line_once (codes "mic-e")
        (codes "20 251 returning - 200564/6000 -672774/6000 0 /j:") → ⊥ }
    ensures misses_raw { history_line (row_to (codes "S32UVT") jeep_info)
        ≡ line_once (codes "raw") (codes "S32UVT:`(_fn\"Oj/") → ⊥ }
{}

/// Of the reports an object and an item alone have a line by their name.
pub fn named_reports_have_lines()
    ensures object { told_named_line (codes "RX1" ∷ []) (leader true)
        ≡ with_lf (codes "object RX1 LEADER live 092345z 294350/6000 -432175/6000 0 />:") }
    ensures killed { told_named_line (codes "RX1" ∷ []) (leader false)
        ≡ with_lf (codes "object RX1 LEADER killed 092345z 294350/6000 -432175/6000 0 />:") }
    ensures item { told_named_line (codes "RX1" ∷ []) (leader_item true)
        ≡ with_lf (codes "item RX1 LEADER live - 294350/6000 -432175/6000 0 />:") }
    ensures misses_status { told_named_line (codes "RX1" ∷ []) (status None (codes "Hi")) ≡ [] }
    ensures misses_ack { told_named_line (codes "RX1" ∷ []) (ack (codes "LEADER") (codes "1"))
        ≡ [] }
    ensures misses_raw { told_named_line (codes "RX1" ∷ []) raw ≡ [] }
{}
