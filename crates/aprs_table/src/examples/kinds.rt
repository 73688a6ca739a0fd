//! Worked examples of the kinds of frames, and of what each tells, and near misses.
ghost use Rattle.std.specs.Prelude.{codes, ◌∷◌, ◌++◌, []};
ghost use Rattle.aprs_table.specs.Examples.{Tells, at_here, TellsTo, at_the_jeep};

/// Each form of a report has its kind, with a name, a state, a stamp or an id where it has one.
pub fn reports_have_kinds()
    ensures position { Tells (codes "!4903.50N/07201.75W-Hi") (codes "position") (
        at_here ++ ((codes "symbol", codes "/-") ∷ (codes "text", codes "Hi") ∷
        (codes "messaging", codes "no") ∷ [])) }
    ensures with_messages { Tells (codes "=4903.50N/07201.75W-") (codes "position") (
        at_here ++ ((codes "symbol", codes "/-") ∷ (codes "messaging", codes "yes") ∷ [])) }
    ensures stamped { Tells (codes "/092345z4903.50N/07201.75W-") (codes "position") (
        at_here ++ ((codes "symbol", codes "/-") ∷ (codes "stamp", codes "092345z") ∷
        (codes "messaging", codes "no") ∷ [])) }
    ensures stamped_with_messages { Tells (codes "@092345/4903.50N/07201.75W-") (codes "position") (
        at_here ++ ((codes "symbol", codes "/-") ∷ (codes "stamp", codes "092345/") ∷
        (codes "messaging", codes "yes") ∷ [])) }
    ensures object { Tells (codes ";LEADER   *092345z4903.50N/07201.75W>") (codes "object") (
        (codes "name", codes "LEADER") ∷ (codes "state", codes "live") ∷ at_here ++ (
        (codes "symbol", codes "/>") ∷ (codes "stamp", codes "092345z") ∷ [])) }
    ensures killed_object { Tells (codes ";LEADER   _092345z4903.50N/07201.75W>180/010")
        (codes "object") (
        (codes "name", codes "LEADER") ∷ (codes "state", codes "killed") ∷ at_here ++ (
        (codes "symbol", codes "/>") ∷ (codes "stamp", codes "092345z") ∷
        (codes "course", codes "180") ∷ (codes "speed_knots", codes "10") ∷
        (codes "text", codes "180/010") ∷ [])) }
    ensures item { Tells (codes ")LEADER!4903.50N/07201.75W>") (codes "item") (
        (codes "name", codes "LEADER") ∷ (codes "state", codes "live") ∷ at_here ++ (
        (codes "symbol", codes "/>") ∷ [])) }
    ensures killed_item { Tells (codes ")LEADER_4903.50N/07201.75W>Hi") (codes "item") (
        (codes "name", codes "LEADER") ∷ (codes "state", codes "killed") ∷ at_here ++ (
        (codes "symbol", codes "/>") ∷ (codes "text", codes "Hi") ∷ [])) }

    ensures status { Tells (codes ">Hi") (codes "status") (
        (codes "text", codes "Hi") ∷ []) }
    ensures stamped_status { Tells (codes ">092345zHi") (codes "status") (
        (codes "stamp", codes "092345z") ∷ (codes "text", codes "Hi") ∷ []) }
    ensures message { Tells (codes ":WU2Z     :Hello") (codes "message") (
        (codes "name", codes "WU2Z") ∷ (codes "text", codes "Hello") ∷ []) }
    ensures numbered_message { Tells (codes ":WU2Z     :Hello{003") (codes "message") (
        (codes "name", codes "WU2Z") ∷ (codes "id", codes "003") ∷
        (codes "text", codes "Hello") ∷ []) }
    ensures ack { Tells (codes ":WU2Z     :ack003") (codes "ack") (
        (codes "name", codes "WU2Z") ∷ (codes "id", codes "003") ∷ []) }
    ensures rej { Tells (codes ":WU2Z     :rej003") (codes "rej") (
        (codes "name", codes "WU2Z") ∷ (codes "id", codes "003") ∷ []) }

    ensures weather { Tells (codes "_10090556c220s004g005") (codes "weather") (
        (codes "wind_from", codes "220") ∷ (codes "wind_mph", codes "4") ∷
        (codes "gust_mph", codes "5") ∷ (codes "text", codes "_10090556c220s004g005") ∷ []) }
    ensures telemetry { Tells (codes "T#005,199") (codes "telemetry") (
        (codes "telemetry_sequence", codes "005") ∷ (codes "a1", codes "199") ∷
        (codes "text", codes "T#005,199") ∷ []) }
    ensures raw { Tells (codes "?APRS?") (codes "raw") (
        (codes "text", codes "?APRS?") ∷ []) }
    ensures shown { Tells (codes "a\\b" ++ 9 ∷ 10 ∷ 127 ∷ []) (codes "raw") (
        (codes "text", codes "a\\x5cb\\x09\\x0a\\x7f") ∷ []) }
{}

/// A Mic-E position says how old its fix is, and what the station says of itself. A course of 0 is
/// unknown. No weather, range or transmitter is read of its comment.
pub fn mic_e_positions_are_told()
    ensures current { TellsTo (codes "S32UVT") (codes "`(_fn\"Oj/]\"4T}Hi") (
        (codes "kind", codes "mic-e") ∷ at_the_jeep ++ ((codes "symbol", codes "/j") ∷
        (codes "course", codes "251") ∷ (codes "speed_knots", codes "20") ∷
        (codes "altitude_m", codes "61.0000") ∷ (codes "says", codes "returning") ∷
        (codes "text", codes "]\"4T}Hi") ∷ (codes "fix", codes "current") ∷ [])) }
    ensures old { TellsTo (codes "S32UVT") (codes "'(_fn\"Oj/") (
        (codes "kind", codes "mic-e") ∷ at_the_jeep ++ ((codes "symbol", codes "/j") ∷
        (codes "course", codes "251") ∷ (codes "speed_knots", codes "20") ∷
        (codes "says", codes "returning") ∷ (codes "fix", codes "old") ∷ [])) }
    ensures unknown_course { TellsTo (codes "S32UVT") (codes "`(_fn " ++ 28 ∷ codes "j/") (
        (codes "kind", codes "mic-e") ∷ at_the_jeep ++ ((codes "symbol", codes "/j") ∷
        (codes "speed_knots", codes "20") ∷ (codes "says", codes "returning") ∷
        (codes "fix", codes "current") ∷ [])) }
    ensures least_course { TellsTo (codes "S32UVT") (codes "`(_fn " ++ 29 ∷ codes "j/") (
        (codes "kind", codes "mic-e") ∷ at_the_jeep ++ ((codes "symbol", codes "/j") ∷
        (codes "course", codes "1") ∷ (codes "speed_knots", codes "20") ∷
        (codes "says", codes "returning") ∷ (codes "fix", codes "current") ∷ [])) }
    ensures greatest_course { TellsTo (codes "S32UVT") (codes "`(_fn#Xj/") (
        (codes "kind", codes "mic-e") ∷ at_the_jeep ++ ((codes "symbol", codes "/j") ∷
        (codes "course", codes "360") ∷ (codes "speed_knots", codes "20") ∷
        (codes "says", codes "returning") ∷ (codes "fix", codes "current") ∷ [])) }
    ensures past_north { TellsTo (codes "S32UVT") (codes "`(_fn#Yj/") (
        (codes "kind", codes "raw") ∷ (codes "text", codes "`(_fn#Yj/") ∷ []) }
    ensures weather_station { TellsTo (codes "S32UVT") (codes "`(_fn\"O_/c220s004g005") (
        (codes "kind", codes "mic-e") ∷ at_the_jeep ++ ((codes "symbol", codes "/_") ∷
        (codes "course", codes "251") ∷ (codes "speed_knots", codes "20") ∷
        (codes "says", codes "returning") ∷ (codes "text", codes "c220s004g005") ∷
        (codes "fix", codes "current") ∷ [])) }
    ensures extension { TellsTo (codes "S32UVT") (codes "`(_fn\"Oj/PHG5132") (
        (codes "kind", codes "mic-e") ∷ at_the_jeep ++ ((codes "symbol", codes "/j") ∷
        (codes "course", codes "251") ∷ (codes "speed_knots", codes "20") ∷
        (codes "says", codes "returning") ∷ (codes "text", codes "PHG5132") ∷
        (codes "fix", codes "current") ∷ [])) }
    ensures frequency { TellsTo (codes "S32UVT") (codes "`(_fn\"Oj/]146.520MHz T100") (
        (codes "kind", codes "mic-e") ∷ at_the_jeep ++ ((codes "symbol", codes "/j") ∷
        (codes "course", codes "251") ∷ (codes "speed_knots", codes "20") ∷
        (codes "says", codes "returning") ∷ (codes "text", codes "]146.520MHz T100") ∷
        (codes "fix", codes "current") ∷ (codes "frequency_khz", codes "146520") ∷
        (codes "tone", codes "T100") ∷ [])) }
    ensures telemetry { TellsTo (codes "S32UVT") (codes "`(_fn\"Oj/|ss11|") (
        (codes "kind", codes "mic-e") ∷ at_the_jeep ++ ((codes "symbol", codes "/j") ∷
        (codes "course", codes "251") ∷ (codes "speed_knots", codes "20") ∷
        (codes "telemetry_sequence", codes "7544") ∷ (codes "a1", codes "1472") ∷
        (codes "says", codes "returning") ∷ (codes "text", codes "|ss11|") ∷
        (codes "fix", codes "current") ∷ [])) }
    ensures emergency { TellsTo (codes "332UVT") (codes "`(_fn\"Oj/") (
        (codes "kind", codes "mic-e") ∷ at_the_jeep ++ ((codes "symbol", codes "/j") ∷
        (codes "course", codes "251") ∷ (codes "speed_knots", codes "20") ∷
        (codes "says", codes "emergency") ∷ (codes "fix", codes "current") ∷ [])) }
    ensures custom { TellsTo (codes "D32UVT") (codes "`(_fn\"Oj/") (
        (codes "kind", codes "mic-e") ∷ at_the_jeep ++ ((codes "symbol", codes "/j") ∷
        (codes "course", codes "251") ∷ (codes "speed_knots", codes "20") ∷
        (codes "says", codes "custom-3") ∷ (codes "fix", codes "current") ∷ [])) }
{}
