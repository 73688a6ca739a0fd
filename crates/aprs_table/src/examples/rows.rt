//! Worked examples of when and by whom a row was heard, and of who sent it, and near misses.
ghost use Rattle.std.specs.Prelude.{codes, ◌≡◌, ◌∷◌, ◌++◌, []};
ghost use Rattle.aprs_table.specs.Examples.{heard_twice, line_with, heard_once, to, Passes, at_0, at_the_jeep};
ghost use Rattle.aprs_table.specs.Table.{table_line};

/// A row has its first and last moment, its receivers, the receiver of its greatest reception, and
/// the digipeaters.
pub fn rows_have_moments_and_receivers()
    ensures twice { table_line heard_twice ≡ line_with (
        (codes "kind", codes "status") ∷ (codes "first", codes "1970-01-01T12:00:00.000Z") ∷
        (codes "last", codes "1970-01-01T12:00:05.000Z") ∷ (codes "receivers", codes "RX1,RX2") ∷
        (codes "receiver", codes "RX2") ∷ (codes "source", codes "N0CALL-7") ∷
        (codes "destination", codes "APRS") ∷ (codes "via", codes "WIDE1-1*,WIDE2-2") ∷
        (codes "text", codes "Hi") ∷ []) }
    ensures once { table_line (heard_once (to (codes "S32UVT")) (codes ">Hi")) ≡ line_with (
        (codes "kind", codes "status") ∷ (codes "first", codes "1970-01-01T12:00:00.000Z") ∷
        (codes "last", codes "1970-01-01T12:00:00.000Z") ∷ (codes "receivers", codes "RX1") ∷
        (codes "receiver", codes "RX1") ∷ (codes "source", codes "N0CALL-7") ∷
        (codes "destination", codes "S32UVT") ∷ (codes "text", codes "Hi") ∷ []) }
{}

/// Of a frame that is passed on the line tells who sent it, and who passed it on. A frame within
/// that is not looked for.
pub fn frames_that_are_passed_on_have_a_gate()
    ensures message { Passes (codes "}WU2Z-1>APRS,TCPIP,N0CALL-10*::N0CALL-7 :Hello{003") (
        (codes "kind", codes "message") ∷ (codes "source", codes "WU2Z-1") ∷
        (codes "destination", codes "APRS") ∷ (codes "via", codes "TCPIP,N0CALL-10*") ∷
        (codes "gate", codes "N0CALL-7") ∷ (codes "name", codes "N0CALL-7") ∷
        (codes "id", codes "003") ∷ (codes "text", codes "Hello") ∷ []) }
    ensures position { Passes (codes "}WU2Z>APRS:!0000.00S/00000.00W-!W12!") (
        (codes "kind", codes "position") ∷ (codes "source", codes "WU2Z") ∷
        (codes "destination", codes "APRS") ∷ (codes "gate", codes "N0CALL-7") ∷ at_0 ++ (
        (codes "symbol", codes "/-") ∷ (codes "text", codes "!W12!") ∷
        (codes "messaging", codes "no") ∷ (codes "finer_latitude", codes "-0.0000167") ∷
        (codes "finer_longitude", codes "-0.0000333") ∷ [])) }
    ensures within { Passes (codes "}A>B:}C>D:>Hi") (
        (codes "kind", codes "raw") ∷ (codes "source", codes "A") ∷
        (codes "destination", codes "B") ∷ (codes "gate", codes "N0CALL-7") ∷
        (codes "text", codes "}C>D:>Hi") ∷ []) }
    ensures nothing { Passes (codes "}>:") (
        (codes "kind", codes "raw") ∷ (codes "gate", codes "N0CALL-7") ∷ []) }
    ensures not_passed { Passes (codes "}A>B") (
        (codes "kind", codes "raw") ∷ (codes "source", codes "N0CALL-7") ∷
        (codes "destination", codes "APRS") ∷ (codes "text", codes "}A>B") ∷ []) }
{}

/// A Mic-E position that is passed on is told by the characters of its destination, which are six.
/// The SSID there isn't looked at.
pub fn mic_e_positions_are_passed_on()
    ensures direct { Passes (codes "}WU2Z>S32UVT:`(_fn\"Oj/") (
        (codes "kind", codes "mic-e") ∷ (codes "source", codes "WU2Z") ∷
        (codes "destination", codes "S32UVT") ∷ (codes "gate", codes "N0CALL-7") ∷
        at_the_jeep ++ ((codes "symbol", codes "/j") ∷ (codes "course", codes "251") ∷
        (codes "speed_knots", codes "20") ∷ (codes "says", codes "returning") ∷
        (codes "fix", codes "current") ∷ [])) }
    ensures by_digipeaters { Passes (codes "}WU2Z-9>S32UVT-2,TCPIP,RX1*:'(_fn\"Oj/]\"4T}Hi") (
        (codes "kind", codes "mic-e") ∷ (codes "source", codes "WU2Z-9") ∷
        (codes "destination", codes "S32UVT-2") ∷ (codes "via", codes "TCPIP,RX1*") ∷
        (codes "gate", codes "N0CALL-7") ∷ at_the_jeep ++ ((codes "symbol", codes "/j") ∷
        (codes "course", codes "251") ∷ (codes "speed_knots", codes "20") ∷
        (codes "altitude_m", codes "61.0000") ∷ (codes "says", codes "returning") ∷
        (codes "text", codes "]\"4T}Hi") ∷ (codes "fix", codes "old") ∷ [])) }
    ensures south_east { Passes (codes "}WU2Z>PPP0P0-A-1:`vX" ++ 28 ∷ codes "n\"Oj/!W12!") (
        (codes "kind", codes "mic-e") ∷ (codes "source", codes "WU2Z") ∷
        (codes "destination", codes "PPP0P0-A-1") ∷ (codes "gate", codes "N0CALL-7") ∷
        at_0 ++ ((codes "symbol", codes "/j") ∷ (codes "course", codes "251") ∷
        (codes "speed_knots", codes "20") ∷ (codes "says", codes "off-duty") ∷
        (codes "text", codes "!W12!") ∷ (codes "fix", codes "current") ∷
        (codes "finer_latitude", codes "-0.0000167") ∷
        (codes "finer_longitude", codes "0.0000333") ∷ [])) }
    ensures misses_five_letters { Passes (codes "}WU2Z>S32UV-1:`(_fn\"Oj/") (
        (codes "kind", codes "raw") ∷ (codes "source", codes "WU2Z") ∷
        (codes "destination", codes "S32UV-1") ∷ (codes "gate", codes "N0CALL-7") ∷
        (codes "text", codes "`(_fn\"Oj/") ∷ []) }
    ensures misses_seven_letters { Passes (codes "}WU2Z>S32UVTT:`(_fn\"Oj/") (
        (codes "kind", codes "raw") ∷ (codes "source", codes "WU2Z") ∷
        (codes "destination", codes "S32UVTT") ∷ (codes "gate", codes "N0CALL-7") ∷
        (codes "text", codes "`(_fn\"Oj/") ∷ []) }
    ensures misses_letters { Passes (codes "}WU2Z>S32UVM:`(_fn\"Oj/") (
        (codes "kind", codes "raw") ∷ (codes "source", codes "WU2Z") ∷
        (codes "destination", codes "S32UVM") ∷ (codes "gate", codes "N0CALL-7") ∷
        (codes "text", codes "`(_fn\"Oj/") ∷ []) }
    ensures misses_dash { Passes (codes "}WU2Z>-S32UVT:`(_fn\"Oj/") (
        (codes "kind", codes "raw") ∷ (codes "source", codes "WU2Z") ∷
        (codes "destination", codes "-S32UVT") ∷ (codes "gate", codes "N0CALL-7") ∷
        (codes "text", codes "`(_fn\"Oj/") ∷ []) }
    ensures misses_within { Passes (codes "}A>B:}WU2Z>S32UVT:`(_fn\"Oj/") (
        (codes "kind", codes "raw") ∷ (codes "source", codes "A") ∷
        (codes "destination", codes "B") ∷ (codes "gate", codes "N0CALL-7") ∷
        (codes "text", codes "}WU2Z>S32UVT:`(_fn\"Oj/") ∷ []) }
    ensures misses_status { Passes (codes "}WU2Z>S32UVT:>Hi") (
        (codes "kind", codes "status") ∷ (codes "source", codes "WU2Z") ∷
        (codes "destination", codes "S32UVT") ∷ (codes "gate", codes "N0CALL-7") ∷
        (codes "text", codes "Hi") ∷ []) }
{}
