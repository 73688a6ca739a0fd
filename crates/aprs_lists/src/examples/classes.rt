//! Worked examples of the classes of messages, and near misses.
ghost use Rattle.std.specs.Prelude.{◌≡◌, [], ◌∷◌, None, Some, List, codes, ℕ};
ghost use Rattle.aprs_details.specs.Examples.{Gives};
ghost use Rattle.aprs_lists.specs.Class.{class_text};
ghost use Rattle.aprs_lists.specs.Examples.{hi_to, message_to, text_to};

/// Bulletins, announcements and those of the weather service have addressees of their own.
pub fn addressees_have_classes()
    ensures bulletins { Gives (λ to. class_text (hi_to to)) (
        (codes "BLN0", codes "bulletin") ∷  -- the first digit
        (codes "BLN9WX", codes "bulletin") ∷  -- the last, and a group
        (codes "BLN1A", codes "bulletin") ∷  -- the mark counts
        (codes "BLN/", codes "message") ∷  -- before the digits
        (codes "BLN:", codes "message") ∷  -- after them
        (codes "BLN", codes "message") ∷  -- no mark
        (codes "BL", codes "message") ∷
        (codes "B", codes "message") ∷
        ([], codes "message") ∷
        (codes "ALN1", codes "message") ∷  -- another first letter
        (codes "CLN1", codes "message") ∷
        (codes "BKN1", codes "message") ∷  -- another second
        (codes "BMN1", codes "message") ∷
        (codes "BLM1", codes "message") ∷  -- another third
        (codes "BLO1", codes "message") ∷
        (codes "bln1", codes "message") ∷  -- small letters
        (codes " BLN1", codes "message") ∷ [])  -- late
    }
    ensures announcements { Gives (λ to. class_text (hi_to to)) (
        (codes "BLNA", codes "announcement") ∷  -- the first capital
        (codes "BLNZ", codes "announcement") ∷  -- the last
        (codes "BLNA1", codes "announcement") ∷  -- the mark counts
        (codes "BLN@", codes "message") ∷  -- before the capitals
        (codes "BLN[", codes "message") ∷  -- after them
        (codes "BLNa", codes "message") ∷ [])  -- a small letter
    }
    ensures of_the_weather { Gives (λ to. class_text (hi_to to)) (
        (codes "NWS-", codes "weather-bulletin") ∷  -- nothing more
        (codes "NWS-WARN", codes "weather-bulletin") ∷
        (codes "NWS", codes "message") ∷  -- no dash
        (codes "NWSX", codes "message") ∷
        (codes "NWR-1", codes "message") ∷  -- another letter
        (codes "nws-1", codes "message") ∷ [])  -- small letters
    }
    ensures before_text { class_text (message_to (codes "BLN1") (codes "?APRSD") None)
        ≡ codes "bulletin" }
    ensures announcement_before_text { class_text (message_to (codes "BLNA") (codes "PARM.a") None)
        ≡ codes "announcement" }
    ensures weather_before_text { class_text (message_to (codes "NWS-1") (codes "ack05}") None)
        ≡ codes "weather-bulletin" }
{}

/// The texts of telemetry and queries begin so, with an id or without.
pub fn texts_have_classes()
    ensures telemetry { Gives (λ text. class_text (text_to text)) (
        (codes "PARM.", codes "telemetry") ∷  -- names
        (codes "UNIT.a", codes "telemetry") ∷  -- units
        (codes "EQNS.0", codes "telemetry") ∷  -- factors
        (codes "BITS.1", codes "telemetry") ∷  -- bits
        (codes "PARM", codes "message") ∷  -- no point
        (codes "UNIT,", codes "message") ∷
        (codes "EQNS/", codes "message") ∷
        (codes "BITS", codes "message") ∷
        (codes "PARK.", codes "message") ∷  -- another letter
        (codes "parm.", codes "message") ∷  -- small letters
        (codes " PARM.", codes "message") ∷ [])  -- late
    }
    ensures queries { Gives (λ text. class_text (text_to text)) (
        (codes "?APRS", codes "query") ∷  -- nothing more
        (codes "?APRSD", codes "query") ∷
        (codes "?PING?", codes "query") ∷
        (codes "?APR", codes "message") ∷  -- a letter too few
        (codes "?PING", codes "message") ∷
        (codes "APRSD", codes "message") ∷  -- no mark
        (codes "? Who", codes "message") ∷
        (codes "?aprsd", codes "message") ∷  -- small letters
        (codes " ?APRS", codes "message") ∷ [])  -- late
    }
    ensures telemetry_with_an_id { class_text
        (message_to (codes "N0CALL-8") (codes "BITS.1") (Some (codes "1"))) ≡ codes "telemetry" }
    ensures query_with_an_id { class_text
        (message_to (codes "N0CALL-8") (codes "?APRSD") (Some (codes "1"))) ≡ codes "query" }
{}

/// An answer is an ack with a number, a brace and perhaps another number, and has no id.
pub fn answers_have_a_class()
    ensures reads { Gives (λ text. class_text (text_to text)) (
        (codes "ack5}", codes "answer") ∷  -- one digit
        (codes "ack05}", codes "answer") ∷  -- two
        (codes "ackAz}", codes "answer") ∷  -- letters
        (codes "ack05}F", codes "answer") ∷  -- another number of one
        (codes "ack05}F1", codes "answer") ∷ [])  -- of two
    }
    ensures misses { Gives (λ (text : List ℕ). class_text (text_to text)) (
        ([], codes "message") ∷  -- nothing
        (codes "a", codes "message") ∷  -- cut off
        (codes "ac", codes "message") ∷
        (codes "ack", codes "message") ∷
        (codes "ack5", codes "message") ∷  -- no brace
        (codes "ack05", codes "message") ∷
        (codes "ack}F1", codes "message") ∷  -- no number
        (codes "ack123}", codes "message") ∷  -- three digits
        (codes "ack-}", codes "message") ∷  -- no letter
        (codes "ack5-}", codes "message") ∷
        (codes "ack-5}", codes "message") ∷
        (codes "ack05|", codes "message") ∷  -- before the brace
        (codes "ack05~", codes "message") ∷  -- after it
        (codes "ack05}F12", codes "message") ∷  -- another number of three
        (codes "ack05}F-", codes "message") ∷
        (codes "bck05}", codes "message") ∷  -- another first letter
        (codes "abk05}", codes "message") ∷  -- another second
        (codes "acl05}", codes "message") ∷  -- another third
        (codes "rej05}", codes "message") ∷
        (codes "ACK05}", codes "message") ∷  -- capitals
        (codes "Hi{05}F1", codes "message") ∷ [])  -- a message that acknowledges
    }
    ensures misses_id { class_text
        (message_to (codes "N0CALL-8") (codes "ack05}") (Some (codes "1"))) ≡ codes "message" }
{}
