//! Worked examples of frames that are passed on, and near misses.
ghost use Rattle.std.specs.Prelude.{codes, ◌∷◌, []};
ghost use Rattle.aprs_details.specs.Examples.{Gives, passed_on, Misses};
ghost use Rattle.aprs_details.specs.ThirdParty.{passed_of};

/// A frame that is passed on, with and without digipeaters.
pub fn frames_are_passed_on()
    ensures reads { Gives passed_of (
        -- by digipeaters
        (
          codes "}N0CALL-7>APRS,TCPIP,RX1*:>Hi",
          passed_on (codes "N0CALL-7") (codes "APRS") (codes "TCPIP,RX1*") (codes ">Hi"),
        ) ∷
        -- without
        (
          codes "}N0CALL>APRS::WU2Z     :a>b",
          passed_on (codes "N0CALL") (codes "APRS") [] (codes ":WU2Z     :a>b"),
        ) ∷ []) }
    ensures misses { Misses passed_of (
        codes "}N0CALL>APRS" ∷  -- no colon
        codes "}N0CALL:>Hi" ∷  -- no end of the source
        codes "N0CALL>APRS:>Hi" ∷ [])  -- no brace
    }
{}

/// The first colon ends the addresses, the first > the source, and the first comma the destination.
/// Each part may be empty.
pub fn first_marks_end_the_parts()
    ensures reads { Gives passed_of (
        (codes "}>:", passed_on [] [] [] []) ∷  -- nothing
        (codes "}A>B:D:E", passed_on (codes "A") (codes "B") [] (codes "D:E")) ∷  -- two colons
        (codes "}A>B>C:D", passed_on (codes "A") (codes "B>C") [] (codes "D")) ∷  -- two marks
        -- two commas
        (
          codes "}A>B,C,E*:D",
          passed_on (codes "A") (codes "B") (codes "C,E*") (codes "D"),
        ) ∷
        (codes "}A>B,:D", passed_on (codes "A") (codes "B") [] (codes "D")) ∷  -- a comma alone
        -- a comma in the source
        (
          codes "}A,B>C:D",
          passed_on (codes "A,B") (codes "C") [] (codes "D"),
        ) ∷
        -- marks in the information
        (
          codes "}A>B:D,E>F",
          passed_on (codes "A") (codes "B") [] (codes "D,E>F"),
        ) ∷
        (codes "}A>,C:D", passed_on (codes "A") [] (codes "C") (codes "D")) ∷ [])  -- no destination
    }
    ensures misses { Misses passed_of (
        codes "}" ∷  -- nothing
        codes "}A>B" ∷  -- no colon
        codes "}A:B>C:D" ∷  -- a colon first
        codes "|A>B:D" ∷  -- before the brace
        codes "~A>B:D" ∷  -- after it
        codes "A}B>C:D" ∷  -- a brace later
        [] ∷ [])  -- empty
    }
{}
