//! Worked examples of telemetry, and near misses.
ghost use Rattle.std.specs.Prelude.{codes, Some, None, ◌≡◌, ◌∷◌, []};
ghost use Rattle.aprs_details.specs.CommentTelemetry.{comment_telemetry_of, eight_bits, bits_of};
ghost use Rattle.aprs_details.specs.Examples.{Gives, shown_report, report, Misses, measured, bytes_where};
ghost use Rattle.aprs_details.specs.Telemetry.{telemetry_of, is_bit};

/// Telemetry as the standard shows it, with a comment, and without a number.
pub fn telemetry_is_as_the_standard_shows_it()
    ensures reads { Gives telemetry_of (
        -- shown
        (
          codes "T#005,199,000,255,073,123,01101001",
          shown_report (codes "005") (codes "01101001"),
        ) ∷
        -- comment
        (
          codes "T#005,199,000,255,073,123,01101001Hi, all",
          shown_report (codes "005") (codes "01101001"),
        ) ∷
        -- unnumbered
        (
          codes "T#MIC199,000,255,073,123,01101001",
          shown_report [] (codes "01101001"),
        ) ∷
        -- comma
        (
          codes "T#MIC,199,000,255,073,123,01101001",
          shown_report [] (codes "01101001"),
        ) ∷ []) }
{}

/// Telemetry as stations send it: another number of digits, a point, a minus, fewer values, and no
/// eight bits.
pub fn telemetry_is_as_stations_send_it()
    ensures reads { Gives telemetry_of (
        -- short and long numbers
        (codes "T#5,199,000,255,073,123,01101001", shown_report (codes "5") (codes "01101001")) ∷ (
          codes "T#12345,199,000,255,073,123,01101001",
          shown_report (codes "12345") (codes "01101001"),
        ) ∷
        -- a point and a minus
        (
          codes "T#005,12.5,-3,-0.25,.5,1000,00000000",
          report (codes "005") (codes "12.5") (codes "-3") (codes "-0.25") (codes ".5")
              (codes "1000")
              (codes "00000000"),
        ) ∷
        (codes "T#005,1", report (codes "005") (codes "1") [] [] [] [] []) ∷  -- one value
        -- four values
        (
          codes "T#005,1,2,3,01101001",
          report (codes "005") (codes "1") (codes "2") (codes "3") (codes "01101001") [] [],
        ) ∷
        (codes "T#005,199,000,255,073,123", shown_report (codes "005") []) ∷  -- no bits
        (codes "T#005,199,000,255,073,123,0110100", shown_report (codes "005") []) ∷  -- seven bits
        (codes "T#005,199,000,255,073,123,01101021", shown_report (codes "005") []) ∷ [])  -- a two
    }
    ensures misses { Misses telemetry_of (
        codes "T#005" ∷  -- no value
        codes "T#005," ∷  -- an empty value
        codes "T#005,1,,3" ∷  -- an empty value between
        codes "T#,1" ∷  -- no number
        codes "T#-05,1" ∷  -- a number below nought
        codes "T#MIC" ∷  -- no value after MIC
        codes "T#mic,1" ∷  -- lower case
        codes "T#005,1.2.3" ∷  -- two points
        codes "T#005,5." ∷  -- nothing after the point
        codes "T#005,-" ∷  -- a minus alone
        codes "T#005,1-2" ∷  -- a minus between
        codes "T#005,+1" ∷  -- a plus
        codes "T#005,1 Hi" ∷  -- a comment after the first value
        codes "T#005,199,000,255,073,123 Hi" ∷  -- a comment after the fifth
        codes "T:005,1" ∷  -- another mark
        codes "t#005,1" ∷ [])  -- lower case mark
    }
{}

/// Two digits for each number, as the specification shows them, anywhere; the first bit is the
/// lowest.
pub fn comments_have_telemetry()
    ensures reads { Gives comment_telemetry_of (
        -- shown
        (
          codes "|ss1122334455!\"|",
          measured 7544 1472 (Some 1564) (Some 1656) (Some 1748) (Some 1840)
              (Some (codes "10000000")),
        ) ∷
        -- two bits
        (
          codes "|!!!!!!!!!!!!\"F|",
          measured 0 0 (Some 0) (Some 0) (Some 0) (Some 0) (Some (codes "00000001")),
        ) ∷
        (codes "Hi|ss11|!W12!", measured 7544 1472 None None None None None) ∷  -- one value
        (codes "|!!{{|", measured 0 8280 None None None None None) ∷  -- greatest
        -- bits above 255
        (
          codes "|!!!!!!!!!!!!$!|",
          measured 0 0 (Some 0) (Some 0) (Some 0) (Some 0) (Some (codes "10001000")),
        ) ∷
        -- no bits
        (
          codes "|ss1122334455|",
          measured 7544 1472 (Some 1564) (Some 1656) (Some 1748) (Some 1840) None,
        ) ∷
        -- four
        (
          codes "|ss11223344|",
          measured 7544 1472 (Some 1564) (Some 1656) (Some 1748) None None,
        ) ∷
        (codes "|ss1122|", measured 7544 1472 (Some 1564) None None None None) ∷  -- two
        (codes "|ss11||ss22|", measured 7544 1472 None None None None None) ∷  -- first
        (codes "||ss11|", measured 7544 1472 None None None None None) ∷  -- after an empty one
        (codes "|ss112233|", measured 7544 1472 (Some 1564) (Some 1656) None None None) ∷  -- three
        (codes "|x|ss11|", measured 7544 1472 None None None None None) ∷ [])  -- after another bar
    }
    ensures misses { Misses comment_telemetry_of (
        codes "|ss|" ∷  -- no value
        codes "|ss1|" ∷  -- half a value
        codes "|ss1 |" ∷  -- before base 91
        codes "|ss1~|" ∷  -- past base 91
        codes "|ss11" ∷  -- no bar after
        codes "ss11|" ∷  -- no bar before
        codes "|ss1122334455!\"!!|" ∷ [])  -- eight numbers
    }
{}

/// Values stand in their order, and the bits after the fifth.
pub fn telemetry_has_an_order()
    ensures reads { Gives telemetry_of (
        -- all
        (
          codes "T#9,1,2,3,4,5,01101001",
          report (codes "9") (codes "1") (codes "2") (codes "3") (codes "4") (codes "5")
              (codes "01101001"),
        ) ∷
        -- eight bits count
        (
          codes "T#9,1,2,3,4,5,011010011",
          report (codes "9") (codes "1") (codes "2") (codes "3") (codes "4") (codes "5")
              (codes "01101001"),
        ) ∷
        -- noughts
        (
          codes "T#9,1,2,3,4,5,00000000",
          report (codes "9") (codes "1") (codes "2") (codes "3") (codes "4") (codes "5")
              (codes "00000000"),
        ) ∷
        -- ones
        (
          codes "T#9,1,2,3,4,5,11111111",
          report (codes "9") (codes "1") (codes "2") (codes "3") (codes "4") (codes "5")
              (codes "11111111"),
        ) ∷
        -- a sixth value
        (
          codes "T#9,1,2,3,4,5,6",
          report (codes "9") (codes "1") (codes "2") (codes "3") (codes "4") (codes "5") [],
        ) ∷
        -- a comma
        (
          codes "T#9,1,2,3,4,5,",
          report (codes "9") (codes "1") (codes "2") (codes "3") (codes "4") (codes "5") [],
        ) ∷
        -- five
        (
          codes "T#9,1,2,3,4,5",
          report (codes "9") (codes "1") (codes "2") (codes "3") (codes "4") (codes "5") [],
        ) ∷
        -- four
        (
          codes "T#9,1,2,3,4",
          report (codes "9") (codes "1") (codes "2") (codes "3") (codes "4") [] [],
        ) ∷
        -- three
        (
          codes "T#9,1,2,3",
          report (codes "9") (codes "1") (codes "2") (codes "3") [] [] [],
        ) ∷
        (codes "T#9,1,2", report (codes "9") (codes "1") (codes "2") [] [] [] []) ∷  -- two
        (codes "T#9,1", report (codes "9") (codes "1") [] [] [] [] []) ∷  -- one
        (codes "T#MIC1,2", report [] (codes "1") (codes "2") [] [] [] []) ∷  -- MIC
        (codes "T#MIC,1,2", report [] (codes "1") (codes "2") [] [] [] []) ∷ [])  -- MIC and a comma
    }
    ensures misses { Misses telemetry_of (
        codes "T#MIC,,1" ∷  -- two commas
        codes "T#MID1,2" ∷  -- another third letter
        codes "T#MJC1,2" ∷  -- another second
        codes "T#NIC1,2" ∷  -- another first
        codes "T#IMC1,2" ∷  -- exchanged
        codes "T#9,1,2,3,4," ∷  -- no fifth value
        codes "T#9,1,2,3,,5" ∷  -- no fourth
        codes "T#9,1,2,,4" ∷  -- no third
        codes "T#9,,2" ∷  -- no first
        codes "T#9a,1" ∷  -- a letter
        codes "T#0.5,1" ∷  -- a point in the number
        codes "S#9,1" ∷  -- before the mark
        codes "U#9,1" ∷  -- after it
        codes "T\"9,1" ∷  -- before its second byte
        codes "T$9,1" ∷  -- after it
        codes "#T9,1" ∷ [])  -- exchanged
    }
    ensures bits { bytes_where is_bit ≡ codes "01" }
{}

/// The bits of a number are the lowest eight, the lowest first.
pub fn lowest_bits_come_first()
    ensures reads { Gives eight_bits (
        (0, codes "00000000") ∷
        (1, codes "10000000") ∷
        (2, codes "01000000") ∷
        (4, codes "00100000") ∷
        (8, codes "00010000") ∷
        (16, codes "00001000") ∷
        (32, codes "00000100") ∷
        (64, codes "00000010") ∷
        (128, codes "00000001") ∷
        (85, codes "10101010") ∷
        (170, codes "01010101") ∷
        (255, codes "11111111") ∷
        (256, codes "00000000") ∷
        (257, codes "10000000") ∷
        (511, codes "11111111") ∷
        (8280, codes "00011010") ∷ []) }
    ensures none { bits_of None ≡ None }
    ensures some { bits_of (Some 3) ≡ Some (codes "11000000") }
{}
