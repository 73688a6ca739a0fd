//! Worked examples of places, and of their digits, and near misses.
ghost use Rattle.std.specs.Prelude.{codes, ◌∷◌, ◌++◌, []};
ghost use Rattle.aprs_table.specs.Examples.{Tells, at_here, at_compressed, at_0, TellsTo};

/// Degrees have seven decimals. How many digits are left out stands beside them.
pub fn places_have_degrees()
    ensures north_west { Tells (codes "!4903.50N/07201.75W-") (codes "position") (
        at_here ++ ((codes "symbol", codes "/-") ∷ (codes "messaging", codes "no") ∷ [])) }
    ensures south_east { Tells (codes "!4903.50S/07201.75E-") (codes "position") (
        (codes "latitude", codes "-49.0583333") ∷ (codes "longitude", codes "72.0291667") ∷
        (codes "ambiguity", codes "0") ∷ (codes "compressed", codes "no") ∷
        (codes "symbol", codes "/-") ∷ (codes "messaging", codes "no") ∷ []) }
    ensures one_left_out { Tells (codes "!4903.5 N/07201.75W-") (codes "position") (
        (codes "latitude", codes "49.0583333") ∷ (codes "longitude", codes "-72.0283333") ∷
        (codes "ambiguity", codes "1") ∷ (codes "compressed", codes "no") ∷
        (codes "symbol", codes "/-") ∷ (codes "messaging", codes "no") ∷ []) }
    ensures two_left_out { Tells (codes "!4903.  N/07201.75W-") (codes "position") (
        (codes "latitude", codes "49.0500000") ∷ (codes "longitude", codes "-72.0166667") ∷
        (codes "ambiguity", codes "2") ∷ (codes "compressed", codes "no") ∷
        (codes "symbol", codes "/-") ∷ (codes "messaging", codes "no") ∷ []) }
    ensures three_left_out { Tells (codes "!491 .  N/07201.75W-") (codes "position") (
        (codes "latitude", codes "49.1666667") ∷ (codes "longitude", codes "-72.0000000") ∷
        (codes "ambiguity", codes "3") ∷ (codes "compressed", codes "no") ∷
        (codes "symbol", codes "/-") ∷ (codes "messaging", codes "no") ∷ []) }
    ensures four_left_out { Tells (codes "!49  .  N/07201.75W-") (codes "position") (
        (codes "latitude", codes "49.0000000") ∷ (codes "longitude", codes "-72.0000000") ∷
        (codes "ambiguity", codes "4") ∷ (codes "compressed", codes "no") ∷
        (codes "symbol", codes "/-") ∷ (codes "messaging", codes "no") ∷ []) }
    ensures compressed { Tells (codes "=/5L!!<*e7>7P[on the road") (codes "position") (
        at_compressed ++ ((codes "symbol", codes "/>") ∷ (codes "course", codes "88") ∷
        (codes "speed_knots", codes "36") ∷ (codes "text", codes "on the road") ∷
        (codes "messaging", codes "yes") ∷ (codes "fix", codes "current") ∷ [])) }
    ensures overlay { Tells (codes "=c5L!!<*e7> sT") (codes "position") (
        at_compressed ++ ((codes "symbol", codes "2>") ∷ (codes "messaging", codes "yes") ∷ [])) }
    ensures shown_symbol { Tells (codes "!4903.50N\\07201.75W\\") (codes "position") (
        at_here ++ ((codes "symbol", codes "\\x5c\\x5c") ∷ (codes "messaging", codes "no") ∷ [])) }
{}

/// At 0 degrees there is no minus, and next to it there is.
pub fn places_at_0_have_a_sign()
    ensures equator { Tells (codes "!0000.00N/00000.00E-") (codes "position") (
        at_0 ++ ((codes "symbol", codes "/-") ∷ (codes "messaging", codes "no") ∷ [])) }
    ensures other_halves { Tells (codes "!0000.00S/00000.00W-") (codes "position") (
        at_0 ++ ((codes "symbol", codes "/-") ∷ (codes "messaging", codes "no") ∷ [])) }
    ensures next_to_it { Tells (codes "!0000.01N/00000.01E-") (codes "position") (
        (codes "latitude", codes "0.0001667") ∷ (codes "longitude", codes "0.0001667") ∷
        (codes "ambiguity", codes "0") ∷ (codes "compressed", codes "no") ∷
        (codes "symbol", codes "/-") ∷ (codes "messaging", codes "no") ∷ []) }
    ensures on_the_other_side { Tells (codes "!0000.01S/00000.01W-") (codes "position") (
        (codes "latitude", codes "-0.0001667") ∷ (codes "longitude", codes "-0.0001667") ∷
        (codes "ambiguity", codes "0") ∷ (codes "compressed", codes "no") ∷
        (codes "symbol", codes "/-") ∷ (codes "messaging", codes "no") ∷ []) }
    ensures compressed { Tells (codes "=/NN!!NN!!> sT") (codes "position") (
        (codes "latitude", codes "0.0000000") ∷ (codes "longitude", codes "0.0000000") ∷
        (codes "compressed", codes "yes") ∷ (codes "symbol", codes "/>") ∷
        (codes "messaging", codes "yes") ∷ []) }
    ensures compressed_next { Tells (codes "=/NM{{NN!\"> sT") (codes "position") (
        (codes "latitude", codes "0.0000026") ∷ (codes "longitude", codes "0.0000053") ∷
        (codes "compressed", codes "yes") ∷ (codes "symbol", codes "/>") ∷
        (codes "messaging", codes "yes") ∷ []) }
    ensures compressed_other_side { Tells (codes "=/NN!\"NM{{> sT") (codes "position") (
        (codes "latitude", codes "-0.0000026") ∷ (codes "longitude", codes "-0.0000053") ∷
        (codes "compressed", codes "yes") ∷ (codes "symbol", codes "/>") ∷
        (codes "messaging", codes "yes") ∷ []) }
    ensures mic_e { TellsTo (codes "PPPPPP") (codes "`vX" ++ 28 ∷ codes "n\"Oj/") (
        (codes "kind", codes "mic-e") ∷ at_0 ++ ((codes "symbol", codes "/j") ∷
        (codes "course", codes "251") ∷ (codes "speed_knots", codes "20") ∷
        (codes "says", codes "off-duty") ∷ (codes "fix", codes "current") ∷ [])) }
    ensures mic_e_next { TellsTo (codes "PPPPPQ") (codes "`vX" ++ 29 ∷ codes "n\"Oj/") (
        (codes "kind", codes "mic-e") ∷ (codes "latitude", codes "0.0001667") ∷
        (codes "longitude", codes "-0.0001667") ∷ (codes "ambiguity", codes "0") ∷
        (codes "compressed", codes "no") ∷ (codes "symbol", codes "/j") ∷
        (codes "course", codes "251") ∷ (codes "speed_knots", codes "20") ∷
        (codes "says", codes "off-duty") ∷ (codes "fix", codes "current") ∷ []) }
    ensures mic_e_other_side { TellsTo (codes "PPP0P1") (codes "`vX" ++ 29 ∷ codes "n\"Oj/") (
        (codes "kind", codes "mic-e") ∷ (codes "latitude", codes "-0.0001667") ∷
        (codes "longitude", codes "0.0001667") ∷ (codes "ambiguity", codes "0") ∷
        (codes "compressed", codes "no") ∷ (codes "symbol", codes "/j") ∷
        (codes "course", codes "251") ∷ (codes "speed_knots", codes "20") ∷
        (codes "says", codes "off-duty") ∷ (codes "fix", codes "current") ∷ []) }
    ensures sentence { Tells (codes "$GPGLL,0000.0,S,00000.0,W,,A") (codes "raw") (
        (codes "latitude", codes "0.0000000") ∷ (codes "longitude", codes "0.0000000") ∷
        (codes "text", codes "$GPGLL,0000.0,S,00000.0,W,,A") ∷ []) }
    ensures sentence_next { Tells (codes "$GPGLL,0000.000006,N,00000.000006,E,,A") (codes "raw") (
        (codes "latitude", codes "0.0000001") ∷ (codes "longitude", codes "0.0000001") ∷
        (codes "text", codes "$GPGLL,0000.000006,N,00000.000006,E,,A") ∷ []) }
    ensures sentence_other_side { Tells (codes "$GPGLL,0000.000006,S,00000.000006,W,,A")
        (codes "raw") (
        (codes "latitude", codes "-0.0000001") ∷ (codes "longitude", codes "-0.0000001") ∷
        (codes "text", codes "$GPGLL,0000.000006,S,00000.000006,W,,A") ∷ []) }
{}

/// More digits count away from 0, and at 0 into the half that the letter names.
pub fn finer_places_have_a_half()
    ensures west { Tells (codes "!5128.70N/00000.00W-!W99!") (codes "position") (
        (codes "latitude", codes "51.4783333") ∷ (codes "longitude", codes "0.0000000") ∷
        (codes "ambiguity", codes "0") ∷ (codes "compressed", codes "no") ∷
        (codes "symbol", codes "/-") ∷ (codes "text", codes "!W99!") ∷
        (codes "messaging", codes "no") ∷ (codes "finer_latitude", codes "51.4784833") ∷
        (codes "finer_longitude", codes "-0.0001500") ∷ []) }
    ensures east { Tells (codes "!5128.70N/00000.00E-!W99!") (codes "position") (
        (codes "latitude", codes "51.4783333") ∷ (codes "longitude", codes "0.0000000") ∷
        (codes "ambiguity", codes "0") ∷ (codes "compressed", codes "no") ∷
        (codes "symbol", codes "/-") ∷ (codes "text", codes "!W99!") ∷
        (codes "messaging", codes "no") ∷ (codes "finer_latitude", codes "51.4784833") ∷
        (codes "finer_longitude", codes "0.0001500") ∷ []) }
    ensures south { Tells (codes "@092345z0000.00S/00000.00E-Hi!W12!") (codes "position") (
        at_0 ++ ((codes "symbol", codes "/-") ∷ (codes "stamp", codes "092345z") ∷
        (codes "text", codes "Hi!W12!") ∷ (codes "messaging", codes "yes") ∷
        (codes "finer_latitude", codes "-0.0000167") ∷
        (codes "finer_longitude", codes "0.0000333") ∷ [])) }
    ensures north { Tells (codes "@092345z0000.00N/00000.00E-Hi!W12!") (codes "position") (
        at_0 ++ ((codes "symbol", codes "/-") ∷ (codes "stamp", codes "092345z") ∷
        (codes "text", codes "Hi!W12!") ∷ (codes "messaging", codes "yes") ∷
        (codes "finer_latitude", codes "0.0000167") ∷
        (codes "finer_longitude", codes "0.0000333") ∷ [])) }
    ensures object { Tells (codes ";LEADER   *092345z0000.00S/00000.00W>!w\"#!") (codes "object") (
        (codes "name", codes "LEADER") ∷ (codes "state", codes "live") ∷ at_0 ++ (
        (codes "symbol", codes "/>") ∷ (codes "stamp", codes "092345z") ∷
        (codes "text", codes "!w\"#!") ∷ (codes "finer_latitude", codes "-0.0000018") ∷
        (codes "finer_longitude", codes "-0.0000037") ∷ [])) }
    ensures item { Tells (codes ")LEADER!0000.00N/00000.00W>!w\"#!") (codes "item") (
        (codes "name", codes "LEADER") ∷ (codes "state", codes "live") ∷ at_0 ++ (
        (codes "symbol", codes "/>") ∷ (codes "text", codes "!w\"#!") ∷
        (codes "finer_latitude", codes "0.0000018") ∷
        (codes "finer_longitude", codes "-0.0000037") ∷ [])) }
    ensures mic_e_north_west { TellsTo (codes "PPPPPP") (codes "`vX" ++ 28 ∷ codes "n\"Oj/!W12!") (
        (codes "kind", codes "mic-e") ∷ at_0 ++ ((codes "symbol", codes "/j") ∷
        (codes "course", codes "251") ∷ (codes "speed_knots", codes "20") ∷
        (codes "says", codes "off-duty") ∷ (codes "text", codes "!W12!") ∷
        (codes "fix", codes "current") ∷ (codes "finer_latitude", codes "0.0000167") ∷
        (codes "finer_longitude", codes "-0.0000333") ∷ [])) }
    ensures mic_e_south_east { TellsTo (codes "PPP0P0") (codes "`vX" ++ 28 ∷ codes "n\"Oj/!W12!") (
        (codes "kind", codes "mic-e") ∷ at_0 ++ ((codes "symbol", codes "/j") ∷
        (codes "course", codes "251") ∷ (codes "speed_knots", codes "20") ∷
        (codes "says", codes "off-duty") ∷ (codes "text", codes "!W12!") ∷
        (codes "fix", codes "current") ∷ (codes "finer_latitude", codes "-0.0000167") ∷
        (codes "finer_longitude", codes "0.0000333") ∷ [])) }
    ensures misses_left_out { Tells (codes "!0000.0 N/00000.00E-!W12!") (codes "position") (
        (codes "latitude", codes "0.0000000") ∷ (codes "longitude", codes "0.0000000") ∷
        (codes "ambiguity", codes "1") ∷ (codes "compressed", codes "no") ∷
        (codes "symbol", codes "/-") ∷ (codes "text", codes "!W12!") ∷
        (codes "messaging", codes "no") ∷ []) }
    ensures misses_compressed { Tells (codes "=/NN!!NN!!> sT!W12!") (codes "position") (
        (codes "latitude", codes "0.0000000") ∷ (codes "longitude", codes "0.0000000") ∷
        (codes "compressed", codes "yes") ∷ (codes "symbol", codes "/>") ∷
        (codes "text", codes "!W12!") ∷ (codes "messaging", codes "yes") ∷ []) }
{}
