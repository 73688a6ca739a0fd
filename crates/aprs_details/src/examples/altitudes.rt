//! Worked examples of altitudes, and near misses.
ghost use Rattle.std.specs.Prelude.{codes, Some, None, true, false, pos, neg_ℤ, ℕ, List, ◌≡◌, ◌∷◌, []};
ghost use Rattle.aprs_details.specs.Altitude.{feet_of, altitude_of_feet};
ghost use Rattle.aprs_details.specs.Details.{mic_e_altitude_of, is_radio_mark};
ghost use Rattle.aprs_details.specs.Examples.{Gives, Misses, of_car, moves, bytes_where};
ghost use Rattle.aprs_details.specs.GgaAltitude.{feet_of_cs, feet_of_cst, has_powers, rounded};
ghost use Rattle.aprs_details.specs.GgaAltitude.{is_settled, is_settled_by, are_settled};

/// The altitude of a number is rounded to the nearest foot.
pub fn powers_are_rounded()
    ensures reads { Gives feet_of_cs (
        (0, 1) ∷  -- least
        (202, 1) ∷  -- down
        (203, 2) ∷  -- up
        (4610, 10005) ∷  -- shown, 10004.52
        (8280, 15301510) ∷ [])  -- greatest
    }
{}

/// A compressed position of a GGA sentence has an altitude, as the standard shows it.
pub fn compressed_positions_have_an_altitude()
    ensures reads { Gives feet_of_cst (
        (codes "S]Q", Some 10005) ∷  -- shown
        (codes "!!1", Some 1) ∷  -- least, old
        (codes "!!8", Some 1) ∷  -- likewise, T - 33 is 23
        (codes "{!Q", Some (feet_of_cs 8190)) ∷  -- c greatest
        (codes "!{Q", Some 1) ∷ [])  -- s greatest
    }
    ensures misses { Misses feet_of_cst (
        codes "S]I" ∷  -- of another sentence
        codes "!!0" ∷  -- T - 33 is 15
        codes "!!9" ∷  -- T - 33 is 24
        codes " ]Q" ∷  -- c before base 91
        codes "|]Q" ∷  -- c past base 91
        codes "S Q" ∷  -- s before base 91
        codes "S|Q" ∷ [])  -- s past base 91
    }
{}

/// Six digits after /A= are feet, wherever they stand.
pub fn comments_have_altitudes()
    ensures reads { Gives of_car (
        (codes "/A=001234", moves None None (Some (pos 3761232))) ∷  -- shown
        -- after
        (codes "088/036/A=001234 Hi", moves (Some 88) (Some 36) (Some (pos 3761232))) ∷ []) }
    ensures misses { Misses feet_of (
        codes "/A=00123" ∷  -- five digits
        codes "/a=001234" ∷  -- lower case
        codes "/A=-00123" ∷ [])  -- below
    }
{}

/// Six digits after /A= are feet, wherever they stand. The first count.
pub fn first_altitudes_count()
    ensures reads { Gives feet_of (
        (codes "/A=001234", Some 1234) ∷  -- shown
        (codes "/A=000000", Some 0) ∷  -- least
        (codes "/A=999999", Some 999999) ∷  -- greatest
        (codes "/A=0012345", Some 1234) ∷  -- six digits count
        (codes "/A=00001/A=000002/A=000003", Some 2) ∷  -- the first of six
        (codes "/A=000002/A=000003", Some 2) ∷ []) }
    ensures metres { Gives altitude_of_feet (
        (0, pos 0) ∷
        (1, pos 3048) ∷
        (1234, pos 3761232) ∷ []) }
    ensures misses { Misses feet_of (
        codes "/A=00123" ∷  -- five digits
        codes "/a=001234" ∷  -- lower case
        codes "-A=001234" ∷  -- another first byte
        codes "/B=001234" ∷  -- another second
        codes "/A-001234" ∷  -- another third
        codes "A/=001234" ∷  -- exchanged
        codes "/A=/01234" ∷  -- before the digits
        codes "/A=:01234" ∷  -- after them
        codes "/A=00123/" ∷  -- before the digits
        codes "/A=00123:" ∷  -- after them
        codes "/A= 01234" ∷  -- a space
        codes "/A=-00123" ∷ [])  -- below
    }
{}

/// Three digits of base 91 and a brace at the start of a Mic-E comment are metres above 10000 below
/// the sea; a radio's mark may stand before them. They count before feet.
pub fn mic_e_comments_have_altitudes()
    ensures reads { Gives mic_e_altitude_of (
        (codes "\"4T}", Some (pos 610000)) ∷  -- shown
        (codes "]\"4T}Hi", Some (pos 610000)) ∷  -- marked
        (codes ">\"4T}", Some (pos 610000)) ∷  -- likewise
        (codes "`\"4T}", Some (pos 610000)) ∷  -- likewise
        (codes "'\"4T}", Some (pos 610000)) ∷  -- likewise
        (codes "!!!}", Some (neg_ℤ (pos 100000000))) ∷  -- lowest
        (codes "{{{}", Some (pos 7435700000)) ∷  -- greatest
        (codes "\"3q}", Some (neg_ℤ (pos 10000))) ∷  -- a metre below the sea
        (codes "\"3r}", Some (pos 0)) ∷  -- at the sea
        (codes "\"3s}", Some (pos 10000)) ∷  -- a metre above
        (codes "/A=001234", Some (pos 3761232)) ∷  -- feet
        (codes "]/A=001234", Some (pos 3761232)) ∷  -- likewise
        (codes "\"4T}/A=001234", Some (pos 610000)) ∷  -- before feet
        (codes "]\"4T}/A=001234", Some (pos 610000)) ∷  -- likewise
        (codes "/A=001234\"4T}", Some (pos 3761232)) ∷ [])  -- feet first
    }
    ensures misses { Misses mic_e_altitude_of (
        codes "a\"4T}" ∷  -- late
        codes "]]\"4T}" ∷  -- two marks
        codes "\" T}" ∷  -- two digits
        codes "\"4 }" ∷  -- before base 91
        codes "\"4|}" ∷  -- past base 91
        codes "\"4T{" ∷  -- no brace
        codes "\"4T|" ∷  -- before it
        codes "\"4T~" ∷  -- after it
        codes "\"4T" ∷ [])  -- cut off
    }
    ensures marks { bytes_where is_radio_mark ≡ codes "'>]`" }
{}

/// A table has the powers of a fraction, each rounded down: here a million times those of 1.002.
pub fn tables_have_each_power()
    ensures powers { Gives (has_powers 1000000 1 1002 1000) (
        ([], true) ∷  -- nothing
        (1000000 ∷ 1002000 ∷ 1004004 ∷ 1006012 ∷ [], true) ∷  -- the last one is 1006012.008
        (1000000 ∷ 1002000 ∷ 1004004 ∷ 1006013 ∷ [], false) ∷  -- rounded up
        (1000000 ∷ 1002000 ∷ 1004004 ∷ 1006011 ∷ [], false) ∷  -- one less
        (999999 ∷ 1002000 ∷ [], false) ∷  -- another first one
        (999999 ∷ [], false) ∷  -- one less
        (1000000 ∷ [], true) ∷  -- the fraction itself
        (1000001 ∷ [], false) ∷ [])  -- one more
    }
    ensures begins { Gives (has_powers 7 2 1 1) (
        (3 ∷ 3 ∷ [], true) ∷  -- 3.5, rounded down
        (4 ∷ 3 ∷ [], false) ∷ [])  -- up
    }
{}

/// So many parts, of which 2^64 make 1, are rounded to the nearest; the half goes up.
pub fn parts_are_rounded()
    ensures reads { Gives rounded (
        (0, 0) ∷  -- nought
        (9223372036854775807, 0) ∷  -- under half
        (9223372036854775808, 1) ∷  -- half
        (18446744073709551616, 1) ∷  -- one
        (27670116110564327423, 1) ∷  -- under one and a half
        (27670116110564327424, 2) ∷ [])  -- one and a half
    }
{}

/// A product is settled below 2^95, where what was cut off of its powers doesn't change what it is
/// rounded to. So are those of a table and of two where each is.
pub fn products_are_settled()
    ensures products { Gives (λ (x : ℕ × ℕ). is_settled x.0 x.1) (
        ((0, 0), true) ∷  -- nought
        ((1, 4611686018427387903), true) ∷  -- under half with what was cut off
        ((1, 4611686018427387904), false) ∷  -- past half with it
        ((220608829025537, 179567070964991), true) ∷  -- 2^95 - 1
        ((281474976710656, 140737488355328), false) ∷ [])  -- 2^95
    }
    ensures table { Gives (is_settled_by 1) (
        ([], true) ∷  -- nothing
        (0 ∷ 1 ∷ [], true) ∷  -- each
        (0 ∷ 9223372036854775806 ∷ [], false) ∷  -- the last one isn't
        (9223372036854775806 ∷ 0 ∷ [], false) ∷ [])  -- the first one isn't
    }
    ensures tables { Gives (λ (x : List ℕ × List ℕ). are_settled x.0 x.1) (
        (([], 9223372036854775806 ∷ []), true) ∷  -- nothing
        ((0 ∷ 1 ∷ [], 0 ∷ 1 ∷ []), true) ∷  -- each
        ((0 ∷ 1 ∷ [], 9223372036854775806 ∷ []), false) ∷  -- the last one isn't
        ((1 ∷ 0 ∷ [], 9223372036854775806 ∷ []), false) ∷ [])  -- the first one isn't
    }
{}
