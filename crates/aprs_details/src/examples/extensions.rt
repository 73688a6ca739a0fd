//! Worked examples of data extensions, and of how a position was fixed, and near misses.
ghost use Rattle.std.specs.Prelude.{codes, Some, true, false, None, ◌≡◌, ◌∷◌, ◌++◌, []};
ghost use Rattle.aprs_details.specs.Compressed.{range_of_cst, is_current_of_cst};
ghost use Rattle.aprs_details.specs.Details.{range_of_place, phg_of_place, is_current_of};
ghost use Rattle.aprs_details.specs.Examples.{Gives, Misses, sent_with, bytes_with, numbers_from, plain_place, compressed_place};
ghost use Rattle.aprs_details.specs.Extension.{range_at, phg_at, watts_of, height_of, digit_value, antenna_direction_of};

/// The comment of a plain position may begin with a range in miles, as the standard shows it.
pub fn comments_begin_with_a_range()
    ensures reads { Gives range_at (
        (codes "RNG0050", Some 5000) ∷  -- shown
        (codes "RNG9999Hi", Some 999900) ∷  -- greatest
        (codes "RNG0000", Some 0) ∷  -- nought
        (codes "RNG00500", Some 5000) ∷ [])  -- four digits count
    }
    ensures misses { Misses range_at (
        codes "RNG005" ∷  -- three digits
        codes "RNG00.5" ∷  -- a point
        codes "RNG/050" ∷  -- before the digits
        codes "RNG:050" ∷  -- after them
        codes "RNG005/" ∷  -- before the digits
        codes "RNG005:" ∷  -- after them
        codes "rng0050" ∷  -- lower case
        codes "SNG0050" ∷  -- another first letter
        codes "RMG0050" ∷  -- another second
        codes "RNH0050" ∷  -- another third
        codes "NRG0050" ∷  -- letters exchanged
        codes " RNG0050" ∷ [])  -- late
    }
{}

/// The comment of a plain position may begin with power, height, gain and direction, as the
/// standard shows them: 25 watts, 20 feet, 3 decibels, east.
pub fn comments_begin_with_a_transmitter()
    ensures reads { Gives phg_at (
        (codes "PHG5132", sent_with 25 20 3 90) ∷  -- shown
        (codes "PHG0000Hi", sent_with 0 10 0 0) ∷  -- least, without direction
        (codes "PHG9998", sent_with 81 5120 9 360) ∷  -- greatest, north
        (codes "PHG1234", sent_with 1 40 3 180) ∷ [])  -- in this order
    }
    ensures misses { Misses phg_at (
        codes "PHG5139" ∷  -- direction 9
        codes "PHG513/" ∷  -- a direction before the digits
        codes "PHG/132" ∷  -- before the digits
        codes "PHG:132" ∷  -- after the digits
        codes "PHG51/2" ∷  -- before the digits
        codes "PHG51:2" ∷  -- after the digits
        codes "PHG5/32" ∷  -- a height before the digits
        codes "PHG5:32" ∷  -- a height past the digits
        codes "PHG513" ∷  -- three digits
        codes "phg5132" ∷  -- lower case
        codes "QHG5132" ∷  -- another first letter
        codes "PIG5132" ∷  -- another second
        codes "PHH5132" ∷  -- another third
        codes "HPG5132" ∷  -- letters exchanged
        codes " PHG5132" ∷ [])  -- late
    }
{}

/// A compressed position may have a range, as the standard shows it, in hundredths of a mile.
pub fn compressed_positions_have_a_range()
    ensures reads { Gives range_of_cst (
        (codes "{?!", Some 2013) ∷  -- shown
        (codes "{!!", Some 200) ∷  -- least
        (codes "{{!", Some 203783) ∷  -- greatest
        (codes "{?0", Some 2013) ∷  -- T - 33 is 15
        (codes "{?9", Some 2013) ∷ [])  -- T - 33 is 24
    }
    ensures misses { Misses range_of_cst (
        codes "z?!" ∷  -- a course
        codes "|?!" ∷  -- past base 91
        codes "{ !" ∷  -- s before base 91
        codes "{|!" ∷  -- s past base 91
        codes "{?1" ∷  -- GGA
        codes "{?8" ∷ [])  -- GGA, T - 33 is 23
    }
    ensures bytes_c { bytes_with (λ c. range_of_cst (c ∷ codes "?!")) ≡ codes "{" }
    ensures bytes_s { bytes_with (λ s. range_of_cst (123 ∷ s ∷ codes "!")) ≡ numbers_from 33 91 }
{}

/// Bit 5 of T - 33 is the fix.
pub fn fixes_are_in_bit_5()
    ensures reads { Gives is_current_of_cst (
        (codes "7P[", Some true) ∷  -- shown
        (codes "7P!", Some false) ∷  -- least
        (codes "7P@", Some false) ∷  -- 31
        (codes "7PA", Some true) ∷  -- 32
        (codes "7P`", Some true) ∷  -- 63
        (codes "7Pa", Some false) ∷  -- 64
        (codes "7P{", Some false) ∷  -- greatest
        (codes "{?!", Some false) ∷ [])  -- with a range
    }
    ensures misses { Misses is_current_of_cst (
        codes " P[" ∷  -- c is a space
        codes "7P " ∷  -- T before base 91
        codes "7P|" ∷ [])  -- T past base 91
    }
    ensures bytes_c { bytes_with (λ c. is_current_of_cst (c ∷ codes "P["))
        ≡ numbers_from 0 32 ++ numbers_from 33 223 }
    ensures bytes_t { bytes_with (λ t. is_current_of_cst (55 ∷ 80 ∷ t ∷ [])) ≡ numbers_from 33 91 }
{}

/// Each digit of a transmitter has its own measure: watts are squares, feet are powers of two, and
/// the direction is in eighths of a circle.
pub fn digits_of_a_transmitter_have_measures()
    ensures watts { Gives watts_of (
        (0, 0) ∷
        (1, 1) ∷
        (2, 4) ∷
        (3, 9) ∷
        (9, 81) ∷ []) }
    ensures feet { Gives height_of (
        (47, None) ∷  -- before the digits
        (48, Some 10) ∷
        (49, Some 20) ∷
        (50, Some 40) ∷
        (51, Some 80) ∷
        (52, Some 160) ∷
        (53, Some 320) ∷
        (54, Some 640) ∷
        (55, Some 1280) ∷
        (56, Some 2560) ∷
        (57, Some 5120) ∷
        (58, None) ∷ [])  -- after them
    }
    ensures decibels { Gives digit_value (
        (47, None) ∷  -- before the digits
        (48, Some 0) ∷
        (49, Some 1) ∷
        (57, Some 9) ∷
        (58, None) ∷ [])  -- after them
    }
    ensures directions { Gives antenna_direction_of (
        (47, None) ∷  -- before the digits
        (48, Some 0) ∷
        (49, Some 45) ∷
        (50, Some 90) ∷
        (51, Some 135) ∷
        (52, Some 180) ∷
        (53, Some 225) ∷
        (54, Some 270) ∷
        (55, Some 315) ∷
        (56, Some 360) ∷
        (57, None) ∷ [])  -- nine
    }
{}

/// A data extension is that of a plain position alone, and c, s and T are those of a compressed
/// one.
pub fn places_have_extensions_of_their_own()
    ensures range { range_of_place plain_place (codes "RNG0050") ≡ Some 5000 }
    ensures compressed_range { range_of_place (compressed_place (codes "{?!")) (codes "RNG0050")
        ≡ Some 2013 }
    ensures misses_range { range_of_place (compressed_place (codes " sT")) (codes "RNG0050")
        ≡ None }
    ensures transmitter { phg_of_place plain_place (codes "PHG5132") ≡ sent_with 25 20 3 90 }
    ensures misses_transmitter { phg_of_place (compressed_place (codes " sT")) (codes "PHG5132")
        ≡ None }
    ensures fix { is_current_of (compressed_place (codes "7P[")) ≡ Some true }
    ensures misses_fix { is_current_of plain_place ≡ None }
{}
