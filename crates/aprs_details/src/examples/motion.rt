//! Worked examples of course and speed, and near misses.
ghost use Rattle.std.specs.Prelude.{codes, Some, None, true, false, pos, ℕ, List, ◌≡◌, ◌∷◌, ◌++◌, []};
ghost use Rattle.aprs_details.specs.Compressed.{knots_of, course_of_cst, speed_of_cst, is_gga, has_speeds_from, has_ranges_from};
ghost use Rattle.aprs_details.specs.Examples.{Gives, of_car, moves, of_compressed_car, says, bytes_with, numbers_from, bytes_where};
ghost use Rattle.aprs_details.specs.Extension.{course_of, wind_direction_of};

/// The comment of a plain position may begin with a course and a speed: as the standard shows them,
/// unknown, north and past it. Each is digits, dots or spaces alone.
pub fn comments_begin_with_course_and_speed()
    ensures reads { Gives of_car (
        (codes "088/036", moves (Some 88) (Some 36) None) ∷  -- shown
        (codes "088/036Hi", moves (Some 88) (Some 36) None) ∷  -- more
        (codes "360/036", moves (Some 360) (Some 36) None) ∷  -- north
        (codes "001/036", moves (Some 1) (Some 36) None) ∷  -- least
        (codes "000/000", moves None (Some 0) None) ∷  -- unknown
        (codes "361/036", moves None (Some 36) None) ∷  -- past north
        (codes "999/999", moves None (Some 999) None) ∷  -- greatest
        (codes ".../...", moves None None None) ∷  -- dots
        (codes "   /036", moves None (Some 36) None) ∷  -- spaces
        (codes "088/...", moves (Some 88) None None) ∷  -- a speed of dots
        (codes "088/   ", moves (Some 88) None None) ∷ [])  -- of spaces
    }
    ensures misses { Gives of_car (
        (codes "08./036", moves None None None) ∷  -- mixed
        (codes ". ./036", moves None None None) ∷  -- dots and spaces
        (codes "088/. .", moves None None None) ∷  -- in the speed
        (codes "088/03.", moves None None None) ∷  -- digits and dots
        (codes "08 /036", moves None None None) ∷  -- digits and spaces
        (codes "08//036", moves None None None) ∷  -- before the digits
        (codes "08:/036", moves None None None) ∷  -- after them
        (codes "-88/036", moves None None None) ∷  -- a sign
        (codes "088.036", moves None None None) ∷  -- no slash
        (codes "0880036", moves None None None) ∷  -- a digit for it
        (codes "88/036", moves None None None) ∷  -- two digits
        (codes " 088/036", moves None None None) ∷  -- late
        (codes "088/03", moves None None None) ∷ [])  -- short
    }
{}

/// A compressed position may have them in its bytes c, s and T, unless these have no more, a range
/// or an altitude. Its comment has none. Bit 5 of T says whether the fix is current.
pub fn compressed_positions_have_course_and_speed()
    ensures reads { Gives of_compressed_car (
        ((codes "7P[", []), says (Some 88) (Some 36) None None (Some true)) ∷  -- shown
        ((codes "!!!", []), says (Some 360) (Some 0) None None (Some false)) ∷  -- north
        ((codes "z{!", []), says (Some 356) (Some 1018) None None (Some false)) ∷ [])  -- greatest
    }
    ensures misses { Gives of_compressed_car (
        ((codes " sT", []), says None None None None None) ∷  -- none
        ((codes "7 !", []), says (Some 88) None None None (Some false)) ∷  -- s before base 91
        ((codes "7|!", []), says (Some 88) None None None (Some false)) ∷  -- s past base 91
        ((codes "{?!", []), says None None None (Some 2013) (Some false)) ∷  -- range
        ((codes "S]Q", []), says None None (Some (pos 30495240)) None (Some true)) ∷  -- altitude
        -- of the comment
        (
          (codes "S]Q", codes "/A=001234"),
          says None None (Some (pos 3761232)) None (Some true),
        ) ∷
        ((codes " sT", codes "088/036RNG0050"), says None None None None None) ∷ [])  -- comment
    }
{}

/// A speed is rounded to the nearest.
pub fn speeds_are_rounded()
    ensures reads { Gives knots_of (
        (0, 0) ∷  -- least
        (5, 0) ∷  -- down
        (6, 1) ∷  -- up
        (11, 1) ∷  -- down
        (12, 2) ∷  -- up
        (47, 36) ∷  -- shown
        (90, 1018) ∷ [])  -- greatest
    }
{}

/// A course is 1 to 360 degrees, and the direction of a wind 0 to 360.
pub fn courses_are_no_more_than_north()
    ensures courses { Gives course_of (
        (0, None) ∷  -- unknown
        (1, Some 1) ∷
        (360, Some 360) ∷
        (361, None) ∷ []) }
    ensures directions { Gives wind_direction_of (
        (0, Some 0) ∷
        (1, Some 1) ∷
        (360, Some 360) ∷
        (361, None) ∷ []) }
{}

/// The byte c of a compressed position is the course where it is `!` to `z`, and s is the speed
/// where it is `!` to `{`, unless T says GGA.
pub fn compressed_courses_have_a_range()
    ensures courses { Gives course_of_cst (
        (codes "!P!", Some 360) ∷  -- north
        (codes "\"P!", Some 4) ∷  -- least
        (codes "7P[", Some 88) ∷  -- shown
        (codes "zP!", Some 356) ∷  -- greatest
        (codes "7P0", Some 88) ∷  -- T - 33 is 15
        (codes "7P1", None) ∷  -- T - 33 is 16, GGA
        (codes "7P8", None) ∷  -- T - 33 is 23, GGA
        (codes "7P9", Some 88) ∷ [])  -- T - 33 is 24
    }
    ensures speeds { Gives speed_of_cst (
        (codes "7!!", Some 0) ∷  -- least
        (codes "7P[", Some 36) ∷  -- shown
        (codes "7{!", Some 1018) ∷  -- greatest
        (codes "7P1", None) ∷  -- GGA
        (codes "{P!", None) ∷  -- a range
        (codes " P!", None) ∷ [])  -- nothing
    }
    ensures bytes_c { bytes_with (λ c. course_of_cst (c ∷ codes "P!")) ≡ numbers_from 33 90 }
    ensures bytes_s { bytes_with (λ s. speed_of_cst (55 ∷ s ∷ codes "!")) ≡ numbers_from 33 91 }
    ensures bytes_gga { bytes_where is_gga
        ≡ numbers_from 49 8 ++ (numbers_from 81 8 ++ (numbers_from 113 8
        ++ (numbers_from 145 8 ++ (numbers_from 177 8 ++ (numbers_from 209 8
        ++ numbers_from 241 8))))) }
{}

/// A table of speeds or of ranges has that of each number, from the first one on.
pub fn tables_have_each_number()
    ensures speeds { Gives (λ (x : ℕ × List ℕ). has_speeds_from x.0 x.1) (
        ((0, []), true) ∷  -- nothing
        ((4, 0 ∷ 0 ∷ 1 ∷ 1 ∷ []), true) ∷  -- 0.36, 0.47, 0.59 and 0.71
        ((4, 0 ∷ 0 ∷ 1 ∷ 0 ∷ []), false) ∷  -- another last one
        ((4, 1 ∷ 0 ∷ 1 ∷ 1 ∷ []), false) ∷  -- another first one
        ((5, 0 ∷ 0 ∷ 1 ∷ 1 ∷ []), false) ∷  -- from another number on
        ((47, 36 ∷ []), true) ∷  -- shown
        ((47, 35 ∷ []), false) ∷  -- one less
        ((47, 37 ∷ []), false) ∷ [])  -- one more
    }
    ensures ranges { Gives (λ (x : ℕ × List ℕ). has_ranges_from x.0 x.1) (
        ((0, []), true) ∷  -- nothing
        ((0, 200 ∷ 216 ∷ 233 ∷ 252 ∷ []), true) ∷  -- 2 miles, 2.16, 2.3328 and 2.5194
        ((0, 200 ∷ 216 ∷ 233 ∷ 251 ∷ []), false) ∷  -- another last one
        ((0, 201 ∷ 216 ∷ 233 ∷ 252 ∷ []), false) ∷  -- another first one
        ((1, 200 ∷ 216 ∷ 233 ∷ 252 ∷ []), false) ∷  -- from another number on
        ((30, 2013 ∷ []), true) ∷  -- shown
        ((30, 2012 ∷ []), false) ∷  -- one less
        ((30, 2014 ∷ []), false) ∷ [])  -- one more
    }
{}
