//! Worked examples of sentences of GPS receivers, and near misses.
ghost use Rattle.std.specs.Prelude.{codes, pos, neg_ℤ, None, Some, List, ℕ, false, true, ◌∷◌, []};
ghost use Rattle.aprs_details.specs.Examples.{Gives, fix_at, Misses, placed_by};
ghost use Rattle.aprs_details.specs.Nmea.{fix_of, sent_course, signed_altitude_of, altitude_in, is_quality, is_valid, digits_of, number_in_millionths, sent_half};

/// Three sentences as the standard shows them.
pub fn sentences_tell_a_fix()
    ensures reads { Gives fix_of ((
      codes "$GPGGA,102705,5157.9762,N,00029.3256,W,1,04,2.0,75.7,M,47.6,M,,*62",
      fix_at (pos 519662700) (neg_ℤ (pos 4887600)) None None (Some (pos 757000)),
    ) ∷ (
      codes "$GPGLL,2554.459,N,08020.187,W,154027.281,A",
      fix_at (pos 259076500) (neg_ℤ (pos 803364500)) None None None,
    ) ∷ (
      codes "$GPRMC,063909,A,3349.4302,N,11700.3721,W,43.022,89.3,291099,13.6,E*52",
      fix_at (pos 338238367) (neg_ℤ (pos 1170062017)) (Some 89) (Some 43) None,
    ) ∷ []) }
    ensures misses { Misses fix_of (
        codes "$GPGLL,2554.459,N,08020.187,W,08,A*A3" ∷  -- digits of the checksum exchanged
        codes "$GPGLL,2554.459,N,08020.187,W,08,A*3G" ∷  -- no digit
        codes "$GPGLL,2554.459,N,08020.187,W,08,A*00*3A" ∷  -- after a second star
        codes "$GPGGA,102705,5157.9762,N,00029.3256,W,1,04,2.0,75.7,M,47.6,M,,*63" ∷  -- one more
        codes "$GPGGA,102705,5157.9762,N,00029.3256,W,1,04,2.0,75.7,M,47.6,M,,*61" ∷  -- one less
        -- half a checksum
        codes "$GPGGA,102705,5157.9762,N,00029.3256,W,1,04,2.0,75.7,M,47.6,M,,*6" ∷
        codes "$GPGGA,102705,5157.9762,N,00029.3256,W,1,04,2.0,75.7,M,47.6,M,,*" ∷  -- no checksum
        codes "$GPGGA,102705,5157.9762,N,00029.3256,W,0,04,2.0,75.7,M,47.6,M,," ∷  -- no fix
        codes "$GPGGA,102705,5157.9762,N,00029.3256,W,,04,2.0,75.7,M,47.6,M,," ∷  -- no quality
        -- past the digits
        codes "$GPGGA,102705,5157.9762,N,00029.3256,W,:,04,2.0,75.7,M,47.6,M,," ∷
        codes "$GPGGA,102705,5157.9762,N,00029.3256,W,11,04,2.0,75.7,M,47.6,M,," ∷  -- two digits
        codes "$GPGLL,2554.459,N,08020.187,W,154027.281,V" ∷  -- no fix
        codes "$GPGLL,2554.459,N,08020.187,W,154027.281," ∷  -- nothing of it
        codes "$GPGLL,2554.459,N,08020.187,W" ∷  -- cut off
        codes "$GPRMC,063909,V,3349.4302,N,11700.3721,W,43.022,89.3,291099,13.6,E" ∷  -- no fix
        codes "$GPRMC,063909,A,3349.4302,N,11700.3721,W" ∷  -- cut off
        codes "$GPVTG,318.7,T,,M,35.1,N,65.0,K*69" ∷  -- no place
        codes "$GNGLL,2554.459,N,08020.187,W,154027.281,A" ∷  -- another talker
        codes "!GPGLL,2554.459,N,08020.187,W,154027.281,A" ∷  -- another mark
        codes "$gpgll,2554.459,N,08020.187,W,154027.281,A" ∷ [])  -- lower case
    }
{}

/// A checksum may have small letters, and anything may follow it.
pub fn checksums_are_hexadecimal()
    ensures reads { Gives fix_of (
        -- a capital
        (
          codes "$GPGLL,2554.459,N,08020.187,W,08,A*3A",
          fix_at (pos 259076500) (neg_ℤ (pos 803364500)) None None None,
        ) ∷
        -- a small letter
        (
          codes "$GPGLL,2554.459,N,08020.187,W,08,A*3a Hi",
          fix_at (pos 259076500) (neg_ℤ (pos 803364500)) None None None,
        ) ∷ []) }
{}

/// The limits of an angle, and its decimals, to the nearest.
pub fn angles_have_limits()
    ensures reads { Gives placed_by (
        -- greatest
        (
          codes "9000,N,18000,E",
          fix_at (pos 900000000) (pos 1800000000) None None None,
        ) ∷
        -- least
        (
          codes "9000.000000,S,18000.0,W",
          fix_at (neg_ℤ (pos 900000000)) (neg_ℤ (pos 1800000000)) None None None,
        ) ∷
        (codes "0059.999999,N,00000.0,E", fix_at (pos 10000000) (pos 0) None None None) ∷  -- up
        -- a half
        (
          codes "0000.000003,S,00000.000003,E",
          fix_at (neg_ℤ (pos 1)) (pos 1) None None None,
        ) ∷
        (codes "0000.000002,S,00000.000002,E", fix_at (pos 0) (pos 0) None None None) ∷ [])  -- down
    }
    ensures misses { Misses placed_by (
        codes "9000.000001,N,00000.0,E" ∷  -- past the pole
        codes "0000.0,N,18000.000001,E" ∷  -- past the meridian
        codes "0060.0,N,00000.0,E" ∷  -- a degree of minutes
        codes "0000.0,N,00060.0,E" ∷  -- likewise
        codes "000.0,N,00000.0,E" ∷  -- three digits
        codes "00000.0,N,00000.0,E" ∷  -- five digits
        codes "0000.,N,00000.0,E" ∷  -- nothing after the point
        codes "0000.0000000,N,00000.0,E" ∷  -- seven digits after it
        codes "0000,0,N,00000.0,E" ∷  -- a comma
        codes "0000.0,E,00000.0,N" ∷  -- letters exchanged
        codes "0000.0,n,00000.0,E" ∷  -- lower case
        codes "0000.0,NN,00000.0,E" ∷  -- two letters
        codes "0000.0,,00000.0,E" ∷  -- no letter
        codes ",N,,E" ∷ [])  -- no angles
    }
{}

/// A course is rounded to the nearest degree; north is 360.
pub fn courses_are_rounded()
    ensures reads { Gives sent_course (
        (codes "89.3", Some 89) ∷  -- shown
        (codes "89.5", Some 90) ∷  -- a half
        (codes "359.4", Some 359) ∷  -- down
        (codes "359.5", Some 360) ∷  -- up to north
        (codes "360.0", Some 360) ∷  -- north
        (codes "360.4", Some 360) ∷  -- down to north
        (codes "0", Some 360) ∷  -- likewise
        (codes "0.4", Some 360) ∷  -- likewise
        (codes "0.5", Some 1) ∷  -- up
        (codes "1.499999", Some 1) ∷  -- just under a half
        (codes "1", Some 1) ∷ [])  -- no point
    }
    ensures misses { Misses sent_course (
        [] ∷  -- unknown
        codes "360.5" ∷  -- up past north
        codes "361" ∷  -- past north
        codes "-1" ∷  -- below nought
        codes ".5" ∷  -- nothing before the point
        codes "8 9" ∷ [])  -- a space
    }
{}

/// An altitude in ten-thousandths of a metre, nearest, may have a minus.
pub fn altitudes_are_rounded()
    ensures reads { Gives signed_altitude_of (
        (codes "75.7", Some (pos 757000)) ∷  -- shown
        (codes "-12", Some (neg_ℤ (pos 120000))) ∷  -- below
        (codes "0.5", Some (pos 5000)) ∷  -- half a metre
        (codes "-0.5", Some (neg_ℤ (pos 5000))) ∷  -- below
        (codes "0.00005", Some (pos 1)) ∷  -- a half
        (codes "-0.00005", Some (neg_ℤ (pos 1))) ∷  -- below
        (codes "0.000049", Some (pos 0)) ∷  -- under half
        (codes "-0.000049", Some (pos 0)) ∷  -- below
        (codes "0", Some (pos 0)) ∷  -- the sea
        (codes "-0", Some (pos 0)) ∷ [])  -- likewise
    }
    ensures misses { Misses signed_altitude_of (
        [] ∷  -- unknown
        codes "-" ∷  -- a minus alone
        codes "--12" ∷  -- two signs
        codes "1-2" ∷  -- a minus between
        codes "+12" ∷  -- a plus
        codes "1.2.3" ∷ [])  -- two points
    }
    ensures units { Gives (λ (unit : List ℕ). altitude_in (codes "1.5") unit) (
        (codes "M", Some (pos 15000)) ∷
        (codes "m", None) ∷
        (codes "F", None) ∷
        (codes "L", None) ∷
        (codes "N", None) ∷
        ([], None) ∷
        (codes "MM", None) ∷ []) }
{}

/// The altitude of a GGA sentence is in metres.
pub fn altitudes_have_a_unit()
    ensures reads { Gives fix_of ((
      codes "$GPGGA,,0000,N,00000,E,9,,,-1.5,M",
      fix_at (pos 0) (pos 0) None None (Some (neg_ℤ (pos 15000))),
    ) ∷
        -- feet
        (
          codes "$GPGGA,,0000,N,00000,E,1,,,1.5,F",
          fix_at (pos 0) (pos 0) None None None,
        ) ∷ []) }
{}

/// A quality is a digit above 0, and a valid fix is A.
pub fn fixes_are_valid()
    ensures qualities { Gives is_quality (
        (codes "/", false) ∷  -- before the digits
        (codes "0", false) ∷  -- no fix
        (codes "1", true) ∷
        (codes "2", true) ∷
        (codes "3", true) ∷
        (codes "4", true) ∷
        (codes "5", true) ∷
        (codes "6", true) ∷
        (codes "7", true) ∷
        (codes "8", true) ∷
        (codes "9", true) ∷
        (codes ":", false) ∷  -- after them
        ([], false) ∷  -- empty
        (codes "11", false) ∷  -- two digits
        (codes "1 ", false) ∷
        (codes "A", false) ∷ []) }
    ensures valid { Gives is_valid (
        (codes "A", true) ∷
        (codes "V", false) ∷
        (codes "a", false) ∷
        (codes "@", false) ∷
        (codes "B", false) ∷
        ([], false) ∷
        (codes "AA", false) ∷
        (codes "A ", false) ∷ []) }
{}

/// A number has one to six digits, and perhaps a point and one to six digits.
pub fn numbers_are_in_millionths()
    ensures digits { Gives digits_of (
        (codes "0", Some 0) ∷
        (codes "123456", Some 123456) ∷
        (codes "1234567", None) ∷  -- seven
        ([], None) ∷  -- none
        (codes "12a", None) ∷
        (codes "/", None) ∷
        (codes ":", None) ∷ []) }
    ensures numbers { Gives number_in_millionths (
        (codes "0", Some 0) ∷
        (codes "1", Some 1000000) ∷
        (codes "1.5", Some 1500000) ∷
        (codes "1.05", Some 1050000) ∷
        (codes "1.000001", Some 1000001) ∷
        (codes "123456.654321", Some 123456654321) ∷
        (codes "1234567", None) ∷
        (codes "1.0000001", None) ∷
        (codes "1.", None) ∷
        (codes ".5", None) ∷
        ([], None) ∷
        (codes "1.2.3", None) ∷
        (codes "-1", None) ∷ []) }
{}

/// An angle has the sign of its letter, also below a degree, and 0 has none.
pub fn angles_have_the_sign_of_their_letter()
    ensures reads { Gives placed_by (
        -- north and east
        (
          codes "0000.5,N,00000.5,E",
          fix_at (pos 83333) (pos 83333) None None None,
        ) ∷
        -- south and west
        (
          codes "0000.5,S,00000.5,W",
          fix_at (neg_ℤ (pos 83333)) (neg_ℤ (pos 83333)) None None None,
        ) ∷
        -- a half
        (
          codes "0000.000003,S,00000.000003,W",
          fix_at (neg_ℤ (pos 1)) (neg_ℤ (pos 1)) None None None,
        ) ∷
        (codes "0000.000003,N,00000.000003,E", fix_at (pos 1) (pos 1) None None None) ∷  -- likewise
        -- down to 0
        (
          codes "0000.000002,S,00000.000002,W",
          fix_at (pos 0) (pos 0) None None None,
        ) ∷
        (codes "0000.0,S,00000.0,W", fix_at (pos 0) (pos 0) None None None) ∷  -- 0
        (codes "0000.0,N,00000.0,E", fix_at (pos 0) (pos 0) None None None) ∷ [])  -- likewise
    }
    ensures halves { Gives (sent_half 78 83) (
        (codes "N", Some false) ∷
        (codes "S", Some true) ∷
        ([], None) ∷  -- no letter
        (codes "M", None) ∷
        (codes "O", None) ∷
        (codes "n", None) ∷
        (codes "s", None) ∷
        (codes "E", None) ∷
        (codes "NS", None) ∷ [])  -- two
    }
{}

/// GGA goes on to the comma after the altitude, RMC to the comma after the speed, and GLL to
/// whether the fix is valid.
pub fn sentences_may_end_early()
    ensures reads { Gives fix_of (
        -- no unit
        (
          codes "$GPGGA,,0000,N,00000,E,1,,,1.5,",
          fix_at (pos 0) (pos 0) None None None,
        ) ∷
        -- no altitude
        (
          codes "$GPGGA,,0000,N,00000,E,1,,,,",
          fix_at (pos 0) (pos 0) None None None,
        ) ∷
        -- a unit
        (
          codes "$GPGGA,,0000,N,00000,E,1,,,1.5,M",
          fix_at (pos 0) (pos 0) None None (Some (pos 15000)),
        ) ∷
        -- no course
        (
          codes "$GPRMC,,A,0000,N,00000,E,5.0,",
          fix_at (pos 0) (pos 0) None (Some 5) None,
        ) ∷
        (codes "$GPRMC,,A,0000,N,00000,E,,", fix_at (pos 0) (pos 0) None None None) ∷  -- no speed
        -- a course
        (
          codes "$GPRMC,,A,0000,N,00000,E,5.0,89",
          fix_at (pos 0) (pos 0) (Some 89) (Some 5) None,
        ) ∷
        -- a speed rounded up
        (
          codes "$GPRMC,,A,0000,N,00000,E,4.5,89,",
          fix_at (pos 0) (pos 0) (Some 89) (Some 5) None,
        ) ∷
        -- down
        (
          codes "$GPRMC,,A,0000,N,00000,E,4.4,89,",
          fix_at (pos 0) (pos 0) (Some 89) (Some 4) None,
        ) ∷
        (codes "$GPGLL,0000,N,00000,E,,A", fix_at (pos 0) (pos 0) None None None) ∷ [])  -- valid
    }
    ensures misses { Misses fix_of (
        codes "$GPGGA,,0000,N,00000,E,1,,,1.5" ∷  -- no comma after the altitude
        codes "$GPGGA,,0000,N,00000,E,1,," ∷  -- no altitude
        codes "$GPRMC,,A,0000,N,00000,E,5.0" ∷  -- no comma after the speed
        codes "$GPGLL,0000,N,00000,E,," ∷  -- not valid
        codes "$GPGLL,0000,N,00000,E,A" ∷  -- no time
        codes "$GPGLL" ∷  -- no fields
        codes "$" ∷ [])  -- nothing
    }
{}
