//! Worked examples of weather, and near misses.
ghost use Rattle.std.specs.Prelude.{codes, None, Some, true, neg_ℤ, pos, ℕ, List, false, ◌≡◌, ◌∷◌, []};
ghost use Rattle.aprs_details.specs.Details.{is_weather_station};
ghost use Rattle.aprs_details.specs.Examples.{Gives, of_station, plain_place, weather_alone, shown_weather, compressed_place, windy, weather, Misses, number_in, bytes_where, bytes_with, compressed_weather, of_car, moves, sent_with};
ghost use Rattle.aprs_details.specs.Weather.{weather_of_info, temperature_of, humidity_of, luminosity_of, has_three, width_of, fits_letter, weather_of_fields, weather_of_comment};

/// Weather with a plain position and a compressed one, as the standard shows it.
pub fn weather_is_as_the_standard_shows_it()
    ensures reads { Gives of_station (
        -- plain
        (
          (plain_place, codes "220/004g005t077r000p000P000h50b09900wRSW"),
          weather_alone None (shown_weather (Some 220) (Some 4)),
        ) ∷
        -- compressed
        (
          (compressed_place (codes "7P["), codes "g005t077r000p000P000h50b09900wRSW"),
          weather_alone (Some true) (shown_weather (Some 88) None),
        ) ∷ []) }
{}

/// The wind's direction is at most 360 degrees.
pub fn winds_have_a_direction()
    ensures reads { Gives of_station (
        -- least
        (
          (plain_place, codes "000/004g005t077r000p000P000h50b09900"),
          weather_alone None (shown_weather (Some 0) (Some 4)),
        ) ∷
        -- greatest
        (
          (plain_place, codes "360/004g005t077r000p000P000h50b09900"),
          weather_alone None (shown_weather (Some 360) (Some 4)),
        ) ∷
        -- more
        (
          (plain_place, codes "361/004g005t077r000p000P000h50b09900"),
          weather_alone None (shown_weather None (Some 4)),
        ) ∷ []) }
{}

/// Weather without a position, as the standard shows it.
pub fn weather_has_no_position()
    ensures reads { Gives weather_of_info ((
      codes "_10090556c220s004g005t077r000p000P000h50b09900wRSW",
      Some (shown_weather (Some 220) (Some 4)),
    ) ∷
        (codes "_00000000c220s004g005", Some (windy (Some 220) (Some 4))) ∷
        (codes "_99999999g005", Some (windy None None)) ∷
        -- DIR/SPD is no field
        (
          codes "_10090556220/004g005",
          Some (weather None None None None None None None None None None),
        ) ∷ []) }
    ensures misses { Misses weather_of_info (
        codes "_1009055c220s004g005t077" ∷  -- seven digits
        codes "_1009055/g005" ∷  -- before the digits
        codes "_1009055:g005" ∷  -- after them
        codes "_/0090556g005" ∷  -- likewise
        codes "_1009055" ∷  -- cut off
        codes "!10090556c220s004g005t077" ∷  -- another mark
        codes "^10090556g005" ∷  -- before it
        codes "`10090556g005" ∷  -- after it
        codes "10090556g005" ∷ [])  -- none
    }
{}

/// The number of a letter's field: fields may be open and stand in any order, and the first of a
/// letter counts.
pub fn fields_follow_one_another()
    ensures reads { Gives number_in (
        ((103, codes "g...t077"), None) ∷  -- dots
        ((116, codes "g...t077"), Some 77) ∷  -- after dots
        ((103, codes "g   t077"), None) ∷  -- spaces
        ((116, codes "g   t077"), Some 77) ∷  -- after spaces
        ((98, codes "h50b09900g005"), Some 9900) ∷  -- another order
        ((103, codes "g005g006"), Some 5) ∷  -- first
        ((103, codes "g...g006"), None) ∷  -- first, open
        ((103, codes "t-07g005"), Some 5) ∷  -- after a minus
        ((35, codes "#321"), Some 321) ∷ [])  -- a count
    }
    ensures misses { Misses number_in (
        (116, codes "g005 t077") ∷  -- after text
        (116, codes "g.. t077") ∷  -- after mixed places
        (116, codes "x005t077") ∷  -- after another letter
        (116, codes "g05t077") ∷  -- after two places
        (116, codes "g0055t077") ∷  -- after four
        (116, codes "b0990t077") ∷  -- after four of five
        (116, codes "h5t077") ∷  -- after one of two
        (103, codes "g-05") ∷  -- gust below nought
        (98, codes "b0990") ∷  -- cut off
        (104, codes "h5") ∷  -- likewise
        (103, codes "G005") ∷ [])  -- a capital
    }
{}

/// A temperature may be below nought.
pub fn temperatures_have_a_minus()
    ensures reads { Gives temperature_of (
        (codes "t-99", Some (neg_ℤ (pos 99))) ∷  -- least
        (codes "t-07", Some (neg_ℤ (pos 7))) ∷  -- below
        (codes "t-01", Some (neg_ℤ (pos 1))) ∷  -- likewise
        (codes "t-00", Some (pos 0)) ∷  -- nought
        (codes "t000", Some (pos 0)) ∷  -- nought
        (codes "t001", Some (pos 1)) ∷  -- above
        (codes "t007", Some (pos 7)) ∷  -- likewise
        (codes "t999", Some (pos 999)) ∷  -- greatest
        (codes "t077t078", Some (pos 77)) ∷  -- first
        (codes "t...", None) ∷  -- open
        (codes "t   ", None) ∷ [])  -- likewise
    }
    ensures misses { Misses temperature_of (
        codes "t-7" ∷  -- short
        codes "t-.7" ∷  -- a dot
        codes "t+07" ∷  -- a plus
        codes "T007" ∷ [])  -- a capital
    }
{}

/// A humidity of 00 is 100 percent.
pub fn humidities_are_percent()
    ensures reads { Gives humidity_of (
        (codes "h00", Some 100) ∷  -- hundred
        (codes "h01", Some 1) ∷  -- one
        (codes "h99", Some 99) ∷  -- most
        (codes "h..", None) ∷  -- open
        (codes "h  ", None) ∷ [])  -- likewise
    }
    ensures misses { Misses humidity_of (
        codes "h1" ∷  -- short
        codes "h. " ∷  -- mixed
        codes "H01" ∷ [])  -- a capital
    }
{}

/// A luminosity l is a thousand more than its places say. A luminosity L counts before it, wherever
/// both stand.
pub fn luminosities_have_two_letters()
    ensures reads { Gives luminosity_of (
        (codes "L012", Some 12) ∷  -- dark
        (codes "l012", Some 1012) ∷  -- bright
        (codes "L000", Some 0) ∷  -- least
        (codes "L999", Some 999) ∷  -- most by L
        (codes "l000", Some 1000) ∷  -- least by l
        (codes "l999", Some 1999) ∷  -- most
        (codes "L012l013", Some 12) ∷  -- L first
        (codes "l013L012", Some 12) ∷  -- l first
        (codes "L...l013", Some 1013) ∷  -- L open
        (codes "L012L014", Some 12) ∷  -- twice
        (codes "l...", None) ∷ [])  -- open
    }
    ensures misses { Misses luminosity_of (
        codes "L12" ∷  -- short
        codes "g005 L012" ∷ [])  -- late
    }
{}

/// A field is a letter and its places: two, three or five.
pub fn letters_have_places()
    ensures three { bytes_where has_three ≡ codes "#LPcglprst" }
    ensures all { bytes_with width_of ≡ codes "#LPbcghlprst" }
    ensures widths { Gives width_of (
        (104, Some 2) ∷  -- h
        (98, Some 5) ∷  -- b
        (99, Some 3) ∷  -- c
        (115, Some 3) ∷  -- s
        (103, Some 3) ∷  -- g
        (116, Some 3) ∷  -- t
        (114, Some 3) ∷  -- r
        (112, Some 3) ∷  -- p
        (80, Some 3) ∷  -- P
        (76, Some 3) ∷  -- L
        (108, Some 3) ∷  -- l
        (35, Some 3) ∷  -- #
        (72, None) ∷ [])  -- H
    }
    ensures fits { Gives (λ (x : ℕ × List ℕ). fits_letter x.0 x.1) (
        ((116, codes "077"), true) ∷  -- t
        ((116, codes "..."), true) ∷
        ((116, codes "   "), true) ∷
        ((116, codes "-07"), true) ∷  -- below nought
        ((116, codes "-.."), false) ∷
        ((116, codes "--7"), false) ∷
        ((116, codes "-7 "), false) ∷
        ((116, codes "0-7"), false) ∷
        ((116, codes "+07"), false) ∷
        ((116, codes ". ."), false) ∷
        ((103, codes "077"), true) ∷  -- g
        ((103, codes "-07"), false) ∷
        ((84, codes "-07"), false) ∷ [])  -- T
    }
{}

/// Each letter has its own field, in whatever order they stand. What the places of # say is passed
/// over.
pub fn letters_have_fields()
    ensures in_order { weather_of_fields (codes "c220s004g005t077r001p002P003h50b09900L123")
        ≡ weather (Some 220) (Some 4) (Some 5) (Some (pos 77)) (Some 1) (Some 2) (Some 3) (Some 50)
        (Some 9900) (Some 123) }
    ensures backwards { weather_of_fields (codes "L123b09900h50P003p002r001t077g005s004c220")
        ≡ weather (Some 220) (Some 4) (Some 5) (Some (pos 77)) (Some 1) (Some 2) (Some 3) (Some 50)
        (Some 9900) (Some 123) }
    ensures counted { weather_of_fields (codes "#321c220#s004g005")
        ≡ weather (Some 220) None None None None None None None None None }
    ensures after_a_count { weather_of_fields (codes "c220#321s004g005")
        ≡ windy (Some 220) (Some 4) }
    ensures past_north { weather_of_fields (codes "c361s004g005") ≡ windy None (Some 4) }
    ensures north { weather_of_fields (codes "c360s004g005") ≡ windy (Some 360) (Some 4) }
    ensures misses_capitals { weather_of_fields (codes "C220S004G005")
        ≡ weather None None None None None None None None None None }
{}

/// Weather of a plain position begins with the wind, or has it in its fields. Then the fields c and
/// s are no wind.
pub fn weather_begins_with_wind()
    ensures reads { Gives weather_of_comment (
        (codes "220/004g005", windy (Some 220) (Some 4)) ∷  -- DIR/SPD
        (codes "c220s004g005", windy (Some 220) (Some 4)) ∷  -- fields
        (codes "220/004c100s001g005", windy (Some 220) (Some 4)) ∷  -- both
        (codes ".../...g005", windy None None) ∷  -- open
        (codes ".../...c100s001g005", windy None None) ∷  -- open, and fields
        (codes "000/000g005", windy (Some 0) (Some 0)) ∷  -- least
        (codes "361/004g005", windy None (Some 4)) ∷  -- past north
        (codes "s004c220g005", windy (Some 220) (Some 4)) ∷ [])  -- another order
    }
{}

/// Weather of a compressed position may begin with the wind too. Otherwise its direction is the
/// byte c.
pub fn compressed_weather_has_wind()
    ensures reads { Gives compressed_weather (
        ((codes "7P[", codes "g005"), windy (Some 88) None) ∷  -- c
        ((codes "!P[", codes "g005"), windy (Some 360) None) ∷  -- c, north
        ((codes " sT", codes "g005"), windy None None) ∷  -- neither
        ((codes "7PQ", codes "g005"), windy None None) ∷  -- GGA
        ((codes "7P[", codes "c220s004g005"), windy (Some 88) None) ∷  -- fields are no wind
        ((codes " sT", codes "c220s004g005"), windy None None) ∷  -- likewise
        ((codes " sT", codes "220/004g005"), windy (Some 220) (Some 4)) ∷  -- DIR/SPD
        ((codes "7P[", codes "220/004g005"), windy (Some 220) (Some 4)) ∷  -- both
        ((codes "7P[", codes ".../...g005"), windy None None) ∷  -- open
        ((codes "7P[", codes "361/004g005"), windy None (Some 4)) ∷  -- past north
        -- text
        (
          (codes "7P[", codes "22/004g005"),
          weather (Some 88) None None None None None None None None None,
        ) ∷ []) }
{}

/// A weather station has the code _ of either table, and no course. Other symbols have no weather.
pub fn symbols_tell_weather_stations()
    ensures codes { bytes_where (λ code. is_weather_station (record { table = 47; code = code }))
        ≡ codes "_" }
    ensures alternate { is_weather_station (record { table = 92; code = 95 }) ≡ true }
    ensures misses_table { is_weather_station (record { table = 95; code = 47 }) ≡ false }
    ensures station { of_station (plain_place, codes "220/004g005/A=001234")
        ≡ record (weather_alone None (windy (Some 220) (Some 4))) {
          altitude = Some (pos 3761232);
        } }
    ensures station_with_a_range { of_station (plain_place, codes "RNG0050")
        ≡ record (weather_alone None (weather None None None None None None None None None None)) {
          range = Some 5000;
        } }
    ensures station_with_a_transmitter { of_station (plain_place, codes "PHG5132")
        ≡ record (weather_alone None (weather None None None None None None None None None None)) {
          phg = sent_with 25 20 3 90;
        } }
    ensures misses_car { of_car (codes "220/004g005") ≡ moves (Some 220) (Some 4) None }
{}
