//! Worked examples of the columns of what a report says, and near misses.
ghost use Rattle.std.specs.Prelude.{codes, ◌∷◌, ◌++◌, []};
ghost use Rattle.aprs_table.specs.Examples.{Tells, at_here, at_compressed};

/// The comment of a position says course, speed and altitude; or a range; or a transmitter.
pub fn comments_have_columns()
    ensures motion { Tells (codes "!4903.50N/07201.75W>088/036/A=001234 Hi") (codes "position") (
        at_here ++ ((codes "symbol", codes "/>") ∷ (codes "course", codes "88") ∷
        (codes "speed_knots", codes "36") ∷ (codes "altitude_m", codes "376.1232") ∷
        (codes "text", codes "088/036/A=001234 Hi") ∷ (codes "messaging", codes "no") ∷ [])) }
    ensures range { Tells (codes "!4903.50N/07201.75W>RNG0050") (codes "position") (
        at_here ++ ((codes "symbol", codes "/>") ∷ (codes "text", codes "RNG0050") ∷
        (codes "messaging", codes "no") ∷ (codes "range_miles", codes "50.00") ∷ [])) }
    ensures compressed_range { Tells (codes "=/5L!!<*e7>{?!") (codes "position") (
        at_compressed ++ ((codes "symbol", codes "/>") ∷ (codes "messaging", codes "yes") ∷
        (codes "fix", codes "old") ∷ (codes "range_miles", codes "20.13") ∷ [])) }
    ensures transmitter { Tells (codes "=4903.50N/07201.75W#PHG5132") (codes "position") (
        at_here ++ ((codes "symbol", codes "/#") ∷ (codes "text", codes "PHG5132") ∷
        (codes "messaging", codes "yes") ∷ (codes "phg_watts", codes "25") ∷
        (codes "phg_height_ft", codes "20") ∷ (codes "phg_gain_db", codes "3") ∷
        (codes "phg_direction", codes "90") ∷ [])) }
    ensures frequency { Tells (codes "=4903.50N/07201.75W>146.520MHz T100 +060!W12!|ss112233|")
        (codes "position") (
        at_here ++ ((codes "symbol", codes "/>") ∷ (codes "telemetry_sequence", codes "7544") ∷
        (codes "a1", codes "1472") ∷ (codes "a2", codes "1564") ∷ (codes "a3", codes "1656") ∷
        (codes "text", codes "146.520MHz T100 +060!W12!|ss112233|") ∷
        (codes "messaging", codes "yes") ∷ (codes "frequency_khz", codes "146520") ∷
        (codes "tone", codes "T100") ∷ (codes "offset_khz", codes "600") ∷
        (codes "finer_latitude", codes "49.0583500") ∷
        (codes "finer_longitude", codes "-72.0292000") ∷ [])) }
    ensures offset_below { Tells (codes ">092345z146.520MHz -060 Net at 8") (codes "status") (
        (codes "stamp", codes "092345z") ∷ (codes "text", codes "146.520MHz -060 Net at 8") ∷
        (codes "frequency_khz", codes "146520") ∷ (codes "offset_khz", codes "-600") ∷ []) }
    ensures no_tone { Tells (codes "=4903.50N/07201.75W>146.940MHz Dave") (codes "position") (
        at_here ++ ((codes "symbol", codes "/>") ∷ (codes "text", codes "146.940MHz Dave") ∷
        (codes "messaging", codes "yes") ∷ (codes "frequency_khz", codes "146940") ∷ [])) }
    ensures no_speed { Tells (codes "=4903.50N/07201.75W>. ./036") (codes "position") (
        at_here ++ ((codes "symbol", codes "/>") ∷ (codes "text", codes ". ./036") ∷
        (codes "messaging", codes "yes") ∷ [])) }
{}

/// Weather has a column for each of its fields.
pub fn weather_has_columns()
    ensures plain { Tells
        (codes "/092345z4903.50N/07201.75W_220/004g005t-07r001p002P003h50b09900L123")
        (codes "position") (
        at_here ++ ((codes "symbol", codes "/_") ∷ (codes "stamp", codes "092345z") ∷
        (codes "wind_from", codes "220") ∷ (codes "wind_mph", codes "4") ∷
        (codes "gust_mph", codes "5") ∷ (codes "temperature_f", codes "-7") ∷
        (codes "rain_hour", codes "1") ∷ (codes "rain_day", codes "2") ∷
        (codes "rain_midnight", codes "3") ∷ (codes "humidity", codes "50") ∷
        (codes "pressure_tenths", codes "9900") ∷ (codes "luminosity", codes "123") ∷
        (codes "text", codes "220/004g005t-07r001p002P003h50b09900L123") ∷
        (codes "messaging", codes "no") ∷ [])) }
    ensures compressed { Tells (codes "=/5L!!<*e7_ sT220/004g005t-07r001p002P003h50b09900L123")
        (codes "position") (
        at_compressed ++ ((codes "symbol", codes "/_") ∷ (codes "wind_from", codes "220") ∷
        (codes "wind_mph", codes "4") ∷ (codes "gust_mph", codes "5") ∷
        (codes "temperature_f", codes "-7") ∷ (codes "rain_hour", codes "1") ∷
        (codes "rain_day", codes "2") ∷ (codes "rain_midnight", codes "3") ∷
        (codes "humidity", codes "50") ∷ (codes "pressure_tenths", codes "9900") ∷
        (codes "luminosity", codes "123") ∷
        (codes "text", codes "220/004g005t-07r001p002P003h50b09900L123") ∷
        (codes "messaging", codes "yes") ∷ [])) }
    ensures by_c { Tells (codes "=/5L!!<*e7_7P[g005") (codes "position") (
        at_compressed ++ ((codes "symbol", codes "/_") ∷ (codes "wind_from", codes "88") ∷
        (codes "gust_mph", codes "5") ∷ (codes "text", codes "g005") ∷
        (codes "messaging", codes "yes") ∷ (codes "fix", codes "current") ∷ [])) }
    ensures object { Tells (codes ";LEADER   *092345z4903.50N/07201.75W_220/004g005")
        (codes "object") (
        (codes "name", codes "LEADER") ∷ (codes "state", codes "live") ∷ at_here ++ (
        (codes "symbol", codes "/_") ∷ (codes "stamp", codes "092345z") ∷
        (codes "wind_from", codes "220") ∷ (codes "wind_mph", codes "4") ∷
        (codes "gust_mph", codes "5") ∷ (codes "text", codes "220/004g005") ∷ [])) }
{}

/// Telemetry is written as it was sent, and that of a comment in decimal.
pub fn telemetry_has_columns()
    ensures report { Tells (codes "T#005,1,-2.5,003,4,5,01101001") (codes "telemetry") (
        (codes "telemetry_sequence", codes "005") ∷ (codes "a1", codes "1") ∷
        (codes "a2", codes "-2.5") ∷ (codes "a3", codes "003") ∷ (codes "a4", codes "4") ∷
        (codes "a5", codes "5") ∷ (codes "bits", codes "01101001") ∷
        (codes "text", codes "T#005,1,-2.5,003,4,5,01101001") ∷ []) }
    ensures unnumbered { Tells (codes "T#MIC1,2,3,4,5") (codes "telemetry") (
        (codes "a1", codes "1") ∷ (codes "a2", codes "2") ∷ (codes "a3", codes "3") ∷
        (codes "a4", codes "4") ∷ (codes "a5", codes "5") ∷
        (codes "text", codes "T#MIC1,2,3,4,5") ∷ []) }
    ensures comment { Tells (codes "!4903.50N/07201.75W-|ss1122334455!\"|") (codes "position") (
        at_here ++ ((codes "symbol", codes "/-") ∷ (codes "telemetry_sequence", codes "7544") ∷
        (codes "a1", codes "1472") ∷ (codes "a2", codes "1564") ∷ (codes "a3", codes "1656") ∷
        (codes "a4", codes "1748") ∷ (codes "a5", codes "1840") ∷
        (codes "bits", codes "10000000") ∷ (codes "text", codes "|ss1122334455!\"|") ∷
        (codes "messaging", codes "no") ∷ [])) }
    ensures without_bits { Tells (codes "!4903.50N/07201.75W-|ss1122334455|") (codes "position") (
        at_here ++ ((codes "symbol", codes "/-") ∷ (codes "telemetry_sequence", codes "7544") ∷
        (codes "a1", codes "1472") ∷ (codes "a2", codes "1564") ∷ (codes "a3", codes "1656") ∷
        (codes "a4", codes "1748") ∷ (codes "a5", codes "1840") ∷
        (codes "text", codes "|ss1122334455|") ∷ (codes "messaging", codes "no") ∷ [])) }
{}

/// A sentence of a GPS receiver has a place, and may have a course, a speed and an altitude.
pub fn sentences_have_columns()
    ensures rmc { Tells
        (codes "$GPRMC,063909,A,3349.4302,N,11700.3721,W,43.022,89.3,291099,13.6,E*52")
        (codes "raw") (
        (codes "latitude", codes "33.8238367") ∷ (codes "longitude", codes "-117.0062017") ∷
        (codes "course", codes "89") ∷ (codes "speed_knots", codes "43") ∷ (
          codes "text",
          codes "$GPRMC,063909,A,3349.4302,N,11700.3721,W,43.022,89.3,291099,13.6,E*52",
        ) ∷ []) }
    ensures gga { Tells (codes "$GPGGA,102705,5157.9762,N,00029.3256,W,1,04,2.0,75.7,M,47.6,M,,*62")
        (codes "raw") (
        (codes "latitude", codes "51.9662700") ∷ (codes "longitude", codes "-0.4887600") ∷
        (codes "altitude_m", codes "75.7000") ∷ (
          codes "text",
          codes "$GPGGA,102705,5157.9762,N,00029.3256,W,1,04,2.0,75.7,M,47.6,M,,*62",
        ) ∷ []) }
    ensures below_the_sea { Tells (codes "$GPGGA,,0000,N,00000,E,9,,,-0.5,M") (codes "raw") (
        (codes "latitude", codes "0.0000000") ∷ (codes "longitude", codes "0.0000000") ∷
        (codes "altitude_m", codes "-0.5000") ∷
        (codes "text", codes "$GPGGA,,0000,N,00000,E,9,,,-0.5,M") ∷ []) }
    ensures misses { Tells (codes "$GPRMC,063909,A\\") (codes "raw") (
        (codes "text", codes "$GPRMC,063909,A\\x5c") ∷ []) }
{}
