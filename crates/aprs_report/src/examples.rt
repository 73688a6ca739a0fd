//! Worked examples of the definitions, shown by computation.

ghost use Rattle.std.specs.Prelude.{◌≡◌, [], Some, None, true, false, pos, codes};
ghost use Rattle.aprs_report.specs.declared.place.Place.TheVariants.{Base91};
ghost use Rattle.aprs_report.specs.Place.{latitude_of, longitude_of};
ghost use Rattle.aprs_report.specs.Stamp.{stamp_bytes};
ghost use Rattle.aprs_report.specs.Reading.{object, item, message, ack, rej, status, raw};
ghost use Rattle.aprs_report.specs.Examples.{Example, minus, fraction, plain, compressed_position, stamp_with, leader, leader_by, leader_item, here, example_symbol, object_field, object_ending, item_field, item_ending, message_field, symbol_field, with_symbol, compressed_field, stamped, unnumbered};

/// Examples of plain positions. `plain` is a house (symbol `/-`) at these hundredths of minutes
/// north and east (`minus`: south and west), with this number of digits left out. `raw` is a
/// field that has the form of no report. The last two are angles, as fractions of degrees.
pub fn plain_examples()
    ensures full { Example (codes "!4903.50N/07201.75W-") (plain (pos 294350) (minus 432175) 0) }
    ensures to_tenths { Example (codes "!4903.5 N/07201.75W-")
        (plain (pos 294350) (minus 432170) 1) }
    ensures to_degrees { Example (codes "!49  .  N/072  .  W-")
        (plain (pos 294000) (minus 432000) 4) }
    ensures only_in_longitude { Example (codes "!4903.50N/07201.7 W-") raw }

    ensures corner { Example (codes "!9000.00N/18000.00E-") (plain (pos 540000) (pos 1080000) 0) }
    ensures other_corner { Example (codes "!9000.00S/18000.00W-")
        (plain (minus 540000) (minus 1080000) 0) }
    ensures past_the_pole { Example (codes "!9000.01N/07201.75W-") raw }
    ensures past_the_south_pole { Example (codes "!9000.01S/07201.75W-") raw }
    ensures past_the_date_line { Example (codes "!4903.50N/18000.01E-") raw }
    ensures past_it_westward { Example (codes "!4903.50N/18000.01W-") raw }
    ensures most_minutes { Example (codes "!4959.99N/07201.75W-")
        (plain (pos 299999) (minus 432175) 0) }
    ensures sixty_minutes { Example (codes "!4960.00N/07201.75W-") raw }
    ensures digits_left { Example (codes "!49  .  N/07299.99W-")
        (plain (pos 294000) (minus 432000) 4) }
    ensures sixty_to_tens { Example (codes "!496 .  N/07201.75W-") raw }

    ensures north { latitude_of here ≡ fraction (pos 294350) 6000 }
    ensures west { longitude_of here ≡ fraction (minus 432175) 6000 }
{}

/// Examples of compressed positions. `compressed_position` is a car (symbol `>` of this table) at
/// these numbers y and x. `raw` is a field that has the form of no report. The first example is
/// 49.5 degrees north. The last four are angles, as fractions of degrees.
pub fn compressed_examples()
    ensures full { Example (codes "=/5L!!<*e7> sT") (compressed_position 47 15427503 20427156) }
    ensures south_pole { Example (codes "=/{{!!<*e7> sT")
        (compressed_position 47 68566680 20427156) }
    ensures past_the_pole { Example (codes "=/{{!\"<*e7> sT") raw }
    ensures end_of_the_east { Example (codes "=/5L!!{{!!> sT")
        (compressed_position 47 15427503 68566680) }
    ensures past_the_east { Example (codes "=/5L!!{{!\"> sT") raw }
    ensures overlay { Example (codes "=c5L!!<*e7> sT") (compressed_position 50 15427503 20427156) }

    ensures north { latitude_of (Base91 15427503 0 []) ≡ fraction (pos 18855837) 380926 }
    ensures south { latitude_of (Base91 68566680 0 []) ≡ fraction (minus 34283340) 380926 }
    ensures west { longitude_of (Base91 0 20427156 []) ≡ fraction (minus 13856184) 190463 }
    ensures east { longitude_of (Base91 0 68566680 []) ≡ fraction (pos 34283340) 190463 }
{}

/// Examples of symbols: the tables `/`, `\`, digits and capitals, and the codes `!` to `~`. In a
/// compressed position the letters a to j stand for the digits. The bytes next to these are no
/// table and no code.
pub fn symbol_examples()
    ensures primary { Example (symbol_field 47 33) (with_symbol 47 33) }
    ensures alternate { Example (symbol_field 92 126) (with_symbol 92 126) }
    ensures least_digit { Example (symbol_field 48 45) (with_symbol 48 45) }
    ensures greatest_digit { Example (symbol_field 57 45) (with_symbol 57 45) }
    ensures least_capital { Example (symbol_field 65 45) (with_symbol 65 45) }
    ensures greatest_capital { Example (symbol_field 90 45) (with_symbol 90 45) }
    ensures before_primary { Example (symbol_field 46 45) raw }
    ensures after_digits { Example (symbol_field 58 45) raw }
    ensures before_capitals { Example (symbol_field 64 45) raw }
    ensures after_capitals { Example (symbol_field 91 45) raw }
    ensures after_alternate { Example (symbol_field 93 45) raw }
    ensures letter { Example (symbol_field 97 45) raw }
    ensures space { Example (symbol_field 47 32) raw }
    ensures rubout { Example (symbol_field 47 127) raw }

    ensures nought { Example (compressed_field 97) (compressed_position 48 15427503 20427156) }
    ensures nine { Example (compressed_field 106) (compressed_position 57 15427503 20427156) }
    ensures before_nought { Example (compressed_field 96) raw }
    ensures after_nine { Example (compressed_field 107) raw }
{}

/// Examples of positions by their first byte: `/` and `@` have a stamp, and after `@` the station
/// takes messages. The last one is a stamp's text.
pub fn stamped_examples()
    ensures no_messages { Example (codes "/092345z4903.50N/07201.75W>") (stamped false 122) }
    ensures messages { Example (codes "@092345z4903.50N/07201.75W>") (stamped true 122) }
    ensures local_time { Example (codes "@092345/4903.50N/07201.75W>") (stamped true 47) }
    ensures to_seconds { Example (codes "/092345h4903.50N/07201.75W>") (stamped false 104) }
    ensures no_stamp { Example (codes "/4903.50N/07201.75W>") raw }
    ensures before_digits { Example (codes "@09234/z4903.50N/07201.75W>") raw }
    ensures after_digits { Example (codes "@:92345z4903.50N/07201.75W>") raw }

    ensures text { stamp_bytes (stamp_with 47) ≡ codes "092345/" }
{}

/// Examples of names. Those of objects and addressees have spaces to `~`, and those of items have
/// no `!` or `_` among these. Spaces at a name's end are no part of it. A name has one byte or
/// more. `..ending` has this byte at the end of the name.
pub fn name_examples()
    ensures object { Example (object_field 126) (object_ending 126) }
    ensures object_least { Example (object_field 33) (object_ending 33) }
    ensures object_rubout { Example (object_field 127) raw }
    ensures object_high { Example (object_field 128) raw }
    ensures object_highest { Example (object_field 255) raw }
    ensures object_control { Example (object_field 31) raw }

    ensures item { Example (item_field 126) (item_ending 126) }
    ensures item_least { Example (item_field 34) (item_ending 34) }
    ensures item_rubout { Example (item_field 127) raw }
    ensures item_high { Example (item_field 128) raw }
    ensures item_control { Example (item_field 31) raw }

    ensures addressee { Example (message_field 126) (message (codes "WU2~") (codes "Hi") None) }
    ensures addressee_rubout { Example (message_field 127) raw }
    ensures addressee_high { Example (message_field 128) raw }
    ensures addressee_control { Example (message_field 31) raw }
    ensures no_addressee { Example (codes ":         :Hi") raw }

    ensures object_of_one_byte { Example (codes ";A        *092345z4903.50N/07201.75W>")
        (object (codes "A") true (stamp_with 122) here (example_symbol 47 62) []) }
    ensures item_of_one_byte { Example (codes ")A  !4903.50N/07201.75W>")
        (item (codes "A") true here (example_symbol 47 62) []) }
    ensures item_without_a_name { Example (codes ")   !4903.50N/07201.75W>") raw }
    ensures addressee_of_one_byte { Example (codes ":A        :Hi")
        (message (codes "A") (codes "Hi") None) }
{}

/// Examples of objects and items. `leader` is the object LEADER, live where `true` and killed
/// where `false`, `leader_item` an item like it, and `raw` a field that has the form of no
/// report.
pub fn object_examples()
    ensures live { Example (codes ";LEADER   *092345z4903.50N/07201.75W>") (leader true) }
    ensures killed { Example (codes ";LEADER   _092345z4903.50N/07201.75W>") (leader false) }
    ensures no_name { Example (codes ";         *092345z4903.50N/07201.75W>") raw }
    ensures no_stamp { Example (codes ";LEADER   *4903.50N/07201.75W>") raw }
    ensures local_time { Example (codes ";LEADER   *092345/4903.50N/07201.75W>") (leader_by 47) }
    ensures to_seconds { Example (codes ";LEADER   *092345h4903.50N/07201.75W>") (leader_by 104) }
    ensures no_mark { Example (codes ";LEADER   *092345x4903.50N/07201.75W>") raw }

    ensures item { Example (codes ")LEADER!4903.50N/07201.75W>") (leader_item true) }
    ensures killed_item { Example (codes ")LEADER_4903.50N/07201.75W>") (leader_item false) }
    ensures two_bytes { Example (codes ")LE!4903.50N/07201.75W>") raw }
    ensures three_bytes { Example (codes ")LEA!4903.50N/07201.75W>")
        (item (codes "LEA") true here (example_symbol 47 62) []) }
    ensures nine_bytes { Example (codes ")LEADERSHI!4903.50N/07201.75W>")
        (item (codes "LEADERSHI") true here (example_symbol 47 62) []) }
    ensures ten_bytes { Example (codes ")LEADERSHIP!4903.50N/07201.75W>") raw }
{}

/// Examples of statuses: with no stamp, with a stamp in UTC, and with a stamp in local time,
/// which is part of the text.
pub fn status_examples()
    ensures plain { Example (codes ">Hi") (status None (codes "Hi")) }
    ensures utc { Example (codes ">092345zHi") (status (Some (stamp_with 122)) (codes "Hi")) }
    ensures local { Example (codes ">092345/Hi") (status None (codes "092345/Hi")) }
{}

/// Examples of messages, with their addressee, text and id, and of what answers them, with its
/// addressee and id.
pub fn message_examples()
    ensures numbered { Example (codes ":WU2Z     :Testing{003")
        (message (codes "WU2Z") (codes "Testing") (Some (codes "003"))) }
    ensures line_end { Example (codes ":WU2Z     :Testing{003\r")
        (message (codes "WU2Z") (codes "Testing") (Some (codes "003"))) }
    ensures line_feed { Example (codes ":WU2Z     :Testing{003\r\n")
        (message (codes "WU2Z") (codes "Testing") (Some (codes "003"))) }
    ensures longest_id { Example (codes ":WU2Z     :Testing{12345")
        (message (codes "WU2Z") (codes "Testing") (Some (codes "12345"))) }
    ensures last_brace { Example (codes ":WU2Z     :a{1{2")
        (message (codes "WU2Z") (codes "a{1") (Some (codes "2"))) }
    ensures reply_ack { Example (codes ":WU2Z     :Testing{AB}CD")
        (message (codes "WU2Z") (codes "Testing{AB}CD") None) }
    ensures long_id { Example (codes ":WU2Z     :Testing{123456")
        (message (codes "WU2Z") (codes "Testing{123456") None) }

    ensures empty_id { Example (codes ":WU2Z     :Testing{") (unnumbered (codes "Testing{")) }
    ensures id_of_all_kinds { Example (codes ":WU2Z     :Hi{09AZa")
        (message (codes "WU2Z") (codes "Hi") (Some (codes "09AZa"))) }
    ensures id_to_z { Example (codes ":WU2Z     :Hi{z")
        (message (codes "WU2Z") (codes "Hi") (Some (codes "z"))) }
    ensures before_digits { Example (codes ":WU2Z     :Hi{/") (unnumbered (codes "Hi{/")) }
    ensures after_digits { Example (codes ":WU2Z     :Hi{:") (unnumbered (codes "Hi{:")) }
    ensures before_capitals { Example (codes ":WU2Z     :Hi{@") (unnumbered (codes "Hi{@")) }
    ensures after_capitals { Example (codes ":WU2Z     :Hi{[") (unnumbered (codes "Hi{[")) }
    ensures before_letters { Example (codes ":WU2Z     :Hi{`") (unnumbered (codes "Hi{`")) }
    ensures after_letters { Example (codes ":WU2Z     :Hi{|") (unnumbered (codes "Hi{|")) }

    ensures acks { Example (codes ":N0CALL-7 :ack003") (ack (codes "N0CALL-7") (codes "003")) }
    ensures rejects { Example (codes ":N0CALL-7 :rej003") (rej (codes "N0CALL-7") (codes "003")) }
    ensures long_answer { Example (codes ":WU2Z     :ack123456") (unnumbered (codes "ack123456")) }
    ensures capital_ack { Example (codes ":WU2Z     :Ack003") (unnumbered (codes "Ack003")) }
    ensures ack_without_id { Example (codes ":WU2Z     :ack")
        (message (codes "WU2Z") (codes "ack") None) }
{}
