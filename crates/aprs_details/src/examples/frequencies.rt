//! Worked examples of frequencies, and near misses.
ghost use Rattle.std.specs.Prelude.{codes, None, Some, neg_ℤ, pos, true, false, ◌≡◌, ◌∷◌, []};
ghost use Rattle.aprs_details.specs.Examples.{Gives, tuned, Misses, bytes_where};
ghost use Rattle.aprs_details.specs.Frequency.{frequency_of, mic_e_frequency_of, is_tone_letter, is_tone, offset_of, thousandths_of, is_megahertz, is_extension, tuned_at};

/// A comment may begin with a frequency, to a kilohertz or to ten, and a tone and an offset may
/// follow.
pub fn comments_begin_with_a_frequency()
    ensures reads { Gives frequency_of (
        (codes "146.520MHz", tuned 146520 [] None) ∷  -- to a kilohertz
        (codes "146.52 MHz", tuned 146520 [] None) ∷  -- to ten
        (codes "444.225MHz T107 R35m", tuned 444225 (codes "T107") None) ∷  -- shown
        -- below
        (
          codes "146.940MHz C107 -060",
          tuned 146940 (codes "C107") (Some (neg_ℤ (pos 600))),
        ) ∷
        (codes "146.940MHz D023 +500 Hi", tuned 146940 (codes "D023") (Some (pos 5000))) ∷  -- above
        (codes "146.940MHz +060", tuned 146940 [] (Some (pos 600))) ∷  -- no tone
        (codes "146.940MHz t107", tuned 146940 (codes "t107") None) ∷  -- narrow
        (codes "146.940MHz c107", tuned 146940 (codes "c107") None) ∷  -- narrow
        (codes "146.940MHz d023", tuned 146940 (codes "d023") None) ∷ [])  -- narrow
    }
    ensures misses { Misses frequency_of (
        codes "146.5MHz" ∷  -- one digit
        codes "146.5200MHz" ∷  -- four digits
        codes "46.520MHz" ∷  -- two digits before the point
        codes "146,520MHz" ∷  -- a comma
        codes "146.520mhz" ∷  -- lower case
        codes "146.520 MHz" ∷  -- a space too much
        codes "146. 20MHz" ∷  -- a space before
        codes "14 .520MHz" ∷  -- a space before the point
        codes " 146.520MHz" ∷  -- late
        codes "abc/def146.520MHz" ∷ [])  -- no extension
    }
{}

/// It may follow a data extension.
pub fn frequencies_follow_extensions()
    ensures reads { Gives frequency_of (
        (codes "088/036146.520MHz", tuned 146520 [] None) ∷  -- course and speed
        (codes "RNG0050146.520MHz", tuned 146520 [] None) ∷  -- a range
        (codes "PHG5132146.520MHz", tuned 146520 [] None) ∷ [])  -- a transmitter
    }
{}

/// Other words are no tone and no offset.
pub fn other_words_follow_frequencies()
    ensures reads { Gives frequency_of (
        (codes "000.000MHz", tuned 0 [] None) ∷  -- least
        (codes "999.999MHz", tuned 999999 [] None) ∷  -- greatest
        (codes "146.520MHzT107", tuned 146520 [] None) ∷  -- no space
        (codes "146.940MHz Dave", tuned 146940 [] None) ∷  -- a name
        (codes "146.520MHz E107", tuned 146520 [] None) ∷  -- another letter
        (codes "146.520MHz T1O7", tuned 146520 [] None) ∷  -- a letter for a digit
        (codes "146.520MHz *060", tuned 146520 [] None) ∷  -- no sign
        (codes "146.520MHz +06 ", tuned 146520 [] None) ∷  -- two digits
        (codes "146.520MHz  +060", tuned 146520 [] None) ∷  -- two spaces
        (codes "146.520MHz Hi +060", tuned 146520 [] None) ∷  -- after a word
        (codes "146.520MHz T107+060", tuned 146520 (codes "T107") None) ∷  -- no space
        (codes "146.520MHz T107  +060", tuned 146520 (codes "T107") None) ∷  -- two spaces
        (codes "146.520MHz T107 D023", tuned 146520 (codes "T107") None) ∷  -- two tones
        (codes "146.520MHz +060 T107", tuned 146520 [] (Some (pos 600))) ∷  -- the offset first
        (codes "146.520MHz +060 -060", tuned 146520 [] (Some (pos 600))) ∷ [])  -- two offsets
    }
{}

/// In a Mic-E comment it may follow a radio's mark and an altitude.
pub fn frequencies_follow_altitudes()
    ensures reads { Gives mic_e_frequency_of (
        (codes "146.520MHz", tuned 146520 [] None) ∷  -- alone
        (codes "]146.520MHz", tuned 146520 [] None) ∷  -- a mark
        (codes "\"4T}146.520MHz", tuned 146520 [] None) ∷  -- an altitude
        (codes "]\"4T}146.520MHz", tuned 146520 [] None) ∷ [])  -- both
    }
    ensures misses { Misses mic_e_frequency_of (
        codes "\"4T}]146.520MHz" ∷  -- a mark after the altitude
        codes "]]146.520MHz" ∷  -- two marks
        codes "\"4T146.520MHz" ∷ [])  -- no brace
    }
{}

/// A tone is T, C or D, small on a narrow channel, and three digits. An offset is a sign and three
/// digits of tens of kilohertz.
pub fn words_are_tones_or_offsets()
    ensures letters { bytes_where is_tone_letter ≡ codes "CDTcdt" }
    ensures tones { Gives is_tone (
        (codes "T107", true) ∷
        (codes "C107", true) ∷
        (codes "D023", true) ∷
        (codes "t107", true) ∷
        (codes "c107", true) ∷
        (codes "d023", true) ∷
        (codes "Dave", false) ∷  -- a name
        (codes "D02a", false) ∷
        (codes "Da23", false) ∷
        (codes "D0 3", false) ∷
        (codes "d0.3", false) ∷
        (codes "C1 7", false) ∷
        (codes "T/07", false) ∷  -- before the digits
        (codes "T:07", false) ∷  -- after them
        (codes "E107", false) ∷  -- another letter
        (codes "1107", false) ∷ [])  -- none
    }
    ensures offsets { Gives offset_of (
        (codes "+060", Some (pos 600)) ∷
        (codes "-060", Some (neg_ℤ (pos 600))) ∷
        (codes "+000", Some (pos 0)) ∷  -- nought
        (codes "-000", Some (pos 0)) ∷  -- nought
        (codes "+001", Some (pos 10)) ∷  -- least
        (codes "-001", Some (neg_ℤ (pos 10))) ∷  -- likewise
        (codes "+999", Some (pos 9990)) ∷  -- greatest
        (codes "-999", Some (neg_ℤ (pos 9990))) ∷  -- likewise
        (codes "*060", None) ∷  -- before plus
        (codes ",060", None) ∷  -- between
        (codes ".060", None) ∷  -- after minus
        (codes "0060", None) ∷  -- no sign
        (codes "+06 ", None) ∷  -- two digits
        (codes "+/60", None) ∷  -- before the digits
        (codes "-:60", None) ∷ [])  -- after them
    }
{}

/// The places after the point are three digits, or two and a space.
pub fn places_after_the_point_are_kilohertz()
    ensures reads { Gives thousandths_of (
        (codes "520", Some 520) ∷
        (codes "52 ", Some 520) ∷
        (codes "000", Some 0) ∷
        (codes "00 ", Some 0) ∷
        (codes "999", Some 999) ∷
        (codes "99 ", Some 990) ∷
        (codes "5  ", None) ∷
        (codes " 52", None) ∷
        (codes "5 2", None) ∷
        (codes "52a", None) ∷
        (codes "52.", None) ∷
        (codes "5/ ", None) ∷ []) }
    ensures megahertz { Gives is_megahertz (
        (codes "MHz", true) ∷
        (codes "MHZ", false) ∷
        (codes "Mhz", false) ∷
        (codes "mHz", false) ∷
        (codes "HMz", false) ∷
        (codes "GHz", false) ∷
        (codes "MGz", false) ∷
        (codes "MHy", false) ∷ []) }
{}

/// Three kinds of data extension may stand before a frequency.
pub fn extensions_have_three_kinds()
    ensures reads { Gives is_extension (
        (codes "088/036", true) ∷  -- course and speed
        (codes ".../...", true) ∷  -- open
        (codes "RNG0050", true) ∷  -- a range
        (codes "PHG5132", true) ∷  -- a transmitter
        (codes "DFS2360", false) ∷  -- another
        (codes "PHG5139", false) ∷  -- broken
        (codes "RNG005.", false) ∷
        (codes "abc/def", false) ∷  -- text
        (codes "088.036", false) ∷ []) }
    ensures misses { Misses frequency_of (
        codes "088/036 146.520MHz" ∷  -- a space between
        codes "088/03146.520MHz" ∷  -- a short one
        codes "088/0366146.520MHz" ∷  -- a long one
        codes "088/036088/036146.520MHz" ∷  -- two
        codes "DFS2360146.520MHz" ∷ [])  -- another
    }
    ensures status { Gives tuned_at (
        (codes "146.520MHz T107", tuned 146520 (codes "T107") None) ∷
        (codes "088/036146.520MHz", None) ∷ [])  -- an extension
    }
{}
