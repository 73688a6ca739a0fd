//! Worked examples of the definitions, and near misses. These functions do nothing.
ghost use Rattle.std.specs.Prelude.{◌++◌, ◌∷◌, [], ℕ, List, codes};
ghost use Rattle.aprs_io.specs.declared.input.InputEnd.TheVariants.{End, Read};
ghost use Rattle.aprs_log.specs.Examples.{heard_after, hi_digits, hi_line, leap_line, line_by, noon, unended_line};
ghost use Rattle.aprs_log.specs.Receiver.{IsName};
ghost use Rattle.aprs_log.specs.LineText.{IsPassed, IsWrongLine, Reports};
ghost use Rattle.aprs_log.specs.Moment.{IsTextOf};
ghost use Rattle.aprs_log.specs.LogText.{HasLogFault, IsLogText};
ghost use Rattle.aprs_log.specs.Reception.{Received};
ghost use Rattle.aprs_log.specs.declared.fault.LogCause.TheVariants as why;

/// Each moment has a text to the millisecond, and one at a whole second has a text to the second
/// too. A text with the second 60 is that of no moment.
pub fn moments_have_texts()
    ensures seconds { IsTextOf 1714564800000 noon }
    ensures millis { IsTextOf 1714564800500 (codes "2024-05-01T12:00:00.500Z") }
    ensures misses_half { IsTextOf 1714564800500 noon → ⊥ }
    ensures misses_leap { (m : ℕ) → IsTextOf m (codes "2024-05-01T12:00:60.000Z") → ⊥ }
{}

/// Moments are from 1970 to 2099, on days of the civil calendar, and at times from 00:00:00 to
/// 23:59:59.999 in UTC. Their texts have digits in fixed places, a capital `T`, and `Z` at the end.
pub fn moments_have_limits()
    ensures first { IsTextOf 0 (codes "1970-01-01T00:00:00Z") }
    ensures last { IsTextOf 4102444799999 (codes "2099-12-31T23:59:59.999Z") }
    ensures leap_day { IsTextOf 1709164800000 (codes "2024-02-29T00:00:00Z") }
    ensures last_of_day { IsTextOf 1714607999000 (codes "2024-05-01T23:59:59Z") }

    ensures misses_before { (m : ℕ) → IsTextOf m (codes "1969-12-31T23:59:59Z") → ⊥ }
    ensures misses_after { (m : ℕ) → IsTextOf m (codes "2100-01-01T00:00:00Z") → ⊥ }
    ensures misses_no_month { (m : ℕ) → IsTextOf m (codes "2024-00-01T12:00:00Z") → ⊥ }
    ensures misses_month { (m : ℕ) → IsTextOf m (codes "2024-13-01T12:00:00Z") → ⊥ }
    ensures misses_no_day { (m : ℕ) → IsTextOf m (codes "2024-05-00T12:00:00Z") → ⊥ }
    ensures misses_day { (m : ℕ) → IsTextOf m (codes "2024-04-31T12:00:00Z") → ⊥ }
    ensures misses_leap_day { (m : ℕ) → IsTextOf m (codes "2023-02-29T12:00:00Z") → ⊥ }
    ensures misses_hour { (m : ℕ) → IsTextOf m (codes "2024-05-01T24:00:00Z") → ⊥ }
    ensures misses_minute { (m : ℕ) → IsTextOf m (codes "2024-05-01T12:60:00Z") → ⊥ }
    ensures misses_small_t { (m : ℕ) → IsTextOf m (codes "2024-05-01t12:00:00Z") → ⊥ }
    ensures misses_small_z { (m : ℕ) → IsTextOf m (codes "2024-05-01T12:00:00z") → ⊥ }
    ensures misses_comma { (m : ℕ) → IsTextOf m (codes "2024-05-01T12:00:00,500Z") → ⊥ }
    ensures misses_before_digits { (m : ℕ) → IsTextOf m (codes "2024-05-0/T12:00:00Z") → ⊥ }
    ensures misses_after_digits { (m : ℕ) → IsTextOf m (codes "2024-05-0:T12:00:00Z") → ⊥ }
    ensures misses_offset { (m : ℕ) → IsTextOf m (codes "2024-05-01T12:00:00+00:00") → ⊥ }
{}

/// A receiver's name has 1 to 16 ASCII letters, digits, dashes and underlines. The bytes next to
/// these in ASCII aren't in any name.
pub fn receivers_have_names()
    ensures shortest { IsName (codes "_") }
    ensures longest { IsName (codes "AZaz09-_AZaz09-_") }
    ensures misses_none { IsName [] → ⊥ }
    ensures misses_seventeen { IsName (codes "AZaz09-_AZaz09-_A") → ⊥ }

    ensures misses_comma { IsName (codes "RX,1") → ⊥ }
    ensures misses_dot { IsName (codes "RX.1") → ⊥ }
    ensures misses_solidus { IsName (codes "RX/1") → ⊥ }
    ensures misses_colon { IsName (codes "RX:1") → ⊥ }
    ensures misses_at { IsName (codes "RX@1") → ⊥ }
    ensures misses_bracket { IsName (codes "RX[1") → ⊥ }
    ensures misses_caret { IsName (codes "RX^1") → ⊥ }
    ensures misses_grave { IsName (codes "RX`1") → ⊥ }
    ensures misses_brace { IsName (codes "RX{1") → ⊥ }
    ensures misses_last_byte { IsName (255 ∷ []) → ⊥ }
{}

/// A line reports the frame that its bytes carry, at the line's moment. A line whose bytes carry no
/// frame is passed over, and reports nothing.
pub fn lines_report_frames()
    ensures reports { Reports hi_line (heard_after 0) }
    ensures millis { Reports (line_by (codes "2024-05-01T12:00:00.500Z") hi_digits)
        (heard_after 500) }
    ensures misses_moment { Reports hi_line (heard_after 1) → ⊥ }

    ensures passed { IsPassed unended_line }
    ensures misses_unended { (x : Received) → Reports unended_line x → ⊥ }
    ensures empty { IsPassed (line_by noon []) }
{}

/// A line that is refused is wrong for its first fault from the left, and for no later one. A line
/// that is passed over isn't wrong.
pub fn lines_are_wrong_from_the_left()
    ensures moment { IsWrongLine leap_line why.Moment }
    ensures receiver { IsWrongLine (noon ++ codes " RX.1 c0") why.Receiver }
    ensures hex { IsWrongLine (line_by noon (codes "c")) why.Hex }

    ensures misses_later { IsWrongLine (leap_line ++ codes "0") why.Hex → ⊥ }
    ensures misses_passed { IsWrongLine unended_line why.Hex → ⊥ }
{}

/// A log has no fault where each of its lines is in order and ended, and it is read to its end.
/// Otherwise its fault says which line is the first at fault, and why.
pub fn logs_have_first_faults()
    ensures faultless { IsLogText (unended_line ++ 10 ∷ hi_line ++ 10 ∷ []) End
        (heard_after 0 ∷ []) }
    ensures misses_wrong { (S : List Received)
        → IsLogText (hi_line ++ 10 ∷ leap_line ++ 10 ∷ []) End S → ⊥ }

    ensures wrong { HasLogFault (hi_line ++ 10 ∷ leap_line ++ 10 ∷ []) End
        (record { line = 2; cause = why.Moment }) }
    ensures unended { HasLogFault (hi_line ++ 10 ∷ hi_line) End
        (record { line = 2; cause = why.NoNewline }) }
    ensures cut_short { HasLogFault (hi_line ++ 10 ∷ hi_line) Read
        (record { line = 2; cause = why.Read }) }
{}
