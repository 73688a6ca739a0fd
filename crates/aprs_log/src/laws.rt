//! Laws of lines and logs: what is read is what the text says, and which lines are equal. What
//! these functions ensure is the law.
ghost use Rattle.std.specs.Prelude.{ℕ, ◌≡◌, ◌↔◌, List, IsTrue, None, Some, Ok, Err};
ghost use Rattle.aprs_io.specs.declared.input.InputEnd.{InputEnd};
ghost use Rattle.aprs_log.specs.Fault.{log_cause_of};
ghost use Rattle.aprs_log.specs.Line.{line_of};
ghost use Rattle.aprs_log.specs.LineText.{IsPassed, IsWrongLine, Reports};
ghost use Rattle.aprs_log.specs.LogAnswers.{log_answers, receptions_of};
ghost use Rattle.aprs_log.specs.LogText.{HasLogFault, IsLogText};
ghost use Rattle.aprs_log.specs.Reception.{Received};
ghost use Rattle.aprs_log.specs.declared.fault.LineFault.{LineFault};
ghost use Rattle.aprs_log.specs.declared.fault.LogCause.{LogCause};
ghost use Rattle.aprs_log.specs.declared.fault.LogFault.{LogFault};
ghost use Rattle.aprs_log.specs.declared.fault.Reason.{Reason};
ghost use Rattle.aprs_log.specs.declared.line.Line.TheVariants as line;

use crate::line::Line;

/// A line is read as it says: what it reports is heard, a line that carries no frame is passed over
/// for some reason, and a line that is wrong is refused for the same cause. `line_of` is the
/// reading, the other definitions say what the text is.
pub fn lines_are_read_as_they_say()
    ensures heard { (l : List ℕ) (x : Received) → Reports l x ↔ (line_of l ≡ Ok (line.Heard x)) }
    ensures passed { (l : List ℕ)
        → IsPassed l ↔ ((reason : Reason) × (line_of l ≡ Ok (line.Passed reason))) }
    ensures wrong { (l : List ℕ) (cause : LogCause) → IsWrongLine l cause
        ↔ ((fault : LineFault) × (line_of l ≡ Err fault) × (log_cause_of fault ≡ cause)) }
{}

/// A log is read as it says: its answers end without a fault and give these receptions exactly
/// where its text is that of a faultless log with these receptions; and they end with a fault
/// exactly where the text has that fault. `log_answers` is the reading.
pub fn logs_are_read_as_they_say()
    ensures faultless { (text : List ℕ) (ending : InputEnd) (S : List Received)
        → IsLogText text ending S ↔ (((log_answers text ending).fault ≡ None)
        × (receptions_of (log_answers text ending).given ≡ S)) }
    ensures fault { (text : List ℕ) (ending : InputEnd) (fault : LogFault)
        → HasLogFault text ending fault ↔ ((log_answers text ending).fault ≡ Some fault) }
{}

/// Lines are equal exactly if they are the same: the same reception was heard, or both are passed
/// over for the same reason.
pub fn equal_lines_are_the_same(a: &Line, b: &Line) -> bool
    ensures { IsTrue result ↔ (a.now ≡ b.now) }
{
    a == b
}
