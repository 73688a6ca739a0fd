//! Laws of reports: an information field says one thing, and which reports are equal. Each
//! function ensures a law.

ghost use Rattle.std.specs.Prelude.{◌≡◌, ◌↔◌, ℕ, List, IsTrue};
ghost use Rattle.aprs_report.specs.Reading.{Value, Reads, OneReading, view};
ghost use Rattle.aprs_report.specs.Reader.{reading_of};

use crate::report::Report;

/// Each information field reads as exactly one report, which `reading_of` gives.
pub fn each_field_has_one_reading()
    ensures one { (info : List ℕ) → OneReading info }
    ensures function { (info : List ℕ) (v : Value) → Reads v info ↔ (reading_of info ≡ v) }
{}

/// Reports are equal exactly if they say the same, wherever their bytes lie.
pub fn equal_reports_say_the_same(a: &Report<'_>, b: &Report<'_>) -> bool
    ensures { IsTrue result ↔ (view a.now ≡ view b.now) }
{
    a == b
}
