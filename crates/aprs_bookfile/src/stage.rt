//! Which line of a book's text comes next.
ghost use Rattle.std.specs.Prelude.{◌≡◌, ◌≢◌, List, IfErr, MatchResult};
ghost use Rattle.aprs_transmissions.specs.Row.{Row};
ghost use Rattle.aprs_bookfile.specs.Fault.{ending_cause};
ghost use Rattle.aprs_bookfile.specs.Text.{end_line};
ghost use Rattle.aprs_bookfile.specs.Reader as Spec;

use crate::end_line::end_line;
use crate::fault::BookCause;
use crate::version::Version;
use aprs_io::InputEnd;

/// Which line of a book's text comes next.
#[derive(Clone, Copy, Debug, PartialEq, Eq)]
pub enum Stage {
    /// The header.
    Header,
    /// A row's line or the last line, in a text of this version.
    Rows(Version),
    /// No line: the last line of a text of this version was read.
    Done(Version),
}

/// Whether the line that comes next is the first one.
pub fn is_first(stage: Stage) -> bool
    ensures { result ≡ Spec.is_first stage }
{
    match stage {
        Stage::Header => true,
        Stage::Rows(_) | Stage::Done(_) => false,
    }
}

/// Whether the last line was read.
pub fn is_done(stage: Stage) -> bool
    ensures { result ≡ Spec.is_done stage }
{
    match stage {
        Stage::Done(_) => true,
        Stage::Header | Stage::Rows(_) => false,
    }
}

/// Whether a book's text may end at this stage and in this way: only after its last line, and where
/// the input has no further byte.
pub fn may_end(stage: Stage, ending: InputEnd) -> bool
    ensures { result ≡ Spec.may_end stage ending }
{
    is_done(stage) && ending == InputEnd::End
}

/// The stage after the first line: rows of a text of the version that it names. Fails with
/// `Header` where it is the header of no version.
pub fn judge_header(line: &[u8]) -> Result<Stage, BookCause>
    ensures judged { (rows : List Row) → Spec.JudgesHeader result rows line.now rows }
    ensures cause { IfErr result Spec.IsOfText }
{
    match Version::of_header(line) {
        Some(version) => Ok(Stage::Rows(version)),
        None => Err(BookCause::Header),
    }
}

/// The stage `Done` of this version, where `line` is the last line after so many rows. Fails with
/// `Ending` where it isn't.
pub fn judge_end(line: &[u8], version: Version, count: usize) -> Result<Stage, BookCause>
    ensures { MatchResult result
        (λ stage. (stage ≡ Stage.Done version) × (line.now ≡ end_line count))
        (λ cause. (cause ≡ BookCause.Ending) × (line.now ≢ end_line count)) }
{
    if line == end_line(count).as_slice() {
        Ok(Stage::Done(version))
    } else {
        Err(BookCause::Ending)
    }
}

/// The cause of the fault where a text may not end in the way in which its input ended.
pub fn ending_cause(ending: InputEnd) -> BookCause
    ensures { result ≡ ending_cause ending }
{
    match ending {
        InputEnd::End => BookCause::Ending,
        InputEnd::Read => BookCause::Read,
        InputEnd::TooLong => BookCause::TooLong,
    }
}
