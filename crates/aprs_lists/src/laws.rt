//! Laws of the tables and of messages. Each function does nothing, and ensures a law.
ghost use Rattle.aprs_lists.specs.Answers.{PlainIsFirst};
ghost use Rattle.aprs_lists.specs.Runs.{PlainIsSent};
ghost use Rattle.aprs_lists.specs.Shape.{MessageLinesHaveAllFields, StationLinesHaveAllFields, ThingLinesHaveAllFields};

/// Looking at one copy after another finds the runs: each is maximal, and each copy is of one.
pub fn runs_are_found()
    ensures { PlainIsSent }
{}

/// Looking at one answer after another finds the first that counts.
pub fn first_answers_are_found()
    ensures { PlainIsFirst }
{}

/// Each line has as many fields as its table has columns, with a tab between two; no field has a
/// tab or an LF. This holds wherever senders have callsigns and receivers have names, as in each
/// store.
pub fn listed_lines_have_all_fields()
    ensures messages { MessageLinesHaveAllFields }
    ensures stations { StationLinesHaveAllFields }
    ensures things { ThingLinesHaveAllFields }
{}
