//! Complaints of a program.
ghost use Rattle.std.specs.Prelude.{◌≡◌, ◌≢◌, ℕ, ◌++◌, codes};
ghost use Rattle.aprs_runs.specs.ExitStatus.{status_of_book_cause, status_of_cause, status_of_fault, status_of_input};
ghost use Rattle.aprs_runs.specs.declared.fault.RunFault.TheVariants.{Input};
ghost use Rattle.std.specs.Fmt.{decimal};
ghost use Rattle.std.specs.IoError.{error_kind};
ghost use Rattle.aprs_io.specs.Device.{Sends};
ghost use Rattle.aprs_io.specs.Outlet.{Puts};
ghost use Rattle.aprs_host.specs.Complaint as Spec;

use aprs_bookfile::BookCause;
use aprs_io::{Counted, Outlet, WriteFault};
use aprs_log::LogCause;
use aprs_runs::{InputFault, RunFault};
use itoa::Buffer;
use std::io::{self, ErrorKind, Write};

/// The place of an input that has no path.
pub(crate) const STANDARD_INPUT: &str = "standard input";
/// What is said of an argument that isn't UTF-8.
const NOT_UTF8: &[u8] = b"invalid UTF-8 was detected in one or more arguments";
/// The exit status where an input can't be opened or is refused.
const EXIT_INPUT: u8 = 1;
/// The exit status where the arguments ask for no job.
pub const EXIT_USAGE: u8 = 2;
/// The exit status where the output was refused.
const EXIT_OUTPUT: u8 = 3;
/// The exit status where an allocation failed.
const EXIT_MEMORY: u8 = 4;

/// What a program complains of. A place is the path of an input, or `standard input`.
#[derive(Clone, Copy)]
pub enum Complaint<'a> {
    /// An argument isn't UTF-8.
    NotUtf8,
    /// The options of `capture` are missing, unreadable or given to another form.
    BadCaptureOptions,
    /// The input of this path can't be opened.
    CannotOpen(&'a [u8]),
    /// This input is the file that the output goes to.
    IsOutput(&'a [u8]),
    /// A line of an input, counted from 1, and the name of what is wrong with it. The line is 0
    /// for a KISS stream.
    Line {
        place: &'a [u8],
        line: u64,
        cause: &'a [u8],
    },
    /// A book file of another gap.
    OtherGap(&'a [u8]),
    /// A book file of a greater gap.
    Narrower(&'a [u8]),
    /// The output was refused.
    CannotWrite,
    /// An allocation failed.
    OutOfMemory,
}

/// The exit status for a complaint: 1 for an input, 2 for the arguments, 3 for the output, 4 for
/// memory. Takes no memory.
pub fn complaint_status(complaint: &Complaint<'_>) -> u8
    ensures { result ≡ Spec.status complaint.now }
{
    match complaint {
        Complaint::NotUtf8 | Complaint::BadCaptureOptions => EXIT_USAGE,
        Complaint::CannotWrite => EXIT_OUTPUT,
        Complaint::OutOfMemory => EXIT_MEMORY,
        Complaint::CannotOpen(_)
        | Complaint::IsOutput(_)
        | Complaint::Line { .. }
        | Complaint::OtherGap(_)
        | Complaint::Narrower(_) => EXIT_INPUT,
    }
}

/// Writes the program's name, a colon, a space, the complaint and LF. A path stands in it as it is,
/// so one with an LF makes it two lines. Where an argument isn't UTF-8, `error` stands in place of
/// the name, as `clap` prints it. At a fault a prefix of this was written. Takes no memory.
pub fn complain<W: Write>(
    w: &mut Counted<W>,
    program: &[u8],
    complaint: Complaint<'_>,
) -> Result<(), WriteFault>
    ensures { Sends W.contents result w.old w.new
        (Spec.complaint_text program.now complaint.entry) }
{
    let mut out = Outlet::new(w);
    put_complaint(&mut out, program, complaint)?;
    out.flush()
}

/// Puts the line of the complaint.
fn put_complaint<W: Write>(
    out: &mut Outlet<'_, W>,
    program: &[u8],
    complaint: Complaint<'_>,
) -> Result<(), WriteFault>
    ensures { Puts W.contents result out.old out.new
        (Spec.complaint_text program.now complaint.entry) }
{
    out.put(speaker_of(program, complaint))?;
    out.put(b": ")?;
    put_words(out, complaint)?;
    out.put(b"\n")
}

/// Who speaks: the program, or `error` where an argument isn't UTF-8.
fn speaker_of<'t>(program: &'t [u8], complaint: Complaint<'_>) -> &'t [u8]
    ensures { result.now ≡ Spec.speaker program.entry.now complaint.entry }
{
    match complaint {
        Complaint::NotUtf8 => b"error",
        _ => program,
    }
}

/// Puts the words of the complaint.
fn put_words<W: Write>(out: &mut Outlet<'_, W>, complaint: Complaint<'_>) -> Result<(), WriteFault>
    ensures { Puts W.contents result out.old out.new (Spec.words_of complaint.entry) }
{
    match complaint {
        Complaint::NotUtf8 => out.put(NOT_UTF8),
        Complaint::BadCaptureOptions => out.put(b"bad capture options"),
        Complaint::CannotOpen(path) => put_two(out, path, b": cannot open"),
        Complaint::IsOutput(place) => put_two(out, place, b": input is output"),
        Complaint::Line { place, line, cause } => put_line(out, place, line, cause),
        Complaint::OtherGap(place) => put_two(out, place, b": other gap"),
        Complaint::Narrower(place) => put_two(out, place, b": narrower"),
        Complaint::CannotWrite => out.put(b"cannot write"),
        Complaint::OutOfMemory => out.put(b"out of memory"),
    }
}

/// Puts two texts.
pub(crate) fn put_two<W: Write>(
    out: &mut Outlet<'_, W>,
    first: &[u8],
    second: &[u8],
) -> Result<(), WriteFault>
    ensures { Puts W.contents result out.old out.new (first.now ++ second.now) }
{
    out.put(first)?;
    out.put(second)
}

/// Puts the words for a line of an input.
fn put_line<W: Write>(
    out: &mut Outlet<'_, W>,
    place: &[u8],
    line: u64,
    cause: &[u8],
) -> Result<(), WriteFault>
    ensures { Puts W.contents result out.old out.new
        (place.now ++ (codes ": line " ++ (decimal line ++ (codes ": " ++ cause.now)))) }
{
    out.put(place)?;
    out.put(b": line ")?;
    out.put(Buffer::new().format(line).as_bytes())?;
    put_two(out, b": ", cause)
}

/// What is complained of where the system answers this error for the program's arguments. That is
/// `OutOfMemory` where an allocation failed, and `NotUtf8` at any other error. Takes no memory.
pub(crate) fn complaint_of_arguments(error: &io::Error) -> Complaint<'static>
    ensures memory { error_kind error.now ≡ ErrorKind.OutOfMemory
        → result ≡ Complaint.OutOfMemory }
    ensures otherwise { error_kind error.now ≢ ErrorKind.OutOfMemory
        → result ≡ Complaint.NotUtf8 }
{
    match error.kind() {
        ErrorKind::OutOfMemory => Complaint::OutOfMemory,
        _ => Complaint::NotUtf8,
    }
}

/// The complaint of a run's fault, where `place` is the name of the input at fault. Takes no
/// memory.
pub fn complaint_of<'t>(place: &'t [u8], fault: &RunFault) -> Complaint<'t>
    ensures words { Spec.words_of result ≡ Spec.run_words place.entry.now fault.now }
    ensures status { Spec.status result ≡ status_of_fault fault.now }
{
    match fault {
        RunFault::Input { fault, .. } => complaint_of_input(place, fault),
        RunFault::Write => Complaint::CannotWrite,
        RunFault::Memory => Complaint::OutOfMemory,
    }
}

/// The complaint of an input's fault.
fn complaint_of_input<'t>(place: &'t [u8], fault: &InputFault) -> Complaint<'t>
    ensures words { (index : ℕ) → Spec.words_of result
        ≡ Spec.run_words place.entry.now (Input index fault.now) }
    ensures status { Spec.status result ≡ status_of_input fault.now }
{
    match fault {
        InputFault::Log(fault) => complaint_of_log(place, fault.line, fault.cause),
        InputFault::Book(fault) => complaint_of_book(place, fault.line, fault.cause),
        InputFault::Memory => Complaint::OutOfMemory,
        InputFault::OtherGap => Complaint::OtherGap(place),
        InputFault::Narrower => Complaint::Narrower(place),
    }
}

/// The complaint of a log's fault. At `Memory` it names neither the place nor the line.
fn complaint_of_log<'t>(place: &'t [u8], line: u64, cause: LogCause) -> Complaint<'t>
    ensures words { Spec.words_of result ≡ Spec.log_words place.entry.now line cause }
    ensures status { Spec.status result ≡ status_of_cause cause }
{
    let name = cause.name();
    match cause {
        LogCause::Memory => Complaint::OutOfMemory,
        _ => Complaint::Line {
            place,
            line,
            cause: name.as_bytes(),
        },
    }
}

/// The complaint of a book file's fault. At `Memory` it names neither the place nor the line.
fn complaint_of_book<'t>(place: &'t [u8], line: u64, cause: BookCause) -> Complaint<'t>
    ensures words { Spec.words_of result ≡ Spec.book_words place.entry.now line cause }
    ensures status { Spec.status result ≡ status_of_book_cause cause }
{
    let name = cause.name();
    match cause {
        BookCause::Memory => Complaint::OutOfMemory,
        _ => Complaint::Line {
            place,
            line,
            cause: name.as_bytes(),
        },
    }
}
