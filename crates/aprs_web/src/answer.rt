//! How a run ended, as the host reads it.
ghost use Rattle.std.specs.Prelude.{◌≡◌};
ghost use Rattle.aprs_web.specs.Answer.{StandsIn, Tells, line_of_input, name_of_input};

use aprs_runs::{InputFault, RunFault, status_of};

/// How a run ended.
#[repr(C)]
#[derive(Drop)]
pub struct Answer {
    /// The program's exit status: 0 where all went well, 1 where an input is refused, 2 where the
    /// arguments ask for no run, 3 where memory for the output was refused, and 4 where other
    /// memory was.
    pub status: u64,
    /// The number of the input at fault, from 0; 0 where none is.
    pub input: u64,
    /// The line of this input at fault, from 1; 0 for a stream, and where the fault has no line.
    pub line: u64,
    /// How many bytes the run wrote. Where the room for them has fewer, none is put there.
    pub written: u64,
    /// How many bytes the name of the fault of an input has; 0 where no input is at fault. Where
    /// the room for them has fewer, none is put there.
    pub named: u64,
}

/// The answer where the arguments ask for no run.
pub(crate) fn no_run() -> Answer
    ensures { result ≡ record { status = 2; input = 0; line = 0; written = 0; named = 0 } }
{
    Answer {
        status: 2,
        input: 0,
        line: 0,
        written: 0,
        named: 0,
    }
}

/// The answer to a run that wrote this text. The text goes into `output`, and the name of the fault
/// of an input into `name`, each if it fits.
pub(crate) fn answer_of(
    outcome: &Result<(), RunFault>,
    text: &[u8],
    output: &mut [u8],
    name: &mut [u8],
) -> Answer
    ensures { Tells outcome.now text.now result output.old output.new name.old name.new }
{
    let mut answer = Answer {
        status: 0,
        input: 0,
        line: 0,
        written: put_first(output, text),
        named: 0,
    };
    if let Err(fault) = outcome {
        answer.status = u64::from(status_of(fault));
        if let RunFault::Input { index, fault } = fault {
            let (line, cause) = line_and_name_of(fault);
            answer.input = *index as u64;
            answer.line = line;
            answer.named = put_first(name, cause.as_bytes());
        }
    }
    answer
}

/// The line that an input's fault names, 0 where it names none, and the fault's name.
fn line_and_name_of(fault: &InputFault) -> (u64, &'static str)
    ensures { (result.0 ≡ line_of_input fault.now) × (result.1.now ≡ name_of_input fault.now) }
{
    match fault {
        InputFault::Log(fault) => (fault.line, fault.cause.name()),
        InputFault::Book(fault) => (fault.line, fault.cause.name()),
        InputFault::OtherGap => (0, "other gap"),
        InputFault::Narrower => (0, "narrower"),
        InputFault::Memory => (0, "out of memory"),
    }
}

/// Puts bytes at the start of the room, if they fit, and returns how many there are.
fn put_first(room: &mut [u8], bytes: &[u8]) -> u64
    ensures { StandsIn bytes.now result room.old room.new }
{
    let count = bytes.len();
    if count <= room.len() {
        room[..count].copy_from_slice(bytes);
    }
    count as u64
}
