//! Runs over logs and streams.
ghost use Rattle.std.specs.Prelude.{◌≤◌};

use aprs_fixtures::{Failing, Full, LOG, ONE_LINE, WRITTEN_LINE};
use aprs_kiss::Counted;
use aprs_log::{LogCause, LogFault, MAX_INPUT, Moment, Receiver};
use aprs_tool::{Form, InputFault, RunFault, check_run, convert_run, status_of};
use std::alloc::Global;
use std::test::Fail;

/// The frame of `ONE_LINE` as a KISS stream.
pub const FRAME: &[u8] =
    b"\xc0\x00\x82\xa0\xa4\xa6\x40\x40\xe0\x9c\x60\x86\x82\x98\x98\x6f\x03\xf0>Hi\xc0";

/// A line whose frame has both escapes, FESC TFEND and FESC TFESC, and two lines in which neither
/// TFEND nor TFESC comes after FESC.
const ESCAPED: &[u8] = b"2024-05-01T12:00:00Z RX1 c00082a0a4a64040e09c60868298986f03f03edbdcdbddc0
2024-05-01T12:00:00Z RX1 c00082a0a4a64040e09c60868298986f03f03edb41c0
2024-05-01T12:00:00Z RX1 c00082a0a4a64040e09c60868298986f03f03edbc0
";

/// How a run ended: the line and cause of its input's fault.
fn fault_of(run: Result<(), RunFault>) -> Option<(u64, LogCause)> {
    match run {
        Err(
            RunFault::Input {
                fault: InputFault::Log(LogFault { line, cause }),
                ..
            },
        ) => Some((line, cause)),
        _ => None,
    }
}

/// What a conversion writes, and its fault.
pub fn converted(
    rt: &HostRuntime,
    limit: u64,
    form: Form,
    input: &[u8],
) -> (Vec<u8>, Option<(u64, LogCause)>)
    requires { limit ≤ 1073741824 }
{
    let mut r = Counted::new(input);
    let mut w = Counted::new(Vec::new(rt.alloc()));
    let run = convert_run(rt.alloc(), limit, form, &mut r, &mut w);
    (w.into_inner(), fault_of(run))
}

/// Whether one line is written so in this form.
fn is_converted_to(rt: &HostRuntime, form: Form, text: &[u8]) -> bool {
    let (written, fault) = converted(rt, MAX_INPUT, form, ONE_LINE);
    written.as_slice() == text && fault.is_none()
}

#[test]
fn one_line_in_each_form(rt: HostRuntime) {
    assert!(rt; is_converted_to(&rt, Form::Text, b"N0CALL-7>APRS:>Hi\n"));
    assert!(rt; is_converted_to(&rt, Form::Kind, b"status N0CALL-7>APRS:>Hi\n"));
    assert!(rt; is_converted_to(&rt, Form::Kiss, FRAME));
    assert!(rt; is_converted_to(&rt, Form::Log, WRITTEN_LINE));
}

#[test]
fn a_limit_cuts_a_log(rt: HostRuntime) {
    let (written, fault) = converted(&rt, 70, Form::Log, ONE_LINE);
    assert!(rt; written.as_slice() == WRITTEN_LINE);
    assert!(rt; fault.is_none());
    let (written, fault) = converted(&rt, 69, Form::Log, ONE_LINE);
    assert!(rt; written.is_empty());
    assert!(rt; fault == Some((1, LogCause::TooLong)));
}

#[test]
fn lines_that_hold_no_frame(rt: HostRuntime) {
    let (written, fault) = converted(&rt, MAX_INPUT, Form::Text, ESCAPED);
    assert!(rt; written.as_slice() == b"N0CALL-7>APRS:>\\xc0\\xdb\n".as_slice());
    assert!(rt; fault.is_none());
    let mut r = Counted::new(ESCAPED);
    let mut w = Counted::new(Vec::new(rt.alloc()));
    let run = check_run(rt.alloc(), MAX_INPUT, &mut r, &mut w);
    assert!(rt; run.is_ok());
    assert!(rt;
        w.into_inner().as_slice()
            == b"line 2 passed BadEscape\nline 3 passed BadEscape\nheard 1 passed 2\n".as_slice()
    );
}

/// A stream of the frame on port 0, the same on port 5, a frame of another command, and the
/// beginning of a fourth frame.
const STREAM: &[&[u8]] = &[
    FRAME,
    b"\xc0\x50",
    b"\x82\xa0\xa4\xa6\x40\x40\xe0\x9c\x60\x86\x82\x98\x98\x6f\x03\xf0>Hi\xc0",
    b"\x01\xaa\xc0",
    b"\x00\x82",
];

/// The bytes of `STREAM`, one piece after the other.
fn stream(alloc: Global) -> Result<Vec<u8>, Fail> {
    let mut stream = Vec::new(alloc);
    for &piece in STREAM {
        stream.extend_from_slice(piece)?;
    }
    Ok(stream)
}

/// A capture by RX1 at noon.
fn capture() -> Option<Form> {
    let receiver = Receiver::parse(b"RX1")?;
    let moment = Moment::parse(b"2024-05-01T12:00:00Z")?;
    Some(Form::Capture { receiver, moment })
}

#[test]
fn a_stream_is_captured(rt: HostRuntime) -> Result<(), Fail> {
    let stream = stream(rt.alloc())?;
    let form = capture().ok_or("a form")?;
    let (written, fault) = converted(&rt, MAX_INPUT, form, stream.as_slice());
    assert!(rt; fault.is_none() && written.as_slice() == LOG);
    Ok(())
}

#[test]
fn a_reader_that_fails(rt: HostRuntime) {
    let mut r = Counted::new(Failing {
        bytes: ONE_LINE,
        most: usize::MAX,
        good: ONE_LINE.len(),
    });
    let mut w = Counted::new(Vec::new(rt.alloc()));
    let run = convert_run(rt.alloc(), MAX_INPUT, Form::Text, &mut r, &mut w);
    assert!(rt; fault_of(run) == Some((2, LogCause::Read)));
    assert!(rt; r.failures() == 1);
    assert!(rt; w.into_inner().as_slice() == b"N0CALL-7>APRS:>Hi\n".as_slice());
}

#[test]
fn a_writer_that_fails(rt: HostRuntime) {
    let mut r = Counted::new(ONE_LINE);
    let mut w = Counted::new(Full);
    let run = convert_run(rt.alloc(), MAX_INPUT, Form::Log, &mut r, &mut w);
    assert!(rt; matches!(&run, Err(RunFault::Write)));
    assert!(rt; w.failures() == 1);
}

#[test]
fn statuses(rt: HostRuntime) {
    const CASES: &[(LogCause, u8)] = &[
        (LogCause::Moment, 1),
        (LogCause::Read, 1),
        (LogCause::TooLong, 1),
        (LogCause::Memory, 4),
    ];
    for &(cause, status) in CASES {
        let fault = RunFault::Input {
            index: 0,
            fault: InputFault::Log(LogFault { line: 1, cause }),
        };
        assert!(rt; status_of(&fault) == status);
    }
    assert!(rt; status_of(&RunFault::Write) == 3);
}
