//! Runs over readers that give few bytes a call, over devices that are interrupted, and over
//! devices that fail at each byte.

use crate::runs::FRAME;
use aprs_fixtures::{Failing, Halting, LOG, SHORT_LOG, Stuttering, Tight, line_after};
use aprs_kiss::Counted;
use aprs_log::{LogCause, LogFault, MAX_INPUT, Moment, Receiver};
use aprs_tool::{Form, InputFault, RunFault, check_run, convert_run, status_of};
use std::alloc::{Allocator, Global};
use std::io::{Read, Write};
use std::test::Fail;

/// A run over one input.
#[derive(Clone, Copy)]
pub enum Run {
    Check,
    Text,
    Kind,
    Kiss,
    Log,
    Capture,
}

const TEXT: &[u8] = b"N0CALL-7>APRS:>Hi\nN0CALL-7>APRS:>Hi\n";

/// The frame twice, as a stream.
const FRAMES: &[u8] =
    b"\xc0\x00\x82\xa0\xa4\xa6\x40\x40\xe0\x9c\x60\x86\x82\x98\x98\x6f\x03\xf0>Hi\xc0\
    \xc0\x00\x82\xa0\xa4\xa6\x40\x40\xe0\x9c\x60\x86\x82\x98\x98\x6f\x03\xf0>Hi\xc0";

/// Each run, an input of two frames, and what the run writes.
pub const RUNS: &[(Run, &[u8], &[u8])] = &[
    (Run::Check, LOG, b"heard 2 passed 0\n"),
    (Run::Text, LOG, TEXT),
    (
        Run::Kind,
        LOG,
        b"status N0CALL-7>APRS:>Hi\nstatus N0CALL-7>APRS:>Hi\n",
    ),
    (Run::Kiss, LOG, FRAMES),
    (Run::Log, LOG, LOG),
    (Run::Log, SHORT_LOG, LOG),
    (Run::Capture, FRAMES, LOG),
];

/// The form of a conversion.
fn form_of(run: Run) -> Option<Form> {
    match run {
        Run::Check => None,
        Run::Text => Some(Form::Text),
        Run::Kind => Some(Form::Kind),
        Run::Kiss => Some(Form::Kiss),
        Run::Log => Some(Form::Log),
        Run::Capture => Some(Form::Capture {
            receiver: Receiver::parse(b"RX1")?,
            moment: Moment::parse(b"2024-05-01T12:00:00Z")?,
        }),
    }
}

/// The answer of a run with this allocator.
fn gone<A: Allocator + Copy, R: Read, W: Write>(
    alloc: A,
    run: Run,
    r: &mut Counted<R>,
    w: &mut Counted<W>,
) -> Result<(), RunFault> {
    match form_of(run) {
        Some(form) => convert_run(alloc, MAX_INPUT, form, r, w),
        None => check_run(alloc, MAX_INPUT, r, w),
    }
}

/// Whether a run with this allocator goes well, and writes this text in one try a call.
pub fn writes<A: Allocator + Copy, R: Read>(
    out: Global,
    alloc: A,
    run: Run,
    r: &mut Counted<R>,
    text: &[u8],
) -> bool {
    let mut w = Counted::new(Vec::new(out));
    let is_ok = gone(alloc, run, r, &mut w).is_ok();
    is_ok && w.failures() == 0 && w.into_inner().as_slice() == text
}

// Neither device fails.
#[test]
fn readers_give_few_bytes(rt: HostRuntime) {
    for most in 1..=148usize {
        for &(run, input, text) in RUNS {
            let mut r = Counted::new(Failing {
                bytes: input,
                most,
                good: usize::MAX,
            });
            assert!(rt; writes(rt.alloc(), rt.alloc(), run, &mut r, text), "{most}");
            assert!(rt; r.failures() == 0);
        }
    }
}

// Each byte comes after 999 interrupted tries.
#[test]
fn interrupted_reads_are_tried_again(rt: HostRuntime) {
    for &(run, input, text) in RUNS {
        let mut r = Counted::new(Stuttering {
            bytes: input,
            tries: 999,
            left: 999,
            stuck: usize::MAX,
        });
        assert!(rt; writes(rt.alloc(), rt.alloc(), run, &mut r, text));
    }
}

// The 1,000th interrupted try before the second line's first byte ends the run.
#[test]
fn a_thousand_interrupted_reads_fail(rt: HostRuntime) {
    let mut r = Counted::new(Stuttering {
        bytes: LOG,
        tries: 0,
        left: 0,
        stuck: 74,
    });
    let mut w = Counted::new(Vec::new(rt.alloc()));
    let run = gone(rt.alloc(), Run::Text, &mut r, &mut w);
    assert!(rt; is_read_fault(&run, 2));
    assert!(rt; r.failures() == 1000);
    assert!(rt; w.into_inner().as_slice() == &TEXT[..18]);
}

/// Whether a failed read was reported of this line.
fn is_read_fault(run: &Result<(), RunFault>, line: u64) -> bool {
    let fault = LogFault {
        line,
        cause: LogCause::Read,
    };
    match run {
        Err(
            RunFault::Input {
                index: 0,
                fault: InputFault::Log(found),
            },
        ) => *found == fault,
        _ => false,
    }
}

#[test]
fn interrupted_writes_are_tried_again(rt: HostRuntime) {
    for &(run, input, text) in RUNS {
        let mut w = Counted::new(Halting {
            bytes: Vec::new(rt.alloc()),
            tries: 999,
            left: 999,
        });
        assert!(rt; gone(rt.alloc(), run, &mut Counted::new(input), &mut w).is_ok());
        assert!(rt; w.into_inner().bytes.as_slice() == text);
    }
}

#[test]
fn a_thousand_interrupted_writes_fail(rt: HostRuntime) {
    for &(run, input, _) in RUNS {
        let mut w = Counted::new(Halting {
            bytes: Vec::new(rt.alloc()),
            tries: 1000,
            left: 1000,
        });
        let run = gone(rt.alloc(), run, &mut Counted::new(input), &mut w);
        assert!(rt; matches!(&run, Err(RunFault::Write)));
        assert!(rt; w.failures() == 1000);
        assert!(rt; w.into_inner().bytes.is_empty());
    }
}

/// The answer of a run over a reader that fails after so many bytes, once, where what is written is
/// a prefix of what would be.
fn failed_read(
    alloc: Global,
    run: Run,
    input: &[u8],
    good: usize,
    text: &[u8],
) -> Option<RunFault> {
    let mut r = Counted::new(Failing {
        bytes: input,
        most: 64,
        good,
    });
    let mut w = Counted::new(Vec::new(alloc));
    let fault = gone(alloc, run, &mut r, &mut w).err()?;
    let is_prefix = text.starts_with(w.into_inner().as_slice());
    (r.failures() == 1 && is_prefix).then_some(fault)
}

#[test]
fn readers_fail_at_each_byte(rt: HostRuntime) -> Result<(), Fail> {
    for &(run, input, text) in RUNS {
        for good in 0..input.len() {
            let fault = failed_read(rt.alloc(), run, input, good, text).ok_or("a fault")?;
            assert!(rt; status_of(&fault) == 1);
            let line = match run {
                Run::Capture => 0,
                _ => line_after(input, good),
            };
            assert!(rt; is_read_fault(&Err(fault), line), "{good}");
        }
    }
    Ok(())
}

/// Whether a run over a writer that has room for so many bytes fails once, after these are written.
fn is_cut(alloc: Global, run: Run, input: &[u8], room: usize, text: &[u8]) -> bool {
    let mut w = Counted::new(Tight {
        bytes: Vec::new(alloc),
        room,
    });
    let run = gone(alloc, run, &mut Counted::new(input), &mut w);
    matches!(&run, Err(RunFault::Write))
        && w.failures() == 1
        && w.into_inner().bytes.as_slice() == text
}

#[test]
fn writers_fail_at_each_byte(rt: HostRuntime) {
    for &(run, input, text) in RUNS {
        for room in 0..text.len() {
            assert!(rt;
                is_cut(rt.alloc(), run, input, room, &text[..room]),
                "{room}"
            );
        }
    }
}

// One frame is a stream as well.
#[test]
fn a_stream_of_one_frame(rt: HostRuntime) {
    let mut w = Counted::new(Vec::new(rt.alloc()));
    let run = gone(rt.alloc(), Run::Capture, &mut Counted::new(FRAME), &mut w);
    assert!(rt; run.is_ok());
    assert!(rt; w.into_inner().as_slice() == &LOG[..74]);
}
