//! A reader of a log's lines.
//!
//! Words of the contracts here:
//! - Answers are the lines of a log in order, and the fault after them, if there is one.
//! - `Awaits known end r answers`: these may be the answers of r from now on. Its device has
//!   `known` left now, and `end` when all is read.
//! - `Starts`: nothing was read or returned yet, and the reader holds the head alone.
//! - `Advances`: the reader gives its next answer: a line, the end or a fault. With it before those
//!   that may follow now, they are what could have followed before.
//! - `Moves`: no answer was given, and what may follow now could have followed before.
//! - `lent_device` is the device that the reader borrows, and `loan_of` names this loan.
ghost use Rattle.std.specs.Prelude.{◌≡◌, ◌≢◌, ◌+◌, ◌≤◌, ◌<◌, ◌++◌, ℕ, List, length, Option, None, Some, IfSome};
ghost use Rattle.aprs_io.specs.Input.{most_input};
ghost use Rattle.aprs_log.specs.States.{HasNotRunOutOfMemory};
ghost use Rattle.aprs_log.specs.Window.{items};

mod ending;
mod next_line;
mod window;

use crate::fault::{LogCause, LogFault};
use crate::line::line_buffers::LineBuffers;
use crate::line::{Line, MAX_LINE};
use aprs_io::Counted;
use ending::{State, refuse_tail};
use next_line::take_line;
use std::alloc::Allocator;
use std::io::Read;
use window::Window;

/// Returns the lines of a log in order, up to the first fault. It has a buffer of its own, and
/// keeps the line that it returned last.
#[derive(Drop)]
pub struct LogReader<'a, R> {
    source: &'a mut Counted<R>,
    window: Window,
    scratch: LineBuffers,
    current: Line,
    /// How many bytes may be read yet.
    left: u64,
    /// The number of the line that was returned last, from 1, or 0 before any.
    line: u64,
    state: State,
    ghost few: { line + length (items window) + left ≤ most_input },
    ghost no_memory: { HasNotRunOutOfMemory state },
}

impl<'a, R: Read> LogReader<'a, R> {
    ghost use Rattle.std.specs.Bool.{OnTrue, OnFalse};
    ghost use Rattle.aprs_io.specs.Device.{Calls, device_of, failures_of};
    ghost use Rattle.aprs_io.specs.Cut.{cut_at};
    ghost use Rattle.aprs_log.specs.ReaderSteps.{Moves, steps_left};
    ghost use Rattle.aprs_log.specs.States.{last_in};
    ghost use Rattle.aprs_log.specs.LogAnswers.{Answers, prepend_line};
    ghost use Rattle.aprs_log.specs.Reader as Spec;

    /// A reader of the log that begins with `head` and goes on with the bytes of `source`. It takes
    /// at most `limit` bytes, the head among them, and one more where the log is `TooLong`.
    /// Requires that `limit` is at most `MAX_INPUT`, that the head has at most 8 bytes, and that it
    /// has no more than `limit`. It reads nothing yet, cannot fail, and takes no memory: it asks
    /// nothing of the allocator.
    pub fn new<A: Allocator + Copy>(
        _alloc: A,
        limit: u64,
        head: &[u8],
        source: &'a mut Counted<R>,
    ) -> LogReader<'a, R>
        requires limit { limit ≤ most_input }
        requires head { length head.now ≤ 8 }
        requires within { length head.now ≤ limit }

        ensures starts { Spec.Starts result head.now }
        // What may come are the answers of the whole log.
        ensures whole { (end : Option (List ℕ)) (answers : Answers)
            → Spec.Awaits (R.remaining (device_of (Spec.lent_device result))) end result answers
            → IfSome (R.remaining (device_of source.old))
            (λ input. Spec.AreAnswersOf limit (head.now ++ input) end answers) }
        // Some answers may always come.
        ensures awaits { (answers : Answers)
            × Spec.Awaits (R.remaining (device_of (Spec.lent_device result)))
            (R.remaining (device_of (Spec.lent_device result))) result answers }

        ensures same_reference { Spec.loan_of result ≡ source.entry.ghost_name }
        ensures source { Spec.lent_device result ≡ source.old }
    {
        LogReader {
            source,
            window: Window::new(head),
            scratch: LineBuffers::new(),
            current: Line::empty(),
            left: limit - head.len() as u64,
            line: 0,
            state: State::Reading,
        }
    }

    /// The number of the last line that the reader returned, from 1, or 0 before any. Takes no
    /// memory.
    pub fn line(&self) -> u64
        ensures { result ≡ Spec.line_count_of self.now }
    {
        self.line
    }

    /// How many calls of the device that the reader reads from failed, those before the reader was
    /// made among them. Takes no memory.
    pub fn failures(&self) -> u64
        ensures { result ≡ failures_of (Spec.lent_device self.now) }
    {
        self.source.failures()
    }

    /// The next line, or `None` at the end, or the fault at which the log is read no further, with
    /// the number of its line. After a fault it answers that fault for good, and after the end
    /// `None`, and reads no more. All lines before a fault are given first. `current` then lends a
    /// copy of the line, or the same line as before where none came. Takes no memory.
    pub fn next(&mut self) -> Result<Option<Line>, LogFault>
        ensures { Spec.Advances R.remaining result self.old self.new }
    {
        match self.advance() {
            Ok(true) => Ok(Some(self.current.copy())),
            Ok(false) => Ok(None),
            Err(fault) => Err(fault),
        }
    }

    /// Goes to the next line, which `current` then lends: `next` without a copy of the line.
    /// Returns `true` where there is a line, `false` at the end, or the fault at which the log is
    /// read no further; at the last two `current` stays. Takes no memory.
    pub fn advance(&mut self) -> Result<bool, LogFault>
        ensures { Spec.Advances R.remaining
            (Spec.answer_with result (Spec.current_of self.new)) self.old self.new }
    {
        loop {
            match self.state {
                State::Reading => {}
                State::Ended => return Ok(false),
                State::Failed(cause) => return Err(self.fault(cause)),
            }
            if self.step() {
                return Ok(true);
            }
        }
    }

    /// The line that was given last. Before any it is `Passed(NoFrame)`. Takes no memory.
    pub fn current(&self) -> &Line
        ensures { result.now ≡ Spec.current_of self.now }
    {
        &self.current
    }

    /// The fault with this cause in the line after the last one that was returned.
    fn fault(&self, cause: LogCause) -> LogFault
        ensures { result ≡ record { line = self.now.line + 1; cause = cause } }
    {
        LogFault {
            line: self.line + 1,
            cause,
        }
    }

    /// Takes a line that is held whole, counts it and returns `true`: `current` is then this line.
    /// Otherwise returns `false` and `current` stays: it read once, or `state` now says that the
    /// log ended or failed. A line that is held whole is taken without a read, or is at fault and
    /// stops the reader. What may follow after `false` could have followed before.
    fn step(&mut self) -> bool
        requires { self.old.state ≡ State.Reading }

        // The line, put before any answers that may follow now, could have followed before.
        ensures given { OnTrue result (
            (Spec.line_count_of self.new ≡ Spec.line_count_of self.old + 1)
            × ((end : Option (List ℕ)) (answers : Answers)
            → Spec.Awaits (R.remaining (device_of (Spec.lent_device self.new))) end self.new answers
            → Spec.Awaits (R.remaining (device_of (Spec.lent_device self.old))) end self.old
            (prepend_line (Spec.current_of self.new) answers))) }
        ensures none { OnFalse result ((Spec.line_count_of self.new ≡ Spec.line_count_of self.old)
            × (Spec.current_of self.new ≡ Spec.current_of self.old)
            × Moves (R.remaining (device_of (Spec.lent_device self.old))) self.old
            (R.remaining (device_of (Spec.lent_device self.new))) self.new) }
        ensures going { OnTrue result (Spec.stop_of self.new ≡ None) }
        // A step without a line leaves fewer steps, so that `advance` ends.
        ensures less { OnFalse result (steps_left self.new < steps_left self.old) }

        ensures unread { Spec.HasLf (Spec.read_ahead_of self.old)
            → (Spec.lent_device self.new ≡ Spec.lent_device self.old)
            × OnFalse result (Spec.stop_of self.new ≢ None) }
        ensures same_reference { Spec.loan_of self.new ≡ Spec.loan_of self.old }
        ensures calls { Calls (last_in self.new.state) (Spec.lent_device self.old)
            (Spec.lent_device self.new) }
    {
        match take_line(&mut self.window, &mut self.scratch, &mut self.current) {
            Some(Ok(())) => {
                self.line += 1;
                true
            }
            Some(Err(fault)) => {
                self.state = State::Failed(LogCause::from(fault));
                false
            }
            None => {
                self.read_on();
                false
            }
        }
    }

    /// Reads once, where no whole line is held. Stops by setting `state`, where the read failed, or
    /// the input ended or is over the limit. Stops without a read where too many bytes for a line
    /// are held.
    fn read_on(&mut self)
        requires going { self.old.state ≡ State.Reading }
        requires none { cut_at 10 (items self.old.window) ≡ None }

        // What may follow now could have followed before.
        ensures moves { Moves (R.remaining (device_of (Spec.lent_device self.old))) self.old
            (R.remaining (device_of (Spec.lent_device self.new))) self.new }
        ensures less { steps_left self.new < steps_left self.old }

        ensures lines { Spec.line_count_of self.new ≡ Spec.line_count_of self.old }
        ensures current { Spec.current_of self.new ≡ Spec.current_of self.old }
        ensures same_reference { Spec.loan_of self.new ≡ Spec.loan_of self.old }
        ensures calls { Calls (last_in self.new.state) (Spec.lent_device self.old)
            (Spec.lent_device self.new) }
    {
        if self.window.as_slice().len() > MAX_LINE {
            self.state = State::Failed(LogCause::LongLine);
            return;
        }
        match self.window.read_more(self.source, self.left) {
            Ok(count) => self.left -= count,
            Err(ending) => {
                self.state = match refuse_tail(self.window.as_slice(), ending) {
                    Some(cause) => State::Failed(cause),
                    None => State::Ended,
                }
            }
        }
    }
}
