//! The first two fields of a line, a moment and a receiver's name, each with a space after it. A
//! moment has one of two lengths, and a name ends before the first byte that no name has.
ghost use Rattle.std.specs.Prelude.{◌≡◌, ◌↔◌, IsTrue, MatchOption};
ghost use Rattle.std.specs.List.{position};
ghost use Rattle.aprs_log.specs.Fields as Spec;

use crate::moment::civil::{MILLIS_LEN, SECONDS_LEN};
use crate::moment::clock::Clock;
use crate::receiver::{MAX_NAME, is_name_byte};
use crate::{Moment, Receiver};

/// The moment that a line begins with, and what stands after it and a space. `None` where the line
/// doesn't begin with a moment and a space. `clock` keeps the moment's date.
pub fn take_moment<'a>(clock: &mut Clock, line: &'a [u8]) -> Option<(Moment, &'a [u8])>
    ensures { MatchOption result (Spec.TakesNoMoment line.now)
        (λ found. Spec.TakesMoment line.now found.0 found.1.now) }
{
    let len = moment_len(line)?;
    let moment = clock.parse(&line[..len])?;
    Some((moment, &line[len + 1..]))
}

/// How many bytes the moment at the beginning of a line has, by the space after it: 20 or 24.
/// `None` where no space stands at either place. Whether a moment stands there isn't looked at.
fn moment_len(line: &[u8]) -> Option<usize>
    ensures { MatchOption result (Spec.EndsNoMoment line.now) (Spec.EndsMoment line.now) }
{
    if has_space(line, SECONDS_LEN) {
        Some(SECONDS_LEN)
    } else if has_space(line, MILLIS_LEN) {
        Some(MILLIS_LEN)
    } else {
        None
    }
}

/// The receiver whose name a text begins with, and what stands after it and a space. `None` where
/// the text doesn't begin with a name and a space.
pub fn take_receiver(text: &[u8]) -> Option<(Receiver, &[u8])>
    ensures { MatchOption result (Spec.TakesNoName text.now)
        (λ found. Spec.TakesName text.now found.0 found.1.now) }
{
    let len = name_end(text)?;
    if len == 0 || len > MAX_NAME || text[len] != b' ' {
        return None;
    }
    Some((Receiver::with_name(&text[..len]), &text[len + 1..]))
}

/// Where the first byte stands that can't be in a name, or `None` where all bytes can.
fn name_end(text: &[u8]) -> Option<usize>
    ensures { result ≡ position Spec.ends_name text.now }
{
    text.iter().position(|byte| !is_name_byte(*byte))
}

/// Whether a space stands at a place; `false` too where the text ends before it.
fn has_space(text: &[u8], at: usize) -> bool
    ensures { IsTrue result ↔ Spec.HasSpace text.now at }
{
    text.get(at) == Some(&b' ')
}
