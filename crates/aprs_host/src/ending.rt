//! How a program ends.
ghost use Rattle.std.specs.Prelude.{◌≡◌, map, string_bytes};
ghost use Rattle.aprs_host.specs.Ending as Spec;

use crate::complaint::{Complaint, STANDARD_INPUT, complaint_of};
use aprs_runs::RunFault;

/// What is complained of after a run over inputs of these paths, none for standard input. It is the
/// run's own fault, with the name of the input at fault, or else the output's, or nothing. The
/// output has a fault where `flushed` is `false`. Takes no memory.
pub fn complaint_after<'t>(
    paths: &'t [String],
    outcome: &Result<(), RunFault>,
    flushed: bool,
) -> Option<Complaint<'t>>
    ensures { Spec.EndsWith (Spec.place_at_fault (map (λ path. string_bytes path) paths.entry.now)
        outcome.now) outcome.now flushed result }
{
    match outcome {
        Err(fault) => Some(complaint_of(place_at_fault(paths, fault).as_bytes(), fault)),
        Ok(()) if flushed => None,
        Ok(()) => Some(Complaint::CannotWrite),
    }
}

/// The name of the input at fault: its path, or `standard input` where it has none or no input is
/// at fault. Takes no memory.
fn place_at_fault<'t>(paths: &'t [String], fault: &RunFault) -> &'t str
    ensures { result.now ≡ Spec.place_at_fault (map (λ path. string_bytes path) paths.entry.now)
        (Err fault.now) }
{
    match fault {
        RunFault::Input { index, .. } => input_name(paths, *index),
        _ => STANDARD_INPUT,
    }
}

/// The name of input number `index`, counted from 0: its path, or `standard input` where there is
/// none. Takes no memory.
pub fn input_name(paths: &[String], index: usize) -> &str
    ensures { result.now ≡ Spec.input_name (map (λ path. string_bytes path) paths.now) index }
{
    match paths.get(index) {
        Some(path) => path.as_str(),
        None => STANDARD_INPUT,
    }
}
