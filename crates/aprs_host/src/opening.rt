//! Opening the inputs of a run.
ghost use Rattle.std.specs.Prelude.{◌≡◌, ◌≢◌, ◌∷◌, ◌≤◌, [], ℕ, IfErr, IfOk, OnOk, List, Option, None, length};
ghost use Rattle.std.specs.IoError.{error_kind};
ghost use Rattle.std.specs.Result.{result_err};
ghost use Rattle.aprs_host.specs.Opening.{AreAt, Asked, AsksFor, IsKnownAs, StopsAtInput, StopsAtPath, StopsAtStandard, complaint_at, opened, opened_inputs};
ghost use Rattle.aprs_host.specs.Complaint.{standard_input};

use crate::complaint::{Complaint, STANDARD_INPUT};
use aprs_io::Counted;
use std::alloc::Allocator;
use std::io::{self, ErrorKind, Read};

/// Why an input can't be opened.
#[derive(Clone, Copy, Debug, PartialEq, Eq)]
pub enum OpenFault {
    /// The system refuses it.
    Refused,
    /// It is the file that the output goes to.
    IsOutput,
    /// An allocation failed.
    Memory,
}

impl OpenFault {
    /// Why an input can't be opened where the system answers this error: an allocation failed, or
    /// the system refuses the input. Takes no memory.
    pub fn of(error: &io::Error) -> OpenFault
        ensures memory { error_kind error.now ≡ ErrorKind.OutOfMemory
            → result ≡ OpenFault.Memory }
        ensures refused { error_kind error.now ≢ ErrorKind.OutOfMemory
            → result ≡ OpenFault.Refused }
    {
        match error.kind() {
            ErrorKind::OutOfMemory => OpenFault::Memory,
            _ => OpenFault::Refused,
        }
    }
}

/// What opens the inputs of a run by their paths.
pub trait Opener {
    /// An input that is open.
    type Input: Read + Drop;

    /// The paths that it was asked for and its answers, in order, where they are known.
    ghost asked: { Self → Option (List Asked) } = { λ _. None };

    /// The path at which an input is open, where it is known.
    ghost path_of: { Self.Input → Option (List ℕ) } = { λ _. None };

    /// Opens the input of this path, or answers why it can't be.
    fn open(&mut self, path: &str) -> Result<Self::Input, OpenFault>
        ensures asks { AsksFor (asked self.old) (asked self.new)
            ((path.now, result_err result) ∷ []) }
        ensures at_path { IfOk result (λ input. IsKnownAs (path_of input) path.now) };

    /// Standard input, where no path is given, or why it can't be taken.
    fn standard_input(&mut self) -> Result<Self::Input, OpenFault>
        ensures asks { AsksFor (asked self.old) (asked self.new)
            ((standard_input, result_err result) ∷ []) };
}

/// Opens all inputs, in the order of their paths. Where one can't be opened, or an allocation
/// fails, none after it is opened, and the answer is what is complained of.
pub fn open_all<'t, O: Opener, A: Allocator>(
    opener: &mut O,
    alloc: A,
    paths: &'t [String],
) -> Result<Vec<Counted<O::Input>, A>, Complaint<'t>>
    // All are opened, in order, and each stands where its path does. Or one can't be, or there is
    // no memory for it, and none after it is asked for. What is complained of then is why it
    // couldn't be opened, or, where it is open, that memory was refused.
    ensures at_paths { IfOk result (λ inputs. AreAt O.path_of inputs.items paths.entry.now) }
    ensures in_order { OnOk result (AsksFor (O.asked opener.old) (O.asked opener.new)
        (opened paths.entry.now)) }
    ensures stops { IfErr result (StopsAtPath (O.asked opener.old) (O.asked opener.new)
        paths.entry.now) }
{
    let mut inputs = Vec::new(alloc);
    for path in paths {
        match opener.open(path.as_str()) {
            Ok(input) => {
                if inputs.push(Counted::new(input)).is_err() {
                    return Err(Complaint::OutOfMemory);
                }
            }
            Err(fault) => return Err(complaint_of_open(path.as_bytes(), fault)),
        }
    }
    Ok(inputs)
}

/// Opens all inputs, in the order of their paths, or takes standard input alone where there is no
/// path. So there is at least one input. What is complained of is as `open_all` says, and without a
/// path why standard input can't be taken, or that memory was refused.
pub fn open_inputs<'t, O: Opener, A: Allocator>(
    opener: &mut O,
    alloc: A,
    paths: &'t [String],
) -> Result<Vec<Counted<O::Input>, A>, Complaint<'t>>
    ensures some { IfOk result (λ inputs. 1 ≤ length inputs.items) }
    ensures one { IfOk result (λ inputs. paths.entry.now ≡ [] → length inputs.items ≡ 1) }
    ensures at_paths { IfOk result (λ inputs. (paths.entry.now ≡ [] → ⊥)
        → AreAt O.path_of inputs.items paths.entry.now) }
    ensures in_order { OnOk result (AsksFor (O.asked opener.old) (O.asked opener.new)
        (opened_inputs paths.entry.now)) }
    ensures stops { IfErr result (StopsAtInput (O.asked opener.old) (O.asked opener.new)
        paths.entry.now) }
{
    if !paths.is_empty() {
        return open_all(opener, alloc, paths);
    }
    let mut inputs = Vec::new(alloc);
    match inputs.push(Counted::new(open_standard(opener)?)) {
        Ok(()) => Ok(inputs),
        Err(_) => Err(Complaint::OutOfMemory),
    }
}

/// Standard input, or what is complained of where it can't be taken.
pub(crate) fn open_standard<O: Opener>(opener: &mut O) -> Result<O::Input, Complaint<'static>>
    ensures asks { OnOk result (AsksFor (O.asked opener.old) (O.asked opener.new)
        ((standard_input, None) ∷ [])) }
    ensures stops { IfErr result (StopsAtStandard (O.asked opener.old) (O.asked opener.new)) }
{
    match opener.standard_input() {
        Ok(input) => Ok(input),
        Err(fault) => Err(complaint_of_open(STANDARD_INPUT.as_bytes(), fault)),
    }
}

/// What is complained of where the input of this place can't be opened.
pub(crate) fn complaint_of_open<'t>(place: &'t [u8], fault: OpenFault) -> Complaint<'t>
    ensures { result ≡ complaint_at place.entry fault }
{
    match fault {
        OpenFault::Refused => Complaint::CannotOpen(place),
        OpenFault::IsOutput => Complaint::IsOutput(place),
        OpenFault::Memory => Complaint::OutOfMemory,
    }
}
