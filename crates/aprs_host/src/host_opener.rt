//! What opens the inputs of a program on its host.
use crate::host::HostInput;
use crate::opening::{OpenFault, Opener};
use crate::output_file::{RegularFile, is_output};
use std::fs::{self, File};

/// Where the host tells of the file that is standard input.
const STANDARD_INPUT: &str = "/proc/self/fd/0";
/// Where the host tells of the file that is standard output.
const STANDARD_OUTPUT: &str = "/proc/self/fd/1";

/// Opens files and standard input, but not a regular file to which the output goes: what is
/// written would be read again. Where the host has no `/proc`, it can't tell, and opens that too.
#[derive(Clone, Copy)]
pub(crate) struct HostOpener<'a> {
    rt: &'a HostRuntime,
    output: Option<RegularFile>,
}

impl<'a> HostOpener<'a> {
    /// Opens the inputs of a run that writes to standard output.
    pub(crate) fn new(rt: &'a HostRuntime) -> HostOpener<'a> {
        let output = RegularFile::of(&fs::metadata(rt, STANDARD_OUTPUT));
        HostOpener { rt, output }
    }

    /// Opens the inputs of a fold. Where they are only checked, nothing is written, and whatever
    /// standard output is may be opened.
    pub(crate) fn of_fold(rt: &'a HostRuntime, is_check: bool) -> HostOpener<'a> {
        if is_check {
            return HostOpener { rt, output: None };
        }
        HostOpener::new(rt)
    }
}

impl Opener for HostOpener<'_> {
    type Input = HostInput;

    fn open(&mut self, path: &str) -> Result<HostInput, OpenFault> {
        let file = match File::open(self.rt, path) {
            Ok(file) => file,
            Err(error) => return Err(OpenFault::of(&error)),
        };
        if is_output(RegularFile::of(&file.metadata()), self.output) {
            return Err(OpenFault::IsOutput);
        }
        Ok(HostInput::File(file))
    }

    fn standard_input(&mut self) -> Result<HostInput, OpenFault> {
        let input = RegularFile::of(&fs::metadata(self.rt, STANDARD_INPUT));
        if is_output(input, self.output) {
            return Err(OpenFault::IsOutput);
        }
        Ok(HostInput::Standard(self.rt.stdin()))
    }
}
