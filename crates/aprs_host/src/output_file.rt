//! Whether an input is the file that the output goes to.
ghost use Rattle.std.specs.Prelude.{◌≡◌, ◌↔◌, IsErr, IsNone, IsSome, IsSomeAnd, IsTrue, IfOk, Some};
ghost use Rattle.std.specs.Fs.{IsFile, file_type};

use std::fs::Metadata;
use std::io;
use std::os::unix::fs::MetadataExt;

/// A regular file of the host: its device, and its number there.
#[derive(Clone, Copy, Debug, PartialEq, Eq)]
pub struct RegularFile {
    device: u64,
    number: u64,
}

impl RegularFile {
    /// The file of which the host tells this. `None` where it tells nothing, or where that is a
    /// folder, a pipe, a terminal or another device. Takes no memory.
    pub fn of(told: &io::Result<Metadata>) -> Option<RegularFile>
        ensures untold { IsErr told.now → IsNone result }
        ensures told { IfOk told.now (λ metadata. IsSome result ↔ IsFile (file_type metadata)) }
    {
        match told {
            Ok(metadata) if metadata.is_file() => Some(RegularFile {
                device: metadata.dev(),
                number: metadata.ino(),
            }),
            _ => None,
        }
    }
}

/// Whether an input is a regular file to which the output goes too. Takes no memory.
pub fn is_output(input: Option<RegularFile>, output: Option<RegularFile>) -> bool
    ensures { IsTrue result ↔ IsSomeAnd input (λ file. output ≡ Some file) }
{
    input.is_some() && input == output
}
