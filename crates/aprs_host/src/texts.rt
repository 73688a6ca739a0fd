//! The texts of a program's arguments.
ghost use Rattle.std.specs.Prelude.{◌≡◌, IfErr, IfOk, map, string_bytes};
ghost use Rattle.aprs_host.specs.declared.complaint.Complaint.TheVariants.{OutOfMemory};

use crate::complaint::Complaint;
use std::alloc::Allocator;

/// The text of each argument, in order, in memory from `alloc`; or `OutOfMemory` where an
/// allocation failed.
pub fn texts_of<A: Allocator>(
    alloc: A,
    arguments: &[String],
) -> Result<Vec<&str, A>, Complaint<'static>>
    ensures texts { IfOk result (λ texts. map (λ text. text.now) texts.items
        ≡ map (λ argument. string_bytes argument) arguments.now) }
    ensures memory { IfErr result (λ complaint. complaint ≡ OutOfMemory) }
{
    let mut texts = Vec::new(alloc);
    for argument in arguments {
        if texts.push(argument.as_str()).is_err() {
            return Err(Complaint::OutOfMemory);
        }
    }
    Ok(texts)
}
