//! Several inputs, which the host lays one after the other.
ghost use Rattle.std.specs.Prelude.{◌≡◌, ◌↔◌, T, map, length, Some, IfOk};
ghost use Rattle.std.specs.List.{sum};
ghost use Rattle.aprs_web.specs.Runs.{input_texts};

use aprs_io::Counted;
use std::alloc::{AllocError, Allocator};

/// Whether the lengths add up to `total`.
pub(crate) fn add_up(lengths: &[usize], total: usize) -> bool
    ensures { T result ↔ (sum lengths.now ≡ total) }
{
    let mut rest = total;
    for length in lengths {
        match rest.checked_sub(*length) {
            Some(less) => rest = less,
            None => return false,
        }
    }
    rest == 0
}

/// A reader for each input: of the first `lengths[0]` bytes, of the next `lengths[1]`, and so on.
/// One whose bytes aren't all there ends where `inputs` ends. `AllocError` where an allocation
/// failed.
pub(crate) fn readers<'a, A: Allocator + Copy>(
    alloc: A,
    inputs: &'a [u8],
    lengths: &[usize],
) -> Result<Vec<Counted<&'a [u8]>, A>, AllocError>
    // `Some`, since of a reader over bytes it is always known what is left.
    ensures { IfOk result (λ v. map (λ r. Some r.device.now) v.items
        ≡ map (λ input. Some input) (input_texts lengths.now inputs.now)) }
{
    let mut readers = Vec::new(alloc);
    let mut rest = inputs;
    for length in lengths {
        let (input, after) = rest.split_at((*length).min(rest.len()));
        readers.push(Counted::new(input))?;
        rest = after;
    }
    Ok(readers)
}
