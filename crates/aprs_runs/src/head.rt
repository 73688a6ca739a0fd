//! The first bytes of an input, by which a book file is known from a log.
ghost use Rattle.std.specs.Prelude.{◌≡◌, ◌<◌, ◌≤◌, [], ◌∷◌, false, length, IfSome, IfOk, IfErr, OnOk};
ghost use Rattle.std.specs.List.{list_any};
ghost use Rattle.std.specs.Io.KnownBytes.{Consumes};
ghost use Rattle.aprs_io.specs.Device.{Calls, device_of};
ghost use Rattle.aprs_io.specs.Input.{EndsIfKnown, Gets, last_got};
ghost use Rattle.aprs_log.specs.LogAnswers.{is_lf};
ghost use Rattle.aprs_runs.specs.Head.{IsHead, last_of_head};

use aprs_io::{Counted, InputEnd, read_some};
use arrayvec::ArrayVec;
use std::io::Read;

/// How many bytes are read first: by these a book file is known from a log.
const HEAD_LEN: usize = 8;

/// What ends a line.
const LF: u8 = b'\n';

/// All that was got of an input, fewer than eight bytes, none of them an LF; and how the input
/// ended after them.
#[derive(Drop)]
pub struct ShortInput {
    pub bytes: ArrayVec<u8, HEAD_LEN>,
    pub ending: InputEnd,
}

/// Reads the first eight bytes of an input, or its first line with the LF, where that ends sooner.
/// Fails where neither comes, since the input ended, a read failed, or the input has more than
/// `limit` bytes: the error holds the bytes that came, and says which of these it was.
pub fn read_head<R: Read>(
    limit: u64,
    r: &mut Counted<R>,
) -> Result<ArrayVec<u8, HEAD_LEN>, ShortInput>
    ensures whole { IfOk result (λ head. IsHead head.items × (length head.items ≤ limit)) }
    ensures few { IfOk result (λ head. length head.items ≤ HEAD_LEN) }
    ensures bytes { IfOk result (λ head. Consumes (R.remaining (device_of r.old))
        (R.remaining (device_of r.new)) head.items) }

    ensures short { IfErr result (λ short. length short.bytes.items < HEAD_LEN) }
    ensures one { IfErr result (λ short. list_any is_lf short.bytes.items ≡ false) }
    ensures end { IfErr result (λ short. IfSome (R.remaining (device_of r.old))
        (λ input. Gets limit input (R.remaining (device_of r.new)) short.bytes.items
        short.ending)) }

    ensures calls { Calls (last_of_head result) r.old r.new }
{
    let mut bytes = ArrayVec::new();
    while bytes.len() < HEAD_LEN {
        match read_byte(r, limit - bytes.len() as u64) {
            Ok(LF) => {
                bytes.push(LF);
                return Ok(bytes);
            }
            Ok(byte) => bytes.push(byte),
            Err(ending) => return Err(ShortInput { bytes, ending }),
        }
    }
    Ok(bytes)
}

/// The next byte of an input of which at most `left` more bytes may be read. The error says why
/// there is none: the input ended, a read failed, or `left` is 0 and a byte follows (`TooLong`).
fn read_byte<R: Read>(r: &mut Counted<R>, left: u64) -> Result<u8, InputEnd>
    ensures some { OnOk result (0 < left) }
    ensures byte { IfOk result (λ byte. Consumes (R.remaining (device_of r.old))
        (R.remaining (device_of r.new)) (byte ∷ [])) }
    ensures end { IfErr result (λ ending. EndsIfKnown ending left (R.remaining (device_of r.old))
        (R.remaining (device_of r.new))) }
    ensures calls { Calls (last_got result) r.old r.new }
{
    let mut one = [0];
    match read_some(r, &mut one, left) {
        Ok(_) => Ok(one[0]),
        Err(ending) => Err(ending),
    }
}
