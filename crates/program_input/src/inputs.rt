//! Reading a program's input whole, within bounds of bytes and reads.
ghost use Rattle.std.specs.Prelude.{◌≡◌, ◌≤◌, length, take, IfOk, IfSome};

use std::alloc::Global;
use std::io::{ErrorKind, Read};
use thiserror::Error;

/// Why an input was not read.
#[derive(Clone, Copy, Debug, PartialEq, Eq, Error)]
pub enum InputFault {
    /// A read failed, or there were too many reads or bytes.
    #[error("read failed")]
    Failed,
    /// Memory ran out.
    #[error("out of memory")]
    NoMemory,
}

/// The most reads that are made.
pub const MOST_READS: u32 = 1_000_000;

/// The most bytes that an input has.
pub const MOST_BYTES: usize = 16_777_216;

/// How many bytes each read asks for.
const PIECE: usize = 4_096;

/// Reads all bytes that a reader has left, at most 16,777,216, in at most 1,000,000 reads.
///
/// Refused as `read_up_to`, and with `Failed` if there are more bytes.
pub fn read_input<R: Read>(alloc: Global, reader: &mut R) -> Result<Vec<u8>, InputFault>
    ensures whole { IfOk result (λ bytes. IfSome (R.remaining reader.old) (λ all. all ≡ bytes.items)) }
    ensures few { IfOk result (λ bytes. length bytes.items ≤ 16777216) }
{
    let bytes = read_up_to(alloc, reader, MOST_BYTES + 1)?;
    if bytes.len() > MOST_BYTES {
        return Err(InputFault::Failed);
    }
    Ok(bytes)
}

/// Reads the bytes that a reader has left, or the first `most` of them, in at most 1,000,000 reads.
///
/// Refused with `Failed` if a read fails or more reads would be needed, with `NoMemory` if memory
/// runs out; what was read until then is lost. An interrupted read counts as one, and is tried
/// again (POSIX, read(), EINTR).
pub fn read_up_to<R: Read>(
    alloc: Global,
    reader: &mut R,
    most: usize,
) -> Result<Vec<u8>, InputFault>
    ensures beginning { IfOk result (λ bytes. IfSome (R.remaining reader.old) (λ all. bytes.items ≡ take most all)) }
    ensures few { IfOk result (λ bytes. length bytes.items ≤ most) }
{
    let mut bytes = Vec::new(alloc);
    let mut piece = [0u8; PIECE];
    for _ in 0..MOST_READS {
        let wanted = PIECE.min(most - bytes.len());
        if wanted == 0 {
            return Ok(bytes);
        }
        let count = match reader.read(&mut piece[..wanted]) {
            Ok(count) => count,
            Err(error) if error.kind() == ErrorKind::Interrupted => continue,
            Err(_) => return Err(InputFault::Failed),
        };
        if count == 0 {
            return Ok(bytes);
        }
        if bytes.extend_from_slice(&piece[..count]).is_err() {
            return Err(InputFault::NoMemory);
        }
    }
    Err(InputFault::Failed)
}
