//! Reads a source to its end, within the bounds of reads and of bytes, or tells why not.
ghost use Rattle.std.specs.Prelude.{◌≡◌};
ghost use Rattle.gp_stream.specs.Source.{ReadsAll};
ghost use Rattle.gp_stream.specs.declared.reading.SourceFault.TheVariants.{OutOfMemory};

use crate::source::Source;
use std::alloc::{AllocError, Global};
use std::io::Read;
use thiserror::Error;

/// The most bytes that an input may have.
pub const MAX_BYTES: usize = 1_048_576;

/// How many bytes are asked for in one read.
const BLOCK_BYTES: usize = 16_384;

/// Why the whole input was not read.
#[derive(Clone, Copy, Debug, PartialEq, Eq, Error)]
pub enum SourceFault {
    /// A read failed, now or before, or the input took more than [`crate::MAX_READS`] reads.
    #[error("a read failed, or the input took too many reads")]
    Read,
    /// More than [`MAX_BYTES`] bytes came.
    #[error("the input is too long")]
    TooLong,
    /// Out of memory for the bytes.
    #[error("out of memory")]
    OutOfMemory,
}

impl From<AllocError> for SourceFault {
    ghost from_gives = { λ _ fault. fault ≡ OutOfMemory };

    fn from(_error: AllocError) -> SourceFault {
        SourceFault::OutOfMemory
    }
}

/// Reads all bytes of the input.
///
/// Reading stops at the first read that fails, whatever its error, and where more than
/// [`MAX_BYTES`] bytes have come. Of a source with a failed read nothing more is read, and `Read` is
/// answered.
pub fn read_all<R: Read>(alloc: Global, source: &mut Source<R>) -> Result<Vec<u8>, SourceFault>
    ensures { ReadsAll source.old source.new result }
{
    let mut bytes = Vec::new(alloc);
    let mut block = [0u8; BLOCK_BYTES];
    'reads: while source.can_read() {
        match source.read(&mut block) {
            Err(_) => return Err(SourceFault::Read),
            Ok(0) => return Ok(bytes),
            Ok(count) => {
                if count > MAX_BYTES - bytes.len() {
                    return Err(SourceFault::TooLong);
                }
                bytes.extend_from_slice(&block[..count])?;
            }
        }
    }
    Err(SourceFault::Read)
}
