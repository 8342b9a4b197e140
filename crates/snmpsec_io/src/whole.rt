//! Files that are read whole.

ghost use Rattle.std.specs.Prelude.{◌≤◌, List, ℕ, Option, length, IfOk};
ghost use Rattle.std.specs.Io.KnownBytes.{Consumes, IsAtEnd};

use crate::transfer::read_some;
use std::alloc::Global;
use std::io;
use std::io::Read;
use thiserror::Error;

/// The most octets of a file that is read whole.
pub const FILE_LIMIT: usize = 16_777_216;

/// Why a file wasn't read.
#[derive(Clone, Copy, Debug, PartialEq, Eq, Drop, Error)]
pub enum FileFault {
    /// It can't be opened or read, or is longer than the limit.
    #[error("cannot read")]
    CannotRead,
    /// A growth of memory was refused.
    #[error("out of memory")]
    OutOfMemory,
}

/// Reads all that is left, at most `limit` octets.
///
/// The errors are CannotRead, where a read fails, or is interrupted 1,000 times in a row, or more is left
/// than that; and OutOfMemory.
pub fn read_whole<R: Read>(
    alloc: Global,
    reader: &mut R,
    limit: usize,
) -> Result<Vec<u8>, FileFault>
    ensures bound { IfOk result (λ bytes. length bytes.items ≤ limit) }
    ensures all { IfOk result (λ bytes. Consumes (R.remaining reader.old)
        (R.remaining reader.new) bytes.items
        × IsAtEnd (R.remaining reader.new)) }
{
    read_whole_behind(alloc, b"", reader, limit)
}

/// Reads all that is left behind a front, where both aren't over the limit, and gives the front and what it read.
pub fn read_whole_behind<R: Read>(
    alloc: Global,
    front: &[u8],
    reader: &mut R,
    limit: usize,
) -> Result<Vec<u8>, FileFault>
    requires { length front.now ≤ limit }
    ensures bound { IfOk result (λ bytes. length bytes.items ≤ limit) }
    ensures all { (unread : Option (List ℕ)) → Consumes unread (R.remaining reader.old) front.now
        → IfOk result (λ bytes. Consumes unread (R.remaining reader.new) bytes.items
        × IsAtEnd (R.remaining reader.new)) }
{
    let Ok(mut bytes) = Vec::from_slice(alloc, front) else {
        return Err(FileFault::OutOfMemory);
    };
    let mut chunk = [0u8; 8192];
    'chunks: loop {
        let Ok(count) = read_some(reader, &mut chunk) else {
            return Err(FileFault::CannotRead);
        };
        if count == 0 {
            return Ok(bytes);
        }
        if count > limit - bytes.len() {
            return Err(FileFault::CannotRead);
        }
        if bytes.extend_from_slice(&chunk[..count]).is_err() {
            return Err(FileFault::OutOfMemory);
        }
    }
}

/// Out of memory, or else that a file can't be read.
impl From<io::Error> for FileFault {
    fn from(fault: io::Error) -> FileFault {
        if fault.kind() == io::ErrorKind::OutOfMemory {
            FileFault::OutOfMemory
        } else {
            FileFault::CannotRead
        }
    }
}
