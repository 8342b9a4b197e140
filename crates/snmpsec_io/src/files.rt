//! Files that are named on the command line.

ghost use Rattle.std.specs.Prelude.{◌≡◌, ◌≤◌, length, IfOk, []};
ghost use Rattle.std.specs.Io.Buffered.{reader_buffer};
ghost use Rattle.snmpsec_io.specs.declared.whole.TheConstants.{FILE_LIMIT};

use crate::fault::ReadFault;
use crate::watched::Watched;
use crate::whole::{FILE_LIMIT, FileFault, read_whole};
use std::fs;
use std::io::BufReader;
use std::rt::Files;

/// The octets of the file of this name, at most `FILE_LIMIT`. The error says why they can't be read.
pub fn load_file<R: Files + AllocGlobal>(rt: &R, name: &str) -> Result<Vec<u8>, ReadFault>
    ensures bound { IfOk result (λ octets. length octets.items ≤ FILE_LIMIT) }
{
    let mut file = Watched::new(fs::open(rt, name)?);
    match read_whole(rt.alloc(), &mut file, FILE_LIMIT) {
        Ok(octets) => Ok(octets),
        Err(FileFault::CannotRead) => Err(file.fault().unwrap_or(ReadFault::TooLarge)),
        Err(FileFault::OutOfMemory) => Err(ReadFault::OutOfMemory),
    }
}

/// The octets of the file of this name, at most `FILE_LIMIT`.
///
/// The errors are CannotRead, if it can't be opened or read, or is longer; and OutOfMemory.
pub fn read_file<R: Files + AllocGlobal>(rt: &R, name: &str) -> Result<Vec<u8>, FileFault>
    ensures bound { IfOk result (λ octets. length octets.items ≤ FILE_LIMIT) }
{
    Ok(load_file(rt, name)?)
}

/// The file of this name, to be read from its beginning piece by piece. The error says why it can't be opened.
pub fn open_log<R: Files + AllocGlobal>(
    rt: &R,
    name: &str,
) -> Result<BufReader<Watched<R::File>>, ReadFault>
    ensures unread { IfOk result (λ reader. reader_buffer reader ≡ []) }
{
    let file = Watched::new(fs::open(rt, name)?);
    Ok(BufReader::new(rt.alloc(), file)?)
}
