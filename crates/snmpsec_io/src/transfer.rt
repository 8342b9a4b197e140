//! Reads and writes that are tried again where a signal interrupts them, up to a thousand times in a row.

ghost use Rattle.std.specs.Prelude.{◌≡◌, ◌<◌, ◌≤◌, ◌∷◌, [], ℕ, length, take, IfOk, OnOk, OnErr, MatchOption};
ghost use Rattle.std.specs.Io.KnownBytes.{Appends, Consumes, IsAtEnd, Keeps};
ghost use Rattle.snmpsec_io.specs.Transfer.{WritesFront};

use std::io::{ErrorKind, Read, Write};
use thiserror::Error;

/// How often in a row a transfer is tried.
pub const TRIES: u32 = 1_000;

/// A read or a write failed, or was interrupted a thousand times in a row.
#[derive(Clone, Copy, Debug, PartialEq, Eq, Drop, Error)]
#[error("a read or a write failed")]
pub struct Failed;

/// One read, which gives nothing only at the end.
pub fn read_some<R: Read>(reader: &mut R, buf: &mut [u8]) -> Result<usize, Failed>
    ensures bound { IfOk result (λ n. n ≤ length buf.new) }
    ensures ok { IfOk result (λ n. Consumes (R.remaining reader.old)
        (R.remaining reader.new) (take n buf.new)) }
    ensures end { IfOk result (λ n. n ≡ 0 → 0 < length buf.old → IsAtEnd (R.remaining reader.new)) }
    ensures err { OnErr result (Keeps (R.remaining reader.old) (R.remaining reader.new)) }
{
    for _ in 0..TRIES {
        match reader.read(buf) {
            Ok(n) => return Ok(n),
            Err(e) if e.kind() == ErrorKind::Interrupted => {}
            Err(_) => return Err(Failed),
        }
    }
    Err(Failed)
}

/// Fills the buffer as far as the reader goes, and returns how many octets it read. They are fewer than the
/// buffer has room for only at the end.
pub fn read_full<R: Read>(reader: &mut R, buf: &mut [u8]) -> Result<usize, Failed>
    ensures room { length buf.new ≡ length buf.old }
    ensures bound { IfOk result (λ n. n ≤ length buf.new) }
    ensures ok { IfOk result (λ n. Consumes (R.remaining reader.old)
        (R.remaining reader.new) (take n buf.new)) }
    ensures end { IfOk result (λ n. n < length buf.new → IsAtEnd (R.remaining reader.new)) }
    ensures err { OnErr result
        ((n : ℕ) × (n < length buf.new)
        × Consumes (R.remaining reader.old) (R.remaining reader.new) (take n buf.new)) }
{
    let mut count = 0;
    while count < buf.len() {
        let more = read_some(reader, &mut buf[count..])?;
        if more == 0 {
            return Ok(count);
        }
        count += more;
    }
    Ok(count)
}

/// The next octet, or `None` at the end.
pub fn read_octet<R: Read>(reader: &mut R) -> Result<Option<u8>, Failed>
    ensures ok { IfOk result (λ octet. MatchOption octet
        (Consumes (R.remaining reader.old) (R.remaining reader.new) []
        × IsAtEnd (R.remaining reader.new))
        (λ x. Consumes (R.remaining reader.old) (R.remaining reader.new) (x ∷ []))) }
    ensures err { OnErr result (Keeps (R.remaining reader.old) (R.remaining reader.new)) }
{
    let mut octet = [0u8; 1];
    if read_some(reader, &mut octet)? == 0 {
        return Ok(None);
    }
    Ok(Some(octet[0]))
}

/// Writes a front of the text that is not empty, and returns its length.
fn write_some<W: Write>(writer: &mut W, text: &[u8]) -> Result<usize, Failed>
    ensures bound { IfOk result (λ n. (0 < n) × (n ≤ length text.now)) }
    ensures ok { IfOk result (λ n. Appends (W.contents writer.old)
        (W.contents writer.new) (take n text.now)) }
    ensures err { OnErr result (Keeps (W.contents writer.old) (W.contents writer.new)) }
{
    for _ in 0..TRIES {
        match writer.write(text) {
            Ok(0) => return Err(Failed),
            Ok(n) => return Ok(n),
            Err(e) if e.kind() == ErrorKind::Interrupted => {}
            Err(_) => return Err(Failed),
        }
    }
    Err(Failed)
}

/// Writes the whole text. Where that fails, it has written a front of it, and not the whole.
pub fn write_whole<W: Write>(writer: &mut W, text: &[u8]) -> Result<(), Failed>
    ensures ok { OnOk result (Appends (W.contents writer.old) (W.contents writer.new) text.now) }
    ensures err { OnErr result (WritesFront (W.contents writer.old)
        (W.contents writer.new) text.now) }
{
    let mut rest = text;
    while !rest.is_empty() {
        let count = write_some(writer, rest)?;
        rest = &rest[count..];
    }
    Ok(())
}
