//! Texts of hex.

ghost use Rattle.std.specs.Prelude.{IfErr, IfOk};
ghost use Rattle.capture_dumps.specs.Text.{IsFaultBehind, IsHexText, IsNoText};

use crate::part::{Part, first_part};
use crate::place::place_behind;
use std::alloc::Global;
use thiserror::Error;

/// Why a text wasn't read.
#[derive(Clone, Copy, Debug, PartialEq, Eq, Drop, Error)]
pub enum HexFault {
    /// What begins in this column of this line, each from 1, isn't part of a text of hex, or the text ends
    /// there without an octet.
    #[error("line {line} column {column}")]
    At { line: u64, column: u64 },
    /// A growth of memory was refused.
    #[error("out of memory")]
    OutOfMemory,
}

/// The octets that a text of hex writes: pairs of hex digits of either case. Between pairs may stand any
/// blanks, tabs, line ends, and octets of `:`, `,`, `-` and `"`, and a backslash before a line end; before a
/// pair may stand `0x`, `0X` or `\x`.
///
/// The errors are At, for a text that isn't of this form, or writes no octet; and OutOfMemory.
pub fn read_hex(alloc: Global, text: &[u8]) -> Result<Vec<u8>, HexFault>
    ensures ok { IfOk result (λ octets. IsHexText text.now octets.items) }
    ensures err { IfErr result (IsNoText text.now) }
{
    let mut octets = Vec::new(alloc);
    let mut read = 0;
    while read < text.len() {
        match first_part(&text[read..]) {
            Some(Part::Gap(size)) => read += size,
            Some(Part::Octet { octet, size }) => {
                if octets.push(octet).is_err() {
                    return Err(HexFault::OutOfMemory);
                }
                read += size;
            }
            None => return Err(fault_behind(&text[..read])),
        }
    }
    if octets.is_empty() {
        return Err(fault_behind(text));
    }
    Ok(octets)
}

/// The fault of a text that goes on with no part behind this front.
fn fault_behind(front: &[u8]) -> HexFault
    ensures { IsFaultBehind front.now result }
{
    let place = place_behind(front);
    HexFault::At {
        line: place.line,
        column: place.column,
    }
}
