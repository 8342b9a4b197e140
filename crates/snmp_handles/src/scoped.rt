//! A ScopedPDU that a caller has written.

ghost use Rattle.snmp_msg.specs.PduTypes.{IsPduTag};
ghost use Rattle.snmp_handles.specs.ScopedPdus.{SpellsScoped, WritesScoped, saying_of};

use crate::bindings::bindings_of;
use crate::fault::CallFault;
use crate::in_range::is_pdu_tag;
use crate::parts::copy_to;
use snmp_msg::{write_pdu_of, write_scoped};
use std::alloc::Global;

/// What a ScopedPDU says besides its bindings (RFC 3412, section 6.8, and RFC 3416, section 3). The three numbers may
/// be negative, which those of `ManagerHandle::request` aren't.
#[derive(Clone, Copy, Debug)]
pub struct ScopedOf<'a> {
    /// contextEngineID, of any length.
    pub context_engine: &'a [u8],
    /// contextName, of any length.
    pub context_name: &'a [u8],
    /// The PDU's tag, A0 to A8 and not A4.
    pub tag: u32,
    /// request-id.
    pub request_id: i32,
    /// error-status, or non-repeaters.
    pub second: i32,
    /// error-index, or max-repetitions.
    pub third: i32,
}

/// The text of a ScopedPDU with the bindings that these octets are.
fn scoped_text(alloc: Global, of: &ScopedOf<'_>, list: &[u8]) -> Result<Vec<u8>, CallFault>
    requires { IsPduTag of.now.tag }
    ensures { SpellsScoped (saying_of of.now) list.now result }
{
    let bindings = bindings_of(alloc, list)?;
    let tag = of.tag as u8;
    let pdu = match write_pdu_of(alloc, tag, of.request_id, of.second, of.third, &bindings) {
        Ok(pdu) => pdu,
        Err(fault) => return Err(CallFault::Refused(fault.refusal)),
    };
    match write_scoped(alloc, of.context_engine, of.context_name, &pdu) {
        Ok(text) => Ok(text),
        Err(fault) => Err(CallFault::Refused(fault.refusal)),
    }
}

/// Writes a ScopedPDU with the bindings that these octets are, in its shortest spelling, to the front of the buffer,
/// and tells how many octets it has.
///
/// The errors are BadArgument, where the tag isn't a PDU's; BadBindings; TooLarge (16), where it has more than 65,507
/// octets; out of memory; and ShortBuffer. They leave the buffer as it was, and ShortBuffer alone tells how many
/// octets are wanted.
pub fn write_scoped_pdu(
    alloc: Global,
    of: &ScopedOf<'_>,
    list: &[u8],
    out: &mut [u8],
    written: &mut usize,
) -> Result<(), CallFault>
    ensures { WritesScoped (saying_of of.now) list.now out.old
        out.new written.old written.new result }
{
    if !is_pdu_tag(of.tag) {
        return Err(CallFault::BadArgument);
    }
    let text = scoped_text(alloc, of, list)?;
    copy_to(&text, out, written)
}
