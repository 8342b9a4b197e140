//! ScopedPDUs as octets.

ghost use Rattle.snmp_c.specs.Calls.{Spells};

use snmp_handles::{ScopedOf, code_of, write_scoped_pdu};
use std::alloc::Global;

/// Writes a ScopedPDU of these contexts, a PDU of this tag and these numbers of 32 bits with sign, and the bindings
/// that these octets are, to the front of the buffer, and tells how many octets it has. It answers -1 where the tag
/// isn't a PDU's, -4 where the octets aren't bindings, 16 where it would have more than 65,507 octets, 14 if memory
/// runs out, and -5 where the buffer is too short.
#[unsafe(no_mangle)]
pub extern "C" fn proved_scoped_write(
    alloc: Global,
    context_engine: &[u8],
    context_name: &[u8],
    tag: u32,
    request_id: i32,
    second: i32,
    third: i32,
    list: &[u8],
    out: &mut [u8],
    written: &mut usize,
) -> i32
    ensures { Spells
        (record {
          context_engine = context_engine.now;
          context_name = context_name.now;
          tag = tag;
          request_id = request_id;
          second = second;
          third = third;
        }) list.now out.old out.new written.old written.new result }
{
    let of = ScopedOf {
        context_engine,
        context_name,
        tag,
        request_id,
        second,
        third,
    };
    code_of(write_scoped_pdu(alloc, &of, list, out, written))
}
