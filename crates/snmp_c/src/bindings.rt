//! Variable bindings as octets.

ghost use Rattle.snmp_c.specs.Calls.{ReadsBinding, Writes};

use snmp_handles::{code_of, read_binding_at, write_binding};
use std::alloc::Global;

/// Reads the binding that begins at the place `at` of a list: into the front of `arcs` its name, and into
/// that of `numbers` how many arcs they are, the tag of the value, the place of its content, its length in
/// octets, and the place after the binding. It answers -1 where the place is behind the list, -4 where no
/// binding begins there, and -5 where there is no room, for which 128 arcs and 5 numbers are enough; the
/// buffers are then as they were.
#[unsafe(no_mangle)]
pub extern "C" fn proved_binding_read(
    list: &[u8],
    at: usize,
    arcs: &mut [u32],
    numbers: &mut [usize],
) -> i32
    ensures { ReadsBinding list.now at arcs.old arcs.new numbers.old numbers.new result }
{
    code_of(read_binding_at(list, at, arcs, numbers))
}

/// Writes a binding of these arcs, with this tag and this content of its value, to the front of the buffer,
/// and writes how many octets it has. It answers -1 where the arcs are no identifier's, the tag's low five
/// bits are all ones or it is above 255, or the content has more than 65,507 octets; 14 if memory runs out;
/// and -5 where there is no room, and the octets are counted too.
#[unsafe(no_mangle)]
pub extern "C" fn proved_binding_write(
    alloc: Global,
    arcs: &[u32],
    tag: u32,
    content: &[u8],
    out: &mut [u8],
    written: &mut usize,
) -> i32
    ensures { Writes arcs.now tag content.now out.old out.new written.old written.new result }
{
    code_of(write_binding(alloc, arcs, tag, content, out, written))
}
