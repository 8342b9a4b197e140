//! Variable bindings that a caller hands in as octets.

ghost use Rattle.std.specs.Prelude.{◌≡◌, ◌≤◌, All, IfErr, IfOk, List, length, map};
ghost use Rattle.snmp_ber.specs.Element.{IsTag};
ghost use Rattle.snmp_ber.specs.Oid.{IsObjectId};
ghost use Rattle.snmp_msg.specs.Variables.{Variable, AreBindings, bound_variable, variable_text};
ghost use Rattle.snmp_handles.specs.Bindings.{RefusesBindings, ReadsAt, WritesBinding};

use crate::fault::CallFault;
use crate::parts::copy_to;
use snmp_ber::{ObjectName, Oid, one_element, put_oid, put_tlv, read_oid, read_tlv};
use snmp_msg::{LARGEST, Refusal, VariableBinding, read_binding, whole_slice};
use std::alloc::{AllocError, Global};

/// How many elements the octets begin with, one after another: where they are bindings, how many they are.
fn outer_count(list: &[u8]) -> usize
    ensures { (vs : List Variable) → AreBindings vs list.now → result ≡ length vs }
{
    whole_slice();
    one_element();
    let mut count = 0;
    let mut place = 0;
    while place < list.len() {
        let Ok(element) = read_tlv(list, place, list.len()) else {
            return count;
        };
        count += 1;
        place = element.end;
    }
    count
}

/// The bindings whose texts the octets are, one after another, with their names in these octets. The error is
/// BadBindings, exactly where they aren't bindings, or out of memory, which is asked for once.
pub fn bindings_of(alloc: Global, list: &[u8]) -> Result<Vec<VariableBinding<'_>>, CallFault>
    ensures all { IfOk result (λ v. AreBindings (map bound_variable v.items) list.now) }
    ensures written { IfOk result (λ v. All (λ b. IsTag b.tag) v.items) }
    ensures fault { IfErr result (RefusesBindings list.now) }
{
    whole_slice();
    one_element();
    let Ok(mut bindings) = Vec::with_capacity(alloc, outer_count(list)) else {
        return Err(CallFault::Refused(Refusal::OutOfMemory));
    };
    let mut place = 0;
    while place < list.len() {
        let Ok(found) = read_binding(list, place, list.len()) else {
            return Err(CallFault::BadBindings);
        };
        let binding = VariableBinding {
            name: ObjectName::of_content(found.name.content),
            tag: found.value.tag,
            content: found.value.content,
        };
        if bindings.push(binding).is_err() {
            return Err(CallFault::Refused(Refusal::OutOfMemory));
        }
        place = found.end;
    }
    Ok(bindings)
}

/// How many numbers `read_binding_at` writes.
const PLACES: usize = 5;

/// Reads the binding that begins at the place `at` of a list: into the front of `arcs` its name, and into
/// that of `numbers` how many arcs they are, the tag of the value, the place of its content, its length in
/// octets, and the place after the binding.
///
/// The errors are BadArgument, where the place is behind the list; BadBindings, exactly where no binding
/// begins there; and ShortBuffer. They leave the buffers as they were.
pub fn read_binding_at(
    list: &[u8],
    at: usize,
    arcs: &mut [u32],
    numbers: &mut [usize],
) -> Result<(), CallFault>
    ensures { ReadsAt list.now at arcs.old arcs.new numbers.old numbers.new result }
{
    if at > list.len() {
        return Err(CallFault::BadArgument);
    }
    let Ok(found) = read_binding(list, at, list.len()) else {
        return Err(CallFault::BadBindings);
    };
    let Some(name) = read_oid(found.name.content) else {
        unreachable!();
    };
    let name = name.as_slice();
    if name.len() > arcs.len() || numbers.len() < PLACES {
        return Err(CallFault::ShortBuffer);
    }
    arcs[..name.len()].copy_from_slice(name);
    let places = [
        name.len(),
        usize::from(found.value.tag),
        found.value.body,
        found.value.content.len(),
        found.end,
    ];
    numbers[..PLACES].copy_from_slice(&places);
    Ok(())
}

/// The text of a binding. The error is out of memory.
#[tactic(auto, unfolding(snmp_msg::specs::Variables::variable_text, snmp_msg::specs::Variables::variable_content))]
fn binding_text(alloc: Global, name: &Oid, tag: u8, content: &[u8]) -> Result<Vec<u8>, AllocError>
    requires name { IsObjectId name.now }
    requires tag { IsTag tag }
    requires fits { length content.now ≤ LARGEST }
    ensures { IfOk result
        (λ text. text.items ≡ variable_text
        (record { name = name.now; tag = tag; content = content.now })) }
{
    let mut parts = Vec::new(alloc);
    put_oid(&mut parts, name)?;
    put_tlv(&mut parts, tag, content)?;
    let mut text = Vec::new(alloc);
    put_tlv(&mut text, 0x30, &parts)?;
    Ok(text)
}

/// Writes a binding of these arcs, with this tag and this content of its value, in its shortest spelling, to
/// the front of the buffer, and tells how many octets it has.
///
/// The errors are BadArgument, where the arcs are no identifier's that can be spelled, the tag's low five
/// bits are all ones or it is above 255, or the content has more than 65,507 octets; out of memory; and
/// ShortBuffer. They leave the buffer as it was, and ShortBuffer alone tells how many octets are wanted.
pub fn write_binding(
    alloc: Global,
    arcs: &[u32],
    tag: u32,
    content: &[u8],
    out: &mut [u8],
    written: &mut usize,
) -> Result<(), CallFault>
    ensures { WritesBinding arcs.now tag content.now out.old
        out.new written.old written.new result }
{
    let Some(name) = Oid::of(arcs) else {
        return Err(CallFault::BadArgument);
    };
    if !name.is_object_id() || tag > 255 || tag & 0x1f == 0x1f || content.len() > LARGEST {
        return Err(CallFault::BadArgument);
    }
    match binding_text(alloc, &name, tag as u8, content) {
        Ok(text) => copy_to(&text, out, written),
        Err(_) => Err(CallFault::Refused(Refusal::OutOfMemory)),
    }
}
