//! PDUs (RFC 3416, section 3).

ghost use Rattle.std.specs.Prelude.{◌≡◌, ℕ, List, [], ◌+◌, ◌*◌, ◌<◌, ◌≤◌, ◌++◌, length, slice_range, option_map};
ghost use Rattle.std.specs.Prelude.{IfErr, IfOk, OnOk, OnErr, MatchResult, All, map};
ghost use Rattle.std.specs.Result.{result_ok};
ghost use Rattle.snmp_ber.specs.Spelling.{head_size};
ghost use Rattle.snmp_msg.specs.Pdu.{PduParts, PduText, PduFits, pdu_in, pdu_content_in, pdu_of, pdu_with};
ghost use Rattle.snmp_msg.specs.PduTypes.{IsPduTag};
ghost use Rattle.snmp_msg.specs.Pdu.{with_variables, pdu_content_size, pdu_front_text, pdu_text};
ghost use Rattle.snmp_msg.specs.Variables.{Variable, AreBindings, CanBeWritten, variable_of, variables_of};
ghost use Rattle.snmp_msg.specs.Variables.{bindings_left, variables_left, variables_text};
ghost use Rattle.snmp_message.specs.Scoped.{IsOneElement};
ghost use Rattle.snmp_message.specs.declared.refusal.Refusal.TheVariants.{OutOfMemory, TooLarge};
ghost use Rattle.snmp_message.specs.Refusals.{IsRefused, IsWriteRefusal};
ghost use Rattle.snmp_msg.specs.Refusals.{RefusesPdu};

use crate::binding::{Binding, Bindings, check_bindings};
use crate::list::{Spelled, bindings_len, put_bindings};
use crate::pdu_type::{PduType, is_pdu_tag};
use crate::variable::VariableBindings;
use snmp_ber::{BerFault, put_head, put_int, read_tlv};
use snmp_message::{
    LARGEST, Refusal, RefusedAt, SEQUENCE, element_len, integer_len, read_element, read_signed,
};
use std::alloc::{AllocError, Global};

/// What a PDU says.
#[derive(Clone, Copy, Debug, PartialEq, Eq)]
pub struct Pdu<'a> {
    /// The tag of its type, one of the eight of `PduType`.
    pub tag: u8,
    /// request-id.
    pub id: i32,
    /// error-status, or non-repeaters of a GetBulkRequest.
    pub second: i32,
    /// error-index, or max-repetitions of a GetBulkRequest.
    pub third: i32,
    /// The content of variable-bindings.
    pub list: &'a [u8],
}

impl<'a> Pdu<'a> {
    /// The bindings of the list, in order, each with the arcs of its name. They are all of it where the PDU
    /// is `read_pdu`'s; of other octets they are those that it begins with. No memory is taken.
    pub fn bindings(&self) -> Bindings<'a>
        ensures first { bindings_left result ≡ variables_of self.now.list.now }
        ensures all { (vs : List Variable) → AreBindings vs self.now.list.now
            → bindings_left result ≡ vs }
    {
        Bindings::of(self.list)
    }

    /// The same bindings, in the same order, each with its name in the octets of the list: no arcs are read,
    /// which takes a fourth of the time.
    pub fn variable_bindings(&self) -> VariableBindings<'a>
        ensures first { variables_left result ≡ variables_of self.now.list.now }
        ensures all { (vs : List Variable) → AreBindings vs self.now.list.now
            → variables_left result ≡ vs }
    {
        VariableBindings::of(self.list)
    }
}

/// The content of a PDU with this tag, which is between two places.
#[tactic(auto, unfolding(crate::specs::Pdu::pdu_content_in))]
fn read_pdu_content(bytes: &[u8], tag: u8, at: usize, end: usize) -> Result<Pdu<'_>, BerFault>
    requires start { at ≤ end }
    requires within { end ≤ length bytes.now }
    ensures { option_map pdu_of (result_ok result)
        ≡ pdu_content_in tag (slice_range bytes.now at end) }
{
    let (id, at) = read_signed(bytes, at, end)?;
    let (second, at) = read_signed(bytes, at, end)?;
    let (third, at) = read_signed(bytes, at, end)?;
    let list = read_element(bytes, at, end, SEQUENCE)?;
    check_bindings(bytes, list.body, list.end)?;
    if list.end < end {
        return Err(BerFault { at: list.end });
    }
    Ok(Pdu {
        tag,
        id,
        second,
        third,
        list: list.content,
    })
}

/// The PDU that fills the octets between two places.
#[tactic(auto, unfolding(crate::specs::Pdu::pdu_in))]
fn read_whole_pdu(bytes: &[u8], at: usize, end: usize) -> Result<Pdu<'_>, BerFault>
    requires start { at ≤ end }
    requires within { end ≤ length bytes.now }
    ensures { option_map pdu_of (result_ok result) ≡ pdu_in (slice_range bytes.now at end) }
{
    let whole = read_tlv(bytes, at, end)?;
    if !is_pdu_tag(whole.tag) {
        return Err(BerFault { at });
    }
    let pdu = read_pdu_content(bytes, whole.tag, whole.body, whole.end)?;
    if whole.end < end {
        return Err(BerFault { at: whole.end });
    }
    Ok(pdu)
}

/// The PDU that fills the octets between the places `at` and `end`.
///
/// The error is NotPdu, exactly where they aren't one PDU. No memory is taken.
pub fn read_pdu(bytes: &[u8], at: usize, end: usize) -> Result<Pdu<'_>, RefusedAt>
    requires start { at ≤ end }
    requires within { end ≤ length bytes.now }
    ensures exact { MatchResult result (λ p. PduText (slice_range bytes.now at end) (pdu_of p))
        (λ e. RefusesPdu (slice_range bytes.now at end) e.refusal) }
    ensures none { OnErr result ((p : PduParts) → PduText (slice_range bytes.now at end) p → ⊥) }
    ensures fits { IfOk result (λ p. PduFits (pdu_of p)) }
{
    match read_whole_pdu(bytes, at, end) {
        Ok(pdu) => Ok(pdu),
        Err(fault) => Err(RefusedAt {
            refusal: Refusal::NotPdu,
            at: Some(fault.at),
        }),
    }
}

/// How many octets the content of a PDU has whose list has `list_len`.
fn pdu_content_len(pdu: &Pdu<'_>, list_len: usize) -> usize
    requires { list_len ≤ LARGEST }
    ensures size { result ≡ pdu_content_size (pdu_of pdu.now) list_len }
    ensures most { result ≤ 2 * LARGEST }
{
    integer_len(pdu.id) + integer_len(pdu.second) + integer_len(pdu.third) + element_len(list_len)
}

/// How many octets a PDU has whose list has `list_len`.
pub(crate) fn pdu_len(pdu: &Pdu<'_>, list_len: usize) -> usize
    requires { list_len ≤ LARGEST }
    ensures size { let size = pdu_content_size (pdu_of pdu.now) list_len in result
        ≡ head_size size + size }
    ensures most { result ≤ 3 * LARGEST }
{
    element_len(pdu_content_len(pdu, list_len))
}

/// How many octets a PDU with these numbers is written in, in the shortest spelling, whose list of bindings
/// has `list_len` octets, at most 65,507.
pub fn written_pdu_len(id: i32, second: i32, third: i32, list_len: usize) -> usize
    requires { list_len ≤ LARGEST }
    ensures size { (tag : ℕ) (list : List ℕ) → length list ≡ list_len
        → result ≡ length (pdu_text (record
        { tag = tag; id = id; second = second; third = third; list = list })) }
    ensures most { result ≤ 3 * LARGEST }
{
    pdu_len(
        &bare_pdu(PduType::GetRequest.tag(), id, second, third),
        list_len,
    )
}

/// Appends what stands in a PDU before the content of its list, which has `list_len` octets.
#[tactic(auto, unfolding(crate::specs::Pdu::pdu_front_text))]
pub(crate) fn put_pdu_front(
    out: &mut Vec<u8>,
    pdu: &Pdu<'_>,
    list_len: usize,
) -> Result<(), AllocError>
    requires { list_len ≤ LARGEST }
    ensures ok { OnOk result (out.new.items
        ≡ out.old.items ++ pdu_front_text (pdu_of pdu.now) list_len) }
{
    put_head(out, pdu.tag, pdu_content_len(pdu, list_len))?;
    put_int(out, pdu.id)?;
    put_int(out, pdu.second)?;
    put_int(out, pdu.third)?;
    put_head(out, SEQUENCE, list_len)?;
    Ok(())
}

/// Appends a PDU with the tag and the numbers of `front` and with these bindings, whose list has `list_len`
/// octets then.
fn put_spelled<B: Spelled>(
    out: &mut Vec<u8>,
    front: &Pdu<'_>,
    bindings: &[B],
    list_len: usize,
) -> Result<(), AllocError>
    requires fit { All (λ b. B.fits b) bindings.now }
    requires list { list_len ≡ length (variables_text (map B.says bindings.now)) }
    requires within { list_len ≤ LARGEST }
    ensures ok { OnOk result
        (out.new.items ≡ out.old.items
        ++ pdu_text (with_variables (pdu_of front.now) (map B.says bindings.now))) }
{
    put_pdu_front(out, front, list_len)?;
    put_bindings(out, bindings)?;
    Ok(())
}

/// Appends a PDU with these numbers and bindings, in the shortest spelling. The content of its list has
/// `list_len` octets, as `bindings_len` tells.
///
/// The error is out of memory, and a front of the PDU may have been appended.
pub fn put_pdu_of<B: Spelled>(
    out: &mut Vec<u8>,
    tag: u8,
    id: i32,
    second: i32,
    third: i32,
    bindings: &[B],
    list_len: usize,
) -> Result<(), AllocError>
    requires fit { All (λ b. B.fits b) bindings.now }
    requires list { list_len ≡ length (variables_text (map B.says bindings.now)) }
    requires within { list_len ≤ LARGEST }
    ensures ok { OnOk result
        (out.new.items ≡ out.old.items ++ pdu_text
        (pdu_with tag id second third (map B.says bindings.now))) }
{
    put_spelled(out, &bare_pdu(tag, id, second, third), bindings, list_len)
}

/// Writes a PDU with these bindings, whose list has `list_len` octets then, into `size` octets of memory.
fn spell_pdu<B: Spelled>(
    alloc: Global,
    front: &Pdu<'_>,
    bindings: &[B],
    list_len: usize,
    size: usize,
) -> Result<Vec<u8>, AllocError>
    requires fit { All (λ b. B.fits b) bindings.now }
    requires list { list_len ≡ length (variables_text (map B.says bindings.now)) }
    requires within { list_len ≤ LARGEST }
    ensures { IfOk result (λ v. v.items
        ≡ pdu_text (with_variables (pdu_of front.now) (map B.says bindings.now))) }
{
    let mut out = Vec::with_capacity(alloc, size)?;
    put_spelled(&mut out, front, bindings, list_len)?;
    Ok(out)
}

/// A PDU with the tag and the numbers of `front`, and with these bindings, as `write_pdu` writes it.
fn write_spelled<B: Spelled>(
    alloc: Global,
    front: &Pdu<'_>,
    bindings: &[B],
) -> Result<Vec<u8>, RefusedAt>
    requires tag { IsPduTag front.now.tag }
    requires fit { All (λ b. B.fits b) bindings.now }
    ensures ok { IfOk result (λ v. v.items
        ≡ pdu_text (with_variables (pdu_of front.now) (map B.says bindings.now))) }
    ensures size { IfOk result (λ v. length v.items ≤ LARGEST) }
    ensures spelled { IfOk result (λ v. PduText v.items
        (with_variables (pdu_of front.now) (map B.says bindings.now))) }
    ensures bindings { IfOk result
        (λ _. AreBindings (map B.says bindings.now) (variables_text (map B.says bindings.now))) }
    ensures refusal { IfErr result (λ e. IsWriteRefusal e.refusal) }
    ensures too_large { IsRefused result TooLarge
        → LARGEST < length (pdu_text (with_variables (pdu_of front.now)
        (map B.says bindings.now))) }
    ensures memory { IsRefused result OutOfMemory
        → length (pdu_text (with_variables (pdu_of front.now) (map B.says bindings.now)))
        ≤ LARGEST }
{
    let _numbers = (front.id, front.second, front.third);
    let Some(list_len) = bindings_len(bindings) else {
        return Err(RefusedAt::plain(Refusal::TooLarge));
    };
    let size = pdu_len(front, list_len);
    if size > LARGEST {
        return Err(RefusedAt::plain(Refusal::TooLarge));
    }
    let out = spell_pdu(alloc, front, bindings, list_len, size)?;
    Ok(out)
}

/// The tag and the numbers of a PDU, which has no bindings.
fn bare_pdu(tag: u8, id: i32, second: i32, third: i32) -> Pdu<'static>
    ensures { pdu_of result ≡ record
        { tag = tag; id = id; second = second; third = third; list = [] } }
{
    Pdu {
        tag,
        id,
        second,
        third,
        list: &[],
    }
}

/// A PDU with these bindings, in the shortest spelling. Its tag is one of those that `Pdu` lists, each name
/// is an identifier with `is_object_id`, and no value's tag has low five bits that are all ones.
///
/// The error TooLarge (16) comes exactly where the text would be longer than 65,507 octets, unless there is
/// out of memory, which is the other error.
pub fn write_pdu(
    alloc: Global,
    tag: u8,
    id: i32,
    second: i32,
    third: i32,
    bindings: &[Binding<'_>],
) -> Result<Vec<u8>, RefusedAt>
    requires tag { IsPduTag tag }
    requires fit { All (λ b. CanBeWritten (variable_of b)) bindings.now }
    ensures ok { IfOk result (λ v. v.items
        ≡ pdu_text (pdu_with tag id second third (map variable_of bindings.now))) }
    ensures size { IfOk result (λ v. length v.items ≤ LARGEST) }
    ensures spelled { IfOk result (λ v. PduText v.items
        (pdu_with tag id second third (map variable_of bindings.now))) }
    ensures bindings { IfOk result
        (λ _. AreBindings (map variable_of bindings.now)
        (variables_text (map variable_of bindings.now))) }
    ensures element { IfOk result (λ v. IsOneElement v.items) }
    ensures refusal { IfErr result (λ e. IsWriteRefusal e.refusal) }
    ensures too_large { IsRefused result TooLarge
        → LARGEST < length (pdu_text (pdu_with tag id second third
        (map variable_of bindings.now))) }
    ensures memory { IsRefused result OutOfMemory
        → length (pdu_text (pdu_with tag id second third (map variable_of bindings.now)))
        ≤ LARGEST }
{
    write_pdu_of(alloc, tag, id, second, third, bindings)
}

/// The same PDU, of bindings in any form that can be written. Of each `VariableBinding` only the tag is
/// asked, and it takes a third of the time of a `Binding`.
///
/// The errors are those of `write_pdu`.
pub fn write_pdu_of<B: Spelled>(
    alloc: Global,
    tag: u8,
    id: i32,
    second: i32,
    third: i32,
    bindings: &[B],
) -> Result<Vec<u8>, RefusedAt>
    requires tag { IsPduTag tag }
    requires fit { All (λ b. B.fits b) bindings.now }
    ensures ok { IfOk result (λ v. v.items
        ≡ pdu_text (pdu_with tag id second third (map B.says bindings.now))) }
    ensures size { IfOk result (λ v. length v.items ≤ LARGEST) }
    ensures spelled { IfOk result (λ v. PduText v.items
        (pdu_with tag id second third (map B.says bindings.now))) }
    ensures bindings { IfOk result
        (λ _. AreBindings (map B.says bindings.now) (variables_text (map B.says bindings.now))) }
    ensures element { IfOk result (λ v. IsOneElement v.items) }
    ensures refusal { IfErr result (λ e. IsWriteRefusal e.refusal) }
    ensures too_large { IsRefused result TooLarge
        → LARGEST < length (pdu_text (pdu_with tag id second third (map B.says bindings.now))) }
    ensures memory { IsRefused result OutOfMemory
        → length (pdu_text (pdu_with tag id second third (map B.says bindings.now))) ≤ LARGEST }
{
    write_spelled(alloc, &bare_pdu(tag, id, second, third), bindings)
}
