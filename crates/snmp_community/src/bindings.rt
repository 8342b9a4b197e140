//! Messages whose PDU is spelled in its place, from its numbers and its bindings.

ghost use Rattle.std.specs.Prelude.{◌≡◌, ℕ, List, ◌+◌, ◌*◌, ◌<◌, ◌≤◌, All, length, map, IfErr, IfOk};
ghost use Rattle.snmp_message.specs.Refusals.{IsRefused, IsWriteRefusal};
ghost use Rattle.snmp_message.specs.declared.refusal.Refusal.TheVariants.{OutOfMemory, TooLarge};
ghost use Rattle.snmp_msg.specs.Pdu.{PduText, pdu_text};
ghost use Rattle.snmp_msg.specs.PduTypes.{IsPduTag};
ghost use Rattle.snmp_msg.specs.Variables.{AreBindings, variables_text};
ghost use Rattle.snmp_community.specs.Layout.{IsMessage};
ghost use Rattle.snmp_community.specs.Spelling.{front_text, written};
ghost use Rattle.snmp_community.specs.Fronts.{pdu_before, pdu_after, text_after};

use crate::version::Version;
use crate::writing::{content_len, put_front};
use snmp_message::{LARGEST, Refusal, RefusedAt, element_len};
use snmp_msg::{Spelled, bindings_len, put_pdu_of, written_pdu_len};
use std::alloc::{AllocError, Global};

/// What comes in a message before the bindings of its PDU.
#[derive(Clone, Copy, PartialEq, Eq)]
pub struct CommunityFront<'a> {
    pub version: Version,
    /// The community, of any octets.
    pub community: &'a [u8],
    /// The tag of the PDU's type, one of the eight of `PduType`.
    pub tag: u8,
    /// request-id.
    pub id: i32,
    /// error-status, or non-repeaters of a GetBulkRequest.
    pub second: i32,
    /// error-index, or max-repetitions of a GetBulkRequest.
    pub third: i32,
}

/// How many octets the PDU has whose list of bindings has `list_len`.
fn pdu_len(front: &CommunityFront<'_>, list_len: usize) -> usize
    requires { list_len ≤ LARGEST }
    ensures size { (list : List ℕ) → length list ≡ list_len
        → result ≡ length (pdu_text (pdu_before front.now list)) }
    ensures most { result ≤ 3 * LARGEST }
{
    written_pdu_len(front.id, front.second, front.third, list_len)
}

/// Writes the message, whose content has `content_len` octets and whose list of bindings `list_len`, into `size` octets
/// of memory.
fn spell_bindings<B: Spelled>(
    alloc: Global,
    front: &CommunityFront<'_>,
    bindings: &[B],
    list_len: usize,
    content_len: usize,
    size: usize,
) -> Result<Vec<u8>, AllocError>
    requires fit { All (λ b. B.fits b) bindings.now }
    requires community { length front.now.community.now ≤ LARGEST }
    requires short { list_len ≤ LARGEST }
    requires list { list_len ≡ length (variables_text (map B.says bindings.now)) }
    requires content { content_len
        ≡ length (front_text front.now.version front.now.community.now)
        + length (pdu_text (pdu_after front.now (map B.says bindings.now))) }
    requires within { content_len ≤ LARGEST }
    ensures { IfOk result (λ v. v.items ≡ text_after front.now (map B.says bindings.now)) }
{
    let mut out = Vec::with_capacity(alloc, size)?;
    put_front(&mut out, front.version, front.community, content_len)?;
    put_pdu_of(
        &mut out,
        front.tag,
        front.id,
        front.second,
        front.third,
        bindings,
        list_len,
    )?;
    Ok(out)
}

/// The message with this front and these bindings, in the shortest spelling. The PDU is spelled in its place, and
/// memory is asked for once. The tag is of one of the eight types, and the bindings can be written.
///
/// The error TooLarge (16) comes exactly where the text would be longer than 65,507 octets, and OutOfMemory only
/// where it wouldn't.
pub fn write_community_bindings<B: Spelled>(
    alloc: Global,
    front: &CommunityFront<'_>,
    bindings: &[B],
) -> Result<Vec<u8>, RefusedAt>
    requires tag { IsPduTag front.now.tag }
    requires fit { All (λ b. B.fits b) bindings.now }
    ensures ok { IfOk result (λ v. v.items ≡ text_after front.now (map B.says bindings.now)) }
    ensures size { IfOk result (λ v. length v.items ≤ LARGEST) }
    ensures spelled { IfOk result
        (λ v. IsMessage v.items (written front.now.version front.now.community.now
        (pdu_text (pdu_after front.now (map B.says bindings.now))))) }
    ensures pdu { IfOk result
        (λ _. PduText (pdu_text (pdu_after front.now (map B.says bindings.now)))
        (pdu_after front.now (map B.says bindings.now))) }
    ensures bindings { IfOk result
        (λ _. AreBindings (map B.says bindings.now) (variables_text (map B.says bindings.now))) }
    ensures refusal { IfErr result (λ e. IsWriteRefusal e.refusal) }
    ensures too_large { IsRefused result TooLarge
        → LARGEST < length (text_after front.now (map B.says bindings.now)) }
    ensures memory { IsRefused result OutOfMemory
        → length (text_after front.now (map B.says bindings.now)) ≤ LARGEST }
{
    let _numbers = (front.id, front.second, front.third);
    let Some(list_len) = bindings_len(bindings) else {
        return Err(RefusedAt::plain(Refusal::TooLarge));
    };
    if front.community.len() > LARGEST {
        return Err(RefusedAt::plain(Refusal::TooLarge));
    }
    let content_len = content_len(front.version, front.community, pdu_len(front, list_len));
    let size = element_len(content_len);
    if size > LARGEST {
        return Err(RefusedAt::plain(Refusal::TooLarge));
    }
    let out = spell_bindings(alloc, front, bindings, list_len, content_len, size)?;
    Ok(out)
}
