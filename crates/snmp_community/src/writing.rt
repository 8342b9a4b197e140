//! The message around a PDU (RFC 1157, section 4; RFC 1901, section 3), written.

ghost use Rattle.std.specs.Prelude.{◌≡◌, ◌+◌, ◌*◌, ◌<◌, ◌≤◌, ◌++◌, length, IfErr, IfOk, OnOk};
ghost use Rattle.snmp_ber.specs.Spelling.{head_of};
ghost use Rattle.snmp_message.specs.Scoped.{IsOneElement};
ghost use Rattle.snmp_message.specs.Refusals.{IsRefused, IsWriteRefusal};
ghost use Rattle.snmp_message.specs.declared.field.TheConstants.{SEQUENCE};
ghost use Rattle.snmp_message.specs.declared.refusal.Refusal.TheVariants.{OutOfMemory, TooLarge};
ghost use Rattle.snmp_community.specs.Layout.{IsMessage};
ghost use Rattle.snmp_community.specs.Spelling.{front_text, community_text, written};

use crate::version::Version;
use snmp_ber::{put_head, put_int, put_tlv};
use snmp_message::{LARGEST, OCTET_STRING, Refusal, RefusedAt, SEQUENCE, element_len, integer_len};
use std::alloc::{AllocError, Global};

/// How many octets the content of a message has whose PDU has `pdu_len`.
pub(crate) fn content_len(version: Version, community: &[u8], pdu_len: usize) -> usize
    requires community { length community.now ≤ LARGEST }
    requires pdu { pdu_len ≤ 3 * LARGEST }
    ensures size { result ≡ length (front_text version community.now) + pdu_len }
    ensures most { result ≤ 5 * LARGEST }
{
    integer_len(version.number()) + element_len(community.len()) + pdu_len
}

/// Appends what stands in a message before its PDU. Its content has `content_len` octets.
///
/// The error is out of memory, and a front of this may have been appended.
#[tactic(auto, unfolding(crate::specs::Spelling::front_text))]
pub(crate) fn put_front(
    out: &mut Vec<u8>,
    version: Version,
    community: &[u8],
    content_len: usize,
) -> Result<(), AllocError>
    requires community { length community.now ≤ LARGEST }
    requires content { content_len ≤ LARGEST }
    ensures ok { OnOk result (out.new.items
        ≡ out.old.items ++ (head_of SEQUENCE content_len ++ front_text version community.now)) }
{
    put_head(out, SEQUENCE, content_len)?;
    put_int(out, version.number())?;
    put_tlv(out, OCTET_STRING, community)?;
    Ok(())
}

/// Writes the message, whose content has `content_len` octets, into `size` octets of memory.
fn spell_message(
    alloc: Global,
    version: Version,
    community: &[u8],
    pdu: &[u8],
    content_len: usize,
    size: usize,
) -> Result<Vec<u8>, AllocError>
    requires community { length community.now ≤ LARGEST }
    requires content { content_len ≡ length (front_text version community.now) + length pdu.now }
    requires within { content_len ≤ LARGEST }
    ensures { IfOk result (λ v. v.items ≡ community_text version community.now pdu.now) }
{
    let mut out = Vec::with_capacity(alloc, size)?;
    put_front(&mut out, version, community, content_len)?;
    out.extend_from_slice(pdu)?;
    Ok(out)
}

/// The message, in the shortest spelling, around its PDU, which is one whole element. Memory is asked for once.
///
/// The error TooLarge (16) comes exactly where the text would be longer than 65,507 octets, and OutOfMemory only
/// where it wouldn't.
pub fn write_community_message(
    alloc: Global,
    version: Version,
    community: &[u8],
    pdu: &[u8],
) -> Result<Vec<u8>, RefusedAt>
    requires { IsOneElement pdu.now }
    ensures ok { IfOk result (λ v. v.items ≡ community_text version community.now pdu.now) }
    ensures size { IfOk result (λ v. length v.items ≤ LARGEST) }
    ensures spelled { IfOk result
        (λ v. IsMessage v.items (written version community.now pdu.now)) }
    ensures refusal { IfErr result (λ e. IsWriteRefusal e.refusal) }
    ensures too_large { IsRefused result TooLarge
        → LARGEST < length (community_text version community.now pdu.now) }
    ensures memory { IsRefused result OutOfMemory
        → length (community_text version community.now pdu.now) ≤ LARGEST }
{
    if community.len().max(pdu.len()) > LARGEST {
        return Err(RefusedAt::plain(Refusal::TooLarge));
    }
    let content_len = content_len(version, community, pdu.len());
    let size = element_len(content_len);
    if size > LARGEST {
        return Err(RefusedAt::plain(Refusal::TooLarge));
    }
    let out = spell_message(alloc, version, community, pdu, content_len, size)?;
    Ok(out)
}
