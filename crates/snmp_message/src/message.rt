//! The outer layout of an SNMPv3Message (RFC 3412, section 6).

ghost use Rattle.std.specs.Prelude.{◌≡◌, ◌+◌, ◌*◌, ◌<◌, ◌≤◌, ◌++◌, length, slice_range, option_map, IfErr, IfOk, OnOk};
ghost use Rattle.std.specs.Prelude.{OnErr, MatchResult};
ghost use Rattle.std.specs.Result.{result_ok};
ghost use Rattle.snmp_ber.specs.Spelling.{head_size};
ghost use Rattle.snmp_message.specs.Layout.{Parts, Outer};
ghost use Rattle.snmp_message.specs.Spelling.{HeaderFits, number, content_size, front_text, message_text, written};
ghost use Rattle.snmp_message.specs.Reading.{version_in, after_version};
ghost use Rattle.snmp_message.specs.Message.{parts, tag_of, content_of};
ghost use Rattle.snmp_message.specs.declared.refusal.Refusal.TheVariants.{OutOfMemory, TooLarge};
ghost use Rattle.snmp_message.specs.Refusals.{IsRefused, IsWriteRefusal, RefusesOuter};

use crate::field::{INTEGER, OCTET_STRING, SEQUENCE, element_len, read_element};
use crate::header::{Header, header_len, put_header, read_header};
use crate::refusal::Refusal;
use crate::refused_at::RefusedAt;
use snmp_ber::{BerFault, put_head, put_int, put_tlv, read_int, read_tlv};
use std::alloc::{AllocError, Global};

/// The most octets that a datagram over UDP and IPv4 may have.
pub const LARGEST: usize = 65_507;

/// The content of msgData.
#[derive(Clone, Copy, Debug, PartialEq, Eq)]
pub enum Data<'a> {
    /// Of a SEQUENCE, as a ScopedPDU is.
    Plain(&'a [u8]),
    /// Of an OCTET STRING, as an encryptedPDU is.
    Sealed(&'a [u8]),
}

impl<'a> Data<'a> {
    /// The tag of msgData: 30 of a SEQUENCE, 04 of an OCTET STRING.
    pub fn tag(&self) -> u8
        ensures value { result ≡ tag_of self.now }
    {
        match self {
            Data::Plain(_) => SEQUENCE,
            Data::Sealed(_) => OCTET_STRING,
        }
    }

    /// The content of msgData.
    pub fn content(&self) -> &'a [u8]
        ensures value { result.now ≡ content_of self.now }
    {
        match self {
            Data::Plain(content) => content,
            Data::Sealed(content) => content,
        }
    }
}

/// A message in its outer layout. Places count from 0 in the datagram.
#[derive(Clone, Copy, Debug, PartialEq, Eq)]
pub struct Message<'a> {
    pub header: Header,
    /// The content of msgSecurityParameters.
    pub security: &'a [u8],
    /// The place of that content.
    pub security_at: usize,
    pub body: Data<'a>,
    /// The place of msgData's first octet.
    pub data_at: usize,
}

/// The version, the place after it, and the end of the message.
#[tactic(auto, unfolding(crate::specs::Reading::version_in))]
fn read_version(datagram: &[u8]) -> Result<(i32, usize, usize), BerFault>
    ensures value { option_map
        (λ v. (
          v.0,
          slice_range datagram.now v.1 v.2,
          slice_range datagram.now v.2 (length datagram.now),
        ))
        (result_ok result) ≡ version_in datagram.now }
    ensures ordered { IfOk result (λ v. (v.1 ≤ v.2) × (v.2 ≤ length datagram.now)) }
{
    let whole = read_element(datagram, 0, datagram.len(), SEQUENCE)?;
    let version = read_element(datagram, whole.body, whole.end, INTEGER)?;
    let Some(number) = read_int(version.content) else {
        return Err(BerFault { at: version.start });
    };
    Ok((number, version.end, whole.end))
}

/// What follows the version, up to the end of the message.
#[tactic(auto, unfolding(crate::specs::Reading::after_version))]
fn read_after_version(datagram: &[u8], at: usize, end: usize) -> Result<Message<'_>, BerFault>
    requires start { at ≤ end }
    requires within { end ≤ length datagram.now }
    ensures value { option_map parts (result_ok result)
        ≡ after_version end (slice_range datagram.now at end) }
    ensures fits { IfOk result (λ m. HeaderFits m.header) }
{
    let global = read_element(datagram, at, end, SEQUENCE)?;
    let header = read_header(datagram, global.body, global.end)?;
    let security = read_element(datagram, global.end, end, OCTET_STRING)?;
    let data = read_tlv(datagram, security.end, end)?;
    let body = match data.tag {
        SEQUENCE => Data::Plain(data.content),
        OCTET_STRING => Data::Sealed(data.content),
        _ => return Err(BerFault { at: data.start }),
    };
    if data.end < end {
        return Err(BerFault { at: data.end });
    }
    Ok(Message {
        header,
        security: security.content,
        security_at: security.body,
        body,
        data_at: data.start,
    })
}

/// The message that the datagram is, in its outer layout: msgSecurityParameters are one OCTET STRING and msgData is one
/// SEQUENCE or OCTET STRING, and neither is looked into.
///
/// BadVersion comes exactly where the datagram begins with a SEQUENCE whose content begins with an INTEGER
/// other than 3. NotMessage comes exactly where it doesn't, and isn't an SNMPv3Message of version 3. No
/// memory is taken.
pub fn read_message(datagram: &[u8]) -> Result<Message<'_>, RefusedAt>
    ensures exact { MatchResult result (λ m. Outer datagram.now (parts m))
        (λ e. RefusesOuter datagram.now e.refusal) }
    ensures none { OnErr result ((m : Parts) → Outer datagram.now m → ⊥) }
    ensures fits { IfOk result (λ m. HeaderFits m.header) }
{
    let (version, at, end) = match read_version(datagram) {
        Ok(found) => found,
        Err(fault) => return Err(RefusedAt {
            refusal: Refusal::NotMessage,
            at: Some(fault.at),
        }),
    };
    if version != 3 {
        return Err(RefusedAt::plain(Refusal::BadVersion));
    }
    let message = match read_after_version(datagram, at, end) {
        Ok(message) => message,
        Err(fault) => return Err(RefusedAt {
            refusal: Refusal::NotMessage,
            at: Some(fault.at),
        }),
    };
    if end < datagram.len() {
        return Err(RefusedAt {
            refusal: Refusal::NotMessage,
            at: Some(end),
        });
    }
    Ok(message)
}

/// How many octets the content of a message has.
fn content_len(header: &Header, security_len: usize, data_len: usize) -> usize
    requires header { HeaderFits header.now }
    requires security { security_len ≤ LARGEST }
    requires within { data_len ≤ LARGEST }
    ensures size { result ≡ content_size header.now security_len data_len }
    ensures most { result ≤ 3 * LARGEST }
{
    let version_len = 3;
    version_len
        + element_len(header_len(header))
        + element_len(security_len)
        + element_len(data_len)
}

/// How many octets a message has (RFC 3412, section 6) whose msgSecurityParameters and msgData have contents
/// of these sizes in octets, each at most 65,507.
pub fn message_len(header: &Header, security_len: usize, data_len: usize) -> usize
    requires header { HeaderFits header.now }
    requires security { security_len ≤ LARGEST }
    requires within { data_len ≤ LARGEST }
    ensures size { let size = content_size header.now security_len data_len in result
        ≡ head_size size + size }
    ensures most { result ≤ 4 * LARGEST }
{
    element_len(content_len(header, security_len, data_len))
}

/// Appends what stands in a message before the content of msgSecurityParameters (RFC 3412, section 6), the
/// sizes as for `message_len`.
///
/// The error is out of memory, and a front of this may have been appended.
#[tactic(auto, unfolding(crate::specs::Spelling::front_text))]
pub fn put_front(
    out: &mut Vec<u8>,
    header: &Header,
    security_len: usize,
    data_len: usize,
) -> Result<(), AllocError>
    requires header { HeaderFits header.now }
    requires security { security_len ≤ LARGEST }
    requires within { data_len ≤ LARGEST }
    ensures ok { OnOk result
        (out.new.items ≡ out.old.items
        ++ front_text header.now (content_size header.now security_len data_len) security_len) }
{
    put_head(out, SEQUENCE, content_len(header, security_len, data_len))?;
    put_int(out, 3)?;
    put_head(out, SEQUENCE, header_len(header))?;
    put_header(out, header)?;
    put_head(out, OCTET_STRING, security_len)
}

/// Writes the message into `size` octets of memory.
fn spell_message(
    alloc: Global,
    header: &Header,
    security: &[u8],
    body: &Data<'_>,
    size: usize,
) -> Result<Vec<u8>, AllocError>
    requires header { HeaderFits header.now }
    requires security { length security.now ≤ LARGEST }
    requires within { length (content_of body.now) ≤ LARGEST }
    ensures { IfOk result
        (λ v. v.items ≡ message_text header.now security.now
        (tag_of body.now) (content_of body.now)) }
{
    let content = body.content();
    let mut out = Vec::with_capacity(alloc, size)?;
    put_front(&mut out, header, security.len(), content.len())?;
    out.extend_from_slice(security)?;
    put_tlv(&mut out, body.tag(), content)?;
    Ok(out)
}

/// The message, in the shortest spelling, around the content of msgSecurityParameters and of msgData.
///
/// The header's fields are in their ranges. The error TooLarge (16) comes exactly where the text would be longer than
/// 65,507 octets, unless memory runs out, which is the other error.
pub fn write_message(
    alloc: Global,
    header: &Header,
    security: &[u8],
    body: &Data<'_>,
) -> Result<Vec<u8>, RefusedAt>
    requires { HeaderFits header.now }
    ensures ok { IfOk result
        (λ v. v.items ≡ message_text header.now security.now
        (tag_of body.now) (content_of body.now)) }
    ensures size { IfOk result (λ v. length v.items ≤ LARGEST) }
    ensures spelled { IfOk result
        (λ v. Outer v.items (written header.now security.now
        (tag_of body.now) (content_of body.now))) }
    ensures refusal { IfErr result (λ e. IsWriteRefusal e.refusal) }
    ensures too_large { IsRefused result TooLarge
        → LARGEST < length (message_text header.now security.now
        (tag_of body.now) (content_of body.now)) }
    ensures memory { IsRefused result OutOfMemory
        → length (message_text header.now security.now (tag_of body.now) (content_of body.now))
        ≤ LARGEST }
{
    let content = body.content();
    if security.len().max(content.len()) > LARGEST {
        return Err(RefusedAt::plain(Refusal::TooLarge));
    }
    let size = message_len(header, security.len(), content.len());
    if size > LARGEST {
        return Err(RefusedAt::plain(Refusal::TooLarge));
    }
    let out = spell_message(alloc, header, security, body, size)?;
    Ok(out)
}
