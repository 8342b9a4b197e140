//! A message with all its layers, and its canonical spelling.

ghost use Rattle.std.specs.Prelude.{◌≡◌, [], ◌+◌, ◌*◌, ◌<◌, ◌≤◌, ◌++◌, length, IfOk, IfSome, IfNone, OnOk};
ghost use Rattle.std.specs.Prelude.{IfErr, MatchResult};
ghost use Rattle.snmp_ber.specs.Spelling.{element};
ghost use Rattle.snmp_message.specs.Layout.{Outer};
ghost use Rattle.snmp_message.specs.Message.{parts};
ghost use Rattle.snmp_message.specs.Security.{IsShort, fields_of};
ghost use Rattle.snmp_msg.specs.Canonical.{Says, IsCanonical, WholeFits, IsReadLayer, IsMeasured, whole_of};
ghost use Rattle.snmp_msg.specs.Canonical.{whole_text, message_with, data_parts, measured_parts, data_tag_of};
ghost use Rattle.snmp_msg.specs.Canonical.{data_content_of};
ghost use Rattle.snmp_msg.specs.Variables.{variables_of, after_variables, variables_text};
ghost use Rattle.snmp_msg.specs.Pdu.{pdu_of, pdu_text, respelled};
ghost use Rattle.snmp_message.specs.declared.refusal.Refusal.TheVariants.{OutOfMemory, TooLarge};
ghost use Rattle.snmp_message.specs.Refusals.{IsRefused, IsWriteRefusal};
ghost use Rattle.snmp_msg.specs.Refusals.{RefusesWhole, RefusesCanonical};

use crate::list::{list_len, put_list};
use crate::pdu::{Pdu, pdu_len, put_pdu_front, read_pdu};
use snmp_ber::{put_head, put_tlv};
use snmp_message::{
    Header, LARGEST, Message, OCTET_STRING, Refusal, RefusedAt, SEQUENCE, Scoped, Security,
    contexts_len, is_short, message_len, put_contexts, put_front, put_security, read_message,
    read_scoped, read_security, security_len,
};
use std::alloc::{AllocError, Global};

/// What msgData says: ScopedPduData of RFC 3412, section 6, with the PDU read.
#[derive(Clone, Copy, Debug, PartialEq, Eq)]
pub enum Layer<'a> {
    /// The octets of an encryptedPDU.
    Sealed(&'a [u8]),
    /// A ScopedPDU, and the PDU in it.
    Plain(Scoped<'a>, Pdu<'a>),
}

/// What a message says in all its layers.
#[derive(Clone, Copy, Debug, PartialEq, Eq)]
pub struct Layers<'a> {
    pub header: Header,
    pub security: Security<'a>,
    pub contents: Layer<'a>,
}

/// What stands in msgData when it is written anew, with what was measured of it.
#[derive(Clone, Copy)]
pub(crate) enum Measured<'a> {
    Sealed(&'a [u8]),
    /// The ScopedPDU, the PDU in it, and the number of octets that its variable bindings are written in.
    Plain(Scoped<'a>, Pdu<'a>, usize),
}

/// All layers of the message, which is `read_message`'s of this datagram.
///
/// They are read in the order msgData, msgSecurityParameters and, where the priv flag is clear, PDU. The
/// error is that of the first that refuses, and comes exactly where one does: NotScoped, NotSecurity or
/// NotPdu. No memory is taken.
pub fn read_layers<'a>(datagram: &'a [u8], message: &Message<'a>) -> Result<Layers<'a>, RefusedAt>
    requires { Outer datagram.now (parts message.now) }
    ensures exact { MatchResult result (λ m. Says datagram.now (whole_of m))
        (λ e. RefusesWhole datagram.now e.refusal) }
    ensures fits { IfOk result (λ m. WholeFits (whole_of m)) }
    ensures list { IfOk result (λ m. IsReadLayer m.contents) }
{
    let scoped = read_scoped(datagram, message)?;
    let security = read_security(datagram, message)?;
    let header = message.header;
    let Some(scoped) = scoped else {
        let contents = Layer::Sealed(message.body.content());
        return Ok(Layers {
            header,
            security,
            contents,
        });
    };
    let pdu = read_pdu(datagram, scoped.data_at, datagram.len())?;
    let contents = Layer::Plain(scoped, pdu);
    Ok(Layers {
        header,
        security,
        contents,
    })
}

/// What is to be written in msgData, or None where it is longer than a datagram can have.
fn measure<'a>(contents: &Layer<'a>) -> Option<Measured<'a>>
    requires { IsReadLayer contents.now }
    ensures same { IfSome result (λ m. measured_parts m ≡ data_parts contents.now) }
    ensures measured { IfSome result IsMeasured }
    ensures none { IfNone result (LARGEST < length (data_content_of (data_parts contents.now))) }
{
    match contents {
        Layer::Sealed(octets) => {
            if octets.len() > LARGEST {
                return None;
            }
            Some(Measured::Sealed(octets))
        }
        Layer::Plain(scoped, pdu) => {
            if scoped.engine.len().max(scoped.name.len()) > LARGEST {
                return None;
            }
            let list_len = list_len(pdu.list)?;
            Some(Measured::Plain(*scoped, *pdu, list_len))
        }
    }
}

/// How many octets the content of msgData has.
fn data_len(contents: &Measured<'_>) -> usize
    requires { IsMeasured contents.now }
    ensures size { result ≡ length (data_content_of (measured_parts contents.now)) }
    ensures most { result ≤ 6 * LARGEST }
{
    match contents {
        Measured::Sealed(octets) => octets.len(),
        Measured::Plain(scoped, pdu, list_len) => {
            contexts_len(scoped.engine, scoped.name, pdu_len(pdu, *list_len))
        }
    }
}

/// Appends a PDU, in the shortest spelling.
fn put_pdu(out: &mut Vec<u8>, pdu: &Pdu<'_>, list_len: usize) -> Result<(), AllocError>
    requires list { after_variables pdu.now.list.now ≡ [] }
    requires size { list_len ≡ length (variables_text (variables_of pdu.now.list.now)) }
    requires within { list_len ≤ LARGEST }
    ensures ok { OnOk result (out.new.items
        ≡ out.old.items ++ pdu_text (respelled (pdu_of pdu.now))) }
{
    put_pdu_front(out, pdu, list_len)?;
    put_list(out, pdu.list)?;
    Ok(())
}

/// Appends msgData.
fn put_data(out: &mut Vec<u8>, contents: &Measured<'_>) -> Result<(), AllocError>
    requires { IsMeasured contents.now }
    ensures ok { OnOk result
        (out.new.items ≡ out.old.items
        ++ element (data_tag_of (measured_parts contents.now)) (data_content_of (measured_parts contents.now))) }
{
    let size = data_len(contents);
    match contents {
        Measured::Sealed(octets) => put_tlv(out, OCTET_STRING, octets),
        Measured::Plain(scoped, pdu, list_len) => {
            put_head(out, SEQUENCE, size)?;
            put_contexts(out, scoped.engine, scoped.name)?;
            put_pdu(out, pdu, *list_len)?;
            Ok(())
        }
    }
}

/// Writes the message into `size` octets of memory.
#[tactic(auto, unfolding(crate::specs::Canonical::whole_text))]
fn spell_layers(
    alloc: Global,
    header: &Header,
    security: &Security<'_>,
    contents: &Measured<'_>,
    size: usize,
) -> Result<Vec<u8>, AllocError>
    requires fits { WholeFits (message_with header.now (fields_of security.now)
        (measured_parts contents.now)) }
    requires short { IsShort (fields_of security.now) }
    requires measured { IsMeasured contents.now }
    requires within { length
        (whole_text (message_with header.now (fields_of security.now)
        (measured_parts contents.now))) ≤ LARGEST }
    ensures { IfOk result
        (λ v. v.items ≡ whole_text
        (message_with header.now (fields_of security.now) (measured_parts contents.now))) }
{
    let security_len = security_len(security);
    let data_len = data_len(contents);
    let mut out = Vec::with_capacity(alloc, size)?;
    put_front(&mut out, header, security_len, data_len)?;
    put_security(&mut out, security)?;
    put_data(&mut out, contents)?;
    Ok(out)
}

/// The message with these layers, in its canonical spelling: every length is the shortest, the ignored bits
/// of msgFlags are 0, and all other fields are as read. The MAC isn't computed again.
///
/// The layers are `read_layers`'s. The error TooLarge (16) comes exactly where the spelling is longer than
/// 65,507 octets, and OutOfMemory only where it isn't.
pub fn write_layers(alloc: Global, layers: &Layers<'_>) -> Result<Vec<u8>, RefusedAt>
    requires fits { WholeFits (whole_of layers.now) }
    requires read { IsReadLayer layers.now.contents }
    ensures ok { IfOk result (λ v. v.items ≡ whole_text (whole_of layers.now)) }
    ensures size { IfOk result (λ v. length v.items ≤ LARGEST) }
    ensures refusal { IfErr result (λ e. IsWriteRefusal e.refusal) }
    ensures too_large { IsRefused result TooLarge
        → LARGEST < length (whole_text (whole_of layers.now)) }
    ensures memory { IsRefused result OutOfMemory
        → length (whole_text (whole_of layers.now)) ≤ LARGEST }
{
    if !is_short(&layers.security) {
        return Err(RefusedAt::plain(Refusal::TooLarge));
    }
    let Some(contents) = measure(&layers.contents) else {
        return Err(RefusedAt::plain(Refusal::TooLarge));
    };
    let security_len = security_len(&layers.security);
    let data_len = data_len(&contents);
    if security_len.max(data_len) > LARGEST {
        return Err(RefusedAt::plain(Refusal::TooLarge));
    }
    let size = message_len(&layers.header, security_len, data_len);
    if size > LARGEST {
        return Err(RefusedAt::plain(Refusal::TooLarge));
    }
    let out = spell_layers(alloc, &layers.header, &layers.security, &contents, size)?;
    Ok(out)
}

/// The canonical spelling of the message that the datagram is: every length is the shortest, the ignored bits
/// of msgFlags are 0, and all other fields are as read. The MAC isn't computed again.
///
/// The layers are read in the order message, msgData, msgSecurityParameters and, where the priv flag is
/// clear, PDU. The error is that of the first that refuses, and comes exactly where one does. TooLarge
/// (16) comes exactly where the spelling is longer than 65,507 octets, and OutOfMemory only where there is a
/// spelling that isn't. Neither the security model nor priv without auth is looked at.
pub fn canonical(alloc: Global, datagram: &[u8]) -> Result<Vec<u8>, RefusedAt>
    ensures exact { MatchResult result (λ v. IsCanonical datagram.now v.items)
        (λ e. RefusesCanonical datagram.now e.refusal) }
    ensures size { IfOk result (λ v. length v.items ≤ LARGEST) }
{
    let message = read_message(datagram)?;
    let layers = read_layers(datagram, &message)?;
    let out = write_layers(alloc, &layers)?;
    Ok(out)
}
