//! msgSecurityParameters of the user-based security model (RFC 3414, section 2.4).

ghost use Rattle.std.specs.Prelude.{◌≡◌, ℕ, ◌+◌, ◌*◌, ◌<◌, ◌≤◌, ◌++◌, length, slice_range, take, drop, option_map};
ghost use Rattle.std.specs.Prelude.{IfErr, IfOk, OnOk, OnErr, MatchResult, IsTrue, ◌↔◌};
ghost use Rattle.std.specs.Result.{result_ok};
ghost use Rattle.snmp_message.specs.Layout.{Parts, Outer};
ghost use Rattle.snmp_message.specs.Message.{parts};
ghost use Rattle.snmp_message.specs.Security.{Fields, SecText, IsCut, fields_in, security_in, fields_of, FieldsFit};
ghost use Rattle.snmp_message.specs.Security.{IsShort, fields_text, security_text, placed};
ghost use Rattle.snmp_message.specs.declared.refusal.Refusal.TheVariants.{OutOfMemory, TooLarge};
ghost use Rattle.snmp_message.specs.Refusals.{IsRefused, IsWriteRefusal, RefusesSecurity};

use crate::field::{OCTET_STRING, SEQUENCE, element_len, integer_len, read_element, read_number};
use crate::message::{LARGEST, Message};
use crate::refusal::Refusal;
use crate::refused_at::RefusedAt;
use snmp_ber::{BerFault, put_head, put_int, put_tlv};
use std::alloc::{AllocError, Global};

/// What msgSecurityParameters say.
#[derive(Clone, Copy, Debug, PartialEq, Eq)]
pub struct Security<'a> {
    /// msgAuthoritativeEngineID.
    pub engine: &'a [u8],
    /// msgAuthoritativeEngineBoots, from 0 to 2,147,483,647.
    pub boots: u32,
    /// msgAuthoritativeEngineTime in seconds, from 0 to 2,147,483,647.
    pub time: u32,
    /// msgUserName, at most 32 octets.
    pub user: &'a [u8],
    /// msgAuthenticationParameters.
    pub auth: &'a [u8],
    /// The place in the datagram of the content of msgAuthenticationParameters, counted from 0.
    pub auth_at: usize,
    /// msgPrivacyParameters.
    pub salt: &'a [u8],
}

/// The fields in the content of the SEQUENCE.
#[tactic(auto, unfolding(crate::specs::Security::fields_in))]
fn read_fields(datagram: &[u8], at: usize, end: usize) -> Result<Security<'_>, BerFault>
    requires start { at ≤ end }
    requires within { end ≤ length datagram.now }
    ensures { option_map fields_of (result_ok result)
        ≡ fields_in end (slice_range datagram.now at end) }
{
    let engine = read_element(datagram, at, end, OCTET_STRING)?;
    let (boots, at) = read_number(datagram, engine.end, end, 0)?;
    let (time, at) = read_number(datagram, at, end, 0)?;
    let user = read_element(datagram, at, end, OCTET_STRING)?;
    if user.content.len() > 32 {
        return Err(BerFault { at });
    }
    let auth = read_element(datagram, user.end, end, OCTET_STRING)?;
    let salt = read_element(datagram, auth.end, end, OCTET_STRING)?;
    if salt.end < end {
        return Err(BerFault { at: salt.end });
    }
    Ok(Security {
        engine: engine.content,
        boots,
        time,
        user: user.content,
        auth: auth.content,
        auth_at: auth.body,
        salt: salt.content,
    })
}

/// The fields of the octets between two places, all of them.
#[tactic(auto, unfolding(crate::specs::Security::security_in))]
fn read_parameters(datagram: &[u8], at: usize, end: usize) -> Result<Security<'_>, BerFault>
    requires start { at ≤ end }
    requires within { end ≤ length datagram.now }
    ensures { option_map fields_of (result_ok result)
        ≡ security_in end (slice_range datagram.now at end) }
{
    let whole = read_element(datagram, at, end, SEQUENCE)?;
    let security = read_fields(datagram, whole.body, whole.end)?;
    if whole.end < end {
        return Err(BerFault { at: whole.end });
    }
    Ok(security)
}

/// The fields of msgSecurityParameters. The message is `read_message`'s of this datagram.
///
/// The error is NotSecurity, exactly where the octets of msgSecurityParameters aren't one UsmSecurityParameters. No
/// memory is taken.
pub fn read_security<'a>(
    datagram: &'a [u8],
    message: &Message<'_>,
) -> Result<Security<'a>, RefusedAt>
    requires { Outer datagram.now (parts message.now) }
    ensures exact { MatchResult result
        (λ s. SecText message.now.security_at message.now.security.now (fields_of s))
        (λ e. RefusesSecurity (parts message.now) e.refusal) }
    ensures none { OnErr result
        ((m : Parts) (s : Fields) → Outer datagram.now m → SecText m.security_at m.security s → ⊥) }

    // The places are those of the cut.
    ensures cut { IfOk result (λ s. IsCut datagram.now (parts message.now) (fields_of s)
        (take s.auth_at datagram.now) (drop (s.auth_at + length s.auth.now) datagram.now)) }
    ensures within { IfOk result (λ s. s.auth_at + length s.auth.now ≤ length datagram.now) }
    ensures field { IfOk result (λ s. slice_range datagram.now s.auth_at
        (s.auth_at + length s.auth.now) ≡ s.auth.now) }
{
    let at = message.security_at;
    match read_parameters(datagram, at, at + message.security.len()) {
        Ok(security) => Ok(security),
        Err(fault) => Err(RefusedAt {
            refusal: Refusal::NotSecurity,
            at: Some(fault.at),
        }),
    }
}

/// A datagram in the three pieces that the message authentication code is computed from (RFC 3414, section 6.3.2).
#[derive(Clone, Copy, Debug, PartialEq, Eq)]
pub struct Cut<'a> {
    /// What comes before the content of msgAuthenticationParameters.
    pub front: &'a [u8],
    /// The content of msgAuthenticationParameters.
    pub field: &'a [u8],
    /// What comes after it.
    pub back: &'a [u8],
}

/// Whether each field has at most 65,507 octets, so that it can stand in a datagram.
pub fn is_short(security: &Security<'_>) -> bool
    ensures { IsTrue result ↔ IsShort (fields_of security.now) }
{
    security.engine.len() <= LARGEST
        && security.auth.len() <= LARGEST
        && security.salt.len() <= LARGEST
}

/// How many octets `put_fields` appends.
#[tactic(auto, unfolding(crate::specs::Security::fields_text))]
fn fields_len(security: &Security<'_>) -> usize
    requires fits { FieldsFit (fields_of security.now) }
    requires short { IsShort (fields_of security.now) }
    ensures size { result ≡ length (fields_text (fields_of security.now)) }
    ensures most { result ≤ 4 * LARGEST }
{
    element_len(security.engine.len())
        + integer_len(security.boots as i32)
        + integer_len(security.time as i32)
        + element_len(security.user.len())
        + element_len(security.auth.len())
        + element_len(security.salt.len())
}

/// Appends the content of the SEQUENCE.
#[tactic(auto, unfolding(crate::specs::Security::fields_text))]
fn put_fields(out: &mut Vec<u8>, security: &Security<'_>) -> Result<(), AllocError>
    requires fits { FieldsFit (fields_of security.now) }
    requires short { IsShort (fields_of security.now) }
    ensures ok { OnOk result (out.new.items
        ≡ out.old.items ++ fields_text (fields_of security.now)) }
{
    put_tlv(out, OCTET_STRING, security.engine)?;
    put_int(out, security.boots as i32)?;
    put_int(out, security.time as i32)?;
    put_tlv(out, OCTET_STRING, security.user)?;
    put_tlv(out, OCTET_STRING, security.auth)?;
    put_tlv(out, OCTET_STRING, security.salt)
}

/// How many octets `put_security` appends (RFC 3414, section 2.4).
#[tactic(auto, unfolding(crate::specs::Security::security_text))]
pub fn security_len(security: &Security<'_>) -> usize
    requires fits { FieldsFit (fields_of security.now) }
    requires short { IsShort (fields_of security.now) }
    ensures size { result ≡ length (security_text (fields_of security.now)) }
    ensures most { result ≤ 5 * LARGEST }
{
    element_len(fields_len(security))
}

/// Appends the fields as UsmSecurityParameters (RFC 3414, section 2.4), in the shortest spelling. The error
/// is out of memory, and a front of these may have been appended.
#[tactic(auto, unfolding(crate::specs::Security::security_text))]
pub fn put_security(out: &mut Vec<u8>, security: &Security<'_>) -> Result<(), AllocError>
    requires fits { FieldsFit (fields_of security.now) }
    requires short { IsShort (fields_of security.now) }
    ensures ok { OnOk result (out.new.items
        ≡ out.old.items ++ security_text (fields_of security.now)) }
{
    put_head(out, SEQUENCE, fields_len(security))?;
    put_fields(out, security)
}

/// Writes the fields into `size` octets of memory.
fn spell_security(
    alloc: Global,
    security: &Security<'_>,
    size: usize,
) -> Result<Vec<u8>, AllocError>
    requires fits { FieldsFit (fields_of security.now) }
    requires short { IsShort (fields_of security.now) }
    ensures { IfOk result (λ v. v.items ≡ security_text (fields_of security.now)) }
{
    let mut out = Vec::with_capacity(alloc, size)?;
    put_security(&mut out, security)?;
    Ok(out)
}

/// The fields, in the shortest spelling. Their `auth_at` isn't looked at.
///
/// Boots and time are at most 2,147,483,647 and the user name has at most 32 octets. The error TooLarge (16)
/// comes exactly where the text would be longer than 65,507 octets, unless memory runs out, which is
/// the other error.
pub fn write_security(alloc: Global, security: &Security<'_>) -> Result<Vec<u8>, RefusedAt>
    requires { FieldsFit (fields_of security.now) }
    ensures ok { IfOk result (λ v. v.items ≡ security_text (fields_of security.now)) }
    ensures size { IfOk result (λ v. length v.items ≤ LARGEST) }
    ensures spelled { IfOk result (λ v. (at : ℕ)
        → SecText at v.items (placed at (fields_of security.now))) }
    ensures refusal { IfErr result (λ e. IsWriteRefusal e.refusal) }
    ensures too_large { IsRefused result TooLarge
        → LARGEST < length (security_text (fields_of security.now)) }
    ensures memory { IsRefused result OutOfMemory
        → length (security_text (fields_of security.now)) ≤ LARGEST }
{
    if !is_short(security) {
        return Err(RefusedAt::plain(Refusal::TooLarge));
    }
    let size = security_len(security);
    if size > LARGEST {
        return Err(RefusedAt::plain(Refusal::TooLarge));
    }
    let out = spell_security(alloc, security, size)?;
    Ok(out)
}
