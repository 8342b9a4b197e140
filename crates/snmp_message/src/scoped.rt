//! ScopedPDU (RFC 3412, section 6.8).

ghost use Rattle.std.specs.Prelude.{◌≡◌, ℕ, List, ◌+◌, ◌*◌, ◌<◌, ◌≤◌, ◌++◌, length, slice_range, option_map};
ghost use Rattle.std.specs.Prelude.{IfErr, IfOk};
ghost use Rattle.std.specs.Prelude.{IfSome, OnOk, OnErr, MatchOption, MatchResult};
ghost use Rattle.std.specs.Result.{result_ok};
ghost use Rattle.snmp_ber.specs.Element.{IsElement};
ghost use Rattle.snmp_ber.specs.Spelling.{element, head_size};
ghost use Rattle.snmp_message.specs.Layout.{Outer};
ghost use Rattle.snmp_message.specs.Message.{parts};
ghost use Rattle.snmp_message.specs.Scoped.{Contexts, ScopedText, HasScoped, HasSealed, ScopedFront, contexts_in};
ghost use Rattle.snmp_message.specs.Scoped.{contexts_of, contexts_there, scoped_front_in, StandsWithin, IsOneElement};
ghost use Rattle.snmp_message.specs.Scoped.{contexts_size, contexts_text, scoped_text, contexts_placed};
ghost use Rattle.snmp_message.specs.declared.refusal.Refusal.TheVariants.{OutOfMemory, TooLarge};
ghost use Rattle.snmp_message.specs.Refusals.{IsRefused, IsWriteRefusal, RefusesScoped, RefusesFront};

use crate::field::{OCTET_STRING, SEQUENCE, element_len, read_element};
use crate::message::{Data, LARGEST, Message};
use crate::refusal::Refusal;
use crate::refused_at::RefusedAt;
use snmp_ber::{BerFault, put_head, put_tlv, read_tlv};
use std::alloc::{AllocError, Global};

/// What a ScopedPDU says.
#[derive(Clone, Copy, Debug, PartialEq, Eq)]
pub struct Scoped<'a> {
    /// contextEngineID.
    pub engine: &'a [u8],
    /// contextName.
    pub name: &'a [u8],
    /// The data, one whole element.
    pub pdu: &'a [u8],
    /// The place of the data's first octet, counted from 0 in what was read.
    pub data_at: usize,
}

/// Where the parts of a ScopedPDU stand in the octets that it was read in, counted from 0. Once it was read,
/// no octet of its heads is read again.
#[derive(Clone, Copy, Debug, PartialEq, Eq)]
pub struct ScopedPlace {
    /// The place of contextEngineID's first octet.
    pub engine_at: usize,
    /// The place after its last octet.
    pub engine_end: usize,
    /// The place of contextName's first octet. It ends where the data begins.
    pub name_at: usize,
    /// The place of the data's first octet.
    pub data_at: usize,
    /// The place after its last octet.
    pub end: usize,
}

impl ScopedPlace {
    /// The parts, lent from the octets that they were read in. It takes no memory.
    pub fn lent<'a>(&self, octets: &'a [u8]) -> Scoped<'a>
        requires { StandsWithin (length octets.now) self.now }
        ensures engine { result.engine.now
            ≡ slice_range octets.now self.now.engine_at self.now.engine_end }
        ensures name { result.name.now ≡ slice_range octets.now self.now.name_at self.now.data_at }
        ensures pdu { result.pdu.now ≡ slice_range octets.now self.now.data_at self.now.end }
        ensures data_at { result.data_at ≡ self.now.data_at }
        ensures ends { result.data_at + length result.pdu.now ≡ self.now.end }
    {
        Scoped {
            engine: &octets[self.engine_at..self.engine_end],
            name: &octets[self.name_at..self.data_at],
            pdu: &octets[self.data_at..self.end],
            data_at: self.data_at,
        }
    }
}

/// The places of the ScopedPDU whose content is between two places.
#[tactic(auto, unfolding(crate::specs::Scoped::contexts_in))]
fn place_contexts(octets: &[u8], at: usize, end: usize) -> Result<ScopedPlace, BerFault>
    requires start { at ≤ end }
    requires within { end ≤ length octets.now }
    ensures value { option_map (contexts_there octets.now) (result_ok result)
        ≡ contexts_in end (slice_range octets.now at end) }
    ensures stands { IfOk result (λ p. StandsWithin (length octets.now) p) }
    ensures ends { IfOk result (λ p. p.end ≡ end) }
{
    let engine = read_element(octets, at, end, OCTET_STRING)?;
    let name = read_element(octets, engine.end, end, OCTET_STRING)?;
    let pdu = read_tlv(octets, name.end, end)?;
    if pdu.end < end {
        return Err(BerFault { at: pdu.end });
    }
    Ok(ScopedPlace {
        engine_at: engine.body,
        engine_end: engine.end,
        name_at: name.body,
        data_at: name.end,
        end,
    })
}

/// The ScopedPDU whose content is between two places.
fn read_contexts(octets: &[u8], at: usize, end: usize) -> Result<Scoped<'_>, BerFault>
    requires start { at ≤ end }
    requires within { end ≤ length octets.now }
    ensures value { option_map contexts_of (result_ok result)
        ≡ contexts_in end (slice_range octets.now at end) }
    ensures ends { IfOk result (λ s. s.data_at + length s.pdu.now ≡ end) }
    ensures place { IfOk result (λ s. s.pdu.now ≡ slice_range octets.now s.data_at end) }
{
    let place = place_contexts(octets, at, end)?;
    Ok(place.lent(octets))
}

/// The ScopedPDU of a message whose priv flag is clear, and None for the sealed octets of one whose priv flag
/// is set. The message is `read_message`'s of this datagram.
///
/// The error is NotScoped, exactly where msgData isn't an OCTET STRING though priv is set, isn't a SEQUENCE
/// though priv is clear, or is a SEQUENCE that isn't one ScopedPDU. No memory is taken.
pub fn read_scoped<'a>(
    datagram: &'a [u8],
    message: &Message<'_>,
) -> Result<Option<Scoped<'a>>, RefusedAt>
    requires { Outer datagram.now (parts message.now) }
    ensures exact { MatchResult result
        (λ found. MatchOption found (HasSealed (parts message.now))
        (λ s. HasScoped datagram.now (parts message.now) (contexts_of s)))
        (λ e. RefusesScoped datagram.now (parts message.now) e.refusal) }
    ensures none { OnErr result
        ((HasSealed (parts message.now) → ⊥)
        × ((s : Contexts) → HasScoped datagram.now (parts message.now) s → ⊥)) }
    ensures within { IfOk result (λ found. IfSome found
        (λ s. s.data_at + length s.pdu.now ≡ length datagram.now)) }
    ensures place { IfOk result
        (λ found. IfSome found (λ s. s.pdu.now
        ≡ slice_range datagram.now s.data_at (length datagram.now))) }
    ensures element { IfOk result (λ found. IfSome found (λ s. IsOneElement s.pdu.now)) }
{
    match (message.header.privacy, message.body) {
        (true, Data::Sealed(_)) => Ok(None),
        (false, Data::Plain(content)) => {
            match read_contexts(datagram, datagram.len() - content.len(), datagram.len()) {
                Ok(scoped) => Ok(Some(scoped)),
                Err(fault) => Err(RefusedAt {
                    refusal: Refusal::NotScoped,
                    at: Some(fault.at),
                }),
            }
        }
        _ => Err(RefusedAt {
            refusal: Refusal::NotScoped,
            at: Some(message.data_at),
        }),
    }
}

/// The places of the ScopedPDU in front of the octets.
#[tactic(auto, unfolding(crate::specs::Scoped::scoped_front_in))]
fn place_front(plaintext: &[u8]) -> Result<ScopedPlace, BerFault>
    ensures value { option_map (contexts_there plaintext.now) (result_ok result)
        ≡ scoped_front_in plaintext.now }
    ensures stands { IfOk result (λ p. StandsWithin (length plaintext.now) p) }
{
    let whole = read_element(plaintext, 0, plaintext.len(), SEQUENCE)?;
    place_contexts(plaintext, whole.body, whole.end)
}

/// Where the parts of the ScopedPDU stand that decrypted octets begin with. What follows it is padding, and
/// isn't looked at.
///
/// The error is NotScoped, exactly where no front of the octets is a ScopedPDU; its place counts in the plaintext. No
/// memory is taken.
pub fn place_scoped_front(plaintext: &[u8]) -> Result<ScopedPlace, RefusedAt>
    ensures exact { MatchResult result
        (λ p. ScopedFront plaintext.now (contexts_there plaintext.now p))
        (λ e. RefusesFront plaintext.now e.refusal) }
    ensures none { OnErr result ((s : Contexts) → ScopedFront plaintext.now s → ⊥) }
    ensures stands { IfOk result (λ p. StandsWithin (length plaintext.now) p) }
    ensures element { IfOk result (λ p. IsOneElement (slice_range plaintext.now p.data_at p.end)) }
{
    match place_front(plaintext) {
        Ok(place) => Ok(place),
        Err(fault) => Err(RefusedAt {
            refusal: Refusal::NotScoped,
            at: Some(fault.at),
        }),
    }
}

/// The ScopedPDU that decrypted octets begin with. What follows it is padding, and isn't looked at.
///
/// The error is NotScoped, exactly where no front of the octets is a ScopedPDU; its place counts in the plaintext. No
/// memory is taken.
pub fn read_scoped_front(plaintext: &[u8]) -> Result<Scoped<'_>, RefusedAt>
    ensures exact { MatchResult result (λ s. ScopedFront plaintext.now (contexts_of s))
        (λ e. RefusesFront plaintext.now e.refusal) }
    ensures none { OnErr result ((s : Contexts) → ScopedFront plaintext.now s → ⊥) }
    ensures within { IfOk result (λ s. s.data_at + length s.pdu.now ≤ length plaintext.now) }
    ensures place { IfOk result (λ s. s.pdu.now
        ≡ slice_range plaintext.now s.data_at (s.data_at + length s.pdu.now)) }
    ensures element { IfOk result (λ s. IsOneElement s.pdu.now) }
{
    let place = place_scoped_front(plaintext)?;
    Ok(place.lent(plaintext))
}

/// How many octets the content of a ScopedPDU has (RFC 3412, section 6.8) whose data has `pdu_len` octets.
pub fn contexts_len(engine: &[u8], name: &[u8], pdu_len: usize) -> usize
    requires engine { length engine.now ≤ LARGEST }
    requires name { length name.now ≤ LARGEST }
    requires pdu { pdu_len ≤ 3 * LARGEST }
    ensures size { result ≡ contexts_size (length engine.now) (length name.now) pdu_len }
    ensures most { result ≤ 6 * LARGEST }
{
    element_len(engine.len()) + element_len(name.len()) + pdu_len
}

/// Appends contextEngineID and contextName. The error is out of memory, and a front of these may have been appended.
pub fn put_contexts(out: &mut Vec<u8>, engine: &[u8], name: &[u8]) -> Result<(), AllocError>
    requires engine { length engine.now ≤ LARGEST }
    requires name { length name.now ≤ LARGEST }
    ensures ok { OnOk result (out.new.items
        ≡ out.old.items ++ (element 4 engine.now ++ element 4 name.now)) }
{
    put_tlv(out, OCTET_STRING, engine)?;
    put_tlv(out, OCTET_STRING, name)
}

/// Writes the ScopedPDU into `size` octets of memory.
#[tactic(auto, unfolding(crate::specs::Scoped::scoped_text))]
fn spell_scoped(
    alloc: Global,
    engine: &[u8],
    name: &[u8],
    pdu: &[u8],
    size: usize,
) -> Result<Vec<u8>, AllocError>
    requires engine { length engine.now ≤ LARGEST }
    requires name { length name.now ≤ LARGEST }
    requires pdu { length pdu.now ≤ LARGEST }
    ensures { IfOk result (λ v. v.items ≡ scoped_text engine.now name.now pdu.now) }
{
    let mut out = Vec::with_capacity(alloc, size)?;
    put_head(&mut out, SEQUENCE, contexts_len(engine, name, pdu.len()))?;
    put_contexts(&mut out, engine, name)?;
    out.extend_from_slice(pdu)?;
    Ok(out)
}

/// A ScopedPDU, in the shortest spelling, around its data, which is one whole element.
///
/// The error TooLarge (16) comes exactly where the text would be longer than 65,507 octets, unless there is
/// out of memory, which is the other error.
pub fn write_scoped(
    alloc: Global,
    engine: &[u8],
    name: &[u8],
    pdu: &[u8],
) -> Result<Vec<u8>, RefusedAt>
    requires { IsOneElement pdu.now }
    ensures ok { IfOk result (λ v. v.items ≡ scoped_text engine.now name.now pdu.now) }
    ensures size { IfOk result (λ v. length v.items ≤ LARGEST) }
    ensures element { IfOk result (λ v. (content : List ℕ) × IsElement 48 content v.items) }
    ensures spelled { IfOk result
        (λ v. ScopedText 0 v.items
        (contexts_placed (head_size (length (contexts_text engine.now name.now pdu.now))) engine.now
        name.now pdu.now)) }
    ensures refusal { IfErr result (λ e. IsWriteRefusal e.refusal) }
    ensures too_large { IsRefused result TooLarge
        → LARGEST < length (scoped_text engine.now name.now pdu.now) }
    ensures memory { IsRefused result OutOfMemory
        → length (scoped_text engine.now name.now pdu.now) ≤ LARGEST }
{
    if engine.len().max(name.len()).max(pdu.len()) > LARGEST {
        return Err(RefusedAt::plain(Refusal::TooLarge));
    }
    let size = element_len(contexts_len(engine, name, pdu.len()));
    if size > LARGEST {
        return Err(RefusedAt::plain(Refusal::TooLarge));
    }
    let out = spell_scoped(alloc, engine, name, pdu, size)?;
    Ok(out)
}
