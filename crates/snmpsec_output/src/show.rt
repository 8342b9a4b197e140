//! `snmpsec show`: what a message says, a field a line, and its canonical spelling.

ghost use Rattle.std.specs.Prelude.{◌≡◌, ◌≢◌, [], false, Ok, IfOk, OnOk, IsNone, MatchOption, MatchResult};
ghost use Rattle.std.specs.Prelude.{string_bytes};
ghost use Rattle.hex.specs.Hex.{decode_of};
ghost use Rattle.snmp_msg.specs.Canonical.{Says, WholeFits, IsReadLayer, whole_of};
ghost use Rattle.snmp_message.specs.declared.refusal.Refusal.TheVariants as refusals;
ghost use Rattle.hex.specs.declared.FromHexError.TheVariants as hex_faults;
ghost use Rattle.snmpsec_output.specs.Show.{IsUsmMessage, Shows, RefusesShow, IsNoHex, ShowsDatagram, ShowsText};
ghost use Rattle.snmpsec_output.specs.Show.{contents_lines};
ghost use Rattle.snmpsec_output.specs.Lines.{IsUnnamed};
ghost use Rattle.snmpsec_output.specs.Questions.{Printed};
ghost use Rattle.snmpsec_output.specs.Refusals.{refused_line};

use crate::arguments::bad_digits;
use crate::causes::cause_of;
use crate::lines::{message_lines, octets_line, scoped_lines};
use crate::output::Output;
use crate::refusal_text::RefusalText;
use hex::FromHexError;
use snmp_msg::{
    Layer, Layers, Refusal, RefusedAt, USER_BASED, read_layers, read_message, write_layers,
};
use std::alloc::{AllocError, Global};

/// The lines of msgData: sealed octets, or the contexts and the PDU.
fn contents_lines(alloc: Global, names: bool, contents: &Layer<'_>) -> Result<String, AllocError>
    ensures { IfOk result (λ text. IsUnnamed names (contents_lines contents.now)
        (string_bytes text)) }
{
    match contents {
        Layer::Sealed(octets) => octets_line(alloc, "sealed", octets),
        Layer::Plain(scoped, pdu) => scoped_lines(alloc, names, scoped, pdu),
    }
}

/// What a message says in all its layers, or why it isn't shown.
fn read_shown(datagram: &[u8]) -> Result<Layers<'_>, RefusedAt>
    ensures exact { MatchResult result
        (λ m. IsUsmMessage datagram.now × Says datagram.now (whole_of m))
        (λ refused. RefusesShow datagram.now refused.refusal) }
    ensures fits { IfOk result (λ m. WholeFits (whole_of m)) }
    ensures list { IfOk result (λ m. IsReadLayer m.contents) }
{
    let message = read_message(datagram)?;
    let header = message.header;
    if header.model != USER_BASED {
        return Err(RefusedAt::plain(Refusal::UnknownModel));
    }
    let Some(_level) = header.level() else {
        return Err(RefusedAt::plain(Refusal::InvalidFlags));
    };
    let layers = read_layers(datagram, &message)?;
    Ok(layers)
}

/// The lines of what the datagram says, and of its canonical spelling.
fn message_text(alloc: Global, names: bool, datagram: &[u8]) -> Result<String, RefusedAt>
    ensures { MatchResult result (λ text. Shows names datagram.now (string_bytes text))
        (λ refused. RefusesShow datagram.now refused.refusal) }
{
    let layers = read_shown(datagram)?;
    let message = message_lines(alloc, names, &layers.header, &layers.security)?;
    let contents = contents_lines(alloc, names, &layers.contents)?;
    let spelling = write_layers(alloc, &layers)?;
    let digits = hex::encode(alloc, spelling.as_slice())?;
    let text = format!(in alloc; "{message}{contents}canonical {digits}\n")?;
    Ok(text)
}

/// The octets that one or more pairs of hex digits write, in either case.
pub(crate) fn datagram_of(alloc: Global, digits: &str) -> Result<Option<Vec<u8>>, AllocError>
    ensures { IfOk result
        (λ found. MatchOption found (IsNoHex digits.now)
        (λ octets. decode_of digits.now ≡ Ok octets.items)) }
{
    if digits.is_empty() {
        return Ok(None);
    }
    match hex::decode(alloc, digits) {
        Ok(octets) => Ok(Some(octets)),
        Err(fault) => no_octets(fault),
    }
}

/// No octets, unless it was memory that was missing.
fn no_octets(fault: FromHexError) -> Result<Option<Vec<u8>>, AllocError>
    ensures nothing { IfOk result (λ found. IsNone found) }
    ensures cause { OnOk result (fault ≢ hex_faults.OutOfMemory) }
{
    match fault {
        FromHexError::OutOfMemory => Err(AllocError),
        _ => Ok(None),
    }
}

/// What `snmpsec show HEX` prints, without names: `show_named` prints them too.
///
/// A message is refused in this order: its outer layout (1, 2), a security model other than the user-based
/// one (17), priv without auth (18), msgData (4), msgSecurityParameters (3), the PDU (5), and a canonical
/// spelling of over 65,507 octets (16). A refusal is a line on standard output, with status 1. A word that
/// isn't one or more pairs of hex digits is reported on standard error, with status 2.
pub fn show_text(alloc: Global, digits: &str) -> Result<Output, AllocError>
    ensures { IfOk result
        (λ output. let printed : Printed = record {
          out = output.out.items;
          err = output.err.items;
          status = output.status;
        } in
        ShowsText false digits.now printed) }
{
    show_named(alloc, false, digits)
}

/// What `snmpsec show HEX` prints, with names after the lines if these are asked for. The refusals are those of
/// `show_text`.
pub fn show_named(alloc: Global, names: bool, digits: &str) -> Result<Output, AllocError>
    ensures { IfOk result
        (λ output. let printed : Printed = record {
          out = output.out.items;
          err = output.err.items;
          status = output.status;
        } in
        ShowsText names digits.now printed) }
{
    let Some(datagram) = datagram_of(alloc, digits)? else {
        return bad_digits(alloc, digits);
    };
    show_datagram(alloc, names, &datagram)
}

/// What `snmpsec show` prints of a datagram: its lines with status 0, with names if these are asked for, or the
/// line of its refusal with status 1.
pub fn show_datagram(alloc: Global, names: bool, datagram: &[u8]) -> Result<Output, AllocError>
    ensures { IfOk result
        (λ output. let printed : Printed = record {
          out = output.out.items;
          err = output.err.items;
          status = output.status;
        } in
        ShowsDatagram names datagram.now printed) }
{
    match message_text(alloc, names, datagram) {
        Ok(text) => Ok(Output::out(alloc, text.into_bytes(), 0)),
        Err(refused) => refused_output(alloc, refused, datagram),
    }
}

/// The line for a refused message, with what it comes from.
/// `AllocError` if memory runs out.
pub(crate) fn refused_output(
    alloc: Global,
    refused: RefusedAt,
    datagram: &[u8],
) -> Result<Output, AllocError>
    ensures line { IfOk result (λ output. output.out.items ≡ refused_line refused) }
    ensures err { IfOk result (λ output. output.err.items ≡ []) }
    ensures status { IfOk result (λ output. output.status ≡ 1) }
    ensures no_memory { OnOk result (refused.refusal ≢ refusals.OutOfMemory) }
{
    if refused.refusal == Refusal::OutOfMemory {
        return Err(AllocError);
    }
    let why = Some(cause_of(alloc, refused.refusal, datagram)?);
    let text = RefusalText { refused };
    let line = format!(in alloc; "{text}\n")?;
    Ok(Output::refuse(alloc, line, why))
}
