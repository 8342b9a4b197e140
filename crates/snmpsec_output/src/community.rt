//! `snmpsec show --community`: messages of version-1 and SNMPv2c beside those of SNMPv3.

ghost use Rattle.std.specs.Prelude.{◌≡◌, ◌≢◌, ◌⊎◌, [], IfOk, MatchResult, string_bytes};
ghost use Rattle.snmp_message.specs.declared.refusal.Refusal.TheVariants as refusals;
ghost use Rattle.snmp_msg.specs.Refusals.{RefusesPdu};
ghost use Rattle.snmp_community.specs.Layout.{IsMessage};
ghost use Rattle.snmp_community.specs.Message.{parts};
ghost use Rattle.snmpsec_output.specs.Community.{SaysCommunity, ShowsAnyVersion, ShowsTextOfAny};
ghost use Rattle.snmpsec_output.specs.Questions.{Printed};

use crate::arguments::bad_digits;
use crate::lines::{pdu_lines, text_line};
use crate::output::Output;
use crate::show::{datagram_of, refused_output, show_datagram};
use snmp_community::{CommunityMessage, Version, read_community_message, read_community_pdu};
use snmp_msg::{Refusal, RefusedAt};
use std::alloc::{AllocError, Global};

/// The version as its messages are called.
fn version_word(version: Version) -> &'static str {
    match version {
        Version::Version1 => "SNMPv1",
        Version::Version2c => "SNMPv2c",
    }
}

/// The lines of a message with a community, which is the one of the datagram, with names if they are asked for. The
/// refusal is that of its PDU, or `OutOfMemory`.
fn community_text(
    alloc: Global,
    names: bool,
    datagram: &[u8],
    message: &CommunityMessage<'_>,
) -> Result<String, RefusedAt>
    requires { IsMessage datagram.now (parts message.now) }
    ensures { MatchResult result (λ text. SaysCommunity datagram.now × (string_bytes text ≢ []))
        (λ refused. (refused.refusal ≡ refusals.OutOfMemory)
        ⊎ RefusesPdu message.now.pdu.now refused.refusal) }
{
    let pdu = read_community_pdu(datagram, message)?;
    let version = version_word(message.version);
    let community = text_line(alloc, names, "community", message.community)?;
    let pdu = pdu_lines(alloc, names, &pdu)?;
    let text = format!(in alloc; "version {version}\n{community}{pdu}")?;
    Ok(text)
}

/// What `snmpsec show --community` prints of a datagram, with names if these are asked for. A message of version-1
/// (RFC 1157) or SNMPv2c (RFC 1901) is printed by the lines `version`, `community`, `pdu`, and `binding` for each
/// variable binding. What `show_datagram` prints is printed of a datagram with another version.
///
/// Such a message is refused in this order: its layout (1), with the place of the octet, and its PDU (5). A Trap-PDU
/// of version-1 has another layout than the PDUs of RFC 3416, and is refused so. `AllocError` if memory runs out.
pub fn show_any_version(alloc: Global, names: bool, datagram: &[u8]) -> Result<Output, AllocError>
    ensures { IfOk result
        (λ output. let printed : Printed = record {
          out = output.out.items;
          err = output.err.items;
          status = output.status;
        } in
        ShowsAnyVersion names datagram.now printed) }
{
    let message = match read_community_message(datagram) {
        Ok(message) => message,
        Err(refused) => {
            return match refused.refusal {
                Refusal::BadVersion => show_datagram(alloc, names, datagram),
                _ => refused_output(alloc, refused, datagram),
            };
        }
    };
    match community_text(alloc, names, datagram, &message) {
        Ok(text) => Ok(Output::out(alloc, text.into_bytes(), 0)),
        Err(refused) => refused_output(alloc, refused, datagram),
    }
}

/// What `snmpsec show --community HEX` prints: `show_any_version` of the datagram. A word that isn't one or more pairs
/// of hex digits is reported on standard error, with status 2. `AllocError` if memory runs out.
pub fn show_any_version_text(alloc: Global, names: bool, digits: &str) -> Result<Output, AllocError>
    ensures { IfOk result
        (λ output. let printed : Printed = record {
          out = output.out.items;
          err = output.err.items;
          status = output.status;
        } in
        ShowsTextOfAny names digits.now printed) }
{
    let Some(datagram) = datagram_of(alloc, digits)? else {
        return bad_digits(alloc, digits);
    };
    show_any_version(alloc, names, &datagram)
}
