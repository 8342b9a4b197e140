//! Words of lines about requests, answers and messages.

ghost use Rattle.std.specs.Prelude.{◌<◌};

use snmp_agent::Unhandled;
use snmp_ber::Oid;
use snmp_gate::{EndedBy, ResponseStatus, read_device_answer};
use snmp_message::{read_message, read_security};
use snmp_msg::{Pdu, PduType, Refusal};
use snmp_walk::{AnswerFault, Misfit, binding_count};
use std::alloc::{AllocError, Global};

/// How many octets of a name a line has.
const MOST_NAME: usize = 130;
/// How many octets of a contextName a line has.
const MOST_CONTEXT: usize = 32;

/// The names of error-status, from 0 on (RFC 3416, section 3).
const STATUSES: [&str; 19] = [
    "noError",
    "tooBig",
    "noSuchName",
    "badValue",
    "readOnly",
    "genErr",
    "noAccess",
    "wrongType",
    "wrongLength",
    "wrongEncoding",
    "wrongValue",
    "noCreation",
    "inconsistentValue",
    "resourceUnavailable",
    "commitFailed",
    "undoFailed",
    "authorizationError",
    "notWritable",
    "inconsistentName",
];

/// Returns a hex digit.
fn digit(value: u8) -> char
    requires { value < 16 }
{
    char::from(if value < 10 { 48 + value } else { 87 + value })
}

/// Returns octets as words: what isn't a printable character of ASCII, and a backslash, is \xNN.
pub(crate) fn octet_words(alloc: Global, octets: &[u8]) -> Result<String, AllocError> {
    let mut text = String::new(alloc);
    for octet in octets {
        let octet = *octet;
        if octet > 0x20 && octet < 0x7f && octet != b'\\' {
            text.push(char::from(octet))?;
        } else {
            text.push_str("\\x")?;
            text.push(digit(octet / 16))?;
            text.push(digit(octet % 16))?;
        }
    }
    Ok(text)
}

/// Returns a contextName as words. The default context has quotes.
pub(crate) fn context_words(alloc: Global, context: &[u8]) -> Result<String, AllocError> {
    if context.is_empty() {
        return String::from_str(alloc, "\"\"");
    }
    octet_words(alloc, context)
}

/// Returns msgUserName, or nothing if the datagram has none.
fn user_in(datagram: &[u8]) -> &[u8] {
    let Ok(message) = read_message(datagram) else {
        return &[];
    };
    match read_security(datagram, &message) {
        Ok(security) => security.user,
        Err(_) => &[],
    }
}

/// Returns the user whom a datagram names, as words. Nobody has shown that it is the sender.
pub(crate) fn named_user(alloc: Global, datagram: &[u8]) -> Result<String, AllocError> {
    let user = user_in(datagram);
    if user.is_empty() {
        return String::from_str(alloc, "(none)");
    }
    octet_words(alloc, user)
}

/// Returns a refusal's name, as NOT_IN_WINDOW.
pub(crate) fn refusal_name(alloc: Global, refusal: Refusal) -> Result<String, AllocError> {
    let mut text = String::new(alloc);
    for letter in refusal.name().chars() {
        if letter.is_ascii_uppercase() && !text.is_empty() {
            text.push('_')?;
        }
        text.push(letter.to_ascii_uppercase())?;
    }
    Ok(text)
}

/// Returns a name as numbers with dots. Of a long one the front is there.
fn name_words(alloc: Global, name: &Oid) -> Result<String, AllocError> {
    let mut text = String::new(alloc);
    for arc in name.as_slice() {
        if text.len() > MOST_NAME {
            text.push_str("..")?;
            return Ok(text);
        }
        if !text.is_empty() {
            text.push('.')?;
        }
        let arc = format!(in alloc; "{arc}")?;
        text.push_str(&arc)?;
    }
    Ok(text)
}

/// Returns the name of the binding at this place, counted from 0.
fn name_at(pdu: &Pdu<'_>, place: usize) -> Option<Oid> {
    let mut left = place;
    for binding in pdu.bindings() {
        if left == 0 {
            return Some(binding.name);
        }
        left -= 1;
    }
    None
}

/// Returns the word for the PDU of a request.
fn pdu_word(tag: u8) -> &'static str {
    match PduType::of(tag) {
        Some(PduType::GetRequest) => "get",
        Some(PduType::GetNextRequest) => "getnext",
        Some(PduType::GetBulkRequest) => "getbulk",
        Some(PduType::SetRequest) => "set",
        _ => "request",
    }
}

/// Returns what a request asks, as "get 1.3.6.1.2.1.1.5.0 and 2 more".
pub(crate) fn asked_words(alloc: Global, pdu: &Pdu<'_>) -> Result<String, AllocError> {
    let word = pdu_word(pdu.tag);
    let Some(name) = name_at(pdu, 0) else {
        return format!(in alloc; "{word} of no variable");
    };
    let name = name_words(alloc, &name)?;
    let more = binding_count(pdu).saturating_sub(1);
    if more == 0 {
        return format!(in alloc; "{word} {name}");
    }
    format!(in alloc; "{word} {name} and {more} more")
}

/// Returns an error-status and an error-index as words.
pub(crate) fn status_words(alloc: Global, says: ResponseStatus) -> Result<String, AllocError> {
    let (status, index) = (says.status, says.index);
    let name = match usize::try_from(status) {
        Ok(place) if place < STATUSES.len() => STATUSES[place],
        Ok(_) | Err(_) => "no such one",
    };
    format!(in alloc; "error-status {status} ({name}), index {index}")
}

/// Returns the counter that counts a message that is answered, or isn't. None: none does.
pub(crate) fn counter_name(ended: EndedBy, is_answered: bool) -> Option<&'static str> {
    match ended {
        EndedBy::Unhandled(Unhandled::NoRequest) | EndedBy::Silence => None,
        EndedBy::Unhandled(Unhandled::UnknownPduHandlers) => Some("snmpUnknownPDUHandlers"),
        EndedBy::Unhandled(Unhandled::UnavailableContexts) => Some("snmpUnavailableContexts"),
        EndedBy::Unhandled(Unhandled::UnknownContexts) => Some("snmpUnknownContexts"),
        EndedBy::Answer | EndedBy::Repeated | EndedBy::RoundsUsedUp if is_answered => None,
        EndedBy::Answer | EndedBy::Repeated | EndedBy::RoundsUsedUp => {
            Some("snmpSilentDrops: even an answer without bindings is too long")
        }
    }
}

/// Returns why an answer's bindings don't answer what was asked.
pub(crate) fn fault_words(
    alloc: Global,
    fault: AnswerFault,
    datagram: &[u8],
) -> Result<String, AllocError> {
    let Some(answer) = read_device_answer(datagram) else {
        return String::from_str(alloc, "it can't be read");
    };
    let count = binding_count(&answer.pdu);
    match fault {
        AnswerFault::TooFew => format!(in alloc; "it has {count} bindings, too few"),
        AnswerFault::TooMany => format!(in alloc; "it has {count} bindings, too many"),
        AnswerFault::AtBinding(place, misfit) => {
            let name = match name_at(&answer.pdu, place) {
                Some(name) => name_words(alloc, &name)?,
                None => String::new(alloc),
            };
            misfit_words(alloc, place.saturating_add(1), &name, misfit)
        }
    }
}

/// Returns what is wrong with the binding of this number and name.
fn misfit_words(
    alloc: Global,
    number: usize,
    name: &str,
    misfit: Misfit,
) -> Result<String, AllocError> {
    match misfit {
        Misfit::OtherName => {
            format!(in alloc; "binding {number} is {name}, which isn't what was asked")
        }
        Misfit::NotAfter => {
            format!(in alloc; "binding {number} is {name}, which isn't after what was asked")
        }
        Misfit::NotValue => {
            format!(in alloc; "binding {number}, {name}, has no value that can be read")
        }
        Misfit::AfterEnd => {
            format!(in alloc; "binding {number}, {name}, has a value behind endOfMibView")
        }
    }
}

/// Returns in which context a request asks.
pub(crate) fn in_context(alloc: Global, context: &[u8]) -> Result<String, AllocError> {
    let octets = context.len();
    if octets > MOST_CONTEXT {
        return format!(in alloc; ", a context of {octets} octets");
    }
    let context = context_words(alloc, context)?;
    format!(in alloc; ", context {context}")
}
