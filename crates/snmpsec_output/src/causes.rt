//! What the refusal of a datagram comes from, in words.

use crate::messages::cut_message;
use snmp_msg::{Refusal, read_message, read_security};
use snmpsec_access::quoted_text;
use snmpsec_causes::cause;
use std::alloc::{AllocError, Global};

/// What a refusal of this datagram comes from: that it is cut, or else which password of which user is wrong or
/// missing, or else what such a refusal mostly comes from. The error is out of memory.
pub(crate) fn cause_of(
    alloc: Global,
    refusal: Refusal,
    datagram: &[u8],
) -> Result<String, AllocError> {
    if let Some(cut) = cut_message(datagram) {
        return format!(in alloc; "{cut}");
    }
    let user = user_of(alloc, datagram)?;
    match refusal {
        Refusal::WrongDigest => format!(in alloc; "wrong password or hash for user {user}"),
        Refusal::BadScoped => format!(in alloc; "wrong privacy password or cipher for user {user}"),
        Refusal::UnknownUser => format!(in alloc; "no user {user} in this configuration"),
        Refusal::UnsupportedLevel => {
            format!(in alloc; "user {user} has no password for the level in this configuration")
        }
        other => String::from_str(alloc, cause(other)),
    }
}

/// The user name of a message between quotes, or `""` where it can't be read.
fn user_of(alloc: Global, datagram: &[u8]) -> Result<String, AllocError> {
    quoted_text(alloc, user_in(datagram))
}

/// The octets of the user name in a message, or none where it can't be read.
fn user_in(datagram: &[u8]) -> &[u8] {
    let Ok(message) = read_message(datagram) else {
        return b"";
    };
    match read_security(datagram, &message) {
        Ok(security) => security.user,
        Err(_) => b"",
    }
}
