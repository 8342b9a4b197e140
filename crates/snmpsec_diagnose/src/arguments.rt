//! Arguments of `diagnose` that it reads itself.

use diagnose_text::NamedAgent;
use engine_clock::EngineId;
use snmpsec_commands::Complaint;
use std::alloc::Global;
use std::net::{IpAddr, SocketAddr};
use usm_users::UserName;

/// NAME, a user name of at most 32 octets.
pub(crate) fn user_argument(alloc: Global, word: &str) -> Result<UserName, Complaint> {
    let why = "it has over 32 octets";
    match UserName::of(word.as_bytes()) {
        Some(user) => Ok(user),
        None => Err(Complaint::word(alloc, "NAME", word, why, "a user name has at most 32")),
    }
}

/// ENGINE, an engine ID in hex.
pub(crate) fn engine_argument(alloc: Global, word: &str) -> Result<EngineId, Complaint> {
    let why = "it isn't 5 to 32 octets in hex";
    let engine = match hex::decode(alloc, word) {
        Ok(octets) => EngineId::of(&octets),
        Err(_) => None,
    };
    match engine {
        Some(engine) => Ok(engine),
        None => Err(Complaint::word(alloc, "ENGINE", word, why, "write it as 80001f8804616263")),
    }
}

/// AGENT, an address of IP with or without a port.
pub(crate) fn agent_argument(alloc: Global, word: &str) -> Result<NamedAgent, Complaint> {
    if let Ok(socket) = word.parse::<SocketAddr>() {
        return Ok(NamedAgent {
            address: socket.ip(),
            port: Some(socket.port()),
        });
    }
    match word.parse::<IpAddr>() {
        Ok(address) => Ok(NamedAgent {
            address,
            port: None,
        }),
        Err(_) => {
            let why = "it isn't an address, with or without a port";
            let wanted = "write it as 10.0.0.5, 10.0.0.5:161, 2001:db8::5 or [2001:db8::5]:161";
            Err(Complaint::word(alloc, "AGENT", word, why, wanted))
        }
    }
}
