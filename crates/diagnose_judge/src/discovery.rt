//! Discoveries (RFC 3414, section 4).

ghost use Rattle.std.specs.Prelude.{MatchBool};
ghost use Rattle.diagnose_judge.specs.Judging.{IsDiscovery};

use snmp_msg::{one_cut, one_message, read_message, read_security};

/// Whether the datagram is a message without authentication whose engine ID is empty.
pub(crate) fn is_discovery(datagram: &[u8]) -> bool
    ensures { MatchBool result (IsDiscovery datagram.now) (IsDiscovery datagram.now → ⊥) }
{
    one_message();
    one_cut();
    let Ok(message) = read_message(datagram) else {
        return false;
    };
    let Ok(security) = read_security(datagram, &message) else {
        return false;
    };
    if message.header.auth {
        return false;
    }
    security.engine.is_empty()
}
