//! What is copied of what a gateway has.

ghost use Rattle.std.specs.Prelude.{◌≡◌};
ghost use Rattle.snmp_c.specs.GateCalls.{gate_copied_of};

use gate_handles::GateText;

/// What is copied of what a gateway has.
#[derive(Clone, Copy)]
pub(crate) enum GateCopied {
    /// The datagram that is to be sent.
    Message,
    /// The address of the client whose message is answered, or isn't.
    Client,
    /// The address of the client that asks a request.
    Asker,
    /// What the configuration says at a position.
    Setting(GateText),
}

impl GateCopied {
    /// What has these numbers: 0 the datagram, 1 its client, 2 the client of a request, and 3 the setting by its own
    /// number, as `GateText::of` has it.
    pub(crate) fn of(what: u32, setting: u32) -> Option<GateCopied>
        ensures { result ≡ gate_copied_of what setting }
    {
        match what {
            0 => Some(GateCopied::Message),
            1 => Some(GateCopied::Client),
            2 => Some(GateCopied::Asker),
            3 => GateText::of(setting).map(GateCopied::Setting),
            _ => None,
        }
    }
}
