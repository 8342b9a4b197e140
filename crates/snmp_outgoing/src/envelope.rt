//! Envelopes: to whom and how messages are sent.

ghost use Rattle.std.specs.Prelude.{◌≡◌, ◌≤◌, length};
ghost use Rattle.snmp_ber.specs.declared.number.TheConstants.{MAX_INTEGER32};
ghost use Rattle.snmp_outgoing.specs.Bodies.{header_at};

use engine_clock::Pair;
use snmp_ber::Level;
use snmp_msg::{Header, LARGEST, USER_BASED};

/// To whom and how a message is sent.
#[derive(Clone, Copy)]
pub struct Envelope<'a> {
    pub level: Level,
    /// msgID, at most 2147483647.
    pub id: u32,
    /// The reportableFlag of msgFlags: the message asks for reports.
    pub reportable: bool,
    /// msgAuthoritativeEngineID, of any length.
    pub engine: &'a [u8],
    /// msgAuthoritativeEngineBoots and msgAuthoritativeEngineTime.
    pub pair: Pair,
    /// msgUserName, at most 32 octets.
    pub user: &'a [u8],
    /// msgPrivacyParameters at authPriv; the other levels send none.
    pub salt: [u8; 8],
    pub ghost id_fits: { id ≤ MAX_INTEGER32 },
    pub ghost user_fits: { length user.now ≤ 32 },
}

impl<'a> Envelope<'a> {
    /// msgGlobalData of the message. msgMaxSize is 65507.
    pub(crate) fn header(&self) -> Header
        ensures { result ≡ header_at self.now.level self.now.id self.now.reportable }
    {
        Header {
            id: self.id,
            max_size: LARGEST as u32,
            auth: self.level != Level::NoAuthNoPriv,
            privacy: self.level == Level::AuthPriv,
            reportable: self.reportable,
            model: USER_BASED,
        }
    }
}
