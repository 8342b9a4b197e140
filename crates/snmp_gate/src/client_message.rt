//! Messages of clients, and which of them ask the same.

ghost use Rattle.std.specs.Prelude.{◌≡◌, ◌↔◌, IsTrue};
ghost use Rattle.snmp_gate.specs.Question.{question_of};

use snmp_ber::Level;
use snmp_msg::Pdu;

/// An accepted message, and the client from which it came: who asks, and what.
#[derive(Clone, Copy)]
pub struct ClientMessage<'a> {
    /// The address of the client, of any octets.
    pub client: &'a [u8],
    /// msgUserName.
    pub user: &'a [u8],
    pub level: Level,
    /// contextEngineID.
    pub engine: &'a [u8],
    /// contextName.
    pub context: &'a [u8],
    pub pdu: Pdu<'a>,
}

impl ClientMessage<'_> {
    /// Returns true if both messages ask the same: they are of one client, one user, one security level and one
    /// context, and their PDUs differ in request-id at most. So do messages by which a client asks again. Each of them
    /// has a msgID of its own, and some clients take another request-id too.
    pub fn asks_again(&self, other: &ClientMessage<'_>) -> bool
        ensures { IsTrue result ↔ (question_of self.now ≡ question_of other.now) }
    {
        self.client == other.client
            && self.user == other.user
            && self.level == other.level
            && self.engine == other.engine
            && self.context == other.context
            && self.pdu.tag == other.pdu.tag
            && self.pdu.second == other.pdu.second
            && self.pdu.third == other.pdu.third
            && self.pdu.list == other.pdu.list
    }
}
