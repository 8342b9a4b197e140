//! Messages of clients that wait for their Responses.

ghost use Rattle.std.specs.Prelude.{◌≡◌, ◌↔◌, IsTrue, Some};
ghost use Rattle.snmp_incoming.specs.Answers.{given_of};
ghost use Rattle.snmp_gate.specs.Question.{question_of};
ghost use Rattle.snmp_gate.specs.Messages.{question_given, question_in};

use crate::client_message::ClientMessage;
use snmp_incoming::{Kept, Taken};

/// An accepted message that waits for its Response, and the client from which it came.
#[derive(Drop)]
pub struct WaitingMessage {
    /// The address of the client, of any octets.
    pub client: Vec<u8>,
    /// How many octets its datagram has.
    pub size: usize,
    /// The SHA-256 digest of its datagram, if it is a Set.
    pub digest: Option<[u8; 32]>,
    /// What was accepted.
    pub kept: Kept,
}

/// Returns who asks by an accepted message, and what.
pub(crate) fn message_of<'a>(client: &'a [u8], taken: &'a Taken<'_>) -> ClientMessage<'a>
    ensures { question_given client.now (given_of taken.now) ≡ Some (question_of result) }
{
    let scoped = taken.scoped();
    ClientMessage {
        client,
        user: taken.user,
        level: taken.level,
        engine: scoped.engine,
        context: scoped.name,
        pdu: taken.pdu(),
    }
}

impl WaitingMessage {
    /// Returns true if both messages ask the same, as `ClientMessage::asks_again` says. It takes no memory.
    pub fn asks_again(&self, other: &WaitingMessage) -> bool
        ensures { IsTrue result ↔ (question_in self.now ≡ question_in other.now) }
    {
        let taken = self.kept.taken();
        let others = other.kept.taken();
        let first = message_of(self.client.as_slice(), &taken);
        first.asks_again(&message_of(other.client.as_slice(), &others))
    }
}
