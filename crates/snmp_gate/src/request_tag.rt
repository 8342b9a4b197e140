//! By which PDU a request asks, and by which message.

ghost use Rattle.std.specs.Prelude.{◌≡◌, MatchOption, Some};
ghost use Rattle.snmp_gate.specs.Messages.{question_in};
ghost use Rattle.snmp_gate.specs.Question.{Question};
ghost use Rattle.snmp_gate.specs.RequestTags.{IsMessageOf, IsNumberOfNone, IsRequestOf, IsTagOf};

use crate::gate::Gate;
use crate::requests::WaitingRequest;
use crate::viewing::pdu_of;
use crate::waiting_message::WaitingMessage;
use crate::work::Work;

/// Returns the place of the request with this number.
fn place_of(requests: &[WaitingRequest<WaitingMessage, Work>], number: u64) -> Option<usize>
    ensures { MatchOption result (IsNumberOfNone requests.now number) (IsRequestOf requests.now number) }
{
    for (place, request) in requests.iter().enumerate() {
        if request.number == number {
            return Some(place);
        }
    }
    None
}

/// Returns the tag of the message's PDU.
fn tag_of(message: &WaitingMessage) -> u8
    ensures { (q : Question) × (question_in message.now ≡ Some q) × (result ≡ q.tag) }
{
    let taken = message.kept.taken();
    pdu_of(&taken).tag
}

impl Gate {
    /// Returns the tag of the PDU by which the messages of the request with this number ask (RFC 3416, section 3).
    /// None: no such request waits. It takes no memory.
    pub fn request_tag(&self, number: u64) -> Option<u8>
        ensures { MatchOption result (IsNumberOfNone self.now.requests.list.items number)
            (IsTagOf self.now.requests.list.items number) }
    {
        let requests = self.requests.requests();
        let place = place_of(requests, number)?;
        Some(tag_of(&requests[place].first))
    }

    /// Returns the first of the messages that ask the request with this number, and weren't answered. None: no such
    /// request waits. It takes no memory.
    pub fn request_message(&self, number: u64) -> Option<&WaitingMessage>
        ensures { MatchOption result (IsNumberOfNone self.now.requests.list.items number)
            (λ message. IsMessageOf self.now.requests.list.items number message.now) }
    {
        let requests = self.requests.requests();
        let place = place_of(requests, number)?;
        Some(&requests[place].first)
    }
}
