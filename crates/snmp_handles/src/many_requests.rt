//! Many requests at once (RFC 3412, section 6.2 and section 7.2).

ghost use Rattle.std.specs.Prelude.{◌≡◌, MatchBool, MatchOption};
ghost use Rattle.std.specs.Int.{to_be_bytes, w64};
ghost use Rattle.snmp_message.specs.Scoped.{Contexts, ScopedFront};
ghost use Rattle.snmp_msg.specs.Pdu.{PduParts, PduText};
ghost use Rattle.snmp_requests.specs.Answering.{TellsAnswered};
ghost use Rattle.snmp_handles.specs.Asked.{asking_of};
ghost use Rattle.snmp_handles.specs.Managers.{IsOutOfRange};
ghost use Rattle.snmp_handles.specs.ManyRequests.{AsksHeld, DiscoversMany, FindsAnswer, GivesUp};
ghost use Rattle.snmp_handles.specs.ManyRequests.{HasNoRoom, HasRoom, WritesAsk};

use crate::fault::CallFault;
use crate::in_range::AskedInRange;
use crate::manager::{AskedOf, ManagerHandle, request};
use snmp_ber::MAX_INTEGER32;
use snmp_incoming::Kept;
use snmp_manager::{Manager, Pending};
use snmp_msg::Refusal;
use snmp_requests::{AnsweredRequest, OutstandingRequests, message_id};
use std::alloc::Global;

/// Returns the token of the request that is asked next. None: as many wait as may, or no token is left.
fn token_of(requests: &OutstandingRequests, first: u32) -> Option<u64>
    ensures { MatchOption result (HasNoRoom requests.now first) (HasRoom requests.now first) }
{
    if requests.is_full() {
        return None;
    }
    requests.next_token(first)
}

/// Returns true if each number and each length is in its range.
fn is_in_range(of: &AskedOf<'_>) -> bool
    ensures { MatchBool result (IsOutOfRange (asking_of of.now) → ⊥) (IsOutOfRange (asking_of of.now)) }
{
    match AskedInRange::of(of) {
        Some(_) => true,
        None => false,
    }
}

/// The request that asks this with the msgID of this token, with the bindings that these octets are.
fn write_ask(
    alloc: Global,
    manager: &mut Manager,
    now: u64,
    of: &AskedOf<'_>,
    token: u64,
    list: &[u8],
    salt: [u8; 8],
) -> Result<(Vec<u8>, Pending), CallFault>
    requires { IsOutOfRange (asking_of of.now) → ⊥ }
    ensures answer { WritesAsk manager.old now (asking_of of.now) token list.now salt result }
    ensures same { manager.new ≡ manager.old }
{
    let of = AskedOf {
        id: message_id(token),
        ..*of
    };
    let Some(asked) = AskedInRange::of(&of) else {
        return Err(CallFault::BadArgument);
    };
    request(alloc, manager, now, &asked, list, salt)
}

/// Returns which request the message that was kept answers.
fn take_answer(kept: &Kept, requests: &mut OutstandingRequests) -> Option<AnsweredRequest>
    ensures { (c : Contexts) (p : PduParts) → ScopedFront kept.now.text c → PduText c.pdu p
        → TellsAnswered requests.old kept.now c p result requests.new }
{
    let taken = kept.taken();
    requests.take_answer(&taken)
}

impl ManagerHandle {
    /// Writes a request as `request` does, leaves it to be sent and waits for its answer too, beside all others that
    /// were asked. Returns its token. Its msgID is one that no request has that waits: the first of all has the msgID
    /// of `of`, which is to be random, and each other one the next that is free. On an error nothing changes.
    ///
    /// The errors are, the first that applies: BadArgument; TooManyRequests, where 65,536 wait; and the others of
    /// `request`.
    pub fn ask(
        &mut self,
        now: u64,
        of: &AskedOf<'_>,
        list: &[u8],
        salt: u64,
    ) -> Result<u64, CallFault>
        ensures { AsksHeld self.old now (asking_of of.now) list.now
            (to_be_bytes w64 salt) result self.new }
    {
        if !is_in_range(of) {
            return Err(CallFault::BadArgument);
        }
        let Some(token) = token_of(&self.requests, of.id) else {
            return Err(CallFault::TooManyRequests);
        };
        let salt = salt.to_be_bytes();
        match write_ask(self.alloc, &mut self.manager, now, of, token, list, salt) {
            Ok((text, pending)) => match self.requests.add(token, pending, of.engine, of.user) {
                Ok(()) => {
                    self.message = Some(text);
                    Ok(token)
                }
                Err(_) => Err(CallFault::Refused(Refusal::OutOfMemory)),
            },
            Err(fault) => Err(fault),
        }
    }

    /// Writes the request by which an engine is discovered, as `discover` does, leaves it to be sent and waits for its
    /// answer too. Returns its token, as `ask` does. On an error nothing changes. The errors are BadArgument, where the
    /// first msgID is above 2147483647, TooManyRequests, and out of memory.
    pub fn ask_discovery(&mut self, first: u32) -> Result<u64, CallFault>
        ensures { DiscoversMany self.old first result self.new }
    {
        if first > MAX_INTEGER32 {
            return Err(CallFault::BadArgument);
        }
        let Some(token) = token_of(&self.requests, first) else {
            return Err(CallFault::TooManyRequests);
        };
        let Ok((text, pending)) = self.manager.discover(message_id(token)) else {
            return Err(CallFault::Refused(Refusal::OutOfMemory));
        };
        match self.requests.add(token, pending, &[], &[]) {
            Ok(()) => {
                self.message = Some(text);
                Ok(token)
            }
            Err(_) => Err(CallFault::Refused(Refusal::OutOfMemory)),
        }
    }

    /// Returns which request that was asked the message answers that is kept, and what it is to it: one alone, and its
    /// Response ends it. None: it answers none that waits. The error is NothingTaken, where no message is kept.
    pub fn find_answer(&mut self) -> Result<Option<AnsweredRequest>, CallFault>
        ensures { FindsAnswer self.old result self.new }
    {
        match &self.last {
            Some(kept) => Ok(take_answer(kept, &mut self.requests)),
            None => Err(CallFault::NothingTaken),
        }
    }

    /// The request with this token isn't waited for any more, whatever comes. The error is NothingTaken, where it
    /// doesn't wait, and changes nothing.
    pub fn give_up(&mut self, token: u64) -> Result<(), CallFault>
        ensures { GivesUp self.old token result self.new }
    {
        if self.requests.give_up(token) {
            return Ok(());
        }
        Err(CallFault::NothingTaken)
    }
}
