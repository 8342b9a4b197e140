//! How a manager learns of an engine (RFC 3414, section 4).

ghost use Rattle.std.specs.Prelude.{◌≡◌, ◌≤◌, [], length, pos};
ghost use Rattle.std.specs.Prelude.{IfOk, IfSome, Ok};
ghost use Rattle.snmp_ber.specs.declared.level.Level.TheVariants.{AuthNoPriv, NoAuthNoPriv};
ghost use Rattle.snmp_ber.specs.declared.number.TheConstants.{MAX_INTEGER32};
ghost use Rattle.snmp_message.specs.declared.refusal.Refusal.TheVariants.{OutOfMemory};
ghost use Rattle.snmp_message.specs.Refusals.{IsRefused};
ghost use Rattle.snmp_msg.specs.PduTypes.{pdu_tag};
ghost use Rattle.snmp_msg.specs.declared.pdu_type.PduType.TheVariants.{GetRequest};
ghost use Rattle.usm_core.specs.Sealed.{IsSealable, Seals};
ghost use Rattle.snmp_outgoing.specs.Requests.{asking_time, discovering};
ghost use Rattle.snmp_manager.specs.Pendings.{Remembers, request_answer};

use crate::manager::Manager;
use crate::pending::Pending;
use crate::requests::no_pair;
use engine_clock::EngineId;
use snmp_ber::Level;
use snmp_msg::{PduType, Refusal, RefusedAt};
use snmp_outgoing::{Body, Envelope, write_body, write_plain};
use std::alloc::AllocError;

/// A GetRequest of nothing with this request-id, for the default context of an engine.
fn nothing_of(engine: &[u8], id: u32) -> Body<'_>
    requires { id ≤ MAX_INTEGER32 }
    ensures engine { result.context_engine.now ≡ engine.now }
    ensures name { result.context_name.now ≡ [] }
    ensures tag { result.tag ≡ pdu_tag GetRequest }
    ensures id { result.id ≡ pos id }
    ensures second { result.second ≡ pos 0 }
    ensures third { result.third ≡ pos 0 }
    ensures bindings { result.bindings.now ≡ [] }
{
    Body {
        context_engine: engine,
        context_name: &[],
        tag: PduType::GetRequest.tag(),
        id: id as i32,
        second: 0,
        third: 0,
        bindings: &[],
    }
}

impl Manager {
    /// The request by which an engine is discovered (RFC 3414, section 4), and what is to be remembered of
    /// it: a GetRequest of nothing with this msgID and request-id, for no engine and no user. An agent
    /// answers with a Report that has its engine ID. The error is out of memory.
    pub fn discover(&self, id: u32) -> Result<(Vec<u8>, Pending), AllocError>
        requires { id ≤ MAX_INTEGER32 }
        ensures text { IfOk result (λ sent. Seals self.now.users
            (discovering id) (Ok sent.0.items)) }
        ensures pending { IfOk result (λ sent. Remembers sent.1 id [] [] NoAuthNoPriv [] []
            (pos id)) }
    {
        let body = nothing_of(&[], id);
        let envelope = Envelope {
            level: Level::NoAuthNoPriv,
            id,
            reportable: true,
            engine: &[],
            pair: no_pair(),
            user: &[],
            salt: [0; 8],
        };
        let text = match write_plain(&self.users, &envelope, &body) {
            Ok(text) => text,
            Err(refused) => match refused.refusal {
                Refusal::TooLarge => unreachable!(),
                _ => return Err(AllocError),
            },
        };
        Ok((text, Pending::of(self.alloc, &envelope, &body.front())?))
    }

    /// The request by which an engine's boots and time are learned (RFC 3414, section 4), and what is to be remembered
    /// of it: a GetRequest of nothing with this msgID and request-id, for this user, of at most 32 octets, at
    /// authNoPriv. Its boots and time are 0, whatever is held of the engine. So an engine with other boots answers with
    /// a Report that it is outside of the time window, which has its own boots and time.
    ///
    /// The errors are UnknownUser (7) and UnsupportedLevel (8), and then OutOfMemory (14).
    pub fn request_time(
        &mut self,
        id: u32,
        engine: &EngineId,
        user: &[u8],
    ) -> Result<(Vec<u8>, Pending), RefusedAt>
        requires id { id ≤ MAX_INTEGER32 }
        requires user { length user.now ≤ 32 }
        ensures text { IfSome (request_answer result)
            (Seals self.old.users (asking_time id engine.now user.now)) }
        ensures memory { IsRefused result OutOfMemory
            → IsSealable self.old.users (asking_time id engine.now user.now) }
        ensures pending { IfOk result (λ sent. Remembers sent.1 id engine.now user.now AuthNoPriv engine.now []
            (pos id)) }
        ensures same { self.new ≡ self.old }
    {
        let body = nothing_of(engine.as_slice(), id);
        let envelope = Envelope {
            level: Level::AuthNoPriv,
            id,
            reportable: true,
            engine: engine.as_slice(),
            pair: no_pair(),
            user,
            salt: [0; 8],
        };
        let text = write_body(&mut self.users, &envelope, &body)?;
        Ok((text, Pending::of(self.alloc, &envelope, &body.front())?))
    }
}
