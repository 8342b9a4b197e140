//! Responses to accepted requests (RFC 3416, section 4.2).

ghost use Rattle.std.specs.Prelude.{◌≡◌, ◌≤◌, ◌-◌, [], All, map, take, IfNone, IfOk, IfSome};
ghost use Rattle.engine_clock.specs.Pairs.{pair_max};
ghost use Rattle.snmp_message.specs.Scoped.{Contexts, ScopedFront};
ghost use Rattle.snmp_msg.specs.Pdu.{PduParts, PduText};
ghost use Rattle.snmp_msg.specs.Variables.{CanBeWritten, variable_of};
ghost use Rattle.snmp_incoming.specs.Texts.{text_of};
ghost use Rattle.snmp_incoming.specs.Answers.{given_of};
ghost use Rattle.snmp_incoming.specs.Outcome.{own_pair};
ghost use Rattle.usm_core.specs.Answers.{seal_answer};
ghost use Rattle.snmp_outgoing.specs.UpTo.{UpTo};
ghost use Rattle.snmp_outgoing.specs.Fronts.{IsBeyond, IsLongestFront, front_answer, room};
ghost use Rattle.snmp_agent.specs.Responses.{response as speech, responding};
ghost use Rattle.snmp_agent.specs.Sent.{Sends, SendsFront, CanBeSent, IsAcceptedByManagers};
ghost use Rattle.snmp_message.specs.declared.refusal.Refusal.TheVariants.{OutOfMemory};
ghost use Rattle.snmp_message.specs.Refusals.{IsRefused};

use crate::agent::Agent;
use crate::response::{Response, fitting, response_front, response_within};
use crate::response_laws::{no_text_is_longer, response_is_accepted};
use snmp_incoming::Taken;
use snmp_msg::{Binding, LARGEST, Refusal, RefusedAt, Spelled};
use snmp_outgoing::Fronted;

impl Agent {
    /// The Response to an accepted request, at its level: its msgID, user, contexts and request-id, with this
    /// error-status, this error-index and these bindings, under the agent's engine, boots and time. Nothing
    /// of the agent changes. The salt is used at authPriv alone.
    ///
    /// The errors are ClockExhausted (15), then at levels with authentication UnknownUser (7) and
    /// UnsupportedLevel (8), and then TooLarge (16), only where the text would be longer than 65,507 octets,
    /// or OutOfMemory (14), whichever is met first. Where it is TooLarge, a tooBig is sent by calling this
    /// again with status 1 and no bindings.
    pub fn respond(
        &mut self,
        now: u64,
        taken: &Taken<'_>,
        status: i32,
        index: i32,
        bindings: &[Binding<'_>],
        salt: [u8; 8],
    ) -> Result<Vec<u8>, RefusedAt>
        requires { All (λ b. CanBeWritten (variable_of b)) bindings.now }
        ensures answer { (c : Contexts) (p : PduParts)
            → ScopedFront (text_of taken.now.text) c → PduText c.pdu p
            → IfSome (seal_answer result)
            (Sends self.old now (λ own. responding self.old.engine own
            (given_of taken.now) c p status index
            (map variable_of bindings.now) salt)) }

        // The refusals before the text come before OutOfMemory.
        ensures memory { (c : Contexts) (p : PduParts)
            → ScopedFront (text_of taken.now.text) c → PduText c.pdu p
            → IsRefused result OutOfMemory
            → CanBeSent self.old now
            (λ own. responding self.old.engine own (given_of taken.now) c p status index
            (map variable_of bindings.now) salt) }
        ensures accepted { (c : Contexts) (p : PduParts)
            → ScopedFront (text_of taken.now.text) c → PduText c.pdu p
            → IfOk result (λ text. IsAcceptedByManagers self.old.users
            (speech self.old.engine (own_pair self.old.boots self.old.started now)
            (given_of taken.now) c p status index (map variable_of bindings.now) salt) text.items) }
        ensures same { self.new ≡ self.old }
    {
        no_text_is_longer();
        let response = Response {
            status,
            index,
            salt,
            limit: LARGEST,
        };
        self.write_response(now, taken, &response, bindings)
    }

    /// The Response that `respond` writes, within a limit, as the sender's msgMaxSize (`Taken::max_size`) or a local
    /// constraint, and of bindings in any form that can be written: `VariableBinding` is the quick one, with its
    /// name's octets, of which only the tags are asked. The length is counted before any key is looked for, so what is
    /// too large costs no sealing and takes no memory.
    ///
    /// The errors are those of `respond`, in its order; TooLarge (16) exactly if the text has more octets than the
    /// limit, or than 65,507. Then a tooBig is sent by calling this again with status 1 and no bindings (RFC 3416,
    /// section 4.2.1). A limit of 484 octets is enough for it if contextEngineID and contextName have at most 32
    /// octets.
    pub fn write_response<B: Spelled>(
        &mut self,
        now: u64,
        taken: &Taken<'_>,
        response: &Response,
        bindings: &[B],
    ) -> Result<Vec<u8>, RefusedAt>
        requires { All (λ b. B.fits b) bindings.now }
        ensures answer { (c : Contexts) (p : PduParts)
            → ScopedFront (text_of taken.now.text) c → PduText c.pdu p
            → IfSome (seal_answer result)
            (UpTo response.now.limit (Sends self.old now
            (λ own. responding self.old.engine own (given_of taken.now) c p response.now.status response.now.index
            (map B.says bindings.now) response.now.salt))) }

        // The refusals before the text come before OutOfMemory.
        ensures memory { (c : Contexts) (p : PduParts)
            → ScopedFront (text_of taken.now.text) c → PduText c.pdu p
            → IsRefused result OutOfMemory
            → CanBeSent self.old now
            (λ own. responding self.old.engine own (given_of taken.now) c p response.now.status response.now.index
            (map B.says bindings.now) response.now.salt) }

        // What is too long is refused before memory is asked for.
        ensures counted { (c : Contexts) (p : PduParts)
            → ScopedFront (text_of taken.now.text) c → PduText c.pdu p
            → IsRefused result OutOfMemory
            → IsBeyond self.old.users (room response.now.limit)
            (responding self.old.engine (own_pair self.old.boots self.old.started now)
            (given_of taken.now) c p response.now.status response.now.index
            (map B.says bindings.now) response.now.salt) → ⊥ }
        ensures accepted { (c : Contexts) (p : PduParts)
            → ScopedFront (text_of taken.now.text) c → PduText c.pdu p
            → IfOk result (λ text. IsAcceptedByManagers self.old.users
            (speech self.old.engine (own_pair self.old.boots self.old.started now)
            (given_of taken.now) c p response.now.status response.now.index (map B.says bindings.now)
            response.now.salt) text.items) }
        ensures same { self.new ≡ self.old }
    {
        response_is_accepted();
        let Some(own) = self.engine.pair(now) else {
            return Err(RefusedAt::plain(Refusal::ClockExhausted));
        };
        response_within(
            &mut self.users,
            &self.engine.id,
            own,
            taken,
            response,
            bindings,
        )
    }

    /// How many of these bindings, from the first on, a Response has room for within its limit: all of them if
    /// `write_response` wouldn't say TooLarge. None: it is longer without any, or the agent's clock has run out. The
    /// length is counted: no key is used, nothing is written, and it takes no memory.
    pub fn fits<B: Spelled>(
        &self,
        now: u64,
        taken: &Taken<'_>,
        response: &Response,
        bindings: &[B],
    ) -> Option<usize>
        requires { All (λ b. B.fits b) bindings.now }
        ensures runs { IfSome result (λ _. now - self.now.started ≤ pair_max) }
        ensures some { (c : Contexts) (p : PduParts)
            → ScopedFront (text_of taken.now.text) c → PduText c.pdu p
            → IfSome result (IsLongestFront self.now.users (room response.now.limit)
            (λ vs. responding self.now.engine (own_pair self.now.boots self.now.started now) (given_of taken.now) c p
            response.now.status response.now.index vs response.now.salt) (map B.says bindings.now)) }
        ensures none { (c : Contexts) (p : PduParts)
            → ScopedFront (text_of taken.now.text) c → PduText c.pdu p → now - self.now.started ≤ pair_max
            → IfNone result (IsBeyond self.now.users (room response.now.limit)
            (responding self.now.engine (own_pair self.now.boots self.now.started now) (given_of taken.now) c p
            response.now.status response.now.index [] response.now.salt)) }
    {
        let own = self.engine.pair(now)?;
        fitting(&self.users, &self.engine.id, own, taken, response, bindings)
    }

    /// The Response with the longest front of the bindings that it has room for within its limit, as a
    /// GetBulk's is cut (RFC 3416, section 4.2.3), and how many bindings that has. One text is sealed, and of
    /// the others only the length is counted.
    ///
    /// The errors are those of `respond` before its text; then TooLarge (16), exactly where even the Response
    /// without bindings has more octets than the limit, or than 65,507; and OutOfMemory (14), which the
    /// refusals before the text come before.
    pub fn respond_front<B: Spelled>(
        &mut self,
        now: u64,
        taken: &Taken<'_>,
        response: &Response,
        bindings: &[B],
    ) -> Result<Fronted, RefusedAt>
        requires { All (λ b. B.fits b) bindings.now }
        ensures answer { (c : Contexts) (p : PduParts)
            → ScopedFront (text_of taken.now.text) c → PduText c.pdu p
            → IfSome (front_answer result)
            (SendsFront self.old now response.now.limit
            (λ own vs. responding self.old.engine own (given_of taken.now) c p response.now.status
            response.now.index vs response.now.salt)
            (map B.says bindings.now)) }
        ensures memory { (c : Contexts) (p : PduParts)
            → ScopedFront (text_of taken.now.text) c → PduText c.pdu p
            → IsRefused result OutOfMemory
            → CanBeSent self.old now
            (λ own. responding self.old.engine own (given_of taken.now) c p response.now.status
            response.now.index [] response.now.salt) }
        ensures accepted { (c : Contexts) (p : PduParts)
            → ScopedFront (text_of taken.now.text) c → PduText c.pdu p
            → IfOk result (λ f. IsAcceptedByManagers self.old.users
            (speech self.old.engine (own_pair self.old.boots self.old.started now)
            (given_of taken.now) c p response.now.status response.now.index
            (take f.count (map B.says bindings.now)) response.now.salt)
            f.text.items) }
        ensures same { self.new ≡ self.old }
    {
        response_is_accepted();
        let Some(own) = self.engine.pair(now) else {
            return Err(RefusedAt::plain(Refusal::ClockExhausted));
        };
        response_front(
            &mut self.users,
            &self.engine.id,
            own,
            taken,
            response,
            bindings,
        )
    }
}
