//! What an agent does with the messages that it accepts (RFC 3412, sections 4.2.2 and 7.1; RFC 3413, section
//! 3.2).

ghost use Rattle.std.specs.Prelude.{◌≡◌, IfSome, OnErr, Some};
ghost use Rattle.snmp_message.specs.Scoped.{Contexts, ScopedFront, contexts_of};
ghost use Rattle.snmp_msg.specs.Pdu.{PduParts, PduText, pdu_of};
ghost use Rattle.snmp_incoming.specs.Texts.{text_of};
ghost use Rattle.snmp_incoming.specs.Answers.{given_of};
ghost use Rattle.snmp_agent.specs.Counts.{count_at, one_more};
ghost use Rattle.snmp_agent.specs.Dispatch.{HandledBy, Refuses, RefusalCanBeSent, refusing_answer};
ghost use Rattle.snmp_outgoing.specs.declared.counter.Counter.TheVariants.{SilentDrops};
ghost use Rattle.snmp_message.specs.declared.refusal.Refusal.TheVariants.{OutOfMemory};
ghost use Rattle.snmp_message.specs.Refusals.{IsRefused};

use crate::agent::Agent;
use crate::commands::{is_command, is_response};
use crate::counter::one_more;
use crate::refusal::{Counted, write_refusal_report};
use crate::unhandled::Unhandled;
use snmp_incoming::Taken;
use snmp_msg::{Pdu, Refusal, RefusedAt, Scoped, is_confirmed, one_content, one_pdu};
use snmp_outgoing::Counter;

impl Agent {
    /// How many messages this counter has counted.
    pub fn count(&self, counter: Counter) -> u32
        ensures { result ≡ count_at self.now.counts counter }
    {
        self.counts[counter.place()]
    }

    /// Counts a request in snmpSilentDrops: it has no answer, since even the one without bindings is too long
    /// (RFC 3416, section 4.2.1).
    pub fn silent_drop(&mut self)
        ensures { self.new ≡ record self.old
            { counts = one_more self.old.counts (Some SilentDrops) } }
    {
        self.counts = one_more(self.counts, Some(Counter::SilentDrops));
    }

    /// Why no application of this agent answers an accepted message, the first that applies: NoRequest of a
    /// Response or a Report; UnknownPduHandlers, where contextEngineID isn't the agent's own or the PDU is no
    /// GetRequest, GetNextRequest, SetRequest or GetBulkRequest; UnknownContexts, where no context has its
    /// name. None where it is to be answered. It takes no memory.
    pub fn unhandled(&self, taken: &Taken<'_>) -> Option<Unhandled>
        ensures { (c : Contexts) (p : PduParts) → ScopedFront (text_of taken.now.text) c
            → PduText c.pdu p
            → HandledBy self.now.engine self.now.tables c p result }
    {
        one_content();
        one_pdu();
        let scoped = taken.scoped();
        let pdu = taken.pdu();
        self.handled_by(&scoped, &pdu)
    }

    /// The same of a ScopedPDU and its PDU.
    fn handled_by(&self, scoped: &Scoped<'_>, pdu: &Pdu<'_>) -> Option<Unhandled>
        ensures { HandledBy self.now.engine self.now.tables
            (contexts_of scoped.now) (pdu_of pdu.now) result }
    {
        if is_response(pdu.tag) {
            return Some(Unhandled::NoRequest);
        }
        if scoped.engine != self.engine.id.as_slice() {
            return Some(Unhandled::UnknownPduHandlers);
        }
        if !is_command(pdu.tag) {
            return Some(Unhandled::UnknownPduHandlers);
        }
        if !self.vacm.has_context(scoped.name) {
            return Some(Unhandled::UnknownContexts);
        }
        None
    }

    /// Counts an accepted message that isn't answered, and where its PDU is of the Confirmed Class writes the
    /// report on it (RFC 3412, section 7.1, step 3): at its own level, in the default context of the agent's
    /// engine, with the counter after it was counted. Another PDU is counted alone, and a message without a
    /// counter isn't. The salt is used at authPriv alone.
    ///
    /// The errors are those of `respond` before its text, and OutOfMemory (14); all is as before then.
    pub fn refuse(
        &mut self,
        now: u64,
        taken: &Taken<'_>,
        why: Unhandled,
        salt: [u8; 8],
    ) -> Result<Option<Vec<u8>>, RefusedAt>
        ensures answer { (c : Contexts) (p : PduParts)
            → ScopedFront (text_of taken.now.text) c → PduText c.pdu p
            → IfSome (refusing_answer result)
            (λ answer. Refuses self.old now (given_of taken.now) p why salt answer self.new) }

        // There is a report, and the refusals before its text come before OutOfMemory.
        ensures memory { (c : Contexts) (p : PduParts)
            → ScopedFront (text_of taken.now.text) c → PduText c.pdu p
            → IsRefused result OutOfMemory
            → RefusalCanBeSent self.old now (given_of taken.now) p why salt }
        ensures err { OnErr result (self.new ≡ self.old) }
    {
        one_content();
        one_pdu();
        let pdu = taken.pdu();
        self.refuse_pdu(now, taken, &pdu, why, salt)
    }

    /// The same of a message with this PDU.
    fn refuse_pdu(
        &mut self,
        now: u64,
        taken: &Taken<'_>,
        pdu: &Pdu<'_>,
        why: Unhandled,
        salt: [u8; 8],
    ) -> Result<Option<Vec<u8>>, RefusedAt>
        ensures answer { IfSome (refusing_answer result)
            (λ answer. Refuses self.old now (given_of taken.now)
            (pdu_of pdu.now) why salt answer self.new) }
        ensures memory { IsRefused result OutOfMemory
            → RefusalCanBeSent self.old now (given_of taken.now) (pdu_of pdu.now) why salt }
        ensures err { OnErr result (self.new ≡ self.old) }
    {
        let Some(counter) = why.counter() else {
            return Ok(None);
        };
        let counts = one_more(self.counts, Some(counter));
        if !is_confirmed(pdu.tag) {
            self.counts = counts;
            return Ok(None);
        }
        let Some(own) = self.engine.pair(now) else {
            return Err(RefusedAt::plain(Refusal::ClockExhausted));
        };
        let counted = Counted {
            counter,
            value: counts[counter.place()],
            salt,
        };
        match write_refusal_report(&mut self.users, &self.engine.id, own, taken, pdu, counted) {
            Ok(text) => {
                self.counts = counts;
                Ok(Some(text))
            }
            Err(fault) => Err(fault),
        }
    }
}
