//! What an agent does with what it accepted, besides answering it: how long the answer may be, whether
//! anything answers it at all, the report where nothing does, and the counters (RFC 3412, sections 4.2.2 and
//! 7.1; RFC 3413, section 3.2; RFC 3416, section 4.2).

ghost use Rattle.std.specs.Prelude.{◌≡◌, IfErr, IfOk, OnErr, Some, true};
ghost use Rattle.std.specs.Int.{to_be_bytes, w64};
ghost use Rattle.snmp_agent.specs.Counts.{count_at, one_more};
ghost use Rattle.snmp_agent.specs.Sent.{CanSendAt};
ghost use Rattle.snmp_msg.specs.PduTypes.{is_confirmed};
ghost use Rattle.snmp_outgoing.specs.declared.counter.Counter.TheVariants.{SilentDrops};
ghost use Rattle.snmp_handles.specs.Between.{CannotAnswer};
ghost use Rattle.snmp_handles.specs.Parts.{TellsMaxSize};
ghost use Rattle.snmp_handles.specs.Dispatch.{RespondsHeldWithin, RespondsHeldFront, AnswersWithin, AnswersFront};
ghost use Rattle.snmp_handles.specs.Dispatch.{AnswersReport, IsHandled, TellsUnhandled, ReportsHeld};
ghost use Rattle.snmp_handles.specs.Dispatch.{CountsRoom, FitsHeld};

use crate::agent::AgentHandle;
use crate::bindings::bindings_of;
use crate::fault::CallFault;
use crate::in_range::Reply;
use crate::parts::max_size_of;
use snmp_agent::{Agent, Unhandled};
use snmp_incoming::Kept;
use snmp_msg::{Refusal, is_confirmed};
use snmp_outgoing::{Counter, Fronted};
use std::alloc::Global;

/// Whether what was kept can be answered at all. The errors are NotAsked, where its PDU isn't of the
/// Confirmed Class (RFC 3411, section 2.8), and those of `Agent::supports` for its user and its level.
pub(crate) fn can_answer(agent: &Agent, now: u64, kept: &Kept) -> Result<(), CallFault>
    ensures ok { IfOk result
        (λ _. (is_confirmed kept.now.tag ≡ true)
        × CanSendAt agent.now now kept.now.user kept.now.level) }
    ensures err { IfErr result (CannotAnswer agent.now now kept.now) }
{
    let taken = kept.taken();
    if !is_confirmed(taken.tag) {
        return Err(CallFault::NotAsked);
    }
    match agent.supports(now, taken.user, taken.level) {
        Ok(()) => Ok(()),
        Err(fault) => Err(CallFault::Refused(fault.refusal)),
    }
}

/// The Response to what was kept, which says this, of at most `limit` octets.
fn response_within(
    alloc: Global,
    agent: &mut Agent,
    now: u64,
    kept: &Kept,
    reply: &Reply<'_>,
    limit: u32,
) -> Result<Vec<u8>, CallFault>
    ensures answer { AnswersWithin agent.old now kept.now reply.now.status
        reply.now.index reply.now.list.now
        reply.now.salt limit result }
    ensures same { agent.new ≡ agent.old }
{
    can_answer(agent, now, kept)?;
    let taken = kept.taken();
    let bindings = bindings_of(alloc, reply.list)?;
    match agent.write_response(now, &taken, &reply.within(limit), &bindings) {
        Ok(text) => Ok(text),
        Err(fault) => Err(CallFault::Refused(fault.refusal)),
    }
}

/// The Response to what was kept, which says this, with the longest front of its bindings that has room
/// within `limit` octets.
fn response_front(
    alloc: Global,
    agent: &mut Agent,
    now: u64,
    kept: &Kept,
    reply: &Reply<'_>,
    limit: u32,
) -> Result<Fronted, CallFault>
    ensures answer { AnswersFront agent.old now kept.now reply.now.status
        reply.now.index reply.now.list.now
        reply.now.salt limit result }
    ensures same { agent.new ≡ agent.old }
{
    can_answer(agent, now, kept)?;
    let taken = kept.taken();
    let bindings = bindings_of(alloc, reply.list)?;
    match agent.respond_front(now, &taken, &reply.within(limit), &bindings) {
        Ok(fronted) => Ok(fronted),
        Err(fault) => Err(CallFault::Refused(fault.refusal)),
    }
}

/// How many of the bindings, from the first on, have room in the Response to what was kept, which says this, within
/// `limit` octets.
fn room_of(
    alloc: Global,
    agent: &Agent,
    now: u64,
    kept: &Kept,
    reply: &Reply<'_>,
    limit: u32,
) -> Result<usize, CallFault>
    ensures { CountsRoom agent.now now kept.now reply.now.status
        reply.now.index reply.now.list.now
        reply.now.salt limit result }
{
    can_answer(agent, now, kept)?;
    let taken = kept.taken();
    let bindings = bindings_of(alloc, reply.list)?;
    match agent.fits(now, &taken, &reply.within(limit), &bindings) {
        Some(count) => Ok(count),
        None => Err(CallFault::Refused(Refusal::TooLarge)),
    }
}

/// Why nothing answers what was kept.
fn unhandled(agent: &Agent, kept: &Kept) -> Option<Unhandled>
    ensures { IsHandled agent.now kept.now result }
{
    let taken = kept.taken();
    agent.unhandled(&taken)
}

/// Counts what was kept as one that isn't answered, and writes the report on it.
fn refusal(
    agent: &mut Agent,
    now: u64,
    kept: &Kept,
    why: Unhandled,
    salt: [u8; 8],
) -> Result<Option<Vec<u8>>, CallFault>
    ensures answer { AnswersReport agent.old now kept.now why salt result agent.new }
    ensures err { OnErr result (agent.new ≡ agent.old) }
{
    let taken = kept.taken();
    match agent.refuse(now, &taken, why, salt) {
        Ok(report) => Ok(report),
        Err(unsent) => Err(CallFault::Refused(unsent.refusal)),
    }
}

impl AgentHandle {
    /// The sender's msgMaxSize, 484 to 2147483647: how long a Response to what is kept may be. The error is
    /// NothingTaken.
    pub fn max_size(&self) -> Result<u32, CallFault>
        ensures { TellsMaxSize self.now.last result }
    {
        max_size_of(&self.last)
    }

    /// What `respond` writes where that has at most `limit` octets, and else TooLarge (16), as
    /// `Agent::write_response` does. On an error nothing changes.
    ///
    /// The errors are those of `respond`, in its order.
    pub fn respond_within(
        &mut self,
        now: u64,
        status: u32,
        index: u32,
        list: &[u8],
        salt: u64,
        limit: u32,
    ) -> Result<(), CallFault>
        ensures { RespondsHeldWithin self.old now status index list.now
            (to_be_bytes w64 salt) limit result self.new }
    {
        let Some(reply) = Reply::of(status, index, list, salt) else {
            return Err(CallFault::BadArgument);
        };
        let Some(kept) = &self.last else {
            return Err(CallFault::NothingTaken);
        };
        match response_within(self.alloc, &mut self.agent, now, kept, &reply, limit) {
            Ok(text) => {
                self.message = Some(text);
                Ok(())
            }
            Err(fault) => Err(fault),
        }
    }

    /// Writes the Response with as many of the bindings, from the first on, as have room within `limit`
    /// octets, as `Agent::respond_front` does, leaves it to be sent, and tells how many they are. One text is
    /// sealed, whatever is left out.
    ///
    /// The errors are those of `respond`, in its order; TooLarge (16) means that there is no room even for a
    /// Response without bindings. They leave all as it was.
    pub fn respond_front(
        &mut self,
        now: u64,
        status: u32,
        index: u32,
        list: &[u8],
        salt: u64,
        limit: u32,
    ) -> Result<usize, CallFault>
        ensures { RespondsHeldFront self.old now status index list.now
            (to_be_bytes w64 salt) limit result self.new }
    {
        let Some(reply) = Reply::of(status, index, list, salt) else {
            return Err(CallFault::BadArgument);
        };
        let Some(kept) = &self.last else {
            return Err(CallFault::NothingTaken);
        };
        match response_front(self.alloc, &mut self.agent, now, kept, &reply, limit) {
            Ok(fronted) => {
                self.message = Some(fronted.text);
                Ok(fronted.count)
            }
            Err(fault) => Err(fault),
        }
    }

    /// How many of the bindings, from the first on, have room in the Response within `limit` octets, as `Agent::fits`
    /// does: as many as `respond_front` would answer with. No key is used, and nothing is written.
    ///
    /// The errors are those of `respond_front`, in its order.
    pub fn fits(
        &self,
        now: u64,
        status: u32,
        index: u32,
        list: &[u8],
        salt: u64,
        limit: u32,
    ) -> Result<usize, CallFault>
        ensures { FitsHeld self.now now status index list.now (to_be_bytes w64 salt) limit result }
    {
        let Some(reply) = Reply::of(status, index, list, salt) else {
            return Err(CallFault::BadArgument);
        };
        let Some(kept) = &self.last else {
            return Err(CallFault::NothingTaken);
        };
        room_of(self.alloc, &self.agent, now, kept, &reply, limit)
    }

    /// Why no application of the agent answers what is kept, as `Agent::unhandled` has it, or None where it
    /// is to be answered. The error is NothingTaken.
    pub fn unhandled(&self) -> Result<Option<Unhandled>, CallFault>
        ensures { TellsUnhandled self.now result }
    {
        match &self.last {
            Some(kept) => Ok(unhandled(&self.agent, kept)),
            None => Err(CallFault::NothingTaken),
        }
    }

    /// Counts what is kept as one that isn't answered, and leaves the report on it to be sent, as
    /// `Agent::refuse` does; where there is no report, nothing is to be sent.
    ///
    /// The errors are NothingTaken and those of `Agent::refuse`; nothing changes then.
    pub fn refuse(&mut self, now: u64, why: Unhandled, salt: u64) -> Result<(), CallFault>
        ensures { ReportsHeld self.old now why (to_be_bytes w64 salt) result self.new }
    {
        let Some(kept) = &self.last else {
            return Err(CallFault::NothingTaken);
        };
        let salt = salt.to_be_bytes();
        match refusal(&mut self.agent, now, kept, why, salt) {
            Ok(report) => {
                self.message = report;
                Ok(())
            }
            Err(fault) => Err(fault),
        }
    }

    /// How many messages this counter has counted.
    pub fn count(&self, counter: Counter) -> u32
        ensures { result ≡ count_at self.now.agent.counts counter }
    {
        self.agent.count(counter)
    }

    /// Counts what is kept in snmpSilentDrops: even its answer without bindings is too long (RFC 3416, section 4.2.1).
    pub fn silent_drop(&mut self)
        ensures { self.new ≡ record self.old
            { agent = record self.old.agent { counts = one_more self.old.agent.counts (Some SilentDrops) } } }
    {
        self.agent.silent_drop()
    }
}
