//! An agent with what it accepted last and what it wrote last.

ghost use Rattle.std.specs.Prelude.{◌≡◌, ◌≢◌, ◌↔◌, All, IsTrue, MatchOption, None, Some, Err};
ghost use Rattle.std.specs.Int.{to_be_bytes, w64};
ghost use Rattle.snmp_message.specs.Scoped.{Contexts, ScopedFront};
ghost use Rattle.snmp_incoming.specs.Outcome.{Given};
ghost use Rattle.snmp_agent.specs.Decides.{question_of};
ghost use Rattle.vacm_core.specs.Allowed.{Allowed};
ghost use Rattle.snmp_handles.specs.Agents.{Clears, IsOwnEngine, MakesAgent, TakesHeld, TakesNoMemory, AllowsHeld};
ghost use Rattle.snmp_handles.specs.Agents.{MaySee, Counts, RespondsHeld, NotifiesHeld};
ghost use Rattle.snmp_handles.specs.Parts.{CopiesPart, CopiesMessage, AreNumbersOf};
ghost use Rattle.snmp_handles.specs.Between.{AnswersNotice, notice_of};

use crate::bindings::bindings_of;
use crate::fault::CallFault;
use crate::in_range::NoticeInRange;
use crate::numbers::{level_of, view_of};
use crate::parts::{Part, copied_message, copied_part, numbers_of};
use engine_clock::EngineId;
use snmp_agent::{Agent, no_text_is_longer};
use snmp_ber::{MAX_INTEGER32, Oid};
use snmp_incoming::Kept;
use snmp_msg::{LARGEST, PduType, Refusal};
use snmp_outgoing::Front;
use snmpsec_config::{Config, ConfigFault};
use std::alloc::Global;
use std::marker::Model;
use usm_core::{UserRow, Users};
use vacm_core::{Access, Rows, Vacm, ViewType};

/// An agent, the message that it accepted last, and the message that it wrote last.
#[derive(Drop)]
pub struct AgentHandle {
    pub(crate) alloc: Global,
    pub(crate) agent: Agent,
    pub(crate) last: Option<Kept>,
    pub(crate) message: Option<Vec<u8>>,
}

impl Model for AgentHandle {
    ghost use Rattle.std.specs.Prelude.{option_map};
    ghost use Rattle.snmp_handles.specs.Agents.{AgentHeld};

    ghost Value = { AgentHeld };

    ghost view = { λ h. record {
      agent = h.agent;
      last = h.last;
      message = option_map
          (λ v. v.items) h.message;
    } };
}

/// Whom a notification goes to, and what it says besides its bindings.
#[derive(Clone, Copy, Debug)]
pub struct NoticeTo<'a> {
    /// msgID, at most 2147483647.
    pub id: u32,
    /// msgUserName, of at most 32 octets.
    pub user: &'a [u8],
    /// The level's number, 1 to 3.
    pub level: u32,
    /// request-id, at most 2147483647.
    pub request_id: u32,
    pub context_engine: &'a [u8],
    pub context_name: &'a [u8],
}

/// Whether each of the octets is this one.
fn is_all(octets: &[u8], octet: u8) -> bool
    ensures { IsTrue result ↔ All (λ o. o ≡ octet) octets.now }
{
    octets.iter().all(|o| *o == octet)
}

/// The identifier that an engine has for its own: 5 to 32 octets, not all of them 0 and not all of them 255
/// (SnmpEngineID, RFC 3411, section 5).
fn own_engine(octets: &[u8]) -> Option<EngineId>
    ensures { MatchOption result (IsOwnEngine octets.now → ⊥)
        (λ engine. IsOwnEngine octets.now × (engine ≡ octets.now)) }
{
    if is_all(octets, 0) || is_all(octets, 255) {
        return None;
    }
    EngineId::of(octets)
}

/// Whether the sender of what was kept may see this variable.
fn access_of_sender(agent: &Agent, kept: &Kept, view: ViewType, variable: &Oid) -> Access
    ensures { (c : Contexts) → ScopedFront kept.now.text c
        → Allowed agent.now.tables (question_of kept.now c) view variable.now result }
{
    let taken = kept.taken();
    agent.allows(&taken, view, variable)
}

/// The notification that says this, with the bindings that these octets are.
fn notice(
    alloc: Global,
    agent: &mut Agent,
    now: u64,
    notice: &NoticeInRange<'_>,
    list: &[u8],
    salt: [u8; 8],
) -> Result<Vec<u8>, CallFault>
    ensures answer { AnswersNotice agent.old now
        (notice_of notice.now.to) notice.now.level list.now salt result }
    ensures same { agent.new ≡ agent.old }
{
    let NoticeInRange { to, level } = *notice;
    if let Err(fault) = agent.supports(now, to.user, level) {
        return Err(CallFault::Refused(fault.refusal));
    }
    let bindings = bindings_of(alloc, list)?;
    let front = Front {
        context_engine: to.context_engine,
        context_name: to.context_name,
        tag: PduType::SNMPv2Trap.tag(),
        id: to.request_id as i32,
        second: 0,
        third: 0,
    };
    match agent.notify_of(now, to.id, to.user, level, &front, &bindings, salt) {
        Ok(text) => Ok(text),
        Err(fault) => Err(CallFault::Refused(fault.refusal)),
    }
}

impl AgentHandle {
    /// An agent of this configuration, in TOML, with this engine ID and these boots, which started at the
    /// moment `started`.
    ///
    /// The errors are BadArgument, where the engine ID hasn't 5 to 32 octets, or all of them are 0 or all are
    /// 255 (SnmpEngineID, RFC 3411, section 5), or boots are above 2147483647; then BadConfiguration, or out
    /// of memory.
    pub fn of(
        alloc: Global,
        config: &[u8],
        engine: &[u8],
        boots: u32,
        started: u64,
    ) -> Result<AgentHandle, CallFault>
        ensures { MakesAgent config.now engine.now boots started result }
    {
        let Some(engine) = own_engine(engine) else {
            return Err(CallFault::BadArgument);
        };
        if boots > MAX_INTEGER32 {
            return Err(CallFault::BadArgument);
        }
        match Config::read(alloc, config) {
            Ok(config) => Ok(AgentHandle {
                alloc,
                agent: Agent::new(alloc, engine, boots, started, config.users, config.access),
                last: None,
                message: None,
            }),
            Err(ConfigFault::OutOfMemory) => Err(CallFault::Refused(Refusal::OutOfMemory)),
            Err(_) => Err(CallFault::BadConfiguration),
        }
    }

    /// Gives back the memory of all that is held: the users, the tables, and what is kept. The error is out
    /// of memory, and changes nothing.
    pub fn clear(&mut self) -> Result<(), CallFault>
        ensures { Clears self.old result self.new }
    {
        let Some(engine) = EngineId::of(&[0; 5]) else {
            unreachable!();
        };
        let users: Vec<UserRow> = Vec::new(self.alloc);
        let rows = Rows {
            contexts: Vec::new(self.alloc),
            groups: Vec::new(self.alloc),
            access: Vec::new(self.alloc),
            families: Vec::new(self.alloc),
        };
        let Ok(users) = Users::load(self.alloc, &users) else {
            return Err(CallFault::Refused(Refusal::OutOfMemory));
        };
        let Ok(tables) = Vacm::load(self.alloc, &rows) else {
            return Err(CallFault::Refused(Refusal::OutOfMemory));
        };
        self.agent = Agent::new(self.alloc, engine, 0, 0, users, tables);
        self.last = None;
        self.message = None;
        Ok(())
    }

    /// Takes a datagram at the moment `now`, as `Agent::take` does. What is accepted is kept, for the calls
    /// below; of what is refused the report is left to be sent, where there is one.
    ///
    /// The errors are the refusals of `Agent::take`, and out of memory for what is kept, which leaves the
    /// agent as it was.
    pub fn take(&mut self, now: u64, datagram: &[u8]) -> Result<(), CallFault>
        ensures takes { TakesHeld self.old now datagram.now result self.new }
        ensures no_memory { TakesNoMemory self.old.agent now datagram.now
            → result ≢ Err (CallFault.Refused Refusal.OutOfMemory) }
    {
        self.last = None;
        self.message = None;
        let taken = match self.agent.take(now, datagram) {
            Ok(taken) => taken,
            Err(refused) => {
                self.message = refused.report;
                return Err(CallFault::Refused(refused.why.refusal));
            }
        };
        match Kept::of(self.alloc, taken) {
            Ok(kept) => {
                self.last = Some(kept);
                Ok(())
            }
            Err(_) => Err(CallFault::Refused(Refusal::OutOfMemory)),
        }
    }

    /// Whether the sender of what is kept may see the variable with these arcs, by the view of this number.
    ///
    /// The errors are BadArgument, where no view has the number or there aren't 1 to 128 arcs, and NothingTaken.
    pub fn allows(&self, view: u32, arcs: &[u32]) -> Result<Access, CallFault>
        ensures { AllowsHeld self.now view arcs.now result }
    {
        let (Some(view), Some(name)) = (view_of(view), Oid::of(arcs)) else {
            return Err(CallFault::BadArgument);
        };
        match &self.last {
            Some(kept) => Ok(access_of_sender(&self.agent, kept, view, &name)),
            None => Err(CallFault::NothingTaken),
        }
    }

    /// Whether this user at the level of this number may see the variable with these arcs in this context, by
    /// the view of this number. The error is BadArgument, where no level or no view has the number, or there
    /// aren't 1 to 128 arcs.
    pub fn may(
        &self,
        user: &[u8],
        level: u32,
        context: &[u8],
        view: u32,
        arcs: &[u32],
    ) -> Result<Access, CallFault>
        ensures { MaySee self.now user.now level context.now view arcs.now result }
    {
        let Some(level) = level_of(level) else {
            return Err(CallFault::BadArgument);
        };
        let (Some(view), Some(variable)) = (view_of(view), Oid::of(arcs)) else {
            return Err(CallFault::BadArgument);
        };
        Ok(self.agent.may(user, level, context, view, &variable))
    }

    /// The value of counter n, usmStats n of RFC 3414, section 5. The error is BadArgument, where n isn't 1 to 6.
    pub fn counter(&self, n: u32) -> Result<u32, CallFault>
        ensures { Counts self.now n result }
    {
        if n > 6 {
            return Err(CallFault::BadArgument);
        }
        match self.agent.counter(n as u8) {
            Some(value) => Ok(value),
            None => Err(CallFault::BadArgument),
        }
    }

    /// Writes the Response to what is kept, with this error-status, error-index and the bindings that these
    /// octets are, as `Agent::respond` does, and leaves it to be sent. On an error nothing changes.
    ///
    /// The errors are, the first that applies: BadArgument, where status or index are above 2147483647;
    /// NothingTaken; NotAsked, where the PDU isn't of the Confirmed Class; those of `Agent::supports`; then
    /// BadBindings, TooLarge (16), or out of memory, whichever is met first.
    pub fn respond(
        &mut self,
        now: u64,
        status: u32,
        index: u32,
        list: &[u8],
        salt: u64,
    ) -> Result<(), CallFault>
        ensures { RespondsHeld self.old now status index list.now
            (to_be_bytes w64 salt) result self.new }
    {
        no_text_is_longer();
        self.respond_within(now, status, index, list, salt, LARGEST as u32)
    }

    /// Writes an SNMPv2-Trap with the bindings that these octets are, as `Agent::notify` does, and leaves it
    /// to be sent. On an error nothing changes.
    ///
    /// The errors are, the first that applies: BadArgument, where a number of `to` is out of its range or the
    /// name is longer than 32 octets; those of `Agent::supports`; then BadBindings, TooLarge (16), or
    /// OutOfMemory (14), whichever is met first.
    pub fn notify(
        &mut self,
        now: u64,
        to: &NoticeTo<'_>,
        list: &[u8],
        salt: u64,
    ) -> Result<(), CallFault>
        ensures { NotifiesHeld self.old now (notice_of to.now) list.now
            (to_be_bytes w64 salt) result self.new }
    {
        let Some(in_range) = NoticeInRange::of(to) else {
            return Err(CallFault::BadArgument);
        };
        let salt = salt.to_be_bytes();
        match notice(self.alloc, &mut self.agent, now, &in_range, list, salt) {
            Ok(text) => {
                self.message = Some(text);
                Ok(())
            }
            Err(fault) => Err(fault),
        }
    }

    /// Copies a part of what is kept to the front of the buffer, and tells how many octets it has. The errors are
    /// NothingTaken, which writes nothing, and ShortBuffer, which tells the octets and leaves the buffer as it was.
    pub fn part(&self, part: Part, out: &mut [u8], written: &mut usize) -> Result<(), CallFault>
        ensures { CopiesPart self.now.last part out.old out.new written.old written.new result }
    {
        copied_part(&self.last, part, out, written)
    }

    /// Copies the message that is to be sent in the same way: the report on what was taken last, or what was
    /// written since.
    pub fn message(&self, out: &mut [u8], written: &mut usize) -> Result<(), CallFault>
        ensures { CopiesMessage self.now.message out.old out.new written.old written.new result }
    {
        copied_message(&self.message, out, written)
    }

    /// The level, the PDU's tag, request-id, second and third number, and msgID of what is kept.
    pub fn numbers(&self) -> Option<[i32; 6]>
        ensures { MatchOption result (self.now.last ≡ None)
            (λ numbers. (g : Given) × (self.now.last ≡ Some g) × AreNumbersOf g numbers) }
    {
        match &self.last {
            Some(kept) => Some(numbers_of(kept)),
            None => None,
        }
    }
}
