//! A manager with what it accepted last, what it wrote last, and the requests that it waits for.

ghost use Rattle.std.specs.Prelude.{◌≡◌, ◌≢◌, MatchOption, None, Some, Err};
ghost use Rattle.std.specs.Int.{to_be_bytes, w64};
ghost use Rattle.snmp_message.specs.Scoped.{Contexts, ScopedFront};
ghost use Rattle.snmp_msg.specs.Pdu.{PduParts, PduText};
ghost use Rattle.snmp_incoming.specs.Outcome.{Given};
ghost use Rattle.snmp_manager.specs.Replies.{IsAnswer};
ghost use Rattle.snmp_manager.specs.Takes.{TakesNoMemory};
ghost use Rattle.snmp_handles.specs.Managers.{MakesManager, ClearsManager, ManagerTakes, TellsAnswer, DiscoversHeld};
ghost use Rattle.snmp_handles.specs.Managers.{RequestsHeld, AbsorbsHeld, SavesHeld, TellsPair};
ghost use Rattle.snmp_handles.specs.Parts.{CopiesPart, CopiesMessage, AreNumbersOf};
ghost use Rattle.snmp_handles.specs.Asked.{AnswersRequest, asking_of};

use crate::bindings::bindings_of;
use crate::fault::CallFault;
use crate::in_range::AskedInRange;
use crate::parts::{Part, copied_message, copied_part, numbers_of};
use engine_clock::{ClockFault, Clocks, EngineId, Pair};
use snmp_ber::MAX_INTEGER32;
use snmp_incoming::Kept;
use snmp_manager::{Answer, Manager, Pending, Target, answer_of};
use snmp_msg::Refusal;
use snmp_outgoing::Front;
use snmp_requests::OutstandingRequests;
use snmpsec_config::{Config, ConfigFault};
use std::alloc::Global;
use std::marker::Model;
use usm_core::{UserRow, Users};

/// A manager, the message that it accepted last, the message that it wrote last, the request that it waits for, and the
/// requests that were asked, many at once.
#[derive(Drop)]
pub struct ManagerHandle {
    pub(crate) alloc: Global,
    pub(crate) manager: Manager,
    pub(crate) last: Option<Kept>,
    pub(crate) message: Option<Vec<u8>>,
    pub(crate) pending: Option<Pending>,
    pub(crate) requests: OutstandingRequests,
}

impl Model for ManagerHandle {
    ghost use Rattle.std.specs.Prelude.{option_map};
    ghost use Rattle.std.specs.Coded.{codes};
    ghost use Rattle.std.specs.FinMap as map;
    ghost use Rattle.engine_clock.specs.Marks.{marks_code};
    ghost use Rattle.snmp_handles.specs.Managers.{ManagerHeld};

    ghost Value = { ManagerHeld };

    ghost coded = { Prim.hlevel (codes, marks_code, map.code) };

    ghost view = { λ h. record {
      manager = h.manager;
      last = h.last;
      message = option_map (λ v. v.items) h.message;
      pending = h.pending;
      requests = h.requests;
    } };
}

/// What a request asks, and of whom.
#[derive(Clone, Copy, Debug)]
pub struct AskedOf<'a> {
    /// msgID, at most 2147483647.
    pub id: u32,
    /// The engine ID, of 5 to 32 octets.
    pub engine: &'a [u8],
    /// msgUserName, of at most 32 octets.
    pub user: &'a [u8],
    /// The level's number, 1 to 3.
    pub level: u32,
    pub context_engine: &'a [u8],
    pub context_name: &'a [u8],
    /// The PDU's tag, A0 to A8 and not A4.
    pub tag: u32,
    /// request-id, at most 2147483647.
    pub request_id: u32,
    /// error-status, or non-repeaters, at most 2147483647.
    pub second: u32,
    /// error-index, or max-repetitions, at most 2147483647.
    pub third: u32,
}

/// What the message that was kept is to the request.
fn answer(kept: &Kept, pending: &Pending) -> Answer
    ensures { (c : Contexts) (p : PduParts) → ScopedFront kept.now.text c → PduText c.pdu p
        → IsAnswer pending.now kept.now c p result }
{
    let taken = kept.taken();
    answer_of(pending, &taken)
}

/// The request that asks this, with the bindings that these octets are.
pub(crate) fn request(
    alloc: Global,
    manager: &mut Manager,
    now: u64,
    asked: &AskedInRange<'_>,
    list: &[u8],
    salt: [u8; 8],
) -> Result<(Vec<u8>, Pending), CallFault>
    ensures answer { AnswersRequest manager.old now
        (asking_of asked.now.of) asked.now.level list.now salt result }
    ensures same { manager.new ≡ manager.old }
{
    let AskedInRange { of, engine, level } = asked;
    let level = *level;
    if let Err(fault) = manager.supports(of.user, level) {
        return Err(CallFault::Refused(fault.refusal));
    }
    let bindings = bindings_of(alloc, list)?;
    let front = Front {
        context_engine: of.context_engine,
        context_name: of.context_name,
        tag: of.tag as u8,
        id: of.request_id as i32,
        second: of.second as i32,
        third: of.third as i32,
    };
    let target = Target {
        engine,
        user: of.user,
        level,
    };
    match manager.request_of(now, of.id, &target, &front, &bindings, salt) {
        Ok(sent) => Ok(sent),
        Err(fault) => Err(CallFault::Refused(fault.refusal)),
    }
}

impl ManagerHandle {
    /// A manager with the users of this configuration, in TOML, that begins with the clocks of this saved
    /// text, where the marks of version 1 were seen at the moment `now`.
    ///
    /// The errors are BadClocks, then BadConfiguration, or out of memory.
    pub fn of(
        alloc: Global,
        config: &[u8],
        clocks: &[u8],
        now: u64,
    ) -> Result<ManagerHandle, CallFault>
        ensures { MakesManager config.now clocks.now now result }
    {
        let clocks = match Clocks::read_saved(alloc, clocks, now) {
            Ok(clocks) => clocks,
            Err(ClockFault::Line(_)) => return Err(CallFault::BadClocks),
            Err(ClockFault::OutOfMemory) => {
                return Err(CallFault::Refused(Refusal::OutOfMemory));
            }
        };
        match Config::read(alloc, config) {
            Ok(config) => Ok(ManagerHandle {
                alloc,
                manager: Manager::new(alloc, config.users, clocks),
                last: None,
                message: None,
                pending: None,
                requests: OutstandingRequests::new(alloc),
            }),
            Err(ConfigFault::OutOfMemory) => Err(CallFault::Refused(Refusal::OutOfMemory)),
            Err(_) => Err(CallFault::BadConfiguration),
        }
    }

    /// Gives back the memory of all that is held. The error is out of memory, and changes nothing.
    pub fn clear(&mut self) -> Result<(), CallFault>
        ensures { ClearsManager self.old result self.new }
    {
        let users: Vec<UserRow> = Vec::new(self.alloc);
        let Ok(users) = Users::load(self.alloc, &users) else {
            return Err(CallFault::Refused(Refusal::OutOfMemory));
        };
        self.manager = Manager::new(self.alloc, users, Clocks::new(self.alloc));
        self.last = None;
        self.message = None;
        self.pending = None;
        self.requests = OutstandingRequests::new(self.alloc);
        Ok(())
    }

    /// Takes a datagram at the moment `now`, as `Manager::take` does, and keeps it where it is accepted. The
    /// request that is waited for stays.
    ///
    /// The errors are the refusals of `Manager::take`, and out of memory, which leaves the manager as it
    /// was: nothing is learned.
    pub fn take(&mut self, now: u64, datagram: &[u8]) -> Result<(), CallFault>
        ensures takes { ManagerTakes self.old now datagram.now result self.new }
        ensures no_memory { TakesNoMemory self.old.manager now datagram.now
            → result ≢ Err (CallFault.Refused Refusal.OutOfMemory) }
    {
        self.last = None;
        self.message = None;
        match self.manager.take_kept(now, datagram) {
            Ok(kept) => {
                self.last = Some(kept);
                Ok(())
            }
            Err(fault) => Err(CallFault::Refused(fault.refusal)),
        }
    }

    /// What the message that is kept is to the request that was written last (RFC 3412, section 7.2, steps 10
    /// to 12). The error is NothingTaken, where no message is kept or no request was written.
    pub fn answer(&self) -> Result<Answer, CallFault>
        ensures { TellsAnswer self.now result }
    {
        match (&self.last, &self.pending) {
            (Some(kept), Some(pending)) => Ok(answer(kept, pending)),
            _ => Err(CallFault::NothingTaken),
        }
    }

    /// Writes a request with the bindings that these octets are, as `Manager::request` does, leaves it to be
    /// sent and waits for its answer. On an error nothing changes.
    ///
    /// The errors are, the first that applies: BadArgument, where a number of `of` is out of its range, the
    /// engine ID hasn't 5 to 32 octets or the name is longer than 32; those of `Manager::supports`; then
    /// BadBindings, TooLarge (16), or out of memory, whichever is met first.
    pub fn request(
        &mut self,
        now: u64,
        of: &AskedOf<'_>,
        list: &[u8],
        salt: u64,
    ) -> Result<(), CallFault>
        ensures { RequestsHeld self.old now (asking_of of.now) list.now
            (to_be_bytes w64 salt) result self.new }
    {
        let Some(asked) = AskedInRange::of(of) else {
            return Err(CallFault::BadArgument);
        };
        let salt = salt.to_be_bytes();
        match request(self.alloc, &mut self.manager, now, &asked, list, salt) {
            Ok((text, pending)) => {
                self.message = Some(text);
                self.pending = Some(pending);
                Ok(())
            }
            Err(fault) => Err(fault),
        }
    }

    /// Writes the request by which an engine is discovered (RFC 3414, section 4), leaves it to be sent and
    /// waits for its answer. On an error nothing changes. The errors are BadArgument, where the msgID is
    /// above 2147483647, and out of memory.
    pub fn discover(&mut self, id: u32) -> Result<(), CallFault>
        ensures { DiscoversHeld self.old id result self.new }
    {
        if id > MAX_INTEGER32 {
            return Err(CallFault::BadArgument);
        }
        match self.manager.discover(id) {
            Ok((text, pending)) => {
                self.message = Some(text);
                self.pending = Some(pending);
                Ok(())
            }
            Err(_) => Err(CallFault::Refused(Refusal::OutOfMemory)),
        }
    }

    /// Joins in the clocks of this saved text, where the marks of version 1 were seen at the moment `now`. On
    /// an error nothing changes. The errors are BadClocks and out of memory.
    pub fn absorb(&mut self, text: &[u8], now: u64) -> Result<(), CallFault>
        ensures { AbsorbsHeld self.old text.now now result self.new }
    {
        let clocks = match Clocks::read_saved(self.alloc, text, now) {
            Ok(clocks) => clocks,
            Err(ClockFault::Line(_)) => return Err(CallFault::BadClocks),
            Err(ClockFault::OutOfMemory) => {
                return Err(CallFault::Refused(Refusal::OutOfMemory));
            }
        };
        match self.manager.absorb(&clocks) {
            Ok(()) => Ok(()),
            Err(_) => Err(CallFault::Refused(Refusal::OutOfMemory)),
        }
    }

    /// Leaves the saved text of the clocks as the message. The error is out of memory, and changes nothing.
    pub fn save(&mut self) -> Result<(), CallFault>
        ensures { SavesHeld self.old result self.new }
    {
        match self.manager.save() {
            Ok(text) => {
                self.message = Some(text);
                Ok(())
            }
            Err(_) => Err(CallFault::Refused(Refusal::OutOfMemory)),
        }
    }

    /// The pair that is held of the engine. The errors are BadArgument, where the engine ID hasn't 5 to 32 octets, and
    /// NothingTaken, where none is held.
    pub fn pair(&self, engine: &[u8]) -> Result<Pair, CallFault>
        ensures { TellsPair self.now engine.now result }
    {
        let Some(engine) = EngineId::of(engine) else {
            return Err(CallFault::BadArgument);
        };
        match self.manager.pair(&engine) {
            Some(pair) => Ok(pair),
            None => Err(CallFault::NothingTaken),
        }
    }

    /// Copies a part of what is kept, as of an agent.
    pub fn part(&self, part: Part, out: &mut [u8], written: &mut usize) -> Result<(), CallFault>
        ensures { CopiesPart self.now.last part out.old out.new written.old written.new result }
    {
        copied_part(&self.last, part, out, written)
    }

    /// Copies the message that is to be sent: the request that was written last, or the saved text.
    pub fn message(&self, out: &mut [u8], written: &mut usize) -> Result<(), CallFault>
        ensures { CopiesMessage self.now.message out.old out.new written.old written.new result }
    {
        copied_message(&self.message, out, written)
    }

    /// The level, the PDU's tag, request-id, second and third number, and msgID of what is kept.
    pub fn numbers(&self) -> Option<[i32; 6]>
        ensures { MatchOption result (self.now.last ≡ None)
            (λ numbers. (g : Given) × (self.now.last ≡ Some g) × AreNumbersOf g numbers) }
    {
        match &self.last {
            Some(kept) => Some(numbers_of(kept)),
            None => None,
        }
    }
}
