//! A receiver of notifications, with what it reported last and what is to be sent.

ghost use Rattle.std.specs.Prelude.{◌≡◌, ◌≤◌, ◌↔◌, All, IfErr, IfOk, IsTrue, MatchOption, None, Some, []};
ghost use Rattle.std.specs.Int.{to_be_bytes, w64};
ghost use Rattle.engine_clock.specs.Pairs.{pair_max};
ghost use Rattle.snmp_incoming.specs.Outcome.{Given};
ghost use Rattle.snmp_handles.specs.Agents.{IsOwnEngine};
ghost use Rattle.snmp_handles.specs.Parts.{AreNumbersOf, CopiesMessage, CopiesPart};
ghost use Rattle.listener_handles.specs.Listeners.{CountsListener, EmptiesListener, Holds, IsMadeOf};
ghost use Rattle.listener_handles.specs.Listeners.{MakesListener, SavesListener, TakesListener};
ghost use Rattle.listener_handles.specs.Listeners.{TellsSender, event_of};
ghost use Rattle.listener_handles.specs.Rules.{RefusesRules};

use crate::event::ListenerEvent;
use crate::rules::{NO_MEMORY, least_of, rules_of};
use crate::settings::ListenerSettings;
use engine_clock::{ClockFault, Clocks, EngineId, Pair};
use snmp_agent::Agent;
use snmp_ber::MAX_INTEGER32;
use snmp_handles::{CallFault, Part, copied_message, copied_part, numbers_of};
use snmp_incoming::Kept;
use snmp_listener::{Dropped, Listener, ListenerRules, ListenerTaken};
use snmp_manager::Manager;
use snmpsec_config::{Config, ConfigFault};
use std::alloc::Global;
use std::marker::Model;
use usm_core::{UserRow, Users};
use vacm_core::{Rows, Vacm};

/// A receiver of notifications, the notification that it reported last, and what is to be sent.
#[derive(Drop)]
pub struct ListenerHandle {
    alloc: Global,
    listener: Listener,
    last: Option<Kept>,
    message: Option<Vec<u8>>,
}

impl Model for ListenerHandle {
    ghost use Rattle.std.specs.Prelude.{option_map};
    ghost use Rattle.std.specs.Coded.{codes};
    ghost use Rattle.snmp_listener.specs.contracts.listener.Listener as listeners;
    ghost use Rattle.listener_handles.specs.Listeners.{ListenerHeld};

    ghost Value = { ListenerHeld };

    ghost coded = { Prim.hlevel (codes, listeners.the_row.coded) };

    ghost view = { λ h. record {
      listener = h.listener;
      last = h.last;
      message = option_map (λ v. v.items) h.message;
    } };
}

/// Whether each of the octets is this one.
fn is_all(octets: &[u8], octet: u8) -> bool
    ensures { IsTrue result ↔ All (λ o. o ≡ octet) octets.now }
{
    octets.iter().all(|o| *o == octet)
}

/// Returns the identifier that an engine has for its own: 5 to 32 octets, not all of them 0 and not all of them 255
/// (SnmpEngineID, RFC 3411, section 5).
fn own_engine(octets: &[u8]) -> Option<EngineId>
    ensures { MatchOption result (IsOwnEngine octets.now → ⊥)
        (λ engine. IsOwnEngine octets.now × (engine ≡ octets.now)) }
{
    if is_all(octets, 0) || is_all(octets, 255) {
        return None;
    }
    EngineId::of(octets)
}

/// Returns a listener of the users and the access of these settings, with this engine ID, clocks and rules.
///
/// The errors are BadConfiguration, and out of memory.
fn listener_of(
    alloc: Global,
    engine: EngineId,
    settings: &ListenerSettings<'_>,
    clocks: Clocks,
    rules: ListenerRules,
) -> Result<Listener, CallFault>
    requires engine { engine ≡ settings.now.engine.now }
    requires boots { settings.now.boots ≤ pair_max }
    ensures made { IfOk result (IsMadeOf settings.now clocks rules) }
    ensures refuses { IfErr result (RefusesRules settings.now.config.now) }
{
    let config = match Config::read(alloc, settings.config) {
        Ok(config) => config,
        Err(ConfigFault::OutOfMemory) => return Err(NO_MEMORY),
        Err(_) => return Err(CallFault::BadConfiguration),
    };
    let Ok(own) = config.users.try_clone() else {
        return Err(NO_MEMORY);
    };
    let agent = Agent::new(
        alloc,
        engine.copy(),
        settings.boots,
        settings.started,
        own,
        config.access,
    );
    let manager = Manager::new(alloc, config.users, clocks);
    Ok(Listener::new(alloc, engine, agent, manager, rules))
}

impl ListenerHandle {
    /// Returns a receiver of these settings, that took nothing.
    ///
    /// The errors are the first of these: BadArgument, if the least level, the engine ID or the boots are out of their
    /// range; BadClocks; BadConfiguration; or out of memory.
    pub fn of(alloc: Global, settings: &ListenerSettings<'_>) -> Result<ListenerHandle, CallFault>
        ensures { MakesListener settings.now result }
    {
        let (Some(engine), Some(least_level)) = (
            own_engine(settings.engine),
            least_of(settings.least_level),
        ) else {
            return Err(CallFault::BadArgument);
        };
        if settings.boots > MAX_INTEGER32 {
            return Err(CallFault::BadArgument);
        }
        let clocks = match Clocks::read_saved(alloc, settings.clocks, settings.clocks_moment) {
            Ok(clocks) => clocks,
            Err(ClockFault::Line(_)) => return Err(CallFault::BadClocks),
            Err(ClockFault::OutOfMemory) => return Err(NO_MEMORY),
        };
        let rules = rules_of(alloc, settings, least_level)?;
        Ok(ListenerHandle {
            alloc,
            listener: listener_of(alloc, engine, settings, clocks, rules)?,
            last: None,
            message: None,
        })
    }

    /// Gives back the memory of all that is held: users, tables, clocks, rules, and what was reported. The error is out
    /// of memory, and changes nothing.
    pub fn clear(&mut self) -> Result<(), CallFault>
        ensures { EmptiesListener self.old result self.new }
    {
        let Some(engine) = EngineId::of(&[0; 5]) else {
            unreachable!();
        };
        let users: Vec<UserRow> = Vec::new(self.alloc);
        let rows = Rows {
            contexts: Vec::new(self.alloc),
            groups: Vec::new(self.alloc),
            access: Vec::new(self.alloc),
            families: Vec::new(self.alloc),
        };
        let (Ok(users), Ok(own)) = (
            Users::load(self.alloc, &users),
            Users::load(self.alloc, &users),
        ) else {
            return Err(NO_MEMORY);
        };
        let Ok(tables) = Vacm::load(self.alloc, &rows) else {
            return Err(NO_MEMORY);
        };
        let agent = Agent::new(self.alloc, engine.copy(), 0, 0, own, tables);
        let manager = Manager::new(self.alloc, users, Clocks::new(self.alloc));
        let rules = ListenerRules {
            least_level: None,
            sources: Vec::new(self.alloc),
            viewed: Vec::new(self.alloc),
            most: 0,
        };
        self.listener = Listener::new(self.alloc, engine, agent, manager, rules);
        self.last = None;
        self.message = None;
        Ok(())
    }

    /// Takes a datagram at the moment `now` from an address, as `Listener::take` does, and returns what becomes of it.
    /// A notification that is reported is kept, for the calls below, and what is to be sent is the message.
    ///
    /// The error is out of memory, and changes nothing: the datagram isn't taken, and may be taken again.
    pub fn take(
        &mut self,
        now: u64,
        from: &[u8],
        datagram: &[u8],
        salt: u64,
    ) -> Result<ListenerEvent, CallFault>
        ensures { TakesListener self.old now from.now datagram.now (to_be_bytes w64 salt) result self.new }
    {
        match self.listener.take(now, from, datagram, salt.to_be_bytes()) {
            Ok(taken) => Ok(self.hold(taken)),
            Err(_) => Err(NO_MEMORY),
        }
    }

    /// Keeps what was reported and what is to be sent.
    fn hold(&mut self, taken: ListenerTaken) -> ListenerEvent
        ensures event { result ≡ event_of taken }
        ensures holds { Holds taken self.new }
        ensures listener { self.new.listener ≡ self.old.listener }
    {
        self.last = None;
        match taken {
            ListenerTaken::Trap(kept) => {
                self.last = Some(kept);
                self.message = None;
                ListenerEvent::Trap
            }
            ListenerTaken::Inform {
                kept,
                acknowledgement,
            } => {
                self.last = Some(kept);
                self.message = Some(acknowledgement);
                ListenerEvent::Inform
            }
            ListenerTaken::Copy { acknowledgement } => {
                self.message = acknowledgement;
                ListenerEvent::Dropped(Dropped::Copy)
            }
            ListenerTaken::Dropped { why, answer } => {
                self.message = answer;
                ListenerEvent::Dropped(why)
            }
        }
    }

    /// Returns the counter at a place: 1 to 18 the refusals by their numbers, 19 no notification, 20 below the least
    /// level, 21 another address, 22 outside of the notify view, 23 copies, 24 no room. The error is BadArgument: there
    /// is no such place.
    pub fn count(&self, place: usize) -> Result<u64, CallFault>
        ensures { CountsListener self.now place result }
    {
        match self.listener.count_at(place) {
            Some(count) => Ok(count),
            None => Err(CallFault::BadArgument),
        }
    }

    /// Leaves the saved text of the clocks of senders as the message. The error is out of memory, and changes nothing.
    pub fn save(&mut self) -> Result<(), CallFault>
        ensures { SavesListener self.old result self.new }
    {
        match self.listener.manager().save() {
            Ok(text) => {
                self.message = Some(text);
                Ok(())
            }
            Err(_) => Err(NO_MEMORY),
        }
    }

    /// Returns the pair that is held of a sender's engine. The errors are BadArgument, if the engine ID hasn't 5 to 32
    /// octets, and NothingTaken, if none is held.
    pub fn pair(&self, engine: &[u8]) -> Result<Pair, CallFault>
        ensures { TellsSender self.now engine.now result }
    {
        let Some(engine) = EngineId::of(engine) else {
            return Err(CallFault::BadArgument);
        };
        match self.listener.manager().pair(&engine) {
            Some(pair) => Ok(pair),
            None => Err(CallFault::NothingTaken),
        }
    }

    /// Copies a part of the notification that was reported last, as of an agent.
    pub fn part(&self, part: Part, out: &mut [u8], written: &mut usize) -> Result<(), CallFault>
        ensures { CopiesPart self.now.last part out.old out.new written.old written.new result }
    {
        copied_part(&self.last, part, out, written)
    }

    /// Copies the message: what is to be sent to the datagram's sender, or the saved text.
    pub fn message(&self, out: &mut [u8], written: &mut usize) -> Result<(), CallFault>
        ensures { CopiesMessage self.now.message out.old out.new written.old written.new result }
    {
        copied_message(&self.message, out, written)
    }

    /// Returns the level, the PDU's tag, request-id, second and third number, and msgID of the notification that was
    /// reported last.
    pub fn numbers(&self) -> Option<[i32; 6]>
        ensures { MatchOption result (self.now.last ≡ None)
            (λ numbers. (g : Given) × (self.now.last ≡ Some g) × AreNumbersOf g numbers) }
    {
        match &self.last {
            Some(kept) => Some(numbers_of(kept)),
            None => None,
        }
    }
}
