//! The receiver of notifications.

ghost use Rattle.std.specs.Prelude.{◌≡◌, ◌<◌, ◌≤◌, ℕ, List, None, Some, Ok, slice_index, IfOk, MatchOption, OnErr};
ghost use Rattle.snmp_agent.specs.Agent.{AgentTakes};
ghost use Rattle.snmp_listener.specs.Wanted.{IsForManager};
ghost use Rattle.snmp_listener.specs.Listening.{HasRoom, IsSame, ListenerTakes, TakesAs, inform};
ghost use Rattle.snmp_listener.specs.Listening.{IsUnacknowledged, Kind, new_listener, reason_of, state_of, trap};
ghost use Rattle.snmp_listener.specs.Counting.{place_of, places};

use crate::acknowledgement::{acknowledgement_of_kept, too_big_of_kept};
use crate::dropped::{Dropped, REASONS, counts_after};
use crate::rules::ListenerRules;
use crate::told::{ToldNote, ToldNotifications, digest_of, sender_of_kept};
use crate::wanted::is_for_manager;
use engine_clock::EngineId;
use snmp_agent::Agent;
use snmp_incoming::Kept;
use snmp_manager::Manager;
use snmp_msg::{PduType, RefusedAt};
use std::alloc::{AllocError, Global};

/// What becomes of a datagram.
#[derive(Drop)]
pub enum ListenerTaken {
    /// It is an SNMPv2-Trap, and told.
    Trap(Kept),
    /// It is an InformRequest, and told. The acknowledgement is to be sent to its sender.
    Inform {
        kept: Kept,
        acknowledgement: Vec<u8>,
    },
    /// It was told before. The acknowledgement of an InformRequest is to be sent again.
    Copy {
        acknowledgement: Option<Vec<u8>>,
    },
    /// It isn't reported. The answer is to be sent to its sender, if there is one: a Report, or the Response tooBig.
    Dropped {
        why: Dropped,
        answer: Option<Vec<u8>>,
    },
}

/// A receiver of notifications: of SNMPv2-Traps as a manager, and of InformRequests as the engine to which they are
/// sent (RFC 3413, section 3.4; RFC 3414, section 3.1). All moments are in seconds from one beginning, which the caller
/// keeps.
#[derive(Drop)]
pub struct Listener {
    alloc: Global,
    engine: EngineId,
    agent: Agent,
    manager: Manager,
    rules: ListenerRules,
    told: ToldNotifications,
    counts: [u64; REASONS],
}

/// Returns that a datagram isn't reported, and that nothing is sent.
fn silent_drop(why: Dropped) -> ListenerTaken
    ensures { result ≡ ListenerTaken.Dropped why None }
{
    ListenerTaken::Dropped { why, answer: None }
}

/// Returns that an Inform isn't reported, since its acknowledgement is refused for this fault. The error is out of
/// memory.
fn refuse_inform(
    agent: &mut Agent,
    now: u64,
    kept: &Kept,
    fault: RefusedAt,
    salt: [u8; 8],
) -> Result<ListenerTaken, AllocError>
    ensures ok { IfOk result (IsUnacknowledged agent.old now kept.now salt fault.refusal) }
    ensures same { agent.new ≡ agent.old }
{
    if fault.is_memory() {
        return Err(AllocError);
    }
    let answer = too_big_of_kept(agent, now, kept, salt)?;
    Ok(ListenerTaken::Dropped {
        why: Dropped::Refused(fault.refusal),
        answer,
    })
}

impl ListenerTaken {
    /// Returns the reason for which the datagram isn't reported. None: it is.
    pub fn reason(&self) -> Option<Dropped>
        ensures { result ≡ reason_of self.now }
    {
        match self {
            ListenerTaken::Trap(_) | ListenerTaken::Inform { .. } => None,
            ListenerTaken::Copy { .. } => Some(Dropped::Copy),
            ListenerTaken::Dropped { why, .. } => Some(*why),
        }
    }
}

impl Listener {
    /// Returns a listener that told nothing. The agent has this engine ID, which is the listener's own; the manager has
    /// the clocks of senders that are known. It takes no memory.
    pub fn new(
        alloc: Global,
        engine: EngineId,
        agent: Agent,
        manager: Manager,
        rules: ListenerRules,
    ) -> Listener
        requires { engine ≡ agent.engine }
        ensures { state_of result ≡ new_listener engine agent manager rules }
    {
        Listener {
            alloc,
            engine,
            agent,
            manager,
            rules,
            told: ToldNotifications::new(alloc),
            counts: [0; REASONS],
        }
    }

    /// Returns the manager, whose clocks are those of the senders.
    pub fn manager(&self) -> &Manager
        ensures { result.now ≡ self.now.manager }
    {
        &self.manager
    }

    /// Returns the agent, with the counters of its engine (RFC 3414, section 5).
    pub fn agent(&self) -> &Agent
        ensures { result.now ≡ self.now.agent }
    {
        &self.agent
    }

    /// Returns how many datagrams were dropped for this reason. After 18446744073709551615 it is 0.
    pub fn count(&self, why: Dropped) -> u64
        ensures { result ≡ slice_index self.now.counts (place_of why) }
    {
        self.counts[why.place()]
    }

    /// Returns the counter at a place, as `Dropped::place` has them. None: there is no such place.
    pub fn count_at(&self, place: usize) -> Option<u64>
        ensures { MatchOption result (places ≤ place)
            (λ count. (place < places) × (count ≡ slice_index self.now.counts place)) }
    {
        if place >= REASONS {
            return None;
        }
        Some(self.counts[place])
    }

    /// Takes a datagram at the moment `now`, which isn't before those of earlier calls, from an address. A datagram is
    /// the manager's if it is under another engine ID than the listener's own and asks for no report, and else the
    /// agent's (RFC 3412, section 6.4; RFC 3414, section 3.1). It is reported if and only if
    ///
    /// - it is accepted, by the agent an InformRequest, and by the manager an SNMPv2-Trap;
    /// - its level isn't below the least level;
    /// - it comes from one of the addresses, if it is at noAuthNoPriv;
    /// - it is in the notify view of its user, if that is one of those who need it (RFC 3415, section 3);
    /// - its digest isn't that of one that was told and can be accepted yet; and there is room to remember it;
    /// - its acknowledgement can be sealed within the sender's msgMaxSize, if it is an InformRequest (RFC 3416, section
    ///   4.2.7). Else it is dropped as TooLarge (16) with the Response tooBig, or as what sealing it is refused for.
    ///
    /// What is dropped, copies too, is counted by its reason. The salt is that of the acknowledgement, and is to be
    /// another one for each call. The error is out of memory, and then all is as before.
    pub fn take(
        &mut self,
        now: u64,
        from: &[u8],
        datagram: &[u8],
        salt: [u8; 8],
    ) -> Result<ListenerTaken, AllocError>
        ensures takes { IfOk result (λ what. ListenerTakes (state_of self.old) now from.now datagram.now salt what
            (state_of self.new)) }
        ensures err { OnErr result (state_of self.new ≡ state_of self.old) }
    {
        self.told.reserve()?;
        let taken = self.take_as(now, from, datagram, salt)?;
        self.counts = counts_after(self.counts, taken.reason());
        Ok(taken)
    }

    /// The same. Nothing is counted.
    fn take_as(
        &mut self,
        now: u64,
        from: &[u8],
        datagram: &[u8],
        salt: [u8; 8],
    ) -> Result<ListenerTaken, AllocError>
        requires { HasRoom self.old }
        ensures takes { IfOk result (λ what. (kind : Kind)
            × TakesAs kind (state_of self.old) now from.now datagram.now salt what
            (state_of self.new)) }
        ensures same { IsSame (state_of self.old) (state_of self.new) }
        ensures err { OnErr result (state_of self.new ≡ state_of self.old) }
    {
        if is_for_manager(&self.engine, datagram) {
            return self.take_trap(now, from, datagram);
        }
        self.take_inform(now, from, datagram, salt)
    }

    /// The same of a datagram that is the manager's.
    fn take_trap(
        &mut self,
        now: u64,
        from: &[u8],
        datagram: &[u8],
    ) -> Result<ListenerTaken, AllocError>
        requires is { IsForManager self.old.engine datagram.now }
        requires room { HasRoom self.old }
        ensures takes { IfOk result (λ what. (salt : List ℕ)
            → TakesAs trap (state_of self.old) now from.now datagram.now salt what
            (state_of self.new)) }
        ensures same { IsSame (state_of self.old) (state_of self.new) }
        ensures err { OnErr result (state_of self.new ≡ state_of self.old) }
    {
        let kept = match self.manager.take_kept(now, datagram) {
            Ok(kept) => kept,
            Err(fault) => {
                if fault.is_memory() {
                    return Err(AllocError);
                }
                return Ok(silent_drop(Dropped::Refused(fault.refusal)));
            }
        };
        let tag = PduType::SNMPv2Trap.tag();
        let tables = self.agent.tables();
        if let Some(why) = self
            .rules
            .reason_against_kept(&self.manager, tables, tag, from, &kept)
        {
            return Ok(silent_drop(why));
        }
        let sender = sender_of_kept(&self.manager, &kept);
        let (digest, most) = (digest_of(datagram), self.rules.most);
        match self.told.note(now, &self.manager, digest, sender, most) {
            ToldNote::New => Ok(ListenerTaken::Trap(kept)),
            ToldNote::Copy => Ok(ListenerTaken::Copy {
                acknowledgement: None,
            }),
            ToldNote::NoRoom => Ok(silent_drop(Dropped::NoRoom)),
        }
    }

    /// The same of a datagram that is the agent's.
    fn take_inform(
        &mut self,
        now: u64,
        from: &[u8],
        datagram: &[u8],
        salt: [u8; 8],
    ) -> Result<ListenerTaken, AllocError>
        requires is { ¬ IsForManager self.old.engine datagram.now }
        requires room { HasRoom self.old }
        ensures takes { IfOk result (λ what.
            TakesAs inform (state_of self.old) now from.now datagram.now salt what
            (state_of self.new)) }
        ensures same { IsSame (state_of self.old) (state_of self.new) }
        ensures err { OnErr result (state_of self.new ≡ state_of self.old) }
    {
        let taken = match self.agent.take(now, datagram) {
            Ok(taken) => taken,
            Err(refused) => {
                if refused.why.is_memory() {
                    return Err(AllocError);
                }
                return Ok(ListenerTaken::Dropped {
                    why: Dropped::Refused(refused.why.refusal),
                    answer: refused.report,
                });
            }
        };
        let kept = Kept::of(self.alloc, taken)?;
        self.tell_inform(now, from, datagram, salt, kept)
    }

    /// The same of a datagram that the agent accepted.
    fn tell_inform(
        &mut self,
        now: u64,
        from: &[u8],
        datagram: &[u8],
        salt: [u8; 8],
        kept: Kept,
    ) -> Result<ListenerTaken, AllocError>
        requires is { ¬ IsForManager self.old.engine datagram.now }
        requires accepted { AgentTakes self.old.agent now datagram.now (Some (Ok kept)) self.old.agent }
        requires room { HasRoom self.old }
        ensures takes { IfOk result (λ what.
            TakesAs inform (state_of self.old) now from.now datagram.now salt what
            (state_of self.new)) }
        ensures same { IsSame (state_of self.old) (state_of self.new) }
        ensures err { OnErr result (state_of self.new ≡ state_of self.old) }
    {
        let tag = PduType::InformRequest.tag();
        let tables = self.agent.tables();
        if let Some(why) = self
            .rules
            .reason_against_kept(&self.manager, tables, tag, from, &kept)
        {
            return Ok(silent_drop(why));
        }
        let text = match acknowledgement_of_kept(self.alloc, &mut self.agent, now, &kept, salt) {
            Ok(text) => text,
            Err(fault) => return refuse_inform(&mut self.agent, now, &kept, fault, salt),
        };
        let (digest, most) = (digest_of(datagram), self.rules.most);
        match self.told.note(now, &self.manager, digest, None, most) {
            ToldNote::New => Ok(ListenerTaken::Inform {
                kept,
                acknowledgement: text,
            }),
            ToldNote::Copy => Ok(ListenerTaken::Copy {
                acknowledgement: Some(text),
            }),
            ToldNote::NoRoom => Ok(silent_drop(Dropped::NoRoom)),
        }
    }
}
