//! The agent.

ghost use Rattle.std.specs.Prelude.{◌≡◌, ◌≤◌, ◌<◌, ◌⊎◌, replicate, IfErr, IsSome, MatchOption, MatchResult};
ghost use Rattle.engine_clock.specs.Pairs.{pair_max};
ghost use Rattle.snmp_agent.specs.RefusalCounters.{counter_at};
ghost use Rattle.snmp_agent.specs.Agent.{taker_of, taken_answer, AgentTakes, IsOpened};
ghost use Rattle.snmp_agent.specs.Report.{AgentReports, IsShortReport, OffersOnAnswer, report_of};
ghost use Rattle.snmp_message.specs.declared.refusal.Refusal.TheVariants.{OutOfMemory};
ghost use Rattle.snmp_message.specs.Refusals.{IsRefused};
ghost use Rattle.snmp_message.specs.Numbers.{in_table};

use crate::answers::{answers, view_for};
use crate::counter::{drop_counter_of, one_more};
use crate::decision::Decision;
use crate::engine::Engine;
use crate::judge::judge;
use crate::refusal_counters::count_refusal;
use crate::refused::Refused;
use crate::report::report;
use engine_clock::EngineId;
use snmp_ber::{Level, Oid};
use snmp_incoming::Taken;
use snmp_msg::{Refusal, RefusedAt, USER_BASED, one_content, one_pdu};
use snmp_outgoing::supports;
use std::alloc::{AllocError, Global};
use std::marker::Model;
use usm_core::{Users, read_layout};
use vacm_core::{Access, Vacm, ViewType};
use vacm_next::next_in_view;

/// An authoritative engine (RFC 3414, section 1.5.1), with its users, its view-based access (RFC 3415) and
/// the counters of what it refused. All moments are in seconds from one beginning, which the caller keeps.
#[derive(Drop)]
pub struct Agent {
    pub(crate) alloc: Global,
    pub(crate) engine: Engine,
    pub(crate) users: Users,
    pub(crate) vacm: Vacm,
    /// usmStats.
    pub(crate) counters: [u32; 6],
    /// The others, each at the place of its `Counter`.
    pub(crate) counts: [u32; 8],
}

impl Model for Agent {
    ghost use Rattle.snmp_agent.specs.Agent.{AgentState};

    ghost Value = { AgentState };

    ghost view = { λ a. record {
      engine = a.engine.id;
      boots = a.engine.boots;
      started = a.engine.started;
      users = a.users.users;
      tables = a.vacm;
      counters = a.counters;
      counts = a.counts;
    } };
}

impl Agent {
    ghost use Rattle.std.specs.Prelude.{◌≢◌, IfOk, IsOk};
    ghost use Rattle.snmp_message.specs.Scoped.{Contexts, ScopedFront};
    ghost use Rattle.snmp_msg.specs.PduTypes.{pdu_tag};
    ghost use Rattle.snmp_msg.specs.declared.pdu_type.PduType.TheVariants.{GetRequest, SetRequest};
    ghost use Rattle.snmp_msg.specs.Pdu.{PduParts, PduText};
    ghost use Rattle.vacm_core.specs.Allowed.{Allowed};
    ghost use Rattle.snmp_incoming.specs.Texts.{text_of};
    ghost use Rattle.snmp_incoming.specs.Answers.{given_of};
    ghost use Rattle.snmp_agent.specs.Decides.{NextSeen, question, question_of, IsDecision};
    ghost use Rattle.snmp_agent.specs.Sent.{CanSendAt, RefusesSenderAt};

    /// An agent that started at the moment `started`, with these boots, at most 2147483647. Its counters are
    /// 0. This takes no memory.
    pub fn new(
        alloc: Global,
        engine: EngineId,
        boots: u32,
        started: u64,
        users: Users,
        vacm: Vacm,
    ) -> Agent
        requires { boots ≤ pair_max }
        ensures { result ≡ record {
          engine = engine;
          boots = boots;
          started = started;
          users = users.users;
          tables = vacm;
          counters = replicate 6 0;
          counts = replicate 8 0;
        } }
    {
        Agent {
            alloc,
            engine: Engine {
                id: engine,
                boots,
                started,
            },
            users,
            vacm,
            counters: [0; 6],
            counts: [0; 8],
        }
    }

    /// Users and view-based access become those of a changed configuration. The engine, its boots, the moment of its
    /// start and all counters stay. It takes no memory.
    pub fn reconfigure(&mut self, users: Users, vacm: Vacm)
        ensures { self.new ≡ record self.old { users = users.users; tables = vacm } }
    {
        self.users = users;
        self.vacm = vacm;
    }

    /// The value of counter n, usmStats n of RFC 3414, section 5, or None where n isn't 1 to 6.
    pub fn counter(&self, n: u8) -> Option<u32>
        ensures { MatchOption result ((n ≡ 0) ⊎ (6 < n))
            (λ value. (1 ≤ n) × (n ≤ 6) × (value ≡ counter_at self.now.counters n)) }
    {
        if n == 0 || n > 6 {
            return None;
        }
        Some(self.counters[usize::from(n) - 1])
    }

    /// Takes a datagram at the moment `now`: reads and authenticates it (RFC 3412, section 7.2, and RFC 3414,
    /// section 3.2), looks at the time window, opens the message and reads its ScopedPDU. A refusal that has
    /// a counter adds one to it, and where that is one of usmStats it is reported where the message asks for
    /// reports, by a datagram of at most 484 octets.
    ///
    /// The errors are, the first that applies: ClockExhausted (15), where the engine's time would be above
    /// 2147483647; those of `Users::open_auth`; NotInWindow (10), DecryptionError (11), BadScoped (12) and
    /// BadPdu (13). OutOfMemory (14), from opening a message or instead of a refusal whose report finds
    /// no memory, leaves all as before. Memory is taken to open a sealed message that is in the window, and
    /// for a report.
    pub fn take<'a>(&mut self, now: u64, datagram: &'a [u8]) -> Result<Taken<'a>, Refused>
        ensures takes { AgentTakes self.old now datagram.now (taken_answer result) self.new }
        ensures report { IfErr result
            (λ r. AgentReports self.new now datagram.now (in_table r.why.refusal)
            (report_of r.report)) }
        ensures short { IfErr result (λ r. IsShortReport r.report) }
        ensures no_memory { (IsOpened (taker_of self.old) self.old.users now datagram.now → ⊥)
            → (OffersOnAnswer (taker_of self.old) self.old.users now datagram.now → ⊥)
            → IsSome (taken_answer result) }
    {
        let read = read_layout(datagram);
        let why = match judge(&mut self.users, &self.engine, now, datagram, &read) {
            Ok(taken) => return Ok(taken),
            Err(why) => why,
        };
        let none = Refused {
            why: RefusedAt::plain(Refusal::OutOfMemory),
            report: None,
        };
        if why.is_memory() {
            return Err(none);
        }
        let counters = count_refusal(self.counters, why.refusal);
        let counts = one_more(self.counts, drop_counter_of(why.refusal));
        match report(
            &mut self.users,
            &self.engine,
            now,
            &counters,
            why.refusal,
            datagram,
            &read,
        ) {
            Ok(report) => {
                self.counters = counters;
                self.counts = counts;
                Err(Refused { why, report })
            }
            Err(_) => Err(none),
        }
    }

    /// Whether the sender of an accepted message may see this variable in the message's context
    /// (isAccessAllowed, RFC 3415, section 3). The context's engine isn't looked at. It takes no memory.
    pub fn allows(&self, taken: &Taken<'_>, view: ViewType, variable: &Oid) -> Access
        ensures { (c : Contexts) → ScopedFront (text_of taken.now.text) c
            → Allowed self.now.tables (question_of (given_of taken.now) c)
            view variable.now result }
    {
        one_content();
        let scoped = taken.scoped();
        self.vacm.is_access_allowed(
            USER_BASED,
            taken.user,
            taken.level,
            view,
            scoped.name,
            variable,
        )
    }

    /// Returns the tables by which access is decided (RFC 3415, section 4).
    pub fn tables(&self) -> &Vacm
        ensures { result.now ≡ self.now.tables }
    {
        &self.vacm
    }

    /// The least name, at or after this one, that the sender of an accepted message may see in the message's
    /// context: the one for which `allows` answers `AccessAllowed`. None if there is no such name. It takes no memory.
    pub fn next_in_view(&self, taken: &Taken<'_>, view: ViewType, from: &Oid) -> Option<Oid>
        ensures { (c : Contexts) → ScopedFront (text_of taken.now.text) c
            → NextSeen self.now.tables (question_of (given_of taken.now) c) view from.now result }
    {
        one_content();
        let scoped = taken.scoped();
        let (user, level, context) = (taken.user, taken.level, scoped.name);
        next_in_view(&self.vacm, USER_BASED, user, level, view, context, from)
    }

    /// Whether this user at this level may see the variable, without a message, in the context of
    /// this name, as for the notify view of a notification. It takes no memory.
    pub fn may(
        &self,
        user: &[u8],
        level: Level,
        context: &[u8],
        view: ViewType,
        variable: &Oid,
    ) -> Access
        ensures { Allowed self.now.tables
            (question user.now level context.now) view variable.now result }
    {
        self.vacm
            .is_access_allowed(USER_BASED, user, level, view, context, variable)
    }

    /// Whether a request by name may see each variable that it names, in their order: a GetRequest by the
    /// read view, and a SetRequest by the write view. The names that another PDU asks for are known only as
    /// they are answered: for them there is `allows`, and no memory is taken here. The error says
    /// that memory ran out.
    pub fn decide(&self, taken: &Taken<'_>) -> Result<Decision, AllocError>
        ensures decision { IfOk result
            (λ d. (c : Contexts) (p : PduParts) → ScopedFront (text_of taken.now.text) c
            → PduText c.pdu p
            → IsDecision self.now.tables (given_of taken.now) c p d) }
        ensures no_memory { taken.now.tag ≢ pdu_tag GetRequest
            → taken.now.tag ≢ pdu_tag SetRequest → IsOk result }
    {
        one_content();
        one_pdu();
        let pdu = taken.pdu();
        let view = match view_for(pdu.tag) {
            Some(view) => view,
            None => return Ok(Decision::NotByName),
        };
        let scoped = taken.scoped();
        let answers = answers(self.alloc, &self.vacm, taken, scoped.name, view, &pdu)?;
        Ok(Decision::ByName(answers))
    }

    /// Whether messages of this user at this level can be sent at the moment `now` (RFC 3414, section 3.1).
    /// The errors are ClockExhausted (15), and then at levels with authentication UnknownUser (7), and where
    /// there is such a user UnsupportedLevel (8). It takes no memory.
    pub fn supports(&self, now: u64, user: &[u8], level: Level) -> Result<(), RefusedAt>
        ensures { MatchResult result (λ _. CanSendAt self.now now user.now level)
            (λ e. RefusesSenderAt self.now now user.now level e.refusal) }
    {
        if self.engine.pair(now).is_none() {
            return Err(RefusedAt::plain(Refusal::ClockExhausted));
        }
        supports(&self.users, user, level)
    }
}
