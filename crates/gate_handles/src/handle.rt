//! A gateway with what its configuration says, and what came of the last call.

ghost use Rattle.std.specs.Prelude.{◌≡◌};
ghost use Rattle.std.specs.Int.{to_be_bytes, w64};
ghost use Rattle.snmp_agent.specs.Counts.{count_at};
ghost use Rattle.snmp_handles.specs.Parts.{CopiesMessage};
ghost use Rattle.gate_handles.specs.Gates.{MakesGate, Empties, IsGateDue};
ghost use Rattle.gate_handles.specs.Gates.{TakesClient, TakesDevice, SendsNext};
ghost use Rattle.gate_handles.specs.Gates.{ReadsGate};
ghost use Rattle.gate_handles.specs.Told.{CountsOf, MayNotify, ReadsAsker, ReadsSetting, info_of};

use crate::event::GateEvent;
use crate::gate_parts::{
    SaidAccess, access_of, agent_without_users, config_of, empty_agent, empty_settings, gate_of,
    rows_of, views_of,
};
use crate::last::Last;
use crate::note::{GateInfo, GateNote};
use crate::setting::{GateText, setting_text};
use crate::told::copied_octets;
use snmp_agent::Agent;
use snmp_ber::{MAX_INTEGER32, Oid};
use snmp_gate::{Gate, WaitingMessage};
use snmp_handles::{CallFault, copied_message};
use snmp_msg::Refusal;
use snmp_outgoing::Counter;
use snmpsec_gate_config::{DeviceSettings, GateConfig, GateRows, GateSettings, ReceiverSettings};
use std::alloc::Global;
use std::marker::Model;
use vacm_core::{Access, AccessRow, Name, ViewType};

/// A gateway, what its configuration says, and what came of the last call.
#[derive(Drop)]
pub struct GateHandle {
    pub(crate) alloc: Global,
    pub(crate) gate: Gate,
    pub(crate) settings: GateSettings,
    pub(crate) devices: Vec<DeviceSettings>,
    pub(crate) receivers: Vec<ReceiverSettings>,
    pub(crate) access: Vec<AccessRow>,
    /// The read views of access rows that no family row has.
    pub(crate) views: Vec<Name>,
    pub(crate) request: u64,
    pub(crate) device: usize,
    pub(crate) message: Option<Vec<u8>>,
    /// The message of a client that is answered, or isn't.
    pub(crate) answered: Option<WaitingMessage>,
    pub(crate) note: GateNote,
    /// What lines say, of which nothing is promised.
    pub(crate) last: Last,
}

impl Model for GateHandle {
    ghost use Rattle.std.specs.Prelude.{option_map};
    ghost use Rattle.std.specs.Coded.{codes};
    ghost use Rattle.snmp_gate.specs.contracts.gate.Gate as gates;
    ghost use Rattle.gate_handles.specs.Gates.{GateHeld};

    ghost Value = { GateHeld };

    ghost coded = { Prim.hlevel (codes, gates.the_row.coded) };

    ghost view = { λ h. record {
      gate = h.gate;
      settings = h.settings;
      devices = h.devices.items;
      receivers = h.receivers.items;
      access = h.access.items;
      views = h.views.items;
      request = h.request;
      device = h.device;
      message = option_map (λ v. v.items) h.message;
      client = option_map (λ m. m.client.items) h.answered;
      note = h.note;
    } };
}

/// The fault of a call that found no memory.
pub(crate) const NO_MEMORY: CallFault = CallFault::Refused(Refusal::OutOfMemory);

impl GateHandle {
    /// Returns a gateway of this configuration, in TOML, with these boots, whose agent started at the moment
    /// `started`, in seconds. No datagram has reached it.
    ///
    /// The errors are BadArgument, if boots are above 2147483647; then BadConfiguration, or out of memory.
    pub fn of(
        alloc: Global,
        config: &[u8],
        boots: u32,
        started: u64,
    ) -> Result<GateHandle, CallFault>
        ensures { MakesGate config.now boots started result }
    {
        if boots > MAX_INTEGER32 {
            return Err(CallFault::BadArgument);
        }
        let SaidAccess { access, views } = access_of(alloc, config)?;
        let said = config_of(alloc, config)?;
        let GateConfig {
            gate: settings,
            devices,
            receivers,
            users,
            access: tables,
        } = said;
        let agent = Agent::new(alloc, settings.engine.copy(), boots, started, users, tables);
        let Ok(gate) = gate_of(alloc, agent, &settings, &devices) else {
            return Err(NO_MEMORY);
        };
        Ok(GateHandle {
            alloc,
            gate,
            settings,
            devices,
            receivers,
            access,
            views,
            request: 0,
            device: 0,
            message: None,
            answered: None,
            note: GateNote::Nothing,
            last: Last::Nothing,
        })
    }

    /// Returns what this configuration says, in TOML, for `setting` and `may_notify`, in less time than a gateway
    /// takes: no password is hashed. Its gateway has no users and no devices, and answers nobody. It refuses what `of`
    /// refuses as a configuration.
    ///
    /// The errors are BadConfiguration and out of memory.
    pub fn read(alloc: Global, config: &[u8]) -> Result<GateHandle, CallFault>
        ensures { ReadsGate config.now result }
    {
        let said = rows_of(alloc, config)?;
        let GateRows {
            gate: settings,
            devices,
            receivers,
            rows,
        } = said;
        let agent = agent_without_users(alloc, settings.engine.copy(), &rows.access)?;
        let views = views_of(alloc, &rows.access)?;
        let none = Vec::new(alloc);
        let Ok(gate) = gate_of(alloc, agent, &settings, &none) else {
            return Err(NO_MEMORY);
        };
        let tables = rows.access;
        Ok(GateHandle {
            alloc,
            gate,
            settings,
            devices,
            receivers,
            access: tables.access,
            views,
            request: 0,
            device: 0,
            message: None,
            answered: None,
            note: GateNote::Nothing,
            last: Last::Nothing,
        })
    }

    /// Gives back the memory of all that is held: users, tables, devices, receivers, and what waits. The error is out
    /// of memory, and changes nothing.
    pub fn clear(&mut self) -> Result<(), CallFault>
        ensures { Empties self.old result self.new }
    {
        let agent = empty_agent(self.alloc)?;
        let settings = empty_settings(self.alloc, self.settings.engine.copy());
        let devices = Vec::new(self.alloc);
        let Ok(gate) = gate_of(self.alloc, agent, &settings, &devices) else {
            return Err(NO_MEMORY);
        };
        self.gate = gate;
        self.settings = settings;
        self.devices = devices;
        self.receivers = Vec::new(self.alloc);
        self.access = Vec::new(self.alloc);
        self.views = Vec::new(self.alloc);
        self.message = None;
        self.answered = None;
        self.note = GateNote::Nothing;
        self.last = Last::Nothing;
        Ok(())
    }

    /// Takes a datagram from a client at this moment, in milliseconds, as `Gate::take_client` does. The client's
    /// address is of any octets.
    ///
    /// The errors are the refusals of `Agent::take`, which leave the report to be sent, if there is one, and out of
    /// memory: then the datagram isn't taken, and may be taken again.
    pub fn take_client(
        &mut self,
        now: u64,
        client: &[u8],
        datagram: &[u8],
    ) -> Result<GateEvent, CallFault>
        ensures { TakesClient self.old now client.now datagram.now result self.new }
    {
        self.message = None;
        self.answered = None;
        self.note = GateNote::Nothing;
        self.last = Last::Nothing;
        match self.gate.take_client(now, client, datagram) {
            Ok(taken) => self.took_client(taken),
            Err(_) => Err(NO_MEMORY),
        }
    }

    /// Takes a datagram from the device of this number, counted from 0, at this moment, in milliseconds, as
    /// `Gate::take_device` does. Nothing is to be sent. The error is out of memory: then the datagram isn't taken,
    /// and may be taken again.
    pub fn take_device(
        &mut self,
        now: u64,
        device: usize,
        datagram: &[u8],
    ) -> Result<GateEvent, CallFault>
        ensures { TakesDevice self.old now device datagram.now result self.new }
    {
        self.message = None;
        self.answered = None;
        self.note = GateNote::Nothing;
        self.last = Last::Nothing;
        self.device = device;
        match self.gate.take_device(now, device, datagram) {
            Ok(taken) => Ok(self.took_device(taken)),
            Err(_) => Err(NO_MEMORY),
        }
    }

    /// Does the first thing that is due at this moment, in milliseconds, as `Gate::next` does, and leaves the
    /// datagram to be sent, if there is one. The error is out of memory: then the call may be made again.
    pub fn next(&mut self, now: u64, salt: u64, ask_id: u32) -> Result<GateEvent, CallFault>
        ensures { SendsNext self.old now (to_be_bytes w64 salt) ask_id result self.new }
    {
        self.message = None;
        self.answered = None;
        self.note = GateNote::Nothing;
        self.last = Last::Nothing;
        match self.gate.next(now, salt.to_be_bytes(), ask_id) {
            Ok(sent) => Ok(self.note_sent(sent)),
            Err(_) => Err(NO_MEMORY),
        }
    }

    /// Returns the moment, in milliseconds, from which on `next` has something to do by time alone, if there is one.
    pub fn due(&self) -> Option<u64>
        ensures { IsGateDue self.now.gate result }
    {
        self.gate.due()
    }

    /// Copies what is to be sent to the front of the buffer, and tells how many octets it has. The errors are
    /// NothingTaken, if nothing is to be sent, and ShortBuffer.
    pub fn message(&self, out: &mut [u8], written: &mut usize) -> Result<(), CallFault>
        ensures { CopiesMessage self.now.message out.old out.new written.old written.new result }
    {
        copied_message(&self.message, out, written)
    }

    /// Copies the address of the client whose message is answered, or isn't, in the same way, as it was given with the
    /// client's datagram.
    pub fn client(&self, out: &mut [u8], written: &mut usize) -> Result<(), CallFault>
        ensures { CopiesMessage self.now.client out.old out.new written.old written.new result }
    {
        match &self.answered {
            Some(answered) => copied_octets(&answered.client, out, written),
            None => Err(CallFault::NothingTaken),
        }
    }

    /// Copies the address of the client that asks the request with this number, in the same way. The errors are
    /// NothingTaken, if no such request waits, and ShortBuffer.
    pub fn asker(&self, request: u64, out: &mut [u8], written: &mut usize) -> Result<(), CallFault>
        ensures { ReadsAsker self.now request out.old out.new written.old written.new result }
    {
        match self.gate.request_message(request) {
            Some(message) => copied_octets(&message.client, out, written),
            None => Err(CallFault::NothingTaken),
        }
    }

    /// Copies what the configuration says at this position, counted from 0, in the same way: the setting's text, or a
    /// part of it for one device or one address. The errors are NothingTaken, if it says nothing there, ShortBuffer,
    /// and out of memory.
    pub fn setting(
        &self,
        setting: GateText,
        position: usize,
        out: &mut [u8],
        written: &mut usize,
    ) -> Result<(), CallFault>
        ensures { ReadsSetting self.now setting position out.old out.new written.old written.new result }
    {
        let text = setting_text(
            self.alloc,
            &self.settings,
            &self.devices,
            &self.receivers,
            &self.access,
            &self.views,
            setting,
            position,
        );
        match text {
            Ok(text) => copied_message(&text, out, written),
            Err(_) => Err(NO_MEMORY),
        }
    }

    /// Returns whether the receiver of this number may be notified of the variable with these arcs of the device of
    /// this number (RFC 3413, section 3.3, step 4). Numbers count from 0. The errors are NothingTaken, if there is no
    /// such receiver or device, and BadArgument, if there aren't 1 to 128 arcs.
    pub fn may_notify(
        &self,
        receiver: usize,
        device: usize,
        arcs: &[u32],
    ) -> Result<Access, CallFault>
        ensures { MayNotify self.now receiver device arcs.now result }
    {
        let Some(variable) = Oid::of(arcs) else {
            return Err(CallFault::BadArgument);
        };
        let Some(to) = self.receivers.get(receiver) else {
            return Err(CallFault::NothingTaken);
        };
        let Some(from) = self.devices.get(device) else {
            return Err(CallFault::NothingTaken);
        };
        let (user, context) = (to.user.as_slice(), from.context.as_slice());
        Ok(
            self.gate
                .agent()
                .may(user, to.level, context, ViewType::Notify, &variable),
        )
    }

    /// Returns what the last call was about, and what it told besides its event.
    pub fn info(&self) -> GateInfo
        ensures { result ≡ info_of self.now }
    {
        self.note.info(GateInfo {
            request: self.request,
            device: self.device,
            waiting: self.gate.waiting(),
            hidden: 0,
            binding: 0,
            misfit: 0,
            status: 0,
            index: 0,
            pdu: 0,
            ended: 0,
            unhandled: 0,
            is_report: false,
            again: false,
            times: 0,
        })
    }

    /// Returns counter n of the agent, usmStats n of RFC 3414, section 5. The error is BadArgument, if n isn't 1 to
    /// 6.
    pub fn counter(&self, n: u32) -> Result<u32, CallFault>
        ensures { CountsOf self.now n result }
    {
        if n > 6 {
            return Err(CallFault::BadArgument);
        }
        match self.gate.agent().counter(n as u8) {
            Some(value) => Ok(value),
            None => Err(CallFault::BadArgument),
        }
    }

    /// Returns how many messages this counter of the agent has counted.
    pub fn count(&self, counter: Counter) -> u32
        ensures { result ≡ count_at self.now.gate.agent.counts counter }
    {
        self.gate.agent().count(counter)
    }
}
