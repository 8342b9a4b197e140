//! What a call of the gateway's machine tells.

ghost use Rattle.std.specs.Prelude.{◌≡◌, Ok};
ghost use Rattle.gate_handles.specs.Gates.{KeepsSaid, IsQuiet, TellsClient};
ghost use Rattle.gate_handles.specs.Gates.{LeavesRequest, TellsDevice, TellsSent};

use crate::event::GateEvent;
use crate::handle::GateHandle;
use crate::last::Last;
use crate::note::GateNote;
use snmp_gate::{ClientTaken, DeviceTaken, Sent};
use snmp_handles::CallFault;

impl GateHandle {
    /// Returns what is reported of what became of a client's datagram.
    pub(crate) fn took_client(&mut self, taken: ClientTaken) -> Result<GateEvent, CallFault>
        requires { IsQuiet self.old }
        ensures tells { TellsClient taken result self.new }
        ensures keeps { KeepsSaid self.old self.new }
        ensures gate { self.new.gate ≡ self.old.gate }
    {
        self.last = Last::of_client(&taken);
        match taken {
            ClientTaken::Refused(refused) => {
                self.message = refused.report;
                Err(CallFault::Refused(refused.why.refusal))
            }
            ClientTaken::Begins(number) => {
                self.note_request(number);
                Ok(GateEvent::Begins)
            }
            ClientTaken::Joins(number) => {
                self.note_request(number);
                Ok(GateEvent::Joins)
            }
            ClientTaken::NoRoom => Ok(GateEvent::NoRoom),
            ClientTaken::SetOfBefore => Ok(GateEvent::SetOfBefore),
        }
    }

    /// Notes the request for which a client's message waits.
    fn note_request(&mut self, number: u64)
        requires { IsQuiet self.old }
        ensures leaves { LeavesRequest self.new number }
        ensures keeps { KeepsSaid self.old self.new }
        ensures gate { self.new.gate ≡ self.old.gate }
    {
        self.request = number;
        self.note = GateNote::Request(self.gate.request_tag(number));
    }

    /// Returns what is reported of what became of a device's datagram.
    pub(crate) fn took_device(&mut self, taken: DeviceTaken) -> GateEvent
        requires { IsQuiet self.old }
        ensures tells { TellsDevice taken (Ok result) self.new }
        ensures device { self.new.device ≡ self.old.device }
        ensures keeps { KeepsSaid self.old self.new }
        ensures gate { self.new.gate ≡ self.old.gate }
    {
        self.last = Last::of_device(taken);
        match taken {
            DeviceTaken::Answers {
                number,
                says,
                fault,
                hidden,
            } => {
                self.request = number;
                self.note = GateNote::Answer(says, fault, hidden);
                GateEvent::Answers
            }
            DeviceTaken::NotWaitedFor => GateEvent::NotWaitedFor,
            DeviceTaken::Unreadable => GateEvent::Unreadable,
        }
    }

    /// Returns what is reported of what goes out.
    pub(crate) fn note_sent(&mut self, sent: Sent) -> GateEvent
        requires { IsQuiet self.old }
        ensures tells { TellsSent sent (Ok result) self.new }
        ensures keeps { KeepsSaid self.old self.new }
        ensures gate { self.new.gate ≡ self.old.gate }
    {
        self.last = Last::of_sent(&sent);
        match sent {
            Sent::ToClient {
                number,
                message: answered,
                says,
                datagram,
                ended,
            } => {
                self.request = number;
                self.answered = Some(answered);
                self.note = GateNote::to_client(says, ended);
                self.message = Some(datagram);
                GateEvent::ToClient
            }
            Sent::ToDevice {
                number,
                device,
                datagram,
                again,
            } => self.note_asked(number, device, datagram, again),
            Sent::Unanswered {
                number,
                message,
                why,
                ended,
            } => {
                self.request = number;
                self.answered = Some(message);
                self.note = GateNote::Unanswered(ended);
                GateEvent::Unanswered(why)
            }
            Sent::GivenUp {
                number,
                device,
                times,
            } => self.note_given_up(number, device, times),
            Sent::Nothing => GateEvent::Nothing,
        }
    }
    /// Returns what is reported of a device that is asked.
    fn note_asked(
        &mut self,
        number: u64,
        device: usize,
        datagram: Vec<u8>,
        again: bool,
    ) -> GateEvent
        requires { IsQuiet self.old }
        ensures tells { TellsSent (Sent.ToDevice number device datagram again) (Ok result) self.new }
        ensures keeps { KeepsSaid self.old self.new }
        ensures gate { self.new.gate ≡ self.old.gate }
    {
        self.request = number;
        self.device = device;
        self.note = GateNote::Asked(again);
        self.message = Some(datagram);
        GateEvent::ToDevice
    }

    /// Returns what is reported of a device that is given up.
    fn note_given_up(&mut self, number: u64, device: usize, times: u32) -> GateEvent
        requires { IsQuiet self.old }
        ensures tells { TellsSent (Sent.GivenUp number device times) (Ok result) self.new }
        ensures keeps { KeepsSaid self.old self.new }
        ensures gate { self.new.gate ≡ self.old.gate }
    {
        self.request = number;
        self.device = device;
        self.note = GateNote::GivenUp(times);
        GateEvent::GivenUp
    }
}
