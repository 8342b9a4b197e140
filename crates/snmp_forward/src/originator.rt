//! The notification originator: what comes from devices, and goes to receivers as Traps and Informs (RFC 3413, section
//! 3.3).

ghost use Rattle.std.specs.Prelude.{◌≡◌, ◌≢◌, ℕ, List, [], All, IfOk, OnErr, length};
ghost use Rattle.snmp_forward.specs.InformRuns.{TakesOne};
ghost use Rattle.snmp_forward.specs.InformStanding.{AreAsBefore};
ghost use Rattle.snmp_forward.specs.Originating.{IsOriginatorDue, IsSameOriginator, Originates, inform_as, trap_as};
ghost use Rattle.snmp_forward.specs.Runs.{TakesTrap};
ghost use Rattle.snmp_forward.specs.Standing.{IsAsBefore, IsTrapTaken};
ghost use Rattle.snmp_forward.specs.WaitingInforms.{IsDue};
ghost use Rattle.snmp_forward.specs.Written.{IsFirstInform};

use crate::forwarder::{Forwarder, TrapTaken, TrapTurn};
use crate::inform::Inform;
use crate::informs::{InformSent, Informs, ReceiverTaken};
use crate::trap::Written;
use snmp_gate::REQUEST_IDS;
use snmp_msg::Refusal;
use snmp_requests::SentMessage;
use std::alloc::AllocError;

/// What goes out. Receivers are known by their numbers, counted from 0.
#[derive(Drop)]
pub enum Originated {
    /// A Trap goes to a receiver.
    Trap {
        /// The number of the notification.
        number: u64,
        receiver: usize,
        datagram: Vec<u8>,
    },
    /// The notification with this number isn't sent to a receiver.
    Unsent {
        /// The number of the notification.
        number: u64,
        receiver: usize,
        /// The reason is one of the receiver's user, of the clock, or of the datagram's length.
        why: Refusal,
    },
    /// The notification begins to wait for a receiver's acknowledgement, as an Inform.
    InformBegins {
        /// The number of the notification.
        number: u64,
        receiver: usize,
        /// The number of the Inform.
        inform: u64,
    },
    /// The notification isn't sent to a receiver: as many Informs wait as may.
    NoRoom {
        /// The number of the notification.
        number: u64,
        receiver: usize,
    },
    /// A datagram goes to the receiver of an Inform.
    InformSent {
        /// The number of the Inform.
        inform: u64,
        receiver: usize,
        /// What it is: the Inform, or what is asked of the receiver's engine before.
        message: SentMessage,
        datagram: Vec<u8>,
    },
    /// The Inform has ended: nothing can be sealed for the receiver's user, for this reason.
    InformUnsent {
        /// The number of the Inform.
        inform: u64,
        receiver: usize,
        why: Refusal,
    },
    /// The Inform has ended: it was sent as often as it may be, or 65,536 messages wait for answers.
    InformGivenUp {
        /// The number of the Inform.
        inform: u64,
        receiver: usize,
        /// The counter of the last Report that came without authentication, which anybody can have sent.
        hint: Option<u8>,
    },
    /// There is nothing to do now.
    Nothing,
}

/// Notifies receivers that speak SNMPv3 of what devices sent, which speak SNMPv2c: by Traps, or by Informs that wait to
/// be acknowledged.
#[derive(Drop)]
pub struct Originator {
    pub(crate) forwarder: Forwarder,
    pub(crate) informs: Informs,
}

/// Returns what goes out, of what becomes of a notification that is sent as a Trap.
fn trap_of(turn: TrapTurn) -> Originated
    ensures { result ≡ trap_as turn }
{
    let (number, receiver) = (turn.number, turn.receiver);
    match turn.written {
        Written::Sends(datagram) => Originated::Trap {
            number,
            receiver,
            datagram,
        },
        Written::Refused(why) => Originated::Unsent {
            number,
            receiver,
            why,
        },
    }
}

/// Returns what goes out, of what goes out for an Inform.
fn inform_of(sent: InformSent) -> Originated
    ensures { result ≡ inform_as sent }
{
    match sent {
        InformSent::ToReceiver {
            number,
            receiver,
            message,
            datagram,
        } => Originated::InformSent {
            inform: number,
            receiver,
            message,
            datagram,
        },
        InformSent::Unsent {
            number,
            receiver,
            why,
        } => Originated::InformUnsent {
            inform: number,
            receiver,
            why,
        },
        InformSent::GivenUp {
            number,
            receiver,
            hint,
        } => Originated::InformGivenUp {
            inform: number,
            receiver,
            hint,
        },
        InformSent::Nothing => Originated::Nothing,
    }
}

impl Originator {
    /// Returns an originator of the notifications that this forwarder takes. Those for receivers that are notified by
    /// Informs are sent as these Informs are. It takes no memory.
    pub fn new(forwarder: Forwarder, informs: Informs) -> Originator
        ensures forwarder { result.forwarder ≡ forwarder }
        ensures informs { result.informs ≡ informs }
    {
        Originator { forwarder, informs }
    }

    /// Takes a datagram from the device of this number, counted from 0, as `Forwarder::take_trap` does: it waits to be
    /// sent to each receiver that may be notified of it. Nothing is sent.
    ///
    /// The error is out of memory. Then the datagram isn't taken, and may be taken again.
    pub fn take_trap(&mut self, device: usize, datagram: &[u8]) -> Result<TrapTaken, AllocError>
        ensures takes { IfOk result (λ taken. TakesTrap self.old.forwarder device datagram.now taken
            self.new.forwarder) }
        ensures taken { IfOk result (IsTrapTaken self.old.forwarder device datagram.now) }
        ensures informs { self.new.informs ≡ self.old.informs }
        ensures err { OnErr result (IsAsBefore self.old.forwarder self.new.forwarder) }
    {
        self.forwarder.take_trap(device, datagram)
    }

    /// Takes a datagram from the receiver of this number, counted from 0, at this moment, in milliseconds, as
    /// `Informs::take` does: it may acknowledge an Inform that was sent to that receiver.
    ///
    /// The error is out of memory. Then the datagram isn't taken, and may be taken again.
    pub fn take_receiver(
        &mut self,
        now: u64,
        receiver: usize,
        datagram: &[u8],
    ) -> Result<ReceiverTaken, AllocError>
        ensures takes { IfOk result (λ taken. TakesOne self.old.informs now receiver datagram.now taken
            self.new.informs) }
        ensures forwarder { self.new.forwarder ≡ self.old.forwarder }
        ensures err { OnErr result (AreAsBefore self.old.informs self.new.informs) }
    {
        self.informs.take(now, receiver, datagram)
    }

    /// Deals with the notification that waits longest, for the next of its receivers: it sends a Trap, or begins an
    /// Inform. If none waits, it does what is due for the first Inform for which something is to be done. The moment is
    /// in milliseconds. It returns what goes out: one datagram at most. It is called until it returns `Nothing`.
    ///
    /// No salt may come twice (RFC 3826, section 3.1.2.1). `ask_id` is a number that didn't come before, the first of
    /// them random. The msgID of a Trap is its remainder by 2147483648, and so is that of the very first message for an
    /// Inform.
    ///
    /// The error is out of memory. Then all is as before, and the call may be made again.
    pub fn next(&mut self, now: u64, salt: [u8; 8], ask_id: u32) -> Result<Originated, AllocError>
        ensures goes_out { IfOk result (λ what. Originates self.old now salt ask_id what self.new) }
        ensures nothing { IfOk result (λ what. what ≡ Originated.Nothing
            → (self.old.forwarder.waiting.list.items ≡ []) × All (λ w. ¬ IsDue now w) self.old.informs.list.items) }
        ensures err { OnErr result (IsSameOriginator self.old self.new) }
    {
        if let Some((number, inform)) = self.forwarder.first_inform()? {
            return self.begin(number, inform);
        }
        if let Some(turn) = self.forwarder.next_trap(now, salt, ask_id)? {
            return Ok(trap_of(turn));
        }
        let sent = self.informs.next(now, salt, ask_id % REQUEST_IDS)?;
        Ok(inform_of(sent))
    }

    /// The notification with this number, which waits longest, begins to wait for its acknowledgement, as this Inform.
    /// Where there is no room for it, it isn't sent.
    fn begin(&mut self, number: u64, inform: Inform) -> Result<Originated, AllocError>
        requires { IsFirstInform self.old.forwarder (Some (number, inform)) }
        ensures begins { IfOk result (λ what. (now : ℕ) (salt : List ℕ) (ask_id : ℕ)
            → Originates self.old now salt ask_id what self.new) }
        ensures something { IfOk result (λ what. what ≢ Originated.Nothing) }
        ensures err { OnErr result (IsSameOriginator self.old self.new) }
    {
        let receiver = inform.receiver;
        let added = self.informs.add_if_room(inform)?;
        self.forwarder.pass();
        let Some(inform) = added else {
            return Ok(Originated::NoRoom { number, receiver });
        };
        Ok(Originated::InformBegins {
            number,
            receiver,
            inform,
        })
    }

    /// Returns the moment, in milliseconds, from which on `next` has something to do by time alone: 0 if a notification
    /// waits to be sent.
    pub fn due(&self) -> Option<u64>
        ensures { IsOriginatorDue self.now result }
    {
        if self.waiting() > 0 {
            return Some(0);
        }
        self.informs.due()
    }

    /// Returns how many notifications wait to be sent.
    pub fn waiting(&self) -> usize
        ensures { result ≡ length self.now.forwarder.waiting.list.items }
    {
        self.forwarder.waiting()
    }

    /// Returns how many Informs wait to be acknowledged.
    pub fn informs(&self) -> usize
        ensures { result ≡ length self.now.informs.list.items }
    {
        self.informs.len()
    }
}
