//! What goes to receivers of notifications.

ghost use Rattle.std.specs.Prelude.{◌≡◌, All, IfOk, List, [], length};
ghost use Rattle.snmp_forward.specs.History.{Happening};
ghost use Rattle.snmp_forward.specs.InformHistory.{InformHappening};
ghost use Rattle.snmp_forward.specs.InformRuns.{begun_in};
ghost use Rattle.snmp_forward.specs.InformStanding.{InformsStand};
ghost use Rattle.snmp_forward.specs.Originating.{IsOriginatorHistoryOf, IsOriginatorRun, OriginatorEvent};
ghost use Rattle.snmp_forward.specs.Standing.{ForwarderStands};
ghost use Rattle.tests_callers.specs.Notified.{AreOfDevices, TellsNotified};
ghost use Rattle.tests_callers.specs.Served.{GoesOn};

use snmp_forward::{Originated, Originator, informs_are_mediated, notifications_are_originated};
use snmp_requests::SentMessage;
use std::alloc::AllocError;

/// What a program hands to the socket of a receiver, which is known by its number.
#[derive(Drop)]
pub enum Notice {
    /// A Trap or an Inform.
    Notifies(usize, Vec<u8>),
    /// What the receiver's engine is asked before an Inform: its ID, or its time.
    Asks(usize, Vec<u8>),
    Nothing,
}

/// Lets an originator do what is due, after any history in which each Inform is of a device's notification. A Trap and
/// an Inform have the variables of one notification that a device sent, and the receiver may be notified of each of
/// them in that device's context. Nothing else that goes out has a variable.
pub fn notify(
    originator: &mut Originator,
    now: u64,
    salt: [u8; 8],
    ask_id: u32,
) -> Result<Notice, AllocError>
    ensures { IfOk result (λ notice. (notifications : List Happening) (informs : List InformHappening)
        → ForwarderStands notifications originator.old.forwarder → InformsStand informs originator.old.informs
        → All (AreOfDevices originator.old) (begun_in informs) → TellsNotified originator.old notice) }
{
    informs_are_mediated();
    match originator.next(now, salt, ask_id)? {
        Originated::Trap {
            number: _,
            receiver,
            datagram,
        } => Ok(Notice::Notifies(receiver, datagram)),
        Originated::InformSent {
            inform: _,
            receiver,
            message,
            datagram,
        } => match message {
            SentMessage::Request => Ok(Notice::Notifies(receiver, datagram)),
            SentMessage::Discovery => Ok(Notice::Asks(receiver, datagram)),
            SentMessage::TimeRequest => Ok(Notice::Asks(receiver, datagram)),
        },
        _ => Ok(Notice::Nothing),
    }
}

/// What an originator is given, or that it may send.
pub enum Coming<'a> {
    /// From the device of this number, this datagram.
    Trap(usize, &'a [u8]),
    /// From the receiver of this number, this datagram.
    Receiver(usize, &'a [u8]),
    /// Something may go out, with this salt and this request-id.
    Next([u8; 8], u32),
}

/// Lets an originator take what comes at this moment, or send. What finds no memory is passed over.
pub fn forward_one(originator: &mut Originator, now: u64, coming: &Coming<'_>)
    ensures { GoesOn originator.old now coming.now originator.new }
{
    match coming {
        Coming::Trap(device, datagram) => match originator.take_trap(*device, datagram) {
            Ok(_) => {}
            Err(_) => {}
        },
        Coming::Receiver(receiver, datagram) => {
            match originator.take_receiver(now, *receiver, datagram) {
                Ok(_) => {}
                Err(_) => {}
            }
        }
        Coming::Next(salt, ask_id) => match originator.next(now, *salt, *ask_id) {
            Ok(_) => {}
            Err(_) => {}
        },
    }
}

/// Forwards all that comes, each with its moment. So whatever comes, its events, one for each, are a run of the
/// originator (`run`), and if that was a new one, they have lawful histories of its notifications and of its Informs
/// (`history`).
pub fn forward(originator: &mut Originator, comings: &[(u64, Coming<'_>)])
    ensures run { (events : List OriginatorEvent) × (length events ≡ length comings.now)
        × IsOriginatorRun originator.old events originator.new }
    ensures history { ForwarderStands [] originator.old.forwarder → InformsStand [] originator.old.informs
        → (events : List OriginatorEvent) × (notifications : List Happening) × (informs : List InformHappening)
        × IsOriginatorRun originator.old events originator.new
        × IsOriginatorHistoryOf originator.old events notifications informs }
{
    notifications_are_originated();
    for (now, coming) in comings {
        forward_one(originator, *now, coming);
    }
}
