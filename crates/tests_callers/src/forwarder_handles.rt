//! The handle of a forwarder of notifications, that is given all that comes, from its configuration on.

ghost use Rattle.std.specs.Prelude.{◌≡◌, IfSome, List, length};
ghost use Rattle.snmp_forward.specs.Originating.{OriginatorEvent};
ghost use Rattle.tests_callers.specs.ForwardServed.{HandleGoesOn, HasForwarded, IsHandleRun};

use gate_handles::ForwardHandle;
use snmp_forward::notifications_are_originated;
use std::alloc::Global;

/// What a forwarder's handle is given, or that it may send.
pub enum ForwardCome<'a> {
    /// From the device of this number, this datagram.
    Trap(usize, &'a [u8]),
    /// From the receiver of this number, this datagram.
    Receiver(usize, &'a [u8]),
    /// Something may go out, with this salt and this request-id.
    Next(u64, u32),
}

/// Lets the handle take what comes at this moment, in milliseconds, or send. What finds no memory is passed over.
pub fn forward_handle_once(forwarder: &mut ForwardHandle, now: u64, coming: &ForwardCome<'_>)
    ensures { HandleGoesOn forwarder.old now coming.now forwarder.new }
{
    match coming {
        ForwardCome::Trap(device, datagram) => match forwarder.take_trap(*device, datagram) {
            Ok(_) => {}
            Err(_) => {}
        },
        ForwardCome::Receiver(receiver, datagram) => {
            match forwarder.take_receiver(now, *receiver, datagram) {
                Ok(_) => {}
                Err(_) => {}
            }
        }
        ForwardCome::Next(salt, ask_id) => match forwarder.next(now, *salt, *ask_id) {
            Ok(_) => {}
            Err(_) => {}
        },
    }
}

/// Forwards all that comes, each with its moment. The events, one for each, are a run of the handle.
pub fn forward_handle(forwarder: &mut ForwardHandle, comings: &[(u64, ForwardCome<'_>)])
    ensures { (events : List OriginatorEvent) × (length events ≡ length comings.now)
        × IsHandleRun forwarder.old events forwarder.new }
{
    for (now, coming) in comings {
        forward_handle_once(forwarder, *now, coming);
    }
}

/// Makes the handle of a forwarder of a configuration, with these boots, whose agent starts at the moment `started`, in
/// seconds, and forwards all that comes. So whatever comes, notifications and Informs have lawful histories, and no
/// more of them wait than may. None if the configuration is refused, or memory ran out.
pub fn forward_configured(
    alloc: Global,
    config: &[u8],
    boots: u32,
    started: u64,
    comings: &[(u64, ForwardCome<'_>)],
) -> Option<ForwardHandle>
    ensures { IfSome result (HasForwarded config.now boots started (length comings.now)) }
{
    notifications_are_originated();
    let Ok(mut forwarder) = ForwardHandle::of(alloc, config, boots, started) else {
        return None;
    };
    forward_handle(&mut forwarder, comings);
    Some(forwarder)
}
