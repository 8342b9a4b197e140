//! One request of a device whose engine ID, or whose boots and time, may be unknown, by numbers (RFC 3414, section 4).

ghost use Rattle.std.specs.Prelude.{◌≡◌};
ghost use Rattle.snmp_c.specs.Devices as spec;
ghost use Rattle.snmp_c.specs.Devices.{BeginsDevice, HearsDevice};

use snmp_handles::{CallFault, level_of};
use snmp_requests::{DeviceRequest, Heard, Known, NextStep, SentMessage};

/// Returns true for any number but 0.
fn is_set(number: u32) -> bool
    ensures { result ≡ spec.is_set number }
{
    number != 0
}

/// What is known of a device: 0 nothing, 1 its engine ID, 2 its boots and time too.
fn known_of(number: u32) -> Option<Known>
    ensures { result ≡ spec.known_of number }
{
    if number == 0 {
        Some(Known::Nothing)
    } else if number == 1 {
        Some(Known::Engine)
    } else if number == 2 {
        Some(Known::Clock)
    } else {
        None
    }
}

/// The number of a message: 0 the discovery, 1 the request for the time, 2 the request.
fn message_number(message: SentMessage) -> u8
    ensures { result ≡ spec.message_number message }
{
    match message {
        SentMessage::Discovery => 0,
        SentMessage::TimeRequest => 1,
        SentMessage::Request => 2,
    }
}

/// The number of what was sent last, 3 where nothing is sent any more.
fn sent_number(sent: Option<SentMessage>) -> u8
    ensures { result ≡ spec.sent_number sent }
{
    match sent {
        Some(message) => message_number(message),
        None => 3,
    }
}

/// What was sent last, by its number.
fn sent_of(number: u32) -> Option<Option<SentMessage>>
    ensures { result ≡ spec.sent_of number }
{
    if number == 0 {
        Some(Some(SentMessage::Discovery))
    } else if number == 1 {
        Some(Some(SentMessage::TimeRequest))
    } else if number == 2 {
        Some(Some(SentMessage::Request))
    } else if number == 3 {
        Some(None)
    } else {
        None
    }
}

/// What is heard: of the kind 0 the Response, of the kind 2 a Report of this counter.
fn heard_of(kind: u32, counter: u32, authentic: u32) -> Option<Heard>
    ensures { result ≡ spec.heard_of kind counter authentic }
{
    if kind == 0 {
        Some(Heard::Response)
    } else if kind == 2 {
        if counter < 256 {
            Some(Heard::Report {
                counter: counter as u8,
                authentic: is_set(authentic),
            })
        } else {
            None
        }
    } else {
        None
    }
}

/// What is kept of a request of a device between the calls, and what is to be done next.
#[repr(C)]
#[derive(Clone, Copy)]
pub struct DeviceSaid {
    /// What was sent last: 0 the discovery, 1 the request for the time, 2 the request, or 3 where nothing is sent
    /// any more.
    pub sent: u32,
    /// Whether the request was sent again. It is 0 at first.
    pub again: u32,
    /// 0 to 2 this message is to be sent, 3 wait on, 4 the request is answered, 5 the engine refused it.
    pub step: u32,
    /// The counter that the engine reported where it refused the request.
    pub counter: u32,
}

/// Tells what is to be done.
fn tell_step(step: NextStep, said: &mut DeviceSaid)
    ensures { said.new ≡ spec.tells_step said.old step }
{
    match step {
        NextStep::Send(message) => said.step = u32::from(message_number(message)),
        NextStep::Wait => said.step = 3,
        NextStep::Answered => said.step = 4,
        NextStep::Refused(counter) => {
            said.step = 5;
            said.counter = u32::from(counter);
        }
    }
}

/// What is to be sent first for a request of this level, of a device of which is known 0 nothing, 1 its engine ID,
/// or 2 its boots and time too: 0 the discovery, 1 the request for the time, which is unsealed, or 2 the request.
/// It answers 0; or -1 where the level isn't 1 to 3, or 0 to 2 isn't known, and nothing is written then.
#[unsafe(no_mangle)]
pub extern "C" fn proved_device_begin(level: u32, known: u32, sent: &mut u32) -> i32
    ensures { BeginsDevice level known sent.old sent.new result }
{
    let Some(level) = level_of(level) else {
        return CallFault::BadArgument.code();
    };
    let Some(known) = known_of(known) else {
        return CallFault::BadArgument.code();
    };
    *sent = u32::from(sent_number(DeviceRequest::new(level, known).sent));
    0
}

/// What is to be done once an answer came to the message that was sent last. The answer is of the kind 0, a
/// Response, or 2, a Report of this counter, which is authentic or not. Whether the manager holds boots and time of
/// the engine is `holds`. It answers 0; or -1, and writes nothing, where a number is out of its range.
#[unsafe(no_mangle)]
pub extern "C" fn proved_device_hear(
    level: u32,
    kind: u32,
    counter: u32,
    authentic: u32,
    holds: u32,
    said: &mut DeviceSaid,
) -> i32
    ensures { HearsDevice level kind counter authentic holds said.old said.new result }
{
    let Some(level) = level_of(level) else {
        return CallFault::BadArgument.code();
    };
    let Some(message) = sent_of(said.sent) else {
        return CallFault::BadArgument.code();
    };
    let Some(heard) = heard_of(kind, counter, authentic) else {
        return CallFault::BadArgument.code();
    };
    let mut request = DeviceRequest {
        level,
        sent: message,
        again: is_set(said.again),
        hint: None,
    };
    let step = request.hear(heard, is_set(holds));
    said.sent = u32::from(sent_number(request.sent));
    said.again = u32::from(request.again);
    tell_step(step, said);
    0
}
