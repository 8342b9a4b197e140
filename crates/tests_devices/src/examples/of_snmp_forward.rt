//! `snmp_forward`: a notification goes to a receiver that may be notified of it.
ghost use Rattle.std.specs.Prelude.{◌≡◌, IfOk};

use engine_clock::EngineId;
use snmp_agent::Agent;
use snmp_ber::Level;
use snmp_forward::{
    Forwarded, Forwarder, NotNotification, NotifyType, Receiver, Receivers, TrapTaken,
    WAITING_LIMIT,
};
use snmp_gate::{Device, Devices};
use snmpsec_config::{Config, ConfigFault};
use std::alloc::{AllocError, Global};
use std::test::Fail;

/// Ann may be notified of all, and Bob of the system group alone: not of snmpTrapOID.0, which each notification
/// has.
const TABLES: &[u8] = b"\
[[context]]\nname = 'rack-1-pdu'\n\
[[group]]\nmodel = 3\nname = 'ann'\ngroup = 'operators'\n\
[[group]]\nmodel = 3\nname = 'bob'\ngroup = 'visitors'\n\
[[access]]\ngroup = 'operators'\nprefix = 'rack-1-pdu'\nmatch = 'exact'\nmodel = 3\n\
level = 'noAuthNoPriv'\nnotify = 'all'\n\
[[access]]\ngroup = 'visitors'\nprefix = 'rack-1-pdu'\nmatch = 'exact'\nmodel = 3\n\
level = 'noAuthNoPriv'\nnotify = 'system'\n\
[[family]]\nview = 'all'\nsubtree = '1.3.6'\ninclude = true\n\
[[family]]\nview = 'system'\nsubtree = '1.3.6.1.2.1.1'\ninclude = true\n";

/// coldStart of a device with the community "public".
static TRAP: &[u8] = b"\x30\x40\x02\x01\x01\x04\x06public\
\xa7\x33\x02\x01\x07\x02\x01\x00\x02\x01\x00\x30\x28\
\x30\x0d\x06\x08\x2b\x06\x01\x02\x01\x01\x03\x00\x43\x01\x05\
\x30\x17\x06\x0a\x2b\x06\x01\x06\x03\x01\x01\x04\x01\x00\x06\x09\x2b\x06\x01\x06\x03\x01\x01\x05\x01";

/// What Ann is sent: the same in a message of SNMPv3 with msgID 9, from the gateway's engine with boots 1 and
/// time 5, for user "ann", in the context "rack-1-pdu".
static SENT: &[u8] =
    b"\x30\x7f\x02\x01\x03\x30\x0e\x02\x01\x09\x02\x03\x00\xff\xe3\x04\x01\x00\x02\x01\x03\
\x04\x1c\x30\x1a\x04\x09\x80\x00\x1f\x88\x04gate\x02\x01\x01\x02\x01\x05\x04\x03ann\x04\x00\x04\x00\
\x30\x4c\x04\x09\x80\x00\x1f\x88\x04gate\x04\x0arack-1-pdu\
\xa7\x33\x02\x01\x07\x02\x01\x00\x02\x01\x00\x30\x28\
\x30\x0d\x06\x08\x2b\x06\x01\x02\x01\x01\x03\x00\x43\x01\x05\
\x30\x17\x06\x0a\x2b\x06\x01\x06\x03\x01\x01\x04\x01\x00\x06\x09\x2b\x06\x01\x06\x03\x01\x01\x05\x01";

fn device(alloc: Global) -> Result<Device, AllocError> {
    let context = Vec::from_slice(alloc, b"rack-1-pdu")?;
    let community = Vec::from_slice(alloc, b"public")?;
    Ok(Device {
        context,
        community,
        write_community: None,
        max_size: 1472,
        repetitions: 32,
        names: 100,
        at_once: 32,
    })
}

fn devices(alloc: Global) -> Result<Devices, AllocError> {
    let device = device(alloc)?;
    let mut list = Vec::new(alloc);
    list.push(device)?;
    Devices::new(list).map_err(|_| AllocError)
}

fn receivers(alloc: Global) -> Result<Receivers, AllocError> {
    let mut list = Vec::new(alloc);
    for user in [b"bob", b"ann"] {
        list.push(Receiver {
            user: Vec::from_slice(alloc, user)?,
            level: Level::NoAuthNoPriv,
            notify_type: NotifyType::Trap,
        })?;
    }
    Receivers::new(list).map_err(|_| AllocError)
}

/// The gateway's engine, with the tables.
fn agent(alloc: Global, engine: EngineId) -> Result<Agent, ConfigFault>
    ensures { IfOk result (λ agent. agent.engine ≡ engine) }
{
    let config = Config::read(alloc, TABLES)?;
    Ok(Agent::new(alloc, engine, 1, 0, config.users, config.access))
}

fn forwarder(alloc: Global) -> Result<Forwarder, AllocError> {
    let engine = EngineId::of(b"\x80\x00\x1f\x88\x04gate").ok_or(AllocError)?;
    let (devices, receivers) = (devices(alloc)?, receivers(alloc)?);
    let own = engine.copy();
    let agent = agent(alloc, engine).map_err(|_| AllocError)?;
    Ok(Forwarder::new(alloc, agent, own, devices, receivers, WAITING_LIMIT))
}

fn took(forwarder: &mut Forwarder) -> Result<[TrapTaken; 3], AllocError> {
    let nothing = forwarder.take_trap(0, b"no message")?;
    let other = forwarder.take_trap(1, TRAP)?;
    let waits = forwarder.take_trap(0, TRAP)?;
    Ok([nothing, other, waits])
}

fn is_sent(forwarder: &mut Forwarder) -> Result<bool, AllocError> {
    match forwarder.next(5_000, [0; 8], 9)? {
        Forwarded::ToReceiver {
            receiver,
            datagram,
            ..
        } => Ok(receiver == 1 && datagram.as_slice() == SENT),
        _ => Ok(false),
    }
}

/// What becomes of what was taken, whether the Trap is sent on, and what is left.
type SentOn = ([TrapTaken; 3], bool, (Option<u64>, usize));

fn sent_on_by(forwarder: &mut Forwarder) -> Result<SentOn, AllocError> {
    let took = took(forwarder)?;
    let is_sent = is_sent(forwarder)?;
    Ok((took, is_sent, (forwarder.due(), forwarder.waiting())))
}

fn sent_on(alloc: Global) -> Result<SentOn, AllocError> {
    let mut forwarder = forwarder(alloc)?;
    let sent_on = sent_on_by(&mut forwarder);
    drop(forwarder);
    sent_on
}

#[test]
fn a_notification_goes_to_a_receiver_that_may_be_notified(rt: HostRuntime) -> Result<(), Fail> {
    let (took, is_sent, left) = sent_on(rt.alloc())?;
    let became = [
        TrapTaken::NotNotification(NotNotification::Unreadable),
        TrapTaken::OtherCommunity,
        TrapTaken::Waits(0),
    ];
    assert_eq!(rt; took, became);
    assert!(rt; is_sent);
    assert_eq!(rt; left, (None, 0));
    Ok(())
}
