//! What the tests notify, and whom.

use engine_clock::EngineId;
use snmp_agent::Agent;
use snmp_ber::Level;
use snmp_forward::{NotifyType, Receiver, Receivers};
use snmp_gate::{Device, Devices};
use snmpsec_config::Config;
use std::alloc::{AllocError, Global};
use usm_core::Users;
use vacm_core::Vacm;

const TABLES: &[u8] = b"\
[[user]]\nname = 'ann'\nauth = 'sha1'\nauth-password = 'correct horse'\n\
[[context]]\nname = 'pdu'\n\
[[group]]\nmodel = 3\nname = 'ann'\ngroup = 'operators'\n\
[[access]]\ngroup = 'operators'\nprefix = 'pdu'\nmatch = 'exact'\nmodel = 3\n\
level = 'authNoPriv'\nnotify = 'all'\n\
[[family]]\nview = 'all'\nsubtree = '1.3.6'\ninclude = true\n";

/// coldStart of a device with the community "public".
pub static TRAP: &[u8] = b"\x30\x40\x02\x01\x01\x04\x06public\
\xa7\x33\x02\x01\x07\x02\x01\x00\x02\x01\x00\x30\x28\
\x30\x0d\x06\x08\x2b\x06\x01\x02\x01\x01\x03\x00\x43\x01\x05\
\x30\x17\x06\x0a\x2b\x06\x01\x06\x03\x01\x01\x04\x01\x00\x06\x09\x2b\x06\x01\x06\x03\x01\x01\x05\x01";

fn config_of(alloc: Global) -> Result<Config, AllocError> {
    match Config::read(alloc, TABLES) {
        Ok(config) => Ok(config),
        Err(_) => Config::read(alloc, TABLES).map_err(|_| AllocError),
    }
}

pub fn users_of(alloc: Global) -> Result<Users, AllocError> {
    match config_of(alloc) {
        Ok(config) => Ok(config.users),
        Err(_) => Err(AllocError),
    }
}

pub fn tables_of(alloc: Global) -> Result<Vacm, AllocError> {
    match config_of(alloc) {
        Ok(config) => Ok(config.access),
        Err(_) => Err(AllocError),
    }
}

pub fn gate() -> Result<EngineId, AllocError> {
    EngineId::of(b"\x80\x00\x1f\x88\x04gate").ok_or(AllocError)
}

fn device(alloc: Global) -> Result<Device, AllocError> {
    let context = Vec::from_slice(alloc, b"pdu")?;
    let community = Vec::from_slice(alloc, b"public")?;
    Ok(Device {
        context,
        community,
        write_community: None,
        max_size: 1472,
        repetitions: 32,
        names: 100,
        at_once: 32,
    })
}

pub fn devices(alloc: Global) -> Result<Devices, AllocError> {
    let device = device(alloc)?;
    let mut list = Vec::new(alloc);
    list.push(device)?;
    Devices::new(list).map_err(|_| AllocError)
}

/// Ann at one receiver for each of these.
pub fn receivers(alloc: Global, notify_types: &[NotifyType]) -> Result<Receivers, AllocError> {
    let mut list = Vec::new(alloc);
    for notify_type in notify_types {
        list.push(Receiver {
            user: Vec::from_slice(alloc, b"ann")?,
            level: Level::AuthNoPriv,
            notify_type: *notify_type,
        })?;
    }
    Receivers::new(list).map_err(|_| AllocError)
}

/// A receiver's engine, which has her too.
pub fn receiver(alloc: Global) -> Result<Agent, AllocError> {
    let engine = EngineId::of(b"\x80\x00\x1f\x88\x04receiver").ok_or(AllocError)?;
    let config = config_of(alloc)?;
    Ok(Agent::new(alloc, engine, 1, 0, config.users, config.access))
}

fn answer(receiver: &mut Agent, datagram: &[u8]) -> Result<Vec<u8>, AllocError> {
    match receiver.take(60, datagram) {
        Ok(taken) => receiver
            .respond(60, &taken, 0, 0, &[], [0; 8])
            .map_err(|_| AllocError),
        Err(refused) => refused.report.ok_or(AllocError),
    }
}

/// What the receiver answers, asked again if a growth is refused.
pub fn answered(receiver: &mut Agent, datagram: &[u8]) -> Result<Vec<u8>, AllocError> {
    match answer(receiver, datagram) {
        Ok(answer) => Ok(answer),
        Err(_) => answer(receiver, datagram),
    }
}
