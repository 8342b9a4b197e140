//! What a gateway is made of, as its configuration says.

ghost use Rattle.std.specs.Prelude.{◌≡◌, IfOk, map, option_map};
ghost use Rattle.gate_handles.specs.Gates.{device_said, device_parts, limits_said};

use snmp_gate::{Device, GateLimits, Retries};
use snmpsec_gate_config::{DeviceSettings, GateSettings};
use std::alloc::{AllocError, Global};

/// For how many names a device is asked at once at most by a GetBulkRequest.
pub const NAMES: usize = 100;

/// How many messages wait at most that ask the same.
pub const JOINED: usize = 16;

/// With more than so many octets of values and arcs of names a GetBulkRequest is answered with what is there.
pub const GATHERED: usize = 262_028;

/// How many Informs wait at most to be acknowledged.
pub const INFORMS_LIMIT: usize = 1_024;

/// Returns the limits that the configuration says, and those that it can't say.
pub(crate) fn limits_of(said: &GateSettings) -> GateLimits
    ensures { result ≡ limits_said said.now }
{
    GateLimits {
        waiting: said.limits.waiting,
        waiting_per_device: said.limits.waiting_per_device,
        joined: JOINED,
        rounds: said.limits.rounds,
        retries: Retries {
            again: said.limits.again,
            tries: said.limits.tries,
            last: said.limits.last,
        },
        gather: said.limits.gather,
        gathered: GATHERED,
        long_answers: said.long_answers,
        report_unreachable: said.report_unreachable,
    }
}

/// Returns the community for a Set, if there is one.
fn write_community_of(alloc: Global, said: &DeviceSettings) -> Result<Option<Vec<u8>>, AllocError>
    ensures { IfOk result (λ own. option_map (λ c. c.items) own
        ≡ option_map (λ c. c.items) said.now.write_community) }
{
    match &said.write_community {
        Some(community) => {
            let own = Vec::from_slice(alloc, community)?;
            Ok(Some(own))
        }
        None => Ok(None),
    }
}

/// Returns a device as the configuration says.
fn device_of(alloc: Global, said: &DeviceSettings) -> Result<Device, AllocError>
    ensures { IfOk result (λ device. device_parts device ≡ device_said said.now) }
{
    let context = Vec::from_slice(alloc, said.context.as_slice())?;
    let community = Vec::from_slice(alloc, &said.community)?;
    let write_community = write_community_of(alloc, said)?;
    Ok(Device {
        context,
        community,
        write_community,
        max_size: said.limits.max_size,
        repetitions: said.limits.repetitions,
        names: NAMES,
        at_once: said.limits.at_once,
    })
}

/// Returns the devices that the configuration says, in its order.
pub(crate) fn devices_of(alloc: Global, said: &[DeviceSettings]) -> Result<Vec<Device>, AllocError>
    ensures { IfOk result (λ devices. map device_parts devices.items ≡ map device_said said.now) }
{
    let mut devices = Vec::new(alloc);
    for device in said {
        let device = device_of(alloc, device)?;
        devices.push(device)?;
    }
    Ok(devices)
}
