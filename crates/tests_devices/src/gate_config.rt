//! The configuration of a gateway where a growth of memory was refused, and the call is made again.
use snmpsec_gate_config::{
    DeviceLimits, DeviceSettings, GateConfig, GateFault, GateSettings, GatewayLimits,
};
use std::alloc::Global;
use std::process::Abort;
use std::test::Fail;

const TEXT: &[u8] = b"\
[gate]\nengine = '8000000001'\nboots = 'b'\nlisten = ['127.0.0.1:161', '[::1]:161']\ntraps = ['[::]:162']\n\
waiting = 1\nrounds = 2\nagain = 3\ntries = 4\nlast = 5\ngather = 6\nwaiting-per-device = 7\n\
report-unreachable = true\n\
[[device]]\ncontext = 'a'\naddress = '10.1.0.7:161'\ncommunity = 'c'\n\
[[device]]\ncontext = 'b'\naddress = '10.1.0.8:161'\ncommunity = 'c'\nwrite-community = 'w'\n\
repetitions = 1\nmax-size = 484\nat-once = 1024\n\
[[user]]\nname = 'ann'\n\
[[receiver]]\naddress = '10.1.0.9:162'\nuser = 'ann'\nlevel = 'noAuthNoPriv'\n";

/// Each limit of the gateway is another one than its default.
const LIMITS: GatewayLimits = GatewayLimits {
    waiting: 1,
    waiting_per_device: 7,
    rounds: 2,
    again: 3,
    tries: 4,
    last: 5,
    gather: 6,
};

/// The limits of the first device, of which nothing is said, and those of the second.
static OF_DEVICES: [DeviceLimits; 2] = [
    DeviceLimits {
        repetitions: 32,
        max_size: 65507,
        at_once: 32,
    },
    DeviceLimits {
        repetitions: 1,
        max_size: 484,
        at_once: 1024,
    },
];

/// What is read of the text, or of the text once more if memory ran out.
fn read(alloc: Global) -> Result<GateConfig, GateFault> {
    match GateConfig::read(alloc, TEXT) {
        Ok(config) => Ok(config),
        Err(_) => GateConfig::read(alloc, TEXT),
    }
}

/// The limits, and whether answers may be long and devices are reported.
fn assert_limits(rt: &impl Abort, gate: &GateSettings, devices: &[DeviceSettings]) {
    assert_eq!(rt; gate.limits, LIMITS);
    assert!(rt; !gate.long_answers && gate.report_unreachable);
    for (device, limits) in devices.iter().zip(OF_DEVICES.iter()) {
        assert_eq!(rt; device.limits, *limits);
    }
}

fn assert_read(rt: &impl Abort, config: &GateConfig) -> Result<(), Fail> {
    assert_limits(rt, &config.gate, &config.devices);
    assert_eq!(rt; (config.gate.listen.len(), config.devices.len()), (2, 2));
    let second = config.devices.get(1).ok_or("a device")?;
    let Some(community) = &second.write_community else {
        return Err("a community".into());
    };
    assert!(rt; community.as_slice() == b"w".as_slice());
    assert!(rt; second.community.as_slice() == b"c".as_slice());
    assert_eq!(rt; (config.gate.traps.len(), config.receivers.len()), (1, 1));
    Ok(())
}

#[test]
fn a_refused_growth_reads_the_same_gateway(rt: HostRuntime) -> Result<(), Fail> {
    let config = read(rt.alloc())?;
    assert_read(&rt, &config)
}
