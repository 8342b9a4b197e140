//! `snmp_gate`: a contextName names one device.
use snmp_gate::{Device, Devices, RepeatedContext};
use std::alloc::{AllocError, Global};
use std::test::Fail;

fn device(alloc: Global, context: &[u8]) -> Result<Device, AllocError> {
    Ok(Device {
        context: Vec::from_slice(alloc, context)?,
        community: Vec::from_slice(alloc, b"public")?,
        write_community: None,
        max_size: 1472,
        repetitions: 32,
        names: 100,
        at_once: 32,
    })
}

/// Two devices, whose contexts are these.
fn two(alloc: Global, first: &[u8], second: &[u8]) -> Result<Vec<Device>, AllocError> {
    let mut list = Vec::new(alloc);
    list.push(device(alloc, first)?)?;
    list.push(device(alloc, second)?)?;
    Ok(list)
}

/// Which of two devices have these contexts.
fn found(alloc: Global) -> Result<(Option<usize>, Option<usize>), Fail> {
    let list = two(alloc, b"rack-1-pdu", b"rack-2-pdu")?;
    let devices = Devices::new(list)?;
    let second = devices.find(b"rack-2-pdu");
    Ok((second, devices.find(b"rack-3-pdu")))
}

/// Why no two devices have one context.
fn repeated(alloc: Global) -> Result<Option<RepeatedContext>, AllocError> {
    let same = two(alloc, b"rack-1-pdu", b"rack-1-pdu")?;
    Ok(Devices::new(same).err())
}

#[test]
fn a_context_names_one_device(rt: HostRuntime) -> Result<(), Fail> {
    assert_eq!(rt; found(rt.alloc())?, (Some(1), None));
    let repeated = repeated(rt.alloc())?;
    assert_eq!(rt; repeated, Some(RepeatedContext { number: 1 }));
    Ok(())
}
