//! `gate_handles`: a gateway behind a handle is made of a configuration's text.
use gate_handles::{GateEvent, GateHandle, GateText};
use std::alloc::Global;
use std::test::Fail;

const TEXT: &[u8] = b"\
[gate]\nengine = '80001f8804676174652d31'\nboots = '/var/lib/snmpsec-gate/boots'\nlisten = ['192.0.2.1:161']\n\
[[device]]\ncontext = 'rack-1-pdu'\naddress = '10.1.0.7:161'\ncommunity = 'read-only'\n";

/// Whether the first device has its address.
fn has_address(gate: &GateHandle) -> bool {
    let mut out = [0; 40];
    let mut written = 0;
    let told = gate.setting(GateText::Address, 0, &mut out, &mut written);
    told.is_ok() && written == 12 && out.starts_with(b"10.1.0.7:161")
}

/// Whether the device has its address, whether what isn't a message is taken, and what is due then, and its number.
type Told = (bool, bool, u32, GateEvent);

fn told_by(gate: &mut GateHandle) -> Result<Told, Fail> {
    let is_taken = gate.take_client(1000, b"client", b"no message").is_ok();
    let event = gate.next(1000, 1, 1)?;
    Ok((has_address(gate), is_taken, event.number(), event))
}

fn told(alloc: Global) -> Result<Told, Fail> {
    let mut gate = GateHandle::of(alloc, TEXT, 1, 0)?;
    let told = told_by(&mut gate);
    drop(gate);
    told
}

#[test]
fn a_gateway_is_made_of_a_text(rt: HostRuntime) -> Result<(), Fail> {
    let (has_address, is_taken, number, event) = told(rt.alloc())?;
    assert!(rt; has_address && !is_taken);
    assert_eq!(rt; (number, event), (0, GateEvent::Nothing));
    Ok(())
}
