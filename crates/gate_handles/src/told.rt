//! Why a gateway's configuration is refused, and whom a datagram names, for callers in other languages.

ghost use Rattle.std.specs.Prelude.{◌≡◌, IfOk};
ghost use Rattle.snmp_handles.specs.Parts.{Copies};
ghost use Rattle.gate_handles.specs.Told.{TellsGate, IsTold, CopiesUser};

use snmp_handles::{CallFault, copied_message};
use snmp_message::{read_message, read_security};
use snmp_msg::Refusal;
use snmpsec_gate_config::{GateFault, GateRows};
use std::alloc::{AllocError, Global};

/// Returns the two lines that tell a fault.
fn fault_text(alloc: Global, fault: &GateFault) -> Result<Vec<u8>, AllocError>
    ensures { IfOk result (λ text. IsTold fault.now text.items) }
{
    let why = fault.why(alloc)?;
    let text = format!(in alloc; "{fault}\n{why}\n")?;
    Ok(text.into_bytes())
}

/// Tells why this text is refused as a gateway's configuration: Ok where it isn't, and no octet is written then.
///
/// If it is refused, the error is BadConfiguration, and the buffer has two lines: the refusal, and what is wrong and
/// what is expected. The other errors are out of memory, which writes nothing, and ShortBuffer: the text is longer
/// than the buffer, and only its length is written.
pub fn tell_gate_config(
    alloc: Global,
    config: &[u8],
    out: &mut [u8],
    written: &mut usize,
) -> Result<(), CallFault>
    ensures { TellsGate config.now out.old out.new written.old written.new result }
{
    let fault = match GateRows::read(alloc, config) {
        Ok(_) => {
            *written = 0;
            return Ok(());
        }
        Err(fault) => fault,
    };
    if fault.is_memory() {
        return Err(CallFault::Refused(Refusal::OutOfMemory));
    }
    let Ok(text) = fault_text(alloc, &fault) else {
        return Err(CallFault::Refused(Refusal::OutOfMemory));
    };
    let text = Some(text);
    copied_message(&text, out, written)?;
    Err(CallFault::BadConfiguration)
}

/// Copies the msgUserName of a datagram to the front of the buffer, and tells how many octets it has. Whether the
/// message is authentic isn't looked at. The errors are NotMessage, BadVersion or NotSecurity, if there is none, and
/// ShortBuffer, which tells the octets and leaves the buffer as it was.
pub fn copied_user(datagram: &[u8], out: &mut [u8], written: &mut usize) -> Result<(), CallFault>
    ensures { CopiesUser datagram.now out.old out.new written.old written.new result }
{
    let message = match read_message(datagram) {
        Ok(message) => message,
        Err(refused) => return Err(CallFault::Refused(refused.refusal)),
    };
    let security = match read_security(datagram, &message) {
        Ok(security) => security,
        Err(refused) => return Err(CallFault::Refused(refused.refusal)),
    };
    let user = security.user;
    *written = user.len();
    if user.len() > out.len() {
        return Err(CallFault::ShortBuffer);
    }
    out[..user.len()].copy_from_slice(user);
    Ok(())
}

/// Copies the octets to the front of the buffer, and tells how many they are. The error is ShortBuffer, which leaves
/// the buffer as it was.
pub(crate) fn copied_octets(
    octets: &[u8],
    out: &mut [u8],
    written: &mut usize,
) -> Result<(), CallFault>
    ensures { Copies octets.now out.old out.new written.new result }
{
    *written = octets.len();
    if octets.len() > out.len() {
        return Err(CallFault::ShortBuffer);
    }
    out[..octets.len()].copy_from_slice(octets);
    Ok(())
}
