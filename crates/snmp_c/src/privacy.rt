//! Texts sealed and opened by AES-128 in cipher feedback mode (RFC 3826), without a handle.

ghost use Rattle.snmp_c.specs.Calls.{Done};
ghost use Rattle.snmp_c.specs.Privacy.{Seals, Opens};

use snmp_handles::{CallFault, code_of};
use usm_aes::{cfb_open, cfb_seal, expand, iv};

/// Seals a text of any length in its place (RFC 3826, section 3.1.3), under an AES-128 key, the first 16
/// octets of a localised key, and the initialization vector of the authoritative engine's boots and time, in
/// seconds, and of the salt, 8 octets (section 3.1.2.1). No salt is to come twice for a key.
///
/// It answers -1 where the key hasn't 16 octets or the salt hasn't 8; the text is then as it was.
#[unsafe(no_mangle)]
pub extern "C" fn proved_seal(
    key: &[u8],
    boots: u32,
    time: u32,
    salt: &[u8],
    text: &mut [u8],
) -> i32
    ensures { Done (Seals key.now boots time salt.now text.old text.new) result }
{
    code_of(seal(key, boots, time, salt, text))
}

/// Opens a sealed text in its place (RFC 3826, section 3.1.4), under the key, boots, time and salt with which
/// it was sealed.
///
/// It answers -1 where the key hasn't 16 octets or the salt hasn't 8; the text is then as it was.
#[unsafe(no_mangle)]
pub extern "C" fn proved_open(
    key: &[u8],
    boots: u32,
    time: u32,
    salt: &[u8],
    text: &mut [u8],
) -> i32
    ensures { Done (Opens key.now boots time salt.now text.old text.new) result }
{
    code_of(open(key, boots, time, salt, text))
}

/// Seals a text in its place. The error is BadArgument.
fn seal(key: &[u8], boots: u32, time: u32, salt: &[u8], text: &mut [u8]) -> Result<(), CallFault>
    ensures { Seals key.now boots time salt.now text.old text.new result }
{
    let key = key.as_array::<16>().ok_or(CallFault::BadArgument)?;
    let salt = salt.as_array::<8>().ok_or(CallFault::BadArgument)?;
    cfb_seal(&expand(key), iv(boots, time, salt), text);
    Ok(())
}

/// Opens a text in its place. The error is BadArgument.
fn open(key: &[u8], boots: u32, time: u32, salt: &[u8], text: &mut [u8]) -> Result<(), CallFault>
    ensures { Opens key.now boots time salt.now text.old text.new result }
{
    let key = key.as_array::<16>().ok_or(CallFault::BadArgument)?;
    let salt = salt.as_array::<8>().ok_or(CallFault::BadArgument)?;
    cfb_open(&expand(key), iv(boots, time, salt), text);
    Ok(())
}
