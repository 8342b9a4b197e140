//! Keys and message authentication codes, without a handle.

ghost use Rattle.std.specs.Prelude.{◌≡◌};
ghost use Rattle.snmp_c.specs.Calls.{Done};
ghost use Rattle.snmp_c.specs.Keys.{WritesOctets, GivesKey, GivesLocalised, GivesCode, auth_of as auth_by};

use engine_clock::EngineId;
use snmp_handles::{CallFault, code_of};
use usm_keys::{Auth, Key, localise, mac, password_key};

/// Writes the key of a password, the same for all engines (RFC 3414, section A.2; RFC 7860, section 5), to
/// the front of the buffer, and how many octets it has: 16 for MD5, 20 for SHA-1, 32 for SHA-256. The
/// protocol has its number below snmpAuthProtocols: 2 usmHMACMD5AuthProtocol, 3 usmHMACSHAAuthProtocol (RFC
/// 3414, section 5), 5 usmHMAC192SHA256AuthProtocol (RFC 7860, section 8).
///
/// It answers -1 where no protocol has the number or the password has fewer than 8 octets, and else -5 where
/// the buffer is too short. Nothing is written then, and no octets are counted.
#[unsafe(no_mangle)]
pub extern "C" fn proved_password_key(
    protocol: u32,
    password: &[u8],
    out: &mut [u8],
    written: &mut usize,
) -> i32
    ensures { Done (GivesKey protocol password.now out.old out.new written.old written.new) result }
{
    code_of(give_key(protocol, password, out, written))
}

/// Writes the key localised to the engine (RFC 3414, section 2.6; RFC 7860, section 5) in the same way.
///
/// It answers -1 where no protocol has the number, the key has more than 32 octets or the engine ID hasn't 5
/// to 32, and else -5 where the buffer is too short. Nothing is written then, and no octets are counted.
#[unsafe(no_mangle)]
pub extern "C" fn proved_localise(
    protocol: u32,
    key: &[u8],
    engine: &[u8],
    out: &mut [u8],
    written: &mut usize,
) -> i32
    ensures { Done (GivesLocalised protocol key.now engine.now out.old
        out.new written.old written.new) result }
{
    code_of(give_localised(protocol, key, engine, out, written))
}

/// Writes the message authentication code, under a localised key, of `front`, as many zero octets as are
/// asked for, and `back`, joined (RFC 3414, sections 6.3.1 and 7.3.1; RFC 7860, section 4.2.1), in the same
/// way: 12 octets for MD5 and SHA-1, 24 for SHA-256. The zeros stand for the code's own place in the message.
///
/// It answers -1 where no protocol has the number, the key has more than 32 octets or the zeros are more than
/// 24, and else -5 where the buffer is too short. Nothing is written then, and no octets are counted.
#[unsafe(no_mangle)]
pub extern "C" fn proved_mac(
    protocol: u32,
    key: &[u8],
    front: &[u8],
    zeros: usize,
    back: &[u8],
    out: &mut [u8],
    written: &mut usize,
) -> i32
    ensures { Done (GivesCode protocol key.now front.now zeros back.now out.old out.new written.old
        written.new) result }
{
    code_of(give_code(protocol, key, front, zeros, back, out, written))
}

/// Writes the key of a password. The errors are BadArgument and then ShortBuffer.
fn give_key(
    protocol: u32,
    password: &[u8],
    out: &mut [u8],
    written: &mut usize,
) -> Result<(), CallFault>
    ensures { GivesKey protocol password.now out.old out.new written.old written.new result }
{
    let auth = auth_of(protocol).ok_or(CallFault::BadArgument)?;
    let Ok(key) = password_key(auth, password) else {
        return Err(CallFault::BadArgument);
    };
    give(key.as_slice(), out, written)
}

/// Writes a localised key. The errors are BadArgument and then ShortBuffer.
fn give_localised(
    protocol: u32,
    key: &[u8],
    engine: &[u8],
    out: &mut [u8],
    written: &mut usize,
) -> Result<(), CallFault>
    ensures { GivesLocalised protocol key.now engine.now out.old
        out.new written.old written.new result }
{
    let auth = auth_of(protocol).ok_or(CallFault::BadArgument)?;
    let key = Key::of(auth, key).ok_or(CallFault::BadArgument)?;
    let engine = EngineId::of(engine).ok_or(CallFault::BadArgument)?;
    give(localise(&key, engine.as_slice()).as_slice(), out, written)
}

/// The most zeros, those of the longest code.
const MOST_ZEROS: usize = 24;

/// Writes a code. The errors are BadArgument and then ShortBuffer.
fn give_code(
    protocol: u32,
    key: &[u8],
    front: &[u8],
    zeros: usize,
    back: &[u8],
    out: &mut [u8],
    written: &mut usize,
) -> Result<(), CallFault>
    ensures { GivesCode protocol key.now front.now zeros back.now out.old
        out.new written.old written.new result }
{
    let auth = auth_of(protocol).ok_or(CallFault::BadArgument)?;
    let key = Key::of(auth, key).ok_or(CallFault::BadArgument)?;
    if zeros > MOST_ZEROS {
        return Err(CallFault::BadArgument);
    }
    give(mac(&key, front, zeros, back).as_slice(), out, written)
}

/// The protocol with this number below snmpAuthProtocols.
fn auth_of(number: u32) -> Option<Auth>
    ensures { result ≡ auth_by number }
{
    if number == 2 {
        Some(Auth::Md5)
    } else if number == 3 {
        Some(Auth::Sha1)
    } else if number == 5 {
        Some(Auth::Sha256)
    } else {
        None
    }
}

/// Writes the octets to the front of the buffer, and how many they are. The error is ShortBuffer, and nothing
/// is written then.
fn give(octets: &[u8], out: &mut [u8], written: &mut usize) -> Result<(), CallFault>
    ensures { WritesOctets octets.now out.old out.new written.old written.new result }
{
    if octets.len() > out.len() {
        return Err(CallFault::ShortBuffer);
    }
    out[..octets.len()].copy_from_slice(octets);
    *written = octets.len();
    Ok(())
}
