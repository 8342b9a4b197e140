//! A ScopedPDU that a caller has sealed as it says.

ghost use Rattle.std.specs.Prelude.{MatchBool, MatchOption};
ghost use Rattle.std.specs.Int.{to_be_bytes, w64};
ghost use Rattle.snmp_handles.specs.Sealings.{HasHeader, HasNoHeader, IsSequence, SealsHeld, sealing_of};

use crate::fault::CallFault;
use crate::manager::ManagerHandle;
use crate::numbers::level_of;
use engine_clock::Pair;
use snmp_ber::{Level, MAX_INTEGER32, one_element, read_tlv};
use snmp_message::SEQUENCE;
use snmp_msg::{Header, USER_BASED, whole_slice};

/// The least msgMaxSize (RFC 3412, section 6).
const LEAST_SIZE: u32 = 484;

/// How a ScopedPDU is sealed, and for whom. Boots, time and size are what the caller says: no clock is looked at.
#[derive(Clone, Copy, Debug)]
pub struct SealedOf<'a> {
    /// msgID, at most 2147483647.
    pub id: u32,
    /// msgMaxSize in octets, 484 to 2147483647.
    pub max_size: u32,
    /// The reportableFlag of msgFlags.
    pub reportable: bool,
    /// msgAuthoritativeEngineID, of any length.
    pub engine: &'a [u8],
    /// msgAuthoritativeEngineBoots, at most 2147483647.
    pub boots: u32,
    /// msgAuthoritativeEngineTime in seconds, at most 2147483647.
    pub time: u32,
    /// msgUserName, of at most 32 octets.
    pub user: &'a [u8],
    /// The level's number, 1 to 3.
    pub level: u32,
}

/// The header of what is sealed so. None where a number of it is out of its range.
fn header_of(of: &SealedOf<'_>) -> Option<Header>
    ensures { MatchOption result (HasNoHeader (sealing_of of.now)) (HasHeader (sealing_of of.now)) }
{
    let Some(level) = level_of(of.level) else {
        return None;
    };
    if of.id > MAX_INTEGER32 || of.max_size < LEAST_SIZE || of.max_size > MAX_INTEGER32 {
        return None;
    }
    Some(Header {
        id: of.id,
        max_size: of.max_size,
        auth: level != Level::NoAuthNoPriv,
        privacy: level == Level::AuthPriv,
        reportable: of.reportable,
        model: USER_BASED,
    })
}

/// Whether the octets are one whole SEQUENCE.
fn is_sequence(octets: &[u8]) -> bool
    ensures { MatchBool result (IsSequence octets.now) (IsSequence octets.now → ⊥) }
{
    whole_slice();
    one_element();
    match read_tlv(octets, 0, octets.len()) {
        Ok(whole) => whole.tag == SEQUENCE && whole.end == octets.len(),
        Err(_) => false,
    }
}

impl ManagerHandle {
    /// Seals a ScopedPDU (RFC 3414, section 3.1) as `of` says, and leaves the message to be sent. Its answer isn't
    /// waited for: users, clocks, what is kept and what is waited for stay. On an error nothing changes.
    ///
    /// The errors are, the first that applies: BadArgument, where a number of `of` is out of its range, the name is
    /// longer than 32 octets or `scoped` isn't one whole SEQUENCE; at levels with authentication UnknownUser (7) and
    /// UnsupportedLevel (8); and TooLarge (16), or out of memory, whichever is met first.
    pub fn seal(&mut self, of: &SealedOf<'_>, scoped: &[u8], salt: u64) -> Result<(), CallFault>
        ensures { SealsHeld self.old (sealing_of of.now)
            (to_be_bytes w64 salt) scoped.now result self.new }
    {
        let (Some(header), Some(pair)) = (header_of(of), Pair::of(of.boots, of.time)) else {
            return Err(CallFault::BadArgument);
        };
        if of.user.len() > 32 || !is_sequence(scoped) {
            return Err(CallFault::BadArgument);
        }
        let salt = salt.to_be_bytes();
        match self
            .manager
            .seal(&header, of.engine, pair, of.user, salt, scoped)
        {
            Ok(text) => {
                self.message = Some(text);
                Ok(())
            }
            Err(fault) => Err(CallFault::Refused(fault.refusal)),
        }
    }
}
