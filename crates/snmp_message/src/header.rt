//! msgGlobalData (RFC 3412, section 6).

ghost use Rattle.std.specs.Prelude.{◌≡◌, ◌+◌, ◌<◌, ◌≤◌, ◌++◌, length, slice_range, IfOk, OnOk, MatchOption, true};
ghost use Rattle.std.specs.Prelude.{false};
ghost use Rattle.std.specs.Result.{result_ok};
ghost use Rattle.snmp_message.specs.Reading.{header_of};
ghost use Rattle.snmp_message.specs.Spelling.{HeaderFits, header_text};
ghost use Rattle.snmp_message.specs.Level.{level_of};

use crate::field::{OCTET_STRING, integer_len, read_element, read_number};
use snmp_ber::{BerFault, Level, put_int, put_tlv};
use std::alloc::AllocError;

/// The msgSecurityModel of the user-based security model (RFC 3411, section 5).
pub const USER_BASED: u32 = 3;

/// What msgGlobalData says.
#[derive(Clone, Copy, Debug, PartialEq, Eq)]
pub struct Header {
    /// msgID, from 0 to 2,147,483,647.
    pub id: u32,
    /// msgMaxSize in octets, from 484 to 2,147,483,647.
    pub max_size: u32,
    /// The authFlag of msgFlags.
    pub auth: bool,
    /// The privFlag of msgFlags.
    pub privacy: bool,
    /// The reportableFlag of msgFlags.
    pub reportable: bool,
    /// msgSecurityModel, from 1 to 2,147,483,647. `USER_BASED` is the user-based one.
    pub model: u32,
}

impl Header {
    /// The security level that the flags say (RFC 3412, section 6.4), and None for priv without auth.
    pub fn level(&self) -> Option<Level>
        ensures level { MatchOption result ((self.now.privacy ≡ true) × (self.now.auth ≡ false))
            (λ level. level ≡ level_of self.now) }
        ensures allowed { MatchOption result (self.now.privacy ≡ true)
            (λ _. self.now.privacy ≡ true → self.now.auth ≡ true) }
    {
        match (self.auth, self.privacy) {
            (false, false) => Some(Level::NoAuthNoPriv),
            (true, false) => Some(Level::AuthNoPriv),
            (true, true) => Some(Level::AuthPriv),
            (false, true) => None,
        }
    }
}

/// The header in the content of msgGlobalData, which is in the bytes between two places.
#[tactic(auto, unfolding(crate::specs::Reading::header_of))]
pub fn read_header(bytes: &[u8], at: usize, end: usize) -> Result<Header, BerFault>
    requires start { at ≤ end }
    requires within { end ≤ length bytes.now }
    ensures value { result_ok result ≡ header_of (slice_range bytes.now at end) }
    ensures fits { IfOk result (λ h. HeaderFits h) }
{
    let (id, at) = read_number(bytes, at, end, 0)?;
    let (max_size, at) = read_number(bytes, at, end, 484)?;
    let flags = read_element(bytes, at, end, OCTET_STRING)?;
    let [octet] = flags.content else {
        return Err(BerFault { at });
    };
    let (model, at) = read_number(bytes, flags.end, end, 1)?;
    if at < end {
        return Err(BerFault { at });
    }
    Ok(Header {
        id,
        max_size,
        auth: *octet & 1 != 0,
        privacy: *octet & 2 != 0,
        reportable: *octet & 4 != 0,
        model,
    })
}

/// How many octets `put_header` appends.
#[tactic(auto, unfolding(crate::specs::Spelling::header_text))]
pub fn header_len(header: &Header) -> usize
    requires { HeaderFits header.now }
    ensures size { result ≡ length (header_text header.now) }
    ensures most { result ≤ 40 }
{
    let flags_len = 3;
    integer_len(header.id as i32)
        + integer_len(header.max_size as i32)
        + flags_len
        + integer_len(header.model as i32)
}

/// Appends the content of msgGlobalData.
#[tactic(auto, unfolding(crate::specs::Spelling::header_text))]
pub fn put_header(out: &mut Vec<u8>, header: &Header) -> Result<(), AllocError>
    requires { HeaderFits header.now }
    ensures ok { OnOk result (out.new.items ≡ out.old.items ++ header_text header.now) }
{
    let auth = if header.auth { 1 } else { 0 };
    let privacy = if header.privacy { 2 } else { 0 };
    let reportable = if header.reportable { 4 } else { 0 };
    put_int(out, header.id as i32)?;
    put_int(out, header.max_size as i32)?;
    put_tlv(out, OCTET_STRING, &[auth + privacy + reportable])?;
    put_int(out, header.model as i32)
}
