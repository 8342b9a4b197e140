//! What becomes of a variable, and whether a content fits its tag, by numbers.

ghost use Rattle.snmp_c.specs.Calls.{IsValueCode, TellsStatus};

use snmp_handles::{CallFault, status_code_of};
use snmp_msg::value_is;

/// Writes what becomes of a variable for which an agent told this answer on access, 0 to 5, in a request whose PDU has
/// this tag (RFC 3413, section 3.2): 0 where it is answered, the error-status 6 (noAccess) or 16 (authorizationError),
/// 128 where its value is noSuchObject, 256 where a walk goes on after it, and 257 where the message is refused as of
/// an unknown context. It answers 0; or -1 where no answer has the number or the tag is above 255, and nothing is
/// written then.
#[unsafe(no_mangle)]
pub extern "C" fn proved_status_of(access: u32, tag: u32, status: &mut u32) -> i32
    ensures { TellsStatus access tag status.old status.new result }
{
    let told = status_code_of(access, tag);
    match u32::try_from(told) {
        Ok(number) => {
            *status = number;
            0
        }
        Err(_) => told,
    }
}

/// Whether this is the content of a value with this tag (RFC 2578, section 7.1; RFC 3416, section 3): 1 where
/// it is, and 0 where the tag is of no value or the content isn't of its form. It answers -1 where the tag is
/// above 255.
#[unsafe(no_mangle)]
pub extern "C" fn proved_value_is(tag: u32, content: &[u8]) -> i32
    ensures { IsValueCode tag content.now result }
{
    if tag > 255 {
        return CallFault::BadArgument.code();
    }
    if value_is(tag as u8, content) {
        return 1;
    }
    0
}
