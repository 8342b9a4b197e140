//! Why a configuration is refused.

ghost use Rattle.snmp_c.specs.Calls.{TellsConfiguration};

use snmp_handles::{code_of, tell_config};
use std::alloc::Global;

/// Tells why this text is refused as a configuration, as `snmpsec check-config` does. It answers 0 where it
/// isn't, and -6 where it is.
///
/// Where it is, the first four of the numbers are the table (0 none, 1 user, 2 context, 3 group, 4 access, 5
/// family), the row's position in it from 0, the fault (1 no TOML, 2 a key at the top, 3 a key that the table
/// doesn't list, 4 a key that is missing, 5 a value that isn't what is wanted, 6 BadUser, 7 ShortPassword, 8
/// DuplicateUser, 9 BadRow, 10 Duplicate) and the key that is missing or has that value (0 none, 1 name, 2
/// auth, 3 auth-password, 4 priv-password, 5 model, 6 group, 7 prefix, 8 level, 9 match, 10 read, 11 write,
/// 12 notify, 13 view, 14 subtree, 15 include, 16 mask). The front of the buffer has two lines: the refusal,
/// and what is wrong and what is wanted.
///
/// It answers -1 where there are fewer than four numbers and 14 if memory runs out, and nothing is written
/// then; and -5 where the text is longer than the buffer: then it writes the numbers, and how many octets the
/// text has.
#[unsafe(no_mangle)]
pub extern "C" fn proved_config_fault(
    alloc: Global,
    config: &[u8],
    numbers: &mut [usize],
    out: &mut [u8],
    written: &mut usize,
) -> i32
    ensures { TellsConfiguration config.now numbers.old numbers.new out.old
        out.new written.old written.new result }
{
    code_of(tell_config(alloc, config, numbers, out, written))
}
