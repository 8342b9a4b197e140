//! `snmpsec open`: a message, opened by the keys of a configuration's users.

ghost use Rattle.std.specs.Prelude.{◌≡◌, IfOk};
ghost use Rattle.snmpsec_output.specs.Questions.{Printed};
ghost use Rattle.snmpsec_output.specs.Open.{OpensBy, OpensText};

use crate::arguments::bad_digits;
use crate::opened::opened_lines;
use crate::output::Output;
use crate::show::{datagram_of, refused_output};
use snmpsec_config::Config;
use std::alloc::{AllocError, Global};
use usm_core::Users;

/// What `snmpsec open CONFIG HEX` prints: the lines of the message, opened by the keys of the configuration's users, as
/// a manager does that has no clocks, with status 0. Names stand after the lines if these are asked for.
///
/// An argument that isn't one or more pairs of hex digits is reported on standard error, with status 2. Then a
/// configuration that isn't read is reported by one line, with status 1. A refusal of the message is a line with
/// status 1 too; `opened_lines` says in which order they come.
pub fn open_named(
    alloc: Global,
    names: bool,
    config: &[u8],
    digits: &str,
) -> Result<Output, AllocError>
    ensures { IfOk result
        (λ output. let printed : Printed = record {
          out = output.out.items;
          err = output.err.items;
          status = output.status;
        } in
        OpensText names config.now digits.now printed) }
{
    let Some(datagram) = datagram_of(alloc, digits)? else {
        return bad_digits(alloc, digits);
    };
    match Config::read(alloc, config) {
        Ok(mut config) => open_datagram(alloc, names, &mut config.users, &datagram),
        Err(fault) if fault.is_memory() => Err(AllocError),
        Err(fault) => Output::refusal(alloc, &fault),
    }
}

/// What `snmpsec open` prints of a datagram: the lines of the message with status 0, with names if these are asked
/// for, or the line of its refusal with status 1. The users keep their keys.
pub fn open_datagram(
    alloc: Global,
    names: bool,
    users: &mut Users,
    datagram: &[u8],
) -> Result<Output, AllocError>
    ensures opens { IfOk result
        (λ output. let printed : Printed = record {
          out = output.out.items;
          err = output.err.items;
          status = output.status;
        } in
        OpensBy names users.old.users datagram.now printed) }
    ensures users { users.new.users ≡ users.old.users }
{
    match opened_lines(alloc, names, users, datagram) {
        Ok(lines) => Ok(Output::out(alloc, lines.into_bytes(), 0)),
        Err(fault) => refused_output(alloc, fault, datagram),
    }
}
