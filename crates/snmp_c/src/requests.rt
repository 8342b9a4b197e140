//! What a manager's calls that write requests do, without pointers.

ghost use Rattle.snmp_c.specs.ManagerCalls.{Requested, Sealed, Discovered, AskedMany, DiscoveredMany, GaveUp};
ghost use Rattle.snmp_c.specs.ManagerCalls.{request_asked};
ghost use Rattle.std.specs.Prelude.{◌≡◌};
ghost use Rattle.snmp_handles.specs.Asked.{asking_of};

use crate::manager_asked::{ManagerAsked, ManagerSaid};
use snmp_handles::{AskedOf, ManagerHandle, SealedOf, code_of};

/// The request that is asked.
fn request_of<'a>(asked: &ManagerAsked<'a>) -> AskedOf<'a>
    ensures { asking_of result ≡ request_asked asked.now }
{
    AskedOf {
        id: asked.message_id,
        engine: asked.engine,
        user: asked.user,
        level: asked.level,
        context_engine: asked.context_engine,
        context_name: asked.context_name,
        tag: asked.tag,
        request_id: asked.request_id,
        second: asked.second,
        third: asked.third,
    }
}

/// Writes a request.
#[inline(never)]
pub(crate) fn request(handle: &mut ManagerHandle, asked: &ManagerAsked<'_>) -> i32
    ensures { Requested asked.now handle.old handle.new result }
{
    let of = request_of(asked);
    code_of(handle.request(asked.moment, &of, asked.octets, asked.salt))
}

/// Seals a ScopedPDU.
#[inline(never)]
pub(crate) fn seal(handle: &mut ManagerHandle, asked: &ManagerAsked<'_>) -> i32
    ensures { Sealed asked.now handle.old handle.new result }
{
    let of = SealedOf {
        id: asked.message_id,
        max_size: asked.max_size,
        reportable: asked.reportable != 0,
        engine: asked.engine,
        boots: asked.boots,
        time: asked.time,
        user: asked.user,
        level: asked.level,
    };
    code_of(handle.seal(&of, asked.octets, asked.salt))
}

/// Writes the request by which an engine is discovered.
#[inline(never)]
pub(crate) fn discover(handle: &mut ManagerHandle, id: u32) -> i32
    ensures { Discovered id handle.old handle.new result }
{
    code_of(handle.discover(id))
}

/// Writes a request, one of many, and tells its token.
#[inline(never)]
pub(crate) fn ask(
    handle: &mut ManagerHandle,
    asked: &ManagerAsked<'_>,
    said: &mut ManagerSaid,
) -> i32
    ensures { AskedMany asked.now said.old said.new handle.old handle.new result }
{
    let of = request_of(asked);
    match handle.ask(asked.moment, &of, asked.octets, asked.salt) {
        Ok(asked_token) => {
            said.token = asked_token;
            0
        }
        Err(fault) => fault.code(),
    }
}

/// Writes the request by which an engine is discovered, one of many, and tells its token.
#[inline(never)]
pub(crate) fn ask_discovery(handle: &mut ManagerHandle, first: u32, said: &mut ManagerSaid) -> i32
    ensures { DiscoveredMany first said.old said.new handle.old handle.new result }
{
    match handle.ask_discovery(first) {
        Ok(token) => {
            said.token = token;
            0
        }
        Err(fault) => fault.code(),
    }
}

/// Gives a request up.
#[inline(never)]
pub(crate) fn give_up(handle: &mut ManagerHandle, token: u64) -> i32
    ensures { GaveUp token handle.old handle.new result }
{
    code_of(handle.give_up(token))
}
