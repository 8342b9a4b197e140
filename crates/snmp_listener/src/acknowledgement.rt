//! What an Inform is answered (RFC 3416, section 4.2.7).

ghost use Rattle.std.specs.Prelude.{◌≡◌, List, All, map, IfOk, IfSome};
ghost use Rattle.snmp_ber.specs.Element.{IsTag};
ghost use Rattle.snmp_msg.specs.Variables.{AreBindings, Variable, bound_variable, variables_of};
ghost use Rattle.snmp_incoming.specs.Answers.{given_of};
ghost use Rattle.usm_core.specs.Answers.{seal_answer};
ghost use Rattle.snmp_listener.specs.Acknowledging.{Acknowledges, TellsTooBig, response_to};

use snmp_agent::{Agent, Response};
use snmp_incoming::{Kept, Taken};
use snmp_msg::{Binding, Pdu, RefusedAt, VariableBinding};
use std::alloc::{AllocError, Global};

/// tooBig (RFC 3416, section 3).
const TOO_BIG: i32 = 1;

/// Returns the bindings of a PDU, in their order, so that they can be written. The error is out of memory.
fn bindings_in<'a>(alloc: Global, pdu: &Pdu<'a>) -> Result<Vec<VariableBinding<'a>>, AllocError>
    requires { (vs : List Variable) × AreBindings vs pdu.now.list.now }
    ensures says { IfOk result (λ v. map bound_variable v.items ≡ variables_of pdu.now.list.now) }
    ensures tags { IfOk result (λ v. All (λ b. IsTag b.tag) v.items) }
{
    let mut bindings = Vec::new(alloc);
    for binding in pdu.variable_bindings() {
        bindings.push(binding)?;
    }
    Ok(bindings)
}

/// What a Response to this message says besides its bindings.
fn response_to(taken: &Taken<'_>, status: i32, salt: [u8; 8]) -> Response
    ensures { result ≡ response_to (given_of taken.now) status salt }
{
    Response {
        status,
        index: 0,
        salt,
        limit: taken.max_size as usize,
    }
}

/// Returns the Response to an Inform, with its own bindings and without an error. The errors are those of
/// `Agent::write_response`, within the sender's msgMaxSize.
fn acknowledgement(
    alloc: Global,
    agent: &mut Agent,
    now: u64,
    taken: &Taken<'_>,
    salt: [u8; 8],
) -> Result<Vec<u8>, RefusedAt>
    ensures answer { IfSome (seal_answer result) (Acknowledges agent.old now (given_of taken.now) salt) }
    ensures same { agent.new ≡ agent.old }
{
    let _scoped = taken.scoped();
    let pdu = taken.pdu();
    let bindings = bindings_in(alloc, &pdu)?;
    agent.write_response(now, taken, &response_to(taken, 0, salt), &bindings)
}

/// Returns the Response that tells that the acknowledgement of an Inform is too big. None: it is too big too, or it
/// can't be sealed. The error is out of memory.
fn too_big(
    agent: &mut Agent,
    now: u64,
    taken: &Taken<'_>,
    salt: [u8; 8],
) -> Result<Option<Vec<u8>>, AllocError>
    ensures answer { IfOk result (TellsTooBig agent.old now (given_of taken.now) salt) }
    ensures same { agent.new ≡ agent.old }
{
    let _scoped = taken.scoped();
    let _pdu = taken.pdu();
    let none: [Binding<'_>; 0] = [];
    match agent.write_response(now, taken, &response_to(taken, TOO_BIG, salt), &none) {
        Ok(text) => Ok(Some(text)),
        Err(fault) if fault.is_memory() => Err(AllocError),
        Err(_) => Ok(None),
    }
}

/// Returns the acknowledgement of an Inform that was kept.
pub(crate) fn acknowledgement_of_kept(
    alloc: Global,
    agent: &mut Agent,
    now: u64,
    kept: &Kept,
    salt: [u8; 8],
) -> Result<Vec<u8>, RefusedAt>
    ensures answer { IfSome (seal_answer result) (Acknowledges agent.old now kept.now salt) }
    ensures same { agent.new ≡ agent.old }
{
    let taken = kept.taken();
    acknowledgement(alloc, agent, now, &taken, salt)
}

/// Returns the Response tooBig to an Inform that was kept.
pub(crate) fn too_big_of_kept(
    agent: &mut Agent,
    now: u64,
    kept: &Kept,
    salt: [u8; 8],
) -> Result<Option<Vec<u8>>, AllocError>
    ensures answer { IfOk result (TellsTooBig agent.old now kept.now salt) }
    ensures same { agent.new ≡ agent.old }
{
    let taken = kept.taken();
    too_big(agent, now, &taken, salt)
}
