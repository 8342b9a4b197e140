//! Agents that take, decide, answer and notify.

use super::users::{ENGINE, own, users_after_refusal};
use snmp_ber::Level;
use snmp_engine::*;
use snmp_msg::{Refusal, RefusedAt};
use std::alloc::{AllocError, Global};
use std::process::Abort;
use std::test::Fail;
use vacm_core::{Rows, Vacm, VacmFault};

/// The salt of each message.
const SALT: [u8; 8] = [0, 1, 2, 3, 4, 5, 6, 7];

/// What an agent accepts, or why it refuses it.
fn accepted<'a>(agent: &mut Agent, now: u64, datagram: &'a [u8]) -> Result<Taken<'a>, RefusedAt> {
    match agent.take(now, datagram) {
        Ok(taken) => Ok(taken),
        Err(refused) => Err(refused.why),
    }
}

/// The agent's six counters.
fn counters(agent: &Agent) -> [Option<u32>; 6] {
    [
        agent.counter(1),
        agent.counter(2),
        agent.counter(3),
        agent.counter(4),
        agent.counter(5),
        agent.counter(6),
    ]
}

const DISCOVERY: &str =
    "3038020103300e020101020300ffe30401040201030410300e0400020100020100040004000400301104000400a00b0\
     201010201000201003000";

/// Tables without rows, asked for again where a growth was refused.
fn tables_after_refusal(alloc: Global) -> Result<Vacm, VacmFault> {
    let rows = Rows {
        contexts: Vec::new(alloc),
        groups: Vec::new(alloc),
        access: Vec::new(alloc),
        families: Vec::new(alloc),
    };
    match Vacm::load(alloc, &rows) {
        Ok(tables) => Ok(tables),
        Err(_) => Vacm::load(alloc, &rows),
    }
}

fn agent_after_refusal(alloc: Global) -> Result<Agent, Fail> {
    let users = users_after_refusal(alloc)?;
    let tables = tables_after_refusal(alloc)?;
    Ok(Agent::new(alloc, own(), 7, 0, users, tables))
}

/// The octets of a text in hex, asked for again where a growth was refused.
fn octets_after_refusal(alloc: Global, hex: &str) -> Result<Vec<u8>, Fail> {
    match hex::decode(alloc, hex) {
        Ok(octets) => Ok(octets),
        Err(_) => Ok(hex::decode(alloc, hex)?),
    }
}

/// Why an agent refuses a datagram, or None where it accepts it, and whether there is a report.
fn refused(agent: &mut Agent, now: u64, datagram: &[u8]) -> (Option<RefusedAt>, bool) {
    match agent.take(now, datagram) {
        Ok(_) => (None, false),
        Err(refused) => (Some(refused.why), refused.report.is_some()),
    }
}

/// The agent reports on the discovery and counts it, and does neither where memory is wanting.
fn assert_reported(rt: &impl Abort, agent: &mut Agent, discovery: &[u8]) {
    let mut answer = refused(agent, 1000, discovery);
    if answer.0 == Some(RefusedAt::plain(Refusal::OutOfMemory)) {
        assert!(rt; !answer.1 && counters(agent) == [0; 6].map(Some));
        answer = refused(agent, 1000, discovery);
    }
    assert!(rt; answer == (Some(RefusedAt::plain(Refusal::UnknownEngine)), true));
    assert!(rt; counters(agent) == [0, 0, 0, 1, 0, 0].map(Some));
}

#[test]
fn a_refused_growth_reports_and_counts_nothing(rt: HostRuntime) -> Result<(), Fail> {
    let discovery = octets_after_refusal(rt.alloc(), DISCOVERY)?;
    let mut agent = agent_after_refusal(rt.alloc())?;
    assert_reported(&rt, &mut agent, &discovery);
    drop(agent);
    Ok(())
}

/// A GetRequest of `ann` for 1.3.6.1.2.1.1.1.0 at noAuthNoPriv. To take it needs no memory.
const GET_REQUEST: &str =
    "3061020103300e020102020300ffe3040104020103041f301d040c00000000000000000000000202010002010004036\
     16e6e04000400302b040c0000000000000000000000020400a019020102020100020100300e300c06082b060102010101000500";

/// How many names are decided, asked again where a growth was refused.
fn decided(agent: &Agent, taken: &Taken<'_>) -> Result<usize, AllocError> {
    let answer = match agent.decide(taken) {
        Ok(decision) => decision,
        Err(_) => agent.decide(taken)?,
    };
    match answer {
        Decision::ByName(answers) => Ok(answers.len()),
        Decision::NotByName => Ok(0),
    }
}

/// A Response without bindings, asked for again where a growth was refused.
fn response(agent: &mut Agent, taken: &Taken<'_>) -> Result<Vec<u8>, RefusedAt> {
    match agent.respond(1000, taken, 0, 0, &[], SALT) {
        Err(refused) if refused.is_memory() => agent.respond(1000, taken, 0, 0, &[], SALT),
        answer => answer,
    }
}

/// A trap without bindings, asked for again where a growth was refused.
fn trap(agent: &mut Agent) -> Result<Vec<u8>, RefusedAt> {
    let body = Body {
        context_engine: &ENGINE,
        context_name: b"",
        tag: 0xA7,
        id: 5,
        second: 0,
        third: 0,
        bindings: &[],
    };
    match agent.notify(1000, 5, b"ann", Level::AuthPriv, &body, SALT) {
        Err(refused) if refused.is_memory() => {
            agent.notify(1000, 5, b"ann", Level::AuthPriv, &body, SALT)
        }
        answer => answer,
    }
}

/// The names that are decided of the request, and the octets of the Response to it.
fn answers(agent: &mut Agent, datagram: &[u8]) -> Result<(usize, usize), Fail> {
    let taken = accepted(agent, 1000, datagram)?;
    let names = decided(agent, &taken)?;
    Ok((names, response(agent, &taken)?.len()))
}

/// The agent decides and answers the request and sends a trap, and counts nothing.
fn assert_answered(rt: &impl Abort, alloc: Global, agent: &mut Agent) -> Result<(), Fail> {
    let datagram = octets_after_refusal(alloc, GET_REQUEST)?;
    let (names, octets) = answers(agent, &datagram)?;
    let trap = trap(agent)?;
    assert!(rt; names == 1 && octets == 86 && trap.len() == 108);
    assert!(rt; counters(agent) == [0; 6].map(Some));
    Ok(())
}

#[test]
fn a_refused_growth_decides_and_answers_nothing(rt: HostRuntime) -> Result<(), Fail> {
    let mut agent = agent_after_refusal(rt.alloc())?;
    let answered = assert_answered(&rt, rt.alloc(), &mut agent);
    drop(agent);
    answered
}
