//! `snmp_agent`: what is refused is counted.
use engine_clock::EngineId;
use snmp_agent::Agent;
use std::alloc::Global;
use std::test::Fail;
use usm_core::Users;
use vacm_core::{Rows, Vacm, VacmFault};

/// Tables without rows.
fn tables(alloc: Global) -> Result<Vacm, VacmFault> {
    let rows = Rows {
        contexts: Vec::new(alloc),
        groups: Vec::new(alloc),
        access: Vec::new(alloc),
        families: Vec::new(alloc),
    };
    Vacm::load(alloc, &rows)
}

/// An agent without users and rows, of boots 1.
fn agent(alloc: Global) -> Result<Agent, Fail> {
    let engine = EngineId::of(b"\x80\x00\x1f\x88\x04k").ok_or("an engine ID")?;
    let users = Users::load(alloc, &[])?;
    let vacm = tables(alloc)?;
    Ok(Agent::new(alloc, engine, 1, 0, users, vacm))
}

/// Whether an agent takes what isn't a message, and how many engines it has refused.
fn took(alloc: Global) -> Result<(bool, Option<u32>), Fail> {
    let mut agent = agent(alloc)?;
    let is_taken = agent.take(1000, b"no message").is_ok();
    let count = agent.counter(4);
    drop(agent);
    Ok((is_taken, count))
}

#[test]
fn what_is_refused_is_counted(rt: HostRuntime) -> Result<(), Fail> {
    let (is_taken, count) = took(rt.alloc())?;
    assert!(rt; !is_taken);
    assert_eq!(rt; count, Some(0));
    Ok(())
}
