//! A run of a manager in which at most one growth is refused.

use super::users::{sealed_after_refusal, users_after_refusal};
use engine_clock::{Clocks, EngineId, Pair};
use snmp_ber::Level;
use snmp_manager::*;
use std::alloc::{AllocError, Global};
use std::process::Abort;
use std::test::Fail;
use usm_core::Users;

/// A manager of these users that holds no engine.
fn manager(alloc: Global, users: &Users) -> Result<Manager, AllocError> {
    Ok(Manager::new(alloc, users.try_clone()?, Clocks::new(alloc)))
}

/// What the manager answers to the datagrams, one after another.
fn ran(manager: &mut Manager, list: &[(u64, Vec<u8>)]) -> Result<Vec<Outcome>, Stopped> {
    manager.run(list)
}

/// Users, and a manager that has them and holds no engine.
#[derive(Drop)]
struct Station {
    users: Users,
    manager: Manager,
}

/// The pair of most messages.
const FIRST: Pair = Pair { boots: 1, time: 5 };

/// A message of three is accepted at this level.
const ACCEPTED: Outcome = Outcome::Accepted {
    level: Level::AuthPriv,
    tag: 0xA0,
};

fn manager_after_refusal(alloc: Global, users: &Users) -> Result<Manager, AllocError> {
    match manager(alloc, users) {
        Ok(manager) => Ok(manager),
        Err(_) => manager(alloc, users),
    }
}

/// Users, and a manager that has them and holds no engine.
fn station_after_refusal(alloc: Global) -> Result<Station, Fail> {
    let users = users_after_refusal(alloc)?;
    let manager = manager_after_refusal(alloc, &users)?;
    Ok(Station { users, manager })
}

/// The list with a message more, of the engine whose last octet is this one, at the moment 7.
fn add_after_refusal(
    list: &mut Vec<(u64, Vec<u8>)>,
    users: &mut Users,
    alloc: Global,
    last: u8,
) -> Result<(), Fail> {
    let engine = [128, 0, 0, 0, last];
    let message = sealed_after_refusal(users, alloc, &engine, FIRST)?;
    if list.push((7, message)).is_err() {
        let again = sealed_after_refusal(users, alloc, &engine, FIRST)?;
        list.push((7, again))?;
    }
    Ok(())
}

/// Messages of three engines.
fn list_after_refusal(users: &mut Users, alloc: Global) -> Result<Vec<(u64, Vec<u8>)>, Fail> {
    let mut list = Vec::new(alloc);
    for last in 1..4u8 {
        add_after_refusal(&mut list, users, alloc, last)?;
    }
    Ok(list)
}

/// Whether the manager has a pair of the engine whose last octet is this one.
fn holds(manager: &Manager, last: u8) -> bool {
    match EngineId::of(&[128, 0, 0, 0, last]) {
        Some(engine) => manager.pair(&engine).is_some(),
        None => false,
    }
}

/// The manager holds the first so many of the three engines, and no other.
fn assert_held(rt: &impl Abort, manager: &Manager, count: usize) {
    let held = [holds(manager, 1), holds(manager, 2), holds(manager, 3)];
    assert_eq!(rt; held, [count > 0, count > 1, count > 2]);
}

/// How many of the datagrams were taken before the run stopped, or None where it accepted each of three.
fn stop_of(rt: &impl Abort, manager: &mut Manager, list: &[(u64, Vec<u8>)]) -> Option<usize> {
    match ran(manager, list) {
        Ok(outcomes) => {
            assert_eq!(rt; outcomes.as_slice(), [ACCEPTED; 3].as_slice());
            None
        }
        Err(stopped) => Some(stopped.taken),
    }
}

/// A run that stops has taken what it says, and succeeds the next time.
fn assert_run(rt: &impl Abort, manager: &mut Manager, list: &[(u64, Vec<u8>)]) {
    if let Some(taken) = stop_of(rt, manager, list) {
        assert_held(rt, manager, taken);
        assert_eq!(rt; stop_of(rt, manager, list), None);
    }
    assert_held(rt, manager, 3);
}

fn assert_stops(rt: &impl Abort, alloc: Global, it: &mut Station) -> Result<(), Fail> {
    let list = list_after_refusal(&mut it.users, alloc)?;
    assert_run(rt, &mut it.manager, &list);
    Ok(())
}

#[test]
fn a_refused_growth_stops_a_run(rt: HostRuntime) -> Result<(), Fail> {
    let mut it = station_after_refusal(rt.alloc())?;
    assert_stops(&rt, rt.alloc(), &mut it)
}
