//! Worlds of managers.

use super::users::{sealed_after_refusal, users_after_refusal};
use engine_clock::{Clocks, EngineId, Pair};
use snmp_manager::*;
use std::alloc::{AllocError, Global};
use std::process::Abort;
use std::test::Fail;
use usm_core::Users;

/// The octets of engine 1.
const ENGINE: [u8; 5] = [0x80, 0, 0, 0, 1];

/// What is known of it.
const KNOWN: Pair = Pair { boots: 1, time: 5 };

/// Engine 1.
fn engine() -> EngineId {
    let Some(engine) = EngineId::of(&ENGINE) else {
        unreachable!();
    };
    engine
}

/// Managers that hold nothing.
fn empty_world(alloc: Global, users: &Users, managers: usize) -> Result<World, AllocError> {
    let mut clocks = Vec::new(alloc);
    for _ in 0..managers {
        clocks.push(Clocks::new(alloc))?;
    }
    World::new(alloc, users, &clocks)
}

/// One manager that holds nothing, made again where a growth was refused.
fn world(alloc: Global, users: &Users) -> Result<World, AllocError> {
    match empty_world(alloc, users, 1) {
        Ok(world) => Ok(world),
        Err(_) => empty_world(alloc, users, 1),
    }
}

/// What is seen of a world of one manager: how many files there are, and the pair of engine 1.
fn seen(world: &World) -> (usize, Option<Pair>) {
    (world.files(), world.pair(0, &engine()))
}

/// Does an event. Where a growth is refused nothing is seen of it, and it is done again.
fn assert_done(rt: &impl Abort, world: &mut World, event: &Event) {
    let before = seen(world);
    let mut answer = world.step(event);
    if answer == Err(WorldFault::OutOfMemory) {
        assert!(rt; seen(world) == before);
        answer = world.step(event);
    }
    assert!(rt; answer == Ok(()));
}

/// Saves, takes the message, saves, begins anew and absorbs, and sees each.
fn assert_all_done(rt: &impl Abort, world: &mut World, datagram: Vec<u8>) {
    let (manager, file, now) = (0, 0, 9);
    let take = Event::Take {
        manager,
        now,
        datagram,
    };
    assert_done(rt, world, &Event::Save { manager });
    assert!(rt; seen(world) == (1, None));
    assert_done(rt, world, &take);
    assert!(rt; seen(world) == (1, Some(KNOWN)));
    assert_done(rt, world, &Event::Save { manager });
    assert!(rt; seen(world) == (2, Some(KNOWN)));
    assert_done(rt, world, &Event::Restart { manager, file, now });
    assert!(rt; seen(world) == (2, None));
    let file = 1;
    assert_done(rt, world, &Event::Absorb { manager, file, now });
    assert!(rt; seen(world) == (2, Some(KNOWN)));
}

#[test]
fn a_refused_growth_changes_no_world(rt: HostRuntime) -> Result<(), Fail> {
    let mut users = users_after_refusal(rt.alloc())?;
    let datagram = sealed_after_refusal(&mut users, rt.alloc(), &ENGINE, KNOWN)?;
    let mut world = world(rt.alloc(), &users)?;
    assert_all_done(&rt, &mut world, datagram);
    Ok(())
}
