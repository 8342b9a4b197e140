//! `snmp_manager`: what one manager saves another absorbs.
use engine_clock::{Clocks, EngineId, Pair};
use snmp_manager::{Event, World};
use std::test::Fail;
use usm_core::Users;

#[test]
fn saved_clocks_reach_another_manager(rt: HostRuntime) -> Result<(), Fail> {
    let engine = EngineId::of(b"\x80\x00\x1f\x88\x04k").ok_or("an engine ID")?;
    let mut first = Clocks::new(rt.alloc());
    first.learn(engine.clone()?, Pair::of(3, 100).ok_or("a pair")?, 50)?;
    let users = Users::load(rt.alloc(), &[])?;
    let mut world = World::new(rt.alloc(), &users, &[first, Clocks::new(rt.alloc())])?;
    world.step(&Event::Save { manager: 0 })?;
    world.step(&Event::Absorb {
        manager: 1,
        file: 0,
        now: 60,
    })?;
    assert_eq!(rt; world.pair(1, &engine), Pair::of(3, 100));
    Ok(())
}
