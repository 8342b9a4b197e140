//! `engine_clock`: the greatest pair is kept, and tells what time the engine has now.
use engine_clock::{Clocks, EngineId, Pair};
use std::test::Fail;

#[test]
fn the_greatest_pair_is_kept(rt: HostRuntime) -> Result<(), Fail> {
    let engine = EngineId::of(b"\x80\x00\x1f\x88\x04k").ok_or("an engine ID")?;
    let mut clocks = Clocks::new(rt.alloc());
    clocks.learn(engine.clone()?, Pair::of(3, 100).ok_or("a pair")?, 50)?;
    clocks.learn(engine.clone()?, Pair::of(2, 900).ok_or("a pair")?, 60)?;
    assert_eq!(rt; clocks.pair(&engine), Pair::of(3, 100));
    assert_eq!(rt; clocks.notion(&engine, 70), Some(120));
    Ok(())
}
