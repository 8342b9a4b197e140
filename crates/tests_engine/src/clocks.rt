//! Clocks that learn, absorb, are copied, saved and read.

use engine_clock::*;
use std::alloc::{AllocError, Global};
use std::process::Abort;
use std::test::Fail;

/// The pair of each engine.
const PAIR: Pair = Pair { boots: 1, time: 5 };

/// The engine of this number.
fn engine(number: u8) -> EngineId {
    let Some(engine) = EngineId::of(&[128, 0, 0, 0, number]) else {
        unreachable!();
    };
    engine
}

// The saved text, where at most one growth is refused.
fn saved(clocks: &Clocks) -> Result<Vec<u8>, AllocError> {
    match clocks.save() {
        Ok(text) => Ok(text),
        Err(_) => clocks.save(),
    }
}

/// The clocks hold the engines from one up to another, of these.
fn assert_held(rt: &impl Abort, clocks: &Clocks, from: u8, to: u8, last: u8) {
    for number in from..last {
        let held = clocks.pair(&engine(number));
        assert!(rt; held.is_some() == (number < to), "{number} of {to}");
    }
}

/// Clocks of these engines, where at most one growth is refused.
fn clocks_of(rt: &impl Abort, alloc: Global, from: u8, to: u8) -> Result<Clocks, AllocError> {
    let mut clocks = Clocks::new(alloc);
    for number in from..to {
        if clocks.learn(engine(number), PAIR, 0).is_err() {
            assert_held(rt, &clocks, from, number, to);
            clocks.learn(engine(number), PAIR, 0)?;
        }
    }
    Ok(clocks)
}

/// The saved text of the clocks is this one.
fn assert_saved(rt: &impl Abort, clocks: &Clocks, text: &[u8]) -> Result<(), AllocError> {
    let saved = saved(clocks)?;
    assert!(rt; saved.as_slice() == text);
    Ok(())
}

/// The clocks absorb the other ones, and hold the same as before where that fails.
fn absorb(rt: &impl Abort, clocks: &mut Clocks, other: &Clocks) -> Result<(), AllocError> {
    let before = saved(clocks)?;
    if clocks.absorb(other).is_err() {
        assert_saved(rt, clocks, &before)?;
        clocks.absorb(other)?;
    }
    Ok(())
}

/// A copy of the clocks has this saved text.
fn assert_copied(rt: &impl Abort, clocks: &Clocks, text: &[u8]) -> Result<(), AllocError> {
    let copy = match clocks.try_clone() {
        Ok(copy) => copy,
        Err(_) => clocks.try_clone()?,
    };
    assert_saved(rt, &copy, text)
}

/// What is read of the saved text has it too.
fn assert_read(rt: &impl Abort, alloc: Global, text: &[u8]) -> Result<(), Fail> {
    let read = match Clocks::read_saved(alloc, text, 0) {
        Err(ClockFault::OutOfMemory) => Clocks::read_saved(alloc, text, 0)?,
        other => other?,
    };
    Ok(assert_saved(rt, &read, text)?)
}

/// Clocks of the engines 0 to 32, of which two parts were joined.
fn joined(rt: &impl Abort, alloc: Global) -> Result<Clocks, AllocError> {
    let other = clocks_of(rt, alloc, 28, 33)?;
    let mut clocks = clocks_of(rt, alloc, 0, 30)?;
    absorb(rt, &mut clocks, &other)?;
    Ok(clocks)
}

// Run by `tools/refuse-memory`, this shows that a refused growth is answered as out of memory, that
// it changes nothing, and that the same call succeeds afterwards.
#[test]
fn a_refused_growth_changes_no_clocks(rt: HostRuntime) -> Result<(), Fail> {
    let clocks = joined(&rt, rt.alloc())?;
    let text = saved(&clocks)?;
    assert!(rt; text.len() == 14 + 33 * 17);
    assert_copied(&rt, &clocks, &text)?;
    assert_read(&rt, rt.alloc(), &text)
}
