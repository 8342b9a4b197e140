//! What is printed at the end: how the exchanges of each user ended, and what is known of each engine.

ghost use Rattle.std.specs.Prelude.{IfOk, IfSome};
ghost use Rattle.std.specs.List.{All};
ghost use Rattle.diagnose_text.specs.Engines.{AreFactsOf, IsKnown};

use crate::agents::Agents;
use crate::counts::Counts;
use crate::heads::put_clock;
use crate::objects::{end_or_null, line_of};
use engine_clock::{Clocks, EngineId};
use serde_json::{Value as Json, json};
use std::alloc::{AllocError, Global};
use std::collections::BTreeSet;
use std::net::SocketAddr;

/// What is known of an engine.
#[derive(Drop)]
pub(crate) struct EngineFacts {
    engine: EngineId,
    boots: u32,
    time: u32,
    seen: u64,
    agent: Option<SocketAddr>,
}

/// The summary as lines.
pub(crate) fn summary_text(
    alloc: Global,
    counts: &Counts,
    engines: &[EngineFacts],
) -> Result<String, AllocError> {
    let mut text = String::from_str(alloc, "summary\n")?;
    counts.put_lines(alloc, &mut text)?;
    for facts in engines {
        put_engine(&mut text, facts)?;
    }
    Ok(text)
}

/// The summary as a JSON object.
pub(crate) fn summary_line(
    alloc: Global,
    counts: &Counts,
    engines: &[EngineFacts],
) -> Result<String, AllocError> {
    let mut list = Vec::new(alloc);
    for facts in engines {
        list.push(engine_object(alloc, facts)?)?;
    }
    let (users, engines) = (counts.array(alloc)?, Json::from(list));
    let summary = json!(in alloc; {"users": users, "engines": engines})?;
    line_of(alloc, &json!(in alloc; {"summary": summary})?)
}

/// Adds the line of an engine.
fn put_engine(out: &mut String, facts: &EngineFacts) -> Result<(), AllocError> {
    let (engine, boots, time) = (&facts.engine, facts.boots, facts.time);
    write!(out, "  engine {engine}  boots {boots}, time {time} at ")?;
    put_clock(out, facts.seen)?;
    if let Some(endpoint) = facts.agent {
        write!(out, "; agent {endpoint}")?;
    }
    out.push_str("\n")
}

/// The object of an engine.
fn engine_object(alloc: Global, facts: &EngineFacts) -> Result<Json, AllocError> {
    let (engine, agent) = (&facts.engine, end_or_null(alloc, facts.agent)?);
    let engine = format!(in alloc; "{engine}")?;
    json!(in alloc; {
        "engine": engine, "boots": facts.boots, "time": facts.time, "seen": facts.seen, "agent": agent
    })
}

/// What is known of the engines of these clocks, in the order of their octets; of those that are wanted, where not all
/// are.
pub(crate) fn engines_of(
    alloc: Global,
    clocks: &Clocks,
    agents: &Agents,
    wanted: Option<&BTreeSet<EngineId>>,
) -> Result<Vec<EngineFacts>, AllocError>
    ensures { IfOk result (λ engines. All (IsKnown clocks.now) engines.items) }
{
    let mut engines = Vec::new(alloc);
    let saved = clocks.save()?;
    let Ok(saved) = std::str::from_utf8(&saved) else {
        return Ok(engines);
    };
    for line in saved.lines().skip(1) {
        if let Some(facts) = engine_in(alloc, line, clocks, agents) {
            if wanted.is_none_or(|wanted| wanted.contains(&facts.engine)) {
                engines.push(facts)?;
            }
        }
    }
    Ok(engines)
}

/// What is known of the engine that this line of saved clocks names.
fn engine_in(alloc: Global, line: &str, clocks: &Clocks, agents: &Agents) -> Option<EngineFacts>
    ensures { IfSome result (IsKnown clocks.now) }
{
    let digits = line.split_once(' ').map_or(line, |parts| parts.0);
    let octets = hex::decode(alloc, digits).ok()?;
    engine_of(&octets, clocks, agents)
}

/// What is known of the engine with this identifier.
fn engine_of(octets: &[u8], clocks: &Clocks, agents: &Agents) -> Option<EngineFacts>
    ensures { IfSome result (AreFactsOf clocks.now octets.now) }
{
    let engine = EngineId::of(octets)?;
    let mark = clocks.mark(&engine)?;
    let agent = agents.endpoint(&engine);
    Some(EngineFacts {
        engine,
        boots: mark.pair.boots,
        time: mark.pair.time,
        seen: mark.seen,
        agent,
    })
}
