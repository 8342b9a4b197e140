//! The text of saved clocks: how it is written, and how each of its versions is read.
ghost use Rattle.std.specs.Prelude.{◌≡◌, ◌≢◌, ℕ, ◌<◌, ◌≤◌, ◌++◌, List, decimal, Some, IfSome, IfNone, IfOk, IfErr};
ghost use Rattle.std.specs.Prelude.{OnOk};
ghost use Rattle.std.specs.List.{flat_map, list_any};
ghost use Rattle.std.specs.Char.{is_ascii_uppercase};
ghost use Rattle.std.specs.String.{string_bytes};
ghost use Rattle.hex.specs.Hex.{encode_lower};
ghost use Rattle.engine_clock.specs.Engines.{IsEngine};
ghost use Rattle.engine_clock.specs.Pairs.{BootsAndTime, IsPair, pair_max};
ghost use Rattle.engine_clock.specs.Marks.{Marks};
ghost use Rattle.engine_clock.specs.Listings.{Lists};
ghost use Rattle.engine_clock.specs.Saved.{Entry, AreMarks, line, listing, Saves, heading_in, line_in, FitsIn};
ghost use Rattle.engine_clock.specs.Reading.{IsTail, IsFaultIn};
ghost use Rattle.engine_clock.specs.Faults.{IsFaultOf, GivesBack};

use crate::engine_id::MOST;
use crate::{Clocks, EngineId, Mark, Pair};
use snmp_ber::{read_decimal, split_once};
use std::alloc::{AllocError, Global};
use std::collections::BTreeMap;
use thiserror::Error;

/// The first line of version 2.
const HEADING: &str = "snmp-clocks 2\n";

/// The first line of version 1.
const OLD_HEADING: &str = "snmp-clocks 1\n";

/// Why a saved text is not read.
#[derive(Clone, Copy, Debug, PartialEq, Eq, Error)]
pub enum ClockFault {
    /// The number, counted from 1, of the first line that is not as it has to be, or whose engine is not
    /// above that of the line before. A line ends with its line feed.
    #[error("line {0}")]
    Line(usize),
    /// Memory was refused.
    #[error("out of memory")]
    OutOfMemory,
}

impl Clocks {
    /// The text of the marks: a line `snmp-clocks 2`, and then a line for each engine, in their order, of its
    /// identifier in lower-case hex, its boots, its time and the moment. Each line ends with a line feed.
    pub fn save(&self) -> Result<Vec<u8>, AllocError>
        ensures text { IfOk result (λ v. v.items ≡ listing self.now) }
        // They are within their bounds, so the text can be read again.
        ensures fits { AreMarks self.now }
    {
        let mut text = String::from_str(self.alloc, HEADING)?;
        push_lines(&mut text, &self.marks)?;
        Ok(text.into_bytes())
    }

    /// Reads what `save` wrote, version 2 of the text, or version 1, whose first line is `snmp-clocks 1` and
    /// whose lines have no moment: each mark is then seen at `now`, in seconds. In version 2 `now` changes
    /// nothing. Any other text is refused by the number of its first faulty line.
    pub fn read_saved(alloc: Global, text: &[u8], now: u64) -> Result<Clocks, ClockFault>
        // The text that is read saves the marks.
        ensures read { IfOk result (λ clocks. Saves now text.now clocks) }
        // A text that saves marks gives them back, unless memory is refused.
        ensures all { (marks : Marks) → Saves now text.now marks → GivesBack marks result }
        // Another text is refused at its first line that is not as it has to be.
        ensures fault { IfErr result (IsFaultOf now text.now) }
    {
        if let Some(rest) = text.strip_prefix(HEADING.as_bytes()) {
            read_lines(alloc, text, rest, Form::WithMoments)
        } else if let Some(rest) = text.strip_prefix(OLD_HEADING.as_bytes()) {
            read_lines(alloc, text, rest, Form::ReadAt(now))
        } else {
            Err(ClockFault::Line(1))
        }
    }
}

/// Reads the lines after the heading.
fn read_lines(alloc: Global, text: &[u8], rest: &[u8], form: Form) -> Result<Clocks, ClockFault>
    requires { text.now ≡ heading_in form ++ rest.now }
    ensures read { IfOk result (λ clocks. Lists (heading_in form)
        (line_in form) (FitsIn form) text.now clocks) }
    ensures all { (marks : Marks) → Lists (heading_in form)
        (line_in form) (FitsIn form) text.now marks
        → GivesBack marks result }
    ensures fault { IfErr result (IsFaultIn form text.now) }
{
    let mut rest = rest;
    let mut clocks = Clocks::new(alloc);
    let mut line = 2;
    while !rest.is_empty() {
        let Some((engine, mark, after)) = read_line(rest, form) else {
            return Err(ClockFault::Line(line));
        };
        if !clocks.all_below(&engine) {
            return Err(ClockFault::Line(line));
        }
        if clocks.join_in(engine, mark).is_err() {
            return Err(ClockFault::OutOfMemory);
        }
        rest = after;
        line += 1;
    }
    Ok(clocks)
}

/// Appends a line for each engine.
fn push_lines(text: &mut String, marks: &BTreeMap<EngineId, Mark>) -> Result<(), AllocError>
    ensures { OnOk result (string_bytes text.new
        ≡ string_bytes text.old ++ flat_map line marks.now.entries) }
{
    for (engine, mark) in marks {
        let pair = mark.pair;
        writeln!(text, "{engine} {} {} {}", pair.boots, pair.time, mark.seen)?;
    }
    Ok(())
}

/// Which version of the text is read.
#[derive(Clone, Copy)]
pub(crate) enum Form {
    /// Version 2.
    WithMoments,
    /// Version 1, in which each moment is this one.
    ReadAt(u64),
}

/// Reads a line, its line feed with it. What is after it is left.
fn read_line(text: &[u8], form: Form) -> Option<(EngineId, Mark, &[u8])>
    ensures entry { IfSome result (λ r. FitsIn form (r.0, r.1)) }
    ensures found { IfSome result (λ r. text.now ≡ line_in form (r.0, r.1) ++ r.2.now) }
    ensures none { IfNone result ((e : Entry) (rest : List ℕ) → FitsIn form e
        → text.now ≢ line_in form e ++ rest) }
{
    let (engine, text) = split_once(text, b' ')?;
    let (boots, text) = split_once(text, b' ')?;
    let (time, seen, rest) = read_tail(text, form)?;
    let engine = read_engine(engine)?;
    let pair = read_pair(boots, time)?;
    // These give the proof the bounds of what was read.
    let _octets = engine.as_slice();
    let _boots = pair.boots;
    Some((engine, Mark { pair, seen }, rest))
}

/// The octets of the time and the moment, and what is after the line.
fn read_tail(text: &[u8], form: Form) -> Option<(&[u8], u64, &[u8])>
    ensures found { IfSome result (λ r. IsTail form text.now r.0.now r.1 r.2.now) }
    ensures none { IfNone result
        ((time : List ℕ) (seen : ℕ) (rest : List ℕ) → IsTail form text.now time seen rest → ⊥) }
{
    match form {
        Form::WithMoments => {
            let (time, text) = split_once(text, b' ')?;
            let (seen, rest) = split_once(text, b'\n')?;
            Some((time, read_decimal(seen, u64::MAX)?, rest))
        }
        Form::ReadAt(now) => {
            let (time, rest) = split_once(text, b'\n')?;
            Some((time, now, rest))
        }
    }
}

/// Reads an identifier in lower-case hex.
fn read_engine(text: &[u8]) -> Option<EngineId>
    ensures found { IfSome result (λ e. text.now ≡ encode_lower e) }
    ensures all { (e : List ℕ) → IsEngine e → text.now ≡ encode_lower e → result ≡ Some e }
{
    if text.len() > 2 * MOST || has_capital(text) {
        return None;
    }
    let mut room = [0; MOST];
    let octets = &mut room[..text.len() / 2];
    match hex::decode_to_slice(text, octets) {
        Ok(()) => EngineId::of(octets),
        Err(_) => None,
    }
}

/// There is a capital letter.
fn has_capital(text: &[u8]) -> bool
    ensures { result ≡ list_any is_ascii_uppercase text.now }
{
    text.iter().any(|b| b.is_ascii_uppercase())
}

/// Reads boots and time.
fn read_pair(boots: &[u8], time: &[u8]) -> Option<Pair>
    ensures found { IfSome result (λ p. (boots.now ≡ decimal p.boots)
        × (time.now ≡ decimal p.time)) }
    ensures all { (p : BootsAndTime) → IsPair p → boots.now ≡ decimal p.boots
        → time.now ≡ decimal p.time
        → result ≡ Some p }
{
    let boots = read_number(boots)?;
    let time = read_number(time)?;
    Some(Pair { boots, time })
}

/// Reads boots or time in decimal, at most `Pair::MAX`.
fn read_number(text: &[u8]) -> Option<u32>
    ensures bound { IfSome result (λ n. n ≤ pair_max) }
    ensures found { IfSome result (λ n. text.now ≡ decimal n) }
    ensures all { (n : ℕ) → n ≤ pair_max → text.now ≡ decimal n → result ≡ Some n }
{
    let number = read_decimal(text, u64::from(Pair::MAX))?;
    Some(number as u32)
}
