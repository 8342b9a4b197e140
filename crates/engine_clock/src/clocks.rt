//! The clocks of other engines.
ghost use Rattle.std.specs.Prelude.{◌≡◌, ◌↔◌, IsTrue, IsSome, IsOk, OnOk, OnErr, IfOk};
ghost use Rattle.std.specs.Option.{option_map};
ghost use Rattle.std.specs.FinMap as map;
ghost use Rattle.std.specs.Ordering.{is_lt};
ghost use Rattle.std.specs.List.{list_all};
ghost use Rattle.engine_clock.specs.Engines.{engine_cmp};
ghost use Rattle.engine_clock.specs.Marks.{Marks, mark_at, pair_at, seen_at, learned, JoinsMark, JoinsPair, HoldsAll};
ghost use Rattle.engine_clock.specs.Marks.{IsMarkJoinOf, IsJoinOf};
ghost use Rattle.engine_clock.specs.Windows.{notion_at};

use crate::mark::Mark;
use crate::{EngineId, Pair};
use std::alloc::{AllocError, Global};
use std::collections::BTreeMap;
use std::marker::Model;

/// A map from each engine that is held to the greatest of its marks that has come in (RFC 3414 section 2.3).
/// All moments are in seconds from one beginning, which the caller keeps.
#[derive(Debug, Drop)]
pub struct Clocks {
    pub(crate) alloc: Global,
    pub(crate) marks: BTreeMap<EngineId, Mark>,
}

impl Model for Clocks {
    ghost use Rattle.std.specs.FinMap as map;
    ghost use Rattle.engine_clock.specs.Marks.{Marks, marks_code};
    ghost use Rattle.engine_clock.specs.Saved.{AreHeld};

    ghost Value = { Marks };

    ghost coded = { marks_code };

    ghost view = { λ c. map.from_entries c.marks.entries };

    ghost invariant = { λ c. AreHeld c.marks.entries };
}

impl Clocks {
    /// Clocks that hold no engine. This takes no memory.
    pub fn new(alloc: Global) -> Clocks
        ensures { result ≡ map.empty }
    {
        Clocks {
            alloc,
            marks: BTreeMap::new(alloc),
        }
    }

    /// Learns a pair of an engine at the moment `now`: the mark (pair, now) is joined in. Where the engine is
    /// held already, this takes no memory and succeeds. On an error all is as before.
    pub fn learn(&mut self, engine: EngineId, pair: Pair, now: u64) -> Result<(), AllocError>
        ensures marks { OnOk result (JoinsMark engine (seen_at pair now) self.old self.new) }
        // So the pair is joined in.
        ensures joined { OnOk result (JoinsPair engine pair self.old self.new) }
        ensures err { OnErr result (self.new ≡ self.old) }
        ensures held { IsSome (mark_at self.old engine) → IsOk result }
    {
        self.join_in(engine, Mark { pair, seen: now })
    }

    /// Joins each mark of `other` in. Where all its engines are held already, this takes no memory and
    /// succeeds. On an error all is as before.
    pub fn absorb(&mut self, other: &Clocks) -> Result<(), AllocError>
        ensures marks { OnOk result (IsMarkJoinOf self.old other.now self.new) }
        // So it is the join of the pairs.
        ensures joined { OnOk result (IsJoinOf self.old other.now self.new) }
        ensures err { OnErr result (self.new ≡ self.old) }
        ensures held { HoldsAll self.old other.now → IsOk result }
    {
        if holds_all(self, &other.marks) {
            return join_all(self, &other.marks);
        }
        let mut joined = self.try_clone()?;
        join_all(&mut joined, &other.marks)?;
        *self = joined;
        Ok(())
    }

    /// Clocks with the same pairs and moments.
    pub fn try_clone(&self) -> Result<Clocks, AllocError>
        ensures { IfOk result (λ clocks. clocks ≡ self.now) }
    {
        Ok(Clocks {
            alloc: self.alloc,
            marks: self.marks.clone()?,
        })
    }

    /// The pair that is held of the engine.
    pub fn pair(&self, engine: &EngineId) -> Option<Pair>
        ensures { result ≡ pair_at self.now engine.now }
    {
        self.mark(engine).map(|mark| mark.pair)
    }

    /// The mark that is held of the engine.
    pub fn mark(&self, engine: &EngineId) -> Option<Mark>
        ensures { result ≡ mark_at self.now engine.now }
    {
        self.marks.get(engine).copied()
    }

    /// The notion of the engine's time at the moment `now` (RFC 3414 section 2.3), where a pair is held: its
    /// time, and the seconds since it was set, none where `now` is earlier. It is at most 2147483647.
    pub fn notion(&self, engine: &EngineId, now: u64) -> Option<u32>
        ensures { result ≡ option_map (notion_at now) (mark_at self.now engine.now) }
    {
        self.mark(engine).map(|mark| mark.notion(now))
    }

    /// Whether each engine that is held is below this one.
    pub(crate) fn all_below(&self, engine: &EngineId) -> bool
        ensures { result ≡ list_all (λ e. is_lt (engine_cmp e.0 engine.now))
            (map.entries self.now) }
    {
        match self.marks.last_key_value() {
            Some((last, _)) => last.cmp(engine).is_lt(),
            None => true,
        }
    }

    /// Joins one mark in.
    pub(crate) fn join_in(&mut self, engine: EngineId, mark: Mark) -> Result<(), AllocError>
        ensures ok { OnOk result (self.new ≡ learned engine mark self.old) }
        ensures err { OnErr result (self.new ≡ self.old) }
        ensures held { IsSome (map.get self.old engine) → IsOk result }
    {
        let joined = mark.joined_to(self.mark(&engine));
        self.put(engine, joined)
    }

    fn put(&mut self, engine: EngineId, mark: Mark) -> Result<(), AllocError>
        ensures ok { OnOk result (self.new ≡ map.insert self.old engine mark) }
        ensures err { OnErr result (self.new ≡ self.old) }
        ensures held { IsSome (map.get self.old engine) → IsOk result }
    {
        // These give the proof the bounds of what comes in.
        let _octets = engine.as_slice();
        let _boots = mark.pair.boots;
        let _seen = mark.seen;
        self.marks.insert(engine, mark)?;
        Ok(())
    }
}

/// Whether each engine of the marks is held.
fn holds_all(clocks: &Clocks, marks: &BTreeMap<EngineId, Mark>) -> bool
    ensures { IsTrue result ↔ HoldsAll clocks.now (map.from_entries marks.now.entries) }
{
    for (engine, _) in marks {
        if clocks.mark(engine).is_none() {
            return false;
        }
    }
    true
}

/// Joins the marks in.
#[tactic(auto, using(crate::proofs::Absorbing::all_held))]
fn join_all(clocks: &mut Clocks, marks: &BTreeMap<EngineId, Mark>) -> Result<(), AllocError>
    ensures held { HoldsAll clocks.old (map.from_entries marks.now.entries) → IsOk result }
    ensures joined { OnOk result (IsMarkJoinOf clocks.old
        (map.from_entries marks.now.entries) clocks.new) }
{
    for (engine, mark) in marks {
        clocks.join_in(engine.clone()?, *mark)?;
    }
    Ok(())
}
