//! A world of managers that share saved marks through files.

ghost use Rattle.std.specs.Prelude.{◌≡◌, ◌↔◌, [], List, length, map, slice_get, IsOk, OnOk, OnErr, IfOk, IfErr, Err};
ghost use Rattle.std.specs.Option.{option_and_then, option_copied};
ghost use Rattle.engine_clock.specs.Marks.{pair_at};
ghost use Rattle.usm_users.specs.User.{User};
ghost use Rattle.snmp_manager.specs.Views.{held_by};
ghost use Rattle.snmp_manager.specs.Knowledge.{HasGreatest, HasGreatestPairs, HaveUsers, NamesMissing, Steps};
ghost use Rattle.snmp_manager.specs.Knowledge.{StepsAll, StopsAt, TakesNoMemory, at_first, counted, knows_after_all};

use crate::event::{Event, WorldFault, WorldStopped};
use crate::file::{File, read};
use crate::manager::Manager;
use crate::steps::{absorb, restart, save, take};
use engine_clock::{Clocks, EngineId, Pair};
use std::alloc::{AllocError, Global};
use std::marker::Model;
use usm_core::Users;

/// Managers, and the files that they saved, in the order in which they were saved. Both have numbers, from 0.
#[derive(Drop)]
pub struct World {
    alloc: Global,
    managers: Vec<Manager>,
    files: Vec<File>,
}

impl Model for World {
    ghost use Rattle.std.specs.Coded.{codes};
    ghost use Rattle.engine_clock.specs.Marks.{marks_code};
    ghost use Rattle.snmp_manager.specs.State.{WorldState, AreFiles};

    ghost Value = { WorldState };

    ghost coded = { Prim.hlevel (codes, marks_code) };

    ghost view = { λ w. record { managers = w.managers.items; files = w.files.items } };

    ghost invariant = { λ w. AreFiles w.files.items };
}

impl World {
    /// A manager for each of the clocks, in their order, with its marks and these users, and no file. The
    /// error is out of memory.
    pub fn new(alloc: Global, users: &Users, clocks: &[Clocks]) -> Result<World, AllocError>
        ensures managers { IfOk result
            (λ world. world.managers ≡ map (held_by users.now.users) clocks.now) }
        ensures files { IfOk result (λ world. world.files ≡ []) }
    {
        let mut managers = Vec::with_capacity(alloc, clocks.len())?;
        for held in clocks {
            let manager = Manager::new(alloc, users.try_clone()?, held.try_clone()?);
            managers.push(manager)?;
        }
        Ok(World {
            alloc,
            managers,
            files: Vec::new(alloc),
        })
    }

    /// Does one event. A datagram that is refused is an event all the same.
    ///
    /// The errors are NoSuch, exactly where the event names a manager or a file that isn't there, and
    /// OutOfMemory. Each leaves all as before. No memory is wanted to take a datagram that isn't sealed, of
    /// an engine that is held, or that no digest passes.
    pub fn step(&mut self, event: &Event) -> Result<(), WorldFault>
        ensures ok { OnOk result (Steps self.old event.now self.new) }
        ensures err { OnErr result (self.new ≡ self.old) }
        ensures no_such { (result ≡ Err WorldFault.NoSuch) ↔ NamesMissing event.now self.old }
        ensures no_memory { TakesNoMemory event.now self.old → IsOk result }
    {
        match event {
            Event::Take {
                manager,
                now,
                datagram,
            } => take(&mut self.managers, *manager, *now, datagram),
            Event::Save { manager } => save(&self.managers, &mut self.files, *manager),
            Event::Absorb { manager, file, now } => {
                if *manager >= self.managers.len() {
                    return Err(WorldFault::NoSuch);
                }
                let clocks = read(self.alloc, &self.files, *file, *now)?;
                absorb(&mut self.managers, *manager, &clocks)
            }
            Event::Restart { manager, file, now } => {
                if *manager >= self.managers.len() {
                    return Err(WorldFault::NoSuch);
                }
                let clocks = read(self.alloc, &self.files, *file, *now)?;
                restart(&mut self.managers, *manager, clocks);
                Ok(())
            }
        }
    }

    /// Does events one after another, up to the first that is refused. Then each manager holds of each engine
    /// the greatest mark, and so the greatest pair, of what it knows: what it began with, what it
    /// authenticated, and what the files that it absorbed were saved from, in whatever order they came.
    ///
    /// The error tells how many events were done before the refused one, and why that was refused, as `step` does.
    pub fn run(&mut self, events: &[Event]) -> Result<(), WorldStopped>
        ensures greatest { (users : List User) → HaveUsers users self.old
            → HasGreatest (knows_after_all users (counted result events.now) (at_first self.old))
            self.new }

        // So it is the greatest pair of its knowledge too.
        ensures pairs { (users : List User) → HaveUsers users self.old
            → HasGreatestPairs (knows_after_all users (counted result events.now)
            (at_first self.old)) self.new }

        // The events that counted happened one after another; the next one is refused by what they left.
        ensures steps { StepsAll self.old (counted result events.now) self.new }
        ensures stopped { IfErr result (StopsAt events.now self.new) }
    {
        for (done, event) in events.iter().enumerate() {
            if let Err(why) = self.step(event) {
                return Err(WorldStopped { done, why });
            }
        }
        Ok(())
    }

    /// The pair that the manager of this number holds of an engine; None also where there is no such manager.
    pub fn pair(&self, manager: usize, engine: &EngineId) -> Option<Pair>
        ensures { result ≡ option_and_then (λ held. pair_at held.clocks engine.now)
            (slice_get self.now.managers manager) }
    {
        self.managers.get(manager)?.pair(engine)
    }

    /// The number of managers.
    pub fn managers(&self) -> usize
        ensures { result ≡ length self.now.managers }
    {
        self.managers.len()
    }

    /// The number of files.
    pub fn files(&self) -> usize
        ensures { result ≡ length self.now.files }
    {
        self.files.len()
    }

    /// The octets of the file of this number, where there is one.
    pub fn file(&self, number: usize) -> Option<&[u8]>
        ensures { option_copied result ≡ slice_get self.now.files number }
    {
        let file = self.files.get(number)?;
        Some(&file.octets)
    }
}
