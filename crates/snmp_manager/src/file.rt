//! The files of a world.

ghost use Rattle.std.specs.Prelude.{◌≡◌, ◌↔◌, ◌≤◌, IfOk, length, Err};
ghost use Rattle.snmp_manager.specs.State.{AreFiles};
ghost use Rattle.snmp_manager.specs.Knowledge.{Reads};

use crate::event::WorldFault;
use engine_clock::{ClockFault, Clocks};
use std::alloc::Global;
use std::marker::Model;

/// A saved text.
#[derive(Drop)]
pub(crate) struct File {
    pub(crate) octets: Vec<u8>,
}

impl Model for File {
    ghost use Rattle.std.specs.Prelude.{List, ℕ};

    ghost Value = { List ℕ };

    ghost view = { λ f. f.octets.items };
}

/// The marks that a file lists. NoSuch where there is none of this number.
pub(crate) fn read(
    alloc: Global,
    files: &[File],
    number: usize,
    now: u64,
) -> Result<Clocks, WorldFault>
    requires { AreFiles files.now }
    ensures ok { IfOk result (Reads files.now number) }
    ensures no_such { (result ≡ Err WorldFault.NoSuch) ↔ (length files.now ≤ number) }
{
    if number >= files.len() {
        return Err(WorldFault::NoSuch);
    }
    let file = &files[number];
    match Clocks::read_saved(alloc, &file.octets, now) {
        Ok(clocks) => Ok(clocks),
        Err(ClockFault::Line(_)) => unreachable!(),
        Err(ClockFault::OutOfMemory) => Err(WorldFault::OutOfMemory),
    }
}
