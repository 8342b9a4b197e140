//! What an event does to one manager.

ghost use Rattle.std.specs.Prelude.{◌≡◌, ◌≢◌, ◌↔◌, ◌≤◌, ◌<◌, length, slice_get, IsOk, OnOk, OnErr, Some, Err};
ghost use Rattle.engine_clock.specs.Marks.{IsMarkJoinOf};
ghost use Rattle.usm_core.specs.Verified.{manager};
ghost use Rattle.snmp_incoming.specs.Answers.{IsPlain};
ghost use Rattle.snmp_manager.specs.Views.{Held};
ghost use Rattle.snmp_manager.specs.Learning.{LearnsFrom};
ghost use Rattle.snmp_manager.specs.Takes.{HoldsAuthentic};
ghost use Rattle.snmp_manager.specs.Knowledge.{Changes, Writes};

use crate::event::WorldFault;
use crate::file::File;
use crate::manager::Manager;
use engine_clock::Clocks;

/// The manager of this number takes a datagram, whatever the answer.
pub(crate) fn take(
    managers: &mut Vec<Manager>,
    number: usize,
    now: u64,
    datagram: &[u8],
) -> Result<(), WorldFault>
    ensures ok { OnOk result
        (Changes number (λ before after. LearnsFrom before.users now
        datagram.now before.clocks after.clocks)
        managers.old.items managers.new.items) }
    ensures err { OnErr result (managers.new.items ≡ managers.old.items) }
    ensures no_such { (result ≡ Err WorldFault.NoSuch) ↔ (length managers.old.items ≤ number) }
    ensures no_memory { (held : Held) → slice_get managers.old.items number ≡ Some held
        → IsPlain manager held.users datagram.now → HoldsAuthentic held datagram.now → IsOk result }
{
    if number >= managers.len() {
        return Err(WorldFault::NoSuch);
    }
    let manager = &mut managers[number];
    match manager.take_one(now, datagram) {
        Ok(_) => Ok(()),
        Err(_) => Err(WorldFault::OutOfMemory),
    }
}

/// The marks of the manager become a file.
pub(crate) fn save(
    managers: &[Manager],
    files: &mut Vec<File>,
    number: usize,
) -> Result<(), WorldFault>
    ensures ok { OnOk result (Writes managers.now number files.old.items files.new.items) }
    ensures err { OnErr result (files.new.items ≡ files.old.items) }
    ensures no_such { (result ≡ Err WorldFault.NoSuch) ↔ (length managers.now ≤ number) }
{
    if number >= managers.len() {
        return Err(WorldFault::NoSuch);
    }
    let Ok(octets) = managers[number].save() else {
        return Err(WorldFault::OutOfMemory);
    };
    if files.push(File { octets }).is_err() {
        return Err(WorldFault::OutOfMemory);
    }
    Ok(())
}

/// The manager joins these marks in.
pub(crate) fn absorb(
    managers: &mut Vec<Manager>,
    number: usize,
    clocks: &Clocks,
) -> Result<(), WorldFault>
    requires { number < length managers.old.items }
    ensures ok { OnOk result
        (Changes number (λ before after. IsMarkJoinOf before.clocks clocks.now after.clocks)
        managers.old.items
        managers.new.items) }
    ensures err { OnErr result (managers.new.items ≡ managers.old.items) }
    ensures found { result ≢ Err WorldFault.NoSuch }
{
    let manager = &mut managers[number];
    match manager.absorb(clocks) {
        Ok(()) => Ok(()),
        Err(_) => Err(WorldFault::OutOfMemory),
    }
}

/// The manager goes on from these marks alone.
pub(crate) fn restart(managers: &mut Vec<Manager>, number: usize, clocks: Clocks)
    requires { number < length managers.old.items }
    ensures { Changes number (λ before after. after.clocks ≡ clocks)
        managers.old.items managers.new.items }
{
    let manager = &mut managers[number];
    manager.restart(clocks);
}
