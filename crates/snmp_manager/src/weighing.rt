//! What a message that passed its digest is answered, before its pair is learned.

ghost use Rattle.std.specs.Prelude.{◌≡◌, false, IfOk, IsOk, IsSomeAnd, Ok};
ghost use Rattle.snmp_ber.specs.declared.level.Level.TheVariants.{AuthPriv};
ghost use Rattle.snmp_message.specs.Message.{tag_of};
ghost use Rattle.engine_clock.specs.Marks.{Marks};
ghost use Rattle.usm_users.specs.Users.{HasUserAt};
ghost use Rattle.usm_core.specs.Answers.{verified_of};
ghost use Rattle.usm_core.specs.Verified.{IsReadAs};
ghost use Rattle.snmp_incoming.specs.Answers.{answer_of};
ghost use Rattle.snmp_incoming.specs.Outcome.{Given, Weighs, as_manager};
ghost use Rattle.snmp_manager.specs.Learning.{LearnsChecked};
ghost use Rattle.snmp_manager.specs.Takes.{kept_answer};

use crate::learning::is_fresh_once_learned;
use engine_clock::Clocks;
use snmp_incoming::{Kept, Taken, read_text, scoped_octets};
use snmp_msg::{Refusal, RefusedAt};
use std::alloc::{AllocError, Global};
use usm_core::{Checked, Users};

/// What the message that `open_auth` gave of this datagram is answered once its pair is learned, which isn't
/// done yet: the rows of the table from the time window on (RFC 3414, section 3.2, steps 7 and 8). The error
/// is out of memory, which is taken at authPriv alone, to decrypt.
pub(crate) fn weigh<'a>(
    users: &mut Users,
    clocks: &Clocks,
    now: u64,
    datagram: &'a [u8],
    checked: &Checked<'a>,
) -> Result<Result<Taken<'a>, RefusedAt>, AllocError>
    requires read { IsReadAs datagram.now (verified_of checked.now) }
    requires private { checked.now.level ≡ AuthPriv
        → HasUserAt users.old.users checked.now.security.user.now AuthPriv
        × (tag_of checked.now.message.body ≡ 4) }
    ensures users { users.new.users ≡ users.old.users }
    ensures no_memory { checked.now.message.header.privacy ≡ false → IsOk result }
    ensures weighs { IfOk result
        (λ answer. (learned : Marks) → LearnsChecked
        (verified_of checked.now) now clocks.now learned
        → IsSomeAnd (answer_of answer)
        (Weighs (as_manager learned) users.old.users now datagram.now (verified_of checked.now))) }
{
    let opening = scoped_octets(users, datagram, checked)?;
    if !is_fresh_once_learned(clocks, checked, now) {
        return Ok(Err(RefusedAt::plain(Refusal::NotInWindow)));
    }
    let Some(text) = opening else {
        return Ok(Err(RefusedAt::plain(Refusal::DecryptionError)));
    };
    Ok(read_text(checked, text))
}

/// The same, with a copy of what is accepted. Memory is taken for the copy too.
pub(crate) fn weigh_kept(
    alloc: Global,
    users: &mut Users,
    clocks: &Clocks,
    now: u64,
    datagram: &[u8],
    checked: &Checked<'_>,
) -> Result<Result<Kept, RefusedAt>, AllocError>
    requires read { IsReadAs datagram.now (verified_of checked.now) }
    requires private { checked.now.level ≡ AuthPriv
        → HasUserAt users.old.users checked.now.security.user.now AuthPriv
        × (tag_of checked.now.message.body ≡ 4) }
    ensures users { users.new.users ≡ users.old.users }
    ensures no_memory { checked.now.message.header.privacy ≡ false → (learned : Marks)
        → LearnsChecked (verified_of checked.now) now clocks.now learned
        → ((g : Given) → Weighs (as_manager learned) users.old.users now datagram.now
        (verified_of checked.now) (Ok g)
        → ⊥) → IsOk result }
    ensures weighs { IfOk result
        (λ answer. (learned : Marks) → LearnsChecked
        (verified_of checked.now) now clocks.now learned
        → IsSomeAnd (kept_answer answer)
        (Weighs (as_manager learned) users.old.users now datagram.now (verified_of checked.now))) }
{
    match weigh(users, clocks, now, datagram, checked)? {
        Ok(taken) => Ok(Ok(Kept::of(alloc, taken)?)),
        Err(fault) => Ok(Err(fault)),
    }
}
