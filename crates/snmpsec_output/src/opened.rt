//! A message, opened by the keys of users.

ghost use Rattle.std.specs.Prelude.{◌≡◌, IfOk, IfSome, string_bytes};
ghost use Rattle.usm_core.specs.Answers.{verified_of};
ghost use Rattle.snmp_incoming.specs.Texts.{text_of};
ghost use Rattle.snmpsec_output.specs.Opening.{TellsWith, OpensWith, lines_answer};

use crate::lines::{message_lines, scoped_lines};
use snmp_incoming::{Taken, read_text, scoped_octets};
use snmp_msg::{Refusal, RefusedAt};
use snmpsec_config::level_word;
use std::alloc::{AllocError, Global};
use usm_core::{Checked, Role, Users};

/// The lines of a message that is opened by the keys of these users, as a manager does that has no clocks: those of
/// `message_lines`, a line `level`, and those of `scoped_lines`, with names after them if these are asked for.
///
/// The errors are, the first that applies: those of `Users::open_auth`, then OutOfMemory (14),
/// DecryptionError (11), BadScoped (12) and BadPdu (13). The time window isn't looked at. OutOfMemory comes
/// too if the lines find no memory.
pub(crate) fn opened_lines(
    alloc: Global,
    names: bool,
    users: &mut Users,
    datagram: &[u8],
) -> Result<String, RefusedAt>
    ensures opens { IfSome (lines_answer result) (OpensWith names users.old.users datagram.now) }
    ensures users { users.new.users ≡ users.old.users }
{
    let checked = users.open_auth(Role::Manager, datagram)?;
    let opening = scoped_octets(users, datagram, &checked)?;
    let Some(text) = opening else {
        return Err(RefusedAt::plain(Refusal::DecryptionError));
    };
    let taken = read_text(&checked, text)?;
    let lines = taken_lines(alloc, names, &checked, &taken)?;
    Ok(lines)
}

/// The lines of a message that was checked and taken.
fn taken_lines(
    alloc: Global,
    names: bool,
    checked: &Checked<'_>,
    taken: &Taken<'_>,
) -> Result<String, AllocError>
    ensures { IfOk result
        (λ text. TellsWith names (verified_of checked.now)
        (text_of taken.now.text) (string_bytes text)) }
{
    let message = message_lines(alloc, names, &checked.message.header, &checked.security)?;
    let level = level_word(checked.level);
    let (scoped, pdu) = (taken.scoped(), taken.pdu());
    let scoped = scoped_lines(alloc, names, &scoped, &pdu)?;
    format!(in alloc; "{message}level {level}\n{scoped}")
}
