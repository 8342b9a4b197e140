//! What an agent answers to a datagram.

ghost use Rattle.std.specs.Prelude.{◌≡◌, ◌↔◌, true, IsTrue, IsErr, IfErr, IfOk, IfSome, None};
ghost use Rattle.engine_clock.specs.Windows.{InAgentWindow};
ghost use Rattle.usm_core.specs.Verified.{ReadsLayout};
ghost use Rattle.usm_core.specs.Answers.{layout_answer, verified_of};
ghost use Rattle.usm_core.specs.Layouts.{IsLayoutOf};
ghost use Rattle.snmp_incoming.specs.Outcome.{Outcome, pair_in};
ghost use Rattle.snmp_incoming.specs.Answers.{answer_of};
ghost use Rattle.snmp_agent.specs.Agent.{taker_at, IsOpened};
ghost use Rattle.snmp_agent.specs.RefusalCounters.{counter_of};
ghost use Rattle.snmp_message.specs.declared.refusal.Refusal.TheVariants.{OutOfMemory};
ghost use Rattle.snmp_message.specs.Refusals.{IsRefused};

use crate::engine::Engine;
use engine_clock::{Pair, in_window_agent};
use snmp_incoming::{Taken, read_text, scoped_octets};
use snmp_msg::{Refusal, RefusedAt};
use usm_core::{Checked, Layout, Role, Users, verified_was_read};

/// Without auth, or inside the agent's window (RFC 3414, section 3.2, step 7).
fn is_in_window(own: Pair, checked: &Checked<'_>) -> bool
    ensures { IsTrue result
        ↔ (checked.now.message.header.auth ≡ true
        → InAgentWindow own (pair_in (verified_of checked.now))) }
{
    let pair = Pair {
        boots: checked.security.boots,
        time: checked.security.time,
    };
    !checked.message.header.auth || in_window_agent(own, pair)
}

/// The answer to the datagram of which this was read, without counting it. The window is looked at before
/// memory is asked for, so that no stale message is opened.
pub(crate) fn judge<'a>(
    users: &mut Users,
    engine: &Engine,
    now: u64,
    datagram: &'a [u8],
    read: &Result<Layout<'a>, RefusedAt>,
) -> Result<Taken<'a>, RefusedAt>
    requires rows { ReadsLayout datagram.now (layout_answer read.now) }
    requires layout { IfOk read.now (IsLayoutOf datagram.now) }
    ensures rows { IfSome (answer_of result)
        (Outcome (taker_at engine.now) users.old.users now datagram.now) }
    ensures memory { IsRefused result OutOfMemory
        → IsOpened (taker_at engine.now) users.old.users now datagram.now }

    // The refusals of what isn't read have no counter, and so no report.
    ensures unread { IsErr read.now → IfErr result (λ e. counter_of e.refusal ≡ None) }
    ensures users { users.new.users ≡ users.old.users }
{
    verified_was_read();
    let Some(own) = engine.pair(now) else {
        return Err(RefusedAt::plain(Refusal::ClockExhausted));
    };
    let layout = match read {
        Ok(layout) => layout,
        Err(why) => return Err(*why),
    };
    let checked = users.open_layout(Role::Agent(&engine.id), datagram, layout)?;
    if !is_in_window(own, &checked) {
        return Err(RefusedAt::plain(Refusal::NotInWindow));
    }
    let opening = scoped_octets(users, datagram, &checked)?;
    let Some(text) = opening else {
        return Err(RefusedAt::plain(Refusal::DecryptionError));
    };
    read_text(&checked, text)
}
