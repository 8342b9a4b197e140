//! Whoever reads the traffic of engines.

ghost use Rattle.std.specs.Prelude.{◌≡◌, ◌⊎◌, IfOk, IsSomeAnd, OnErr, Some};
ghost use Rattle.snmp_ber.specs.declared.level.Level.TheVariants.{AuthPriv};
ghost use Rattle.snmp_message.specs.Message.{tag_of};
ghost use Rattle.usm_users.specs.Users.{HasUserAt};
ghost use Rattle.usm_core.specs.Answers.{verified_of};
ghost use Rattle.usm_core.specs.Verified.{IsReadAs};
ghost use Rattle.snmp_incoming.specs.Answers.{answer_of};
ghost use Rattle.diagnose_judge.specs.Clocks.{IsTold, IsToldAt, clock_at};
ghost use Rattle.diagnose_judge.specs.declared.judged.Verdict.TheVariants.{Refused};
ghost use Rattle.engine_clock.specs.Pairs.{BootsAndTime};
ghost use Rattle.engine_clock.specs.Windows.{InAgentWindow};
ghost use Rattle.snmp_message.specs.declared.refusal.Refusal.TheVariants.{NotInWindow};
ghost use Rattle.diagnose_judge.specs.Judging.{IsJudged, IsUnread, Opens, judgement_of};

use crate::discovery::is_discovery;
use crate::judged::{Judged, Verdict};
use engine_clock::{Clocks, Mark, Pair, in_window_agent};
use snmp_incoming::{Taken, read_text, scoped_octets};
use snmp_manager::{is_fresh_once_learned, learn, pair_of};
use snmp_msg::{Refusal, RefusedAt, is_confirmed};
use std::alloc::AllocError;
use std::marker::Model;
use usm_core::{Checked, Role, Users};

/// Users, and what is known of the clocks of engines, from messages that these engines sent. All moments are in
/// seconds from one beginning, which the caller keeps.
#[derive(Drop)]
pub struct Observer {
    users: Users,
    clocks: Clocks,
}

impl Model for Observer {
    ghost use Rattle.std.specs.Coded.{codes};
    ghost use Rattle.engine_clock.specs.Marks.{marks_code};
    ghost use Rattle.snmp_manager.specs.Views.{Held};

    ghost Value = { Held };

    ghost coded = { Prim.hlevel (codes, marks_code) };

    ghost view = { λ o. record { users = o.users.users; clocks = o.clocks } };
}

impl Observer {
    /// An observer with these users that begins with these clocks. This takes no memory.
    pub fn new(users: Users, clocks: Clocks) -> Observer
        ensures users { result.users ≡ users.users }
        ensures clocks { result.clocks ≡ clocks }
    {
        Observer { users, clocks }
    }

    /// What is known of the clocks of engines.
    pub fn clocks(&self) -> &Clocks
        ensures { result.now ≡ self.now.clocks }
    {
        &self.clocks
    }

    /// Judges a datagram that was captured at the moment `now`. What the authoritative engine sent is taken as a
    /// manager takes it (RFC 3414, section 3.2, step 7 b), and learned from. What was sent to the authoritative
    /// engine is judged as its agent judges it (step 7 a), by the boots that are held of it and its time counted on,
    /// and teaches nothing. Where nothing is held, the window isn't judged.
    ///
    /// The error is out of memory, and then all is as before.
    pub fn judge<'a>(&mut self, now: u64, datagram: &'a [u8]) -> Result<Judged<'a>, AllocError>
        ensures judged { IfOk result
            (λ judged. IsSomeAnd (judgement_of judged)
            (λ j. IsJudged self.old now datagram.now j self.new)) }
        ensures err { OnErr result (self.new ≡ self.old) }
    {
        let checked = match self.users.open_auth(Role::Manager, datagram) {
            Ok(checked) => checked,
            Err(refused) => return Ok(unread(datagram, refused)),
        };
        let taken = match open(&mut self.users, datagram, &checked)? {
            Ok(taken) => taken,
            Err(refused) => return Ok(Judged::Unread(refused)),
        };
        if is_confirmed(taken.tag) {
            let verdict = verdict_of(&self.users, &self.clocks, now, &checked);
            return Ok(Judged::SentTo { taken, verdict });
        }
        let in_window = is_fresh_once_learned(&self.clocks, &checked, now);
        learn(&mut self.clocks, &checked, now)?;
        Ok(Judged::SentBy { taken, in_window })
    }
}

/// A datagram that was refused before its PDU could be read.
fn unread<'a>(datagram: &[u8], refused: RefusedAt) -> Judged<'a>
    ensures { IsUnread datagram.now refused.refusal (judgement_of result) }
{
    if refused.refusal == Refusal::UnknownEngine && is_discovery(datagram) {
        Judged::Discovery
    } else {
        Judged::Unread(refused)
    }
}

/// Opens a message that passed its digest, and reads its PDU, whatever the time window. The error is out of memory.
fn open<'a>(
    users: &mut Users,
    datagram: &'a [u8],
    checked: &Checked<'a>,
) -> Result<Result<Taken<'a>, RefusedAt>, AllocError>
    requires read { IsReadAs datagram.now (verified_of checked.now) }
    requires private { checked.now.level ≡ AuthPriv
        → HasUserAt users.old.users checked.now.security.user.now AuthPriv
        × (tag_of checked.now.message.body ≡ 4) }
    ensures users { users.new.users ≡ users.old.users }
    ensures opens { IfOk result
        (λ answer. IsSomeAnd (answer_of answer)
        (Opens users.old.users datagram.now (verified_of checked.now))) }
{
    let Some(text) = scoped_octets(users, datagram, checked)? else {
        return Ok(Err(RefusedAt::plain(Refusal::DecryptionError)));
    };
    Ok(read_text(checked, text))
}

/// The clock of the engine of which this is held: its boots, and its time counted on to the moment `now`.
fn clock_of(mark: Mark, now: u64) -> Pair
    ensures { (said : BootsAndTime) → result ≡ clock_at (Some mark) now said }
{
    Pair {
        boots: mark.pair.boots,
        time: mark.notion(now),
    }
}

/// What an agent with this clock makes of a message that says this pair: what is given, if it is in the window.
fn in_window_of(clock: Pair, said: Pair, inside: Verdict) -> Verdict
    ensures { (InAgentWindow clock said × (result ≡ inside))
        ⊎ ((InAgentWindow clock said → ⊥) × (result ≡ Refused NotInWindow)) }
{
    if in_window_agent(clock, said) {
        inside
    } else {
        Verdict::Refused(Refusal::NotInWindow)
    }
}

/// What the authoritative engine makes of a message that was sent to it. It knows the users that are known here.
fn verdict_of(users: &Users, clocks: &Clocks, now: u64, checked: &Checked<'_>) -> Verdict
    ensures { IsTold users.now.users clocks.now now (verified_of checked.now) result }
{
    match users.supports(checked.security.user, checked.level) {
        Ok(()) => verdict_at(clocks, now, checked),
        Err(refused) => Verdict::Refused(refused.refusal),
    }
}

/// What the authoritative engine makes of a message of a user that it knows.
fn verdict_at(clocks: &Clocks, now: u64, checked: &Checked<'_>) -> Verdict
    ensures { IsToldAt clocks.now now (verified_of checked.now) result }
{
    if !checked.message.header.auth {
        return Verdict::Accepted;
    }
    let said = pair_of(checked);
    match clocks.mark(&checked.engine) {
        Some(mark) => in_window_of(clock_of(mark, now), said, Verdict::Accepted),
        None => in_window_of(said, said, Verdict::Unweighed),
    }
}
