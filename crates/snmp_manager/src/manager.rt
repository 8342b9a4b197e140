//! The manager.

ghost use Rattle.std.specs.Prelude.{◌≡◌, ◌+◌, ◌<◌, ◌≤◌, ◌⊎◌, ℕ, List, All, length, map, slice_get, Some};
ghost use Rattle.std.specs.Prelude.{Err};
ghost use Rattle.std.specs.Prelude.{IfOk, IfErr, IfSome, IsOk, IsSome, MatchResult, OnErr, OnOk};
ghost use Rattle.std.specs.Global.{Vec as Octets};
ghost use Rattle.std.specs.Option.{option_map};
ghost use Rattle.engine_clock.specs.Pairs.{IsPair};
ghost use Rattle.engine_clock.specs.Marks.{HoldsAll, SeenPair, mark_at, pair_at, IsMarkJoinOf, IsJoinOf};
ghost use Rattle.engine_clock.specs.Saved.{AreMarks, listing};
ghost use Rattle.engine_clock.specs.Windows.{notion_at};
ghost use Rattle.snmp_ber.specs.declared.number.TheConstants.{MAX_INTEGER32};
ghost use Rattle.usm_core.specs.Verified.{manager};
ghost use Rattle.usm_core.specs.Answers.{seal_answer};
ghost use Rattle.usm_core.specs.Sealed.{sending, Seals, IsSealable, IsSendable};
ghost use Rattle.snmp_message.specs.declared.message.TheConstants.{LARGEST};
ghost use Rattle.snmp_incoming.specs.Answers.{answer_of, IsPlain};
ghost use Rattle.snmp_msg.specs.Pdu.{IsSpelled};
ghost use Rattle.snmp_msg.specs.PduTypes.{IsPduTag};
ghost use Rattle.snmp_outgoing.specs.Bodies.{BodyFits, front_in, variables_in, pdu_in, pdu_after};
ghost use Rattle.snmp_outgoing.specs.Requests.{request, requesting};
ghost use Rattle.snmp_outgoing.specs.Sends.{CanSend, RefusesSender};
ghost use Rattle.snmp_manager.specs.Pendings.{IsPending, request_answer};
ghost use Rattle.snmp_manager.specs.Sent.{IsAcceptedByAgents};
ghost use Rattle.snmp_manager.specs.Known.{IsLatest, datagrams_of};
ghost use Rattle.snmp_manager.specs.Takes.{Takes, HoldsAuthentic, IsOnceLearned, TakesNoMemory, kept_answer};
ghost use Rattle.snmp_manager.specs.Runs.{TakesOne, Runs, HasTaken, moments_of, taken_of};
ghost use Rattle.snmp_message.specs.declared.refusal.Refusal.TheVariants.{OutOfMemory, TooLarge};
ghost use Rattle.snmp_message.specs.declared.refusal.Refusal.{Refusal as Refused};
ghost use Rattle.snmp_message.specs.Refusals.{IsRefused};

use crate::learning::learn;
use crate::outcome::{Outcome, Stopped};
use crate::pending::Pending;
use crate::requests::written_pair;
use crate::target::Target;
use crate::weighing::{weigh, weigh_kept};
use engine_clock::{Clocks, EngineId, Mark, Pair};
use snmp_ber::Level;
use snmp_incoming::{Kept, Taken};
use snmp_msg::{Header, RefusedAt, Spelled, is_confirmed};
use snmp_outgoing::{
    Body, Envelope, Front, spoken_is_accepted, supports, write_body_of, write_plain,
};
use std::alloc::{AllocError, Global};
use std::marker::Model;
use usm_core::{Role, Users};

/// Users, and what is known of the clocks of engines. All moments are in seconds from one beginning, which
/// the caller keeps.
#[derive(Drop)]
pub struct Manager {
    pub(crate) alloc: Global,
    pub(crate) users: Users,
    pub(crate) clocks: Clocks,
}

impl Model for Manager {
    ghost use Rattle.std.specs.Coded.{codes};
    ghost use Rattle.engine_clock.specs.Marks.{marks_code};
    ghost use Rattle.snmp_manager.specs.Views.{Held};

    ghost Value = { Held };

    ghost coded = { Prim.hlevel (codes, marks_code) };

    ghost view = { λ m. record { users = m.users.users; clocks = m.clocks } };
}

impl Manager {
    /// A manager with these users that begins with these clocks. This takes no memory.
    pub fn new(alloc: Global, users: Users, clocks: Clocks) -> Manager
        ensures users { result.users ≡ users.users }
        ensures clocks { result.clocks ≡ clocks }
    {
        Manager {
            alloc,
            users,
            clocks,
        }
    }

    /// The pair that is held of the engine.
    pub fn pair(&self, engine: &EngineId) -> Option<Pair>
        ensures { result ≡ pair_at self.now.clocks engine.now }
    {
        self.clocks.pair(engine)
    }

    /// The mark that is held of the engine: its pair, and the moment at which it was seen.
    pub fn mark(&self, engine: &EngineId) -> Option<Mark>
        ensures { result ≡ mark_at self.now.clocks engine.now }
    {
        self.clocks.mark(engine)
    }

    /// The notion of the engine's time at the moment `now` (RFC 3414, section 2.3), in seconds, at most 2147483647.
    pub fn notion(&self, engine: &EngineId, now: u64) -> Option<u32>
        ensures { result ≡ option_map (notion_at now) (mark_at self.now.clocks engine.now) }
    {
        self.clocks.notion(engine, now)
    }

    /// Joins the marks of `clocks` in. On an error, which is out of memory, all is as before.
    ///
    /// No memory is wanted where each engine of the clocks is held.
    pub fn absorb(&mut self, clocks: &Clocks) -> Result<(), AllocError>
        ensures marks { OnOk result (IsMarkJoinOf self.old.clocks clocks.now self.new.clocks) }
        // So it is the join of the pairs.
        ensures joined { OnOk result (IsJoinOf self.old.clocks clocks.now self.new.clocks) }
        ensures users { self.new.users ≡ self.old.users }
        ensures err { OnErr result (self.new ≡ self.old) }
        ensures held { HoldsAll self.old.clocks clocks.now → IsOk result }
    {
        self.clocks.absorb(clocks)
    }

    /// Goes on from these marks alone, with the same users. This takes no memory.
    pub fn restart(&mut self, clocks: Clocks)
        ensures clocks { self.new.clocks ≡ clocks }
        ensures users { self.new.users ≡ self.old.users }
    {
        self.clocks = clocks;
    }

    /// The saved text of the marks, which `Clocks::read_saved` reads again. The error is out of memory.
    pub fn save(&self) -> Result<Vec<u8>, AllocError>
        ensures text { IfOk result (λ text. text.items ≡ listing self.now.clocks) }
        ensures fits { AreMarks self.now.clocks }
    {
        self.clocks.save()
    }

    /// Takes a datagram at the moment `now`: reads and authenticates it (RFC 3412, section 7.2, and RFC 3414,
    /// section 3.2), learns its pair, and then looks at the time window, opens the message and reads its
    /// ScopedPDU.
    ///
    /// The errors are, the first that applies: those of `Users::open_auth`, which teach nothing; OutOfMemory
    /// (14), which leaves all as before; and NotInWindow (10), DecryptionError (11), BadScoped (12) and
    /// BadPdu (13), of messages whose pair is learned all the same, where they have authentication. Memory is
    /// taken to decrypt, and for an engine that isn't held.
    pub fn take<'a>(&mut self, now: u64, datagram: &'a [u8]) -> Result<Taken<'a>, RefusedAt>
        ensures takes { Takes self.old now datagram.now (answer_of result) self.new }
        ensures stays { (r : Refused) → answer_of result ≡ Some (Err r) → (IsOnceLearned r → ⊥)
            → self.new.clocks ≡ self.old.clocks }
        ensures no_memory { IsPlain manager self.old.users datagram.now
            → HoldsAuthentic self.old datagram.now
            → IsSome (answer_of result) }
    {
        let checked = self.users.open_auth(Role::Manager, datagram)?;
        let answer = weigh(&mut self.users, &self.clocks, now, datagram, &checked)?;
        learn(&mut self.clocks, &checked, now)?;
        answer
    }

    /// Takes a datagram at the moment `now` as `take` does, and copies what is accepted, for a caller that
    /// answers it once the datagram is gone. The copy is made before anything is learned, so that OutOfMemory
    /// (14) leaves all as before here too.
    ///
    /// The errors are those of `take`. Memory is taken where `take` does, and for the copy.
    pub fn take_kept(&mut self, now: u64, datagram: &[u8]) -> Result<Kept, RefusedAt>
        ensures takes { Takes self.old now datagram.now (kept_answer result) self.new }
        ensures stays { (r : Refused) → kept_answer result ≡ Some (Err r) → (IsOnceLearned r → ⊥)
            → self.new.clocks ≡ self.old.clocks }
        ensures no_memory { TakesNoMemory self.old now datagram.now → IsSome (kept_answer result) }
    {
        let checked = self.users.open_auth(Role::Manager, datagram)?;
        let kept = weigh_kept(
            self.alloc,
            &mut self.users,
            &self.clocks,
            now,
            datagram,
            &checked,
        )?;
        learn(&mut self.clocks, &checked, now)?;
        kept
    }

    /// Takes a datagram at the moment `now`, and tells what it was answered. On an error, which says that
    /// memory ran out, all is as before. It takes memory where `take` does.
    pub fn take_one(&mut self, now: u64, datagram: &[u8]) -> Result<Outcome, AllocError>
        ensures outcome { IfOk result (λ outcome. TakesOne self.old
            now datagram.now outcome self.new) }
        ensures err { OnErr result (self.new ≡ self.old) }
        ensures no_memory { IsPlain manager self.old.users datagram.now
            → HoldsAuthentic self.old datagram.now
            → IsOk result }
    {
        match self.take(now, datagram) {
            Ok(taken) => Ok(Outcome::Accepted {
                level: taken.level,
                tag: taken.tag,
            }),
            Err(fault) => {
                if fault.is_memory() {
                    return Err(AllocError);
                }
                Ok(Outcome::Refused(fault))
            }
        }
    }

    /// Takes datagrams one after another, each at its moment. Then the pair of each engine is the greatest that was
    /// authenticated in what was taken, or that was held before. The memory for the outcomes is asked for first.
    ///
    /// The error says how many of the datagrams were taken before memory ran out: never all, so
    /// that a run over no datagram succeeds. Where some were taken, the next one wanted memory: it is sealed
    /// and passes its digest, or it is authentic and its engine isn't held.
    pub fn run(&mut self, datagrams: &[(u64, Vec<u8>)]) -> Result<Vec<Outcome>, Stopped>
        ensures outcomes { IfOk result
            (λ outcomes. Runs self.old datagrams.now outcomes.items self.new) }
        ensures latest { (engine : List ℕ)
            → IsLatest self.old.users (pair_at self.old.clocks engine)
            (datagrams_of (taken_of result datagrams.now)) engine (pair_at self.new.clocks engine) }
        ensures users { self.new.users ≡ self.old.users }
        ensures stopped { IfErr result (λ stopped. stopped.taken < length datagrams.now) }

        // So a run stops only where its outcomes have no memory, or where the next datagram wants some.
        ensures wants { IfErr result (λ stopped. (stopped.taken ≡ 0)
            ⊎ ((t : ℕ × Octets ℕ) × (slice_get datagrams.now stopped.taken ≡ Some t)
            × (IsPlain manager self.new.users t.1.items → HoldsAuthentic self.new t.1.items → ⊥))) }
        ensures ran { HasTaken self.old (moments_of (taken_of result datagrams.now)) self.new }
    {
        let Ok(mut outcomes) = Vec::with_capacity(self.alloc, datagrams.len()) else {
            return Err(Stopped { taken: 0 });
        };
        for (i, (now, datagram)) in datagrams.iter().enumerate() {
            let Ok(outcome) = self.take_one(*now, datagram) else {
                return Err(Stopped { taken: i });
            };
            if outcomes.push(outcome).is_err() {
                unreachable!();
            }
        }
        Ok(outcomes)
    }

    /// Whether a request for this user at this level can be sent (RFC 3414, section 3.1): at levels with
    /// authentication there is a user of this name that supports the level. The errors are UnknownUser (7),
    /// and where there is such a user UnsupportedLevel (8). It takes no memory.
    pub fn supports(&self, user: &[u8], level: Level) -> Result<(), RefusedAt>
        ensures { MatchResult result (λ _. CanSend self.now.users user.now level)
            (λ e. RefusesSender self.now.users user.now level e.refusal) }
    {
        supports(&self.users, user, level)
    }

    /// A request to the engine at the moment `now`, and what is to be remembered of it (RFC 3414, section
    /// 3.1): with this msgID, for this user at this level, and at authPriv with this salt, which is to be
    /// another one for each message. At levels with authentication it has the held boots and the notion of
    /// the time, or 0 and 0 where no pair is held. It asks for reports where the PDU is of the Confirmed
    /// Class.
    ///
    /// The errors are, at levels with authentication, UnknownUser (7) and UnsupportedLevel (8); then TooLarge
    /// (16), only where the text would be longer than 65,507 octets, or OutOfMemory (14), whichever is met
    /// first.
    pub fn request(
        &mut self,
        now: u64,
        id: u32,
        engine: &EngineId,
        user: &[u8],
        level: Level,
        body: &Body<'_>,
        salt: [u8; 8],
    ) -> Result<(Vec<u8>, Pending), RefusedAt>
        requires id { id ≤ MAX_INTEGER32 }
        requires user { length user.now ≤ 32 }
        requires body { BodyFits body.now }
        ensures text { IfSome (request_answer result)
            (Seals self.old.users
            (requesting (mark_at self.old.clocks engine.now) now id engine.now user.now level
            (front_in body.now)
            (variables_in body.now) salt)) }
        ensures memory { IsRefused result OutOfMemory
            → IsSealable self.old.users
            (requesting (mark_at self.old.clocks engine.now) now id engine.now user.now level
            (front_in body.now)
            (variables_in body.now) salt) }
        ensures pending { IfOk result (λ sent. IsPending sent.1 id engine.now user.now level
            (front_in body.now)) }
        ensures accepted { IfOk result (λ sent. IsAcceptedByAgents self.old.users
            (request (mark_at self.old.clocks engine.now) now id engine.now user.now level
            (front_in body.now)
            (variables_in body.now) salt) sent.0.items) }
        ensures pair { (mark : SeenPair) → mark_at self.old.clocks engine.now ≡ Some mark
            → IsPair mark.pair }
        ensures spelled { IfOk result (λ _. IsSpelled (pdu_in body.now)) }
        ensures same { self.new ≡ self.old }
    {
        let target = Target {
            engine,
            user,
            level,
        };
        self.request_of(now, id, &target, &body.front(), body.bindings, salt)
    }

    /// The same request, with this front and bindings in any form that can be written: `VariableBinding` is
    /// the quick one, with its name's octets, of which only the tags are asked.
    ///
    /// The errors are those of `request`, in its order.
    pub fn request_of<B: Spelled>(
        &mut self,
        now: u64,
        id: u32,
        target: &Target<'_>,
        front: &Front<'_>,
        bindings: &[B],
        salt: [u8; 8],
    ) -> Result<(Vec<u8>, Pending), RefusedAt>
        requires id { id ≤ MAX_INTEGER32 }
        requires user { length target.now.user.now ≤ 32 }
        requires tag { IsPduTag front.now.tag }
        requires fit { All (λ b. B.fits b) bindings.now }
        ensures text { IfSome (request_answer result)
            (Seals self.old.users
            (requesting (mark_at self.old.clocks target.now.engine.now) now id
            target.now.engine.now target.now.user.now target.now.level front.now
            (map B.says bindings.now) salt)) }
        ensures memory { IsRefused result OutOfMemory
            → IsSealable self.old.users
            (requesting (mark_at self.old.clocks target.now.engine.now) now id
            target.now.engine.now target.now.user.now target.now.level front.now
            (map B.says bindings.now) salt) }
        ensures pending { IfOk result (λ sent. IsPending sent.1 id
            target.now.engine.now target.now.user.now target.now.level front.now) }
        ensures accepted { IfOk result (λ sent. IsAcceptedByAgents self.old.users
            (request (mark_at self.old.clocks target.now.engine.now) now id
            target.now.engine.now target.now.user.now target.now.level front.now
            (map B.says bindings.now) salt) sent.0.items) }
        ensures pair { (mark : SeenPair) → mark_at self.old.clocks target.now.engine.now ≡ Some mark
            → IsPair mark.pair }
        ensures spelled { IfOk result (λ _. IsSpelled
            (pdu_after front.now (map B.says bindings.now))) }
        ensures same { self.new ≡ self.old }
    {
        spoken_is_accepted();
        let envelope = Envelope {
            level: target.level,
            id,
            reportable: is_confirmed(front.tag),
            engine: target.engine.as_slice(),
            pair: written_pair(&self.clocks, target.engine, target.level, now),
            user: target.user,
            salt,
        };
        let text = write_body_of(&mut self.users, &envelope, front, bindings)?;
        Ok((text, Pending::of(self.alloc, &envelope, front)?))
    }

    /// A message with any header and any ScopedPDU, as `Users::seal` writes it. No clock is looked at.
    ///
    /// The errors are those of `Users::seal`, in its order.
    pub fn seal(
        &mut self,
        header: &Header,
        engine: &[u8],
        pair: Pair,
        user: &[u8],
        salt: [u8; 8],
        scoped: &[u8],
    ) -> Result<Vec<u8>, RefusedAt>
        requires { IsSendable header.now user.now scoped.now }
        ensures rows { IfSome (seal_answer result)
            (Seals self.old.users (sending header.now engine.now pair user.now salt scoped.now)) }
        ensures memory { IsRefused result OutOfMemory
            → IsSealable self.old.users (sending header.now engine.now
            pair user.now salt scoped.now) }
        ensures short { IsRefused result TooLarge
            → LARGEST < 150 + length engine.now + length user.now + length scoped.now }
        ensures same { self.new ≡ self.old }
    {
        self.users.seal(header, engine, pair, user, salt, scoped)
    }
}
