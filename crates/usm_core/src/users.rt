//! The users of an engine.

ghost use Rattle.std.specs.Prelude.{◌+◌, ◌<◌, ◌≤◌, false, replicate, ◌≡◌, ◌≢◌, ◌↔◌, ◌⊎◌, ℕ, List, [], map, length};
ghost use Rattle.std.specs.Prelude.{IfOk, IfErr, IfSome, OnOk, OnErr};
ghost use Rattle.snmp_ber.specs.declared.level.Level.TheVariants.{AuthPriv};
ghost use Rattle.snmp_message.specs.declared.message.TheConstants.{LARGEST};
ghost use Rattle.snmp_message.specs.Message.{tag_of, content_of};
ghost use Rattle.snmp_message.specs.Security.{fields_of};
ghost use Rattle.snmp_message.specs.Level.{level_of};
ghost use Rattle.engine_clock.specs.Pairs.{BootsAndTime};
ghost use Rattle.usm_users.specs.Users.{AreUsers, HasUserAt};
ghost use Rattle.usm_users.specs.Cache.{AreCached};
ghost use Rattle.usm_core.specs.Authentic.{Authentic};
ghost use Rattle.usm_core.specs.Verified.{Verifies, AllowsEngine, IsReadAs, IsJudged};
ghost use Rattle.usm_core.specs.Answers.{side_of, checked_answer, verified_of, seal_answer, IsAuthenticatedAs};
ghost use Rattle.usm_core.specs.Layouts.{IsLayoutOf};
ghost use Rattle.usm_users.specs.Rows.{AreSound, IsTold, user_of};
ghost use Rattle.usm_core.specs.Refusals.{Supports};
ghost use Rattle.usm_core.specs.Sealed.{sending, Seals, IsSendable, IsSealable, IsPlaintext};
ghost use Rattle.snmp_message.specs.Spelling.{HeaderFits};
ghost use Rattle.snmp_message.specs.declared.refusal.Refusal.TheVariants.{UnknownUser, DecryptionError, OutOfMemory};
ghost use Rattle.snmp_message.specs.declared.refusal.Refusal.TheVariants.{TooLarge};
ghost use Rattle.snmp_message.specs.Refusals.{IsRefused};
ghost use Rattle.snmp_message.specs.Refusals.{IsWriteRefusal};

use crate::checked::{Checked, Role};
use crate::laws::{has_engine, sealed_size, some_sealed};
use crate::layout::{Layout, read_layout};
use crate::privacy::open_for;
use crate::seal::{seal_for, seal_open};
use crate::spell::Outgoing;
use crate::verify::verify;
use engine_clock::Pair;
use snmp_ber::Level;
use snmp_message::{Header, Refusal, RefusedAt, ScopedOctets, ScopedPdu, one_cut, one_message};
use std::alloc::{AllocError, Global};
use std::marker::Model;
use usm_users::{KeyCache, Purpose, UserFault, UserRow, UserTable, places_of, table_of};

/// Users, each with the keys of its passwords, not yet localised to an engine (RFC 3414, section 2.6). Their names are
/// distinct.
#[derive(Drop)]
pub struct Users {
    alloc: Global,
    pub(crate) table: UserTable,
    cache: KeyCache,
}

impl Model for Users {
    ghost use Rattle.usm_core.specs.Known.{Known};
    ghost use Rattle.usm_users.specs.Users.{AreUsers};
    ghost use Rattle.usm_users.specs.Cache.{AreCached};

    ghost Value = { Known };

    ghost view = { λ a. record { users = a.table; cache = a.cache } };

    ghost invariant = { λ a. AreUsers a.table × AreCached a.table a.cache };
}

impl Users {
    /// The users of these rows, in their order, with no localised key kept. Each password is hashed once, at
    /// length (RFC 3414, section A.2).
    ///
    /// The error is what is wrong with the first row at fault, or OutOfMemory where none is: of one row's
    /// faults BadUser comes first, then ShortPassword, then DuplicateUser, which is reported for the later row.
    pub fn load(alloc: Global, rows: &[UserRow]) -> Result<Users, UserFault>
        ensures sound { OnOk result (AreSound rows.now) }
        ensures users { IfOk result (λ made. made.users ≡ map user_of rows.now) }
        ensures told { IfErr result (IsTold rows.now) }
        ensures cache { IfOk result (λ made. made.cache ≡ []) }
    {
        let table = table_of(alloc, rows)?;
        match KeyCache::new(alloc) {
            Ok(cache) => Ok(Users {
                alloc,
                table,
                cache,
            }),
            Err(_) => Err(UserFault::OutOfMemory),
        }
    }

    /// Whether `load` takes these rows, memory aside. It hashes no password, so it is quick where no key is needed.
    ///
    /// The error is what is wrong with the first row at fault, as `load` tells it, or OutOfMemory where none is.
    pub fn check(alloc: Global, rows: &[UserRow]) -> Result<(), UserFault>
        ensures sound { OnOk result (AreSound rows.now) }
        ensures told { IfErr result (IsTold rows.now) }
    {
        places_of(alloc, rows)?;
        Ok(())
    }

    /// The number of localised keys that are kept for the next message: at most 64. Each is the key of one of
    /// the users, for authentication or for privacy, localised to an engine.
    pub fn cached(&self) -> usize
        ensures count { result ≡ length self.now.cache }
        ensures most { result ≤ 64 }
        ensures each { AreCached self.now.users self.now.cache }
    {
        self.cache.len()
    }

    /// The same users, with no localised key kept.
    pub fn try_clone(&self) -> Result<Users, AllocError>
        ensures users { IfOk result (λ made. made.users ≡ self.now.users) }
        ensures cache { IfOk result (λ made. made.cache ≡ []) }
    {
        Ok(Users {
            alloc: self.alloc,
            table: self.table.try_clone(self.alloc)?,
            cache: KeyCache::new(self.alloc)?,
        })
    }

    /// Whether there is a user of this name with the keys that the level needs. The error is UnknownUser (7)
    /// where there is no user of the name, the empty one among them, and else UnsupportedLevel (8). It takes
    /// no memory.
    pub fn supports(&self, user: &[u8], level: Level) -> Result<(), RefusedAt>
        ensures answer { Supports self.now.users user.now level result }
        ensures empty { user.now ≡ [] → IsRefused result UnknownUser }

        // What is true of all users that were loaded.
        ensures users { AreUsers self.now.users }
    {
        match self.table.user_named(user) {
            Some(user) if user.supports(level) => Ok(()),
            Some(_) => Err(RefusedAt::plain(Refusal::UnsupportedLevel)),
            None => Err(RefusedAt::plain(Refusal::UnknownUser)),
        }
    }

    /// The message that the datagram is, where auth is clear or its digest is right (RFC 3414, section 3.2).
    ///
    /// The errors are, the first that applies: NotMessage (1) and BadVersion (2), UnknownModel (17),
    /// InvalidFlags (18), NotScoped (4), NotSecurity (3), UnknownEngine (6), UnknownUser (7),
    /// UnsupportedLevel (8), WrongDigest (9). Neither the time window nor the sealed text is looked at. It
    /// copies no octet of the datagram. Only keeping the localised key takes memory, and where that is
    /// refused the answer is the same.
    pub fn open_auth<'a>(
        &mut self,
        role: Role<'_>,
        datagram: &'a [u8],
    ) -> Result<Checked<'a>, RefusedAt>
        ensures rows { Verifies (side_of role.entry) self.old.users datagram.now
            (checked_answer result) }

        // A message with auth is accepted exactly where the datagram is authentic, and at an agent is of its
        // own engine.
        ensures authentic { (engine : List ℕ) (pair : BootsAndTime) →
            (Authentic self.old.users datagram.now engine pair
            × AllowsEngine (side_of role.entry) engine)
            ↔ IsAuthenticatedAs (checked_answer result) engine pair }
        ensures level { IfOk result (λ c. c.level ≡ level_of c.message.header) }

        // OutOfMemory is never the error.
        ensures memory { IfErr result (λ e. e.refusal ≢ OutOfMemory) }

        // What was read is the datagram's, and its engine, user and digest are as the rows ask.
        ensures read { IfOk result (λ c. IsReadAs datagram.now (verified_of c)) }
        ensures judged { IfOk result (λ c. IsJudged
            (side_of role.entry) self.old.users datagram.now (verified_of c)) }

        // This is what `open_priv` asks.
        ensures private { IfOk result
            (λ c. c.level ≡ AuthPriv
            → HasUserAt self.old.users c.security.user.now AuthPriv × (tag_of c.message.body ≡ 4)) }
        ensures users { self.new.users ≡ self.old.users }

        // A refused datagram leaves the keys that are kept, and their order.
        ensures cache { OnErr result (self.new.cache ≡ self.old.cache) }
    {
        one_message();
        one_cut();
        has_engine(role);
        let layout = read_layout(datagram)?;
        self.open_layout(role, datagram, &layout)
    }

    /// The same, of a datagram whose layout was read already, by `read_layout`.
    ///
    /// The errors are, the first that applies: UnknownEngine (6), UnknownUser (7), UnsupportedLevel (8),
    /// WrongDigest (9).
    pub fn open_layout<'a>(
        &mut self,
        role: Role<'_>,
        datagram: &'a [u8],
        layout: &Layout<'a>,
    ) -> Result<Checked<'a>, RefusedAt>
        requires { IsLayoutOf datagram.now layout.now }
        ensures rows { Verifies (side_of role.entry) self.old.users datagram.now
            (checked_answer result) }
        ensures authentic { (engine : List ℕ) (pair : BootsAndTime) →
            (Authentic self.old.users datagram.now engine pair
            × AllowsEngine (side_of role.entry) engine)
            ↔ IsAuthenticatedAs (checked_answer result) engine pair }
        ensures level { IfOk result (λ c. c.level ≡ level_of c.message.header) }
        ensures memory { IfErr result (λ e. e.refusal ≢ OutOfMemory) }
        ensures read { IfOk result (λ c. IsReadAs datagram.now (verified_of c)) }
        ensures judged { IfOk result (λ c. IsJudged
            (side_of role.entry) self.old.users datagram.now (verified_of c)) }
        ensures private { IfOk result
            (λ c. c.level ≡ AuthPriv
            → HasUserAt self.old.users c.security.user.now AuthPriv × (tag_of c.message.body ≡ 4)) }
        ensures users { self.new.users ≡ self.old.users }
        ensures cache { OnErr result (self.new.cache ≡ self.old.cache) }
    {
        one_message();
        one_cut();
        has_engine(role);
        let mut made = None;
        let checked = verify(&self.table, &self.cache, role, datagram, layout, &mut made)?;
        if checked.message.header.auth {
            let (user, engine) = (checked.security.user, checked.security.engine);
            self.cache
                .note_use(user, engine, Purpose::Authentication, made);
        }
        Ok(checked)
    }

    /// The plaintext of a message at authPriv that `open_auth` gave (RFC 3826, section 3.1.4). Its memory is
    /// asked for once.
    ///
    /// The error is DecryptionError (11), exactly where msgPrivacyParameters don't have 8 octets, or OutOfMemory.
    pub fn open_priv(&mut self, checked: &Checked<'_>) -> Result<Vec<u8>, RefusedAt>
        requires level { HasUserAt self.old.users checked.now.security.user.now AuthPriv }
        requires sealed { tag_of checked.now.message.body ≡ 4 }
        ensures opened { IfOk result
            (λ v. IsPlaintext self.old.users (fields_of checked.now.security)
            (content_of checked.now.message.body) v.items) }
        ensures salt { IsRefused result DecryptionError → length checked.now.security.salt.now ≢ 8 }
        ensures salt_length { IfOk result (λ _. length checked.now.security.salt.now ≡ 8) }
        ensures memory { IsRefused result OutOfMemory → length checked.now.security.salt.now ≡ 8 }
        ensures fault { IfErr result (λ e. (e.refusal ≡ DecryptionError)
            ⊎ (e.refusal ≡ OutOfMemory)) }
        ensures users { self.new.users ≡ self.old.users }
    {
        open_for(self.alloc, &self.table, &mut self.cache, checked)
    }

    /// The text of an outgoing message (RFC 3414, section 3.1): every length the shortest, fields that its
    /// level doesn't use empty, and the code last, in its place. `scoped` is one whole ScopedPDU element. The
    /// engine ID is of any length, since a discovery has an empty one.
    ///
    /// The errors are InvalidFlags (18), then at levels with authentication UnknownUser (7) and
    /// UnsupportedLevel (8), and then TooLarge (16), only where the text would be longer than 65,507 octets,
    /// or OutOfMemory, whichever is met first. A text is at most 150 octets longer than the engine ID, the
    /// user name and the scoped PDU together.
    pub fn seal(
        &mut self,
        header: &Header,
        engine: &[u8],
        pair: Pair,
        user: &[u8],
        salt: [u8; 8],
        scoped: &[u8],
    ) -> Result<Vec<u8>, RefusedAt>
        requires { IsSendable header.now user.now scoped.now }
        ensures rows { IfSome (seal_answer result)
            (Seals self.old.users (sending header.now engine.now pair user.now salt scoped.now)) }

        // The refusals before the text come before OutOfMemory.
        ensures memory { IsRefused result OutOfMemory
            → IsSealable self.old.users (sending header.now engine.now
            pair user.now salt scoped.now) }
        ensures short { IsRefused result TooLarge
            → LARGEST < 150 + length engine.now + length user.now + length scoped.now }
        ensures users { self.new.users ≡ self.old.users }
    {
        self.seal_of(header, engine, pair, user, salt, &ScopedOctets::of(scoped))
    }

    /// The same, of a ScopedPDU that is written in its place in the message. The memory of the text is
    /// asked for once, and no octet of it is copied from another text.
    ///
    /// The errors are those of `seal`, in its order.
    pub fn seal_of<S: ScopedPdu>(
        &mut self,
        header: &Header,
        engine: &[u8],
        pair: Pair,
        user: &[u8],
        salt: [u8; 8],
        scoped: &S,
    ) -> Result<Vec<u8>, RefusedAt>
        requires header { HeaderFits header.now }
        requires user { length user.now ≤ 32 }
        requires scoped { S.fits scoped.now }
        ensures rows { IfSome (seal_answer result)
            (Seals self.old.users (sending header.now engine.now pair user.now salt
            (S.octets scoped.now))) }
        ensures memory { IsRefused result OutOfMemory
            → IsSealable self.old.users (sending header.now engine.now pair user.now salt
            (S.octets scoped.now)) }
        ensures short { IsRefused result TooLarge
            → LARGEST < 150 + length engine.now + length user.now + length (S.octets scoped.now) }
        ensures users { self.new.users ≡ self.old.users }
    {
        some_sealed();
        sealed_size();
        let outgoing = Outgoing {
            header: *header,
            engine,
            boots: pair.boots,
            time: pair.time,
            user,
            salt,
            scoped,
        };
        seal_for(self.alloc, &self.table, &mut self.cache, &outgoing)
    }

    /// The text of an outgoing message without auth, for which no key is looked up: what `seal` gives at noAuthNoPriv.
    ///
    /// The errors are TooLarge (16), only where the text would be longer than 65,507 octets, and OutOfMemory.
    pub fn write_plain<S: ScopedPdu>(
        &self,
        header: &Header,
        engine: &[u8],
        pair: Pair,
        user: &[u8],
        scoped: &S,
    ) -> Result<Vec<u8>, RefusedAt>
        requires header { HeaderFits header.now }
        requires user { length user.now ≤ 32 }
        requires scoped { S.fits scoped.now }
        requires auth { header.now.auth ≡ false }
        requires privacy { header.now.privacy ≡ false }
        ensures rows { IfSome (seal_answer result)
            (Seals self.now.users
            (sending header.now engine.now pair user.now (replicate 8 0) (S.octets scoped.now))) }
        ensures fault { IfErr result (λ e. IsWriteRefusal e.refusal) }
        ensures short { IsRefused result TooLarge
            → LARGEST < 150 + length engine.now + length user.now + length (S.octets scoped.now) }
    {
        some_sealed();
        sealed_size();
        let outgoing = Outgoing {
            header: *header,
            engine,
            boots: pair.boots,
            time: pair.time,
            user,
            salt: [0; 8],
            scoped,
        };
        seal_open(self.alloc, &outgoing)
    }
}
