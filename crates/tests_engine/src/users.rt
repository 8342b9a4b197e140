//! Users that are loaded and copied, and messages that are sealed and opened for them.

ghost use Rattle.std.specs.Prelude.{ℕ, List, IfOk};
ghost use Rattle.snmp_ber.specs.Element.{IsElement};

use engine_clock::{EngineId, Pair};
use snmp_ber::Level;
use snmp_msg::{Header, Refusal, RefusedAt, write_pdu, write_scoped};
use std::alloc::{AllocError, Global};
use std::process::Abort;
use std::test::Fail;
use usm_core::*;
use usm_keys::Auth;

/// The engine ID of RFC 3414, section A.3.
pub const ENGINE: [u8; 12] = [0, 0, 0, 0, 0, 0, 0, 0, 0, 0, 0, 2];

/// The identifier of this engine.
pub fn own() -> EngineId {
    let Some(own) = EngineId::of(&ENGINE) else {
        unreachable!();
    };
    own
}

/// Rows of `ann`, who has a password for each purpose.
fn rows(alloc: Global) -> Result<Vec<UserRow>, AllocError> {
    let mut rows = Vec::new(alloc);
    rows.push(UserRow {
        name: b"ann".to_vec(alloc)?,
        auth: Some((Auth::Md5, b"maplesyrup".to_vec(alloc)?)),
        privacy: Some(b"maplesyrup".to_vec(alloc)?),
    })?;
    Ok(rows)
}

/// The rows, asked for again where a growth was refused.
fn rows_after_refusal(alloc: Global) -> Result<Vec<UserRow>, AllocError> {
    match rows(alloc) {
        Ok(rows) => Ok(rows),
        Err(_) => rows(alloc),
    }
}

/// The users of these rows, where at most one growth is refused.
pub fn users_after_refusal(alloc: Global) -> Result<Users, Fail> {
    let rows = rows_after_refusal(alloc)?;
    match Users::load(alloc, &rows) {
        Ok(users) => Ok(users),
        Err(UserFault::OutOfMemory) => Ok(Users::load(alloc, &rows)?),
        Err(fault) => Err(fault.into()),
    }
}

/// `ann` has the keys of each level, and nobody else has any.
fn assert_supports(rt: &impl Abort, users: &Users) {
    assert!(rt; users.supports(b"ann", Level::AuthPriv) == Ok(()));
    assert!(rt;
        users.supports(b"bob", Level::AuthPriv) == Err(RefusedAt::plain(Refusal::UnknownUser))
    );
}

#[test]
fn a_refused_growth_loads_no_users(rt: HostRuntime) -> Result<(), Fail> {
    let users = users_after_refusal(rt.alloc())?;
    assert_supports(&rt, &users);
    Ok(())
}

/// A copy of the users, where at most one growth is refused.
fn copied_after_refusal(users: &Users) -> Result<Users, AllocError> {
    match users.try_clone() {
        Ok(copy) => Ok(copy),
        Err(_) => users.try_clone(),
    }
}

#[test]
fn a_refused_growth_copies_no_users(rt: HostRuntime) -> Result<(), Fail> {
    let users = users_after_refusal(rt.alloc())?;
    let copy = copied_after_refusal(&users)?;
    drop(users);
    assert_supports(&rt, &copy);
    Ok(())
}

/// A GetRequest with request-id 2 and no bindings, in the engine's context of the empty name.
pub fn scoped_pdu(alloc: Global) -> Result<Vec<u8>, RefusedAt>
    ensures { IfOk result (λ v. (content : List ℕ) × IsElement 48 content v.items) }
{
    let pdu = write_pdu(alloc, 0xA0, 2, 0, 0, &[])?;
    let scoped = write_scoped(alloc, &ENGINE, b"", &pdu)?;
    Ok(scoped)
}

/// A message of `ann` at authPriv, of this engine with this pair.
pub fn sealed(
    users: &mut Users,
    alloc: Global,
    engine: &[u8],
    pair: Pair,
) -> Result<Vec<u8>, RefusedAt> {
    let scoped = scoped_pdu(alloc)?;
    let header = Header {
        id: 3,
        max_size: 65_507,
        auth: true,
        privacy: true,
        reportable: true,
        model: 3,
    };
    users.seal(
        &header,
        engine,
        pair,
        b"ann",
        [0, 1, 2, 3, 4, 5, 6, 7],
        &scoped,
    )
}

/// The localised keys that are kept after a message to each of so many engines: one for each purpose, and 64 at most.
#[test]
fn sixty_four_localised_keys_are_kept(rt: HostRuntime) -> Result<(), Fail> {
    let mut users = users_after_refusal(rt.alloc())?;
    assert_eq!(rt; users.cached(), 0);
    let mut engine = ENGINE;
    for last in 1..=40 {
        engine[11] = last;
        sealed(&mut users, rt.alloc(), &engine, Pair { boots: 1, time: 1 })?;
        assert_eq!(rt; users.cached(), (2 * last as usize).min(64));
    }
    Ok(())
}

/// The message, asked for again where a growth was refused.
pub fn sealed_after_refusal(
    users: &mut Users,
    alloc: Global,
    engine: &[u8],
    pair: Pair,
) -> Result<Vec<u8>, RefusedAt> {
    match sealed(users, alloc, engine, pair) {
        Err(refused) if refused.is_memory() => sealed(users, alloc, engine, pair),
        other => other,
    }
}

/// The scoped PDU that a message at authPriv gives a manager.
fn opened(users: &mut Users, datagram: &[u8]) -> Result<Vec<u8>, RefusedAt> {
    let checked = users.open_auth(Role::Manager, datagram)?;
    match checked.level {
        Level::AuthPriv => users.open_priv(&checked),
        _ => Err(RefusedAt::plain(Refusal::InvalidFlags)),
    }
}

/// The same, asked for again where a growth was refused.
fn opened_after_refusal(users: &mut Users, datagram: &[u8]) -> Result<Vec<u8>, RefusedAt> {
    match opened(users, datagram) {
        Err(refused) if refused.is_memory() => opened(users, datagram),
        other => other,
    }
}

/// A message is sealed and opened, each asked for again where a growth was refused.
fn assert_sealed_and_opened(
    rt: &impl Abort,
    users: &mut Users,
    alloc: Global,
) -> Result<(), RefusedAt> {
    let pair = Pair {
        boots: 7,
        time: 1000,
    };
    let text = sealed_after_refusal(users, alloc, &ENGINE, pair)?;
    let plain = opened_after_refusal(users, &text)?;
    assert!(rt; plain.len() == 31);
    Ok(())
}

#[test]
fn a_refused_growth_seals_and_opens_nothing(rt: HostRuntime) -> Result<(), Fail> {
    let mut users = users_after_refusal(rt.alloc())?;
    Ok(assert_sealed_and_opened(&rt, &mut users, rt.alloc())?)
}

/// A message of `ann`, made with Python's hmac and hashlib.
const SAMPLE: &str =
    "3060020103300e020103020300ffe3040105020103042c302a040c000000000000000000000002020107020203e8040\
     3616e6e040c4b70b55d71886e656523a4040400301d040c0000000000000000000000020400a00b0201020201000201003000";

/// How often of three times the message is authentic.
fn authentic_of_three(users: &mut Users, datagram: &[u8]) -> u8 {
    let mut authentic = 0u8;
    for _ in 0..3 {
        authentic = authentic.saturating_add(u8::from(
            users.open_auth(Role::Manager, datagram).is_ok(),
        ));
    }
    authentic
}

#[test]
fn a_growth_refused_to_the_kept_keys_changes_no_answer(rt: HostRuntime) -> Result<(), Fail> {
    let datagram = hex::decode(rt.alloc(), SAMPLE)?;
    let mut users = users_after_refusal(rt.alloc())?;
    assert!(rt; authentic_of_three(&mut users, &datagram) == 3);
    Ok(())
}
