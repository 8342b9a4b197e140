//! The pieces of the gateway at the ends of their ranges.
use snmp_gate::{
    AccessRefusal, DeviceAsks, Due, Joined, REQUEST_IDS, RememberedSets, ResponseStatus, Retries,
    SETS_LIMIT, SetNote, Timer, WaitingRequests, access_refusal, set_digest, set_outcome,
};
use snmp_msg::PduType;
use std::alloc::AllocError;
use std::process::Abort;
use std::test::Fail;
use vacm_core::Access;

/// As many Sets are noted as are remembered at once.
fn fill(rt: &impl Abort, sets: &mut RememberedSets) -> Result<(), AllocError> {
    for number in 0..SETS_LIMIT as u32 {
        let digest = set_digest(number.to_be_bytes().as_slice());
        assert_eq!(rt; sets.note(5, &digest)?, SetNote::New);
    }
    Ok(())
}

/// A Set more has no room until the others are forgotten, and is then remembered itself.
fn assert_no_room(rt: &impl Abort, sets: &mut RememberedSets) -> Result<(), AllocError> {
    let digest = set_digest(b"one more");
    assert_eq!(rt; sets.note(301_005, &digest)?, SetNote::NoRoom);
    assert!(rt; sets.find(&digest).is_none());
    assert_eq!(rt; sets.note(301_006, &digest)?, SetNote::New);
    let told = ResponseStatus {
        status: 0,
        index: 0,
    };
    sets.tell(&digest, told);
    assert_eq!(rt; sets.note(301_006, &digest)?, SetNote::Repeated(Some(told)));
    sets.forget(602_007);
    assert!(rt; sets.find(&digest).is_none());
    Ok(())
}

fn assert_filled(rt: &impl Abort, sets: &mut RememberedSets) -> Result<(), AllocError> {
    fill(rt, sets)?;
    assert_no_room(rt, sets)
}

#[test]
fn no_set_goes_out_if_too_many_are_remembered(rt: HostRuntime) -> Result<(), AllocError> {
    let mut sets = RememberedSets::new(rt.alloc());
    assert_filled(&rt, &mut sets)
}

#[test]
fn a_device_error_is_told_as_rfc_3416_has_it(rt: HostRuntime) -> Result<(), Fail> {
    let rows = [
        ((0, 0), (0, 0)),
        ((1, 2), (1, 0)),
        ((2, 2), (2, 2)),
        ((18, 3), (18, 3)),
        ((18, 4), (18, 0)),
        ((17, 0), (17, 0)),
        ((19, 1), (5, 1)),
        ((-1, -1), (5, 0)),
    ];
    for ((status, index), told) in rows {
        let outcome = set_outcome(status, index, 3);
        assert_eq!(rt; (outcome.status, outcome.index), told);
    }
    Ok(())
}

#[test]
fn request_ids_begin_again_at_0(rt: HostRuntime) -> Result<(), Fail> {
    let mut asks = DeviceAsks::new(rt.alloc(), 3);
    assert_eq!(rt; asks.ask(REQUEST_IDS - 1, 4)?, REQUEST_IDS - 1);
    assert_eq!(rt; asks.ask(REQUEST_IDS - 1, 5)?, 0);
    assert_eq!(rt; asks.end(REQUEST_IDS - 1), Some(4));
    assert_eq!(rt; asks.ask(0, 6)?, 1);
    assert_eq!(rt;
        (asks.request(0), asks.request(1), asks.is_full()),
        (Some(5), Some(6), false)
    );
    Ok(())
}

#[test]
fn a_request_that_is_not_asked_is_given_up(rt: HostRuntime) -> Result<(), Fail> {
    let retries = Retries {
        again: u64::MAX,
        tries: 2,
        last: 10,
    };
    let mut timer = Timer::new(u64::MAX - 20);
    assert_eq!(rt; timer.due(&retries, u64::MAX - 10), Due::GiveUp);
    timer.ask(u64::MAX - 15);
    assert_eq!(rt;
        (timer.due(&retries, u64::MAX), timer.due_at(&retries)),
        (Due::Nothing, u64::MAX)
    );
    let timer = timer.with_answer();
    assert_eq!(rt; timer.due(&retries, u64::MAX - 11), Due::Nothing);
    Ok(())
}

#[test]
fn a_message_too_many_does_not_join(rt: HostRuntime) -> Result<(), Fail> {
    let mut requests = WaitingRequests::new(rt.alloc(), 1, 2);
    assert_eq!(rt; requests.begin(rt.alloc(), 1, ())?, 0);
    assert!(rt; requests.is_full());
    assert_eq!(rt; requests.join(0, 2)?, Joined::Joined);
    assert_eq!(rt; requests.join(0, 3)?, Joined::NoRoom);
    assert_eq!(rt; (requests.answer(0), requests.answer(0)), (1, 2));
    assert_eq!(rt; requests.begin(rt.alloc(), 4, ())?, 1);
    Ok(())
}

#[test]
fn the_first_binding_that_is_refused_decides(rt: HostRuntime) -> Result<(), Fail> {
    let answers = [
        Access::NotInView,
        Access::NoGroupName,
        Access::NoSuchContext,
    ];
    let walk = PduType::GetNextRequest.tag();
    assert_eq!(rt;
        access_refusal(&answers, walk),
        Some(AccessRefusal::AuthorizationError)
    );
    assert_eq!(rt;
        access_refusal(&answers[2..], walk),
        Some(AccessRefusal::UnknownContext)
    );
    assert_eq!(rt;
        access_refusal(&answers, PduType::SetRequest.tag()),
        Some(AccessRefusal::NoAccess(1))
    );
    assert_eq!(rt; access_refusal(&[], walk), None);
    Ok(())
}
