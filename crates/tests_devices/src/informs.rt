//! An Inform of which each growth of memory is refused in turn.

use crate::made::{TRAP, answered, devices, gate, receiver, receivers, tables_of, users_of};
use engine_clock::Clocks;
use snmp_agent::Agent;
use snmp_forward::{
    Inform, InformLimits, InformSent, Informs, NotifyType, ReceiverTaken, Receivers,
};
use snmp_manager::Manager;
use std::alloc::{AllocError, Global};
use std::process::Abort;
use vacm_core::Vacm;

/// The Inform to a receiver that may be notified of it.
fn inform_to(
    alloc: Global,
    tables: &Vacm,
    receivers: &Receivers,
) -> Result<Option<Inform>, AllocError> {
    let devices = devices(alloc)?;
    receivers.inform(alloc, tables, &devices, 0, 0, TRAP)
}

fn inform_by(alloc: Global, tables: &Vacm) -> Result<Option<Inform>, AllocError> {
    let receivers = receivers(alloc, &[NotifyType::Inform])?;
    inform_to(alloc, tables, &receivers)
}

fn inform(alloc: Global) -> Result<Option<Inform>, AllocError> {
    let tables = tables_of(alloc)?;
    let made = inform_by(alloc, &tables);
    drop(tables);
    made
}

fn inform_after_refusal(alloc: Global) -> Result<Inform, AllocError> {
    let made = match inform(alloc) {
        Ok(made) => made,
        Err(_) => inform(alloc)?,
    };
    made.ok_or(AllocError)
}

/// One Inform can wait, and may be sent 3 times, 5 seconds apart.
fn no_informs(alloc: Global) -> Result<Informs, AllocError> {
    let gate = gate()?;
    let users = users_of(alloc)?;
    let manager = Manager::new(alloc, users, Clocks::new(alloc));
    Ok(Informs::new(alloc, gate, manager, 1, InformLimits::default()))
}

/// An Inform waits, if there is room for it.
fn add(informs: &mut Informs, inform: Inform) -> Result<(), AllocError> {
    if !informs.is_full() {
        informs.add(inform)?;
    }
    Ok(())
}

/// One Inform waits, made and added again if a growth is refused.
fn fill(alloc: Global, informs: &mut Informs) -> Result<(), AllocError> {
    match add(informs, inform_after_refusal(alloc)?) {
        Ok(()) => Ok(()),
        Err(_) => add(informs, inform_after_refusal(alloc)?),
    }
}

/// One Inform waits.
fn informs(alloc: Global) -> Result<Informs, AllocError> {
    let mut informs = no_informs(alloc)?;
    fill(alloc, &mut informs)?;
    Ok(informs)
}

/// What is due at this moment, sent again if a growth is refused.
fn next(informs: &mut Informs, now: u64) -> Result<InformSent, AllocError> {
    match informs.next(now, [0; 8], 7) {
        Ok(sent) => Ok(sent),
        Err(_) => informs.next(now, [0; 8], 7),
    }
}

/// The datagram that is due at this moment.
fn sent(informs: &mut Informs, now: u64) -> Result<Vec<u8>, AllocError> {
    match next(informs, now)? {
        InformSent::ToReceiver { datagram, .. } => Ok(datagram),
        _ => Err(AllocError),
    }
}

/// What becomes of the receiver's answer, taken again if a growth is refused.
fn taken(informs: &mut Informs, now: u64, answer: &[u8]) -> Result<ReceiverTaken, AllocError> {
    match informs.take(now, 0, answer) {
        Ok(taken) => Ok(taken),
        Err(_) => informs.take(now, 0, answer),
    }
}

/// What becomes of what the receiver answers to what is due.
fn exchanged(
    informs: &mut Informs,
    receiver: &mut Agent,
    now: u64,
) -> Result<ReceiverTaken, AllocError> {
    let datagram = sent(informs, now)?;
    let answer = answered(receiver, &datagram)?;
    taken(informs, now, &answer)
}

fn informs_after_refusal(alloc: Global) -> Result<Informs, AllocError> {
    match informs(alloc) {
        Ok(informs) => Ok(informs),
        Err(_) => informs(alloc),
    }
}

fn receiver_after_refusal(alloc: Global) -> Result<Agent, AllocError> {
    match receiver(alloc) {
        Ok(receiver) => Ok(receiver),
        Err(_) => receiver(alloc),
    }
}

/// The receiver is discovered, asked for its time, and acknowledges the Inform.
fn assert_acknowledged(
    rt: &impl Abort,
    informs: &mut Informs,
    receiver: &mut Agent,
) -> Result<(), AllocError> {
    for _ in 0..2 {
        let heard = exchanged(informs, receiver, 1_000)?;
        assert_eq!(rt; heard, ReceiverTaken::Heard(0));
    }
    let taken = exchanged(informs, receiver, 1_000)?;
    assert_eq!(rt; taken, ReceiverTaken::Acknowledged(0));
    assert_eq!(rt; informs.len(), 0);
    Ok(())
}

fn assert_sent(rt: &impl Abort, alloc: Global, informs: &mut Informs) -> Result<(), AllocError> {
    let mut receiver = receiver_after_refusal(alloc)?;
    let acknowledged = assert_acknowledged(rt, informs, &mut receiver);
    drop(receiver);
    acknowledged
}

#[test]
fn a_refused_growth_leaves_the_informs(rt: HostRuntime) -> Result<(), AllocError> {
    let mut informs = informs_after_refusal(rt.alloc())?;
    let sent = assert_sent(&rt, rt.alloc(), &mut informs);
    drop(informs);
    sent
}
