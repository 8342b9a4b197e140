//! Requests that are waiting for their answers.

ghost use Rattle.std.specs.Prelude.{IfOk};
ghost use Rattle.snmp_manager.specs.Pendings.{IsPending};

use snmp_ber::Level;
use snmp_outgoing::{Envelope, Front};
use std::alloc::{AllocError, Global};

/// What a manager remembers of a message that it sent, to know the answers to it (RFC 3412, section 7.2, step 9).
#[derive(Debug, Drop)]
pub struct Pending {
    /// msgID.
    pub(crate) id: u32,
    /// msgAuthoritativeEngineID, empty for a discovery.
    pub(crate) engine: Vec<u8>,
    /// msgUserName.
    pub(crate) user: Vec<u8>,
    pub(crate) level: Level,
    pub(crate) context_engine: Vec<u8>,
    pub(crate) context_name: Vec<u8>,
    pub(crate) request_id: i32,
}

/// What an accepted message is to a request.
#[derive(Clone, Copy, Debug, PartialEq, Eq)]
pub enum Answer {
    /// The Response to it.
    Response,
    /// A Report on it: of the counter with this number, 1 to 6, or 0 where its bindings aren't one that names
    /// a counter.
    Report(u8),
    /// Neither.
    NotForIt,
}

impl Pending {
    /// What is remembered of the message with this envelope and this front. The error is out of memory.
    pub(crate) fn of(
        alloc: Global,
        envelope: &Envelope<'_>,
        front: &Front<'_>,
    ) -> Result<Pending, AllocError>
        ensures { IfOk result
            (λ pending. IsPending pending envelope.now.id
            envelope.now.engine.now envelope.now.user.now
            envelope.now.level front.now) }
    {
        Ok(Pending {
            id: envelope.id,
            engine: envelope.engine.to_vec(alloc)?,
            user: envelope.user.to_vec(alloc)?,
            level: envelope.level,
            context_engine: front.context_engine.to_vec(alloc)?,
            context_name: front.context_name.to_vec(alloc)?,
            request_id: front.id,
        })
    }
}
