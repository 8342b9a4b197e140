//! Accepted datagrams that own their octets.

ghost use Rattle.std.specs.Prelude.{◌≡◌, IfOk};
ghost use Rattle.snmp_incoming.specs.Answers.{given_of};

use crate::octets::Octets;
use crate::place::PduPlace;
use crate::taken::Taken;
use engine_clock::EngineId;
use snmp_ber::Level;
use snmp_msg::ScopedPlace;
use std::alloc::{AllocError, Global};
use std::marker::Model;

/// An accepted datagram with octets of its own, for a caller that answers it once the datagram is gone.
#[derive(Drop)]
pub struct Kept {
    engine: EngineId,
    user: Vec<u8>,
    level: Level,
    id: u32,
    max_size: u32,
    tag: u8,
    text: Vec<u8>,
    contexts: ScopedPlace,
    pdu: PduPlace,
}

impl Model for Kept {
    ghost use Rattle.std.specs.Prelude.{◌≤◌, length};
    ghost use Rattle.snmp_ber.specs.declared.number.TheConstants.{MAX_INTEGER32};
    ghost use Rattle.snmp_incoming.specs.Outcome.{Given};
    ghost use Rattle.snmp_incoming.specs.Texts.{ContextsThere, HasTag, StandsThere};

    ghost Value = { Given };

    ghost view = { λ k. record {
      engine = k.engine;
      user = k.user.items;
      level = k.level;
      id = k.id;
      max_size = k.max_size;
      tag = k.tag;
      text = k.text.items;
    } };

    ghost invariant = { λ k. (length k.user.items ≤ 32)
        × (k.id ≤ MAX_INTEGER32) × (484 ≤ k.max_size)
        × (k.max_size ≤ MAX_INTEGER32) × ∥ HasTag k.text.items k.tag ∥₁
        × ContextsThere k.text.items k.contexts × StandsThere k.text.items k.tag k.pdu
        × (k.pdu.list_at ≤ k.pdu.end)
        × (k.pdu.end ≤ length k.text.items) };
}

impl Kept {
    /// An accepted datagram with octets of its own: what was decrypted is moved, and what is lent is copied.
    /// The error is out of memory.
    pub fn of(alloc: Global, taken: Taken<'_>) -> Result<Kept, AllocError>
        ensures { IfOk result (λ kept. kept ≡ given_of taken.entry) }
    {
        let Taken {
            engine,
            user,
            level,
            id,
            max_size,
            tag,
            text,
            contexts,
            pdu,
        } = taken;
        Ok(Kept {
            engine,
            user: user.to_vec(alloc)?,
            level,
            id,
            max_size,
            tag,
            text: text.into_vec(alloc)?,
            contexts,
            pdu,
        })
    }

    /// The accepted datagram, lent, to be decided on and answered. It takes no memory.
    pub fn taken(&self) -> Taken<'_>
        ensures { given_of result ≡ self.now }
    {
        Taken {
            engine: self.engine.copy(),
            user: self.user.as_slice(),
            level: self.level,
            id: self.id,
            max_size: self.max_size,
            tag: self.tag,
            text: Octets::Borrowed(self.text.as_slice()),
            contexts: self.contexts,
            pdu: self.pdu,
        }
    }
}
