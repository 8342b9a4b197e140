//! What an agent accepted, outside of its handle: many may wait there for their Responses.

ghost use Rattle.std.specs.Prelude.{◌≡◌, MatchOption, None, Some};
ghost use Rattle.snmp_incoming.specs.Outcome.{Given};
ghost use Rattle.snmp_handles.specs.Kept.{KeepsLast, RestoresLast, holding};
ghost use Rattle.snmp_handles.specs.Parts.{AreNumbersOf, CopiesPart, TellsMaxSize};

use crate::agent::AgentHandle;
use crate::fault::CallFault;
use crate::parts::{Part, copied_part, max_size_of, numbers_of};
use snmp_incoming::Kept;
use std::marker::Model;
use std::mem;

/// A message that an agent accepted, or none.
#[derive(Drop)]
pub struct KeptHandle {
    kept: Option<Kept>,
}

impl Model for KeptHandle {
    ghost use Rattle.std.specs.Prelude.{Option};
    ghost use Rattle.snmp_incoming.specs.Outcome.{Given};

    ghost Value = { Option Given };

    ghost view = { λ h. h.kept };
}

impl KeptHandle {
    /// One that keeps no message yet.
    pub fn new() -> KeptHandle
        ensures { result ≡ None }
    {
        KeptHandle { kept: None }
    }

    /// Gives back the memory of the message.
    pub fn clear(&mut self)
        ensures { self.new ≡ None }
    {
        self.kept = None;
    }

    /// Copies a part of the message, as `AgentHandle::part` does.
    pub fn part(&self, part: Part, out: &mut [u8], written: &mut usize) -> Result<(), CallFault>
        ensures { CopiesPart self.now part out.old out.new written.old written.new result }
    {
        copied_part(&self.kept, part, out, written)
    }

    /// The level, the PDU's tag, request-id, second and third number, and msgID of the message.
    pub fn numbers(&self) -> Option<[i32; 6]>
        ensures { MatchOption result (self.now ≡ None)
            (λ numbers. (g : Given) × (self.now ≡ Some g) × AreNumbersOf g numbers) }
    {
        match &self.kept {
            Some(kept) => Some(numbers_of(kept)),
            None => None,
        }
    }

    /// The sender's msgMaxSize, 484 to 2147483647: how long a Response to the message may be. The error is
    /// NothingTaken.
    pub fn max_size(&self) -> Result<u32, CallFault>
        ensures { TellsMaxSize self.now result }
    {
        max_size_of(&self.kept)
    }
}

impl AgentHandle {
    /// Moves what was accepted last out of the handle, instead of what was kept there. The error is NothingTaken, and
    /// changes nothing. It takes no memory.
    pub fn keep(&mut self, kept: &mut KeptHandle) -> Result<(), CallFault>
        ensures { KeepsLast self.old kept.old result self.new kept.new }
    {
        match mem::replace(&mut self.last, None) {
            Some(last) => {
                kept.kept = Some(last);
                Ok(())
            }
            None => Err(CallFault::NothingTaken),
        }
    }

    /// Moves what is kept back: it is what the agent accepted last, for all calls. The error is NothingTaken, where
    /// nothing is kept, and changes nothing.
    pub fn restore(&mut self, kept: &mut KeptHandle) -> Result<(), CallFault>
        ensures { RestoresLast self.old kept.old result self.new kept.new }
    {
        match mem::replace(&mut kept.kept, None) {
            Some(given) => {
                self.last = Some(given);
                Ok(())
            }
            None => Err(CallFault::NothingTaken),
        }
    }

    /// Exchanges what was accepted last and what is kept.
    pub fn exchange(&mut self, kept: &mut KeptHandle)
        ensures agent { self.new ≡ holding kept.old self.old }
        ensures kept { kept.new ≡ self.old.last }
    {
        mem::swap(&mut self.last, &mut kept.kept);
    }
}
