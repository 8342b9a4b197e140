//! The next name that the sender of what is kept may see, for agents that walk.

ghost use Rattle.std.specs.Prelude.{◌≡◌};
ghost use Rattle.snmp_message.specs.Scoped.{Contexts, ScopedFront};
ghost use Rattle.snmp_agent.specs.Decides.{NextSeen, question_of};
ghost use Rattle.snmp_handles.specs.Parts.{Copies};
ghost use Rattle.snmp_handles.specs.Walks.{CopiesName, WritesNext};

use crate::agent::AgentHandle;
use crate::fault::CallFault;
use crate::numbers::view_of;
use snmp_agent::Agent;
use snmp_ber::Oid;
use snmp_incoming::Kept;
use vacm_core::ViewType;

/// Copies the arcs to the beginning of the buffer, and writes how many they are. The error is ShortBuffer, which leaves
/// the buffer as it was.
fn copy_arcs(arcs: &[u32], out: &mut [u32], written: &mut usize) -> Result<(), CallFault>
    ensures { Copies arcs.now out.old out.new written.new result }
{
    *written = arcs.len();
    if arcs.len() > out.len() {
        return Err(CallFault::ShortBuffer);
    }
    out[..arcs.len()].copy_from_slice(arcs);
    Ok(())
}

/// Copies the arcs of the name in the same way. If there is no name, their number is 0.
fn copy_name(name: Option<Oid>, out: &mut [u32], written: &mut usize) -> Result<(), CallFault>
    ensures { CopiesName name out.old out.new written.new result }
{
    match name {
        Some(name) => copy_arcs(name.as_slice(), out, written),
        None => {
            *written = 0;
            Ok(())
        }
    }
}

/// The least name, at or after this one, that the sender of what was kept may see.
fn next_of_sender(agent: &Agent, kept: &Kept, view: ViewType, from: &Oid) -> Option<Oid>
    ensures { (c : Contexts) → ScopedFront kept.now.text c
        → NextSeen agent.now.tables (question_of kept.now c) view from.now result }
{
    let taken = kept.taken();
    agent.next_in_view(&taken, view, from)
}

impl AgentHandle {
    /// Writes the arcs of the least name, at or after these arcs, that the sender of what is kept may see by the view
    /// of this number, to the beginning of the buffer, and how many they are: 0 if there is no such name.
    ///
    /// The errors are BadArgument, where no view has the number or there aren't 1 to 128 arcs, and NothingTaken, which
    /// write nothing; and ShortBuffer, which writes how many arcs there are, at most 128, and leaves the buffer.
    pub fn next(
        &self,
        view: u32,
        from: &[u32],
        out: &mut [u32],
        written: &mut usize,
    ) -> Result<(), CallFault>
        ensures { WritesNext self.now view from.now out.old out.new
            written.old written.new result }
    {
        let (Some(view), Some(from)) = (view_of(view), Oid::of(from)) else {
            return Err(CallFault::BadArgument);
        };
        match &self.last {
            Some(kept) => {
                let next = next_of_sender(&self.agent, kept, view, &from);
                copy_name(next, out, written)
            }
            None => Err(CallFault::NothingTaken),
        }
    }
}
