//! What a manager does with the answers to its requests (RFC 3412, section 7.2, steps 10 to 12).

ghost use Rattle.snmp_message.specs.Scoped.{Contexts, ScopedFront};
ghost use Rattle.snmp_msg.specs.Pdu.{PduParts, PduText};
ghost use Rattle.snmp_manager.specs.Replies.{IsReport};
ghost use Rattle.snmp_handles.specs.Parts.{TellsMaxSize};
ghost use Rattle.snmp_handles.specs.Reports.{TakesAnswer, TellsReport};

use crate::fault::CallFault;
use crate::manager::ManagerHandle;
use crate::parts::max_size_of;
use snmp_incoming::Kept;
use snmp_manager::{Answer, Pending, Report, report_of};

/// What the message that was kept tells, where it is a Report on the request.
fn report(kept: &Kept, pending: &Pending) -> Option<Report>
    ensures { (c : Contexts) (p : PduParts) → ScopedFront kept.now.text c → PduText c.pdu p
        → IsReport pending.now kept.now p result }
{
    let taken = kept.taken();
    report_of(pending, &taken)
}

impl ManagerHandle {
    /// The sender's msgMaxSize, 484 to 2147483647, of what is kept. The error is NothingTaken.
    pub fn max_size(&self) -> Result<u32, CallFault>
        ensures { TellsMaxSize self.now.last result }
    {
        max_size_of(&self.last)
    }

    /// What the message that is kept is to the request that is waited for, as `answer` has it. Its Response
    /// isn't waited for any more: the same message again is NothingTaken. The error is NothingTaken, where no
    /// message is kept or no request is waited for.
    pub fn take_answer(&mut self) -> Result<Answer, CallFault>
        ensures { TakesAnswer self.old result self.new }
    {
        match self.answer() {
            Ok(Answer::Response) => {
                self.pending = None;
                Ok(Answer::Response)
            }
            Ok(Answer::Report(n)) => Ok(Answer::Report(n)),
            Ok(Answer::NotForIt) => Ok(Answer::NotForIt),
            Err(fault) => Err(fault),
        }
    }

    /// What the message that is kept tells, where it is a Report on the request that is waited for, as
    /// `report_of` has it. The error is NothingTaken, where no message is kept or no request is waited for.
    pub fn report(&self) -> Result<Option<Report>, CallFault>
        ensures { TellsReport self.now result }
    {
        match (&self.last, &self.pending) {
            (Some(kept), Some(pending)) => Ok(report(kept, pending)),
            _ => Err(CallFault::NothingTaken),
        }
    }
}
