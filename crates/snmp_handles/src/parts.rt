//! What a caller gets of what a handle keeps, into buffers of its own.

ghost use Rattle.std.specs.Prelude.{◌≡◌, Some, option_map};
ghost use Rattle.snmp_handles.specs.Parts.{Copies, CopiesPart, CopiesMessage, AreNumbersOf, TellsMaxSize, part_of};

use crate::fault::CallFault;
use snmp_incoming::Kept;
use snmp_msg::one_content;

/// A part of an accepted message.
#[derive(Clone, Copy, Debug, PartialEq, Eq)]
pub enum Part {
    /// The content of the PDU's variable-bindings.
    Bindings,
    /// msgUserName.
    User,
    /// contextEngineID.
    ContextEngine,
    /// contextName.
    ContextName,
    /// msgAuthoritativeEngineID.
    Engine,
}

impl Part {
    /// The part of this number: 0 bindings, 1 user, 2 contextEngineID, 3 contextName, 4 engine ID.
    pub fn of(number: u32) -> Option<Part>
        ensures { result ≡ part_of number }
    {
        if number == 0 {
            Some(Part::Bindings)
        } else if number == 1 {
            Some(Part::User)
        } else if number == 2 {
            Some(Part::ContextEngine)
        } else if number == 3 {
            Some(Part::ContextName)
        } else if number == 4 {
            Some(Part::Engine)
        } else {
            None
        }
    }
}

/// Copies the octets to the front of the buffer, and tells how many they are. The error is ShortBuffer, which
/// leaves the buffer as it was.
pub(crate) fn copy_to(octets: &[u8], out: &mut [u8], written: &mut usize) -> Result<(), CallFault>
    ensures { Copies octets.now out.old out.new written.new result }
{
    *written = octets.len();
    if octets.len() > out.len() {
        return Err(CallFault::ShortBuffer);
    }
    out[..octets.len()].copy_from_slice(octets);
    Ok(())
}

/// Copies a part of what was kept.
fn copied_of(kept: &Kept, part: Part, out: &mut [u8], written: &mut usize) -> Result<(), CallFault>
    ensures { CopiesPart (Some kept.now) part out.old out.new written.old written.new result }
{
    one_content();
    let taken = kept.taken();
    let scoped = taken.scoped();
    match part {
        Part::Bindings => copy_to(taken.pdu().list, out, written),
        Part::User => copy_to(taken.user, out, written),
        Part::ContextEngine => copy_to(scoped.engine, out, written),
        Part::ContextName => copy_to(scoped.name, out, written),
        Part::Engine => copy_to(taken.engine.as_slice(), out, written),
    }
}

/// Copies a part of what is kept to the front of the buffer, and tells how many octets it has. The errors are
/// NothingTaken, which writes nothing, and ShortBuffer, which tells the octets and leaves the buffer as it was.
pub fn copied_part(
    last: &Option<Kept>,
    part: Part,
    out: &mut [u8],
    written: &mut usize,
) -> Result<(), CallFault>
    ensures { CopiesPart last.now part out.old out.new written.old written.new result }
{
    match last {
        Some(kept) => copied_of(kept, part, out, written),
        None => Err(CallFault::NothingTaken),
    }
}

/// Copies the message that is to be sent in the same way. The errors are NothingTaken, where there is none, and
/// ShortBuffer.
pub fn copied_message(
    message: &Option<Vec<u8>>,
    out: &mut [u8],
    written: &mut usize,
) -> Result<(), CallFault>
    ensures { CopiesMessage (option_map (λ v. v.items) message.now) out.old
        out.new written.old written.new result }
{
    match message {
        Some(text) => copy_to(text, out, written),
        None => Err(CallFault::NothingTaken),
    }
}

/// The level, the PDU's tag, request-id, second and third number, and msgID of what was kept.
pub fn numbers_of(kept: &Kept) -> [i32; 6]
    ensures { AreNumbersOf kept.now result }
{
    let taken = kept.taken();
    let pdu = taken.pdu();
    [
        i32::from(taken.level.number()),
        i32::from(taken.tag),
        pdu.id,
        pdu.second,
        pdu.third,
        taken.id as i32,
    ]
}

/// The sender's msgMaxSize, 484 to 2147483647 octets, of what is kept. The error is NothingTaken.
pub fn max_size_of(last: &Option<Kept>) -> Result<u32, CallFault>
    ensures { TellsMaxSize last.now result }
{
    match last {
        Some(kept) => Ok(kept.taken().max_size),
        None => Err(CallFault::NothingTaken),
    }
}
