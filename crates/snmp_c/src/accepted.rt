//! What is reported of a message that was accepted.

ghost use Rattle.snmp_incoming.specs.Outcome.{Given};
ghost use Rattle.snmp_handles.specs.Parts.{AreNumbersOf};
ghost use Rattle.snmp_c.specs.Accepted.{IsToldOf};

/// What is reported of a message that was accepted.
#[repr(C)]
#[derive(Clone, Copy)]
pub struct Accepted {
    /// The level's number, 1 to 3.
    pub level: i32,
    /// The PDU's tag.
    pub tag: i32,
    pub request_id: i32,
    /// error-status, or non-repeaters.
    pub second: i32,
    /// error-index, or max-repetitions.
    pub third: i32,
    /// msgID.
    pub message_id: i32,
}

impl Accepted {
    /// What is reported of the message of these numbers.
    pub(crate) fn of(numbers: &[i32; 6]) -> Accepted
        ensures { (g : Given) → AreNumbersOf g numbers.now → IsToldOf g result }
    {
        let [level, tag, request_id, second, third, message_id] = *numbers;
        Accepted {
            level,
            tag,
            request_id,
            second,
            third,
            message_id,
        }
    }
}
