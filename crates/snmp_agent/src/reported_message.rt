//! What is kept of a message that asks for reports (RFC 3412, section 7.1, step 3).

ghost use Rattle.std.specs.Prelude.{◌≤◌, length};
ghost use Rattle.snmp_ber.specs.declared.number.TheConstants.{MAX_INTEGER32};

/// What a report takes from the message that it answers.
#[derive(Clone, Copy)]
pub(crate) struct ReportedMessage<'a> {
    /// msgID, at most 2147483647.
    pub(crate) id: u32,
    /// msgUserName, at most 32 octets.
    pub(crate) user: &'a [u8],
    /// The request-id, or 0 where the PDU can't be read.
    pub(crate) request_id: i32,
    pub(crate) ghost id_fits: { id ≤ MAX_INTEGER32 },
    pub(crate) ghost user_fits: { length user.now ≤ 32 },
}
