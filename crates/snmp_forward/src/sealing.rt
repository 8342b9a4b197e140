//! When and with what numbers a notification is sealed.

/// When and with what numbers a notification is sealed.
#[derive(Clone, Copy)]
pub struct Sealing {
    /// The moment, in seconds.
    pub seconds: u64,
    /// msgID.
    pub id: u32,
    pub salt: [u8; 8],
}
