//! What comes next in a capture.

/// What is known of a packet that was captured.
#[derive(Clone, Copy)]
pub(crate) struct Head {
    /// The type of the link, a number of LINKTYPE.
    pub(crate) link: u16,
    /// When it was captured, in whole seconds, where that is known.
    pub(crate) moment: Option<u64>,
    /// How many microseconds after that, below 1,000,000.
    pub(crate) micros: u32,
    /// Where it begins in the room that it was read into.
    pub(crate) at: usize,
    /// How many octets of it were captured.
    pub(crate) size: usize,
    /// How many octets it had.
    pub(crate) original: u32,
}

/// An item that was read.
#[derive(Clone, Copy)]
pub(crate) struct Item {
    /// How many octets it has.
    pub(crate) size: usize,
    /// The packet, where it is a record.
    pub(crate) packet: Option<Head>,
}

/// What comes next in a capture.
#[derive(Clone, Copy)]
pub(crate) enum Next {
    /// An item.
    Item(Item),
    /// No octet more.
    End,
    /// Octets that begin with no item.
    OutOfForm,
}
