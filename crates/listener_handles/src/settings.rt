//! What a receiver of notifications is made of.

/// An address from which notifications without authentication are taken.
#[repr(C)]
#[derive(Clone, Copy)]
pub struct NotifyingSource<'a> {
    /// Any octets that the caller gives the address.
    pub octets: &'a [u8],
}

/// What a receiver of notifications is made of.
#[repr(C)]
#[derive(Clone, Copy)]
pub struct ListenerSettings<'a> {
    /// The least level's number, 1 to 3; or 0: for each user the highest level for which the user has the keys.
    pub least_level: u32,
    /// The boots of its own engine, at most 2147483647.
    pub boots: u32,
    /// The moment at which its own engine started, in seconds.
    pub started: u64,
    /// The moment at which the marks of version 1 of the saved clocks were seen, in seconds.
    pub clocks_moment: u64,
    /// How many notifications are remembered at once.
    pub most: usize,
    /// Users and view-based access, in TOML.
    pub config: &'a [u8],
    /// The ID of its own engine, 5 to 32 octets, neither all of them 0 nor all 255.
    pub engine: &'a [u8],
    /// The saved text of the clocks of senders.
    pub clocks: &'a [u8],
    /// The addresses from which notifications at noAuthNoPriv are taken.
    pub sources: &'a [NotifyingSource<'a>],
}
