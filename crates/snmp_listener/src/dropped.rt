//! Why datagrams aren't told, and how many were dropped for each reason.

ghost use Rattle.std.specs.Prelude.{◌≡◌, ◌<◌};
ghost use Rattle.snmp_listener.specs.Counting.{counts_after, place_of, places};

use snmp_msg::Refusal;

/// Why a datagram isn't reported.
#[derive(Clone, Copy, Debug, PartialEq, Eq)]
pub enum Dropped {
    /// It is refused, or it is an Inform whose acknowledgement is.
    Refused(Refusal),
    /// It is no notification.
    OtherPdu,
    /// Its level is below the least level.
    LowLevel,
    /// It has no authentication, and its address isn't one from which that is taken.
    OtherAddress,
    /// It isn't in the notify view of its user.
    OutsideView,
    /// It was told before.
    Copy,
    /// As many others are remembered as may be.
    NoRoom,
}

/// How many reasons there are, with each refusal, and two places that none has.
pub(crate) const REASONS: usize = 25;

impl Dropped {
    /// Returns the place of its counter: a refusal's number, 1 to 18, or 19 OtherPdu, 20 LowLevel, 21 OtherAddress, 22
    /// OutsideView, 23 Copy, 24 NoRoom.
    pub fn place(self) -> usize
        ensures place { result ≡ place_of self }
        ensures within { result < places }
    {
        match self {
            Dropped::Refused(refusal) => usize::from(refusal.number()),
            Dropped::OtherPdu => 19,
            Dropped::LowLevel => 20,
            Dropped::OtherAddress => 21,
            Dropped::OutsideView => 22,
            Dropped::Copy => 23,
            Dropped::NoRoom => 24,
        }
    }
}

/// The counters with one more in that of this reason, if there is one.
pub(crate) fn counts_after(counts: [u64; REASONS], why: Option<Dropped>) -> [u64; REASONS]
    ensures { result ≡ counts_after counts why }
{
    let mut counts = counts;
    if let Some(why) = why {
        let at = why.place();
        counts[at] = counts[at].wrapping_add(1);
    }
    counts
}
