//! A refusal with the place of the fault.

ghost use Rattle.std.specs.Prelude.{◌≡◌, Some, None, is_some, false};
ghost use Rattle.snmp_message.specs.Numbers.{refusal_number, refusal_name, words_at, has_place, MemoryIs};
ghost use Rattle.snmp_message.specs.declared.refusal.Refusal.TheVariants.{OutOfMemory};

use crate::refusal::Refusal;
use std::alloc::AllocError;
use std::error::Error;
use std::fmt;

/// Why octets are refused, or a message isn't written: the one error of all calls that read, verify, open, seal and
/// write messages.
#[derive(Clone, Copy, Debug, PartialEq, Eq, Drop)]
pub struct RefusedAt {
    pub refusal: Refusal,
    /// The place of the first fault, in octets from 0 in what was read. Elements are read depth first, from left to
    /// right. NotMessage, NotSecurity, NotScoped, NotPdu, BadScoped and BadPdu have a place, and no other refusal has.
    pub at: Option<usize>,
    pub ghost placed: { is_some at ≡ has_place refusal },
}

impl RefusedAt {
    /// A refusal that has no place.
    pub fn plain(refusal: Refusal) -> RefusedAt
        requires { has_place refusal ≡ false }
        ensures refusal { result.refusal ≡ refusal }
        ensures place { result.at ≡ None }
    {
        RefusedAt { refusal, at: None }
    }

    /// The refusal's number, 1 to 18.
    pub fn number(self) -> u8
        ensures { result ≡ refusal_number self.refusal }
    {
        self.refusal.number()
    }

    /// The refusal's name, as it is printed.
    pub fn name(self) -> &'static str
        ensures { result.now ≡ refusal_name self.refusal }
    {
        self.refusal.name()
    }

    /// Whether this is out of memory, which says nothing of the octets.
    pub fn is_memory(self) -> bool
        ensures { MemoryIs self.refusal result }
    {
        self.refusal == Refusal::OutOfMemory
    }
}

impl fmt::Display for RefusedAt {
    ghost output = { λ refused. Some (words_at refused.refusal refused.at) };

    fn fmt<W: fmt::Write>(&self, f: &mut fmt::Formatter<W>) -> fmt::Result {
        let refusal = self.refusal;
        match self.at {
            Some(at) => write!(f, "{refusal} at octet {at}"),
            None => write!(f, "{refusal}"),
        }
    }
}

impl Error for RefusedAt {}

impl From<AllocError> for RefusedAt {
    ghost from_gives = { λ _ e. e.refusal ≡ OutOfMemory };

    fn from(_fault: AllocError) -> RefusedAt {
        RefusedAt::plain(Refusal::OutOfMemory)
    }
}
