//! How many bindings a message has room for.

ghost use Rattle.std.specs.Prelude.{◌≡◌, ◌+◌, ◌*◌, ◌<◌, ◌≤◌, false, List, [], All, length, map, take, IfNone, IfSome};
ghost use Rattle.std.specs.Prelude.{IsTrue};
ghost use Rattle.snmp_msg.specs.Variables.{Variable, variables_text};
ghost use Rattle.usm_core.specs.Sizes.{data_size};
ghost use Rattle.snmp_outgoing.specs.Bodies.{scoped_after};
ghost use Rattle.snmp_outgoing.specs.Sends.{sent_with};
ghost use Rattle.snmp_outgoing.specs.Fronts.{IsBeyond, IsLongestFront, IsWithin};
ghost use Rattle.snmp_outgoing.specs.Outlines.{OutlineFits, HasAtMost, content_size};

use crate::envelope::Envelope;
use crate::front::Front;
use snmp_message::{element_len, message_len};
use snmp_msg::{Header, LARGEST, Spelled, binding_len};
use usm_core::{Users, sealed_size};

/// What is known of a message besides its bindings.
#[derive(Clone, Copy)]
struct Outline<'a> {
    header: Header,
    /// How many octets the content of its msgSecurityParameters has.
    security_len: usize,
    front: &'a Front<'a>,
}

impl<'a> Outline<'a> {
    /// How many octets the content of its msgData has, with a list of bindings of this size.
    fn data_len(&self, list_len: usize) -> usize
        requires fits { OutlineFits self.now }
        requires list { list_len ≤ LARGEST }
        ensures size { (vs : List Variable) → length (variables_text vs) ≡ list_len
            → result ≡ data_size self.now.header.privacy (content_size self.now vs) }
    {
        let content_len = self.front.content_len(list_len);
        if self.header.privacy {
            element_len(content_len)
        } else {
            content_len
        }
    }

    /// Whether it has at most `limit` octets, with a list of bindings of this size.
    fn is_within(&self, list_len: usize, limit: usize) -> bool
        requires fits { OutlineFits self.now }
        requires list { list_len ≤ LARGEST }
        ensures yes { IsTrue result → (vs : List Variable) → length (variables_text vs) ≡ list_len
            → HasAtMost self.now limit vs }
        ensures no { result ≡ false → (vs : List Variable) → length (variables_text vs) ≡ list_len
            → HasAtMost self.now limit vs → ⊥ }
    {
        let data_len = self.data_len(list_len);
        if data_len > LARGEST {
            return false;
        }
        message_len(&self.header, self.security_len, data_len) <= limit
    }

    /// How many of the bindings it has room for within `limit`, where it is within that without any.
    fn longest<B: Spelled>(&self, bindings: &[B], limit: usize) -> usize
        requires fits { OutlineFits self.now }
        requires bindings { All (λ b. B.fits b) bindings.now }
        requires limit { limit ≤ LARGEST }
        requires none { HasAtMost self.now limit [] }
        ensures most { result ≤ length bindings.now }
        ensures fits { HasAtMost self.now limit (map B.says (take result bindings.now)) }
        ensures longest { result < length bindings.now
            → HasAtMost self.now limit (map B.says (take (result + 1) bindings.now)) → ⊥ }
    {
        let mut count = 0;
        let mut list_len = 0;
        for binding in bindings {
            let Some(size) = binding_len(binding) else {
                return count;
            };
            list_len += size;
            if list_len > LARGEST {
                return count;
            }
            if !self.is_within(list_len, limit) {
                return count;
            }
            count += 1;
        }
        count
    }
}

/// Whether a message of this envelope and this front has at most `limit` octets, at most 65,507, with a list of
/// bindings of `list_len` octets. Nothing is written, and it takes no memory.
pub(crate) fn is_within(
    users: &Users,
    envelope: &Envelope<'_>,
    front: &Front<'_>,
    list_len: usize,
    limit: usize,
) -> bool
    requires engine { length envelope.now.engine.now ≤ 32 }
    requires context_engine { length front.now.context_engine.now ≤ LARGEST }
    requires context_name { length front.now.context_name.now ≤ LARGEST }
    requires list { list_len ≤ LARGEST }
    requires limit { limit ≤ LARGEST }
    ensures yes { IsTrue result → (vs : List Variable) → length (variables_text vs) ≡ list_len
        → IsWithin users.now.users limit (sent_with envelope.now (scoped_after front.now vs)) }
    ensures no { result ≡ false → (vs : List Variable) → length (variables_text vs) ≡ list_len
        → IsBeyond users.now.users limit (sent_with envelope.now (scoped_after front.now vs)) }
{
    sealed_size();
    let header = envelope.header();
    let outline = Outline {
        header,
        security_len: users.security_len(&header, envelope.engine, envelope.pair, envelope.user),
        front,
    };
    outline.is_within(list_len, limit)
}

/// How many of the bindings, from the first on, a message of this envelope and this front has room for within
/// `limit` octets, at most 65,507; None where it is longer without any. Nothing is written, and it takes no
/// memory.
///
/// At levels with authentication it counts with the user's protocol, and where there is no such user there is
/// no text to be counted.
pub fn count_within<B: Spelled>(
    users: &Users,
    envelope: &Envelope<'_>,
    front: &Front<'_>,
    bindings: &[B],
    limit: usize,
) -> Option<usize>
    requires engine { length envelope.now.engine.now ≤ 32 }
    requires fit { All (λ b. B.fits b) bindings.now }
    requires limit { limit ≤ LARGEST }
    ensures some { IfSome result
        (IsLongestFront users.now.users limit
        (λ vs. sent_with envelope.now (scoped_after front.now vs))
        (map B.says bindings.now)) }

    // It can be written.
    ensures scoped { IfSome result
        (λ count. length (scoped_after front.now (map B.says (take count bindings.now)))
        ≤ 2 * LARGEST) }
    ensures none { IfNone result (IsBeyond users.now.users limit
        (sent_with envelope.now (scoped_after front.now []))) }
{
    sealed_size();
    if front.context_engine.len().max(front.context_name.len()) > LARGEST {
        return None;
    }
    let header = envelope.header();
    let outline = Outline {
        header,
        security_len: users.security_len(&header, envelope.engine, envelope.pair, envelope.user),
        front,
    };
    if !outline.is_within(0, limit) {
        return None;
    }
    Some(outline.longest(bindings, limit))
}
