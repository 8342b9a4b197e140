//! A datagram that ends before its message does.

ghost use Rattle.std.specs.Prelude.{◌<◌, IfSome};

use std::fmt;

/// The tag of a SEQUENCE, with which a message begins (RFC 3412, section 6).
const SEQUENCE: u8 = 0x30;

/// How many octets a message says that it has, and how many there are.
#[derive(Clone, Copy)]
pub struct CutMessage {
    pub said: usize,
    pub there: usize,
}

/// What a datagram is cut to, where its outermost length says that it goes on behind its end.
pub fn cut_message(datagram: &[u8]) -> Option<CutMessage>
    ensures { IfSome result (λ cut. cut.there < cut.said) }
{
    let (&tag, rest) = datagram.split_first()?;
    let (&first, rest) = rest.split_first()?;
    if tag != SEQUENCE {
        return None;
    }
    let content = content_len(first, rest)?;
    let said = content.saturating_add(2);
    let there = datagram.len();
    if there < said {
        Some(CutMessage { said, there })
    } else {
        None
    }
}

/// How many octets come after the first octet of a length, by the definite form of at most four octets more
/// (X.690, section 8.1.3).
fn content_len(first: u8, rest: &[u8]) -> Option<usize> {
    if first < 0x80 {
        return Some(usize::from(first));
    }
    let count = usize::from(first - 0x80);
    if count == 0 || count > 4 {
        return None;
    }
    let mut len = 0usize;
    for octet in rest.get(..count)? {
        len = len.saturating_mul(256).saturating_add(usize::from(*octet));
    }
    Some(len.saturating_add(count))
}

impl fmt::Display for CutMessage {
    fn fmt<W: fmt::Write>(&self, f: &mut fmt::Formatter<W>) -> fmt::Result {
        let (said, there) = (self.said, self.there);
        write!(f, "the message says {said} octets, and {there} are there")
    }
}
