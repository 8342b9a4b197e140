//! Elements: a tag, a length and that many octets of content (X.690, section 8.1; RFC 3417, section 8).

ghost use Rattle.std.specs.Prelude.{◌≡◌, ℕ, ◌+◌, ◌^◌, ◌<◌, ◌≤◌, ◌++◌, List, Option, Some, None, option_map, length};
ghost use Rattle.std.specs.Prelude.{slice_range, IfSome, IfOk, IfErr, OnOk, OnErr, vec_len, vec_capacity};
ghost use Rattle.std.specs.Result.{result_ok};
ghost use Rattle.snmp_ber.specs.Number.{number};
ghost use Rattle.snmp_ber.specs.Reading.{length_at, front_of};
ghost use Rattle.snmp_ber.specs.Element.{IsTag, Begins, StandsAt};
ghost use Rattle.snmp_ber.specs.Spelling.{digit_count, head_of, head_size, element};
ghost use Rattle.snmp_ber.specs.Tlv.{front_at};

use crate::fault::BerFault;
use arrayvec::ArrayVec;
use std::alloc::AllocError;

/// An element that was read, with its places, counted from 0, in the octets that it was read from.
#[derive(Clone, Copy, Debug, PartialEq, Eq)]
pub struct Tlv<'a> {
    /// The identifier octet. Its low five bits are not all ones.
    pub tag: u8,
    /// The contents octets.
    pub content: &'a [u8],
    /// The place of its first octet.
    pub start: usize,
    /// The place of its content.
    pub body: usize,
    /// The place after its last octet.
    pub end: usize,
}

/// The number with these digits in base 256.
pub(crate) fn number_of(octets: &[u8]) -> usize
    requires { length octets.now ≤ 4 }
    ensures value { result ≡ number octets.now }
    ensures bound { result < 2 ^ 32 }
{
    let mut high = 0;
    for octet in octets {
        high = 256 * high + usize::from(*octet);
    }
    high
}

/// The length that the octets begin with, and how many octets it takes.
#[tactic(auto, unfolding(crate::specs::Reading::length_at))]
fn read_length(octets: &[u8]) -> Option<(usize, usize)>
    ensures value { result ≡ length_at octets.now }
    ensures within { IfSome result (λ size. size.1 ≤ length octets.now) }
{
    let [first, digits @ ..] = octets else {
        return None;
    };
    if *first < 128 {
        return Some((usize::from(*first), 1));
    }
    if *first < 129 || *first > 132 {
        return None;
    }
    let count = usize::from(*first) - 128;
    if digits.len() < count {
        return None;
    }
    Some((number_of(&digits[..count]), count + 1))
}

/// The element that the octets begin with: its tag, the size of its tag and length, its content, and the rest.
#[tactic(auto, unfolding(crate::specs::Reading::front_of))]
fn read_front(octets: &[u8]) -> Option<(u8, usize, &[u8], &[u8])>
    ensures value { option_map (λ f. record
        { tag = f.0; head_size = f.1; content = f.2.now; rest = f.3.now }) result
        ≡ front_of octets.now }
    ensures size { IfSome result (λ f. f.1 + (length f.2.now + length f.3.now)
        ≡ length octets.now) }
{
    let [tag, after_tag @ ..] = octets else {
        return None;
    };
    if *tag & 0x1f == 0x1f {
        return None;
    }
    let (size, size_octets) = read_length(after_tag)?;
    let after_head = &after_tag[size_octets..];
    if after_head.len() < size {
        return None;
    }
    let (content, rest) = after_head.split_at(size);
    Some((*tag, 1 + size_octets, content, rest))
}

/// The element that begins at the place `at` and ends at the place `end` or before it.
///
/// The length may have any definite form of at most 4 length octets, also one longer than needed. It is an
/// error that no such element begins there: no octet is left, the tag's low five bits are all ones, the
/// length has another form, or the content runs past `end`.
pub fn read_tlv(bytes: &[u8], at: usize, end: usize) -> Result<Tlv<'_>, BerFault>
    requires start { at ≤ end }
    requires within { end ≤ length bytes.now }

    // What is found is an element there, of these parts at these places.
    ensures found { IfOk result (λ t. StandsAt bytes.now t.start t.body t.end t.tag t.content.now) }
    ensures first { IfOk result (λ t. t.start ≡ at) }
    ensures within { IfOk result (λ t. t.end ≤ end) }

    // A fault says that the octets from there on begin with no element.
    ensures none { IfErr result
        (λ _. (tag : ℕ) (head content rest : List ℕ)
        → Begins (slice_range bytes.now at end) tag head content rest → ⊥) }
    ensures fault { IfErr result (λ e. e.at ≡ at) }

    ensures exact { option_map (front_at bytes.now end) (result_ok result)
        ≡ front_of (slice_range bytes.now at end) }
{
    let Some((tag, head_size, content, _)) = read_front(&bytes[at..end]) else {
        return Err(BerFault { at });
    };
    let body = at + head_size;
    Ok(Tlv {
        tag,
        content,
        start: at,
        body,
        end: body + content.len(),
    })
}

/// How many digits in base 256 a number takes.
fn count_digits(number: u32) -> usize
    ensures count { result ≡ digit_count number }
    ensures least { 1 ≤ result }
    ensures most { result ≤ 4 }
{
    if number < 0x100 {
        1
    } else if number < 0x1_0000 {
        2
    } else if number < 0x100_0000 {
        3
    } else {
        4
    }
}

/// How many octets the tag and the shortest length of a content of `size` octets take.
#[tactic(auto, unfolding(crate::specs::Spelling::shortest_length))]
pub fn head_len(size: usize) -> usize
    requires { size < 2 ^ 32 }
    ensures size { result ≡ head_size size }
    ensures most { result ≤ 6 }
{
    if size < 128 {
        2
    } else {
        2 + count_digits(size as u32)
    }
}

/// The tag and the shortest length.
#[tactic(auto, unfolding(crate::specs::Spelling::shortest_length))]
fn head(tag: u8, size: u32) -> ArrayVec<u8, 6>
    ensures { result.items ≡ head_of tag size }
{
    let mut head = ArrayVec::new();
    head.push(tag);
    if size < 0x80 {
        head.push(size as u8);
        return head;
    }
    let count = count_digits(size);
    head.push(128 + count as u8);
    let Ok(()) = head.try_extend_from_slice(&size.to_be_bytes()[4 - count..]) else {
        unreachable!();
    };
    head
}

/// Appends the tag and the shortest length of a content of `size` octets, which is to follow.
///
/// The error is out of memory: it comes only where the room that is left is too small, and changes nothing.
#[tactic(auto, unfolding(crate::specs::Spelling::shortest_length))]
pub fn put_head(out: &mut Vec<u8>, tag: u8, size: usize) -> Result<(), AllocError>
    requires { size < 2 ^ 32 }
    ensures ok { OnOk result (out.new.items ≡ out.old.items ++ head_of tag size) }
    ensures err { OnErr result (out.new.items ≡ out.old.items) }
    ensures full { OnErr result (vec_capacity out.old < vec_len out.old
        + length (head_of tag size)) }
    ensures capacity { vec_capacity out.old ≤ vec_capacity out.new }
{
    // Most contents are short.
    if size < 0x80 {
        out.extend_from_slice(&[tag, size as u8])?;
        return Ok(());
    }
    let head = head(tag, size as u32);
    out.extend_from_slice(&head)?;
    Ok(())
}

/// Appends the element with this tag and content, in its shortest spelling.
///
/// Its tag has a clear bit among the low five, and its content at most 4,294,967,295 octets. The error is
/// out of memory: it comes only where the room that is left is too small, and changes nothing.
pub fn put_tlv(out: &mut Vec<u8>, tag: u8, content: &[u8]) -> Result<(), AllocError>
    requires is_tag { IsTag tag }
    requires fits { length content.now < 2 ^ 32 }
    ensures ok { OnOk result (out.new.items ≡ out.old.items ++ element tag content.now) }
    ensures err { OnErr result (out.new.items ≡ out.old.items) }
    ensures full { OnErr result (vec_capacity out.old < vec_len out.old
        + length (element tag content.now)) }
    ensures size { OnOk result (vec_len out.new ≤ vec_len out.old + (6 + length content.now)) }
{
    out.try_reserve(head_len(content.len()) + content.len())?;
    put_head(out, tag, content.len())?;
    out.extend_from_slice(content)?;
    Ok(())
}
