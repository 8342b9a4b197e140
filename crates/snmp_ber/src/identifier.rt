//! The content of an OBJECT IDENTIFIER (X.690, section 8.19).

ghost use Rattle.std.specs.Prelude.{◌≡◌, ℕ, ◌+◌, ◌<◌, ◌≤◌, ◌↔◌, ◌++◌, ◌∷◌, [], List, Some, length, IfSome, OnOk, OnErr};
ghost use Rattle.std.specs.Prelude.{option_map, option_and_then, is_some, nat_lt, vec_len, vec_capacity, IsTrue};
ghost use Rattle.std.specs.List.{list_all};
ghost use Rattle.snmp_ber.specs.Oid.{IsObjectId, IsIdentifier, subidentifiers, subidentifiers_in, at_most};
ghost use Rattle.snmp_ber.specs.Oid.{identifier_in, group_count, subidentifier, identifier};
ghost use Rattle.snmp_ber.specs.Spelling.{element};

use crate::element::{head_len, put_tlv};
use crate::oid::Oid;
use arrayvec::ArrayVec;
use std::alloc::AllocError;

/// The tag of an OBJECT IDENTIFIER.
const OBJECT_IDENTIFIER: u8 = 0x06;

/// Reads the subidentifiers that the octets are, at most 127. The numbers are written where they are kept, since a
/// vector of that size is moved slowly.
fn read_subidentifiers(numbers: &mut ArrayVec<u32, 128>, content: &[u8]) -> Option<()>
    requires { numbers.old.items ≡ [] }
    ensures { option_map (λ _. numbers.new.items) result
        ≡ option_and_then (at_most 127) (subidentifiers_in 0 content.now) }
{
    let mut high: u32 = 0;
    for octet in content {
        if high > 0x1ff_ffff {
            return None;
        }
        if *octet < 128 {
            if numbers.len() == 127 {
                return None; // there would be more than 128 arcs
            }
            numbers.push(128 * high + u32::from(*octet));
            high = 0;
        } else {
            high = 128 * high + (u32::from(*octet) - 128);
            if high == 0 {
                return None;
            }
        }
    }
    if high > 0 {
        return None;
    }
    Some(())
}

/// Reads the arcs, of which the first subidentifier tells two. They are written where they are kept.
#[tactic(auto, unfolding(crate::specs::Oid::identifier_in))]
pub(crate) fn read_arcs(arcs: &mut ArrayVec<u32, 128>, content: &[u8]) -> Option<()>
    requires { arcs.old.items ≡ [] }
    ensures value { option_map (λ _. arcs.new.items) result ≡ identifier_in content.now }
    ensures some { IfSome result (λ _. 1 ≤ length arcs.new.items) }
    ensures most { IfSome result (λ _. length arcs.new.items ≤ 128) }
{
    read_subidentifiers(arcs, content)?;
    let [first, ..] = arcs.as_mut_slice() else {
        return None;
    };
    let (top, second) = if *first < 40 {
        (0, *first)
    } else if *first < 80 {
        (1, *first - 40)
    } else {
        (2, *first - 80)
    };
    *first = second;
    arcs.insert(0, top);
    Some(())
}

/// The identifier whose content this is. It is `None` where the content isn't one to 127 subidentifiers, each at most
/// 4,294,967,295 and in the fewest octets.
pub fn read_oid(content: &[u8]) -> Option<Oid>
    ensures value { (arcs : List ℕ) → (result ≡ Some arcs) ↔ IsIdentifier arcs content.now }
    ensures exact { result ≡ identifier_in content.now }
{
    let mut arcs = ArrayVec::new();
    read_arcs(&mut arcs, content)?;
    Some(Oid::from_arcs(arcs))
}

/// Each octet is a subidentifier of its own.
fn are_single(content: &[u8]) -> bool
    ensures { result ≡ list_all (λ octet. nat_lt octet 128) content.now }
{
    content.iter().all(|octet| *octet < 128)
}

/// How many subidentifiers the octets are, at most 127.
fn count_subidentifiers(content: &[u8]) -> Option<usize>
    ensures { result ≡ option_map length
        (option_and_then (at_most 127) (subidentifiers_in 0 content.now)) }
{
    let mut count = 0;
    let mut so_far: u32 = 0;
    for octet in content {
        if so_far > 0x1ff_ffff {
            return None;
        }
        if *octet < 128 {
            if count == 127 {
                return None;
            }
            count += 1;
            so_far = 0;
        } else {
            so_far = 128 * so_far + (u32::from(*octet) - 128);
            if so_far == 0 {
                return None;
            }
        }
    }
    if so_far > 0 {
        return None;
    }
    Some(count)
}

/// The content is an identifier's, which `read_oid` gives: one to 127 subidentifiers, each at most
/// 4,294,967,295 and in the fewest octets.
pub fn is_oid(content: &[u8]) -> bool
    ensures identifier { IsTrue result ↔ ((arcs : List ℕ) × IsIdentifier arcs content.now) }
    ensures exact { result ≡ is_some (identifier_in content.now) }
{
    // Most arcs are below 128.
    if content.len() <= 127 && are_single(content) {
        return content.len() > 0;
    }
    match count_subidentifiers(content) {
        Some(count) => count > 0,
        None => false,
    }
}

/// How many groups of seven bits a number takes.
fn count_groups(number: u32) -> usize
    ensures count { result ≡ group_count number }
    ensures most { result ≤ 5 }
{
    if number < 0x80 {
        1
    } else if number < 0x4000 {
        2
    } else if number < 0x20_0000 {
        3
    } else if number < 0x1000_0000 {
        4
    } else {
        5
    }
}

/// The groups of seven bits of a number, the high group first, with bit 8 set on all but the last.
#[tactic(auto, unfolding(crate::specs::Oid::subidentifier))]
fn groups(number: u32) -> ArrayVec<u8, 5>
    ensures { result.items ≡ subidentifier number }
{
    let octets = [
        128 + (number / 0x1000_0000) as u8,
        128 + (number / 0x20_0000 % 128) as u8,
        128 + (number / 0x4000 % 128) as u8,
        128 + (number / 128 % 128) as u8,
        (number % 128) as u8,
    ];
    let mut groups = ArrayVec::new();
    let Ok(()) = groups.try_extend_from_slice(&octets[5 - count_groups(number)..]) else {
        unreachable!();
    };
    groups
}

/// The first subidentifier, which tells the first two arcs, and the arcs after them.
fn split_first(oid: &Oid) -> (u32, &[u32])
    requires { IsObjectId oid.now }
    ensures numbers { subidentifiers oid.now ≡ result.0 ∷ result.1.now }
    ensures most { length result.1.now ≤ 126 }
{
    let [top, second, others @ ..] = oid.as_slice() else {
        unreachable!();
    };
    (40 * *top + *second, others)
}

/// Appends the groups of a number.
#[tactic(auto, unfolding(crate::specs::Oid::subidentifier))]
fn push_groups(content: &mut ArrayVec<u8, 635>, number: u32)
    requires { length content.old.items ≤ 630 }
    ensures { content.new.items ≡ content.old.items ++ subidentifier number }
{
    // Most arcs are below 128.
    if number < 0x80 {
        content.push(number as u8);
        return;
    }
    let Ok(()) = content.try_extend_from_slice(&groups(number)) else {
        unreachable!();
    };
}

/// Writes the content of the OBJECT IDENTIFIER of an identifier, where it is kept.
#[tactic(auto, unfolding(crate::specs::Oid::identifier))]
fn push_content(content: &mut ArrayVec<u8, 635>, oid: &Oid)
    requires object_id { IsObjectId oid.now }
    requires empty { content.old.items ≡ [] }
    ensures { content.new.items ≡ identifier oid.now }
{
    let (first, others) = split_first(oid);
    push_groups(content, first);
    for arc in others {
        push_groups(content, *arc);
    }
}

/// How many octets the content of the OBJECT IDENTIFIER of an identifier has.
#[tactic(auto, unfolding(crate::specs::Oid::identifier))]
fn content_len(oid: &Oid) -> usize
    requires { IsObjectId oid.now }
    ensures size { result ≡ length (identifier oid.now) }
    ensures most { result ≤ 635 }
{
    let (first, others) = split_first(oid);
    let mut size = count_groups(first);
    for arc in others {
        size += count_groups(*arc);
    }
    size
}

/// How many octets `put_oid` appends.
pub fn oid_len(oid: &Oid) -> usize
    requires { IsObjectId oid.now }
    ensures size { result ≡ length (element 6 (identifier oid.now)) }
    ensures most { result ≤ 641 }
{
    let size = content_len(oid);
    head_len(size) + size
}

/// Appends the OBJECT IDENTIFIER of an identifier with `is_object_id`, in its shortest spelling.
///
/// The error is out of memory: it comes only where the room that is left is too small, and changes nothing.
pub fn put_oid(out: &mut Vec<u8>, oid: &Oid) -> Result<(), AllocError>
    requires { IsObjectId oid.now }
    ensures ok { OnOk result (out.new.items ≡ out.old.items ++ element 6 (identifier oid.now)) }
    ensures err { OnErr result (out.new.items ≡ out.old.items) }
    ensures full { OnErr result (vec_capacity out.old < vec_len out.old
        + length (element 6 (identifier oid.now))) }
    ensures size { OnOk result (vec_len out.new ≤ vec_len out.old + 641) }
{
    let mut content = ArrayVec::new();
    push_content(&mut content, oid);
    put_tlv(out, OBJECT_IDENTIFIER, &content)
}
