//! The content of an INTEGER (X.690, section 8.3).

ghost use Rattle.std.specs.Prelude.{◌≡◌, ℕ, ℤ, pos, negsuc, ◌+◌, ◌<◌, ◌≤◌, ◌≤ℤ◌, ◌↔◌, ◌++◌, Some, IsTrue, length};
ghost use Rattle.std.specs.Prelude.{OnOk, OnErr, vec_len, vec_capacity};
ghost use Rattle.snmp_ber.specs.Number.{signed_number, IsInteger, IsInteger32, IsUnsigned};
ghost use Rattle.snmp_ber.specs.Reading.{has_fewest, integer32_of};
ghost use Rattle.snmp_ber.specs.Spelling.{element, octet_count, integer};

use crate::element::{number_of, put_tlv};
use arrayvec::ArrayVec;
use std::alloc::AllocError;

/// The greatest number of 31 bits: of an Integer32 (RFC 2578, section 7.1.1), of the numbers in msgGlobalData
/// (RFC 3412, section 6), and of boots and time (RFC 3414, section 2.2). The least Integer32 is one below its
/// negative.
pub const MAX_INTEGER32: u32 = 2_147_483_647;

/// No shorter content spells the same number.
fn is_fewest(content: &[u8]) -> bool
    ensures { result ≡ has_fewest content.now }
{
    match content {
        [] => false,
        [_] => true,
        [first, second, ..] => {
            !(*first == 0 && *second < 128) && !(*first == 255 && *second >= 128)
        }
    }
}

/// The number that the octets spell in two's complement.
fn signed_of(content: &[u8]) -> i32
    requires least { 1 ≤ length content.now }
    requires most { length content.now ≤ 4 }
    ensures { result ≡ signed_number content.now }
{
    let magnitude = number_of(content) as i64;
    let value = if content[0] < 128 {
        magnitude
    } else {
        magnitude - 256i64.pow(content.len() as u32)
    };
    value as i32
}

/// The number whose content this is: two's complement in the fewest octets, high octet first. It is `None` where the
/// content has no octet, more than 4, or more than the number needs.
#[tactic(auto, unfolding(crate::specs::Reading::integer32_of))]
pub fn read_int(content: &[u8]) -> Option<i32>
    ensures value { (n : ℤ) → (result ≡ Some n) ↔ IsInteger32 n content.now }
    ensures exact { result ≡ integer32_of content.now }
{
    if !is_fewest(content) || content.len() > 4 {
        return None;
    }
    Some(signed_of(content))
}

/// The content is of a number without sign that is below 256 to the power of `most`: it takes so many octets,
/// or one more of 0.
fn is_unsigned(content: &[u8], most: usize) -> bool
    ensures { IsTrue result ↔ ((n : ℕ) × IsUnsigned most n content.now) }
{
    if !is_fewest(content) {
        return false;
    }
    if content[0] >= 128 {
        return false;
    }
    if content.len() <= most {
        return true;
    }
    if content[0] > 0 {
        return false;
    }
    content.len() - 1 == most
}

/// The number of 32 bits without sign whose content this is: two's complement in the fewest octets, high
/// octet first. It is `None` where the content has no octet, or more than the number needs, or is of a number
/// below 0 or above 4294967295.
pub fn read_unsigned(content: &[u8]) -> Option<u32>
    ensures { (n : ℕ) → (result ≡ Some n) ↔ IsUnsigned 4 n content.now }
{
    if !is_unsigned(content, 4) {
        return None;
    }
    if content.len() > 4 {
        return Some(number_of(&content[1..]) as u32);
    }
    Some(number_of(content) as u32)
}

/// Whether the content is of a number of 64 bits without sign, 0 to 18446744073709551615, in the same form.
pub fn is_unsigned64(content: &[u8]) -> bool
    ensures { IsTrue result ↔ ((n : ℕ) × IsUnsigned 8 n content.now) }
{
    is_unsigned(content, 8)
}

/// How many octets a number takes in two's complement.
fn count_octets(value: i64) -> usize
    requires least { negsuc MAX_INTEGER32 ≤ℤ value }
    requires most { value ≤ℤ pos 4294967295 }
    ensures count { result ≡ octet_count value }
    ensures most { result ≤ 5 }
{
    if value >= -0x80 && value < 0x80 {
        1
    } else if value >= -0x8000 && value < 0x8000 {
        2
    } else if value >= -0x80_0000 && value < 0x80_0000 {
        3
    } else if value < 0x8000_0000 {
        4
    } else {
        5
    }
}

/// The content of the INTEGER of a number from -2,147,483,648 to 4,294,967,295: two's complement in the fewest octets,
/// high octet first.
#[tactic(auto, unfolding(crate::specs::Spelling::integer))]
pub fn int_content(value: i64) -> ArrayVec<u8, 5>
    requires least { negsuc MAX_INTEGER32 ≤ℤ value }
    requires most { value ≤ℤ pos 4294967295 }
    ensures spelled { IsInteger value result.items }
    ensures octets { result.items ≡ integer value }
    ensures count { length result.items ≡ octet_count value }
{
    let octets = value.to_be_bytes();
    let mut content = ArrayVec::new();
    let Ok(()) = content.try_extend_from_slice(&octets[8 - count_octets(value)..]) else {
        unreachable!();
    };
    content
}

/// Appends the INTEGER of a number, in its shortest spelling.
///
/// The error is out of memory: it comes only where the room that is left is too small, and changes nothing.
pub fn put_int(out: &mut Vec<u8>, value: i32) -> Result<(), AllocError>
    ensures ok { OnOk result (out.new.items ≡ out.old.items ++ element 2 (integer value)) }
    ensures err { OnErr result (out.new.items ≡ out.old.items) }
    ensures full { OnErr result (vec_capacity out.old < vec_len out.old
        + length (element 2 (integer value))) }
    ensures size { OnOk result (vec_len out.new ≤ vec_len out.old + 11) }
{
    put_tlv(out, 2, &int_content(i64::from(value)))
}
