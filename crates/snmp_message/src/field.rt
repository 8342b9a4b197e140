//! One element of a layout: reading it at a place in the text, and the size that it is written in.

ghost use Rattle.std.specs.Prelude.{◌≡◌, ◌+◌, ◌-◌, ◌<◌, ◌≤◌, length, slice_range, option_map, IfOk};
ghost use Rattle.std.specs.Result.{result_ok};
ghost use Rattle.snmp_ber.specs.Tlv.{front_at};
ghost use Rattle.snmp_ber.specs.Spelling.{head_size};
ghost use Rattle.snmp_ber.specs.declared.number.TheConstants.{MAX_INTEGER32};
ghost use Rattle.snmp_message.specs.Reading.{element_in, number_in};
ghost use Rattle.snmp_message.specs.Spelling.{signed};
ghost use Rattle.snmp_message.specs.Reading.{signed_in};

use snmp_ber::{BerFault, Tlv, head_len, int_content, read_int, read_tlv};

/// The tags of X.690, section 8, that SNMP uses (RFC 3416, section 3).
pub const INTEGER: u8 = 0x02;

pub const OCTET_STRING: u8 = 0x04;

pub const OBJECT_IDENTIFIER: u8 = 0x06;

pub const SEQUENCE: u8 = 0x30;

/// The element at this place, which must have the tag.
#[tactic(auto, unfolding(crate::specs::Reading::element_in))]
pub fn read_element(bytes: &[u8], at: usize, end: usize, tag: u8) -> Result<Tlv<'_>, BerFault>
    requires start { at ≤ end }
    requires within { end ≤ length bytes.now }
    ensures value { option_map (front_at bytes.now end) (result_ok result)
        ≡ element_in tag (slice_range bytes.now at end) }
    ensures content { IfOk result (λ t. t.content.now ≡ slice_range bytes.now t.body t.end) }
    ensures ordered { IfOk result
        (λ t. (t.start ≡ at) × (at < t.body) × (t.body + length t.content.now ≡ t.end)
        × (t.end ≤ end)) }
{
    let tlv = read_tlv(bytes, at, end)?;
    if tlv.tag != tag {
        return Err(BerFault { at });
    }
    Ok(tlv)
}

/// The INTEGER at this place, not below the least, and the place after it.
#[tactic(auto, unfolding(crate::specs::Reading::number_in))]
pub fn read_number(
    bytes: &[u8],
    at: usize,
    end: usize,
    least: u32,
) -> Result<(u32, usize), BerFault>
    requires start { at ≤ end }
    requires within { end ≤ length bytes.now }
    ensures value { option_map (λ x. (x.0, slice_range bytes.now x.1 end)) (result_ok result)
        ≡ number_in least (slice_range bytes.now at end) }
    ensures ordered { IfOk result (λ x. (at < x.1) × (x.1 ≤ end)) }
    ensures range { IfOk result (λ x. (least ≤ x.0) × (x.0 ≤ MAX_INTEGER32)) }
{
    let tlv = read_element(bytes, at, end, INTEGER)?;
    match read_int(tlv.content) {
        Some(value) if value >= 0 && value as u32 >= least => Ok((value as u32, tlv.end)),
        _ => Err(BerFault { at }),
    }
}

/// The INTEGER of 32 bits with sign at this place, and the place after it.
#[tactic(auto, unfolding(crate::specs::Reading::signed_in))]
pub fn read_signed(bytes: &[u8], at: usize, end: usize) -> Result<(i32, usize), BerFault>
    requires start { at ≤ end }
    requires within { end ≤ length bytes.now }
    ensures value { option_map (λ x. (x.0, slice_range bytes.now x.1 end)) (result_ok result)
        ≡ signed_in (slice_range bytes.now at end) }
    ensures ordered { IfOk result (λ x. (at < x.1) × (x.1 ≤ end)) }
{
    let tlv = read_element(bytes, at, end, INTEGER)?;
    match read_int(tlv.content) {
        Some(value) => Ok((value, tlv.end)),
        None => Err(BerFault { at }),
    }
}

/// How many octets an element with a content of `size` octets is written in.
pub fn element_len(size: usize) -> usize
    requires { size ≤ MAX_INTEGER32 }
    ensures size { result ≡ head_size size + size }
    ensures most { result ≤ size + 6 }
{
    head_len(size) + size
}

/// How many octets the INTEGER of a number is written in.
pub fn integer_len(value: i32) -> usize
    ensures size { result ≡ length (signed value) }
    ensures most { result ≤ 11 }
{
    element_len(int_content(i64::from(value)).len())
}
