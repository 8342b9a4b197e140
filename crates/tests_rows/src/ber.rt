//! Elements, numbers, identifiers and texts that are cut (X.690; RFC 3417, section 8).

use crate::row::{Fault, Row};
use crate::shown::Hex;
use crate::subjects::Subject;
use snmp_ber::*;
use std::alloc::Global;

/// Elements and numbers. Their rows set nothing up.
#[derive(Clone, Copy)]
pub struct Elements;

impl Subject for Elements {
    fn begin(_alloc: Global) -> Result<Elements, Fault> {
        Ok(Elements)
    }

    fn answer(&mut self, row: &mut Row<'_>) {
        answer(row);
    }
}

/// Answers a row.
fn answer(row: &mut Row<'_>) {
    match row.kind {
        "read_tlv" => tlv(row),
        "put_head" => head(row),
        "put_tlv" => written_tlv(row),
        "read_int" => int(row),
        "int_content" => content(row),
        "put_int" => written_int(row),
        "read_oid" => oid(row),
        "put_oid" => written_oid(row),
        "oid_from_text" => oid_text(row),
        "oid_of" => oid_of_ones(row),
        "oid_order" => order(row),
        "read_decimal" => decimal(row),
        "split_once" => split(row),
        _ => row.fail_kind(),
    }
}

/// `read_tlv OCTETS AT END`: the tag, the place of the content and the end, or the place of the fault.
fn tlv(row: &mut Row<'_>) {
    let (octets, at, end) = (row.octets(), row.place(), row.place());
    if at > end || end > octets.len() {
        return row.fail("places of the octets");
    }
    let alloc = row.alloc;
    row.say(match read_tlv(octets, at, end) {
        Ok(tlv) => format!(in alloc; "tag {:02x} body {} end {}", tlv.tag, tlv.body, tlv.end),
        Err(fault) => format!(in alloc; "fault {}", fault.at),
    });
}

/// `put_head TAG SIZE`: the octets, and the length that was told.
fn head(row: &mut Row<'_>) {
    let (tag, size) = (row.octet(), row.place());
    if size > 4_294_967_295 {
        return row.fail("a size of 32 bits");
    }
    let mut out = Vec::new(row.alloc);
    match put_head(&mut out, tag, size) {
        Ok(()) => row.say(format!(in row.alloc; "{} len {}", Hex(&out), head_len(size))),
        Err(_) => row.lack(),
    }
}

/// `put_tlv BEFORE TAG CONTENT`: the octets from before with the element after them.
fn written_tlv(row: &mut Row<'_>) {
    let (before, tag, content) = (row.octets(), row.octet(), row.octets());
    if tag & 0x1f == 0x1f || content.len() > 1_000_000 {
        return row.fail("a tag of one octet and a short content");
    }
    let Ok(mut out) = before.to_vec(row.alloc) else {
        return row.lack();
    };
    match put_tlv(&mut out, tag, content) {
        Ok(()) => row.show(&out),
        Err(_) => row.lack(),
    }
}

/// `read_int CONTENT`: the number.
fn int(row: &mut Row<'_>) {
    match read_int(row.octets()) {
        Some(number) => row.say(format!(in row.alloc; "{number}")),
        None => row.none(),
    }
}

/// `int_content NUMBER`: the content.
fn content(row: &mut Row<'_>) {
    let number = row.signed();
    if number < -2_147_483_648 || number > 4_294_967_295 {
        return row.fail("a number of 32 bits");
    }
    row.show(&int_content(number));
}

/// `put_int BEFORE NUMBER`: the octets from before with the INTEGER after them.
fn written_int(row: &mut Row<'_>) {
    let (before, number) = (row.octets(), row.signed32());
    let Ok(mut out) = before.to_vec(row.alloc) else {
        return row.lack();
    };
    match put_int(&mut out, number) {
        Ok(()) => row.show(&out),
        Err(_) => row.lack(),
    }
}

/// `read_oid CONTENT`: the identifier, and whether `is_oid` finds one.
fn oid(row: &mut Row<'_>) {
    let content = row.octets();
    let is_one = is_oid(content);
    match read_oid(content) {
        Some(oid) => row.say(format!(in row.alloc; "{oid} is_oid {is_one}")),
        None => row.say(format!(in row.alloc; "none is_oid {is_one}")),
    }
}

/// `put_oid BEFORE ARCS`: the octets from before with the identifier after them, and the length that was told; or
/// that no subidentifier can hold the first two arcs.
fn written_oid(row: &mut Row<'_>) {
    let before = row.octets();
    let Some(oid) = row.arcs() else {
        return;
    };
    if !oid.is_object_id() {
        return row.tell("not an object id");
    }
    let Ok(mut out) = before.to_vec(row.alloc) else {
        return row.lack();
    };
    match put_oid(&mut out, &oid) {
        Ok(()) => row.say(format!(in row.alloc; "{} len {}", Hex(&out), oid_len(&oid))),
        Err(_) => row.lack(),
    }
}

/// `oid_from_text TEXT`: the identifier as it is printed, and how many arcs it has.
fn oid_text(row: &mut Row<'_>) {
    match Oid::from_text(row.said()) {
        Some(oid) => row.say(format!(in row.alloc; "{oid} arcs {}", oid.as_slice().len())),
        None => row.none(),
    }
}

/// `oid_of ARC COUNT`: how many arcs the identifier of so many has.
fn oid_of_ones(row: &mut Row<'_>) {
    let (arc, count) = (row.number32(), row.place());
    let Ok(arcs) = vec![in row.alloc; arc; count.min(1000)] else {
        return row.lack();
    };
    match Oid::of(&arcs) {
        Some(oid) => row.say(format!(in row.alloc; "arcs {}", oid.as_slice().len())),
        None => row.none(),
    }
}

/// `oid_order FIRST SECOND`: the order of a copy of the first and the second.
fn order(row: &mut Row<'_>) {
    let (Some(first), Some(second)) = (row.arcs(), row.arcs()) else {
        return;
    };
    match first.clone() {
        Ok(copy) => row.say(format!(in row.alloc; "{:?} {}", copy.cmp(&second), copy == second)),
        Err(_) => row.lack(),
    }
}

/// `read_decimal TEXT MOST`: the number.
fn decimal(row: &mut Row<'_>) {
    match read_decimal(row.octets(), row.number()) {
        Some(number) => row.say(format!(in row.alloc; "{number}")),
        None => row.none(),
    }
}

/// `split_once TEXT OCTET`: what is before and after the first such octet.
fn split(row: &mut Row<'_>) {
    match split_once(row.octets(), row.octet()) {
        Some((before, after)) => {
            row.say(format!(in row.alloc; "{} {}", Hex(before), Hex(after)));
        }
        None => row.none(),
    }
}
