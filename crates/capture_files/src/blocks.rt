//! Blocks as they are read: behind the first octets the rest, as much as there is room for, and the length again.

ghost use Rattle.std.specs.Prelude.{◌≡◌, ◌<◌, ◌≤◌, ℕ, List, Option, take, length, IfOk, IfErr, OnErr};
ghost use Rattle.std.specs.Io.KnownBytes.{Consumes};
ghost use Rattle.capture_files.specs.Pcapng.{IsFours, section_of};
ghost use Rattle.capture_files.specs.Formats.{IsBlockHead, IsNext, IsNextBlock, ReadsNoRest, ReadsRest, SkipsAll};
ghost use Rattle.capture_files.specs.Formats.{SkipsPart, StopsItem, of_section};

use crate::fault::CaptureFault;
use crate::field::read_32;
use crate::item::{Item, Next};
use crate::pcapng::{BlockHead, Meaning, ROOM, Section, read_block_head};
use snmpsec_io::{Failed, read_full};
use std::io::Read;

/// How many octets of a block tell its kind, its length and its order.
const FRONT: usize = 12;

/// Reads so many octets and lets them go. Fewer are left only at the end, and the answer is `false` then.
fn skip<R: Read>(reader: &mut R, count: usize) -> Result<bool, Failed>
    ensures ok { IfOk result (SkipsAll count (R.remaining reader.old) (R.remaining reader.new)) }
    ensures err { OnErr result (SkipsPart count (R.remaining reader.old) (R.remaining reader.new)) }
{
    let mut buffer = [0u8; 4_096];
    let mut left = count;
    while left > 0 {
        let some = left.min(buffer.len());
        let Ok(read) = read_full(reader, &mut buffer[..some]) else {
            return Err(Failed);
        };
        if read < some {
            return Ok(false);
        }
        left -= some;
    }
    Ok(true)
}

/// Reads the rest of a block that has no more than there is room for. It is whole, and its length stands
/// there again, if the block says so.
fn read_short<R: Read>(
    reader: &mut R,
    head: BlockHead,
    have: usize,
    room: &mut [u8],
) -> Result<bool, Failed>
    requires room { length room.old ≡ 262172 }
    requires have { have ≤ head.size }
    requires least { 12 ≤ head.size }
    requires most { head.size ≤ 262172 }
    ensures room { length room.new ≡ 262172 }
    ensures ok { IfOk result
        (λ whole. ReadsRest head (take have room.old) room.new (R.remaining reader.old)
        (R.remaining reader.new) whole) }
    ensures err { OnErr result
        (ReadsNoRest head (take have room.old) (R.remaining reader.old) (R.remaining reader.new)) }
{
    let Ok(count) = read_full(reader, &mut room[have..head.size]) else {
        return Err(Failed);
    };
    if count < head.size - have {
        return Ok(false);
    }
    Ok(read_32(head.order, room, head.size - 4) as usize == head.size)
}

/// Reads the rest of a block that has more than there is room for.
fn read_long<R: Read>(
    reader: &mut R,
    head: BlockHead,
    have: usize,
    room: &mut [u8],
) -> Result<bool, Failed>
    requires room { length room.old ≡ 262172 }
    requires have { have ≤ 262172 }
    requires fours { IsFours head.size }
    requires least { 262172 < head.size }
    ensures room { length room.new ≡ 262172 }
    ensures ok { IfOk result
        (λ whole. ReadsRest head (take have room.old) room.new (R.remaining reader.old)
        (R.remaining reader.new) whole) }
    ensures err { OnErr result
        (ReadsNoRest head (take have room.old) (R.remaining reader.old) (R.remaining reader.new)) }
{
    let Ok(count) = read_full(reader, &mut room[have..]) else {
        return Err(Failed);
    };
    if count < ROOM - have {
        return Ok(false);
    }
    let Ok(skipped) = skip(reader, head.size - ROOM - 4) else {
        return Err(Failed);
    };
    if !skipped {
        return Ok(false);
    }
    let mut again = [0u8; 4];
    let Ok(last) = read_full(reader, &mut again) else {
        return Err(Failed);
    };
    if last < 4 {
        return Ok(false);
    }
    Ok(read_32(head.order, &again, 0) as usize == head.size)
}

/// Reads the rest of a block, of which the room has the first octets. It is whole, and its length stands
/// there again, if the block says so.
fn read_rest<R: Read>(
    reader: &mut R,
    head: BlockHead,
    have: usize,
    room: &mut [u8],
) -> Result<bool, Failed>
    requires room { length room.old ≡ 262172 }
    requires have { have ≤ 262172 }
    requires within { have ≤ head.size }
    requires fours { IsFours head.size }
    requires least { 12 ≤ head.size }
    ensures room { length room.new ≡ 262172 }
    ensures ok { IfOk result
        (λ whole. ReadsRest head (take have room.old) room.new (R.remaining reader.old)
        (R.remaining reader.new) whole) }
    ensures err { OnErr result
        (ReadsNoRest head (take have room.old) (R.remaining reader.old) (R.remaining reader.new)) }
{
    if head.size <= ROOM {
        read_short(reader, head, have, room)
    } else {
        read_long(reader, head, have, room)
    }
}

/// Reads the rest of a block, of which the room has the first octets, and takes it. `None` if it isn't one.
pub(crate) fn finish_block<R: Read>(
    reader: &mut R,
    section: &mut Section,
    head: BlockHead,
    have: usize,
    room: &mut [u8],
) -> Result<Option<Item>, CaptureFault>
    requires room { length room.old ≡ 262172 }
    requires have { have ≤ 262172 }
    requires front { 12 ≤ have }
    requires within { have ≤ head.size }
    requires head { IsBlockHead section.old.order (take have room.old) head }
    ensures room { length room.new ≡ 262172 }
    ensures ok { (unread : Option (List ℕ))
        → Consumes unread (R.remaining reader.old) (take have room.old)
        → IfOk result (IsNextBlock (take have room.old) (section_of section.old)
        (section_of section.new) room.new unread (R.remaining reader.new)) }
    ensures err { (unread : Option (List ℕ))
        → Consumes unread (R.remaining reader.old) (take have room.old)
        → IfErr result (StopsItem (of_section (section_of section.old)) unread
        (R.remaining reader.new)) }
{
    let Ok(whole) = read_rest(reader, head, have, room) else {
        return Err(CaptureFault::CannotRead);
    };
    if !whole {
        return Ok(None);
    }
    match section.take(head, &room[..head.size.min(ROOM)]) {
        Ok(Meaning::Record(packet)) => Ok(Some(Item {
            size: head.size,
            packet: Some(packet),
        })),
        Ok(Meaning::Nothing) => Ok(Some(Item {
            size: head.size,
            packet: None,
        })),
        Ok(Meaning::OutOfForm) => Ok(None),
        Err(_) => Err(CaptureFault::OutOfMemory),
    }
}

/// Reads the next block of a section. Its packet is in the room.
pub(crate) fn read_block<R: Read>(
    reader: &mut R,
    section: &mut Section,
    room: &mut [u8],
) -> Result<Next, CaptureFault>
    requires { length room.old ≡ 262172 }
    ensures room { length room.new ≡ 262172 }
    ensures ok { IfOk result
        (IsNext (of_section (section_of section.old)) (of_section (section_of section.new)) room.new
        (R.remaining reader.old) (R.remaining reader.new)) }
    ensures err { IfErr result
        (StopsItem (of_section (section_of section.old)) (R.remaining reader.old)
        (R.remaining reader.new)) }
{
    let Ok(count) = read_full(reader, &mut room[..FRONT]) else {
        return Err(CaptureFault::CannotRead);
    };
    if count == 0 {
        return Ok(Next::End);
    }
    if count < FRONT {
        return Ok(Next::OutOfForm);
    }
    let Some(head) = read_block_head(section.order, &room[..FRONT]) else {
        return Ok(Next::OutOfForm);
    };
    match finish_block(reader, section, head, FRONT, room) {
        Ok(Some(item)) => Ok(Next::Item(item)),
        Ok(None) => Ok(Next::OutOfForm),
        Err(fault) => Err(fault),
    }
}
