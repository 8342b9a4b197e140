//! The blocks of a capture in pcapng, and what they mean.

ghost use Rattle.std.specs.Prelude.{◌≡◌, ◌≤◌, min, length, IfOk, IfSome, IfNone, OnErr};
ghost use Rattle.capture_files.specs.Formats.{HasNoBlockHead, IsBlockHead, IsMeaning, IsNotPacket, IsPacketHead};
ghost use Rattle.capture_files.specs.Formats.{IsSectionBegun, TakesInterface};
ghost use Rattle.capture_files.specs.declared.interface.Interface.{Interface as InterfaceIs};
ghost use Rattle.capture_files.specs.Pcapng.{IsInterface, begins_section, block_kind, block_order, kind_of};
ghost use Rattle.capture_files.specs.Pcapng.{least_size, section_of};

use crate::field::{Order, read_16_by, read_32};
use crate::interface::{Interface, read_options};
use crate::item::Head;
use crate::pcap::LARGEST;
use std::alloc::AllocError;

/// How much of a block is looked at: the header of a packet, and the most octets of a packet.
pub(crate) const ROOM: usize = 262_172;

/// The kind of the header of a section.
const SECTION: u32 = 0x0a0d_0d0a;

/// The number by which the header of a section tells its order.
const MAGIC: u32 = 0x1a2b_3c4d;

/// The kinds of blocks.
#[derive(Clone, Copy)]
pub(crate) enum Kind {
    /// The header of a section.
    Section,
    /// The description of an interface.
    Interface,
    /// An enhanced packet.
    Packet,
    /// A simple packet, or one of the kind that came before.
    Undated,
    /// What has no packet.
    Other,
}

/// What was read of a section.
#[derive(Drop)]
pub(crate) struct Section {
    /// The order of the octets of all numbers.
    pub(crate) order: Order,
    /// Its interfaces, in their order.
    pub(crate) interfaces: Vec<Interface>,
}

/// What the first octets of a block say.
#[derive(Clone, Copy)]
pub(crate) struct BlockHead {
    /// The order of the octets of its numbers.
    pub(crate) order: Order,
    /// How many octets it has.
    pub(crate) size: usize,
}

/// What a block means.
#[derive(Clone, Copy)]
pub(crate) enum Meaning {
    /// It is a record.
    Record(Head),
    /// It is none.
    Nothing,
    /// It can't be.
    OutOfForm,
}

/// The octets begin with the header of a section. Four octets are looked at.
pub(crate) fn begins_section(octets: &[u8]) -> bool
    ensures { result ≡ begins_section octets.now }
{
    octets.len() >= 4 && read_32(Order::Big, octets, 0) == SECTION
}

/// The order of a block of a section.
fn block_order(section: Order, octets: &[u8]) -> Option<Order>
    requires { 12 ≤ length octets.now }
    ensures { result ≡ block_order section octets.now }
{
    if read_32(Order::Big, octets, 0) != SECTION {
        return Some(section);
    }
    if read_32(Order::Big, octets, 8) == MAGIC {
        return Some(Order::Big);
    }
    if read_32(Order::Little, octets, 8) == MAGIC {
        return Some(Order::Little);
    }
    None
}

/// How many octets a block that begins so has at least.
fn least_size(octets: &[u8]) -> usize
    requires { 12 ≤ length octets.now }
    ensures { result ≡ least_size octets.now }
{
    if read_32(Order::Big, octets, 0) == SECTION {
        28
    } else {
        12
    }
}

/// What the first octets of a block of a section say.
pub(crate) fn read_block_head(section: Order, octets: &[u8]) -> Option<BlockHead>
    requires { 12 ≤ length octets.now }
    ensures found { IfSome result (IsBlockHead section octets.now) }
    ensures none { IfNone result (HasNoBlockHead section octets.now) }
{
    let order = block_order(section, octets)?;
    let size = read_32(order, octets, 4) as usize;
    if size < least_size(octets) || size % 4 != 0 {
        return None;
    }
    Some(BlockHead { order, size })
}

/// The kind of a block that begins no section.
fn kind_of(number: u32) -> Kind
    ensures { result ≡ kind_of number }
{
    match number {
        1 => Kind::Interface,
        6 => Kind::Packet,
        2 | 3 => Kind::Undated,
        _ => Kind::Other,
    }
}

/// The kind of a block.
fn block_kind(order: Order, octets: &[u8]) -> Kind
    requires { 12 ≤ length octets.now }
    ensures { result ≡ block_kind order octets.now }
{
    if read_32(Order::Big, octets, 0) == SECTION {
        return Kind::Section;
    }
    kind_of(read_32(order, octets, 0))
}

/// A record of which only that is reported that it has no timestamp.
const UNDATED: Head = Head {
    link: 0,
    moment: None,
    micros: 0,
    at: 0,
    size: 0,
    original: 0,
};

/// What the description of an interface says, of which this is the front.
fn read_interface(head: BlockHead, front: &[u8]) -> Option<Interface>
    requires front { length front.now ≡ min head.size 262172 }
    requires least { 12 ≤ head.size }
    ensures found { IfSome result (IsInterface head.order front.now head.size) }
    ensures none { IfNone result ((i : InterfaceIs)
        → IsInterface head.order front.now head.size i → ⊥) }
{
    if head.size < 20 || head.size > ROOM {
        return None;
    }
    let plain = Interface::plain(read_16_by(head.order, front, 8));
    Some(read_options(head.order, &front[16..head.size - 4], plain))
}

impl Section {
    /// Takes a block of a section, of which this is the front.
    ///
    /// The error is out of memory for an interface.
    pub(crate) fn take(&mut self, head: BlockHead, front: &[u8]) -> Result<Meaning, AllocError>
        requires front { length front.now ≡ min head.size 262172 }
        requires least { least_size front.now ≤ head.size }
        ensures ok { IfOk result
            (IsMeaning (section_of self.old) head.order front.now head.size (section_of self.new)) }
        ensures err { OnErr result (TakesInterface
            (section_of self.old) head.order front.now head.size) }
    {
        match block_kind(head.order, front) {
            Kind::Section => Ok(self.begin(head.order, front)),
            Kind::Interface => match read_interface(head, front) {
                Some(interface) => {
                    self.interfaces.push(interface)?;
                    Ok(Meaning::Nothing)
                }
                None => Ok(Meaning::OutOfForm),
            },
            Kind::Packet => match self.read_packet(head, front) {
                Some(packet) => Ok(Meaning::Record(packet)),
                None => Ok(Meaning::OutOfForm),
            },
            Kind::Undated => Ok(Meaning::Record(UNDATED)),
            Kind::Other => Ok(Meaning::Nothing),
        }
    }

    /// Begins another section.
    fn begin(&mut self, order: Order, front: &[u8]) -> Meaning
        requires { 28 ≤ length front.now }
        ensures { IsSectionBegun order front.now (section_of self.new) result }
    {
        if read_16_by(order, front, 12) != 1 {
            return Meaning::OutOfForm;
        }
        self.order = order;
        self.interfaces.clear();
        Meaning::Nothing
    }

    /// What an enhanced packet says, of which this is the front.
    fn read_packet(&self, head: BlockHead, front: &[u8]) -> Option<Head>
        requires front { length front.now ≡ min head.size 262172 }
        requires least { 12 ≤ head.size }
        ensures found { IfSome result (IsPacketHead
            (section_of self.now) head.order front.now head.size) }
        ensures none { IfNone result (IsNotPacket
            (section_of self.now) head.order front.now head.size) }
    {
        if head.size < 32 {
            return None;
        }
        let number = read_32(head.order, front, 8) as usize;
        let interface = self.interfaces.get(number)?;
        let size = read_32(head.order, front, 20) as usize;
        if size > head.size - 32 || size > LARGEST {
            return None;
        }
        let high = u64::from(read_32(head.order, front, 12));
        let low = u64::from(read_32(head.order, front, 16));
        Some(Head {
            link: interface.link,
            moment: interface.moment(high * 4_294_967_296 + low),
            micros: interface.micros(high * 4_294_967_296 + low),
            at: 28,
            size,
            original: read_32(head.order, front, 24),
        })
    }
}
