//! The datagram of a packet: the frame of its link, IP and UDP.

ghost use Rattle.std.specs.Prelude.{◌≡◌, ◌+◌, ◌≤◌, length, take, drop};
ghost use Rattle.capture_files.specs.Packet.{FindsIpv4, FindsIpv6, FindsUdp, IsFound, IsFramed, IsNetwork, IsRaw};
ghost use Rattle.capture_files.specs.Packet.{IsUntagged, WalksTo, is_extension, is_piece, is_tag, next_place};

use crate::field::read_16;

/// The type of a frame that has IPv4 in it.
const IPV4: u16 = 0x0800;

/// The type of a frame that has IPv6 in it.
const IPV6: u16 = 0x86dd;

/// The number of UDP among the protocols over IP.
const UDP: u8 = 17;

/// What a packet is to those who look for datagrams. Places and numbers are those of the first UDP header.
#[derive(Clone, Copy, Debug, PartialEq, Eq)]
pub enum Found<'a> {
    /// A UDP datagram, whole.
    Datagram {
        source: u16,
        destination: u16,
        octets: &'a [u8],
    },
    /// A piece of a UDP datagram.
    Fragment,
    /// A UDP datagram that doesn't stand whole in the packet, or an IP header that doesn't.
    CutShort,
    /// A UDP length below 8, or over what IP has.
    BadLength,
    /// Another protocol over IP.
    NotUdp,
    /// No IP.
    NotIp,
    /// A link whose frames aren't known here.
    OtherLink,
}

/// What the frame of a link has in it.
#[derive(Clone, Copy, Debug, PartialEq, Eq)]
pub(crate) enum Network<'a> {
    Ipv4(&'a [u8]),
    Ipv6(&'a [u8]),
    NotIp,
    OtherLink,
}

/// The datagram of a packet on a link of this type (the numbers of LINKTYPE), or what the packet is in its
/// place. `whole` says that the packet wasn't cut when it was captured.
///
/// Links are Ethernet (1) with any tags of virtual LANs, raw IP (101), and both cooked kinds of Linux (113,
/// 276). Sums over octets aren't looked at.
pub fn find_datagram(link: u32, packet: &[u8], whole: bool) -> Found<'_>
    ensures { IsFound link packet.now whole result }
{
    match unframe(link, packet) {
        Network::Ipv4(octets) => find_in_ipv4(octets, whole),
        Network::Ipv6(octets) => find_in_ipv6(octets, whole),
        Network::NotIp => Found::NotIp,
        Network::OtherLink => Found::OtherLink,
    }
}

/// What the frame of a link has in it.
pub(crate) fn unframe(link: u32, packet: &[u8]) -> Network<'_>
    ensures { IsNetwork link packet.now result }
{
    match link {
        1 => after_header(packet, 12, 14),
        101 => raw(packet),
        113 => after_header(packet, 14, 16),
        276 => after_header(packet, 0, 20),
        _ => Network::OtherLink,
    }
}

/// What follows a header of so many octets, whose type is at a place.
fn after_header(packet: &[u8], place: usize, head: usize) -> Network<'_>
    requires { place + 2 ≤ head }
    ensures { IsFramed packet.now place head result }
{
    if packet.len() < head {
        return Network::NotIp;
    }
    let (kind, octets) = untag(read_16(packet, place), &packet[head..]);
    if kind == IPV4 {
        return Network::Ipv4(octets);
    }
    if kind == IPV6 {
        return Network::Ipv6(octets);
    }
    Network::NotIp
}

/// The type and the octets behind all tags of virtual LANs (IEEE 802.1Q), each of a type and 4 octets.
fn untag(first: u16, behind: &[u8]) -> (u16, &[u8])
    ensures { IsUntagged first behind.now result.0 result.1.now }
{
    let mut kind = first;
    let mut octets = behind;
    while is_tag(kind) && octets.len() >= 4 {
        kind = read_16(octets, 2);
        octets = octets.split_at(4).1;
    }
    (kind, octets)
}

/// The type is that of a tag.
fn is_tag(kind: u16) -> bool
    ensures { result ≡ is_tag kind }
{
    kind == 0x8100 || kind == 0x88a8
}

/// IP without a frame, by the version that it begins with.
fn raw(packet: &[u8]) -> Network<'_>
    ensures { IsRaw packet.now result }
{
    let [first, ..] = packet else {
        return Network::NotIp;
    };
    match first / 16 {
        4 => Network::Ipv4(packet),
        6 => Network::Ipv6(packet),
        _ => Network::NotIp,
    }
}

/// The datagram of a packet of IPv4 (RFC 791, section 3.1).
pub(crate) fn find_in_ipv4(octets: &[u8], whole: bool) -> Found<'_>
    ensures { FindsIpv4 octets.now whole result }
{
    if octets.len() < 20 {
        return if whole { Found::NotIp } else { Found::CutShort };
    }
    let head = usize::from(octets[0] % 16) * 4;
    let total = usize::from(read_16(octets, 2));
    if octets[0] / 16 != 4 || head < 20 || total < head {
        return Found::NotIp;
    }
    if octets[9] != UDP {
        return Found::NotUdp;
    }
    if read_16(octets, 6) % 16_384 != 0 {
        return Found::Fragment;
    }
    find_in_udp(behind(front(octets, total), head), total - head)
}

/// The octets up to a place, as far as there are any.
fn front(octets: &[u8], to: usize) -> &[u8]
    ensures { result.now ≡ take to octets.now }
{
    &octets[..to.min(octets.len())]
}

/// The octets from a place on, if there are any.
fn behind(octets: &[u8], from: usize) -> &[u8]
    ensures { result.now ≡ drop from octets.now }
{
    &octets[from.min(octets.len())..]
}

/// The datagram of a packet of IPv6 (RFC 8200, section 3).
pub(crate) fn find_in_ipv6(octets: &[u8], whole: bool) -> Found<'_>
    ensures { FindsIpv6 octets.now whole result }
{
    if octets.len() < 40 {
        return if whole { Found::NotIp } else { Found::CutShort };
    }
    if octets[0] / 16 != 6 {
        return Found::NotIp;
    }
    let size = usize::from(read_16(octets, 4));
    let packet = front(octets, 40 + size);
    match follow(packet) {
        Walk::Udp(at) => find_in_udp(behind(packet, at), (40 + size).saturating_sub(at)),
        Walk::Fragment => Found::Fragment,
        Walk::Other => Found::NotUdp,
        Walk::Ends => if whole {
            Found::NotUdp
        } else {
            Found::CutShort
        },
    }
}

/// Where an extension header of IPv6 begins, or what follows the last, and its kind.
#[derive(Clone, Copy, Debug, PartialEq, Eq)]
pub(crate) struct Place {
    pub(crate) kind: u8,
    pub(crate) at: usize,
}

/// Where the extension headers of a packet of IPv6 lead.
#[derive(Clone, Copy, Debug, PartialEq, Eq)]
pub(crate) enum Walk {
    /// To UDP, at this place.
    Udp(usize),
    /// To a piece of UDP.
    Fragment,
    /// To another protocol.
    Other,
    /// Beyond the octets.
    Ends,
}

/// Walks over the extension headers of a packet of IPv6 (RFC 8200, section 4).
fn follow(packet: &[u8]) -> Walk
    requires at_least { 40 ≤ length packet.now }
    requires at_most { length packet.now ≤ 65575 }
    ensures { WalksTo packet.now result }
{
    let mut place = Place {
        kind: packet[6],
        at: 40,
    };
    while is_extension(place.kind) {
        if place.at + 8 > packet.len() {
            return Walk::Ends;
        }
        if is_piece(packet, place) {
            return if packet[place.at] == UDP {
                Walk::Fragment
            } else {
                Walk::Other
            };
        }
        place = next_place(packet, place);
    }
    if place.kind == UDP {
        Walk::Udp(place.at)
    } else {
        Walk::Other
    }
}

/// The kind is that of an extension header that is skipped: hop by hop, routing, fragment or destination.
fn is_extension(kind: u8) -> bool
    ensures { result ≡ is_extension kind }
{
    kind == 0 || kind == 43 || kind == 44 || kind == 60
}

/// There is a fragment header, and it is that of a piece: it has an offset, or more pieces come.
fn is_piece(packet: &[u8], place: Place) -> bool
    requires { place.at + 8 ≤ length packet.now }
    ensures { result ≡ is_piece packet.now place }
{
    let field = read_16(packet, place.at + 2);
    place.kind == 44 && (field / 8 != 0 || field % 2 != 0)
}

/// What follows an extension header.
fn next_place(packet: &[u8], place: Place) -> Place
    requires inside { place.at + 8 ≤ length packet.now }
    requires at_most { length packet.now ≤ 65575 }
    ensures { result ≡ next_place packet.now place }
{
    let size = if place.kind == 44 {
        8
    } else {
        8 * (usize::from(packet[place.at + 1]) + 1)
    };
    Place {
        kind: packet[place.at],
        at: place.at + size,
    }
}

/// The datagram of what IP has in it, which says that there are so many octets (RFC 768).
fn find_in_udp(octets: &[u8], size: usize) -> Found<'_>
    ensures { FindsUdp octets.now size result }
{
    if size < 8 {
        return Found::BadLength;
    }
    if octets.len() < 8 {
        return Found::CutShort;
    }
    let length = usize::from(read_16(octets, 4));
    if length < 8 || length > size {
        return Found::BadLength;
    }
    if length > octets.len() {
        return Found::CutShort;
    }
    Found::Datagram {
        source: read_16(octets, 0),
        destination: read_16(octets, 2),
        octets: &octets[8..length],
    }
}
