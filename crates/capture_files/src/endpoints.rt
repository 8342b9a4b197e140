//! From whom a datagram is, and to whom.

ghost use Rattle.std.specs.Prelude.{◌≡◌, ◌+◌, ◌≤◌, length, slice_range, true, IfNone, IfSome};
ghost use Rattle.capture_files.specs.Packet.{FindsIpv4, FindsIpv6};
ghost use Rattle.capture_files.specs.Routes.{HasNoDatagram, IsAddressV4, IsAddressV6, IsNone, IsRoute4};
ghost use Rattle.capture_files.specs.Routes.{IsRoute6, IsRouteOf};
ghost use Rattle.capture_files.specs.declared.packet.Found.{Found as FoundIs};

use crate::packet::{Found, Network, find_in_ipv4, find_in_ipv6, unframe};
use std::net::{IpAddr, Ipv4Addr, Ipv6Addr, SocketAddr};

/// The ports of SNMP: of requests, and of notifications (RFC 3417, section 3.1).
pub const SNMP_PORTS: [u16; 2] = [161, 162];

/// From whom a datagram is, and to whom: addresses of IP with ports of UDP.
#[derive(Clone, Copy, Debug, PartialEq, Eq, Hash)]
pub struct Route {
    pub from: SocketAddr,
    pub to: SocketAddr,
}

impl Route {
    /// The way back.
    pub fn back(self) -> Route
        ensures from { result.from ≡ self.to }
        ensures to { result.to ≡ self.from }
    {
        Route {
            from: self.to,
            to: self.from,
        }
    }
}

/// From whom the datagram of a packet is, and to whom, if the packet on a link of this type (a number of LINKTYPE)
/// has a whole datagram.
pub fn route_of(link: u16, packet: &[u8]) -> Option<Route>
    ensures found { IfSome result (IsRouteOf link packet.now) }
    ensures none { IfNone result (HasNoDatagram link packet.now) }
{
    match unframe(u32::from(link), packet) {
        Network::Ipv4(octets) => route_in_ipv4(octets),
        Network::Ipv6(octets) => route_in_ipv6(octets),
        Network::NotIp => None,
        Network::OtherLink => None,
    }
}

/// The route of the datagram of a packet of IPv4 (RFC 791, section 3.1).
fn route_in_ipv4(octets: &[u8]) -> Option<Route>
    ensures found { IfSome result (IsRoute4 octets.now) }
    ensures none { IfNone result ((f : FoundIs) × FindsIpv4 octets.now true f × IsNone f) }
{
    let found = find_in_ipv4(octets, true);
    let Found::Datagram {
        source,
        destination,
        ..
    } = found
    else {
        return None;
    };
    Some(Route {
        from: SocketAddr::new(address_v4(octets, 12), source),
        to: SocketAddr::new(address_v4(octets, 16), destination),
    })
}

/// The route of the datagram of a packet of IPv6 (RFC 8200, section 3).
fn route_in_ipv6(octets: &[u8]) -> Option<Route>
    ensures found { IfSome result (IsRoute6 octets.now) }
    ensures none { IfNone result ((f : FoundIs) × FindsIpv6 octets.now true f × IsNone f) }
{
    let found = find_in_ipv6(octets, true);
    let Found::Datagram {
        source,
        destination,
        ..
    } = found
    else {
        return None;
    };
    Some(Route {
        from: SocketAddr::new(address_v6(octets, 8), source),
        to: SocketAddr::new(address_v6(octets, 24), destination),
    })
}

/// The address of IPv4 at this place.
fn address_v4(octets: &[u8], at: usize) -> IpAddr
    requires { at + 4 ≤ length octets.now }
    ensures { IsAddressV4 (slice_range octets.now at (at + 4)) result }
{
    let mut address = [0; 4];
    address.copy_from_slice(&octets[at..at + 4]);
    IpAddr::V4(Ipv4Addr::from_octets(address))
}

/// The address of IPv6 at this place.
fn address_v6(octets: &[u8], at: usize) -> IpAddr
    requires { at + 16 ≤ length octets.now }
    ensures { IsAddressV6 (slice_range octets.now at (at + 16)) result }
{
    let mut address = [0; 16];
    address.copy_from_slice(&octets[at..at + 16]);
    IpAddr::V6(Ipv6Addr::from_octets(address))
}
