//! Numbers of several octets in a header.

ghost use Rattle.std.specs.Prelude.{◌≡◌, ◌+◌, ◌≤◌, length};
ghost use Rattle.capture_files.specs.Field.{field16, field16_by, field32, field64};

/// Which octet of a number comes first.
#[derive(Clone, Copy, Debug, PartialEq, Eq)]
pub enum Order {
    /// The highest, as in the headers of packets.
    Big,
    /// The lowest.
    Little,
}

/// The number of two octets at a place, the higher first.
pub(crate) fn read_16(octets: &[u8], at: usize) -> u16
    requires { at + 2 ≤ length octets.now }
    ensures { result ≡ field16 octets.now at }
{
    u16::from(octets[at]) * 256 + u16::from(octets[at + 1])
}

/// The number of two octets at a place, in this order.
pub fn read_16_by(order: Order, octets: &[u8], at: usize) -> u16
    requires { at + 2 ≤ length octets.now }
    ensures { result ≡ field16_by order octets.now at }
{
    match order {
        Order::Big => read_16(octets, at),
        Order::Little => u16::from(octets[at + 1]) * 256 + u16::from(octets[at]),
    }
}

/// The number of four octets at a place, in this order.
pub fn read_32(order: Order, octets: &[u8], at: usize) -> u32
    requires { at + 4 ≤ length octets.now }
    ensures { result ≡ field32 order octets.now at }
{
    let four = [octets[at], octets[at + 1], octets[at + 2], octets[at + 3]];
    match order {
        Order::Big => u32::from_be_bytes(four),
        Order::Little => u32::from_le_bytes(four),
    }
}

/// The number of eight octets at a place, in this order.
pub fn read_64(order: Order, octets: &[u8], at: usize) -> u64
    requires { at + 8 ≤ length octets.now }
    ensures { result ≡ field64 order octets.now at }
{
    let first = u64::from(read_32(order, octets, at));
    let second = u64::from(read_32(order, octets, at + 4));
    match order {
        Order::Big => first * 4_294_967_296 + second,
        Order::Little => second * 4_294_967_296 + first,
    }
}
