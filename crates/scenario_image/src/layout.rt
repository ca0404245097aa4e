//! How many bytes the layout of an image takes.
ghost use Rattle.std.specs.Prelude.{◌≡◌, ◌↔◌, ◌≤◌, ◌<◌, ◌+◌, ◌*◌, ℕ, IsTrue, IfSome, IfNone, length, drop};
ghost use Rattle.byteorder.specs.Endian.{big_number};
ghost use Rattle.scenario_image.specs.Layout.{node_count as nodes_in, link_count as links_in, flow_count as flows_in, route_count as routes_in, version_of as version_in, link_size as size_of_link, links_size as size_of_links, flow_size as size_of_flow, layout_size};

use crate::version::Version;
use byteorder::{BigEndian, ByteOrder};

/// The bytes of the header.
pub const HEADER: usize = 22;

/// The bytes of a link without its lost packets.
pub const LINK: usize = 42;

/// The bytes of a link's target, interval and maxpacket, which are 0 with drop-tail.
pub const CODEL: usize = 18;

/// Which of a link's bytes counts its lost packets: the last but these.
pub const LOST_COUNT: usize = 41;

/// The bytes of the number of a lost packet.
pub const LOST: usize = 4;

/// The bytes of a flow without its variant.
pub const FLOW: usize = 26;

/// The bytes of a flow's variant, in version 2.
pub const VARIANT: usize = 1;

/// The bytes of a route.
pub const ROUTE: usize = 6;

/// The bytes behind the first of them.
pub(crate) fn behind(bytes: &[u8], first: usize) -> &[u8]
    requires { first ≤ length bytes.now }
    ensures { result.now ≡ drop first bytes.now }
{
    &bytes[first..]
}

/// The number of two bytes behind the first of them.
pub fn short_at(bytes: &[u8], first: usize) -> u16
    requires { first + 2 ≤ length bytes.now }
    ensures { result ≡ big_number 2 (drop first bytes.now) }
{
    BigEndian::read_u16(behind(bytes, first))
}

/// The number of four bytes behind the first of them.
pub(crate) fn number_at(bytes: &[u8], first: usize) -> u32
    requires { first + 4 ≤ length bytes.now }
    ensures { result ≡ big_number 4 (drop first bytes.now) }
{
    BigEndian::read_u32(behind(bytes, first))
}

/// The number of eight bytes behind the first of them.
pub fn long_at(bytes: &[u8], first: usize) -> u64
    requires { first + 8 ≤ length bytes.now }
    ensures { result ≡ big_number 8 (drop first bytes.now) }
{
    BigEndian::read_u64(behind(bytes, first))
}

/// The version whose layout is judged: the second exactly where the fourth byte is `2`.
pub fn version_of(bytes: &[u8]) -> Version
    requires { HEADER ≤ length bytes.now }
    ensures { result ≡ version_in bytes.now }
{
    if bytes[3] == b'2' {
        Version::Two
    } else {
        Version::One
    }
}

/// How many nodes an image has by its header.
pub fn node_count(bytes: &[u8]) -> usize
    requires { HEADER ≤ length bytes.now }
    ensures value { result ≡ nodes_in bytes.now }
    ensures bound { result < 65536 }
{
    usize::from(short_at(bytes, 12))
}

/// How many links an image has by its header.
pub fn link_count(bytes: &[u8]) -> usize
    requires { HEADER ≤ length bytes.now }
    ensures value { result ≡ links_in bytes.now }
    ensures bound { result < 65536 }
{
    usize::from(short_at(bytes, 14))
}

/// How many flows an image has by its header.
pub fn flow_count(bytes: &[u8]) -> usize
    requires { HEADER ≤ length bytes.now }
    ensures value { result ≡ flows_in bytes.now }
    ensures bound { result < 65536 }
{
    usize::from(short_at(bytes, 16))
}

/// How many routes an image has by its header.
pub fn route_count(bytes: &[u8]) -> usize
    requires { HEADER ≤ length bytes.now }
    ensures value { result ≡ routes_in bytes.now }
    ensures bound { result < 4294967296 }
{
    number_at(bytes, 18) as usize
}

/// The bytes that the link at the front takes.
pub(crate) fn link_size(bytes: &[u8]) -> usize
    requires { LINK ≤ length bytes.now }
    ensures value { result ≡ size_of_link bytes.now }
    ensures bound { result ≤ LINK + LOST * 255 }
{
    LINK + LOST * usize::from(bytes[LOST_COUNT])
}

/// The bytes that a flow takes.
pub fn flow_size(version: Version) -> usize
    ensures { result ≡ size_of_flow version }
{
    match version {
        Version::One => FLOW,
        Version::Two => FLOW + VARIANT,
    }
}

/// The bytes that so many flows take.
pub(crate) fn flows_size(version: Version, count: usize) -> usize
    requires { count < 65536 }
    ensures value { result ≡ size_of_flow version * count }
    ensures bound { result < (FLOW + VARIANT) * 65536 }
{
    match version {
        Version::One => FLOW * count,
        Version::Two => (FLOW + VARIANT) * count,
    }
}

/// The bytes behind so many links, if there are enough bytes for these.
fn after_links(count: usize, bytes: &[u8]) -> Option<&[u8]>
    ensures some { IfSome result (λ rest. size_of_links count bytes.now + length rest.now ≡ length bytes.now) }
    ensures none { IfNone result (length bytes.now < size_of_links count bytes.now) }
{
    let mut rest = bytes;
    for _ in 0..count {
        if rest.len() < LINK {
            return None;
        }
        let size = link_size(rest);
        if rest.len() < size {
            return None;
        }
        rest = behind(rest, size);
    }
    Some(rest)
}

/// Whether there are as many bytes as the layout takes, by the counts in them as they stand.
pub(crate) fn has_its_layout(bytes: &[u8]) -> bool
    ensures { IsTrue result ↔ (layout_size bytes.now ≤ length bytes.now) }
{
    if bytes.len() < HEADER {
        return false;
    }
    let nodes = node_count(bytes);
    if bytes.len() - HEADER < nodes {
        return false;
    }
    match after_links(link_count(bytes), behind(bytes, HEADER + nodes)) {
        Some(rest) => {
            let flows = flows_size(version_of(bytes), flow_count(bytes));
            flows + ROUTE * route_count(bytes) <= rest.len()
        }
        None => false,
    }
}
