//! Numbers that stand in octets, big-endian (RFC 1035 2.3.2).

pub mod compare;

ghost use Rattle.std.specs.Prelude.{◌≡◌, ◌+◌, ◌≤◌, length};
ghost use Rattle.dnsv_names.specs.Octets.{number_at};

use byteorder::{BigEndian, ByteOrder};

/// The number in the two octets at the place, the highest first.
pub fn u16_at(octets: &[u8], place: usize) -> u16
    requires { place + 2 ≤ length octets.now }
    ensures { result ≡ number_at octets.now place 2 }
{
    BigEndian::read_u16(&octets[place..])
}

/// The number in the four octets at the place, the highest first.
pub fn u32_at(octets: &[u8], place: usize) -> u32
    requires { place + 4 ≤ length octets.now }
    ensures { result ≡ number_at octets.now place 4 }
{
    BigEndian::read_u32(&octets[place..])
}

/// The number in the six octets at the place, the highest first.
pub fn u48_at(octets: &[u8], place: usize) -> u64
    requires { place + 6 ≤ length octets.now }
    ensures { result ≡ number_at octets.now place 6 }
{
    BigEndian::read_u48(&octets[place..])
}

/// The number in the eight octets at the place, the highest first.
pub fn u64_at(octets: &[u8], place: usize) -> u64
    requires { place + 8 ≤ length octets.now }
    ensures { result ≡ number_at octets.now place 8 }
{
    BigEndian::read_u64(&octets[place..])
}
