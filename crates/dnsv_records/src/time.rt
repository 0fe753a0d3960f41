//! The times of a signature (RFC 4034 3.1.5).
ghost use Rattle.std.specs.Prelude.{IsTrue, ◌↔◌};
ghost use Rattle.dnsv_records.specs.Rrsig.Time.{ValidAt};

/// The first moment at which a signature is valid, in seconds since 1970, modulo 2^32 (RFC 4034 3.1.5).
#[derive(Clone, Copy, Debug, PartialEq, Eq, Hash)]
pub struct Inception(pub u32);

/// The last moment at which a signature is valid, in seconds since 1970, modulo 2^32 (RFC 4034 3.1.5).
#[derive(Clone, Copy, Debug, PartialEq, Eq, Hash)]
pub struct Expiration(pub u32);

/// Half of the circle of serial numbers of 32 bits.
const HALF: u32 = 0x8000_0000;

/// Whether a signature with these times is valid at the moment, all in seconds since 1970.
///
/// The times are serial numbers of 32 bits (RFC 1982 3.2, RFC 4034 3.1.5): the moment is at most
/// 2^31 - 1 seconds past the inception, and the expiration at most as many past the moment.
/// A distance of exactly 2^31 seconds, which RFC 1982 leaves open, is invalid.
pub fn time_valid(inception: Inception, expiration: Expiration, moment: u64) -> bool
    ensures { IsTrue result ↔ ValidAt inception.0 expiration.0 moment }
{
    let now = (moment % (1 << 32)) as u32;
    now.wrapping_sub(inception.0) < HALF && expiration.0.wrapping_sub(now) < HALF
}
