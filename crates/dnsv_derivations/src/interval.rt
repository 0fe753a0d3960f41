//! From when to when signatures are valid.
ghost use Rattle.std.specs.Prelude.{◌≡◌, All, max, min};
ghost use Rattle.dnsv_records.specs.Rrsig.Time.{ValidAt, seconds_on};
ghost use Rattle.dnsv_derivations.specs.intervals.Holding.{IsHolding};
ghost use Rattle.dnsv_derivations.specs.intervals.Reach.{IsReach};

use dnsv_lines::Interval;
use dnsv_records::{Expiration, Inception};

/// The last moment that can be asked of: 48 bits of seconds since 1970, as TSIG has them (RFC 8945 4.2).
const LAST_MOMENT: u64 = 281_474_976_710_655;

/// Half of the circle of serial numbers of 32 bits.
pub const HALF: u32 = 0x8000_0000;

/// When a signature is valid (RFC 4034 3.1.5).
#[derive(Clone, Copy, Debug)]
pub struct Times {
    pub inception: Inception,
    pub expiration: Expiration,
}

/// The greatest interval of moments around this one in which each of the signatures is valid: up to 281474976710655,
/// or to the moment where that is greater. All are valid at the moment.
pub fn holding(signatures: &[Times], moment: u64) -> Interval
    requires { All (λ times. ValidAt times.inception.0 times.expiration.0 moment) signatures.now }
    ensures { IsHolding signatures.now moment result }
{
    let mut interval = Interval {
        from: 0,
        to: moment.max(LAST_MOMENT),
    };
    for times in signatures {
        interval = within(interval, reach(*times, moment));
    }
    interval
}

/// The moments that both have.
fn within(interval: Interval, other: Interval) -> Interval
    ensures from { result.from ≡ max interval.from other.from }
    ensures to { result.to ≡ min interval.to other.to }
{
    Interval {
        from: interval.from.max(other.from),
        to: interval.to.min(other.to),
    }
}

/// The greatest interval around the moment in which the signature is valid, cut to the numbers of 64 bits. Where the
/// inception and the expiration are half a circle apart or more, a moment too far from one of them isn't valid although
/// it lies between them.
fn reach(times: Times, moment: u64) -> Interval
    requires { ValidAt times.inception.0 times.expiration.0 moment }
    ensures { IsReach times moment result }
{
    let since = seconds_since(times.inception.0, moment);
    let left = seconds_left(times.expiration.0, moment);
    let before = since.min((HALF - 1).saturating_sub(left));
    let behind = left.min((HALF - 1).saturating_sub(since));
    Interval {
        from: moment.saturating_sub(u64::from(before)),
        to: moment.saturating_add(u64::from(behind)),
    }
}

/// How many seconds the moment is behind the time, around the circle.
pub fn seconds_since(time: u32, moment: u64) -> u32
    ensures { result ≡ seconds_on time moment }
{
    let now = (moment % (1 << 32)) as u32;
    now.wrapping_sub(time)
}

/// How many seconds the time is behind the moment, around the circle.
pub fn seconds_left(time: u32, moment: u64) -> u32
    ensures { result ≡ seconds_on moment time }
{
    let now = (moment % (1 << 32)) as u32;
    time.wrapping_sub(now)
}
