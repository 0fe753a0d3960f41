//! Whether a signature is valid at some moment of a range.
ghost use Rattle.std.specs.Prelude.{◌↔◌, ◌⊎◌, ◌<◌, ◌≤◌, IsTrue};
ghost use Rattle.dnsv_records.specs.Rrsig.Time.{seconds_on};
ghost use Rattle.dnsv_timeline.specs.Points.{IsValidWithin};

use crate::points::{Window, seconds_since, window_of};
use crate::range::Range;
use crate::times::Times;

/// Whether a signature with the times is valid at some moment of the range (RFC 4034 3.1.5): at its first, or because it
/// begins to be valid at a later one.
pub fn is_valid_within(times: Times, range: Range) -> bool
    ensures { IsTrue result ↔ IsValidWithin times range.from range.to }
{
    let Some(window) = window_of(times) else {
        return false;
    };
    let since = seconds_since(times.inception.0, range.from());
    is_met(window, since, range.to() - range.from())
}

/// Whether the signature is valid so many seconds behind its inception, or from fewer than so many seconds later on.
fn is_met(window: Window, since: u32, seconds: u64) -> bool
    ensures { IsTrue result ↔ (((window.start ≤ since) × (since < window.end))
        ⊎ (seconds_on since window.start ≤ seconds)) }
{
    if window.start <= since && since < window.end {
        return true;
    }
    u64::from(window.start.wrapping_sub(since)) <= seconds
}
