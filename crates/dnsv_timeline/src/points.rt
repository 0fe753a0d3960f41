//! Points of change: where the validity of a signature begins or ends.
ghost use Rattle.std.specs.Prelude.{◌≡◌, ◌-◌, ℕ, IfOk, MatchOption, OnOk};
ghost use Rattle.dnsv_records.specs.Rrsig.Time.{seconds_on};
ghost use Rattle.dnsv_timeline.specs.Points.{ArePoints, IsValidAt};
ghost use Rattle.dnsv_timeline.specs.Window.{AddsBehind, AddsChanges, AreChanges, IsWindow};

use crate::range::Range;
use crate::times::Times;
use std::alloc::{AllocError, Global};

/// Half of the circle of serial numbers of 32 bits (RFC 1982 3.2).
const HALF: u32 = 0x8000_0000;

/// The moments of the range, its first left out, at which one of the signatures begins to be valid or is valid no more
/// (RFC 4034 3.1.5), each once, rising. From one of them to before the next, what is valid stays the same.
pub fn points_of_change(
    alloc: Global,
    range: Range,
    signatures: &[Times],
) -> Result<Vec<u64>, AllocError>
    ensures { IfOk result (λ points. ArePoints range.from range.to signatures.now points.items) }
{
    let mut moments = all_changes(alloc, range, signatures)?;
    moments.sort_unstable();
    moments.dedup();
    Ok(moments)
}

/// The same, once for each signature that changes there, in any order.
fn all_changes(alloc: Global, range: Range, signatures: &[Times]) -> Result<Vec<u64>, AllocError>
    ensures { IfOk result (λ moments. AreChanges range.from range.to signatures.now moments.items) }
{
    let mut moments = Vec::new(alloc);
    for times in signatures {
        push_changes(&mut moments, range, *times)?;
    }
    Ok(moments)
}

/// Adds the moments at which the signature changes.
fn push_changes(moments: &mut Vec<u64>, range: Range, times: Times) -> Result<(), AllocError>
    ensures { OnOk result (AddsChanges range.from range.to times moments.old.items moments.new.items) }
{
    let Some(window) = window_of(times) else {
        return Ok(());
    };
    let since = seconds_since(times.inception.0, range.from());
    push_behind(moments, range, window.start.wrapping_sub(since))?;
    push_behind(moments, range, window.end.wrapping_sub(since))
}

/// Adds the moment so many seconds behind the first one of the range, if it is another one of it.
fn push_behind(moments: &mut Vec<u64>, range: Range, seconds: u32) -> Result<(), AllocError>
    ensures { OnOk result (AddsBehind range.from (range.to - range.from) seconds moments.old.items moments.new.items) }
{
    if seconds == 0 || u64::from(seconds) > range.to() - range.from() {
        return Ok(());
    }
    moments.push(range.from() + u64::from(seconds))?;
    Ok(())
}

/// When a signature is valid, in seconds behind its inception.
#[derive(Clone, Copy)]
pub(crate) struct Window {
    /// The first of them.
    pub(crate) start: u32,
    /// The first behind them.
    pub(crate) end: u32,
}

/// When the signature is valid; `None` where it never is. One that ends half of the circle behind its inception or
/// further is valid at moments that are less than half of it behind the inception, and less than half before the
/// expiration.
pub(crate) fn window_of(times: Times) -> Option<Window>
    ensures { MatchOption result ((moment : ℕ) → ¬ IsValidAt times moment)
        (λ window. IsWindow times window.start window.end) }
{
    let length = times.expiration.0.wrapping_sub(times.inception.0);
    if length < HALF {
        return Some(Window {
            start: 0,
            end: length + 1,
        });
    }
    if length == u32::MAX {
        return None;
    }
    Some(Window {
        start: length - HALF + 1,
        end: HALF,
    })
}

/// How many seconds the moment is behind the time, around the circle.
pub(crate) fn seconds_since(time: u32, moment: u64) -> u32
    ensures { result ≡ seconds_on time moment }
{
    let now = (moment % (1 << 32)) as u32;
    now.wrapping_sub(time)
}
