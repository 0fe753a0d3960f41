//! From when to when the signatures are valid that lines show.
ghost use Rattle.std.specs.Prelude.{◌≡◌, [], IfOk, MatchOption, OnOk};
ghost use Rattle.dnsv_verifier.specs.Asking.{AddsJust, ComesOfSome};
ghost use Rattle.dnsv_derivations.specs.intervals.Holding.{AreShownValidAt, HasTimes, IsHoldingOf, ShowsTimes, signature_shown};

use crate::interval::{Times, holding};
use dnsv_canonical::{Capture, Rrset, SignatureNumber, numbered};
use dnsv_lines::{Interval, Line};
use std::alloc::{AllocError, Global};

/// The greatest interval of moments around this one in which each signature of the lines' `Trusted` and `Signed` is
/// valid: up to 281474976710655, or to the moment where that is greater. All are valid at the moment.
pub fn holding_of(
    alloc: Global,
    capture: &Capture<'_>,
    lines: &[Line],
    moment: u64,
) -> Result<Interval, AllocError>
    requires { AreShownValidAt capture.now.rrsets lines.now moment }
    ensures { IfOk result (IsHoldingOf capture.now.rrsets lines.now moment) }
{
    let times = times_shown(alloc, capture.rrsets(), lines)?;
    Ok(holding(&times, moment))
}

/// The times of the signatures that the lines show.
fn times_shown(
    alloc: Global,
    rrsets: &[Rrset<'_>],
    lines: &[Line],
) -> Result<Vec<Times>, AllocError>
    ensures { IfOk result (λ times. AddsJust (ComesOfSome (ShowsTimes rrsets.now) lines.now) [] times.items) }
{
    let mut times = Vec::new(alloc);
    for line in lines {
        push_shown(&mut times, rrsets, line)?;
    }
    Ok(times)
}

/// Adds the times of the signature that the line shows, if it shows one.
fn push_shown(times: &mut Vec<Times>, rrsets: &[Rrset<'_>], line: &Line) -> Result<(), AllocError>
    ensures { OnOk result (AddsJust (ShowsTimes rrsets.now line.now) times.old.items times.new.items) }
{
    let Some(number) = signature_shown(line) else {
        return Ok(());
    };
    let Some(found) = times_of(rrsets, number) else {
        return Ok(());
    };
    times.push(found)?;
    Ok(())
}

/// The signature that the line shows.
fn signature_shown(line: &Line) -> Option<SignatureNumber>
    ensures { result ≡ signature_shown line.now }
{
    match line {
        Line::Trusted(keys) => Some(keys.signature),
        Line::Signed(signed) => Some(signed.signature),
        _ => None,
    }
}

/// The times of the signature with the number.
fn times_of(rrsets: &[Rrset<'_>], number: SignatureNumber) -> Option<Times>
    ensures { MatchOption result ((times : Times) → ¬ HasTimes rrsets.now number times) (HasTimes rrsets.now number) }
{
    let Some(rrset) = numbered(rrsets, number.rrset) else {
        return None;
    };
    let Some(rrsig) = numbered(rrset.signatures(), number.signature) else {
        return None;
    };
    Some(Times {
        inception: rrsig.inception,
        expiration: rrsig.expiration,
    })
}
