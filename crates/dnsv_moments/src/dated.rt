//! The times of signatures by their numbers.
ghost use Rattle.std.specs.Prelude.{IfOk, MatchOption, OnOk};
ghost use Rattle.dnsv_moments.specs.Dated.{AddsDated, AreDated, IsDated};
ghost use Rattle.dnsv_moments.specs.declared.dated.DatedSignature.{DatedSignature};

use dnsv_canonical::{Capture, Rrset, SignatureNumber, numbered};
use dnsv_timeline::Times;
use std::alloc::{AllocError, Global};

/// A signature of the evidence, with its times.
#[derive(Clone, Copy, Debug)]
pub struct DatedSignature {
    pub number: SignatureNumber,
    pub times: Times,
}

/// The signatures of the evidence with the numbers, in their order, with their times. A number that no signature has is
/// passed over.
pub fn dated_signatures(
    alloc: Global,
    capture: &Capture<'_>,
    numbers: &[SignatureNumber],
) -> Result<Vec<DatedSignature>, AllocError>
    ensures { IfOk result (λ all. AreDated capture.now.rrsets numbers.now all.items) }
{
    let mut all = Vec::new(alloc);
    for number in numbers {
        push_dated(&mut all, capture.rrsets(), *number)?;
    }
    Ok(all)
}

/// Adds the signature with the number, where there is one.
fn push_dated(
    all: &mut Vec<DatedSignature>,
    rrsets: &[Rrset<'_>],
    number: SignatureNumber,
) -> Result<(), AllocError>
    ensures { OnOk result (AddsDated rrsets.now number all.old.items all.new.items) }
{
    let Some(dated) = dated_signature(rrsets, number) else {
        return Ok(());
    };
    all.push(dated)?;
    Ok(())
}

/// The signature with the number and its times.
fn dated_signature(rrsets: &[Rrset<'_>], number: SignatureNumber) -> Option<DatedSignature>
    ensures { MatchOption result ((dated : DatedSignature) → ¬ IsDated rrsets.now number dated)
        (IsDated rrsets.now number) }
{
    let Some(rrset) = numbered(rrsets, number.rrset) else {
        return None;
    };
    let Some(rrsig) = numbered(rrset.signatures(), number.signature) else {
        return None;
    };
    Some(DatedSignature {
        number,
        times: Times {
            inception: rrsig.inception,
            expiration: rrsig.expiration,
        },
    })
}
