//! Signatures, as lines tell them.
ghost use Rattle.std.specs.Prelude.{◌≡◌, MatchOption};
ghost use Rattle.dnsv_lines.specs.declared.line.fault.signature.ShownSignature.{ShownSignature};
ghost use Rattle.dnsv_trust_reasons.specs.Places.{IsShown, shown_of};

use dnsv_canonical::{Capture, Rrset, SignatureNumber, numbered};
use dnsv_lines::{KeyName, ShownSignature};
use dnsv_records::Rrsig;

/// The signature with the number, if there is one.
pub fn shown(capture: &Capture<'_>, number: SignatureNumber) -> Option<ShownSignature>
    ensures { MatchOption result ((each : ShownSignature) → ¬ IsShown capture.now.rrsets number each)
        (IsShown capture.now.rrsets number) }
{
    let Some(rrset) = capture.rrset(number.rrset) else {
        return None;
    };
    let Some(rrsig) = numbered(rrset.signatures(), number.signature) else {
        return None;
    };
    Some(shown_of(number, rrset, rrsig))
}

/// The signature, which has the number, with the key that it names.
fn shown_of(number: SignatureNumber, rrset: &Rrset<'_>, rrsig: &Rrsig<'_>) -> ShownSignature
    ensures { result ≡ shown_of number rrset.now rrsig.now }
{
    ShownSignature {
        owner: rrset.owner().clone().unwrap(),
        rtype: rrset.rtype(),
        number,
        key: KeyName {
            tag: rrsig.key_tag,
            algorithm: rrsig.algorithm,
        },
        signer: rrsig.signer.to_name(),
    }
}
