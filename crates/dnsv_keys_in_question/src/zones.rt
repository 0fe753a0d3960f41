//! The zones whose keys are in question.
ghost use Rattle.std.specs.Prelude.{◌↔◌, IsTrue};
ghost use Rattle.dnsv_names.specs.Name.{SameName};
ghost use Rattle.dnsv_keys_in_question.specs.KeyLines.{AsksKeysOf, IsInQuestion, IsOfDnskeys, IsSignerAsked};

use dnsv_lines::{Line, Reason, ShownSignature, SignatureFault, WhySignature};
use dnsv_names::{Name, RecordType};

/// Whether what fails by one of the lines is a matter of the zone's keys.
pub fn is_in_question(lines: &[Line], zone: &Name) -> bool
    ensures { IsTrue result ↔ IsInQuestion lines.now zone.now }
{
    lines.iter().any(|line| match line {
        Line::Reason(reason) => asks_keys_of(reason, zone),
        _ => false,
    })
}

/// Whether what fails is a matter of the zone's keys.
fn asks_keys_of(reason: &Reason, zone: &Name) -> bool
    ensures { IsTrue result ↔ AsksKeysOf reason.now zone.now }
{
    match reason {
        Reason::Zone(fault) => are_equal(&fault.zone, zone),
        Reason::Entry(fault) => are_equal(&fault.entry.zone, zone),
        Reason::NotSelfSigned(key) => are_equal(&key.zone, zone),
        Reason::NotVouched(keys) => are_equal(&keys.zone, zone),
        Reason::Unsigned(unsigned) => { is_of_dnskeys(unsigned.rtype, &unsigned.owner, zone) }
        Reason::Signature(fault) => is_signature_of(fault, zone),
        Reason::NoCloser(closer) => {
            is_of_dnskeys(closer.signature.rtype, &closer.signature.owner, zone)
        }
        _ => false,
    }
}

/// Whether the signature is one of the zone's DNSKEY RRset, or its word speaks of the zone's keys.
fn is_signature_of(fault: &SignatureFault, zone: &Name) -> bool
    ensures { IsTrue result ↔ AsksKeysOf (Reason.Signature fault.now) zone.now }
{
    let signature = &fault.signature;
    is_of_dnskeys(signature.rtype, &signature.owner, zone)
        || is_signer_asked(fault.why, signature, zone)
}

/// Whether the word speaks of the keys of the signer, which is the zone.
fn is_signer_asked(why: WhySignature, signature: &ShownSignature, zone: &Name) -> bool
    ensures { IsTrue result ↔ IsSignerAsked why signature.now zone.now }
{
    match why {
        WhySignature::KeyMissing => are_equal(&signature.signer, zone),
        WhySignature::NotZoneKey => are_equal(&signature.signer, zone),
        WhySignature::KeyUntrusted => are_equal(&signature.signer, zone),
        _ => false,
    }
}

/// Whether an RRset of the type at the owner is a DNSKEY RRset of the zone.
fn is_of_dnskeys(rtype: RecordType, owner: &Name, zone: &Name) -> bool
    ensures { IsTrue result ↔ IsOfDnskeys rtype.0 owner.now zone.now }
{
    rtype == RecordType::DNSKEY && are_equal(owner, zone)
}

/// Whether the names are equal, without regard to case (RFC 4343).
fn are_equal(a: &Name, b: &Name) -> bool
    ensures { IsTrue result ↔ SameName a.now b.now }
{
    *a == *b
}
