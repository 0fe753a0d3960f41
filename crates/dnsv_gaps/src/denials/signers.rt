//! The signers of an RRset that may deny.
ghost use Rattle.std.specs.Prelude.{◌↔◌, IsTrue};
ghost use Rattle.dnsv_names.specs.Name.{SameName};
ghost use Rattle.dnsv_gaps.specs.DenialSearch.{HasOneBy, HasSignerAbove, HasSpeaker};
ghost use Rattle.dnsv_gaps.specs.Denials.{HasSigner, IsStray};

use dnsv_canonical::Rrset;
use dnsv_faults::{is_above, is_from_above};
use dnsv_names::{Name, RecordType};
use dnsv_records::Rrsig;

/// Whether a signer of the RRset that is at or above the name speaks by it; above the name, where DS is asked.
pub fn has_speaker(name: &Name, rtype: RecordType, rrset: &Rrset<'_>) -> bool
    ensures { IsTrue result ↔ HasSpeaker name.now rtype.0 rrset.now }
{
    has_signer_above(rrset.signatures(), name, is_from_above(rrset, rtype))
}

/// Whether no signer of the RRset is at or above the owner.
pub fn is_stray(rrset: &Rrset<'_>) -> bool
    ensures { IsTrue result ↔ IsStray rrset.now }
{
    !has_signer_above(rrset.signatures(), rrset.owner(), false)
}

/// Whether the signer of one of the signatures is at or above the name; above it, where it has to be.
pub fn has_signer_above(rrsigs: &[Rrsig<'_>], name: &Name, from_above: bool) -> bool
    ensures { IsTrue result ↔ HasSignerAbove rrsigs.now name.now from_above }
{
    rrsigs.iter().any(|rrsig| is_above(name, &rrsig.signer.to_name(), from_above))
}

/// Whether the zone is a signer of the RRset.
pub fn has_signer(rrset: &Rrset<'_>, zone: &Name) -> bool
    ensures { IsTrue result ↔ HasSigner rrset.now zone.now }
{
    is_one_by(rrset.signatures(), zone)
}

/// Whether the zone is the signer of one of the signatures.
fn is_one_by(rrsigs: &[Rrsig<'_>], zone: &Name) -> bool
    ensures { IsTrue result ↔ HasOneBy rrsigs.now zone.now }
{
    rrsigs.iter().any(|rrsig| is_by(rrsig, zone))
}

/// Whether the zone is the signer of the signature.
fn is_by(rrsig: &Rrsig<'_>, zone: &Name) -> bool
    ensures { IsTrue result ↔ SameName rrsig.now.signer zone.now }
{
    rrsig.signer.is_same(zone)
}
