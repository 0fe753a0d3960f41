//! Which DNSKEY may be used to verify which signature (RFC 4035 5.3.1).
ghost use Rattle.std.specs.Prelude.{◌↔◌, ℕ, IsTrue};
ghost use Rattle.dnsv_names.specs.Name.{SameName};
ghost use Rattle.dnsv_records.specs.Rrsig.Time.{ValidAt};
ghost use Rattle.dnsv_canonical.specs.SignedData.{IsExpanded};
ghost use Rattle.dnsv_verifier.specs.Admissible.{IsAdmissible, IsOver, IsVerifiable, IsZoneKeyOf, MayHaveMade, MaySign, Names, is_unexpanded};
ghost use Rattle.dnsv_verifier.specs.Within.{IsVerifiableWithin};

use crate::key::KeyRecord;
use dnsv_canonical::{Rrset, is_expanded, signed_label_count};
use dnsv_names::{Name, RecordType};
use dnsv_records::{Rrsig, time_valid};
use dnsv_timeline::{Range, Times, is_valid_within};

/// The numbers of the types that no wildcard stands for: DS, NSEC, DNSKEY and NSEC3.
const UNEXPANDED: [u16; 4] = [43, 47, 48, 50];

/// Whether the key may be used to verify the signature of the RRset at the moment, in seconds since 1970
/// (RFC 4035 5.3.1).
pub fn is_admissible(moment: u64, rrset: &Rrset<'_>, rrsig: &Rrsig<'_>, key: &KeyRecord<'_>) -> bool
    ensures { IsTrue result ↔ IsAdmissible moment rrset.now rrsig.now key.now }
{
    may_have_made(key, rrsig) && is_verifiable(moment, rrset, rrsig)
}

/// Whether some key might verify the signature of the RRset at the moment, in seconds since 1970: what RFC 4035
/// 5.3.1 asks of the two alone.
pub fn is_verifiable(moment: u64, rrset: &Rrset<'_>, rrsig: &Rrsig<'_>) -> bool
    ensures { IsTrue result ↔ IsVerifiable moment rrset.now rrsig.now }
{
    time_valid(rrsig.inception, rrsig.expiration, moment) && is_fit(rrset, rrsig)
}

/// Whether some key might verify the signature of the RRset at some moment of the range: it is valid at one, and all else
/// that RFC 4035 5.3.1 asks of the two is the same at each moment.
pub fn is_verifiable_within(range: Range, rrset: &Rrset<'_>, rrsig: &Rrsig<'_>) -> bool
    ensures { IsTrue result ↔ IsVerifiableWithin range.from range.to rrset.now rrsig.now }
{
    let times = Times {
        inception: rrsig.inception,
        expiration: rrsig.expiration,
    };
    is_valid_within(times, range) && is_fit(rrset, rrsig)
}

/// Whether some key might verify the signature of the RRset at the moments at which it is valid.
fn is_fit(rrset: &Rrset<'_>, rrsig: &Rrsig<'_>) -> bool
    ensures { (moment : ℕ) → ValidAt rrsig.now.inception.0 rrsig.now.expiration.0 moment
        → (IsTrue result ↔ IsVerifiable moment rrset.now rrsig.now) }
{
    is_over(rrset, rrsig)
        && may_sign(&rrsig.signer.to_name(), rrset.rtype(), rrset.owner())
        && !is_wrongly_expanded(rrset.rtype(), rrset.owner(), rrsig)
}

/// Whether the key may have made the signature: what RFC 4035 5.3.1 asks of the two alone.
pub fn may_have_made(key: &KeyRecord<'_>, rrsig: &Rrsig<'_>) -> bool
    ensures { IsTrue result ↔ MayHaveMade key.now rrsig.now }
{
    names(rrsig, key) && is_zone_key_of(&rrsig.signer.to_name(), key)
}

/// Whether the signature covers the RRset's type and counts no more labels than its owner has.
fn is_over(rrset: &Rrset<'_>, rrsig: &Rrsig<'_>) -> bool
    ensures { IsTrue result ↔ IsOver rrset.now rrsig.now }
{
    rrsig.type_covered.0 == rrset.rtype().0
        && rrsig.labels as usize <= signed_label_count(rrset.owner())
}

/// Whether the signer may be the zone of an RRset of the type at the owner (RFC 4035 2.1, 2.2, 2.4).
#[tactic(auto, using(crate::proofs::AdmissibleLemmas::dnskey_signer, crate::proofs::AdmissibleLemmas::ds_signer, crate::proofs::AdmissibleLemmas::other_signer))]
pub fn may_sign(signer: &Name, rtype: RecordType, owner: &Name) -> bool
    ensures { IsTrue result ↔ MaySign signer.now rtype.0 owner.now }
{
    match rtype {
        RecordType::DNSKEY => are_equal(owner, signer),
        RecordType::DS => !are_equal(owner, signer) && owner.is_at_or_below(signer),
        _ => owner.is_at_or_below(signer),
    }
}

/// Whether the signature is expanded over the owner, in an RRset of a type that no wildcard stands for.
fn is_wrongly_expanded(rtype: RecordType, owner: &Name, rrsig: &Rrsig<'_>) -> bool
    ensures { IsTrue result ↔ (IsTrue (is_unexpanded rtype.0) × IsExpanded owner.now rrsig.now) }
{
    UNEXPANDED.contains(&rtype.0) && is_expanded(owner, rrsig)
}

/// Whether the key is one that the zone of the signer signs with (RFC 4034 2.1.1, 2.1.2).
fn is_zone_key_of(signer: &Name, key: &KeyRecord<'_>) -> bool
    ensures { IsTrue result ↔ IsZoneKeyOf signer.now key.now }
{
    let dnskey = key.dnskey();
    dnskey.protocol == 3 && dnskey.flags.is_zone_key() && are_equal(key.owner(), signer)
}

/// Whether the names are equal, without regard to case (RFC 4343).
fn are_equal(a: &Name, b: &Name) -> bool
    ensures { IsTrue result ↔ SameName a.now b.now }
{
    a == b
}

/// Whether the signature names the key, by an algorithm that is supported and by its tag.
fn names(rrsig: &Rrsig<'_>, key: &KeyRecord<'_>) -> bool
    ensures { IsTrue result ↔ Names rrsig.now key.now }
{
    key.key_tag().0 == rrsig.key_tag.0
        && key.dnskey().algorithm.0 == rrsig.algorithm.0
        && rrsig.algorithm.is_supported()
}
