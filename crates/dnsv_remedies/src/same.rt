//! When two lines say the same.
ghost use Rattle.std.specs.Prelude.{◌≡◌};
ghost use Rattle.dnsv_remedies.specs.Same.{is_same, is_same_cut, is_same_dname, is_same_entry, is_same_fault, is_same_name, is_same_nsec3, is_same_number, is_same_record, is_same_role, is_same_signature, is_same_source, is_same_speaker, is_same_times, is_same_told, is_same_why, is_same_zone};

use crate::facts::name::{AskedName, CutNumber, SourceNumber};
use crate::facts::question::DnameFacts;
use crate::said::Said;
use dnsv_canonical::{RecordNumber, SignatureNumber};
use dnsv_lines::{
    EntryNumber, Role, SignatureTimes, WhyEntry, WhyNsec3, WhySignature, WhySource, WhyZone,
};
use dnsv_mending::Told;

/// Whether both lines say the same.
pub fn is_same(one: Said, other: Said) -> bool
    ensures { result ≡ is_same one other }
{
    match (one, other) {
        (Said::Trust(one), Said::Trust(other)) => is_same_told(one, other),
        (Said::NoCloser(one, name), Said::NoCloser(other, other_name)) => {
            is_same_signature(one, other) && name == other_name
        }
        (Said::Dname(one), Said::Dname(other)) => is_same_dname(one, other),
        (Said::DnameHeld(name, one), Said::DnameHeld(other_name, other)) => {
            name == other_name && is_same_record(one, other)
        }
        (Said::Nsec3(why, one), Said::Nsec3(other_why, other)) => {
            is_same_nsec3(why, other_why) && is_same_record(one, other)
        }
        (Said::Source(why, one, name), Said::Source(other_why, other, other_name)) => {
            is_same_source(why, other_why)
                && is_same_number(one, other)
                && is_same_name(name, other_name)
        }
        (Said::AnswerMissing(one), Said::AnswerMissing(other)) => is_same_speaker(one, other),
        (Said::DenialUnproved(one), Said::DenialUnproved(other)) => one == other,
        (Said::DsUnproved(one), Said::DsUnproved(other)) => is_same_cut(one, other),
        _ => false,
    }
}

/// The same, of zones and signatures.
fn is_same_told(one: Told, other: Told) -> bool
    ensures { result ≡ is_same_told one other }
{
    match (one, other) {
        (Told::Zone(why, one), Told::Zone(other_why, other)) => {
            is_same_zone(why, other_why) && one == other
        }
        (Told::Entry(why, one), Told::Entry(other_why, other)) => {
            is_same_why(why, other_why) && is_same_entry(one, other)
        }
        (Told::NotSelfSigned(one), Told::NotSelfSigned(other)) => is_same_record(one, other),
        (Told::NotVouched(one), Told::NotVouched(other)) => one == other,
        (Told::Unsigned(one), Told::Unsigned(other)) => one == other,
        (Told::Signature(why, one), Told::Signature(other_why, other)) => {
            is_same_fault(why, other_why) && is_same_signature(one, other)
        }
        (Told::Follows(one), Told::Follows(other)) => is_same_signature(one, other),
        _ => false,
    }
}

/// What a zone lacks.
fn is_same_zone(one: WhyZone, other: WhyZone) -> bool
    ensures { result ≡ is_same_zone one other }
{
    matches!(
        (one, other),
        (WhyZone::NoAnchor, WhyZone::NoAnchor)
            | (WhyZone::DnskeyMissing, WhyZone::DnskeyMissing)
            | (WhyZone::DsMissing, WhyZone::DsMissing)
    )
}

/// Why an anchor or a DS record matches no key.
fn is_same_why(one: WhyEntry, other: WhyEntry) -> bool
    ensures { result ≡ is_same_why one other }
{
    matches!(
        (one, other),
        (WhyEntry::Algorithm, WhyEntry::Algorithm)
            | (WhyEntry::DigestType, WhyEntry::DigestType)
            | (WhyEntry::DigestIgnored, WhyEntry::DigestIgnored)
            | (WhyEntry::KeyMissing, WhyEntry::KeyMissing)
            | (WhyEntry::KeyAlgorithm, WhyEntry::KeyAlgorithm)
            | (WhyEntry::DigestDiffers, WhyEntry::DigestDiffers)
    )
}

/// An anchor or a DS record.
fn is_same_entry(one: EntryNumber, other: EntryNumber) -> bool
    ensures { result ≡ is_same_entry one other }
{
    match (one, other) {
        (EntryNumber::Anchor(one), EntryNumber::Anchor(other)) => one == other,
        (EntryNumber::Ds(one), EntryNumber::Ds(other)) => is_same_record(one, other),
        _ => false,
    }
}

/// Why a signature proves nothing.
fn is_same_fault(one: WhySignature, other: WhySignature) -> bool
    ensures { result ≡ is_same_fault one other }
{
    match (one, other) {
        (WhySignature::NotYet(one), WhySignature::NotYet(other))
        | (WhySignature::Expired(one), WhySignature::Expired(other)) => is_same_times(one, other),
        (WhySignature::Labels, WhySignature::Labels)
        | (WhySignature::Signer, WhySignature::Signer)
        | (WhySignature::Expanded, WhySignature::Expanded)
        | (WhySignature::Algorithm, WhySignature::Algorithm)
        | (WhySignature::KeyMissing, WhySignature::KeyMissing)
        | (WhySignature::NotZoneKey, WhySignature::NotZoneKey)
        | (WhySignature::Bad, WhySignature::Bad)
        | (WhySignature::Unanswered, WhySignature::Unanswered)
        | (WhySignature::KeyUntrusted, WhySignature::KeyUntrusted) => true,
        _ => false,
    }
}

/// When a signature is valid, and by how much the moment is off.
fn is_same_times(one: SignatureTimes, other: SignatureTimes) -> bool
    ensures { result ≡ is_same_times one other }
{
    one.inception.0 == other.inception.0
        && one.expiration.0 == other.expiration.0
        && one.by == other.by
}

/// A record.
fn is_same_record(one: RecordNumber, other: RecordNumber) -> bool
    ensures { result ≡ is_same_record one other }
{
    one.rrset == other.rrset && one.place == other.place
}

/// A signature.
fn is_same_signature(one: SignatureNumber, other: SignatureNumber) -> bool
    ensures { result ≡ is_same_signature one other }
{
    one.rrset == other.rrset && one.signature == other.signature
}

/// Why an NSEC3 record can't be used.
fn is_same_nsec3(one: WhyNsec3, other: WhyNsec3) -> bool
    ensures { result ≡ is_same_nsec3 one other }
{
    match (one, other) {
        (WhyNsec3::Iterations(one), WhyNsec3::Iterations(other)) => one.0 == other.0,
        (WhyNsec3::Unusable, WhyNsec3::Unusable) => true,
        _ => false,
    }
}

/// What the records of a source don't prove.
fn is_same_source(one: WhySource, other: WhySource) -> bool
    ensures { result ≡ is_same_source one other }
{
    match (one, other) {
        (WhySource::Delegation(one), WhySource::Delegation(other)) => is_same_record(one, other),
        (WhySource::TypeHeld(one, held), WhySource::TypeHeld(other, other_held)) => {
            is_same_record(one, other) && held.0 == other_held.0
        }
        (WhySource::MatchMissing, WhySource::MatchMissing)
        | (WhySource::EncloserMissing, WhySource::EncloserMissing) => true,
        (WhySource::CoverMissing(one), WhySource::CoverMissing(other)) => is_same_role(one, other),
        _ => false,
    }
}

/// What a part of a proof is for.
fn is_same_role(one: Role, other: Role) -> bool
    ensures { result ≡ is_same_role one other }
{
    matches!(
        (one, other),
        (Role::ClosestEncloser, Role::ClosestEncloser)
            | (Role::NextCloser, Role::NextCloser)
            | (Role::Wildcard, Role::Wildcard)
            | (Role::Name, Role::Name)
            | (Role::Cut, Role::Cut)
    )
}

/// A name that owns a DNAME RRset.
fn is_same_dname(one: DnameFacts, other: DnameFacts) -> bool
    ensures { result ≡ is_same_dname one other }
{
    one.labels == other.labels && one.rrset == other.rrset
}

/// A name below a zone.
fn is_same_cut(one: CutNumber, other: CutNumber) -> bool
    ensures { result ≡ is_same_cut one other }
{
    one.zone == other.zone && one.name == other.name
}

/// A source of a zone.
fn is_same_number(one: SourceNumber, other: SourceNumber) -> bool
    ensures { result ≡ is_same_number one other }
{
    one.zone == other.zone && one.place == other.place
}

/// A name that a record is to be at, or to cover.
fn is_same_name(one: AskedName, other: AskedName) -> bool
    ensures { result ≡ is_same_name one other }
{
    match (one, other) {
        (AskedName::At(one), AskedName::At(other))
        | (AskedName::Wildcard(one), AskedName::Wildcard(other)) => one == other,
        _ => false,
    }
}

/// The zone that should speak, where there is one.
fn is_same_speaker(one: Option<usize>, other: Option<usize>) -> bool
    ensures { result ≡ is_same_speaker one other }
{
    match (one, other) {
        (Some(one), Some(other)) => one == other,
        (None, None) => true,
        _ => false,
    }
}
