//! What is wrong with a signature, whichever key made it.
ghost use Rattle.std.specs.Prelude.{◌≡◌, ◌↔◌, ◌<◌, IsTrue};
ghost use Rattle.dnsv_records.specs.Algorithm.{is_supported};
ghost use Rattle.dnsv_records.specs.Rrsig.Time.{seconds_on};
ghost use Rattle.dnsv_canonical.specs.SignedData.{IsExpanded, signed_label_count};
ghost use Rattle.dnsv_verifier.specs.Admissible.{MaySign, is_unexpanded};
ghost use Rattle.dnsv_faults.specs.Signatures.{AreSignatureFaults, expired, not_yet, times_of};

use dnsv_canonical::{Rrset, is_expanded, signed_label_count};
use dnsv_lines::SignatureTimes;
use dnsv_mending::SignatureFaults;
use dnsv_records::Rrsig;
use dnsv_verifier::may_sign;

/// Half of the circle of serial numbers of 32 bits (RFC 1982 3.2).
const HALF: u32 = 0x8000_0000;

/// What is wrong with the signature of the RRset at the moment.
pub fn signature_faults(moment: u64, rrset: &Rrset<'_>, rrsig: &Rrsig<'_>) -> SignatureFaults
    ensures { AreSignatureFaults moment rrset.now rrsig.now result }
{
    SignatureFaults {
        labels: has_too_many_labels(rrset, rrsig),
        signer: is_by_another_zone(rrset, rrsig),
        expanded: is_wrongly_expanded(rrset, rrsig),
        algorithm: has_unknown_algorithm(rrsig),
        not_yet: not_yet(moment, rrsig),
        expired: expired(moment, rrsig),
    }
}

/// Whether it counts more labels than the owner has.
fn has_too_many_labels(rrset: &Rrset<'_>, rrsig: &Rrsig<'_>) -> bool
    ensures { IsTrue result ↔ (signed_label_count rrset.now.owner < rrsig.now.labels) }
{
    signed_label_count(rrset.owner()) < rrsig.labels as usize
}

/// Whether the signer can't be the zone of the RRset (RFC 4035 2.1, 2.2, 2.4).
fn is_by_another_zone(rrset: &Rrset<'_>, rrsig: &Rrsig<'_>) -> bool
    ensures { IsTrue result ↔ (¬ MaySign rrsig.now.signer rrset.now.rtype rrset.now.owner) }
{
    !may_sign(&rrsig.signer.to_name(), rrset.rtype(), rrset.owner())
}

/// Whether it is one of a wildcard, over an RRset of a type that no wildcard stands for.
fn is_wrongly_expanded(rrset: &Rrset<'_>, rrsig: &Rrsig<'_>) -> bool
    ensures { IsTrue result ↔ (IsTrue (is_unexpanded rrset.now.rtype) × IsExpanded rrset.now.owner rrsig.now) }
{
    let rtype = rrset.rtype();
    [43, 47, 48, 50].contains(&rtype.0) && is_expanded(rrset.owner(), rrsig)
}

/// Whether its algorithm isn't supported.
fn has_unknown_algorithm(rrsig: &Rrsig<'_>) -> bool
    ensures { IsTrue result ↔ (¬ IsTrue (is_supported rrsig.now.algorithm.0)) }
{
    !rrsig.algorithm.is_supported()
}

/// Where the moment is before the inception: by how much (RFC 1982 3.2, RFC 4034 3.1.5).
fn not_yet(moment: u64, rrsig: &Rrsig<'_>) -> Option<SignatureTimes>
    ensures { result ≡ not_yet moment rrsig.now }
{
    let inception = rrsig.inception.0 as u64;
    if seconds_on(inception, moment) >= HALF {
        Some(times(rrsig, seconds_on(moment, inception)))
    } else {
        None
    }
}

/// Where it is behind the expiration.
fn expired(moment: u64, rrsig: &Rrsig<'_>) -> Option<SignatureTimes>
    ensures { result ≡ expired moment rrsig.now }
{
    let expiration = rrsig.expiration.0 as u64;
    if seconds_on(moment, expiration) >= HALF {
        Some(times(rrsig, seconds_on(expiration, moment)))
    } else {
        None
    }
}

/// The signature's times, and how many seconds the moment is off.
fn times(rrsig: &Rrsig<'_>, by: u32) -> SignatureTimes
    ensures { result ≡ times_of rrsig.now by }
{
    SignatureTimes {
        inception: rrsig.inception,
        expiration: rrsig.expiration,
        by,
    }
}

/// How many seconds it is from one time on to the other, around the circle.
fn seconds_on(from: u64, to: u64) -> u32
    ensures { result ≡ seconds_on from to }
{
    ((to % (1 << 32)) as u32).wrapping_sub((from % (1 << 32)) as u32)
}
