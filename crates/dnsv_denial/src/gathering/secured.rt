//! Which RRsets are secured by which zone.
ghost use Rattle.std.specs.Prelude.{◌≡◌, ◌↔◌, Contains, IsTrue};
ghost use Rattle.dnsv_denial.specs.gathering.Evidence.{HasZoneSignature};

use dnsv_canonical::{Rrset, is_expanded};
use dnsv_names::Name;

/// Whether one of the RRset's signatures with these numbers, from 1 on, is the zone's, and the RRset is no answer from
/// a wildcard by it (RFC 4035 5.3.1, 5.3.4).
pub fn has_zone_signature(rrset: &Rrset<'_>, secured: &[usize], zone: &Name) -> bool
    ensures { IsTrue result ↔ HasZoneSignature (λ s. Contains secured.now s) rrset.now zone.now }
{
    for number in secured {
        if is_zone_signature(rrset, *number, zone) {
            return true;
        }
    }
    false
}

/// Whether the RRset's signature with the number is such.
fn is_zone_signature(rrset: &Rrset<'_>, number: usize, zone: &Name) -> bool
    ensures { IsTrue result ↔ HasZoneSignature (λ s. s ≡ number) rrset.now zone.now }
{
    let rrsigs = rrset.signatures();
    if number == 0 || number > rrsigs.len() {
        return false;
    }
    let rrsig = &rrsigs[number - 1];
    if rrsig.signer.is_same(zone) {
        return !is_expanded(rrset.owner(), rrsig);
    }
    false
}
