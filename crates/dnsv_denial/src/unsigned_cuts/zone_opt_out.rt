//! What the records of a kept zone say against an answer from a wildcard (RFC 5155 8.8).
ghost use Rattle.std.specs.Prelude.{◌↔◌, IsTrue, List};
ghost use Rattle.std.specs.List.{AllByRecursion};
ghost use Rattle.dnsv_canonical.specs.Rrsets.{ReceivedRrset};
ghost use Rattle.dnsv_chain.specs.Trust.{KeptTrust, SecuredIn};
ghost use Rattle.dnsv_denial.specs.gathering.Kept.{AreSets, IsZoneOf};
ghost use Rattle.dnsv_proof_forms.specs.KeptHashes.{IsSetOf};
ghost use Rattle.dnsv_denial.specs.unsigned_cuts.Cuts.{HasOptedOutNextCloser};

use crate::gathering::zone_records::{ZoneRecords, zone_chain};
use dnsv_names::Name;
use dnsv_proof_forms::{NameHashes, opts_out_next_closer};

/// Whether an unsigned delegation of the zone may stand against an answer from the wildcard below the name's so many
/// labels (RFC 5155 8.8). Only NSEC3 records have the Opt-Out flag.
pub fn zone_opts_out_next_closer<'a>(
    zone: &'a ZoneRecords<'a, 'a>,
    name: &'a Name,
    labels: usize,
    sets: &'a [NameHashes<'a>],
) -> bool
    requires { AllByRecursion (IsSetOf name.now) sets.now }
    ensures { (trust : KeptTrust) (rrsets : List ReceivedRrset) → IsZoneOf (SecuredIn trust) rrsets zone.now
        → AreSets (SecuredIn trust) rrsets sets.now
        → IsTrue result ↔ HasOptedOutNextCloser (SecuredIn trust) rrsets name.now labels zone.now.zone }
{
    for number in 0..sets.len() + 1 {
        let chain = zone_chain(number, name, zone, sets);
        if opts_out_next_closer(&zone.zone, name, labels, &chain.records()) {
            return true;
        }
    }
    false
}
