//! The first proof of a denial by the records of one zone.
ghost use Rattle.std.specs.Prelude.{List, MatchOption};
ghost use Rattle.std.specs.List.{AllByRecursion};
ghost use Rattle.dnsv_canonical.specs.Rrsets.{ReceivedRrset};
ghost use Rattle.dnsv_chain.specs.Trust.{KeptTrust, SecuredIn};
ghost use Rattle.dnsv_denial.specs.gathering.Kept.{AreSets, IsZoneOf, IsZoneProof};
ghost use Rattle.dnsv_proof_forms.specs.KeptHashes.{IsSetOf};
ghost use Rattle.dnsv_denial.specs.proving.ChainOf.{StandsAs};
ghost use Rattle.dnsv_denial.specs.gathering.EvidenceWords.{Chain};

use crate::gathering::zone_records::{ZoneRecords, zone_chain};
use crate::proving::chain_proof::chain_proof;
use crate::proving::shown_denial::ShownDenial;
use dnsv_names::Name;
use dnsv_proof_forms::{Denial, NameHashes};

/// The first proof of the denial by the zone's records, or `None` where they prove none: NSEC before NSEC3, and NSEC3
/// in the order of the sets.
pub fn zone_proof<'a>(
    denial: Denial,
    name: &'a Name,
    zone: &'a ZoneRecords<'a, 'a>,
    sets: &'a [NameHashes<'a>],
) -> Option<ShownDenial>
    requires { AllByRecursion (IsSetOf name.now) sets.now }
    ensures { (trust : KeptTrust) (rrsets : List ReceivedRrset) → IsZoneOf (SecuredIn trust) rrsets zone.now
        → AreSets (SecuredIn trust) rrsets sets.now
        → MatchOption result
        ((chain : Chain) → ¬ StandsAs (SecuredIn trust) rrsets denial name.now zone.now.zone chain)
        (IsZoneProof (SecuredIn trust) rrsets denial name.now zone.now.zone) }
{
    for number in 0..sets.len() + 1 {
        let chain = zone_chain(number, name, zone, sets);
        if let Some(shown) = chain_proof(denial, &zone.zone, name, &chain.records()) {
            return Some(shown);
        }
    }
    None
}
