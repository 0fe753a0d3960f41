//! The records of the zones at or above a name.
ghost use Rattle.std.specs.Prelude.{IfOk, List};
ghost use Rattle.dnsv_canonical.specs.Rrsets.{ReceivedRrset};
ghost use Rattle.dnsv_chain.specs.Trust.{KeptTrust, SecuredIn};
ghost use Rattle.dnsv_denial.specs.gathering.ByZone.{AreDenialRecords};
ghost use Rattle.dnsv_denial.specs.gathering.Kept.{AreZones};

use crate::gathering::denial_records::{DenialRecords, secured_records};
use crate::gathering::signers::{numbers_by_zone, numbers_of};
use crate::gathering::zone_records::{HeldRecords, ZoneRecords};
use dnsv_canonical::Capture;
use dnsv_chain::Trust;
use dnsv_names::Name;
use std::alloc::{AllocError, Global};

/// The records of each zone at or above the name, from the root on, gathered for it. What the capture costs is one pass
/// over its RRsets, and one look at those that each of these zones may have secured.
pub fn own_zones<'c, 't>(
    alloc: Global,
    capture: &'c Capture<'c>,
    trust: &Trust<'_>,
    name: &Name,
) -> Result<Vec<ZoneRecords<'c, 't>>, AllocError>
    ensures { IfOk result (λ zones. AreZones (SecuredIn trust.now) capture.now.rrsets name.now zones.items) }
{
    let numbers = numbers_by_zone(alloc, capture, trust)?;
    let mut zones = Vec::new(alloc);
    for count in 0..name.labels() + 1 {
        let zone = name.suffix(count);
        let listed = numbers_of(&numbers, &zone);
        let records = secured_records(alloc, capture, trust, &zone, listed)?;
        zones.push(ZoneRecords {
            zone,
            records: HeldRecords::Own(records),
        })?;
    }
    Ok(zones)
}

/// The records of each zone at or above the name, from the root on, lent by those that were gathered.
pub fn lent_zones<'c, 't>(
    alloc: Global,
    denials: &'t DenialRecords<'t>,
    name: &Name,
) -> Result<Vec<ZoneRecords<'c, 't>>, AllocError>
    ensures { IfOk result (λ zones. (trust : KeptTrust) (rrsets : List ReceivedRrset)
        → AreDenialRecords (SecuredIn trust) rrsets denials.now → AreZones (SecuredIn trust) rrsets name.now zones.items) }
{
    let mut zones = Vec::new(alloc);
    for labels in 0..name.labels() + 1 {
        let zone = name.suffix(labels);
        let records = denials.of_zone(&zone);
        zones.push(ZoneRecords {
            zone,
            records: HeldRecords::Lent(records),
        })?;
    }
    Ok(zones)
}
