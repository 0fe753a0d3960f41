//! The records by which zones deny names and types, gathered once for a capture and its trust.
ghost use Rattle.std.specs.Prelude.{◌↔◌, ℕ, Contains, IfOk, IsTrue, List};
ghost use Rattle.dnsv_names.specs.Name.{Labels};
ghost use Rattle.dnsv_canonical.specs.Rrsets.{ReceivedRrset};
ghost use Rattle.dnsv_anchors.specs.ByOwner.{values_at};
ghost use Rattle.dnsv_chain.specs.Trust.{KeptTrust, SecuredIn};
ghost use Rattle.dnsv_denial.specs.gathering.Evidence.{IsSecuredBy};
ghost use Rattle.dnsv_denial.specs.gathering.Gathered.{AreListed, IsListing};
ghost use Rattle.dnsv_denial.specs.declared.gathering.denial_records.SecuredZone.{SecuredZone};
ghost use Rattle.dnsv_denial.specs.gathering.ByZone.{AreDenialRecords, AreSecuredRecords, IsZoneAmong};

use crate::gathering::expanded::expanded_types;
use crate::gathering::gathered::gathered_records;
use crate::gathering::secured::has_zone_signature;
use crate::gathering::signers::{NumbersByZone, numbers_by_zone};
use crate::gathering::zone_records::GatheredRecords;
use dnsv_canonical::Capture;
use dnsv_chain::{Trust, at};
use dnsv_names::{Name, RecordType, WireName};
use dnsv_proof_forms::{Nsec3Entries, rising};
use std::alloc::{AllocError, Global};

/// The NSEC and NSEC3 records that a zone secured, with its name.
#[derive(Drop)]
pub struct SecuredZone<'c> {
    /// The zone's name, as one of its signatures spells it.
    pub name: WireName<'c>,
    /// The records.
    pub records: GatheredRecords<'c>,
}

/// The NSEC records of a capture, and the NSEC3 records that can be used, by the zones that secured them (RFC 4035 5.4,
/// RFC 5155 8.2). An RRset that several zones secured is of each of them.
#[derive(Drop)]
pub struct DenialRecords<'c> {
    /// The zones that secured any, in the order of their names by length and then by octets in lower case.
    zones: Vec<SecuredZone<'c>>,
    /// What any other zone has: nothing.
    none: GatheredRecords<'c>,
    /// The types of which the capture has answers from wildcards.
    expanded: Vec<RecordType>,
}

impl<'c> DenialRecords<'c> {
    /// Gathers the records. `trust` is that of the capture.
    pub fn of(
        alloc: Global,
        capture: &'c Capture<'c>,
        trust: &Trust<'_>,
    ) -> Result<DenialRecords<'c>, AllocError>
        ensures { IfOk result (AreDenialRecords (SecuredIn trust.now) capture.now.rrsets) }
    {
        let numbers = numbers_by_zone(alloc, capture, trust)?;
        let mut zones = secured_zones(alloc, capture, trust, &numbers)?;
        zones.sort_unstable_by(|a, b| a.name.search_cmp(&b.name));
        let none = GatheredRecords {
            nsecs: Vec::new(alloc),
            nsec3s: Nsec3Entries::new(alloc, Vec::new(alloc))?,
        };
        let expanded = expanded_types(alloc, capture)?;
        Ok(DenialRecords {
            zones,
            none,
            expanded,
        })
    }

    /// The types of which the capture has answers from wildcards.
    pub(crate) fn expanded(&self) -> &[RecordType] {
        &self.expanded
    }

    /// The records of the zone, in the order of their numbers. It takes no memory, and time in proportion to the logarithm
    /// of the number of zones.
    pub fn of_zone(&self, zone: &Name) -> &GatheredRecords<'c>
        ensures { (trust : KeptTrust) (rrsets : List ReceivedRrset) → AreDenialRecords (SecuredIn trust) rrsets self.now
            → AreSecuredRecords (SecuredIn trust) rrsets zone.now result.now }
    {
        let wanted = WireName::of(zone);
        match self
            .zones
            .binary_search_by(|each| each.name.search_cmp(&wanted))
        {
            Ok(place) => &self.zones[place].records,
            Err(_) => &self.none,
        }
    }
}

/// The records of each zone for which RRsets are listed.
fn secured_zones<'c>(
    alloc: Global,
    capture: &'c Capture<'c>,
    trust: &Trust<'_>,
    numbers: &NumbersByZone<'c>,
) -> Result<Vec<SecuredZone<'c>>, AllocError>
    requires { AreListed (SecuredIn trust.now) capture.now.rrsets (values_at numbers.now) }
    ensures each { IfOk result (λ zones. (each : SecuredZone) → Contains zones.items each
        → AreSecuredRecords (SecuredIn trust.now) capture.now.rrsets each.name each.records) }
    ensures all { IfOk result (λ zones. (zone : Labels) (k : ℕ) → Contains (values_at numbers.now zone) k
        → IsZoneAmong zones.items zone) }
{
    let mut zones = Vec::new(alloc);
    for entry in numbers {
        let zone = entry.0;
        let listed = at(numbers, &zone.0);
        let records = secured_records(alloc, capture, trust, &zone.0.to_name(), listed)?;
        let name = zone.0.copied();
        zones.push(SecuredZone { name, records })?;
    }
    Ok(zones)
}

/// The records of the zone, which stand in RRsets with some of these numbers.
pub fn secured_records<'c>(
    alloc: Global,
    capture: &'c Capture<'c>,
    trust: &Trust<'_>,
    zone: &Name,
    listed: &[usize],
) -> Result<GatheredRecords<'c>, AllocError>
    requires { IsListing (SecuredIn trust.now) capture.now.rrsets zone.now listed.now }
    ensures { IfOk result (AreSecuredRecords (SecuredIn trust.now) capture.now.rrsets zone.now) }
{
    let secured = secured_numbers(alloc, capture, trust, zone, listed)?;
    let numbers = rising(alloc, &secured)?;
    let records = gathered_records(alloc, capture, zone, &numbers)?;
    Ok(records)
}

/// Those of the numbers whose RRset the zone secured.
fn secured_numbers(
    alloc: Global,
    capture: &Capture<'_>,
    trust: &Trust<'_>,
    zone: &Name,
    listed: &[usize],
) -> Result<Vec<usize>, AllocError>
    ensures { IfOk result (λ numbers. (k : ℕ) → Contains numbers.items k
        ↔ (Contains listed.now k × IsSecuredBy (SecuredIn trust.now) capture.now.rrsets zone.now k)) }
{
    let mut numbers = Vec::new(alloc);
    for number in listed {
        if !is_secured_by(capture, trust, zone, *number) {
            continue;
        }
        numbers.push(*number)?;
    }
    Ok(numbers)
}

/// Whether the zone secured the RRset with the number.
fn is_secured_by(capture: &Capture<'_>, trust: &Trust<'_>, zone: &Name, number: usize) -> bool
    ensures { IsTrue result ↔ IsSecuredBy (SecuredIn trust.now) capture.now.rrsets zone.now number }
{
    let Some(rrset) = capture.rrset(number) else {
        return false;
    };
    has_zone_signature(rrset, trust.signed(number), zone)
}
