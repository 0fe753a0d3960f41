//! What is so of a name as a zone.

pub mod dnskeys;
pub mod groups;
pub mod holders;
pub mod keyed;
pub mod places;
pub mod vouched;

ghost use Rattle.std.specs.Prelude.{◌↔◌, ℕ, IfOk, IsTrue};
ghost use Rattle.dnsv_names.specs.Name.{Labels};
ghost use Rattle.dnsv_chain.specs.Basis.{basis_by};
ghost use Rattle.dnsv_faults.specs.KnownZones.{IsKnownZone};
ghost use Rattle.dnsv_zone_faults.specs.Zones.{AreFactsOfZone, AreZoneFacts, IsAnchored};

use crate::zone::dnskeys::dnskey_facts;
use crate::zone::groups::anchors::anchor_facts;
use crate::zone::groups::ds::ds_facts;
use crate::zone::holders::zone_key_facts;
use crate::zone::keyed::keyed_zone;
use dnsv_faults::CaseFacts;
use dnsv_mending::ZoneFacts;
use dnsv_names::{Name, RecordType};
use dnsv_zone_keys::ZoneKeys;
use std::alloc::{AllocError, Global};

/// So many may vouch for the keys of a zone that each works out a digest for itself.
const FEW_VOUCHERS: usize = 4;

/// What is so of the names at or above the name that is asked for, as zones: for each number of its labels, from none on.
pub fn zone_facts(
    alloc: Global,
    facts: &CaseFacts<'_>,
    name: &Name,
    rtype: RecordType,
) -> Result<Vec<ZoneFacts>, AllocError>
    ensures { IfOk result (λ zones. AreZoneFacts (basis_by facts.now) name.now rtype.0 zones.items) }
{
    let known = facts.known_zones(alloc, name, rtype)?;
    let mut zones = Vec::with_capacity(alloc, known.len())?;
    for (labels, is_known) in known.iter().enumerate() {
        zones.push(facts_of_zone(alloc, facts, &name.suffix(labels), *is_known)?)?;
    }
    Ok(zones)
}

/// What is so of the name as a zone, which is known or isn't.
fn facts_of_zone(
    alloc: Global,
    facts: &CaseFacts<'_>,
    zone: &Name,
    is_known: bool,
) -> Result<ZoneFacts, AllocError>
    ensures { IfOk result (λ found. (name : Labels) (t : ℕ) → (IsTrue is_known ↔ IsKnownZone (basis_by facts.now) name t zone.now)
        → AreFactsOfZone (basis_by facts.now) name t zone.now found) }
{
    let is_kept = has_many_vouchers(facts, zone);
    let tagged = ZoneKeys::of(alloc, facts.capture(), zone, is_kept)?;
    let anchors = anchor_facts(alloc, facts, &tagged, zone)?;
    let ds = ds_facts(alloc, facts, &tagged, zone)?;
    let keyed = keyed_zone(alloc, facts, zone, &anchors, &ds)?;
    let dnskeys = dnskey_facts(alloc, &keyed)?;
    Ok(ZoneFacts {
        is_known,
        is_anchored: is_anchored(facts, zone),
        keys: zone_key_facts(alloc, keyed.keys.len(), &dnskeys)?,
        dnskeys,
        anchors,
        ds,
    })
}

/// Whether so many may vouch for keys of the zone that the digests of its keys are worked out once for all.
fn has_many_vouchers(facts: &CaseFacts<'_>, zone: &Name) -> bool {
    let capture = facts.capture();
    let mut count = facts.anchors().len();
    for number in capture.at(zone, RecordType::DS) {
        if let Some(rrset) = capture.rrset(*number) {
            count = count.saturating_add(rrset.len());
        }
    }
    count > FEW_VOUCHERS
}

/// Whether a trust anchor is at or above the zone.
fn is_anchored(facts: &CaseFacts<'_>, zone: &Name) -> bool
    ensures { IsTrue result ↔ IsAnchored facts.now.anchors zone.now }
{
    facts
        .anchors()
        .iter()
        .any(|anchor| zone.is_at_or_below(anchor.owner()))
}
