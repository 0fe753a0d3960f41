//! Which names at or above the name that is asked for the evidence knows as zones.

pub mod speakers;

ghost use Rattle.std.specs.Prelude.{◌≡◌, ◌↔◌, ◌<◌, ◌≤◌, IfOk, IsTrue, length};
ghost use Rattle.dnsv_names.specs.Name.{rightmost};
ghost use Rattle.dnsv_chain.specs.Basis.{HasAnchor, basis_by};
ghost use Rattle.dnsv_faults.specs.KnownZones.KnownSearch.{AreSpoken};
ghost use Rattle.dnsv_faults.specs.KnownZones.{AreKnownZones, HasOwnAnchor, HasRrset, IsKnownZone};

use crate::case_facts::CaseFacts;
use crate::known::speakers::speakers;
use crate::signature::is_among;
use dnsv_names::{Name, RecordType};
use std::alloc::{AllocError, Global};

impl<'a> CaseFacts<'a> {
    /// For each number of the name's labels, from none on, whether these are those of a zone that the evidence or an anchor
    /// knows: one at or above the name, above it where DS is asked, that owns an anchor, a DS or a DNSKEY RRset, or has
    /// signed what may answer or deny.
    pub fn known_zones(
        &self,
        alloc: Global,
        name: &Name,
        rtype: RecordType,
    ) -> Result<Vec<bool>, AllocError>
        ensures { IfOk result (λ known. AreKnownZones (basis_by self.now) name.now rtype.0 known.items) }
    {
        let spoken = speakers(alloc, self.capture().rrsets(), name, rtype)?;
        let mut known = Vec::new(alloc);
        for labels in 0..name.labels() + 1 {
            known.push(is_known(self, &spoken, name, rtype, labels))?;
        }
        Ok(known)
    }
}

/// Whether so many of the name's labels are those of a known zone.
fn is_known(
    facts: &CaseFacts<'_>,
    spoken: &[usize],
    name: &Name,
    rtype: RecordType,
    labels: usize,
) -> bool
    requires spoken { AreSpoken facts.now.rrsets name.now rtype.0 spoken.now }
    requires within { labels ≤ length name.now }
    ensures { IsTrue result ↔ IsKnownZone (basis_by facts.now) name.now rtype.0 (rightmost name.now labels) }
{
    if !is_proper(name, rtype, labels) {
        return false;
    }
    let zone = name.suffix(labels);
    if has_own_anchor(facts, &zone) {
        return true;
    }
    if has_rrset(facts, &zone, RecordType::DS) {
        return true;
    }
    if has_rrset(facts, &zone, RecordType::DNSKEY) {
        return true;
    }
    is_among(spoken, labels)
}

/// Whether so many labels are fewer than the name's, where DS is asked, which the zone above keeps (RFC 4035 2.4).
fn is_proper(name: &Name, rtype: RecordType, labels: usize) -> bool
    ensures { IsTrue result ↔ (rtype.0 ≡ 43 → labels < length name.now) }
{
    if rtype != RecordType::DS {
        return true;
    }
    labels < name.labels()
}

/// Whether a trust anchor is at or above the zone.
pub fn has_anchor(facts: &CaseFacts<'_>, zone: &Name) -> bool
    ensures { IsTrue result ↔ HasAnchor facts.now.anchors zone.now }
{
    facts
        .anchors()
        .iter()
        .any(|anchor| zone.is_at_or_below(anchor.owner()))
}

/// Whether a trust anchor is just at the zone.
pub fn has_own_anchor(facts: &CaseFacts<'_>, zone: &Name) -> bool
    ensures { IsTrue result ↔ HasOwnAnchor facts.now.anchors zone.now }
{
    facts
        .anchors()
        .iter()
        .any(|anchor| *anchor.owner() == *zone)
}

/// Whether an RRset of the type is at the zone.
pub fn has_rrset(facts: &CaseFacts<'_>, zone: &Name, rtype: RecordType) -> bool
    ensures { IsTrue result ↔ HasRrset facts.now.rrsets zone.now rtype.0 }
{
    !facts.capture().at(zone, rtype).is_empty()
}
