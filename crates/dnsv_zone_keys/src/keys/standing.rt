//! The DNSKEY records of a zone.
ghost use Rattle.std.specs.Prelude.{◌≡◌, ◌++◌, ℕ, List, IfOk, OnOk, map};
ghost use Rattle.std.specs.List.{AllByRecursion};
ghost use Rattle.dnsv_canonical.specs.Index.{numbers_at};
ghost use Rattle.dnsv_canonical.specs.Rrsets.{IsNumbered, ReceivedRrset};
ghost use Rattle.dnsv_records.specs.Dnskey.{IsDnskey};
ghost use Rattle.dnsv_zone_keys.specs.Keys.{AreStanding};
ghost use Rattle.dnsv_zone_keys.specs.Keys.ZoneSearch.{AddsRecords, IsDnskeyNumber};

use dnsv_canonical::Capture;
use dnsv_names::{Name, RecordType};
use dnsv_records::Dnskey;
use dnsv_rrsets::{ReadRecord, in_canonical_order};
use std::alloc::{AllocError, Global};

/// The records of the zone's DNSKEY RRsets, those of each in canonical order.
pub fn standing_keys<'a>(
    alloc: Global,
    capture: &'a Capture<'a>,
    zone: &Name,
) -> Result<Vec<ReadRecord<'a, Dnskey<'a>>>, AllocError>
    ensures stand { IfOk result (λ standing. AreStanding capture.now.rrsets (numbers_at capture.now.rrsets zone.now 48)
        (map (λ each. each.rdata.now) standing.items)) }
    ensures read { IfOk result (λ standing. AllByRecursion (λ each. IsDnskey each.rdata.now each.record.now) standing.items) }
{
    let mut standing = Vec::new(alloc);
    for number in capture.at(zone, RecordType::DNSKEY) {
        add_records(alloc, capture, *number, &mut standing)?;
    }
    Ok(standing)
}

/// Adds those of the RRset with the number.
fn add_records<'a>(
    alloc: Global,
    capture: &'a Capture<'a>,
    number: usize,
    standing: &mut Vec<ReadRecord<'a, Dnskey<'a>>>,
) -> Result<(), AllocError>
    requires { IsDnskeyNumber capture.now.rrsets number }
    ensures { OnOk result (AddsRecords capture.now.rrsets number standing.old.items standing.new.items) }
{
    let Some(rrset) = capture.rrset(number) else {
        return Ok(());
    };
    let mut records = in_canonical_order(alloc, rrset, rrset.dnskeys())?;
    standing.append(&mut records)?;
    Ok(())
}
