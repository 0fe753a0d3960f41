//! The records of RRsets, whoever secured these.
ghost use Rattle.std.specs.Prelude.{Contains, IfOk};
ghost use Rattle.std.specs.List.Sorted.{IsStrictlySortedBy};
ghost use Rattle.std.specs.Ordering.{nat_cmp};
ghost use Rattle.dnsv_denial.specs.gathering.ByZone.{AreGatheredRecords};

use crate::gathering::nsec::nsecs_of;
use crate::gathering::nsec3::nsec3s_of;
use crate::gathering::zone_records::GatheredRecords;
use dnsv_canonical::Capture;
use dnsv_names::Name;
use dnsv_proof_forms::Nsec3Entries;
use std::alloc::{AllocError, Global};

/// The NSEC records of the RRsets with these rising numbers, and those of their NSEC3 records that can be used and stand
/// one label in front of the zone (RFC 5155 3, 8.2). A number that no RRset has counts for nothing.
pub fn gathered_records<'c>(
    alloc: Global,
    capture: &'c Capture<'c>,
    zone: &Name,
    numbers: &[usize],
) -> Result<GatheredRecords<'c>, AllocError>
    requires { IsStrictlySortedBy nat_cmp numbers.now }
    ensures { IfOk result (AreGatheredRecords (λ k. Contains numbers.now k) capture.now.rrsets zone.now) }
{
    let nsecs = nsecs_of(alloc, capture, numbers)?;
    let records = nsec3s_of(alloc, capture, zone, numbers)?;
    Ok(GatheredRecords {
        nsecs,
        nsec3s: Nsec3Entries::new(alloc, records)?,
    })
}
