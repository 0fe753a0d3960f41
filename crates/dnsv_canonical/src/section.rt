//! What the records of one section say of each other.
ghost use Rattle.std.specs.Prelude.{◌≡◌, ◌&&◌, ◌==◌, ◌<◌, ◌^◌, ℕ, IfOk, IsTrue, map, filter, false};
ghost use Rattle.std.specs.Option.{option_map_or};
ghost use Rattle.dnsv_names.specs.Name.{Labels, same_name};
ghost use Rattle.dnsv_message.specs.declared.record.Record.{Record};
ghost use Rattle.dnsv_canonical.specs.ByRrset.{rdata_at};
ghost use Rattle.dnsv_canonical.specs.Rrsets.{forms_rrsets, is_grouped, same_rrset, is_signature};
ghost use Rattle.dnsv_canonical.specs.Runs.{SignsJust};

use crate::by_rrset::{RdataByRrset, add};
use crate::placed_record::PlacedRecord;
use dnsv_message::{Class, NameRef};
use dnsv_names::RecordType;
use std::alloc::{AllocError, Global};
use std::collections::BTreeMap;

/// The types below 128 that form no RRset: 0, MD, MF, MB, MG, MR, MINFO, RP, AFSDB, RT, SIG, PX, NXT, NAPTR,
/// KX, A6, OPT and RRSIG.
const UNGROUPED: [u16; 18] = [
    0, 3, 4, 7, 8, 9, 14, 17, 18, 21, 24, 26, 30, 35, 36, 38, 41, 46,
];

/// Whether records of the type form RRsets: those of types 0, OPT, RRSIG and 128 to 255, which stand for no data or
/// for other records, don't, nor do those of MD, MF, MB, MG, MR, MINFO, RP, AFSDB, RT, SIG, PX, NXT, NAPTR, KX and A6.
pub fn forms_rrsets(rtype: RecordType) -> bool
    ensures { result ≡ forms_rrsets rtype.0 }
{
    !UNGROUPED.contains(&rtype.0) && !(128 <= rtype.0 && rtype.0 <= 255)
}

/// Whether the candidate belongs to an RRset: it is of class IN, and of a type that forms them.
pub fn is_grouped(candidate: &PlacedRecord<'_>) -> bool
    ensures { result ≡ is_grouped candidate.now }
{
    candidate.class == Class::IN && forms_rrsets(candidate.rtype)
}

/// Whether the candidate is an IN RRSIG.
pub fn is_rrsig(candidate: &PlacedRecord<'_>) -> bool
    ensures { result ≡ ((candidate.now.rtype.0 == 46) && (candidate.now.class.0 == 1)) }
{
    candidate.rtype == RecordType::RRSIG && candidate.class == Class::IN
}

/// Whether the candidate is a signature over the RRset of the owner and type.
pub fn covers(candidate: &PlacedRecord<'_>, rtype: RecordType, owner: &NameRef<'_>) -> bool
    ensures { IsTrue result → SignsJust owner.now rtype.0 candidate.now }
{
    match covered_type(candidate) {
        Some(covered) => covered == rtype && candidate.name == *owner,
        None => false,
    }
}

/// The type that the candidate covers if it is an IN RRSIG: the first two octets of its RDATA.
fn covered_type(candidate: &PlacedRecord<'_>) -> Option<RecordType>
    ensures { (owner : Labels) (rtype : ℕ) → rtype < 2 ^ 16 → is_signature owner rtype candidate.now
        ≡ (option_map_or (λ covered. rtype == covered.0) result false && same_name candidate.now.name owner) }
{
    if candidate.rtype != RecordType::RRSIG || candidate.class != Class::IN {
        return None;
    }
    let [high, low, ..] = candidate.rdata() else {
        return None;
    };
    Some(RecordType(u16::from_be_bytes([*high, *low])))
}

/// The RDATA of the records by the RRset that they belong to, as received.
pub fn rdata_by_rrset<'a, 'b>(
    alloc: Global,
    records: &'a [PlacedRecord<'b>],
) -> Result<RdataByRrset<'a, 'b>, AllocError>
    ensures { IfOk result (λ by_rrset. (first : Record) → rdata_at by_rrset first.rtype.0 first.name
        ≡ map (λ r. r.rdata) (filter (same_rrset first) (filter is_grouped records.now))) }
{
    let mut by_rrset = BTreeMap::new(alloc);
    for record in records {
        if is_grouped(record) {
            let rdata = record.rdata();
            add(alloc, &mut by_rrset, record.rtype, &record.name, rdata)?;
        }
    }
    Ok(by_rrset)
}

/// The RDATA of the IN RRSIG records by the RRset that they cover, in order.
pub fn signatures_by_rrset<'a, 'b>(
    alloc: Global,
    records: &'a [PlacedRecord<'b>],
) -> Result<RdataByRrset<'a, 'b>, AllocError>
    ensures { IfOk result (λ by_rrset. (owner : Labels) (rtype : ℕ) → rtype < 2 ^ 16
        → rdata_at by_rrset rtype owner ≡ map (λ r. r.rdata) (filter (is_signature owner rtype) records.now)) }
{
    let mut by_rrset = BTreeMap::new(alloc);
    for record in records {
        if let Some(covered) = covered_type(record) {
            let rdata = record.rdata();
            add(alloc, &mut by_rrset, covered, &record.name, rdata)?;
        }
    }
    Ok(by_rrset)
}
