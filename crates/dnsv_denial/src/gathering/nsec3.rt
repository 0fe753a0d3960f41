//! The NSEC3 records of RRsets that are a zone's by their owner.
ghost use Rattle.std.specs.Prelude.{◌≡◌, ◌++◌, ℕ, Contains, List, IfOk, MatchOption, OnOk};
ghost use Rattle.std.specs.List.Sorted.{IsStrictlySortedBy};
ghost use Rattle.std.specs.Ordering.{nat_cmp};
ghost use Rattle.dnsv_records.specs.Nsec3.{IsUsable};
ghost use Rattle.dnsv_canonical.specs.Rrsets.{IsNumbered, ReceivedRrset};
ghost use Rattle.dnsv_denial.specs.gathering.Evidence.{IsHashedOwner};
ghost use Rattle.dnsv_denial.specs.gathering.Gathered.{AreNsec3s, IsEntryOf};

use dnsv_canonical::{Capture, RecordNumber, Rrset};
use dnsv_names::{Hash20, Name, RecordType};
use dnsv_proof_forms::Nsec3Entry;
use dnsv_records::{Nsec3, base32hex_read};
use dnsv_rrsets::in_canonical_order;
use std::alloc::{AllocError, Global};

/// The usable NSEC3 records of the RRsets with these rising numbers, one label in front of the zone, in the order of their
/// numbers (RFC 5155 3, 8.2).
pub fn nsec3s_of<'a>(
    alloc: Global,
    capture: &'a Capture<'a>,
    zone: &Name,
    numbers: &[usize],
) -> Result<Vec<Nsec3Entry<'a>>, AllocError>
    requires { IsStrictlySortedBy nat_cmp numbers.now }
    ensures { IfOk result (λ entries. AreNsec3s capture.now.rrsets zone.now (λ each. Contains numbers.now each.rrset)
        entries.items) }
{
    let mut entries = Vec::new(alloc);
    for number in numbers {
        add_nsec3s(alloc, &mut entries, capture, zone, *number)?;
    }
    Ok(entries)
}

/// Adds the usable records of the RRset with the number, if it has NSEC3 records of the zone.
fn add_nsec3s<'a>(
    alloc: Global,
    entries: &mut Vec<Nsec3Entry<'a>>,
    capture: &'a Capture<'a>,
    zone: &Name,
    number: usize,
) -> Result<(), AllocError>
    ensures { OnOk result ((more : List Nsec3Entry) × (entries.new.items ≡ entries.old.items ++ more)
        × AreNsec3s capture.now.rrsets zone.now (λ each. each.rrset ≡ number) more) }
{
    let Some(rrset) = capture.rrset(number) else {
        return Ok(());
    };
    if rrset.rtype() != RecordType::NSEC3 {
        return Ok(());
    }
    let Some(hash) = owner_hash(rrset.owner(), zone) else {
        return Ok(());
    };
    push_nsec3s(alloc, entries, number, rrset, zone, hash)?;
    Ok(())
}

/// The hash that the owner spells, one label in front of the zone (RFC 5155 3).
pub fn owner_hash(owner: &Name, zone: &Name) -> Option<Hash20>
    ensures { MatchOption result ((hash : List ℕ) → ¬ IsHashedOwner zone.now owner.now hash)
        (IsHashedOwner zone.now owner.now) }
{
    let labels = owner.labels();
    if labels == 0 {
        return None;
    }
    if owner.suffix(labels - 1) == *zone {
        return base32hex_read(owner.label(0));
    }
    None
}

/// Adds the usable records of the NSEC3 RRset with the number, in canonical order.
fn push_nsec3s<'a>(
    alloc: Global,
    entries: &mut Vec<Nsec3Entry<'a>>,
    number: usize,
    rrset: &'a Rrset<'a>,
    zone: &Name,
    hash: Hash20,
) -> Result<(), AllocError>
    requires rtype { rrset.now.rtype ≡ 50 }
    requires owner { IsHashedOwner zone.now rrset.now.owner hash }
    ensures { (rrsets : List ReceivedRrset) → IsNumbered rrsets number rrset.now
        → OnOk result ((more : List Nsec3Entry) × (entries.new.items ≡ entries.old.items ++ more)
        × AreNsec3s rrsets zone.now (λ each. each.rrset ≡ number) more) }
{
    let records = in_canonical_order(alloc, rrset, rrset.nsec3s())?;
    for (place, each) in records.iter().enumerate() {
        let number = RecordNumber {
            rrset: number,
            place: place + 1,
        };
        if let Some(entry) = usable_entry(number, hash, each.record) {
            let Ok(()) = entries.push(entry) else {
                return Err(AllocError);
            };
        }
    }
    Ok(())
}

/// The record with the number and hash, if it is usable.
fn usable_entry<'a>(
    number: RecordNumber,
    hash: Hash20,
    nsec3: &'a Nsec3<'a>,
) -> Option<Nsec3Entry<'a>>
    ensures { MatchOption result (¬ IsUsable nsec3.now) (λ entry. IsEntryOf number hash nsec3.now entry) }
{
    let Some(used) = nsec3.usable() else {
        return None;
    };
    Some(Nsec3Entry {
        number,
        hash,
        is_opt_out: used.is_opt_out,
        parameters: used.parameters,
        next_hash: used.next_hash,
        types: used.types,
    })
}
