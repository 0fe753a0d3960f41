//! The NSEC records of RRsets.
ghost use Rattle.std.specs.Prelude.{◌≡◌, ◌++◌, Contains, List, IfOk, OnOk};
ghost use Rattle.std.specs.List.Sorted.{IsStrictlySortedBy};
ghost use Rattle.std.specs.Ordering.{nat_cmp};
ghost use Rattle.dnsv_canonical.specs.Rrsets.{IsNumbered, ReceivedRrset};
ghost use Rattle.dnsv_denial.specs.gathering.Gathered.{AreNsecs};

use dnsv_canonical::{Capture, RecordNumber, Rrset};
use dnsv_names::RecordType;
use dnsv_proof_forms::NsecEntry;
use dnsv_rrsets::in_canonical_order;
use std::alloc::{AllocError, Global};

/// The NSEC records of the RRsets with these rising numbers, in the order of their numbers.
pub fn nsecs_of<'a>(
    alloc: Global,
    capture: &'a Capture<'a>,
    numbers: &[usize],
) -> Result<Vec<NsecEntry<'a>>, AllocError>
    requires { IsStrictlySortedBy nat_cmp numbers.now }
    ensures { IfOk result (λ entries. AreNsecs capture.now.rrsets (λ each. Contains numbers.now each.rrset) entries.items) }
{
    let mut entries = Vec::new(alloc);
    for number in numbers {
        add_nsecs(alloc, &mut entries, capture, *number)?;
    }
    Ok(entries)
}

/// Adds the records of the RRset with the number, if it has NSEC records.
fn add_nsecs<'a>(
    alloc: Global,
    entries: &mut Vec<NsecEntry<'a>>,
    capture: &'a Capture<'a>,
    number: usize,
) -> Result<(), AllocError>
    ensures { OnOk result ((more : List NsecEntry) × (entries.new.items ≡ entries.old.items ++ more)
        × AreNsecs capture.now.rrsets (λ each. each.rrset ≡ number) more) }
{
    let Some(rrset) = capture.rrset(number) else {
        return Ok(());
    };
    if rrset.rtype() != RecordType::NSEC {
        return Ok(());
    }
    push_nsecs(alloc, entries, number, rrset)?;
    Ok(())
}

/// Adds the records of the NSEC RRset with the number, in canonical order.
fn push_nsecs<'a>(
    alloc: Global,
    entries: &mut Vec<NsecEntry<'a>>,
    number: usize,
    rrset: &'a Rrset<'a>,
) -> Result<(), AllocError>
    requires { rrset.now.rtype ≡ 47 }
    ensures { (rrsets : List ReceivedRrset) → IsNumbered rrsets number rrset.now
        → OnOk result ((more : List NsecEntry) × (entries.new.items ≡ entries.old.items ++ more)
        × AreNsecs rrsets (λ each. each.rrset ≡ number) more) }
{
    let records = in_canonical_order(alloc, rrset, rrset.nsecs())?;
    for (place, each) in records.iter().enumerate() {
        entries.push(NsecEntry {
            number: RecordNumber {
                rrset: number,
                place: place + 1,
            },
            owner: rrset.owner(),
            nsec: each.record,
        })?;
    }
    Ok(())
}
