//! RDATA by the RRset that it belongs to or covers, while a section is read.
ghost use Rattle.std.specs.Prelude.{◌≡◌, ◌++◌, ◌∷◌, [], ◌&&◌, ◌==◌, ◌<◌, ◌^◌, ℕ, IfOk, OnOk, map, if◌then◌else◌};
ghost use Rattle.std.specs.Str.{bytes_eq};
ghost use Rattle.dnsv_names.specs.Name.{Labels, same_name};
ghost use Rattle.dnsv_canonical.specs.ByRrset.{rdata_at};
ghost use Rattle.dnsv_canonical.specs.Rrsets.{first_appearances};

use dnsv_message::{NameRef, NameRefByWire};
use dnsv_names::RecordType;
use std::alloc::{AllocError, Global};
use std::collections::{BTreeMap, BTreeSet};

/// RDATA by the type and owner of the RRset that it belongs to or covers. It's a tree, so that n records take time
/// in proportion to n log n, whatever their owners are.
pub type RdataByRrset<'a, 'b> = BTreeMap<(RecordType, NameRefByWire<'a>), Vec<&'b [u8]>>;

/// Adds RDATA behind what is there for the type and owner.
pub fn add<'a, 'b>(
    alloc: Global,
    by_rrset: &mut RdataByRrset<'a, 'b>,
    rtype: RecordType,
    owner: &'a NameRef<'a>,
    rdata: &'b [u8],
) -> Result<(), AllocError>
    ensures { OnOk result ((t : ℕ) (name : Labels) → rdata_at by_rrset.new t name ≡ rdata_at by_rrset.old t name
        ++ (if t == rtype.0 && same_name name owner.now then rdata.now ∷ [] else [])) }
{
    let mut first = Vec::with_capacity(alloc, 1)?;
    first.push(rdata)?;
    // Mostly nothing is there, and one search does.
    if let Some(mut received) = by_rrset.insert((rtype, NameRefByWire(owner)), first)? {
        received.push(rdata)?;
        by_rrset.insert((rtype, NameRefByWire(owner)), received)?;
    }
    Ok(())
}

/// Takes out the RDATA that is there for the type and owner: none where nothing is.
pub fn take_rdata<'a, 'b>(
    alloc: Global,
    by_rrset: &mut RdataByRrset<'a, 'b>,
    rtype: RecordType,
    owner: &'a NameRef<'a>,
) -> Vec<&'b [u8]>
    ensures value { map (λ r. r.now) result.items ≡ rdata_at by_rrset.old rtype.0 owner.now }
    ensures left { (t : ℕ) (name : Labels) → rdata_at by_rrset.new t name
        ≡ (if rtype.0 == t && same_name owner.now name then [] else rdata_at by_rrset.old t name) }
{
    match by_rrset.remove(&(rtype, NameRefByWire(owner))) {
        Some(rdata) => rdata,
        None => Vec::new(alloc),
    }
}

/// The RDATA that is there for the type and owner, in order, of equal ones the first.
pub fn distinct_rdata<'a, 'b>(
    alloc: Global,
    by_rrset: &RdataByRrset<'a, 'b>,
    rtype: RecordType,
    owner: &'a NameRef<'a>,
) -> Result<Vec<&'b [u8]>, AllocError>
    ensures once { IfOk result (λ first_ones. map (λ r. r.now) first_ones.items
        ≡ first_appearances bytes_eq (rdata_at by_rrset.now rtype.0 owner.now)) }
    // The type has 16 bits, which a caller needs to know of signatures.
    ensures fits { rtype.0 < 2 ^ 16 }
{
    let Some(received) = by_rrset.get(&(rtype, NameRefByWire(owner))) else {
        return Ok(Vec::new(alloc));
    };
    each_once(alloc, Vec::from_slice(alloc, received)?)
}

/// The RDATA in its order, of equal ones the first.
pub fn each_once<'b>(alloc: Global, received: Vec<&'b [u8]>) -> Result<Vec<&'b [u8]>, AllocError>
    ensures { IfOk result (λ first_ones. map (λ r. r.now) first_ones.items
        ≡ first_appearances bytes_eq (map (λ r. r.now) received.entry.items)) }
{
    if received.len() < 2 {
        return Ok(received);
    }
    let mut first_ones = Vec::new(alloc);
    let mut seen = BTreeSet::new(alloc);
    for rdata in received.as_slice() {
        if seen.insert(*rdata)? {
            first_ones.push(*rdata)?;
        }
    }
    Ok(first_ones)
}
