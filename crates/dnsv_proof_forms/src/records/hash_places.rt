//! The places of NSEC3 records by the hashes of their owners.
ghost use Rattle.std.specs.Prelude.{◌≢◌, IfOk};
ghost use Rattle.std.specs.declared.cmp.Ordering.TheVariants.{Less};
ghost use Rattle.dnsv_names.specs.Octets.{octets_cmp};
ghost use Rattle.dnsv_proof_forms.specs.records.HashIndex.{ArePlacesOf, AreReachesOf, AreWrapping};

use crate::records::entry::Nsec3Entry;
use dnsv_names::Hash20;
use std::alloc::{AllocError, Global};

/// Where a record is among those in the order of their numbers, and its gap.
#[derive(Clone, Copy, Debug)]
pub struct HashPlace {
    /// The hash that the record's owner spells.
    pub hash: Hash20,
    /// The next owner's hash.
    pub next: Hash20,
    /// The record's place.
    pub place: usize,
}

/// The places of the records, in their order.
pub fn hash_places(alloc: Global, entries: &[Nsec3Entry<'_>]) -> Result<Vec<HashPlace>, AllocError>
    ensures { IfOk result (λ places. ArePlacesOf entries.now places.items) }
{
    let mut places = Vec::new(alloc);
    for (place, entry) in entries.iter().enumerate() {
        places.push(HashPlace {
            hash: entry.hash,
            next: entry.next_hash,
            place,
        })?;
    }
    Ok(places)
}

/// Of each place, the greatest next hash of those up to it.
pub fn reaches_of(alloc: Global, places: &[HashPlace]) -> Result<Vec<Hash20>, AllocError>
    ensures { IfOk result (λ reaches. AreReachesOf places.now reaches.items) }
{
    let mut reaches = Vec::new(alloc);
    let mut reach = Hash20::new([0; 20]);
    for each in places {
        reach = farther(reach, each.next);
        reaches.push(reach)?;
    }
    Ok(reaches)
}

/// The greater of the two hashes.
fn farther(one: Hash20, other: Hash20) -> Hash20
    ensures one { octets_cmp result one ≢ Less }
    ensures other { octets_cmp result other ≢ Less }
{
    if one < other {
        return other;
    }
    one
}

/// The places whose gap doesn't end behind its owner: it goes on at the least hash, or the owner is alone.
pub fn wrapping_of(alloc: Global, places: &[HashPlace]) -> Result<Vec<HashPlace>, AllocError>
    ensures { IfOk result (λ wrapping. AreWrapping places.now wrapping.items) }
{
    let mut wrapping = Vec::new(alloc);
    for each in places {
        if each.next <= each.hash {
            wrapping.push(*each)?;
        }
    }
    Ok(wrapping)
}
