//! NSEC3 records, looked up by halves: only those that can speak of a hash are asked.
ghost use Rattle.std.specs.Prelude.{◌≡◌, ◌≢◌, ◌≤◌, ◌-◌, ℕ, IfOk, Some, drop, length, slice_get, take};
ghost use Rattle.std.specs.List.Sorted.{IsPartitionPoint, IsSortedByKey};
ghost use Rattle.std.specs.declared.cmp.Ordering.TheVariants.{Less, Greater};
ghost use Rattle.dnsv_names.specs.Octets.{octets_cmp};
ghost use Rattle.dnsv_proof_forms.specs.records.HashIndex.{AreWithin, IsListed};
ghost use Rattle.dnsv_proof_forms.specs.declared.records.entry.Nsec3Entry.{Nsec3Entry};

use crate::records::entry::Nsec3Entry;
use crate::records::hash_places::{HashPlace, hash_places, reaches_of, wrapping_of};
use dnsv_names::Hash20;
use std::alloc::{AllocError, Global};
use std::marker::Model;

/// NSEC3 records in the order of their numbers, and an index of them by hash.
#[derive(Debug, Drop)]
pub struct Nsec3Entries<'a> {
    entries: Vec<Nsec3Entry<'a>>,
    /// In the order of the owners' hashes.
    by_hash: Vec<HashPlace>,
    /// Of each of these, the greatest next hash up to it.
    reaches: Vec<Hash20>,
    /// Those whose gap doesn't end behind its owner.
    wrapping: Vec<HashPlace>,
}

impl<'a> Model for Nsec3Entries<'a> {
    ghost use Rattle.std.specs.Prelude.{List};
    ghost use Rattle.std.specs.Ordering.{nat_cmp};
    ghost use Rattle.dnsv_proof_forms.specs.records.HashIndex.{IsIndexOf};
    ghost use Rattle.dnsv_proof_forms.specs.declared.records.entry.Nsec3Entry.{Nsec3Entry};
    ghost use Rattle.std.specs.Coded.{codes, coded_ℕ};
    ghost use Rattle.std.specs.FinSet as set;

    ghost Value = { List Nsec3Entry };

    ghost coded = { Prim.hlevel (codes, set.code {R = nat_cmp} coded_ℕ) };

    ghost view = { λ indexed. indexed.entries.items };

    ghost invariant = { λ indexed. IsIndexOf indexed.entries.items indexed.by_hash.items indexed.reaches.items
        indexed.wrapping.items };
}

impl<'a> Nsec3Entries<'a> {
    /// The records, which stand in the order of their numbers, with their index.
    pub fn new(alloc: Global, entries: Vec<Nsec3Entry<'a>>) -> Result<Nsec3Entries<'a>, AllocError>
        ensures { IfOk result (λ indexed. indexed ≡ entries.entry.items) }
    {
        let mut by_hash = hash_places(alloc, &entries)?;
        by_hash.sort_unstable_by(|a, b| a.hash.cmp(&b.hash));
        let reaches = reaches_of(alloc, &by_hash)?;
        let wrapping = wrapping_of(alloc, &by_hash)?;
        Ok(Nsec3Entries {
            entries,
            by_hash,
            reaches,
            wrapping,
        })
    }

    /// The records.
    pub fn as_slice(&self) -> &[Nsec3Entry<'a>]
        ensures { result.now ≡ self.now }
    {
        &self.entries
    }

    /// The places of the records that may have the hash.
    pub(crate) fn at(&self, hash: &Hash20) -> &[HashPlace]
        ensures within { AreWithin self.now result.now }
        ensures all { (place : ℕ) (entry : Nsec3Entry) → slice_get self.now place ≡ Some entry
            → entry.hash ≡ hash.now → IsListed result.now place }
    {
        let start = count_before(&self.by_hash, hash);
        let end = count_up_to(&self.by_hash, hash);
        between(&self.by_hash, start, end)
    }

    /// The places of the records that may have the hash in a gap that ends behind its owner.
    pub(crate) fn around(&self, hash: &Hash20) -> &[HashPlace]
        ensures within { AreWithin self.now result.now }
        ensures all { (place : ℕ) (entry : Nsec3Entry) → slice_get self.now place ≡ Some entry
            → octets_cmp entry.hash hash.now ≡ Less → octets_cmp hash.now entry.next_hash ≡ Less
            → IsListed result.now place }
    {
        let start = count_reaching_to(&self.reaches, hash);
        let end = count_before(&self.by_hash, hash);
        between(&self.by_hash, start, end)
    }

    /// The places of the records whose gap doesn't end behind its owner.
    pub(crate) fn wrapping(&self) -> &[HashPlace]
        ensures within { AreWithin self.now result.now }
        ensures all { (place : ℕ) (entry : Nsec3Entry) → slice_get self.now place ≡ Some entry
            → octets_cmp entry.hash entry.next_hash ≢ Less → IsListed result.now place }
    {
        &self.wrapping
    }
}

/// How many have a lesser hash.
fn count_before(places: &[HashPlace], hash: &Hash20) -> usize
    requires { IsSortedByKey (λ each. each.hash) octets_cmp places.now }
    ensures bound { result ≤ length places.now }
    ensures parted { IsPartitionPoint (λ each. octets_cmp each.hash hash.now ≡ Less)
        (λ each. octets_cmp each.hash hash.now ≢ Less) places.now result }
{
    places.partition_point(|each| each.hash.cmp(hash).is_lt())
}

/// How many have no greater hash.
fn count_up_to(places: &[HashPlace], hash: &Hash20) -> usize
    requires { IsSortedByKey (λ each. each.hash) octets_cmp places.now }
    ensures bound { result ≤ length places.now }
    ensures parted { IsPartitionPoint (λ each. octets_cmp each.hash hash.now ≢ Greater)
        (λ each. octets_cmp each.hash hash.now ≡ Greater) places.now result }
{
    places.partition_point(|each| each.hash.cmp(hash).is_le())
}

/// How many reach no further than the hash.
fn count_reaching_to(reaches: &[Hash20], hash: &Hash20) -> usize
    requires { IsSortedByKey (λ each. each) octets_cmp reaches.now }
    ensures bound { result ≤ length reaches.now }
    ensures parted { IsPartitionPoint (λ each. octets_cmp each hash.now ≢ Greater)
        (λ each. octets_cmp each hash.now ≡ Greater) reaches.now result }
{
    reaches.partition_point(|each| each.cmp(hash).is_le())
}

/// Those from the one place to before the other.
fn between(places: &[HashPlace], start: usize, end: usize) -> &[HashPlace]
    requires { end ≤ length places.now }
    ensures { result.now ≡ take (end - start) (drop start places.now) }
{
    if end <= start {
        return &places[..0];
    }
    &places[start..end]
}
