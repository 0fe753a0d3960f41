//! The compact list of a capture.
ghost use Rattle.std.specs.Prelude.{◌≡◌, ℕ, Contains, IfOk, List};
ghost use Rattle.std.specs.List.Sorted.{IsSorted, IsStrictlySortedBy};
ghost use Rattle.dnsv_canonical.specs.Rrsets.{ReceivedRrset};
ghost use Rattle.dnsv_compact.specs.CompactList.{AreInPlaces, AreKeysOf, ArePlacesOf, IsPlaceOf, key_cmp, key_of_entry, names_rrset, names_signature};
ghost use Rattle.dnsv_compact.specs.Signed.{AreSignedIn, IsGiven, signed_cmp};
ghost use Rattle.dnsv_verifier.specs.Within.{IsAskedWithin};
ghost use Rattle.dnsv_verifier.specs.declared.entry.Entry.{Entry};

use crate::key::{ListedKey, keys_of, number_of};
use crate::named::{Named, has_rrset, has_signature, named_by, rrsets_of};
use crate::place::Place;
use crate::signed::{Signed, all_signed, first_of};
use bumpalo::Bump;
use dnsv_canonical::Rrset;
use dnsv_timeline::Range;
use dnsv_verifier::{Entries, Entry};
use std::alloc::{AllocError, Global};
use std::marker::Model;

/// Entries by their parts: the keys, and of each entry the number of its key and the lowest signature that gives it.
#[derive(Drop)]
pub struct CompactList<'e> {
    keys: Vec<ListedKey<'e>>,
    /// One for each entry.
    places: Vec<Place>,
    /// The signatures that they name.
    named: Vec<Named>,
    /// The RRsets of these.
    rrsets: Vec<usize>,
}

impl<'e> Model for CompactList<'e> {
    ghost use Rattle.dnsv_compact.specs.CompactList.{EntryPlaces};
    ghost use Rattle.dnsv_compact.specs.Named.{AreNamedBy, AreRrsetsOf};

    ghost Value = { EntryPlaces };

    ghost view = { λ list. record {
      keys = list.keys.items;
      todo = list.places.items;
    } };

    ghost invariant = { λ list. AreNamedBy list.places.items list.named.items
        × AreRrsetsOf list.places.items list.rrsets.items };
}

impl<'e> CompactList<'e> {
    /// The list of entries, each of which is asked of the RRsets at some moment of the range.
    pub fn of<'b>(
        alloc: Global,
        bump: &'b Bump,
        range: Range,
        rrsets: &'b [Rrset<'b>],
        entries: &'e Entries<'_>,
    ) -> Result<CompactList<'e>, AllocError>
        requires { (entry : Entry) → Contains entries.now entry → IsAskedWithin range.from range.to rrsets.now entry }
        ensures { IfOk result (ArePlacesOf range.from range.to rrsets.now entries.now) }
    {
        let keys = keys_of(alloc, entries)?;
        let signed = all_signed(alloc, bump, range, rrsets)?;
        let places = places_of(alloc, &keys, &signed, entries)?;
        let named = named_by(alloc, &places)?;
        let rrsets_named = rrsets_of(alloc, &places)?;
        Ok(CompactList {
            keys,
            places,
            named,
            rrsets: rrsets_named,
        })
    }

    /// The keys, in the order of their numbers.
    pub fn keys(&self) -> &[ListedKey<'e>]
        ensures { result.now ≡ self.now.keys }
    {
        &self.keys
    }

    /// Where the parts of each entry are.
    pub fn places(&self) -> &[Place]
        ensures { result.now ≡ self.now.todo }
    {
        &self.places
    }

    /// Whether a place is in the RRset with the number.
    pub fn names_rrset(&self, rrset: usize) -> bool
        ensures { result ≡ names_rrset self.now.todo rrset }
    {
        has_rrset(&self.rrsets, rrset)
    }

    /// Whether a place is the signature with the number, of the RRset with the number.
    pub fn names_signature(&self, rrset: usize, signature: usize) -> bool
        ensures { result ≡ names_signature self.now.todo rrset signature }
    {
        has_signature(&self.named, rrset, signature)
    }
}

/// The places of the entries.
fn places_of(
    alloc: Global,
    keys: &[ListedKey<'_>],
    signed: &[Signed<'_>],
    entries: &Entries<'_>,
) -> Result<Vec<Place>, AllocError>
    requires keys { AreKeysOf entries.now keys.now }
    requires sorted { IsSorted signed_cmp signed.now }
    requires given { (entry : Entry) → Contains entries.now entry → IsGiven signed.now entry }
    ensures { (from to : ℕ) (rrsets : List ReceivedRrset) → AreSignedIn from to rrsets signed.now
        → IfOk result (λ places. AreInPlaces from to rrsets keys.now entries.now places.items) }
{
    let mut places = Vec::with_capacity(alloc, entries.len())?;
    for place in 0..entries.len() {
        places.push(place_of(keys, signed, &entries.at(place)))?;
    }
    Ok(places)
}

/// The place of the entry.
fn place_of(keys: &[ListedKey<'_>], signed: &[Signed<'_>], entry: &Entry<'_>) -> Place
    requires rising { IsStrictlySortedBy key_cmp keys.now }
    requires among { Contains keys.now (key_of_entry entry.now) }
    requires sorted { IsSorted signed_cmp signed.now }
    requires given { IsGiven signed.now entry.now }
    ensures { (from to : ℕ) (rrsets : List ReceivedRrset) → AreSignedIn from to rrsets signed.now
        → IsPlaceOf from to rrsets keys.now entry.now result }
{
    let Some(found) = first_of(signed, entry) else {
        unreachable!();
    };
    Place {
        key: number_of(keys, entry),
        rrset: found.rrset,
        signature: found.signature,
    }
}
