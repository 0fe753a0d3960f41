//! The keys of the evidence by what signatures name them by.
ghost use Rattle.std.specs.Prelude.{◌≡◌, ◌↔◌, ◌∷◌, ℕ, List, Contains, IfOk, IsTrue, OnOk};
ghost use Rattle.dnsv_canonical.specs.Rrsets.{IsNumbered};
ghost use Rattle.dnsv_zone_keys.specs.Keys.Index.{AreIndexed, IsNamedBySigner, Placed};
ghost use Rattle.dnsv_zone_keys.specs.Keys.ZoneSearch.{AddsZone, IsFirstOfKeys};

use crate::keys::placed::PlacedKey;
use crate::keys::zone_keys;
use dnsv_canonical::{Capture, Rrset};
use dnsv_names::RecordType;
use dnsv_records::Rrsig;
use std::alloc::{AllocError, Global};
use std::marker::Model;

/// The keys of the evidence with their places, by tag, algorithm and owner.
#[derive(Drop)]
pub struct KeyIndex<'a> {
    keys: Vec<PlacedKey<'a>>,
}

impl<'a> Model for KeyIndex<'a> {
    ghost use Rattle.std.specs.Prelude.{List};
    ghost use Rattle.std.specs.List.Sorted.{IsSortedByKey};
    ghost use Rattle.dnsv_verifier.specs.Asking.{key_name_cmp};
    ghost use Rattle.dnsv_zone_keys.specs.Keys.Index.{Placed, name_of};

    ghost Value = { List Placed };

    ghost view = { λ index. index.keys.items };

    ghost invariant = { λ index. IsSortedByKey name_of key_name_cmp index.keys.items };
}

impl<'a> KeyIndex<'a> {
    /// The keys of the capture.
    pub fn of(alloc: Global, capture: &'a Capture<'a>) -> Result<KeyIndex<'a>, AllocError>
        ensures { IfOk result (AreIndexed capture.now.rrsets) }
    {
        let mut keys = placed_keys(alloc, capture)?;
        keys.sort_unstable_by(|a, b| a.stands_to(b));
        Ok(KeyIndex { keys })
    }

    /// The keys that the signature names: those of its signer with its tag and its algorithm.
    pub fn named_by(&self, rrsig: &Rrsig<'_>) -> &[PlacedKey<'a>]
        ensures among { (placed : Placed) → Contains result.now placed → Contains self.now placed }
        ensures named { (placed : Placed) → Contains result.now placed → IsNamedBySigner rrsig.now placed.key }
        ensures all { (placed : Placed) → Contains self.now placed → IsNamedBySigner rrsig.now placed.key
            → Contains result.now placed }
    {
        let keys = self.keys.as_slice();
        let signer = &rrsig.signer.to_name();
        let start = keys.partition_point(|key| {
            key.compared(rrsig.key_tag, rrsig.algorithm, signer).is_lt()
        });
        let keys = &keys[start..];
        let count = keys.partition_point(|key| {
            key.compared(rrsig.key_tag, rrsig.algorithm, signer).is_le()
        });
        &keys[..count]
    }
}

/// The keys of all zones.
fn placed_keys<'a>(
    alloc: Global,
    capture: &'a Capture<'a>,
) -> Result<Vec<PlacedKey<'a>>, AllocError>
    ensures { IfOk result (λ keys. AreIndexed capture.now.rrsets keys.items) }
{
    let mut keys = Vec::new(alloc);
    for (place, rrset) in capture.rrsets().iter().enumerate() {
        add_zone(alloc, capture, place + 1, rrset, &mut keys)?;
    }
    Ok(keys)
}

/// Adds the keys of the RRset's owner, where it is the first DNSKEY RRset there.
fn add_zone<'a>(
    alloc: Global,
    capture: &'a Capture<'a>,
    number: usize,
    rrset: &'a Rrset<'a>,
    keys: &mut Vec<PlacedKey<'a>>,
) -> Result<(), AllocError>
    requires { IsNumbered capture.now.rrsets number rrset.now }
    ensures { OnOk result (AddsZone capture.now.rrsets number rrset.now keys.old.items keys.new.items) }
{
    if !is_first_of_keys(capture, number, rrset) {
        return Ok(());
    }
    let mut own = zone_keys(alloc, capture, rrset.owner())?;
    keys.append(&mut own)?;
    Ok(())
}

/// Whether the RRset is the first DNSKEY RRset of its owner.
fn is_first_of_keys(capture: &Capture<'_>, number: usize, rrset: &Rrset<'_>) -> bool
    ensures { IsTrue result ↔ IsFirstOfKeys capture.now.rrsets number rrset.now }
{
    match capture.at(rrset.owner(), RecordType::DNSKEY).first() {
        Some(first) => *first == number,
        None => false,
    }
}
