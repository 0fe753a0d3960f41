//! Keys with their places.
ghost use Rattle.std.specs.Prelude.{◌≡◌};
ghost use Rattle.dnsv_verifier.specs.Asking.{key_name_cmp};
ghost use Rattle.dnsv_zone_keys.specs.Keys.Index.{name_of};

use dnsv_names::Name;
use dnsv_records::{Algorithm, KeyTag};
use dnsv_verifier::KeyRecord;
use std::cmp::Ordering;
use std::marker::Model;

/// A key with its place among those of its owner, from 0.
#[derive(Drop)]
pub struct PlacedKey<'a> {
    place: usize,
    key: KeyRecord<'a>,
}

impl<'a> Model for PlacedKey<'a> {
    ghost use Rattle.dnsv_zone_keys.specs.Keys.Index.{Placed};

    ghost Value = { Placed };

    ghost view = { λ placed. record { place = placed.place; key = placed.key } };
}

impl<'a> PlacedKey<'a> {
    /// The key with the place.
    pub fn new(place: usize, key: KeyRecord<'a>) -> PlacedKey<'a>
        ensures { result ≡ record { place = place; key = key.entry } }
    {
        PlacedKey { place, key }
    }

    /// Its place.
    pub fn place(&self) -> usize
        ensures { result ≡ self.now.place }
    {
        self.place
    }

    /// The key.
    pub fn key(&self) -> &KeyRecord<'a>
        ensures { result.now ≡ self.now.key }
    {
        &self.key
    }

    /// How the key stands to one of this tag, algorithm and owner, by these.
    pub(crate) fn compared(&self, key_tag: KeyTag, algorithm: Algorithm, owner: &Name) -> Ordering
        ensures { result ≡ key_name_cmp (name_of self.now) (record {
          tag = key_tag.0;
          algorithm = algorithm.0;
          owner = owner.now;
        }) }
    {
        let own_algorithm = self.key.dnskey().algorithm;
        let own = self.key.owner();
        self.key
            .key_tag()
            .0
            .cmp(&key_tag.0)
            .then_with(|| own_algorithm.0.cmp(&algorithm.0))
            .then_with(|| own.cmp(owner))
    }

    /// How the key stands to the other by tag, algorithm and owner.
    pub(crate) fn stands_to(&self, other: &PlacedKey<'_>) -> Ordering
        ensures { result ≡ key_name_cmp (name_of self.now) (name_of other.now) }
    {
        let key = other.key();
        self.compared(key.key_tag(), key.dnskey().algorithm, key.owner())
    }
}
