//! Keys and signatures by what signatures name keys by, with their numbers.
ghost use Rattle.std.specs.Prelude.{◌≡◌, ◌<◌, Contains};
ghost use Rattle.std.specs.List.Sorted.{IsSortedByKey};
ghost use Rattle.dnsv_verifier.specs.Asking.{NumberedName, key_name_cmp};

use dnsv_names::WireName;
use dnsv_records::{Algorithm, KeyTag};
use std::cmp::Ordering;
use std::marker::Model;

/// The tag, the algorithm and the owner of a key, or those that a signature names, with the number of its part.
#[derive(Drop)]
pub(crate) struct Numbered<'a> {
    key_tag: KeyTag,
    algorithm: Algorithm,
    owner: WireName<'a>,
    number: u32,
}

impl<'a> Model for Numbered<'a> {
    ghost use Rattle.dnsv_verifier.specs.Asking.{NumberedName};

    ghost Value = { NumberedName };

    ghost view = { λ each. record {
      name = record { tag = each.key_tag.0; algorithm = each.algorithm.0; owner = each.owner };
      number = each.number;
    } };
}

impl<'a> Numbered<'a> {
    /// The name of these parts with the number.
    pub(crate) fn new(
        key_tag: KeyTag,
        algorithm: Algorithm,
        owner: WireName<'a>,
        number: u32,
    ) -> Numbered<'a>
        ensures { result ≡ record {
          name = record { tag = key_tag.0; algorithm = algorithm.0; owner = owner.entry };
          number = number;
        } }
    {
        Numbered {
            key_tag,
            algorithm,
            owner,
            number,
        }
    }

    /// The number.
    pub(crate) fn number(&self) -> u32
        ensures { result ≡ self.now.number }
    {
        self.number
    }

    /// How the name stands to the other's.
    pub(crate) fn stands_to(&self, other: &Numbered<'_>) -> Ordering
        ensures { result ≡ key_name_cmp self.now.name other.now.name }
    {
        let (algorithm, other_algorithm) = (self.algorithm, other.algorithm);
        let order = self
            .key_tag
            .0
            .cmp(&other.key_tag.0)
            .then_with(|| algorithm.0.cmp(&other_algorithm.0));
        match order {
            Ordering::Less => Ordering::Less,
            Ordering::Equal => self.owner.canonical_cmp(&other.owner),
            Ordering::Greater => Ordering::Greater,
        }
    }
}

/// Those that have the name, of some that are in order of names.
pub(crate) fn with_name<'s, 'a>(all: &'s [Numbered<'a>], name: &Numbered<'_>) -> &'s [Numbered<'a>]
    requires { IsSortedByKey (λ each. each.name) key_name_cmp all.now }
    ensures among { (each : NumberedName) → Contains result.now each → Contains all.now each }
    ensures named { (each : NumberedName) → Contains result.now each
        → key_name_cmp each.name name.now.name ≡ Ordering.Equal }
    ensures all { (each : NumberedName) → Contains all.now each
        → key_name_cmp each.name name.now.name ≡ Ordering.Equal → Contains result.now each }
{
    let start = all.partition_point(|each| each.stands_to(name).is_lt());
    let rest = &all[start..];
    let count = rest.partition_point(|each| each.stands_to(name).is_le());
    &rest[..count]
}
