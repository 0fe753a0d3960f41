//! The signatures of a DNSKEY RRset by their tags.
ghost use Rattle.std.specs.Prelude.{◌↔◌, Contains};
ghost use Rattle.dnsv_zone_faults.specs.Dnskeys.OwnSearch.{AreTagged};
ghost use Rattle.dnsv_zone_faults.specs.declared.zone.dnskeys.tagged.OwnSignature.{OwnSignature};

use crate::zone::places::Places;
use dnsv_records::{KeyTag, Rrsig};
use std::marker::Model;

/// A signature of a DNSKEY RRset with its number.
#[derive(Drop)]
pub struct OwnSignature<'a> {
    pub number: usize,
    pub rrsig: &'a Rrsig<'a>,
    /// What a verifier may be asked of: none where it can't be verified, whichever key made it.
    pub octets: Option<Vec<u8>>,
    /// The places, among the keys of the zone, of the keys in the RRset under which it is good.
    pub good: Places,
}

/// The signatures of a DNSKEY RRset by their tags.
#[derive(Drop)]
pub struct OwnSignatures<'a> {
    own: Vec<OwnSignature<'a>>,
}

impl<'a> Model for OwnSignatures<'a> {
    ghost use Rattle.std.specs.Prelude.{List};
    ghost use Rattle.std.specs.List.Sorted.{IsSortedByKey};
    ghost use Rattle.std.specs.Ordering.{nat_cmp};
    ghost use Rattle.dnsv_zone_faults.specs.Dnskeys.OwnSearch.{tag_of_own};
    ghost use Rattle.dnsv_zone_faults.specs.declared.zone.dnskeys.tagged.OwnSignature.{OwnSignature};

    ghost Value = { List OwnSignature };

    ghost view = { λ own. own.own.items };

    ghost invariant = { λ own. IsSortedByKey tag_of_own nat_cmp own.own.items };
}

impl<'a> OwnSignatures<'a> {
    /// These signatures.
    pub fn of(own: Vec<OwnSignature<'a>>) -> OwnSignatures<'a>
        ensures { (each : OwnSignature) → Contains result each ↔ Contains own.entry.items each }
    {
        let mut own = own;
        own.sort_unstable_by(|a, b| a.rrsig.key_tag.0.cmp(&b.rrsig.key_tag.0));
        OwnSignatures { own }
    }

    /// Those with the tag.
    pub fn tagged(&self, tag: KeyTag) -> &[OwnSignature<'a>]
        ensures { AreTagged self.now tag.0 result.now }
    {
        let own = self.own.as_slice();
        let start = own.partition_point(|each| each.rrsig.key_tag.0 < tag.0);
        let own = &own[start..];
        let count = own.partition_point(|each| each.rrsig.key_tag.0 <= tag.0);
        &own[..count]
    }
}
