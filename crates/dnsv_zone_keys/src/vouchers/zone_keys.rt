//! The keys of a zone by their tags.
ghost use Rattle.std.specs.Prelude.{◌≡◌, Contains, IfOk};
ghost use Rattle.dnsv_zone_keys.specs.Keys.Index.{Placed};
ghost use Rattle.dnsv_zone_keys.specs.Vouchers.VoucherSearch.{AreKeysOfZone, tag_of};

use crate::keys::placed::PlacedKey;
use crate::keys::zone_keys;
use crate::vouchers::digested::DigestedKey;
use dnsv_canonical::Capture;
use dnsv_names::Name;
use dnsv_records::KeyTag;
use std::alloc::{AllocError, Global};
use std::marker::Model;

/// The keys of a zone with their places and digests, by their tags.
#[derive(Drop)]
pub struct ZoneKeys<'a> {
    keys: Vec<DigestedKey<'a>>,
}

impl<'a> Model for ZoneKeys<'a> {
    ghost use Rattle.std.specs.Prelude.{List};
    ghost use Rattle.std.specs.List.Sorted.{IsSortedByKey};
    ghost use Rattle.std.specs.Ordering.{nat_cmp};
    ghost use Rattle.dnsv_zone_keys.specs.Keys.Index.{Placed};
    ghost use Rattle.dnsv_zone_keys.specs.Vouchers.VoucherSearch.{tag_of};

    ghost Value = { List Placed };

    ghost view = { λ keys. keys.keys.items };

    ghost invariant = { λ keys. IsSortedByKey tag_of nat_cmp keys.keys.items };
}

impl<'a> ZoneKeys<'a> {
    /// The keys of the zone, with their digests where these are to be kept.
    pub fn of(
        alloc: Global,
        capture: &'a Capture<'a>,
        zone: &'a Name,
        is_kept: bool,
    ) -> Result<ZoneKeys<'a>, AllocError>
        ensures { IfOk result (AreKeysOfZone capture.now.rrsets zone.now) }
    {
        let placed = zone_keys(alloc, capture, zone)?;
        let mut keys = digested_keys(alloc, placed, is_kept)?;
        keys.sort_unstable_by(|a, b| a.key().key_tag().0.cmp(&b.key().key_tag().0));
        Ok(ZoneKeys { keys })
    }

    /// Those with the tag.
    pub(crate) fn tagged(&self, tag: KeyTag) -> &[DigestedKey<'a>]
        ensures among { (placed : Placed) → Contains result.now placed → Contains self.now placed }
        ensures all { (placed : Placed) → Contains self.now placed → tag_of placed ≡ tag.0 → Contains result.now placed }
    {
        let keys = self.keys.as_slice();
        let start = keys.partition_point(|each| each.key().key_tag().0 < tag.0);
        let keys = &keys[start..];
        let count = keys.partition_point(|each| each.key().key_tag().0 <= tag.0);
        &keys[..count]
    }
}

/// The keys with their digests.
fn digested_keys<'a>(
    alloc: Global,
    placed: Vec<PlacedKey<'a>>,
    is_kept: bool,
) -> Result<Vec<DigestedKey<'a>>, AllocError>
    ensures { IfOk result (λ keys. keys.items ≡ placed.entry.items) }
{
    let mut keys = Vec::with_capacity(alloc, placed.len())?;
    for each in placed {
        keys.push(DigestedKey::new(each, is_kept))?;
    }
    Ok(keys)
}
