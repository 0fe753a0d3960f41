//! The keys of the evidence.
ghost use Rattle.std.specs.Prelude.{◌≡◌, Contains, IfOk, OnOk};
ghost use Rattle.dnsv_verifier.specs.Admissible.{DnskeyRecord, MayHaveMade};
ghost use Rattle.dnsv_verifier.specs.Asking.{AddsJust, AreKeysOf, IsKeyOf};

use crate::key::KeyRecord;
use dnsv_canonical::Rrset;
use dnsv_records::Rrsig;
use std::alloc::{AllocError, Global};
use std::marker::Model;

/// The keys of the evidence by tag, algorithm and owner, which signatures name them by.
#[derive(Drop)]
pub(crate) struct Keys<'a> {
    keys: Vec<KeyRecord<'a>>,
}

impl<'a> Model for Keys<'a> {
    ghost use Rattle.std.specs.Prelude.{List};
    ghost use Rattle.std.specs.List.Sorted.{IsSortedByKey};
    ghost use Rattle.dnsv_verifier.specs.Admissible.{DnskeyRecord};
    ghost use Rattle.dnsv_verifier.specs.Asking.{key_name_cmp, name_of_key};

    ghost Value = { List DnskeyRecord };

    ghost view = { λ keys. keys.keys.items };

    ghost invariant = { λ keys. IsSortedByKey name_of_key key_name_cmp keys.keys.items };
}

impl<'a> Keys<'a> {
    /// The keys of all RRsets, whatever message they came in.
    pub(crate) fn of(alloc: Global, rrsets: &'a [Rrset<'a>]) -> Result<Keys<'a>, AllocError>
        ensures { IfOk result (λ keys. AreKeysOf rrsets.now keys) }
    {
        let mut keys = all_keys(alloc, rrsets)?;
        keys.sort_unstable_by(|a, b| a.stands_to(b));
        Ok(Keys { keys })
    }

    /// The keys.
    pub(crate) fn as_slice(&self) -> &[KeyRecord<'a>]
        ensures { result.now ≡ self.now }
    {
        self.keys.as_slice()
    }

    /// The keys that the signature names.
    pub(crate) fn named_by(&self, rrsig: &Rrsig<'_>) -> &[KeyRecord<'a>]
        ensures among { (key : DnskeyRecord) → Contains result.now key → Contains self.now key }
        ensures all { (key : DnskeyRecord) → Contains self.now key → MayHaveMade key rrsig.now
            → Contains result.now key }
    {
        let keys = self.keys.as_slice();
        let signer = &rrsig.signer.to_name();
        let start = keys.partition_point(|key| {
            key.compared(rrsig.key_tag, rrsig.algorithm, signer).is_lt()
        });
        let keys = &keys[start..];
        let count = keys.partition_point(|key| {
            key.compared(rrsig.key_tag, rrsig.algorithm, signer).is_le()
        });
        &keys[..count]
    }
}

/// The keys of all RRsets, whatever message they came in.
pub fn all_keys<'a>(
    alloc: Global,
    rrsets: &'a [Rrset<'a>],
) -> Result<Vec<KeyRecord<'a>>, AllocError>
    ensures { IfOk result (λ keys. AreKeysOf rrsets.now keys.items) }
{
    let mut keys = Vec::new(alloc);
    for rrset in rrsets {
        add_keys(rrset, &mut keys)?;
    }
    Ok(keys)
}

/// Adds the keys of the RRset.
pub fn add_keys<'a>(rrset: &'a Rrset<'a>, keys: &mut Vec<KeyRecord<'a>>) -> Result<(), AllocError>
    ensures { OnOk result (AddsJust (IsKeyOf rrset.now) keys.old.items keys.new.items) }
{
    for (place, dnskey) in rrset.dnskeys().iter().enumerate() {
        keys.push(KeyRecord::new(rrset.owner(), rrset.rdata(place), dnskey))?;
    }
    Ok(())
}
