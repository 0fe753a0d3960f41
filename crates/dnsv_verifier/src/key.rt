//! DNSKEY records with what is asked of them.

pub mod keys;
pub mod numbered;

ghost use Rattle.std.specs.Prelude.{◌≡◌, ◌↔◌, ◌<◌, Contains, IsTrue, length};
ghost use Rattle.dnsv_records.specs.Dnskey.{IsDnskey};
ghost use Rattle.dnsv_records.specs.Dnskey.KeyTag.{key_tag_of};
ghost use Rattle.dnsv_verifier.specs.Asking.{CanSign, key_name_cmp, name_of_key};
ghost use Rattle.dnsv_verifier.specs.Numbers.{key_of, part_of_key};

use crate::entry::parts::{KeyPart, Parts};
use crate::key::numbered::Numbered;
use dnsv_names::{Name, WireName};
use dnsv_records::{Algorithm, Dnskey, KeyTag, key_tag};
use std::cmp::Ordering;
use std::marker::Model;

/// A DNSKEY record that lies elsewhere: its owner, its RDATA as received, what that says, and its key tag, which is
/// worked out once.
#[derive(Drop)]
pub struct KeyRecord<'a> {
    owner: &'a Name,
    rdata: &'a [u8],
    dnskey: &'a Dnskey<'a>,
    key_tag: KeyTag,
}

impl<'a> Model for KeyRecord<'a> {
    ghost use Rattle.std.specs.Prelude.{◌≡◌};
    ghost use Rattle.dnsv_verifier.specs.Admissible.{DnskeyRecord};
    ghost use Rattle.dnsv_records.specs.Dnskey.{IsDnskey};
    ghost use Rattle.dnsv_records.specs.Dnskey.KeyTag.{key_tag_of};

    ghost Value = { DnskeyRecord };

    ghost view = { λ key. record {
      owner = key.owner.now;
      rdata = key.rdata.now;
      dnskey = key.dnskey.now;
    } };

    ghost invariant = { λ key. (key.key_tag.0 ≡ key_tag_of key.rdata.now) × IsDnskey key.rdata.now key.dnskey.now };
}

impl<'a> KeyRecord<'a> {
    /// The record of this owner and RDATA. `dnskey` has to be what was read of that RDATA.
    pub fn new(owner: &'a Name, rdata: &'a [u8], dnskey: &'a Dnskey<'a>) -> KeyRecord<'a>
        requires { IsDnskey rdata.now dnskey.now }
        ensures { result ≡ record { owner = owner.now; rdata = rdata.now; dnskey = dnskey.now } }
    {
        KeyRecord {
            owner,
            rdata,
            dnskey,
            key_tag: KeyTag(key_tag(rdata)),
        }
    }

    /// The owner as it is spelled.
    pub fn owner(&self) -> &Name
        ensures { result.now ≡ self.now.owner }
    {
        self.owner
    }

    /// The RDATA as received.
    pub fn rdata(&self) -> &'a [u8]
        ensures { result.now ≡ self.now.rdata }
    {
        self.rdata
    }

    /// What the RDATA says.
    pub fn dnskey(&self) -> &'a Dnskey<'a>
        ensures { result.now ≡ self.now.dnskey }
    {
        self.dnskey
    }

    /// The key tag (RFC 4034 appendix B).
    pub fn key_tag(&self) -> KeyTag
        ensures { result.0 ≡ key_tag_of self.now.rdata }
    {
        self.key_tag
    }

    /// How the key stands to one of this tag, algorithm and owner, by these.
    pub(crate) fn compared(&self, key_tag: KeyTag, algorithm: Algorithm, owner: &Name) -> Ordering
        ensures { result ≡ key_name_cmp (name_of_key self.now) (record {
          tag = key_tag.0;
          algorithm = algorithm.0;
          owner = owner.now;
        }) }
    {
        let own_algorithm = self.dnskey.algorithm;
        let own = self.owner;
        self.key_tag
            .0
            .cmp(&key_tag.0)
            .then_with(|| own_algorithm.0.cmp(&algorithm.0))
            .then_with(|| own.cmp(owner))
    }

    /// How the key stands to the other by tag, algorithm and owner.
    pub(crate) fn stands_to(&self, other: &KeyRecord<'_>) -> Ordering
        ensures { result ≡ key_name_cmp (name_of_key self.now) (name_of_key other.now) }
    {
        self.compared(other.key_tag, other.dnskey.algorithm, other.owner)
    }

    /// Whether the key may have made some signature, as far as the key says (RFC 4034 2.1.1, 2.1.2).
    pub(crate) fn can_sign(&self) -> bool
        ensures { IsTrue result ↔ CanSign self.now }
    {
        self.dnskey.protocol == 3
            && self.dnskey.flags.is_zone_key()
            && self.dnskey.algorithm.is_supported()
    }

    /// What the key gives to its entries.
    pub(crate) fn part(&self) -> KeyPart<'a>
        ensures { result ≡ part_of_key self.now }
    {
        KeyPart {
            algorithm: self.dnskey.algorithm,
            key: self.dnskey.key.copied(),
        }
    }

    /// The number of what the key gives to its entries.
    pub(crate) fn number_in(&self, parts: &Parts<'_>) -> u32
        requires { Contains parts.now.keys (part_of_key self.now) }
        ensures value { key_of parts.now result ≡ part_of_key self.now }
        ensures within { result < length parts.now.keys }
    {
        parts.key_number(self.dnskey.algorithm, self.dnskey.key.as_slice())
    }

    /// The key by what signatures name it by, with a number.
    pub(crate) fn with_number(&self, number: u32) -> Numbered<'a>
        ensures { result ≡ record { name = name_of_key self.now; number = number } }
    {
        Numbered::new(
            self.key_tag,
            self.dnskey.algorithm,
            WireName::of(self.owner),
            number,
        )
    }
}
