//! What entries are made of, each part kept once and numbered by its order.
ghost use Rattle.std.specs.Prelude.{◌≡◌, ◌<◌, Contains, IfOk, MatchOption, length};
ghost use Rattle.std.specs.List.Sorted.{IsStrictlySortedBy};
ghost use Rattle.dnsv_verifier.specs.Numbers.{AreNumbersOf, entry_of, key_cmp, key_of, signature_cmp, signature_of};
ghost use Rattle.dnsv_verifier.specs.declared.entry.parts.EntryNumbers.{EntryNumbers};
ghost use Rattle.dnsv_verifier.specs.declared.entry.parts.KeyPart.{KeyPart};
ghost use Rattle.dnsv_verifier.specs.declared.entry.parts.SignaturePart.{SignaturePart};

use crate::entry::Entry;
use crate::signed_data::SignedData;
use bumpalo::Bump;
use bumpalo::collections::into_bump_slice;
use dnsv_names::compare_octets;
use dnsv_records::{Algorithm, Octets};
use std::alloc::AllocError;
use std::cmp::Ordering;
use std::marker::Model;

/// The most parts of a kind that have numbers.
const LIMIT: usize = 1 << 32;

/// What a key gives to the entries that it has. Such parts are ordered by algorithm and key.
#[derive(Debug, PartialEq, Eq, PartialOrd, Ord, Drop)]
pub(crate) struct KeyPart<'b> {
    pub(crate) algorithm: Algorithm,
    pub(crate) key: Octets<'b>,
}

impl KeyPart<'_> {
    /// How the part stands to one of this algorithm and key.
    fn compared(&self, algorithm: Algorithm, key: &[u8]) -> Ordering
        ensures { result ≡ key_cmp self.now (record { algorithm = algorithm; key = key.now }) }
    {
        let own = self.key.as_slice();
        self.algorithm
            .0
            .cmp(&algorithm.0)
            .then_with(|| compare_octets(own, key))
    }
}

/// What a signature gives to the entries that it has, one for each key. Such parts are ordered by signed data and
/// signature.
#[derive(Debug, PartialEq, Eq, PartialOrd, Ord, Drop)]
pub(crate) struct SignaturePart<'b> {
    pub(crate) signed_data: SignedData<'b>,
    pub(crate) signature: Octets<'b>,
}

impl<'b> SignaturePart<'b> {
    /// The part again, whose octets stand where they stood.
    pub(crate) fn copied(&self) -> SignaturePart<'b>
        ensures { result ≡ self.now }
    {
        SignaturePart {
            signed_data: self.signed_data.copied(),
            signature: self.signature.copied(),
        }
    }

    /// How the part stands to one of this signed data and signature.
    fn compared(&self, signed_data: &SignedData<'_>, signature: &[u8]) -> Ordering
        ensures { result ≡ signature_cmp self.now
            (record { signed_data = signed_data.now; signature = signature.now }) }
    {
        let own = self.signature.as_slice();
        self.signed_data
            .stand_to(signed_data)
            .then_with(|| compare_octets(own, signature))
    }
}

/// An entry by the numbers of its parts. Entries rise as their numbers do, that of the key first.
#[derive(Clone, Copy, Debug, PartialEq, Eq, PartialOrd, Ord)]
pub(crate) struct EntryNumbers {
    pub(crate) key: u32,
    pub(crate) signature: u32,
}

/// The parts of entries, each once. Both kinds rise, so that a part's number is its place.
#[derive(Debug, Drop)]
pub(crate) struct Parts<'b> {
    keys: &'b [KeyPart<'b>],
    signatures: &'b [SignaturePart<'b>],
}

impl<'b> Model for Parts<'b> {
    ghost use Rattle.std.specs.Prelude.{◌≤◌, length};
    ghost use Rattle.std.specs.List.Sorted.{IsStrictlySortedBy};
    ghost use Rattle.dnsv_verifier.specs.Numbers.{PartLists, key_cmp, signature_cmp};

    ghost Value = { PartLists };

    ghost view = { λ parts. record {
      keys = parts.keys.now;
      signatures = parts.signatures.now;
    } };

    ghost invariant = { λ parts. IsStrictlySortedBy key_cmp parts.keys.now
        × IsStrictlySortedBy signature_cmp parts.signatures.now
        × (length parts.keys.now ≤ 4294967296) × (length parts.signatures.now ≤ 4294967296) };
}

impl<'b> Parts<'b> {
    /// The parts of these lists, each once. More than 2^32 of either are refused as want of memory.
    pub(crate) fn of(
        keys: Vec<KeyPart<'b>, &'b Bump>,
        signatures: Vec<SignaturePart<'b>, &'b Bump>,
    ) -> Result<Parts<'b>, AllocError>
        ensures keys { IfOk result (λ parts. (part : KeyPart) → Contains keys.entry.items part
            → Contains parts.keys part) }
        ensures signatures { IfOk result (λ parts. (part : SignaturePart)
            → Contains signatures.entry.items part → Contains parts.signatures part) }
        ensures rising { IfOk result (λ parts. IsStrictlySortedBy key_cmp parts.keys
            × IsStrictlySortedBy signature_cmp parts.signatures) }
    {
        let mut keys = keys;
        let mut signatures = signatures;
        keys.sort_unstable();
        keys.dedup();
        signatures.sort_unstable();
        signatures.dedup();
        if keys.len() > LIMIT || signatures.len() > LIMIT {
            return Err(AllocError);
        }
        Ok(Parts {
            keys: into_bump_slice(keys),
            signatures: into_bump_slice(signatures),
        })
    }

    /// The parts again, which stand where they stood.
    pub(crate) fn copied(&self) -> Parts<'b>
        ensures { result ≡ self.now }
    {
        Parts {
            keys: self.keys,
            signatures: self.signatures,
        }
    }

    /// The number of a key that is one of the parts.
    pub(crate) fn key_number(&self, algorithm: Algorithm, key: &[u8]) -> u32
        requires { Contains self.now.keys (record { algorithm = algorithm; key = key.now }) }
        ensures value { key_of self.now result ≡ record { algorithm = algorithm; key = key.now } }
        ensures within { result < length self.now.keys }
    {
        let Some(number) = self.find_key(algorithm, key) else {
            unreachable!();
        };
        number
    }

    /// The number of the key, where it is one of the parts.
    pub(crate) fn find_key(&self, algorithm: Algorithm, key: &[u8]) -> Option<u32>
        ensures { MatchOption result
            (¬ Contains self.now.keys (record { algorithm = algorithm; key = key.now }))
            (λ number. (number < length self.now.keys)
            × (key_of self.now number ≡ record { algorithm = algorithm; key = key.now })) }
    {
        let place = self
            .keys
            .binary_search_by(|part| part.compared(algorithm, key));
        match place {
            Ok(place) => Some(place as u32),
            Err(_) => None,
        }
    }

    /// The number of what a signature gives, which is one of the parts.
    pub(crate) fn signature_number(&self, part: &SignaturePart<'_>) -> u32
        requires { Contains self.now.signatures part.now }
        ensures value { signature_of self.now result ≡ part.now }
        ensures within { result < length self.now.signatures }
    {
        let signature = part.signature.as_slice();
        let Some(number) = self.find_signature(&part.signed_data, signature) else {
            unreachable!();
        };
        number
    }

    /// The number of what a signature gives, where it is one of the parts.
    fn find_signature(&self, signed_data: &SignedData<'_>, signature: &[u8]) -> Option<u32>
        ensures { MatchOption result
            (¬ Contains self.now.signatures
            (record { signed_data = signed_data.now; signature = signature.now }))
            (λ number. (number < length self.now.signatures) × (signature_of self.now number
            ≡ record { signed_data = signed_data.now; signature = signature.now })) }
    {
        let place = self
            .signatures
            .binary_search_by(|part| part.compared(signed_data, signature));
        match place {
            Ok(place) => Some(place as u32),
            Err(_) => None,
        }
    }

    /// The numbers of the entry, where its key and what its signature gives are among the parts.
    pub(crate) fn numbers_of(&self, entry: &Entry<'_>) -> Option<EntryNumbers>
        ensures { MatchOption result
            ((numbers : EntryNumbers) → AreNumbersOf self.now entry.now numbers → ⊥)
            (AreNumbersOf self.now entry.now) }
    {
        let Some(key) = self.find_key(entry.algorithm, entry.key.as_slice()) else {
            return None;
        };
        let signature = entry.signature.as_slice();
        let Some(signature) = self.find_signature(&entry.signed_data, signature) else {
            return None;
        };
        Some(EntryNumbers { key, signature })
    }

    /// The entry of the numbers, and one without octets where they are of nothing.
    pub(crate) fn entry(&self, numbers: EntryNumbers) -> Entry<'_>
        ensures { result ≡ entry_of self.now numbers }
    {
        let (algorithm, key) = self.key_at(numbers.key as usize);
        let (signed_data, signature) = self.signature_at(numbers.signature as usize);
        Entry {
            algorithm,
            key: Octets::of(key),
            signed_data,
            signature: Octets::of(signature),
        }
    }

    /// The key at the place.
    fn key_at(&self, place: usize) -> (Algorithm, &[u8])
        ensures { (result.0 ≡ (key_of self.now place).algorithm) × (result.1.now ≡ (key_of self.now place).key) }
    {
        match self.keys.get(place) {
            Some(part) => (part.algorithm, part.key.as_slice()),
            None => (Algorithm(0), &[]),
        }
    }

    /// The signed data and the signature at the place.
    fn signature_at(&self, place: usize) -> (SignedData<'_>, &[u8])
        ensures { (result.0 ≡ (signature_of self.now place).signed_data)
            × (result.1.now ≡ (signature_of self.now place).signature) }
    {
        match self.signatures.get(place) {
            Some(part) => (part.signed_data.copied(), part.signature.as_slice()),
            None => (SignedData::of(&[]), &[]),
        }
    }
}
