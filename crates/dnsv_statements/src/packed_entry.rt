//! Entries whose octets lie in one vector.
ghost use Rattle.std.specs.Prelude.{◌≡◌, Ok, IfOk, IsOk, refl};
ghost use Rattle.std.specs.Cmp.{partial_equiv_from_equiv, partial_order_from_agreeing_total};
ghost use Rattle.std.specs.Ordering.{as_partial_cmp, eq_by_cmp};
ghost use Rattle.std.proofs.lemmas.Cmp.{eq_by_cmp_equiv};
ghost use Rattle.hex.specs.Hex.{decode_of};
ghost use Rattle.dnsv_verifier.specs.Entry.{entry_cmp};

use dnsv_anchors::push_decoded;
use dnsv_records::{Algorithm, Octets};
use dnsv_verifier::{Entry, SignedData};
use std::alloc::{AllocError, Global};
use std::cmp::Ordering;
use std::marker::Model;

/// An entry whose key, signed data and signature lie one behind the other, so that it has one piece of memory.
#[derive(Drop)]
pub(crate) struct PackedEntry {
    algorithm: Algorithm,
    octets: Vec<u8>,
    /// Where the signed data begins.
    data_at: usize,
    /// Where the signature begins.
    signature_at: usize,
}

impl Model for PackedEntry {
    ghost use Rattle.std.specs.Prelude.{◌-◌, ◌≤◌, drop, length, take};
    ghost use Rattle.dnsv_verifier.specs.declared.entry.Entry.{Entry};

    ghost Value = { Entry };

    ghost view = { λ packed. record {
      algorithm = packed.algorithm;
      key = take packed.data_at packed.octets.items;
      signed_data = take (packed.signature_at - packed.data_at) (drop packed.data_at packed.octets.items);
      signature = drop packed.signature_at packed.octets.items;
    } };

    ghost invariant = { λ packed. (packed.data_at ≤ packed.signature_at)
        × (packed.signature_at ≤ length packed.octets.items) };
}

impl PackedEntry {
    /// The entry of these hex digits.
    pub(crate) fn of_digits(
        alloc: Global,
        algorithm: u8,
        key: &[u8],
        signed_data: &[u8],
        signature: &[u8],
    ) -> Result<PackedEntry, AllocError>
        requires key_decodes { IsOk (decode_of key.now) }
        requires signed_data_decodes { IsOk (decode_of signed_data.now) }
        requires signature_decodes { IsOk (decode_of signature.now) }
        ensures { IfOk result (λ entry. (entry.algorithm.0 ≡ algorithm)
            × (decode_of key.now ≡ Ok entry.key)
            × (decode_of signed_data.now ≡ Ok entry.signed_data)
            × (decode_of signature.now ≡ Ok entry.signature)) }
    {
        let room = key.len() / 2 + signed_data.len() / 2 + signature.len() / 2;
        let mut octets = Vec::with_capacity(alloc, room)?;
        push_decoded(&mut octets, key)?;
        let data_at = octets.len();
        push_decoded(&mut octets, signed_data)?;
        let signature_at = octets.len();
        push_decoded(&mut octets, signature)?;
        Ok(PackedEntry {
            algorithm: Algorithm(algorithm),
            octets,
            data_at,
            signature_at,
        })
    }

    /// The entry, whose octets stay where they are.
    pub(crate) fn entry(&self) -> Entry<'_>
        ensures { result ≡ self.now }
    {
        Entry {
            algorithm: self.algorithm,
            key: Octets::of(&self.octets[..self.data_at]),
            signed_data: SignedData::of(&self.octets[self.data_at..self.signature_at]),
            signature: Octets::of(&self.octets[self.signature_at..]),
        }
    }
}

impl Ord for PackedEntry {
    ghost use Rattle.dnsv_verifier.specs.EntryLaws.{entry_cmp_total};

    ghost cmp = { entry_cmp };

    ghost total = { entry_cmp_total };

    ghost matches_partial_cmp = { λ a b. refl };

    ghost matches_eq = { λ a b. refl };

    fn cmp(&self, other: &PackedEntry) -> Ordering {
        self.entry().stands_to(&other.entry())
    }
}

impl PartialOrd for PackedEntry {
    ghost use Rattle.dnsv_verifier.specs.EntryLaws.{entry_cmp_total};

    ghost partial_cmp = { as_partial_cmp entry_cmp };

    ghost laws = { partial_order_from_agreeing_total entry_cmp entry_cmp_total (λ a b. refl) (λ a b. refl) };

    fn partial_cmp(&self, other: &PackedEntry) -> Option<Ordering> {
        Some(self.cmp(other))
    }
}

impl PartialEq for PackedEntry {
    ghost use Rattle.dnsv_verifier.specs.EntryLaws.{entry_cmp_total};

    ghost eq = { eq_by_cmp entry_cmp };

    ghost laws = { partial_equiv_from_equiv (eq_by_cmp_equiv entry_cmp_total) };

    fn eq(&self, other: &PackedEntry) -> bool {
        self.cmp(other) == Ordering::Equal
    }
}

impl Eq for PackedEntry {
    ghost use Rattle.dnsv_verifier.specs.EntryLaws.{entry_cmp_total};

    ghost laws = { eq_by_cmp_equiv entry_cmp_total };
}
