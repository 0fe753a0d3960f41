//! What a verifier is asked.

pub mod parts;

ghost use Rattle.std.specs.Prelude.{◌≡◌, refl};
ghost use Rattle.std.specs.Cmp.{partial_equiv_from_equiv, partial_order_from_agreeing_total};
ghost use Rattle.std.specs.Ordering.{as_partial_cmp, eq_by_cmp};
ghost use Rattle.std.proofs.lemmas.Cmp.{eq_by_cmp_equiv};
ghost use Rattle.dnsv_verifier.specs.Admissible.{entry_over};
ghost use Rattle.dnsv_verifier.specs.Entry.{entry_cmp};

use crate::key::KeyRecord;
use crate::signed_data::SignedData;
use dnsv_names::compare_octets;
use dnsv_records::{Algorithm, Octets, Rrsig};
use std::cmp::Ordering;

/// The four values that a signature is verified by (RFC 4035 5.3.3). Entries are ordered by algorithm, key,
/// signed data and signature, octets as unsigned numbers.
#[derive(Debug, Drop)]
pub struct Entry<'b> {
    /// The number of the algorithm (RFC 4034 A.1).
    pub algorithm: Algorithm,
    /// The public key, as the field of a DNSKEY record has it (RFC 4034 2.1.4).
    pub key: Octets<'b>,
    /// The octets that are signed (RFC 4034 3.1.8.1).
    pub signed_data: SignedData<'b>,
    /// The signature, as the field of an RRSIG record has it (RFC 4034 3.1.8).
    pub signature: Octets<'b>,
}

impl Entry<'_> {
    /// How this entry stands to the other: by algorithm, key, signed data and signature.
    pub fn stands_to(&self, other: &Entry<'_>) -> Ordering
        ensures { result ≡ entry_cmp self.now other.now }
    {
        let (key, other_key) = (self.key.as_slice(), other.key.as_slice());
        let (signature, other_signature) = (self.signature.as_slice(), other.signature.as_slice());
        let keys = self
            .algorithm
            .0
            .cmp(&other.algorithm.0)
            .then_with(|| compare_octets(key, other_key));
        let signed = match keys {
            Ordering::Less => Ordering::Less,
            Ordering::Equal => self.signed_data.stand_to(&other.signed_data),
            Ordering::Greater => Ordering::Greater,
        };
        signed.then_with(|| compare_octets(signature, other_signature))
    }
}

/// What a verifier is asked about the signature over the octets under the key.
pub fn entry_over<'a>(rrsig: &'a Rrsig<'a>, octets: &'a [u8], key: &'a KeyRecord<'a>) -> Entry<'a>
    ensures { result ≡ entry_over rrsig.now octets.now key.now }
{
    Entry {
        algorithm: rrsig.algorithm,
        key: Octets::of(key.dnskey().key.as_slice()),
        signed_data: SignedData::of(octets),
        signature: Octets::of(rrsig.signature.as_slice()),
    }
}

impl Ord for Entry<'_> {
    ghost use Rattle.dnsv_verifier.specs.Entry.{entry_cmp};
    ghost use Rattle.dnsv_verifier.specs.EntryLaws.{entry_cmp_total};

    ghost cmp = { entry_cmp };

    ghost total = { entry_cmp_total };

    ghost matches_partial_cmp = { λ a b. refl };

    ghost matches_eq = { λ a b. refl };

    fn cmp(&self, other: &Entry<'_>) -> Ordering {
        self.stands_to(other)
    }
}

impl PartialOrd for Entry<'_> {
    ghost use Rattle.dnsv_verifier.specs.Entry.{entry_cmp};
    ghost use Rattle.dnsv_verifier.specs.EntryLaws.{entry_cmp_total};

    ghost partial_cmp = { as_partial_cmp entry_cmp };

    ghost laws = { partial_order_from_agreeing_total entry_cmp entry_cmp_total (λ a b. refl) (λ a b. refl) };

    fn partial_cmp(&self, other: &Entry<'_>) -> Option<Ordering> {
        Some(self.cmp(other))
    }
}

impl PartialEq for Entry<'_> {
    ghost use Rattle.dnsv_verifier.specs.Entry.{entry_cmp};
    ghost use Rattle.dnsv_verifier.specs.EntryLaws.{entry_cmp_total};

    ghost eq = { eq_by_cmp entry_cmp };

    ghost laws = { partial_equiv_from_equiv (eq_by_cmp_equiv entry_cmp_total) };

    fn eq(&self, other: &Entry<'_>) -> bool {
        self.cmp(other) == Ordering::Equal
    }
}

impl Eq for Entry<'_> {
    ghost use Rattle.dnsv_verifier.specs.EntryLaws.{entry_cmp_total};

    ghost laws = { eq_by_cmp_equiv entry_cmp_total };
}
