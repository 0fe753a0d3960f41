//! Proofs that a name or a type isn't there, as they are given.
ghost use Rattle.std.specs.Prelude.{◌≡◌};

use arrayvec::ArrayVec;
use dnsv_canonical::RecordNumber;
use dnsv_names::Name;
use std::marker::Model;

/// A proof that a name or a type isn't there (RFC 4035 5.4, RFC 5155 8): the zone that has it, and the records that
/// show it. It lies in the value itself and takes no memory.
#[derive(Debug, Drop)]
pub struct Proof {
    zone: Name,
    records: ArrayVec<RecordNumber, 3>,
}

impl Model for Proof {
    ghost use Rattle.dnsv_denial.specs.proving.FirstProof.{ProofRecords};

    ghost Value = { ProofRecords };

    ghost view = { λ proof. record { zone = proof.zone; records = proof.records.items } };
}

impl Proof {
    /// The proof by these records of the zone.
    pub(crate) fn new(zone: Name, records: ArrayVec<RecordNumber, 3>) -> Proof
        ensures { result ≡ record { zone = zone; records = records.items } }
    {
        Proof { zone, records }
    }

    /// The zone, spelled as the question's name spells it.
    pub fn zone(&self) -> &Name
        ensures { result.now ≡ self.now.zone }
    {
        &self.zone
    }

    /// The numbers of the records, each once and rising: at most three.
    pub fn records(&self) -> &[RecordNumber]
        ensures { result.now ≡ self.now.records }
    {
        &self.records
    }
}
