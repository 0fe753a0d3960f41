//! A name with its hashes, for whoever asks for it again.
ghost use Rattle.std.specs.Prelude.{◌≡◌, ◌↔◌, IfOk, IsTrue, List};
ghost use Rattle.dnsv_names.specs.Count.{counted};
ghost use Rattle.dnsv_records.specs.declared.nsec3.Nsec3Parameters.{Nsec3Parameters};
ghost use Rattle.dnsv_zones.specs.chains.HashedNames.{hashes_for};
ghost use Rattle.dnsv_canonical.specs.Evidence.{AreParameters, nsec3_rdata};

use dnsv_canonical::Capture;
use dnsv_names::{Count, Name};
use dnsv_proof_forms::Hashes;
use std::alloc::{AllocError, Global};
use std::marker::Model;
use std::rc::Rc;

/// A name with the hashes for it, of which each question of the name has a share.
#[derive(Drop)]
pub struct HashedName<'a> {
    name: Name,
    hashes: Rc<Hashes<'a>>,
    /// How many SHA-1 digests the hashes take.
    digests: u64,
}

impl<'a> Model for HashedName<'a> {
    ghost use Rattle.std.specs.Prelude.{◌≡◌};
    ghost use Rattle.dnsv_proof_forms.specs.QuestionHashes.{HashedQuestion};
    ghost use Rattle.dnsv_verdict.specs.Report.Hashed.{AreDigestsFor};

    ghost Value = { HashedQuestion };

    ghost view = { λ hashed. hashed.hashes.value };

    ghost invariant = { λ hashed. (hashed.hashes.value.name ≡ hashed.name)
        × AreDigestsFor hashed.hashes.value hashed.digests };
}

impl<'a> HashedName<'a> {
    /// Makes the hashes for the name, with the parameters of the capture.
    pub fn new(
        alloc: Global,
        capture: &'a Capture<'a>,
        name: &Name,
    ) -> Result<HashedName<'a>, AllocError>
        ensures { IfOk result (λ hashed. hashed ≡ record { rrsets = capture.now.rrsets; name = name.now }) }
    {
        let mut digests = Count::new();
        let hashes = Hashes::new(alloc, capture, name, &mut digests)?;
        Ok(HashedName {
            name: name.clone()?,
            hashes: Rc::new(alloc, hashes)?,
            digests: digests.value(),
        })
    }

    /// Whether they are for this name, as it is spelled.
    pub fn is_for(&self, name: &Name) -> bool
        ensures { IsTrue result ↔ (self.now.name ≡ name.now) }
    {
        are_same(self.name.wire(), name.wire())
    }

    /// A share of the hashes. `hashed` grows by the digests that they take, whoever they were made for.
    pub fn share(&self, hashed: &mut Count) -> Result<Rc<Hashes<'a>>, AllocError>
        ensures value { IfOk result (λ hashes. hashes.value ≡ self.now) }
        ensures hashed { (all : List Nsec3Parameters) → AreParameters (nsec3_rdata self.now.rrsets) all
            → hashed.new ≡ counted hashed.old (hashes_for self.now.name all) }
    {
        hashed.add(self.digests);
        Ok(self.hashes.clone()?)
    }
}

/// Whether the octets are the same.
fn are_same(octets: &[u8], other: &[u8]) -> bool
    ensures { IsTrue result ↔ (octets.now ≡ other.now) }
{
    octets == other
}
