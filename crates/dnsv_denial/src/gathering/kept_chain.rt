//! The records of one chain of a zone, as they are taken from those that are kept.
ghost use Rattle.std.specs.Prelude.{List};
ghost use Rattle.dnsv_names.specs.Name.{Labels};
ghost use Rattle.dnsv_canonical.specs.Rrsets.{ReceivedRrset};
ghost use Rattle.dnsv_chain.specs.Trust.{KeptTrust, SecuredIn};
ghost use Rattle.dnsv_denial.specs.proving.ChainOf.{IsChainOf};
ghost use Rattle.dnsv_denial.specs.proving.ZoneChains.{HasKeptHashes, IsKeptOf};
ghost use Rattle.dnsv_proof_forms.specs.words.ChainSaid.{HasHashes};
ghost use Rattle.dnsv_denial.specs.gathering.EvidenceWords.{Chain};

use dnsv_proof_forms::{ChainRecords, HashedRecords, NsecEntry};

/// The records of one chain of a zone, with the hashes that are asked of NSEC3 records.
#[derive(Clone, Copy)]
pub enum KeptChain<'a> {
    /// The zone's NSEC records.
    Nsec(&'a [NsecEntry<'a>]),
    /// Its NSEC3 records, with the hashes of one set of parameters.
    Nsec3(HashedRecords<'a>),
}

impl KeptChain<'_> {
    /// The records, as forms are looked for among them.
    pub fn records(&self) -> ChainRecords<'_>
        ensures hashes { (name : Labels) → HasKeptHashes name self.now → HasHashes name result }
        ensures chain { (trust : KeptTrust) (rrsets : List ReceivedRrset) (zone : Labels) (chain : Chain)
            → IsKeptOf (SecuredIn trust) rrsets zone chain self.now
            → IsChainOf (SecuredIn trust) rrsets zone chain result }
    {
        match self {
            KeptChain::Nsec(entries) => ChainRecords::Nsec(entries),
            KeptChain::Nsec3(hashed) => ChainRecords::Nsec3(hashed),
        }
    }
}
