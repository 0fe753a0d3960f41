//! The records of one zone, and its chains one after another.
ghost use Rattle.std.specs.Prelude.{◌≡◌, ◌≤◌, List, length};
ghost use Rattle.std.specs.List.{AllByRecursion};
ghost use Rattle.dnsv_canonical.specs.Rrsets.{ReceivedRrset};
ghost use Rattle.dnsv_chain.specs.Trust.{KeptTrust, SecuredIn};
ghost use Rattle.dnsv_proof_forms.specs.KeptHashes.{IsSetOf};
ghost use Rattle.dnsv_denial.specs.gathering.Kept.{IsZoneOf, records_of};
ghost use Rattle.dnsv_denial.specs.proving.ZoneChains.{HasKeptHashes, IsKeptOf, chain_at};
ghost use Rattle.dnsv_proof_forms.specs.records.AskedHash.{HasHashesOf};

use crate::gathering::kept_chain::KeptChain;
use dnsv_names::Name;
use dnsv_proof_forms::{HashedRecords, NameHashes, Nsec3Entries, NsecEntry};

/// NSEC and NSEC3 records of a zone.
#[derive(Drop)]
pub struct GatheredRecords<'a> {
    /// The NSEC records, in the order of their numbers.
    pub nsecs: Vec<NsecEntry<'a>>,
    /// The NSEC3 records that can be used, whatever their parameters.
    pub nsec3s: Nsec3Entries<'a>,
}

/// The records of a zone that evidence has.
#[derive(Drop)]
pub struct ZoneRecords<'c, 't> {
    /// The zone's name, as the question's name spells it.
    pub zone: Name,
    /// Its records.
    pub records: HeldRecords<'c, 't>,
}

/// The records that a zone secured, by whoever keeps them.
#[derive(Drop)]
pub enum HeldRecords<'c, 't> {
    /// Gathered for one question.
    Own(GatheredRecords<'c>),
    /// Kept with those of other zones, for many questions.
    Lent(&'t GatheredRecords<'t>),
}

impl<'a> HeldRecords<'a, 'a> {
    /// The records.
    fn get(&'a self) -> &'a GatheredRecords<'a>
        ensures { result.now ≡ records_of self.now }
    {
        match self {
            HeldRecords::Own(records) => records,
            HeldRecords::Lent(records) => records,
        }
    }
}

/// The records of the zone's chain with this number, in the order in which chains are asked: NSEC is 0, and NSEC3 with
/// the parameters of each set follows, in the order of the sets.
pub fn zone_chain<'a>(
    number: usize,
    name: &'a Name,
    zone: &'a ZoneRecords<'a, 'a>,
    sets: &'a [NameHashes<'a>],
) -> KeptChain<'a>
    requires number { number ≤ length sets.now }
    requires hashed { AllByRecursion (IsSetOf name.now) sets.now }
    ensures hashes { HasKeptHashes name.now result }
    ensures chain { (trust : KeptTrust) (rrsets : List ReceivedRrset) → IsZoneOf (SecuredIn trust) rrsets zone.now
        → IsKeptOf (SecuredIn trust) rrsets zone.now.zone (chain_at sets.now number) result }
{
    if number == 0 {
        return KeptChain::Nsec(&zone.records.get().nsecs);
    }
    KeptChain::Nsec3(nsec3_records(name, zone, &sets[number - 1]))
}

/// The zone's NSEC3 records, with the set's hashes of the names that a question of the name asks for.
fn nsec3_records<'a>(
    name: &'a Name,
    zone: &'a ZoneRecords<'a, 'a>,
    set: &'a NameHashes<'a>,
) -> HashedRecords<'a>
    requires { IsSetOf name.now set.now }
    ensures entries { result.entries.now ≡ (records_of zone.now.records).nsec3s }
    ensures parameters { result.parameters.now ≡ set.now.parameters.now }
    ensures name { result.name.now ≡ name.now }
    ensures hashes { HasHashesOf result }
{
    HashedRecords {
        entries: &zone.records.get().nsec3s,
        name,
        parameters: set.parameters,
        above: &set.hashed.above,
        wildcards: &set.hashed.wildcards,
    }
}
