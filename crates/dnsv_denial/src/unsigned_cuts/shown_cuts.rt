//! Where the records of kept zones show that names may be unsigned.
ghost use Rattle.std.specs.Prelude.{List};
ghost use Rattle.std.specs.List.{AllByRecursion};
ghost use Rattle.dnsv_canonical.specs.Rrsets.{ReceivedRrset};
ghost use Rattle.dnsv_chain.specs.Trust.{KeptTrust, SecuredIn};
ghost use Rattle.dnsv_denial.specs.gathering.Kept.{AreSets, AreZones, IsZoneOf};
ghost use Rattle.dnsv_proof_forms.specs.KeptHashes.{IsSetOf};
ghost use Rattle.dnsv_denial.specs.proving.ChainOf.{IsChainOf};
ghost use Rattle.dnsv_denial.specs.unsigned_cuts.Cuts.{IsOptOutCut, IsUnsignedDelegationCut};
ghost use Rattle.dnsv_denial.specs.unsigned_cuts.ShownCuts.{AreBoth, AreShown, IsCutIn, IsCutOf, IsOptOutIn, IsOptOutOf};
ghost use Rattle.dnsv_proof_forms.specs.words.ChainSaid.{HasHashes};
ghost use Rattle.dnsv_denial.specs.gathering.EvidenceWords.{Chain};

use crate::gathering::zone_records::{ZoneRecords, zone_chain};
use crate::unsigned_cuts::findings::{greater, lesser};
use dnsv_names::Name;
use dnsv_proof_forms::{ChainRecords, NameHashes, opt_out, unsigned_delegation};

/// What chains show of where a name may be unsigned, each as a number of its rightmost labels.
#[derive(Clone, Copy)]
pub struct ShownCuts {
    /// The highest delegation without DS (RFC 4035 5.2, RFC 5155 8.9).
    pub no_ds: Option<usize>,
    /// The closest encloser with most labels where Opt-Out may leave out a delegation (RFC 5155 8.6, 9.2).
    pub opt_out: Option<usize>,
}

/// What any chain of these zones shows.
pub fn zones_cuts<'a>(
    zones: &'a [ZoneRecords<'a, 'a>],
    name: &'a Name,
    sets: &'a [NameHashes<'a>],
) -> ShownCuts
    requires { AllByRecursion (IsSetOf name.now) sets.now }
    ensures { (trust : KeptTrust) (rrsets : List ReceivedRrset)
        → AreZones (SecuredIn trust) rrsets name.now zones.now → AreSets (SecuredIn trust) rrsets sets.now
        → AreShown (IsUnsignedDelegationCut (SecuredIn trust) rrsets name.now)
        (IsOptOutCut (SecuredIn trust) rrsets name.now) result }
{
    let mut found = ShownCuts {
        no_ds: None,
        opt_out: None,
    };
    for zone in zones {
        found = both(found, zone_cuts(zone, name, sets));
    }
    found
}

/// What any chain of the zone shows.
fn zone_cuts<'a>(
    zone: &'a ZoneRecords<'a, 'a>,
    name: &'a Name,
    sets: &'a [NameHashes<'a>],
) -> ShownCuts
    requires { AllByRecursion (IsSetOf name.now) sets.now }
    ensures { (trust : KeptTrust) (rrsets : List ReceivedRrset) → IsZoneOf (SecuredIn trust) rrsets zone.now
        → AreSets (SecuredIn trust) rrsets sets.now
        → AreShown (IsCutIn (SecuredIn trust) rrsets name.now zone.now.zone)
        (IsOptOutIn (SecuredIn trust) rrsets name.now zone.now.zone) result }
{
    let mut found = ShownCuts {
        no_ds: None,
        opt_out: None,
    };
    for number in 0..sets.len() + 1 {
        let chain = zone_chain(number, name, zone, sets);
        found = both(found, chain_cuts(&zone.zone, name, &chain.records()));
    }
    found
}

/// What the records of a chain of the zone show.
fn chain_cuts(zone: &Name, name: &Name, records: &ChainRecords<'_>) -> ShownCuts
    requires { HasHashes name.now records.now }
    ensures { (trust : KeptTrust) (rrsets : List ReceivedRrset) (chain : Chain)
        → IsChainOf (SecuredIn trust) rrsets zone.now chain records.now
        → AreShown (IsCutOf (SecuredIn trust) rrsets name.now zone.now chain)
        (IsOptOutOf (SecuredIn trust) rrsets name.now zone.now chain) result }
{
    let no_ds = unsigned_delegation(zone, name, records);
    let left_out = opt_out(zone, name, records);
    ShownCuts {
        no_ds,
        opt_out: left_out,
    }
}

/// What the two show together.
fn both(one: ShownCuts, other: ShownCuts) -> ShownCuts
    ensures { AreBoth one other result }
{
    ShownCuts {
        no_ds: lesser(one.no_ds, other.no_ds),
        opt_out: greater(one.opt_out, other.opt_out),
    }
}
