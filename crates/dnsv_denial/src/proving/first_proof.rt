//! The first proof of a denial among the records that are kept for a name.
ghost use Rattle.std.specs.Prelude.{◌≡◌, ◌+◌, List, MatchOption, length};
ghost use Rattle.std.specs.List.{AllByRecursion};
ghost use Rattle.dnsv_canonical.specs.Rrsets.{ReceivedRrset};
ghost use Rattle.dnsv_chain.specs.Trust.{KeptTrust, SecuredIn};
ghost use Rattle.dnsv_proof_forms.specs.forms.Denials.{DenialForm};
ghost use Rattle.dnsv_proof_forms.specs.forms.ShownUnsigned.{ShowsDenial};
ghost use Rattle.dnsv_denial.specs.gathering.Kept.{AreSets, AreZones};
ghost use Rattle.dnsv_proof_forms.specs.KeptHashes.{IsSetOf};
ghost use Rattle.dnsv_denial.specs.proving.ChainOf.{CanBeShown};
ghost use Rattle.dnsv_denial.specs.proving.FirstProof.{CanProveNoCloser};
ghost use Rattle.dnsv_denial.specs.proving.ShownDenials.{IsFirstShown, IsShownNoCloser};
ghost use Rattle.dnsv_proof_forms.specs.records.Numbers.{number_cmp};

use crate::gathering::zone_records::ZoneRecords;
use crate::proving::shown_denial::ShownDenial;
use crate::proving::zone_proof::zone_proof;
use dnsv_names::Name;
use dnsv_proof_forms::{Denial, NameHashes};

/// How the denial is shown, by the zone with most labels that proves it; or `None` where no zone has.
pub fn first_proof<'a>(
    denial: Denial,
    name: &'a Name,
    zones: &'a [ZoneRecords<'a, 'a>],
    sets: &'a [NameHashes<'a>],
) -> Option<ShownDenial>
    requires { AllByRecursion (IsSetOf name.now) sets.now }
    ensures { (trust : KeptTrust) (rrsets : List ReceivedRrset) → AreSets (SecuredIn trust) rrsets sets.now
        → AreZones (SecuredIn trust) rrsets name.now zones.now
        → MatchOption result
        (¬ CanBeShown (SecuredIn trust) rrsets denial name.now)
        (IsFirstShown (SecuredIn trust) rrsets name.now (λ said zone. DenialForm denial name.now said zone)
        (λ said zone. ShowsDenial number_cmp denial name.now said zone)) }
{
    let mut labels = zones.len();
    while labels > 0 {
        labels -= 1;
        if let Some(shown) = zone_proof(denial, name, &zones[labels], sets) {
            return Some(shown);
        }
    }
    None
}

/// The first proof that an answer of the zone from the wildcard below the name's so many rightmost labels has no closer
/// name against it; or `None` where the zone has none, or these labels are no proper ancestor of the name at or below
/// it.
pub fn no_closer(
    name: &Name,
    zone: &Name,
    labels: usize,
    zones: &[ZoneRecords<'_, '_>],
    sets: &[NameHashes<'_>],
) -> Option<ShownDenial>
    requires hashed { AllByRecursion (IsSetOf name.now) sets.now }
    requires zones { length zones.now ≡ length name.now + 1 }
    ensures { (trust : KeptTrust) (rrsets : List ReceivedRrset) → AreSets (SecuredIn trust) rrsets sets.now
        → AreZones (SecuredIn trust) rrsets name.now zones.now
        → MatchOption result (¬ CanProveNoCloser (SecuredIn trust) rrsets name.now labels zone.now)
        (IsShownNoCloser (SecuredIn trust) rrsets name.now labels zone.now) }
{
    if !name.is_at_or_below(zone) {
        return None;
    }
    let kept = &zones[zone.labels()];
    zone_proof(Denial::NoCloser(labels), name, kept, sets)
}
