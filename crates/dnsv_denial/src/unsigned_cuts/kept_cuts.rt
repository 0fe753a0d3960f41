//! From which name on a question's name may be unsigned, by what is kept for the name.
ghost use Rattle.std.specs.Prelude.{◌≡◌, ◌+◌, List, MatchOption};
ghost use Rattle.dnsv_names.specs.Name.{rightmost};
ghost use Rattle.dnsv_canonical.specs.Rrsets.{ReceivedRrset};
ghost use Rattle.dnsv_chain.specs.Trust.{KeptTrust, SecuredIn};
ghost use Rattle.dnsv_denial.specs.gathering.Kept.{IsViewOf};
ghost use Rattle.dnsv_denial.specs.unsigned_cuts.Cuts.{HasOptedOutNextCloser, HasUnsignedCut, IsUnsignedCut};

use crate::gathering::zone_records::ZoneRecords;
use crate::unsigned_cuts::first_cut::first_cut;
use crate::unsigned_cuts::shown_cuts::zones_cuts;
use crate::unsigned_cuts::unusable_ds::highest_unusable_ds;
use crate::unsigned_cuts::zone_opt_out::zone_opts_out_next_closer;
use dnsv_canonical::Capture;
use dnsv_chain::Trust;
use dnsv_names::Name;
use dnsv_proof_forms::{NameHashes, next_closer};

/// The name from which on the name may be unsigned, or `None` where the evidence shows none (RFC 4035 5.2, RFC 5155
/// 8.6, 8.9, 9.2).
pub fn unsigned_cut(
    capture: &Capture<'_>,
    trust: &Trust<'_>,
    name: &Name,
    zones: &[ZoneRecords<'_, '_>],
    sets: &[NameHashes<'_>],
) -> Option<Name>
    requires { IsViewOf (SecuredIn trust.now) capture.now.rrsets name.now sets.now zones.now }
    ensures { MatchOption result (¬ HasUnsignedCut (SecuredIn trust.now) capture.now.rrsets name.now)
        (IsUnsignedCut (SecuredIn trust.now) capture.now.rrsets name.now) }
{
    let shown = zones_cuts(zones, name, sets);
    let no_usable_ds = highest_unusable_ds(capture, trust, name);
    first_cut(name, shown.no_ds, no_usable_ds, shown.opt_out)
}

/// The next closer name to the name's so many labels, if an unsigned delegation of the zone may stand there against an
/// answer from the wildcard (RFC 5155 8.8).
pub fn opted_out_next_closer(
    name: &Name,
    zone: &Name,
    labels: usize,
    zones: &[ZoneRecords<'_, '_>],
    sets: &[NameHashes<'_>],
) -> Option<Name>
    requires { (trust : KeptTrust) × (rrsets : List ReceivedRrset)
        × IsViewOf (SecuredIn trust) rrsets name.now sets.now zones.now }
    ensures { (trust : KeptTrust) (rrsets : List ReceivedRrset)
        → IsViewOf (SecuredIn trust) rrsets name.now sets.now zones.now
        → MatchOption result (¬ HasOptedOutNextCloser (SecuredIn trust) rrsets name.now labels zone.now)
        (λ next_closer. HasOptedOutNextCloser (SecuredIn trust) rrsets name.now labels zone.now
        × (next_closer ≡ rightmost name.now (labels + 1))) }
{
    if !name.is_at_or_below(zone) {
        return None;
    }
    let kept = &zones[zone.labels()];
    if !zone_opts_out_next_closer(kept, name, labels, sets) {
        return None;
    }
    Some(next_closer(name, labels))
}
