//! How it is shown from which name on a question's name may be unsigned.
ghost use Rattle.std.specs.Prelude.{◌≡◌, ◌+◌, List, MatchOption, length};
ghost use Rattle.std.specs.List.{AllByRecursion};
ghost use Rattle.dnsv_canonical.specs.Rrsets.{ReceivedRrset};
ghost use Rattle.dnsv_chain.specs.Trust.{KeptTrust, SecuredIn};
ghost use Rattle.dnsv_denial.specs.gathering.Kept.{AreSets, AreZones, IsViewOf};
ghost use Rattle.dnsv_proof_forms.specs.KeptHashes.{IsSetOf};
ghost use Rattle.dnsv_denial.specs.unsigned_cuts.Cuts.{HasOptedOutNextCloser, HasUnsignedCut};
ghost use Rattle.dnsv_denial.specs.unsigned_cuts.ShownCut.{IsShownCut, IsShownOptOutCloser};

use crate::gathering::zone_records::ZoneRecords;
use crate::proving::first_proof::first_proof;
use crate::proving::shown_denial::ShownDenial;
use crate::proving::zone_proof::zone_proof;
use crate::unsigned_cuts::shown_cuts::zones_cuts;
use crate::unsigned_cuts::unusable_ds::highest_unusable_ds;
use dnsv_canonical::Capture;
use dnsv_chain::Trust;
use dnsv_names::Name;
use dnsv_proof_forms::{Denial, NameHashes};

/// How it is shown that a question's name may be unsigned from some name on. Numbers of labels are of its rightmost.
#[derive(Debug, Drop)]
pub enum ShownCut {
    /// A delegation without DS has so many labels (RFC 4035 5.2, RFC 5155 8.9).
    NoDs {
        /// The name's number of labels.
        labels: usize,
        /// The record that shows it.
        shown: ShownDenial,
    },
    /// A name of so many labels has DS records of which none can be used (RFC 4035 5.2).
    NoUsableDs {
        /// The name's number of labels.
        labels: usize,
    },
    /// Opt-Out may leave out a delegation at the next closer name, or at the wildcard beside it (RFC 5155 8.6, 9.2).
    OptOut {
        /// The closest encloser's number of labels.
        labels: usize,
        /// The records that leave it open.
        shown: ShownDenial,
    },
}

/// How it is shown from which name on the name may be unsigned, or `None` where the evidence shows none.
pub fn shown_cut<'a>(
    capture: &Capture<'_>,
    trust: &Trust<'_>,
    name: &'a Name,
    zones: &'a [ZoneRecords<'a, 'a>],
    sets: &'a [NameHashes<'a>],
) -> Option<ShownCut>
    requires { IsViewOf (SecuredIn trust.now) capture.now.rrsets name.now sets.now zones.now }
    ensures { MatchOption result (¬ HasUnsignedCut (SecuredIn trust.now) capture.now.rrsets name.now)
        (IsShownCut (SecuredIn trust.now) capture.now.rrsets name.now) }
{
    let found = zones_cuts(zones, name, sets);
    let no_usable_ds = highest_unusable_ds(capture, trust, name);
    if let Some(labels) = found.no_ds {
        let Some(shown) = first_proof(Denial::Delegation(labels), name, zones, sets) else {
            return None;
        };
        return Some(ShownCut::NoDs { labels, shown });
    }
    if let Some(labels) = no_usable_ds {
        return Some(ShownCut::NoUsableDs { labels });
    }
    let Some(labels) = found.opt_out else {
        return None;
    };
    let Some(shown) = first_proof(Denial::OptOut(labels), name, zones, sets) else {
        return None;
    };
    Some(ShownCut::OptOut { labels, shown })
}

/// How the zone shows that Opt-Out may leave out a delegation at the next closer name to the name's so many labels,
/// against an answer from the wildcard (RFC 5155 8.8); `None` where it doesn't.
pub fn shown_loose_closer(
    zones: &[ZoneRecords<'_, '_>],
    sets: &[NameHashes<'_>],
    name: &Name,
    zone: &Name,
    labels: usize,
) -> Option<ShownDenial>
    requires hashed { AllByRecursion (IsSetOf name.now) sets.now }
    requires zones { length zones.now ≡ length name.now + 1 }
    ensures { (trust : KeptTrust) (rrsets : List ReceivedRrset) → AreSets (SecuredIn trust) rrsets sets.now
        → AreZones (SecuredIn trust) rrsets name.now zones.now
        → MatchOption result (¬ HasOptedOutNextCloser (SecuredIn trust) rrsets name.now labels zone.now)
        (IsShownOptOutCloser (SecuredIn trust) rrsets name.now labels zone.now) }
{
    if !name.is_at_or_below(zone) {
        return None;
    }
    let kept = &zones[zone.labels()];
    zone_proof(Denial::OptOutCloser(labels), name, kept, sets)
}
