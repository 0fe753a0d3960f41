//! Delegations whose DS records can't be used (RFC 4035 5.2).
ghost use Rattle.std.specs.Prelude.{ℕ, MatchOption};
ghost use Rattle.dnsv_chain.specs.Trust.{SecuredIn};
ghost use Rattle.dnsv_denial.specs.unsigned_cuts.Cuts.{IsFewest, IsUnusableDsCut};

use crate::unsigned_cuts::findings::lesser;
use dnsv_canonical::Capture;
use dnsv_chain::{Trust, is_unusable_ds};
use dnsv_names::Name;

/// How many labels the highest owner at or above the name has of whose DS RRsets one is secured and has no usable
/// record; or `None` where there is none (RFC 4035 5.2). It takes no memory.
pub fn highest_unusable_ds(capture: &Capture<'_>, trust: &Trust<'_>, name: &Name) -> Option<usize>
    ensures { MatchOption result
        ((labels : ℕ) → ¬ IsUnusableDsCut (SecuredIn trust.now) capture.now.rrsets name.now labels)
        (IsFewest (IsUnusableDsCut (SecuredIn trust.now) capture.now.rrsets name.now)) }
{
    let mut fewest = None;
    for (place, rrset) in capture.rrsets().iter().enumerate() {
        if is_unusable_ds(rrset, trust.signed(place + 1), name) {
            fewest = lesser(fewest, Some(rrset.owner().labels()));
        }
    }
    fewest
}
