//! Names at or above the one that is asked for.
ghost use Rattle.std.specs.Prelude.{MatchOption};
ghost use Rattle.dnsv_names.specs.Name.{Labels};
ghost use Rattle.dnsv_trust_reasons.specs.Places.{IsAbove};

use dnsv_names::Name;

/// The name with so many labels at or above this one; `None` where it has fewer.
pub fn above(name: &Name, labels: usize) -> Option<Name>
    ensures { MatchOption result ((each : Labels) → ¬ IsAbove name.now labels each) (IsAbove name.now labels) }
{
    if labels > name.labels() {
        return None;
    }
    Some(name.suffix(labels))
}
