//! The target of an alias.
ghost use Rattle.std.specs.Prelude.{◌≡◌, [], ◌∷◌, IfOk, MatchOption, map};
ghost use Rattle.dnsv_names.specs.Name.{Labels, IsName, wire};
ghost use Rattle.dnsv_canonical.specs.Canonical.{IsCanonical};
ghost use Rattle.dnsv_canonical.specs.CanonicalRdata.{canonical_form};
ghost use Rattle.dnsv_verdict.specs.Way.{IsTarget};

use dnsv_canonical::{Capture, canonical_rrset};
use dnsv_names::Name;
use std::alloc::{AllocError, Global};

/// The target of the RRset with the number, from 1 on: the name that its one record has, in lower case. `None` where no
/// RRset has the number, or it doesn't have one RDATA in canonical form, or that isn't a name's wire form.
pub fn target_of(
    alloc: Global,
    capture: &Capture<'_>,
    rrset: usize,
) -> Result<Option<Name>, AllocError>
    ensures { IfOk result (λ found. MatchOption found
        ((target : Labels) → ¬ IsTarget capture.now.rrsets rrset target)
        (IsTarget capture.now.rrsets rrset)) }
{
    let Some(numbered) = capture.rrset(rrset) else {
        return Ok(None);
    };
    let canonical = canonical_rrset(alloc, numbered)?;
    Ok(one_name(canonical.as_slice()))
}

/// The name whose wire form is the one RDATA.
fn one_name(canonical: &[Vec<u8>]) -> Option<Name>
    ensures { MatchOption result
        ((target : Labels) → IsName target → map (λ r. r.items) canonical.now ≡ wire target ∷ [] → ⊥)
        (λ target. IsName target × (map (λ r. r.items) canonical.now ≡ wire target ∷ [])) }
{
    if canonical.len() != 1 {
        return None;
    }
    whole_name(canonical[0].as_slice())
}

/// The name whose wire form all of the octets are.
fn whole_name(octets: &[u8]) -> Option<Name>
    ensures { MatchOption result ((target : Labels) → IsName target → octets.now ≡ wire target → ⊥)
        (λ target. IsName target × (octets.now ≡ wire target)) }
{
    let Some((name, length)) = Name::read(octets) else {
        return None;
    };
    if length != octets.len() {
        return None;
    }
    Some(name)
}
