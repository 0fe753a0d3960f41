//! The lines of a DS RRset of which no record can be used.
ghost use Rattle.std.specs.Prelude.{◌≡◌, ◌↔◌, ◌+◌, ℕ, IfOk, IsTrue, MatchOption, None, OnOk};
ghost use Rattle.dnsv_names.specs.Name.{Labels};
ghost use Rattle.dnsv_canonical.specs.Rrsets.{IsNumbered};
ghost use Rattle.dnsv_anchors.specs.Ds.{IsUsable};
ghost use Rattle.dnsv_derivations.specs.Explained.{setting_in};
ghost use Rattle.dnsv_derivations.specs.Following.Parts.{IsWhy};
ghost use Rattle.dnsv_derivations.specs.Saying.{Adds};
ghost use Rattle.dnsv_derivations.specs.unsigned_cuts.UnsignedCuts.{AreAllTold, IsFirstUnusable, IsUnusableSet, IsUnusableTold};

use crate::denials::case::add_case;
use crate::derivations::lowest_secured;
use crate::derivations::own::add_derivation;
use crate::derivations::ways::by_ds::may_delegate;
use crate::evidence::Evidence;
use dnsv_canonical::{RecordNumber, Rrset, numbered};
use dnsv_chain::has_usable;
use dnsv_digest::DigestAlgorithm;
use dnsv_lines::{InsecureCase, KeyName, Line, UnusableDs, WhyUnusable};
use dnsv_names::Name;
use dnsv_records::Ds;
use dnsv_rrsets::in_canonical_order;
use std::alloc::{AllocError, Global};

/// Adds the lines of the name's first DS RRset that has a good signature and no record that can be used: the derivation
/// of its lowest signature, the case, and why each record can't be used.
pub fn add_unusable(
    alloc: Global,
    evidence: &Evidence<'_>,
    lines: &mut Vec<Line>,
    name: &Name,
) -> Result<(), AllocError>
    requires { (k : ℕ) × IsUnusableSet (setting_in evidence.now) name.now k }
    ensures { OnOk result (Adds (IsUnusableTold (setting_in evidence.now) name.now) lines.old.items lines.new.items) }
{
    let Some(number) = first_unusable(evidence, name) else {
        return Ok(());
    };
    let Some(lowest) = lowest_secured(evidence, number) else {
        return Ok(());
    };
    add_derivation(alloc, evidence, lines, lowest)?;
    add_case(lines, InsecureCase::UnusableDs, name, None)?;
    add_why(alloc, evidence, lines, number)?;
    Ok(())
}

/// The first DS RRset of the name that has a signature which is good under a trusted key and no record that can be used.
fn first_unusable(evidence: &Evidence<'_>, name: &Name) -> Option<usize>
    ensures { MatchOption result ((k : ℕ) → ¬ IsUnusableSet (setting_in evidence.now) name.now k)
        (IsFirstUnusable (setting_in evidence.now) name.now) }
{
    for (place, rrset) in evidence.rrsets().iter().enumerate() {
        if is_unusable(evidence, place + 1, rrset, name) {
            return Some(place + 1);
        }
    }
    None
}

/// Whether the RRset, which has the number, is such.
fn is_unusable(evidence: &Evidence<'_>, number: usize, rrset: &Rrset<'_>, name: &Name) -> bool
    requires { IsNumbered evidence.now.rrsets number rrset.now }
    ensures { IsTrue result ↔ IsUnusableSet (setting_in evidence.now) name.now number }
{
    if !may_delegate(evidence, number, rrset, name) {
        return false;
    }
    !has_usable(rrset.ds_records())
}

/// Adds why each record of the DS RRset with the number can't be used.
fn add_why(
    alloc: Global,
    evidence: &Evidence<'_>,
    lines: &mut Vec<Line>,
    number: usize,
) -> Result<(), AllocError>
    requires { (name : Labels) × IsUnusableSet (setting_in evidence.now) name number }
    ensures { OnOk result (Adds (AreAllTold evidence.now.rrsets number) lines.old.items lines.new.items) }
{
    let Some(rrset) = numbered(evidence.rrsets(), number) else {
        return Ok(());
    };
    let values = rrset.ds_records();
    let records = in_canonical_order(alloc, rrset, values)?;
    for (place, each) in records.iter().enumerate() {
        let ds = each.record;
        lines.push(Line::Unusable(UnusableDs {
            why: why_unusable(values, ds),
            owner: rrset.owner().clone()?,
            number: RecordNumber {
                rrset: number,
                place: place + 1,
            },
            key: KeyName {
                tag: ds.key_tag,
                algorithm: ds.algorithm,
            },
            digest_type: ds.digest_type,
        }))?;
    }
    Ok(())
}

/// Why the record can't be used among these: the first that is so. Of one that can be used, `DigestIgnored`.
fn why_unusable(records: &[Ds<'_>], ds: &Ds<'_>) -> WhyUnusable
    ensures { ¬ IsUsable records.now ds.now → IsWhy result records.now ds.now }
{
    if !ds.algorithm.is_supported() {
        return WhyUnusable::Algorithm;
    }
    if DigestAlgorithm::from_number(ds.digest_type.0).is_none() {
        return WhyUnusable::DigestType;
    }
    WhyUnusable::DigestIgnored
}
