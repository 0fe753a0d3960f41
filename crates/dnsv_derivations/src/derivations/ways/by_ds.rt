//! Ways into a DNSKEY RRset by DS records.
ghost use Rattle.std.specs.Prelude.{◌↔◌, ◌+◌, ◌≡◌, IfOk, IsTrue, MatchOption};
ghost use Rattle.dnsv_canonical.specs.Rrsets.{IsNumbered};
ghost use Rattle.dnsv_derivations.specs.Explained.{setting_in};
ghost use Rattle.dnsv_derivations.specs.derivations.Ways.{HasSecured};
ghost use Rattle.dnsv_derivations.specs.derivations.WaySearch.{IsFoundWay, IsKeySet, IsNoWay, IsNoWayBefore, MayDelegate};

use crate::derivations::ways::FoundWay;
use crate::derivations::ways::keys::KeySet;
use crate::derivations::ways::matcher::{Matcher, way_with};
use crate::evidence::Evidence;
use dnsv_canonical::{RecordNumber, Rrset, numbered};
use dnsv_chain::is_usable;
use dnsv_lines::Voucher;
use dnsv_names::{Name, RecordType};
use dnsv_rrsets::in_canonical_order;
use std::alloc::{AllocError, Global};

/// The first way into the DNSKEY RRset by a DS record: by the DS RRset of lowest number that has a signature which is
/// good under a trusted key, and its record of lowest place; then by the lowest key. There is none by an anchor.
pub fn way_by_ds(
    alloc: Global,
    evidence: &Evidence<'_>,
    set: &KeySet<'_>,
) -> Result<Option<FoundWay>, AllocError>
    requires set { IsKeySet (setting_in evidence.now) set.now }
    requires before { IsNoWayBefore (setting_in evidence.now) set.now.number 1 0 }
    ensures { IfOk result (λ way. MatchOption way (IsNoWay (setting_in evidence.now) set.now.number)
        (IsFoundWay (setting_in evidence.now) set.now.number)) }
{
    let rrsets = evidence.rrsets();
    let capture = evidence.capture();
    for number in capture.at(set.rrset.owner(), RecordType::DS) {
        let Some(ds) = numbered(rrsets, *number) else {
            continue;
        };
        if let Some(way) = way_in(alloc, evidence, set, *number, ds)? {
            return Ok(Some(way));
        }
    }
    Ok(None)
}

/// The first way by a record of the RRset, which has the number `from`, if it is a DS RRset that may lead to keys: by
/// its record of lowest place.
fn way_in(
    alloc: Global,
    evidence: &Evidence<'_>,
    set: &KeySet<'_>,
    from: usize,
    ds: &Rrset<'_>,
) -> Result<Option<FoundWay>, AllocError>
    requires set { IsKeySet (setting_in evidence.now) set.now }
    requires ds { IsNumbered evidence.now.rrsets from ds.now }
    requires before { IsNoWayBefore (setting_in evidence.now) set.now.number from 0 }
    ensures { IfOk result (λ way. MatchOption way (IsNoWayBefore (setting_in evidence.now) set.now.number (from + 1) 0)
        (IsFoundWay (setting_in evidence.now) set.now.number)) }
{
    if !may_delegate(evidence, from, ds, set.rrset.owner()) {
        return Ok(None);
    }
    let values = ds.ds_records();
    let records = in_canonical_order(alloc, ds, values)?;
    for (place, each) in records.iter().enumerate() {
        let number = RecordNumber {
            rrset: from,
            place: place + 1,
        };
        let matcher = Matcher::Ds(ds.owner(), each.record);
        let voucher = Voucher::Ds(number, each.record.digest_type);
        let Some(way) = way_with(set, matcher, voucher) else {
            continue;
        };
        // Few records match, and each is compared with all of the RRset.
        if is_usable(values, each.record) {
            return Ok(Some(way));
        }
    }
    Ok(None)
}

/// Whether the RRset, which has the number, is a DS RRset of the name, and has a signature which is good under a trusted
/// key.
pub fn may_delegate(evidence: &Evidence<'_>, number: usize, ds: &Rrset<'_>, name: &Name) -> bool
    ensures { IsTrue result ↔ MayDelegate (setting_in evidence.now) number ds.now name.now }
{
    ds.rtype() == RecordType::DS && *ds.owner() == *name && has_secured(evidence, number)
}

/// Whether a signature of the RRset with the number is good under a trusted key.
fn has_secured(evidence: &Evidence<'_>, number: usize) -> bool
    ensures { IsTrue result ↔ HasSecured (setting_in evidence.now) number }
{
    !evidence.secured(number).is_empty()
}
