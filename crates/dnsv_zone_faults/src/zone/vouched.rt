//! Which keys of a zone anchors and DS records vouch for.
ghost use Rattle.std.specs.Prelude.{◌≡◌, IfOk, OnOk};
ghost use Rattle.std.specs.List.{list_any};
ghost use Rattle.dnsv_verifier.specs.Asking.{AddsJust, ComesOfSome};
ghost use Rattle.dnsv_zone_faults.specs.Groups.GroupSearch.{AreMatched, IsMatched, IsMatchedByDs};

use crate::zone::places::Places;
use dnsv_mending::{DsFacts, SignatureFacts, VoucherFacts};
use std::alloc::{AllocError, Global};

/// The places of the keys that one of the anchors matches, or a record of one of the DS RRsets that are signed.
pub fn vouched_places(
    alloc: Global,
    anchors: &[VoucherFacts],
    ds: &[DsFacts],
) -> Result<Places, AllocError>
    ensures { IfOk result (AreMatched anchors.now ds.now) }
{
    let mut places = Vec::new(alloc);
    add_matches(anchors, &mut places)?;
    add_all_of_ds(ds, &mut places)?;
    Ok(Places::of(places))
}

/// Adds the places of the keys that they match.
fn add_matches(vouchers: &[VoucherFacts], places: &mut Vec<usize>) -> Result<(), AllocError>
    ensures { OnOk result (AddsJust (ComesOfSome IsMatched vouchers.now) places.old.items places.new.items) }
{
    for voucher in vouchers {
        places.extend_from_slice(&voucher.matches)?;
    }
    Ok(())
}

/// Adds the places of the keys that a record of one of the DS RRsets matches, if that is signed.
fn add_all_of_ds(ds: &[DsFacts], places: &mut Vec<usize>) -> Result<(), AllocError>
    ensures { OnOk result (AddsJust (ComesOfSome IsMatchedByDs ds.now) places.old.items places.new.items) }
{
    for each in ds {
        add_of_ds(each, places)?;
    }
    Ok(())
}

/// Adds those of a record of the DS RRset.
fn add_of_ds(ds: &DsFacts, places: &mut Vec<usize>) -> Result<(), AllocError>
    ensures { OnOk result (AddsJust (IsMatchedByDs ds.now) places.old.items places.new.items) }
{
    if !has_signed(&ds.rrset.signatures) {
        return Ok(());
    }
    add_matches(&ds.records, places)?;
    Ok(())
}

/// Whether one of the signatures is good under a trusted key.
fn has_signed(signatures: &[SignatureFacts]) -> bool
    ensures { result ≡ list_any (λ each. each.is_signed) signatures.now }
{
    signatures.iter().any(|each| each.is_signed)
}
