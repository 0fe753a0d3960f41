//! What is so of the trust anchors of a zone.
ghost use Rattle.std.specs.Prelude.{◌≡◌, ◌↔◌, IfOk, IsTrue, OnOk};
ghost use Rattle.dnsv_names.specs.Name.{SameName};
ghost use Rattle.dnsv_anchors.specs.Anchor.{anchor_owner};
ghost use Rattle.dnsv_chain.specs.Basis.{basis_by};
ghost use Rattle.dnsv_zone_faults.specs.Groups.{AreAnchorFacts, anchor_wanted};
ghost use Rattle.dnsv_zone_faults.specs.Groups.GroupSearch.{AddsAnchor};
ghost use Rattle.dnsv_zone_keys.specs.Vouchers.{wanted_key};
ghost use Rattle.dnsv_zone_keys.specs.Vouchers.VoucherSearch.{AreKeysOfZone, wanted_of};

use dnsv_chain::Anchor;
use dnsv_faults::CaseFacts;
use dnsv_lines::{EntryNumber, KeyName};
use dnsv_mending::VoucherFacts;
use dnsv_names::Name;
use dnsv_zone_keys::{Asked, ZoneKeys, voucher_facts};
use std::alloc::{AllocError, Global};

/// What is so of the trust anchors at just the zone, which has these keys.
pub fn anchor_facts(
    alloc: Global,
    facts: &CaseFacts<'_>,
    keys: &ZoneKeys<'_>,
    zone: &Name,
) -> Result<Vec<VoucherFacts>, AllocError>
    requires { AreKeysOfZone facts.now.rrsets zone.now keys.now }
    ensures { IfOk result (λ anchors. AreAnchorFacts (basis_by facts.now) zone.now anchors.items) }
{
    let mut anchors = Vec::new(alloc);
    for (place, anchor) in facts.anchors().iter().enumerate() {
        add_anchor(alloc, keys, zone, place + 1, anchor, &mut anchors)?;
    }
    Ok(anchors)
}

/// Adds what is so of the anchor, which has the number, if it is one of the zone.
#[tactic(auto, using(crate::proofs::lemmas::GroupLemmas::alone))]
fn add_anchor(
    alloc: Global,
    keys: &ZoneKeys<'_>,
    zone: &Name,
    number: usize,
    anchor: &Anchor<'_>,
    anchors: &mut Vec<VoucherFacts>,
) -> Result<(), AllocError>
    ensures { OnOk result (AddsAnchor keys.now zone.now number anchor.now anchors.old.items anchors.new.items) }
{
    if !is_owner(anchor, zone) {
        return Ok(());
    }
    let number = EntryNumber::Anchor(number);
    anchors.push(voucher_facts(alloc, keys, number, asked_by(anchor), false)?)?;
    Ok(())
}

/// Whether the anchor is just at the zone.
fn is_owner(anchor: &Anchor<'_>, zone: &Name) -> bool
    ensures { IsTrue result ↔ SameName (anchor_owner anchor.now) zone.now }
{
    *anchor.owner() == *zone
}

/// The tag and the algorithm of the key that the anchor asks for.
pub fn anchor_key_name(anchor: &Anchor<'_>) -> KeyName
    ensures { result ≡ wanted_key (anchor_wanted anchor.now) }
{
    asked_by(anchor).key_name()
}

/// What the anchor asks for.
fn asked_by<'a>(anchor: &'a Anchor<'a>) -> Asked<'a>
    ensures { wanted_of result ≡ anchor_wanted anchor.now }
{
    match anchor {
        Anchor::Ds { ds, .. } => Asked::Digest(&[], ds),
        Anchor::Key { rdata, .. } => Asked::Key(rdata.as_slice()),
    }
}
